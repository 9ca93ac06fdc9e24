use crate::{Config, ConfigFault, Offer};
use ap_text::{Bytes, List, Name, RelPath};
use std::alloc::Global;
use std::process::Abort;
use std::test::Fail;

/// The configuration that the documents show, with each builder as it is offered.
const SAMPLE: &str = "platforms = [\"pc\"]

[[folder]]
order = 0
path = \"game\"

[[builder]]
name = \"copy\"
[[builder]]
name = \"flat\"
[[builder]]
name = \"join\"
[[builder]]
name = \"index\"
[[builder]]
name = \"parts\"
";

fn offer(alloc: Global, name: &[u8], pattern: &[u8], version: u32) -> Result<Offer, Fail> {
    let mut patterns = Vec::new(alloc);
    patterns.push(Bytes::of(pattern.to_vec(alloc)?))?;
    Ok(Offer {
        name: Name::read(alloc, name)?,
        patterns: List::of(patterns),
        version,
    })
}

fn offers(alloc: Global) -> Result<Vec<Offer>, Fail> {
    let mut offers = Vec::new(alloc);
    offers.push(offer(alloc, b"copy", b"*.png", 1)?)?;
    offers.push(offer(alloc, b"flat", b"*.mat", 1)?)?;
    offers.push(offer(alloc, b"join", b"*.join", 2)?)?;
    offers.push(offer(alloc, b"index", b"*.index", 3)?)?;
    offers.push(offer(alloc, b"parts", b"*.parts", 4)?)?;
    Ok(offers)
}

/// What a reading answers: the words of its fault, or `accepted`.
fn words(alloc: Global, answer: &Result<Config, ConfigFault>) -> Result<String, Fail> {
    match answer {
        Ok(_) => Ok(String::from_str(alloc, "accepted")?),
        Err(fault) => Ok(format!(in alloc; "{fault}")?),
    }
}

/// The text of a row: its lines, ` ; ` between two, and a good line for each key that they don't name.
fn row_text(alloc: Global, row: &str) -> Result<String, Fail> {
    let mut text = row.replace(alloc, " ; ", "\n")?;
    for (key, line) in [("platforms", PC), ("folder", GAME), ("builder", COPY)] {
        if !row.contains(key) {
            text = format!(in alloc; "{line}\n{text}")?;
        }
    }
    Ok(text)
}

/// Reads the text before the ` => ` of each row, and compares the words of the answer with those behind it.
/// A `|` ends words that end in a space.
fn check_rows(rt: &(impl Abort + AllocGlobal), rows: &str) -> Result<(), Fail> {
    let alloc = rt.alloc();
    let offers = offers(alloc)?;
    for row in rows.lines() {
        let (lines, wanted) = row.split_once(" => ").ok_or("no answer")?;
        let text = row_text(alloc, lines)?;
        let answer = words(alloc, &Config::read(alloc, text.as_bytes(), &offers))?;
        let wanted = wanted.strip_suffix('|').unwrap_or(wanted);
        assert!(rt; answer.as_str() == wanted, "{text}");
    }
    Ok(())
}

const PC: &str = "platforms = ['pc']";

const GAME: &str = "folder = [{ order = 0, path = 'game' }]";

const COPY: &str = "builder = [{ name = 'copy' }]";

/// One key that is unknown, of another kind or absent.
const KINDS: &str = "# as it is => accepted
platforms = ['pc' => not toml
folder = [{ order = 9223372036854775808, path = 'game' }] => not toml
platforms = ['pc'] ; platforms = [] => not toml
jobs = 4 => unknown key jobs
folder = [{ order = 0, path = 'game', name = 'x' }] => unknown key name
builder = [{ name = 'copy', path = 'x' }] => unknown key path
platforms = 'pc' => wrong kind platforms
platforms = [1] => wrong kind platforms
platforms = ['pc', ['pc']] => wrong kind platforms
folder = 'game' => wrong kind folder
folder = { order = 0, path = 'game' } => wrong kind folder
folder = ['game'] => wrong kind folder
folder = [{ order = '0', path = 'game' }] => wrong kind order
folder = [{ order = true, path = 'game' }] => wrong kind order
folder = [{ order = 0.0, path = 'game' }] => wrong kind order
folder = [{ order = 1979-05-27, path = 'game' }] => wrong kind order
folder = [{ order = -1, path = 'game' }] => wrong kind order
folder = [{ order = 4294967296, path = 'game' }] => wrong kind order
folder = [{ order = 0, path = 7 }] => wrong kind path
folder = [{ order = 0, path = 'game', exclude = '*' }] => wrong kind exclude
folder = [{ order = 0, path = 'game', exclude = [true] }] => wrong kind exclude
builder = 'copy' => wrong kind builder
[builder] ; name = 'copy' => wrong kind builder
builder = ['copy'] => wrong kind builder
builder = [{ name = 1 }] => wrong kind name
builder = [{ name = 'copy', patterns = 'x' }] => wrong kind patterns
builder = [{ name = 'copy', patterns = [1] }] => wrong kind patterns
builder = [{ name = 'copy', version = 0 }] => wrong kind version
builder = [{ name = 'copy', version = 4294967296 }] => wrong kind version
builder = [{ name = 'copy', version = true }] => wrong kind version
builder = [{ name = 'copy', version = '1' }] => wrong kind version
folder = [{ path = 'game' }] => wrong kind order
folder = [{ order = 0 }] => wrong kind path
folder = [{}] => wrong kind order
builder = [{ version = 1 }] => wrong kind name";

/// Several such keys: the first in byte order is named, element by element.
const FIRST_KEYS: &str = "platforms = 1 ; folder = 1 ; builder = 1 => wrong kind builder
platforms = 1 ; folder = 1 => wrong kind folder
platforms = 1 ; zones = 1 => wrong kind platforms
areas = 1 ; builder = 1 => unknown key areas
folder = [{ exclude = 1, order = true, path = 1 }] => wrong kind exclude
folder = [{ path = 1, order = true }] => wrong kind order
folder = [{ path = 1, about = 1, exclude = 1 }] => unknown key about
folder = [{ zone = 1 }] => unknown key zone
folder = [{ path = 'game' }, { zone = 1 }] => wrong kind order
folder = [{ zone = 1 }, { path = 'game' }] => unknown key zone
builder = [{ version = 0, patterns = 1, name = 1 }] => wrong kind name
builder = [{ version = 0, patterns = 1 }] => wrong kind patterns
builder = [{ version = 1 }, 'copy'] => wrong kind name
platforms = ['PC'] ; builder = [{ name = 'paint', version = 0 }] => wrong kind version";

/// Values that some rule refuses: the first rule is named.
const VALUES: &str =
    "folder = [{ order = 0, path = 'a' }, { order = 0, path = 'b' }] ; builder = [{ name = 'paint' }] => same order 0
folder = [{ order = 2, path = 'a' }, { order = 1, path = 'a' }, { order = 2, path = 'a' }, { order = 1, path = 'a' }] => same order 2
folder = [{ order = 4294967295, path = 'a' }, { order = 0, path = 'a' }] => accepted
platforms = ['PC'] ; builder = [{ name = 'paint' }] => unknown builder paint
builder = [{ name = 'copy' }, { name = 'copy' }, { name = 'paint' }] => unknown builder copy
builder = [{ name = 'paint' }, { name = 'copy' }, { name = 'copy' }] => unknown builder paint
builder = [{ name = 'Copy' }] => unknown builder Copy
platforms = ['pc', 'PC'] ; folder = [] => bad platform PC
platforms = ['pc', 'ios', 'pc', 'X'] => bad platform pc
platforms = [''] => bad platform |
platforms = ['abcdefghij0123456'] => bad platform abcdefghij0123456
platforms = ['abcdefghij012345', 'ios'] => accepted
platforms = [] ; folder = [{ order = 0, path = '../a' }] => nothing enabled
folder = [] => nothing enabled
folder = [{ order = 0, path = '../a' }] ; builder = [] => nothing enabled
folder = [{ order = 0, path = 'a//b' }] ; builder = [{ name = 'copy', patterns = [''] }] => bad path a//b
folder = [{ order = 0, path = '' }] => bad path |
folder = [{ order = 0, path = 'Cache' }] => bad path Cache
folder = [{ order = 0, path = 'CACHE/x' }] => bad path CACHE/x
folder = [{ order = 0, path = 'caches/x' }] => accepted
folder = [{ order = 0, path = 'x/cache' }] => accepted
folder = [{ order = 0, path = 'x' }, { order = 1, path = 'x\\y' }] => bad path x\\y
folder = [{ order = 0, path = 'x', exclude = ['*', ''] }] => bad pattern |
builder = [{ name = 'copy', patterns = [] }] => accepted
builder = [{ name = 'copy', patterns = ['A/*', ''] }] => bad pattern |";

#[test]
fn keys_of_another_kind_are_refused(rt: HostRuntime) -> Result<(), Fail> {
    check_rows(&rt, KINDS)
}

#[test]
fn the_first_key_is_named(rt: HostRuntime) -> Result<(), Fail> {
    check_rows(&rt, FIRST_KEYS)
}

#[test]
fn values_are_refused_in_order(rt: HostRuntime) -> Result<(), Fail> {
    check_rows(&rt, VALUES)
}

#[test]
fn patterns_have_a_limit(rt: HostRuntime) -> Result<(), Fail> {
    let alloc = rt.alloc();
    let offers = offers(alloc)?;
    let mut longest = String::new(alloc);
    for _ in 0..240 {
        longest.push_str("a")?;
    }
    let text = format!(in alloc;
        "{PC}\n{GAME}\nbuilder = [{{ name = 'copy', patterns = ['{longest}'] }}]\n"
    )?;
    let answer = words(alloc, &Config::read(alloc, text.as_bytes(), &offers))?;
    assert!(rt; answer.as_str() == "accepted");
    let text = format!(in alloc;
        "{PC}\nfolder = [{{ order = 0, path = 'x', exclude = ['{longest}b'] }}]\nbuilder = [{{ name = 'copy', patterns = [''] }}]\n"
    )?;
    let answer = words(alloc, &Config::read(alloc, text.as_bytes(), &offers))?;
    let wanted = format!(in alloc; "bad pattern {longest}b")?;
    assert!(rt; answer.as_str() == wanted.as_str());
    Ok(())
}

#[test]
fn the_sample_is_read(rt: HostRuntime) -> Result<(), Fail> {
    let alloc = rt.alloc();
    let offers = offers(alloc)?;
    let config = Config::read(alloc, SAMPLE.as_bytes(), &offers)?;
    let platforms = config.platforms.as_slice();
    assert_eq!(rt; platforms.len(), 1);
    assert!(rt; platforms[0].as_slice() == b"pc".as_slice());
    let folders = config.folders.as_slice();
    assert_eq!(rt; folders.len(), 1);
    assert_eq!(rt; folders[0].order, 0);
    assert!(rt; folders[0].path.as_str() == "game");
    assert_eq!(rt; folders[0].exclude.as_slice().len(), 0);
    let builders = config.builders.as_slice();
    assert_eq!(rt; builders.len(), 5);
    assert!(rt; builders[4].name.as_slice() == b"parts".as_slice());
    assert_eq!(rt; builders[4].version, 4);
    let patterns = builders[4].patterns.as_slice();
    assert_eq!(rt; patterns.len(), 1);
    assert!(rt; patterns[0].as_slice() == b"*.parts".as_slice());
    Ok(())
}

#[test]
fn changes_of_the_sample_are_refused(rt: HostRuntime) -> Result<(), Fail> {
    let alloc = rt.alloc();
    let offers = offers(alloc)?;
    let cut = format!(in alloc; "{SAMPLE}[[folder")?;
    let answer = words(alloc, &Config::read(alloc, cut.as_bytes(), &offers))?;
    assert!(rt; answer.as_str() == "not toml");
    let jobs = format!(in alloc; "jobs = 4\n{SAMPLE}")?;
    let answer = words(alloc, &Config::read(alloc, jobs.as_bytes(), &offers))?;
    assert!(rt; answer.as_str() == "unknown key jobs");
    let marked = format!(in alloc; "\u{feff}{SAMPLE}")?;
    let answer = words(alloc, &Config::read(alloc, marked.as_bytes(), &offers))?;
    assert!(rt; answer.as_str() == "accepted");
    let answer = words(
        alloc,
        &Config::read(alloc, b"platforms = ['\xff']", &offers),
    )?;
    assert!(rt; answer.as_str() == "not toml");
    Ok(())
}

#[test]
fn matching_builders_are_named_by_place(rt: HostRuntime) -> Result<(), Fail> {
    let alloc = rt.alloc();
    let offers = offers(alloc)?;
    let text = "platforms = ['ios', 'pc']
folder = [{ path = 'Game', order = 3, exclude = ['*.tmp'] }]
builder = [
    { name = 'join' },
    { name = 'copy', patterns = ['*.mat', '*.png'], version = 9 },
    { name = 'parts', patterns = [] },
    { name = 'flat' },
]
";
    let config = Config::read(alloc, text.as_bytes(), &offers)?;
    let folders = config.folders.as_slice();
    assert_eq!(rt; folders.len(), 1);
    assert_eq!(rt; folders[0].order, 3);
    assert!(rt; folders[0].path.as_str() == "Game");
    let exclude = folders[0].exclude.as_slice();
    assert_eq!(rt; exclude.len(), 1);
    assert!(rt; exclude[0].as_slice() == b"*.tmp".as_slice());
    let builders = config.builders.as_slice();
    assert_eq!(rt; builders.len(), 4);
    assert_eq!(rt; builders[0].version, 2);
    assert_eq!(rt; builders[1].version, 9);
    let path = RelPath::read(alloc, b"a/base.mat")?;
    let places = config.matching(alloc, &path)?;
    assert!(rt; places.as_slice() == [1, 3].as_slice());
    let path = RelPath::read(alloc, b"a/base.txt")?;
    assert_eq!(rt; config.matching(alloc, &path)?.len(), 0);
    Ok(())
}
