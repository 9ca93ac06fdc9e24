ghost use Rattle.std.specs.Prelude.{◌≡◌, ◌≢◌, IfOk, IfErr, None};
ghost use Rattle.ap_scan.specs.Winners.{HasOwnOrders};
ghost use Rattle.ap_scan.specs.declared.fault.ScanFault.TheVariants.{TreeFault as TreeFailed};

use crate::{Scan, ScanFault, scan};
use ap_config::{Config, Offer};
use ap_text::{Bytes, List, Name, OutOfMemory, RelPath, Seen, Which};
use ap_tree::{DirTree, MemoryTree, SureMemoryTree, Tree, TreeFault, are_distinct};
use std::alloc::Global;
use std::os::unix::fs::symlink;
use std::process::Abort;
use std::test::Fail;
use std::{env, fs, process};

/// The configuration that a text spells, with one builder.
fn read_config(alloc: Global, text: &str) -> Result<Config, Fail>
    ensures { IfOk result (λ config. HasOwnOrders config.folders) }
{
    let mut offers = Vec::new(alloc);
    offers.push(Offer {
        name: Name::read(alloc, b"copy")?,
        patterns: List::of(Vec::new(alloc)),
        version: 1,
    })?;
    let config = Config::read(alloc, text.as_bytes(), &offers)?;
    Ok(config)
}

/// The configuration of some folders, each an order, a path and what is excluded, with `;` between two.
fn config_of(alloc: Global, folders: &str) -> Result<Config, Fail>
    ensures { IfOk result (λ config. HasOwnOrders config.folders) }
{
    let mut text = String::from_str(alloc, "platforms = ['pc']\nbuilder = [{ name = 'copy' }]\n")?;
    for folder in folders.split(';') {
        let (order, rest) = folder.split_once(' ').ok_or("no order")?;
        let (path, exclude) = rest.split_once(' ').unwrap_or((rest, ""));
        let lines = format!(in alloc;
            "[[folder]]\norder = {order}\npath = '{path}'\nexclude = [{exclude}]\n"
        )?;
        text.push_str(lines.as_str())?;
    }
    read_config(alloc, text.as_str())
}

/// `^` stands for a byte that is no UTF-8, and `~` for a control character.
fn meant(alloc: Global, text: &str) -> Result<Bytes, Fail> {
    let mut bytes = Vec::new(alloc);
    for byte in text.as_bytes() {
        bytes.push(match byte {
            b'^' => 0xff,
            b'~' => 1,
            other => *other,
        })?;
    }
    Ok(Bytes::of(bytes))
}

fn spelled(alloc: Global, bytes: &[u8]) -> Result<String, Fail> {
    let mut text = String::new(alloc);
    for byte in bytes {
        text.push(match byte {
            0xff => '^',
            1 => '~',
            other => char::from(*other),
        })?;
    }
    Ok(text)
}

/// Files, each a path and bytes, with `;` between two.
fn files_of(alloc: Global, files: &str) -> Result<Vec<(Bytes, Bytes)>, Fail> {
    let mut all = Vec::new(alloc);
    for file in files.split(';') {
        let (path, bytes) = file.split_once(' ').ok_or("no bytes")?;
        all.push((meant(alloc, path)?, meant(alloc, bytes)?))?;
    }
    Ok(all)
}

fn seen_words(alloc: Global, seen: &Seen) -> Result<String, Fail> {
    match seen {
        Seen::Bytes(bytes) => spelled(alloc, bytes.as_slice()),
        Seen::Absent => Ok(String::from_str(alloc, "(absent)")?),
        Seen::TooLarge => Ok(String::from_str(alloc, "(too large)")?),
    }
}

/// Each winner, hidden file and odd name, with `;` behind each.
fn lines(alloc: Global, scan: &Scan) -> Result<String, Fail> {
    let mut text = String::new(alloc);
    for winner in scan.winners.as_slice() {
        let seen = seen_words(alloc, &winner.seen)?;
        let (path, name) = (winner.path.as_str(), winner.name.as_str());
        text.push_str(format!(in alloc; "{path} is {} {name} {seen};", winner.order)?.as_str())?;
    }
    for hidden in scan.hidden.as_slice() {
        let name = hidden.name.as_str();
        text.push_str(format!(in alloc; "hidden {} {name};", hidden.order)?.as_str())?;
    }
    for odd in scan.odd.as_slice() {
        let name = spelled(alloc, odd.name.as_slice())?;
        text.push_str(format!(in alloc; "odd {} {name};", odd.order)?.as_str())?;
    }
    Ok(text)
}

/// What a scan answers, as text.
fn words(alloc: Global, answer: &Result<Scan, ScanFault>) -> Result<String, Fail> {
    match answer {
        Ok(scan) => lines(alloc, scan),
        Err(ScanFault::TreeFault) => Ok(String::from_str(alloc, "tree fault")?),
        Err(ScanFault::Limit { which, count }) if *which == Which::Files => {
            Ok(format!(in alloc; "files {count}")?)
        }
        Err(ScanFault::Limit { count, .. }) => Ok(format!(in alloc; "bytes {count}")?),
        Err(ScanFault::OutOfMemory) => Ok(String::from_str(alloc, "out of memory")?),
    }
}

/// A tree that never fails is never answered to have failed.
fn scan_surely(alloc: Global, tree: &mut SureMemoryTree, config: &Config) -> Result<Scan, ScanFault>
    requires { HasOwnOrders config.now.folders }
    ensures { IfErr result (λ fault. fault ≢ TreeFailed) }
{
    scan(alloc, tree, config)
}

/// Folders, the files of a tree, and what a scan finds.
const ROWS: &str =
    "10 gem;0 game => game/a.txt new;gem/a.txt old => a.txt is 0 a.txt new;hidden 10 a.txt;
10 gem;0 game => gem/a.txt old => a.txt is 10 a.txt old;
0 game => game/a.txt 2;game/A.txt 1 => a.txt is 0 A.txt 1;hidden 0 a.txt;
10 gem;0 game => gem/B 1;gem/b 2;gem/A 3;game/a 4;game/A 5;game/b 6;game/C/d  => a is 0 A 5;b is 0 b 6;c/d is 0 C/d ;hidden 0 a;hidden 10 A;hidden 10 B;hidden 10 b;
5 game;2 game => game/b^ 1;game/a 2;game/a\\ 3 => a is 2 a 2;hidden 5 a;odd 2 a\\;odd 2 b^;odd 5 a\\;odd 5 b^;
0 game '*.TMP', 'old/*';1 gem => game/a.tmp 1;gem/A.tmp 2;game/Old/b 3;game/old/~.tmp 4 => a.tmp is 1 A.tmp 2;odd 0 old/~.tmp;
0 game => games/a 1;gam 2;game 3 => ";

#[test]
fn the_first_wins(rt: HostRuntime) -> Result<(), Fail> {
    let alloc = rt.alloc();
    for row in ROWS.lines() {
        let (folders, rest) = row.split_once(" => ").ok_or("no files")?;
        let (files, wanted) = rest.split_once(" => ").ok_or("no lines")?;
        let config = config_of(alloc, folders)?;
        let files = files_of(alloc, files)?;
        assert!(rt; are_distinct(&files));
        let mut tree = SureMemoryTree::of(files);
        let words = words(alloc, &scan_surely(alloc, &mut tree, &config))?;
        assert!(rt; words.as_str() == wanted, "{words}");
    }
    Ok(())
}

#[test]
fn a_tree_that_fails(rt: HostRuntime) -> Result<(), Fail> {
    let alloc = rt.alloc();
    let config = config_of(alloc, "10 gem;0 game")?;
    for number in 1..6u64 {
        let files = files_of(alloc, "game/a 1;gem/A 2;gem/b 3")?;
        assert!(rt; are_distinct(&files));
        let mut tree = MemoryTree::of(files, [number].to_vec(alloc)?);
        let words = words(alloc, &scan(alloc, &mut tree, &config))?;
        assert!(rt;
            (words.as_str() == "tree fault") == (number < 5),
            "{number}: {words}"
        );
        assert_eq!(rt; tree.faults(), u64::from(number < 5));
    }
    Ok(())
}

/// A tree whose folders each have numbered files of one size. It counts what is read, and after so many
/// reads its files are gone.
#[derive(Drop)]
struct NumberedTree {
    files: usize,
    size: usize,
    stays: usize,
    reads: usize,
}

impl Tree for NumberedTree {
    ghost files = { λ _. None };

    ghost faults = { λ _. 0 };

    ghost distinct = { λ _. tt };

    fn list(
        &mut self,
        alloc: Global,
        _folder: &RelPath,
        _exclude: &[Bytes],
    ) -> Result<Vec<Bytes>, TreeFault> {
        match numbered(alloc, self.files) {
            Ok(names) => Ok(names),
            Err(_) => Err(TreeFault::OutOfMemory),
        }
    }

    fn read(&mut self, alloc: Global, _path: &[u8]) -> Result<Seen, TreeFault> {
        self.reads = self.reads.saturating_add(1);
        if self.reads > self.stays {
            return Ok(Seen::Absent);
        }
        match vec![in alloc; 0u8; self.size] {
            Ok(bytes) => Ok(Seen::Bytes(Bytes::of(bytes))),
            Err(_) => Err(TreeFault::OutOfMemory),
        }
    }

    fn faults(&self) -> u64 {
        0
    }
}

fn numbered(alloc: Global, count: usize) -> Result<Vec<Bytes>, OutOfMemory> {
    let mut names = Vec::new(alloc);
    for number in 0..count {
        let name = format!(in alloc; "f{number}.txt")?;
        names.push(Bytes::of(name.as_bytes().to_vec(alloc)?))?;
    }
    Ok(names)
}

/// The number of winners, or the words of a refusal.
fn number_words(alloc: Global, answer: &Result<Scan, ScanFault>) -> Result<String, Fail> {
    match answer {
        Ok(scan) => Ok(format!(in alloc; "winners {}", scan.winners.as_slice().len())?),
        Err(_) => words(alloc, answer),
    }
}

fn check_numbered(
    rt: &(impl Abort + AllocGlobal),
    files: usize,
    size: usize,
    stays: usize,
    wanted: &str,
) -> Result<(), Fail> {
    let alloc = rt.alloc();
    let config = config_of(alloc, "0 game")?;
    let mut tree = NumberedTree {
        files,
        size,
        stays,
        reads: 0,
    };
    let words = number_words(alloc, &scan(alloc, &mut tree, &config))?;
    let reads = tree.reads;
    let words = format!(in alloc; "{words} reads {reads}")?;
    assert!(rt; words.as_str() == wanted, "{words}");
    Ok(())
}

#[test]
fn limits_and_files_that_go(rt: HostRuntime) -> Result<(), Fail> {
    check_numbered(&rt, 20_001, 0, 30_000, "files 20001 reads 0")?;
    check_numbered(&rt, 20_000, 0, 30_000, "winners 20000 reads 20000")?;
    check_numbered(&rt, 64, 4_194_304, 100, "winners 64 reads 64")?;
    check_numbered(&rt, 70, 4_194_304, 100, "bytes 272629760 reads 65")?;
    check_numbered(&rt, 5, 2, 3, "winners 3 reads 5")
}

/// Scans one file with this many letters before `.txt` in its name, and so many bytes.
fn check_one(
    rt: &(impl Abort + AllocGlobal),
    letters: usize,
    len: usize,
    is_winner: bool,
    is_large: bool,
) -> Result<(), Fail> {
    let alloc = rt.alloc();
    let config = config_of(alloc, "0 game")?;
    let path = format!(in alloc; "game/{}.txt", "a".repeat(alloc, letters)?)?;
    let bytes = Bytes::of(vec![in alloc; b'x'; len]?);
    let mut files = Vec::new(alloc);
    files.push((Bytes::of(path.as_bytes().to_vec(alloc)?), bytes))?;
    assert!(rt; are_distinct(&files));
    let scan = scan(alloc, &mut SureMemoryTree::of(files), &config)
        .ok()
        .ok_or("refused")?;
    assert!(rt; scan.odd.as_slice().is_empty() == is_winner);
    match scan.winners.as_slice() {
        [winner] => assert!(rt; matches!(winner.seen, Seen::TooLarge) == is_large),
        _ => assert!(rt; !is_winner),
    }
    Ok(())
}

#[test]
fn large_files_and_long_names(rt: HostRuntime) -> Result<(), Fail> {
    check_one(&rt, 3, 4_194_304, true, false)?;
    check_one(&rt, 3, 4_194_305, true, true)?;
    check_one(&rt, 236, 1, true, false)?;
    check_one(&rt, 237, 1, false, false)
}

/// A folder of the test's own, empty.
fn make_folder(rt: &HostRuntime, name: &str) -> Result<String, Fail> {
    let temp = env::temp_dir(rt)?;
    let folder = format!(in rt.alloc();
        "{}/ap_scan_{}_{}",
        temp.as_str(),
        name,
        process::id(rt.process())
    )?;
    fs::create_dir_all(rt, folder.as_str())?;
    Ok(folder)
}

/// Writes a file whose bytes are its path.
fn put(rt: &HostRuntime, folder: &str, path: &str) -> Result<(), Fail> {
    let full = format!(in rt.alloc(); "{folder}/{path}")?;
    if let Some((parent, _)) = full.as_str().rsplit_once('/') {
        fs::create_dir_all(rt, parent)?;
    }
    fs::write(rt, full.as_str(), path.as_bytes())?;
    Ok(())
}

fn link(rt: &HostRuntime, original: &str, folder: &str, path: &str) -> Result<(), Fail> {
    let full = format!(in rt.alloc(); "{folder}/{path}")?;
    symlink(rt, original, full.as_str())?;
    Ok(())
}

/// Folders, among them a plain file, a link and one that isn't there.
const REAL: &str = "3 game;2 file;1 linked;0 none;4 Game";

const FOUND: &str =
    "a.txt is 3 A.txt game/A.txt;b/c.txt is 3 b/C.txt game/b/C.txt;hidden 3 a.txt;hidden 4 B/c.TXT;odd 3 ~;";

#[test]
fn real_folders(rt: HostRuntime) -> Result<(), Fail> {
    let alloc = rt.alloc();
    let folder = make_folder(&rt, "real")?;
    let root = folder.as_str();
    let paths = "game/b/C.txt;game/a.txt;game/A.txt;Game/B/c.TXT;file;game/\u{1}";
    for path in paths.split(';') {
        put(&rt, root, path)?;
    }
    link(&rt, "a.txt", root, "game/link")?;
    link(&rt, "b", root, "game/more")?;
    link(&rt, "game", root, "linked")?;
    let config = config_of(alloc, REAL)?;
    let mut tree = DirTree::new(rt, root)?;
    let words = words(alloc, &scan(alloc, &mut tree, &config))?;
    assert!(rt; words.as_str() == FOUND, "{words}");
    assert_eq!(rt; tree.faults(), 0);
    fs::remove_dir_all(&rt, root)?;
    Ok(())
}
