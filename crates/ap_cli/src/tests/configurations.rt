//! Words that are no command line, and files that say no configuration: the store isn't touched.
use super::{
    BATCH, FOLDER_ALONE, Failing, HELD, Kept, Left, NONE, ROOM, TWO, cache_of, has_files, left_by,
    owned, pair, project,
};
use ap_disk::Side;
use ap_text::Bytes;
use std::process::Abort;
use std::test::Fail;

const USAGE: &str =
    "ap: usage: ap batch CONFIG [--jobs N], ap serve CONFIG PORT, ap catalog PLATFORM ASSET, ap soak N\n";

const OTHER_WORDS: [&[&str]; 10] = [
    &[],
    &["batch"],
    &["batch", "a", "b"],
    &["batch", "ap.toml", "--jobs", "0"],
    &["batch", "ap.toml", "--jobs", "4", "--jobs", "4"],
    &["batch", "../ap.toml"],
    &["batch", ""],
    &["Batch", "ap.toml"],
    &["serve", "ap.toml", "1"],
    &["soak", "1"],
];

/// What stands in the file, and what the line says of it.
const TEXTS: [(&str, &str); 14] = [
    ("platforms = ['pc'", "not toml"),
    ("jobs = 4", "unknown key jobs"),
    (
        "builder = [{ name = 'copy', path = 'x' }]",
        "unknown key path",
    ),
    ("platforms = 'pc'", "wrong kind platforms"),
    ("folder = [{ path = 'game' }]", "wrong kind order"),
    (
        "folder = [{ order = 0, path = 'game' }, { order = 0, path = 'gem' }]",
        "same order 0",
    ),
    ("builder = [{ name = 'paint' }]", "unknown builder paint"),
    (
        "builder = [{ name = 'copy' }, { name = 'copy' }]",
        "unknown builder copy",
    ),
    ("platforms = ['pc', 'P C']", "bad platform P C"),
    ("", "nothing enabled"),
    (
        "platforms = ['pc']\nbuilder = [{ name = 'copy' }]",
        "nothing enabled",
    ),
    (
        "platforms = ['pc']\nbuilder = [{ name = 'copy' }]\nfolder = [{ order = 0, path = 'a/../b' }]",
        "bad path a/../b",
    ),
    (
        "platforms = ['pc']\nbuilder = [{ name = 'copy' }]\nfolder = [{ order = 0, path = 'Cache/x' }]",
        "bad path Cache/x",
    ),
    (
        "platforms = ['pc']\nbuilder = [{ name = 'copy', patterns = [''] }]\nfolder = [{ order = 0, path = 'game' }]",
        "bad pattern ",
    ),
];

/// Runs words over files, a held cache and a store with a record, and sees that neither was touched and nothing asked.
fn left_untouched(
    rt: &(impl Abort + AllocGlobal),
    words: &[&str],
    files: Vec<(Bytes, Bytes)>,
    failing: &Failing,
) -> Result<Left, Fail> {
    let mut kept = Kept {
        cache: cache_of(rt, HELD, None)?,
        store: pair(rt, FOLDER_ALONE, ROOM, None)?,
    };
    let left = left_by(rt, words, files, &mut kept, failing)?;
    assert!(rt; has_files(kept.cache.files(), HELD), "{words:?}");
    assert!(rt; kept.store.disk(Side::A).clock() == Some(0), "{words:?}");
    assert!(rt; left.entries == 0, "{words:?}");
    Ok(left)
}

#[test]
fn other_words_are_usage(rt: HostRuntime) -> Result<(), Fail> {
    for words in OTHER_WORDS {
        let files = project(rt.alloc(), super::CONFIG, TWO)?;
        let left = left_untouched(&rt, words, files, &NONE)?;
        assert!(rt; left.status == 2, "{words:?}");
        assert!(rt; left.output.as_slice() == USAGE.as_bytes(), "{words:?}");
    }
    Ok(())
}

/// That a run over these files says this of its configuration.
fn says(
    rt: &(impl Abort + AllocGlobal),
    words: &[&str],
    files: Vec<(Bytes, Bytes)>,
    said: &str,
) -> Result<(), Fail> {
    let wanted = format!(in rt.alloc(); "ap: configuration: {said}\n")?;
    let left = left_untouched(rt, words, files, &NONE)?;
    assert!(rt; left.status == 3, "{said}");
    assert!(rt; left.output.as_slice() == wanted.as_bytes(), "{said}");
    Ok(())
}

#[test]
fn other_texts_are_no_configuration(rt: HostRuntime) -> Result<(), Fail> {
    for (text, said) in TEXTS {
        says(&rt, BATCH, project(rt.alloc(), text, TWO)?, said)?;
    }
    Ok(())
}

#[test]
fn a_configuration_is_a_file_of_few_bytes(rt: HostRuntime) -> Result<(), Fail> {
    let alloc = rt.alloc();
    says(&rt, BATCH, owned(alloc, TWO)?, "absent")?;
    says(&rt, &["batch", "game"], owned(alloc, TWO)?, "absent")?;
    let mut files = owned(alloc, TWO)?;
    let path = Bytes::of(b"ap.toml".to_vec(alloc)?);
    files.push((path, Bytes::of(vec![in alloc; b'#'; 4_194_305]?)))?;
    says(&rt, BATCH, files, "too large")
}

#[test]
fn a_configuration_that_is_not_read_is_a_tree_fault(rt: HostRuntime) -> Result<(), Fail> {
    let failing = Failing {
        tree: Some(1),
        ..NONE
    };
    let files = project(rt.alloc(), "", TWO)?;
    let left = left_untouched(&rt, BATCH, files, &failing)?;
    assert!(rt; left.status == 4);
    assert!(rt; left.output.as_slice() == b"ap: tree fault\n".as_slice());
    Ok(())
}
