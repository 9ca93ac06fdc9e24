mod configurations;
mod devices;
mod later_runs;
mod limits;
mod projects;
mod stores;
mod two_builders;

use crate::{CopyBuilder, CopyPass, run};
use ap_builder::Bench;
use ap_disk::{MemoryDisk, Pair};
use ap_text::Bytes;
use ap_tree::{MemoryCache, MemorySink, MemoryTree, Tree, are_distinct};
use std::alloc::Global;
use std::process::Abort;
use std::test::Fail;

/// Room for all records of these tests.
const ROOM: usize = 4096;

/// How many calls a disk's log has room for, and how many written bytes.
const CALLS: usize = 800;

const LOGGED: usize = 16384;

/// What names the configuration.
const BATCH: &[&str] = &["batch", "ap.toml"];

/// The configuration of one folder, with the builder as it is offered.
const CONFIG: &str = "platforms = [\"pc\"]

[[folder]]
order = 0
path = \"game\"

[[builder]]
name = \"copy\"
";

/// The bytes of the store of a run over that configuration whose folder has no file.
const FOLDER_ALONE: &[u8] =
    b"APSTORE1\0\0\0\0\0\0\0\x01\x01\0\0\0\x0f\x09\0\0\0\x01\0\0\0\0\0\x04game\0";

/// The bytes of a store's file that has no record.
const NO_RECORD: &[u8] = b"APSTORE1\0\0\0\0\0\0\0\x01\0";

/// Two files in that configuration's folder, beside what is no source and what is in no scan folder.
const TWO: &[(&str, &str)] = &[
    ("game/b/C.png", "22"),
    ("game/no.md", ""),
    ("game/A.txt", "1\n"),
    ("gamer/no.txt", ""),
];

const REPORT: &str =
    "create copy a.txt\ncreate copy b/c.png\nprocess pc copy a.txt\nprocess pc copy b/c.png\nsources 2 jobs 2 done 2 published 2 shadowed 0 wrote 2 removed 0\nok\n";

const HELD: &[(&str, &str)] = &[("pc/a.txt", "stale"), ("pc/other.bin", "kept")];

const MADE: &[(&str, &str)] = &[
    ("pc/a.txt", "1\n"),
    ("pc/other.bin", "kept"),
    ("pc/b/c.png", "22"),
];

/// The call that fails of each object, by its number.
#[derive(Clone, Copy, Debug)]
struct Failing {
    tree: Option<u64>,
    cache: Option<u64>,
    disk: Option<u64>,
    sink: Option<u64>,
}

const NONE: Failing = Failing {
    tree: None,
    cache: None,
    disk: None,
    sink: None,
};

/// What one run leaves to the next: the cache and the store.
#[derive(Drop)]
struct Kept {
    cache: MemoryCache,
    store: Pair<MemoryDisk>,
}

/// What came of a run: its status, its output, and how many entries the bench gained.
#[derive(Drop)]
struct Left {
    status: u8,
    output: Vec<u8>,
    entries: usize,
}

fn listed(alloc: Global, number: Option<u64>) -> Result<Vec<u64>, Fail> {
    let mut numbers = Vec::new(alloc);
    if let Some(number) = number {
        numbers.push(number)?;
    }
    Ok(numbers)
}

fn owned(alloc: Global, files: &[(&str, &str)]) -> Result<Vec<(Bytes, Bytes)>, Fail> {
    let mut all = Vec::new(alloc);
    for (path, bytes) in files {
        let path = Bytes::of(path.as_bytes().to_vec(alloc)?);
        let bytes = Bytes::of(bytes.as_bytes().to_vec(alloc)?);
        all.push((path, bytes))?;
    }
    Ok(all)
}

fn spoken(alloc: Global, words: &[&str]) -> Result<Vec<String>, Fail> {
    let mut all = Vec::new(alloc);
    for word in words {
        all.push(String::from_str(alloc, word)?)?;
    }
    Ok(all)
}

/// The files of a project with this configuration.
fn project(
    alloc: Global,
    config: &str,
    files: &[(&str, &str)],
) -> Result<Vec<(Bytes, Bytes)>, Fail> {
    let mut all = owned(alloc, files)?;
    let path = Bytes::of(b"ap.toml".to_vec(alloc)?);
    all.push((path, Bytes::of(config.as_bytes().to_vec(alloc)?)))?;
    Ok(all)
}

/// A pair of disks in memory with room for so many bytes, the first of which has these.
fn pair(
    rt: &(impl Abort + AllocGlobal),
    bytes: &[u8],
    room: usize,
    failing: Option<u64>,
) -> Result<Pair<MemoryDisk>, Fail> {
    let alloc = rt.alloc();
    assert!(rt; 17 <= room && room <= ROOM && bytes.len() <= room);
    let bytes = bytes.to_vec(alloc)?;
    let a = MemoryDisk::new(alloc, bytes, room, CALLS, LOGGED, listed(alloc, failing)?)?;
    let b = MemoryDisk::new(alloc, Vec::new(alloc), ROOM, CALLS, 0, Vec::new(alloc))?;
    Ok(Pair::new(a, b))
}

/// A cache of these files, of which the call of this number fails.
fn cache_of(
    rt: &(impl Abort + AllocGlobal),
    files: &[(&str, &str)],
    failing: Option<u64>,
) -> Result<MemoryCache, Fail> {
    let alloc = rt.alloc();
    let files = owned(alloc, files)?;
    assert!(rt; are_distinct(&files));
    Ok(MemoryCache::of(files, listed(alloc, failing)?))
}

/// An empty cache and an empty store.
fn nothing_kept(rt: &(impl Abort + AllocGlobal)) -> Result<Kept, Fail> {
    Ok(Kept {
        cache: cache_of(rt, &[], None)?,
        store: pair(rt, b"", ROOM, None)?,
    })
}

/// Runs the words over a tree.
fn left_in<T: Tree>(
    alloc: Global,
    words: &[&str],
    tree: &mut T,
    kept: &mut Kept,
    failing: Option<u64>,
) -> Result<Left, Fail> {
    let words = spoken(alloc, words)?;
    let mut bench = Bench::new(alloc, CopyPass);
    let mut out = MemorySink::new(vec![in alloc; 0u8; 4096]?, listed(alloc, failing)?);
    let status = run(
        alloc,
        &words,
        tree,
        &mut kept.cache,
        &mut kept.store,
        &CopyBuilder,
        &mut bench,
        &mut out,
    );
    Ok(Left {
        status,
        output: out.written().to_vec(alloc)?,
        entries: bench.issued().len(),
    })
}

/// Runs the words over these files.
fn left_by(
    rt: &(impl Abort + AllocGlobal),
    words: &[&str],
    files: Vec<(Bytes, Bytes)>,
    kept: &mut Kept,
    failing: &Failing,
) -> Result<Left, Fail> {
    let alloc = rt.alloc();
    assert!(rt; are_distinct(&files));
    let mut tree = MemoryTree::of(files, listed(alloc, failing.tree)?);
    left_in(alloc, words, &mut tree, kept, failing.sink)
}

fn has_file(files: &[(Bytes, Bytes)], path: &str, bytes: &str) -> bool {
    for file in files {
        if file.0.as_slice() == path.as_bytes() && file.1.as_slice() == bytes.as_bytes() {
            return true;
        }
    }
    false
}

/// Whether files, whose paths differ, are these.
fn has_files(files: &[(Bytes, Bytes)], wanted: &[(&str, &str)]) -> bool {
    if files.len() != wanted.len() {
        return false;
    }
    for (path, bytes) in wanted {
        if !has_file(files, path, bytes) {
            return false;
        }
    }
    true
}
