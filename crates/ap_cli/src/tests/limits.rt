//! Names, files and numbers of files at the greatest that a project may have, and past it.
ghost use Rattle.std.specs.Prelude.{None};

use super::{
    BATCH, CONFIG, Kept, NO_RECORD, NONE, has_files, left_by, left_in, nothing_kept, project,
};
use ap_disk::Side;
use ap_text::{Bytes, OutOfMemory, RelPath, Seen};
use ap_tree::{Tree, TreeFault};
use std::alloc::Global;
use std::process::Abort;
use std::test::Fail;

/// The files of a project with one of this path beside these.
fn with_file(
    alloc: Global,
    config: &str,
    files: &[(&str, &str)],
    path: &str,
    bytes: Vec<u8>,
) -> Result<Vec<(Bytes, Bytes)>, Fail> {
    let mut all = project(alloc, config, files)?;
    all.push((Bytes::of(path.as_bytes().to_vec(alloc)?), Bytes::of(bytes)))?;
    Ok(all)
}

/// Runs over one file with so many letters `a` before `.txt` in its name.
fn named(
    rt: &(impl Abort + AllocGlobal),
    letters: usize,
    status: u8,
    report: &str,
) -> Result<(), Fail> {
    let alloc = rt.alloc();
    let path = format!(in alloc; "game/{}.txt", "a".repeat(alloc, letters)?)?;
    let files = with_file(alloc, CONFIG, &[], path.as_str(), Vec::new(alloc))?;
    let mut kept = nothing_kept(rt)?;
    let left = left_by(rt, BATCH, files, &mut kept, &NONE)?;
    assert!(rt; left.status == status, "{letters}");
    assert!(rt; left.output.as_slice() == report.as_bytes(), "{letters}");
    Ok(())
}

#[test]
fn a_name_may_have_240_bytes(rt: HostRuntime) -> Result<(), Fail> {
    let alloc = rt.alloc();
    let name = "a".repeat(alloc, 236)?;
    let done = format!(in alloc;
        "create copy {name}.txt\nprocess pc copy {name}.txt\nsources 1 jobs 1 done 1 published 1 shadowed 0 wrote 1 removed 0\nok\n"
    )?;
    named(&rt, 236, 0, done.as_str())?;
    let digits = "61".repeat(alloc, 237)?;
    let odd = format!(in alloc;
        "odd 0 {digits}2e747874\nsources 0 jobs 0 done 0 published 0 shadowed 0 wrote 0 removed 0\nproblems\n"
    )?;
    named(&rt, 237, 1, odd.as_str())
}

const GEM_TOO: &str = "platforms = ['pc']
folder = [{ order = 0, path = 'game' }, { order = 1, path = 'gem', exclude = ['x/*'] }]
builder = [{ name = 'copy' }]
";

/// Runs over one small file and one that is too large.
fn with_large(
    rt: &(impl Abort + AllocGlobal),
    path: &str,
    status: u8,
    report: &str,
) -> Result<Kept, Fail> {
    let alloc = rt.alloc();
    let large = vec![in alloc; b'x'; 4_194_305]?;
    let files = with_file(alloc, GEM_TOO, &[("game/a.txt", "1\n")], path, large)?;
    let mut kept = nothing_kept(rt)?;
    let left = left_by(rt, BATCH, files, &mut kept, &NONE)?;
    assert!(rt; left.status == status, "{path}");
    assert!(rt; left.output.as_slice() == report.as_bytes(), "{path}");
    Ok(kept)
}

#[test]
fn a_winner_that_is_too_large_is_unbuilt(rt: HostRuntime) -> Result<(), Fail> {
    for path in ["game/b.txt", "game/b.md", "gem/b.txt"] {
        let kept = with_large(&rt, path, 13, "ap: unbuilt\n")?;
        assert!(rt; kept.cache.files().is_empty(), "{path}");
        assert!(rt; kept.store.disk(Side::A).bytes() == NO_RECORD, "{path}");
    }
    let done = "sources 1 jobs 1 done 1 published 1 shadowed 0 wrote 1 removed 0\nok\n";
    let made = "create copy a.txt\nprocess pc copy a.txt\n";
    for (path, hidden) in [("gem/A.txt", "hidden 1 A.txt\n"), ("gem/x/b.txt", "")] {
        let report = format!(in rt.alloc(); "{made}{hidden}{done}")?;
        let kept = with_large(&rt, path, 0, report.as_str())?;
        assert!(rt;
            has_files(kept.cache.files(), &[("pc/a.txt", "1\n")]),
            "{path}"
        );
    }
    Ok(())
}

/// A tree of that configuration and of so many files, all empty.
#[derive(Drop)]
struct NumberedTree {
    files: usize,
}

impl Tree for NumberedTree {
    ghost files = { λ _. None };

    ghost faults = { λ _. 0 };

    ghost distinct = { λ _. tt };

    fn list(
        &mut self,
        alloc: Global,
        _folder: &RelPath,
        _exclude: &[Bytes],
    ) -> Result<Vec<Bytes>, TreeFault> {
        match numbered(alloc, self.files) {
            Ok(names) => Ok(names),
            Err(_) => Err(TreeFault::OutOfMemory),
        }
    }

    fn read(&mut self, alloc: Global, path: &[u8]) -> Result<Seen, TreeFault> {
        let text = if path == b"ap.toml".as_slice() {
            CONFIG
        } else {
            ""
        };
        match text.as_bytes().to_vec(alloc) {
            Ok(bytes) => Ok(Seen::Bytes(Bytes::of(bytes))),
            Err(_) => Err(TreeFault::OutOfMemory),
        }
    }

    fn faults(&self) -> u64 {
        0
    }
}

fn numbered(alloc: Global, count: usize) -> Result<Vec<Bytes>, OutOfMemory> {
    let mut names = Vec::new(alloc);
    for number in 0..count {
        let name = format!(in alloc; "f{number}.txt")?;
        names.push(Bytes::of(name.as_bytes().to_vec(alloc)?))?;
    }
    Ok(names)
}

#[test]
fn too_many_files_are_a_limit(rt: HostRuntime) -> Result<(), Fail> {
    let mut tree = NumberedTree { files: 20_001 };
    let mut kept = nothing_kept(&rt)?;
    let left = left_in(rt.alloc(), BATCH, &mut tree, &mut kept, None)?;
    assert!(rt; left.status == 10);
    assert!(rt; left.output.as_slice() == b"ap: limit: files 20001\n".as_slice());
    assert!(rt; left.entries == 0);
    assert!(rt; kept.cache.files().is_empty());
    assert!(rt; kept.store.disk(Side::A).bytes() == NO_RECORD);
    Ok(())
}
