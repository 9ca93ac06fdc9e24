//! Whole runs, one after another over one cache and one store.
use super::{
    BATCH, CONFIG, FOLDER_ALONE, HELD, Kept, MADE, NONE, REPORT, TWO, has_files, left_by,
    nothing_kept, owned, project, spoken,
};
use crate::{CopyBuilder, CopyPass, run_in_memory};
use ap_builder::Bench;
use ap_disk::{Pair, Side, SureMemoryDisk};
use ap_tree::{SureMemoryCache, SureMemorySink, SureMemoryTree, are_distinct};
use std::process::Abort;
use std::test::Fail;

/// A run over a project as it is then, and what comes of it: its status, its report, what the cache has, and how
/// long the store's file is.
#[derive(Clone, Copy)]
pub(crate) struct Step {
    pub(crate) config: &'static str,
    pub(crate) files: &'static [(&'static str, &'static str)],
    pub(crate) status: u8,
    pub(crate) output: &'static str,
    pub(crate) cache: &'static [(&'static str, &'static str)],
    pub(crate) length: usize,
}

/// A run over a project without a file.
pub(crate) const EMPTY: Step = Step {
    config: CONFIG,
    files: &[],
    status: 0,
    output: "sources 0 jobs 0 done 0 published 0 shadowed 0 wrote 0 removed 0\nok\n",
    cache: &[],
    length: 37,
};

/// How many lines of a report name entries.
fn entries_in(report: &str) -> usize {
    let mut count = 0usize;
    for line in report.lines() {
        if line.starts_with("create ") || line.starts_with("process ") {
            count = count.saturating_add(1);
        }
    }
    count
}

fn take(rt: &(impl Abort + AllocGlobal), kept: &mut Kept, step: &Step) -> Result<(), Fail> {
    let wanted = step.output;
    let files = project(rt.alloc(), step.config, step.files)?;
    let left = left_by(rt, BATCH, files, kept, &NONE)?;
    let status = left.status;
    assert!(rt; status == step.status, "{wanted}: {status}");
    assert!(rt; left.output.as_slice() == wanted.as_bytes(), "{wanted}");
    assert!(rt; left.entries == entries_in(wanted), "{wanted}");
    assert!(rt; has_files(kept.cache.files(), step.cache), "{wanted}");
    let length = kept.store.disk(Side::A).bytes().len();
    assert!(rt; length == step.length, "{wanted}: {length}");
    Ok(())
}

/// Takes steps one after another, the first over an empty cache and an empty store.
pub(crate) fn take_all(rt: &(impl Abort + AllocGlobal), steps: &[Step]) -> Result<(), Fail> {
    let mut kept = nothing_kept(rt)?;
    for step in steps {
        take(rt, &mut kept, step)?;
    }
    Ok(())
}

#[test]
fn a_folder_without_a_file_is_recorded(rt: HostRuntime) -> Result<(), Fail> {
    let mut kept = nothing_kept(&rt)?;
    take(&rt, &mut kept, &EMPTY)?;
    assert!(rt; kept.store.disk(Side::A).bytes() == FOLDER_ALONE);
    Ok(())
}

const TWO_FOLDERS: &str = "platforms = ['pc']
folder = [{ order = 10, path = 'gem' }, { order = 0, path = 'game' }]
builder = [{ name = 'copy' }]
";

/// A file in two folders, and then in the folder of the greater order alone.
fn two_folders() -> [Step; 2] {
    [
        Step {
            config: TWO_FOLDERS,
            files: &[("gem/a.txt", "old\n"), ("game/a.txt", "new\n")],
            output: "create copy a.txt\nprocess pc copy a.txt\nhidden 10 a.txt\nsources 1 jobs 1 done 1 published 1 shadowed 0 wrote 1 removed 0\nok\n",
            cache: &[("pc/a.txt", "new\n")],
            length: 365,
            ..EMPTY
        },
        Step {
            config: TWO_FOLDERS,
            files: &[("gem/a.txt", "old\n")],
            output: "create copy a.txt\nprocess pc copy a.txt\nsources 1 jobs 1 done 1 published 1 shadowed 0 wrote 1 removed 0\nok\n",
            cache: &[("pc/a.txt", "old\n")],
            length: 720,
            ..EMPTY
        },
    ]
}

#[test]
fn the_least_order_wins(rt: HostRuntime) -> Result<(), Fail> {
    take_all(&rt, &two_folders())
}

/// Two names of one folder that fold alike, and an odd name beside what is hidden.
fn names() -> [Step; 2] {
    [
        Step {
            files: &[("game/a.txt", "2\n"), ("game/A.txt", "1\n")],
            output: "create copy a.txt\nprocess pc copy a.txt\nhidden 0 a.txt\nsources 1 jobs 1 done 1 published 1 shadowed 0 wrote 1 removed 0\nok\n",
            cache: &[("pc/a.txt", "1\n")],
            length: 354,
            ..EMPTY
        },
        Step {
            files: &[
                ("game/x\\Y.txt", ""),
                ("game/a.txt", "2\n"),
                ("game/A.txt", "1\n"),
            ],
            status: 1,
            output: "hidden 0 a.txt\nodd 0 785c592e747874\nsources 1 jobs 1 done 1 published 1 shadowed 0 wrote 1 removed 0\nproblems\n",
            cache: &[("pc/a.txt", "1\n")],
            length: 354,
            ..EMPTY
        },
    ]
}

#[test]
fn one_name_stands_for_a_path(rt: HostRuntime) -> Result<(), Fail> {
    take_all(&rt, &names())
}

const MANY: &str = "platforms = ['pc', 'android']
builder = [{ name = 'copy', version = 3, patterns = ['*.PNG', 'readme.*'] }]

[[folder]]
order = 20
path = 'Engine/Assets'

[[folder]]
order = 10
path = 'Gem'
exclude = ['old/*', '*.TMP']

[[folder]]
order = 0
path = 'Game'
";

const FEWER: &str = "platforms = ['pc']
builder = [{ name = 'copy', version = 4, patterns = ['readme.*', '*.png'] }]
folder = [{ order = 20, path = 'Engine/Assets' }, { order = 10, path = 'Gem', exclude = ['*/*', '*.tmp'] }, { order = 0, path = 'Game' }]
";

const ASSETS: &[(&str, &str)] = &[
    ("Engine/Assets/Textures/Grid.png", "grid\n"),
    ("Engine/Assets/Readme.txt", "engine\n"),
    ("Gem/README.TXT", "gem\n"),
    ("Gem/Old/a.png", "old\n"),
    ("Gem/readme.tmp", "tmp\n"),
    ("Game/textures/GRID.png", "game\n"),
    ("Game/Notes.md", "todo\n"),
];

const ON_BOTH: &[(&str, &str)] = &[
    ("android/readme.txt", "gem\n"),
    ("pc/readme.txt", "gem\n"),
    ("android/textures/grid.png", "game\n"),
    ("pc/textures/grid.png", "game\n"),
];

/// Three folders on two platforms, the same again, and then on one of them under a later version.
fn many() -> [Step; 3] {
    [
        Step {
            config: MANY,
            files: ASSETS,
            output: "create copy readme.txt\ncreate copy textures/grid.png\nprocess android copy readme.txt\nprocess pc copy readme.txt\nprocess android copy textures/grid.png\nprocess pc copy textures/grid.png\nhidden 20 Readme.txt\nhidden 20 Textures/Grid.png\nsources 2 jobs 4 done 4 published 4 shadowed 0 wrote 4 removed 0\nok\n",
            cache: ON_BOTH,
            length: 1162,
            ..EMPTY
        },
        Step {
            config: MANY,
            files: ASSETS,
            output: "hidden 20 Readme.txt\nhidden 20 Textures/Grid.png\nsources 2 jobs 4 done 4 published 4 shadowed 0 wrote 4 removed 0\nok\n",
            cache: ON_BOTH,
            length: 1162,
            ..EMPTY
        },
        Step {
            config: FEWER,
            files: ASSETS,
            output: "create copy readme.txt\ncreate copy textures/grid.png\nprocess pc copy readme.txt\nprocess pc copy textures/grid.png\nhidden 20 Readme.txt\nhidden 20 Textures/Grid.png\nsources 2 jobs 2 done 2 published 2 shadowed 0 wrote 2 removed 0\nok\n",
            cache: ON_BOTH,
            length: 1787,
            ..EMPTY
        },
    ]
}

#[test]
fn many_folders_on_two_platforms(rt: HostRuntime) -> Result<(), Fail> {
    take_all(&rt, &many())
}

/// Runs over forms that never fail, with a sink of so much room; the status, and whether the output is a front of
/// the report that fills the room, or all of it.
fn surely(rt: &(impl Abort + AllocGlobal), room: usize, wanted: &str) -> Result<u8, Fail> {
    let alloc = rt.alloc();
    let words = spoken(alloc, BATCH)?;
    let files = project(alloc, CONFIG, TWO)?;
    assert!(rt; are_distinct(&files));
    let mut tree = SureMemoryTree::of(files);
    let held = owned(alloc, HELD)?;
    assert!(rt; are_distinct(&held));
    let mut cache = SureMemoryCache::of(held);
    let a = SureMemoryDisk::new(vec![in alloc; 0u8; 4096]?, 0);
    let b = SureMemoryDisk::new(vec![in alloc; 0u8; 4096]?, 0);
    let mut store = Pair::new(a, b);
    let mut bench = Bench::new(alloc, CopyPass);
    let mut out = SureMemorySink::new(vec![in alloc; 0u8; room]?);
    let status = run_in_memory(
        alloc,
        &words,
        &mut tree,
        &mut cache,
        &mut store,
        &CopyBuilder,
        &mut bench,
        &mut out,
    );
    assert!(rt; out.written() == wanted.as_bytes(), "{status}");
    assert!(rt; has_files(cache.files(), MADE), "{status}");
    Ok(status)
}

#[test]
fn forms_that_never_fail_meet_no_fault(rt: HostRuntime) -> Result<(), Fail> {
    assert!(rt; surely(&rt, 4096, REPORT)? == 0);
    assert!(rt; surely(&rt, 20, "create copy a.txt\ncr")? == 7);
    Ok(())
}
