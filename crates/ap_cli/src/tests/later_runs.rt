//! Runs one after another over one store, and runs over the images of a stopped one.
use super::projects::{EMPTY, Step, take_all};
use super::{BATCH, Kept, NONE, ROOM, cache_of, has_files, left_by, pair, project};
use ap_disk::{MemoryDisk, Pair, Side};
use std::alloc::Global;
use std::process::Abort;
use std::test::Fail;

const FILLS: [u8; 4] = [0, 1, 7, 255];

const MADE_A: &str =
    "create copy a.txt\nprocess pc copy a.txt\nsources 1 jobs 1 done 1 published 1 shadowed 0 wrote 1 removed 0\nok\n";

/// A project of one source.
const ONE: Step = Step {
    files: &[("game/a.txt", "1\n")],
    output: MADE_A,
    cache: &[("pc/a.txt", "1\n")],
    length: 354,
    ..EMPTY
};

/// One run after another over one store: nothing changed, a changed file, one with its older bytes again, one
/// that is gone, and a new one beside it when it is there again.
fn turns() -> [Step; 6] {
    [
        ONE,
        Step {
            output: "sources 1 jobs 1 done 1 published 1 shadowed 0 wrote 1 removed 0\nok\n",
            ..ONE
        },
        Step {
            files: &[("game/a.txt", "2\n")],
            cache: &[("pc/a.txt", "2\n")],
            length: 707,
            ..ONE
        },
        Step {
            length: 1060,
            ..ONE
        },
        Step {
            cache: &[("pc/a.txt", "1\n")],
            length: 1133,
            ..EMPTY
        },
        Step {
            files: &[("game/b.txt", "1\n"), ("game/a.txt", "1\n")],
            output: "create copy a.txt\ncreate copy b.txt\nprocess pc copy a.txt\nprocess pc copy b.txt\nsources 2 jobs 2 done 2 published 2 shadowed 0 wrote 2 removed 0\nok\n",
            cache: &[("pc/a.txt", "1\n"), ("pc/b.txt", "1\n")],
            length: 1755,
            ..ONE
        },
    ]
}

#[test]
fn later_runs_ask_for_what_differs(rt: HostRuntime) -> Result<(), Fail> {
    take_all(&rt, &turns())
}

/// The configuration of one folder each file of which is a source.
const EACH: &str = "platforms = ['pc']
folder = [{ order = 0, path = 'game' }]
builder = [{ name = 'copy', patterns = ['*'] }]
";

const THREE: [(&str, &str); 3] = [("game/a", "1"), ("game/b", ""), ("game/c", "333")];

const THREE_MADE: &[(&str, &str)] = &[("pc/a", "1"), ("pc/b", ""), ("pc/c", "333")];

/// The length of the store's file after each commit of a first run over the three files: the folder row, then
/// the sources, the creations and the results by path.
const LENGTHS: [usize; 10] = [37, 73, 108, 146, 255, 364, 473, 616, 759, 902];

const CREATES: [&str; 3] = ["create copy a\n", "create copy b\n", "create copy c\n"];

const PROCESSES: [&str; 3] = [
    "process pc copy a\n",
    "process pc copy b\n",
    "process pc copy c\n",
];

/// The report of a run over the three files, over a store that has the first so many commits.
fn report(alloc: Global, kept: usize) -> Result<Vec<u8>, Fail> {
    let created = kept.saturating_sub(4).min(3);
    let processed = kept.saturating_sub(7).min(3);
    let mut text = Vec::new(alloc);
    for line in CREATES[created..].iter().chain(&PROCESSES[processed..]) {
        text.extend_from_slice(line.as_bytes())?;
    }
    text.extend_from_slice(
        b"sources 3 jobs 3 done 3 published 3 shadowed 0 wrote 3 removed 0\nok\n",
    )?;
    Ok(text)
}

/// What a run over the three files leaves, that begins with these bytes in the store's file and ends with this
/// report.
fn whole_from(
    rt: &(impl Abort + AllocGlobal),
    bytes: &[u8],
    wanted: &[u8],
) -> Result<Pair<MemoryDisk>, Fail> {
    let mut kept = Kept {
        cache: cache_of(rt, &[], None)?,
        store: pair(rt, bytes, ROOM, None)?,
    };
    let files = project(rt.alloc(), EACH, &THREE)?;
    let left = left_by(rt, BATCH, files, &mut kept, &NONE)?;
    assert!(rt; left.status == 0 && left.output.as_slice() == wanted);
    assert!(rt; has_files(kept.cache.files(), THREE_MADE));
    Ok(kept.store)
}

/// One image of a disk, at a moment of its calls.
fn image(
    rt: &impl Abort,
    alloc: Global,
    disk: &MemoryDisk,
    moment: u64,
    fill: u8,
) -> Result<Vec<u8>, Fail> {
    let Some(now) = disk.clock() else {
        panic!(rt; "no clock is told");
    };
    assert!(rt; 1 <= moment);
    assert!(rt; moment <= now);
    Ok(disk.image(alloc, moment, fill)?)
}

/// How many commits of the first run stand whole in these bytes: those whose records they have. The last byte of
/// a file is where the next record will begin.
fn commits_in(bytes: &[u8], whole: &[u8]) -> usize {
    let same = bytes
        .iter()
        .zip(whole)
        .take_while(|(byte, want)| byte == want)
        .count();
    LENGTHS
        .iter()
        .filter(|end| **end <= same.saturating_add(1))
        .count()
}

/// That a run over the image of a moment asks for what the commits in it don't have, and ends as the definition
/// says; how many they are.
fn goes_on(
    rt: &(impl Abort + AllocGlobal),
    whole: &MemoryDisk,
    moment: u64,
    fill: u8,
) -> Result<usize, Fail> {
    let alloc = rt.alloc();
    let stopped = image(rt, alloc, whole, moment, fill)?;
    let kept = commits_in(&stopped, whole.bytes());
    let store = whole_from(rt, &stopped, &report(alloc, kept)?)?;
    assert!(rt;
        store.disk(Side::A).bytes() == whole.bytes(),
        "moment {moment}, fill {fill}"
    );
    Ok(kept)
}

#[test]
fn a_run_goes_on_from_each_moment(rt: HostRuntime) -> Result<(), Fail> {
    let store = whole_from(&rt, b"", &report(rt.alloc(), 0)?)?;
    let whole = store.disk(Side::A);
    assert!(rt; whole.bytes().len() == LENGTHS[9]);
    let Some(end) = whole.clock() else {
        panic!(rt; "no clock is told");
    };
    for fill in FILLS {
        let mut before = 0;
        for moment in 1..=end {
            let kept = goes_on(&rt, whole, moment, fill)?;
            assert!(rt;
                before <= kept && kept <= before.saturating_add(1),
                "moment {moment}, fill {fill}"
            );
            before = kept;
        }
        assert!(rt; LENGTHS.len() <= before.saturating_add(1), "fill {fill}");
    }
    Ok(())
}
