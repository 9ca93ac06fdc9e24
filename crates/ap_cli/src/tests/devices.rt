//! Trees, caches, disks and sinks that fail at one call, and the runs after them.
use super::{
    BATCH, CONFIG, Failing, HELD, Kept, Left, MADE, NONE, REPORT, ROOM, TWO, cache_of, has_files,
    left_by, pair, project,
};
use ap_disk::Side;
use std::process::Abort;
use std::test::Fail;

/// The calls that fail, and what comes of a first run; and how many entries the next run asks for.
#[derive(Clone, Copy)]
struct Row {
    failing: Failing,
    status: u8,
    output: &'static str,
    cache: &'static [(&'static str, &'static str)],
    later: usize,
}

const HALF_MADE: &[(&str, &str)] = &[("pc/a.txt", "1\n"), ("pc/other.bin", "kept")];

/// A run over two files to its end.
const WHOLE: Row = Row {
    failing: NONE,
    status: 0,
    output: REPORT,
    cache: MADE,
    later: 0,
};

/// The call of this number of the tree fails: the first reads the configuration, the second lists the folder,
/// and the others read its files.
fn tree_fault(call: u64) -> Row {
    Row {
        failing: Failing {
            tree: Some(call),
            ..NONE
        },
        status: 4,
        output: "ap: tree fault\n",
        cache: HELD,
        later: 4,
    }
}

fn cache_fault(call: u64, cache: &'static [(&'static str, &'static str)]) -> Row {
    Row {
        failing: Failing {
            cache: Some(call),
            ..NONE
        },
        status: 5,
        output: "ap: cache fault\n",
        cache,
        ..WHOLE
    }
}

fn rows() -> [Row; 12] {
    [
        WHOLE,
        tree_fault(1),
        tree_fault(2),
        tree_fault(3),
        tree_fault(4),
        tree_fault(5),
        Row {
            failing: tree_fault(6).failing,
            ..WHOLE
        },
        cache_fault(1, HELD),
        cache_fault(2, HALF_MADE),
        Row {
            failing: disk_failing(1),
            status: 6,
            output: "ap: disk fault\n",
            cache: HELD,
            later: 4,
        },
        Row {
            failing: sink_failing(1),
            status: 7,
            output: "",
            ..WHOLE
        },
        Row {
            failing: sink_failing(2),
            ..WHOLE
        },
    ]
}

fn disk_failing(call: u64) -> Failing {
    Failing {
        disk: Some(call),
        ..NONE
    }
}

fn sink_failing(call: u64) -> Failing {
    Failing {
        sink: Some(call),
        ..NONE
    }
}

/// Runs over the two files.
fn left_of(
    rt: &(impl Abort + AllocGlobal),
    kept: &mut Kept,
    failing: &Failing,
) -> Result<Left, Fail> {
    let files = project(rt.alloc(), CONFIG, TWO)?;
    left_by(rt, BATCH, files, kept, failing)
}

fn held(rt: &(impl Abort + AllocGlobal), failing: &Failing) -> Result<Kept, Fail> {
    Ok(Kept {
        cache: cache_of(rt, HELD, failing.cache)?,
        store: pair(rt, b"", ROOM, failing.disk)?,
    })
}

fn meets(rt: &(impl Abort + AllocGlobal), row: &Row) -> Result<(), Fail> {
    let failing = &row.failing;
    let mut kept = held(rt, failing)?;
    let left = left_of(rt, &mut kept, failing)?;
    let status = left.status;
    assert!(rt; status == row.status, "{failing:?}: {status}");
    assert!(rt;
        left.output.as_slice() == row.output.as_bytes(),
        "{failing:?}"
    );
    assert!(rt; has_files(kept.cache.files(), row.cache), "{failing:?}");
    let after = left_of(rt, &mut kept, &NONE)?;
    assert!(rt;
        after.status == 0 && after.entries == row.later,
        "{failing:?}"
    );
    assert!(rt; has_files(kept.cache.files(), MADE), "{failing:?}");
    Ok(())
}

#[test]
fn runs_meet_each_fault(rt: HostRuntime) -> Result<(), Fail> {
    for row in rows() {
        meets(&rt, &row)?;
    }
    Ok(())
}

/// How many calls a first run makes on its first disk.
fn calls_of_a_run(rt: &(impl Abort + AllocGlobal)) -> Result<u64, Fail> {
    let mut kept = held(rt, &NONE)?;
    let left = left_of(rt, &mut kept, &NONE)?;
    assert!(rt; left.status == 0);
    Ok(kept.store.disk(Side::A).recorded() as u64)
}

#[test]
fn each_call_of_a_disk_may_fail(rt: HostRuntime) -> Result<(), Fail> {
    let calls = calls_of_a_run(&rt)?;
    assert!(rt; 0 < calls);
    for call in 1..=calls {
        let failing = disk_failing(call);
        let mut kept = held(&rt, &failing)?;
        let left = left_of(&rt, &mut kept, &failing)?;
        assert!(rt; left.status == 6, "{call}");
        assert!(rt;
            left.output.as_slice() == b"ap: disk fault\n".as_slice(),
            "{call}"
        );
        assert!(rt; has_files(kept.cache.files(), HELD), "{call}");
        let after = left_of(&rt, &mut kept, &NONE)?;
        assert!(rt; after.status == 0, "{call}");
        assert!(rt; has_files(kept.cache.files(), MADE), "{call}");
    }
    Ok(())
}
