//! The commits of a small project, whose records are spelled by hand.
use super::changes::{Piece, Thing, change_of, numbers_of};
use super::{Opened, database_of, file_behind, file_of};
use ap_disk::{Disk, Side, SureMemoryDisk};
use ap_rows::Change;
use std::alloc::Global;
use std::process::Abort;
use std::test::Fail;

/// A commit of the project: the things that its change names, kids before parents, the pieces of the change,
/// and the payload of its record.
#[derive(Clone, Copy)]
pub(super) struct Step {
    things: &'static [Thing],
    change: &'static [Piece],
    payload: &'static [u8],
}

/// The puts of the source `a.txt`, its creation and its job, up to the number of a thing.
pub(super) const PUT_SOURCE: Piece = Piece::Text(b"\x03\0\x05a.txt\0\0\0\0\0\x05A.txt\0");

pub(super) const PUT_CREATE: Piece = Piece::Text(b"\x05\0\x05a.txt");

pub(super) const PUT_JOB: Piece = Piece::Text(b"\x07\0\x05a.txt\x04copy\x02pc\0");

/// The one job that is created of the source.
const JOBS: Piece = Piece::Text(
    b"\0\0\0\0\x01\x04copy\0\0\0\x01\x02pc\x04copy\0\0\0\0\0\0\0\x02-q\0\0\0\0",
);

const DONE: Piece = Piece::Text(b"\0");

/// The folder row.
const FOLDERS: Step = Step {
    things: &[],
    change: &[Piece::Text(b"\x09\0\0\0\x01\0\0\0\0\0\x04game")],
    payload: b"\x09\0\0\0\x01\0\0\0\0\0\x04game",
};

/// The source's bytes are thing 1.
const SOURCE: Step = Step {
    things: &[(0, b"1\n", &[])],
    change: &[PUT_SOURCE, Piece::Of(0)],
    payload: b"\x01\0\0\0\0\x021\n\0\0\0\0\
\x03\0\x05a.txt\0\0\0\0\0\x05A.txt\0\0\0\0\0\0\0\0\x01",
};

/// The bytes of `b.inc` are thing 2, and the create input thing 3; `c.inc` has the source's bytes, and `d.inc`
/// isn't there.
const CREATE: Step = Step {
    things: &[
        (0, b"1\n", &[]),
        (0, b"2\n", &[]),
        (
            1,
            b"\0\0\0\0\0\0\0\x01\x04copy\0\0\0\x01\0\0\0\0\0\0\0\x01\x02pc\0\x05a.txt\0\
\0\0\0\0\0\0\0\x03\0\x05b.inc\0\0\x05c.inc\0\0\x05d.inc\x01",
            &[0, 1, 0],
        ),
    ],
    change: &[PUT_CREATE, Piece::Of(2), JOBS],
    payload: b"\x01\0\0\0\0\x022\n\0\0\0\0\
\x01\x01\0\0\0\x44\0\0\0\0\0\0\0\x01\x04copy\0\0\0\x01\0\0\0\0\0\0\0\x01\x02pc\0\x05a.txt\0\
\0\0\0\0\0\0\0\x03\0\x05b.inc\0\0\x05c.inc\0\0\x05d.inc\x01\
\0\0\0\x03\0\0\0\0\0\0\0\x01\0\0\0\0\0\0\0\x02\0\0\0\0\0\0\0\x01\
\x05\0\x05a.txt\0\0\0\0\0\0\0\x03\0\0\0\0\x01\x04copy\0\0\0\x01\x02pc\x04copy\0\0\0\0\0\0\0\x02-q\0\0\0\0",
};

/// The job input is thing 4, the second product's bytes thing 5, and the products thing 6.
const JOB: Step = Step {
    things: &[
        (0, b"1\n", &[]),
        (0, b"2\n", &[]),
        (0, b"3\n", &[]),
        (
            2,
            b"\x04copy\0\0\0\x01\x02pc\x04copy\0\0\0\0\0\0\0\x02-q\0\x05a.txt\
\0\0\0\0\0\0\0\x01\0\x05b.inc\0\0\0\0\0\0\0\0\0",
            &[0, 1],
        ),
        (
            3,
            b"\0\0\0\x02\0\x05a.out\x04copy\0\0\0\0\0\0\0\0\0\0\0\0\0\0\0\0\
\0\x05b.out\x04copy\0\0\0\x01\0\0\0\0\0\0\0\0\0\0\0\0",
            &[0, 2],
        ),
    ],
    change: &[PUT_JOB, Piece::Of(3), DONE, Piece::Of(4)],
    payload: b"\x01\x02\0\0\0\x3a\x04copy\0\0\0\x01\x02pc\x04copy\0\0\0\0\0\0\0\x02-q\0\x05a.txt\
\0\0\0\0\0\0\0\x01\0\x05b.inc\0\0\0\0\0\0\0\0\0\0\0\0\x02\0\0\0\0\0\0\0\x01\0\0\0\0\0\0\0\x02\
\x01\0\0\0\0\x023\n\0\0\0\0\
\x01\x03\0\0\0\x3c\0\0\0\x02\0\x05a.out\x04copy\0\0\0\0\0\0\0\0\0\0\0\0\0\0\0\0\
\0\x05b.out\x04copy\0\0\0\x01\0\0\0\0\0\0\0\0\0\0\0\0\0\0\0\x02\0\0\0\0\0\0\0\x01\0\0\0\0\0\0\0\x05\
\x07\0\x05a.txt\x04copy\x02pc\0\0\0\0\0\0\0\0\x04\0\0\0\0\0\0\0\0\x06",
};

/// The new bytes are thing 7. The old ones are still at the create input, the job input and the products.
const OTHER_SOURCE: Step = Step {
    things: &[(0, b"4\n", &[])],
    change: &[PUT_SOURCE, Piece::Of(0)],
    payload: b"\x01\0\0\0\0\x024\n\0\0\0\0\
\x03\0\x05a.txt\0\0\0\0\0\x05A.txt\0\0\0\0\0\0\0\0\x07",
};

/// The new create input is thing 8; the old one goes.
const OTHER_CREATE: Step = Step {
    things: &[
        (0, b"4\n", &[]),
        (0, b"2\n", &[]),
        (
            1,
            b"\0\0\0\0\0\0\0\x01\x04copy\0\0\0\x01\0\0\0\0\0\0\0\x01\x02pc\0\x05a.txt\0\
\0\0\0\0\0\0\0\x01\0\x05b.inc\0",
            &[0, 1],
        ),
    ],
    change: &[PUT_CREATE, Piece::Of(2), JOBS],
    payload: b"\x01\x01\0\0\0\x34\0\0\0\0\0\0\0\x01\x04copy\0\0\0\x01\0\0\0\0\0\0\0\x01\x02pc\0\x05a.txt\0\
\0\0\0\0\0\0\0\x01\0\x05b.inc\0\0\0\0\x02\0\0\0\0\0\0\0\x07\0\0\0\0\0\0\0\x02\
\x05\0\x05a.txt\0\0\0\0\0\0\0\x08\0\0\0\0\x01\x04copy\0\0\0\x01\x02pc\x04copy\0\0\0\0\0\0\0\x02-q\0\0\0\0\
\x02\0\0\0\0\0\0\0\x03",
};

/// The new job input is thing 9 and the new products thing 10; what only the old ones had goes.
const OTHER_JOB: Step = Step {
    things: &[
        (0, b"4\n", &[]),
        (0, b"2\n", &[]),
        (
            2,
            b"\x04copy\0\0\0\x01\x02pc\x04copy\0\0\0\0\0\0\0\x02-q\0\x05a.txt\
\0\0\0\0\0\0\0\x01\0\x05b.inc\0\0\0\0\0\0\0\0\0",
            &[0, 1],
        ),
        (
            3,
            b"\0\0\0\x01\0\x05a.out\x04copy\0\0\0\0\0\0\0\0\0\0\0\0\0\0\0\0",
            &[0],
        ),
    ],
    change: &[PUT_JOB, Piece::Of(2), DONE, Piece::Of(3)],
    payload: b"\x01\x02\0\0\0\x3a\x04copy\0\0\0\x01\x02pc\x04copy\0\0\0\0\0\0\0\x02-q\0\x05a.txt\
\0\0\0\0\0\0\0\x01\0\x05b.inc\0\0\0\0\0\0\0\0\0\0\0\0\x02\0\0\0\0\0\0\0\x07\0\0\0\0\0\0\0\x02\
\x01\x03\0\0\0\x20\0\0\0\x01\0\x05a.out\x04copy\0\0\0\0\0\0\0\0\0\0\0\0\0\0\0\0\0\0\0\x01\0\0\0\0\0\0\0\x07\
\x07\0\x05a.txt\x04copy\x02pc\0\0\0\0\0\0\0\0\x09\0\0\0\0\0\0\0\0\x0a\
\x02\0\0\0\0\0\0\0\x06\x02\0\0\0\0\0\0\0\x05\x02\0\0\0\0\0\0\0\x04\x02\0\0\0\0\0\0\0\x01",
};

/// The source is gone, with its creation, its job and all things.
const GONE: Step = Step {
    things: &[],
    change: &[Piece::Text(b"\x04\0\x05a.txt\x06\0\x05a.txt\x08\0\x05a.txt\x04copy\x02pc")],
    payload: b"\x04\0\x05a.txt\x06\0\x05a.txt\x08\0\x05a.txt\x04copy\x02pc\
\x02\0\0\0\0\0\0\0\x0a\x02\0\0\0\0\0\0\0\x09\x02\0\0\0\0\0\0\0\x08\x02\0\0\0\0\0\0\0\x07\x02\0\0\0\0\0\0\0\x02",
};

/// Things 11 and 12 are the source's bytes, which are put twice; the first ones go at once.
const TWICE: Step = Step {
    things: &[(0, b"x", &[]), (0, b"y", &[])],
    change: &[PUT_SOURCE, Piece::Of(0), PUT_SOURCE, Piece::Of(1)],
    payload: b"\x01\0\0\0\0\x01x\0\0\0\0\x01\0\0\0\0\x01y\0\0\0\0\
\x03\0\x05a.txt\0\0\0\0\0\x05A.txt\0\0\0\0\0\0\0\0\x0b\
\x03\0\x05a.txt\0\0\0\0\0\x05A.txt\0\0\0\0\0\0\0\0\x0c\
\x02\0\0\0\0\0\0\0\x0b",
};

const NOTHING: Step = Step {
    things: &[],
    change: &[],
    payload: b"",
};

/// The source is too large.
const TOO_LARGE: Step = Step {
    things: &[],
    change: &[Piece::Text(b"\x03\0\x05a.txt\0\0\0\0\0\x05A.txt\x02")],
    payload: b"\x03\0\x05a.txt\0\0\0\0\0\x05A.txt\x02\x02\0\0\0\0\0\0\0\x0c",
};

/// The failed job of `b.txt`, which has the input and the products of one of `a.txt`. Thing 13 is the bytes of
/// `b.txt`; 14 those below 15, the input of the other job; 16 those below 17, its products; and 18 the job input.
const DEEP: Step = Step {
    things: &[
        (0, b"8\n", &[]),
        (
            2,
            b"\x04copy\0\0\0\x01\x02pc\x04copy\0\0\0\0\0\0\0\x02-q\0\x05a.txt\
\0\0\0\0\0\0\0\0\0\0\0\0\0\0\0\0",
            &[0],
        ),
        (0, b"9\n", &[]),
        (
            3,
            b"\0\0\0\x01\0\x05a.out\x04copy\0\0\0\0\0\0\0\0\0\0\0\0\0\0\0\0",
            &[2],
        ),
        (0, b"7\n", &[]),
        (
            2,
            b"\x04copy\0\0\0\x01\x02pc\x04copy\0\0\0\0\0\0\0\x02-q\0\x05b.txt\
\0\0\0\0\0\0\0\0\0\0\0\0\0\0\0\x01\x02\0\x05a.txt\x04copy\x02pc",
            &[4, 1, 3],
        ),
    ],
    change: &[
        Piece::Text(b"\x07\0\x05b.txt\x04copy\x02pc\0"),
        Piece::Of(5),
        Piece::Text(b"\x01\0\0\0\x07"),
    ],
    payload: b"\x01\0\0\0\0\x027\n\0\0\0\0\
\x01\0\0\0\0\x028\n\0\0\0\0\
\x01\x02\0\0\0\x32\x04copy\0\0\0\x01\x02pc\x04copy\0\0\0\0\0\0\0\x02-q\0\x05a.txt\
\0\0\0\0\0\0\0\0\0\0\0\0\0\0\0\0\0\0\0\x01\0\0\0\0\0\0\0\x0e\
\x01\0\0\0\0\x029\n\0\0\0\0\
\x01\x03\0\0\0\x20\0\0\0\x01\0\x05a.out\x04copy\0\0\0\0\0\0\0\0\0\0\0\0\0\0\0\0\0\0\0\x01\0\0\0\0\0\0\0\x10\
\x01\x02\0\0\0\x42\x04copy\0\0\0\x01\x02pc\x04copy\0\0\0\0\0\0\0\x02-q\0\x05b.txt\
\0\0\0\0\0\0\0\0\0\0\0\0\0\0\0\x01\x02\0\x05a.txt\x04copy\x02pc\
\0\0\0\x03\0\0\0\0\0\0\0\x0d\0\0\0\0\0\0\0\x0f\0\0\0\0\0\0\0\x11\
\x07\0\x05b.txt\x04copy\x02pc\0\0\0\0\0\0\0\0\x12\x01\0\0\0\x07",
};

/// The commits of the project.
const STEPS: [Step; 12] = [
    FOLDERS,
    SOURCE,
    CREATE,
    JOB,
    OTHER_SOURCE,
    OTHER_CREATE,
    OTHER_JOB,
    GONE,
    TWICE,
    NOTHING,
    TOO_LARGE,
    DEEP,
];

/// The places of some steps.
pub(super) const AT_FOLDERS: usize = 0;

pub(super) const AT_SOURCE: usize = 1;

pub(super) const AT_CREATE: usize = 2;

pub(super) const AT_OTHER_JOB: usize = 6;

pub(super) const AT_GONE: usize = 7;

pub(super) const AT_NOTHING: usize = 9;

pub(super) const AT_DEEP: usize = 11;

/// How many folders, sources, creations and jobs there are before each commit, and at the end.
const COUNTS: [(usize, usize, usize, usize); 13] = [
    (0, 0, 0, 0),
    (1, 0, 0, 0),
    (1, 1, 0, 0),
    (1, 1, 1, 0),
    (1, 1, 1, 1),
    (1, 1, 1, 1),
    (1, 1, 1, 1),
    (1, 1, 1, 1),
    (1, 0, 0, 0),
    (1, 1, 0, 0),
    (1, 1, 0, 0),
    (1, 1, 0, 0),
    (1, 1, 0, 1),
];

/// The change of the step of this place.
pub(super) fn change_at<D: Disk>(
    opened: &mut Opened<D>,
    rt: &impl Abort,
    alloc: Global,
    at: usize,
) -> Result<Change, Fail> {
    assert!(rt; at < STEPS.len());
    let step = &STEPS[at];
    let numbers = numbers_of(opened, rt, alloc, step.things)?;
    change_of(rt, alloc, &numbers, step.change)
}

/// Commits the change of the step of this place, which isn't refused.
pub(super) fn take<D: Disk>(
    opened: &mut Opened<D>,
    rt: &impl Abort,
    alloc: Global,
    at: usize,
) -> Result<(), Fail> {
    let change = change_at(opened, rt, alloc, at)?;
    Ok(opened.commit(rt, &change)??)
}

/// The file with the records of the first so many steps.
pub(super) fn front(rt: &impl Abort, alloc: Global, count: usize) -> Result<Vec<u8>, Fail> {
    let mut payloads = Vec::new(alloc);
    for step in STEPS.iter().take(count) {
        payloads.push(step.payload)?;
    }
    file_of(rt, alloc, &payloads)
}

/// That the file is this one.
pub(super) fn assert_file(rt: &impl Abort, opened: &Opened<SureMemoryDisk>, wanted: &[u8]) {
    assert!(rt; opened.store.disk(Side::A).bytes() == wanted);
}

/// That the file has the records of the first so many steps, and there are as many rows as these put.
pub(super) fn assert_front(
    rt: &impl Abort,
    alloc: Global,
    opened: &Opened<SureMemoryDisk>,
    count: usize,
) -> Result<(), Fail> {
    let wanted = front(rt, alloc, count)?;
    assert_file(rt, opened, &wanted);
    assert!(rt; count < COUNTS.len());
    assert!(rt; opened.counts() == COUNTS[count], "step {count}");
    Ok(())
}

#[test]
fn records_are_spelled_as_by_hand(rt: HostRuntime) -> Result<(), Fail> {
    let alloc = rt.alloc();
    let mut opened = database_of(&rt, alloc, b"")?;
    for at in 0..12usize {
        assert_front(&rt, alloc, &opened, at)?;
        take(&mut opened, &rt, alloc, at)?;
    }
    assert_front(&rt, alloc, &opened, 12)
}

#[test]
fn an_opened_database_goes_on(rt: HostRuntime) -> Result<(), Fail> {
    let alloc = rt.alloc();
    for at in 0..12usize {
        let before = front(&rt, alloc, at)?;
        let mut opened = database_of(&rt, alloc, &before)?;
        assert_front(&rt, alloc, &opened, at)?;
        take(&mut opened, &rt, alloc, at)?;
        assert_front(&rt, alloc, &opened, at.saturating_add(1))?;
    }
    Ok(())
}

// The numbers of the contents that had things of the file have none.
#[test]
fn what_no_row_reaches_lives_no_more(rt: HostRuntime) -> Result<(), Fail> {
    let alloc = rt.alloc();
    let before = front(&rt, alloc, 7)?;
    let mut opened = database_of(&rt, alloc, &before)?;
    assert_eq!(rt; opened.living(), 5);
    take(&mut opened, &rt, alloc, AT_GONE)?;
    assert_eq!(rt; opened.living(), 0);
    Ok(())
}

/// The payload of a record with things that nothing reaches, the place of a step, and the payload of its record.
const LOOSE: [(&[u8], usize, &[u8]); 4] = [
    (
        b"\x01\0\0\0\0\x021\n\0\0\0\0\x01\0\0\0\0\x01z\0\0\0\0\x01\0\0\0\0\x01v\0\0\0\0\
\x03\0\x05a.txt\0\0\0\0\0\x05A.txt\0\0\0\0\0\0\0\0\x02",
        AT_NOTHING,
        b"\x02\0\0\0\0\0\0\0\x03\x02\0\0\0\0\0\0\0\x01",
    ),
    (
        b"\x01\0\0\0\0\x021\n\0\0\0\0\x01\0\0\0\0\x01z\0\0\0\0\x01\0\0\0\0\x01v\0\0\0\0\
\x03\0\x05a.txt\0\0\0\0\0\x05A.txt\0\0\0\0\0\0\0\0\x02",
        AT_SOURCE,
        b"\x03\0\x05a.txt\0\0\0\0\0\x05A.txt\0\0\0\0\0\0\0\0\x01\
\x02\0\0\0\0\0\0\0\x03\x02\0\0\0\0\0\0\0\x02",
    ),
    (
        b"\x01\0\0\0\0\x01w\0\0\0\0\
\x01\x03\0\0\0\x20\0\0\0\x01\0\x05a.out\x04copy\0\0\0\0\0\0\0\0\0\0\0\0\0\0\0\0\0\0\0\x01\0\0\0\0\0\0\0\x01",
        AT_FOLDERS,
        b"\x09\0\0\0\x01\0\0\0\0\0\x04game\x02\0\0\0\0\0\0\0\x02\x02\0\0\0\0\0\0\0\x01",
    ),
    (
        b"\x01\0\0\0\0\x01w\0\0\0\0\x01\0\0\0\0\x021\n\0\0\0\0\x02\0\0\0\0\0\0\0\x02",
        AT_SOURCE,
        b"\x01\0\0\0\0\x021\n\0\0\0\0\
\x03\0\x05a.txt\0\0\0\0\0\x05A.txt\0\0\0\0\0\0\0\0\x03\x02\0\0\0\0\0\0\0\x01",
    ),
];

#[test]
fn what_was_reached_from_no_row_goes(rt: HostRuntime) -> Result<(), Fail> {
    let alloc = rt.alloc();
    for (payload, at, wanted) in LOOSE {
        let before = file_of(&rt, alloc, &[payload])?;
        let mut opened = database_of(&rt, alloc, &before)?;
        take(&mut opened, &rt, alloc, at)?;
        let after = file_behind(&rt, alloc, &before, wanted)?;
        assert_file(&rt, &opened, &after);
    }
    Ok(())
}
