//! Changes that a database doesn't take.
use super::changes::{Piece, Thing, change_of, numbers_of};
use super::project::{
    AT_CREATE, AT_DEEP, AT_FOLDERS, AT_GONE, AT_NOTHING, AT_OTHER_JOB, AT_SOURCE, PUT_CREATE,
    PUT_JOB, PUT_SOURCE, assert_file, change_at, front, take,
};
use super::{FILE, Opened, ROOM, database_of, file_behind, file_of, open, pair};
use crate::DbFault;
use ap_content::Number;
use ap_disk::{Disk, Side, SureMemoryDisk};
use ap_rows::{Change, Item, SeenRow, SourceRow};
use ap_text::{List, RelPath};
use std::alloc::Global;
use std::process::Abort;
use std::test::Fail;

/// How many bytes more a file may have; the place of a step that takes more, and how many; and that of one that
/// fits, with its payload.
#[derive(Clone, Copy)]
struct Full {
    room: usize,
    refused: usize,
    wanted: u64,
    taken: usize,
    payload: &'static [u8],
}

/// The payload of the folder row, of a source, and of what takes the source of four records away.
const FOLDERS: &[u8] = b"\x09\0\0\0\x01\0\0\0\0\0\x04game";

const SOURCE: &[u8] = b"\x01\0\0\0\0\x021\n\0\0\0\0\
\x03\0\x05a.txt\0\0\0\0\0\x05A.txt\0\0\0\0\0\0\0\0\x01";

const GONE: &[u8] = b"\x04\0\x05a.txt\x06\0\x05a.txt\x08\0\x05a.txt\x04copy\x02pc\
\x02\0\0\0\0\0\0\0\x06\x02\0\0\0\0\0\0\0\x05\x02\0\0\0\0\0\0\0\x04\
\x02\0\0\0\0\0\0\0\x03\x02\0\0\0\0\0\0\0\x02\x02\0\0\0\0\0\0\0\x01";

/// How many records a store has, and how it is full.
const FULL: [(usize, Full); 6] = [
    (
        1,
        Full {
            room: 19,
            refused: AT_FOLDERS,
            wanted: 20,
            taken: AT_NOTHING,
            payload: b"",
        },
    ),
    (
        1,
        Full {
            room: 44,
            refused: AT_SOURCE,
            wanted: 45,
            taken: AT_FOLDERS,
            payload: FOLDERS,
        },
    ),
    (
        1,
        Full {
            room: 45,
            refused: AT_CREATE,
            wanted: 183,
            taken: AT_SOURCE,
            payload: SOURCE,
        },
    ),
    (
        4,
        Full {
            room: 91,
            refused: AT_OTHER_JOB,
            wanted: 212,
            taken: AT_GONE,
            payload: GONE,
        },
    ),
    (
        4,
        Full {
            room: 91,
            refused: AT_DEEP,
            wanted: 289,
            taken: AT_GONE,
            payload: GONE,
        },
    ),
    (
        4,
        Full {
            room: 90,
            refused: AT_GONE,
            wanted: 91,
            taken: AT_NOTHING,
            payload: b"",
        },
    ),
];

/// That a change is refused so, with nothing changed.
fn assert_refused<D: Disk>(
    opened: &mut Opened<D>,
    rt: &impl Abort,
    change: &Change,
    wanted: DbFault,
) -> Result<(), Fail> {
    let counts = opened.counts();
    let lived = opened.living();
    let answer = opened.commit(rt, change)?;
    assert!(rt; answer == Err(wanted), "{answer:?}");
    assert!(rt; opened.counts() == counts && opened.living() == lived);
    Ok(())
}

/// The database of this file, which may have so many bytes more.
fn with_room(
    rt: &impl Abort,
    alloc: Global,
    file: &[u8],
    room: usize,
) -> Result<Opened<SureMemoryDisk>, Fail> {
    let limit = (file.len() as u64).saturating_add(room as u64);
    assert!(rt; 17 <= limit);
    assert!(rt; limit <= ROOM as u64);
    Ok(open(alloc, pair(rt, alloc, file)?, limit)?)
}

/// That a full store of this file refuses a step, which takes so many bytes, twice.
fn assert_too_much(
    rt: &impl Abort,
    alloc: Global,
    opened: &mut Opened<SureMemoryDisk>,
    file: &[u8],
    step: usize,
    wanted: u64,
) -> Result<(), Fail> {
    let change = change_at(opened, rt, alloc, step)?;
    let length = file.len() as u64;
    let full = DbFault::StoreFull { length, wanted };
    assert_refused(opened, rt, &change, full)?;
    assert_refused(opened, rt, &change, full)?;
    assert_file(rt, opened, file);
    Ok(())
}

/// That a full store of this file takes what fits after it has refused what doesn't.
fn assert_full(rt: &impl Abort, alloc: Global, before: &[u8], full: &Full) -> Result<(), Fail> {
    let mut opened = with_room(rt, alloc, before, full.room)?;
    assert_too_much(rt, alloc, &mut opened, before, full.refused, full.wanted)?;
    take(&mut opened, rt, alloc, full.taken)?;
    let after = file_behind(rt, alloc, before, full.payload)?;
    assert_file(rt, &opened, &after);
    Ok(())
}

#[test]
fn full_stores(rt: HostRuntime) -> Result<(), Fail> {
    let alloc = rt.alloc();
    for (count, full) in FULL {
        let before = front(&rt, alloc, count)?;
        assert_full(&rt, alloc, &before, &full)?;
    }
    Ok(())
}

// Things 1 and 3 are reached from no row.
#[test]
fn a_full_store_with_things_that_go(rt: HostRuntime) -> Result<(), Fail> {
    let alloc = rt.alloc();
    let payload = b"\x01\0\0\0\0\x01w\0\0\0\0\x01\0\0\0\0\x01z\0\0\0\0\x01\0\0\0\0\x01v\0\0\0\0\
\x03\0\x05a.txt\0\0\0\0\0\x05A.txt\0\0\0\0\0\0\0\0\x02";
    let full = Full {
        room: 23,
        refused: AT_SOURCE,
        wanted: 72,
        taken: AT_NOTHING,
        payload: b"\x02\0\0\0\0\0\0\0\x03\x02\0\0\0\0\0\0\0\x01",
    };
    let before = file_of(&rt, alloc, &[payload])?;
    assert_full(&rt, alloc, &before, &full)
}

// The first commit of a project without files, and the same change again.
#[test]
fn a_second_commit_past_the_limit(rt: HostRuntime) -> Result<(), Fail> {
    let alloc = rt.alloc();
    let mut opened = open(alloc, pair(&rt, alloc, b"")?, 56)?;
    take(&mut opened, &rt, alloc, AT_FOLDERS)?;
    assert_too_much(&rt, alloc, &mut opened, FILE, AT_FOLDERS, 20)?;
    assert!(rt; opened.store.disk(Side::B).bytes().is_empty());
    assert!(rt; opened.counts() == (1, 0, 0, 0) && opened.living() == 0);
    Ok(())
}

/// The pieces of a change, and whether a commit takes it.
type Case = (&'static [Piece], bool);

/// That a database finds these changes, with these numbers, to be lawful or not.
fn assert_lawful(
    rt: &impl Abort,
    alloc: Global,
    opened: &Opened<SureMemoryDisk>,
    numbers: &[Number],
    cases: &[Case],
) -> Result<(), Fail> {
    for (at, (pieces, lawful)) in cases.iter().enumerate() {
        let change = change_of(rt, alloc, numbers, pieces)?;
        assert!(rt;
            opened.db.lawful(&opened.contents, &change) == *lawful,
            "case {at}"
        );
    }
    Ok(())
}

const TOO_LARGE: Piece = Piece::Text(b"\x03\0\x05a.txt\0\0\0\0\0\x05A.txt\x02");

const REMOVE_SOURCE: Piece = Piece::Text(b"\x04\0\x05a.txt");

/// Changes of rows that are there, and of others.
const REMOVES: [Case; 8] = [
    (&[REMOVE_SOURCE], true),
    (&[REMOVE_SOURCE, REMOVE_SOURCE], false),
    (&[REMOVE_SOURCE, TOO_LARGE, REMOVE_SOURCE], true),
    (&[Piece::Text(b"\x04\0\x05b.txt")], false),
    (&[Piece::Text(b"\x06\0\x05a.txt")], true),
    (&[Piece::Text(b"\x06\0\x05b.txt")], false),
    (&[Piece::Text(b"\x08\0\x05a.txt\x04copy\x02pc")], true),
    (&[Piece::Text(b"\x08\0\x05a.txt\x04copy\x03mac")], false),
];

#[test]
fn rows_that_are_there_are_removed(rt: HostRuntime) -> Result<(), Fail> {
    let alloc = rt.alloc();
    let file = front(&rt, alloc, 4)?;
    let opened = database_of(&rt, alloc, &file)?;
    assert_lawful(&rt, alloc, &opened, &[], &REMOVES)
}

/// Bytes, a create input, a job input and products of them; what has the tag of a create input and not its form,
/// and products of a create input.
const THINGS: [Thing; 6] = [
    (0, b"1\n", &[]),
    (
        1,
        b"\0\0\0\0\0\0\0\x01\x04copy\0\0\0\x01\0\0\0\0\0\0\0\x01\x02pc\0\x05a.txt\0\
\0\0\0\0\0\0\0\0",
        &[0],
    ),
    (
        2,
        b"\x04copy\0\0\0\x01\x02pc\x04copy\0\0\0\0\0\0\0\x02-q\0\x05a.txt\
\0\0\0\0\0\0\0\0\0\0\0\0\0\0\0\0",
        &[0],
    ),
    (
        3,
        b"\0\0\0\x01\0\x05a.out\x04copy\0\0\0\0\0\0\0\0\0\0\0\0\0\0\0\0",
        &[0],
    ),
    (1, b"1\n", &[0]),
    (
        3,
        b"\0\0\0\x01\0\x05a.out\x04copy\0\0\0\0\0\0\0\0\0\0\0\0\0\0\0\0",
        &[1],
    ),
];

const CREATED: Piece = Piece::Text(b"\x03");

const DONE: Piece = Piece::Text(b"\0");

/// Changes that put rows of sources and creations, drop a thing and define one.
const PUTS: [Case; 10] = [
    (&[PUT_SOURCE, Piece::Of(0)], true),
    (&[PUT_SOURCE, Piece::Of(1)], false),
    (&[PUT_SOURCE, Piece::Text(b"\0\0\0\0\0\0\0\x63")], false),
    (&[PUT_CREATE, Piece::Of(1), CREATED], true),
    (&[PUT_CREATE, Piece::Of(0), CREATED], false),
    (&[PUT_CREATE, Piece::Of(2), CREATED], false),
    (&[PUT_CREATE, Piece::Of(4), CREATED], false),
    (&[PUT_SOURCE, Piece::Of(0), PUT_SOURCE, Piece::Of(1)], false),
    (&[Piece::Text(b"\x02"), Piece::Of(0)], false),
    (&[Piece::Text(b"\x01\0\0\0\0\x01x\0\0\0\0")], false),
];

/// Changes that put rows of jobs.
const JOBS: [Case; 7] = [
    (&[PUT_JOB, Piece::Of(2), DONE, Piece::Of(3)], true),
    (
        &[PUT_JOB, Piece::Of(2), Piece::Text(b"\x01\0\0\0\x07")],
        true,
    ),
    (
        &[PUT_JOB, Piece::Of(1), Piece::Text(b"\x01\0\0\0\x07")],
        false,
    ),
    (&[PUT_JOB, Piece::Of(2), DONE, Piece::Of(2)], false),
    (&[PUT_JOB, Piece::Of(2), DONE, Piece::Of(0)], false),
    (&[PUT_JOB, Piece::Of(2), DONE, Piece::Of(5)], false),
    (&[PUT_JOB, Piece::Of(3), DONE, Piece::Of(3)], false),
];

#[test]
fn what_rows_name_has_its_form(rt: HostRuntime) -> Result<(), Fail> {
    let alloc = rt.alloc();
    let mut opened = database_of(&rt, alloc, FILE)?;
    let numbers = numbers_of(&mut opened, &rt, alloc, &THINGS)?;
    assert_lawful(&rt, alloc, &opened, &numbers, &PUTS)?;
    assert_lawful(&rt, alloc, &opened, &numbers, &JOBS)
}

/// Changes that put two folders.
const FOLDER_ORDERS: [Case; 3] = [
    (
        &[Piece::Text(b"\x09\0\0\0\x02\0\0\0\0\0\x04game\0\0\0\x01\0\x04game")],
        true,
    ),
    (
        &[Piece::Text(b"\x09\0\0\0\x02\0\0\0\x01\0\x04game\0\0\0\x01\0\x04game")],
        false,
    ),
    (
        &[Piece::Text(b"\x09\0\0\0\x02\0\0\0\x02\0\x04game\0\0\0\x01\0\x04game")],
        false,
    ),
];

#[test]
fn orders_of_folders_rise(rt: HostRuntime) -> Result<(), Fail> {
    let alloc = rt.alloc();
    let opened = database_of(&rt, alloc, FILE)?;
    assert_lawful(&rt, alloc, &opened, &[], &FOLDER_ORDERS)
}

/// The change that puts a source of this path, which no bytes spell where it isn't folded.
fn source_at(alloc: Global, path: &[u8]) -> Result<Change, Fail> {
    let row = SourceRow {
        path: RelPath::read(alloc, path)?,
        order: 0,
        name: RelPath::read(alloc, path)?,
        seen: SeenRow::TooLarge,
    };
    Ok(Change {
        items: List::of(vec![in alloc; Item::PutSource(row)]?),
    })
}

#[test]
fn paths_are_folded(rt: HostRuntime) -> Result<(), Fail> {
    let alloc = rt.alloc();
    let opened = database_of(&rt, alloc, FILE)?;
    assert!(rt;
        opened
            .db
            .lawful(&opened.contents, &source_at(alloc, b"a.txt")?)
    );
    assert!(rt;
        !opened
            .db
            .lawful(&opened.contents, &source_at(alloc, b"A.txt")?)
    );
    Ok(())
}
