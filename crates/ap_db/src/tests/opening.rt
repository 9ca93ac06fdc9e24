//! Openings of stores, good ones and bad ones, and what their tables have.
use super::project::front;
use super::{FILE, ROOM, database_of, open, pair, push_record};
use crate::DbFault;
use ap_rows::{Created, JobResult};
use ap_text::{JobId, Name, Platform, RelPath};
use std::alloc::Global;
use std::process::Abort;
use std::test::Fail;

/// The place and the offset at which opening a store of these bytes finds it bad.
fn bad_at(rt: &impl Abort, alloc: Global, bytes: &[u8]) -> Result<Option<(u64, u64)>, Fail> {
    match open(alloc, pair(rt, alloc, bytes)?, ROOM as u64) {
        Ok(_) => Ok(None),
        Err(DbFault::BadStore { place, offset }) => Ok(Some((place, offset))),
        Err(_) => Ok(Some((u64::MAX, u64::MAX))),
    }
}

/// Bytes of a file, and the place and the offset that opening it answers where it is bad.
const STORES: [(&[u8], Option<(u64, u64)>); 9] = [
    (FILE, None),
    (
        b"APSTORE1\0\0\0\0\0\0\0\x01\x01\0\0\0\x01\xff\0",
        Some((1, 0)),
    ),
    (b"APSTORE1\0\0\0\0\0\0\0\x01\0\0\0\0\x01\xff\0", None),
    (b"APSTORE2\0\0\0\0\0\0\0\x01\x01\0\0\0\0\0", Some((0, 0))),
    (
        b"APSTORE2\0\0\0\0\0\0\0\x01\x01\0\0\0\x01\xff\0",
        Some((0, 0)),
    ),
    (b"APSTORE2\0\0\0\0\0\0\0\x01\0\0\0\0\x01\xff\0", None),
    (
        b"APSTORE1\0\0\0\0\0\0\0\x01\x01\0\0\0\x0f\x09\0\0\0\0\x02\0\0\0\0\0\0\0\x01\xff\0",
        Some((1, 5)),
    ),
    (
        b"\xff\xff\xff\xff\xff\xff\xff\xff\xff\xff\xff\xff\xff\xff\xff\xff",
        None,
    ),
    (b"", None),
];

#[test]
fn stores_are_opened(rt: HostRuntime) -> Result<(), Fail> {
    let alloc = rt.alloc();
    for (bytes, bad) in STORES {
        assert_eq!(rt; bad_at(&rt, alloc, bytes)?, bad);
    }
    Ok(())
}

// Items: the things `1\n` (12 bytes), a create input of it as thing 2 (62 bytes), and products of it (50 bytes).
const ONE: &[u8] = b"\x01\0\0\0\0\x021\n\0\0\0\0";

const INPUT: &[u8] =
    b"\x01\x01\0\0\0\x2c\0\0\0\0\0\0\0\x01\x04copy\0\0\0\x01\0\0\0\0\0\0\0\x01\x02pc\0\x05a.txt\0\
\0\0\0\0\0\0\0\0\0\0\0\x01\0\0\0\0\0\0\0\x01";

const LONG_INPUT: &[u8] =
    b"\x01\x01\0\0\0\x2d\0\0\0\0\0\0\0\x01\x04copy\0\0\0\x01\0\0\0\0\0\0\0\x01\x02pc\0\x05a.txt\0\
\0\0\0\0\0\0\0\0\0\0\0\0\x01\0\0\0\0\0\0\0\x01";

const PRODUCTS: &[u8] =
    b"\x01\x03\0\0\0\x20\0\0\0\x01\0\x05a.out\x04copy\0\0\0\0\0\0\0\0\0\0\0\0\0\0\0\0\0\0\0\x01\0\0\0\0\0\0\0\x01";

const PRODUCTS_OF_INPUT: &[u8] =
    b"\x01\x03\0\0\0\x20\0\0\0\x01\0\x05a.out\x04copy\0\0\0\0\0\0\0\0\0\0\0\0\0\0\0\0\0\0\0\x01\0\0\0\0\0\0\0\x02";

// Items of 28 bytes that put the source with a thing.
const SOURCE_1: &[u8] = b"\x03\0\x05a.txt\0\0\0\0\0\x05A.txt\0\0\0\0\0\0\0\0\x01";

const SOURCE_2: &[u8] = b"\x03\0\x05a.txt\0\0\0\0\0\x05A.txt\0\0\0\0\0\0\0\0\x02";

// Items of 18 bytes that put the creation from a thing.
const CREATE_1: &[u8] = b"\x05\0\x05a.txt\0\0\0\0\0\0\0\x01\x03";

const CREATE_2: &[u8] = b"\x05\0\x05a.txt\0\0\0\0\0\0\0\x02\x03";

// Items of 9 bytes.
const DROP_1: &[u8] = b"\x02\0\0\0\0\0\0\0\x01";

const DROP_2: &[u8] = b"\x02\0\0\0\0\0\0\0\x02";

const DROP_3: &[u8] = b"\x02\0\0\0\0\0\0\0\x03";

// Items of 15 bytes: the folder `game`.
const GAME: &[u8] = b"\x09\0\0\0\x01\0\0\0\0\0\x04game";

/// The items of each record, and the place and the offset of the first one that isn't taken.
type Case = (&'static [&'static [&'static [u8]]], Option<(u64, u64)>);

const RECORDS: [Case; 20] = [
    (&[&[GAME], &[]], None),
    (&[&[GAME], &[b"\0"]], Some((2, 0))),
    (&[&[b"\x0a"]], Some((1, 0))),
    (&[&[GAME, b"\xff"], &[b"\xff"]], Some((1, 15))),
    // A Define whose kid isn't live, or no more.
    (&[&[PRODUCTS]], Some((1, 0))),
    (&[&[ONE, DROP_1, PRODUCTS]], Some((1, 21))),
    (&[&[ONE, PRODUCTS], &[SOURCE_1]], None),
    // A Define of a thing that is live, and that is live no more.
    (&[&[ONE, ONE]], Some((1, 12))),
    (&[&[GAME], &[ONE], &[SOURCE_1, ONE]], Some((3, 28))),
    (&[&[ONE, DROP_1], &[ONE, DROP_2]], None),
    (&[&[ONE, DROP_1], &[ONE, DROP_1]], Some((2, 12))),
    // A Define outside the form of its tag.
    (&[&[ONE, INPUT]], None),
    (&[&[GAME], &[ONE, LONG_INPUT]], Some((2, 12))),
    (&[&[ONE, INPUT, PRODUCTS_OF_INPUT]], Some((1, 74))),
    (
        &[&[ONE], &[b"\x01\0\0\0\0\0\0\0\0\x01\0\0\0\0\0\0\0\x01"]],
        Some((2, 0)),
    ),
    (&[&[b"\x01\x04\0\0\0\0\0\0\0\0"]], Some((1, 0))),
    // A Drop of what a row or a thing names, and of what isn't live.
    (&[&[ONE, SOURCE_1], &[DROP_1]], Some((2, 0))),
    (&[&[ONE, PRODUCTS, DROP_1]], Some((1, 62))),
    (&[&[ONE, PRODUCTS, DROP_2, DROP_1, DROP_1]], Some((1, 80))),
    (&[&[GAME, DROP_3]], Some((1, 15))),
];

const ROWS: [Case; 22] = [
    // A put of a thing of another tag, and of none.
    (&[&[ONE, INPUT, SOURCE_2]], Some((1, 74))),
    (&[&[ONE, CREATE_1]], Some((1, 12))),
    (&[&[ONE, INPUT], &[CREATE_2]], None),
    (&[&[SOURCE_1]], Some((1, 0))),
    (&[&[ONE, SOURCE_1, SOURCE_2]], Some((1, 40))),
    (
        &[
            &[ONE, INPUT],
            &[b"\x07\0\x05a.txt\x04copy\x02pc\0\0\0\0\0\0\0\0\x02\x01\0\0\0\x07"],
        ],
        Some((2, 0)),
    ),
    // A row that isn't there.
    (&[&[GAME], &[b"\x04\0\x05a.txt"]], Some((2, 0))),
    (&[&[b"\x06\0\x05a.txt"]], Some((1, 0))),
    (&[&[b"\x08\0\x05a.txt\x04copy\x02pc"]], Some((1, 0))),
    (&[&[ONE, SOURCE_1, b"\x04\0\x05a.txt"]], None),
    (
        &[&[ONE, SOURCE_1, b"\x04\0\x05a.txt", b"\x04\0\x05a.txt"]],
        Some((1, 48)),
    ),
    (&[&[ONE, SOURCE_1], &[b"\x04\0\x05b.txt"]], Some((2, 0))),
    (
        &[&[
            b"\x07\0\x05a.txt\x04copy\x02pc\x01",
            b"\x08\0\x05a.txt\x04copy\x03mac",
        ]],
        Some((1, 17)),
    ),
    // A path that isn't folded.
    (
        &[
            &[ONE, INPUT],
            &[GAME, b"\x05\0\x05A.txt\0\0\0\0\0\0\0\x02\x03"],
        ],
        Some((2, 15)),
    ),
    // Orders of folders that don't rise.
    (
        &[&[b"\x09\0\0\0\x02\0\0\0\x01\0\x01a\0\0\0\x02\0\x01b"]],
        None,
    ),
    (
        &[
            &[GAME],
            &[b"\x09\0\0\0\x02\0\0\0\x01\0\x01a\0\0\0\x01\0\x01b"],
        ],
        Some((2, 0)),
    ),
    (
        &[&[b"\x09\0\0\0\x03\0\0\0\x01\0\x01a\0\0\0\x02\0\x01b\0\0\0\0\0\x01c"]],
        Some((1, 0)),
    ),
    (&[&[b"\x09\0\0\0\0"]], None),
    // The first of an unlawful item and one outside the grammar.
    (&[&[GAME], &[GAME, DROP_1, b"\xff"]], Some((2, 15))),
    (&[&[GAME], &[GAME, b"\xff", DROP_1]], Some((2, 15))),
    (&[&[GAME, DROP_1], &[b"\xff"]], Some((1, 15))),
    (&[&[GAME], &[ONE, b"\x04\0\x05A.txt"]], Some((2, 12))),
];

/// The file with records of these items.
fn file_with(rt: &impl Abort, alloc: Global, records: &[&[&[u8]]]) -> Result<Vec<u8>, Fail> {
    let mut file = b"APSTORE1\0\0\0\0\0\0\0\x01".to_vec(alloc)?;
    for items in records {
        let mut payload = Vec::new(alloc);
        for item in items.iter() {
            payload.extend_from_slice(item)?;
        }
        push_record(rt, &mut file, &payload)?;
    }
    file.push(0)?;
    Ok(file)
}

/// That opening finds these records bad where they are.
fn assert_found(rt: &impl Abort, alloc: Global, cases: &[Case]) -> Result<(), Fail> {
    for (at, (records, bad)) in cases.iter().enumerate() {
        let file = file_with(rt, alloc, records)?;
        let found = bad_at(rt, alloc, &file)?;
        assert!(rt; found == *bad, "case {at}: {found:?}");
    }
    Ok(())
}

#[test]
fn things_of_records(rt: HostRuntime) -> Result<(), Fail> {
    assert_found(&rt, rt.alloc(), &RECORDS)
}

#[test]
fn rows_of_records(rt: HostRuntime) -> Result<(), Fail> {
    assert_found(&rt, rt.alloc(), &ROWS)
}

#[test]
fn tables_of_a_store(rt: HostRuntime) -> Result<(), Fail> {
    let opened = database_of(&rt, rt.alloc(), FILE)?;
    assert!(rt; opened.counts() == (1, 0, 0, 0));
    Ok(())
}

/// A store with the row of one job, which depends on itself.
const JOBS: &[u8] = b"APSTORE1\0\0\0\0\0\0\0\x01\x01\0\0\0\x11\x07\0\x05a.txt\x04copy\x02pc\x01\0";

/// The id of a job of `a.txt` with this key.
fn job_of(alloc: Global, key: &[u8]) -> Result<JobId, Fail> {
    Ok(JobId {
        source: RelPath::read(alloc, b"a.txt")?,
        key: Name::read(alloc, key)?,
        platform: Platform::read(alloc, b"pc")?,
    })
}

#[test]
fn a_row_is_found(rt: HostRuntime) -> Result<(), Fail> {
    let alloc = rt.alloc();
    let opened = database_of(&rt, alloc, JOBS)?;
    assert!(rt; opened.db.row(&job_of(alloc, b"copz")?).is_none());
    match opened.db.row(&job_of(alloc, b"copy")?) {
        Some(row) => assert!(rt; matches!(&row.result, JobResult::Cycle)),
        None => panic!(rt; "no row"),
    }
    Ok(())
}

#[test]
fn a_creation_is_found(rt: HostRuntime) -> Result<(), Fail> {
    let alloc = rt.alloc();
    let before = front(&rt, alloc, 3)?;
    let opened = database_of(&rt, alloc, &before)?;
    assert!(rt;
        opened
            .db
            .creation(&RelPath::read(alloc, b"b.txt")?)
            .is_none()
    );
    match opened.db.creation(&RelPath::read(alloc, b"a.txt")?) {
        Some(row) => assert!(rt; matches!(&row.created, Created::Jobs(_))),
        None => panic!(rt; "no row"),
    }
    Ok(())
}
