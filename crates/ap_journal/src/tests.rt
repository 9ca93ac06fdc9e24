ghost use Rattle.std.specs.Prelude.{◌≡◌, ◌≤◌, ◌^◌, Some, IfOk};

use crate::{Journal, JournalFault};
use ap_disk::{Disk, FileDisk, MemoryDisk, Pair, Side};
use ap_text::Bytes;
use std::alloc::Global;
use std::fs;
use std::marker::Model;
use std::process::Abort;
use std::test::Fail;

const ROOM: usize = 128;

const FILLS: [u8; 4] = [0, 1, 7, 255];

/// A disk in memory with these bytes.
fn disk(rt: &impl Abort, alloc: Global, bytes: &[u8], failing: &[u64]) -> Result<MemoryDisk, Fail>
    ensures room { IfOk result (λ disk. ⟦<MemoryDisk as Disk>⟧.room disk ≡ 128) }
    ensures clock { IfOk result (λ disk. ⟦<MemoryDisk as Disk>⟧.clock disk ≡ Some 0) }
{
    assert!(rt; bytes.len() <= ROOM);
    Ok(MemoryDisk::new(
        alloc,
        bytes.to_vec(alloc)?,
        ROOM,
        99,
        999,
        failing.to_vec(alloc)?,
    )?)
}

/// A pair whose first disk has these bytes, and the second none.
fn pair(
    rt: &impl Abort,
    alloc: Global,
    bytes: &[u8],
    failing: &[u64],
) -> Result<Pair<MemoryDisk>, Fail>
    ensures { IfOk result (λ pair. ⟦<MemoryDisk as Disk>⟧.room pair.0 ≡ 128) }
{
    let a = disk(rt, alloc, bytes, failing)?;
    let b = disk(rt, alloc, b"", &[])?;
    Ok(Pair::new(a, b))
}

/// A journal with its pair.
#[derive(Drop)]
struct Opened<D: Disk> {
    journal: Journal,
    store: Pair<D>,
}

impl<D: Disk> Model for Opened<D> {
    ghost use Rattle.ap_journal.specs.State.{State, IsOf};

    ghost Value = { State × (D × D) };

    ghost view = { λ o. (o.journal, o.store) };

    ghost invariant = { λ o. IsOf D.seen D.may_leave D.room o.journal o.store };
}

/// The journal of a pair, whose file may have so many bytes.
fn open<D: Disk + Drop>(
    alloc: Global,
    store: Pair<D>,
    limit: u64,
) -> Result<Opened<D>, JournalFault>
    requires least { 17 ≤ limit }
    requires greatest { limit ≤ 2 ^ 32 }
    requires fits { limit ≤ D.room store.0 }
{
    let mut store = store;
    let journal = Journal::open(alloc, &mut store, limit)?;
    Ok(Opened { journal, store })
}

impl<D: Disk> Opened<D> {
    fn append(&mut self, payload: &[u8]) -> Result<(), JournalFault> {
        self.journal.append(&mut self.store, payload)
    }

    fn record(&mut self, at: u64) -> Result<Option<(Bytes, u64)>, JournalFault> {
        self.journal.record(&mut self.store, at)
    }

    fn reserve(&mut self, length: usize) -> Result<(), JournalFault> {
        self.journal.reserve(length)
    }
}

/// The records of the journal, one after another.
fn read_all<D: Disk>(alloc: Global, opened: &mut Opened<D>) -> Result<Vec<Bytes>, Fail> {
    let mut records = Vec::new(alloc);
    let mut at = 16;
    for _ in 0..9u8 {
        match opened.record(at)? {
            Some((payload, next)) => {
                records.push(payload)?;
                at = next;
            }
            None => return Ok(records),
        }
    }
    Ok(records)
}

/// The records that stand in these bytes, as an opening finds them.
fn records_in(rt: &impl Abort, alloc: Global, bytes: &[u8]) -> Result<Vec<Bytes>, Fail> {
    let store = pair(rt, alloc, bytes, &[])?;
    let mut opened = open(alloc, store, ROOM as u64)?;
    read_all(alloc, &mut opened)
}

/// Whether these are the records wanted.
fn are(records: &[Bytes], want: &[&[u8]]) -> bool {
    records.len() == want.len()
        && records
            .iter()
            .zip(want)
            .all(|(record, like)| record.as_slice() == *like)
}

/// One image of the first disk, at a moment of its calls.
fn image(
    rt: &impl Abort,
    alloc: Global,
    disk: &MemoryDisk,
    moment: u64,
    fill: u8,
) -> Result<Vec<u8>, Fail> {
    let Some(now) = disk.clock() else {
        panic!(rt; "no clock is told");
    };
    assert!(rt; 1 <= moment);
    assert!(rt; moment <= now);
    Ok(disk.image(alloc, moment, fill)?)
}

fn now(rt: &impl Abort, disk: &MemoryDisk) -> u64 {
    match disk.clock() {
        Some(now) => now,
        None => panic!(rt; "no clock is told"),
    }
}

/// Adds records, and notes the clock after each.
fn add_all(
    rt: &impl Abort,
    opened: &mut Opened<MemoryDisk>,
    records: &[&[u8]],
    answered: &mut Vec<u64>,
) -> Result<(), Fail> {
    for record in records {
        opened.append(record)?;
        answered.push(now(rt, opened.store.disk(Side::A)))?;
    }
    Ok(())
}

/// That the image of a moment has these records.
fn assert_records(
    rt: &(impl Abort + AllocGlobal),
    disk: &MemoryDisk,
    moment: u64,
    fill: u8,
    want: &[&[u8]],
) -> Result<(), Fail> {
    let alloc = rt.alloc();
    let stopped = image(rt, alloc, disk, moment, fill)?;
    let records = records_in(rt, alloc, &stopped)?;
    assert!(rt; are(&records, want), "moment {moment}, fill {fill}");
    Ok(())
}

#[test]
fn a_stopped_append(rt: HostRuntime) -> Result<(), Fail> {
    let alloc = rt.alloc();
    let mut answered = Vec::new(alloc);
    let mut opened = open(alloc, pair(&rt, alloc, b"", &[])?, 40)?;
    add_all(&rt, &mut opened, &[b"ab"], &mut answered)?;
    let file = b"APSTORE1\0\0\0\0\0\0\0\x01\x01\0\0\0\x02ab\0";
    assert_eq!(rt; opened.store.disk(Side::A).bytes(), file.as_slice());
    let full = JournalFault::Full {
        length: 24,
        wanted: 17,
    };
    assert_eq!(rt; opened.append(b"123456789abc"), Err(full));
    let before = now(&rt, opened.store.disk(Side::A));
    opened.append(b"c")?;
    let _records = read_all(alloc, &mut opened)?;
    for fill in FILLS {
        let torn: &[&[u8]] = if fill == 1 { &[b"ab", b"c"] } else { &[b"ab"] };
        let images: [&[&[u8]]; 5] = [&[b"ab"], &[b"ab"], torn, torn, &[b"ab", b"c"]];
        let mut moment = before;
        for want in images {
            moment = moment.saturating_add(1);
            assert_records(&rt, opened.store.disk(Side::A), moment, fill, want)?;
        }
    }
    Ok(())
}

#[test]
fn room_up_to_the_limit(rt: HostRuntime) -> Result<(), Fail> {
    let alloc = rt.alloc();
    let mut opened = open(alloc, pair(&rt, alloc, b"", &[])?, 40)?;
    assert_eq!(rt; opened.journal.length(), 17);
    opened.reserve(11)?;
    opened.append(b"ab")?;
    opened.append(b"123456789ab")?;
    assert_eq!(rt; opened.journal.length(), 40);
    let records = read_all(alloc, &mut opened)?;
    assert!(rt; are(&records, &[b"ab", b"123456789ab"]));
    Ok(())
}

#[test]
fn a_stopped_opening(rt: HostRuntime) -> Result<(), Fail> {
    let alloc = rt.alloc();
    let torn = b"APSTORE1\0\0\0\0\0\0\0\x01\x01\0\0\0\x02ab\x07\0\0\0\x01c\0";
    let opened = open(alloc, pair(&rt, alloc, torn, &[])?, 40)?;
    let end = now(&rt, opened.store.disk(Side::A));
    let file = b"APSTORE1\0\0\0\0\0\0\0\x01\x01\0\0\0\x02ab\0";
    assert_eq!(rt; opened.store.disk(Side::A).bytes(), file.as_slice());
    for fill in FILLS {
        for moment in 1..=end {
            assert_records(&rt, opened.store.disk(Side::A), moment, fill, &[b"ab"])?;
        }
    }
    Ok(())
}

const SCRIPT: [&[u8]; 5] = [b"one", b"", b"three", b"\x01\x01", b"five"];

/// That the image of a moment has a front of the script's records, with every acknowledged one.
fn assert_front(
    rt: &(impl Abort + AllocGlobal),
    disk: &MemoryDisk,
    moment: u64,
    fill: u8,
    answered: &[u64],
) -> Result<(), Fail> {
    let alloc = rt.alloc();
    let stopped = image(rt, alloc, disk, moment, fill)?;
    let records = records_in(rt, alloc, &stopped)?;
    let acknowledged = answered.iter().filter(|exit| **exit < moment).count();
    assert!(rt;
        acknowledged <= records.len(),
        "moment {moment}, fill {fill}"
    );
    assert!(rt; records.len() <= acknowledged.saturating_add(1));
    assert!(rt; records.len() <= SCRIPT.len());
    assert!(rt;
        are(&records, &SCRIPT[..records.len()]),
        "moment {moment}, fill {fill}"
    );
    Ok(())
}

#[test]
fn each_moment_of_a_script(rt: HostRuntime) -> Result<(), Fail> {
    let alloc = rt.alloc();
    let mut answered = Vec::new(alloc);
    let mut opened = open(alloc, pair(&rt, alloc, b"", &[])?, 100)?;
    add_all(&rt, &mut opened, &SCRIPT[..2], &mut answered)?;
    assert!(rt; opened.store.room(Side::A) >= 100);
    let mut again = open(alloc, opened.store, 100)?;
    add_all(&rt, &mut again, &SCRIPT[2..], &mut answered)?;
    let end = now(&rt, again.store.disk(Side::A));
    for moment in 1..=end {
        for fill in FILLS {
            assert_front(&rt, again.store.disk(Side::A), moment, fill, &answered)?;
        }
    }
    Ok(())
}

#[test]
fn refusals(rt: HostRuntime) -> Result<(), Fail> {
    let alloc = rt.alloc();
    let other = b"APSTORE2\0\0\0\0\0\0\0\x01\x01\0\0\0\x02ab\0!";
    match open(alloc, pair(&rt, alloc, other, &[])?, 40) {
        Ok(_) => panic!(rt; "another mark is taken"),
        Err(stop) => assert_eq!(rt; stop, JournalFault::BadHeader),
    }
    let none = b"APSTORE2\0\0\0\0\0\0\0\x01\0";
    let mut opened = open(alloc, pair(&rt, alloc, none, &[9])?, 40)?;
    let first = b"APSTORE1\0\0\0\0\0\0\0\x01\0";
    assert_eq!(rt; opened.store.disk(Side::A).bytes(), first.as_slice());
    assert_eq!(rt; opened.append(b"ab"), Err(JournalFault::DiskFault));
    assert_eq!(rt; opened.append(b"ab"), Err(JournalFault::Spent));
    assert_eq!(rt; opened.reserve(1), Err(JournalFault::Spent));
    match opened.record(16) {
        Ok(_) => panic!(rt; "a spent journal reads"),
        Err(stop) => assert_eq!(rt; stop, JournalFault::Spent),
    }
    Ok(())
}

/// Opens the journal of a pair and adds two records.
fn add_two<D: Disk + Drop>(alloc: Global, store: Pair<D>) -> Result<(), Fail>
    requires { 4294967296 ≤ D.room store.0 }
{
    let mut opened = open(alloc, store, 4294967296)?;
    opened.append(b"ab")?;
    opened.append(b"c")?;
    Ok(())
}

/// Whether the journal of a pair has these two records, and no others.
fn has_two<D: Disk + Drop>(alloc: Global, store: Pair<D>) -> Result<bool, Fail>
    requires { 4294967296 ≤ D.room store.0 }
{
    let mut opened = open(alloc, store, 4294967296)?;
    let records = read_all(alloc, &mut opened)?;
    let none = opened.record(17)?.is_none();
    let second = match opened.record(23)? {
        Some((payload, next)) => next == 29 && payload.as_slice() == b"c".as_slice(),
        None => false,
    };
    Ok(none && second && are(&records, &[b"ab", b"c"]) && opened.journal.length() == 30)
}

#[test]
fn a_real_file(rt: HostRuntime) -> Result<(), Fail> {
    let alloc = rt.alloc();
    let _absent = fs::remove_file(&rt, "journal_test.a");
    let a = FileDisk::new(rt.clone()?, "journal_test.a")?;
    let b = FileDisk::new(rt.clone()?, "journal_test.b")?;
    add_two(alloc, Pair::new(a, b))?;
    let a = FileDisk::new(rt.clone()?, "journal_test.a")?;
    let b = FileDisk::new(rt.clone()?, "journal_test.b")?;
    let has_both = has_two(alloc, Pair::new(a, b))?;
    assert!(rt; has_both);
    assert!(rt;
        fs::metadata(&rt, "journal_test.b").is_err(),
        "the second file is opened"
    );
    fs::remove_file(&rt, "journal_test.a")?;
    Ok(())
}
