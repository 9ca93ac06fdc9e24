//! Commits that are stopped, and disks that fail.
ghost use Rattle.std.specs.Prelude.{◌≡◌, IfOk};

use super::project::{AT_NOTHING, assert_front, change_at, front, take};
use super::{Opened, ROOM, database_of, open};
use crate::DbFault;
use ap_disk::{Disk, MemoryDisk, Pair, Side};
use std::alloc::Global;
use std::process::Abort;
use std::test::Fail;

const FILLS: [u8; 4] = [0, 1, 7, 255];

/// The clock after each of the first four commits. Opening an empty file syncs it, asks for its length, cuts it,
/// syncs, writes, syncs and reads. A commit writes, syncs, writes and syncs.
const EXITS: [u64; 4] = [11, 15, 19, 23];

/// A pair of empty disks that tell what a stop leaves, whose first one fails these calls.
fn memory(alloc: Global, failing: &[u64]) -> Result<Pair<MemoryDisk>, Fail>
    ensures { IfOk result (λ pair. ⟦<MemoryDisk as Disk>⟧.room pair.0 ≡ 2048) }
{
    let failing = failing.to_vec(alloc)?;
    let a = MemoryDisk::new(alloc, Vec::new(alloc), ROOM, 200, 4096, failing)?;
    let b = MemoryDisk::new(alloc, Vec::new(alloc), ROOM, 200, 0, Vec::new(alloc))?;
    Ok(Pair::new(a, b))
}

fn now(rt: &impl Abort, disk: &MemoryDisk) -> u64 {
    match disk.clock() {
        Some(now) => now,
        None => panic!(rt; "no clock is told"),
    }
}

/// One image of a disk, at a moment of its calls.
fn image(
    rt: &impl Abort,
    alloc: Global,
    disk: &MemoryDisk,
    moment: u64,
    fill: u8,
) -> Result<Vec<u8>, Fail> {
    let Some(now) = disk.clock() else {
        panic!(rt; "no clock is told");
    };
    assert!(rt; 1 <= moment);
    assert!(rt; moment <= now);
    Ok(disk.image(alloc, moment, fill)?)
}

/// That a store of these bytes has the records of so many commits or of one more, and takes the others.
fn goes_on(rt: &impl Abort, alloc: Global, bytes: &[u8], answered: usize) -> Result<(), Fail> {
    let mut opened = database_of(rt, alloc, bytes)?;
    let before = front(rt, alloc, answered)?;
    let mut kept = answered;
    if opened.store.disk(Side::A).bytes() != before.as_slice() {
        kept = answered.saturating_add(1);
    }
    assert!(rt; kept <= 4);
    assert_front(rt, alloc, &opened, kept)?;
    for at in kept..4 {
        take(&mut opened, rt, alloc, at)?;
    }
    assert_front(rt, alloc, &opened, 4)
}

/// The clock after the first four commits, one after another.
fn exits(
    rt: &impl Abort,
    alloc: Global,
    opened: &mut Opened<MemoryDisk>,
) -> Result<Vec<u64>, Fail> {
    let mut answered = Vec::new(alloc);
    for at in 0..4usize {
        take(opened, rt, alloc, at)?;
        answered.push(now(rt, opened.store.disk(Side::A)))?;
    }
    Ok(answered)
}

#[test]
fn a_store_goes_on_from_each_moment(rt: HostRuntime) -> Result<(), Fail> {
    let alloc = rt.alloc();
    let mut opened = open(alloc, memory(alloc, &[])?, ROOM as u64)?;
    let exits = exits(&rt, alloc, &mut opened)?;
    assert!(rt; exits.as_slice() == EXITS.as_slice());
    for moment in 1..=EXITS[3] {
        let answered = exits.iter().filter(|exit| **exit < moment).count();
        for fill in FILLS {
            let stopped = image(&rt, alloc, opened.store.disk(Side::A), moment, fill)?;
            goes_on(&rt, alloc, &stopped, answered)?;
        }
    }
    Ok(())
}

/// How many commits were taken before one was refused with a fault of the disk.
fn taken_before(
    rt: &impl Abort,
    alloc: Global,
    opened: &mut Opened<MemoryDisk>,
) -> Result<Option<usize>, Fail> {
    let mut taken = 0usize;
    for at in 0..4usize {
        let change = change_at(opened, rt, alloc, at)?;
        match opened.commit(rt, &change)? {
            Ok(()) => taken = taken.saturating_add(1),
            Err(stop) => {
                assert!(rt; stop == DbFault::DiskFault, "{stop:?}");
                assert!(rt; opened.commit(rt, &change)? == Err(DbFault::Spent));
                return Ok(Some(taken));
            }
        }
    }
    Ok(None)
}

/// That the database whose disk fails in this call is spent then, and its store goes on.
fn assert_spent(rt: &impl Abort, alloc: Global, call: u64) -> Result<bool, Fail> {
    let mut opened = match open(alloc, memory(alloc, &[call])?, ROOM as u64) {
        Ok(opened) => opened,
        Err(stop) => {
            assert!(rt; stop == DbFault::DiskFault, "call {call}: {stop:?}");
            return Ok(true);
        }
    };
    let Some(taken) = taken_before(rt, alloc, &mut opened)? else {
        return Ok(false);
    };
    let none = change_at(&mut opened, rt, alloc, AT_NOTHING)?;
    assert!(rt; opened.commit(rt, &none)? == Err(DbFault::Spent));
    let left = opened.store.disk(Side::A).bytes().to_vec(alloc)?;
    goes_on(rt, alloc, &left, taken)?;
    Ok(true)
}

#[test]
fn a_database_whose_disk_fails_is_spent(rt: HostRuntime) -> Result<(), Fail> {
    let alloc = rt.alloc();
    let mut failed = 0usize;
    for call in 1..=60u64 {
        if assert_spent(&rt, alloc, call)? {
            failed = failed.saturating_add(1);
        }
    }
    assert_eq!(rt; failed, 23, "the calls of the opening and of four commits");
    Ok(())
}
