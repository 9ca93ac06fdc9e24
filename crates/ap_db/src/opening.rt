//! The records of a store, read as it is opened.
ghost use Rattle.std.specs.Prelude.{◌≡◌, ◌≤◌, ◌⊎◌, ◌^◌, ℕ, false, IfOk, OnOk, IfErr, IsErrOf, IfSome};
ghost use Rattle.ap_text.specs.Causes.{Rose};
ghost use Rattle.ap_disk.specs.Calls.{TellsAs};
ghost use Rattle.ap_disk.specs.Crashes.{Only};
ghost use Rattle.ap_journal.specs.Records.{IsSameStore};
ghost use Rattle.ap_journal.specs.Moments.{Steps, Opens};
ghost use Rattle.ap_journal.specs.State.{IsOf};
ghost use Rattle.ap_db.specs.declared.fault.DbFault.TheVariants.{OutOfMemory, DiskFault, BadStore};
ghost use Rattle.ap_db.specs.declared.reading.PayloadFault.TheVariants.{Bad};
ghost use Rattle.ap_db.specs.Stored.{nothing_stored, stored_in};
ghost use Rattle.ap_db.specs.Payloads.{Reads};
ghost use Rattle.ap_db.specs.Opened.{HasBadRecord, IsBadStore, ReadsAll, ReadsFile};

use crate::fault::DbFault;
use crate::reading::{PayloadFault, Reading};
use ap_disk::{Disk, Pair};
use ap_journal::Journal;
use std::alloc::Global;

/// The offset of a file's first record.
const FIRST: u64 = 16;

/// The fault of a store whose record of this number isn't taken.
fn fault_in(stop: PayloadFault, place: u64) -> DbFault
    ensures bad { (p offset : ℕ) → result ≡ BadStore p offset → (stop ≡ Bad offset) × (p ≡ place) }
    ensures only { (result ≡ OutOfMemory) ⊎ ((offset : ℕ) × (result ≡ BadStore place offset)) }
{
    match stop {
        PayloadFault::Bad { offset } => DbFault::BadStore { place, offset },
        PayloadFault::OutOfMemory => DbFault::OutOfMemory,
    }
}

/// Reads all records of a journal, one after another.
fn read_records<D: Disk>(
    alloc: Global,
    journal: &mut Journal,
    store: &mut Pair<D>,
    reading: &mut Reading,
) -> Result<(), DbFault>
    requires is_of { IsOf D.seen D.may_leave D.room journal.old store.old }
    requires fresh { journal.old.spent ≡ false }
    requires nothing { Reads reading.old nothing_stored }
    ensures is_of { IsOf D.seen D.may_leave D.room journal.new store.new }
    ensures unspent { OnOk result (journal.new.spent ≡ false) }
    ensures limit { journal.new.limit ≡ journal.old.limit }
    ensures read { OnOk result (ReadsAll reading.new (D.seen store.old.0)) }
    ensures bad { IfErr result (λ stop. (place offset : ℕ) → stop ≡ BadStore place offset → IfSome (D.seen store.old.0) (HasBadRecord place offset)) }
    ensures only { IfErr result (λ stop. (stop ≡ OutOfMemory) ⊎ (stop ≡ DiskFault) ⊎ ((place : ℕ) × (offset : ℕ) × (stop ≡ BadStore place offset))) }
    ensures seen { D.seen store.new.0 ≡ D.seen store.old.0 }
    ensures steps { Steps D.seen D.may_leave D.clock D.left_at D.room D.faults store.old store.new (D.may_leave store.old.0) }
    ensures cause { IsErrOf result DiskFault → Rose (D.faults store.old.0) (D.faults store.new.0) }
{
    let mut at = FIRST;
    let mut number = 1u64;
    while let Some((payload, next)) = journal.record(store, at)? {
        match reading.take_payload(alloc, payload.as_slice()) {
            Ok(()) => {}
            Err(stop) => return Err(fault_in(stop, number)),
        }
        at = next;
        number += 1;
    }
    Ok(())
}

/// Opens the journal of a store and reads all its records.
pub(crate) fn open_records<D: Disk>(
    alloc: Global,
    store: &mut Pair<D>,
    limit: u64,
) -> Result<(Journal, Reading), DbFault>
    requires least { 17 ≤ limit }
    requires greatest { limit ≤ 2 ^ 32 }
    requires fits { limit ≤ D.room store.old.0 }
    ensures is_of { IfOk result (λ opened. IsOf D.seen D.may_leave D.room opened.0 store.new) }
    ensures fresh { IfOk result (λ opened. opened.0.spent ≡ false) }
    ensures limit { IfOk result (λ opened. opened.0.limit ≡ limit) }
    ensures read { IfOk result (λ opened. ReadsFile opened.1 (D.seen store.new.0)) }
    ensures same { OnOk result (TellsAs (D.seen store.old.0) (D.seen store.new.0) (λ old new. stored_in new ≡ stored_in old)) }
    ensures bad { IfErr result (λ stop. (place offset : ℕ) → stop ≡ BadStore place offset → IfSome (D.seen store.old.0) (IsBadStore place offset)) }
    ensures only { IfErr result (λ stop. (stop ≡ OutOfMemory) ⊎ (stop ≡ DiskFault) ⊎ ((place : ℕ) × (offset : ℕ) × (stop ≡ BadStore place offset))) }
    ensures opens { Opens D.seen D.may_leave D.clock D.left_at D.room D.faults store.old store.new (D.may_leave store.old.0)
        (λ c. IfSome (D.seen store.old.0) (λ old. IsSameStore old c)) }
    ensures durable { OnOk result (Only (D.seen store.new.0) (D.may_leave store.new.0)) }
    ensures cause { IsErrOf result DiskFault → Rose (D.faults store.old.0) (D.faults store.new.0) }
{
    let mut journal = Journal::open(alloc, store, limit)?;
    let mut reading = Reading::new(alloc)?;
    match read_records(alloc, &mut journal, store, &mut reading) {
        Ok(()) => Ok((journal, reading)),
        Err(stop) => Err(stop),
    }
}
