ghost use Rattle.std.specs.Prelude.{◌≡◌, ◌≤◌, ◌<◌, ◌⊎◌, ◌+◌, [], ◌∷◌, true, false, length, take, drop, IfOk, OnOk, IfErr, IsErrOf, IfSome};
ghost use Rattle.ap_text.specs.Causes.{HasCause, Rose};
ghost use Rattle.ap_disk.specs.declared.disk.DiskFault.TheVariants.{Failed};
ghost use Rattle.ap_disk.specs.Calls.{TellsAs};
ghost use Rattle.ap_disk.specs.Crashes.{Only};
ghost use Rattle.ap_journal.specs.declared.fault.JournalFault.TheVariants.{BadHeader};
ghost use Rattle.ap_journal.specs.Records.{standing, is_marked, has_bad_header, IsSameStore};
ghost use Rattle.ap_journal.specs.Changes.{IsCleaned, EndsAt};
ghost use Rattle.ap_journal.specs.Moments.{Steps};

use crate::fault::JournalFault;
use crate::file;
use crate::framing::{CLOSED, FIRST};
use crate::reading::records_end;
use ap_disk::{Disk, DiskFault, Pair};

/// The header of a file without records, of the first epoch, and its closed gate.
const FIRST_BYTES: &[u8] = b"APSTORE1\0\0\0\0\0\0\0\x01\0";

/// Whether the file begins with the mark of a journal.
fn has_mark<D: Disk>(store: &mut Pair<D>) -> Result<bool, DiskFault>
    ensures mark { IfOk result (λ mark. IfSome (D.seen store.old.0) (λ bytes. mark ≡ is_marked bytes)) }
    ensures seen { D.seen store.new.0 ≡ D.seen store.old.0 }
    ensures steps { Steps D.seen D.may_leave D.clock D.left_at D.room D.faults store.old store.new (D.may_leave store.old.0) }
    ensures cause { HasCause Failed (D.faults store.old.0) (D.faults store.new.0) result }
{
    let mut mark = [0u8; 8];
    let count = file::read(store, 0, &mut mark)?;
    if count < 8 {
        return Ok(false);
    }
    Ok(mark == *b"APSTORE1")
}

/// Whether the byte at an offset is a closed gate.
fn is_closed<D: Disk>(store: &mut Pair<D>, at: u64) -> Result<bool, DiskFault>
    ensures closed { IfOk result (λ closed. IfSome (D.seen store.old.0) (λ bytes. closed ≡ true → take 1 (drop at bytes) ≡ 0 ∷ [])) }
    ensures seen { D.seen store.new.0 ≡ D.seen store.old.0 }
    ensures steps { Steps D.seen D.may_leave D.clock D.left_at D.room D.faults store.old store.new (D.may_leave store.old.0) }
    ensures cause { HasCause Failed (D.faults store.old.0) (D.faults store.new.0) result }
{
    let mut gate = [0u8; 1];
    let count = file::read(store, at, &mut gate)?;
    if count < 1 {
        return Ok(false);
    }
    Ok(gate == [CLOSED])
}

/// Makes a file in which no record stands the empty journal: its header and a closed gate.
fn renew<D: Disk>(store: &mut Pair<D>) -> Result<(), DiskFault>
    requires fits { 17 ≤ D.room store.old.0 }
    requires none { IfSome (D.seen store.old.0) (λ old. standing old ≡ []) }
    requires durable { Only (D.seen store.old.0) (D.may_leave store.old.0) }
    ensures cleaned { OnOk result (TellsAs (D.seen store.old.0) (D.seen store.new.0) (IsCleaned 17)) }
    ensures durable { OnOk result (Only (D.seen store.new.0) (D.may_leave store.new.0)) }
    ensures steps { Steps D.seen D.may_leave D.clock D.left_at D.room D.faults store.old store.new
        (λ c. IfSome (D.seen store.old.0) (λ old. IsSameStore old c)) }
    ensures cause { HasCause Failed (D.faults store.old.0) (D.faults store.new.0) result }
{
    file::cut(store, 0)?;
    file::extend(store, 0, FIRST_BYTES)
}

/// Whether a file of this size ends with a closed gate at this offset.
fn ends_closed<D: Disk>(store: &mut Pair<D>, end: u64, size: u64) -> Result<bool, DiskFault>
    requires { end < size }
    ensures closed { IfOk result (λ closed. IfSome (D.seen store.old.0) (λ bytes. length bytes ≡ size → closed ≡ true → (size ≡ end + 1) × (drop end bytes ≡ 0 ∷ []))) }
    ensures seen { D.seen store.new.0 ≡ D.seen store.old.0 }
    ensures steps { Steps D.seen D.may_leave D.clock D.left_at D.room D.faults store.old store.new (D.may_leave store.old.0) }
    ensures cause { HasCause Failed (D.faults store.old.0) (D.faults store.new.0) result }
{
    if size != end + 1 {
        return Ok(false);
    }
    is_closed(store, end)
}

/// Cuts the file behind the gate that follows its last standing record, and closes this gate. The cut has to
/// last first: behind a gate that a crash tears open, what stood there would count.
fn cut_and_close<D: Disk>(store: &mut Pair<D>, end: u64, size: u64) -> Result<(), DiskFault>
    requires inside { end < size }
    requires fits { size ≤ D.room store.old.0 }
    requires file { IfSome (D.seen store.old.0) (EndsAt end size) }
    requires durable { Only (D.seen store.old.0) (D.may_leave store.old.0) }
    ensures cleaned { OnOk result (TellsAs (D.seen store.old.0) (D.seen store.new.0) (IsCleaned (end + 1))) }
    ensures durable { OnOk result (Only (D.seen store.new.0) (D.may_leave store.new.0)) }
    ensures steps { Steps D.seen D.may_leave D.clock D.left_at D.room D.faults store.old store.new
        (λ c. IfSome (D.seen store.old.0) (λ old. IsSameStore old c)) }
    ensures cause { HasCause Failed (D.faults store.old.0) (D.faults store.new.0) result }
{
    file::cut(store, end + 1)?;
    file::set_byte(store, end, CLOSED)
}

/// Makes a file, whose records end at this offset, end with the closed gate there.
fn clean<D: Disk>(store: &mut Pair<D>, end: u64, size: u64) -> Result<(), DiskFault>
    requires inside { end < size }
    requires fits { size ≤ D.room store.old.0 }
    requires file { IfSome (D.seen store.old.0) (EndsAt end size) }
    requires durable { Only (D.seen store.old.0) (D.may_leave store.old.0) }
    ensures cleaned { OnOk result (TellsAs (D.seen store.old.0) (D.seen store.new.0) (IsCleaned (end + 1))) }
    ensures durable { OnOk result (Only (D.seen store.new.0) (D.may_leave store.new.0)) }
    ensures steps { Steps D.seen D.may_leave D.clock D.left_at D.room D.faults store.old store.new
        (λ c. IfSome (D.seen store.old.0) (λ old. IsSameStore old c)) }
    ensures cause { HasCause Failed (D.faults store.old.0) (D.faults store.new.0) result }
{
    if ends_closed(store, end, size)? {
        return Ok(());
    }
    cut_and_close(store, end, size)
}

/// Reads the gates of a file on which nothing is pending, cleans its end, and gives its length then.
pub(crate) fn open_synced<D: Disk>(store: &mut Pair<D>) -> Result<u64, JournalFault>
    requires fits { 17 ≤ D.room store.old.0 }
    requires durable { Only (D.seen store.old.0) (D.may_leave store.old.0) }
    ensures cleaned { IfOk result (λ size. TellsAs (D.seen store.old.0) (D.seen store.new.0) (IsCleaned size)) }
    ensures least { IfOk result (λ size. 17 ≤ size) }
    ensures header { OnOk result (IfSome (D.seen store.old.0) (λ old. has_bad_header old ≡ false)) }
    ensures bad { IsErrOf result BadHeader → IfSome (D.seen store.old.0) (λ old. has_bad_header old ≡ true) }
    ensures untouched { IsErrOf result BadHeader → D.seen store.new.0 ≡ D.seen store.old.0 }
    ensures only { IfErr result (λ stop. (stop ≡ JournalFault.DiskFault) ⊎ (stop ≡ BadHeader)) }
    ensures durable { (IsErrOf result JournalFault.DiskFault → ⊥) → Only (D.seen store.new.0) (D.may_leave store.new.0) }
    ensures steps { Steps D.seen D.may_leave D.clock D.left_at D.room D.faults store.old store.new
        (λ c. IfSome (D.seen store.old.0) (λ old. IsSameStore old c)) }
    ensures cause { IsErrOf result JournalFault.DiskFault → Rose (D.faults store.old.0) (D.faults store.new.0) }
{
    let size = file::length(store)?;
    let end = records_end(store, size)?;
    if end == FIRST {
        renew(store)?;
        return Ok(FIRST_BYTES.len() as u64);
    }
    if !has_mark(store)? {
        return Err(JournalFault::BadHeader);
    }
    clean(store, end, size)?;
    Ok(end + 1)
}
