ghost use Rattle.std.specs.Prelude.{◌≡◌, ◌≤◌, ◌<◌, ◌⊎◌, ◌+◌, Some, None, length, drop, IfOk, IfSome};
ghost use Rattle.ap_text.specs.Causes.{HasCause};
ghost use Rattle.ap_disk.specs.declared.disk.DiskFault.TheVariants.{Failed};
ghost use Rattle.ap_journal.specs.Records.{first_record, end_of, record_at};
ghost use Rattle.ap_journal.specs.State.{IsPlace, length_of};
ghost use Rattle.ap_journal.specs.Moments.{Steps};

use crate::file;
use crate::framing::{FIRST, HEAD, OPEN};
use ap_disk::{Disk, DiskFault, Pair};

/// The length of the payload of the record that stands at an offset of a file of this length: its gate is
/// open, and its length field, its payload and the next gate lie in the file.
pub(crate) fn payload_length<D: Disk>(
    store: &mut Pair<D>,
    at: u64,
    size: u64,
) -> Result<Option<u64>, DiskFault>
    requires { at ≤ size }
    ensures found { IfOk result (λ found. IfSome (D.seen store.old.0)
        (λ bytes. length bytes ≡ size → found ≡ length_of (first_record (drop at bytes)))) }
    ensures fits { IfOk result (λ found. IfSome found (λ count. at + (5 + count) < size)) }
    ensures seen { D.seen store.new.0 ≡ D.seen store.old.0 }
    ensures steps { Steps D.seen D.may_leave D.clock D.left_at D.room D.faults store.old store.new (D.may_leave store.old.0) }
    ensures cause { HasCause Failed (D.faults store.old.0) (D.faults store.new.0) result }
{
    let mut head = [0u8; 5];
    let count = file::read(store, at, &mut head)?;
    if count < 5 {
        return Ok(None);
    }
    let [gate, a, b, c, d] = head;
    if gate != OPEN {
        return Ok(None);
    }
    let length = u32::from_be_bytes([a, b, c, d]) as u64;
    if size - at <= HEAD + length {
        return Ok(None);
    }
    Ok(Some(length))
}

/// Where the standing records of a file of this length end: there lies the gate that follows the last of
/// them. 16, where no record stands. The cost is one read of five bytes for each record.
pub(crate) fn records_end<D: Disk>(store: &mut Pair<D>, size: u64) -> Result<u64, DiskFault>
    ensures end { IfOk result (λ end. IfSome (D.seen store.old.0) (λ bytes. length bytes ≡ size → end ≡ end_of bytes)) }
    ensures fits { IfOk result (λ end. (end ≡ 16) ⊎ (end < size)) }
    ensures least { IfOk result (λ end. 16 ≤ end) }
    ensures seen { D.seen store.new.0 ≡ D.seen store.old.0 }
    ensures steps { Steps D.seen D.may_leave D.clock D.left_at D.room D.faults store.old store.new (D.may_leave store.old.0) }
    ensures cause { HasCause Failed (D.faults store.old.0) (D.faults store.new.0) result }
{
    let mut end = FIRST;
    if size <= FIRST {
        return Ok(end);
    }
    let mut next = payload_length(store, end, size)?;
    while let Some(length) = next {
        end += HEAD + length;
        next = payload_length(store, end, size)?;
    }
    Ok(end)
}

/// The length of the payload of the record that stands at an offset of a file of this length, and None where
/// none does. The records are walked from this place on, at which so many of them end.
pub(crate) fn length_at<D: Disk>(
    store: &mut Pair<D>,
    place: u64,
    at: u64,
    size: u64,
) -> Result<Option<u64>, DiskFault>
    requires { place ≤ at }
    ensures found { IfOk result (λ found. IfSome (D.seen store.old.0)
        (λ bytes. length bytes ≡ size → IsPlace bytes place → found ≡ length_of (record_at bytes at))) }
    ensures fits { IfOk result (λ found. IfSome found (λ count. at + (5 + count) < size)) }
    ensures seen { D.seen store.new.0 ≡ D.seen store.old.0 }
    ensures steps { Steps D.seen D.may_leave D.clock D.left_at D.room D.faults store.old store.new (D.may_leave store.old.0) }
    ensures cause { HasCause Failed (D.faults store.old.0) (D.faults store.new.0) result }
{
    let mut here = place;
    while here < at {
        if here > size {
            return Ok(None);
        }
        let Some(length) = payload_length(store, here, size)? else {
            return Ok(None);
        };
        here += HEAD + length;
    }
    if here > at || at > size {
        return Ok(None);
    }
    payload_length(store, at, size)
}
