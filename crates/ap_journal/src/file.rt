ghost use Rattle.std.specs.Prelude.{◌≡◌, ◌≤◌, ◌<◌, ◌+◌, ◌++◌, length, take, IfOk, OnOk, IfSome};
ghost use Rattle.ap_text.specs.Causes.{HasCause};
ghost use Rattle.ap_disk.specs.declared.disk.DiskFault.TheVariants.{Failed};
ghost use Rattle.ap_disk.specs.Calls.{Reads, TellsAs};
ghost use Rattle.ap_disk.specs.Crashes.{Only, Shortened};
ghost use Rattle.ap_journal.specs.Changes.{Extends, with_byte, HasSomeByteAt};
ghost use Rattle.ap_journal.specs.Moments.{Steps};

use ap_disk::{Disk, DiskFault, Pair, Side};

// The file of a journal is the first disk's; the second one rests. The calls that change it need that nothing
// is pending, and sync what they did, so that nothing is pending when they answer Ok.

/// Reads the bytes from an offset on, as many as lie in the file and fit, and gives their number.
pub(crate) fn read<D: Disk>(
    store: &mut Pair<D>,
    at: u64,
    buf: &mut [u8],
) -> Result<usize, DiskFault>
    ensures bytes { IfOk result (λ count. Reads (D.seen store.old.0) at buf.old count buf.new) }
    ensures seen { D.seen store.new.0 ≡ D.seen store.old.0 }
    ensures steps { Steps D.seen D.may_leave D.clock D.left_at D.room D.faults store.old store.new (D.may_leave store.old.0) }
    ensures cause { HasCause Failed (D.faults store.old.0) (D.faults store.new.0) result }
{
    store.read(Side::A, at, buf)
}

/// The length of the file, in bytes.
pub(crate) fn length<D: Disk>(store: &mut Pair<D>) -> Result<u64, DiskFault>
    ensures length { IfOk result (λ count. IfSome (D.seen store.old.0) (λ bytes. count ≡ length bytes)) }
    ensures bound { IfOk result (λ count. count ≤ D.room store.old.0) }
    ensures seen { D.seen store.new.0 ≡ D.seen store.old.0 }
    ensures steps { Steps D.seen D.may_leave D.clock D.left_at D.room D.faults store.old store.new (D.may_leave store.old.0) }
    ensures cause { HasCause Failed (D.faults store.old.0) (D.faults store.new.0) result }
{
    store.len(Side::A)
}

/// Adds bytes behind the end of the file, which is at this offset.
pub(crate) fn extend<D: Disk>(store: &mut Pair<D>, at: u64, bytes: &[u8]) -> Result<(), DiskFault>
    requires fits { at + length bytes.now ≤ D.room store.old.0 }
    requires end { IfSome (D.seen store.old.0) (λ old. length old ≡ at) }
    requires durable { Only (D.seen store.old.0) (D.may_leave store.old.0) }
    ensures written { OnOk result (TellsAs (D.seen store.old.0) (D.seen store.new.0) (λ old new. new ≡ old ++ bytes.now)) }
    ensures durable { OnOk result (Only (D.seen store.new.0) (D.may_leave store.new.0)) }
    ensures steps { Steps D.seen D.may_leave D.clock D.left_at D.room D.faults store.old store.new
        (λ c. IfSome (D.seen store.old.0) (λ old. Extends old (length bytes.now) c)) }
    ensures cause { HasCause Failed (D.faults store.old.0) (D.faults store.new.0) result }
{
    store.write_at(Side::A, at, bytes)?;
    store.sync(Side::A)
}

/// Sets one byte within the file.
pub(crate) fn set_byte<D: Disk>(store: &mut Pair<D>, at: u64, byte: u8) -> Result<(), DiskFault>
    requires fits { at + 1 ≤ D.room store.old.0 }
    requires within { IfSome (D.seen store.old.0) (λ old. at < length old) }
    requires durable { Only (D.seen store.old.0) (D.may_leave store.old.0) }
    ensures written { OnOk result (TellsAs (D.seen store.old.0) (D.seen store.new.0) (λ old new. new ≡ with_byte old at byte)) }
    ensures durable { OnOk result (Only (D.seen store.new.0) (D.may_leave store.new.0)) }
    ensures steps { Steps D.seen D.may_leave D.clock D.left_at D.room D.faults store.old store.new
        (λ c. IfSome (D.seen store.old.0) (λ old. HasSomeByteAt old at c)) }
    ensures cause { HasCause Failed (D.faults store.old.0) (D.faults store.new.0) result }
{
    store.write_at(Side::A, at, &[byte])?;
    store.sync(Side::A)
}

/// Cuts the file to a length.
pub(crate) fn cut<D: Disk>(store: &mut Pair<D>, len: u64) -> Result<(), DiskFault>
    requires durable { Only (D.seen store.old.0) (D.may_leave store.old.0) }
    ensures written { OnOk result (TellsAs (D.seen store.old.0) (D.seen store.new.0) (λ old new. new ≡ take len old)) }
    ensures durable { OnOk result (Only (D.seen store.new.0) (D.may_leave store.new.0)) }
    ensures steps { Steps D.seen D.may_leave D.clock D.left_at D.room D.faults store.old store.new
        (λ c. IfSome (D.seen store.old.0) (λ old. Shortened len old c)) }
    ensures cause { HasCause Failed (D.faults store.old.0) (D.faults store.new.0) result }
{
    store.cut(Side::A, len)?;
    store.sync(Side::A)
}
