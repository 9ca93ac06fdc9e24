ghost use Rattle.std.specs.Prelude.{◌≡◌, ◌≤◌, ◌<◌, ◌⊎◌, ◌+◌, ◌++◌, ◌^◌, ℕ, List, [], ◌∷◌, true, false, length, take, drop, Some, Err, IfOk, OnOk, IfErr, OnErr, IsErrOf, IfSome};
ghost use Rattle.ap_text.specs.Causes.{HasCause, Rose};
ghost use Rattle.ap_disk.specs.declared.disk.DiskFault.TheVariants.{Failed};
ghost use Rattle.ap_disk.specs.Calls.{TellsAs};
ghost use Rattle.ap_disk.specs.Crashes.{Only};
ghost use Rattle.ap_journal.specs.declared.fault.JournalFault.TheVariants.{OutOfMemory, DiskFault, Full, Spent, BadHeader};
ghost use Rattle.ap_journal.specs.Records.{standing, has_bad_header, record_at, IsStoreOf, IsSameStore, IsAtRest};
ghost use Rattle.ap_journal.specs.Changes.{IsCommitted, IsWithinCommit};
ghost use Rattle.ap_journal.specs.Moments.{Steps, Opens};
ghost use Rattle.ap_journal.specs.State.{IsOf, IsPlace, refusal, IsRefusedFor};

use crate::fault::JournalFault;
use crate::file;
use crate::framing::{FIRST, HEAD, OPEN, fill};
use crate::opening::open_synced;
use crate::reading::length_at;
use ap_disk::{Disk, Pair, Side};
use ap_text::Bytes;
use std::alloc::Global;
use std::marker::Model;

/// The records of a pair of disks, and where they end. A journal doesn't hold its disks: each call takes the
/// pair as the journal's last call left it. After a disk's fault the pair has to be opened again.
#[derive(Drop)]
pub struct Journal {
    alloc: Global,
    size: u64,
    limit: u64,
    cursor: u64,
    frame: Vec<u8>,
    is_spent: bool,
    ghost begins: { 17 ≤ size },
    ghost bounded: { limit ≤ 2 ^ 32 },
}

impl Model for Journal {
    ghost use Rattle.std.specs.Prelude.{vec_capacity};
    ghost use Rattle.ap_journal.specs.State.{State};

    ghost Value = { State };

    ghost view = { λ j. record {
      size = j.size;
      limit = j.limit;
      reserved = vec_capacity j.frame;
      spent = j.is_spent;
      cursor = j.cursor;
    } };
}

impl Journal {
    /// Opens the journal of a pair, whose file may have at most so many bytes. It reads the gates and the
    /// lengths, in one read of five bytes for each record, and cleans the end that a stop may have left.
    pub fn open<D: Disk>(
        alloc: Global,
        store: &mut Pair<D>,
        limit: u64,
    ) -> Result<Self, JournalFault>
        requires least { 17 ≤ limit }
        requires greatest { limit ≤ 2 ^ 32 }
        requires fits { limit ≤ D.room store.old.0 }
        ensures is_of { IfOk result (λ journal. IsOf D.seen D.may_leave D.room journal store.new) }
        ensures fresh { IfOk result (λ journal. journal.spent ≡ false) }
        ensures limit { IfOk result (λ journal. journal.limit ≡ limit) }
        ensures records { OnOk result (TellsAs (D.seen store.old.0) (D.seen store.new.0) (λ old new. standing new ≡ standing old)) }
        ensures header { OnOk result (IfSome (D.seen store.old.0) (λ old. has_bad_header old ≡ false)) }
        ensures bad { IsErrOf result BadHeader → IfSome (D.seen store.old.0) (λ old. has_bad_header old ≡ true) }
        ensures untouched { IsErrOf result BadHeader → D.seen store.new.0 ≡ D.seen store.old.0 }
        ensures only { IfErr result (λ stop. (stop ≡ DiskFault) ⊎ (stop ≡ BadHeader)) }
        ensures durable { (IsErrOf result DiskFault → ⊥) → Only (D.seen store.new.0) (D.may_leave store.new.0) }
        ensures opens { Opens D.seen D.may_leave D.clock D.left_at D.room D.faults store.old store.new (D.may_leave store.old.0)
            (λ c. IfSome (D.seen store.old.0) (λ old. IsSameStore old c)) }
        ensures cause { IsErrOf result DiskFault → Rose (D.faults store.old.0) (D.faults store.new.0) }
    {
        store.sync(Side::A)?;
        let size = open_synced(store)?;
        Ok(Journal {
            alloc,
            size,
            limit,
            cursor: FIRST,
            frame: Vec::new(alloc),
            is_spent: false,
        })
    }

    /// The length of the file, in bytes: its header, the standing records, and the closed gate behind them.
    pub fn length(&self) -> u64
        ensures { result ≡ self.now.size }
    {
        self.size
    }

    /// The record that stands at this offset, and the offset of the next one; None where none does. The first
    /// offset is 16. It costs one read of five bytes and one of the payload at the offset that the last answer
    /// gave, and at another one a read of five bytes for each record before it.
    pub fn record<D: Disk>(
        &mut self,
        store: &mut Pair<D>,
        at: u64,
    ) -> Result<Option<(Bytes, u64)>, JournalFault>
        requires { IsOf D.seen D.may_leave D.room self.old store.old }
        ensures is_of { IsOf D.seen D.may_leave D.room self.new store.new }
        ensures found { IfOk result (λ found. IfSome (D.seen store.old.0) (λ file. found ≡ record_at file at)) }
        ensures fits { IfOk result (λ found. IfSome found (λ read. (read.1 ≡ at + (5 + length read.0)) × (read.1 < self.old.size))) }
        ensures seen { D.seen store.new.0 ≡ D.seen store.old.0 }
        ensures kept { (self.new.size ≡ self.old.size) × (self.new.limit ≡ self.old.limit) × (self.new.reserved ≡ self.old.reserved) }
        ensures refused { self.old.spent ≡ true → result ≡ Err Spent }
        ensures only { IfErr result (λ stop. ((stop ≡ Spent) × (self.old.spent ≡ true)) ⊎ ((stop ≡ OutOfMemory) ⊎ (stop ≡ DiskFault))) }
        ensures spent { IsErrOf result DiskFault → self.new.spent ≡ true }
        ensures unspent { (IsErrOf result DiskFault → ⊥) → self.new.spent ≡ self.old.spent }
        ensures steps { Steps D.seen D.may_leave D.clock D.left_at D.room D.faults store.old store.new (D.may_leave store.old.0) }
        ensures cause { IsErrOf result DiskFault → Rose (D.faults store.old.0) (D.faults store.new.0) }
    {
        if self.is_spent {
            return Err(JournalFault::Spent);
        }
        match read_record(self.alloc, store, self.cursor, at, self.size) {
            Ok(Some((payload, next))) => {
                self.cursor = next;
                Ok(Some((payload, next)))
            }
            Ok(None) => Ok(None),
            Err(JournalFault::DiskFault) => {
                self.is_spent = true;
                Err(JournalFault::DiskFault)
            }
            Err(stop) => Err(stop),
        }
    }

    /// Takes the memory that an append of a payload of this length needs, so that it takes none.
    pub fn reserve(&mut self, length: usize) -> Result<(), JournalFault>
        ensures reserved { OnOk result (length + 5 ≤ self.new.reserved) }
        ensures kept { self.new ≡ record self.old { reserved = self.new.reserved } }
        ensures spent { self.old.spent ≡ true → IsErrOf result Spent }
        ensures only { IfErr result (λ stop. ((stop ≡ Spent) × (self.old.spent ≡ true)) ⊎ (stop ≡ OutOfMemory)) }
        ensures unchanged { OnErr result (self.new ≡ self.old) }
    {
        if self.is_spent {
            return Err(JournalFault::Spent);
        }
        let Some(room) = length.checked_add(HEAD as usize) else {
            return Err(JournalFault::OutOfMemory);
        };
        self.frame.clear();
        self.frame.reserve(room)?;
        Ok(())
    }

    /// Adds a record. At Ok it is acknowledged: from then on each crash leaves a file that has it. It costs
    /// two syncs and its own bytes, whatever the file's length, and takes no memory where so much was reserved
    /// since the last append.
    pub fn append<D: Disk>(
        &mut self,
        store: &mut Pair<D>,
        payload: &[u8],
    ) -> Result<(), JournalFault>
        requires { IsOf D.seen D.may_leave D.room self.old store.old }
        ensures is_of { IsOf D.seen D.may_leave D.room self.new store.new }
        ensures records { OnOk result (TellsAs (D.seen store.old.0) (D.seen store.new.0) (λ old new. standing new ≡ standing old ++ payload.now ∷ [])) }
        ensures size { OnOk result (self.new.size ≡ self.old.size + (length payload.now + 5)) }
        ensures refused { IsRefusedFor (refusal self.old (length payload.now)) result }
        ensures unchanged { IfErr result (λ stop. (stop ≡ DiskFault → ⊥) → (self.new ≡ self.old) × (store.new ≡ store.old)) }
        ensures memory { IsErrOf result OutOfMemory → self.old.reserved < length payload.now + 5 }
        ensures spent { IsErrOf result DiskFault → self.new.spent ≡ true }
        ensures unspent { OnOk result (self.new.spent ≡ false) }
        ensures limit { self.new.limit ≡ self.old.limit }
        ensures steps { self.old.spent ≡ false → Steps D.seen D.may_leave D.clock D.left_at D.room D.faults store.old store.new
            (λ c. IfSome (D.seen store.old.0) (λ old. IsStoreOf (standing old) c ⊎ IsStoreOf (standing old ++ payload.now ∷ []) c)) }
        ensures cause { IsErrOf result DiskFault → Rose (D.faults store.old.0) (D.faults store.new.0) }
    {
        if self.is_spent {
            return Err(JournalFault::Spent);
        }
        let wanted = payload.len() as u64 + HEAD;
        let length = self.size;
        if wanted > self.limit || length > self.limit - wanted {
            return Err(JournalFault::Full { length, wanted });
        }
        fill(&mut self.frame, payload)?;
        match commit(store, length, &self.frame) {
            Ok(()) => {
                self.size = length + wanted;
                Ok(())
            }
            Err(fault) => {
                self.is_spent = true;
                Err(fault.into())
            }
        }
    }
}

/// Reads the record that stands at an offset of a file of this size. The records are walked from a place of
/// theirs that isn't behind it, or else from the first.
fn read_record<D: Disk>(
    alloc: Global,
    store: &mut Pair<D>,
    place: u64,
    at: u64,
    size: u64,
) -> Result<Option<(Bytes, u64)>, JournalFault>
    ensures found { IfOk result (λ found. IfSome (D.seen store.old.0) (λ file. length file ≡ size → IsPlace file place → found ≡ record_at file at)) }
    ensures fits { IfOk result (λ found. IfSome found (λ read. (read.1 ≡ at + (5 + length read.0)) × (read.1 < size))) }
    ensures seen { D.seen store.new.0 ≡ D.seen store.old.0 }
    ensures only { IfErr result (λ stop. (stop ≡ OutOfMemory) ⊎ (stop ≡ DiskFault)) }
    ensures steps { Steps D.seen D.may_leave D.clock D.left_at D.room D.faults store.old store.new (D.may_leave store.old.0) }
    ensures cause { IsErrOf result DiskFault → Rose (D.faults store.old.0) (D.faults store.new.0) }
{
    if at < FIRST {
        return Ok(None);
    }
    let from = nearest(place, at);
    let Some(count) = length_at(store, from, at, size)? else {
        return Ok(None);
    };
    let Some(payload) = read_payload(alloc, store, at + HEAD, count as usize)? else {
        return Ok(None);
    };
    Ok(Some((payload, at + HEAD + count)))
}

/// The place from which the records are walked to an offset: this one, or the first where it is past it.
fn nearest(place: u64, at: u64) -> u64
    requires { 16 ≤ at }
    ensures bound { result ≤ at }
    ensures place { (file : List ℕ) → IsPlace file place → IsPlace file result }
{
    if place <= at {
        return place;
    }
    FIRST
}

/// Reads so many bytes from an offset on; None where the file has fewer.
fn read_payload<D: Disk>(
    alloc: Global,
    store: &mut Pair<D>,
    at: u64,
    count: usize,
) -> Result<Option<Bytes>, JournalFault>
    ensures bytes { IfOk result (λ found. IfSome (D.seen store.old.0) (λ file. at + count ≤ length file → found ≡ Some (take count (drop at file)))) }
    ensures long { IfOk result (λ found. IfSome found (λ payload. length payload ≡ count)) }
    ensures seen { D.seen store.new.0 ≡ D.seen store.old.0 }
    ensures only { IfErr result (λ stop. (stop ≡ OutOfMemory) ⊎ (stop ≡ DiskFault)) }
    ensures steps { Steps D.seen D.may_leave D.clock D.left_at D.room D.faults store.old store.new (D.may_leave store.old.0) }
    ensures cause { IsErrOf result DiskFault → Rose (D.faults store.old.0) (D.faults store.new.0) }
{
    let mut payload = vec![in alloc; 0u8; count]?;
    let read = file::read(store, at, &mut payload)?;
    if read < count {
        return Ok(None);
    }
    Ok(Some(Bytes::of(payload)))
}

/// Writes a frame behind the closed gate that ends a file of this size, and opens the gate once the frame
/// lasts.
fn commit<D: Disk>(store: &mut Pair<D>, size: u64, bytes: &[u8]) -> Result<(), ap_disk::DiskFault>
    requires gate { 1 ≤ size }
    requires fits { size + length bytes.now ≤ D.room store.old.0 }
    requires file { IfSome (D.seen store.old.0) (λ old. IsAtRest old × (length old ≡ size)) }
    requires durable { Only (D.seen store.old.0) (D.may_leave store.old.0) }
    ensures committed { OnOk result (TellsAs (D.seen store.old.0) (D.seen store.new.0) (IsCommitted bytes.now)) }
    ensures durable { OnOk result (Only (D.seen store.new.0) (D.may_leave store.new.0)) }
    ensures steps { Steps D.seen D.may_leave D.clock D.left_at D.room D.faults store.old store.new
        (λ c. IfSome (D.seen store.old.0) (IsWithinCommit bytes.now c)) }
    ensures cause { HasCause Failed (D.faults store.old.0) (D.faults store.new.0) result }
{
    file::extend(store, size, bytes)?;
    file::set_byte(store, size - 1, OPEN)
}
