//! The record of a commit, added to the journal.
ghost use Rattle.std.specs.Prelude.{◌≡◌, ◌≢◌, ◌≤◌, ◌⊎◌, ◌+◌, ◌++◌, ◌^◌, [], ◌∷◌, false, true, length, Ok, OnOk, IfErr, IsErrOf, IfSome, IsTrue};
ghost use Rattle.ap_text.specs.Causes.{Rose};
ghost use Rattle.ap_disk.specs.Calls.{TellsAs};
ghost use Rattle.ap_journal.specs.Records.{standing, IsStoreOf};
ghost use Rattle.ap_journal.specs.Moments.{Steps};
ghost use Rattle.ap_journal.specs.State.{IsOf};
ghost use Rattle.ap_rows.specs.Folded.{are_folded};
ghost use Rattle.ap_rows.specs.Grammar.{decoded};
ghost use Rattle.ap_rows.specs.Spelling.{spelled};
ghost use Rattle.ap_db.specs.declared.fault.DbFault.TheVariants.{DiskFault};
ghost use Rattle.ap_db.specs.Faults.{commit_refusal, IsRefusedFor};
ghost use Rattle.ap_db.specs.Recording.{HasRecord};

use crate::fault::DbFault;
use ap_disk::{Disk, Pair};
use ap_journal::Journal;
use ap_rows::{Change, encode, spelled_length};
use std::alloc::Global;

/// How many bytes a record takes beside its payload.
const HEAD: u64 = 5;

/// The greatest limit of a journal.
const GREATEST: u64 = 4_294_967_296;

/// Adds the record with these items, whose numbers are those of the file. At Ok it is acknowledged. It costs
/// two syncs and the record's own bytes.
pub(crate) fn append_change<D: Disk>(
    alloc: Global,
    journal: &mut Journal,
    store: &mut Pair<D>,
    change: &Change,
) -> Result<(), DbFault>
    requires is_of { IsOf D.seen D.may_leave D.room journal.old store.old }
    requires fresh { journal.old.spent ≡ false }
    requires bounded { journal.old.limit ≤ 2 ^ 32 }
    ensures is_of { IsOf D.seen D.may_leave D.room journal.new store.new }
    ensures records { OnOk result (TellsAs (D.seen store.old.0) (D.seen store.new.0) (λ old new. standing new ≡ standing old ++ spelled change.now.items ∷ [])) }
    ensures reads { OnOk result (IsTrue (are_folded change.now.items) → decoded (spelled change.now.items) ≡ Ok change.now.items) }
    ensures refused { IsRefusedFor (commit_refusal journal.old (length (spelled change.now.items))) result }
    ensures unchanged { IfErr result (λ stop. stop ≢ DiskFault → (journal.new ≡ journal.old) × (store.new ≡ store.old)) }
    ensures spent { IsErrOf result DiskFault → journal.new.spent ≡ true }
    ensures unspent { OnOk result (journal.new.spent ≡ false) }
    ensures limit { journal.new.limit ≡ journal.old.limit }
    ensures steps { Steps D.seen D.may_leave D.clock D.left_at D.room D.faults store.old store.new
        (λ c. IfSome (D.seen store.old.0) (λ old. IsStoreOf (standing old) c ⊎ HasRecord change.now.items old c)) }
    ensures cause { IsErrOf result DiskFault → Rose (D.faults store.old.0) (D.faults store.new.0) }
{
    let wanted = spelled_length(change).saturating_add(HEAD);
    if wanted > GREATEST {
        let length = journal.length();
        return Err(DbFault::StoreFull { length, wanted });
    }
    let payload = match encode(alloc, change) {
        Ok(payload) => payload,
        Err(_) => return Err(DbFault::OutOfMemory),
    };
    journal.append(store, payload.as_slice())?;
    Ok(())
}
