//! The winners, as they are read.
ghost use Rattle.std.specs.Prelude.{◌≡◌, ◌<◌, ◌≤◌, ◌⊎◌, ◌+◌, ◌++◌, ◌∷◌, [], ℕ, IfOk, IfErr, OnOk, IfSome, length};
ghost use Rattle.std.specs.List.{AllByRecursion};
ghost use Rattle.std.specs.List.Sorted.{IsStrictlySortedBy};
ghost use Rattle.ap_text.specs.Causes.{Rose};
ghost use Rattle.ap_text.specs.Order.{bytes_cmp};
ghost use Rattle.ap_scan.specs.Limits.{IsPassedBytes, IsThere, size_of, bytes_of, first_over, all_seen};
ghost use Rattle.ap_scan.specs.Candidates.{IsFolded};
ghost use Rattle.ap_scan.specs.Reads.{winners_in, those_there, seen_in, winner_of, paths_of, winner_paths};
ghost use Rattle.ap_scan.specs.declared.fault.ScanFault.TheVariants.{TreeFault as TreeFailed, Limit, OutOfMemory as NoMemory};
ghost use Rattle.ap_text.specs.declared.seen.Which.TheVariants.{Bytes as ManyBytes};

use crate::candidate::Candidate;
use crate::fault::ScanFault;
use crate::listing::fault_of;
use crate::results::Winner;
use ap_text::{OutOfMemory, Seen, Which};
use ap_tree::Tree;
use std::alloc::Global;

/// The most bytes of all winners.
const BYTES_LIMIT: u64 = 268_435_456;

/// Reads the winners in their order. One that has gone since it was listed is left out.
pub(crate) fn read_all<T: Tree>(
    alloc: Global,
    tree: &mut T,
    candidates: Vec<Candidate>,
) -> Result<Vec<Winner>, ScanFault>
    ensures read { IfOk result (λ winners. IfSome (T.files tree.old) (λ files. winners.items ≡ those_there (winners_in files candidates.items))) }
    ensures limit { IfErr result (λ fault. (count : ℕ) → fault ≡ Limit ManyBytes count →
        IfSome (T.files tree.old) (λ files. first_over 0 (all_seen (winners_in files candidates.items)) ≡ Some count)) }
    ensures rises { IfOk result (λ winners. IsStrictlySortedBy bytes_cmp (paths_of candidates.items) → IsStrictlySortedBy bytes_cmp (winner_paths winners.items)) }
    ensures there { IfOk result (λ winners. AllByRecursion IsFolded candidates.items → AllByRecursion IsThere winners.items) }
    ensures fewer { IfOk result (λ winners. length winners.items ≤ length candidates.items) }
    ensures small { IfOk result (λ winners. bytes_of winners.items ≤ 268435456) }
    ensures cause { IfErr result (λ fault. fault ≡ TreeFailed → Rose (T.faults tree.old) (T.faults tree.new)) }
    ensures passed { IfErr result IsPassedBytes }
    ensures same { T.files tree.new ≡ T.files tree.old }
    ensures later { T.faults tree.old ≤ T.faults tree.new }
{
    let mut winners = Vec::with_capacity(alloc, candidates.len())?;
    let mut total = 0;
    for candidate in candidates {
        let seen = match read_one(alloc, tree, &candidate) {
            Ok(seen) => seen,
            Err(fault) => return Err(fault),
        };
        total = match total_with(total, &seen) {
            Ok(total) => total,
            Err(fault) => return Err(fault),
        };
        keep(&mut winners, candidate, seen)?;
    }
    Ok(winners)
}

fn read_one<T: Tree>(alloc: Global, tree: &mut T, candidate: &Candidate) -> Result<Seen, ScanFault>
    ensures seen { IfOk result (λ seen. IfSome (T.files tree.old) (λ files. seen ≡ seen_in files candidate.now)) }
    ensures cause { IfErr result (λ fault. fault ≡ TreeFailed → Rose (T.faults tree.old) (T.faults tree.new)) }
    ensures only { IfErr result (λ fault. (fault ≡ TreeFailed) ⊎ (fault ≡ NoMemory)) }
    ensures same { T.files tree.new ≡ T.files tree.old }
    ensures later { T.faults tree.old ≤ T.faults tree.new }
{
    match tree.read(alloc, candidate.file.as_slice()) {
        Ok(seen) => Ok(seen),
        Err(fault) => Err(fault_of(fault)),
    }
}

/// The sum with the bytes of one more file.
fn total_with(total: u64, seen: &Seen) -> Result<u64, ScanFault>
    requires { total ≤ 268435456 }
    ensures sum { IfOk result (λ sum. sum ≡ total + size_of seen.now) }
    ensures within { IfOk result (λ sum. sum ≤ 268435456) }
    ensures limit { IfErr result (λ fault. (fault ≡ Limit ManyBytes (total + size_of seen.now)) × (268435456 < total + size_of seen.now)) }
{
    let total = match seen {
        Seen::Bytes(bytes) => total + bytes.as_slice().len() as u64,
        Seen::Absent | Seen::TooLarge => total,
    };
    if total > BYTES_LIMIT {
        return Err(ScanFault::Limit {
            which: Which::Bytes,
            count: total,
        });
    }
    Ok(total)
}

/// Adds a winner, unless it is absent.
fn keep(winners: &mut Vec<Winner>, candidate: Candidate, seen: Seen) -> Result<(), OutOfMemory>
    ensures { OnOk result (winners.new.items ≡ winners.old.items ++ those_there (winner_of candidate seen ∷ [])) }
{
    if !matches!(seen, Seen::Absent) {
        winners.push(candidate.into_winner(seen))?;
    }
    Ok(())
}
