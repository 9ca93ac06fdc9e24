//! Candidates and odd names in their orders, and which of the candidates win.
ghost use Rattle.std.specs.Prelude.{◌≡◌, Contains, IfOk, map};
ghost use Rattle.std.specs.declared.cmp.Ordering.TheVariants.{Equal};
ghost use Rattle.std.specs.List.Sorted.{IsStrictlySortedBy};
ghost use Rattle.ap_scan.specs.Winners.{odd_cmp};
ghost use Rattle.ap_scan.specs.Candidates.{candidate_cmp, SameMembers};
ghost use Rattle.ap_scan.specs.Sweep.{firsts, others, hidden_of};

use crate::candidate::Candidate;
use crate::results::{Hidden, Odd};
use ap_text::OutOfMemory;
use std::alloc::Global;
use std::mem;

/// Puts candidates in their order, each once.
pub(crate) fn put_in_order(candidates: &mut Vec<Candidate>)
    ensures rises { IsStrictlySortedBy candidate_cmp candidates.new.items }
    ensures only { (c : Candidate) → Contains candidates.new.items c → Contains candidates.old.items c }
    ensures all { (c : Candidate) → Contains candidates.old.items c → (d : Candidate) × Contains candidates.new.items d × (candidate_cmp c d ≡ Equal) }
{
    candidates.sort_unstable();
    candidates.dedup();
}

/// Puts odd names in their order, each once.
pub(crate) fn put_odd_in_order(odd: &mut Vec<Odd>)
    ensures rises { IsStrictlySortedBy odd_cmp odd.new.items }
    ensures same { SameMembers odd.old.items odd.new.items }
{
    odd.sort_unstable();
    odd.dedup();
}

/// Of candidates in their order, the first for each path, and the others.
pub(crate) fn split(
    alloc: Global,
    candidates: Vec<Candidate>,
) -> Result<(Vec<Candidate>, Vec<Hidden>), OutOfMemory>
    ensures firsts { IfOk result (λ split. split.0.items ≡ firsts candidates.items) }
    ensures others { IfOk result (λ split. split.1.items ≡ map hidden_of (others candidates.items)) }
{
    let mut winners = Vec::new(alloc);
    let mut hidden = Vec::new(alloc);
    let mut rest = candidates.into_iter();
    let Some(mut first) = rest.next() else {
        return Ok((winners, hidden));
    };
    for candidate in rest {
        if first.path == candidate.path {
            hidden.push(candidate.into_hidden())?;
        } else {
            winners.push(mem::replace(&mut first, candidate))?;
        }
    }
    winners.push(first)?;
    Ok((winners, hidden))
}
