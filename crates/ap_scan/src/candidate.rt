ghost use Rattle.std.specs.Prelude.{◌≡◌, IfOk};
ghost use Rattle.std.specs.Ordering.{as_partial_cmp};
ghost use Rattle.std.specs.Cmp.{partial_equiv_from_equiv, partial_order_from_total};
ghost use Rattle.std.specs.Cmp.Rules.{comparing};
ghost use Rattle.std.proofs.Common.{rules};
ghost use Rattle.ap_scan.specs.Winners.{in_folder};
ghost use Rattle.ap_scan.specs.Candidates.{candidate_cmp, same_candidate, candidate_total, same_candidate_equivalence};
ghost use Rattle.ap_scan.specs.Sweep.{hidden_of};
ghost use Rattle.ap_scan.specs.Reads.{winner_of};

use crate::results::{Hidden, Winner};
use ap_text::{Bytes, OutOfMemory, RelPath, Seen};
use std::alloc::Global;
use std::cmp::Ordering;

/// A file that may stand for its path. Candidates are ordered by path, then by the order of their folders,
/// then by name.
#[derive(Drop)]
pub(crate) struct Candidate {
    /// Its name in lower case.
    pub path: RelPath,
    /// The order of its folder.
    pub order: u32,
    /// Its name from its folder on, as listed.
    pub name: RelPath,
    /// Its path from the root of the project on.
    pub file: Bytes,
}

impl Candidate {
    pub(crate) fn into_winner(self, seen: Seen) -> Winner
        ensures { result ≡ winner_of self seen }
    {
        Winner {
            path: self.path,
            order: self.order,
            name: self.name,
            seen,
        }
    }

    pub(crate) fn into_hidden(self) -> Hidden
        ensures { result ≡ hidden_of self }
    {
        Hidden {
            order: self.order,
            name: self.name,
        }
    }
}

/// The path of a folder's file from the root of the project on.
pub(crate) fn file_in(alloc: Global, folder: &RelPath, name: &RelPath) -> Result<Bytes, OutOfMemory>
    ensures { IfOk result (λ file. file ≡ in_folder folder.now name.now) }
{
    let mut path = folder.as_slice().to_vec(alloc)?;
    path.push(b'/')?;
    path.extend_from_slice(name.as_slice())?;
    Ok(Bytes::of(path))
}

impl PartialEq for Candidate {
    ghost eq = { same_candidate };

    ghost laws = { partial_equiv_from_equiv same_candidate_equivalence };

    fn eq(&self, other: &Self) -> bool {
        self.cmp(other).is_eq()
    }
}

impl Eq for Candidate {
    ghost laws = { same_candidate_equivalence };
}

impl PartialOrd for Candidate {
    ghost partial_cmp = { as_partial_cmp candidate_cmp };

    ghost laws = { partial_order_from_total candidate_total };

    fn partial_cmp(&self, other: &Self) -> Option<Ordering> {
        Some(self.cmp(other))
    }
}

impl Ord for Candidate {
    ghost cmp = { candidate_cmp };

    ghost total = { candidate_total };

    ghost matches_partial_cmp = { Prim.search (comparing, rules) };

    ghost matches_eq = { Prim.search (comparing, rules) };

    fn cmp(&self, other: &Self) -> Ordering {
        self.path
            .cmp(&other.path)
            .then(self.order.cmp(&other.order))
            .then(self.name.cmp(&other.name))
    }
}
