ghost use Rattle.std.specs.Ordering.{as_partial_cmp};
ghost use Rattle.std.specs.Cmp.{partial_equiv_from_equiv, partial_order_from_total};
ghost use Rattle.std.specs.Cmp.Rules.{comparing};
ghost use Rattle.std.proofs.Common.{rules};
ghost use Rattle.ap_scan.specs.Winners.{odd_cmp};
ghost use Rattle.ap_scan.specs.Candidates.{same_odd, odd_total, same_odd_equivalence};

use ap_text::{Bytes, List, RelPath, Seen};
use std::cmp::Ordering;

/// A file that stands for its path.
#[derive(Drop)]
pub struct Winner {
    /// Its name in lower case.
    pub path: RelPath,
    /// The order of its folder.
    pub order: u32,
    /// Its name from its folder on, as listed.
    pub name: RelPath,
    /// Its bytes, or that it has more than 4,194,304 of them; never that it is absent.
    pub seen: Seen,
}

/// A file for whose path another one stands.
#[derive(Drop)]
pub struct Hidden {
    /// The order of its folder.
    pub order: u32,
    /// Its name from its folder on, as listed.
    pub name: RelPath,
}

/// A listed name that is no path, so that its file stands for none. Odd names are ordered by the order of
/// their folders, and then by their bytes.
#[derive(Drop)]
pub struct Odd {
    /// The order of its folder.
    pub order: u32,
    /// Its name from its folder on, as listed.
    pub name: Bytes,
}

/// What was found in the scan folders.
#[derive(Drop)]
pub struct Scan {
    /// By path.
    pub winners: List<Winner>,
    /// By their names in lower case, then by order, then by name.
    pub hidden: List<Hidden>,
    /// By order, then by name.
    pub odd: List<Odd>,
}

impl PartialEq for Odd {
    ghost eq = { same_odd };

    ghost laws = { partial_equiv_from_equiv same_odd_equivalence };

    fn eq(&self, other: &Self) -> bool {
        self.cmp(other).is_eq()
    }
}

impl Eq for Odd {
    ghost laws = { same_odd_equivalence };
}

impl PartialOrd for Odd {
    ghost partial_cmp = { as_partial_cmp odd_cmp };

    ghost laws = { partial_order_from_total odd_total };

    fn partial_cmp(&self, other: &Self) -> Option<Ordering> {
        Some(self.cmp(other))
    }
}

impl Ord for Odd {
    ghost cmp = { odd_cmp };

    ghost total = { odd_total };

    ghost matches_partial_cmp = { Prim.search (comparing, rules) };

    ghost matches_eq = { Prim.search (comparing, rules) };

    fn cmp(&self, other: &Self) -> Ordering {
        self.order
            .cmp(&other.order)
            .then(self.name.cmp(&other.name))
    }
}
