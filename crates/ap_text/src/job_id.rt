ghost use Rattle.std.specs.Prelude.{◌≡◌, IfOk};
ghost use Rattle.std.specs.Ordering.{as_partial_cmp};
ghost use Rattle.std.specs.Cmp.{partial_equiv_from_equiv, partial_order_from_total};
ghost use Rattle.std.specs.Cmp.Rules.{comparing};
ghost use Rattle.std.proofs.Common.{rules};
ghost use Rattle.ap_text.specs.JobOrder.{job_cmp, same_job, job_total, same_equivalence};

use crate::memory::OutOfMemory;
use crate::name::{Name, Platform};
use crate::path::RelPath;
use std::alloc::Global;
use std::cmp::Ordering;

/// The id of a product: the UUID of its source, and its number among the source's products.
#[derive(Clone, Copy, Debug, PartialEq, Eq)]
pub struct AssetId {
    pub uuid: [u8; 16],
    pub sub: u32,
}

/// The id of a job: the folded path of its source, its key and its platform. Ids are ordered by these, each
/// by its bytes.
#[derive(Drop)]
pub struct JobId {
    pub source: RelPath,
    pub key: Name,
    pub platform: Platform,
}

impl JobId {
    pub fn copy(&self, alloc: Global) -> Result<Self, OutOfMemory>
        ensures { IfOk result (λ copy. copy ≡ self.now) }
    {
        Ok(JobId {
            source: self.source.copy(alloc)?,
            key: self.key.copy(alloc)?,
            platform: self.platform.copy(alloc)?,
        })
    }
}

impl PartialEq for JobId {
    ghost eq = { same_job };

    ghost laws = { partial_equiv_from_equiv same_equivalence };

    fn eq(&self, other: &Self) -> bool {
        self.cmp(other).is_eq()
    }
}

impl Eq for JobId {
    ghost laws = { same_equivalence };
}

impl PartialOrd for JobId {
    ghost partial_cmp = { as_partial_cmp job_cmp };

    ghost laws = { partial_order_from_total job_total };

    fn partial_cmp(&self, other: &Self) -> Option<Ordering> {
        Some(self.cmp(other))
    }
}

impl Ord for JobId {
    ghost cmp = { job_cmp };

    ghost total = { job_total };

    ghost matches_partial_cmp = { Prim.search (comparing, rules) };

    ghost matches_eq = { Prim.search (comparing, rules) };

    fn cmp(&self, other: &Self) -> Ordering {
        self.source
            .cmp(&other.source)
            .then(self.key.as_slice().cmp(other.key.as_slice()))
            .then(self.platform.as_slice().cmp(other.platform.as_slice()))
    }
}
