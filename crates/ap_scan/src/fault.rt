ghost use Rattle.std.specs.Prelude.{◌≡◌};
ghost use Rattle.ap_scan.specs.declared.fault.ScanFault.TheVariants.{OutOfMemory as NoMemory};

use ap_text::{OutOfMemory, Which};
use std::alloc::{AllocError, AllocFailed};

/// Why there is no scan. Nothing is made then.
#[derive(Clone, Copy, Debug, PartialEq, Eq)]
pub enum ScanFault {
    /// The tree failed, and its count of faults rose.
    TreeFault,
    /// There are more than 20,000 winners, or their bytes are more than 268,435,456: `count` is the number
    /// of all winners, or the first sum of bytes, in the order of the paths, that passes the limit.
    Limit { which: Which, count: u64 },
    OutOfMemory,
}

impl From<OutOfMemory> for ScanFault {
    ghost from_gives = { λ _ fault. fault ≡ NoMemory };

    fn from(_error: OutOfMemory) -> ScanFault {
        ScanFault::OutOfMemory
    }
}

impl From<AllocError> for ScanFault {
    ghost from_gives = { λ _ fault. fault ≡ NoMemory };

    fn from(_error: AllocError) -> ScanFault {
        ScanFault::OutOfMemory
    }
}

impl<T: Drop> From<AllocFailed<T>> for ScanFault {
    ghost from_gives = { λ _ fault. fault ≡ NoMemory };

    fn from(_error: AllocFailed<T>) -> ScanFault {
        ScanFault::OutOfMemory
    }
}
