ghost use Rattle.std.specs.Prelude.{◌≡◌};
ghost use Rattle.ap_journal.specs.declared.fault.JournalFault.TheVariants.{OutOfMemory, DiskFault};

use std::alloc::AllocError;

/// Why a journal refuses a call.
#[derive(Clone, Copy, Debug, PartialEq, Eq)]
pub enum JournalFault {
    /// There is too little memory. The journal and its disks are as before.
    OutOfMemory,
    /// A disk has failed in this call. The journal is spent: its pair has to be opened again.
    DiskFault,
    /// With the record the file would pass the limit: `length` is the file's, and `wanted` what the record
    /// takes, both in bytes. The journal and its disks are as before.
    Full { length: u64, wanted: u64 },
    /// A disk has failed in an earlier call of this journal.
    Spent,
    /// Records stand in a file that doesn't begin with a journal's mark. Nothing was written.
    BadHeader,
}

impl From<AllocError> for JournalFault {
    ghost from_gives = { λ _ e. e ≡ OutOfMemory };

    fn from(_error: AllocError) -> Self {
        JournalFault::OutOfMemory
    }
}

impl From<ap_disk::DiskFault> for JournalFault {
    ghost from_gives = { λ _ e. e ≡ DiskFault };

    fn from(_fault: ap_disk::DiskFault) -> Self {
        JournalFault::DiskFault
    }
}
