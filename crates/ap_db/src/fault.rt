ghost use Rattle.std.specs.Prelude.{◌≡◌};
ghost use Rattle.ap_db.specs.declared.fault.DbFault.TheVariants.{OutOfMemory};
ghost use Rattle.ap_db.specs.Faults.{db_fault_of};

use ap_journal::JournalFault;

/// Why a database refuses a call.
#[derive(Clone, Copy, Debug, PartialEq, Eq)]
pub enum DbFault {
    /// There is too little memory. All is as before.
    OutOfMemory,
    /// A disk has failed in this call. The store has to be opened again.
    DiskFault,
    /// A record isn't one of a database: `place` is the number of the first such record, counted from 1, and
    /// `offset` that of the first item in its payload that is outside the grammar or not lawful. Both are 0
    /// where records stand in a file that doesn't begin with a journal's mark.
    BadStore { place: u64, offset: u64 },
    /// With the record the file would pass its limit: `length` is the file's, and `wanted` what the record
    /// takes, both in bytes. All is as before.
    StoreFull { length: u64, wanted: u64 },
    /// A disk has failed in an earlier call of this database.
    Spent,
}

impl From<ap_text::OutOfMemory> for DbFault {
    ghost from_gives = { λ _ e. e ≡ OutOfMemory };

    fn from(_error: ap_text::OutOfMemory) -> Self {
        DbFault::OutOfMemory
    }
}

impl From<JournalFault> for DbFault {
    ghost from_gives = { λ stop e. e ≡ db_fault_of stop };

    fn from(fault: JournalFault) -> Self {
        match fault {
            JournalFault::OutOfMemory => DbFault::OutOfMemory,
            JournalFault::DiskFault => DbFault::DiskFault,
            JournalFault::Full { length, wanted } => DbFault::StoreFull { length, wanted },
            JournalFault::Spent => DbFault::Spent,
            JournalFault::BadHeader => DbFault::BadStore {
                place: 0,
                offset: 0,
            },
        }
    }
}
