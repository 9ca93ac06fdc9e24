ghost use Rattle.std.specs.Prelude.{◌≡◌, ◌≢◌, ◌++◌, codes, decimal, IfOk, IfErr};
ghost use Rattle.std.specs.Cow.{cow_slice_items};
ghost use Rattle.ap_cli.specs.declared.stop.Stop.TheVariants.{Memory, Output};
ghost use Rattle.ap_cli.specs.Refusals.{status_of, refusal_line, unconfigured_words, counted_words, of_db, of_engine, of_scan};

use crate::unconfigured::Unconfigured;
use ap_db::DbFault;
use ap_engine::EngineFault;
use ap_scan::ScanFault;
use ap_text::{OutOfMemory, Which};
use std::alloc::{AllocError, AllocFailed, Global};
use std::borrow::CowSlice;

/// Why a run ends before its report is written.
#[derive(Debug, Drop)]
pub enum Stop {
    /// The words are no command line.
    Usage,
    /// There is no configuration.
    Configuration(Unconfigured),
    /// The tree failed.
    Tree,
    /// The cache failed.
    Cache,
    /// A disk of the store failed.
    Disk,
    /// The sink failed.
    Output,
    Memory,
    /// The record of this number, from 1 on, isn't one of a database: what begins at this offset of its payload
    /// is outside the grammar or not lawful. Both are 0 where records stand in a file with another mark.
    BadStore { record: u64, offset: u64 },
    /// So many files, or bytes of files, are more than a project may have.
    Limit { which: Which, count: u64 },
    /// The next record doesn't fit: the store's file has `length` bytes, and the record takes `wanted`.
    Full { length: u64, wanted: u64 },
    /// The work needs what isn't built yet.
    Unbuilt,
}

/// The lines of all commands, also of those that aren't built yet.
const USAGE: &[u8] =
    b"ap: usage: ap batch CONFIG [--jobs N], ap serve CONFIG PORT, ap catalog PLATFORM ASSET, ap soak N\n";

impl Stop {
    /// The exit status.
    pub fn status(&self) -> u8
        ensures { result ≡ status_of self.now }
    {
        match self {
            Stop::Usage => 2,
            Stop::Configuration(_) => 3,
            Stop::Tree => 4,
            Stop::Cache => 5,
            Stop::Disk => 6,
            Stop::Output => 7,
            Stop::Memory => 8,
            Stop::BadStore { .. } => 9,
            Stop::Limit { .. } => 10,
            Stop::Full { .. } => 11,
            Stop::Unbuilt => 13,
        }
    }

    /// The line that is written, with its line feed; none where the sink failed. Only a line with numbers, or one
    /// on a configuration, takes memory.
    pub fn line(&self, alloc: Global) -> Result<CowSlice<'static, u8, Global>, OutOfMemory>
        ensures line { IfOk result (λ line. cow_slice_items line ≡ refusal_line self.now) }
        ensures quiet { IfErr result (λ _. self.now ≢ Output) }
    {
        match self {
            Stop::Usage => Ok(CowSlice::Borrowed(USAGE)),
            Stop::Configuration(why) => Ok(CowSlice::Owned(no_configuration(alloc, why)?)),
            Stop::Tree => Ok(CowSlice::Borrowed(b"ap: tree fault\n")),
            Stop::Cache => Ok(CowSlice::Borrowed(b"ap: cache fault\n")),
            Stop::Disk => Ok(CowSlice::Borrowed(b"ap: disk fault\n")),
            Stop::Output => Ok(CowSlice::Borrowed(b"")),
            Stop::Memory => Ok(CowSlice::Borrowed(OUT_OF_MEMORY)),
            Stop::BadStore { record, offset } => {
                Ok(CowSlice::Owned(bad_store(alloc, *record, *offset)?))
            }
            Stop::Limit { which, count } => {
                Ok(CowSlice::Owned(over_limit(alloc, *which, *count)?))
            }
            Stop::Full { length, wanted } => {
                Ok(CowSlice::Owned(store_full(alloc, *length, *wanted)?))
            }
            Stop::Unbuilt => Ok(CowSlice::Borrowed(b"ap: unbuilt\n")),
        }
    }
}

/// The line for want of memory, which takes none.
pub(crate) const OUT_OF_MEMORY: &[u8] = b"ap: out of memory\n";

fn no_configuration(alloc: Global, why: &Unconfigured) -> Result<Vec<u8>, OutOfMemory>
    ensures { IfOk result (λ line. line.items ≡ codes "ap: configuration: " ++ (unconfigured_words why.now ++ codes "\n")) }
{
    let mut line = b"ap: configuration: ".to_vec(alloc)?;
    line.extend_from_slice(&why.words(alloc)?)?;
    line.push(b'\n')?;
    Ok(line)
}

fn over_limit(alloc: Global, which: Which, count: u64) -> Result<Vec<u8>, OutOfMemory>
    ensures { IfOk result (λ line. line.items ≡ codes "ap: limit: " ++ (counted_words which ++ (decimal count ++ codes "\n"))) }
{
    let mut line = b"ap: limit: ".to_vec(alloc)?;
    line.extend_from_slice(counted(which))?;
    line.extend_from_slice(count.to_string(alloc)?.as_bytes())?;
    line.push(b'\n')?;
    Ok(line)
}

/// What is counted, before its number.
fn counted(which: Which) -> &'static [u8]
    ensures { result.now ≡ counted_words which }
{
    match which {
        Which::Files => b"files ",
        Which::Bytes => b"bytes ",
        Which::Jobs => b"jobs ",
        Which::ProductBytes => b"product bytes ",
        Which::Tickets => b"tickets ",
    }
}

fn bad_store(alloc: Global, number: u64, offset: u64) -> Result<Vec<u8>, OutOfMemory>
    ensures { IfOk result (λ line. line.items ≡ codes "ap: bad store: record " ++ (decimal number ++ (codes " offset " ++ (decimal offset ++ codes "\n")))) }
{
    let mut line = b"ap: bad store: record ".to_vec(alloc)?;
    line.extend_from_slice(number.to_string(alloc)?.as_bytes())?;
    line.extend_from_slice(b" offset ")?;
    line.extend_from_slice(offset.to_string(alloc)?.as_bytes())?;
    line.push(b'\n')?;
    Ok(line)
}

fn store_full(alloc: Global, length: u64, wanted: u64) -> Result<Vec<u8>, OutOfMemory>
    ensures { IfOk result (λ line. line.items ≡ codes "ap: store full: length " ++ (decimal length ++ (codes " wanted " ++ (decimal wanted ++ codes "\n")))) }
{
    let mut line = b"ap: store full: length ".to_vec(alloc)?;
    line.extend_from_slice(length.to_string(alloc)?.as_bytes())?;
    line.extend_from_slice(b" wanted ")?;
    line.extend_from_slice(wanted.to_string(alloc)?.as_bytes())?;
    line.push(b'\n')?;
    Ok(line)
}

impl From<DbFault> for Stop {
    ghost from_gives = { λ fault stop. stop ≡ of_db fault };

    fn from(fault: DbFault) -> Stop {
        match fault {
            DbFault::OutOfMemory => Stop::Memory,
            DbFault::DiskFault | DbFault::Spent => Stop::Disk,
            DbFault::BadStore { place, offset } => Stop::BadStore {
                record: place,
                offset,
            },
            DbFault::StoreFull { length, wanted } => Stop::Full { length, wanted },
        }
    }
}

impl From<ScanFault> for Stop {
    ghost from_gives = { λ fault stop. stop ≡ of_scan fault };

    fn from(fault: ScanFault) -> Stop {
        match fault {
            ScanFault::TreeFault => Stop::Tree,
            ScanFault::Limit { which, count } => Stop::Limit { which, count },
            ScanFault::OutOfMemory => Stop::Memory,
        }
    }
}

impl From<EngineFault> for Stop {
    ghost from_gives = { λ fault stop. stop ≡ of_engine fault };

    fn from(fault: EngineFault) -> Stop {
        match fault {
            EngineFault::Db(fault) => fault.into(),
            EngineFault::Unbuilt => Stop::Unbuilt,
        }
    }
}

impl From<OutOfMemory> for Stop {
    ghost from_gives = { λ _ stop. stop ≡ Memory };

    fn from(_fault: OutOfMemory) -> Stop {
        Stop::Memory
    }
}

impl From<AllocError> for Stop {
    ghost from_gives = { λ _ stop. stop ≡ Memory };

    fn from(_fault: AllocError) -> Stop {
        Stop::Memory
    }
}

impl<T: Drop> From<AllocFailed<T>> for Stop {
    ghost from_gives = { λ _ stop. stop ≡ Memory };

    fn from(_fault: AllocFailed<T>) -> Stop {
        Stop::Memory
    }
}
