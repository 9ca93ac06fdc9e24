//! A journal: records that are added at the end of a file, each acknowledged once no crash can take it away.
//!
//! A crash at any moment of any call leaves the records from before the call, with the new one or without.
//! No checksum is trusted: the gate before a record is opened by a write of its own, once the record lies
//! synced behind it.
#![tactic(auto)]

mod fault;
mod file;
mod framing;
mod journal;
mod opening;
mod reading;
#[cfg(test)]
mod tests;

pub use fault::JournalFault;
pub use journal::Journal;
