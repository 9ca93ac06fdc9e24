//! The entries of a hall's history.
use crate::entry::{HallEntry, Status};
use ap_text::{AssetId, Platform};
use std::collections::LinkedList;

/// A call on a hall with its reply. Histories stand in contracts alone: no value of it is made.
pub enum Call {
    /// The entries that are published, and the serial.
    Publish(LinkedList<HallEntry>, u64),
    /// The platform and the id that are looked up, and the entry that has them.
    Acquire(Platform, AssetId, Option<HallEntry>),
    /// The place of an Acquire in the history.
    Release(u64),
    /// How many scans were asked for.
    Ask(u64),
    Status(Status),
    /// A call that met want of memory in its turn.
    Skip,
}
