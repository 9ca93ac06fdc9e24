//! Texts and names of the Asset Processor: bytes, paths, names, patterns, and how a file is seen.
//!
//! Nothing here reads a file. A path, a name, a platform and a file name are read from bytes once, by
//! their grammar, and keep it from then on.
#![tactic(auto)]

mod bytes;
mod job_id;
mod list;
mod memory;
mod name;
mod path;
mod pattern;
mod seen;
#[cfg(test)]
mod tests;
mod utf8;

pub use bytes::Bytes;
pub use job_id::{AssetId, JobId};
pub use list::List;
pub use memory::OutOfMemory;
pub use name::{FileName, Name, NameFault, Platform};
pub use path::{PathFault, RelPath};
pub use pattern::{some_matches, wild};
pub use seen::{Seen, Which};
