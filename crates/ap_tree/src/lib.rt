//! Where the Asset Processor reaches outside: a project's source files, the folder of products, and where a
//! report is written to.
//!
//! Each is a trait that tells its content where it can, beside a count of its faults. The forms in memory
//! tell all of it; those over a real folder or stream tell none.
#![tactic(auto)]

mod cache;
mod calls;
mod dir_cache;
mod dir_tree;
mod edits;
mod folder;
mod listing;
mod lookup;
mod memory_cache;
mod memory_sink;
mod memory_tree;
mod sink;
mod std_sink;
mod sure_cache;
mod sure_sink;
mod sure_tree;
#[cfg(test)]
mod tests;
mod tree;

pub use cache::{CacheDir, CacheFault};
pub use dir_cache::DirCache;
pub use dir_tree::DirTree;
pub use lookup::are_distinct;
pub use memory_cache::MemoryCache;
pub use memory_sink::MemorySink;
pub use memory_tree::MemoryTree;
pub use sink::{Sink, SinkFault};
pub use std_sink::StdSink;
pub use sure_cache::SureMemoryCache;
pub use sure_sink::SureMemorySink;
pub use sure_tree::SureMemoryTree;
pub use tree::{Tree, TreeFault};
