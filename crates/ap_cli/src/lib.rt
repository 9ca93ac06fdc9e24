//! The top call of the Asset Processor: one command line over a source tree, a cache of products, a store, a
//! set of builders with their bench, and an output.
#![tactic(auto)]

mod batch;
mod cache_files;
mod conflicts;
mod copy_builder;
mod declaring;
mod delivery;
mod ending;
mod in_memory;
mod lay;
mod layout;
mod names;
mod other_files;
mod output;
mod project;
mod report;
mod settling;
mod stop;
#[cfg(test)]
mod tests;
mod top;
mod unconfigured;
mod words;

pub use copy_builder::{CopyBuilder, CopyPass};
pub use in_memory::run_in_memory;
pub use top::run;
