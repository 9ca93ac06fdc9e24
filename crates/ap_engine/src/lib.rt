//! What the jobs of a project come to, and the tables that it settles to.
#![tactic(auto)]

mod copying;
mod creations;
mod engine;
mod fault;
mod folders;
mod front;
mod interning;
mod jobs;
mod jobs_of;
mod ledger;
mod processing;
mod source;
mod source_rows;
#[cfg(test)]
mod tests;

pub use engine::Engine;
pub use fault::EngineFault;
