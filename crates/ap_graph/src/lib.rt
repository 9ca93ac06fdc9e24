//! The graph of jobs: which jobs are on a cycle, which may be issued, and which is next.
//!
//! A graph is made of jobs with their dependencies on one another, and is then told which jobs are issued and
//! settled. Nothing here runs a job.
#![tactic(auto)]

mod arrows;
mod cycles;
mod graph;
mod ids;
mod job;
mod kind;
mod links;
mod node;
mod order;
mod release;
mod reverse;
mod search;
#[cfg(test)]
mod tests;
mod tournament;

pub use graph::Graph;
pub use node::{JobNode, State};
