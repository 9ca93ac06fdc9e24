//! Calls of the system on real files and folders: what stands at a path, and which call failed, for a person.
#![tactic(auto)]

mod failure;
mod filling;
mod stands;
#[cfg(test)]
mod tests;

pub use failure::{Culprit, Failure};
pub use filling::fill;
pub use stands::{Stands, is_absent, look};
