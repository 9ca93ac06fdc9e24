//! Builders: what they are offered for, what they are asked and answer, and the bench that gives the
//! permits to ask them.
//!
//! A builder is asked for work only with a permit, which only a bench makes, and which one call spends. So
//! the bench's list has each piece of work that any builder was asked for.
#![tactic(auto)]

mod bench;
mod builders;
mod entry;
mod offer;
mod product;
#[cfg(test)]
mod tests;
mod work;

pub use ap_rows::{DepKind, DependencyRow, JobDesc, LegacyRow, RefRow};
pub use bench::{Bench, Permit};
pub use builders::Builders;
pub use entry::Entry;
pub use offer::{Offer, Target};
pub use product::Product;
pub use work::{CreateAnswer, CreateInput, Handed, JobInput, Outcome};
