//! Five builders that show every kind of dependency, and the lines by which a source directs them.
//!
//! A builder is functions: what a source of its bytes depends on, which jobs it has, and what a job makes, which
//! is there for `copy` alone so far. They answer definitions of their own for every input, and take no part in
//! when they are asked.
#![tactic(auto)]

mod copy;
mod creating;
mod declaring;
mod directed;
mod directive;
mod lines;
mod numbers;
mod reading;
#[cfg(test)]
mod tests;
mod words;

pub use copy::{copy_create, copy_declare, copy_process};
pub use directed::{
    flat_create, flat_declare, index_create, index_declare, join_create, join_declare,
    parts_create, parts_declare,
};
pub use directive::{Directive, read_line};
pub use reading::read_directives;
pub use words::Word;
