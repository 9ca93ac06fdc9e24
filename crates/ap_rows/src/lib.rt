//! The rows of the Asset Processor's tables, and how changes of them are spelled in bytes.
//!
//! A change is a list of items, and has one spelling. It is read exactly: bytes that spell no change are
//! refused with the offset at which the first item outside the grammar begins.
#![tactic(auto)]

mod change;
mod decoding;
mod encoding;
mod fields;
#[cfg(test)]
mod form_tests;
mod forms;
mod input;
mod job;
mod kid_reader;
mod measure;
mod node;
mod product;
mod read;
mod row;
mod skip;
#[cfg(test)]
mod tests;
mod thing_form;
mod thing_node;
mod write;

pub use change::{Change, Item};
pub use decoding::{RowFault, decode, first_item};
pub use encoding::encode;
pub use fields::{FieldReader, put_number, put_run};
pub use input::{CreateParts, HandedThings, JobParts, MatchingBuilder, ReachedFile, SeenThing};
pub use job::{Created, DepKind, DependencyRow, JobDesc};
pub use measure::spelled_length;
pub use node::{products_node, read_products};
pub use product::{LegacyRow, ProductRow, RefRow};
pub use read::is_folded;
pub use row::{
    CreateRow, FolderRow, JobResult, JobRow, OutcomeRow, SeenRow, SourceRow, Tables, copy_folders,
};
pub use thing_form::has_form;
pub use thing_node::{create_node, input_node};
