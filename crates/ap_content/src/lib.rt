//! Things of the Asset Processor: finite trees of a tag, a text and further things, each kept once
//! under a number, so that two of them are compared by their numbers.
//!
//! Things are compared whole, tag by tag, text by text and kid by kid. A thing's SHA-1 digest only finds
//! the things that it may be equal to, and is printed as its fingerprint.
#![tactic(auto)]

mod arena;
mod contents;
mod index;
mod node;
mod slots;
#[cfg(test)]
mod tests;

pub use contents::Contents;
pub use node::{Node, Number};
