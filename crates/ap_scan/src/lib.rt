//! Which of the files of a project's scan folders stand for their paths.
//!
//! A file's path is its name in its folder in lower case. Of the files of one path the one of the folder of
//! the least order wins, and within one folder the one of the byte-least name; the others are hidden.
#![tactic(auto)]

mod candidate;
mod fault;
mod listing;
mod order;
mod reading;
mod results;
mod scanning;
#[cfg(test)]
mod tests;

pub use fault::ScanFault;
pub use results::{Hidden, Odd, Scan, Winner};
pub use scanning::scan;
