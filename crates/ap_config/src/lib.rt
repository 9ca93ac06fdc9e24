//! The configuration of a project: the platforms, the scan folders and the builders that its text names.
#![tactic(auto)]

mod config;
mod fault;
mod judge;
mod offer;
mod shape;
#[cfg(test)]
mod tests;
mod text;
mod values;

pub use config::{Config, Folder};
pub use fault::ConfigFault;
pub use offer::Offer;
pub use text::Text;
