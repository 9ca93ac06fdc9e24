//! The database of the Asset Processor: the tables of a project, kept in a journal of which each record is one
//! lawful change.
#![tactic(auto)]

mod db;
mod defines;
mod drops;
mod fault;
mod holds;
mod lawful;
mod loose;
mod numbering;
mod old;
mod opening;
mod plan;
mod putting;
mod reading;
mod recording;
mod replay;
mod resolving;
mod rows;
mod state;
#[cfg(test)]
mod tests;
mod things;
mod undoing;

pub use db::Db;
pub use fault::DbFault;
