//! A ticket lock with a history: one seat at a time takes the value and gives it back with one entry more.
#![tactic(auto)]

mod held;
mod rule;
mod steps;
mod turn;

pub use held::{Given, Held, Says};
pub use rule::{Stage, TableSeat, TicketRule, TicketTable, View};
pub use turn::{Seat, Turn};

#[cfg(test)]
mod tests;
