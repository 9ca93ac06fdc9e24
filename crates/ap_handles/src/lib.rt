//! The hall: what threads share of the published products. Each call on it answers what a hall of one thread answers at that place of one history, and a handle shows a product as it was when it was acquired.
#![tactic(auto)]

mod call;
mod calls;
mod entry;
mod hall;
mod handle;
mod products;
mod state;

pub use call::Call;
pub use entry::{HallEntry, Status};
pub use hall::{Hall, Seat, Shared};
pub use handle::Handle;
pub use state::HallState;

#[cfg(test)]
mod tests;
