//! What a seat knows, and the rule of the two words, the slot and the views of all seats.
use crate::held::{Given, Held};
use atomic_table::{Seat, Table, TableRule};
use std::alloc::Global;
use std::collections::LinkedList;

/// How far a seat is. It stands in contracts alone: no value of it is made.
pub enum Stage {
    /// It was split off, and has not loaded a word yet.
    New,
    Idle,
    /// It has drawn this ticket number.
    Waiting(u64),
    /// This ticket number of it is served, and it has taken the value.
    Holding(u64),
    /// It was told what another seat has seen, and has not loaded a word since.
    Joining,
    /// It was joined to another seat.
    Spent,
}

/// What a seat knows. It stands in contracts alone: no value of it is made.
pub struct View<E> {
    /// The seat's number. While the seat is new, that of the seat that it was split off.
    pub number: u64,
    pub stage: Stage,
    /// The history as far as the seat has seen it.
    pub seen: LinkedList<Given<E>>,
    /// What it was told at a join.
    pub told: LinkedList<Given<E>>,
}

/// The rule of the words `serving` and `ticket`, the slot and the views.
pub struct TicketRule;

impl<V: Held> TableRule<Option<V>, View<V::Entry>, ()> for TicketRule {
    ghost use Rattle.ap_turn.specs.Tickets.{Tickets};
    ghost use Rattle.ap_turn.specs.Views.{opening_view};

    ghost holds = { λ _. Tickets V.stands };

    ghost first = { λ _. opening_view };
}

/// A seat of the table below. It has no bytes.
pub type TableSeat<V, E> = Seat<Option<V>, View<E>>;

/// Word 0 is `serving` and word 1 is `ticket`. The one slot has the value.
pub type TicketTable<V, E> = Table<Option<V>, View<E>, (), TicketRule, Global>;
