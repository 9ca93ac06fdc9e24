//! Values that stand for a history.

/// An entry of a history, with the number of the seat that gave it. Histories stand in contracts alone: no value of it is made.
pub struct Given<E> {
    pub by: u64,
    pub entry: E,
}

/// A value that stands for a history.
pub trait Held {
    ghost use Rattle.std.specs.Prelude.{List};
    ghost use Rattle.ap_turn.specs.declared.held.Given.{Given};

    /// What a seat adds to the history when it gives the value back: plain data.
    type Entry;

    // Whether the value stands for the history.
    ghost stands: { Self → List (Given Self.Entry) → Type 0 };
}

/// What a caller says of a value that it gives back.
pub trait Says<V: Held> {
    // The entry that it names for the value.
    ghost entry: { Self → V → V.Entry };
}
