//! What each step on the words tells its seat, and how views are split and joined.
use crate::held::Held;
use crate::rule::View;
use atomic_table::{Join, Play, Split};
use std::marker::{Brand, PhantomData};

/// A load of `ticket`.
pub(crate) struct Look;

impl<V: Held> Play<Option<V>, View<V::Entry>> for Look {
    ghost use Rattle.ap_turn.specs.Learned.{looked};

    ghost then = { looked };
}

/// A compare and exchange on `ticket`.
pub(crate) struct Draw;

impl<V: Held> Play<Option<V>, View<V::Entry>> for Draw {
    ghost use Rattle.ap_turn.specs.Learned.{drew};

    ghost then = { drew };
}

/// A load of `serving` with a ticket number.
pub(crate) struct Call;

impl<V: Held> Play<Option<V>, View<V::Entry>> for Call {
    ghost use Rattle.ap_turn.specs.Learned.{called};

    ghost then = { called V.stands };
}

/// The entry that a seat adds, for the proof alone. A call at `Brand` picks it.
pub(crate) trait Named<E> {
    ghost use Rattle.std.specs.Prelude.{Option};

    ghost entry: { Option E };
}

impl<E> Named<E> for Brand {
    ghost use Rattle.std.specs.Prelude.{None};

    ghost entry = { None };
}

/// The step of `serving` that passes the turn on.
pub(crate) struct PassOn<N> {
    named: PhantomData<N>,
}

impl<V: Held, N: Named<V::Entry>> Play<Option<V>, View<V::Entry>> for PassOn<N> {
    ghost use Rattle.ap_turn.specs.Learned.{passed};

    ghost then = { passed N.entry };
}

/// A load of `serving` by a seat that was split off.
pub(crate) struct Number;

impl<V: Held> Play<Option<V>, View<V::Entry>> for Number {
    ghost use Rattle.ap_turn.specs.Learned.{numbered};

    ghost then = { numbered };
}

/// A load of `serving` by a seat that another was joined to.
pub(crate) struct Settle;

impl<V: Held> Play<Option<V>, View<V::Entry>> for Settle {
    ghost use Rattle.ap_turn.specs.Learned.{settled};

    ghost then = { settled };
}

/// How a seat is split off, and how two are joined.
pub(crate) struct Views;

impl<E> Split<View<E>> for Views {
    ghost use Rattle.ap_turn.specs.Views.{split_view};

    ghost left = { λ v. v };

    ghost right = { split_view };
}

impl<E> Join<View<E>> for Views {
    ghost use Rattle.ap_turn.specs.Views.{joined_view, spent_view};

    ghost both = { joined_view };

    ghost spent = { spent_view };
}
