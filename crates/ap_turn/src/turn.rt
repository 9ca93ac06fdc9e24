//! The turn, and its seats.
ghost use Rattle.std.specs.Prelude.{◌≡◌, ◌≢◌, ℕ, ◌+◌, ◌<◌, true, false, List, [], ◌∷◌, ◌++◌, length, None, Some, IfOk, IsOkAnd, MatchResult, MatchOption};
ghost use mathlib.Core.List.{IsPrefix};
ghost use Rattle.ap_turn.specs.declared.rule.Stage.TheVariants.{Idle, Waiting, Holding};
ghost use Rattle.ap_turn.specs.Views.{given, entries_of, longer};
ghost use Rattle.ap_turn.specs.Learned.{Served, Passed};
ghost use Rattle.ap_turn.specs.Seats.{IsSameSeat, Takes};

use crate::held::{Held, Says};
use crate::rule::{TableSeat, TicketTable};
use crate::steps::{Call, Draw, Look, Named, Number, PassOn, Settle, Views};
use atomic_table::{Refused, Table};
use std::alloc::{AllocError, Global};
use std::marker::{Brand, Model};
use std::sync::Wait;

/// A seat at a turn, for one thread at a time. It has no bytes.
#[derive(Drop)]
pub struct Seat<V: Held> {
    pub(crate) seat: TableSeat<V, V::Entry>,
}

impl<V: Held> Model for Seat<V> {
    ghost use Rattle.ap_turn.specs.Seats.{Seated, seated, IsSettled};

    ghost Value = { Seated V.Entry };

    ghost view = { λ s. seated s.seat };

    ghost invariant = { λ s. IsSettled s.seat.me.0.stage s.seat.me.0 s.seat.me.1 };
}

/// A value that one seat at a time takes, in the order of the ticket numbers that the seats draw.
#[derive(Drop)]
pub struct Turn<V: Held> {
    table: TicketTable<V, V::Entry>,
}

impl<V: Held> Model for Turn<V> {
    ghost use Rattle.std.specs.Prelude.{◌≡◌};
    ghost use Rattle.atomic_table.specs.Seated.{TableId, table_id_coded};

    ghost Value = { TableId };

    ghost coded = { table_id_coded };

    ghost view = { λ t. t.table.shared.table_id };

    ghost invariant = { λ t. (t.table.shared.table_id.words ≡ 2) × (t.table.shared.table_id.slots ≡ 1) };
}

impl<V: Held> Turn<V> {
    /// A turn with an empty history, and its first seat. It is refused only for want of memory.
    pub fn new(alloc: Global, value: V) -> Result<(Turn<V>, Seat<V>), AllocError>
    where
        V: Drop,
        requires { V.stands value [] }
        ensures { IfOk result (λ r. r.1 ≡ record { turn = r.0; number = 0; seen = []; has_turn = false }) }
    {
        let mut slots = Vec::new(alloc);
        slots.push(Some(value))?;
        match Table::new(alloc, &[0, 0], slots, &()) {
            Ok((table, seat)) => Ok((Turn { table }, Seat { seat })),
            Err(Refused { slots: _ }) => Err(AllocError),
        }
    }

    /// A second seat, which has seen as much and has no entry. It takes no memory and waits for nobody, and is never refused.
    pub fn split(&self, seat: &mut Seat<V>) -> Result<Seat<V>, AllocError>
        requires seat { seat.old.turn ≡ self.now }
        requires idle { seat.old.has_turn ≡ false }
        ensures kept { seat.new ≡ seat.old }
        ensures split { IsOkAnd result (λ s. (s.turn ≡ self.now) × (s.has_turn ≡ false) × (s.seen ≡ seat.old.seen) × (s.number ≢ seat.old.number) × (entries_of s.number s.seen ≡ [])) }
    {
        let shared = &self.table.shared;
        let mut second = shared.split_seat::<Views>(&mut seat.seat);
        shared.load::<Number>(&mut second, 0);
        Ok(Seat { seat: second })
    }

    /// Takes in what another seat has seen, which is no seat from then on. It waits for nobody.
    pub fn join(&self, seat: &mut Seat<V>, other: Seat<V>)
        requires seat { (seat.old.turn ≡ self.now) × (other.turn ≡ self.now) }
        requires idle { (seat.old.has_turn ≡ false) × (other.has_turn ≡ false) }
        ensures kept { (seat.new.turn ≡ self.now) × (seat.new.has_turn ≡ false) × (seat.new.number ≡ seat.old.number) }
        ensures longer { seat.new.seen ≡ longer seat.old.seen other.seen }
        ensures begins { IsPrefix seat.old.seen seat.new.seen × IsPrefix other.seen seat.new.seen }
        ensures own { entries_of seat.old.number seat.new.seen ≡ entries_of seat.old.number seat.old.seen }
    {
        let Seat { seat: other } = other;
        let shared = &self.table.shared;
        shared.join_seat::<Views>(&mut seat.seat, other);
        shared.load::<Settle>(&mut seat.seat, 0);
    }

    /// Draws a ticket number, waits until it is served, and takes the value. Once `ticket` has its last value no number is drawn, and the call waits on.
    pub fn take<R: Wait>(&self, rt: &R, seat: &mut Seat<V>) -> V
        requires seat { seat.old.turn ≡ self.now }
        requires idle { seat.old.has_turn ≡ false }
        ensures { Takes V.stands seat.old seat.new result }
    {
        let number = self.wait_to_draw(rt, &mut seat.seat);
        self.wait_for_call(rt, &mut seat.seat, number)
    }

    /// Gives the value back with one entry more, and passes the turn on. It waits for nobody.
    pub fn give<E: Says<V>>(&self, seat: &mut Seat<V>, value: V, says: &E)
        requires seat { seat.old.turn ≡ self.now }
        requires turn { seat.old.has_turn ≡ true }
        requires stands { V.stands value (seat.old.seen ++ given seat.old.number (E.entry says.now value) ∷ []) }
        ensures { seat.new ≡ record { turn = seat.old.turn; number = seat.old.number; seen = seat.old.seen ++ given seat.old.number (E.entry says.now value) ∷ []; has_turn = false } }
    {
        self.put_and_pass::<E, Brand>(&mut seat.seat, value, says);
    }

    // Draws the next ticket number, or answers `None` where another seat was faster or `ticket` has its last value.
    fn draw(&self, seat: &mut TableSeat<V, V::Entry>) -> Option<u64>
        requires seat { seat.old.table_id ≡ self.now }
        requires idle { (seat.old.me.0.stage ≡ Idle) × (seat.old.me.1 ≡ []) }
        ensures seat { IsSameSeat seat.old seat.new }
        ensures drawn { MatchOption result (seat.new.me ≡ seat.old.me) (λ n. seat.new.me ≡ (record seat.old.me.0 { stage = Waiting n }, [])) }
    {
        let shared = &self.table.shared;
        let number = shared.load::<Look>(seat, 1);
        if number == u64::MAX {
            return None;
        }
        if shared.compare_exchange::<Draw>(seat, 1, number, number + 1) == number {
            Some(number)
        } else {
            None
        }
    }

    fn wait_to_draw<R: Wait>(&self, rt: &R, seat: &mut TableSeat<V, V::Entry>) -> u64
        requires seat { seat.old.table_id ≡ self.now }
        requires idle { (seat.old.me.0.stage ≡ Idle) × (seat.old.me.1 ≡ []) }
        ensures seat { IsSameSeat seat.old seat.new }
        ensures drawn { seat.new.me ≡ (record seat.old.me.0 { stage = Waiting result }, []) }
    {
        for _ in rt.forever() {
            if let Some(number) = self.draw(seat) {
                return number;
            }
        }
        unreachable!()
    }

    // Takes the value where the seat's ticket number is served, or answers which number is.
    fn call(&self, seat: &mut TableSeat<V, V::Entry>, number: u64) -> Result<V, u64>
        requires seat { seat.old.table_id ≡ self.now }
        requires waits { (seat.old.me.0.stage ≡ Waiting number) × (seat.old.me.1 ≡ []) }
        ensures seat { IsSameSeat seat.old seat.new }
        ensures called { MatchResult result (λ v. Served V.stands None seat.old.me number v seat.new.me) (λ _. seat.new.me ≡ seat.old.me) }
    {
        let shared = &self.table.shared;
        let serving = shared.load::<Call>(seat, 0);
        if serving != number {
            return Err(serving);
        }
        let Some(value) = shared.exchange(seat, 0, None) else {
            unreachable!()
        };
        Ok(value)
    }

    fn wait_for_call<R: Wait>(&self, rt: &R, seat: &mut TableSeat<V, V::Entry>, number: u64) -> V
        requires seat { seat.old.table_id ≡ self.now }
        requires waits { (seat.old.me.0.stage ≡ Waiting number) × (seat.old.me.1 ≡ []) }
        ensures seat { IsSameSeat seat.old seat.new }
        ensures called { Served V.stands None seat.old.me number result seat.new.me }
    {
        for _ in rt.forever() {
            match self.call(seat, number) {
                Ok(value) => return value,
                Err(serving) => self.table.shared.park(rt, 0, (serving % (1 << 32)) as u32),
            }
        }
        unreachable!()
    }

    // Puts the value back and passes the turn on. The entry is for the proof alone.
    fn put_and_pass<E: Says<V>, N: Named<V::Entry>>(
        &self,
        seat: &mut TableSeat<V, V::Entry>,
        value: V,
        says: &E,
    )
        requires seat { seat.old.table_id ≡ self.now }
        requires turn { ((n : ℕ) × (seat.old.me.0.stage ≡ Holding n)) × (seat.old.me.1 ≡ (0, None) ∷ []) }
        requires entry { N.entry ≡ Some (E.entry says.now value) }
        requires stands { V.stands value (seat.old.me.0.seen ++ given seat.old.me.0.number (E.entry says.now value) ∷ []) }
        ensures seat { IsSameSeat seat.old seat.new }
        ensures passed { Passed (E.entry says.now value) seat.old.me seat.new.me }
    {
        let shared = &self.table.shared;
        let left = shared.exchange(seat, 0, Some(value));
        let None = left else { unreachable!() };
        shared.fetch_add::<PassOn<N>>(seat, 0, 1);
        shared.wake_all(0);
    }
}
