//! The hall, and its calls.
ghost use Rattle.std.specs.Prelude.{◌≡◌, ◌+◌, false, List, [], ◌∷◌, ◌++◌, length, Contains, IfOk, IfSome, MatchResult};
ghost use Rattle.ap_handles.specs.declared.call.Call.TheVariants as call;
ghost use Rattle.ap_handles.specs.Legal.{IsLegal};
ghost use Rattle.ap_handles.specs.Held.{Shown, held, without};
ghost use Rattle.ap_handles.specs.Publishing.{ArePublishable};
ghost use Rattle.ap_handles.specs.Counting.{acquires, releases};
ghost use Rattle.ap_handles.specs.Calls.{IsReady, Does, Splits, Joins, entry_of, with};

use crate::calls::{SaysAcquire, SaysAsk, SaysPublish, SaysRelease, SaysSkip, SaysStatus};
use crate::entry::{HallEntry, Status};
use crate::handle::Handle;
use crate::products::Products;
use crate::state::HallState;
use ap_text::{AssetId, OutOfMemory, Platform};
use ap_turn::{Held, Turn};
use std::alloc::Global;
use std::marker::Model;
use std::sync::Wait;

/// A seat of a hall, for one thread at a time.
pub type Seat = ap_turn::Seat<HallState>;

/// The published products, and what threads ask of them. A `&Hall` may cross threads.
pub type Hall = Shared<HallState>;

/// A value behind a turn, and where its memory comes from.
#[derive(Drop)]
pub struct Shared<V: Held> {
    alloc: Global,
    turn: Turn<V>,
}

impl<V: Held> Model for Shared<V> {
    ghost use Rattle.atomic_table.specs.Seated.{TableId, table_id_coded};

    ghost Value = { TableId };

    ghost coded = { table_id_coded };

    ghost view = { λ h. h.turn };
}

impl Shared<HallState> {
    /// A hall without products, and its first seat.
    pub fn new(alloc: Global) -> Result<(Hall, Seat), OutOfMemory>
        ensures { IfOk result (λ r. r.1 ≡ record { turn = r.0; number = 0; seen = []; has_turn = false }) }
    {
        let products = Products::of(alloc, Vec::new(alloc))?;
        let (turn, seat) = Turn::new(alloc, HallState::new(products))?;
        Ok((Shared { alloc, turn }, seat))
    }

    /// A second seat, for another thread, which has seen as much. It waits for nobody.
    pub fn split(&self, seat: &mut Seat) -> Result<Seat, OutOfMemory>
        requires { IsReady self.now seat.old }
        ensures kept { seat.new ≡ seat.old }
        ensures split { IfOk result (λ second. Splits seat.old second) }
    {
        Ok(self.turn.split(seat)?)
    }

    /// Takes in what another seat has seen, which has released all its handles and is no seat from then on. It waits for nobody.
    pub fn join(&self, seat: &mut Seat, other: Seat)
        requires seat { IsReady self.now seat.old × IsReady self.now other }
        requires released { held other ≡ [] }
        ensures ready { IsReady self.now seat.new }
        ensures joins { Joins seat.old other seat.new }
        ensures legal { IsLegal seat.old.seen → IsLegal other.seen → IsLegal seat.new.seen }
        ensures held { IsLegal seat.new.seen → held seat.new ≡ held seat.old }
    {
        self.turn.join(seat, other);
    }

    /// Replaces all products, and answers the serial, one more than before. No bytes are copied. Where it is refused nothing has changed.
    pub fn publish<R: Wait>(
        &self,
        rt: &R,
        seat: &mut Seat,
        entries: Vec<HallEntry>,
    ) -> Result<u64, OutOfMemory>
        requires seat { IsReady self.now seat.old }
        requires entries { ArePublishable entries.items }
        ensures ready { IsReady self.now seat.new }
        ensures call { MatchResult result (λ serial. Does seat.old seat.new (call.Publish entries.items serial)) (λ _. seat.new ≡ seat.old) }
        ensures held { held seat.new ≡ held seat.old }
    {
        let products = Products::of(self.alloc, entries)?;
        let mut state = self.turn.take(rt, seat);
        let (serial, _before) = state.publish(products);
        self.turn.give(seat, state, &SaysPublish(serial));
        Ok(serial)
    }

    /// A handle on the product of a platform and an id, or `None` where there is no such product. Where it is refused the history has a Skip.
    pub fn acquire<R: Wait>(
        &self,
        rt: &R,
        seat: &mut Seat,
        platform: &Platform,
        id: AssetId,
    ) -> Result<Option<Handle>, OutOfMemory>
        requires { IsReady self.now seat.old }
        ensures ready { IsReady self.now seat.new }
        ensures call { MatchResult result (λ r. Does seat.old seat.new (call.Acquire platform.now id (entry_of r))) (λ _. Does seat.old seat.new call.Skip) }
        ensures held { MatchResult result (λ r. held seat.new ≡ with (held seat.old) r) (λ _. held seat.new ≡ held seat.old) }
        ensures given { IfOk result (λ r. IfSome r (λ h. Contains (held seat.new) h)) }
    {
        let mut state = self.turn.take(rt, seat);
        match state.acquire(platform, id) {
            Ok(handle) => {
                let says = SaysAcquire {
                    platform,
                    id,
                    handle: &handle,
                };
                self.turn.give(seat, state, &says);
                Ok(handle)
            }
            Err(_) => {
                self.turn.give(seat, state, &SaysSkip);
                Err(OutOfMemory)
            }
        }
    }

    /// Gives a handle back, with the seat that it was acquired with. It takes no memory.
    pub fn release<R: Wait>(&self, rt: &R, seat: &mut Seat, handle: Handle)
        requires seat { IsReady self.now seat.old }
        requires held { Contains (held seat.old) handle }
        ensures ready { IsReady self.now seat.new }
        ensures call { Does seat.old seat.new (call.Release handle.place) }
        ensures held { held seat.new ≡ without handle.place (held seat.old) }
        ensures removes { (before after : List Shown) → held seat.old ≡ before ++ handle ∷ after → held seat.new ≡ before ++ after }
    {
        let Handle {
            product: _product,
            place,
        } = handle;
        let mut state = self.turn.take(rt, seat);
        state.release(place);
        self.turn.give(seat, state, &SaysRelease(place));
    }

    /// Asks for a scan, and answers how many were asked for. It takes no memory.
    pub fn ask<R: Wait>(&self, rt: &R, seat: &mut Seat) -> u64
        requires { IsReady self.now seat.old }
        ensures ready { IsReady self.now seat.new }
        ensures call { Does seat.old seat.new (call.Ask result) }
        ensures held { held seat.new ≡ held seat.old }
    {
        let mut state = self.turn.take(rt, seat);
        let asked = state.ask();
        self.turn.give(seat, state, &SaysAsk(asked));
        asked
    }

    /// What the hall is at this point of the history. It takes no memory.
    pub fn status<R: Wait>(&self, rt: &R, seat: &mut Seat) -> Status
        requires { IsReady self.now seat.old }
        ensures ready { IsReady self.now seat.new }
        ensures call { Does seat.old seat.new (call.Status result) }
        ensures exact { result.handles + releases seat.new.seen ≡ acquires seat.new.seen }
        ensures held { held seat.new ≡ held seat.old }
    {
        let mut state = self.turn.take(rt, seat);
        let status = state.status();
        self.turn.give(seat, state, &SaysStatus(status));
        status
    }
}
