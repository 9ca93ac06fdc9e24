//! What stands behind the turn: the state of the hall.
ghost use Rattle.std.specs.Prelude.{◌≡◌, ◌+◌, ◌<◌, ◌≤◌, [], IfOk, MatchResult, IfSome};
ghost use Rattle.ap_handles.specs.declared.call.Call.TheVariants as call;
ghost use Rattle.ap_handles.specs.Machine.{opening, raised, product_of, status_of};
ghost use Rattle.ap_handles.specs.Calls.{entry_of, counted_after};

use crate::call::Call;
use crate::entry::Status;
use crate::handle::Handle;
use crate::products::Products;
use ap_text::{AssetId, OutOfMemory, Platform};
use ap_turn::Held;
use std::marker::Model;
use std::sync::Arc;

/// The state of a hall. Only a hall has one.
#[derive(Drop)]
pub struct HallState {
    serial: u64,
    products: Products,
    handles: u64,
    asked: u64,
    calls: u64,
}

impl Model for HallState {
    ghost use Rattle.ap_handles.specs.Calls.{Counted};

    ghost Value = { Counted };

    ghost view = { λ s. record { machine = record { serial = s.serial; entries = s.products; handles = s.handles; asked = s.asked }; calls = s.calls } };
}

impl Held for HallState {
    type Entry = Call;

    ghost use Rattle.ap_handles.specs.Calls.{StandsFor};

    ghost stands = { StandsFor };
}

impl HallState {
    pub(crate) fn new(products: Products) -> HallState
        requires { products ≡ [] }
        ensures { result ≡ record { machine = opening; calls = 0 } }
    {
        HallState {
            serial: 0,
            products,
            handles: 0,
            asked: 0,
            calls: 0,
        }
    }

    /// Replaces the products, and answers the serial and the products of before.
    pub(crate) fn publish(&mut self, products: Products) -> (u64, Products)
        requires { self.old.calls + 1 < 18446744073709551616 }
        ensures serial { result.0 ≡ raised self.old.machine.serial }
        ensures after { self.new ≡ counted_after self.old (call.Publish products result.0) }
    {
        self.calls += 1;
        self.serial = self.serial.saturating_add(1);
        (self.serial, std::mem::replace(&mut self.products, products))
    }

    /// A handle on the product of a platform and an id, if there is one.
    pub(crate) fn acquire(
        &mut self,
        platform: &Platform,
        id: AssetId,
    ) -> Result<Option<Handle>, OutOfMemory>
        requires calls { self.old.calls + 1 < 18446744073709551616 }
        requires handles { self.old.machine.handles ≤ self.old.calls }
        ensures after { MatchResult result (λ r. self.new ≡ counted_after self.old (call.Acquire platform.now id (entry_of r))) (λ _. self.new ≡ counted_after self.old call.Skip) }
        ensures reply { IfOk result (λ r. entry_of r ≡ product_of self.old.machine platform.now id) }
        ensures place { IfOk result (λ r. IfSome r (λ h. h.place ≡ self.old.calls)) }
    {
        let place = self.calls;
        self.calls += 1;
        let Some(product) = self.products.find(platform, id) else {
            return Ok(None);
        };
        let product = Arc::try_clone(product)?;
        self.handles += 1;
        Ok(Some(Handle { product, place }))
    }

    pub(crate) fn release(&mut self, place: u64)
        requires { self.old.calls + 1 < 18446744073709551616 }
        ensures { self.new ≡ counted_after self.old (call.Release place) }
    {
        self.calls += 1;
        self.handles = self.handles.saturating_sub(1);
    }

    /// Asks for a scan, and answers how many were asked for.
    pub(crate) fn ask(&mut self) -> u64
        requires { self.old.calls + 1 < 18446744073709551616 }
        ensures asked { result ≡ raised self.old.machine.asked }
        ensures after { self.new ≡ counted_after self.old (call.Ask result) }
    {
        self.calls += 1;
        self.asked = self.asked.saturating_add(1);
        self.asked
    }

    pub(crate) fn status(&mut self) -> Status
        requires { self.old.calls + 1 < 18446744073709551616 }
        ensures status { result ≡ status_of self.old.machine }
        ensures after { self.new ≡ counted_after self.old (call.Status result) }
    {
        self.calls += 1;
        Status {
            serial: self.serial,
            products: self.products.len() as u64,
            handles: self.handles,
            asked: self.asked,
        }
    }
}
