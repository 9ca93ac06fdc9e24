//! The records of a file, read one after another.
ghost use Rattle.std.specs.Prelude.{◌≡◌, ◌<◌, ℕ, length, Some, None, OnOk, IfOk, IfErr, IsErrOf};
ghost use Rattle.ap_db.specs.Stored.{Stored, nothing_stored, first_step};
ghost use Rattle.ap_db.specs.States.{StandsFor, AreHeld};
ghost use Rattle.ap_db.specs.Replaying.{IsReplay, Replays};
ghost use Rattle.ap_db.specs.Payloads.{Reads, IsReading, TakesItem, RefusesItem, TakesPayload, RefusesPayload};
ghost use Rattle.ap_db.specs.declared.replay.ItemFault.TheVariants.{Unlawful};
ghost use Rattle.ap_db.specs.declared.reading.PayloadFault.TheVariants.{Bad};

use crate::replay::{ItemFault, Replay};
use crate::state::State;
use ap_content::Contents;
use ap_rows::first_item;
use ap_text::OutOfMemory;
use std::alloc::Global;

/// Why a payload isn't taken.
#[derive(Clone, Copy, Debug, PartialEq, Eq)]
pub enum PayloadFault {
    /// The item at this offset is outside the grammar or not lawful.
    Bad { offset: u64 },
    OutOfMemory,
}

/// What the records so far came to, with the contents that keep their things.
#[derive(Drop)]
pub struct Reading {
    pub(crate) replay: Replay,
    pub(crate) contents: Contents,
}

/// Takes the item that begins the bytes, and gives the bytes behind it.
fn take_item<'a>(
    alloc: Global,
    replay: &mut Replay,
    contents: &mut Contents,
    bytes: &'a [u8],
) -> Result<&'a [u8], ItemFault>
    requires { IsReplay replay.old contents.old }
    ensures taken { IfOk result (λ after. (stored : Stored) → Replays replay.old contents.old stored
        → (next : Stored) × (first_step stored bytes.now ≡ Some (next, after.now)) × Replays replay.new contents.new next) }
    ensures refused { IsErrOf result Unlawful → (stored : Stored) → Replays replay.old contents.old stored → first_step stored bytes.now ≡ None }
    ensures shorter { IfOk result (λ after. length after.now < length bytes.now) }
{
    let (item, after) = match first_item(alloc, bytes) {
        Ok(Some(read)) => read,
        Ok(None) => return Err(ItemFault::Unlawful),
        Err(_) => return Err(ItemFault::OutOfMemory),
    };
    match replay.apply(alloc, contents, item) {
        Ok(()) => Ok(after),
        Err(stop) => Err(stop),
    }
}

/// The fault of a payload whose item at this offset isn't taken.
fn fault_at(stop: ItemFault, offset: u64) -> PayloadFault
    ensures { (n : ℕ) → result ≡ Bad n → (stop ≡ Unlawful) × (n ≡ offset) }
{
    match stop {
        ItemFault::Unlawful => PayloadFault::Bad { offset },
        ItemFault::OutOfMemory => PayloadFault::OutOfMemory,
    }
}

impl Reading {
    /// Nothing is read yet.
    pub(crate) fn new(alloc: Global) -> Result<Reading, OutOfMemory>
        ensures { IfOk result (λ reading. Reads reading nothing_stored) }
    {
        Ok(Reading {
            replay: Replay::new(alloc)?,
            contents: Contents::new(alloc),
        })
    }

    /// The state that was read, with its things in the contents.
    pub(crate) fn into_state(self, contents: &mut Contents) -> State
        ensures stands { (stored : Stored) → Reads self stored → StandsFor result contents.new stored × AreHeld result.things.items contents.new }
        ensures state { result ≡ self.replay.state }
    {
        let Reading {
            replay,
            contents: kept,
        } = self;
        *contents = kept;
        replay.state
    }

    /// Takes the item that begins the bytes, and gives the bytes behind it.
    fn take_item<'a>(&mut self, alloc: Global, bytes: &'a [u8]) -> Result<&'a [u8], ItemFault>
        requires { IsReading self.old }
        ensures taken { IfOk result (λ after. TakesItem self.old self.new bytes.now after.now) }
        ensures refused { IsErrOf result Unlawful → RefusesItem self.old bytes.now }
        ensures shorter { IfOk result (λ after. length after.now < length bytes.now) }
    {
        take_item(alloc, &mut self.replay, &mut self.contents, bytes)
    }

    /// Takes the items of a payload, one after another.
    #[tactic(none)]
    pub(crate) fn take_payload(&mut self, alloc: Global, payload: &[u8]) -> Result<(), PayloadFault>
        requires { IsReading self.old }
        ensures taken { OnOk result (TakesPayload self.old self.new payload.now) }
        ensures refused { IfErr result (λ stop. (offset : ℕ) → stop ≡ Bad offset → RefusesPayload self.old payload.now offset) }
    {
        let mut rest = payload;
        while !rest.is_empty() {
            match self.take_item(alloc, rest) {
                Ok(after) => rest = after,
                Err(stop) => return Err(fault_at(stop, (payload.len() - rest.len()) as u64)),
            }
        }
        Ok(())
    }
}
