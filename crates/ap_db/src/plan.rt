//! A commit planned in memory, and taken back where its record isn't written.
ghost use Rattle.std.specs.Prelude.{◌≡◌, ◌++◌, List, map, IfOk, OnErr};
ghost use Rattle.std.specs.List.{flat_map};
ghost use Rattle.ap_rows.specs.declared.change.Item.{Item};
ghost use Rattle.ap_db.specs.declared.state.State.{State};
ghost use Rattle.ap_db.specs.Commit.{PlainItem, numbered, new_live, drops};
ghost use Rattle.ap_db.specs.CommitLaw.{after_defines, after_puts};
ghost use Rattle.ap_db.specs.Defined.{CanBeCommitted};
ghost use Rattle.ap_db.specs.Olds.{numbers_in};
ghost use Rattle.ap_db.specs.Planned.{IsAsked, IsPlanned, HasSwept, HasRowsPut};
ghost use Rattle.ap_db.specs.Putting.{AreAllPut};
ghost use Rattle.ap_db.specs.States.{StandsFor};
ghost use Rattle.ap_db.specs.Stored.{Stored};
ghost use Rattle.ap_db.specs.TakenOut.{AreCandidates};

use crate::drops::Dropped;
use crate::old::{Old, numbers_of_olds};
use crate::state::State;
use ap_content::{Contents, Number};
use ap_rows::{Change, Item};
use ap_text::{List, OutOfMemory};
use std::alloc::Global;

/// What a commit has done to the state: its record, by the file's numbers, and what undoing takes.
#[derive(Drop)]
pub struct Plan {
    pub(crate) written: Change,
    pub(crate) defined: Vec<Number>,
    pub(crate) olds: Vec<Old>,
    pub(crate) dropped: Vec<Dropped>,
}

/// What may be reached no more: what was loose, what is new, and what the gone rows named.
fn candidates(
    alloc: Global,
    loose: &[Number],
    defined: &[Number],
    olds: &[Old],
) -> Result<Vec<Number>, OutOfMemory>
    ensures { IfOk result (λ found. found.items ≡ (loose.now ++ defined.now) ++ flat_map numbers_in olds.now) }
{
    let mut found = Vec::new(alloc);
    found.extend_from_slice(loose)?;
    found.extend_from_slice(defined)?;
    numbers_of_olds(olds, &mut found)?;
    Ok(found)
}

impl State {
    /// Takes out what nothing reaches any more, once the rows are put.
    fn plan_drops(
        &mut self,
        alloc: Global,
        contents: &Contents,
        loose: &[Number],
        defined: &[Number],
        olds: &[Old],
        written: &mut Vec<Item>,
    ) -> Result<Vec<Dropped>, OutOfMemory>
        requires { (old : State) × (stored : Stored) × (plain : List PlainItem) × (items : List Item) × IsAsked old contents.now stored items plain loose.now defined.now × AreAllPut self.old contents.now (after_defines stored plain) plain items olds.now }
        ensures swept { IfOk result (λ dropped. (old : State) (stored : Stored) (plain : List PlainItem) (items : List Item) → IsAsked old contents.now stored items plain loose.now defined.now → AreAllPut self.old contents.now (after_defines stored plain) plain items olds.now
            → HasSwept self.new contents.now stored plain dropped.items × (written.new.items ≡ written.old.items ++ drops (after_puts stored plain))) }
        ensures undone { OnErr result ((old : State) (stored : Stored) (plain : List PlainItem) (items : List Item) → IsAsked old contents.now stored items plain loose.now defined.now → AreAllPut self.old contents.now (after_defines stored plain) plain items olds.now
            → StandsFor self.new contents.now (after_puts stored plain)) }
        ensures kept { self.new.tables ≡ self.old.tables }
    {
        let found = candidates(alloc, loose, defined, olds)?;
        self.drop_unnamed(alloc, contents, &found, written)
    }

    /// Puts the rows of the items, behind whose Defines their own items are written, and takes out what nothing
    /// reaches then. Without memory for it nothing is put.
    fn plan_rows(
        &mut self,
        alloc: Global,
        contents: &Contents,
        items: &[Item],
        loose: &[Number],
        defined: &[Number],
        written: &mut Vec<Item>,
    ) -> Result<(Vec<Old>, Vec<Dropped>), OutOfMemory>
        requires { (old : State) × (stored : Stored) × (plain : List PlainItem) × IsAsked old contents.now stored items.now plain loose.now defined.now × StandsFor self.old contents.now (after_defines stored plain) }
        ensures put { IfOk result (λ gone. (old : State) (stored : Stored) (plain : List PlainItem) → IsAsked old contents.now stored items.now plain loose.now defined.now → StandsFor self.old contents.now (after_defines stored plain)
            → HasRowsPut self.new contents.now stored items.now plain gone.0.items × HasSwept self.new contents.now stored plain gone.1.items
            × (written.new.items ≡ written.old.items ++ map (numbered (stored.live ++ new_live stored plain)) plain ++ drops (after_puts stored plain))) }
        ensures undone { OnErr result ((old : State) (stored : Stored) (plain : List PlainItem) → IsAsked old contents.now stored items.now plain loose.now defined.now → StandsFor self.old contents.now (after_defines stored plain)
            → StandsFor self.new contents.now (after_defines stored plain)) }
    {
        self.write_items(alloc, items, written)?;
        let olds = self.put_items(alloc, items)?;
        match self.plan_drops(alloc, contents, loose, defined, &olds, written) {
            Ok(dropped) => Ok((olds, dropped)),
            Err(_) => {
                self.unput_items(items, olds);
                Err(OutOfMemory)
            }
        }
    }

    /// Makes of the state what it is after the commit of these items, and gives the items of the commit's
    /// record and what undoing it takes. Without memory for it nothing is changed.
    pub(crate) fn plan(
        &mut self,
        alloc: Global,
        contents: &Contents,
        items: &[Item],
        loose: &[Number],
    ) -> Result<Plan, OutOfMemory>
        requires { (stored : Stored) × (plain : List PlainItem) × CanBeCommitted contents.now self.old stored items.now plain × AreCandidates contents.now stored loose.now }
        ensures planned { IfOk result (λ plan. (stored : Stored) (plain : List PlainItem) → CanBeCommitted contents.now self.old stored items.now plain → AreCandidates contents.now stored loose.now
            → IsPlanned self.old self.new contents.now stored items.now plain plan) }
        ensures undone { OnErr result ((stored : Stored) (plain : List PlainItem) → CanBeCommitted contents.now self.old stored items.now plain → AreCandidates contents.now stored loose.now → StandsFor self.new contents.now stored) }
    {
        let mut written = Vec::new(alloc);
        let defined = self.define_named(alloc, contents, items, &mut written)?;
        match self.plan_rows(alloc, contents, items, loose, &defined, &mut written) {
            Ok((olds, dropped)) => Ok(Plan {
                written: Change {
                    items: List::of(written),
                },
                defined,
                olds,
                dropped,
            }),
            Err(_) => {
                self.undefine_all(contents, &defined);
                Err(OutOfMemory)
            }
        }
    }

    /// Takes back what was planned. It takes no memory.
    pub(crate) fn unplan(&mut self, contents: &Contents, items: &[Item], plan: Plan)
        requires { (old : State) × (stored : Stored) × (plain : List PlainItem) × IsPlanned old self.old contents.now stored items.now plain plan }
        ensures { (old : State) (stored : Stored) (plain : List PlainItem) → IsPlanned old self.old contents.now stored items.now plain plan → StandsFor self.new contents.now stored }
    {
        let Plan {
            defined,
            olds,
            dropped,
            ..
        } = plan;
        self.undrop_all(contents, &dropped);
        self.unput_items(items, olds);
        self.undefine_all(contents, &defined);
    }
}
