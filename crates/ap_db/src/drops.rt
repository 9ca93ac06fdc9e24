//! Things that go from the file, and come back where a commit fails.
ghost use Rattle.std.specs.Prelude.{◌≡◌, ◌<◌, ◌≤◌, ◌+◌, List, [], ◌∷◌, ◌++◌, None, length, map, reverse, IfOk, OnOk, OnErr};
ghost use Rattle.std.specs.List.Sorted.{IsPermutation, IsSorted};
ghost use Rattle.std.specs.Ordering.{nat_cmp};
ghost use Rattle.ap_content.specs.Entries.{Loses, holds_at};
ghost use Rattle.ap_db.specs.Stored.{Stored};
ghost use Rattle.ap_db.specs.Commit.{drops, after_lawful};
ghost use Rattle.ap_db.specs.WellStored.{IsWellStored};
ghost use Rattle.ap_db.specs.States.{StandsFor, AreHeld, file_number};
ghost use Rattle.ap_db.specs.TakenOut.{HasTakenOut, AreCandidates, IsSwept, number_there, drop_of};

use crate::state::State;
use crate::things::{FileThing, thing_of};
use ap_content::{Contents, Number};
use ap_rows::Item;
use ap_text::OutOfMemory;
use std::alloc::Global;

/// A thing that was taken out of the file: its number, and what it was there.
#[derive(Clone, Copy, Debug, PartialEq, Eq)]
pub struct Dropped {
    pub(crate) m: Number,
    pub(crate) thing: FileThing,
}

/// The numbers of things that nothing may name, and what was taken out so far.
#[derive(Drop)]
struct Sweep {
    awaited: Vec<Number>,
    dropped: Vec<Dropped>,
}

/// The file numbers of things, rising.
fn numbers_of(alloc: Global, dropped: &[Dropped]) -> Result<Vec<u64>, OutOfMemory>
    ensures same { IfOk result (λ numbers. IsPermutation (map number_there dropped.now) numbers.items) }
    ensures sorted { IfOk result (λ numbers. IsSorted nat_cmp numbers.items) }
{
    let mut numbers = Vec::new(alloc);
    let mut rest = dropped;
    while let [first, after @ ..] = rest {
        numbers.push(first.thing.number)?;
        rest = after;
    }
    numbers.sort_unstable();
    Ok(numbers)
}

/// Puts the Drops of these numbers behind others, the last first.
fn push_drops(mut numbers: Vec<u64>, items: &mut Vec<Item>) -> Result<(), OutOfMemory>
    ensures { OnOk result (items.new.items ≡ items.old.items ++ map drop_of (reverse numbers.items)) }
{
    while let Some(n) = numbers.pop() {
        items.push(Item::Drop(Number(n)))?;
    }
    Ok(())
}

impl State {
    /// Releases the database's hold on the thing of this number, which is in the file no more.
    pub(crate) fn release(&self, contents: &mut Contents, m: Number)
        requires held { 0 < holds_at contents.old m }
        requires gone { file_number self.now.things.items m ≡ None }
        ensures stands { (stored : Stored) → StandsFor self.now contents.old stored → AreHeld self.now.things.items contents.old
            → StandsFor self.now contents.new stored }
        ensures held { AreHeld self.now.things.items contents.old → AreHeld self.now.things.items contents.new }
        ensures loses { Loses contents.old contents.new m }
    {
        contents.release(m);
    }

    /// Puts a thing back that was taken out. It takes no memory.
    pub(crate) fn undrop(&mut self, contents: &Contents, dropped: Dropped)
        requires { (stored : Stored) × HasTakenOut self.old contents.now stored (dropped ∷ []) }
        ensures stands { (stored : Stored) → HasTakenOut self.old contents.now stored (dropped ∷ []) → StandsFor self.new contents.now stored }
        ensures kept { (self.new.tables ≡ self.old.tables) × (self.new.defined ≡ self.old.defined) × (length self.new.things.items ≡ length self.old.things.items) }
    {
        let Some(node) = contents.get(dropped.m) else {
            return;
        };
        let kids = node.kids.as_slice();
        let names = self.names + kids.len() as u64;
        self.name_kids(kids, names);
        self.set(dropped.m, Some(dropped.thing));
    }
    /// Puts things back that were taken out one after another, the last first. It takes no memory.
    pub(crate) fn undrop_all(&mut self, contents: &Contents, dropped: &[Dropped])
        requires { (stored : Stored) × HasTakenOut self.old contents.now stored dropped.now }
        ensures stands { (stored : Stored) → HasTakenOut self.old contents.now stored dropped.now → StandsFor self.new contents.now stored }
        ensures kept { (self.new.tables ≡ self.old.tables) × (self.new.defined ≡ self.old.defined) × (length self.new.things.items ≡ length self.old.things.items) }
    {
        let mut rest = dropped;
        while let [before @ .., last] = rest {
            self.undrop(contents, *last);
            rest = before;
        }
    }
    /// Takes the thing of this number out where nothing names it. Its kids' numbers wait then.
    fn sweep_one(
        &mut self,
        contents: &Contents,
        m: Number,
        sweep: &mut Sweep,
    ) -> Result<(), OutOfMemory>
        requires { (stored : Stored) × IsSwept self.old contents.now stored sweep.old.dropped.items (sweep.old.awaited.items ++ m ∷ []) }
        ensures swept { OnOk result ((stored : Stored) → IsSwept self.old contents.now stored sweep.old.dropped.items (sweep.old.awaited.items ++ m ∷ [])
            → IsSwept self.new contents.now stored sweep.new.dropped.items sweep.new.awaited.items) }
        ensures out { OnErr result ((stored : Stored) → IsSwept self.old contents.now stored sweep.old.dropped.items (sweep.old.awaited.items ++ m ∷ [])
            → HasTakenOut self.new contents.now stored sweep.new.dropped.items) }
        ensures fewer { OnOk result (self.new.names + length sweep.new.awaited.items ≤ self.old.names + length sweep.old.awaited.items) }
        ensures kept { (self.new.tables ≡ self.old.tables) × (self.new.defined ≡ self.old.defined) × (length self.new.things.items ≡ length self.old.things.items) }
    {
        let Some(thing) = thing_of(&self.things, m) else {
            return Ok(());
        };
        if thing.named > 0 {
            return Ok(());
        }
        let Some(node) = contents.get(m) else {
            return Ok(());
        };
        sweep.awaited.extend_from_slice(node.kids.as_slice())?;
        sweep.dropped.push(Dropped { m, thing })?;
        self.take_out(contents, m);
        Ok(())
    }

    /// Takes each thing out that nothing names, and each that nothing names then.
    fn sweep(&mut self, contents: &Contents, sweep: &mut Sweep) -> Result<(), OutOfMemory>
        requires { (stored : Stored) × IsSwept self.old contents.now stored sweep.old.dropped.items sweep.old.awaited.items }
        ensures swept { OnOk result ((stored : Stored) → IsSwept self.old contents.now stored sweep.old.dropped.items sweep.old.awaited.items
            → IsSwept self.new contents.now stored sweep.new.dropped.items []) }
        ensures out { OnErr result ((stored : Stored) → IsSwept self.old contents.now stored sweep.old.dropped.items sweep.old.awaited.items
            → HasTakenOut self.new contents.now stored sweep.new.dropped.items) }
        ensures kept { (self.new.tables ≡ self.old.tables) × (self.new.defined ≡ self.old.defined) × (length self.new.things.items ≡ length self.old.things.items) }
    {
        while let Some(m) = sweep.awaited.pop() {
            match self.sweep_one(contents, m, sweep) {
                Ok(()) => {}
                Err(stop) => return Err(stop),
            }
        }
        Ok(())
    }

    /// Takes each thing out, and puts their Drops behind the items.
    fn sweep_to_record(
        &mut self,
        alloc: Global,
        contents: &Contents,
        sweep: &mut Sweep,
        items: &mut Vec<Item>,
    ) -> Result<(), OutOfMemory>
        requires waits { (stored : Stored) × IsSwept self.old contents.now stored sweep.old.dropped.items sweep.old.awaited.items }
        requires none { sweep.old.dropped.items ≡ [] }
        ensures swept { OnOk result ((stored : Stored) → IsSwept self.old contents.now stored [] sweep.old.awaited.items
            → HasTakenOut self.new contents.now stored sweep.new.dropped.items × StandsFor self.new contents.now (after_lawful stored (drops stored)) × (items.new.items ≡ items.old.items ++ drops stored)) }
        ensures out { OnErr result ((stored : Stored) → IsSwept self.old contents.now stored [] sweep.old.awaited.items → HasTakenOut self.new contents.now stored sweep.new.dropped.items) }
        ensures kept { (self.new.tables ≡ self.old.tables) × (self.new.defined ≡ self.old.defined) × (length self.new.things.items ≡ length self.old.things.items) }
    {
        match self.sweep(contents, sweep) {
            Ok(()) => {}
            Err(stop) => return Err(stop),
        }
        match numbers_of(alloc, &sweep.dropped) {
            Ok(numbers) => push_drops(numbers, items),
            Err(stop) => Err(stop),
        }
    }

    /// Takes each thing out that nothing names, and each that nothing names then, given the numbers of the
    /// first among these. Their Drops stand behind the items then, and where there is no memory all are back.
    pub(crate) fn drop_unnamed(
        &mut self,
        alloc: Global,
        contents: &Contents,
        candidates: &[Number],
        items: &mut Vec<Item>,
    ) -> Result<Vec<Dropped>, OutOfMemory>
        requires { (stored : Stored) × IsWellStored stored × StandsFor self.old contents.now stored × AreCandidates contents.now stored candidates.now }
        ensures stands { OnOk result ((stored : Stored) → IsWellStored stored → StandsFor self.old contents.now stored → AreCandidates contents.now stored candidates.now
            → StandsFor self.new contents.now (after_lawful stored (drops stored)) × (items.new.items ≡ items.old.items ++ drops stored)) }
        ensures out { IfOk result (λ dropped. (stored : Stored) → IsWellStored stored → StandsFor self.old contents.now stored → AreCandidates contents.now stored candidates.now
            → HasTakenOut self.new contents.now stored dropped.items) }
        ensures undone { OnErr result ((stored : Stored) → IsWellStored stored → StandsFor self.old contents.now stored → AreCandidates contents.now stored candidates.now
            → StandsFor self.new contents.now stored) }
        ensures kept { (self.new.tables ≡ self.old.tables) × (self.new.defined ≡ self.old.defined) × (length self.new.things.items ≡ length self.old.things.items) }
    {
        // Read, since what comes back needs that there are no more names than a u64 counts.
        let _names = self.names;
        let mut sweep = Sweep {
            awaited: Vec::new(alloc),
            dropped: Vec::new(alloc),
        };
        sweep.awaited.extend_from_slice(candidates)?;
        match self.sweep_to_record(alloc, contents, &mut sweep, items) {
            Ok(()) => Ok(sweep.dropped),
            Err(stop) => {
                self.undrop_all(contents, &sweep.dropped);
                Err(stop)
            }
        }
    }
}
