//! Things of a change that become things of the file, and the way back.
ghost use Rattle.std.specs.Prelude.{◌≡◌, ◌≢◌, ℕ, suc, true, List, [], ◌∷◌, ◌++◌, None, IfOk, OnOk, OnErr, fold, map};
ghost use Rattle.std.specs.List.{flat_map};
ghost use Rattle.std.specs.Option.{option_to_list};
ghost use Rattle.ap_content.specs.Things.{Thing};
ghost use Rattle.ap_content.specs.Entries.{Stands};
ghost use Rattle.ap_content.specs.declared.node.Number.{Number};
ghost use Rattle.ap_db.specs.Stored.{Live, Stored, values, and_thing};
ghost use Rattle.ap_db.specs.Commit.{PlainItem, with_new, with_below, new_things, new_live, define_item};
ghost use Rattle.ap_db.specs.Listed.{AreAll};
ghost use Rattle.ap_db.specs.Said.{ItemIs};
ghost use Rattle.ap_db.specs.States.{StandsFor, Names, IsNewThing, file_number, IsFileNumber};
ghost use Rattle.ap_db.specs.Naming.{both_of, item_numbers};
ghost use Rattle.ap_db.specs.WellStored.{IsBuiltOn, IsWellStored};
ghost use Rattle.ap_db.specs.DefineLaws.{AreGrown, AreNumbered};
ghost use Rattle.ap_db.specs.Reserve.{TakesRoom};
ghost use Rattle.ap_db.specs.Defined.{CanBeAdded, AreDefined, SomeDefined, CanBeCommitted};

use crate::state::{State, content_of, numbers_of};
use crate::things::thing_of;
use ap_content::{Contents, Number};
use ap_rows::Item;
use ap_text::{List, OutOfMemory};
use std::alloc::Global;

/// The numbers that an item names, in the order of its fields.
fn named_by(item: &Item) -> (Option<Number>, Option<Number>)
    ensures { both_of result.0 result.1 ≡ item_numbers item.now }
{
    match item {
        Item::PutSource(row) => (content_of(row), None),
        Item::PutCreate(row) => (Some(row.input), None),
        Item::PutJob(row) => numbers_of(row),
        _ => (None, None),
    }
}

/// Puts a number that is there behind the others.
pub(crate) fn push_some(named: &mut Vec<Number>, m: Option<Number>) -> Result<(), OutOfMemory>
    ensures { OnOk result (named.new.items ≡ named.old.items ++ option_to_list m) }
{
    match m {
        Some(m) => Ok(named.push(m)?),
        None => Ok(()),
    }
}

/// The numbers that items name, in their order.
fn named_by_all(alloc: Global, items: &[Item]) -> Result<Vec<Number>, OutOfMemory>
    ensures { IfOk result (λ named. named.items ≡ flat_map item_numbers items.now) }
{
    let mut named = Vec::new(alloc);
    let mut rest = items;
    while let [item, after @ ..] = rest {
        let (first, second) = named_by(item);
        push_some(&mut named, first)?;
        push_some(&mut named, second)?;
        rest = after;
    }
    Ok(named)
}

impl State {
    /// Undoes the `define` of this number, the latest.
    pub(crate) fn undefine(&mut self, contents: &Contents, m: Number)
        requires { (stored : Stored) × (x : Thing) × IsWellStored stored × IsBuiltOn (values stored) x × StandsFor self.old contents.now (and_thing stored x) × Stands contents.now m x }
        ensures stands { (stored : Stored) (x : Thing) → IsWellStored stored → IsBuiltOn (values stored) x → StandsFor self.old contents.now (and_thing stored x) → Stands contents.now m x
            → StandsFor self.new contents.now stored }
        ensures number { file_number self.new.things.items m ≡ None }
        ensures others { (k : Number) → k ≢ m → file_number self.new.things.items k ≡ file_number self.old.things.items k }
        ensures takes { TakesRoom 0 0 0 0 self.old self.new }
    {
        self.take_out(contents, m);
        self.defined = self.defined.saturating_sub(1);
    }

    /// Undoes the `define` of each of these numbers, from the last to the first.
    pub(crate) fn undefine_all(&mut self, contents: &Contents, defined: &[Number])
        requires { (stored : Stored) × (xs : List Thing) × IsWellStored stored × AreGrown stored xs × StandsFor self.old contents.now (fold and_thing stored xs) × AreAll (Stands contents.now) defined.now xs }
        ensures { (stored : Stored) (xs : List Thing) → IsWellStored stored → AreGrown stored xs → StandsFor self.old contents.now (fold and_thing stored xs) → AreAll (Stands contents.now) defined.now xs
            → StandsFor self.new contents.now stored }
    {
        let mut rest = defined;
        while let [before @ .., m] = rest {
            self.undefine(contents, *m);
            rest = before;
        }
    }

    /// The thing of this number becomes the next thing of the file, and the number goes behind the others.
    fn define_next(
        &mut self,
        contents: &Contents,
        m: Number,
        defined: &mut Vec<Number>,
    ) -> Result<(), OutOfMemory>
        requires { (stored : Stored) × (x : Thing) × StandsFor self.old contents.now stored × IsNewThing self.old contents.now stored m x }
        ensures stands { OnOk result ((stored : Stored) (x : Thing) → StandsFor self.old contents.now stored → IsNewThing self.old contents.now stored m x
            → StandsFor self.new contents.now (and_thing stored x)) }
        ensures pushed { OnOk result (defined.new.items ≡ defined.old.items ++ m ∷ []) }
        ensures unchanged { OnErr result ((stored : Stored) → StandsFor self.old contents.now stored → StandsFor self.new contents.now stored) }
        ensures kept { OnErr result (defined.new.items ≡ defined.old.items) }
    {
        self.grow(m)?;
        defined.reserve(1)?;
        self.define(contents, m)?;
        defined.push_reserved(m);
        Ok(())
    }

    /// Defines what the file lacks at and below the thing of this number, kids first. It goes down so far at
    /// most, which is further than any thing does.
    fn define_below(
        &mut self,
        contents: &Contents,
        m: Number,
        depth: u64,
        defined: &mut Vec<Number>,
    ) -> Result<(), OutOfMemory>
        requires { (stored : Stored) × (known : List Thing) × (x : Thing) × CanBeAdded contents.now self.old stored known (with_below x) × Stands contents.now m x }
        ensures defined { OnOk result ((stored : Stored) (known : List Thing) (x : Thing) → CanBeAdded contents.now self.old stored known (with_below x) → Stands contents.now m x
            → AreDefined contents.now stored known (with_below x) (with_new known x) defined.old.items self.new defined.new.items) }
        ensures some { OnErr result ((stored : Stored) (known : List Thing) (x : Thing) → CanBeAdded contents.now self.old stored known (with_below x) → Stands contents.now m x
            → SomeDefined contents.now stored known defined.old.items self.new defined.new.items) }
    {
        if thing_of(&self.things, m).is_some() {
            return Ok(());
        }
        if depth == 0 {
            return Err(OutOfMemory);
        }
        let Some(node) = contents.get(m) else {
            return Err(OutOfMemory);
        };
        let mut rest = node.kids.as_slice();
        while let [kid, after @ ..] = rest {
            self.define_below(contents, *kid, depth - 1, defined)?;
            rest = after;
        }
        self.define_next(contents, m, defined)
    }

    /// Defines what the file lacks at and below the things of these numbers, each kids first.
    fn define_each(
        &mut self,
        contents: &Contents,
        numbers: &[Number],
        defined: &mut Vec<Number>,
    ) -> Result<(), OutOfMemory>
        requires { (stored : Stored) × (known : List Thing) × (xs : List Thing) × CanBeAdded contents.now self.old stored known (flat_map with_below xs) × AreAll (Stands contents.now) numbers.now xs }
        ensures defined { OnOk result ((stored : Stored) (known : List Thing) (xs : List Thing) → CanBeAdded contents.now self.old stored known (flat_map with_below xs) → AreAll (Stands contents.now) numbers.now xs
            → AreDefined contents.now stored known (flat_map with_below xs) (fold with_new known xs) defined.old.items self.new defined.new.items) }
        ensures some { OnErr result ((stored : Stored) (known : List Thing) (xs : List Thing) → CanBeAdded contents.now self.old stored known (flat_map with_below xs) → AreAll (Stands contents.now) numbers.now xs
            → SomeDefined contents.now stored known defined.old.items self.new defined.new.items) }
    {
        let mut rest = numbers;
        while let [m, after @ ..] = rest {
            self.define_below(contents, *m, u64::MAX, defined)?;
            rest = after;
        }
        Ok(())
    }

    /// The file's numbers of things of the file.
    fn file_numbers(&self, alloc: Global, kids: &[Number]) -> Result<Vec<Number>, OutOfMemory>
        ensures { IfOk result (λ found. AreAll (IsFileNumber self.now.things.items) kids.now found.items) }
    {
        let mut found = Vec::new(alloc);
        let mut rest = kids;
        while let [kid, after @ ..] = rest {
            let Some(thing) = thing_of(&self.things, *kid) else {
                return Err(OutOfMemory);
            };
            found.push(Number(thing.number))?;
            rest = after;
        }
        Ok(found)
    }

    /// The `Define` of the thing of this number, which is in the file as its kids are.
    fn define_of(&self, alloc: Global, contents: &Contents, m: Number) -> Result<Item, OutOfMemory>
        ensures { IfOk result (λ item. (numbers : List Live) (stored : Stored) (x : Thing) → StandsFor self.now contents.now stored → AreNumbered numbers stored → Stands contents.now m x → item ≡ define_item numbers x) }
    {
        let Some(node) = contents.get(m) else {
            return Err(OutOfMemory);
        };
        let kids = self.file_numbers(alloc, node.kids.as_slice())?;
        let text = node.text.copy(alloc)?;
        Ok(Item::Define {
            tag: node.tag,
            text,
            kids: List::of(kids),
        })
    }

    /// Puts the `Define` of each of these numbers behind what is written.
    fn write_defines(
        &self,
        alloc: Global,
        contents: &Contents,
        defined: &[Number],
        written: &mut Vec<Item>,
    ) -> Result<(), OutOfMemory>
        ensures { OnOk result ((numbers : List Live) (stored : Stored) (xs : List Thing) → StandsFor self.now contents.now stored → AreNumbered numbers stored → AreAll (Stands contents.now) defined.now xs
            → written.new.items ≡ written.old.items ++ map (define_item numbers) xs) }
    {
        let mut rest = defined;
        while let [m, after @ ..] = rest {
            written.push(self.define_of(alloc, contents, *m)?)?;
            rest = after;
        }
        Ok(())
    }

    /// Defines what the items of a lawful change need and the file lacks, puts the `Define`s behind what is
    /// written, and gives the numbers that are defined. Without memory for it nothing is defined.
    pub(crate) fn define_named(
        &mut self,
        alloc: Global,
        contents: &Contents,
        items: &[Item],
        written: &mut Vec<Item>,
    ) -> Result<Vec<Number>, OutOfMemory>
        requires { (stored : Stored) × (plain : List PlainItem) × CanBeCommitted contents.now self.old stored items.now plain }
        ensures stands { OnOk result ((stored : Stored) (plain : List PlainItem) → CanBeCommitted contents.now self.old stored items.now plain
            → StandsFor self.new contents.now (fold and_thing stored (new_things stored plain))) }
        ensures written { OnOk result ((stored : Stored) (plain : List PlainItem) → CanBeCommitted contents.now self.old stored items.now plain
            → written.new.items ≡ written.old.items ++ map (λ live. define_item (stored.live ++ new_live stored plain) live.value) (new_live stored plain)) }
        ensures gives { IfOk result (λ defined. (stored : Stored) (plain : List PlainItem) → CanBeCommitted contents.now self.old stored items.now plain
            → AreAll (Stands contents.now) defined.items (new_things stored plain)) }
        ensures named { OnOk result ((stored : Stored) (plain : List PlainItem) → CanBeCommitted contents.now self.old stored items.now plain
            → AreAll (ItemIs (Names self.new.things.items contents.now)) items.now plain) }
        ensures undone { OnErr result ((stored : Stored) (plain : List PlainItem) → CanBeCommitted contents.now self.old stored items.now plain → StandsFor self.new contents.now stored) }
    {
        let named = named_by_all(alloc, items)?;
        let mut defined = Vec::new(alloc);
        match self.define_each(contents, &named, &mut defined) {
            Ok(()) => {}
            Err(_) => {
                self.undefine_all(contents, &defined);
                return Err(OutOfMemory);
            }
        }
        match self.write_defines(alloc, contents, &defined, written) {
            Ok(()) => Ok(defined),
            Err(_) => {
                self.undefine_all(contents, &defined);
                Err(OutOfMemory)
            }
        }
    }
}
