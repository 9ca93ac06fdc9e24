//! The items of a change put into the tables, and taken back.
ghost use Rattle.std.specs.Prelude.{◌≡◌, ◌≤◌, ◌<◌, ◌+◌, ◌∷◌, List, Option, IfOk, OnOk, OnErr, length, vec_capacity, vec_len};
ghost use Rattle.ap_content.specs.Entries.{Entry, Stands};
ghost use Rattle.ap_rows.specs.declared.change.Item.{Item};
ghost use Rattle.ap_db.specs.Changes.{with_folders};
ghost use Rattle.ap_db.specs.Commit.{PlainItem};
ghost use Rattle.ap_db.specs.Lawful.{after_plain};
ghost use Rattle.ap_db.specs.Listed.{AreAll, total};
ghost use Rattle.ap_db.specs.Olds.{GivenIs};
ghost use Rattle.ap_db.specs.Putting.{puts_source_row, puts_create_row, puts_job_row, HasPlaces, KeepsPlaces, HasRoomFor, HasPutItem, ArePut, ArePutBefore, AreAllPut};
ghost use Rattle.ap_db.specs.Reserve.{HasRoom};
ghost use Rattle.ap_db.specs.Said.{ItemIs};
ghost use Rattle.ap_db.specs.States.{StandsFor, Names, SameNumbers};
ghost use Rattle.ap_db.specs.Stored.{Stored, with_tables};

use crate::old::Old;
use crate::state::State;
use ap_rows::{FolderRow, Item};
use ap_text::{List, OutOfMemory};
use std::alloc::Global;

/// How many rows of sources these items put.
fn count_sources(items: &[Item]) -> usize
    ensures count { result ≡ total puts_source_row items.now }
    ensures few { result ≤ length items.now }
{
    let mut count = 0;
    let mut rest = items;
    while let [item, after @ ..] = rest {
        if let Item::PutSource(_) = item {
            count += 1;
        }
        rest = after;
    }
    count
}

/// How many create rows these items put.
fn count_creates(items: &[Item]) -> usize
    ensures count { result ≡ total puts_create_row items.now }
    ensures few { result ≤ length items.now }
{
    let mut count = 0;
    let mut rest = items;
    while let [item, after @ ..] = rest {
        if let Item::PutCreate(_) = item {
            count += 1;
        }
        rest = after;
    }
    count
}

/// How many rows of jobs these items put.
fn count_jobs(items: &[Item]) -> usize
    ensures count { result ≡ total puts_job_row items.now }
    ensures few { result ≤ length items.now }
{
    let mut count = 0;
    let mut rest = items;
    while let [item, after @ ..] = rest {
        if let Item::PutJob(_) = item {
            count += 1;
        }
        rest = after;
    }
    count
}

impl State {
    /// Makes room in the tables for so many rows of each kind beyond those that are there.
    fn reserve_rows(
        &mut self,
        sources: usize,
        creates: usize,
        jobs: usize,
    ) -> Result<(), OutOfMemory>
        ensures stands { (contents : List (Option Entry)) (stored : Stored) → StandsFor self.old contents stored → StandsFor self.new contents stored }
        ensures numbers { SameNumbers self.old self.new × (self.new.defined ≡ self.old.defined) }
        ensures room { OnOk result (HasPlaces (length self.old.tables.sources.items + sources) (length self.old.tables.creates.items + creates) (length self.old.tables.jobs.items + jobs) self.new) }
        ensures names { self.new.names ≡ self.old.names }
        ensures things { self.new.things ≡ self.old.things }
    {
        self.tables.sources.reserve(sources)?;
        self.tables.creates.reserve(creates)?;
        self.tables.jobs.reserve(jobs)?;
        Ok(())
    }

    /// Makes room for the rows that these items put, and for those that are put back where they are undone.
    fn reserve(&mut self, items: &[Item]) -> Result<(), OutOfMemory>
        ensures stands { (contents : List (Option Entry)) (stored : Stored) → StandsFor self.old contents stored → StandsFor self.new contents stored }
        ensures numbers { SameNumbers self.old self.new × (self.new.defined ≡ self.old.defined) }
        ensures things { self.new.things ≡ self.old.things }
        ensures room { OnOk result ((contents : List (Option Entry)) (stored : Stored) (plain : List PlainItem) → StandsFor self.old contents stored → AreAll (ItemIs (Stands contents)) items.now plain
            → HasRoomFor stored plain self.new) }
    {
        let names = self.names as u128 + 2 * (items.len() as u128) + 2;
        if names >= 18446744073709551614 {
            return Err(OutOfMemory);
        }
        self.reserve_rows(
            count_sources(items) + 1,
            count_creates(items) + 1,
            count_jobs(items) + 1,
        )
    }

    /// Puts these folder rows in the place of all others, which it gives.
    fn replace_folders(&mut self, rows: List<FolderRow>) -> List<FolderRow>
        ensures stands { (contents : List (Option Entry)) (stored : Stored) → StandsFor self.old contents stored
            → StandsFor self.new contents (with_tables stored (with_folders stored.tables rows)) }
        ensures numbers { SameNumbers self.old self.new × (self.new.defined ≡ self.old.defined) }
        ensures keeps { KeepsPlaces self.old self.new }
        ensures gives { result ≡ self.old.tables.folders.items }
    {
        List::of(std::mem::replace(&mut self.tables.folders, rows.into_vec()))
    }

    /// Puts or removes the row of an item, and gives what it replaces or removes.
    fn put_item(&mut self, item: Item) -> Old
        requires room { HasRoom 1 1 1 2 self.old }
        requires stands { (contents : List (Option Entry)) × (stored : Stored) × (plain : PlainItem) × StandsFor self.old contents stored × ItemIs (Names self.old.things.items contents) item plain }
        ensures stands { (contents : List (Option Entry)) (stored : Stored) (plain : PlainItem) → StandsFor self.old contents stored → ItemIs (Names self.old.things.items contents) item plain
            → StandsFor self.new contents (with_tables stored (after_plain stored.tables plain)) }
        ensures gives { (contents : List (Option Entry)) (stored : Stored) (plain : PlainItem) → StandsFor self.old contents stored → ItemIs (Names self.old.things.items contents) item plain
            → GivenIs (Names self.old.things.items contents) stored.tables plain result }
        ensures numbers { SameNumbers self.old self.new × (self.new.defined ≡ self.old.defined) }
        ensures keeps { KeepsPlaces self.old self.new }
    {
        match item {
            Item::PutSource(row) => Old::Source(self.put_source_reserved(row)),
            Item::RemoveSource(path) => Old::Source(self.remove_source(&path)),
            Item::PutCreate(row) => Old::Create(self.put_create_reserved(row)),
            Item::RemoveCreate(source) => Old::Create(self.remove_create(&source)),
            Item::PutJob(row) => Old::Job(self.put_job_reserved(row)),
            Item::RemoveJob(id) => Old::Job(self.remove_job(&id)),
            Item::PutFolders(rows) => Old::Folders(self.replace_folders(rows)),
            Item::Define { .. } | Item::Drop(_) => Old::Nothing,
        }
    }

    /// Takes back what `put_item` did, given what that gave.
    fn unput_item(&mut self, item: &Item, old: Old)
        requires room { HasRoom 1 1 1 2 self.old }
        requires put { (contents : List (Option Entry)) × (stored : Stored) × (plain : PlainItem) × HasPutItem self.old contents stored plain item.now old }
        ensures undone { (contents : List (Option Entry)) (stored : Stored) (plain : PlainItem) → HasPutItem self.old contents stored plain item.now old → StandsFor self.new contents stored }
        ensures numbers { SameNumbers self.old self.new × (self.new.defined ≡ self.old.defined) }
        ensures keeps { KeepsPlaces self.old self.new }
    {
        match item {
            Item::PutSource(row) => {
                self.unput_source(&row.path, old.into_source());
            }
            Item::RemoveSource(_) => self.unremove_source(old.into_source()),
            Item::PutCreate(row) => {
                self.unput_create(&row.source, old.into_create());
            }
            Item::RemoveCreate(_) => self.unremove_create(old.into_create()),
            Item::PutJob(row) => {
                self.unput_job(&row.id, old.into_job());
            }
            Item::RemoveJob(_) => self.unremove_job(old.into_job()),
            Item::PutFolders(_) => {
                if let Some(rows) = old.into_folders() {
                    self.put_folders(rows);
                }
            }
            Item::Define { .. } | Item::Drop(_) => {}
        }
    }

    /// Puts the next item, and adds what it gives, for which there is room. After an error nothing was done.
    fn put_next(
        &mut self,
        alloc: Global,
        item: &Item,
        olds: &mut Vec<Old>,
    ) -> Result<(), OutOfMemory>
        requires room { vec_len olds.old < vec_capacity olds.old }
        requires put { (contents : List (Option Entry)) × (stored : Stored) × (plain : List PlainItem) × (items : List Item) × (rest : List Item) × ArePutBefore self.old contents stored plain items olds.old.items (item.now ∷ rest) }
        ensures put { OnOk result ((contents : List (Option Entry)) (stored : Stored) (plain : List PlainItem) (items : List Item) (rest : List Item) → ArePutBefore self.old contents stored plain items olds.old.items (item.now ∷ rest)
            → ArePutBefore self.new contents stored plain items olds.new.items rest) }
        ensures len { OnOk result (vec_len olds.new ≡ vec_len olds.old + 1) }
        ensures capacity { OnOk result (vec_capacity olds.old ≤ vec_capacity olds.new) }
        ensures numbers { OnOk result (SameNumbers self.old self.new × (self.new.defined ≡ self.old.defined)) }
        ensures unchanged { OnErr result ((self.new ≡ self.old) × (olds.new ≡ olds.old)) }
    {
        let row = item.copy(alloc)?;
        let old = self.put_item(row);
        olds.push_reserved(old);
        Ok(())
    }

    /// Takes back the items for which these were given, the last first.
    pub(crate) fn unput_items(&mut self, items: &[Item], olds: Vec<Old>)
        requires { (contents : List (Option Entry)) × (stored : Stored) × (plain : List PlainItem) × ArePut self.old contents stored plain items.now olds.items }
        ensures undone { (contents : List (Option Entry)) (stored : Stored) (plain : List PlainItem) → ArePut self.old contents stored plain items.now olds.items → StandsFor self.new contents stored }
        ensures numbers { SameNumbers self.old self.new × (self.new.defined ≡ self.old.defined) }
    {
        let mut given = olds;
        while let Some(old) = given.pop() {
            self.unput_item(&items[given.len()], old);
        }
    }

    /// Puts the items, which name things of the file, one after another, and gives what they replace or remove.
    /// After an error the state stands for what it did.
    pub(crate) fn put_items(
        &mut self,
        alloc: Global,
        items: &[Item],
    ) -> Result<Vec<Old>, OutOfMemory>
        requires { (contents : List (Option Entry)) × (stored : Stored) × (plain : List PlainItem) × StandsFor self.old contents stored × AreAll (ItemIs (Names self.old.things.items contents)) items.now plain }
        ensures put { IfOk result (λ olds. (contents : List (Option Entry)) (stored : Stored) (plain : List PlainItem) → StandsFor self.old contents stored → AreAll (ItemIs (Names self.old.things.items contents)) items.now plain
            → AreAllPut self.new contents stored plain items.now olds.items) }
        ensures undone { OnErr result ((contents : List (Option Entry)) (stored : Stored) (plain : List PlainItem) → StandsFor self.old contents stored → AreAll (ItemIs (Names self.old.things.items contents)) items.now plain
            → StandsFor self.new contents stored) }
        ensures numbers { SameNumbers self.old self.new × (self.new.defined ≡ self.old.defined) }
    {
        self.reserve(items)?;
        let mut olds = Vec::with_capacity(alloc, items.len())?;
        let mut rest = items;
        while let [item, after @ ..] = rest {
            match self.put_next(alloc, item, &mut olds) {
                Ok(()) => {}
                Err(_) => {
                    self.unput_items(items, olds);
                    return Err(OutOfMemory);
                }
            }
            rest = after;
        }
        Ok(olds)
    }
}
