//! The items of a file's records, taken one after another.
ghost use Rattle.std.specs.Prelude.{◌≡◌, ◌≢◌, ◌<◌, ℕ, length, List, Option, Some, None, IfOk, OnOk, IsErrOf};
ghost use Rattle.ap_content.specs.Entries.{Entry, IsTidy};
ghost use Rattle.ap_rows.specs.declared.change.Item.TheVariants as item;
ghost use Rattle.ap_db.specs.Stored.{Stored, nothing_stored, things_at, orders_rise};
ghost use Rattle.ap_db.specs.Listed.{AreAll, AreBoth};
ghost use Rattle.ap_db.specs.declared.state.State.{State};
ghost use Rattle.ap_db.specs.declared.replay.ItemFault.TheVariants.{Unlawful};
ghost use Rattle.ap_db.specs.States.{StandsFor, Names, IsIndexOf, indexed};
ghost use Rattle.ap_db.specs.Replaying.{IsReplay, Replays, Applied, Refused, CanBeDefined, Defined, IsDefined};

use crate::resolving::{number_at, resolve_create, resolve_job, resolve_source};
use crate::state::State;
use crate::things::thing_of;
use ap_content::{Contents, Node, Number};
use ap_rows::{CreateRow, FolderRow, Item, JobRow, SourceRow, has_form};
use ap_text::{Bytes, JobId, List, OutOfMemory, RelPath};
use std::alloc::Global;

/// Why an item isn't taken.
#[derive(Clone, Copy, Debug, PartialEq, Eq)]
pub enum ItemFault {
    Unlawful,
    OutOfMemory,
}

/// The state so far, and under each number of the file the contents' number of its thing, while it lives.
#[derive(Drop)]
pub struct Replay {
    pub(crate) state: State,
    pub(crate) index: Vec<Option<Number>>,
}

/// The contents' numbers of things of the file, and None where one of them isn't there.
fn resolve_kids(
    alloc: Global,
    index: &[Option<Number>],
    kids: &[Number],
) -> Result<Option<Vec<Number>>, OutOfMemory>
    ensures { IfOk result (λ found. (state : State) (contents : List (Option Entry)) (stored : Stored) → StandsFor state contents stored → IsIndexOf index.now state
        → AreBoth (λ numbers things. AreAll (Names state.things.items contents) numbers.items things) found (things_at stored kids.now)) }
{
    let mut numbers = Vec::new(alloc);
    let mut rest = kids;
    while let [kid, after @ ..] = rest {
        let Some(m) = number_at(index, *kid) else {
            return Ok(None);
        };
        numbers.push(m)?;
        rest = after;
    }
    Ok(Some(numbers))
}

impl Replay {
    /// Nothing is read yet.
    pub(crate) fn new(alloc: Global) -> Result<Replay, OutOfMemory>
        ensures { IfOk result (λ replay. (contents : List (Option Entry)) → IsTidy contents → Replays replay contents nothing_stored) }
    {
        let mut index = Vec::new(alloc);
        index.push(None)?;
        Ok(Replay {
            state: State::new(alloc),
            index,
        })
    }

    fn define(
        &mut self,
        alloc: Global,
        contents: &mut Contents,
        tag: u8,
        text: Bytes,
        kids: List<Number>,
    ) -> Result<(), ItemFault>
        requires { IsReplay self.old contents.old }
        ensures applied { OnOk result (Applied self.old contents.old self.new contents.new (item.Define tag text kids)) }
        ensures refused { IsErrOf result Unlawful → Refused self.old contents.old (item.Define tag text kids) }
    {
        let numbers = match resolve_kids(alloc, &self.index, kids.as_slice()) {
            Ok(Some(numbers)) => numbers,
            Ok(None) => return Err(ItemFault::Unlawful),
            Err(_) => return Err(ItemFault::OutOfMemory),
        };
        if !has_form(contents, tag, text.as_slice(), &numbers) {
            return Err(ItemFault::Unlawful);
        }
        self.define_node(
            contents,
            Node {
                tag,
                text,
                kids: List::of(numbers),
            },
        )
    }

    /// The thing of this node, whose kids are of the file and which has its form, is the next one of the file.
    fn define_node(&mut self, contents: &mut Contents, node: Node) -> Result<(), ItemFault>
        requires { IsReplay self.old contents.old × CanBeDefined self.old contents.old node }
        ensures applied { OnOk result (Defined self.old contents.old self.new contents.new node) }
        ensures refused { IsErrOf result Unlawful → IsDefined self.old contents.old node }
    {
        let m = match contents.intern_node(&node) {
            Ok(m) => m,
            Err(_) => return Err(ItemFault::OutOfMemory),
        };
        match self.state.grow(m) {
            Ok(()) => {}
            Err(_) => return Err(ItemFault::OutOfMemory),
        }
        if let Some(_) = thing_of(&self.state.things, m) {
            return Err(ItemFault::Unlawful);
        }
        match self.state.define(contents, m) {
            Ok(()) => {}
            Err(_) => return Err(ItemFault::OutOfMemory),
        }
        match self.index.push(Some(m)) {
            Ok(()) => Ok(()),
            Err(_) => Err(ItemFault::OutOfMemory),
        }
    }

    /// The number is that of no thing any more.
    fn forget(&mut self, n: Number)
        requires { n.0 < length self.old.index.items }
        ensures here { indexed self.new.index.items n.0 ≡ None }
        ensures others { (k : ℕ) → k ≢ n.0 → indexed self.new.index.items k ≡ indexed self.old.index.items k }
        ensures kept { (self.new.state ≡ self.old.state) × (length self.new.index.items ≡ length self.old.index.items) }
    {
        self.index[n.0 as usize] = None;
    }

    fn drop_thing(&mut self, contents: &mut Contents, n: Number) -> Result<(), ItemFault>
        requires { IsReplay self.old contents.old }
        ensures applied { OnOk result (Applied self.old contents.old self.new contents.new (item.Drop n)) }
        ensures refused { IsErrOf result Unlawful → Refused self.old contents.old (item.Drop n) }
        ensures memory { IsErrOf result ItemFault.OutOfMemory → ⊥ }
    {
        let Some(m) = number_at(&self.index, n) else {
            return Err(ItemFault::Unlawful);
        };
        let Some(thing) = thing_of(&self.state.things, m) else {
            return Err(ItemFault::Unlawful);
        };
        if thing.named > 0 {
            return Err(ItemFault::Unlawful);
        }
        self.state.take_out(contents, m);
        self.state.release(contents, m);
        self.forget(n);
        Ok(())
    }

    fn put_source(&mut self, contents: &Contents, row: SourceRow) -> Result<(), ItemFault>
        requires { IsReplay self.old contents.now }
        ensures applied { OnOk result (Applied self.old contents.now self.new contents.now (item.PutSource row)) }
        ensures refused { IsErrOf result Unlawful → Refused self.old contents.now (item.PutSource row) }
    {
        let Some(row) = resolve_source(&self.index, contents, row) else {
            return Err(ItemFault::Unlawful);
        };
        match self.state.put_source(row) {
            Ok(_old) => Ok(()),
            Err(_) => Err(ItemFault::OutOfMemory),
        }
    }

    fn put_create(&mut self, contents: &Contents, row: CreateRow) -> Result<(), ItemFault>
        requires { IsReplay self.old contents.now }
        ensures applied { OnOk result (Applied self.old contents.now self.new contents.now (item.PutCreate row)) }
        ensures refused { IsErrOf result Unlawful → Refused self.old contents.now (item.PutCreate row) }
    {
        let Some(row) = resolve_create(&self.index, contents, row) else {
            return Err(ItemFault::Unlawful);
        };
        match self.state.put_create(row) {
            Ok(_old) => Ok(()),
            Err(_) => Err(ItemFault::OutOfMemory),
        }
    }

    fn put_job(&mut self, contents: &Contents, row: JobRow) -> Result<(), ItemFault>
        requires { IsReplay self.old contents.now }
        ensures applied { OnOk result (Applied self.old contents.now self.new contents.now (item.PutJob row)) }
        ensures refused { IsErrOf result Unlawful → Refused self.old contents.now (item.PutJob row) }
    {
        let Some(row) = resolve_job(&self.index, contents, row) else {
            return Err(ItemFault::Unlawful);
        };
        match self.state.put_job(row) {
            Ok(_old) => Ok(()),
            Err(_) => Err(ItemFault::OutOfMemory),
        }
    }

    fn remove_source(&mut self, path: &RelPath) -> Result<(), ItemFault>
        requires { (contents : List (Option Entry)) × IsReplay self.old contents }
        ensures applied { OnOk result ((contents : List (Option Entry)) → Applied self.old contents self.new contents (item.RemoveSource path.now)) }
        ensures refused { IsErrOf result Unlawful → (contents : List (Option Entry)) → Refused self.old contents (item.RemoveSource path.now) }
    {
        match self.state.remove_source(path) {
            Some(_old) => Ok(()),
            None => Err(ItemFault::Unlawful),
        }
    }

    fn remove_create(&mut self, source: &RelPath) -> Result<(), ItemFault>
        requires { (contents : List (Option Entry)) × IsReplay self.old contents }
        ensures applied { OnOk result ((contents : List (Option Entry)) → Applied self.old contents self.new contents (item.RemoveCreate source.now)) }
        ensures refused { IsErrOf result Unlawful → (contents : List (Option Entry)) → Refused self.old contents (item.RemoveCreate source.now) }
    {
        match self.state.remove_create(source) {
            Some(_old) => Ok(()),
            None => Err(ItemFault::Unlawful),
        }
    }

    fn remove_job(&mut self, id: &JobId) -> Result<(), ItemFault>
        requires { (contents : List (Option Entry)) × IsReplay self.old contents }
        ensures applied { OnOk result ((contents : List (Option Entry)) → Applied self.old contents self.new contents (item.RemoveJob id.now)) }
        ensures refused { IsErrOf result Unlawful → (contents : List (Option Entry)) → Refused self.old contents (item.RemoveJob id.now) }
    {
        match self.state.remove_job(id) {
            Some(_old) => Ok(()),
            None => Err(ItemFault::Unlawful),
        }
    }

    fn put_folders(&mut self, rows: List<FolderRow>) -> Result<(), ItemFault>
        requires { (contents : List (Option Entry)) × IsReplay self.old contents }
        ensures applied { OnOk result ((contents : List (Option Entry)) → Applied self.old contents self.new contents (item.PutFolders rows)) }
        ensures refused { IsErrOf result Unlawful → (contents : List (Option Entry)) → Refused self.old contents (item.PutFolders rows) }
    {
        if !do_orders_rise(rows.as_slice()) {
            return Err(ItemFault::Unlawful);
        }
        self.state.put_folders(rows);
        Ok(())
    }

    /// Takes an item, where it is lawful.
    pub(crate) fn apply(
        &mut self,
        alloc: Global,
        contents: &mut Contents,
        item: Item,
    ) -> Result<(), ItemFault>
        requires { IsReplay self.old contents.old }
        ensures applied { OnOk result (Applied self.old contents.old self.new contents.new item) }
        ensures refused { IsErrOf result Unlawful → Refused self.old contents.old item }
    {
        match item {
            Item::Define { tag, text, kids } => self.define(alloc, contents, tag, text, kids),
            Item::Drop(n) => self.drop_thing(contents, n),
            Item::PutSource(row) => self.put_source(contents, row),
            Item::RemoveSource(path) => self.remove_source(&path),
            Item::PutCreate(row) => self.put_create(contents, row),
            Item::RemoveCreate(path) => self.remove_create(&path),
            Item::PutJob(row) => self.put_job(contents, row),
            Item::RemoveJob(id) => self.remove_job(&id),
            Item::PutFolders(rows) => self.put_folders(rows),
        }
    }
}

/// Whether the orders rise strictly.
pub(crate) fn do_orders_rise(rows: &[FolderRow]) -> bool
    ensures { result ≡ orders_rise rows.now }
{
    let mut rest = rows;
    while let [row, next, ..] = rest {
        if row.order >= next.order {
            return false;
        }
        rest = &rest[1..];
    }
    true
}
