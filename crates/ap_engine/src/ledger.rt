//! A database beside the contents that its numbers belong to.
ghost use Rattle.std.specs.Prelude.{◌≡◌, ◌≢◌, ◌≤◌, ◌<◌, ◌⊎◌, ◌+◌, ◌∷◌, ◌++◌, [], ◌^◌, ℕ, List, Option, Ok, true, Contains, find, bytes_eq, IsSome, IfOk, OnOk, OnErr, IfErr, IsErrOf, IfSome};
ghost use Rattle.ap_text.specs.Causes.{Rose};
ghost use Rattle.ap_content.specs.Things.{Thing, Kids, thing, bytes_thing};
ghost use Rattle.ap_content.specs.Entries.{Entry, Stands, StandEach, Lives};
ghost use Rattle.ap_disk.specs.Calls.{TellsAs};
ghost use Rattle.ap_journal.specs.Records.{IsSameStore};
ghost use Rattle.ap_journal.specs.Moments.{Opens};
ghost use Rattle.ap_db.specs.declared.fault.DbFault.TheVariants.{OutOfMemory, DiskFault, BadStore, StoreFull};
ghost use Rattle.ap_db.specs.Stored.{Stored, stored_in};
ghost use Rattle.ap_db.specs.Opened.{IsBadStore};
ghost use Rattle.ap_db.specs.Changes.{Whole, put_folders, put_source, remove_source, put_create, put_job, source_row_at};
ghost use Rattle.ap_db.specs.WholeItems.{items_of};
ghost use Rattle.ap_db.specs.Lawful.{is_lawful};
ghost use Rattle.ap_db.specs.Listed.{AreAll};
ghost use Rattle.ap_db.specs.Said.{ItemIs};
ghost use Rattle.ap_db.specs.States.{SourceIs, CreateIs, JobIs};
ghost use Rattle.ap_db.specs.Stored.{orders_rise};
ghost use Rattle.ap_db.specs.Tables.{PlainSource, PlainCreate, PlainJob};
ghost use Rattle.ap_rows.specs.declared.change.Item.TheVariants.{PutCreate, RemoveSource};
ghost use Rattle.ap_db.specs.Databases.{IsDb};
ghost use Rattle.ap_engine.specs.Removals.{removals, jobs_created, creation_removed};
ghost use Rattle.ap_engine.specs.Goods.{IsGoodSource, IsGoodCreate, IsGoodJob};
ghost use Rattle.ap_engine.specs.Ledgers.{IsBeside, IsHeld, StayHeld, IsReady, HasCommitted, HasStopped};

use crate::jobs_of::{has_job, jobs_of};
use ap_content::{Contents, Node, Number};
use ap_db::{Db, DbFault};
use ap_disk::{Disk, Pair};
use ap_rows::{Change, CreateRow, Created, FolderRow, Item, JobDesc, JobRow, SeenRow, SourceRow};
use ap_text::{List, OutOfMemory as NoMemory, RelPath};
use std::alloc::Global;

/// The database of a project, and the contents that its numbers belong to. What it interns it holds until it is
/// dropped.
#[derive(Drop)]
pub(crate) struct Ledger {
    pub(crate) db: Db,
    pub(crate) contents: Contents,
    pub(crate) alloc: Global,
}

impl Ledger {
    /// Opens the database of a store, whose file may have at most so many bytes.
    pub(crate) fn open<D: Disk>(
        alloc: Global,
        store: &mut Pair<D>,
        limit: u64,
    ) -> Result<Ledger, DbFault>
        requires least { 17 ≤ limit }
        requires greatest { limit ≤ 2 ^ 32 }
        requires fits { limit ≤ D.room store.old.0 }
        ensures ready { IfOk result (λ ledger. (stored : Stored) × IsReady D.seen D.may_leave D.room ledger.db ledger.contents store.new stored × IfSome (D.seen store.old.0) (λ file. stored_in file ≡ Ok stored)) }
        ensures told { OnOk result (TellsAs (D.seen store.old.0) (D.seen store.new.0) (λ _ _. Unit {0})) }
        ensures limit { IfOk result (λ ledger. ledger.db.journal.limit ≡ limit) }
        ensures bad { IfErr result (λ stop. (place offset : ℕ) → stop ≡ BadStore place offset → IfSome (D.seen store.old.0) (IsBadStore place offset)) }
        ensures only { IfErr result (λ stop. (stop ≡ OutOfMemory) ⊎ (stop ≡ DiskFault) ⊎ ((place : ℕ) × (offset : ℕ) × (stop ≡ BadStore place offset))) }
        ensures opens { Opens D.seen D.may_leave D.clock D.left_at D.room D.faults store.old store.new (D.may_leave store.old.0)
            (λ c. IfSome (D.seen store.old.0) (λ old. IsSameStore old c)) }
        ensures cause { IsErrOf result DiskFault → Rose (D.faults store.old.0) (D.faults store.new.0) }
    {
        let mut contents = Contents::new(alloc);
        let db = Db::open(alloc, store, &mut contents, limit)?;
        Ok(Ledger {
            db,
            contents,
            alloc,
        })
    }

    /// The number of these bytes, with a hold on it.
    pub(crate) fn intern(&mut self, bytes: &[u8]) -> Result<Number, NoMemory>
        ensures held { IfOk result (λ n. (stored : Stored) → IsBeside self.old.db self.old.contents stored → IsHeld self.new.db self.new.contents n (bytes_thing bytes.now)) }
        ensures beside { OnOk result ((stored : Stored) → IsBeside self.old.db self.old.contents stored → IsBeside self.new.db self.new.contents stored) }
        ensures stay { OnOk result ((stored : Stored) → IsBeside self.old.db self.old.contents stored → StayHeld self.old.db self.old.contents self.new.db self.new.contents) }
        ensures db { self.new.db ≡ self.old.db }
    {
        self.contents.intern(bytes)
    }

    /// The number of the bytes of a source, with a hold on it. Where the source's row has just these bytes, they are
    /// compared with those of the row and not digested.
    pub(crate) fn intern_source(&mut self, path: &RelPath, bytes: &[u8]) -> Result<Number, NoMemory>
        ensures held { IfOk result (λ n. (stored : Stored) → IsBeside self.old.db self.old.contents stored → IsHeld self.new.db self.new.contents n (bytes_thing bytes.now)) }
        ensures beside { OnOk result ((stored : Stored) → IsBeside self.old.db self.old.contents stored → IsBeside self.new.db self.new.contents stored) }
        ensures stay { OnOk result ((stored : Stored) → IsBeside self.old.db self.old.contents stored → StayHeld self.old.db self.old.contents self.new.db self.new.contents) }
        ensures db { self.new.db ≡ self.old.db }
    {
        match self.recorded_bytes(path, bytes) {
            Some(n) => {
                self.contents.hold(n);
                Ok(n)
            }
            None => self.intern(bytes),
        }
    }

    /// The number that the row of a source has, where it is that of these bytes. It costs a binary search.
    fn recorded_bytes(&self, path: &RelPath, bytes: &[u8]) -> Option<Number>
        ensures { IfSome result (λ n. Stands self.now.contents n (bytes_thing bytes.now)) }
    {
        let sources = &self.db.tables().sources;
        let place = sources
            .binary_search_by(|row: &SourceRow| row.path.cmp(path))
            .ok()?;
        let SeenRow::Bytes(n) = sources.get(place)?.seen else {
            return None;
        };
        let node = self.contents.get(n)?;
        if node.tag == 0 && node.kids.as_slice().is_empty() && node.text.as_slice() == bytes {
            return Some(n);
        }
        None
    }

    /// The number of the thing of this node, with a hold on it.
    pub(crate) fn intern_node(&mut self, node: &Node) -> Result<Number, NoMemory>
        requires { (k : Number) → Contains node.now.kids k → Lives self.old.contents k }
        ensures held { IfOk result (λ n. (stored : Stored) → IsBeside self.old.db self.old.contents stored → (kids : Kids) → StandEach self.old.contents node.now.kids kids
            → IsHeld self.new.db self.new.contents n (thing node.now.tag node.now.text kids)) }
        ensures beside { OnOk result ((stored : Stored) → IsBeside self.old.db self.old.contents stored → IsBeside self.new.db self.new.contents stored) }
        ensures stay { OnOk result ((stored : Stored) → IsBeside self.old.db self.old.contents stored → StayHeld self.old.db self.old.contents self.new.db self.new.contents) }
        ensures db { self.new.db ≡ self.old.db }
    {
        self.contents.intern_node(node)
    }

    /// Commits a whole change, whose items name numbers of the contents.
    pub(crate) fn commit<D: Disk>(
        &mut self,
        store: &mut Pair<D>,
        change: &Change,
    ) -> Result<(), DbFault>
        requires { (stored : Stored) × IsReady D.seen D.may_leave D.room self.old.db self.old.contents store.old stored × (whole : Whole) × AreAll (ItemIs (Stands self.old.contents)) change.now.items (items_of stored.tables whole) × (is_lawful stored (items_of stored.tables whole) ≡ true) }
        ensures committed { OnOk result ((stored : Stored) → IsReady D.seen D.may_leave D.room self.old.db self.old.contents store.old stored → (whole : Whole) → AreAll (ItemIs (Stands self.old.contents)) change.now.items (items_of stored.tables whole) → is_lawful stored (items_of stored.tables whole) ≡ true → HasCommitted D.seen D.may_leave D.clock D.left_at D.room D.faults self.old.db self.old.contents self.new.db self.new.contents store.old store.new stored (whole ∷ [])) }
        ensures stopped { OnErr result ((stored : Stored) → IsReady D.seen D.may_leave D.room self.old.db self.old.contents store.old stored → (whole : Whole) → AreAll (ItemIs (Stands self.old.contents)) change.now.items (items_of stored.tables whole) → is_lawful stored (items_of stored.tables whole) ≡ true → HasStopped D.seen D.may_leave D.clock D.left_at D.room D.faults store.old store.new stored (whole ∷ [])) }
        ensures full { IfErr result (λ stop. (l w : ℕ) → stop ≡ StoreFull l w → self.old.db.journal.limit < l + w) }
        ensures disk { IfErr result (λ stop. stop ≡ DiskFault → Rose (D.faults store.old.0) (D.faults store.new.0)) }
        ensures only { IfErr result (λ stop. (stop ≡ OutOfMemory) ⊎ (stop ≡ DiskFault) ⊎ ((l : ℕ) × (w : ℕ) × (stop ≡ StoreFull l w))) }
    {
        self.db.commit(store, &mut self.contents, change)
    }

    /// The change of one item.
    fn change_of(&self, item: Item) -> Result<Change, NoMemory>
        ensures { IfOk result (λ change. change.items ≡ item ∷ []) }
    {
        let mut items = Vec::new(self.alloc);
        items.push(item)?;
        Ok(Change {
            items: List::of(items),
        })
    }

    /// Commits a whole change of one item.
    fn commit_one<D: Disk>(&mut self, store: &mut Pair<D>, item: Item) -> Result<(), DbFault>
        requires { (stored : Stored) × IsReady D.seen D.may_leave D.room self.old.db self.old.contents store.old stored × (whole : Whole) × AreAll (ItemIs (Stands self.old.contents)) (item ∷ []) (items_of stored.tables whole) × (is_lawful stored (items_of stored.tables whole) ≡ true) }
        ensures committed { OnOk result ((stored : Stored) → IsReady D.seen D.may_leave D.room self.old.db self.old.contents store.old stored → (whole : Whole) → AreAll (ItemIs (Stands self.old.contents)) (item ∷ []) (items_of stored.tables whole) → is_lawful stored (items_of stored.tables whole) ≡ true → HasCommitted D.seen D.may_leave D.clock D.left_at D.room D.faults self.old.db self.old.contents self.new.db self.new.contents store.old store.new stored (whole ∷ [])) }
        ensures stopped { OnErr result ((stored : Stored) → IsReady D.seen D.may_leave D.room self.old.db self.old.contents store.old stored → (whole : Whole) → AreAll (ItemIs (Stands self.old.contents)) (item ∷ []) (items_of stored.tables whole) → is_lawful stored (items_of stored.tables whole) ≡ true → HasStopped D.seen D.may_leave D.clock D.left_at D.room D.faults store.old store.new stored (whole ∷ [])) }
        ensures full { IfErr result (λ stop. (l w : ℕ) → stop ≡ StoreFull l w → self.old.db.journal.limit < l + w) }
        ensures disk { IfErr result (λ stop. stop ≡ DiskFault → Rose (D.faults store.old.0) (D.faults store.new.0)) }
        ensures only { IfErr result (λ stop. (stop ≡ OutOfMemory) ⊎ (stop ≡ DiskFault) ⊎ ((l : ℕ) × (w : ℕ) × (stop ≡ StoreFull l w))) }
    {
        let change = self.change_of(item)?;
        self.commit(store, &change)
    }

    /// Adds the removals of a source's job rows but those of these jobs. It costs a look at each of these jobs for each
    /// of the source's rows.
    fn add_removals(
        &self,
        items: &mut Vec<Item>,
        source: &RelPath,
        kept: &[JobDesc],
    ) -> Result<(), NoMemory>
        requires { IsDb self.now.db }
        ensures { OnOk result (items.new.items ≡ items.old.items ++ removals source.now kept.now self.now.db.state.tables.jobs.items) }
    {
        let mut rest = jobs_of(&self.db.tables().jobs, source);
        while let [row, after @ ..] = rest {
            if !has_job(kept, &row.id) {
                items.push(Item::RemoveJob(row.id.copy(self.alloc)?))?;
            }
            rest = after;
        }
        Ok(())
    }

    /// The change that puts the row of a creation.
    fn change_of_creation(&self, row: CreateRow) -> Result<Change, NoMemory>
        requires { IsDb self.now.db }
        ensures { IfOk result (λ change. change.items ≡ PutCreate row ∷ removals row.source (jobs_created row.created) self.now.db.state.tables.jobs.items) }
    {
        let mut items = Vec::new(self.alloc);
        self.add_removals(&mut items, &row.source, jobs_in(&row.created))?;
        items.insert(0, Item::PutCreate(row))?;
        Ok(Change {
            items: List::of(items),
        })
    }

    /// The change that takes a source away.
    fn change_of_gone(&self, path: &RelPath) -> Result<Change, NoMemory>
        requires { IsDb self.now.db }
        ensures { IfOk result (λ change. change.items ≡ RemoveSource path.now
            ∷ (creation_removed path.now (find (λ row. bytes_eq row.source path.now) self.now.db.state.tables.creates.items) ++ removals path.now [] self.now.db.state.tables.jobs.items)) }
    {
        let mut items = Vec::new(self.alloc);
        items.push(Item::RemoveSource(path.copy(self.alloc)?))?;
        if self.db.creation(path).is_some() {
            items.push(Item::RemoveCreate(path.copy(self.alloc)?))?;
        }
        self.add_removals(&mut items, path, &[])?;
        Ok(Change {
            items: List::of(items),
        })
    }

    /// Puts the folder rows, whose orders rise.
    pub(crate) fn put_folders<D: Disk>(
        &mut self,
        store: &mut Pair<D>,
        rows: List<FolderRow>,
    ) -> Result<(), DbFault>
        requires { (stored : Stored) × IsReady D.seen D.may_leave D.room self.old.db self.old.contents store.old stored × (orders_rise rows ≡ true) }
        ensures committed { OnOk result ((stored : Stored) → IsReady D.seen D.may_leave D.room self.old.db self.old.contents store.old stored → orders_rise rows ≡ true → HasCommitted D.seen D.may_leave D.clock D.left_at D.room D.faults self.old.db self.old.contents self.new.db self.new.contents store.old store.new stored (put_folders rows ∷ [])) }
        ensures stopped { OnErr result ((stored : Stored) → IsReady D.seen D.may_leave D.room self.old.db self.old.contents store.old stored → orders_rise rows ≡ true → HasStopped D.seen D.may_leave D.clock D.left_at D.room D.faults store.old store.new stored (put_folders rows ∷ [])) }
        ensures full { IfErr result (λ stop. (l w : ℕ) → stop ≡ StoreFull l w → self.old.db.journal.limit < l + w) }
        ensures disk { IfErr result (λ stop. stop ≡ DiskFault → Rose (D.faults store.old.0) (D.faults store.new.0)) }
        ensures only { IfErr result (λ stop. (stop ≡ OutOfMemory) ⊎ (stop ≡ DiskFault) ⊎ ((l : ℕ) × (w : ℕ) × (stop ≡ StoreFull l w))) }
    {
        self.commit_one(store, Item::PutFolders(rows))
    }

    /// Puts the row of a source, whose content is a thing of bytes.
    pub(crate) fn put_source<D: Disk>(
        &mut self,
        store: &mut Pair<D>,
        row: SourceRow,
    ) -> Result<(), DbFault>
        requires { (stored : Stored) × IsReady D.seen D.may_leave D.room self.old.db self.old.contents store.old stored × (plain : PlainSource) × SourceIs (Stands self.old.contents) row plain × IsGoodSource plain }
        ensures committed { OnOk result ((stored : Stored) → IsReady D.seen D.may_leave D.room self.old.db self.old.contents store.old stored → (plain : PlainSource) → SourceIs (Stands self.old.contents) row plain → IsGoodSource plain → HasCommitted D.seen D.may_leave D.clock D.left_at D.room D.faults self.old.db self.old.contents self.new.db self.new.contents store.old store.new stored (put_source plain ∷ [])) }
        ensures stopped { OnErr result ((stored : Stored) → IsReady D.seen D.may_leave D.room self.old.db self.old.contents store.old stored → (plain : PlainSource) → SourceIs (Stands self.old.contents) row plain → IsGoodSource plain → HasStopped D.seen D.may_leave D.clock D.left_at D.room D.faults store.old store.new stored (put_source plain ∷ [])) }
        ensures full { IfErr result (λ stop. (l w : ℕ) → stop ≡ StoreFull l w → self.old.db.journal.limit < l + w) }
        ensures disk { IfErr result (λ stop. stop ≡ DiskFault → Rose (D.faults store.old.0) (D.faults store.new.0)) }
        ensures only { IfErr result (λ stop. (stop ≡ OutOfMemory) ⊎ (stop ≡ DiskFault) ⊎ ((l : ℕ) × (w : ℕ) × (stop ≡ StoreFull l w))) }
    {
        self.commit_one(store, Item::PutSource(row))
    }

    /// Puts the row of a job.
    pub(crate) fn put_job<D: Disk>(
        &mut self,
        store: &mut Pair<D>,
        row: JobRow,
    ) -> Result<(), DbFault>
        requires { (stored : Stored) × IsReady D.seen D.may_leave D.room self.old.db self.old.contents store.old stored × (plain : PlainJob) × JobIs (Stands self.old.contents) row plain × IsGoodJob plain }
        ensures committed { OnOk result ((stored : Stored) → IsReady D.seen D.may_leave D.room self.old.db self.old.contents store.old stored → (plain : PlainJob) → JobIs (Stands self.old.contents) row plain → IsGoodJob plain → HasCommitted D.seen D.may_leave D.clock D.left_at D.room D.faults self.old.db self.old.contents self.new.db self.new.contents store.old store.new stored (put_job plain ∷ [])) }
        ensures stopped { OnErr result ((stored : Stored) → IsReady D.seen D.may_leave D.room self.old.db self.old.contents store.old stored → (plain : PlainJob) → JobIs (Stands self.old.contents) row plain → IsGoodJob plain → HasStopped D.seen D.may_leave D.clock D.left_at D.room D.faults store.old store.new stored (put_job plain ∷ [])) }
        ensures full { IfErr result (λ stop. (l w : ℕ) → stop ≡ StoreFull l w → self.old.db.journal.limit < l + w) }
        ensures disk { IfErr result (λ stop. stop ≡ DiskFault → Rose (D.faults store.old.0) (D.faults store.new.0)) }
        ensures only { IfErr result (λ stop. (stop ≡ OutOfMemory) ⊎ (stop ≡ DiskFault) ⊎ ((l : ℕ) × (w : ℕ) × (stop ≡ StoreFull l w))) }
    {
        self.commit_one(store, Item::PutJob(row))
    }

    /// Puts the row of a creation, and removes the rows of its source's jobs that it doesn't have. It costs a look at
    /// each of the source's job rows.
    pub(crate) fn put_create<D: Disk>(
        &mut self,
        store: &mut Pair<D>,
        row: CreateRow,
    ) -> Result<(), DbFault>
        requires { (stored : Stored) × IsReady D.seen D.may_leave D.room self.old.db self.old.contents store.old stored × (plain : PlainCreate) × CreateIs (Stands self.old.contents) row plain × IsGoodCreate plain }
        ensures committed { OnOk result ((stored : Stored) → IsReady D.seen D.may_leave D.room self.old.db self.old.contents store.old stored → (plain : PlainCreate) → CreateIs (Stands self.old.contents) row plain → IsGoodCreate plain → HasCommitted D.seen D.may_leave D.clock D.left_at D.room D.faults self.old.db self.old.contents self.new.db self.new.contents store.old store.new stored (put_create plain ∷ [])) }
        ensures stopped { OnErr result ((stored : Stored) → IsReady D.seen D.may_leave D.room self.old.db self.old.contents store.old stored → (plain : PlainCreate) → CreateIs (Stands self.old.contents) row plain → IsGoodCreate plain → HasStopped D.seen D.may_leave D.clock D.left_at D.room D.faults store.old store.new stored (put_create plain ∷ [])) }
        ensures full { IfErr result (λ stop. (l w : ℕ) → stop ≡ StoreFull l w → self.old.db.journal.limit < l + w) }
        ensures disk { IfErr result (λ stop. stop ≡ DiskFault → Rose (D.faults store.old.0) (D.faults store.new.0)) }
        ensures only { IfErr result (λ stop. (stop ≡ OutOfMemory) ⊎ (stop ≡ DiskFault) ⊎ ((l : ℕ) × (w : ℕ) × (stop ≡ StoreFull l w))) }
    {
        let change = self.change_of_creation(row)?;
        self.commit(store, &change)
    }

    /// Removes the row of a source, and with it its creation's and its jobs' rows. It costs a look at each of the
    /// source's job rows.
    pub(crate) fn remove_source<D: Disk>(
        &mut self,
        store: &mut Pair<D>,
        path: &RelPath,
    ) -> Result<(), DbFault>
        requires { (stored : Stored) × IsReady D.seen D.may_leave D.room self.old.db self.old.contents store.old stored × IsSome (source_row_at stored.tables path.now) }
        ensures committed { OnOk result ((stored : Stored) → IsReady D.seen D.may_leave D.room self.old.db self.old.contents store.old stored → IsSome (source_row_at stored.tables path.now) → HasCommitted D.seen D.may_leave D.clock D.left_at D.room D.faults self.old.db self.old.contents self.new.db self.new.contents store.old store.new stored (remove_source path.now ∷ [])) }
        ensures stopped { OnErr result ((stored : Stored) → IsReady D.seen D.may_leave D.room self.old.db self.old.contents store.old stored → IsSome (source_row_at stored.tables path.now) → HasStopped D.seen D.may_leave D.clock D.left_at D.room D.faults store.old store.new stored (remove_source path.now ∷ [])) }
        ensures full { IfErr result (λ stop. (l w : ℕ) → stop ≡ StoreFull l w → self.old.db.journal.limit < l + w) }
        ensures disk { IfErr result (λ stop. stop ≡ DiskFault → Rose (D.faults store.old.0) (D.faults store.new.0)) }
        ensures only { IfErr result (λ stop. (stop ≡ OutOfMemory) ⊎ (stop ≡ DiskFault) ⊎ ((l : ℕ) × (w : ℕ) × (stop ≡ StoreFull l w))) }
    {
        let change = self.change_of_gone(path)?;
        self.commit(store, &change)
    }
}

/// The jobs that a creation came to: none where it failed.
fn jobs_in(created: &Created) -> &[JobDesc]
    ensures { result.now ≡ jobs_created created.now }
{
    match created {
        Created::Jobs(jobs) => jobs.as_slice(),
        _ => &[],
    }
}
