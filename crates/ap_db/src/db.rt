ghost use Rattle.std.specs.Prelude.{◌≡◌, ◌≢◌, ◌≤◌, ◌<◌, ◌⊎◌, ◌^◌, ℕ, List, Option, Ok, find, bytes_eq, length, true, false, option_copied, IfOk, OnOk, OnErr, IfErr, IsErrOf, IfSome};
ghost use Rattle.ap_text.specs.Causes.{Rose};
ghost use Rattle.ap_text.specs.JobOrder.{same_job};
ghost use Rattle.ap_disk.specs.Calls.{TellsAs};
ghost use Rattle.ap_disk.specs.Crashes.{Only};
ghost use Rattle.ap_journal.specs.Records.{IsSameStore};
ghost use Rattle.ap_journal.specs.Moments.{Opens, Steps};
ghost use Rattle.ap_db.specs.declared.fault.DbFault.TheVariants.{OutOfMemory, DiskFault, BadStore};
ghost use Rattle.ap_db.specs.Stored.{Stored, stored_in};
ghost use Rattle.ap_db.specs.Rows.{CreatesRise, JobsRise};
ghost use Rattle.ap_db.specs.Opened.{IsBadStore};
ghost use Rattle.ap_content.specs.Things.{Thing};
ghost use Rattle.ap_content.specs.Entries.{Stands, holds_at};
ghost use Rattle.ap_content.specs.declared.node.Number.{Number};
ghost use Rattle.ap_rows.specs.Spelling.{spelled};
ghost use Rattle.ap_db.specs.Listed.{AreAll};
ghost use Rattle.ap_db.specs.Lawful.{is_lawful};
ghost use Rattle.ap_db.specs.Said.{Says, ItemIs};
ghost use Rattle.ap_db.specs.States.{StandsFor};
ghost use Rattle.ap_db.specs.Commit.{PlainItem, commit_items, after_commit};
ghost use Rattle.ap_db.specs.Faults.{commit_refusal, IsRefusedFor};
ghost use Rattle.ap_db.specs.Planned.{AreHeldBeside, HoldsFollow};
ghost use Rattle.ap_db.specs.Databases.{AreEmpty, IsDb, IsDbBeside, IsDbOf, IsChangeOf, IsBeforeOrAfter};

use crate::fault::DbFault;
use crate::loose::unnamed;
use crate::opening::open_records;
use crate::reading::Reading;
use crate::recording::append_change;
use crate::rows::{place_of_create, place_of_job};
use crate::state::State;
use ap_content::{Contents, Number};
use ap_disk::{Disk, Pair};
use ap_journal::Journal;
use ap_rows::{Change, CreateRow, JobRow, Tables};
use ap_text::{JobId, RelPath};
use std::alloc::Global;

/// The tables of a project and the journal that keeps them. A database holds neither its disks nor its
/// contents: each call takes them as the database's last call left them.
#[derive(Drop)]
pub struct Db {
    pub(crate) journal: Journal,
    pub(crate) state: State,
    /// The things that nothing named when the store was opened, until a commit drops them.
    pub(crate) loose: Vec<Number>,
    pub(crate) alloc: Global,
}

impl Db {
    /// Opens the database of a store, whose file may have at most so many bytes, and puts its things into
    /// the contents, with a hold on each. It reads the file once. After an error nothing lives in the
    /// contents, and the store has to be opened again.
    pub fn open<D: Disk>(
        alloc: Global,
        store: &mut Pair<D>,
        contents: &mut Contents,
        limit: u64,
    ) -> Result<Db, DbFault>
        requires empty { AreEmpty contents.old }
        requires least { 17 ≤ limit }
        requires greatest { limit ≤ 2 ^ 32 }
        requires fits { limit ≤ D.room store.old.0 }
        ensures is_of { IfOk result (λ db. IsDbOf D.seen D.may_leave D.room db contents.new store.new) }
        ensures fresh { IfOk result (λ db. db.journal.spent ≡ false) }
        ensures limit { IfOk result (λ db. db.journal.limit ≡ limit) }
        ensures good { OnOk result (IfSome (D.seen store.old.0) (λ file. (stored : Stored) × (stored_in file ≡ Ok stored))) }
        ensures same { OnOk result (TellsAs (D.seen store.old.0) (D.seen store.new.0) (λ old new. stored_in new ≡ stored_in old)) }
        ensures bad { IfErr result (λ stop. (place offset : ℕ) → stop ≡ BadStore place offset → IfSome (D.seen store.old.0) (IsBadStore place offset)) }
        ensures only { IfErr result (λ stop. (stop ≡ OutOfMemory) ⊎ (stop ≡ DiskFault) ⊎ ((place : ℕ) × (offset : ℕ) × (stop ≡ BadStore place offset))) }
        ensures unchanged { OnErr result (contents.new ≡ contents.old) }
        ensures empty { OnErr result (AreEmpty contents.new) }
        ensures opens { Opens D.seen D.may_leave D.clock D.left_at D.room D.faults store.old store.new (D.may_leave store.old.0)
            (λ c. IfSome (D.seen store.old.0) (λ old. IsSameStore old c)) }
        ensures durable { OnOk result (Only (D.seen store.new.0) (D.may_leave store.new.0)) }
        ensures cause { IsErrOf result DiskFault → Rose (D.faults store.old.0) (D.faults store.new.0) }
    {
        match open_records(alloc, store, limit) {
            Ok((journal, reading)) => {
                let loose = unnamed(alloc, &reading.replay.state.things)?;
                Ok(Db {
                    journal,
                    state: reading.into_state(contents),
                    loose,
                    alloc,
                })
            }
            Err(stop) => Err(stop),
        }
    }

    /// The tables. Their numbers are those of the contents. It takes no memory.
    pub fn tables(&self) -> &Tables
        ensures { result.now ≡ self.now.state.tables }
    {
        &self.state.tables
    }

    /// The row of a job, found by a binary search. It takes no memory.
    pub fn row(&self, job: &JobId) -> Option<&JobRow>
        requires { IsDb self.now }
        ensures { option_copied result ≡ find (λ row. same_job row.id job.now) self.now.state.tables.jobs.items }
    {
        row_of(&self.state.tables.jobs, job)
    }

    /// The row of a source's creation, found by a binary search. It takes no memory.
    pub fn creation(&self, source: &RelPath) -> Option<&CreateRow>
        requires { IsDb self.now }
        ensures { option_copied result ≡ find (λ row. bytes_eq row.source source.now) self.now.state.tables.creates.items }
    {
        creation_of(&self.state.tables.creates, source)
    }

    /// Whether a commit takes this change, whose numbers are those of the contents: it has no `Define` and no
    /// `Drop`, each number that it names is live and of the right tag, each thing at or below it that the file
    /// lacks has the form of its tag, removed rows are there when their turn comes, paths are folded and the orders
    /// of folders rise. It takes no memory. Each removed row costs a look at the items before it, and each path down
    /// to a thing that the file lacks is walked.
    pub fn lawful(&self, contents: &Contents, change: &Change) -> bool
        requires { IsDbBeside self.now contents.now }
        ensures { (stored : Stored) → StandsFor self.now.state contents.now stored → Says result (AreAll (ItemIs (Stands contents.now)) change.now.items) (is_lawful stored) }
    {
        self.state.lawful(contents, change)
    }

    /// Commits a lawful change, whose numbers are those of the contents, as one record: a `Define` for each thing
    /// at or below what it names that the file lacks, its own items, and a `Drop` for each thing that no row
    /// reaches then. At Ok it is acknowledged, and what lives in the file is exactly what the rows reach. It costs
    /// two syncs, its own record, and the rows and things that it touches; rows behind one that is added or removed
    /// are moved. All memory is taken before the first device call. After `StoreFull` and want of memory all is as
    /// before; after `DiskFault` the store has to be opened again, and later calls answer `Spent`.
    pub fn commit<D: Disk>(
        &mut self,
        store: &mut Pair<D>,
        contents: &mut Contents,
        change: &Change,
    ) -> Result<(), DbFault>
        requires { (is : IsDbOf D.seen D.may_leave D.room self.old contents.old store.old) × (plain : List PlainItem) × IsChangeOf contents.old is.stored change.now.items plain }
        ensures committed { OnOk result ((is : IsDbOf D.seen D.may_leave D.room self.old contents.old store.old) (plain : List PlainItem) → IsChangeOf contents.old is.stored change.now.items plain
            → (next : IsDbOf D.seen D.may_leave D.room self.new contents.new store.new) × (next.stored ≡ after_commit is.stored plain)) }
        ensures refused { (is : IsDbOf D.seen D.may_leave D.room self.old contents.old store.old) (plain : List PlainItem) → IsChangeOf contents.old is.stored change.now.items plain
            → IsRefusedFor (commit_refusal self.old.journal (length (spelled (commit_items is.stored plain)))) result }
        ensures unchanged { OnErr result ((is : IsDbOf D.seen D.may_leave D.room self.old contents.old store.old) (plain : List PlainItem) → IsChangeOf contents.old is.stored change.now.items plain
            → (next : IsDbOf D.seen D.may_leave D.room self.new contents.new store.new) × (next.stored ≡ is.stored)) }
        ensures contents { OnErr result (contents.new ≡ contents.old) }
        ensures store { IfErr result (λ stop. stop ≢ DiskFault → store.new ≡ store.old) }
        ensures spent { IsErrOf result DiskFault → self.new.journal.spent ≡ true }
        ensures unspent { OnOk result (self.new.journal.spent ≡ false) }
        ensures holds { OnOk result ((others : Number → ℕ) → ((m : Number) → others m < 18446744073709551614)
            → AreHeldBeside others self.old.state.things.items contents.old → AreHeldBeside others self.new.state.things.items contents.new) }
        ensures follow { OnOk result ((is : IsDbOf D.seen D.may_leave D.room self.old contents.old store.old) (plain : List PlainItem) → IsChangeOf contents.old is.stored change.now.items plain
            → HoldsFollow self.old.state.things.items self.new.state.things.items contents.old contents.new) }
        ensures keeps { (m : Number) (x : Thing) → Stands contents.old m x → 0 < holds_at contents.new m → Stands contents.new m x }
        ensures steps { (is : IsDbOf D.seen D.may_leave D.room self.old contents.old store.old) (plain : List PlainItem) → IsChangeOf contents.old is.stored change.now.items plain → self.old.journal.spent ≡ false
            → Steps D.seen D.may_leave D.clock D.left_at D.room D.faults store.old store.new (λ c. IfSome (D.seen store.old.0) (λ _. IsBeforeOrAfter is.stored plain c)) }
        ensures told { OnOk result (TellsAs (D.seen store.old.0) (D.seen store.new.0) (λ _ _. Unit {0})) }
        ensures durable { OnOk result (Only (D.seen store.new.0) (D.may_leave store.new.0)) }
        ensures limit { self.new.journal.limit ≡ self.old.journal.limit }
        ensures cause { IsErrOf result DiskFault → Rose (D.faults store.old.0) (D.faults store.new.0) }
    {
        // A journal that is spent refuses this, before anything else is done.
        self.journal.reserve(0)?;
        let items = change.items.as_slice();
        let plan = self.state.plan(self.alloc, contents, items, &self.loose)?;
        match append_change(self.alloc, &mut self.journal, store, &plan.written) {
            Ok(()) => {
                self.state.settle(contents, &plan.defined, &plan.dropped);
                self.loose.clear();
                Ok(())
            }
            Err(stop) => {
                self.state.unplan(contents, items, plan);
                Err(stop)
            }
        }
    }
}

/// The row of a job among rows that rise.
fn row_of<'a>(rows: &'a [JobRow], job: &JobId) -> Option<&'a JobRow>
    requires { JobsRise rows.now }
    ensures { option_copied result ≡ find (λ row. same_job row.id job.now) rows.now }
{
    match place_of_job(rows, job) {
        Ok(at) => Some(&rows[at]),
        Err(_) => None,
    }
}

/// The row of a source's creation among rows that rise.
fn creation_of<'a>(rows: &'a [CreateRow], source: &RelPath) -> Option<&'a CreateRow>
    requires { CreatesRise rows.now }
    ensures { option_copied result ≡ find (λ row. bytes_eq row.source source.now) rows.now }
{
    match place_of_create(rows, source) {
        Ok(place) => Some(&rows[place]),
        Err(_) => None,
    }
}
