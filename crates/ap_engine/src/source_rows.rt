//! The phase of a run that brings the source rows up to date.
ghost use Rattle.std.specs.Prelude.{◌≡◌, ◌⊎◌, ◌∷◌, [], ℕ, List, Option, length, ◌<◌, ◌+◌, IfOk, IfErr, OnOk, OnErr};
ghost use Rattle.ap_text.specs.Causes.{Rose};
ghost use Rattle.ap_content.specs.Entries.{Entry, IsTidy};
ghost use Rattle.ap_config.specs.declared.config.Config.{Config};
ghost use Rattle.ap_scan.specs.declared.results.Winner.{Winner};
ghost use Rattle.ap_rows.specs.declared.row.SeenRow.TheVariants.{Bytes};
ghost use Rattle.ap_db.specs.declared.db.Db.{Db as TheDb};
ghost use Rattle.ap_db.specs.declared.fault.DbFault.TheVariants.{OutOfMemory, DiskFault, StoreFull};
ghost use Rattle.ap_db.specs.Changes.{Whole};
ghost use Rattle.ap_db.specs.Stored.{Stored};
ghost use Rattle.ap_sources.specs.Sources.{sources};
ghost use Rattle.ap_engine.specs.Changes.{source_changes};
ghost use Rattle.ap_engine.specs.Interned.{AreSourcesOf};
ghost use Rattle.ap_engine.specs.Ledgers.{IsBeside, IsReady, HasCommitted, HasStopped};
ghost use Rattle.ap_engine.specs.SourceSteps.{AreRead, is_seen_with, is_row_of, changes_among, IsStepFor, AreStepsFor, ArePlanned, IsThere, AreThere};

use crate::ledger::Ledger;
use crate::source::Source;
use ap_content::Number;
use ap_db::DbFault;
use ap_disk::{Disk, Pair};
use ap_rows::{SeenRow, SourceRow};
use ap_text::{OutOfMemory as NoMemory, RelPath};
use std::alloc::Global;
use std::cmp::Ordering;

/// What is to be done with the row of one source.
#[derive(Drop)]
pub(crate) enum Step<'a> {
    /// The row of this source is put.
    Put(&'a Source),
    /// The row of this path is removed.
    Remove(RelPath),
}

/// The rows and the sources that are left, by path.
#[derive(Clone, Copy)]
struct Left<'r, 'a> {
    rows: &'r [SourceRow],
    sources: &'a [Source],
}

/// Whether a row sees its source with the bytes of this number.
fn sees(seen: &SeenRow, content: Number) -> bool
    ensures { result ≡ is_seen_with seen.now content }
{
    match seen {
        SeenRow::Bytes(n) => n.0 == content.0,
        SeenRow::TooLarge => false,
    }
}

/// Whether a row is that of a source of its path.
fn records(row: &SourceRow, source: &Source) -> bool
    ensures { result ≡ is_row_of row.now source.now }
{
    row.order == source.order && row.name == source.name && sees(&row.seen, source.content)
}

/// Adds the step for the first path of rows and sources, and gives what is left behind it.
fn plan_first<'r, 'a>(
    alloc: Global,
    rows: &'r [SourceRow],
    sources: &'a [Source],
    steps: &mut Vec<Step<'a>>,
) -> Result<Left<'r, 'a>, NoMemory>
    ensures planned { IfOk result (λ left. (db : TheDb) (contents : List (Option Entry)) → IsTidy contents → (changes : List Whole) → ArePlanned db contents rows.now sources.now steps.old.items changes
        → ArePlanned db contents left.rows.now left.sources.now steps.new.items changes) }
    ensures fewer { IfOk result (λ left. 0 < length rows.now + length sources.now → length left.rows.now + length left.sources.now < length rows.now + length sources.now) }
{
    let [source, next_sources @ ..] = sources else {
        let [row, next_rows @ ..] = rows else {
            return Ok(Left { rows, sources });
        };
        steps.push(Step::Remove(row.path.copy(alloc)?))?;
        return Ok(Left {
            rows: next_rows,
            sources,
        });
    };
    let [row, next_rows @ ..] = rows else {
        steps.push(Step::Put(source))?;
        return Ok(Left {
            rows,
            sources: next_sources,
        });
    };
    match row.path.cmp(&source.path) {
        Ordering::Less => {
            steps.push(Step::Remove(row.path.copy(alloc)?))?;
            Ok(Left {
                rows: next_rows,
                sources,
            })
        }
        Ordering::Equal => {
            if !records(row, source) {
                steps.push(Step::Put(source))?;
            }
            Ok(Left {
                rows: next_rows,
                sources: next_sources,
            })
        }
        Ordering::Greater => {
            steps.push(Step::Put(source))?;
            Ok(Left {
                rows,
                sources: next_sources,
            })
        }
    }
}

/// The steps that bring the rows up to date with the sources, by path.
fn planned<'a>(alloc: Global, ledger: &Ledger, all: &'a [Source]) -> Result<Vec<Step<'a>>, NoMemory>
    ensures { IfOk result (λ steps. (stored : Stored) → IsBeside ledger.now.db ledger.now.contents stored → (winners : List Winner) → AreRead winners → AreSourcesOf ledger.now.db ledger.now.contents all.now winners
        → AreStepsFor ledger.now.db ledger.now.contents steps.items (changes_among winners stored.tables.sources)) }
{
    let mut steps = Vec::new(alloc);
    let mut left = Left {
        rows: &ledger.db.tables().sources,
        sources: all,
    };
    while !left.rows.is_empty() || !left.sources.is_empty() {
        left = plan_first(alloc, left.rows, left.sources, &mut steps)?;
    }
    Ok(steps)
}

/// The row of a source.
fn row_of(alloc: Global, source: &Source) -> Result<SourceRow, NoMemory>
    ensures { IfOk result (λ row. row ≡ record { path = source.now.path; order = source.now.order; name = source.now.name; seen = Bytes source.now.content }) }
{
    Ok(SourceRow {
        path: source.path.copy(alloc)?,
        order: source.order,
        name: source.name.copy(alloc)?,
        seen: SeenRow::Bytes(source.content),
    })
}

/// Commits the change of a step.
fn take_step<D: Disk>(
    alloc: Global,
    ledger: &mut Ledger,
    store: &mut Pair<D>,
    step: &Step<'_>,
) -> Result<(), DbFault>
    requires ready { (stored : Stored) × IsReady D.seen D.may_leave D.room ledger.old.db ledger.old.contents store.old stored × (change : Whole) × IsStepFor ledger.old.db ledger.old.contents step.now change × IsThere stored.tables change }
    ensures committed { OnOk result ((stored : Stored) → IsReady D.seen D.may_leave D.room ledger.old.db ledger.old.contents store.old stored → (change : Whole) → IsStepFor ledger.old.db ledger.old.contents step.now change → IsThere stored.tables change
        → HasCommitted D.seen D.may_leave D.clock D.left_at D.room D.faults ledger.old.db ledger.old.contents ledger.new.db ledger.new.contents store.old store.new stored (change ∷ [])) }
    ensures stopped { OnErr result ((stored : Stored) → IsReady D.seen D.may_leave D.room ledger.old.db ledger.old.contents store.old stored → (change : Whole) → IsStepFor ledger.old.db ledger.old.contents step.now change → IsThere stored.tables change
        → HasStopped D.seen D.may_leave D.clock D.left_at D.room D.faults store.old store.new stored (change ∷ [])) }
    ensures full { IfErr result (λ stop. (l w : ℕ) → stop ≡ StoreFull l w → ledger.old.db.journal.limit < l + w) }
    ensures disk { IfErr result (λ stop. stop ≡ DiskFault → Rose (D.faults store.old.0) (D.faults store.new.0)) }
    ensures only { IfErr result (λ stop. (stop ≡ OutOfMemory) ⊎ (stop ≡ DiskFault) ⊎ ((l : ℕ) × (w : ℕ) × (stop ≡ StoreFull l w))) }
{
    match step {
        Step::Put(source) => match row_of(alloc, source) {
            Ok(row) => ledger.put_source(store, row),
            Err(_) => Err(DbFault::OutOfMemory),
        },
        Step::Remove(path) => ledger.remove_source(store, path),
    }
}

/// Commits the changes of steps, one after another.
fn take_each<D: Disk>(
    alloc: Global,
    ledger: &mut Ledger,
    store: &mut Pair<D>,
    steps: &[Step<'_>],
) -> Result<(), DbFault>
    requires ready { (stored : Stored) × IsReady D.seen D.may_leave D.room ledger.old.db ledger.old.contents store.old stored × (changes : List Whole) × AreStepsFor ledger.old.db ledger.old.contents steps.now changes × AreThere stored.tables changes }
    ensures committed { OnOk result ((stored : Stored) → IsReady D.seen D.may_leave D.room ledger.old.db ledger.old.contents store.old stored → (changes : List Whole) → AreStepsFor ledger.old.db ledger.old.contents steps.now changes → AreThere stored.tables changes
        → HasCommitted D.seen D.may_leave D.clock D.left_at D.room D.faults ledger.old.db ledger.old.contents ledger.new.db ledger.new.contents store.old store.new stored changes) }
    ensures stopped { OnErr result ((stored : Stored) → IsReady D.seen D.may_leave D.room ledger.old.db ledger.old.contents store.old stored → (changes : List Whole) → AreStepsFor ledger.old.db ledger.old.contents steps.now changes → AreThere stored.tables changes
        → HasStopped D.seen D.may_leave D.clock D.left_at D.room D.faults store.old store.new stored changes) }
    ensures full { IfErr result (λ stop. (l w : ℕ) → stop ≡ StoreFull l w → ledger.old.db.journal.limit < l + w) }
    ensures disk { IfErr result (λ stop. stop ≡ DiskFault → Rose (D.faults store.old.0) (D.faults store.new.0)) }
    ensures only { IfErr result (λ stop. (stop ≡ OutOfMemory) ⊎ (stop ≡ DiskFault) ⊎ ((l : ℕ) × (w : ℕ) × (stop ≡ StoreFull l w))) }
{
    let mut rest = steps;
    while let [step, after @ ..] = rest {
        match take_step(alloc, ledger, store, step) {
            Ok(()) => {}
            Err(stop) => return Err(stop),
        }
        rest = after;
    }
    Ok(())
}

/// Puts the row of each source that is new or changed, and removes that of each that is gone, by path.
pub(crate) fn put_source_rows<D: Disk>(
    alloc: Global,
    ledger: &mut Ledger,
    store: &mut Pair<D>,
    all: &[Source],
) -> Result<(), DbFault>
    requires ready { (config : Config) × (winners : List Winner) × (stored : Stored) × IsReady D.seen D.may_leave D.room ledger.old.db ledger.old.contents store.old stored × AreRead winners × AreSourcesOf ledger.old.db ledger.old.contents all.now (sources config winners) }
    ensures committed { OnOk result ((config : Config) (winners : List Winner) (stored : Stored) → IsReady D.seen D.may_leave D.room ledger.old.db ledger.old.contents store.old stored → AreRead winners → AreSourcesOf ledger.old.db ledger.old.contents all.now (sources config winners)
        → HasCommitted D.seen D.may_leave D.clock D.left_at D.room D.faults ledger.old.db ledger.old.contents ledger.new.db ledger.new.contents store.old store.new stored (source_changes config winners stored.tables)) }
    ensures stopped { OnErr result ((config : Config) (winners : List Winner) (stored : Stored) → IsReady D.seen D.may_leave D.room ledger.old.db ledger.old.contents store.old stored → AreRead winners → AreSourcesOf ledger.old.db ledger.old.contents all.now (sources config winners)
        → HasStopped D.seen D.may_leave D.clock D.left_at D.room D.faults store.old store.new stored (source_changes config winners stored.tables)) }
    ensures full { IfErr result (λ stop. (l w : ℕ) → stop ≡ StoreFull l w → ledger.old.db.journal.limit < l + w) }
    ensures disk { IfErr result (λ stop. stop ≡ DiskFault → Rose (D.faults store.old.0) (D.faults store.new.0)) }
    ensures only { IfErr result (λ stop. (stop ≡ OutOfMemory) ⊎ (stop ≡ DiskFault) ⊎ ((l : ℕ) × (w : ℕ) × (stop ≡ StoreFull l w))) }
{
    let steps = match planned(alloc, ledger, all) {
        Ok(steps) => steps,
        Err(_) => return Err(DbFault::OutOfMemory),
    };
    take_each(alloc, ledger, store, &steps)
}
