//! The items of a change with the numbers of the file.
ghost use Rattle.std.specs.Prelude.{◌≡◌, ◌++◌, List, Option, IfOk, OnOk, map};
ghost use Rattle.ap_content.specs.Entries.{Entry};
ghost use Rattle.ap_db.specs.Commit.{PlainItem, numbered};
ghost use Rattle.ap_db.specs.DefineLaws.{AreNumbered};
ghost use Rattle.ap_db.specs.Listed.{AreAll};
ghost use Rattle.ap_db.specs.Numbering.{in_file, seen_by, source_by, create_by, outcome_by, result_by, job_by, item_by};
ghost use Rattle.ap_db.specs.Said.{ItemIs};
ghost use Rattle.ap_db.specs.States.{StandsFor, Names};
ghost use Rattle.ap_db.specs.Stored.{Live, Stored};

use crate::state::State;
use crate::things::thing_of;
use ap_content::Number;
use ap_rows::{CreateRow, Item, JobResult, JobRow, OutcomeRow, SeenRow, SourceRow};
use ap_text::OutOfMemory;
use std::alloc::Global;

impl State {
    /// The file's number of the thing of a number, and 0 where it isn't in the file.
    fn in_file(&self, m: Number) -> Number
        ensures { result ≡ in_file self.now.things.items m }
    {
        match thing_of(&self.things, m) {
            Some(thing) => Number(thing.number),
            None => Number(0),
        }
    }

    fn seen_in_file(&self, seen: &SeenRow) -> SeenRow
        ensures { result ≡ seen_by (in_file self.now.things.items) seen.now }
    {
        match seen {
            SeenRow::Bytes(n) => SeenRow::Bytes(self.in_file(*n)),
            SeenRow::TooLarge => SeenRow::TooLarge,
        }
    }

    fn source_in_file(&self, alloc: Global, row: &SourceRow) -> Result<SourceRow, OutOfMemory>
        ensures { IfOk result (λ copy. copy ≡ source_by (in_file self.now.things.items) row.now) }
    {
        Ok(SourceRow {
            path: row.path.copy(alloc)?,
            order: row.order,
            name: row.name.copy(alloc)?,
            seen: self.seen_in_file(&row.seen),
        })
    }

    fn create_in_file(&self, alloc: Global, row: &CreateRow) -> Result<CreateRow, OutOfMemory>
        ensures { IfOk result (λ copy. copy ≡ create_by (in_file self.now.things.items) row.now) }
    {
        Ok(CreateRow {
            source: row.source.copy(alloc)?,
            input: self.in_file(row.input),
            created: row.created.copy(alloc)?,
        })
    }

    fn outcome_in_file(&self, outcome: &OutcomeRow) -> OutcomeRow
        ensures { result ≡ outcome_by (in_file self.now.things.items) outcome.now }
    {
        match outcome {
            OutcomeRow::Done(n) => OutcomeRow::Done(self.in_file(*n)),
            OutcomeRow::Failed(code) => OutcomeRow::Failed(*code),
        }
    }

    fn result_in_file(&self, alloc: Global, came: &JobResult) -> Result<JobResult, OutOfMemory>
        ensures { IfOk result (λ copy. copy ≡ result_by (in_file self.now.things.items) came.now) }
    {
        match came {
            JobResult::Processed { input, outcome } => Ok(JobResult::Processed {
                input: self.in_file(*input),
                outcome: self.outcome_in_file(outcome),
            }),
            JobResult::Cycle => Ok(JobResult::Cycle),
            JobResult::Missing(job) => Ok(JobResult::Missing(job.copy(alloc)?)),
            JobResult::DepFailed(job) => Ok(JobResult::DepFailed(job.copy(alloc)?)),
        }
    }

    fn job_in_file(&self, alloc: Global, row: &JobRow) -> Result<JobRow, OutOfMemory>
        ensures { IfOk result (λ copy. copy ≡ job_by (in_file self.now.things.items) row.now) }
    {
        Ok(JobRow {
            id: row.id.copy(alloc)?,
            result: self.result_in_file(alloc, &row.result)?,
        })
    }

    fn item_in_file(&self, alloc: Global, item: &Item) -> Result<Item, OutOfMemory>
        ensures { IfOk result (λ copy. copy ≡ item_by (in_file self.now.things.items) item.now) }
    {
        match item {
            Item::PutSource(row) => Ok(Item::PutSource(self.source_in_file(alloc, row)?)),
            Item::PutCreate(row) => Ok(Item::PutCreate(self.create_in_file(alloc, row)?)),
            Item::PutJob(row) => Ok(Item::PutJob(self.job_in_file(alloc, row)?)),
            _ => item.copy(alloc),
        }
    }

    /// Puts the items, which name things of the file, with the file's numbers behind what is written.
    pub(crate) fn write_items(
        &self,
        alloc: Global,
        items: &[Item],
        written: &mut Vec<Item>,
    ) -> Result<(), OutOfMemory>
        ensures { OnOk result ((contents : List (Option Entry)) (numbers : List Live) (stored : Stored) (plain : List PlainItem) → StandsFor self.now contents stored → AreNumbered numbers stored
            → AreAll (ItemIs (Names self.now.things.items contents)) items.now plain → written.new.items ≡ written.old.items ++ map (numbered numbers) plain) }
    {
        let mut rest = items;
        while let [item, after @ ..] = rest {
            written.push(self.item_in_file(alloc, item)?)?;
            rest = after;
        }
        Ok(())
    }
}
