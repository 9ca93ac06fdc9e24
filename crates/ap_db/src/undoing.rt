//! Puts for which room was reserved, and puts and removals undone: none takes memory.
ghost use Rattle.std.specs.Prelude.{◌≡◌, ℕ, List, Option, IsSome, vec_len};
ghost use Rattle.ap_text.specs.declared.job_id.JobId.{JobId};
ghost use Rattle.ap_content.specs.Entries.{Entry};
ghost use Rattle.ap_db.specs.Tables.{PlainSource, PlainCreate, PlainJob};
ghost use Rattle.ap_db.specs.Changes.{with_source, with_create, with_job, source_cmp, create_cmp, job_row_cmp};
ghost use Rattle.ap_db.specs.Stored.{Stored, with_tables};
ghost use Rattle.ap_db.specs.States.{StandsFor, Names, SourceIs, CreateIs, JobIs, SameNumbers};
ghost use Rattle.ap_db.specs.Listed.{AreBoth, replaced};
ghost use Rattle.ap_db.specs.Reserve.{TakesRoom, HasRoom};
ghost use Rattle.ap_db.specs.Putting.{KeepsPlaces};
ghost use Rattle.ap_db.specs.Undone.{HasPutSource, HasPutCreate, HasPutJob, HasRemovedSource, HasRemovedCreate, HasRemovedJob};

use crate::state::State;
use ap_rows::{CreateRow, JobRow, SourceRow};
use ap_text::{JobId, RelPath};

impl State {
    /// As `put_source`, where there is room for the row.
    pub(crate) fn put_source_reserved(&mut self, row: SourceRow) -> Option<SourceRow>
        requires room { HasRoom 1 0 0 1 self.old }
        requires stands { (contents : List (Option Entry)) × (stored : Stored) × (plain : PlainSource) × StandsFor self.old contents stored × SourceIs (Names self.old.things.items contents) row plain }
        ensures stands { (contents : List (Option Entry)) (stored : Stored) (plain : PlainSource) → StandsFor self.old contents stored → SourceIs (Names self.old.things.items contents) row plain
            → StandsFor self.new contents (with_tables stored (with_source stored.tables plain)) }
        ensures numbers { SameNumbers self.old self.new × (self.new.defined ≡ self.old.defined) }
        ensures gives { (contents : List (Option Entry)) (stored : Stored) (plain : PlainSource) → StandsFor self.old contents stored → SourceIs (Names self.old.things.items contents) row plain
            → AreBoth (SourceIs (Names self.old.things.items contents)) result (replaced source_cmp plain stored.tables.sources) }
        ensures takes { TakesRoom 1 0 0 1 self.old self.new }
        ensures replaces { IsSome result → vec_len self.new.tables.sources ≡ vec_len self.old.tables.sources }
    {
        match self.put_source(row) {
            Ok(old) => old,
            Err(_) => None,
        }
    }

    /// Undoes the put of a source's row, given the one that it replaced, and gives the one that it put.
    pub(crate) fn unput_source(
        &mut self,
        path: &RelPath,
        old: Option<SourceRow>,
    ) -> Option<SourceRow>
        requires room { HasRoom 1 0 0 1 self.old }
        requires put { (contents : List (Option Entry)) × (stored : Stored) × (plain : PlainSource) × HasPutSource self.old contents stored plain path.now old }
        ensures undone { (contents : List (Option Entry)) (stored : Stored) (plain : PlainSource) → HasPutSource self.old contents stored plain path.now old → StandsFor self.new contents stored }
        ensures numbers { SameNumbers self.old self.new × (self.new.defined ≡ self.old.defined) }
        ensures keeps { KeepsPlaces self.old self.new }
    {
        match old {
            Some(row) => self.put_source_reserved(row),
            None => self.remove_source(path),
        }
    }

    /// Undoes a removal, given the row that it gave, where there was one.
    pub(crate) fn unremove_source(&mut self, old: Option<SourceRow>)
        requires room { HasRoom 1 0 0 1 self.old }
        requires removed { (contents : List (Option Entry)) × (stored : Stored) × (key : List ℕ) × HasRemovedSource self.old contents stored key old }
        ensures undone { (contents : List (Option Entry)) (stored : Stored) (key : List ℕ) → HasRemovedSource self.old contents stored key old → StandsFor self.new contents stored }
        ensures numbers { SameNumbers self.old self.new × (self.new.defined ≡ self.old.defined) }
        ensures keeps { KeepsPlaces self.old self.new }
    {
        match old {
            Some(row) => {
                self.put_source_reserved(row);
            }
            None => {}
        }
    }

    /// As `put_create`, where there is room for the row.
    pub(crate) fn put_create_reserved(&mut self, row: CreateRow) -> Option<CreateRow>
        requires room { HasRoom 0 1 0 1 self.old }
        requires stands { (contents : List (Option Entry)) × (stored : Stored) × (plain : PlainCreate) × StandsFor self.old contents stored × CreateIs (Names self.old.things.items contents) row plain }
        ensures stands { (contents : List (Option Entry)) (stored : Stored) (plain : PlainCreate) → StandsFor self.old contents stored → CreateIs (Names self.old.things.items contents) row plain
            → StandsFor self.new contents (with_tables stored (with_create stored.tables plain)) }
        ensures numbers { SameNumbers self.old self.new × (self.new.defined ≡ self.old.defined) }
        ensures gives { (contents : List (Option Entry)) (stored : Stored) (plain : PlainCreate) → StandsFor self.old contents stored → CreateIs (Names self.old.things.items contents) row plain
            → AreBoth (CreateIs (Names self.old.things.items contents)) result (replaced create_cmp plain stored.tables.creates) }
        ensures takes { TakesRoom 0 1 0 1 self.old self.new }
        ensures replaces { IsSome result → vec_len self.new.tables.creates ≡ vec_len self.old.tables.creates }
    {
        match self.put_create(row) {
            Ok(old) => old,
            Err(_) => None,
        }
    }

    /// Undoes the put of a create row, given the one that it replaced, and gives the one that it put.
    pub(crate) fn unput_create(
        &mut self,
        source: &RelPath,
        old: Option<CreateRow>,
    ) -> Option<CreateRow>
        requires room { HasRoom 0 1 0 1 self.old }
        requires put { (contents : List (Option Entry)) × (stored : Stored) × (plain : PlainCreate) × HasPutCreate self.old contents stored plain source.now old }
        ensures undone { (contents : List (Option Entry)) (stored : Stored) (plain : PlainCreate) → HasPutCreate self.old contents stored plain source.now old → StandsFor self.new contents stored }
        ensures numbers { SameNumbers self.old self.new × (self.new.defined ≡ self.old.defined) }
        ensures keeps { KeepsPlaces self.old self.new }
    {
        match old {
            Some(row) => self.put_create_reserved(row),
            None => self.remove_create(source),
        }
    }

    /// Undoes a removal, given the row that it gave, where there was one.
    pub(crate) fn unremove_create(&mut self, old: Option<CreateRow>)
        requires room { HasRoom 0 1 0 1 self.old }
        requires removed { (contents : List (Option Entry)) × (stored : Stored) × (key : List ℕ) × HasRemovedCreate self.old contents stored key old }
        ensures undone { (contents : List (Option Entry)) (stored : Stored) (key : List ℕ) → HasRemovedCreate self.old contents stored key old → StandsFor self.new contents stored }
        ensures numbers { SameNumbers self.old self.new × (self.new.defined ≡ self.old.defined) }
        ensures keeps { KeepsPlaces self.old self.new }
    {
        match old {
            Some(row) => {
                self.put_create_reserved(row);
            }
            None => {}
        }
    }

    /// As `put_job`, where there is room for the row.
    pub(crate) fn put_job_reserved(&mut self, row: JobRow) -> Option<JobRow>
        requires room { HasRoom 0 0 1 2 self.old }
        requires stands { (contents : List (Option Entry)) × (stored : Stored) × (plain : PlainJob) × StandsFor self.old contents stored × JobIs (Names self.old.things.items contents) row plain }
        ensures stands { (contents : List (Option Entry)) (stored : Stored) (plain : PlainJob) → StandsFor self.old contents stored → JobIs (Names self.old.things.items contents) row plain
            → StandsFor self.new contents (with_tables stored (with_job stored.tables plain)) }
        ensures numbers { SameNumbers self.old self.new × (self.new.defined ≡ self.old.defined) }
        ensures gives { (contents : List (Option Entry)) (stored : Stored) (plain : PlainJob) → StandsFor self.old contents stored → JobIs (Names self.old.things.items contents) row plain
            → AreBoth (JobIs (Names self.old.things.items contents)) result (replaced job_row_cmp plain stored.tables.jobs) }
        ensures takes { TakesRoom 0 0 1 2 self.old self.new }
        ensures replaces { IsSome result → vec_len self.new.tables.jobs ≡ vec_len self.old.tables.jobs }
    {
        match self.put_job(row) {
            Ok(old) => old,
            Err(_) => None,
        }
    }

    /// Undoes the put of a job's row, given the one that it replaced, and gives the one that it put.
    pub(crate) fn unput_job(&mut self, id: &JobId, old: Option<JobRow>) -> Option<JobRow>
        requires room { HasRoom 0 0 1 2 self.old }
        requires put { (contents : List (Option Entry)) × (stored : Stored) × (plain : PlainJob) × HasPutJob self.old contents stored plain id.now old }
        ensures undone { (contents : List (Option Entry)) (stored : Stored) (plain : PlainJob) → HasPutJob self.old contents stored plain id.now old → StandsFor self.new contents stored }
        ensures numbers { SameNumbers self.old self.new × (self.new.defined ≡ self.old.defined) }
        ensures keeps { KeepsPlaces self.old self.new }
    {
        match old {
            Some(row) => self.put_job_reserved(row),
            None => self.remove_job(id),
        }
    }

    /// Undoes a removal, given the row that it gave, where there was one.
    pub(crate) fn unremove_job(&mut self, old: Option<JobRow>)
        requires room { HasRoom 0 0 1 2 self.old }
        requires removed { (contents : List (Option Entry)) × (stored : Stored) × (key : JobId) × HasRemovedJob self.old contents stored key old }
        ensures undone { (contents : List (Option Entry)) (stored : Stored) (key : JobId) → HasRemovedJob self.old contents stored key old → StandsFor self.new contents stored }
        ensures numbers { SameNumbers self.old self.new × (self.new.defined ≡ self.old.defined) }
        ensures keeps { KeepsPlaces self.old self.new }
    {
        match old {
            Some(row) => {
                self.put_job_reserved(row);
            }
            None => {}
        }
    }
}
