ghost use Rattle.std.specs.Prelude.{◌≡◌, ◌≢◌, ◌≤◌, ◌<◌, ◌⊎◌, ◌+◌, ◌-◌, ℕ, List, Option, Some, None, IfSome, IfOk, OnOk, OnErr, IsTrue, IsSome, IsNone, is_some, length, vec_capacity, vec_len};
ghost use Rattle.ap_text.specs.declared.job_id.JobId.{JobId};
ghost use Rattle.ap_content.specs.Things.{Thing};
ghost use Rattle.ap_content.specs.Entries.{Entry, IsTidy, node_at};
ghost use Rattle.ap_content.specs.declared.node.Number.{Number};
ghost use Rattle.ap_content.specs.declared.node.Node.{Node};
ghost use Rattle.ap_db.specs.Tables.{PlainSource, PlainCreate, PlainJob};
ghost use Rattle.ap_db.specs.Changes.{with_folders, with_source, without_source, with_create, without_create, with_job, without_job, source_cmp, create_cmp, job_row_cmp, source_row_at, create_row_at, job_row_at};
ghost use Rattle.ap_db.specs.Stored.{Stored, nothing_stored, with_tables, and_thing, and_no_thing};
ghost use Rattle.ap_db.specs.States.{StandsFor, Names, SourceIs, CreateIs, JobIs, SameNumbers, file_thing, file_number, IsNewThing, IsUnnamed};
ghost use Rattle.ap_db.specs.Listed.{AreBoth, replaced};
ghost use Rattle.ap_db.specs.Reserve.{TakesRoom};
ghost use Rattle.ap_db.specs.Naming.{raised, lowered, times_of, both_of, HaveRoom, content_number, result_numbers, named_by, source_numbers, create_numbers, job_numbers};

use crate::rows::{
    put_create_row, put_job_row, put_source_row, take_create_row, take_job_row, take_source_row,
};
use crate::things::{FileThing, lower, lower_all, raise, raise_all, set_thing};
use ap_content::{Contents, Number};
use ap_rows::{CreateRow, FolderRow, JobResult, JobRow, OutcomeRow, SeenRow, SourceRow, Tables};
use ap_text::{JobId, List, OutOfMemory, RelPath};
use std::alloc::Global;

/// The tables, with numbers of the contents, and the things of the file under these numbers.
#[derive(Drop)]
pub struct State {
    pub(crate) tables: Tables,
    pub(crate) things: Vec<Option<FileThing>>,
    /// How many things the file's records have defined so far.
    pub(crate) defined: u64,
    /// How many names of things there are in rows and in things that live in the file.
    pub(crate) names: u64,
}

/// The number that a source's row names.
pub(crate) fn content_of(row: &SourceRow) -> Option<Number>
    ensures { result ≡ content_number row.now }
{
    match row.seen {
        SeenRow::Bytes(n) => Some(n),
        SeenRow::TooLarge => None,
    }
}

/// The numbers that a job's row names: of its input and of its products.
pub(crate) fn numbers_of(row: &JobRow) -> (Option<Number>, Option<Number>)
    ensures { result ≡ result_numbers row.now.result }
{
    match &row.result {
        JobResult::Processed { input, outcome } => match outcome {
            OutcomeRow::Done(products) => (Some(*input), Some(*products)),
            OutcomeRow::Failed(_) => (Some(*input), None),
        },
        JobResult::Cycle | JobResult::Missing(_) | JobResult::DepFailed(_) => (None, None),
    }
}

/// The number that a source's row named.
pub(crate) fn content_of_old(old: &Option<SourceRow>) -> Option<Number>
    ensures { both_of result None ≡ named_by source_numbers old.now }
{
    match old {
        Some(row) => content_of(row),
        None => None,
    }
}

/// The number that a create row named.
pub(crate) fn input_of_old(old: &Option<CreateRow>) -> Option<Number>
    ensures { both_of result None ≡ named_by create_numbers old.now }
{
    match old {
        Some(row) => Some(row.input),
        None => None,
    }
}

/// The numbers that a job's row named.
pub(crate) fn numbers_of_old(old: &Option<JobRow>) -> (Option<Number>, Option<Number>)
    ensures { both_of result.0 result.1 ≡ named_by job_numbers old.now }
{
    match old {
        Some(row) => numbers_of(row),
        None => (None, None),
    }
}

impl State {
    /// The state of a file without records.
    pub(crate) fn new(alloc: Global) -> State
        ensures { (contents : List (Option Entry)) → IsTidy contents → StandsFor result contents nothing_stored }
    {
        State {
            tables: Tables {
                folders: Vec::new(alloc),
                sources: Vec::new(alloc),
                creates: Vec::new(alloc),
                jobs: Vec::new(alloc),
            },
            things: Vec::new(alloc),
            defined: 0,
            names: 0,
        }
    }

    /// Counts the names of a row that is put.
    fn name(&mut self, a: Option<Number>, b: Option<Number>)
        requires room { self.old.names + 2 < 18446744073709551616 }
        requires each { HaveRoom self.old.things.items 2 }
        ensures counts { (k : Number) → file_thing self.new.things.items k ≡ raised (times_of (both_of a b) k) (file_thing self.old.things.items k) }
        ensures names { self.new.names ≡ self.old.names + length (both_of a b) }
        ensures kept { (self.new.tables ≡ self.old.tables) × (self.new.defined ≡ self.old.defined) }
    {
        if let Some(m) = a {
            raise(&mut self.things, m);
            self.names += 1;
        }
        if let Some(m) = b {
            raise(&mut self.things, m);
            self.names += 1;
        }
    }

    /// Takes away the names of a row that has gone.
    fn unname(&mut self, a: Option<Number>, b: Option<Number>)
        ensures counts { (k : Number) → file_thing self.new.things.items k ≡ lowered (times_of (both_of a b) k) (file_thing self.old.things.items k) }
        ensures names { self.new.names ≡ self.old.names - length (both_of a b) }
        ensures kept { (self.new.tables ≡ self.old.tables) × (self.new.defined ≡ self.old.defined) }
    {
        if let Some(m) = a {
            lower(&mut self.things, m);
            self.names = self.names.saturating_sub(1);
        }
        if let Some(m) = b {
            lower(&mut self.things, m);
            self.names = self.names.saturating_sub(1);
        }
    }

    /// Puts a source's row, whose number is that of a thing of the file, and gives the row that it replaces.
    pub(crate) fn put_source(&mut self, row: SourceRow) -> Result<Option<SourceRow>, OutOfMemory>
        requires { (contents : List (Option Entry)) × (stored : Stored) × (plain : PlainSource) × StandsFor self.old contents stored × SourceIs (Names self.old.things.items contents) row plain }
        ensures stands { OnOk result ((contents : List (Option Entry)) (stored : Stored) (plain : PlainSource) → StandsFor self.old contents stored → SourceIs (Names self.old.things.items contents) row plain
            → StandsFor self.new contents (with_tables stored (with_source stored.tables plain))) }
        ensures numbers { OnOk result (SameNumbers self.old self.new × (self.new.defined ≡ self.old.defined)) }
        ensures gives { IfOk result (λ old. (contents : List (Option Entry)) (stored : Stored) (plain : PlainSource) → StandsFor self.old contents stored → SourceIs (Names self.old.things.items contents) row plain
            → AreBoth (SourceIs (Names self.old.things.items contents)) old (replaced source_cmp plain stored.tables.sources)) }
        ensures takes { OnOk result (TakesRoom 1 0 0 1 self.old self.new) }
        ensures replaces { IfOk result (λ old. IsSome old → vec_len self.new.tables.sources ≡ vec_len self.old.tables.sources) }
        ensures room { OnErr result ((vec_capacity self.old.tables.sources ≤ vec_len self.old.tables.sources) ⊎ (18446744073709551614 ≤ self.old.names)) }
    {
        if self.names >= u64::MAX - 1 {
            return Err(OutOfMemory);
        }
        let named = content_of(&row);
        let old = put_source_row(&mut self.tables.sources, row)?;
        self.name(named, None);
        self.unname(content_of_old(&old), None);
        Ok(old)
    }

    /// Removes a source's row, and gives it, where there is one.
    pub(crate) fn remove_source(&mut self, path: &RelPath) -> Option<SourceRow>
        requires { (contents : List (Option Entry)) × (stored : Stored) × StandsFor self.old contents stored }
        ensures lawful { (contents : List (Option Entry)) (stored : Stored) → StandsFor self.old contents stored → is_some result ≡ is_some (source_row_at stored.tables path.now) }
        ensures gives { (contents : List (Option Entry)) (stored : Stored) → StandsFor self.old contents stored
            → AreBoth (SourceIs (Names self.old.things.items contents)) result (source_row_at stored.tables path.now) }
        ensures takes { TakesRoom 0 0 0 0 self.old self.new }
        ensures frees { IsSome result → vec_len self.new.tables.sources + 1 ≡ vec_len self.old.tables.sources }
        ensures stands { (contents : List (Option Entry)) (stored : Stored) → StandsFor self.old contents stored
            → StandsFor self.new contents (with_tables stored (without_source stored.tables path.now)) }
        ensures numbers { SameNumbers self.old self.new × (self.new.defined ≡ self.old.defined) }
    {
        let old = take_source_row(&mut self.tables.sources, path);
        self.unname(content_of_old(&old), None);
        old
    }

    /// Puts a create row, whose number is that of a thing of the file, and gives the row that it replaces.
    pub(crate) fn put_create(&mut self, row: CreateRow) -> Result<Option<CreateRow>, OutOfMemory>
        requires { (contents : List (Option Entry)) × (stored : Stored) × (plain : PlainCreate) × StandsFor self.old contents stored × CreateIs (Names self.old.things.items contents) row plain }
        ensures stands { OnOk result ((contents : List (Option Entry)) (stored : Stored) (plain : PlainCreate) → StandsFor self.old contents stored → CreateIs (Names self.old.things.items contents) row plain
            → StandsFor self.new contents (with_tables stored (with_create stored.tables plain))) }
        ensures numbers { OnOk result (SameNumbers self.old self.new × (self.new.defined ≡ self.old.defined)) }
        ensures gives { IfOk result (λ old. (contents : List (Option Entry)) (stored : Stored) (plain : PlainCreate) → StandsFor self.old contents stored → CreateIs (Names self.old.things.items contents) row plain
            → AreBoth (CreateIs (Names self.old.things.items contents)) old (replaced create_cmp plain stored.tables.creates)) }
        ensures takes { OnOk result (TakesRoom 0 1 0 1 self.old self.new) }
        ensures replaces { IfOk result (λ old. IsSome old → vec_len self.new.tables.creates ≡ vec_len self.old.tables.creates) }
        ensures room { OnErr result ((vec_capacity self.old.tables.creates ≤ vec_len self.old.tables.creates) ⊎ (18446744073709551614 ≤ self.old.names)) }
    {
        if self.names >= u64::MAX - 1 {
            return Err(OutOfMemory);
        }
        let named = row.input;
        let old = put_create_row(&mut self.tables.creates, row)?;
        self.name(Some(named), None);
        self.unname(input_of_old(&old), None);
        Ok(old)
    }

    /// Removes a create row, and gives it, where there is one.
    pub(crate) fn remove_create(&mut self, source: &RelPath) -> Option<CreateRow>
        requires { (contents : List (Option Entry)) × (stored : Stored) × StandsFor self.old contents stored }
        ensures lawful { (contents : List (Option Entry)) (stored : Stored) → StandsFor self.old contents stored → is_some result ≡ is_some (create_row_at stored.tables source.now) }
        ensures gives { (contents : List (Option Entry)) (stored : Stored) → StandsFor self.old contents stored
            → AreBoth (CreateIs (Names self.old.things.items contents)) result (create_row_at stored.tables source.now) }
        ensures takes { TakesRoom 0 0 0 0 self.old self.new }
        ensures frees { IsSome result → vec_len self.new.tables.creates + 1 ≡ vec_len self.old.tables.creates }
        ensures stands { (contents : List (Option Entry)) (stored : Stored) → StandsFor self.old contents stored
            → StandsFor self.new contents (with_tables stored (without_create stored.tables source.now)) }
        ensures numbers { SameNumbers self.old self.new × (self.new.defined ≡ self.old.defined) }
    {
        let old = take_create_row(&mut self.tables.creates, source);
        self.unname(input_of_old(&old), None);
        old
    }

    /// Puts a job's row, whose numbers are those of things of the file, and gives the row that it replaces.
    pub(crate) fn put_job(&mut self, row: JobRow) -> Result<Option<JobRow>, OutOfMemory>
        requires { (contents : List (Option Entry)) × (stored : Stored) × (plain : PlainJob) × StandsFor self.old contents stored × JobIs (Names self.old.things.items contents) row plain }
        ensures stands { OnOk result ((contents : List (Option Entry)) (stored : Stored) (plain : PlainJob) → StandsFor self.old contents stored → JobIs (Names self.old.things.items contents) row plain
            → StandsFor self.new contents (with_tables stored (with_job stored.tables plain))) }
        ensures numbers { OnOk result (SameNumbers self.old self.new × (self.new.defined ≡ self.old.defined)) }
        ensures gives { IfOk result (λ old. (contents : List (Option Entry)) (stored : Stored) (plain : PlainJob) → StandsFor self.old contents stored → JobIs (Names self.old.things.items contents) row plain
            → AreBoth (JobIs (Names self.old.things.items contents)) old (replaced job_row_cmp plain stored.tables.jobs)) }
        ensures takes { OnOk result (TakesRoom 0 0 1 2 self.old self.new) }
        ensures replaces { IfOk result (λ old. IsSome old → vec_len self.new.tables.jobs ≡ vec_len self.old.tables.jobs) }
        ensures room { OnErr result ((vec_capacity self.old.tables.jobs ≤ vec_len self.old.tables.jobs) ⊎ (18446744073709551614 ≤ self.old.names)) }
    {
        if self.names >= u64::MAX - 1 {
            return Err(OutOfMemory);
        }
        let (input, products) = numbers_of(&row);
        let old = put_job_row(&mut self.tables.jobs, row)?;
        self.name(input, products);
        let (input, products) = numbers_of_old(&old);
        self.unname(input, products);
        Ok(old)
    }

    /// Removes a job's row, and gives it, where there is one.
    pub(crate) fn remove_job(&mut self, id: &JobId) -> Option<JobRow>
        requires { (contents : List (Option Entry)) × (stored : Stored) × StandsFor self.old contents stored }
        ensures lawful { (contents : List (Option Entry)) (stored : Stored) → StandsFor self.old contents stored → is_some result ≡ is_some (job_row_at stored.tables id.now) }
        ensures gives { (contents : List (Option Entry)) (stored : Stored) → StandsFor self.old contents stored
            → AreBoth (JobIs (Names self.old.things.items contents)) result (job_row_at stored.tables id.now) }
        ensures takes { TakesRoom 0 0 0 0 self.old self.new }
        ensures frees { IsSome result → vec_len self.new.tables.jobs + 1 ≡ vec_len self.old.tables.jobs }
        ensures stands { (contents : List (Option Entry)) (stored : Stored) → StandsFor self.old contents stored
            → StandsFor self.new contents (with_tables stored (without_job stored.tables id.now)) }
        ensures numbers { SameNumbers self.old self.new × (self.new.defined ≡ self.old.defined) }
    {
        let old = take_job_row(&mut self.tables.jobs, id);
        let (input, products) = numbers_of_old(&old);
        self.unname(input, products);
        old
    }

    /// Puts these folder rows in the place of all others.
    pub(crate) fn put_folders(&mut self, rows: List<FolderRow>)
        ensures stands { (contents : List (Option Entry)) (stored : Stored) → StandsFor self.old contents stored
            → StandsFor self.new contents (with_tables stored (with_folders stored.tables rows)) }
        ensures numbers { SameNumbers self.old self.new × (self.new.defined ≡ self.old.defined) }
        ensures takes { TakesRoom 0 0 0 0 self.old self.new }
    {
        self.tables.folders = rows.into_vec();
    }

    /// Makes room for the thing of a number.
    pub(crate) fn grow(&mut self, m: Number) -> Result<(), OutOfMemory>
        ensures long { OnOk result (m.0 < length self.new.things.items) }
        ensures stands { (contents : List (Option Entry)) (stored : Stored) → StandsFor self.old contents stored → StandsFor self.new contents stored }
        ensures unchanged { OnErr result ((contents : List (Option Entry)) (stored : Stored) → StandsFor self.old contents stored → StandsFor self.new contents stored) }
        ensures numbers { SameNumbers self.old self.new × (self.new.defined ≡ self.old.defined) }
        ensures takes { TakesRoom 0 0 0 0 self.old self.new }
    {
        let Some(wanted) = m.0.checked_add(1) else {
            return Err(OutOfMemory);
        };
        if self.things.len() < wanted as usize {
            self.things.resize(wanted as usize, None)?;
        }
        Ok(())
    }

    /// Puts a thing of the file under a number, or none.
    pub(crate) fn set(&mut self, m: Number, thing: Option<FileThing>)
        requires { m.0 < length self.old.things.items }
        ensures here { file_thing self.new.things.items m ≡ thing }
        ensures others { (k : Number) → k ≢ m → file_thing self.new.things.items k ≡ file_thing self.old.things.items k }
        ensures kept { (self.new.tables ≡ self.old.tables) × (self.new.defined ≡ self.old.defined) × (self.new.names ≡ self.old.names) × (length self.new.things.items ≡ length self.old.things.items) }
    {
        set_thing(&mut self.things, m, thing);
    }

    /// Counts the names that a thing gives its kids, which come to this total.
    pub(crate) fn name_kids(&mut self, kids: &[Number], names: u64)
        requires { HaveRoom self.old.things.items (length kids.now) }
        ensures counts { (k : Number) → file_thing self.new.things.items k ≡ raised (times_of kids.now k) (file_thing self.old.things.items k) }
        ensures kept { (self.new.tables ≡ self.old.tables) × (self.new.defined ≡ self.old.defined) × (length self.new.things.items ≡ length self.old.things.items) }
        ensures names { self.new.names ≡ names }
    {
        raise_all(&mut self.things, kids);
        self.names = names;
    }

    /// The thing under this number becomes the next thing of the file. Its kids are things of the file.
    pub(crate) fn define(&mut self, contents: &Contents, m: Number) -> Result<(), OutOfMemory>
        requires room { m.0 < length self.old.things.items }
        requires new { (stored : Stored) × (x : Thing) × StandsFor self.old contents.now stored × IsNewThing self.old contents.now stored m x }
        ensures stands { OnOk result ((stored : Stored) (x : Thing) → StandsFor self.old contents.now stored → IsNewThing self.old contents.now stored m x
            → StandsFor self.new contents.now (and_thing stored x)) }
        ensures number { OnOk result (file_number self.new.things.items m ≡ Some (self.old.defined + 1)) }
        ensures takes { OnOk result (IfSome (node_at contents.now m) (λ node. TakesRoom 0 0 0 (length node.kids) self.old self.new)) }
        ensures others { OnOk result ((k : Number) → k ≢ m → file_number self.new.things.items k ≡ file_number self.old.things.items k) }
        ensures defined { OnOk result (self.new.defined ≡ self.old.defined + 1) }
        ensures unchanged { OnErr result (self.new ≡ self.old) }
        ensures room { OnErr result ((18446744073709551615 ≤ self.old.defined) ⊎ IfSome (node_at contents.now m) (λ node. 18446744073709551616 ≤ self.old.names + length node.kids)) }
    {
        let Some(node) = contents.get(m) else {
            return Err(OutOfMemory);
        };
        let kids = node.kids.as_slice();
        let Some(names) = self.names.checked_add(kids.len() as u64) else {
            return Err(OutOfMemory);
        };
        let Some(number) = self.defined.checked_add(1) else {
            return Err(OutOfMemory);
        };
        self.name_kids(kids, names);
        self.defined = number;
        self.set(m, Some(FileThing { number, named: 0 }));
        Ok(())
    }

    /// Takes away the names that a thing gives its kids.
    fn unname_kids(&mut self, contents: &Contents, m: Number)
        ensures counts { (node : Node) → node_at contents.now m ≡ Some node
            → (k : Number) → file_thing self.new.things.items k ≡ lowered (times_of node.kids k) (file_thing self.old.things.items k) }
        ensures names { (node : Node) → node_at contents.now m ≡ Some node → self.new.names ≡ self.old.names - length node.kids }
        ensures kept { (self.new.tables ≡ self.old.tables) × (self.new.defined ≡ self.old.defined) × (length self.new.things.items ≡ length self.old.things.items) }
        ensures numbers { SameNumbers self.old self.new }
    {
        if let Some(node) = contents.get(m) {
            let kids = node.kids.as_slice();
            lower_all(&mut self.things, kids);
            self.names = self.names.saturating_sub(kids.len() as u64);
        }
    }

    /// The thing under this number, which nothing names, is in the file no more.
    pub(crate) fn take_out(&mut self, contents: &Contents, m: Number)
        requires { (stored : Stored) × StandsFor self.old contents.now stored × IsUnnamed self.old m }
        ensures stands { (stored : Stored) (n : ℕ) → StandsFor self.old contents.now stored → file_number self.old.things.items m ≡ Some n
            → StandsFor self.new contents.now (and_no_thing stored n) }
        ensures number { file_number self.new.things.items m ≡ None }
        ensures others { (k : Number) → k ≢ m → file_number self.new.things.items k ≡ file_number self.old.things.items k }
        ensures kept { (self.new.tables ≡ self.old.tables) × (self.new.defined ≡ self.old.defined) × (length self.new.things.items ≡ length self.old.things.items) }
        ensures names { IfSome (node_at contents.now m) (λ node. self.new.names ≡ self.old.names - length node.kids) }
        ensures takes { TakesRoom 0 0 0 0 self.old self.new }
    {
        self.unname_kids(contents, m);
        self.set(m, None);
    }
}
