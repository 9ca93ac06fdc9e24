//! How many bytes spell a change.
ghost use Rattle.std.specs.Prelude.{◌≡◌, ◌≤◌, ◌+◌, length, min};
ghost use Rattle.std.specs.List.{flat_map};
ghost use Rattle.ap_rows.specs.Fields.{list_field, path_field, name_field, job_field};
ghost use Rattle.ap_rows.specs.Spelling.{terms_field, seen_field, created_field, outcome_field, result_field, source_field, create_field, job_row_field, spelled};

use crate::change::{Change, Item};
use crate::job::{Created, DependencyRow, JobDesc};
use crate::row::{CreateRow, FolderRow, JobResult, JobRow, OutcomeRow, SeenRow, SourceRow};
use ap_content::Number;
use ap_text::{JobId, Name, Platform, RelPath};

/// What is spelled in some number of bytes.
trait Measure {
    ghost use Rattle.std.specs.Prelude.{List, ℕ};

    // The bytes that spell it.
    ghost spelling: { Self → List ℕ };

    /// The number of these bytes; 18446744073709551615 where they are more.
    fn size(&self) -> u64
        ensures { result ≡ min (length (spelling self.now)) 18446744073709551615 };
}

fn size_of_each<X: Measure>(items: &[X]) -> u64
    ensures { result ≡ min (length (flat_map X.spelling items.now)) 18446744073709551615 }
{
    let mut size: u64 = 0;
    for item in items {
        size = size.saturating_add(item.size());
    }
    size
}

fn size_of_list<X: Measure>(items: &[X]) -> u64
    ensures { result ≡ min (length (list_field 4 X.spelling items.now)) 18446744073709551615 }
{
    size_of_each(items).saturating_add(4)
}

fn path_size(path: &RelPath) -> u64
    ensures exact { result ≡ length (path_field path.now) }
    ensures small { result ≤ 242 }
{
    path.as_slice().len() as u64 + 2
}

fn name_size(name: &Name) -> u64
    ensures exact { result ≡ length (name_field name.now) }
    ensures small { result ≤ 33 }
{
    name.as_slice().len() as u64 + 1
}

fn platform_size(platform: &Platform) -> u64
    ensures exact { result ≡ length (name_field platform.now) }
    ensures small { result ≤ 17 }
{
    platform.as_slice().len() as u64 + 1
}

fn job_size(job: &JobId) -> u64
    ensures exact { result ≡ length (job_field job.now) }
    ensures small { result ≤ 292 }
{
    path_size(&job.source) + name_size(&job.key) + platform_size(&job.platform)
}

impl Measure for Number {
    ghost use Rattle.ap_rows.specs.Spelling.{thing_field};

    ghost spelling = { thing_field };

    fn size(&self) -> u64 {
        8
    }
}

impl Measure for DependencyRow {
    ghost use Rattle.ap_rows.specs.Spelling.{dependency_field};

    ghost spelling = { dependency_field };

    fn size(&self) -> u64 {
        job_size(&self.job) + 1
    }
}

fn terms_size(job: &JobDesc) -> u64
    ensures exact { result ≡ length (terms_field job.now) }
    ensures small { result ≤ 91 }
{
    name_size(&job.builder) + platform_size(&job.platform) + name_size(&job.key) + 8
}

impl Measure for JobDesc {
    ghost use Rattle.ap_rows.specs.Spelling.{desc_field};

    ghost spelling = { desc_field };

    fn size(&self) -> u64 {
        let own = terms_size(self) + self.params.as_slice().len() as u64 + 4;
        own.saturating_add(size_of_list(self.deps.as_slice()))
    }
}

impl Measure for FolderRow {
    ghost use Rattle.ap_rows.specs.Spelling.{folder_field};

    ghost spelling = { folder_field };

    fn size(&self) -> u64 {
        path_size(&self.path) + 4
    }
}

fn seen_size(seen: &SeenRow) -> u64
    ensures exact { result ≡ length (seen_field seen.now) }
    ensures small { result ≤ 9 }
{
    match seen {
        SeenRow::Bytes(_) => 9,
        SeenRow::TooLarge => 1,
    }
}

fn created_size(created: &Created) -> u64
    ensures { result ≡ min (length (created_field created.now)) 18446744073709551615 }
{
    match created {
        Created::Jobs(jobs) => size_of_list(jobs.as_slice()).saturating_add(1),
        Created::Builder { builder, code: _ } => name_size(builder) + 5,
        Created::DuplicateKey { key, platform } => name_size(key) + platform_size(platform) + 1,
        Created::TooLarge => 1,
    }
}

fn outcome_size(outcome: &OutcomeRow) -> u64
    ensures exact { result ≡ length (outcome_field outcome.now) }
    ensures small { result ≤ 9 }
{
    match outcome {
        OutcomeRow::Done(_) => 9,
        OutcomeRow::Failed(_) => 5,
    }
}

fn result_size(became: &JobResult) -> u64
    ensures exact { result ≡ length (result_field became.now) }
    ensures small { result ≤ 293 }
{
    match became {
        JobResult::Processed { input: _, outcome } => outcome_size(outcome) + 9,
        JobResult::Cycle => 1,
        JobResult::Missing(job) => job_size(job) + 1,
        JobResult::DepFailed(job) => job_size(job) + 1,
    }
}

fn source_size(row: &SourceRow) -> u64
    ensures exact { result ≡ length (source_field row.now) }
    ensures small { result ≤ 497 }
{
    path_size(&row.path) + path_size(&row.name) + seen_size(&row.seen) + 4
}

fn create_size(row: &CreateRow) -> u64
    ensures { result ≡ min (length (create_field row.now)) 18446744073709551615 }
{
    let own = path_size(&row.source) + 8;
    own.saturating_add(created_size(&row.created))
}

fn job_row_size(row: &JobRow) -> u64
    ensures exact { result ≡ length (job_row_field row.now) }
    ensures small { result ≤ 585 }
{
    job_size(&row.id) + result_size(&row.result)
}

impl Measure for Item {
    ghost use Rattle.ap_rows.specs.Spelling.{item_field};

    ghost spelling = { item_field };

    fn size(&self) -> u64 {
        match self {
            Item::Define { tag: _, text, kids } => {
                let own = text.as_slice().len() as u64 + 6;
                own.saturating_add(size_of_list(kids.as_slice()))
            }
            Item::Drop(_) => 9,
            Item::PutSource(row) => source_size(row) + 1,
            Item::RemoveSource(path) => path_size(path) + 1,
            Item::PutCreate(row) => create_size(row).saturating_add(1),
            Item::RemoveCreate(path) => path_size(path) + 1,
            Item::PutJob(row) => job_row_size(row) + 1,
            Item::RemoveJob(id) => job_size(id) + 1,
            Item::PutFolders(rows) => size_of_list(rows.as_slice()).saturating_add(1),
        }
    }
}

/// How many bytes spell the change; 18446744073709551615 where they are more. It costs one step for each
/// field, and takes no memory.
pub fn spelled_length(change: &Change) -> u64
    ensures { result ≡ min (length (spelled change.now.items)) 18446744073709551615 }
{
    size_of_each(change.items.as_slice())
}
