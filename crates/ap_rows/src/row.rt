ghost use Rattle.std.specs.Prelude.{◌≡◌, IfOk};

use crate::job::Created;
use ap_content::Number;
use ap_text::{JobId, List, OutOfMemory, RelPath};
use std::alloc::Global;

/// A scan folder: its order and its path as it was written.
#[derive(Drop)]
pub struct FolderRow {
    pub order: u32,
    pub path: RelPath,
}

/// How a source was seen.
#[derive(Drop)]
pub enum SeenRow {
    /// With the bytes of this thing.
    Bytes(Number),
    TooLarge,
}

/// A source: its folded path, the order of the folder that it lies in, its path as it was written, and how
/// it was seen.
#[derive(Drop)]
pub struct SourceRow {
    pub path: RelPath,
    pub order: u32,
    pub name: RelPath,
    pub seen: SeenRow,
}

/// What the jobs of a source were created from, and what the creation came to.
#[derive(Drop)]
pub struct CreateRow {
    pub source: RelPath,
    pub input: Number,
    pub created: Created,
}

/// What processing a job came to.
#[derive(Drop)]
pub enum OutcomeRow {
    /// The products of this thing.
    Done(Number),
    /// The builder failed with this code.
    Failed(u32),
}

/// What became of a job.
#[derive(Drop)]
pub enum JobResult {
    Processed { input: Number, outcome: OutcomeRow },
    /// It depends on itself.
    Cycle,
    /// It depends on a job that isn't there.
    Missing(JobId),
    /// It depends on a job that has no products.
    DepFailed(JobId),
}

/// A job and what became of it.
#[derive(Drop)]
pub struct JobRow {
    pub id: JobId,
    pub result: JobResult,
}

/// All rows: folders by their order, sources and creates by their path, jobs by their id.
#[derive(Drop)]
pub struct Tables {
    pub folders: Vec<FolderRow>,
    pub sources: Vec<SourceRow>,
    pub creates: Vec<CreateRow>,
    pub jobs: Vec<JobRow>,
}

impl FolderRow {
    pub fn copy(&self, alloc: Global) -> Result<Self, OutOfMemory>
        ensures { IfOk result (λ copy. copy ≡ self.now) }
    {
        Ok(FolderRow {
            order: self.order,
            path: self.path.copy(alloc)?,
        })
    }
}

/// Copies of folder rows.
pub fn copy_folders(alloc: Global, rows: &[FolderRow]) -> Result<List<FolderRow>, OutOfMemory>
    ensures { IfOk result (λ copy. copy ≡ rows.now) }
{
    let mut copies = Vec::with_capacity(alloc, rows.len())?;
    for row in rows {
        copies.push(row.copy(alloc)?)?;
    }
    Ok(List::of(copies))
}

impl SeenRow {
    pub fn copy(&self) -> Self
        ensures { result ≡ self.now }
    {
        match self {
            SeenRow::Bytes(n) => SeenRow::Bytes(*n),
            SeenRow::TooLarge => SeenRow::TooLarge,
        }
    }
}

impl SourceRow {
    pub fn copy(&self, alloc: Global) -> Result<Self, OutOfMemory>
        ensures { IfOk result (λ copy. copy ≡ self.now) }
    {
        Ok(SourceRow {
            path: self.path.copy(alloc)?,
            order: self.order,
            name: self.name.copy(alloc)?,
            seen: self.seen.copy(),
        })
    }
}

impl CreateRow {
    pub fn copy(&self, alloc: Global) -> Result<Self, OutOfMemory>
        ensures { IfOk result (λ copy. copy ≡ self.now) }
    {
        Ok(CreateRow {
            source: self.source.copy(alloc)?,
            input: self.input,
            created: self.created.copy(alloc)?,
        })
    }
}

impl OutcomeRow {
    pub fn copy(&self) -> Self
        ensures { result ≡ self.now }
    {
        match self {
            OutcomeRow::Done(n) => OutcomeRow::Done(*n),
            OutcomeRow::Failed(code) => OutcomeRow::Failed(*code),
        }
    }
}

impl JobResult {
    pub fn copy(&self, alloc: Global) -> Result<Self, OutOfMemory>
        ensures { IfOk result (λ copy. copy ≡ self.now) }
    {
        match self {
            JobResult::Processed { input, outcome } => Ok(JobResult::Processed {
                input: *input,
                outcome: outcome.copy(),
            }),
            JobResult::Cycle => Ok(JobResult::Cycle),
            JobResult::Missing(job) => Ok(JobResult::Missing(job.copy(alloc)?)),
            JobResult::DepFailed(job) => Ok(JobResult::DepFailed(job.copy(alloc)?)),
        }
    }
}

impl JobRow {
    pub fn copy(&self, alloc: Global) -> Result<Self, OutOfMemory>
        ensures { IfOk result (λ copy. copy ≡ self.now) }
    {
        Ok(JobRow {
            id: self.id.copy(alloc)?,
            result: self.result.copy(alloc)?,
        })
    }
}
