ghost use Rattle.std.specs.Prelude.{◌≡◌, IfOk};

use ap_text::{Bytes, JobId, List, Name, OutOfMemory, Platform};
use std::alloc::Global;

/// How a job depends on another one.
#[derive(Clone, Copy, Debug, PartialEq, Eq)]
pub enum DepKind {
    /// It waits, gets the other job's products, and runs again where these differ.
    Order,
    /// It waits only until it was processed once, and gets nothing.
    OrderOnce,
    /// It waits, gets the other job's input and products, and runs again where one of them differs.
    Fingerprint,
}

/// A dependency of a job on the job of this id.
#[derive(Drop)]
pub struct DependencyRow {
    pub kind: DepKind,
    pub job: JobId,
}

/// A job, as the builder that created it describes it. A greater priority is issued first.
#[derive(Drop)]
pub struct JobDesc {
    pub builder: Name,
    pub version: u32,
    pub platform: Platform,
    pub key: Name,
    pub priority: i32,
    pub params: Bytes,
    pub deps: List<DependencyRow>,
}

/// What the creation of a source's jobs came to.
#[derive(Drop)]
pub enum Created {
    Jobs(List<JobDesc>),
    /// This builder failed with this code.
    Builder { builder: Name, code: u32 },
    /// Two jobs had this key and this platform.
    DuplicateKey { key: Name, platform: Platform },
    /// The source is larger than what is read.
    TooLarge,
}

impl DependencyRow {
    pub fn copy(&self, alloc: Global) -> Result<Self, OutOfMemory>
        ensures { IfOk result (λ copy. copy ≡ self.now) }
    {
        Ok(DependencyRow {
            kind: self.kind,
            job: self.job.copy(alloc)?,
        })
    }
}

/// Copies of dependencies.
fn copy_deps(alloc: Global, deps: &[DependencyRow]) -> Result<List<DependencyRow>, OutOfMemory>
    ensures { IfOk result (λ copy. copy ≡ deps.now) }
{
    let mut copies = Vec::with_capacity(alloc, deps.len())?;
    for dep in deps {
        copies.push(dep.copy(alloc)?)?;
    }
    Ok(List::of(copies))
}

impl JobDesc {
    pub fn copy(&self, alloc: Global) -> Result<Self, OutOfMemory>
        ensures { IfOk result (λ copy. copy ≡ self.now) }
    {
        Ok(JobDesc {
            builder: self.builder.copy(alloc)?,
            version: self.version,
            platform: self.platform.copy(alloc)?,
            key: self.key.copy(alloc)?,
            priority: self.priority,
            params: self.params.copy(alloc)?,
            deps: copy_deps(alloc, self.deps.as_slice())?,
        })
    }
}

/// Copies of jobs.
fn copy_jobs(alloc: Global, jobs: &[JobDesc]) -> Result<List<JobDesc>, OutOfMemory>
    ensures { IfOk result (λ copy. copy ≡ jobs.now) }
{
    let mut copies = Vec::with_capacity(alloc, jobs.len())?;
    for job in jobs {
        copies.push(job.copy(alloc)?)?;
    }
    Ok(List::of(copies))
}

impl Created {
    pub fn copy(&self, alloc: Global) -> Result<Self, OutOfMemory>
        ensures { IfOk result (λ copy. copy ≡ self.now) }
    {
        match self {
            Created::Jobs(jobs) => Ok(Created::Jobs(copy_jobs(alloc, jobs.as_slice())?)),
            Created::Builder { builder, code } => Ok(Created::Builder {
                builder: builder.copy(alloc)?,
                code: *code,
            }),
            Created::DuplicateKey { key, platform } => Ok(Created::DuplicateKey {
                key: key.copy(alloc)?,
                platform: platform.copy(alloc)?,
            }),
            Created::TooLarge => Ok(Created::TooLarge),
        }
    }
}
