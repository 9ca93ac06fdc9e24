ghost use Rattle.std.specs.Prelude.{◌≡◌, IfOk};

use ap_text::{JobId, Name, OutOfMemory, RelPath};
use std::alloc::Global;

/// A piece of work that a builder may be asked for.
#[derive(Drop)]
pub enum Entry {
    /// To create the jobs of the source of this folded path.
    Create { source: RelPath, builder: Name },
    /// To process the job of this id.
    Process(JobId),
}

impl Entry {
    pub fn copy(&self, alloc: Global) -> Result<Self, OutOfMemory>
        ensures { IfOk result (λ copy. copy ≡ self.now) }
    {
        match self {
            Entry::Create { source, builder } => Ok(Entry::Create {
                source: source.copy(alloc)?,
                builder: builder.copy(alloc)?,
            }),
            Entry::Process(job) => Ok(Entry::Process(job.copy(alloc)?)),
        }
    }
}
