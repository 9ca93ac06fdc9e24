//! What the items of a change replaced or removed.
ghost use Rattle.std.specs.Prelude.{◌≡◌, ◌++◌, OnOk};
ghost use Rattle.std.specs.List.{flat_map};
ghost use Rattle.ap_db.specs.Naming.{both_of};
ghost use Rattle.ap_db.specs.Olds.{folders_in, source_in, create_in, job_in, numbers_in};

use crate::defines::push_some;
use crate::state::{content_of_old, input_of_old, numbers_of_old};
use ap_content::Number;
use ap_rows::{CreateRow, FolderRow, JobRow, SourceRow};
use ap_text::{List, OutOfMemory};

/// What an item replaced or removed: all folder rows, or the row of its key, where there was one.
#[derive(Drop)]
pub enum Old {
    Folders(List<FolderRow>),
    Source(Option<SourceRow>),
    Create(Option<CreateRow>),
    Job(Option<JobRow>),
    /// The item is of no table.
    Nothing,
}

impl Old {
    /// The folder rows, where it is these.
    pub(crate) fn into_folders(self) -> Option<List<FolderRow>>
        ensures { result ≡ folders_in self }
    {
        match self {
            Old::Folders(rows) => Some(rows),
            _ => None,
        }
    }

    /// The row of a source, where it is one.
    pub(crate) fn into_source(self) -> Option<SourceRow>
        ensures { result ≡ source_in self }
    {
        match self {
            Old::Source(row) => row,
            _ => None,
        }
    }

    /// The create row, where it is one.
    pub(crate) fn into_create(self) -> Option<CreateRow>
        ensures { result ≡ create_in self }
    {
        match self {
            Old::Create(row) => row,
            _ => None,
        }
    }

    /// The row of a job, where it is one.
    pub(crate) fn into_job(self) -> Option<JobRow>
        ensures { result ≡ job_in self }
    {
        match self {
            Old::Job(row) => row,
            _ => None,
        }
    }

    /// The numbers that the row names.
    fn numbers(&self) -> (Option<Number>, Option<Number>)
        ensures { both_of result.0 result.1 ≡ numbers_in self.now }
    {
        match self {
            Old::Source(row) => (content_of_old(row), None),
            Old::Create(row) => (input_of_old(row), None),
            Old::Job(row) => numbers_of_old(row),
            Old::Folders(_) | Old::Nothing => (None, None),
        }
    }
}

/// Adds the numbers that these rows named.
pub(crate) fn numbers_of_olds(olds: &[Old], candidates: &mut Vec<Number>) -> Result<(), OutOfMemory>
    ensures { OnOk result (candidates.new.items ≡ candidates.old.items ++ flat_map numbers_in olds.now) }
{
    let mut rest = olds;
    while let [old, after @ ..] = rest {
        let (a, b) = old.numbers();
        push_some(candidates, a)?;
        push_some(candidates, b)?;
        rest = after;
    }
    Ok(())
}
