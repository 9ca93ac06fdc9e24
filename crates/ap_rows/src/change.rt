ghost use Rattle.std.specs.Prelude.{◌≡◌, IfOk};

use crate::row::{CreateRow, FolderRow, JobRow, SourceRow, copy_folders};
use ap_content::Number;
use ap_text::{Bytes, JobId, List, OutOfMemory, RelPath};
use std::alloc::Global;

/// One step of a change. A put replaces the row with the same key.
#[derive(Drop)]
pub enum Item {
    /// A thing with this tag, this text and these kids gets the next number of the file.
    Define {
        tag: u8,
        text: Bytes,
        kids: List<Number>,
    },
    /// The thing of this number is in the file no more.
    Drop(Number),
    PutSource(SourceRow),
    RemoveSource(RelPath),
    PutCreate(CreateRow),
    RemoveCreate(RelPath),
    PutJob(JobRow),
    RemoveJob(JobId),
    /// These are all folder rows.
    PutFolders(List<FolderRow>),
}

/// What one commit makes of the tables. Where a change is spelled or read its numbers are those of the
/// file, from 1 on in the order of its `Define` items; elsewhere they are those of the contents.
#[derive(Drop)]
pub struct Change {
    pub items: List<Item>,
}

impl Item {
    pub fn copy(&self, alloc: Global) -> Result<Self, OutOfMemory>
        ensures { IfOk result (λ copy. copy ≡ self.now) }
    {
        match self {
            Item::Define { tag, text, kids } => Ok(Item::Define {
                tag: *tag,
                text: text.copy(alloc)?,
                kids: List::of(kids.as_slice().to_vec(alloc)?),
            }),
            Item::Drop(n) => Ok(Item::Drop(*n)),
            Item::PutSource(row) => Ok(Item::PutSource(row.copy(alloc)?)),
            Item::RemoveSource(path) => Ok(Item::RemoveSource(path.copy(alloc)?)),
            Item::PutCreate(row) => Ok(Item::PutCreate(row.copy(alloc)?)),
            Item::RemoveCreate(path) => Ok(Item::RemoveCreate(path.copy(alloc)?)),
            Item::PutJob(row) => Ok(Item::PutJob(row.copy(alloc)?)),
            Item::RemoveJob(id) => Ok(Item::RemoveJob(id.copy(alloc)?)),
            Item::PutFolders(rows) => Ok(Item::PutFolders(copy_folders(alloc, rows.as_slice())?)),
        }
    }
}
