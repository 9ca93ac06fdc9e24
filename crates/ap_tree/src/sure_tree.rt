ghost use Rattle.std.specs.Prelude.{◌≡◌, IsTrue, Option, Some, None};
ghost use Rattle.ap_tree.specs.Files.{has_distinct_paths};

use crate::lookup::{find_content, list_below};
use crate::tree::{Tree, TreeFault};
use ap_text::{Bytes, RelPath, Seen};
use std::alloc::Global;

/// The most bytes of a source file.
const SOURCE_LIMIT: usize = 4_194_304;

/// A tree in memory, which never fails.
#[derive(Drop)]
pub struct SureMemoryTree {
    files: Vec<(Bytes, Bytes)>,
    ghost distinct: { IsTrue (has_distinct_paths files.items) },
}

impl SureMemoryTree {
    /// A tree of these files, each a path and its bytes. `are_distinct` tests what it asks for.
    pub fn of(files: Vec<(Bytes, Bytes)>) -> Self
        requires { IsTrue (has_distinct_paths files.items) }
        ensures { ⟦<SureMemoryTree as Tree>⟧.files result ≡ Some files.items }
    {
        SureMemoryTree { files }
    }

    /// The files that it holds.
    pub fn files(&self) -> &[(Bytes, Bytes)]
        ensures { ⟦<SureMemoryTree as Tree>⟧.files self.now ≡ Some result.now }
    {
        &self.files
    }
}

impl Tree for SureMemoryTree {
    ghost files = { λ t. Some t.files.items };

    ghost faults = { λ _. 0 };

    ghost distinct = { λ t. t.distinct };

    fn list(
        &mut self,
        alloc: Global,
        folder: &RelPath,
        _exclude: &[Bytes],
    ) -> Result<Vec<Bytes>, TreeFault> {
        list_below(alloc, &self.files, folder.as_slice()).map_err(|_| TreeFault::OutOfMemory)
    }

    fn read(&mut self, alloc: Global, path: &[u8]) -> Result<Seen, TreeFault> {
        match find_content(&self.files, path) {
            None => Ok(Seen::Absent),
            Some(bytes) if bytes.as_slice().len() > SOURCE_LIMIT => Ok(Seen::TooLarge),
            Some(bytes) => match bytes.copy(alloc) {
                Ok(bytes) => Ok(Seen::Bytes(bytes)),
                Err(_) => Err(TreeFault::OutOfMemory),
            },
        }
    }

    fn faults(&self) -> u64 {
        0
    }
}
