ghost use Rattle.std.specs.Prelude.{◌≡◌, IsTrue, Some};
ghost use Rattle.ap_tree.specs.Files.{has_distinct_paths};

use crate::calls::Calls;
use crate::sure_tree::SureMemoryTree;
use crate::tree::{Tree, TreeFault};
use ap_text::{Bytes, RelPath, Seen};
use std::alloc::Global;

/// A tree in memory whose listed calls fail: `list` and `read` are numbered from 1.
#[derive(Drop)]
pub struct MemoryTree {
    tree: SureMemoryTree,
    calls: Calls,
}

impl MemoryTree {
    /// A tree of these files, each a path and its bytes, and the numbers of the calls that fail. `are_distinct`
    /// tests what it asks for.
    pub fn of(files: Vec<(Bytes, Bytes)>, failing: Vec<u64>) -> Self
        requires { IsTrue (has_distinct_paths files.items) }
        ensures { ⟦<MemoryTree as Tree>⟧.files result ≡ Some files.items }
    {
        MemoryTree {
            tree: SureMemoryTree::of(files),
            calls: Calls::new(failing),
        }
    }

    /// The files that it holds.
    pub fn files(&self) -> &[(Bytes, Bytes)]
        ensures { ⟦<MemoryTree as Tree>⟧.files self.now ≡ Some result.now }
    {
        self.tree.files()
    }
}

impl Tree for MemoryTree {
    ghost files = { λ t. Some t.tree.files.items };

    ghost faults = { λ t. t.calls.faults };

    ghost distinct = { λ t. t.tree.distinct };

    fn list(
        &mut self,
        alloc: Global,
        folder: &RelPath,
        exclude: &[Bytes],
    ) -> Result<Vec<Bytes>, TreeFault> {
        if self.calls.next_fails() {
            return Err(TreeFault::Failed);
        }
        self.tree.list(alloc, folder, exclude)
    }

    fn read(&mut self, alloc: Global, path: &[u8]) -> Result<Seen, TreeFault> {
        if self.calls.next_fails() {
            return Err(TreeFault::Failed);
        }
        self.tree.read(alloc, path)
    }

    fn faults(&self) -> u64 {
        self.calls.faults()
    }
}
