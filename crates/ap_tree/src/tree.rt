ghost use Rattle.std.specs.Prelude.{◌≡◌, ℕ, List, Option, IfOk, IfSome, IsTrue, IsPermutation};
ghost use Rattle.ap_text.specs.Causes.{HasCause};
ghost use Rattle.ap_tree.specs.Files.{names_below, content_at, seen_up_to, has_distinct_paths};
ghost use Rattle.ap_tree.specs.declared.tree.TreeFault.TheVariants.{Failed};

use ap_text::{Bytes, RelPath, Seen};
use std::alloc::Global;

/// Why a call of a tree has no answer.
#[derive(Clone, Copy, Debug, PartialEq, Eq)]
pub enum TreeFault {
    /// The tree failed, and its count of faults rose.
    Failed,
    OutOfMemory,
}

/// A project's source files.
pub trait Tree {
    /// The files by their paths from the project root, where the object tells them.
    ghost files: { Self → Option (List (List ℕ × List ℕ)) };

    /// How often the tree has failed, at most 2^64 - 1.
    ghost faults: { Self → ℕ };

    /// The names of all files below a folder, relative to it, each once and in any order. An absent folder
    /// has none. A tree that doesn't tell its files may leave out those of a folder in it whose names, whatever
    /// they are, all match a pattern of `exclude`, as `some_matches` has it.
    fn list(
        &mut self,
        alloc: Global,
        folder: &RelPath,
        exclude: &[Bytes],
    ) -> Result<Vec<Bytes>, TreeFault>
        ensures names { IfOk result (λ names. IfSome (files self.old) (λ all. IsPermutation (names_below folder.now all) names.items)) }
        ensures same { files self.new ≡ files self.old }
        ensures cause { HasCause Failed (faults self.old) (faults self.new) result };

    /// The file at a path from the project root: absent exactly where there is no such file, too large exactly
    /// above 4,194,304 bytes.
    fn read(&mut self, alloc: Global, path: &[u8]) -> Result<Seen, TreeFault>
        ensures seen { IfOk result (λ seen. IfSome (files self.old) (λ all. seen ≡ seen_up_to 4194304 (content_at all path.now))) }
        ensures same { files self.new ≡ files self.old }
        ensures cause { HasCause Failed (faults self.old) (faults self.new) result };

    fn faults(&self) -> u64
        ensures { result ≡ faults self.now };

    /// No path is told twice.
    ghost distinct: { (tree : Self) → IfSome (files tree) (λ all. IsTrue (has_distinct_paths all)) };
}
