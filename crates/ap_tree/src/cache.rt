ghost use Rattle.std.specs.Prelude.{◌≡◌, ◌+◌, ◌-◌, ◌^◌, min, ℕ, List, Option, Some, None, IfOk, OnOk, OnErr, IfSome, IsErrOf, IsTrue, IsPermutation};
ghost use Rattle.ap_text.specs.Causes.{HasCause};
ghost use Rattle.ap_tree.specs.Files.{paths, content_at, seen_up_to, has_distinct_paths};
ghost use Rattle.ap_tree.specs.Changes.{TellsAs, Puts, KeepsOthers, KeepsOrLoses, SameFiles};
ghost use Rattle.ap_tree.specs.declared.cache.CacheFault.TheVariants.{Failed, OutOfMemory};

use ap_text::{Bytes, Seen};
use std::alloc::Global;

/// Why a call of a cache has no answer.
#[derive(Clone, Copy, Debug, PartialEq, Eq)]
pub enum CacheFault {
    /// The cache failed, and its count of faults rose.
    Failed,
    /// There was no memory; all files are as before.
    OutOfMemory,
}

/// The folder of products.
pub trait CacheDir {
    /// The files by their paths, where the object tells them.
    ghost files: { Self → Option (List (List ℕ × List ℕ)) };

    /// How many writes and removals have succeeded, at most 2^64 - 1.
    ghost writes: { Self → ℕ };

    /// How often the cache has failed, at most 2^64 - 1.
    ghost faults: { Self → ℕ };

    /// The paths of all files, each once and in any order.
    fn list(&mut self, alloc: Global) -> Result<Vec<Bytes>, CacheFault>
        ensures names { IfOk result (λ names. IfSome (files self.old) (λ all. IsPermutation (paths all) names.items)) }
        ensures same { files self.new ≡ files self.old }
        ensures writes { writes self.new ≡ writes self.old }
        ensures cause { HasCause Failed (faults self.old) (faults self.new) result };

    /// The file at a path: absent exactly where there is no such file, too large exactly above 268,435,456
    /// bytes.
    fn read(&mut self, alloc: Global, path: &[u8]) -> Result<Seen, CacheFault>
        ensures seen { IfOk result (λ seen. IfSome (files self.old) (λ all. seen ≡ seen_up_to 268435456 (content_at all path.now))) }
        ensures same { files self.new ≡ files self.old }
        ensures writes { writes self.new ≡ writes self.old }
        ensures cause { HasCause Failed (faults self.old) (faults self.new) result };

    /// Makes or replaces one file. Where it fails, that file is absent, as before, or has any bytes.
    fn write(&mut self, alloc: Global, path: &[u8], bytes: &[u8]) -> Result<(), CacheFault>
        ensures written { OnOk result (TellsAs (files self.old) (files self.new) (λ old new. Puts old new path.now (Some bytes.now))) }
        ensures others { TellsAs (files self.old) (files self.new) (λ old new. KeepsOthers old new path.now) }
        ensures refused { IsErrOf result OutOfMemory → TellsAs (files self.old) (files self.new) SameFiles }
        ensures counted { OnOk result (writes self.new ≡ min (writes self.old + 1) (2 ^ 64 - 1)) }
        ensures uncounted { OnErr result (writes self.new ≡ writes self.old) }
        ensures cause { HasCause Failed (faults self.old) (faults self.new) result };

    /// Removes one file, and has nothing to do where it is absent. Where it fails, that file is as before or
    /// absent.
    fn remove(&mut self, alloc: Global, path: &[u8]) -> Result<(), CacheFault>
        ensures removed { OnOk result (TellsAs (files self.old) (files self.new) (λ old new. Puts old new path.now None)) }
        ensures others { TellsAs (files self.old) (files self.new) (λ old new. KeepsOrLoses old new path.now) }
        ensures refused { IsErrOf result OutOfMemory → TellsAs (files self.old) (files self.new) SameFiles }
        ensures counted { OnOk result (writes self.new ≡ min (writes self.old + 1) (2 ^ 64 - 1)) }
        ensures uncounted { OnErr result (writes self.new ≡ writes self.old) }
        ensures cause { HasCause Failed (faults self.old) (faults self.new) result };

    fn writes(&self) -> u64
        ensures { result ≡ writes self.now };

    fn faults(&self) -> u64
        ensures { result ≡ faults self.now };

    /// No path is told twice.
    ghost distinct: { (cache : Self) → IfSome (files cache) (λ all. IsTrue (has_distinct_paths all)) };
}
