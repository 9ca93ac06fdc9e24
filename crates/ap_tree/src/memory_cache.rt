ghost use Rattle.std.specs.Prelude.{◌≡◌, IsTrue, Some};
ghost use Rattle.ap_tree.specs.Files.{has_distinct_paths};

use crate::cache::{CacheDir, CacheFault};
use crate::calls::Calls;
use crate::sure_cache::SureMemoryCache;
use ap_text::{Bytes, Seen};
use std::alloc::Global;

/// A cache in memory whose listed calls fail: `list`, `read`, `write` and `remove` are numbered from 1. A call
/// that fails changes no file.
#[derive(Drop)]
pub struct MemoryCache {
    cache: SureMemoryCache,
    calls: Calls,
}

impl MemoryCache {
    /// A cache of these files, each a path and its bytes, and the numbers of the calls that fail. `are_distinct`
    /// tests what it asks for.
    pub fn of(files: Vec<(Bytes, Bytes)>, failing: Vec<u64>) -> Self
        requires { IsTrue (has_distinct_paths files.items) }
        ensures { ⟦<MemoryCache as CacheDir>⟧.files result ≡ Some files.items }
    {
        MemoryCache {
            cache: SureMemoryCache::of(files),
            calls: Calls::new(failing),
        }
    }

    /// The files that it holds.
    pub fn files(&self) -> &[(Bytes, Bytes)]
        ensures { ⟦<MemoryCache as CacheDir>⟧.files self.now ≡ Some result.now }
    {
        self.cache.files()
    }
}

impl CacheDir for MemoryCache {
    ghost files = { λ c. Some c.cache.files.items };

    ghost writes = { λ c. c.cache.writes };

    ghost faults = { λ c. c.calls.faults };

    ghost distinct = { λ c. c.cache.distinct };

    fn list(&mut self, alloc: Global) -> Result<Vec<Bytes>, CacheFault> {
        if self.calls.next_fails() {
            return Err(CacheFault::Failed);
        }
        self.cache.list(alloc)
    }

    fn read(&mut self, alloc: Global, path: &[u8]) -> Result<Seen, CacheFault> {
        if self.calls.next_fails() {
            return Err(CacheFault::Failed);
        }
        self.cache.read(alloc, path)
    }

    fn write(&mut self, alloc: Global, path: &[u8], bytes: &[u8]) -> Result<(), CacheFault> {
        if self.calls.next_fails() {
            return Err(CacheFault::Failed);
        }
        self.cache.write(alloc, path, bytes)
    }

    fn remove(&mut self, alloc: Global, path: &[u8]) -> Result<(), CacheFault> {
        if self.calls.next_fails() {
            return Err(CacheFault::Failed);
        }
        self.cache.remove(alloc, path)
    }

    fn writes(&self) -> u64 {
        self.cache.writes()
    }

    fn faults(&self) -> u64 {
        self.calls.faults()
    }
}
