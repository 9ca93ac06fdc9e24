ghost use Rattle.std.specs.Prelude.{◌≡◌, ◌+◌, ◌-◌, ◌^◌, min, ◌≤◌, IsTrue, true, Option, Some, None, OnOk, OnErr, length};
ghost use Rattle.ap_tree.specs.Files.{has_distinct_paths};

use crate::cache::{CacheDir, CacheFault};
use crate::edits::{drop_file, put_file};
use crate::lookup::{all_paths, find_content};
use ap_text::{Bytes, Seen};
use std::alloc::Global;

/// The most bytes of a product.
const PRODUCT_LIMIT: usize = 268_435_456;

/// A cache in memory, which never fails.
#[derive(Drop)]
pub struct SureMemoryCache {
    files: Vec<(Bytes, Bytes)>,
    writes: u64,
    ghost distinct: { IsTrue (has_distinct_paths files.items) },
}

impl SureMemoryCache {
    /// A cache of these files, each a path and its bytes. `are_distinct` tests what it asks for.
    pub fn of(files: Vec<(Bytes, Bytes)>) -> Self
        requires { IsTrue (has_distinct_paths files.items) }
        ensures { ⟦<SureMemoryCache as CacheDir>⟧.files result ≡ Some files.items }
    {
        SureMemoryCache { files, writes: 0 }
    }

    /// The files that it holds.
    pub fn files(&self) -> &[(Bytes, Bytes)]
        ensures { ⟦<SureMemoryCache as CacheDir>⟧.files self.now ≡ Some result.now }
    {
        &self.files
    }
}

impl CacheDir for SureMemoryCache {
    ghost files = { λ c. Some c.files.items };

    ghost writes = { λ c. c.writes };

    ghost faults = { λ _. 0 };

    ghost distinct = { λ c. c.distinct };

    fn list(&mut self, alloc: Global) -> Result<Vec<Bytes>, CacheFault> {
        all_paths(alloc, &self.files).map_err(|_| CacheFault::OutOfMemory)
    }

    fn read(&mut self, alloc: Global, path: &[u8]) -> Result<Seen, CacheFault> {
        match find_content(&self.files, path) {
            None => Ok(Seen::Absent),
            Some(bytes) if bytes.as_slice().len() > PRODUCT_LIMIT => Ok(Seen::TooLarge),
            Some(bytes) => match bytes.copy(alloc) {
                Ok(bytes) => Ok(Seen::Bytes(bytes)),
                Err(_) => Err(CacheFault::OutOfMemory),
            },
        }
    }

    fn write(&mut self, alloc: Global, path: &[u8], bytes: &[u8]) -> Result<(), CacheFault> {
        match put_file(alloc, &mut self.files, path, bytes) {
            Ok(()) => {
                self.writes = self.writes.saturating_add(1);
                Ok(())
            }
            Err(_) => Err(CacheFault::OutOfMemory),
        }
    }

    fn remove(&mut self, _alloc: Global, path: &[u8]) -> Result<(), CacheFault> {
        drop_file(&mut self.files, path);
        self.writes = self.writes.saturating_add(1);
        Ok(())
    }

    fn writes(&self) -> u64 {
        self.writes
    }

    fn faults(&self) -> u64 {
        0
    }
}
