ghost use Rattle.std.specs.Prelude.{◌≡◌, ◌+◌, ◌-◌, ◌^◌, ◌≤◌, min, Some, None};
ghost use Rattle.ap_tree.specs.declared.cache.CacheFault.TheVariants.{Failed};

use crate::cache::{CacheDir, CacheFault};
use crate::folder::{Fault, Folder};
use ap_system::Culprit;
use ap_text::{Bytes, OutOfMemory, Seen};
use std::alloc::Global;
use std::fs::Files;

/// The most bytes of a product.
const PRODUCT_LIMIT: u32 = 268_435_456;

/// The products in a real folder. Links are never followed, and a socket, a pipe or a device is no file.
///
/// A product is written whole into the file `.ap.new` of the folder, which then takes its name, unless the file that
/// stands there has its bytes. So no file that stood there is written: another name of it keeps its bytes, and who has
/// it open reads on. A file `.ap.new` that a stopped run left is listed, and is gone with the next one that is written.
#[derive(Drop)]
pub struct DirCache<R> {
    folder: Folder<R>,
    writes: u64,
    faults: u64,
}

impl<R: Files + AllocGlobal + Clone + Drop> DirCache<R> {
    /// The cache in a folder, which is no link, and which the first write makes where it is absent. Nothing is
    /// opened.
    pub fn new(rt: R, folder: &str) -> Result<Self, OutOfMemory> {
        Ok(DirCache {
            folder: Folder::new(rt, folder)?,
            writes: 0,
            faults: 0,
        })
    }

    /// The call that failed last, and its path.
    pub fn culprit(&self) -> Option<Culprit<'_>> {
        self.folder.culprit()
    }

    /// The fault that the caller is told, counted where it is one of the folder.
    fn counted(&mut self, fault: Fault) -> CacheFault
        ensures later { self.old.faults ≤ self.new.faults }
        ensures rose { result ≡ Failed → self.new.faults ≡ min (self.old.faults + 1) (2 ^ 64 - 1) }
        ensures writes { self.new.writes ≡ self.old.writes }
    {
        if self.folder.has_failed(fault) {
            self.faults = self.faults.saturating_add(1);
            return CacheFault::Failed;
        }
        CacheFault::OutOfMemory
    }
}

impl<R: Files + AllocGlobal + Clone + Drop> CacheDir for DirCache<R> {
    ghost files = { λ _. None };

    ghost writes = { λ c. c.writes };

    ghost faults = { λ c. c.faults };

    ghost distinct = { λ _. tt };

    fn list(&mut self, alloc: Global) -> Result<Vec<Bytes>, CacheFault> {
        match self.folder.list_all(alloc) {
            Ok(names) => Ok(names),
            Err(fault) => Err(self.counted(fault)),
        }
    }

    fn read(&mut self, alloc: Global, path: &[u8]) -> Result<Seen, CacheFault> {
        match self.folder.read(alloc, path, PRODUCT_LIMIT) {
            Ok(seen) => Ok(seen),
            Err(fault) => Err(self.counted(fault)),
        }
    }

    /// Makes the folders that the file stands in. A link, a folder or a device at its place, and a link or a file
    /// on the way, are faults. Where it fails the file is as before.
    fn write(&mut self, alloc: Global, path: &[u8], bytes: &[u8]) -> Result<(), CacheFault> {
        match self.folder.write(alloc, path, bytes) {
            Ok(()) => {
                self.writes = self.writes.saturating_add(1);
                Ok(())
            }
            Err(fault) => Err(self.counted(fault)),
        }
    }

    /// Removes each folder that is left empty, too. A link at the place or on the way stays.
    fn remove(&mut self, alloc: Global, path: &[u8]) -> Result<(), CacheFault> {
        match self.folder.remove(alloc, path) {
            Ok(()) => {
                self.writes = self.writes.saturating_add(1);
                Ok(())
            }
            Err(fault) => Err(self.counted(fault)),
        }
    }

    fn writes(&self) -> u64 {
        self.writes
    }

    fn faults(&self) -> u64 {
        self.faults
    }
}
