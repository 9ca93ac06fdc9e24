ghost use Rattle.std.specs.Prelude.{◌≡◌, ◌+◌, ◌-◌, ◌^◌, ◌≤◌, min, Some, None};
ghost use Rattle.ap_tree.specs.declared.tree.TreeFault.TheVariants.{Failed};

use crate::folder::{Fault, Folder};
use crate::tree::{Tree, TreeFault};
use ap_system::Culprit;
use ap_text::{Bytes, OutOfMemory, RelPath, Seen};
use std::alloc::Global;
use std::fs::Files;
use std::str;

/// The most bytes of a source file.
const SOURCE_LIMIT: u32 = 4_194_304;

/// The source files in a real folder. Links are never followed, and a socket, a pipe or a device is no file.
#[derive(Drop)]
pub struct DirTree<R> {
    folder: Folder<R>,
    faults: u64,
    /// The first file that was too large to be read.
    too_large: Option<String>,
}

impl<R: Files + AllocGlobal + Clone + Drop> DirTree<R> {
    /// The tree in a folder, which need not be there, and is no link. Nothing is opened.
    pub fn new(rt: R, folder: &str) -> Result<Self, OutOfMemory> {
        Ok(DirTree {
            folder: Folder::new(rt, folder)?,
            faults: 0,
            too_large: None,
        })
    }

    /// The call that failed last, and its path.
    pub fn culprit(&self) -> Option<Culprit<'_>> {
        self.folder.culprit()
    }

    /// The path of the first file that was too large to be read.
    pub fn too_large(&self) -> Option<&str> {
        match &self.too_large {
            Some(path) => Some(path.as_str()),
            None => None,
        }
    }

    /// The fault that the caller is told, counted where it is one of the folder.
    fn counted(&mut self, fault: Fault) -> TreeFault
        ensures later { self.old.faults ≤ self.new.faults }
        ensures rose { result ≡ Failed → self.new.faults ≡ min (self.old.faults + 1) (2 ^ 64 - 1) }
    {
        if self.folder.has_failed(fault) {
            self.faults = self.faults.saturating_add(1);
            return TreeFault::Failed;
        }
        TreeFault::OutOfMemory
    }

    /// Keeps the path of the first file that is too large.
    fn note_too_large(&mut self, alloc: Global, path: &[u8])
        ensures { self.new.faults ≡ self.old.faults }
    {
        if self.too_large.is_none() {
            let path = str::from_utf8(path).unwrap_or("");
            self.too_large = String::from_str(alloc, path).ok();
        }
    }
}

impl<R: Files + AllocGlobal + Clone + Drop> Tree for DirTree<R> {
    ghost files = { λ _. None };

    ghost faults = { λ t. t.faults };

    ghost distinct = { λ _. tt };

    /// A name that isn't UTF-8, a folder that can't be read, and a folder whose path has more than 4,096 bytes are
    /// faults, but not in a folder all of whose files are excluded, which isn't looked into.
    fn list(
        &mut self,
        alloc: Global,
        folder: &RelPath,
        exclude: &[Bytes],
    ) -> Result<Vec<Bytes>, TreeFault> {
        match self.folder.list(alloc, folder.as_str(), exclude) {
            Ok(names) => Ok(names),
            Err(fault) => Err(self.counted(fault)),
        }
    }

    /// A folder, a link and what is reached through one are absent.
    fn read(&mut self, alloc: Global, path: &[u8]) -> Result<Seen, TreeFault> {
        match self.folder.read(alloc, path, SOURCE_LIMIT) {
            Ok(Seen::TooLarge) => {
                self.note_too_large(alloc, path);
                Ok(Seen::TooLarge)
            }
            Ok(seen) => Ok(seen),
            Err(fault) => Err(self.counted(fault)),
        }
    }

    fn faults(&self) -> u64 {
        self.faults
    }
}
