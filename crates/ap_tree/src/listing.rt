//! The files below a real folder, by the bytes of their names.

use crate::folder::Fault;
use ap_system::{Failure, Stands, is_absent, look};
use ap_text::{Bytes, some_matches};
use std::alloc::Global;
use std::fs::Files;
use std::io::{ErrorKind, Read};
use std::{slice, str};

/// The most bytes of the path of a folder that is listed.
const FOLDER_PATH_LIMIT: usize = 4096;

/// How many bytes of names are read at once.
const NAMES: usize = 8192;

/// The paths of all files below a folder, relative to it; its path has a slash at the end. A folder in it all of whose
/// files are excluded isn't looked into, and elsewhere a name that isn't UTF-8 is a failure.
pub(crate) fn list_below<R: Files>(
    rt: &R,
    alloc: Global,
    top: String,
    exclude: &[Bytes],
) -> Result<Vec<Bytes>, Fault> {
    let top_len = top.len();
    let mut walk = Walk {
        rt,
        alloc,
        top_len,
        names: Vec::new(alloc),
        folders: Vec::new(alloc),
    };
    walk.folders.push(top)?;
    for _ in 0..u64::MAX {
        let Some(folder) = walk.folders.pop() else {
            return Ok(walk.names);
        };
        walk.add_folder(folder, exclude)?;
    }
    Ok(walk.names)
}

/// A walk below a folder.
#[derive(Drop)]
struct Walk<'a, R> {
    rt: &'a R,
    alloc: Global,
    /// How many bytes of a path are the folder's own.
    top_len: usize,
    /// The files that were found.
    names: Vec<Bytes>,
    /// The folders that are to be listed, each with a slash at the end.
    folders: Vec<String>,
}

impl<'a, R: Files> Walk<'a, R> {
    /// Adds a folder's files, and its folders to those that are to be listed.
    fn add_folder(&mut self, folder: String, exclude: &[Bytes]) -> Result<(), Fault> {
        let below = folder.get(self.top_len..).unwrap_or("");
        if !below.is_empty() && exclude.iter().any(|pattern| excludes_below(pattern, below)) {
            return Ok(());
        }
        if folder.len() > FOLDER_PATH_LIMIT {
            let failure = Failure::refused("list", "the path has more than 4096 bytes");
            return Err(Fault::Failed(folder, failure));
        }
        let mut names = match self.rt.open_dir(&folder) {
            Ok(names) => names,
            Err(error) if is_absent(&error) => return Ok(()),
            Err(error) => return Err(Fault::of(folder, Failure::new("open", error))),
        };
        let mut buffer = [0u8; NAMES];
        for _ in 0..u64::MAX {
            match names.read(&mut buffer) {
                Ok(0) => return Ok(()),
                Ok(len) => self.add_names(&folder, buffer.get(..len).unwrap_or(&[]))?,
                Err(error) if error.kind() == ErrorKind::Interrupted => {}
                Err(error) => return Err(Fault::of(folder, Failure::new("list", error))),
            }
        }
        Ok(())
    }

    /// Adds the entries whose names are read, each with a zero byte at its end.
    fn add_names(&mut self, folder: &str, names: &[u8]) -> Result<(), Fault> {
        for name in names.split(|byte| *byte == 0) {
            if !name.is_empty() && name != b".".as_slice() && name != b"..".as_slice() {
                self.add_entry(folder, name)?;
            }
        }
        Ok(())
    }

    fn add_entry(&mut self, folder: &str, name: &[u8]) -> Result<(), Fault> {
        let path = path_in(self.alloc, folder, name)?;
        match look(self.rt, &path) {
            Ok(Stands::File { .. }) => self.add_file(&path),
            Ok(Stands::Folder) => {
                let mut path = path;
                path.push('/')?;
                self.folders.push(path)?;
                Ok(())
            }
            Ok(Stands::Nothing | Stands::Link | Stands::Other) => Ok(()),
            Err(error) => Err(Fault::of(path, Failure::new("look at", error))),
        }
    }

    /// Adds a file, by its path from the top on.
    fn add_file(&mut self, path: &str) -> Result<(), Fault> {
        let below = path.get(self.top_len..).unwrap_or("");
        let name = below.as_bytes().to_vec(self.alloc)?;
        self.names.push(Bytes::of(name))?;
        Ok(())
    }
}

/// The path of a folder's entry.
fn path_in(alloc: Global, folder: &str, name: &[u8]) -> Result<String, Fault> {
    let mut path = String::from_str(alloc, folder)?;
    match str::from_utf8(name) {
        Ok(name) => path.push_str(name)?,
        Err(_) => {
            path.push_str(&String::from_utf8_lossy(alloc, name)?)?;
            return Err(Fault::Failed(path, Failure::refused("list", "the name isn't UTF-8")));
        }
    }
    Ok(path)
}

/// Whether a pattern matches whatever stands below a folder; its path has a slash at the end.
fn excludes_below(pattern: &Bytes, folder: &str) -> bool {
    pattern.as_slice().ends_with(b"*") && some_matches(slice::from_ref(pattern), folder)
}
