//! A real folder, and the ways to its files that pass no link.

use crate::listing::list_below;
use ap_system::{Culprit, Failure, Stands, fill, is_absent, look};
use ap_text::{Bytes, OutOfMemory, Seen};
use std::alloc::{AllocError, AllocFailed, Global};
use std::fs::{Files, OpenOptions};
use std::io::{Error, ErrorKind, Read, Write};
use std::{fs, io, str};

/// The file of a folder into which a file is written before it gets its name.
const NEW_FILE: &str = ".ap.new";

/// How many bytes of a file are compared at once.
const PIECE: usize = 16_384;

/// Why a call on a real folder has no answer.
#[derive(Drop)]
pub(crate) enum Fault {
    OutOfMemory,
    /// A call failed that was about this path.
    Failed(String, Failure),
}

impl Fault {
    /// What comes of a failure of a call before which nothing was changed.
    pub(crate) fn of(path: String, failure: Failure) -> Fault {
        if failure.is_out_of_memory() {
            return Fault::OutOfMemory;
        }
        Fault::Failed(path, failure)
    }
}

impl From<OutOfMemory> for Fault {
    fn from(_error: OutOfMemory) -> Fault {
        Fault::OutOfMemory
    }
}

impl From<AllocError> for Fault {
    fn from(_error: AllocError) -> Fault {
        Fault::OutOfMemory
    }
}

impl<T: Drop> From<AllocFailed<T>> for Fault {
    fn from(_error: AllocFailed<T>) -> Fault {
        Fault::OutOfMemory
    }
}

/// Why a file has no answer whose path is known to the caller.
#[derive(Drop)]
enum FileFault {
    OutOfMemory,
    Failed(Failure),
}

impl FileFault {
    fn of(call: &'static str, error: Error) -> FileFault {
        FileFault::Failed(Failure::new(call, error))
    }

    fn at(self, path: String) -> Fault {
        match self {
            FileFault::OutOfMemory => Fault::OutOfMemory,
            FileFault::Failed(failure) => Fault::of(path, failure),
        }
    }
}

impl From<AllocError> for FileFault {
    fn from(_error: AllocError) -> FileFault {
        FileFault::OutOfMemory
    }
}

impl<T: Drop> From<AllocFailed<T>> for FileFault {
    fn from(_error: AllocFailed<T>) -> FileFault {
        FileFault::OutOfMemory
    }
}

/// A real folder, which is no link. What is reached in it passes none.
#[derive(Drop)]
pub(crate) struct Folder<R> {
    rt: R,
    /// Its path, with a slash at the end.
    root: String,
    /// The folder in it, relative to it, that the last call found or made. So the root is there, too.
    known: Option<String>,
    /// The last failure, and the path that its call was about.
    failed: Option<(String, Failure)>,
}

impl<R: Files + AllocGlobal + Clone + Drop> Folder<R> {
    /// The folder at a path; the current one where the path is empty. Nothing is opened.
    pub(crate) fn new(rt: R, path: &str) -> Result<Self, OutOfMemory> {
        let alloc = rt.alloc();
        let path = if path.is_empty() { "." } else { path };
        let mut root = String::from_str(alloc, path)?;
        if !path.ends_with('/') {
            root.push('/')?;
        }
        Ok(Folder {
            rt,
            root,
            known: None,
            failed: None,
        })
    }

    /// The last failure, where there was one.
    pub(crate) fn culprit(&self) -> Option<Culprit<'_>> {
        match &self.failed {
            Some((path, failure)) => Some(Culprit::new(path.as_str(), failure)),
            None => None,
        }
    }

    /// Keeps what is told of a failure, and answers whether it was one and no want of memory.
    pub(crate) fn has_failed(&mut self, fault: Fault) -> bool {
        match fault {
            Fault::OutOfMemory => false,
            Fault::Failed(path, failure) => {
                self.failed = Some((path, failure));
                true
            }
        }
    }

    /// The paths of all files in it and in the folders below it, relative to it.
    pub(crate) fn list_all(&mut self, alloc: Global) -> Result<Vec<Bytes>, Fault> {
        if !self.has_root(alloc)? {
            return Ok(Vec::new(alloc));
        }
        list_below(&self.rt, alloc, self.join(alloc, "")?, &[])
    }

    /// The paths of all files below a folder in it, relative to that folder: none where a link or a file stands
    /// on the way. A folder all of whose files are excluded isn't listed.
    pub(crate) fn list(
        &mut self,
        alloc: Global,
        folder: &str,
        exclude: &[Bytes],
    ) -> Result<Vec<Bytes>, Fault> {
        let mut path = self.join(alloc, folder)?;
        if !self.has_folders(alloc, folder, &path)? {
            return Ok(Vec::new(alloc));
        }
        match look(&self.rt, &path) {
            Ok(Stands::Folder) => {
                path.push('/')?;
                list_below(&self.rt, alloc, path, exclude)
            }
            Ok(_) => Ok(Vec::new(alloc)),
            Err(error) => Err(Fault::of(path, Failure::new("look at", error))),
        }
    }

    /// The file at a path, too large above the limit.
    pub(crate) fn read(&mut self, alloc: Global, path: &[u8], limit: u32) -> Result<Seen, Fault> {
        let path = text_of(alloc, path)?;
        if !is_plain(&path) {
            return Ok(Seen::Absent);
        }
        let full = self.join(alloc, &path)?;
        if !self.has_folders(alloc, &path, &full)? {
            return Ok(Seen::Absent);
        }
        match read_file(&self.rt, alloc, &full, limit) {
            Ok(seen) => Ok(seen),
            Err(fault) => Err(fault.at(full)),
        }
    }

    /// Makes or replaces a file, and makes the folders that it stands in. It is written beside, whole, before it
    /// takes its name: where it answers OutOfMemory or fails, the file is as it was. One that has these bytes stays.
    pub(crate) fn write(&mut self, alloc: Global, path: &[u8], bytes: &[u8]) -> Result<(), Fault> {
        let path = text_of(alloc, path)?;
        let full = self.join(alloc, &path)?;
        let new = self.join(alloc, NEW_FILE)?;
        match self.try_write(alloc, &path, &full, &new, bytes) {
            Ok(()) => Ok(()),
            Err(failure) => {
                self.known = None;
                Err(Fault::of(full, failure))
            }
        }
    }

    fn try_write(
        &mut self,
        alloc: Global,
        path: &str,
        full: &str,
        new: &str,
        bytes: &[u8],
    ) -> Result<(), Failure> {
        if !is_plain(path) || path == NEW_FILE {
            return Err(Failure::refused("write", "no path of a file"));
        }
        let parent = parent_of(path);
        if !self.knows(parent) {
            self.make_folders(full)?;
            self.remember(alloc, parent);
        }
        if has_bytes(&self.rt, full, bytes)? {
            return Ok(());
        }
        write_new(&self.rt, new, bytes)?;
        match fs::rename(&self.rt, new, full) {
            Ok(()) => Ok(()),
            Err(error) => {
                let _ = fs::remove_file(&self.rt, new);
                Err(Failure::new("rename", error))
            }
        }
    }

    /// Removes the file at a path, where there is one, and each folder that this leaves empty.
    pub(crate) fn remove(&mut self, alloc: Global, path: &[u8]) -> Result<(), Fault> {
        let path = text_of(alloc, path)?;
        if !is_plain(&path) {
            return Ok(());
        }
        let full = self.join(alloc, &path)?;
        if !self.has_folders(alloc, &path, &full)? {
            return Ok(());
        }
        match remove_plain(&self.rt, &full) {
            Ok(true) => {}
            Ok(false) => return Ok(()),
            Err(failure) => return Err(Fault::of(full, failure)),
        }
        match self.remove_emptied(&full) {
            Ok(()) => Ok(()),
            Err(error) => Err(Fault::Failed(full, Failure::new("remove the folder of", error))),
        }
    }

    fn join(&self, alloc: Global, path: &str) -> Result<String, OutOfMemory> {
        let mut full = String::from_str(alloc, &self.root)?;
        full.push_str(path)?;
        Ok(full)
    }

    fn knows(&self, folder: &str) -> bool {
        match &self.known {
            Some(known) => known.as_str() == folder,
            None => false,
        }
    }

    fn remember(&mut self, alloc: Global, folder: &str) {
        self.known = String::from_str(alloc, folder).ok();
    }

    /// Its path, without a slash at the end.
    fn root_path(&self) -> &str {
        match self.root.strip_suffix('/') {
            Some(path) if !path.is_empty() => path,
            _ => &self.root,
        }
    }

    /// Whether the folder itself is there, which may be no link.
    fn has_root(&self, alloc: Global) -> Result<bool, Fault> {
        match find_root(&self.rt, self.root_path()) {
            Ok(is_there) => Ok(is_there),
            Err(failure) => {
                let path = String::from_str(alloc, self.root_path())?;
                Err(Fault::of(path, failure))
            }
        }
    }

    /// Whether each folder on the way to a path is one, and no link.
    fn has_folders(&mut self, alloc: Global, path: &str, full: &str) -> Result<bool, Fault> {
        let parent = parent_of(path);
        if self.knows(parent) {
            return Ok(true);
        }
        if !self.has_root(alloc)? {
            return Ok(false);
        }
        for end in self.root.len()..full.len() {
            if let Some(folder) = folder_before(full, end) {
                match look(&self.rt, folder) {
                    Ok(Stands::Folder) => {}
                    Ok(_) => return Ok(false),
                    Err(error) => {
                        let folder = String::from_str(alloc, folder)?;
                        return Err(Fault::of(folder, Failure::new("look at", error)));
                    }
                }
            }
        }
        self.remember(alloc, parent);
        Ok(true)
    }

    fn make_folders(&self, full: &str) -> Result<(), Failure> {
        if !find_root(&self.rt, self.root_path())? {
            if let Err(error) = fs::create_dir_all(&self.rt, self.root_path()) {
                return Err(Failure::new("make the folder of", error));
            }
        }
        for end in self.root.len()..full.len() {
            if let Some(folder) = folder_before(full, end) {
                make_folder(&self.rt, folder)?;
            }
        }
        Ok(())
    }

    fn remove_emptied(&mut self, full: &str) -> io::Result<()> {
        for end in (self.root.len()..full.len()).rev() {
            if let Some(folder) = folder_before(full, end) {
                match fs::remove_dir(&self.rt, folder) {
                    Ok(()) => self.known = None,
                    Err(error) if is_occupied(&error) => return Ok(()),
                    Err(error) if is_absent(&error) => self.known = None,
                    Err(error) => return Err(error),
                }
            }
        }
        Ok(())
    }
}

/// The path as text.
fn text_of(alloc: Global, path: &[u8]) -> Result<String, Fault> {
    match str::from_utf8(path) {
        Ok(path) => Ok(String::from_str(alloc, path)?),
        Err(_) => Err(Fault::Failed(
            String::new(alloc),
            Failure::refused("reach", "the path isn't UTF-8"),
        )),
    }
}

/// Where a slash stands at `end`, the path before it.
fn folder_before(path: &str, end: usize) -> Option<&str> {
    match path.split_at_checked(end) {
        Some((folder, rest)) if rest.starts_with('/') => Some(folder),
        _ => None,
    }
}

fn parent_of(path: &str) -> &str {
    match path.rsplit_once('/') {
        Some((parent, _)) => parent,
        None => "",
    }
}

/// Whether a path leads to a place of its own below the folder: no part is empty, `.` or `..`.
fn is_plain(path: &str) -> bool {
    path.split('/')
        .all(|part| !part.is_empty() && part != "." && part != "..")
}

fn is_occupied(error: &Error) -> bool {
    matches!(
        error.kind(),
        ErrorKind::DirectoryNotEmpty | ErrorKind::AlreadyExists
    )
}

/// Whether a root is there, which may be no link.
fn find_root<R: Files>(rt: &R, path: &str) -> Result<bool, Failure> {
    match look(rt, path) {
        Ok(Stands::Folder) => Ok(true),
        Ok(Stands::Link) => Err(Failure::refused("open", "is a link")),
        Ok(_) => Ok(false),
        Err(error) => Err(Failure::new("look at", error)),
    }
}

/// Makes a folder where nothing stands. Another run may make it at the same time.
fn make_folder<R: Files>(rt: &R, path: &str) -> Result<(), Failure> {
    let made = match look(rt, path) {
        Ok(Stands::Nothing) => fs::create_dir(rt, path),
        Ok(_) => Err(Error::from(ErrorKind::AlreadyExists)),
        Err(error) => Err(error),
    };
    match made {
        Ok(()) => Ok(()),
        Err(error) if error.kind() == ErrorKind::AlreadyExists => match look(rt, path) {
            Ok(Stands::Folder) => Ok(()),
            _ => Err(Failure::new("make the folder of", error)),
        },
        Err(error) => Err(Failure::new("make the folder of", error)),
    }
}

/// Reads a plain file, and no more than one byte above the limit.
fn read_file<R: Files>(rt: &R, alloc: Global, path: &str, limit: u32) -> Result<Seen, FileFault> {
    let len = match look(rt, path) {
        Ok(Stands::File { len, .. }) => len,
        Ok(_) => return Ok(Seen::Absent),
        Err(error) => return Err(FileFault::of("look at", error)),
    };
    if len > limit as u64 {
        return Ok(Seen::TooLarge);
    }
    let mut file = match fs::open(rt, path) {
        Ok(file) => file,
        Err(error) if is_absent(&error) => return Ok(Seen::Absent),
        Err(error) => return Err(FileFault::of("open", error)),
    };
    let mut bytes = vec![in alloc; 0u8; len as usize + 1]?;
    let filled = match fill(&mut file, &mut bytes) {
        Ok(filled) => filled,
        Err(error) => return Err(FileFault::of("read", error)),
    };
    if filled == bytes.len() {
        // It has grown since it was looked at.
        let most = (limit as u64 + 1).saturating_sub(filled as u64);
        if let Err(error) = file.take(most).read_to_end(&mut bytes) {
            return Err(FileFault::of("read", error));
        }
    } else {
        bytes.truncate(filled);
    }
    if bytes.len() > limit as usize {
        return Ok(Seen::TooLarge);
    }
    Ok(Seen::Bytes(Bytes::of(bytes)))
}

/// Whether a plain file with these bytes stands at a path. Anything but a plain file is refused there.
fn has_bytes<R: Files>(rt: &R, path: &str, bytes: &[u8]) -> Result<bool, Failure> {
    match look(rt, path) {
        Ok(Stands::File { len, .. }) => Ok(len == bytes.len() as u64 && reads_as(rt, path, bytes)),
        Ok(Stands::Nothing) => Ok(false),
        Ok(Stands::Link) => Err(Failure::refused("write", "is a link")),
        Ok(Stands::Folder) => Err(Failure::refused("write", "is a folder")),
        Ok(Stands::Other) => Err(Failure::refused("write", "is no plain file")),
        Err(error) => Err(Failure::new("look at", error)),
    }
}

/// Whether a file can be read and has these bytes. It takes no memory.
fn reads_as<R: Files>(rt: &R, path: &str, bytes: &[u8]) -> bool {
    let Ok(mut file) = fs::open(rt, path) else {
        return false;
    };
    let mut buffer = [0u8; PIECE];
    let mut rest = bytes;
    for _ in 0..u64::MAX {
        let Ok(count) = fill(&mut file, &mut buffer) else {
            return false;
        };
        if count == 0 {
            return rest.is_empty();
        }
        let Some((front, after)) = rest.split_at_checked(count) else {
            return false;
        };
        if front != &buffer[..count] {
            return false;
        }
        rest = after;
    }
    false
}

/// Writes a file of its own, instead of one that a run left which was stopped. It is gone where that fails.
fn write_new<R: Files>(rt: &R, path: &str, bytes: &[u8]) -> Result<(), Failure> {
    let mut file = match create_new(rt, path) {
        Ok(file) => file,
        Err(error) if error.kind() == ErrorKind::AlreadyExists => {
            if let Err(error) = fs::remove_file(rt, path) {
                return Err(Failure::new("clear the new file of", error));
            }
            match create_new(rt, path) {
                Ok(file) => file,
                Err(error) => return Err(Failure::new("create the new file of", error)),
            }
        }
        Err(error) => return Err(Failure::new("create the new file of", error)),
    };
    match file.write_all(bytes) {
        Ok(()) => Ok(()),
        Err(error) => {
            let _ = fs::remove_file(rt, path);
            Err(Failure::new("write", error))
        }
    }
}

fn create_new<R: Files>(rt: &R, path: &str) -> io::Result<R::File> {
    let mut how = OpenOptions::new();
    how.write(true).create_new(true);
    how.open(rt, path)
}

/// Removes a plain file, and answers whether one was there.
fn remove_plain<R: Files>(rt: &R, path: &str) -> Result<bool, Failure> {
    match look(rt, path) {
        Ok(Stands::File { .. }) => {}
        Ok(_) => return Ok(false),
        Err(error) => return Err(Failure::new("look at", error)),
    }
    match fs::remove_file(rt, path) {
        Ok(()) => Ok(true),
        Err(error) if is_absent(&error) => Ok(false),
        Err(error) => Err(Failure::new("remove", error)),
    }
}
