ghost use Rattle.std.specs.Prelude.{◌≡◌, ◌≤◌, None, length, IfOk};
ghost use Rattle.std.proofs.Common.{lit≤};
ghost use Rattle.ap_text.specs.Causes.{Rose};

use crate::disk::{Disk, DiskFault};
use crate::read_ahead::ReadAhead;
use ap_system::{Culprit, Failure, Stands, look};
use ap_text::OutOfMemory;
use std::fs::{Files, OpenFile, OpenOptions};
use std::io;
use std::io::{Read, Seek, SeekFrom, Write};

/// A disk over a real file, which it opens, or makes where it is absent, at the first call. A link, a file that has
/// another name too, and what is no plain file are faults. It tells nothing of its content, and its `rest` does
/// nothing. Small reads one behind another are one call of the system for some thousand bytes; a write or a cut
/// drops what was read.
#[derive(Drop)]
pub struct FileDisk<R: Files> {
    rt: R,
    path: String,
    file: Option<R::File>,
    ahead: ReadAhead,
    is_folder_synced: bool,
    faults: u64,
    /// The call that failed last.
    failed: Option<Failure>,
}

impl<R: Files + AllocGlobal + Drop> FileDisk<R> {
    /// The disk of the file at this path. Nothing is opened.
    pub fn new(rt: R, file: &str) -> Result<Self, OutOfMemory> {
        let path = String::from_str(rt.alloc(), file)?;
        Ok(FileDisk {
            rt,
            path,
            file: None,
            ahead: ReadAhead::new(),
            is_folder_synced: false,
            faults: 0,
            failed: None,
        })
    }

    /// The call that failed last, and the path of the file.
    pub fn culprit(&self) -> Option<Culprit<'_>> {
        match &self.failed {
            Some(failure) => Some(Culprit::new(self.path.as_str(), failure)),
            None => None,
        }
    }
}

impl<R: Files + Drop> FileDisk<R> {
    /// The open file, taken out of the disk until it is given back.
    fn open(&mut self) -> Result<R::File, Failure>
        ensures { self.new.faults ≡ self.old.faults }
    {
        match self.file.take() {
            Some(file) => Ok(file),
            None => open_plain(&self.rt, self.path.as_str()),
        }
    }

    fn try_len(&mut self) -> Result<u64, Failure>
        ensures { self.new.faults ≡ self.old.faults }
    {
        let mut file = self.open()?;
        let result = file.seek(SeekFrom::End(0));
        self.file = Some(file);
        result.map_err(|error| Failure::new("find the end of", error))
    }

    fn try_read(&mut self, at: u64, buf: &mut [u8]) -> Result<usize, Failure>
        ensures faults { self.new.faults ≡ self.old.faults }
        ensures count { IfOk result (λ count. count ≤ length buf.old) }
    {
        let mut file = self.open()?;
        let result = self.ahead.read_at(&mut file, at, buf);
        self.file = Some(file);
        match result {
            Ok(count) => Ok(count),
            Err(error) => Err(Failure::new("read", error)),
        }
    }

    fn try_write(&mut self, at: u64, bytes: &[u8]) -> Result<(), Failure>
        ensures { self.new.faults ≡ self.old.faults }
    {
        self.ahead.forget();
        let mut file = self.open()?;
        let result = write_at(&mut file, at, bytes);
        self.file = Some(file);
        result.map_err(|error| Failure::new("write", error))
    }

    fn try_cut(&mut self, len: u64) -> Result<(), Failure>
        ensures { self.new.faults ≡ self.old.faults }
    {
        self.ahead.forget();
        let mut file = self.open()?;
        let result = cut_to(&mut file, len);
        self.file = Some(file);
        result.map_err(|error| Failure::new("cut", error))
    }

    fn try_sync(&mut self) -> Result<(), Failure>
        ensures { self.new.faults ≡ self.old.faults }
    {
        let file = self.open()?;
        let result = file.sync_all();
        self.file = Some(file);
        if let Err(error) = result {
            return Err(Failure::new("sync", error));
        }
        if !self.is_folder_synced {
            if let Err(error) = sync_folder(&self.rt, self.path.as_str()) {
                return Err(Failure::new("sync the folder of", error));
            }
            self.is_folder_synced = true;
        }
        Ok(())
    }

    /// Counts a fault.
    fn fault(&mut self, failure: Failure) -> DiskFault
        ensures later { self.old.faults ≤ self.new.faults }
        ensures rose { Rose self.old.faults self.new.faults }
    {
        self.faults = self.faults.saturating_add(1);
        self.failed = Some(failure);
        DiskFault::Failed
    }
}

/// Opens a plain file that has no other name, or makes it where nothing stands.
fn open_plain<R: Files>(rt: &R, path: &str) -> Result<R::File, Failure> {
    let mut how = OpenOptions::new();
    how.read(true).write(true);
    match look(rt, path) {
        Ok(Stands::Nothing) => {
            how.create_new(true);
        }
        Ok(Stands::File { names, .. }) if names <= 1 => {}
        Ok(Stands::File { .. }) => return Err(Failure::refused("open", "has another name")),
        Ok(Stands::Link) => return Err(Failure::refused("open", "is a link")),
        Ok(Stands::Folder) => return Err(Failure::refused("open", "is a folder")),
        Ok(Stands::Other) => return Err(Failure::refused("open", "is no plain file")),
        Err(error) => return Err(Failure::new("look at", error)),
    }
    how.open(rt, path)
        .map_err(|error| Failure::new("open", error))
}

/// Writes at an offset. A gap before it is zeros.
fn write_at<F: Write + Seek + OpenFile>(file: &mut F, at: u64, bytes: &[u8]) -> io::Result<()> {
    let len = file.seek(SeekFrom::End(0))?;
    if len < at {
        file.set_len(at)?;
    }
    file.seek(SeekFrom::Start(at))?;
    file.write_all(bytes)
}

/// Cuts the file, where it is longer.
fn cut_to<F: Seek + OpenFile>(file: &mut F, len: u64) -> io::Result<()> {
    if len < file.seek(SeekFrom::End(0))? {
        file.set_len(len)?;
    }
    Ok(())
}

/// Makes the name of a new file last.
fn sync_folder<R: Files>(rt: &R, path: &str) -> io::Result<()> {
    let folder = match path.rfind('/') {
        None => ".",
        Some(0) => "/",
        Some(at) => &path[..at],
    };
    OpenOptions::new().read(true).open(rt, folder)?.sync_all()
}

impl<R: Files + Drop> Disk for FileDisk<R> {
    ghost seen = { λ _. None };

    ghost may_leave = { λ _ _. ⊥ };

    ghost clock = { λ _. None };

    ghost left_at = { λ _ _ _. ⊥ };

    ghost room = { λ _. 18446744073709551615 };

    ghost faults = { λ d. d.faults };

    ghost holds_store = { λ d. lit≤ tt };

    ghost within = { λ d. tt };

    ghost itself = { λ d. tt };

    ghost now_is_last = { λ d. tt };

    fn len(&mut self) -> Result<u64, DiskFault> {
        match self.try_len() {
            Ok(len) => Ok(len),
            Err(failure) => Err(self.fault(failure)),
        }
    }

    fn read(&mut self, at: u64, buf: &mut [u8]) -> Result<usize, DiskFault> {
        match self.try_read(at, buf) {
            Ok(count) => Ok(count),
            Err(failure) => Err(self.fault(failure)),
        }
    }

    fn write_at(&mut self, at: u64, bytes: &[u8]) -> Result<(), DiskFault> {
        match self.try_write(at, bytes) {
            Ok(()) => Ok(()),
            Err(failure) => Err(self.fault(failure)),
        }
    }

    fn cut(&mut self, len: u64) -> Result<(), DiskFault> {
        match self.try_cut(len) {
            Ok(()) => Ok(()),
            Err(failure) => Err(self.fault(failure)),
        }
    }

    fn sync(&mut self) -> Result<(), DiskFault> {
        match self.try_sync() {
            Ok(()) => Ok(()),
            Err(failure) => Err(self.fault(failure)),
        }
    }

    fn rest(&mut self) {}

    fn room(&self) -> u64 {
        u64::MAX
    }

    fn faults(&self) -> u64 {
        self.faults
    }
}
