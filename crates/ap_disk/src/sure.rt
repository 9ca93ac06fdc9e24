ghost use Rattle.std.specs.Prelude.{◌≡◌, ◌≤◌, take, length, vec_len, Some, None};
ghost use Rattle.std.proofs.Common.{refl};

use crate::disk::{Disk, DiskFault};
use crate::file_bytes::read_from;
use crate::room_file::RoomFile;

/// A disk in memory, where each write and cut lasts at once, and which never fails. It tells its bytes and
/// its images of now, and neither a clock nor earlier moments. No call of it takes memory.
#[derive(Drop)]
pub struct SureMemoryDisk {
    file: RoomFile,
    ghost within: { length file.0 ≤ file.1 },
    ghost holds_store: { 17 ≤ file.1 },
}

impl SureMemoryDisk {
    /// The file of the first `length` bytes; the disk's room is all of them.
    pub fn new(room: Vec<u8>, length: usize) -> Self
        requires holds_store { 17 ≤ vec_len room }
        requires within { length ≤ vec_len room }
        ensures bytes { ⟦<SureMemoryDisk as Disk>⟧.seen result ≡ Some (take length room.items) }
        ensures room { ⟦<SureMemoryDisk as Disk>⟧.room result ≡ vec_len room }
    {
        let file = RoomFile::new(room, length);
        let _bytes = file.as_slice();
        SureMemoryDisk { file }
    }

    /// The bytes of the file.
    pub fn bytes(&self) -> &[u8]
        ensures { Some result.now ≡ ⟦<SureMemoryDisk as Disk>⟧.seen self.now }
    {
        self.file.as_slice()
    }
}

impl Disk for SureMemoryDisk {
    ghost seen = { λ d. Some d.file.0 };

    ghost may_leave = { λ d c. c ≡ d.file.0 };

    ghost clock = { λ _. None };

    ghost left_at = { λ _ _ _. ⊥ };

    ghost room = { λ d. d.file.1 };

    ghost faults = { λ _. 0 };

    ghost holds_store = { λ d. d.holds_store };

    ghost within = { λ d. d.within };

    ghost itself = { λ d. refl };

    ghost now_is_last = { λ d. tt };

    fn len(&mut self) -> Result<u64, DiskFault> {
        Ok(self.file.as_slice().len() as u64)
    }

    fn read(&mut self, at: u64, buf: &mut [u8]) -> Result<usize, DiskFault> {
        Ok(read_from(self.file.as_slice(), at, buf))
    }

    fn write_at(&mut self, at: u64, bytes: &[u8]) -> Result<(), DiskFault> {
        self.file.write(at as usize, bytes);
        Ok(())
    }

    fn cut(&mut self, len: u64) -> Result<(), DiskFault> {
        self.file.cut(len);
        Ok(())
    }

    fn sync(&mut self) -> Result<(), DiskFault> {
        Ok(())
    }

    fn rest(&mut self) {}

    fn room(&self) -> u64 {
        self.file.room() as u64
    }

    fn faults(&self) -> u64 {
        0
    }
}
