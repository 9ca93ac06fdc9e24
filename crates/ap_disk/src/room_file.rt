ghost use Rattle.std.specs.Prelude.{◌≡◌, ◌≤◌, ◌+◌, take, length, vec_len, IfOk};
ghost use Rattle.ap_disk.specs.Calls.{Reads, with_bytes_at};
ghost use Rattle.ap_disk.specs.Crashes.{Torn};

use crate::file_bytes::{put_bytes, tear_into, write_into};
use std::alloc::{AllocError, Global};
use std::marker::Model;

/// A file in a fixed room of memory. Contracts see its bytes and how many there may be.
#[derive(Drop)]
pub(crate) struct RoomFile {
    room: Vec<u8>,
    length: usize,
}

impl Model for RoomFile {
    ghost use Rattle.std.specs.Prelude.{List, ℕ, ◌≤◌, take, vec_len};

    ghost Value = { List ℕ × ℕ };

    ghost view = { λ f. (take f.length f.room.items, vec_len f.room) };

    ghost invariant = { λ f. f.length ≤ vec_len f.room };
}

impl RoomFile {
    /// The file of the first `length` bytes, in the room of all of them.
    pub(crate) fn new(room: Vec<u8>, length: usize) -> Self
        requires { length ≤ vec_len room }
        ensures { result ≡ (take length room.items, vec_len room) }
    {
        RoomFile { room, length }
    }

    /// A file of these bytes in a room of its own.
    pub(crate) fn with_bytes(alloc: Global, bytes: &[u8], room: usize) -> Result<Self, AllocError>
        requires { length bytes.now ≤ room }
        ensures { IfOk result (λ file. file ≡ (bytes.now, room)) }
    {
        let mut room = vec![in alloc; 0; room]?;
        put_bytes(&mut room, 0, bytes);
        Ok(RoomFile {
            room,
            length: bytes.len(),
        })
    }

    pub(crate) fn as_slice(&self) -> &[u8]
        ensures bytes { result.now ≡ self.now.0 }
        ensures within { length self.now.0 ≤ self.now.1 }
    {
        &self.room[..self.length]
    }

    pub(crate) fn room(&self) -> usize
        ensures { result ≡ self.now.1 }
    {
        self.room.len()
    }

    pub(crate) fn write(&mut self, at: usize, bytes: &[u8])
        requires { at + length bytes.now ≤ self.old.1 }
        ensures file { self.new ≡ (with_bytes_at self.old.0 at bytes.now, self.old.1) }
        ensures within { length self.new.0 ≤ self.new.1 }
    {
        self.length = write_into(&mut self.room, self.length, at, bytes);
    }

    pub(crate) fn cut(&mut self, len: u64)
        ensures file { self.new ≡ (take len self.old.0, self.old.1) }
        ensures within { length self.new.0 ≤ self.new.1 }
    {
        if len < self.length as u64 {
            self.length = len as usize;
        }
    }

    /// Leaves the range, and the gap before it, as a write that was cut short: filled with one byte.
    pub(crate) fn tear(&mut self, at: usize, count: usize, fill: u8)
        requires { at + count ≤ self.old.1 }
        ensures file { Torn at count self.old.0 self.new.0 }
        ensures room { self.new.1 ≡ self.old.1 }
        ensures within { length self.new.0 ≤ self.new.1 }
    {
        self.length = tear_into(&mut self.room, self.length, at, count, fill);
    }

    /// Takes the bytes of another file over.
    pub(crate) fn copy_from(&mut self, other: &RoomFile)
        requires { self.old.1 ≡ other.now.1 }
        ensures { self.new ≡ other.now }
    {
        self.room.copy_from_slice(&other.room);
        self.length = other.length;
    }

    pub(crate) fn into_bytes(self) -> Vec<u8>
        ensures { result.items ≡ self.0 }
    {
        let mut bytes = self.room;
        bytes.truncate(self.length);
        bytes
    }
}
