ghost use Rattle.std.specs.Prelude.{◌≡◌, ◌≤◌, ◌∷◌, [], true, false, Some, IsTrue, IfOk, length};
ghost use Rattle.ap_disk.specs.CallLog.{count_of, change_of, event_of};
ghost use Rattle.ap_disk.specs.History.{wrote, left_within, all_fit, Recorded, Rises, moment_of};

use crate::call::{Call, Step};
use crate::replay::{bytes_behind, next_call, replay, tear, written};
use crate::room_file::RoomFile;
use std::alloc::{AllocError, Global};
use std::marker::Model;

/// The record of a memory disk's calls, and of the bytes that they wrote. It grows only in the memory that
/// it took when it was made. Contracts see the calls with their bytes, the last one first.
#[derive(Drop)]
pub(crate) struct CallLog {
    calls: Vec<Call>,
    kept: Vec<u8>,
}

impl Model for CallLog {
    ghost use Rattle.std.specs.Prelude.{◌≡◌, List, [], length};
    ghost use Rattle.ap_disk.specs.History.{Event};
    ghost use Rattle.ap_disk.specs.CallLog.{log_of, counts};

    ghost Value = { List Event };

    ghost view = { λ l. log_of [] l.calls.items l.kept.items };

    ghost invariant = { λ l. counts l.calls.items ≡ length l.kept.items };
}

impl CallLog {
    /// An empty record with places for so many calls and written bytes.
    pub(crate) fn new(alloc: Global, calls: usize, kept: usize) -> Result<Self, AllocError>
        ensures { IfOk result (λ log. log ≡ []) }
    {
        Ok(CallLog {
            calls: Vec::with_capacity(alloc, calls)?,
            kept: Vec::with_capacity(alloc, kept)?,
        })
    }

    /// The number that the next call has, from 1 on.
    pub(crate) fn next_number(&self) -> u64 {
        self.calls.len() as u64 + 1
    }

    /// Whether there are places for so many more written bytes.
    pub(crate) fn has_room_for(&self, count: usize) -> bool {
        count <= self.kept.capacity() - self.kept.len()
    }

    /// Records a call that wrote nothing, and tells whether there was a place for it.
    pub(crate) fn push(&mut self, call: Call) -> bool
        requires { count_of call.step ≡ 0 }
        ensures recorded { result ≡ true → self.new ≡ event_of call [] ∷ self.old }
        ensures full { result ≡ false → self.new ≡ self.old }
        ensures either { Recorded call.time (change_of call.step []) self.old self.new }
    {
        if self.calls.len() >= self.calls.capacity() {
            return false;
        }
        match self.calls.push(call) {
            Ok(()) => return true,
            Err(_) => return false,
        }
    }

    /// Records a call that wrote these bytes, and tells whether there were places for it.
    pub(crate) fn push_write(&mut self, time: u64, at: usize, bytes: &[u8]) -> bool
        ensures recorded { result ≡ true → self.new ≡ record { time = time; change = wrote at bytes.now } ∷ self.old }
        ensures full { result ≡ false → self.new ≡ self.old }
        ensures either { Recorded time (wrote at bytes.now) self.old self.new }
    {
        if self.calls.len() >= self.calls.capacity() || !self.has_room_for(bytes.len()) {
            return false;
        }
        let Ok(()) = self.kept.extend_from_slice(bytes) else {
            return false;
        };
        let step = Step::Wrote {
            at,
            count: bytes.len(),
        };
        match self.calls.push(Call { time, step }) {
            Ok(()) => return true,
            Err(_) => return false,
        }
    }

    /// How many calls are recorded.
    pub(crate) fn len(&self) -> usize
        ensures { result ≡ length self.now }
    {
        self.calls.len()
    }

    /// The moment of the recorded call of this number.
    pub(crate) fn moment(&self, call: u64) -> u64
        requires first { 1 ≤ call }
        requires last { call ≤ length self.now }
        ensures { moment_of self.now call ≡ Some result }
    {
        match self.calls.get((call - 1) as usize) {
            Some(call) => call.time,
            None => 0,
        }
    }

    /// One image of a stop at a moment, from the first bytes of the file, with unsynced bytes of this value.
    pub(crate) fn image(
        &self,
        alloc: Global,
        first: &[u8],
        room: usize,
        moment: u64,
        fill: u8,
    ) -> Result<Vec<u8>, AllocError>
        requires begun { length first.now ≤ room }
        requires fits { IsTrue (all_fit room self.now) }
        requires rises { Rises self.now }
        ensures { IfOk result (λ image. left_within first.now self.now moment image.items) }
    {
        let mut file = RoomFile::with_bytes(alloc, first, room)?;
        let mut image = RoomFile::with_bytes(alloc, first, room)?;
        let mut calls = self.calls.as_slice();
        let mut kept = self.kept.as_slice();
        while let Some((call, later)) = next_call(calls) {
            if call.time > moment {
                return Ok(image.into_bytes());
            }
            if call.time == moment {
                tear(&mut image, call.step, kept, fill);
                return Ok(image.into_bytes());
            }
            replay(&mut file, &mut image, call.step, kept, fill);
            kept = bytes_behind(kept, written(call.step));
            calls = later;
        }
        Ok(image.into_bytes())
    }
}
