ghost use Rattle.std.specs.Prelude.{◌≡◌, ◌≤◌, ◌+◌, ◌^◌, [], ◌∷◌, Some, IsSomeAnd, IfOk, OnOk, OnErr, IsTrue, length, vec_len};
ghost use Rattle.ap_text.specs.Causes.{HasCause, Rose};
ghost use Rattle.ap_disk.specs.declared.disk.DiskFault.TheVariants.{Failed};
ghost use Rattle.ap_disk.specs.Crashes.{Only};
ghost use Rattle.ap_disk.specs.CallLog.{count_of, change_of};
ghost use Rattle.std.proofs.Props.{props};
ghost use Rattle.ap_disk.specs.History.{nothing, file_after, leaves_after, left_within, clock_of, next_moment, end_of, all_fit, IsStill, Recorded, RisesTo, itself_of, last_of, moment_of};

use crate::call::{Call, Step};
use crate::call_log::CallLog;
use crate::disk::{Disk, DiskFault};
use crate::file_bytes::read_from;
use crate::room_file::RoomFile;
use ap_text::OutOfMemory;
use std::alloc::Global;

/// A disk in memory that tells what a crash at each moment may have left of it. It takes all of its memory
/// when it is made, among it a record of its calls and of the bytes that they wrote.
///
/// The calls whose answer is a `Result` have numbers, from 1 on. A call fails exactly where its number is
/// listed, it comes after the last call that the record takes, or it is a write of more bytes than the record
/// still takes; in the last two cases the disk is as before.
#[derive(Drop)]
pub struct MemoryDisk {
    file: RoomFile,
    first: Vec<u8>,
    log: CallLog,
    failing: Vec<u64>,
    time: u64,
    faults: u64,
    ghost holds_store: { 17 ≤ file.1 },
    ghost begun: { vec_len first ≤ file.1 },
    ghost within: { length file.0 ≤ file.1 },
    ghost fits: { IsTrue (all_fit file.1 log) },
    ghost is_file: { file.0 ≡ file_after first.items log },
    ghost rises: { RisesTo (clock_of time) log } by { Prim.hlevel props },
}

impl MemoryDisk {
    /// A disk of these bytes in a room of so many, which records so many calls and written bytes, and fails
    /// the calls of the listed numbers.
    pub fn new(
        alloc: Global,
        bytes: Vec<u8>,
        room: usize,
        calls: usize,
        kept: usize,
        failing: Vec<u64>,
    ) -> Result<Self, OutOfMemory>
        requires holds_store { 17 ≤ room }
        requires bound { room ≤ 2 ^ 32 }
        requires within { vec_len bytes ≤ room }
        ensures bytes { IfOk result (λ disk. ⟦<MemoryDisk as Disk>⟧.seen disk ≡ Some bytes.items) }
        ensures durable { IfOk result (λ disk. Only (Some bytes.items) (⟦<MemoryDisk as Disk>⟧.may_leave disk)) }
        ensures clock { IfOk result (λ disk. ⟦<MemoryDisk as Disk>⟧.clock disk ≡ Some 0) }
        ensures room { IfOk result (λ disk. ⟦<MemoryDisk as Disk>⟧.room disk ≡ room) }
        ensures faults { IfOk result (λ disk. ⟦<MemoryDisk as Disk>⟧.faults disk ≡ 0) }
    {
        let mut failing = failing;
        failing.sort_unstable();
        let file = RoomFile::with_bytes(alloc, &bytes, room)?;
        let log = CallLog::new(alloc, calls, kept)?;
        Ok(MemoryDisk {
            file,
            first: bytes,
            log,
            failing,
            time: 0,
            faults: 0,
        })
    }

    /// The bytes of the file.
    pub fn bytes(&self) -> &[u8]
        ensures { Some result.now ≡ ⟦<MemoryDisk as Disk>⟧.seen self.now }
    {
        self.file.as_slice()
    }

    /// The moment after the last call, and None once the clock stands at its last value.
    pub fn clock(&self) -> Option<u64>
        ensures { result ≡ ⟦<MemoryDisk as Disk>⟧.clock self.now }
    {
        if self.time < u64::MAX {
            Some(self.time)
        } else {
            None
        }
    }

    /// How many calls are recorded.
    pub fn recorded(&self) -> usize
        ensures { result ≡ length self.now.log }
    {
        self.log.len()
    }

    /// The moment of the recorded call of this number.
    pub fn moment(&self, call: u64) -> u64
        requires first { 1 ≤ call }
        requires last { call ≤ length self.now.log }
        ensures { moment_of self.now.log call ≡ Some result }
    {
        self.log.moment(call)
    }

    /// One image of a stop at a moment, whose unsynced bytes have this value.
    pub fn image(&self, alloc: Global, moment: u64, fill: u8) -> Result<Vec<u8>, OutOfMemory>
        requires first { 1 ≤ moment }
        requires told { IsSomeAnd (⟦<MemoryDisk as Disk>⟧.clock self.now) (λ now. moment ≤ now) }
        ensures { IfOk result (λ image. ⟦<MemoryDisk as Disk>⟧.left_at self.now moment image.items) }
    {
        let image = self
            .log
            .image(alloc, &self.first, self.file.room(), moment, fill)?;
        Ok(image)
    }

    /// Whether the next call is one of those that fail.
    fn is_next_failing(&self) -> bool {
        self.failing.binary_search(&self.log.next_number()).is_ok()
    }

    /// Counts a call that fails and leaves the file as it is.
    fn refuse(&mut self, step: Step) -> DiskFault
        requires quiet { count_of step ≡ 0 }
        requires still { IsStill (change_of step []) }
        requires fits { end_of (change_of step []) ≤ self.old.file.1 }
        ensures file { self.new.file ≡ self.old.file }
        ensures first { self.new.first ≡ self.old.first }
        ensures time { self.new.time ≡ next_moment self.old.time }
        ensures recorded { Recorded (next_moment self.old.time) (change_of step []) self.old.log self.new.log }
        ensures later { self.old.faults ≤ self.new.faults }
        ensures rose { Rose self.old.faults self.new.faults }
    {
        let faults = self.faults.saturating_add(1);
        self.faults = faults;
        self.time = self.time.saturating_add(1);
        let time = self.time;
        let _recorded = self.log.push(Call { time, step });
        DiskFault::Failed
    }

    /// Counts a call that leaves the file as it is.
    fn pass(&mut self, step: Step) -> Result<(), DiskFault>
        requires quiet { count_of step ≡ 0 }
        requires still { IsStill (change_of step []) }
        requires fits { end_of (change_of step []) ≤ self.old.file.1 }
        ensures file { self.new.file ≡ self.old.file }
        ensures first { self.new.first ≡ self.old.first }
        ensures time { self.new.time ≡ next_moment self.old.time }
        ensures recorded { OnOk result (self.new.log ≡ record { time = next_moment self.old.time; change = change_of step [] } ∷ self.old.log) }
        ensures refused { OnErr result (Recorded (next_moment self.old.time) nothing self.old.log self.new.log) }
        ensures cause { HasCause Failed self.old.faults self.new.faults result }
    {
        if self.is_next_failing() {
            return Err(self.refuse(Step::Nothing));
        }
        self.time = self.time.saturating_add(1);
        let time = self.time;
        if !self.log.push(Call { time, step }) {
            self.faults = self.faults.saturating_add(1);
            return Err(DiskFault::Failed);
        }
        Ok(())
    }
}

impl Disk for MemoryDisk {
    ghost seen = { λ d. Some d.file.0 };

    ghost may_leave = { λ d. leaves_after d.first.items d.log };

    ghost clock = { λ d. clock_of d.time };

    ghost left_at = { λ d. left_within d.first.items d.log };

    ghost room = { λ d. d.file.1 };

    ghost faults = { λ d. d.faults };

    ghost holds_store = { λ d. d.holds_store };

    ghost within = { λ d. d.within };

    ghost itself = { λ d. itself_of d.first.items d.log d.file.0 d.is_file };

    ghost now_is_last = { λ d. last_of d.first.items d.log (clock_of d.time) d.rises };

    fn len(&mut self) -> Result<u64, DiskFault> {
        self.pass(Step::Nothing)?;
        Ok(self.file.as_slice().len() as u64)
    }

    fn read(&mut self, at: u64, buf: &mut [u8]) -> Result<usize, DiskFault> {
        self.pass(Step::Nothing)?;
        Ok(read_from(self.file.as_slice(), at, buf))
    }

    fn write_at(&mut self, at: u64, bytes: &[u8]) -> Result<(), DiskFault> {
        let at = at as usize;
        if self.is_next_failing() {
            let count = bytes.len();
            return Err(self.refuse(Step::Tore { at, count }));
        }
        if !self.log.has_room_for(bytes.len()) {
            return Err(self.refuse(Step::Nothing));
        }
        self.time = self.time.saturating_add(1);
        if !self.log.push_write(self.time, at, bytes) {
            self.faults = self.faults.saturating_add(1);
            return Err(DiskFault::Failed);
        }
        self.file.write(at, bytes);
        Ok(())
    }

    fn cut(&mut self, len: u64) -> Result<(), DiskFault> {
        if self.is_next_failing() {
            return Err(self.refuse(Step::FailedCut { len }));
        }
        self.time = self.time.saturating_add(1);
        let time = self.time;
        let step = Step::Cut { len };
        if !self.log.push(Call { time, step }) {
            self.faults = self.faults.saturating_add(1);
            return Err(DiskFault::Failed);
        }
        self.file.cut(len);
        Ok(())
    }

    fn sync(&mut self) -> Result<(), DiskFault> {
        self.pass(Step::Synced)
    }

    fn rest(&mut self) {
        self.time = self.time.saturating_add(1);
    }

    fn room(&self) -> u64 {
        self.file.room() as u64
    }

    fn faults(&self) -> u64 {
        self.faults
    }
}
