ghost use Rattle.std.specs.Prelude.{◌≡◌, ℕ, ◌+◌, ◌≤◌, List, length, IfOk, IfSome};
ghost use Rattle.ap_text.specs.Causes.{HasCause};
ghost use Rattle.ap_disk.specs.declared.disk.DiskFault.TheVariants.{Failed};
ghost use Rattle.ap_disk.specs.Calls.{Reads, Wrote, WasCut, Synced};
ghost use Rattle.ap_disk.specs.Crashes.{Torn, Shortened, AfterStep};
ghost use Rattle.ap_disk.specs.Clocks.{Ticks, Moments, SameTime};
ghost use Rattle.ap_disk.specs.Sides.{on, Rested};

use crate::disk::{Disk, DiskFault};
use crate::side::Side;
use std::marker::Model;

/// Two disks whose calls are one after another: while a call runs on one, the other rests, so that an image
/// of the pair at a moment is an image of the one and an image of the other at that same moment. Contracts
/// see the two disks. No call takes memory.
#[derive(Drop)]
pub struct Pair<D: Disk> {
    a: D,
    b: D,
}

impl<D: Disk> Model for Pair<D> {
    ghost use Rattle.ap_disk.specs.Clocks.{SameTime};

    ghost Value = { D × D };

    ghost view = { λ p. (p.a, p.b) };

    ghost invariant = { λ p. SameTime (D.clock p.a) (D.clock p.b) };
}

impl<D: Disk> Pair<D> {
    /// The pair of two disks whose clocks are equal where they tell them.
    pub fn new(a: D, b: D) -> Self
        requires { SameTime (D.clock a) (D.clock b) }
        ensures { result ≡ (a, b) }
    {
        Pair { a, b }
    }

    pub fn disk(&self, side: Side) -> &D
        ensures disk { result.now ≡ on side self.now }
        ensures together { SameTime (D.clock self.now.0) (D.clock self.now.1) }
    {
        match side {
            Side::A => &self.a,
            Side::B => &self.b,
        }
    }

    pub fn into_disks(self) -> (D, D)
        ensures disks { result ≡ self }
        ensures together { SameTime (D.clock self.0) (D.clock self.1) }
    {
        (self.a, self.b)
    }

    /// How many bytes the file of this disk may have.
    pub fn room(&self, side: Side) -> u64
        ensures { result ≡ D.room (on side self.now) }
    {
        match side {
            Side::A => self.a.room(),
            Side::B => self.b.room(),
        }
    }

    /// The length of the file, in bytes.
    pub fn len(&mut self, side: Side) -> Result<u64, DiskFault>
        ensures length { IfOk result (λ count. IfSome (D.seen (on side self.old)) (λ bytes. count ≡ length bytes)) }
        ensures bound { IfOk result (λ count. count ≤ D.room (on side self.old)) }
        ensures seen { D.seen (on side self.new) ≡ D.seen (on side self.old) }
        ensures crash { (c : List ℕ) → D.may_leave (on side self.new) c → D.may_leave (on side self.old) c }
        ensures time { Ticks (D.clock (on side self.old)) (D.clock (on side self.new)) }
        ensures moments { Moments (D.clock (on side self.new)) (D.left_at (on side self.old)) (D.left_at (on side self.new))
            (D.may_leave (on side self.old)) }
        ensures room { D.room (on side self.new) ≡ D.room (on side self.old) }
        ensures cause { HasCause Failed (D.faults (on side self.old)) (D.faults (on side self.new)) result }
        ensures other { Rested D.seen D.may_leave D.clock D.left_at D.room D.faults side self.old self.new }
        ensures together { SameTime (D.clock self.new.0) (D.clock self.new.1) }
    {
        match side {
            Side::A => {
                let result = self.a.len();
                self.b.rest();
                result
            }
            Side::B => {
                let result = self.b.len();
                self.a.rest();
                result
            }
        }
    }

    /// Reads the bytes from an offset on, as many as lie in the file and fit, and gives their number.
    pub fn read(&mut self, side: Side, at: u64, buf: &mut [u8]) -> Result<usize, DiskFault>
        ensures bytes { IfOk result (λ count. Reads (D.seen (on side self.old)) at buf.old count buf.new) }
        ensures seen { D.seen (on side self.new) ≡ D.seen (on side self.old) }
        ensures crash { (c : List ℕ) → D.may_leave (on side self.new) c → D.may_leave (on side self.old) c }
        ensures time { Ticks (D.clock (on side self.old)) (D.clock (on side self.new)) }
        ensures moments { Moments (D.clock (on side self.new)) (D.left_at (on side self.old)) (D.left_at (on side self.new))
            (D.may_leave (on side self.old)) }
        ensures room { D.room (on side self.new) ≡ D.room (on side self.old) }
        ensures cause { HasCause Failed (D.faults (on side self.old)) (D.faults (on side self.new)) result }
        ensures other { Rested D.seen D.may_leave D.clock D.left_at D.room D.faults side self.old self.new }
        ensures together { SameTime (D.clock self.new.0) (D.clock self.new.1) }
    {
        match side {
            Side::A => {
                let result = self.a.read(at, buf);
                self.b.rest();
                result
            }
            Side::B => {
                let result = self.b.read(at, buf);
                self.a.rest();
                result
            }
        }
    }

    /// Writes bytes at an offset. A gap between the old end and the offset reads as zeros.
    pub fn write_at(&mut self, side: Side, at: u64, bytes: &[u8]) -> Result<(), DiskFault>
        requires { at + length bytes.now ≤ D.room (on side self.old) }
        ensures written { Wrote at bytes.now result (D.seen (on side self.old)) (D.seen (on side self.new)) }
        ensures crash { (c : List ℕ) → D.may_leave (on side self.new) c
            → AfterStep (Torn at (length bytes.now)) (D.may_leave (on side self.old)) c }
        ensures time { Ticks (D.clock (on side self.old)) (D.clock (on side self.new)) }
        ensures moments { Moments (D.clock (on side self.new)) (D.left_at (on side self.old)) (D.left_at (on side self.new))
            (AfterStep (Torn at (length bytes.now)) (D.may_leave (on side self.old))) }
        ensures room { D.room (on side self.new) ≡ D.room (on side self.old) }
        ensures cause { HasCause Failed (D.faults (on side self.old)) (D.faults (on side self.new)) result }
        ensures other { Rested D.seen D.may_leave D.clock D.left_at D.room D.faults side self.old self.new }
        ensures together { SameTime (D.clock self.new.0) (D.clock self.new.1) }
    {
        match side {
            Side::A => {
                let result = self.a.write_at(at, bytes);
                self.b.rest();
                result
            }
            Side::B => {
                let result = self.b.write_at(at, bytes);
                self.a.rest();
                result
            }
        }
    }

    /// Cuts the file to a length. A length that isn't smaller changes nothing.
    pub fn cut(&mut self, side: Side, len: u64) -> Result<(), DiskFault>
        ensures cut { WasCut len result (D.seen (on side self.old)) (D.seen (on side self.new)) }
        ensures crash { (c : List ℕ) → D.may_leave (on side self.new) c
            → AfterStep (Shortened len) (D.may_leave (on side self.old)) c }
        ensures time { Ticks (D.clock (on side self.old)) (D.clock (on side self.new)) }
        ensures moments { Moments (D.clock (on side self.new)) (D.left_at (on side self.old)) (D.left_at (on side self.new))
            (AfterStep (Shortened len) (D.may_leave (on side self.old))) }
        ensures room { D.room (on side self.new) ≡ D.room (on side self.old) }
        ensures cause { HasCause Failed (D.faults (on side self.old)) (D.faults (on side self.new)) result }
        ensures other { Rested D.seen D.may_leave D.clock D.left_at D.room D.faults side self.old self.new }
        ensures together { SameTime (D.clock self.new.0) (D.clock self.new.1) }
    {
        match side {
            Side::A => {
                let result = self.a.cut(len);
                self.b.rest();
                result
            }
            Side::B => {
                let result = self.b.cut(len);
                self.a.rest();
                result
            }
        }
    }

    /// Makes all earlier writes and cuts of this disk last.
    pub fn sync(&mut self, side: Side) -> Result<(), DiskFault>
        ensures durable { Synced result (D.seen (on side self.new)) (D.may_leave (on side self.new)) }
        ensures seen { D.seen (on side self.new) ≡ D.seen (on side self.old) }
        ensures crash { (c : List ℕ) → D.may_leave (on side self.new) c → D.may_leave (on side self.old) c }
        ensures time { Ticks (D.clock (on side self.old)) (D.clock (on side self.new)) }
        ensures moments { Moments (D.clock (on side self.new)) (D.left_at (on side self.old)) (D.left_at (on side self.new))
            (D.may_leave (on side self.old)) }
        ensures room { D.room (on side self.new) ≡ D.room (on side self.old) }
        ensures cause { HasCause Failed (D.faults (on side self.old)) (D.faults (on side self.new)) result }
        ensures other { Rested D.seen D.may_leave D.clock D.left_at D.room D.faults side self.old self.new }
        ensures together { SameTime (D.clock self.new.0) (D.clock self.new.1) }
    {
        match side {
            Side::A => {
                let result = self.a.sync();
                self.b.rest();
                result
            }
            Side::B => {
                let result = self.b.sync();
                self.a.rest();
                result
            }
        }
    }
}
