ghost use Rattle.std.specs.Prelude.{◌≡◌, ℕ, ◌+◌, ◌≤◌, List, length, Option, IfOk, IfSome};
ghost use Rattle.ap_text.specs.Causes.{HasCause};
ghost use Rattle.ap_disk.specs.declared.disk.DiskFault.TheVariants.{Failed};
ghost use Rattle.ap_disk.specs.Calls.{Reads, Wrote, WasCut, Synced};
ghost use Rattle.ap_disk.specs.Crashes.{Torn, Shortened, AfterStep};
ghost use Rattle.ap_disk.specs.Clocks.{Ticks, Moments};

/// Why a disk didn't do what it was asked.
#[derive(Clone, Copy, Debug, PartialEq, Eq)]
pub enum DiskFault {
    /// The file failed. It comes only where the disk's count of faults has risen in the call.
    Failed,
}

/// A file of bytes that outlasts a crash in part. A write or a cut is sure to last only from the next
/// successful sync on. No call takes memory.
///
/// The calls on `&mut self` are counted by the clock; the moment t is the t-th of them, from its start to its
/// end. A disk tells what it reads and its images of now after a call exactly where it told them before.
pub trait Disk {
    /// The bytes that a read gives, where the disk tells them.
    ghost seen: { Self → Option (List ℕ) };

    /// Where it tells them: what a crash now may leave.
    ghost may_leave: { Self → List ℕ → Type 0 };

    /// How many calls were made on it, where it tells that.
    ghost clock: { Self → Option ℕ };

    /// Where it tells its clock: what a crash within the t-th call may have left.
    ghost left_at: { Self → ℕ → List ℕ → Type 0 };

    /// How many bytes the file may have.
    ghost room: { Self → ℕ };

    /// How often the disk has failed.
    ghost faults: { Self → ℕ };

    /// The length of the file, in bytes.
    fn len(&mut self) -> Result<u64, DiskFault>
        ensures length { IfOk result (λ count. IfSome (seen self.old) (λ bytes. count ≡ length bytes)) }
        ensures bound { IfOk result (λ count. count ≤ room self.old) }
        ensures seen { seen self.new ≡ seen self.old }
        ensures crash { (c : List ℕ) → may_leave self.new c → may_leave self.old c }
        ensures time { Ticks (clock self.old) (clock self.new) }
        ensures moments { Moments (clock self.new) (left_at self.old) (left_at self.new) (may_leave self.old) }
        ensures room { room self.new ≡ room self.old }
        ensures cause { HasCause Failed (faults self.old) (faults self.new) result };

    /// Reads the bytes from an offset on, as many as lie in the file and fit, and gives their number.
    fn read(&mut self, at: u64, buf: &mut [u8]) -> Result<usize, DiskFault>
        ensures bytes { IfOk result (λ count. Reads (seen self.old) at buf.old count buf.new) }
        ensures seen { seen self.new ≡ seen self.old }
        ensures crash { (c : List ℕ) → may_leave self.new c → may_leave self.old c }
        ensures time { Ticks (clock self.old) (clock self.new) }
        ensures moments { Moments (clock self.new) (left_at self.old) (left_at self.new) (may_leave self.old) }
        ensures room { room self.new ≡ room self.old }
        ensures cause { HasCause Failed (faults self.old) (faults self.new) result };

    /// Writes bytes at an offset. A gap between the old end and the offset reads as zeros.
    fn write_at(&mut self, at: u64, bytes: &[u8]) -> Result<(), DiskFault>
        requires { at + length bytes.now ≤ room self.old }
        ensures written { Wrote at bytes.now result (seen self.old) (seen self.new) }
        ensures crash { (c : List ℕ) → may_leave self.new c → AfterStep (Torn at (length bytes.now)) (may_leave self.old) c }
        ensures time { Ticks (clock self.old) (clock self.new) }
        ensures moments { Moments (clock self.new) (left_at self.old) (left_at self.new)
            (AfterStep (Torn at (length bytes.now)) (may_leave self.old)) }
        ensures room { room self.new ≡ room self.old }
        ensures cause { HasCause Failed (faults self.old) (faults self.new) result };

    /// Cuts the file to a length. A length that isn't smaller changes nothing.
    fn cut(&mut self, len: u64) -> Result<(), DiskFault>
        ensures cut { WasCut len result (seen self.old) (seen self.new) }
        ensures crash { (c : List ℕ) → may_leave self.new c → AfterStep (Shortened len) (may_leave self.old) c }
        ensures time { Ticks (clock self.old) (clock self.new) }
        ensures moments { Moments (clock self.new) (left_at self.old) (left_at self.new)
            (AfterStep (Shortened len) (may_leave self.old)) }
        ensures room { room self.new ≡ room self.old }
        ensures cause { HasCause Failed (faults self.old) (faults self.new) result };

    /// Makes all earlier writes and cuts last: a crash from now on leaves what a read gives.
    fn sync(&mut self) -> Result<(), DiskFault>
        ensures durable { Synced result (seen self.new) (may_leave self.new) }
        ensures seen { seen self.new ≡ seen self.old }
        ensures crash { (c : List ℕ) → may_leave self.new c → may_leave self.old c }
        ensures time { Ticks (clock self.old) (clock self.new) }
        ensures moments { Moments (clock self.new) (left_at self.old) (left_at self.new) (may_leave self.old) }
        ensures room { room self.new ≡ room self.old }
        ensures cause { HasCause Failed (faults self.old) (faults self.new) result };

    /// Lets a moment pass, and does nothing else.
    fn rest(&mut self)
        ensures seen { seen self.new ≡ seen self.old }
        ensures crash { (c : List ℕ) → may_leave self.new c → may_leave self.old c }
        ensures time { Ticks (clock self.old) (clock self.new) }
        ensures moments { Moments (clock self.new) (left_at self.old) (left_at self.new) (may_leave self.old) }
        ensures room { room self.new ≡ room self.old }
        ensures faults { faults self.new ≡ faults self.old };

    /// How many bytes the file may have.
    fn room(&self) -> u64
        ensures { result ≡ room self.now };

    /// How often the disk has failed.
    fn faults(&self) -> u64
        ensures { result ≡ faults self.now };

    /// There is room for the header of a store and its closed gate.
    ghost holds_store: { (disk : Self) → 17 ≤ room disk };

    /// The file is within its room.
    ghost within: { (disk : Self) → IfSome (seen disk) (λ bytes. length bytes ≤ room disk) };

    /// What is read is one of the images of now.
    ghost itself: { (disk : Self) → IfSome (seen disk) (λ bytes. may_leave disk bytes) };

    /// A crash after the last call leaves what a crash within it may have left.
    ghost now_is_last: { (disk : Self) → IfSome (clock disk) (λ t. (c : List ℕ) → may_leave disk c → left_at disk t c) };
}
