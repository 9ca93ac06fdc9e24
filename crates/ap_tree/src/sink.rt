ghost use Rattle.std.specs.Prelude.{◌≡◌, ◌≤◌, ◌<◌, ◌+◌, ℕ, List, Option, length, take, IfOk, OnErr};
ghost use Rattle.ap_text.specs.Causes.{HasCause};
ghost use Rattle.ap_tree.specs.Written.{Gains};
ghost use Rattle.ap_tree.specs.declared.sink.SinkFault.TheVariants.{Failed};

/// Why a sink took nothing.
#[derive(Clone, Copy, Debug, PartialEq, Eq)]
pub enum SinkFault {
    /// The sink failed, and its count of faults rose.
    Failed,
}

/// Where a report is written to.
pub trait Sink {
    /// The bytes that were written, where the object tells them.
    ghost written: { Self → Option (List ℕ) };

    /// How often the sink has failed, at most 2^64 - 1.
    ghost faults: { Self → ℕ };

    /// How many bytes it still takes without a fault, where it can say; else none.
    ghost room: { Self → ℕ } = { λ _. 0 };

    /// Takes some of the bytes, from the front, and says how many: at least one of a piece that isn't empty. It
    /// takes no memory.
    fn write(&mut self, bytes: &[u8]) -> Result<usize, SinkFault>
        ensures bound { IfOk result (λ count. count ≤ length bytes.now) }
        ensures progress { IfOk result (λ count. 0 < length bytes.now → 0 < count) }
        ensures written { IfOk result (λ count. Gains (written self.old) (written self.new) (take count bytes.now)) }
        ensures refused { OnErr result (written self.new ≡ written self.old) }
        ensures room { IfOk result (λ count. room self.old ≤ room self.new + count) }
        ensures full { OnErr result (room self.old ≡ 0) }
        ensures cause { HasCause Failed (faults self.old) (faults self.new) result };

    fn faults(&self) -> u64
        ensures { result ≡ faults self.now };
}
