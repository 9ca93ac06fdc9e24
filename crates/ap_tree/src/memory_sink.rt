ghost use Rattle.std.specs.Prelude.{◌≡◌, take, [], Some};

use crate::calls::Calls;
use crate::sink::{Sink, SinkFault};
use crate::sure_sink::SureMemorySink;

/// A sink over a buffer whose listed calls fail, as does a write where the buffer is full: the calls of `write`
/// are numbered from 1.
#[derive(Drop)]
pub struct MemorySink {
    sink: SureMemorySink,
    calls: Calls,
}

impl MemorySink {
    /// A sink that takes as many bytes as the room has, and the numbers of the calls that fail.
    pub fn new(room: Vec<u8>, failing: Vec<u64>) -> Self
        ensures { ⟦<MemorySink as Sink>⟧.written result ≡ Some [] }
    {
        MemorySink {
            sink: SureMemorySink::new(room),
            calls: Calls::new(failing),
        }
    }

    /// What was written.
    pub fn written(&self) -> &[u8]
        ensures { ⟦<MemorySink as Sink>⟧.written self.now ≡ Some result.now }
    {
        self.sink.written()
    }
}

impl Sink for MemorySink {
    ghost written = { λ s. Some (take s.sink.taken s.sink.room.items) };

    ghost faults = { λ s. s.calls.faults };

    fn write(&mut self, bytes: &[u8]) -> Result<usize, SinkFault> {
        if self.calls.next_fails() {
            return Err(SinkFault::Failed);
        }
        match self.sink.write(bytes) {
            Ok(count) => Ok(count),
            Err(fault) => {
                self.calls.count_fault();
                Err(fault)
            }
        }
    }

    fn faults(&self) -> u64 {
        self.calls.faults()
    }
}
