ghost use Rattle.std.specs.Prelude.{◌≡◌, ◌≤◌, ◌+◌, ◌-◌, ◌++◌, length, take, [], Option, Some, None};

use crate::sink::{Sink, SinkFault};

/// A sink over a buffer, which fails only where the buffer is full.
#[derive(Drop)]
pub struct SureMemorySink {
    room: Vec<u8>,
    taken: usize,
    faults: u64,
    ghost within: { taken ≤ length room.items },
}

impl SureMemorySink {
    /// A sink that takes as many bytes as the room has.
    pub fn new(room: Vec<u8>) -> Self
        ensures written { ⟦<SureMemorySink as Sink>⟧.written result ≡ Some [] }
        ensures room { ⟦<SureMemorySink as Sink>⟧.room result ≡ length room.items }
    {
        SureMemorySink {
            room,
            taken: 0,
            faults: 0,
        }
    }

    /// What was written.
    pub fn written(&self) -> &[u8]
        ensures { ⟦<SureMemorySink as Sink>⟧.written self.now ≡ Some result.now }
    {
        &self.room[..self.taken]
    }
}

impl Sink for SureMemorySink {
    ghost written = { λ s. Some (take s.taken s.room.items) };

    ghost faults = { λ s. s.faults };

    ghost room = { λ s. length s.room.items - s.taken };

    fn write(&mut self, bytes: &[u8]) -> Result<usize, SinkFault> {
        let free = self.room.len() - self.taken;
        let count = free.min(bytes.len());
        if count == 0 && !bytes.is_empty() {
            self.faults = self.faults.saturating_add(1);
            return Err(SinkFault::Failed);
        }
        put(&mut self.room, self.taken, &bytes[..count]);
        self.taken += count;
        Ok(count)
    }

    fn faults(&self) -> u64 {
        self.faults
    }
}

fn put(room: &mut [u8], at: usize, bytes: &[u8])
    requires { at + length bytes.now ≤ length room.old }
    ensures { take (at + length bytes.now) room.new ≡ take at room.old ++ bytes.now }
{
    room[at..at + bytes.len()].copy_from_slice(bytes);
}
