ghost use Rattle.std.specs.Prelude.{◌≡◌, ◌+◌, ◌-◌, ◌^◌, ◌≤◌, min, length, IfOk, Option, Some, None};

use crate::sink::{Sink, SinkFault};
use ap_system::{Culprit, Failure};
use std::io;
use std::io::{Error, ErrorKind, Write};

/// A sink over any writer. It tells nothing of what was written. A write that a signal interrupts is made again.
#[derive(Drop)]
pub struct StdSink<W> {
    writer: W,
    faults: u64,
    failed: Option<Failure>,
}

impl<W: Write> StdSink<W> {
    pub fn new(writer: W) -> Self {
        StdSink {
            writer,
            faults: 0,
            failed: None,
        }
    }

    /// The write that failed last, with the name that the writer is to have.
    pub fn culprit<'a>(&'a self, name: &'a str) -> Option<Culprit<'a>> {
        match &self.failed {
            Some(failure) => Some(Culprit::new(name, failure)),
            None => None,
        }
    }

    /// Counts a fault.
    fn fault(&mut self, error: Error) -> SinkFault
        ensures later { self.old.faults ≤ self.new.faults }
        ensures rose { self.new.faults ≡ min (self.old.faults + 1) (2 ^ 64 - 1) }
    {
        self.faults = self.faults.saturating_add(1);
        self.failed = Some(Failure::new("write", error));
        SinkFault::Failed
    }
}

impl<W: Write> Sink for StdSink<W> {
    ghost written = { λ _. None };

    ghost faults = { λ s. s.faults };

    fn write(&mut self, bytes: &[u8]) -> Result<usize, SinkFault> {
        if bytes.is_empty() {
            return Ok(0);
        }
        match write_some(&mut self.writer, bytes) {
            Ok(0) => Err(self.fault(Error::from(ErrorKind::WriteZero))),
            Ok(count) => Ok(count),
            Err(error) => Err(self.fault(error)),
        }
    }

    fn faults(&self) -> u64 {
        self.faults
    }
}

/// Writes some of the bytes, from the front, and answers how many. A call that a signal interrupts is made again.
fn write_some<W: Write>(writer: &mut W, bytes: &[u8]) -> io::Result<usize>
    ensures { IfOk result (λ count. count ≤ length bytes.now) }
{
    for _ in 0..u64::MAX {
        match writer.write(bytes) {
            Err(error) if error.kind() == ErrorKind::Interrupted => {}
            result => return result,
        }
    }
    Err(Error::from(ErrorKind::Interrupted))
}
