ghost use Rattle.std.specs.Prelude.{◌≤◌, length, IfOk};

use ap_system::fill;
use std::io;
use std::io::{Read, Seek, SeekFrom};

/// How many bytes are read at once, where fewer are asked for.
const AHEAD: usize = 8192;

/// What was last read of a file, so that neighbouring small reads are one call of the system.
#[derive(Drop)]
pub(crate) struct ReadAhead {
    at: u64,
    len: usize,
    bytes: [u8; AHEAD],
}

impl ReadAhead {
    pub(crate) fn new() -> Self {
        ReadAhead {
            at: 0,
            len: 0,
            bytes: [0; AHEAD],
        }
    }

    /// Knows nothing of the file any more, as it changes.
    pub(crate) fn forget(&mut self) {
        self.len = 0;
    }

    /// The bytes that are known from an offset on.
    fn known(&self, at: u64) -> &[u8] {
        if at < self.at {
            return &[];
        }
        let skipped = at - self.at;
        if skipped >= self.len as u64 {
            return &[];
        }
        self.bytes.get(skipped as usize..self.len).unwrap_or(&[])
    }

    fn fill<F: Read + Seek>(&mut self, file: &mut F, at: u64) -> io::Result<()> {
        self.forget();
        let count = read_all_at(file, at, &mut self.bytes)?;
        self.at = at;
        self.len = count;
        Ok(())
    }

    /// Reads from an offset until the buffer is full or the file ends.
    pub(crate) fn read_at<F: Read + Seek>(
        &mut self,
        file: &mut F,
        at: u64,
        buf: &mut [u8],
    ) -> io::Result<usize>
        ensures { IfOk result (λ count. count ≤ length buf.old) }
    {
        if buf.len() >= AHEAD {
            return read_all_at(file, at, buf);
        }
        if self.known(at).len() < buf.len() {
            self.fill(file, at)?;
        }
        let known = self.known(at);
        let count = known.len().min(buf.len());
        buf[..count].copy_from_slice(&known[..count]);
        Ok(count)
    }
}

/// Reads from an offset until the buffer is full or the file ends, past what is known.
fn read_all_at<F: Read + Seek>(file: &mut F, at: u64, buf: &mut [u8]) -> io::Result<usize>
    ensures { IfOk result (λ count. count ≤ length buf.old) }
{
    file.seek(SeekFrom::Start(at))?;
    fill(file, buf)
}
