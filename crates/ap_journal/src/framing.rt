ghost use Rattle.std.specs.Prelude.{◌≡◌, ◌≤◌, ◌<◌, ◌+◌, ◌^◌, length, OnOk, OnErr, vec_capacity};
ghost use Rattle.ap_journal.specs.Changes.{frame};

use std::alloc::AllocError;

/// Where the first record of a file is, behind its header.
pub(crate) const FIRST: u64 = 16;

/// What a record takes beside its payload, in bytes: its gate and its length.
pub(crate) const HEAD: u64 = 5;

/// The gate of a record that stands.
pub(crate) const OPEN: u8 = 1;

/// The gate behind the last record.
pub(crate) const CLOSED: u8 = 0;

/// Makes this buffer what a commit of a payload writes behind the closed gate: the length, the payload and
/// the next gate, closed. It takes memory only where the buffer has too little.
pub(crate) fn fill(buffer: &mut Vec<u8>, payload: &[u8]) -> Result<(), AllocError>
    requires { length payload.now < 2 ^ 32 }
    ensures frame { OnOk result (buffer.new.items ≡ frame payload.now) }
    ensures grows { vec_capacity buffer.old ≤ vec_capacity buffer.new }
    ensures memory { OnErr result (vec_capacity buffer.old < length payload.now + 5) }
    ensures kept { OnErr result (vec_capacity buffer.new ≡ vec_capacity buffer.old) }
{
    buffer.clear();
    buffer.reserve(payload.len() + 5)?;
    buffer.extend_from_slice(&(payload.len() as u32).to_be_bytes())?;
    buffer.extend_from_slice(payload)?;
    buffer.push(CLOSED)?;
    Ok(())
}
