//! The lines of a source.
ghost use Rattle.std.specs.Prelude.{◌≡◌, [], MatchOption};
ghost use Rattle.std.specs.Str.Lines.{strip_carriage_return};
ghost use Rattle.ap_samples.specs.Lines.{SplitsLine};

use crate::words::place_of;

/// The first line of the bytes, and what stands behind it. None where there is no byte.
pub(crate) fn first_line(bytes: &[u8]) -> Option<(&[u8], &[u8])>
    ensures { MatchOption result (bytes.now ≡ []) (λ split. SplitsLine bytes.now split.0.now split.1.now) }
{
    if bytes.is_empty() {
        return None;
    }
    let end = place_of(bytes, b'\n');
    if end == bytes.len() {
        return Some((bytes, &[]));
    }
    Some((without_return(&bytes[..end]), &bytes[end + 1..]))
}

/// The bytes without a carriage return at their end.
fn without_return(bytes: &[u8]) -> &[u8]
    ensures { result.now ≡ strip_carriage_return bytes.now }
{
    match bytes {
        [front @ .., b'\r'] => front,
        _ => bytes,
    }
}
