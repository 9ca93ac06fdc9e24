//! The words by which a line is a directive.
ghost use Rattle.std.specs.Prelude.{◌≡◌, ◌==◌, ◌≤◌, length, position};
ghost use Rattle.std.specs.List.{position_or_len, before_last, after_last};
ghost use Rattle.ap_samples.specs.Words.{word_by, word_in, argument_in};

/// What a directive is about.
#[derive(Clone, Copy, Debug, PartialEq, Eq)]
pub enum Word {
    Include,
    Glob,
    After,
    Once,
    Print,
    Key,
    Priority,
    Part,
    Ref,
    OldSub,
    Formerly,
    Fail,
}

/// The first place of a byte.
fn position_of(bytes: &[u8], byte: u8) -> Option<usize>
    ensures { result ≡ position (λ b. b == byte) bytes.now }
{
    bytes.iter().position(|b| *b == byte)
}

/// The first place of a byte, or the number of bytes where it isn't there.
#[tactic(auto, using(crate::proofs::Places::placing))]
pub(crate) fn place_of(bytes: &[u8], byte: u8) -> usize
    ensures place { result ≡ position_or_len (λ b. b == byte) bytes.now }
    ensures within { result ≤ length bytes.now }
{
    position_of(bytes, byte).unwrap_or(bytes.len())
}

/// What stands before the last place of a byte, and behind it. Where it isn't there, nothing and all.
pub(crate) fn split_last(bytes: &[u8], byte: u8) -> (&[u8], &[u8])
    ensures before { result.0.now ≡ before_last (λ b. b == byte) bytes.now }
    ensures behind { result.1.now ≡ after_last (λ b. b == byte) bytes.now }
{
    let mut end = bytes.len();
    while end > 0 {
        end -= 1;
        if bytes[end] == byte {
            return (&bytes[..end], &bytes[end + 1..]);
        }
    }
    (&[], bytes)
}

/// The word that these bytes are.
#[tactic(auto, unfolding(crate::specs::Words::word_by))]
fn named(bytes: &[u8]) -> Option<Word>
    ensures { result ≡ word_by bytes.now }
{
    if bytes == b"include".as_slice() {
        Some(Word::Include)
    } else if bytes == b"glob".as_slice() {
        Some(Word::Glob)
    } else if bytes == b"after".as_slice() {
        Some(Word::After)
    } else if bytes == b"once".as_slice() {
        Some(Word::Once)
    } else if bytes == b"print".as_slice() {
        Some(Word::Print)
    } else if bytes == b"key".as_slice() {
        Some(Word::Key)
    } else if bytes == b"priority".as_slice() {
        Some(Word::Priority)
    } else if bytes == b"part".as_slice() {
        Some(Word::Part)
    } else if bytes == b"ref".as_slice() {
        Some(Word::Ref)
    } else if bytes == b"oldsub".as_slice() {
        Some(Word::OldSub)
    } else if bytes == b"formerly".as_slice() {
        Some(Word::Formerly)
    } else if bytes == b"fail".as_slice() {
        Some(Word::Fail)
    } else {
        None
    }
}

/// The word of a line, None where it is plain.
pub(crate) fn word_of(line: &[u8]) -> Option<Word>
    ensures { result ≡ word_in line.now }
{
    match line {
        [b'@', behind @ ..] => named(&behind[..place_of(behind, b' ')]),
        _ => None,
    }
}

/// What stands behind the first space of a line, or nothing.
pub(crate) fn argument(line: &[u8]) -> &[u8]
    ensures { result.now ≡ argument_in line.now }
{
    let end = place_of(line, b' ');
    if end < line.len() {
        &line[end + 1..]
    } else {
        &[]
    }
}
