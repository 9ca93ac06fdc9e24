use crate::bytes::Bytes;

/// How a file is seen.
#[derive(Drop)]
pub enum Seen {
    /// It is there, with these bytes.
    Bytes(Bytes),
    /// There is no such file.
    Absent,
    /// It is there, and has more bytes than its reader takes.
    TooLarge,
}

/// What is counted against a limit.
#[derive(Clone, Copy, Debug, PartialEq, Eq)]
pub enum Which {
    Files,
    Bytes,
    Jobs,
    ProductBytes,
    Tickets,
}
