//! What is published, and what a status tells.
use ap_text::{AssetId, Bytes, Name, Platform};

/// A product as it is published.
#[derive(Drop)]
pub struct HallEntry {
    pub platform: Platform,
    pub id: AssetId,
    /// Its path in the catalogue: 1 to 494 bytes of UTF-8 without upper-case ASCII letters, whose parts obey the rules of a relative path.
    pub path: Bytes,
    /// Its asset type.
    pub kind: Name,
    /// Its contents, at most 268,435,456 bytes.
    pub bytes: Bytes,
}

/// What a hall is at a moment.
#[derive(Clone, Copy, Debug, PartialEq, Eq)]
pub struct Status {
    /// How often products were published. It stops at its last value.
    pub serial: u64,
    /// How many products are published.
    pub products: u64,
    /// How many handles were acquired and aren't released.
    pub handles: u64,
    /// How many scans were asked for. It stops at its last value.
    pub asked: u64,
}
