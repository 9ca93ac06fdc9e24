pub use ap_config::Offer;
use ap_text::{Bytes, RelPath};

/// What the bytes of a source say that it depends on.
#[derive(Drop)]
pub enum Target {
    /// The file of this folded path, or its absence.
    File(RelPath),
    /// All files whose folded paths this pattern matches.
    Glob(Bytes),
}
