use ap_text::{Bytes, List, Name};

/// A builder that may be configured: its name, the patterns of the paths that it takes where the
/// configuration gives none, and its version where the configuration gives none.
#[derive(Drop)]
pub struct Offer {
    pub name: Name,
    pub patterns: List<Bytes>,
    pub version: u32,
}
