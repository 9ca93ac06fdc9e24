use ap_scan::{Hidden, Odd};
use ap_text::List;

/// The hidden files and the odd names of the scan folders.
#[derive(Drop)]
pub struct OtherFiles {
    /// By their names in lower case, then by order, then by name.
    pub hidden: List<Hidden>,
    /// By order, then by name.
    pub odd: List<Odd>,
}
