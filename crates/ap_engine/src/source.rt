use ap_content::Number;
use ap_text::RelPath;

/// A file that some builder matches, with the number of its bytes.
#[derive(Drop)]
pub(crate) struct Source {
    pub(crate) path: RelPath,
    pub(crate) order: u32,
    pub(crate) name: RelPath,
    pub(crate) content: Number,
}
