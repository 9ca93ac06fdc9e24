use ap_content::Number;
use ap_text::{FileName, List, Name, RelPath};

/// A dependency of a product on another product, by its source's folded path and its sub id.
#[derive(Drop)]
pub struct RefRow {
    pub path: RelPath,
    pub sub: u32,
}

/// The ids that a product had before: former sub ids of its source, and former folded paths of its source.
#[derive(Drop)]
pub struct LegacyRow {
    pub old: List<u32>,
    pub formerly: List<RelPath>,
}

/// A file that a job made, its bytes as a thing. Its `kind` is the asset type, and `sub` its number among
/// the source's products.
#[derive(Drop)]
pub struct ProductRow {
    pub name: FileName,
    pub kind: Name,
    pub sub: u32,
    pub bytes: Number,
    pub refs: List<RefRow>,
    pub legacy: LegacyRow,
}
