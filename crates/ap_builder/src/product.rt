use ap_rows::{LegacyRow, RefRow};
use ap_text::{Bytes, FileName, List, Name};

/// A file that a job made. Its `kind` is the asset type, and `sub` its number among the source's products.
#[derive(Drop)]
pub struct Product {
    pub name: FileName,
    pub kind: Name,
    pub sub: u32,
    pub bytes: Bytes,
    pub refs: List<RefRow>,
    pub legacy: LegacyRow,
}
