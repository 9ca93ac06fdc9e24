use crate::text::Text;
use ap_text::List;

/// What the text says of a folder.
#[derive(Drop)]
pub struct FolderValues {
    pub order: u32,
    pub path: Text,
    pub exclude: List<Text>,
}

/// What the text says of a builder: what isn't there is as offered.
#[derive(Drop)]
pub struct BuilderValues {
    pub name: Text,
    pub patterns: Option<List<Text>>,
    pub version: Option<u32>,
}

/// The values that the text has, each of its kind and in its range.
#[derive(Drop)]
pub struct Values {
    pub platforms: List<Text>,
    pub folders: List<FolderValues>,
    pub builders: List<BuilderValues>,
}

/// The keys of a folder that were read so far.
#[derive(Drop)]
pub struct FolderKeys {
    pub order: Option<u32>,
    pub path: Option<Text>,
    pub exclude: List<Text>,
}

/// The keys of a builder that were read so far.
#[derive(Drop)]
pub struct BuilderKeys {
    pub name: Option<Text>,
    pub patterns: Option<List<Text>>,
    pub version: Option<u32>,
}
