use crate::job::JobDesc;
use ap_content::Number;
use ap_text::{JobId, Name, Platform, RelPath};

/// A builder that matches a source, and its version.
#[derive(Drop)]
pub struct MatchingBuilder<'a> {
    pub name: &'a Name,
    pub version: u32,
}

/// How a file is seen, its bytes as a thing.
#[derive(Clone, Copy, Debug, PartialEq, Eq)]
pub enum SeenThing {
    Bytes(Number),
    Absent,
    TooLarge,
}

/// A file that a source reaches, by its folded path.
#[derive(Drop)]
pub struct ReachedFile<'a> {
    pub path: &'a RelPath,
    pub seen: SeenThing,
}

/// What the jobs of a source are created from: the builders that match it, the platforms, its folded path, how
/// it is seen, and the files that it reaches.
#[derive(Drop)]
pub struct CreateParts<'a> {
    pub builders: &'a [MatchingBuilder<'a>],
    pub platforms: &'a [Platform],
    pub path: &'a RelPath,
    pub seen: SeenThing,
    pub reached: &'a [ReachedFile<'a>],
}

/// What a dependency on a job hands over: the thing of that job's products, and for `Fingerprint` the thing of its
/// input too.
#[derive(Drop)]
pub enum HandedThings<'a> {
    Order {
        job: &'a JobId,
        products: Number,
    },
    Fingerprint {
        job: &'a JobId,
        input: Number,
        products: Number,
    },
}

/// What a job's products are made from: the job as its builder describes it, its source's folded path and bytes, the
/// files that the source reaches, and what the job's dependencies hand over.
#[derive(Drop)]
pub struct JobParts<'a> {
    pub job: &'a JobDesc,
    pub path: &'a RelPath,
    pub bytes: Number,
    pub reached: &'a [ReachedFile<'a>],
    pub handed: &'a [HandedThings<'a>],
}
