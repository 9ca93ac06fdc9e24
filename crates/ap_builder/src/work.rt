use crate::product::Product;
use ap_rows::{DepKind, JobDesc};
use ap_text::{Bytes, JobId, List, Name, Platform, RelPath, Seen};

/// What a builder creates a source's jobs from: the names and versions of the builders that match the
/// source, the platforms, the source's folded path and bytes, and the files that it reaches.
#[derive(Drop)]
pub struct CreateInput {
    pub builders: List<(Name, u32)>,
    pub platforms: List<Platform>,
    pub path: RelPath,
    pub bytes: Bytes,
    pub reached: List<(RelPath, Seen)>,
}

/// The jobs of a source, or the code of the builder's failure.
#[derive(Drop)]
pub enum CreateAnswer {
    Jobs(List<JobDesc>),
    Failed(u32),
}

/// What a dependency hands over: its products, and for `Fingerprint` the 20 bytes of the digest of its
/// input. For `Order` the digest is empty.
#[derive(Drop)]
pub struct Handed {
    pub kind: DepKind,
    pub job: JobId,
    pub products: List<Product>,
    pub print: Bytes,
}

/// What a builder makes a job's products from.
#[derive(Drop)]
pub struct JobInput {
    pub builder: Name,
    pub version: u32,
    pub platform: Platform,
    pub key: Name,
    pub params: Bytes,
    pub path: RelPath,
    pub bytes: Bytes,
    pub reached: List<(RelPath, Seen)>,
    pub handed: List<Handed>,
}

/// The products of a job, or the code of the builder's failure.
#[derive(Drop)]
pub enum Outcome {
    Done(List<Product>),
    Failed(u32),
}
