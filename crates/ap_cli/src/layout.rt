ghost use Rattle.std.specs.Prelude.{◌≡◌, ◌++◌, IfOk};
ghost use Rattle.ap_text.specs.PathRules.{parent_lem};
ghost use Rattle.ap_rows.specs.Inputs.{PlainProduct};
ghost use Rattle.ap_cli.specs.Layout.{beside, cache_file};
ghost use Rattle.ap_cli.specs.ProductIds.{plain_id, product_id};
ghost use Rattle.ap_scan.specs.Winners.{in_folder};

use ap_text::{Bytes, FileName, JobId, OutOfMemory};
use std::alloc::Global;
use std::marker::Model;

/// A product as the cache has it: its path, and its bytes, which lie elsewhere.
#[derive(Drop)]
pub(crate) struct CacheFile<'a> {
    path: Bytes,
    bytes: &'a [u8],
}

impl<'a> Model for CacheFile<'a> {
    ghost use Rattle.std.specs.Prelude.{List, ℕ};

    ghost Value = { List ℕ × List ℕ };

    ghost view = { λ f. (f.path, f.bytes.now) };
}

impl<'a> CacheFile<'a> {
    pub(crate) fn path(&self) -> &[u8]
        ensures { result.now ≡ self.now.0 }
    {
        self.path.as_slice()
    }

    pub(crate) fn bytes(&self) -> &[u8]
        ensures { result.now ≡ self.now.1 }
    {
        self.bytes
    }
}

/// A job's product of this name and these bytes as the cache has it.
pub(crate) fn cache_file<'a>(
    alloc: Global,
    id: &JobId,
    name: &FileName,
    bytes: &'a [u8],
) -> Result<CacheFile<'a>, OutOfMemory>
    ensures { IfOk result (λ file. (product : PlainProduct) → product.name ≡ name.now → product.bytes ≡ bytes.now → file ≡ cache_file id.now product) }
{
    let path = cache_path(alloc, id, name.as_slice())?;
    Ok(CacheFile {
        path: Bytes::of(path),
        bytes,
    })
}

/// The id of a job's product, borrowed from the job's row.
#[derive(PartialEq, Eq, PartialOrd, Ord, Drop)]
pub(crate) struct ProductId<'a> {
    source: &'a [u8],
    platform: &'a [u8],
    sub: u32,
}

/// The id of a job's product of this sub id.
pub(crate) fn product_id(id: &JobId, sub: u32) -> ProductId<'_>
    ensures { (product : PlainProduct) → product.sub ≡ sub → plain_id result ≡ product_id id.now product }
{
    ProductId {
        source: id.source.as_slice(),
        platform: id.platform.as_slice(),
        sub,
    }
}

/// The path in the cache of a job's product of this name.
fn cache_path(alloc: Global, id: &JobId, name: &[u8]) -> Result<Vec<u8>, OutOfMemory>
    ensures { IfOk result (λ path. path.items ≡ in_folder id.now.platform (beside (parent_lem id.now.source) name.now)) }
{
    let mut path = id.platform.as_slice().to_vec(alloc)?;
    path.push(b'/')?;
    let name = path_beside(alloc, id.source.parent().as_bytes(), name)?;
    path.extend_from_slice(&name)?;
    Ok(path)
}

fn path_beside(alloc: Global, folder: &[u8], name: &[u8]) -> Result<Vec<u8>, OutOfMemory>
    ensures { IfOk result (λ path. path.items ≡ beside folder.now name.now) }
{
    let mut path = folder.to_vec(alloc)?;
    if !folder.is_empty() {
        path.push(b'/')?;
    }
    path.extend_from_slice(name)?;
    Ok(path)
}
