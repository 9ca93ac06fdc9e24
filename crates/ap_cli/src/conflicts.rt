ghost use Rattle.std.specs.Prelude.{◌≡◌, ◌++◌, ◌∷◌, [], nat_eq, map, false, IfOk, IsTrue};
ghost use Rattle.ap_cli.specs.Layout.{AreApart, closed};
ghost use Rattle.ap_cli.specs.Neighbours.{has_front_next, front_of_next};
ghost use Rattle.ap_cli.specs.ProductIds.{AreDistinct, plain_id};

use crate::layout::{CacheFile, ProductId};
use ap_text::{Bytes, OutOfMemory};
use std::alloc::Global;

/// Whether no two files are in each other's way. It sorts the paths, each closed by a slash: a path that is
/// another one or a folder of it then stands right before one that it begins.
pub(crate) fn are_apart(alloc: Global, files: &[CacheFile<'_>]) -> Result<bool, OutOfMemory>
    ensures apart { IfOk result (λ apart. IsTrue apart → AreApart files.now) }
    ensures met { IfOk result (λ apart. apart ≡ false → ¬ AreApart files.now) }
{
    let mut paths = close_all(alloc, files)?;
    paths.sort_unstable();
    Ok(!begins_next(&paths))
}

/// The paths, each closed by a slash.
fn close_all(alloc: Global, files: &[CacheFile<'_>]) -> Result<Vec<Bytes>, OutOfMemory>
    ensures { IfOk result (λ paths. paths.items ≡ map (λ file. closed file.0) files.now) }
{
    let mut paths = Vec::with_capacity(alloc, files.len())?;
    let mut rest = files;
    while let [file, after @ ..] = rest {
        paths.push(close(alloc, file.path())?)?;
        rest = after;
    }
    Ok(paths)
}

fn close(alloc: Global, path: &[u8]) -> Result<Bytes, OutOfMemory>
    ensures { IfOk result (λ whole. whole ≡ closed path.now) }
{
    let mut whole = path.to_vec(alloc)?;
    whole.push(b'/')?;
    Ok(Bytes::of(whole))
}

/// Whether some path begins the next one.
fn begins_next(paths: &[Bytes]) -> bool
    ensures { result ≡ has_front_next paths.now }
{
    let mut rest = paths;
    while let [first, after @ ..] = rest {
        if is_front_of_next(first, after) {
            return true;
        }
        rest = after;
    }
    false
}

fn is_front_of_next(first: &Bytes, after: &[Bytes]) -> bool
    ensures { result ≡ front_of_next first.now after.now }
{
    match after {
        [next, ..] => next.as_slice().starts_with(first.as_slice()),
        [] => false,
    }
}

/// Whether no two ids are the same. It sorts them.
pub(crate) fn are_distinct_ids(mut ids: Vec<ProductId<'_>>) -> bool
    ensures distinct { IsTrue result → AreDistinct (map plain_id ids.entry.items) }
    ensures shared { result ≡ false → ¬ AreDistinct (map plain_id ids.entry.items) }
{
    ids.sort_unstable();
    ids.is_sorted_by(|a, b| a.cmp(b).is_lt())
}
