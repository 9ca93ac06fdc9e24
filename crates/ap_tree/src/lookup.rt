ghost use Rattle.std.specs.Prelude.{◌≡◌, IfOk, MatchOption, Some, None, is_none};
ghost use Rattle.ap_tree.specs.Files.{is_below_lem, names_below, content_at, paths, has_distinct_paths};

use ap_text::{Bytes, OutOfMemory};
use std::alloc::Global;

/// Whether no path stands twice.
pub fn are_distinct(files: &[(Bytes, Bytes)]) -> bool
    ensures { result ≡ has_distinct_paths files.now }
{
    let mut rest = files;
    while let [first, after @ ..] = rest {
        if find_content(after, first.0.as_slice()).is_some() {
            return false;
        }
        rest = after;
    }
    true
}

/// The bytes of the file at a path.
pub(crate) fn find_content<'a>(files: &'a [(Bytes, Bytes)], path: &[u8]) -> Option<&'a Bytes>
    ensures { MatchOption result (content_at files.now path.now ≡ None) (λ bytes. content_at files.now path.now ≡ Some bytes.now) }
{
    let mut rest = files;
    while let [first, after @ ..] = rest {
        if first.0.as_slice() == path {
            return Some(&first.1);
        }
        rest = after;
    }
    None
}

/// The names of the files below a folder, relative to it.
pub(crate) fn list_below(
    alloc: Global,
    files: &[(Bytes, Bytes)],
    folder: &[u8],
) -> Result<Vec<Bytes>, OutOfMemory>
    ensures { IfOk result (λ names. names.items ≡ names_below folder.now files.now) }
{
    let mut names = Vec::new(alloc);
    let mut rest = files;
    while let [first, after @ ..] = rest {
        if is_below(folder, first.0.as_slice()) {
            let name = first.0.as_slice()[folder.len() + 1..].to_vec(alloc)?;
            names.push(Bytes::of(name))?;
        }
        rest = after;
    }
    Ok(names)
}

/// The paths of all files.
pub(crate) fn all_paths(alloc: Global, files: &[(Bytes, Bytes)]) -> Result<Vec<Bytes>, OutOfMemory>
    ensures { IfOk result (λ names. names.items ≡ paths files.now) }
{
    let mut names = Vec::new(alloc);
    let mut rest = files;
    while let [first, after @ ..] = rest {
        names.push(first.0.copy(alloc)?)?;
        rest = after;
    }
    Ok(names)
}

fn is_below(folder: &[u8], path: &[u8]) -> bool
    ensures { result ≡ is_below_lem folder.now path.now }
{
    folder.len() < path.len() && path.starts_with(folder) && path[folder.len()] == b'/'
}
