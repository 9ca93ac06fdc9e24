ghost use Rattle.std.specs.Prelude.{◌≡◌, ◌≤◌, length, IsTrue, true, Some, None, OnOk, OnErr};
ghost use Rattle.ap_tree.specs.Files.{has_distinct_paths};
ghost use Rattle.ap_tree.specs.Changes.{Puts};
ghost use Rattle.ap_tree.specs.Slots.{slot_of};

use ap_text::{Bytes, OutOfMemory};
use std::alloc::Global;

/// Makes or replaces the file at a path.
pub(crate) fn put_file(
    alloc: Global,
    files: &mut Vec<(Bytes, Bytes)>,
    path: &[u8],
    bytes: &[u8],
) -> Result<(), OutOfMemory>
    requires { IsTrue (has_distinct_paths files.old.items) }
    ensures puts { OnOk result (Puts files.old.items files.new.items path.now (Some bytes.now)) }
    ensures refused { OnErr result (files.new.items ≡ files.old.items) }
    ensures distinct { IsTrue (has_distinct_paths files.new.items) }
{
    let path_copy = Bytes::of(path.to_vec(alloc)?);
    let bytes_copy = Bytes::of(bytes.to_vec(alloc)?);
    let at = slot(files, path);
    if at < files.len() {
        files[at] = (path_copy, bytes_copy);
    } else {
        files.push((path_copy, bytes_copy))?;
    }
    Ok(())
}

/// Leaves out the file at a path, where there is one.
pub(crate) fn drop_file(files: &mut Vec<(Bytes, Bytes)>, path: &[u8])
    requires { IsTrue (has_distinct_paths files.old.items) }
    ensures puts { Puts files.old.items files.new.items path.now None }
    ensures distinct { IsTrue (has_distinct_paths files.new.items) }
{
    let at = slot(files, path);
    if at < files.len() {
        files.remove(at);
    }
}

fn slot(files: &[(Bytes, Bytes)], path: &[u8]) -> usize
    ensures place { result ≡ slot_of files.now path.now }
    ensures bound { result ≤ length files.now }
{
    let mut at = 0;
    let mut rest = files;
    while let [first, after @ ..] = rest {
        if first.0.as_slice() == path {
            return at;
        }
        at += 1;
        rest = after;
    }
    at
}
