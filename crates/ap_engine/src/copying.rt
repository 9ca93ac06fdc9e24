//! Copies of bytes out of the contents.
ghost use Rattle.std.specs.Prelude.{◌≡◌, ℕ, List, IfOk};
ghost use Rattle.ap_content.specs.Things.{bytes_thing};
ghost use Rattle.ap_content.specs.Entries.{Stands, Lives};

use ap_content::{Contents, Number};
use ap_text::{Bytes, OutOfMemory as NoMemory};
use std::alloc::Global;

/// A copy of the bytes that a number stands for.
pub(crate) fn copy_bytes(alloc: Global, contents: &Contents, n: Number) -> Result<Bytes, NoMemory>
    requires { Lives contents.now n }
    ensures { IfOk result (λ copy. (bytes : List ℕ) → Stands contents.now n (bytes_thing bytes) → copy ≡ bytes) }
{
    match contents.get(n) {
        Some(node) => node.text.copy(alloc),
        None => unreachable!(),
    }
}
