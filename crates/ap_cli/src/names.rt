//! The names that the builder `copy` gives.
ghost use Rattle.std.specs.Prelude.{◌≡◌, IfOk};
ghost use Rattle.ap_cli.specs.CopyBuilder.{copy_name};

use ap_text::{Name, NameFault, OutOfMemory};
use std::alloc::Global;

/// The builder `copy`, which is the key and the type of its jobs and products too.
pub(crate) fn copy(alloc: Global) -> Result<Name, OutOfMemory>
    ensures { IfOk result (λ name. name ≡ copy_name) }
{
    match Name::read(alloc, b"copy") {
        Ok(name) => Ok(name),
        Err(NameFault::OutOfMemory) => Err(OutOfMemory),
        Err(NameFault::Bad) => unreachable!(),
    }
}
