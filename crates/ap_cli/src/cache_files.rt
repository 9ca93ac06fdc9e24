ghost use Rattle.std.specs.Prelude.{◌≡◌, ◌≤◌, ◌⊎◌, true, IfErr, OnOk};
ghost use Rattle.ap_text.specs.Causes.{Rose};
ghost use Rattle.ap_tree.specs.Files.{has_distinct_paths};
ghost use Rattle.ap_tree.specs.Changes.{TellsAs};
ghost use Rattle.ap_cli.specs.Overlay.{Overlays, LaidAllButOne};
ghost use Rattle.ap_cli.specs.declared.stop.Stop.TheVariants.{Cache, Memory};

use crate::layout::CacheFile;
use crate::stop::Stop;
use ap_tree::{CacheDir, CacheFault};
use std::alloc::Global;

/// Writes all files into the cache, in their order.
pub(crate) fn write_all<C: CacheDir>(
    alloc: Global,
    cache: &mut C,
    files: &[CacheFile<'_>],
) -> Result<(), Stop>
    requires { has_distinct_paths files.now ≡ true }
    ensures put { OnOk result (TellsAs (C.files cache.old) (C.files cache.new) (Overlays files.now)) }
    ensures partly { IfErr result (λ stop. stop ≡ Cache → TellsAs (C.files cache.old) (C.files cache.new) (LaidAllButOne files.now)) }
    ensures cause { IfErr result (λ stop. stop ≡ Cache → Rose (C.faults cache.old) (C.faults cache.new)) }
    ensures only { IfErr result (λ stop. (stop ≡ Memory) ⊎ (stop ≡ Cache)) }
    ensures later { C.faults cache.old ≤ C.faults cache.new }
{
    let mut rest = files;
    while let [file, after @ ..] = rest {
        match cache.write(alloc, file.path(), file.bytes()) {
            Ok(()) => rest = after,
            Err(CacheFault::Failed) => return Err(Stop::Cache),
            Err(CacheFault::OutOfMemory) => return Err(Stop::Memory),
        }
    }
    Ok(())
}
