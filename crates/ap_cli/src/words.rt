ghost use Rattle.std.specs.Prelude.{◌≡◌, ◌⊎◌, IfOk, IfErr, codes};
ghost use Rattle.ap_text.specs.PathRules.{IsRelPath};
ghost use Rattle.ap_cli.specs.Words.{IsBatch};
ghost use Rattle.ap_cli.specs.declared.stop.Stop.TheVariants.{Usage, Memory};

use crate::stop::Stop;
use ap_text::{PathFault, RelPath};
use std::alloc::Global;

/// The path of the configuration that a command line names.
pub(crate) fn read_words(alloc: Global, words: &[String]) -> Result<RelPath, Stop>
    ensures batch { IfOk result (λ config. IsBatch words.now config) }
    ensures usage { IfErr result (λ stop. stop ≡ Usage → (config : _) → ¬ IsBatch words.now config) }
    ensures only { IfErr result (λ stop. (stop ≡ Usage) ⊎ (stop ≡ Memory)) }
{
    match words {
        [command, config] => read_batch(alloc, command.as_str(), config.as_str()),
        _ => Err(Stop::Usage),
    }
}

fn read_batch(alloc: Global, command: &str, config: &str) -> Result<RelPath, Stop>
    ensures batch { IfOk result (λ path. (command.now ≡ codes "batch") × (path ≡ config.now) × IsRelPath config.now) }
    ensures usage { IfErr result (λ stop. stop ≡ Usage → command.now ≡ codes "batch" → ¬ IsRelPath config.now) }
    ensures only { IfErr result (λ stop. (stop ≡ Usage) ⊎ (stop ≡ Memory)) }
{
    if command != "batch" {
        return Err(Stop::Usage);
    }
    match RelPath::read(alloc, config.as_bytes()) {
        Ok(path) => Ok(path),
        Err(PathFault::OutOfMemory) => Err(Stop::Memory),
        Err(_) => Err(Stop::Usage),
    }
}
