ghost use Rattle.std.specs.Prelude.{◌≡◌, ◌≤◌, ◌⊎◌, ℕ, List, Contains, IsTrue, IfOk, IfErr, IfSome, Ok, Err, true, false};
ghost use Rattle.std.specs.List.{AllByRecursion};
ghost use Rattle.ap_text.specs.Causes.{Rose};
ghost use Rattle.ap_text.specs.declared.seen.Seen.TheVariants.{Bytes as SeenBytes};
ghost use Rattle.ap_text.specs.declared.seen.Which.{Which as TheWhich};
ghost use Rattle.ap_scan.specs.Winners.{HasOwnOrders};
ghost use Rattle.ap_scan.specs.declared.results.Winner.{Winner as TheWinner};
ghost use Rattle.ap_builder.specs.Offers.{is_offered};
ghost use Rattle.ap_builder.specs.Paths.{IsShort};
ghost use Rattle.ap_sources.specs.Sources.{sources};
ghost use Rattle.ap_engine.specs.Asked.{meanings_of};
ghost use Rattle.ap_engine.specs.Need.{is_too_large};
ghost use Rattle.ap_engine.specs.Worlds.{AreQuiet};
ghost use Rattle.ap_cli.specs.Project.{config_in, config_at, IsOver};
ghost use Rattle.ap_cli.specs.Unbuilt.{HasTooLarge, IsUnbuilt};
ghost use Rattle.ap_cli.specs.Working.{Configures, IsFound};
ghost use Rattle.ap_cli.specs.declared.stop.Stop.TheVariants.{Configuration, Tree as TreeStop, Limit, Memory, Unbuilt};
ghost use Rattle.ap_cli.specs.declared.unconfigured.Unconfigured.{Unconfigured as TheUnconfigured};

use crate::declaring::has_targets;
use crate::stop::Stop;
use crate::unconfigured::Unconfigured;
use ap_builder::{Builders, Offer};
use ap_config::{Config, ConfigFault};
use ap_scan::{Scan, Winner, scan};
use ap_text::{RelPath, Seen};
use ap_tree::{Tree, TreeFault};
use std::alloc::Global;

/// The configuration that the file at a path says for the offered builders.
pub(crate) fn read_config<T: Tree, B: Builders>(
    alloc: Global,
    path: &RelPath,
    tree: &mut T,
    builders: &B,
) -> Result<Config, Stop>
    ensures configured { IfOk result (Configures (B.offers builders.now) path.now (T.files tree.old)) }
    ensures own { IfOk result (λ config. HasOwnOrders config.folders) }
    ensures offered { IfOk result (λ config. AllByRecursion (λ offer. IsTrue (is_offered (B.offers builders.now) offer.name)) config.builders) }
    ensures refused { IfErr result (λ stop. (why : TheUnconfigured) → stop ≡ Configuration why → IfSome (T.files tree.old) (λ files. config_at (B.offers builders.now) path.now files ≡ Err why)) }
    ensures tree { IfErr result (λ stop. stop ≡ TreeStop → Rose (T.faults tree.old) (T.faults tree.new)) }
    ensures only { IfErr result (λ stop. (stop ≡ Memory) ⊎ (stop ≡ TreeStop) ⊎ ((why : TheUnconfigured) × (stop ≡ Configuration why))) }
    ensures same { T.files tree.new ≡ T.files tree.old }
    ensures later { T.faults tree.old ≤ T.faults tree.new }
{
    let offers = builders.offers(alloc)?;
    let seen = match tree.read(alloc, path.as_str().as_bytes()) {
        Ok(seen) => seen,
        Err(TreeFault::Failed) => return Err(Stop::Tree),
        Err(TreeFault::OutOfMemory) => return Err(Stop::Memory),
    };
    config_of(alloc, &seen, &offers)
}

/// The configuration that a file says, as it is seen.
fn config_of(alloc: Global, seen: &Seen, offers: &[Offer]) -> Result<Config, Stop>
    ensures configured { IfOk result (λ config. config_in offers.now seen.now ≡ Ok config) }
    ensures own { IfOk result (λ config. HasOwnOrders config.folders) }
    ensures offered { IfOk result (λ config. AllByRecursion (λ offer. IsTrue (is_offered offers.now offer.name)) config.builders) }
    ensures refused { IfErr result (λ stop. (why : TheUnconfigured) → stop ≡ Configuration why → config_in offers.now seen.now ≡ Err why) }
    ensures only { IfErr result (λ stop. (stop ≡ Memory) ⊎ ((why : TheUnconfigured) × (stop ≡ Configuration why))) }
{
    match seen {
        Seen::Bytes(text) => match Config::read(alloc, text.as_slice(), offers) {
            Ok(config) => Ok(config),
            Err(ConfigFault::OutOfMemory) => Err(Stop::Memory),
            Err(fault) => Err(Stop::Configuration(Unconfigured::Refused(fault))),
        },
        Seen::Absent => Err(Stop::Configuration(Unconfigured::NoFile)),
        Seen::TooLarge => Err(Stop::Configuration(Unconfigured::LargeFile)),
    }
}

/// The scan of a configuration's folders. Where a winner is too large, or a source declares a target, it is refused
/// as what isn't built.
pub(crate) fn find_project<T: Tree, B: Builders>(
    alloc: Global,
    config: &Config,
    tree: &mut T,
    builders: &B,
) -> Result<Scan, Stop>
    requires own { HasOwnOrders config.now.folders }
    requires offered { AllByRecursion (λ offer. IsTrue (is_offered (B.offers builders.now) offer.name)) config.now.builders }
    ensures found { IfOk result (λ scan. (path : List ℕ) → Configures (B.offers builders.now) path (T.files tree.old) config.now
        → IsFound (meanings_of B.declares B.creates B.makes) (B.offers builders.now) path (T.files tree.old) config.now scan) }
    ensures quiet { IfOk result (λ scan. AreQuiet (meanings_of B.declares B.creates B.makes) config.now scan.winners) }
    ensures short { IfOk result (λ scan. (winner : TheWinner) → Contains (sources config.now scan.winners) winner → (bytes : List ℕ) → winner.seen ≡ SeenBytes bytes → IsShort bytes) }
    ensures unbuilt { IfErr result (λ stop. stop ≡ Unbuilt → (path : List ℕ) → Configures (B.offers builders.now) path (T.files tree.old) config.now
        → IfSome (T.files tree.old) (IsUnbuilt (meanings_of B.declares B.creates B.makes) (B.offers builders.now) path)) }
    ensures over { IfErr result (λ stop. (which : TheWhich) → (count : ℕ) → stop ≡ Limit which count → (path : List ℕ) → Configures (B.offers builders.now) path (T.files tree.old) config.now
        → IfSome (T.files tree.old) (λ files. IsOver (B.offers builders.now) path files which count)) }
    ensures tree { IfErr result (λ stop. stop ≡ TreeStop → Rose (T.faults tree.old) (T.faults tree.new)) }
    ensures only { IfErr result (λ stop. (stop ≡ Memory) ⊎ (stop ≡ TreeStop) ⊎ (stop ≡ Unbuilt) ⊎ ((which : TheWhich) × (count : ℕ) × (stop ≡ Limit which count))) }
    ensures later { T.faults tree.old ≤ T.faults tree.new }
{
    let scan = match scan(alloc, tree, config) {
        Ok(scan) => scan,
        Err(fault) => return Err(fault.into()),
    };
    if has_too_large(scan.winners.as_slice()) {
        return Err(Stop::Unbuilt);
    }
    if has_targets(alloc, builders, config, scan.winners.as_slice())? {
        return Err(Stop::Unbuilt);
    }
    Ok(scan)
}

/// Whether some winner is too large.
fn has_too_large(winners: &[Winner]) -> bool
    ensures some { result ≡ true → HasTooLarge winners.now }
    ensures none { result ≡ false → ¬ HasTooLarge winners.now }
{
    let mut rest = winners;
    while let [winner, after @ ..] = rest {
        if is_too_large(winner) {
            return true;
        }
        rest = after;
    }
    false
}

fn is_too_large(winner: &Winner) -> bool
    ensures { result ≡ is_too_large winner.now.seen }
{
    matches!(winner.seen, Seen::TooLarge)
}
