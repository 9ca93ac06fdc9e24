ghost use Rattle.std.specs.Prelude.{◌≡◌, ◌≤◌, ◌<◌, ◌⊎◌, ◌+◌, ℕ, List, IsTrue, IfOk, IfErr, IfSome, OnErr};
ghost use Rattle.std.specs.List.{AllByRecursion};
ghost use Rattle.ap_text.specs.Causes.{Rose};
ghost use Rattle.ap_text.specs.declared.seen.Which.{Which as TheWhich};
ghost use Rattle.ap_scan.specs.Winners.{HasOwnOrders};
ghost use Rattle.ap_builder.specs.Offers.{is_offered};
ghost use Rattle.ap_db.specs.Stored.{Stored};
ghost use Rattle.ap_engine.specs.Asked.{meanings_of};
ghost use Rattle.ap_engine.specs.Ledgers.{IsReady};
ghost use Rattle.ap_engine.specs.Sound.{IsSoundStored};
ghost use Rattle.ap_cli.specs.Project.{HasProject, IsOver};
ghost use Rattle.ap_cli.specs.Unbuilt.{IsUnbuilt};
ghost use Rattle.ap_cli.specs.Working.{Configures, Settled, Halted};
ghost use Rattle.ap_cli.specs.declared.stop.Stop.TheVariants.{Tree as TreeStop, Disk as DiskStop, Memory, Limit, Full, Unbuilt};

use crate::other_files::OtherFiles;
use crate::project::find_project;
use crate::stop::Stop;
use ap_builder::{Bench, Builders};
use ap_config::Config;
use ap_disk::{Disk, Pair};
use ap_engine::Engine;
use ap_scan::Scan;
use ap_tree::Tree;
use std::alloc::Global;

/// Brings the tables of a database to what a configuration's winners settle to, and answers the other files.
pub(crate) fn settle_project<T: Tree, D: Disk, B: Builders>(
    alloc: Global,
    config: &Config,
    tree: &mut T,
    engine: &mut Engine,
    store: &mut Pair<D>,
    builders: &B,
    bench: &mut Bench<B::Pass>,
) -> Result<OtherFiles, Stop>
    requires ready { (stored : Stored) × IsReady D.seen D.may_leave D.room engine.old.ledger.db engine.old.ledger.contents store.old stored }
    requires own { HasOwnOrders config.now.folders }
    requires offered { AllByRecursion (λ offer. IsTrue (is_offered (B.offers builders.now) offer.name)) config.now.builders }
    ensures settled { IfOk result (λ others. (path : List ℕ) → Configures (B.offers builders.now) path (T.files tree.old) config.now
        → (stored : Stored) → IsReady D.seen D.may_leave D.room engine.old.ledger.db engine.old.ledger.contents store.old stored → IsSoundStored (meanings_of B.declares B.creates B.makes) stored
        → Settled (meanings_of B.declares B.creates B.makes) (B.offers builders.now) path (T.files tree.old) D.seen D.may_leave D.clock D.left_at D.room D.faults
        engine.old.ledger.db engine.new.ledger.db engine.old.ledger.contents engine.new.ledger.contents store.old store.new stored bench.old bench.new others) }
    ensures halted { OnErr result ((path : List ℕ) → Configures (B.offers builders.now) path (T.files tree.old) config.now
        → (stored : Stored) → IsReady D.seen D.may_leave D.room engine.old.ledger.db engine.old.ledger.contents store.old stored → IsSoundStored (meanings_of B.declares B.creates B.makes) stored
        → Halted (meanings_of B.declares B.creates B.makes) (B.offers builders.now) path (T.files tree.old) D.seen D.may_leave D.clock D.left_at D.room D.faults store.old store.new stored) }
    ensures unbuilt { IfErr result (λ stop. stop ≡ Unbuilt → (path : List ℕ) → Configures (B.offers builders.now) path (T.files tree.old) config.now
        → (stored : Stored) → IsReady D.seen D.may_leave D.room engine.old.ledger.db engine.old.ledger.contents store.old stored → IsSoundStored (meanings_of B.declares B.creates B.makes) stored
        → IfSome (T.files tree.old) (IsUnbuilt (meanings_of B.declares B.creates B.makes) (B.offers builders.now) path)) }
    ensures over { IfErr result (λ stop. (which : TheWhich) → (count : ℕ) → stop ≡ Limit which count → (path : List ℕ) → Configures (B.offers builders.now) path (T.files tree.old) config.now
        → IfSome (T.files tree.old) (λ files. IsOver (B.offers builders.now) path files which count)) }
    ensures scanned { IfErr result (λ stop. (l w : ℕ) → stop ≡ Full l w → (path : List ℕ) → Configures (B.offers builders.now) path (T.files tree.old) config.now
        → IfSome (T.files tree.old) (HasProject (B.offers builders.now) path)) }
    ensures tree { IfErr result (λ stop. stop ≡ TreeStop → Rose (T.faults tree.old) (T.faults tree.new)) }
    ensures full { IfErr result (λ stop. (l w : ℕ) → stop ≡ Full l w → engine.old.ledger.db.journal.limit < l + w) }
    ensures disk { IfErr result (λ stop. stop ≡ DiskStop → Rose (D.faults store.old.0) (D.faults store.new.0)) }
    ensures only { IfErr result (λ stop. (stop ≡ Memory) ⊎ (stop ≡ TreeStop) ⊎ (stop ≡ Unbuilt) ⊎ (stop ≡ DiskStop) ⊎ ((l : ℕ) × (w : ℕ) × (stop ≡ Full l w)) ⊎ ((which : TheWhich) × (count : ℕ) × (stop ≡ Limit which count))) }
    ensures unasked { IfErr result (λ stop. (stop ≡ TreeStop) ⊎ ((which : TheWhich) × (count : ℕ) × (stop ≡ Limit which count)) → (bench.new ≡ bench.old) × (store.new ≡ store.old)) }
    ensures later { T.faults tree.old ≤ T.faults tree.new }
{
    let Scan {
        winners,
        hidden,
        odd,
    } = match find_project(alloc, config, tree, builders) {
        Ok(scan) => scan,
        Err(stop) => return Err(stop),
    };
    match engine.settle(alloc, store, builders, bench, config, winners.into_vec()) {
        Ok(()) => Ok(OtherFiles { hidden, odd }),
        Err(fault) => Err(fault.into()),
    }
}
