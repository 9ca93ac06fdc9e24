//! The changes of a run before its jobs.
ghost use Rattle.std.specs.Prelude.{◌≡◌, ◌<◌, ◌⊎◌, ◌+◌, ◌++◌, ℕ, List, IsTrue, Contains, OnOk, OnErr, IfErr};
ghost use Rattle.std.specs.List.{AllByRecursion};
ghost use Rattle.ap_text.specs.Causes.{Rose};
ghost use Rattle.ap_scan.specs.declared.results.Winner.{Winner};
ghost use Rattle.ap_builder.specs.Offers.{is_offered};
ghost use Rattle.ap_db.specs.declared.fault.DbFault.TheVariants.{OutOfMemory, DiskFault, StoreFull};
ghost use Rattle.ap_db.specs.Stored.{Stored};
ghost use Rattle.ap_sources.specs.Sources.{sources};
ghost use Rattle.ap_engine.specs.declared.fault.EngineFault.TheVariants.{Db, Unbuilt};
ghost use Rattle.ap_engine.specs.Asked.{meanings_of, needed_sources, asked_of, IsFree};
ghost use Rattle.ap_engine.specs.Changes.{front_changes, with_source_rows};
ghost use Rattle.ap_engine.specs.Interned.{AreSourcesOf};
ghost use Rattle.ap_engine.specs.Ledgers.{IsReady, HasCommitted, HasStopped};
ghost use Rattle.ap_engine.specs.Worlds.{AreQuiet};

use crate::creations::put_creations;
use crate::fault::EngineFault;
use crate::folders::put_folder_rows;
use crate::ledger::Ledger;
use crate::source::Source;
use crate::source_rows::put_source_rows;
use ap_builder::{Bench, Builders};
use ap_config::Config;
use ap_disk::{Disk, Pair};
use std::alloc::Global;

/// Puts the folder rows, the source rows and the creations of a project, each where it differs.
pub(crate) fn put_front<D: Disk, B: Builders>(
    alloc: Global,
    ledger: &mut Ledger,
    store: &mut Pair<D>,
    builders: &B,
    bench: &mut Bench<B::Pass>,
    config: &Config,
    all: &[Source],
) -> Result<(), EngineFault>
    requires ready { (winners : List Winner) × (stored : Stored) × IsReady D.seen D.may_leave D.room ledger.old.db ledger.old.contents store.old stored × AreQuiet (meanings_of B.declares B.creates B.makes) config.now winners × AreSourcesOf ledger.old.db ledger.old.contents all.now (sources config.now winners) }
    requires offered { AllByRecursion (λ offer. IsTrue (is_offered (B.offers builders.now) offer.name)) config.now.builders }
    ensures committed { OnOk result ((winners : List Winner) (stored : Stored) → IsReady D.seen D.may_leave D.room ledger.old.db ledger.old.contents store.old stored → AreQuiet (meanings_of B.declares B.creates B.makes) config.now winners → AreSourcesOf ledger.old.db ledger.old.contents all.now (sources config.now winners)
        → HasCommitted D.seen D.may_leave D.clock D.left_at D.room D.faults ledger.old.db ledger.old.contents ledger.new.db ledger.new.contents store.old store.new stored (front_changes (meanings_of B.declares B.creates B.makes) config.now winners stored.tables)) }
    ensures asked { OnOk result ((winners : List Winner) (stored : Stored) → IsReady D.seen D.may_leave D.room ledger.old.db ledger.old.contents store.old stored → AreQuiet (meanings_of B.declares B.creates B.makes) config.now winners → AreSourcesOf ledger.old.db ledger.old.contents all.now (sources config.now winners)
        → bench.new ≡ bench.old ++ asked_of (meanings_of B.declares B.creates B.makes) config.now winners (needed_sources (meanings_of B.declares B.creates B.makes) config.now winners (with_source_rows (meanings_of B.declares B.creates B.makes) config.now winners stored.tables))) }
    ensures stopped { OnErr result ((winners : List Winner) (stored : Stored) → IsReady D.seen D.may_leave D.room ledger.old.db ledger.old.contents store.old stored → AreQuiet (meanings_of B.declares B.creates B.makes) config.now winners → AreSourcesOf ledger.old.db ledger.old.contents all.now (sources config.now winners)
        → HasStopped D.seen D.may_leave D.clock D.left_at D.room D.faults store.old store.new stored (front_changes (meanings_of B.declares B.creates B.makes) config.now winners stored.tables)) }
    ensures unbuilt { IfErr result (λ stop. stop ≡ Unbuilt → (winners : List Winner) (stored : Stored) → IsReady D.seen D.may_leave D.room ledger.old.db ledger.old.contents store.old stored → AreQuiet (meanings_of B.declares B.creates B.makes) config.now winners → AreSourcesOf ledger.old.db ledger.old.contents all.now (sources config.now winners)
        → (winner : Winner) × Contains (sources config.now winners) winner × (¬ IsFree (meanings_of B.declares B.creates B.makes) config.now winners winner)) }
    ensures full { IfErr result (λ stop. (l w : ℕ) → stop ≡ Db (StoreFull l w) → ledger.old.db.journal.limit < l + w) }
    ensures disk { IfErr result (λ stop. stop ≡ Db DiskFault → Rose (D.faults store.old.0) (D.faults store.new.0)) }
    ensures only { IfErr result (λ stop. (stop ≡ Unbuilt) ⊎ (stop ≡ Db OutOfMemory) ⊎ (stop ≡ Db DiskFault) ⊎ ((l : ℕ) × (w : ℕ) × (stop ≡ Db (StoreFull l w)))) }
{
    put_folder_rows(alloc, ledger, store, config)?;
    put_source_rows(alloc, ledger, store, all)?;
    put_creations(alloc, ledger, store, builders, bench, config, all)
}
