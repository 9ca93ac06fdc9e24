//! A project's database, and the runs that settle it.
ghost use Rattle.std.specs.Prelude.{◌≡◌, ◌≤◌, ◌<◌, ◌⊎◌, ◌+◌, ◌++◌, [], ◌^◌, ℕ, List, Ok, IsTrue, Contains, IfOk, OnOk, OnErr, IfErr, IsErrOf, IfSome};
ghost use Rattle.std.specs.List.{AllByRecursion};
ghost use Rattle.ap_text.specs.Causes.{Rose};
ghost use Rattle.ap_text.specs.declared.seen.Seen.TheVariants.{Bytes};
ghost use Rattle.ap_disk.specs.Calls.{TellsAs};
ghost use Rattle.ap_scan.specs.declared.results.Winner.{Winner as TheWinner};
ghost use Rattle.ap_journal.specs.Records.{IsSameStore};
ghost use Rattle.ap_journal.specs.Moments.{Opens};
ghost use Rattle.ap_builder.specs.Offers.{is_offered};
ghost use Rattle.ap_builder.specs.Paths.{IsShort};
ghost use Rattle.ap_db.specs.declared.fault.DbFault.TheVariants.{OutOfMemory, DiskFault, BadStore, StoreFull};
ghost use Rattle.ap_db.specs.Stored.{Stored, stored_in};
ghost use Rattle.ap_db.specs.Opened.{IsBadStore};
ghost use Rattle.ap_sources.specs.Sources.{sources};
ghost use Rattle.ap_engine.specs.declared.fault.EngineFault.TheVariants.{Db, Unbuilt};
ghost use Rattle.ap_engine.specs.Asked.{meanings_of};
ghost use Rattle.ap_engine.specs.Changes.{front_changes, changes, with_creations};
ghost use Rattle.ap_engine.specs.Ledgers.{IsReady, HasCommitted, HasStopped};
ghost use Rattle.ap_engine.specs.Need.{need};
ghost use Rattle.ap_engine.specs.Recorded.{IsUnfree, IsUnmade};
ghost use Rattle.ap_engine.specs.Sound.{IsSoundStored};
ghost use Rattle.ap_engine.specs.Worlds.{AreQuiet, AreFree, AreCreateInputs, IsTyped};

use crate::creations::read_ranges;
use crate::fault::EngineFault;
use crate::front::put_front;
use crate::interning::intern_sources;
use crate::ledger::Ledger;
use crate::processing::put_jobs;
use ap_builder::{Bench, Builders};
use ap_config::Config;
use ap_content::Contents;
use ap_db::DbFault;
use ap_disk::{Disk, Pair};
use ap_rows::Tables;
use ap_scan::Winner;
use std::alloc::Global;

/// The database of a project, with the contents that its numbers belong to.
#[derive(Drop)]
pub struct Engine {
    pub(crate) ledger: Ledger,
}

impl Engine {
    /// Opens the database of a store, whose file may have at most so many bytes.
    pub fn open<D: Disk>(alloc: Global, store: &mut Pair<D>, limit: u64) -> Result<Engine, DbFault>
        requires least { 17 ≤ limit }
        requires greatest { limit ≤ 2 ^ 32 }
        requires fits { limit ≤ D.room store.old.0 }
        ensures ready { IfOk result (λ engine. (stored : Stored) × IsReady D.seen D.may_leave D.room engine.ledger.db engine.ledger.contents store.new stored × IfSome (D.seen store.old.0) (λ file. stored_in file ≡ Ok stored)) }
        ensures told { OnOk result (TellsAs (D.seen store.old.0) (D.seen store.new.0) (λ _ _. Unit {0})) }
        ensures limit { IfOk result (λ engine. engine.ledger.db.journal.limit ≡ limit) }
        ensures bad { IfErr result (λ stop. (place offset : ℕ) → stop ≡ BadStore place offset → IfSome (D.seen store.old.0) (IsBadStore place offset)) }
        ensures only { IfErr result (λ stop. (stop ≡ OutOfMemory) ⊎ (stop ≡ DiskFault) ⊎ ((place : ℕ) × (offset : ℕ) × (stop ≡ BadStore place offset))) }
        ensures opens { Opens D.seen D.may_leave D.clock D.left_at D.room D.faults store.old store.new (D.may_leave store.old.0)
            (λ c. IfSome (D.seen store.old.0) (λ old. IsSameStore old c)) }
        ensures cause { IsErrOf result DiskFault → Rose (D.faults store.old.0) (D.faults store.new.0) }
    {
        let ledger = Ledger::open(alloc, store, limit)?;
        Ok(Engine { ledger })
    }

    /// Brings the tables to what the configuration and its winners settle to: what stands is kept, and only what doesn't
    /// is asked for; `Unbuilt` where a source comes to anything but jobs that depend on nothing, or a job to
    /// anything but one product.
    pub fn settle<D: Disk, B: Builders>(
        &mut self,
        alloc: Global,
        store: &mut Pair<D>,
        builders: &B,
        bench: &mut Bench<B::Pass>,
        config: &Config,
        winners: Vec<Winner>,
    ) -> Result<(), EngineFault>
        requires world { (stored : Stored) × IsReady D.seen D.may_leave D.room self.old.ledger.db self.old.ledger.contents store.old stored × AreQuiet (meanings_of B.declares B.creates B.makes) config.now winners.items
            × ((winner : TheWinner) → Contains (sources config.now winners.items) winner → (bytes : List ℕ) → winner.seen ≡ Bytes bytes → IsShort bytes) }
        requires offered { AllByRecursion (λ offer. IsTrue (is_offered (B.offers builders.now) offer.name)) config.now.builders }
        ensures settled { OnOk result ((stored : Stored) → IsReady D.seen D.may_leave D.room self.old.ledger.db self.old.ledger.contents store.old stored → IsSoundStored (meanings_of B.declares B.creates B.makes) stored
            → AreFree (meanings_of B.declares B.creates B.makes) config.now winners.items × IsTyped (meanings_of B.declares B.creates B.makes) config.now winners.items
            × HasCommitted D.seen D.may_leave D.clock D.left_at D.room D.faults self.old.ledger.db self.old.ledger.contents self.new.ledger.db self.new.ledger.contents store.old store.new stored (changes (meanings_of B.declares B.creates B.makes) config.now winners.items stored.tables)) }
        ensures asked { OnOk result ((stored : Stored) → IsReady D.seen D.may_leave D.room self.old.ledger.db self.old.ledger.contents store.old stored → IsSoundStored (meanings_of B.declares B.creates B.makes) stored
            → bench.new ≡ bench.old ++ need (meanings_of B.declares B.creates B.makes) config.now winners.items stored.tables) }
        ensures stopped { OnErr result ((stored : Stored) → IsReady D.seen D.may_leave D.room self.old.ledger.db self.old.ledger.contents store.old stored → IsSoundStored (meanings_of B.declares B.creates B.makes) stored
            → HasStopped D.seen D.may_leave D.clock D.left_at D.room D.faults store.old store.new stored []
            ⊎ (AreCreateInputs (meanings_of B.declares B.creates B.makes) config.now winners.items
            × HasStopped D.seen D.may_leave D.clock D.left_at D.room D.faults store.old store.new stored (front_changes (meanings_of B.declares B.creates B.makes) config.now winners.items stored.tables))
            ⊎ (AreFree (meanings_of B.declares B.creates B.makes) config.now winners.items × IsTyped (meanings_of B.declares B.creates B.makes) config.now winners.items
            × HasStopped D.seen D.may_leave D.clock D.left_at D.room D.faults store.old store.new stored (changes (meanings_of B.declares B.creates B.makes) config.now winners.items stored.tables))) }
        ensures unbuilt { IfErr result (λ stop. stop ≡ Unbuilt → (stored : Stored) → IsReady D.seen D.may_leave D.room self.old.ledger.db self.old.ledger.contents store.old stored → IsSoundStored (meanings_of B.declares B.creates B.makes) stored
            → IsUnfree (meanings_of B.declares B.creates B.makes) config.now winners.items ⊎ IsUnmade (meanings_of B.declares B.creates B.makes) config.now winners.items (with_creations (meanings_of B.declares B.creates B.makes) config.now winners.items stored.tables)) }
        ensures full { IfErr result (λ stop. (l w : ℕ) → stop ≡ Db (StoreFull l w) → self.old.ledger.db.journal.limit < l + w) }
        ensures disk { IfErr result (λ stop. stop ≡ Db DiskFault → Rose (D.faults store.old.0) (D.faults store.new.0)) }
        ensures only { IfErr result (λ stop. (stop ≡ Unbuilt) ⊎ (stop ≡ Db OutOfMemory) ⊎ (stop ≡ Db DiskFault) ⊎ ((l : ℕ) × (w : ℕ) × (stop ≡ Db (StoreFull l w)))) }
    {
        let sources = match intern_sources(alloc, &mut self.ledger, config, winners) {
            Ok(sources) => sources,
            Err(_) => return Err(EngineFault::Db(DbFault::OutOfMemory)),
        };
        let all = sources.as_slice();
        read_ranges(config, all);
        match put_front(alloc, &mut self.ledger, store, builders, bench, config, all) {
            Ok(()) => {}
            Err(stop) => return Err(stop),
        }
        put_jobs(alloc, &mut self.ledger, store, builders, bench, config, all)
    }

    /// The rows of the database.
    pub fn tables(&self) -> &Tables
        ensures { result.now ≡ self.now.ledger.db.state.tables }
    {
        self.ledger.db.tables()
    }

    /// The contents that the database's numbers belong to.
    pub fn contents(&self) -> &Contents
        ensures { result.now ≡ self.now.ledger.contents }
    {
        &self.ledger.contents
    }
}
