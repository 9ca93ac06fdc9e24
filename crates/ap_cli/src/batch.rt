ghost use Rattle.std.specs.Prelude.{◌≡◌, ◌≢◌, ◌≤◌, ◌<◌, ◌⊎◌, ◌+◌, ◌^◌, ℕ, List, [], length, drop, IsTrue, IfOk, IfErr, IfSome, OnOk};
ghost use Rattle.std.specs.List.{AllByRecursion};
ghost use Rattle.ap_text.specs.Causes.{Rose};
ghost use Rattle.ap_text.specs.declared.seen.Which.{Which as TheWhich};
ghost use Rattle.ap_tree.specs.Changes.{TellsAs};
ghost use Rattle.ap_tree.specs.Written.{Gains};
ghost use Rattle.ap_config.specs.declared.config.Config.{Config as TheConfig};
ghost use Rattle.ap_scan.specs.Winners.{HasOwnOrders};
ghost use Rattle.ap_journal.specs.Moments.{Opens};
ghost use Rattle.ap_journal.specs.Records.{IsSameStore};
ghost use Rattle.ap_builder.specs.Offers.{is_offered};
ghost use Rattle.ap_engine.specs.Asked.{meanings_of};
ghost use Rattle.ap_engine.specs.Ledgers.{LeavesOnly};
ghost use Rattle.ap_engine.specs.Sound.{IsSound};
ghost use Rattle.ap_cli.specs.Causes.{IsCause};
ghost use Rattle.ap_cli.specs.Lines.{report_lem, ending_of};
ghost use Rattle.ap_cli.specs.Output.{TakesShort};
ghost use Rattle.ap_cli.specs.Overlay.{Overlays, LaidAllButOne};
ghost use Rattle.ap_cli.specs.Project.{HasProject};
ghost use Rattle.ap_cli.specs.Run.{Ran, Stopped};
ghost use Rattle.ap_cli.specs.Store.{limit_of, IsGood};
ghost use Rattle.ap_cli.specs.Unbuilt.{IsUnbuilt};
ghost use Rattle.ap_cli.specs.Working.{Configures};
ghost use Rattle.ap_cli.specs.declared.stop.Stop.TheVariants.{Usage, Configuration, Tree as TreeStop, Cache, Disk as DiskStop, Output, Memory, BadStore, Limit, Full, Unbuilt};
ghost use Rattle.ap_cli.specs.declared.unconfigured.Unconfigured.{Unconfigured as TheUnconfigured};

use crate::delivery::deliver;
use crate::ending::Ending;
use crate::project::read_config;
use crate::report::ending;
use crate::settling::settle_project;
use crate::stop::Stop;
use ap_builder::{Bench, Builders, Entry};
use ap_config::Config;
use ap_disk::{Disk, Pair, Side};
use ap_engine::Engine;
use ap_text::RelPath;
use ap_tree::{CacheDir, Sink, Tree};
use std::alloc::Global;

/// How many bytes a store's file may have at most.
const GREATEST: u64 = 1 << 32;

/// Reads the configuration, and runs its project.
pub(crate) fn batch<T: Tree, C: CacheDir, D: Disk, B: Builders, O: Sink>(
    alloc: Global,
    path: &RelPath,
    tree: &mut T,
    cache: &mut C,
    store: &mut Pair<D>,
    builders: &B,
    bench: &mut Bench<B::Pass>,
    out: &mut O,
) -> Result<Ending, Stop>
    ensures done { IfOk result (λ ending. IfSome (D.seen store.old.0) (λ file. IsSound (meanings_of B.declares B.creates B.makes) file → IfSome (T.files tree.old) (λ files.
        Ran D.seen D.may_leave D.clock D.left_at D.room D.faults store.old store.new (meanings_of B.declares B.creates B.makes) (B.offers builders.now) path.now bench.old bench.new
        (λ put. TellsAs (C.files cache.old) (C.files cache.new) (Overlays put))
        (λ entries others counts. Gains (O.written out.old) (O.written out.new) (report_lem entries others counts) × (ending ≡ ending_of others)) files file))) }
    ensures front { IfErr result (λ stop. stop ≡ Output → IfSome (D.seen store.old.0) (λ file. IsSound (meanings_of B.declares B.creates B.makes) file → IfSome (T.files tree.old) (λ files.
        Ran D.seen D.may_leave D.clock D.left_at D.room D.faults store.old store.new (meanings_of B.declares B.creates B.makes) (B.offers builders.now) path.now bench.old bench.new
        (λ put. TellsAs (C.files cache.old) (C.files cache.new) (Overlays put))
        (λ entries others counts. TakesShort (O.room out.old) (O.written out.old) (O.written out.new) (report_lem entries others counts)) files file))) }
    ensures partly { IfErr result (λ stop. stop ≡ Cache → IfSome (D.seen store.old.0) (λ file. IsSound (meanings_of B.declares B.creates B.makes) file → IfSome (T.files tree.old) (λ files.
        Ran D.seen D.may_leave D.clock D.left_at D.room D.faults store.old store.new (meanings_of B.declares B.creates B.makes) (B.offers builders.now) path.now bench.old bench.new
        (λ put. TellsAs (C.files cache.old) (C.files cache.new) (LaidAllButOne put))
        (λ _ _ _. Unit {0}) files file))) }
    ensures configured { IfErr result (λ stop. (stop ≡ TreeStop) ⊎ (stop ≡ Memory) ⊎ ((why : TheUnconfigured) × (stop ≡ Configuration why)) ⊎ ((config : TheConfig) × Configures (B.offers builders.now) path.now (T.files tree.old) config)) }
    ensures configured_whole { OnOk result ((config : TheConfig) × Configures (B.offers builders.now) path.now (T.files tree.old) config) }
    ensures unread { IfErr result (λ stop. (why : TheUnconfigured) → stop ≡ Configuration why → (bench.new ≡ bench.old) × (store.new ≡ store.old)) }
    ensures stopped { (store.new ≡ store.old) ⊎ IfSome (D.seen store.old.0) (λ file. IsSound (meanings_of B.declares B.creates B.makes) file
        → Stopped D.seen D.may_leave D.clock D.left_at D.room D.faults store.old store.new (meanings_of B.declares B.creates B.makes) (B.offers builders.now) path.now (T.files tree.old) file) }
    ensures stopped_at { IfErr result (λ stop. stop ≢ TreeStop → stop ≢ Memory → ((why : TheUnconfigured) → stop ≢ Configuration why) → IfSome (D.seen store.old.0) (λ file. IsSound (meanings_of B.declares B.creates B.makes) file
        → Stopped D.seen D.may_leave D.clock D.left_at D.room D.faults store.old store.new (meanings_of B.declares B.creates B.makes) (B.offers builders.now) path.now (T.files tree.old) file)) }
    ensures stopped_whole { OnOk result (IfSome (D.seen store.old.0) (λ file. IsSound (meanings_of B.declares B.creates B.makes) file
        → Stopped D.seen D.may_leave D.clock D.left_at D.room D.faults store.old store.new (meanings_of B.declares B.creates B.makes) (B.offers builders.now) path.now (T.files tree.old) file)) }
    ensures good { IfErr result (λ stop. (stop ≡ Memory) ⊎ (stop ≡ DiskStop) ⊎ ((n : ℕ) × (o : ℕ) × (stop ≡ BadStore n o)) ⊎ ((why : TheUnconfigured) × (stop ≡ Configuration why)) ⊎ ((stop ≡ TreeStop) × (store.new ≡ store.old)) ⊎ IfSome (D.seen store.old.0) IsGood) }
    ensures good_whole { OnOk result (IfSome (D.seen store.old.0) IsGood) }
    ensures kept { IfErr result (λ stop. ((n : ℕ) × (o : ℕ) × (stop ≡ BadStore n o)) ⊎ ((which : TheWhich) × (count : ℕ) × (stop ≡ Limit which count)) → Opens D.seen D.may_leave D.clock D.left_at D.room D.faults store.old store.new (D.may_leave store.old.0)
        (λ c. IfSome (D.seen store.old.0) (λ file. IsSameStore file c))) }
    ensures kept_early { IfErr result (λ stop. stop ≡ TreeStop → (store.new ≡ store.old) ⊎ Opens D.seen D.may_leave D.clock D.left_at D.room D.faults store.old store.new (D.may_leave store.old.0)
        (λ c. IfSome (D.seen store.old.0) (λ file. IsSameStore file c))) }
    ensures scanned { IfErr result (λ stop. (l w : ℕ) → stop ≡ Full l w → IfSome (T.files tree.old) (HasProject (B.offers builders.now) path.now)) }
    ensures unbuilt { IfErr result (λ stop. stop ≡ Unbuilt → IfSome (D.seen store.old.0) (λ file. IsSound (meanings_of B.declares B.creates B.makes) file
        → IfSome (T.files tree.old) (IsUnbuilt (meanings_of B.declares B.creates B.makes) (B.offers builders.now) path.now))) }
    ensures built { IfErr result (λ stop. (stop ≡ Cache) ⊎ (stop ≡ Output) → IfSome (D.seen store.old.0) (λ file. IsSound (meanings_of B.declares B.creates B.makes) file
        → IfSome (T.files tree.old) (λ files. ¬ IsUnbuilt (meanings_of B.declares B.creates B.makes) (B.offers builders.now) path.now files))) }
    ensures built_whole { OnOk result (IfSome (D.seen store.old.0) (λ file. IsSound (meanings_of B.declares B.creates B.makes) file
        → IfSome (T.files tree.old) (λ files. ¬ IsUnbuilt (meanings_of B.declares B.creates B.makes) (B.offers builders.now) path.now files))) }
    ensures caused { IfErr result (λ stop. IsCause (B.offers builders.now) path.now (T.files tree.old) (D.seen store.old.0) (limit_of (D.room store.old.0) (D.room store.old.1)) stop) }
    ensures tree { IfErr result (λ stop. stop ≡ TreeStop → Rose (T.faults tree.old) (T.faults tree.new)) }
    ensures cache { IfErr result (λ stop. stop ≡ Cache → Rose (C.faults cache.old) (C.faults cache.new)) }
    ensures disk { IfErr result (λ stop. stop ≡ DiskStop → Rose (D.faults store.old.0) (D.faults store.new.0)) }
    ensures output { IfErr result (λ stop. stop ≡ Output → Rose (O.faults out.old) (O.faults out.new)) }
    ensures usage { IfErr result (λ stop. stop ≡ Usage → ⊥) }
    ensures untouched { IfErr result (λ stop. stop ≢ Cache → stop ≢ Output → stop ≢ Memory → cache.new ≡ cache.old) }
    ensures silent { IfErr result (λ stop. stop ≢ Output → out.new ≡ out.old) }
    ensures unasked { IfErr result (λ stop. (stop ≡ TreeStop) ⊎ ((n : ℕ) × (o : ℕ) × (stop ≡ BadStore n o)) ⊎ ((which : TheWhich) × (count : ℕ) × (stop ≡ Limit which count)) → bench.new ≡ bench.old) }
    ensures sound { IfSome (D.seen store.old.0) (λ file. IsSound (meanings_of B.declares B.creates B.makes) file
        → LeavesOnly D.seen D.may_leave D.clock D.left_at D.room D.faults store.old store.new (IsSound (meanings_of B.declares B.creates B.makes))) }
{
    let config = match read_config(alloc, path, tree, builders) {
        Ok(config) => config,
        Err(stop) => return Err(stop),
    };
    run_project(alloc, &config, tree, cache, store, builders, bench, out)
}

/// Opens the database, brings its tables to what the configuration's winners settle to, writes all products into the
/// cache, and then the report.
fn run_project<T: Tree, C: CacheDir, D: Disk, B: Builders, O: Sink>(
    alloc: Global,
    config: &Config,
    tree: &mut T,
    cache: &mut C,
    store: &mut Pair<D>,
    builders: &B,
    bench: &mut Bench<B::Pass>,
    out: &mut O,
) -> Result<Ending, Stop>
    requires own { HasOwnOrders config.now.folders }
    requires offered { AllByRecursion (λ offer. IsTrue (is_offered (B.offers builders.now) offer.name)) config.now.builders }
    ensures done { IfOk result (λ ending. (path : List ℕ) → Configures (B.offers builders.now) path (T.files tree.old) config.now → IfSome (D.seen store.old.0) (λ file. IsSound (meanings_of B.declares B.creates B.makes) file → IfSome (T.files tree.old) (λ files.
        Ran D.seen D.may_leave D.clock D.left_at D.room D.faults store.old store.new (meanings_of B.declares B.creates B.makes) (B.offers builders.now) path bench.old bench.new
        (λ put. TellsAs (C.files cache.old) (C.files cache.new) (Overlays put))
        (λ entries others counts. Gains (O.written out.old) (O.written out.new) (report_lem entries others counts) × (ending ≡ ending_of others)) files file))) }
    ensures front { IfErr result (λ stop. stop ≡ Output → (path : List ℕ) → Configures (B.offers builders.now) path (T.files tree.old) config.now → IfSome (D.seen store.old.0) (λ file. IsSound (meanings_of B.declares B.creates B.makes) file → IfSome (T.files tree.old) (λ files.
        Ran D.seen D.may_leave D.clock D.left_at D.room D.faults store.old store.new (meanings_of B.declares B.creates B.makes) (B.offers builders.now) path bench.old bench.new
        (λ put. TellsAs (C.files cache.old) (C.files cache.new) (Overlays put))
        (λ entries others counts. TakesShort (O.room out.old) (O.written out.old) (O.written out.new) (report_lem entries others counts)) files file))) }
    ensures partly { IfErr result (λ stop. stop ≡ Cache → (path : List ℕ) → Configures (B.offers builders.now) path (T.files tree.old) config.now → IfSome (D.seen store.old.0) (λ file. IsSound (meanings_of B.declares B.creates B.makes) file → IfSome (T.files tree.old) (λ files.
        Ran D.seen D.may_leave D.clock D.left_at D.room D.faults store.old store.new (meanings_of B.declares B.creates B.makes) (B.offers builders.now) path bench.old bench.new
        (λ put. TellsAs (C.files cache.old) (C.files cache.new) (LaidAllButOne put))
        (λ _ _ _. Unit {0}) files file))) }
    ensures stopped { (path : List ℕ) → Configures (B.offers builders.now) path (T.files tree.old) config.now → IfSome (D.seen store.old.0) (λ file. IsSound (meanings_of B.declares B.creates B.makes) file
        → Stopped D.seen D.may_leave D.clock D.left_at D.room D.faults store.old store.new (meanings_of B.declares B.creates B.makes) (B.offers builders.now) path (T.files tree.old) file) }
    ensures good { IfErr result (λ stop. (stop ≡ Memory) ⊎ (stop ≡ DiskStop) ⊎ ((n : ℕ) × (o : ℕ) × (stop ≡ BadStore n o)) ⊎ IfSome (D.seen store.old.0) IsGood) }
    ensures good_whole { OnOk result (IfSome (D.seen store.old.0) IsGood) }
    ensures configured { IfErr result (λ stop. (why : TheUnconfigured) → stop ≡ Configuration why → ⊥) }
    ensures kept { IfErr result (λ stop. (stop ≡ TreeStop) ⊎ ((n : ℕ) × (o : ℕ) × (stop ≡ BadStore n o)) ⊎ ((which : TheWhich) × (count : ℕ) × (stop ≡ Limit which count)) → Opens D.seen D.may_leave D.clock D.left_at D.room D.faults store.old store.new (D.may_leave store.old.0)
        (λ c. IfSome (D.seen store.old.0) (λ file. IsSameStore file c))) }
    ensures scanned { IfErr result (λ stop. (l w : ℕ) → stop ≡ Full l w → (path : List ℕ) → Configures (B.offers builders.now) path (T.files tree.old) config.now → IfSome (T.files tree.old) (HasProject (B.offers builders.now) path)) }
    ensures unbuilt { IfErr result (λ stop. stop ≡ Unbuilt → (path : List ℕ) → Configures (B.offers builders.now) path (T.files tree.old) config.now → IfSome (D.seen store.old.0) (λ file. IsSound (meanings_of B.declares B.creates B.makes) file
        → IfSome (T.files tree.old) (IsUnbuilt (meanings_of B.declares B.creates B.makes) (B.offers builders.now) path))) }
    ensures built { IfErr result (λ stop. (stop ≡ Cache) ⊎ (stop ≡ Output) → (path : List ℕ) → Configures (B.offers builders.now) path (T.files tree.old) config.now → IfSome (D.seen store.old.0) (λ file. IsSound (meanings_of B.declares B.creates B.makes) file
        → IfSome (T.files tree.old) (λ files. ¬ IsUnbuilt (meanings_of B.declares B.creates B.makes) (B.offers builders.now) path files))) }
    ensures built_whole { OnOk result ((path : List ℕ) → Configures (B.offers builders.now) path (T.files tree.old) config.now → IfSome (D.seen store.old.0) (λ file. IsSound (meanings_of B.declares B.creates B.makes) file
        → IfSome (T.files tree.old) (λ files. ¬ IsUnbuilt (meanings_of B.declares B.creates B.makes) (B.offers builders.now) path files))) }
    ensures caused { IfErr result (λ stop. (path : List ℕ) → Configures (B.offers builders.now) path (T.files tree.old) config.now → IsCause (B.offers builders.now) path (T.files tree.old) (D.seen store.old.0) (limit_of (D.room store.old.0) (D.room store.old.1)) stop) }
    ensures tree { IfErr result (λ stop. stop ≡ TreeStop → Rose (T.faults tree.old) (T.faults tree.new)) }
    ensures cache { IfErr result (λ stop. stop ≡ Cache → Rose (C.faults cache.old) (C.faults cache.new)) }
    ensures disk { IfErr result (λ stop. stop ≡ DiskStop → Rose (D.faults store.old.0) (D.faults store.new.0)) }
    ensures output { IfErr result (λ stop. stop ≡ Output → Rose (O.faults out.old) (O.faults out.new)) }
    ensures usage { IfErr result (λ stop. stop ≡ Usage → ⊥) }
    ensures untouched { IfErr result (λ stop. stop ≢ Cache → stop ≢ Output → stop ≢ Memory → cache.new ≡ cache.old) }
    ensures silent { IfErr result (λ stop. stop ≢ Output → out.new ≡ out.old) }
    ensures unasked { IfErr result (λ stop. (stop ≡ TreeStop) ⊎ ((n : ℕ) × (o : ℕ) × (stop ≡ BadStore n o)) ⊎ ((which : TheWhich) × (count : ℕ) × (stop ≡ Limit which count)) → bench.new ≡ bench.old) }
    ensures sound { (path : List ℕ) → Configures (B.offers builders.now) path (T.files tree.old) config.now → IfSome (D.seen store.old.0) (λ file. IsSound (meanings_of B.declares B.creates B.makes) file
        → LeavesOnly D.seen D.may_leave D.clock D.left_at D.room D.faults store.old store.new (IsSound (meanings_of B.declares B.creates B.makes))) }
{
    let limit = store_limit(store);
    let mut engine = match Engine::open(alloc, store, limit) {
        Ok(engine) => engine,
        Err(fault) => return Err(fault.into()),
    };
    let first = bench.issued().len();
    let others = match settle_project(alloc, config, tree, &mut engine, store, builders, bench) {
        Ok(others) => others,
        Err(stop) => return Err(stop),
    };
    let entries = gained(bench, first);
    match deliver(
        alloc,
        cache,
        out,
        engine.tables(),
        engine.contents(),
        entries,
        &others,
    ) {
        Ok(()) => Ok(ending(&others)),
        Err(stop) => Err(stop),
    }
}

/// How many bytes the store's file may have: the lesser of its disks' rooms, and 2^32 at most.
fn store_limit<D: Disk>(store: &Pair<D>) -> u64
    ensures limit { result ≡ limit_of (D.room store.now.0) (D.room store.now.1) }
    ensures least { 17 ≤ result }
    ensures greatest { result ≤ 2 ^ 32 }
    ensures fits { result ≤ D.room store.now.0 }
{
    GREATEST.min(store.room(Side::A).min(store.room(Side::B)))
}

/// The entries of a bench from a place on, none where it has fewer.
fn gained<P>(bench: &Bench<P>, first: usize) -> &[Entry]
    ensures { result.now ≡ drop first bench.now }
{
    let issued = bench.issued();
    if first <= issued.len() {
        &issued[first..]
    } else {
        &[]
    }
}
