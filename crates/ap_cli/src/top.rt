ghost use Rattle.std.specs.Prelude.{◌≡◌, ◌≢◌, ◌⊎◌, ◌≤◌, ℕ, List, Ok, IfErr, IfOk, IfSome, OnOk};
ghost use Rattle.ap_cli.specs.declared.stop.Stop.{Stop as TheStop};
ghost use Rattle.ap_cli.specs.declared.stop.Stop.TheVariants.{Usage, Configuration, Tree as TreeStop, Cache, Disk as DiskStop, Output, Memory, BadStore, Limit, Full, Unbuilt};
ghost use Rattle.ap_cli.specs.declared.unconfigured.Unconfigured.{Unconfigured as TheUnconfigured};
ghost use Rattle.ap_config.specs.declared.config.Config.{Config as TheConfig};
ghost use Rattle.ap_text.specs.Causes.{Rose};
ghost use Rattle.ap_text.specs.declared.seen.Which.{Which as TheWhich};
ghost use Rattle.ap_tree.specs.Changes.{TellsAs};
ghost use Rattle.ap_tree.specs.Written.{Gains};
ghost use Rattle.ap_journal.specs.Moments.{Opens};
ghost use Rattle.ap_journal.specs.Records.{IsSameStore};
ghost use Rattle.ap_engine.specs.Asked.{meanings_of};
ghost use Rattle.ap_engine.specs.Ledgers.{LeavesOnly};
ghost use Rattle.ap_engine.specs.Sound.{IsSound};
ghost use Rattle.ap_cli.specs.Causes.{IsCauseFor};
ghost use Rattle.ap_cli.specs.Lines.{report_lem, ending_of, ending_status};
ghost use Rattle.ap_cli.specs.Output.{GainsFront, TakesShort};
ghost use Rattle.ap_cli.specs.Overlay.{Overlays, LaidAllButOne};
ghost use Rattle.ap_cli.specs.Project.{config_at, HasProject};
ghost use Rattle.ap_cli.specs.Refusals.{Refuses, status_of, refusal_line};
ghost use Rattle.ap_cli.specs.Run.{Ran, Stopped};
ghost use Rattle.ap_cli.specs.Store.{limit_of, IsGood};
ghost use Rattle.ap_cli.specs.Unbuilt.{IsUnbuilt};
ghost use Rattle.ap_cli.specs.Words.{IsBatch, OnBatch};

use crate::batch::batch;
use crate::ending::Ending;
use crate::output::write_text;
use crate::stop::{OUT_OF_MEMORY, Stop};
use crate::words::read_words;
use ap_builder::{Bench, Builders};
use ap_disk::{Disk, Pair};
use ap_tree::{CacheDir, Sink, Tree};
use std::alloc::Global;

/// Runs one command line, whose words are those after the program's name, and answers the exit status.
///
/// `batch CONFIG` reads the configuration at this path, opens the database, lists the scan folders and reads the files
/// that stand for their paths. It asks each source for its targets, of which there may be none, and then commits, each
/// as a whole change: the folder rows, the new, changed and gone sources by path, the creations by path, for each of
/// which the builders are asked to create, and the results by job id, for each of which one is asked to process; what
/// stands by its recorded input isn't asked for. Then it writes all products into the cache, and the report.
///
/// The statuses are 0 where all ran, 1 where all ran and a listed name is no path, 2 usage, 3 no configuration, 4 a
/// fault of the tree, 5 of the cache, 6 of a disk, 7 of the sink, 8 out of memory, 9 a bad record in the store, 10 too
/// many files or bytes, 11 a record that doesn't fit into the store, and 13 where the work needs what isn't built yet.
/// A refusal but 7 writes its line.
pub fn run<T: Tree, C: CacheDir, D: Disk, B: Builders + Sync, O: Sink>(
    alloc: Global,
    words: &[String],
    tree: &mut T,
    cache: &mut C,
    store: &mut Pair<D>,
    builders: &B,
    bench: &mut Bench<B::Pass>,
    out: &mut O,
) -> u8
    // A run to its end, over a store that earlier runs left, a tree that tells its files and a disk that tells its
    // bytes; where the sink failed, it has a front of the report, which is longer than the room that it told.
    ensures done { (result ≡ 0) ⊎ (result ≡ 1) → IfSome (D.seen store.old.0) (λ file. IsSound (meanings_of B.declares B.creates B.makes) file → OnBatch words.now (T.files tree.old) (λ path files.
        Ran D.seen D.may_leave D.clock D.left_at D.room D.faults store.old store.new (meanings_of B.declares B.creates B.makes) (B.offers builders.now) path bench.old bench.new
        (λ put. TellsAs (C.files cache.old) (C.files cache.new) (Overlays put))
        (λ entries others counts. Gains (O.written out.old) (O.written out.new) (report_lem entries others counts) × (result ≡ ending_status (ending_of others))) files file)) }
    ensures front { result ≡ 7 → IfSome (D.seen store.old.0) (λ file. IsSound (meanings_of B.declares B.creates B.makes) file → OnBatch words.now (T.files tree.old) (λ path files.
        Ran D.seen D.may_leave D.clock D.left_at D.room D.faults store.old store.new (meanings_of B.declares B.creates B.makes) (B.offers builders.now) path bench.old bench.new
        (λ put. TellsAs (C.files cache.old) (C.files cache.new) (Overlays put))
        (λ entries others counts. TakesShort (O.room out.old) (O.written out.old) (O.written out.new) (report_lem entries others counts)) files file)) }
    ensures partly { result ≡ 5 → IfSome (D.seen store.old.0) (λ file. IsSound (meanings_of B.declares B.creates B.makes) file → OnBatch words.now (T.files tree.old) (λ path files.
        Ran D.seen D.may_leave D.clock D.left_at D.room D.faults store.old store.new (meanings_of B.declares B.creates B.makes) (B.offers builders.now) path bench.old bench.new
        (λ put. TellsAs (C.files cache.old) (C.files cache.new) (LaidAllButOne put))
        (λ _ _ _. Unit {0}) files file)) }

    // A run that ends or is stopped anywhere: at each moment behind the opening's first call the store has the
    // tables of before after the first of the changes that a run to its end commits. After 4 and 8 this, or the
    // store is as before.
    ensures stopped { result ≢ 2 → result ≢ 3 → result ≢ 4 → result ≢ 8 → IfSome (D.seen store.old.0) (λ file. IsSound (meanings_of B.declares B.creates B.makes) file
        → (path : List ℕ) × IsBatch words.now path × Stopped D.seen D.may_leave D.clock D.left_at D.room D.faults store.old store.new (meanings_of B.declares B.creates B.makes) (B.offers builders.now) path (T.files tree.old) file) }
    ensures stopped_early { (result ≡ 4) ⊎ (result ≡ 8) → (store.new ≡ store.old) ⊎ IfSome (D.seen store.old.0) (λ file. IsSound (meanings_of B.declares B.creates B.makes) file
        → (path : List ℕ) × IsBatch words.now path × Stopped D.seen D.may_leave D.clock D.left_at D.room D.faults store.old store.new (meanings_of B.declares B.creates B.makes) (B.offers builders.now) path (T.files tree.old) file) }

    // Each image of each moment is one of before or a store that a run may leave.
    ensures sound { IfSome (D.seen store.old.0) (λ file. IsSound (meanings_of B.declares B.creates B.makes) file
        → LeavesOnly D.seen D.may_leave D.clock D.left_at D.room D.faults store.old store.new (IsSound (meanings_of B.declares B.creates B.makes))) }

    // When each refusal comes. Want of memory alone, 8, is free.
    ensures usage { result ≡ 2 → (path : List ℕ) → ¬ IsBatch words.now path }
    ensures batch { result ≢ 2 → result ≢ 8 → (path : List ℕ) × IsBatch words.now path }
    ensures configured { (result ≡ 2) ⊎ (result ≡ 3) ⊎ (result ≡ 4) ⊎ (result ≡ 8) ⊎ OnBatch words.now (T.files tree.old) (λ path files. (config : TheConfig) × (config_at (B.offers builders.now) path files ≡ Ok config)) }
    ensures scanned { result ≡ 11 → OnBatch words.now (T.files tree.old) (HasProject (B.offers builders.now)) }
    ensures unbuilt { result ≡ 13 → IfSome (D.seen store.old.0) (λ file. IsSound (meanings_of B.declares B.creates B.makes) file
        → OnBatch words.now (T.files tree.old) (λ path files. IsUnbuilt (meanings_of B.declares B.creates B.makes) (B.offers builders.now) path files)) }
    ensures built { (result ≡ 0) ⊎ (result ≡ 1) ⊎ (result ≡ 5) ⊎ (result ≡ 7) → IfSome (D.seen store.old.0) (λ file. IsSound (meanings_of B.declares B.creates B.makes) file
        → OnBatch words.now (T.files tree.old) (λ path files. ¬ IsUnbuilt (meanings_of B.declares B.creates B.makes) (B.offers builders.now) path files)) }
    ensures good { (result ≡ 2) ⊎ (result ≡ 3) ⊎ (result ≡ 6) ⊎ (result ≡ 8) ⊎ (result ≡ 9) ⊎ ((result ≡ 4) × (store.new ≡ store.old)) ⊎ IfSome (D.seen store.old.0) IsGood }
    ensures tree { result ≡ 4 → Rose (T.faults tree.old) (T.faults tree.new) }
    ensures cache { result ≡ 5 → Rose (C.faults cache.old) (C.faults cache.new) }
    ensures disk { result ≡ 6 → Rose (D.faults store.old.0) (D.faults store.new.0) }
    ensures output { result ≡ 7 → Rose (O.faults out.old) (O.faults out.new) }
    ensures others { (result ≡ 0) ⊎ (result ≡ 1) ⊎ (result ≡ 2) ⊎ (result ≡ 3) ⊎ (result ≡ 4) ⊎ (result ≡ 5) ⊎ (result ≡ 6) ⊎ (result ≡ 7) ⊎ (result ≡ 8) ⊎ (result ≡ 9) ⊎ (result ≡ 10) ⊎ (result ≡ 11) ⊎ (result ≡ 13) }

    // What stands after a refusal. The line names the first fault of the configuration, the first limit that is
    // passed, the first bad record and what is bad in it, or the lengths that pass the store's limit.
    ensures line { result ≢ 0 → result ≢ 1 → result ≢ 7 → Refuses result (O.written out.old) (O.written out.new) (Rose (O.faults out.old) (O.faults out.new))
        (IsCauseFor words.now (B.offers builders.now) (T.files tree.old) (D.seen store.old.0) (limit_of (D.room store.old.0) (D.room store.old.1))) }
    ensures read { result ≡ 2 → (tree.new ≡ tree.old) × (bench.new ≡ bench.old) × (store.new ≡ store.old) }
    ensures unread { result ≡ 3 → (bench.new ≡ bench.old) × (store.new ≡ store.old) }
    ensures unasked { (result ≡ 4) ⊎ (result ≡ 9) ⊎ (result ≡ 10) → bench.new ≡ bench.old }
    ensures kept { (result ≡ 9) ⊎ (result ≡ 10) → Opens D.seen D.may_leave D.clock D.left_at D.room D.faults store.old store.new (D.may_leave store.old.0)
        (λ c. IfSome (D.seen store.old.0) (λ file. IsSameStore file c)) }
    ensures kept_early { result ≡ 4 → (store.new ≡ store.old) ⊎ Opens D.seen D.may_leave D.clock D.left_at D.room D.faults store.old store.new (D.may_leave store.old.0)
        (λ c. IfSome (D.seen store.old.0) (λ file. IsSameStore file c)) }
    ensures untouched { result ≢ 0 → result ≢ 1 → result ≢ 5 → result ≢ 7 → result ≢ 8 → cache.new ≡ cache.old }
{
    match run_batch(alloc, words, tree, cache, store, builders, bench, out) {
        Ok(ending) => ending.status(),
        Err(stop) => refuse(alloc, out, stop),
    }
}

fn run_batch<T: Tree, C: CacheDir, D: Disk, B: Builders + Sync, O: Sink>(
    alloc: Global,
    words: &[String],
    tree: &mut T,
    cache: &mut C,
    store: &mut Pair<D>,
    builders: &B,
    bench: &mut Bench<B::Pass>,
    out: &mut O,
) -> Result<Ending, Stop>
    ensures done { IfOk result (λ ending. IfSome (D.seen store.old.0) (λ file. IsSound (meanings_of B.declares B.creates B.makes) file → OnBatch words.now (T.files tree.old) (λ path files.
        Ran D.seen D.may_leave D.clock D.left_at D.room D.faults store.old store.new (meanings_of B.declares B.creates B.makes) (B.offers builders.now) path bench.old bench.new
        (λ put. TellsAs (C.files cache.old) (C.files cache.new) (Overlays put))
        (λ entries others counts. Gains (O.written out.old) (O.written out.new) (report_lem entries others counts) × (ending ≡ ending_of others)) files file))) }
    ensures front { IfErr result (λ stop. stop ≡ Output → IfSome (D.seen store.old.0) (λ file. IsSound (meanings_of B.declares B.creates B.makes) file → OnBatch words.now (T.files tree.old) (λ path files.
        Ran D.seen D.may_leave D.clock D.left_at D.room D.faults store.old store.new (meanings_of B.declares B.creates B.makes) (B.offers builders.now) path bench.old bench.new
        (λ put. TellsAs (C.files cache.old) (C.files cache.new) (Overlays put))
        (λ entries others counts. TakesShort (O.room out.old) (O.written out.old) (O.written out.new) (report_lem entries others counts)) files file))) }
    ensures partly { IfErr result (λ stop. stop ≡ Cache → IfSome (D.seen store.old.0) (λ file. IsSound (meanings_of B.declares B.creates B.makes) file → OnBatch words.now (T.files tree.old) (λ path files.
        Ran D.seen D.may_leave D.clock D.left_at D.room D.faults store.old store.new (meanings_of B.declares B.creates B.makes) (B.offers builders.now) path bench.old bench.new
        (λ put. TellsAs (C.files cache.old) (C.files cache.new) (LaidAllButOne put))
        (λ _ _ _. Unit {0}) files file))) }
    ensures stopped { (store.new ≡ store.old) ⊎ IfSome (D.seen store.old.0) (λ file. IsSound (meanings_of B.declares B.creates B.makes) file
        → (path : List ℕ) × IsBatch words.now path × Stopped D.seen D.may_leave D.clock D.left_at D.room D.faults store.old store.new (meanings_of B.declares B.creates B.makes) (B.offers builders.now) path (T.files tree.old) file) }
    ensures stopped_whole { OnOk result (IfSome (D.seen store.old.0) (λ file. IsSound (meanings_of B.declares B.creates B.makes) file
        → (path : List ℕ) × IsBatch words.now path × Stopped D.seen D.may_leave D.clock D.left_at D.room D.faults store.old store.new (meanings_of B.declares B.creates B.makes) (B.offers builders.now) path (T.files tree.old) file)) }
    ensures stopped_at { IfErr result (λ stop. stop ≢ Usage → stop ≢ TreeStop → stop ≢ Memory → ((why : TheUnconfigured) → stop ≢ Configuration why) → IfSome (D.seen store.old.0) (λ file. IsSound (meanings_of B.declares B.creates B.makes) file
        → (path : List ℕ) × IsBatch words.now path × Stopped D.seen D.may_leave D.clock D.left_at D.room D.faults store.old store.new (meanings_of B.declares B.creates B.makes) (B.offers builders.now) path (T.files tree.old) file)) }
    ensures sound { IfSome (D.seen store.old.0) (λ file. IsSound (meanings_of B.declares B.creates B.makes) file
        → LeavesOnly D.seen D.may_leave D.clock D.left_at D.room D.faults store.old store.new (IsSound (meanings_of B.declares B.creates B.makes))) }
    ensures kept { IfErr result (λ stop. ((n : ℕ) × (o : ℕ) × (stop ≡ BadStore n o)) ⊎ ((which : TheWhich) × (count : ℕ) × (stop ≡ Limit which count)) → Opens D.seen D.may_leave D.clock D.left_at D.room D.faults store.old store.new (D.may_leave store.old.0)
        (λ c. IfSome (D.seen store.old.0) (λ file. IsSameStore file c))) }
    ensures kept_early { IfErr result (λ stop. stop ≡ TreeStop → (store.new ≡ store.old) ⊎ Opens D.seen D.may_leave D.clock D.left_at D.room D.faults store.old store.new (D.may_leave store.old.0)
        (λ c. IfSome (D.seen store.old.0) (λ file. IsSameStore file c))) }
    ensures scanned { IfErr result (λ stop. (l w : ℕ) → stop ≡ Full l w → OnBatch words.now (T.files tree.old) (HasProject (B.offers builders.now))) }
    ensures usage { IfErr result (λ stop. stop ≡ Usage → (path : List ℕ) → ¬ IsBatch words.now path) }
    ensures batch { IfErr result (λ stop. stop ≢ Usage → stop ≢ Memory → (path : List ℕ) × IsBatch words.now path) }
    ensures batch_whole { OnOk result ((path : List ℕ) × IsBatch words.now path) }
    ensures configured { IfErr result (λ stop. (stop ≡ Usage) ⊎ (stop ≡ TreeStop) ⊎ (stop ≡ Memory) ⊎ ((why : TheUnconfigured) × (stop ≡ Configuration why)) ⊎ OnBatch words.now (T.files tree.old) (λ path files. (config : TheConfig) × (config_at (B.offers builders.now) path files ≡ Ok config))) }
    ensures configured_whole { OnOk result (OnBatch words.now (T.files tree.old) (λ path files. (config : TheConfig) × (config_at (B.offers builders.now) path files ≡ Ok config))) }
    ensures unbuilt { IfErr result (λ stop. stop ≡ Unbuilt → IfSome (D.seen store.old.0) (λ file. IsSound (meanings_of B.declares B.creates B.makes) file
        → OnBatch words.now (T.files tree.old) (λ path files. IsUnbuilt (meanings_of B.declares B.creates B.makes) (B.offers builders.now) path files))) }
    ensures built { IfErr result (λ stop. (stop ≡ Cache) ⊎ (stop ≡ Output) → IfSome (D.seen store.old.0) (λ file. IsSound (meanings_of B.declares B.creates B.makes) file
        → OnBatch words.now (T.files tree.old) (λ path files. ¬ IsUnbuilt (meanings_of B.declares B.creates B.makes) (B.offers builders.now) path files))) }
    ensures built_whole { OnOk result (IfSome (D.seen store.old.0) (λ file. IsSound (meanings_of B.declares B.creates B.makes) file
        → OnBatch words.now (T.files tree.old) (λ path files. ¬ IsUnbuilt (meanings_of B.declares B.creates B.makes) (B.offers builders.now) path files))) }
    ensures good { IfErr result (λ stop. (stop ≡ Usage) ⊎ (stop ≡ Memory) ⊎ (stop ≡ DiskStop) ⊎ ((n : ℕ) × (o : ℕ) × (stop ≡ BadStore n o)) ⊎ ((why : TheUnconfigured) × (stop ≡ Configuration why)) ⊎ ((stop ≡ TreeStop) × (store.new ≡ store.old)) ⊎ IfSome (D.seen store.old.0) IsGood) }
    ensures good_whole { OnOk result (IfSome (D.seen store.old.0) IsGood) }
    ensures caused { IfErr result (IsCauseFor words.now (B.offers builders.now) (T.files tree.old) (D.seen store.old.0) (limit_of (D.room store.old.0) (D.room store.old.1))) }
    ensures tree { IfErr result (λ stop. stop ≡ TreeStop → Rose (T.faults tree.old) (T.faults tree.new)) }
    ensures cache { IfErr result (λ stop. stop ≡ Cache → Rose (C.faults cache.old) (C.faults cache.new)) }
    ensures disk { IfErr result (λ stop. stop ≡ DiskStop → Rose (D.faults store.old.0) (D.faults store.new.0)) }
    ensures output { IfErr result (λ stop. stop ≡ Output → Rose (O.faults out.old) (O.faults out.new)) }
    ensures read { IfErr result (λ stop. stop ≡ Usage → (tree.new ≡ tree.old) × (bench.new ≡ bench.old) × (store.new ≡ store.old)) }
    ensures unread { IfErr result (λ stop. (why : TheUnconfigured) → stop ≡ Configuration why → (bench.new ≡ bench.old) × (store.new ≡ store.old)) }
    ensures unasked { IfErr result (λ stop. (stop ≡ TreeStop) ⊎ ((n : ℕ) × (o : ℕ) × (stop ≡ BadStore n o)) ⊎ ((which : TheWhich) × (count : ℕ) × (stop ≡ Limit which count)) → bench.new ≡ bench.old) }
    ensures untouched { IfErr result (λ stop. stop ≢ Cache → stop ≢ Output → stop ≢ Memory → cache.new ≡ cache.old) }
    ensures silent { IfErr result (λ stop. stop ≢ Output → out.new ≡ out.old) }
{
    let path = match read_words(alloc, words) {
        Ok(path) => path,
        Err(stop) => return Err(stop),
    };
    batch(alloc, &path, tree, cache, store, builders, bench, out)
}

/// Writes the line of a refusal as far as the sink takes it, and answers its status. Where there is no memory
/// for the line, the refusal is that one.
fn refuse<O: Sink>(alloc: Global, out: &mut O, stop: Stop) -> u8
    ensures said { (said : Stop) × ((said ≡ stop) ⊎ ((said ≡ Memory) × (stop ≢ Output))) × (result ≡ status_of said)
        × GainsFront (O.written out.old) (O.written out.new) (refusal_line said)
        × (Gains (O.written out.old) (O.written out.new) (refusal_line said) ⊎ Rose (O.faults out.old) (O.faults out.new)) }
    ensures later { O.faults out.old ≤ O.faults out.new }
{
    match stop.line(alloc) {
        Ok(line) => say(out, &stop, line.as_slice()),
        Err(_) => say(out, &Stop::Memory, OUT_OF_MEMORY),
    }
}

/// Writes this line, and answers the status.
fn say<O: Sink>(out: &mut O, stop: &Stop, line: &[u8]) -> u8
    requires { line.now ≡ refusal_line stop.now }
    ensures status { result ≡ status_of stop.now }
    ensures front { GainsFront (O.written out.old) (O.written out.new) (refusal_line stop.now) }
    ensures whole { Gains (O.written out.old) (O.written out.new) (refusal_line stop.now) ⊎ Rose (O.faults out.old) (O.faults out.new) }
    ensures later { O.faults out.old ≤ O.faults out.new }
{
    let _ = write_text(out, line);
    stop.status()
}
