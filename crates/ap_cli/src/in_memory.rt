ghost use Rattle.std.specs.Prelude.{◌≡◌, ◌≢◌, ◌⊎◌, ℕ, List, IfSome};
ghost use Rattle.ap_tree.specs.Changes.{TellsAs};
ghost use Rattle.ap_engine.specs.Asked.{meanings_of};
ghost use Rattle.ap_engine.specs.Sound.{IsSound};
ghost use Rattle.ap_cli.specs.Lines.{report_lem};
ghost use Rattle.ap_cli.specs.Output.{TakesShort};
ghost use Rattle.ap_cli.specs.Overlay.{Overlays};
ghost use Rattle.ap_cli.specs.Run.{Ran};
ghost use Rattle.ap_cli.specs.Words.{IsBatch, OnBatch};

use crate::top::run;
use ap_builder::{Bench, Builders};
use ap_disk::{Disk, Pair, SureMemoryDisk};
use ap_tree::{CacheDir, Sink, SureMemoryCache, SureMemorySink, SureMemoryTree, Tree};
use std::alloc::Global;

/// Runs one command line over forms in memory that never fail, but where the sink's room is used up. The
/// statuses are those of `run` without 4, 5 and 6; over a sound store 7 comes only where the report is
/// longer than the sink's room.
pub fn run_in_memory<B: Builders + Sync>(
    alloc: Global,
    words: &[String],
    tree: &mut SureMemoryTree,
    cache: &mut SureMemoryCache,
    store: &mut Pair<SureMemoryDisk>,
    builders: &B,
    bench: &mut Bench<B::Pass>,
    out: &mut SureMemorySink,
) -> u8
    ensures others { (result ≡ 0) ⊎ (result ≡ 1) ⊎ (result ≡ 2) ⊎ (result ≡ 3) ⊎ (result ≡ 7) ⊎ (result ≡ 8) ⊎ (result ≡ 9) ⊎ (result ≡ 10) ⊎ (result ≡ 11) ⊎ (result ≡ 13) }
    ensures usage { result ≡ 2 → (path : List ℕ) → ¬ IsBatch words.now path }
    ensures batch { result ≢ 2 → result ≢ 8 → (path : List ℕ) × IsBatch words.now path }
    ensures room { result ≡ 7 → IfSome (⟦<SureMemoryDisk as Disk>⟧.seen store.old.0) (λ file. IsSound (meanings_of B.declares B.creates B.makes) file → OnBatch words.now (⟦<SureMemoryTree as Tree>⟧.files tree.old) (λ path files.
        Ran ⟦<SureMemoryDisk as Disk>⟧.seen ⟦<SureMemoryDisk as Disk>⟧.may_leave ⟦<SureMemoryDisk as Disk>⟧.clock ⟦<SureMemoryDisk as Disk>⟧.left_at ⟦<SureMemoryDisk as Disk>⟧.room ⟦<SureMemoryDisk as Disk>⟧.faults store.old store.new (meanings_of B.declares B.creates B.makes) (B.offers builders.now) path bench.old bench.new
        (λ put. TellsAs (⟦<SureMemoryCache as CacheDir>⟧.files cache.old) (⟦<SureMemoryCache as CacheDir>⟧.files cache.new) (Overlays put))
        (λ entries others counts. TakesShort (⟦<SureMemorySink as Sink>⟧.room out.old) (⟦<SureMemorySink as Sink>⟧.written out.old) (⟦<SureMemorySink as Sink>⟧.written out.new) (report_lem entries others counts)) files file)) }
{
    run(alloc, words, tree, cache, store, builders, bench, out)
}
