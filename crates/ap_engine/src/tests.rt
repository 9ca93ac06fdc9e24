ghost use Rattle.std.specs.Prelude.{◌≡◌, [], ◌∷◌, true, Some, IfOk, OnOk, IsTrue, codes};
ghost use Rattle.std.specs.List.{AllByRecursion};
ghost use Rattle.std.proofs.Common.{refl, arith};
ghost use Rattle.ap_text.specs.declared.seen.Seen.TheVariants.{Bytes as SeenBytes};
ghost use Rattle.ap_config.specs.declared.offer.Offer.{Offer};
ghost use Rattle.ap_rows.specs.Readers.{is_folded as is_folded_lem};
ghost use Rattle.ap_scan.specs.declared.results.Winner.{Winner as TheWinner};
ghost use Rattle.ap_builder.specs.declared.work.CreateAnswer.{CreateAnswer};
ghost use Rattle.ap_builder.specs.declared.work.Outcome.{Outcome};
ghost use Rattle.ap_builder.specs.Offers.{is_offered};
ghost use Rattle.ap_db.specs.Stored.{Stored, nothing_stored};
ghost use Rattle.ap_engine.specs.Asked.{meanings_of};
ghost use Rattle.ap_engine.specs.Ledgers.{IsReady};
ghost use Rattle.ap_engine.specs.Sound.{IsSoundStored};

use crate::{Engine, EngineFault};
use ap_builder::{
    Bench, Builders, CreateAnswer, CreateInput, JobInput, Offer, Outcome, Permit, Target,
};
use ap_config::{Config, Folder};
use ap_content::Number;
use ap_db::DbFault;
use ap_disk::{Disk, Pair, Side, SureMemoryDisk};
use ap_rows::is_folded;
use ap_scan::Winner;
use ap_text::{Bytes, List, Name, OutOfMemory, Platform, RelPath, Seen};
use std::alloc::Global;
use std::process::Abort;
use std::test::Fail;

/// Room for all records of these tests.
const ROOM: usize = 2048;

/// The store of a project whose one folder has no file.
const FOLDER_ALONE: &[u8] =
    b"APSTORE1\0\0\0\0\0\0\0\x01\x01\0\0\0\x0f\x09\0\0\0\x01\0\0\0\0\0\x04game\0";

/// The store of a project whose one file is `A.txt` and whose builder fails.
const FILE_ALONE: &[u8] =
    b"APSTORE1\0\0\0\0\0\0\0\x01\x01\0\0\0\x0f\x09\0\0\0\x01\0\0\0\0\0\x04game\x01\0\0\0\x28\
\x01\0\0\0\0\x021\n\0\0\0\0\x03\0\x05a.txt\0\0\0\0\0\x05A.txt\0\0\0\0\0\0\0\0\x01\0";

/// One builder, `fail`, that fails with 7 and 9.
#[derive(Drop)]
struct Failing;

#[derive(Drop)]
struct FailingPass;

impl Builders for Failing {
    type Pass = FailingPass;

    ghost declares = { λ _ _ _. [] };

    ghost creates = { λ _ _. CreateAnswer.Failed 7 };

    ghost makes = { λ _. Outcome.Failed 9 };

    ghost offers = { λ _. record { name = codes "fail"; patterns = []; version = 1 } ∷ [] };

    ghost distinct = { λ _. refl };

    ghost patterns = { λ _. (tt, tt) };

    ghost declared = { λ _ _ _. record { each = tt; short = λ _. Prim.omega arith } };

    ghost created = { λ _ _. tt };

    ghost made = { λ _. tt };

    fn offers(&self, alloc: Global) -> Result<Vec<Offer>, OutOfMemory> {
        let mut offers = Vec::new(alloc);
        let Ok(name) = Name::read(alloc, b"fail") else {
            return Err(OutOfMemory);
        };
        offers.push(Offer {
            name,
            patterns: List::of(Vec::new(alloc)),
            version: 1,
        })?;
        Ok(offers)
    }

    fn has(&self, builder: &Name) -> bool {
        builder.as_slice() == b"fail".as_slice()
    }

    fn declare(
        &self,
        alloc: Global,
        _builder: &Name,
        _path: &RelPath,
        _bytes: &[u8],
    ) -> Result<Vec<Target>, OutOfMemory> {
        Ok(Vec::new(alloc))
    }

    fn create(
        &self,
        _alloc: Global,
        _permit: Permit<FailingPass>,
        _builder: &Name,
        _input: &CreateInput,
    ) -> Result<CreateAnswer, OutOfMemory>
        ensures { IfOk result (λ answer. answer ≡ CreateAnswer.Failed 7) }
    {
        Ok(CreateAnswer::Failed(7))
    }

    fn process(
        &self,
        _alloc: Global,
        _permit: Permit<FailingPass>,
        _input: &JobInput,
    ) -> Result<Outcome, OutOfMemory>
        ensures { IfOk result (λ outcome. outcome ≡ Outcome.Failed 9) }
    {
        Ok(Outcome::Failed(9))
    }
}

/// A disk in memory without a file.
fn disk(alloc: Global) -> Result<SureMemoryDisk, Fail>
    ensures room { IfOk result (λ disk. ⟦<SureMemoryDisk as Disk>⟧.room disk ≡ 2048) }
    ensures empty { IfOk result (λ disk. ⟦<SureMemoryDisk as Disk>⟧.seen disk ≡ Some []) }
{
    Ok(SureMemoryDisk::new(vec![in alloc; 0u8; ROOM]?, 0))
}

/// A pair of disks without files.
fn pair(alloc: Global) -> Result<Pair<SureMemoryDisk>, Fail>
    ensures room { IfOk result (λ pair. ⟦<SureMemoryDisk as Disk>⟧.room pair.0 ≡ 2048) }
    ensures empty { IfOk result (λ pair. ⟦<SureMemoryDisk as Disk>⟧.seen pair.0 ≡ Some []) }
{
    let a = disk(alloc)?;
    let b = disk(alloc)?;
    Ok(Pair::new(a, b))
}

/// The configuration of one folder, `game`, without builders.
fn one_folder(alloc: Global) -> Result<Config, Fail>
    ensures { IfOk result (λ config. config.builders ≡ []) }
{
    let folder = Folder {
        order: 0,
        path: RelPath::read(alloc, b"game")?,
        exclude: List::of(Vec::new(alloc)),
    };
    Ok(Config {
        platforms: List::of(vec![in alloc; Platform::read(alloc, b"pc")?]?),
        folders: List::of(vec![in alloc; folder]?),
        builders: List::of(Vec::new(alloc)),
    })
}

/// Opens the database of a pair without files.
fn open(alloc: Global, store: &mut Pair<SureMemoryDisk>) -> Result<Engine, DbFault>
    requires room { ⟦<SureMemoryDisk as Disk>⟧.room store.old.0 ≡ 2048 }
    requires empty { ⟦<SureMemoryDisk as Disk>⟧.seen store.old.0 ≡ Some [] }
    ensures { IfOk result (λ engine. IsReady ⟦<SureMemoryDisk as Disk>⟧.seen ⟦<SureMemoryDisk as Disk>⟧.may_leave ⟦<SureMemoryDisk as Disk>⟧.room engine.ledger.db engine.ledger.contents store.new nothing_stored) }
{
    Engine::open(alloc, store, ROOM as u64)
}

/// Settles a project without files.
fn settle_no_files(
    alloc: Global,
    engine: &mut Engine,
    store: &mut Pair<SureMemoryDisk>,
    bench: &mut Bench<FailingPass>,
    config: &Config,
) -> Result<(), EngineFault>
    requires ready { (stored : Stored) × IsReady ⟦<SureMemoryDisk as Disk>⟧.seen ⟦<SureMemoryDisk as Disk>⟧.may_leave ⟦<SureMemoryDisk as Disk>⟧.room engine.old.ledger.db engine.old.ledger.contents store.old stored }
    requires alone { config.now.builders ≡ [] }
    ensures { OnOk result ((stored : Stored) → IsReady ⟦<SureMemoryDisk as Disk>⟧.seen ⟦<SureMemoryDisk as Disk>⟧.may_leave ⟦<SureMemoryDisk as Disk>⟧.room engine.old.ledger.db engine.old.ledger.contents store.old stored → IsSoundStored (meanings_of ⟦<Failing as Builders>⟧.declares ⟦<Failing as Builders>⟧.creates ⟦<Failing as Builders>⟧.makes) stored
        → (after : Stored) × IsReady ⟦<SureMemoryDisk as Disk>⟧.seen ⟦<SureMemoryDisk as Disk>⟧.may_leave ⟦<SureMemoryDisk as Disk>⟧.room engine.new.ledger.db engine.new.ledger.contents store.new after) }
{
    engine.settle(alloc, store, &Failing, bench, config, Vec::new(alloc))
}

/// The configuration of one folder, `game`, each file of which `fail` takes.
fn failing_folder(rt: &impl Abort, alloc: Global) -> Result<Config, Fail>
    ensures { IfOk result (λ config. AllByRecursion (λ offer. IsTrue (is_offered (record { name = codes "fail"; patterns = []; version = 1 } ∷ []) offer.name)) config.builders) }
{
    let name = Name::read(alloc, b"fail")?;
    assert!(rt; Failing.has(&name));
    let patterns = List::of(vec![in alloc; Bytes::of(b"*".to_vec(alloc)?)]?);
    let offer = Offer {
        name,
        patterns,
        version: 1,
    };
    let mut config = one_folder(alloc)?;
    config.builders = List::of(vec![in alloc; offer]?);
    Ok(config)
}

/// The file `A.txt`, of two bytes.
fn one_file(rt: &impl Abort, alloc: Global) -> Result<Vec<Winner>, Fail>
    ensures { IfOk result (λ winners. (winner : TheWinner) × (winners.items ≡ winner ∷ []) × (is_folded_lem winner.path ≡ true) × (winner.seen ≡ SeenBytes (codes "1\n"))) }
{
    let path = RelPath::read(alloc, b"a.txt")?;
    assert!(rt; is_folded(&path));
    let winner = Winner {
        path,
        order: 0,
        name: RelPath::read(alloc, b"A.txt")?,
        seen: Seen::Bytes(Bytes::of(b"1\n".to_vec(alloc)?)),
    };
    Ok(vec![in alloc; winner]?)
}

/// Settles a project of one file.
fn settle_one_file(
    alloc: Global,
    engine: &mut Engine,
    store: &mut Pair<SureMemoryDisk>,
    bench: &mut Bench<FailingPass>,
    config: &Config,
    winners: Vec<Winner>,
) -> Result<(), EngineFault>
    requires ready { (stored : Stored) × IsReady ⟦<SureMemoryDisk as Disk>⟧.seen ⟦<SureMemoryDisk as Disk>⟧.may_leave ⟦<SureMemoryDisk as Disk>⟧.room engine.old.ledger.db engine.old.ledger.contents store.old stored }
    requires one { (winner : TheWinner) × (winners.items ≡ winner ∷ []) × (is_folded_lem winner.path ≡ true) × (winner.seen ≡ SeenBytes (codes "1\n")) }
    requires offered { AllByRecursion (λ offer. IsTrue (is_offered (record { name = codes "fail"; patterns = []; version = 1 } ∷ []) offer.name)) config.now.builders }
{
    engine.settle(alloc, store, &Failing, bench, config, winners)
}

/// The bytes of the first file of a pair.
fn file_of(store: &Pair<SureMemoryDisk>) -> &[u8] {
    store.disk(Side::A).bytes()
}

#[test]
fn project_without_files_settles_to_its_folder(rt: HostRuntime) -> Result<(), Fail> {
    let alloc = rt.alloc();
    let mut store = pair(alloc)?;
    let mut bench = Bench::new(alloc, FailingPass);
    let config = one_folder(alloc)?;
    let mut engine = open(alloc, &mut store)?;
    settle_no_files(alloc, &mut engine, &mut store, &mut bench, &config)?;
    assert!(rt; file_of(&store) == FOLDER_ALONE);
    let tables = engine.tables();
    assert_eq!(rt; tables.folders.len(), 1);
    assert_eq!(rt; tables.folders[0].order, 0);
    assert!(rt; tables.folders[0].path.as_str() == "game");
    assert!(rt; tables.sources.is_empty() && tables.creates.is_empty() && tables.jobs.is_empty());
    assert!(rt; engine.contents().get(Number(0)).is_none());
    settle_no_files(alloc, &mut engine, &mut store, &mut bench, &config)?;
    assert!(rt; file_of(&store) == FOLDER_ALONE);
    assert!(rt; bench.issued().is_empty());
    Ok(())
}

#[test]
fn file_whose_builder_fails_is_unbuilt(rt: HostRuntime) -> Result<(), Fail> {
    let alloc = rt.alloc();
    let mut store = pair(alloc)?;
    let mut bench = Bench::new(alloc, FailingPass);
    let config = failing_folder(&rt, alloc)?;
    let winners = one_file(&rt, alloc)?;
    let mut engine = open(alloc, &mut store)?;
    let stop = settle_one_file(alloc, &mut engine, &mut store, &mut bench, &config, winners);
    assert!(rt; stop == Err(EngineFault::Unbuilt));
    assert!(rt; file_of(&store) == FILE_ALONE);
    assert_eq!(rt; engine.tables().sources.len(), 1);
    assert!(rt; engine.tables().creates.is_empty());
    assert_eq!(rt; bench.issued().len(), 1);
    Ok(())
}
