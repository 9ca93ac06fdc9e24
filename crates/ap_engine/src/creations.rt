//! The phase of a run that asks builders to create the jobs of sources, and commits what they create.
ghost use Rattle.std.specs.Prelude.{◌≡◌, ◌⊎◌, ◌++◌, ◌∷◌, [], ℕ, List, length, map, true, Contains, ◌<◌, ◌+◌, All, IsTrue, IfOk, IfErr, OnOk, OnErr, Option, Some, None, find, bytes_eq};
ghost use Rattle.std.specs.List.{AllByRecursion, list_any};
ghost use Rattle.ap_text.specs.Causes.{Rose};
ghost use Rattle.ap_text.specs.NameRules.{IsPlatform};
ghost use Rattle.ap_text.specs.PathRules.{IsRelPath};
ghost use Rattle.ap_content.specs.Things.{bytes_thing};
ghost use Rattle.ap_content.specs.Entries.{Stands, Lives};
ghost use Rattle.ap_config.specs.declared.offer.Offer.{Offer};
ghost use Rattle.ap_rows.specs.Readers.{is_folded};
ghost use Rattle.ap_rows.specs.Inputs.{create_thing};
ghost use Rattle.ap_rows.specs.Typed.{Fits32};
ghost use Rattle.ap_rows.specs.InputRanges.{Fits64, IsBuilder, IsCreateInput};
ghost use Rattle.ap_rows.specs.InputNodes.{builder_of};
ghost use Rattle.ap_rows.specs.declared.job.JobDesc.{JobDesc};
ghost use Rattle.ap_rows.specs.declared.job.Created.TheVariants.{Jobs as CreatedJobs};
ghost use Rattle.ap_builder.specs.Offers.{is_offered};
ghost use Rattle.ap_builder.specs.Views.{create_view};
ghost use Rattle.ap_builder.specs.declared.entry.Entry.TheVariants.{Create};
ghost use Rattle.ap_builder.specs.declared.work.CreateAnswer.TheVariants.{Jobs, Failed};
ghost use Rattle.ap_db.specs.declared.fault.DbFault.TheVariants.{OutOfMemory, DiskFault, StoreFull};
ghost use Rattle.ap_db.specs.Stored.{Stored};
ghost use Rattle.ap_db.specs.Databases.{IsDb};
ghost use Rattle.ap_db.specs.Changes.{create_row_at};
ghost use Rattle.ap_scan.specs.declared.results.Winner.{Winner};
ghost use Rattle.ap_builder.specs.Meanings.{Meanings};
ghost use Rattle.ap_db.specs.Listed.{AreAll};
ghost use Rattle.ap_sources.specs.Sources.{matching, sources};
ghost use Rattle.ap_create.specs.Creation.{create_from, created, same_slot};
ghost use Rattle.ap_engine.specs.Changes.{create_changes};
ghost use Rattle.ap_engine.specs.declared.fault.EngineFault.TheVariants.{Db, Unbuilt};
ghost use Rattle.ap_engine.specs.declared.source.Source.{Source};
ghost use Rattle.ap_engine.specs.Ledgers.{IsBeside, IsHeld, StayHeld, IsReady, HasCommitted, HasStopped};
ghost use Rattle.ap_engine.specs.Worlds.{AreFreeJobs, AreQuiet};
ghost use Rattle.ap_engine.specs.Interned.{AreSourcesOf};
ghost use Rattle.ap_engine.specs.declared.creations.NeededCreation.{NeededCreation};
ghost use Rattle.ap_engine.specs.Asked.{meanings_of, is_of_number, AreNeeds, HasHeldBytes, needed_sources, IsNeeded, AreToPut, puts_of, asked_of, IsFree, versions_of, plain_from, answers_of, entries_of, all_joined, all_apart};

use crate::copying::copy_bytes;
use crate::fault::EngineFault;
use crate::jobs::are_free;
use crate::ledger::Ledger;
use crate::source::Source;
use ap_builder::{Bench, Builders, CreateAnswer, CreateInput, Entry, JobDesc};
use ap_config::{Config, Offer};
use ap_content::Number;
use ap_db::DbFault;
use ap_disk::{Disk, Pair};
use ap_rows::{CreateParts, CreateRow, Created, MatchingBuilder, SeenThing, create_node};
use ap_text::{List, Name, OutOfMemory as NoMemory, Platform, RelPath, some_matches};
use std::alloc::Global;

/// A source whose creation doesn't stand, with the number of its create input.
#[derive(Drop)]
pub(crate) struct NeededCreation<'a> {
    source: &'a Source,
    input: Number,
}

/// The builders that match a path, in the order of the configuration.
fn matching_builders<'a>(
    alloc: Global,
    config: &'a Config,
    path: &RelPath,
) -> Result<Vec<&'a Offer>, NoMemory>
    ensures { IfOk result (λ offers. map (λ offer. offer.now) offers.items ≡ matching config.now path.now) }
{
    let mut matching = Vec::new(alloc);
    for offer in config.builders.as_slice() {
        if some_matches(offer.patterns.as_slice(), path.as_str()) {
            matching.push(offer)?;
        }
    }
    Ok(matching)
}

/// The builders as a create input lists them.
fn listed<'a>(alloc: Global, offers: &[&'a Offer]) -> Result<Vec<MatchingBuilder<'a>>, NoMemory>
    ensures { IfOk result (λ list. map builder_of list.items ≡ versions_of (map (λ offer. offer.now) offers.now)) }
{
    let mut list = Vec::with_capacity(alloc, offers.len())?;
    for offer in offers {
        list.push(MatchingBuilder {
            name: &offer.name,
            version: offer.version,
        })?;
    }
    Ok(list)
}

/// The names and versions of builders.
fn versions(alloc: Global, offers: &[&Offer]) -> Result<Vec<(Name, u32)>, NoMemory>
    ensures { IfOk result (λ list. list.items ≡ versions_of (map (λ offer. offer.now) offers.now)) }
{
    let mut list = Vec::with_capacity(alloc, offers.len())?;
    for offer in offers {
        list.push((offer.name.copy(alloc)?, offer.version))?;
    }
    Ok(list)
}

/// Copies of platforms.
fn copy_platforms(alloc: Global, platforms: &[Platform]) -> Result<Vec<Platform>, NoMemory>
    ensures { IfOk result (λ copies. copies.items ≡ platforms.now) }
{
    let mut copies = Vec::with_capacity(alloc, platforms.len())?;
    for platform in platforms {
        copies.push(platform.copy(alloc)?)?;
    }
    Ok(copies)
}

/// Whether two jobs have one key and platform.
fn is_same_slot(job: &JobDesc, other: &JobDesc) -> bool
    ensures { result ≡ same_slot job.now other.now }
{
    job.key.as_slice() == other.key.as_slice()
        && job.platform.as_slice() == other.platform.as_slice()
}

/// Whether one of these jobs has the key and platform of this one.
fn has_slot(job: &JobDesc, others: &[JobDesc]) -> bool
    ensures { result ≡ list_any (same_slot job.now) others.now }
{
    others.iter().any(|other| is_same_slot(job, other))
}

/// Whether no two of the jobs have one key and platform. Each is compared with those behind it: the jobs of one
/// source are few.
fn are_apart(jobs: &[JobDesc]) -> bool
    ensures { result ≡ all_apart jobs.now }
{
    let mut rest = jobs;
    while let [job, after @ ..] = rest {
        if has_slot(job, after) {
            return false;
        }
        rest = after;
    }
    true
}

/// Puts the jobs behind others.
fn put_behind(jobs: &mut Vec<JobDesc>, more: List<JobDesc>) -> Result<(), NoMemory>
    ensures { OnOk result (jobs.new.items ≡ jobs.old.items ++ more) }
{
    let mut more = more.into_vec();
    jobs.append(&mut more)?;
    Ok(())
}

/// Asks a builder to create jobs, and puts them behind these.
fn ask_one<B: Builders>(
    alloc: Global,
    builders: &B,
    bench: &mut Bench<B::Pass>,
    offer: &Offer,
    input: &CreateInput,
    jobs: &mut Vec<JobDesc>,
) -> Result<(), EngineFault>
    requires { IsTrue (is_offered (B.offers builders.now) offer.now.name) }
    ensures jobs { OnOk result ((more : List JobDesc) × (B.creates offer.now.name input.now ≡ Jobs more) × (jobs.new.items ≡ jobs.old.items ++ more)) }
    ensures noted { OnOk result (bench.new ≡ bench.old ++ Create input.now.path offer.now.name ∷ []) }
    ensures unbuilt { IfErr result (λ stop. stop ≡ Unbuilt → (code : ℕ) × (B.creates offer.now.name input.now ≡ Failed code)) }
    ensures only { IfErr result (λ stop. (stop ≡ Db OutOfMemory) ⊎ (stop ≡ Unbuilt)) }
{
    let permit = bench.permit(Entry::Create {
        source: input.path.copy(alloc)?,
        builder: offer.name.copy(alloc)?,
    })?;
    match builders.create(alloc, permit, &offer.name, input)? {
        CreateAnswer::Jobs(more) => {
            put_behind(jobs, more)?;
            Ok(())
        }
        CreateAnswer::Failed(_) => Err(EngineFault::Unbuilt),
    }
}

/// Asks these builders one after another, and gives the jobs that they create.
fn ask_each<B: Builders>(
    alloc: Global,
    builders: &B,
    bench: &mut Bench<B::Pass>,
    offers: &[&Offer],
    input: &CreateInput,
) -> Result<Vec<JobDesc>, EngineFault>
    requires { AllByRecursion (λ offer. IsTrue (is_offered (B.offers builders.now) offer.now.name)) offers.now }
    ensures jobs { IfOk result (λ jobs. all_joined (answers_of B.creates input.now (map (λ offer. offer.now) offers.now)) ≡ Some jobs.items) }
    ensures noted { OnOk result (bench.new ≡ bench.old ++ entries_of input.now.path (map (λ offer. offer.now) offers.now)) }
    ensures unbuilt { IfErr result (λ stop. stop ≡ Unbuilt → all_joined (answers_of B.creates input.now (map (λ offer. offer.now) offers.now)) ≡ None) }
    ensures only { IfErr result (λ stop. (stop ≡ Db OutOfMemory) ⊎ (stop ≡ Unbuilt)) }
{
    let mut jobs = Vec::new(alloc);
    let mut rest = offers;
    while let [offer, after @ ..] = rest {
        ask_one(alloc, builders, bench, offer, input, &mut jobs)?;
        rest = after;
    }
    Ok(jobs)
}

/// What the builders that match a source see of it.
fn input_of(
    alloc: Global,
    ledger: &Ledger,
    config: &Config,
    source: &Source,
    offers: &[&Offer],
) -> Result<CreateInput, NoMemory>
    requires { Lives ledger.now.contents source.now.content }
    ensures path { IfOk result (λ input. input.path ≡ source.now.path) }
    ensures view { IfOk result (λ input. (bytes : List ℕ) → Stands ledger.now.contents source.now.content (bytes_thing bytes) → map (λ offer. offer.now) offers.now ≡ matching config.now source.now.path → input ≡ create_view (plain_from config.now source.now.path bytes) bytes) }
{
    Ok(CreateInput {
        builders: List::of(versions(alloc, offers)?),
        platforms: List::of(copy_platforms(alloc, config.platforms.as_slice())?),
        path: source.path.copy(alloc)?,
        bytes: copy_bytes(alloc, &ledger.contents, source.content)?,
        reached: List::of(Vec::new(alloc)),
    })
}

/// Asks the builders that match a source for its jobs, and gives them where none depends on anything; `Unbuilt`
/// where they come to anything else.
fn ask<B: Builders>(
    alloc: Global,
    ledger: &Ledger,
    builders: &B,
    bench: &mut Bench<B::Pass>,
    config: &Config,
    source: &Source,
) -> Result<Vec<JobDesc>, EngineFault>
    requires offered { AllByRecursion (λ offer. IsTrue (is_offered (B.offers builders.now) offer.name)) config.now.builders }
    requires lives { Lives ledger.now.contents source.now.content }
    ensures jobs { IfOk result (λ jobs. (bytes : List ℕ) → Stands ledger.now.contents source.now.content (bytes_thing bytes)
        → (created (meanings_of B.declares B.creates B.makes) (plain_from config.now source.now.path bytes) ≡ CreatedJobs jobs.items) × AllByRecursion (λ job. job.deps ≡ []) jobs.items) }
    ensures noted { OnOk result (bench.new ≡ bench.old ++ entries_of source.now.path (matching config.now source.now.path)) }
    ensures unbuilt { IfErr result (λ stop. stop ≡ Unbuilt → (bytes : List ℕ) → Stands ledger.now.contents source.now.content (bytes_thing bytes)
        → ¬ AreFreeJobs (created (meanings_of B.declares B.creates B.makes) (plain_from config.now source.now.path bytes))) }
    ensures only { IfErr result (λ stop. (stop ≡ Db OutOfMemory) ⊎ (stop ≡ Unbuilt)) }
{
    let offers = matching_builders(alloc, config, &source.path)?;
    let input = input_of(alloc, ledger, config, source, &offers)?;
    let jobs = match ask_each(alloc, builders, bench, &offers, &input) {
        Ok(jobs) => jobs,
        Err(stop) => return Err(stop),
    };
    if are_free(&jobs) && are_apart(&jobs) {
        Ok(jobs)
    } else {
        Err(EngineFault::Unbuilt)
    }
}

/// The number of a source's create input, with a hold on it.
fn create_input(
    alloc: Global,
    ledger: &mut Ledger,
    config: &Config,
    source: &Source,
) -> Result<Number, NoMemory>
    requires { Lives ledger.old.contents source.now.content }
    ensures held { IfOk result (λ n. (stored : Stored) → IsBeside ledger.old.db ledger.old.contents stored → (bytes : List ℕ) → Stands ledger.old.contents source.now.content (bytes_thing bytes)
        → IsHeld ledger.new.db ledger.new.contents n (create_thing (plain_from config.now source.now.path bytes))) }
    ensures beside { OnOk result ((stored : Stored) → IsBeside ledger.old.db ledger.old.contents stored → IsBeside ledger.new.db ledger.new.contents stored) }
    ensures stay { OnOk result ((stored : Stored) → IsBeside ledger.old.db ledger.old.contents stored → StayHeld ledger.old.db ledger.old.contents ledger.new.db ledger.new.contents) }
    ensures db { ledger.new.db ≡ ledger.old.db }
{
    let offers = matching_builders(alloc, config, &source.path)?;
    let list = listed(alloc, &offers)?;
    let node = create_node(
        alloc,
        &CreateParts {
            builders: &list,
            platforms: config.platforms.as_slice(),
            path: &source.path,
            seen: SeenThing::Bytes(source.content),
            reached: &[],
        },
    )?;
    ledger.intern_node(&node)
}

/// Whether the create row of a source has this input. It takes no memory.
fn records(ledger: &Ledger, source: &RelPath, input: Number) -> bool
    requires { IsDb ledger.now.db }
    ensures { result ≡ is_of_number input (find (λ row. bytes_eq row.source source.now) ledger.now.db.state.tables.creates.items) }
{
    match ledger.db.creation(source) {
        Some(row) => row.input == input,
        None => false,
    }
}

/// Adds the creation of a source where its row records another create input, or none.
fn add_needed<'a>(
    alloc: Global,
    ledger: &mut Ledger,
    config: &Config,
    source: &'a Source,
    needed: &mut Vec<NeededCreation<'a>>,
) -> Result<(), NoMemory>
    requires beside { (stored : Stored) × IsBeside ledger.old.db ledger.old.contents stored }
    requires lives { Lives ledger.old.contents source.now.content }
    ensures found { OnOk result ((more : List NeededCreation) × (needed.new.items ≡ needed.old.items ++ more) × ((stored : Stored) → IsBeside ledger.old.db ledger.old.contents stored → (bytes : List ℕ) → Stands ledger.old.contents source.now.content (bytes_thing bytes)
        → AreNeeds ledger.new.db ledger.new.contents source.now (create_thing (plain_from config.now source.now.path bytes)) (create_row_at stored.tables source.now.path) more)) }
    ensures beside { OnOk result ((stored : Stored) → IsBeside ledger.old.db ledger.old.contents stored → IsBeside ledger.new.db ledger.new.contents stored) }
    ensures stay { OnOk result ((stored : Stored) → IsBeside ledger.old.db ledger.old.contents stored → StayHeld ledger.old.db ledger.old.contents ledger.new.db ledger.new.contents) }
    ensures db { ledger.new.db ≡ ledger.old.db }
{
    let input = create_input(alloc, ledger, config, source)?;
    if records(ledger, &source.path, input) {
        return Ok(());
    }
    needed.push(NeededCreation { source, input })?;
    Ok(())
}

/// The sources whose create rows don't record their create inputs, in their order, with the numbers of these
/// inputs.
fn needed_creations<'a>(
    alloc: Global,
    ledger: &mut Ledger,
    config: &Config,
    all: &'a [Source],
) -> Result<Vec<NeededCreation<'a>>, NoMemory>
    requires beside { (stored : Stored) × IsBeside ledger.old.db ledger.old.contents stored }
    requires held { AllByRecursion (HasHeldBytes ledger.old.db ledger.old.contents) all.now }
    ensures found { IfOk result (λ needed. (stored : Stored) → IsBeside ledger.old.db ledger.old.contents stored → (builders : Meanings) (winners : List Winner) → AreQuiet builders config.now winners → AreSourcesOf ledger.old.db ledger.old.contents all.now (sources config.now winners)
        → AreAll (IsNeeded builders config.now winners ledger.new.db ledger.new.contents) needed.items (needed_sources builders config.now winners stored.tables)) }
    ensures beside { OnOk result ((stored : Stored) → IsBeside ledger.old.db ledger.old.contents stored → IsBeside ledger.new.db ledger.new.contents stored) }
    ensures stay { OnOk result ((stored : Stored) → IsBeside ledger.old.db ledger.old.contents stored → StayHeld ledger.old.db ledger.old.contents ledger.new.db ledger.new.contents) }
    ensures db { ledger.new.db ≡ ledger.old.db }
{
    let mut needed = Vec::new(alloc);
    let mut rest = all;
    while let [source, after @ ..] = rest {
        add_needed(alloc, ledger, config, source, &mut needed)?;
        rest = after;
    }
    Ok(needed)
}

/// Looks at a number, whose type keeps it in its range.
pub(crate) fn look_at_number(n: u32)
    ensures { Fits32 n }
{}

/// Reads the builders' names and versions, whose types keep their ranges. It takes no memory.
fn read_builders(offers: &[Offer])
    ensures each { All (λ offer. IsBuilder (offer.name, offer.version)) offers.now }
    ensures count { Fits64 (length offers.now) }
{
    for offer in offers {
        let _name = offer.name.as_slice();
        look_at_number(offer.version);
    }
}

/// As `read_builders`, of platforms.
fn read_platforms(platforms: &[Platform])
    ensures each { All IsPlatform platforms.now }
    ensures count { Fits64 (length platforms.now) }
{
    for platform in platforms {
        let _platform = platform.as_slice();
    }
}

/// As `read_builders`, of the paths of sources.
fn read_paths(all: &[Source])
    ensures { All (λ source. IsRelPath source.path) all.now }
{
    for source in all {
        let _path = source.path.as_str();
    }
}

/// What the jobs of sources are created from is in its ranges.
pub(crate) fn read_ranges(config: &Config, all: &[Source])
    ensures { (source : Source) → Contains all.now source → (bytes : List ℕ) → is_folded source.path ≡ true → IsCreateInput (plain_from config.now source.path bytes) }
{
    read_builders(config.builders.as_slice());
    read_platforms(config.platforms.as_slice());
    read_paths(all);
}

/// The create row of a needed creation that comes to these jobs.
fn creation_row(
    alloc: Global,
    creation: &NeededCreation<'_>,
    jobs: Vec<JobDesc>,
) -> Result<CreateRow, NoMemory>
    ensures { IfOk result (λ row. row ≡ record { source = creation.now.source.now.path; input = creation.now.input; created = CreatedJobs jobs.items }) }
{
    Ok(CreateRow {
        source: creation.source.path.copy(alloc)?,
        input: creation.input,
        created: Created::Jobs(List::of(jobs)),
    })
}

/// Asks for the jobs of a needed creation, and puts its create row.
fn put_creation<D: Disk, B: Builders>(
    alloc: Global,
    ledger: &mut Ledger,
    store: &mut Pair<D>,
    builders: &B,
    bench: &mut Bench<B::Pass>,
    config: &Config,
    creation: &NeededCreation<'_>,
) -> Result<(), EngineFault>
    requires ready { (winners : List Winner) × (stored : Stored) × (winner : Winner) × AreToPut (meanings_of B.declares B.creates B.makes) config.now winners D.seen D.may_leave D.room ledger.old.db ledger.old.contents store.old stored (creation.now ∷ []) (winner ∷ []) }
    requires offered { AllByRecursion (λ offer. IsTrue (is_offered (B.offers builders.now) offer.name)) config.now.builders }
    ensures committed { OnOk result ((winners : List Winner) (stored : Stored) (winner : Winner) → AreToPut (meanings_of B.declares B.creates B.makes) config.now winners D.seen D.may_leave D.room ledger.old.db ledger.old.contents store.old stored (creation.now ∷ []) (winner ∷ [])
        → HasCommitted D.seen D.may_leave D.clock D.left_at D.room D.faults ledger.old.db ledger.old.contents ledger.new.db ledger.new.contents store.old store.new stored (puts_of (meanings_of B.declares B.creates B.makes) config.now winners (winner ∷ []))) }
    ensures free { OnOk result ((winners : List Winner) (stored : Stored) (winner : Winner) → AreToPut (meanings_of B.declares B.creates B.makes) config.now winners D.seen D.may_leave D.room ledger.old.db ledger.old.contents store.old stored (creation.now ∷ []) (winner ∷ [])
        → IsFree (meanings_of B.declares B.creates B.makes) config.now winners winner) }
    ensures asked { OnOk result (bench.new ≡ bench.old ++ entries_of creation.now.source.now.path (matching config.now creation.now.source.now.path)) }
    ensures stopped { OnErr result ((winners : List Winner) (stored : Stored) (winner : Winner) → AreToPut (meanings_of B.declares B.creates B.makes) config.now winners D.seen D.may_leave D.room ledger.old.db ledger.old.contents store.old stored (creation.now ∷ []) (winner ∷ [])
        → HasStopped D.seen D.may_leave D.clock D.left_at D.room D.faults store.old store.new stored (puts_of (meanings_of B.declares B.creates B.makes) config.now winners (winner ∷ []))) }
    ensures unbuilt { IfErr result (λ stop. stop ≡ Unbuilt → (winners : List Winner) (stored : Stored) (winner : Winner) → AreToPut (meanings_of B.declares B.creates B.makes) config.now winners D.seen D.may_leave D.room ledger.old.db ledger.old.contents store.old stored (creation.now ∷ []) (winner ∷ [])
        → ¬ IsFree (meanings_of B.declares B.creates B.makes) config.now winners winner) }
    ensures full { IfErr result (λ stop. (l w : ℕ) → stop ≡ Db (StoreFull l w) → ledger.old.db.journal.limit < l + w) }
    ensures disk { IfErr result (λ stop. stop ≡ Db DiskFault → Rose (D.faults store.old.0) (D.faults store.new.0)) }
    ensures only { IfErr result (λ stop. (stop ≡ Unbuilt) ⊎ (stop ≡ Db OutOfMemory) ⊎ (stop ≡ Db DiskFault) ⊎ ((l : ℕ) × (w : ℕ) × (stop ≡ Db (StoreFull l w)))) }
{
    let jobs = match ask(alloc, ledger, builders, bench, config, creation.source) {
        Ok(jobs) => jobs,
        Err(stop) => return Err(stop),
    };
    let row = match creation_row(alloc, creation, jobs) {
        Ok(row) => row,
        Err(_) => return Err(EngineFault::Db(DbFault::OutOfMemory)),
    };
    match ledger.put_create(store, row) {
        Ok(()) => Ok(()),
        Err(fault) => Err(EngineFault::Db(fault)),
    }
}

/// Asks for the jobs of needed creations, one after another, and puts the create row of each before the next is
/// asked for.
fn put_each<D: Disk, B: Builders>(
    alloc: Global,
    ledger: &mut Ledger,
    store: &mut Pair<D>,
    builders: &B,
    bench: &mut Bench<B::Pass>,
    config: &Config,
    needed: &[NeededCreation<'_>],
) -> Result<(), EngineFault>
    requires ready { (winners : List Winner) × (stored : Stored) × (asked : List Winner) × AreToPut (meanings_of B.declares B.creates B.makes) config.now winners D.seen D.may_leave D.room ledger.old.db ledger.old.contents store.old stored needed.now asked }
    requires offered { AllByRecursion (λ offer. IsTrue (is_offered (B.offers builders.now) offer.name)) config.now.builders }
    ensures committed { OnOk result ((winners : List Winner) (stored : Stored) (asked : List Winner) → AreToPut (meanings_of B.declares B.creates B.makes) config.now winners D.seen D.may_leave D.room ledger.old.db ledger.old.contents store.old stored needed.now asked
        → HasCommitted D.seen D.may_leave D.clock D.left_at D.room D.faults ledger.old.db ledger.old.contents ledger.new.db ledger.new.contents store.old store.new stored (puts_of (meanings_of B.declares B.creates B.makes) config.now winners asked)) }
    ensures free { OnOk result ((winners : List Winner) (stored : Stored) (asked : List Winner) → AreToPut (meanings_of B.declares B.creates B.makes) config.now winners D.seen D.may_leave D.room ledger.old.db ledger.old.contents store.old stored needed.now asked
        → AllByRecursion (IsFree (meanings_of B.declares B.creates B.makes) config.now winners) asked) }
    ensures asked { OnOk result ((winners : List Winner) (stored : Stored) (asked : List Winner) → AreToPut (meanings_of B.declares B.creates B.makes) config.now winners D.seen D.may_leave D.room ledger.old.db ledger.old.contents store.old stored needed.now asked
        → bench.new ≡ bench.old ++ asked_of (meanings_of B.declares B.creates B.makes) config.now winners asked) }
    ensures stopped { OnErr result ((winners : List Winner) (stored : Stored) (asked : List Winner) → AreToPut (meanings_of B.declares B.creates B.makes) config.now winners D.seen D.may_leave D.room ledger.old.db ledger.old.contents store.old stored needed.now asked
        → HasStopped D.seen D.may_leave D.clock D.left_at D.room D.faults store.old store.new stored (puts_of (meanings_of B.declares B.creates B.makes) config.now winners asked)) }
    ensures unbuilt { IfErr result (λ stop. stop ≡ Unbuilt → (winners : List Winner) (stored : Stored) (asked : List Winner) → AreToPut (meanings_of B.declares B.creates B.makes) config.now winners D.seen D.may_leave D.room ledger.old.db ledger.old.contents store.old stored needed.now asked
        → (winner : Winner) × Contains asked winner × (¬ IsFree (meanings_of B.declares B.creates B.makes) config.now winners winner)) }
    ensures full { IfErr result (λ stop. (l w : ℕ) → stop ≡ Db (StoreFull l w) → ledger.old.db.journal.limit < l + w) }
    ensures disk { IfErr result (λ stop. stop ≡ Db DiskFault → Rose (D.faults store.old.0) (D.faults store.new.0)) }
    ensures only { IfErr result (λ stop. (stop ≡ Unbuilt) ⊎ (stop ≡ Db OutOfMemory) ⊎ (stop ≡ Db DiskFault) ⊎ ((l : ℕ) × (w : ℕ) × (stop ≡ Db (StoreFull l w)))) }
{
    let mut rest = needed;
    while let [creation, after @ ..] = rest {
        match put_creation(alloc, ledger, store, builders, bench, config, creation) {
            Ok(()) => {}
            Err(stop) => return Err(stop),
        }
        rest = after;
    }
    Ok(())
}

/// Asks the builders of each source whose create row doesn't record its create input for the source's jobs,
/// and puts the create row of each before the next is asked for.
pub(crate) fn put_creations<D: Disk, B: Builders>(
    alloc: Global,
    ledger: &mut Ledger,
    store: &mut Pair<D>,
    builders: &B,
    bench: &mut Bench<B::Pass>,
    config: &Config,
    all: &[Source],
) -> Result<(), EngineFault>
    requires ready { (winners : List Winner) × (stored : Stored) × IsReady D.seen D.may_leave D.room ledger.old.db ledger.old.contents store.old stored × AreQuiet (meanings_of B.declares B.creates B.makes) config.now winners × AreSourcesOf ledger.old.db ledger.old.contents all.now (sources config.now winners) }
    requires offered { AllByRecursion (λ offer. IsTrue (is_offered (B.offers builders.now) offer.name)) config.now.builders }
    ensures committed { OnOk result ((winners : List Winner) (stored : Stored) → IsReady D.seen D.may_leave D.room ledger.old.db ledger.old.contents store.old stored → AreQuiet (meanings_of B.declares B.creates B.makes) config.now winners → AreSourcesOf ledger.old.db ledger.old.contents all.now (sources config.now winners)
        → HasCommitted D.seen D.may_leave D.clock D.left_at D.room D.faults ledger.old.db ledger.old.contents ledger.new.db ledger.new.contents store.old store.new stored (create_changes (meanings_of B.declares B.creates B.makes) config.now winners stored.tables)) }
    ensures free { OnOk result ((winners : List Winner) (stored : Stored) → IsReady D.seen D.may_leave D.room ledger.old.db ledger.old.contents store.old stored → AreQuiet (meanings_of B.declares B.creates B.makes) config.now winners → AreSourcesOf ledger.old.db ledger.old.contents all.now (sources config.now winners)
        → AllByRecursion (IsFree (meanings_of B.declares B.creates B.makes) config.now winners) (needed_sources (meanings_of B.declares B.creates B.makes) config.now winners stored.tables)) }
    ensures asked { OnOk result ((winners : List Winner) (stored : Stored) → IsReady D.seen D.may_leave D.room ledger.old.db ledger.old.contents store.old stored → AreQuiet (meanings_of B.declares B.creates B.makes) config.now winners → AreSourcesOf ledger.old.db ledger.old.contents all.now (sources config.now winners)
        → bench.new ≡ bench.old ++ asked_of (meanings_of B.declares B.creates B.makes) config.now winners (needed_sources (meanings_of B.declares B.creates B.makes) config.now winners stored.tables)) }
    ensures stopped { OnErr result ((winners : List Winner) (stored : Stored) → IsReady D.seen D.may_leave D.room ledger.old.db ledger.old.contents store.old stored → AreQuiet (meanings_of B.declares B.creates B.makes) config.now winners → AreSourcesOf ledger.old.db ledger.old.contents all.now (sources config.now winners)
        → HasStopped D.seen D.may_leave D.clock D.left_at D.room D.faults store.old store.new stored (create_changes (meanings_of B.declares B.creates B.makes) config.now winners stored.tables)) }
    ensures unbuilt { IfErr result (λ stop. stop ≡ Unbuilt → (winners : List Winner) (stored : Stored) → IsReady D.seen D.may_leave D.room ledger.old.db ledger.old.contents store.old stored → AreQuiet (meanings_of B.declares B.creates B.makes) config.now winners → AreSourcesOf ledger.old.db ledger.old.contents all.now (sources config.now winners)
        → (winner : Winner) × Contains (needed_sources (meanings_of B.declares B.creates B.makes) config.now winners stored.tables) winner × (¬ IsFree (meanings_of B.declares B.creates B.makes) config.now winners winner)) }
    ensures full { IfErr result (λ stop. (l w : ℕ) → stop ≡ Db (StoreFull l w) → ledger.old.db.journal.limit < l + w) }
    ensures disk { IfErr result (λ stop. stop ≡ Db DiskFault → Rose (D.faults store.old.0) (D.faults store.new.0)) }
    ensures only { IfErr result (λ stop. (stop ≡ Unbuilt) ⊎ (stop ≡ Db OutOfMemory) ⊎ (stop ≡ Db DiskFault) ⊎ ((l : ℕ) × (w : ℕ) × (stop ≡ Db (StoreFull l w)))) }
    ensures inputs { (winners : List Winner) → AreQuiet (meanings_of B.declares B.creates B.makes) config.now winners → AreSourcesOf ledger.old.db ledger.old.contents all.now (sources config.now winners)
        → (winner : Winner) → Contains (sources config.now winners) winner → IsCreateInput (create_from (meanings_of B.declares B.creates B.makes) config.now winners winner.path) }
{
    read_ranges(config, all);
    let needed = match needed_creations(alloc, ledger, config, all) {
        Ok(needed) => needed,
        Err(_) => return Err(EngineFault::Db(DbFault::OutOfMemory)),
    };
    put_each(alloc, ledger, store, builders, bench, config, &needed)
}
