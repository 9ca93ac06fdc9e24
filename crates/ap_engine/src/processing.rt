//! The phase of a run that asks builders to process jobs, and commits what they make.
ghost use Rattle.std.specs.Prelude.{◌≡◌, ◌≢◌, ◌⊎◌, ◌<◌, ◌+◌, ◌∷◌, [], ◌++◌, ℕ, List, true, length, Option, Some, None, All, map, IsTrue, IfOk, IfErr, IfSome, OnOk, OnErr, Contains, find, option_copied};
ghost use Rattle.std.specs.List.{AllByRecursion};
ghost use Rattle.ap_text.specs.Causes.{Rose};
ghost use Rattle.ap_text.specs.JobOrder.{same_job};
ghost use Rattle.ap_text.specs.PathRules.{IsRelPath};
ghost use Rattle.ap_content.specs.Things.{bytes_thing};
ghost use Rattle.ap_content.specs.Entries.{Stands, Lives};
ghost use Rattle.ap_rows.specs.Typed.{Fits32, TypedRef, TypedLegacy, TypedProduct};
ghost use Rattle.ap_rows.specs.Inputs.{MadeFrom, row_of, products_thing, input_thing};
ghost use Rattle.ap_rows.specs.InputRanges.{Fits64, IsProduct};
ghost use Rattle.ap_rows.specs.Products.{node_of};
ghost use Rattle.ap_scan.specs.declared.results.Winner.{Winner};
ghost use Rattle.ap_rows.specs.Jobs.{id_of};
ghost use Rattle.ap_builder.specs.Offers.{is_offered};
ghost use Rattle.ap_builder.specs.Views.{plain_of, job_view};
ghost use Rattle.ap_builder.specs.declared.entry.Entry.TheVariants.{Process};
ghost use Rattle.ap_builder.specs.declared.work.Outcome.TheVariants.{Done};
ghost use Rattle.ap_db.specs.declared.fault.DbFault.TheVariants.{OutOfMemory, DiskFault, StoreFull};
ghost use Rattle.ap_db.specs.Changes.{put_job};
ghost use Rattle.ap_db.specs.Databases.{IsDb};
ghost use Rattle.ap_db.specs.Listed.{AreAll};
ghost use Rattle.ap_db.specs.Stored.{Stored};
ghost use Rattle.ap_engine.specs.declared.fault.EngineFault.TheVariants.{Db, Unbuilt};
ghost use Rattle.ap_engine.specs.Ledgers.{IsBeside, IsHeld, StayHeld, IsReady, HasCommitted, HasStopped};
ghost use Rattle.ap_engine.specs.Changes.{job_changes};
ghost use Rattle.ap_engine.specs.Worlds.{AreFree, AreJobInputs};
ghost use Rattle.ap_engine.specs.Asked.{meanings_of};
ghost use Rattle.ap_engine.specs.Recorded.{AreThere, AreRecorded, open_jobs, MakesOne, IsUnfree, IsUnmade};
ghost use Rattle.ap_engine.specs.NeededJobs.{made_of, id_from, IsJobOf, row_is_of, needed_in, IsNeededJob, IsOneProduct, IsFitProduct, row_under, row_with, row_made, puts_made, work_of, IsBuilt};

use crate::copying::copy_bytes;
use crate::creations::look_at_number;
use crate::fault::EngineFault;
use crate::jobs::{SourceJob, find_jobs};
use crate::ledger::Ledger;
use crate::source::Source;
use ap_builder::{Bench, Builders, Entry, JobInput, LegacyRow, Outcome, Product, RefRow};
use ap_config::Config;
use ap_content::{Node, Number};
use ap_db::DbFault;
use ap_disk::{Disk, Pair};
use ap_rows::{JobParts, JobResult, JobRow, OutcomeRow, ProductRow, input_node, products_node};
use ap_text::{JobId, List, OutOfMemory as NoMemory, RelPath};
use std::alloc::Global;

/// A job whose result doesn't stand, with the number of its input.
#[derive(Drop)]
pub(crate) struct NeededJob<'a> {
    job: &'a SourceJob,
    input: Number,
}

/// The number of a job's input, with a hold on it.
fn job_input(alloc: Global, ledger: &mut Ledger, job: &SourceJob) -> Result<Number, NoMemory>
    requires { Lives ledger.old.contents job.now.content }
    ensures held { IfOk result (λ n. (stored : Stored) → IsBeside ledger.old.db ledger.old.contents stored → (bytes : List ℕ) → Stands ledger.old.contents job.now.content (bytes_thing bytes)
        → IsHeld ledger.new.db ledger.new.contents n (input_thing (made_of job.now bytes))) }
    ensures beside { OnOk result ((stored : Stored) → IsBeside ledger.old.db ledger.old.contents stored → IsBeside ledger.new.db ledger.new.contents stored) }
    ensures stay { OnOk result ((stored : Stored) → IsBeside ledger.old.db ledger.old.contents stored → StayHeld ledger.old.db ledger.old.contents ledger.new.db ledger.new.contents) }
    ensures db { ledger.new.db ≡ ledger.old.db }
{
    let node = input_node(
        alloc,
        &JobParts {
            job: &job.desc,
            path: &job.id.source,
            bytes: job.content,
            reached: &[],
            handed: &[],
        },
    )?;
    ledger.intern_node(&node)
}

/// Whether the row of a job has this input. It takes no memory.
fn records(ledger: &Ledger, id: &JobId, input: Number) -> bool
    requires { IsDb ledger.now.db }
    ensures { result ≡ row_is_of input (find (λ row. same_job row.id id.now) ledger.now.db.state.tables.jobs.items) }
{
    let Some(row) = ledger.db.row(id) else {
        return false;
    };
    match &row.result {
        JobResult::Processed {
            input: recorded,
            ..
        } => *recorded == input,
        _ => false,
    }
}

/// Adds a job where its row records another input, or none.
fn add_needed<'a>(
    alloc: Global,
    ledger: &mut Ledger,
    job: &'a SourceJob,
    needed: &mut Vec<NeededJob<'a>>,
) -> Result<(), NoMemory>
    requires { (stored : Stored) × IsBeside ledger.old.db ledger.old.contents stored × (from : MadeFrom) × IsJobOf ledger.old.db ledger.old.contents job.now from }
    ensures needed { OnOk result ((more : List NeededJob) × (needed.new.items ≡ needed.old.items ++ more) × ((stored : Stored) → IsBeside ledger.old.db ledger.old.contents stored → (from : MadeFrom) → IsJobOf ledger.old.db ledger.old.contents job.now from
        → AreAll (IsNeededJob ledger.new.db ledger.new.contents) more (needed_in stored.tables (from ∷ [])))) }
    ensures beside { OnOk result ((stored : Stored) → IsBeside ledger.old.db ledger.old.contents stored → IsBeside ledger.new.db ledger.new.contents stored) }
    ensures stay { OnOk result ((stored : Stored) → IsBeside ledger.old.db ledger.old.contents stored → StayHeld ledger.old.db ledger.old.contents ledger.new.db ledger.new.contents) }
    ensures db { ledger.new.db ≡ ledger.old.db }
{
    let input = job_input(alloc, ledger, job)?;
    if records(ledger, &job.id, input) {
        return Ok(());
    }
    needed.push(NeededJob { job, input })?;
    Ok(())
}

/// The jobs whose rows don't record their inputs, in their order, with the numbers of these.
fn needed_jobs<'a>(
    alloc: Global,
    ledger: &mut Ledger,
    jobs: &'a [SourceJob],
) -> Result<Vec<NeededJob<'a>>, NoMemory>
    requires { (stored : Stored) × IsBeside ledger.old.db ledger.old.contents stored × (froms : List MadeFrom) × AreAll (IsJobOf ledger.old.db ledger.old.contents) jobs.now froms }
    ensures needed { IfOk result (λ needed. (stored : Stored) → IsBeside ledger.old.db ledger.old.contents stored → (froms : List MadeFrom) → AreAll (IsJobOf ledger.old.db ledger.old.contents) jobs.now froms
        → AreAll (IsNeededJob ledger.new.db ledger.new.contents) needed.items (needed_in stored.tables froms)) }
    ensures beside { OnOk result ((stored : Stored) → IsBeside ledger.old.db ledger.old.contents stored → IsBeside ledger.new.db ledger.new.contents stored) }
    ensures stay { OnOk result ((stored : Stored) → IsBeside ledger.old.db ledger.old.contents stored → StayHeld ledger.old.db ledger.old.contents ledger.new.db ledger.new.contents) }
    ensures db { ledger.new.db ≡ ledger.old.db }
{
    let mut needed = Vec::new(alloc);
    let mut rest = jobs;
    while let [job, after @ ..] = rest {
        add_needed(alloc, ledger, job, &mut needed)?;
        rest = after;
    }
    Ok(needed)
}

/// What the builder of a job sees of its input.
fn input_of(alloc: Global, ledger: &Ledger, job: &SourceJob) -> Result<JobInput, NoMemory>
    requires { Lives ledger.now.contents job.now.content }
    ensures view { IfOk result (λ input. (bytes : List ℕ) → Stands ledger.now.contents job.now.content (bytes_thing bytes) → input ≡ job_view (made_of job.now bytes)) }
    ensures named { IfOk result (λ input. input.builder ≡ job.now.desc.builder) }
    ensures id { IfOk result (λ input. id_from (made_of job.now []) ≡ record { source = input.path; key = input.key; platform = input.platform }) }
{
    let desc = &job.desc;
    Ok(JobInput {
        builder: desc.builder.copy(alloc)?,
        version: desc.version,
        platform: desc.platform.copy(alloc)?,
        key: desc.key.copy(alloc)?,
        params: desc.params.copy(alloc)?,
        path: job.id.source.copy(alloc)?,
        bytes: copy_bytes(alloc, &ledger.contents, job.content)?,
        reached: List::of(Vec::new(alloc)),
        handed: List::of(Vec::new(alloc)),
    })
}

/// The one product, where there is just one.
fn only_product(mut products: Vec<Product>) -> Option<Product>
    ensures one { IfSome result (λ product. products.items ≡ product ∷ []) }
    ensures none { result ≡ None → (product : Product) → products.items ≢ product ∷ [] }
{
    let product = products.pop()?;
    if !products.is_empty() {
        return None;
    }
    Some(product)
}

/// Asks the builder of a job for its one product; `Unbuilt` where it answers anything else.
fn ask<B: Builders>(
    alloc: Global,
    ledger: &Ledger,
    builders: &B,
    bench: &mut Bench<B::Pass>,
    job: &SourceJob,
) -> Result<Product, EngineFault>
    requires offered { IsTrue (is_offered (B.offers builders.now) job.now.desc.builder) }
    requires lives { Lives ledger.now.contents job.now.content }
    requires id { job.now.id ≡ id_from (made_of job.now []) }
    ensures product { IfOk result (λ product. (bytes : List ℕ) → Stands ledger.now.contents job.now.content (bytes_thing bytes) → B.makes (job_view (made_of job.now bytes)) ≡ Done (product ∷ [])) }
    ensures asked { OnOk result (bench.new ≡ bench.old ++ Process job.now.id ∷ []) }
    ensures unbuilt { IfErr result (λ stop. stop ≡ Unbuilt → (bytes : List ℕ) → Stands ledger.now.contents job.now.content (bytes_thing bytes) → ¬ IsOneProduct (B.makes (job_view (made_of job.now bytes)))) }
    ensures only { IfErr result (λ stop. (stop ≡ Db OutOfMemory) ⊎ (stop ≡ Unbuilt)) }
{
    let input = input_of(alloc, ledger, job)?;
    let permit = bench.permit(Entry::Process(job.id.copy(alloc)?))?;
    let products = match builders.process(alloc, permit, &input)? {
        Outcome::Done(products) => products,
        Outcome::Failed(_) => return Err(EngineFault::Unbuilt),
    };
    match only_product(products.into_vec()) {
        Some(product) => Ok(product),
        None => Err(EngineFault::Unbuilt),
    }
}

/// Looks at references, whose types keep them in their ranges.
fn look_at_refs(refs: &[RefRow])
    ensures { All TypedRef refs.now }
{
    for row in refs {
        let _ = row.path.as_slice();
        look_at_number(row.sub);
    }
}

/// Looks at paths, whose type keeps them in its grammar.
fn look_at_paths(paths: &[RelPath])
    ensures { All IsRelPath paths.now }
{
    for path in paths {
        let _ = path.as_slice();
    }
}

/// Looks at numbers, whose type keeps them in its range.
fn look_at_ids(ids: &[u32])
    ensures { All Fits32 ids.now }
{
    for id in ids {
        let _ = *id;
    }
}

/// Looks at the ids that a product had before.
fn look_at_legacy(legacy: &LegacyRow)
    requires old { Fits32 (length legacy.now.old) }
    requires formerly { Fits32 (length legacy.now.formerly) }
    ensures { TypedLegacy legacy.now }
{
    look_at_ids(legacy.old.as_slice());
    look_at_paths(legacy.formerly.as_slice());
}

/// Looks at the parts of a product, whose types keep them in their ranges.
fn look_at_product(product: &Product)
    requires { IsFitProduct product.now }
    ensures { TypedProduct (row_of (plain_of product.now)) }
{
    let _ = product.name.as_slice();
    let _ = product.kind.as_slice();
    look_at_number(product.sub);
    look_at_refs(product.refs.as_slice());
    look_at_legacy(&product.legacy);
}

/// The node of a product, whose bytes are under this number.
fn product_node(alloc: Global, product: Product, bytes: Number) -> Result<Node, NoMemory>
    requires { IsFitProduct product }
    ensures { IfOk result (λ node. node ≡ node_of (row_under bytes product ∷ [])) }
{
    let row = ProductRow {
        name: product.name,
        kind: product.kind,
        sub: product.sub,
        bytes,
        refs: product.refs,
        legacy: product.legacy,
    };
    products_node(alloc, &[row])
}

/// The number of the thing of a product, with a hold on it.
fn intern_product(alloc: Global, ledger: &mut Ledger, product: Product) -> Result<Number, NoMemory>
    requires fit { IsFitProduct product }
    requires beside { (stored : Stored) × IsBeside ledger.old.db ledger.old.contents stored }
    ensures held { IfOk result (λ n. (stored : Stored) → IsBeside ledger.old.db ledger.old.contents stored → IsHeld ledger.new.db ledger.new.contents n (products_thing (plain_of product ∷ []))) }
    ensures typed { OnOk result (IsProduct (plain_of product)) }
    ensures beside { OnOk result ((stored : Stored) → IsBeside ledger.old.db ledger.old.contents stored → IsBeside ledger.new.db ledger.new.contents stored) }
    ensures stay { OnOk result ((stored : Stored) → IsBeside ledger.old.db ledger.old.contents stored → StayHeld ledger.old.db ledger.old.contents ledger.new.db ledger.new.contents) }
    ensures db { ledger.new.db ≡ ledger.old.db }
{
    look_at_product(&product);
    let bytes = ledger.intern(product.bytes.as_slice())?;
    let node = product_node(alloc, product, bytes)?;
    ledger.intern_node(&node)
}

/// Records the one product of a job, with the job's input.
fn record_one<D: Disk>(
    alloc: Global,
    ledger: &mut Ledger,
    store: &mut Pair<D>,
    needed: &NeededJob<'_>,
    product: Product,
) -> Result<(), DbFault>
    requires fit { IsFitProduct product }
    requires ready { (stored : Stored) × IsReady D.seen D.may_leave D.room ledger.old.db ledger.old.contents store.old stored × (from : MadeFrom) × IsNeededJob ledger.old.db ledger.old.contents needed.now from }
    ensures committed { OnOk result ((stored : Stored) → IsReady D.seen D.may_leave D.room ledger.old.db ledger.old.contents store.old stored → (from : MadeFrom) → IsNeededJob ledger.old.db ledger.old.contents needed.now from → HasCommitted D.seen D.may_leave D.clock D.left_at D.room D.faults ledger.old.db ledger.old.contents ledger.new.db ledger.new.contents store.old store.new stored (put_job (row_with (Done (product ∷ [])) from) ∷ [])) }
    ensures stopped { OnErr result ((stored : Stored) → IsReady D.seen D.may_leave D.room ledger.old.db ledger.old.contents store.old stored → (from : MadeFrom) → IsNeededJob ledger.old.db ledger.old.contents needed.now from → HasStopped D.seen D.may_leave D.clock D.left_at D.room D.faults store.old store.new stored (put_job (row_with (Done (product ∷ [])) from) ∷ [])) }
    ensures full { IfErr result (λ stop. (l w : ℕ) → stop ≡ StoreFull l w → ledger.old.db.journal.limit < l + w) }
    ensures disk { IfErr result (λ stop. stop ≡ DiskFault → Rose (D.faults store.old.0) (D.faults store.new.0)) }
    ensures only { IfErr result (λ stop. (stop ≡ OutOfMemory) ⊎ (stop ≡ DiskFault) ⊎ ((l : ℕ) × (w : ℕ) × (stop ≡ StoreFull l w))) }
{
    let id = needed.job.id.copy(alloc)?;
    let products = intern_product(alloc, ledger, product)?;
    ledger.put_job(
        store,
        JobRow {
            id,
            result: JobResult::Processed {
                input: needed.input,
                outcome: OutcomeRow::Done(products),
            },
        },
    )
}

/// Asks the builder of a needed job for its product, and records it before anything else is asked for.
fn process_one<D: Disk, B: Builders>(
    alloc: Global,
    ledger: &mut Ledger,
    store: &mut Pair<D>,
    builders: &B,
    bench: &mut Bench<B::Pass>,
    needed: &NeededJob<'_>,
) -> Result<(), EngineFault>
    requires { (stored : Stored) × IsReady D.seen D.may_leave D.room ledger.old.db ledger.old.contents store.old stored × (from : MadeFrom) × IsNeededJob ledger.old.db ledger.old.contents needed.now from }
    ensures committed { OnOk result ((stored : Stored) → IsReady D.seen D.may_leave D.room ledger.old.db ledger.old.contents store.old stored → (from : MadeFrom) → IsNeededJob ledger.old.db ledger.old.contents needed.now from → HasCommitted D.seen D.may_leave D.clock D.left_at D.room D.faults ledger.old.db ledger.old.contents ledger.new.db ledger.new.contents store.old store.new stored (put_job (row_made B.makes from) ∷ [])) }
    ensures asked { OnOk result (bench.new ≡ bench.old ++ Process needed.now.job.now.id ∷ []) }
    ensures one { OnOk result ((stored : Stored) → IsReady D.seen D.may_leave D.room ledger.old.db ledger.old.contents store.old stored → (from : MadeFrom) → IsNeededJob ledger.old.db ledger.old.contents needed.now from → IsOneProduct (B.makes (job_view from))) }
    ensures stopped { OnErr result ((stored : Stored) → IsReady D.seen D.may_leave D.room ledger.old.db ledger.old.contents store.old stored → (from : MadeFrom) → IsNeededJob ledger.old.db ledger.old.contents needed.now from → HasStopped D.seen D.may_leave D.clock D.left_at D.room D.faults store.old store.new stored (put_job (row_made B.makes from) ∷ [])) }
    ensures unbuilt { IfErr result (λ stop. stop ≡ Unbuilt → (stored : Stored) → IsReady D.seen D.may_leave D.room ledger.old.db ledger.old.contents store.old stored → (from : MadeFrom) → IsNeededJob ledger.old.db ledger.old.contents needed.now from → ¬ IsBuilt (B.offers builders.now) B.makes from) }
    ensures full { IfErr result (λ stop. (l w : ℕ) → stop ≡ Db (StoreFull l w) → ledger.old.db.journal.limit < l + w) }
    ensures disk { IfErr result (λ stop. stop ≡ Db DiskFault → Rose (D.faults store.old.0) (D.faults store.new.0)) }
    ensures only { IfErr result (λ stop. (stop ≡ Db OutOfMemory) ⊎ (stop ≡ Unbuilt) ⊎ (stop ≡ Db DiskFault) ⊎ ((l : ℕ) × (w : ℕ) × (stop ≡ Db (StoreFull l w)))) }
{
    if !builders.has(&needed.job.desc.builder) {
        return Err(EngineFault::Unbuilt);
    }
    let product = match ask(alloc, ledger, builders, bench, needed.job) {
        Ok(product) => product,
        Err(stop) => return Err(stop),
    };
    match record_one(alloc, ledger, store, needed, product) {
        Ok(()) => Ok(()),
        Err(stop) => Err(EngineFault::Db(stop)),
    }
}

/// Asks for the products of the needed jobs one after another, and records each one before the next is asked for.
fn process_each<D: Disk, B: Builders>(
    alloc: Global,
    ledger: &mut Ledger,
    store: &mut Pair<D>,
    builders: &B,
    bench: &mut Bench<B::Pass>,
    needed: &[NeededJob<'_>],
) -> Result<(), EngineFault>
    requires { (stored : Stored) × IsReady D.seen D.may_leave D.room ledger.old.db ledger.old.contents store.old stored × (froms : List MadeFrom) × AreAll (IsNeededJob ledger.old.db ledger.old.contents) needed.now froms }
    ensures committed { OnOk result ((stored : Stored) → IsReady D.seen D.may_leave D.room ledger.old.db ledger.old.contents store.old stored → (froms : List MadeFrom) → AreAll (IsNeededJob ledger.old.db ledger.old.contents) needed.now froms → HasCommitted D.seen D.may_leave D.clock D.left_at D.room D.faults ledger.old.db ledger.old.contents ledger.new.db ledger.new.contents store.old store.new stored (puts_made B.makes froms)) }
    ensures asked { OnOk result ((stored : Stored) → IsReady D.seen D.may_leave D.room ledger.old.db ledger.old.contents store.old stored → (froms : List MadeFrom) → AreAll (IsNeededJob ledger.old.db ledger.old.contents) needed.now froms → bench.new ≡ bench.old ++ work_of froms) }
    ensures one { OnOk result ((stored : Stored) → IsReady D.seen D.may_leave D.room ledger.old.db ledger.old.contents store.old stored → (froms : List MadeFrom) → AreAll (IsNeededJob ledger.old.db ledger.old.contents) needed.now froms → AllByRecursion (λ from. IsOneProduct (B.makes (job_view from))) froms) }
    ensures stopped { OnErr result ((stored : Stored) → IsReady D.seen D.may_leave D.room ledger.old.db ledger.old.contents store.old stored → (froms : List MadeFrom) → AreAll (IsNeededJob ledger.old.db ledger.old.contents) needed.now froms → HasStopped D.seen D.may_leave D.clock D.left_at D.room D.faults store.old store.new stored (puts_made B.makes froms)) }
    ensures unbuilt { IfErr result (λ stop. stop ≡ Unbuilt → (stored : Stored) → IsReady D.seen D.may_leave D.room ledger.old.db ledger.old.contents store.old stored → (froms : List MadeFrom) → AreAll (IsNeededJob ledger.old.db ledger.old.contents) needed.now froms → (from : MadeFrom) × Contains froms from × ¬ IsBuilt (B.offers builders.now) B.makes from) }
    ensures full { IfErr result (λ stop. (l w : ℕ) → stop ≡ Db (StoreFull l w) → ledger.old.db.journal.limit < l + w) }
    ensures disk { IfErr result (λ stop. stop ≡ Db DiskFault → Rose (D.faults store.old.0) (D.faults store.new.0)) }
    ensures only { IfErr result (λ stop. (stop ≡ Db OutOfMemory) ⊎ (stop ≡ Unbuilt) ⊎ (stop ≡ Db DiskFault) ⊎ ((l : ℕ) × (w : ℕ) × (stop ≡ Db (StoreFull l w)))) }
{
    let mut rest = needed;
    while let [first, after @ ..] = rest {
        match process_one(alloc, ledger, store, builders, bench, first) {
            Ok(()) => {}
            Err(stop) => return Err(stop),
        }
        rest = after;
    }
    Ok(())
}

/// Asks for the products of the jobs whose rows don't record their inputs, and records each one before the next is
/// asked for; `Unbuilt` where a source's creation came to anything but jobs that depend on nothing, or a builder
/// makes anything but one product of a job.
pub(crate) fn put_jobs<D: Disk, B: Builders>(
    alloc: Global,
    ledger: &mut Ledger,
    store: &mut Pair<D>,
    builders: &B,
    bench: &mut Bench<B::Pass>,
    config: &Config,
    sources: &[Source],
) -> Result<(), EngineFault>
    requires offered { AllByRecursion (λ offer. IsTrue (is_offered (B.offers builders.now) offer.name)) config.now.builders }
    requires there { (stored : Stored) × IsReady D.seen D.may_leave D.room ledger.old.db ledger.old.contents store.old stored × (winners : List Winner) × AreThere (meanings_of B.declares B.creates B.makes) config.now winners ledger.old.db ledger.old.contents sources.now }
    ensures committed { OnOk result ((stored : Stored) → IsReady D.seen D.may_leave D.room ledger.old.db ledger.old.contents store.old stored → (winners : List Winner) → AreThere (meanings_of B.declares B.creates B.makes) config.now winners ledger.old.db ledger.old.contents sources.now → AreRecorded (meanings_of B.declares B.creates B.makes) config.now winners stored.tables → HasCommitted D.seen D.may_leave D.clock D.left_at D.room D.faults ledger.old.db ledger.old.contents ledger.new.db ledger.new.contents store.old store.new stored (job_changes (meanings_of B.declares B.creates B.makes) config.now winners stored.tables)) }
    ensures asked { OnOk result ((stored : Stored) → IsReady D.seen D.may_leave D.room ledger.old.db ledger.old.contents store.old stored → (winners : List Winner) → AreThere (meanings_of B.declares B.creates B.makes) config.now winners ledger.old.db ledger.old.contents sources.now → AreRecorded (meanings_of B.declares B.creates B.makes) config.now winners stored.tables → bench.new ≡ bench.old ++ map (λ job. Process (id_of job)) (open_jobs (meanings_of B.declares B.creates B.makes) config.now winners stored.tables)) }
    ensures free { OnOk result ((stored : Stored) → IsReady D.seen D.may_leave D.room ledger.old.db ledger.old.contents store.old stored → (winners : List Winner) → AreThere (meanings_of B.declares B.creates B.makes) config.now winners ledger.old.db ledger.old.contents sources.now → AreRecorded (meanings_of B.declares B.creates B.makes) config.now winners stored.tables → AreFree (meanings_of B.declares B.creates B.makes) config.now winners) }
    ensures inputs { OnOk result ((stored : Stored) → IsReady D.seen D.may_leave D.room ledger.old.db ledger.old.contents store.old stored → (winners : List Winner) → AreThere (meanings_of B.declares B.creates B.makes) config.now winners ledger.old.db ledger.old.contents sources.now → AreRecorded (meanings_of B.declares B.creates B.makes) config.now winners stored.tables → AreJobInputs (meanings_of B.declares B.creates B.makes) config.now winners) }
    ensures one { OnOk result ((stored : Stored) → IsReady D.seen D.may_leave D.room ledger.old.db ledger.old.contents store.old stored → (winners : List Winner) → AreThere (meanings_of B.declares B.creates B.makes) config.now winners ledger.old.db ledger.old.contents sources.now → AreRecorded (meanings_of B.declares B.creates B.makes) config.now winners stored.tables → AllByRecursion (MakesOne (meanings_of B.declares B.creates B.makes) config.now winners) (open_jobs (meanings_of B.declares B.creates B.makes) config.now winners stored.tables)) }
    ensures stopped { OnErr result ((stored : Stored) → IsReady D.seen D.may_leave D.room ledger.old.db ledger.old.contents store.old stored → (winners : List Winner) → AreThere (meanings_of B.declares B.creates B.makes) config.now winners ledger.old.db ledger.old.contents sources.now → AreRecorded (meanings_of B.declares B.creates B.makes) config.now winners stored.tables → HasStopped D.seen D.may_leave D.clock D.left_at D.room D.faults store.old store.new stored [] ⊎ (AreFree (meanings_of B.declares B.creates B.makes) config.now winners × AreJobInputs (meanings_of B.declares B.creates B.makes) config.now winners × HasStopped D.seen D.may_leave D.clock D.left_at D.room D.faults store.old store.new stored (job_changes (meanings_of B.declares B.creates B.makes) config.now winners stored.tables))) }
    ensures unbuilt { IfErr result (λ stop. stop ≡ Unbuilt → (stored : Stored) → IsReady D.seen D.may_leave D.room ledger.old.db ledger.old.contents store.old stored → (winners : List Winner) → AreThere (meanings_of B.declares B.creates B.makes) config.now winners ledger.old.db ledger.old.contents sources.now → AreRecorded (meanings_of B.declares B.creates B.makes) config.now winners stored.tables → IsUnfree (meanings_of B.declares B.creates B.makes) config.now winners ⊎ IsUnmade (meanings_of B.declares B.creates B.makes) config.now winners stored.tables) }
    ensures full { IfErr result (λ stop. (l w : ℕ) → stop ≡ Db (StoreFull l w) → ledger.old.db.journal.limit < l + w) }
    ensures disk { IfErr result (λ stop. stop ≡ Db DiskFault → Rose (D.faults store.old.0) (D.faults store.new.0)) }
    ensures only { IfErr result (λ stop. (stop ≡ Db OutOfMemory) ⊎ (stop ≡ Unbuilt) ⊎ (stop ≡ Db DiskFault) ⊎ ((l : ℕ) × (w : ℕ) × (stop ≡ Db (StoreFull l w)))) }
{
    let jobs = match find_jobs(alloc, ledger, sources) {
        Ok(jobs) => jobs,
        Err(stop) => return Err(stop),
    };
    let needed = match needed_jobs(alloc, ledger, &jobs) {
        Ok(needed) => needed,
        Err(_) => return Err(EngineFault::Db(DbFault::OutOfMemory)),
    };
    process_each(alloc, ledger, store, builders, bench, &needed)
}
