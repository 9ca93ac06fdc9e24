ghost use Rattle.std.specs.Prelude.{◌≡◌, ◌≢◌, ◌⊎◌, true, false, List, [], ◌∷◌, length, map, Option, Some, IfOk, IfErr, IfSome};
ghost use Rattle.ap_content.specs.Things.{Thing, bytes_thing};
ghost use Rattle.ap_content.specs.Entries.{Stands};
ghost use Rattle.ap_rows.specs.Forms.{products_in};
ghost use Rattle.ap_rows.specs.Products.{products_of};
ghost use Rattle.ap_db.specs.declared.things.FileThing.{FileThing};
ghost use Rattle.ap_db.specs.States.{Names, JobIs};
ghost use Rattle.ap_db.specs.Tables.{PlainJob, PlainTables};
ghost use Rattle.ap_cli.specs.Layout.{files_in, files_of, has_one_kid, has_one_product, have_one_product, products_recorded};
ghost use Rattle.ap_cli.specs.ProductIds.{ids_in, ids_of, plain_id};
ghost use Rattle.ap_cli.specs.Working.{AreRowsOf};
ghost use Rattle.ap_cli.specs.declared.stop.Stop.TheVariants.{Memory, Unbuilt};

use crate::layout::{CacheFile, ProductId, cache_file, product_id};
use crate::stop::Stop;
use ap_content::{Contents, Node, Number};
use ap_rows::{JobResult, JobRow, OutcomeRow, ProductRow, Tables, read_products};
use ap_text::JobId;
use std::alloc::Global;

/// Products as the cache has them, and their ids.
#[derive(Drop)]
pub(crate) struct Laid<'a> {
    pub(crate) files: Vec<CacheFile<'a>>,
    pub(crate) ids: Vec<ProductId<'a>>,
}

/// The products of all jobs, in the order of the jobs; `Unbuilt` where a job's row records anything but one product. It
/// costs a look-up of each job's products and of their bytes, which are borrowed. Where a row names what is no thing of
/// products, which the rows of a database don't, it answers `Memory`.
pub(crate) fn lay<'a>(
    alloc: Global,
    tables: &'a Tables,
    contents: &'a Contents,
) -> Result<Laid<'a>, Stop>
    ensures laid { IfOk result (λ laid. (plain : PlainTables) → AreRowsOf tables.now contents.now plain → laid.files.items ≡ files_of plain) }
    ensures ids { IfOk result (λ laid. (plain : PlainTables) → AreRowsOf tables.now contents.now plain → map plain_id laid.ids.items ≡ ids_of plain) }
    ensures made { IfOk result (λ _. (plain : PlainTables) → AreRowsOf tables.now contents.now plain → have_one_product plain ≡ true) }
    ensures unbuilt { IfErr result (λ stop. stop ≡ Unbuilt → (plain : PlainTables) → AreRowsOf tables.now contents.now plain → have_one_product plain ≡ false) }
    ensures only { IfErr result (λ stop. (stop ≡ Memory) ⊎ (stop ≡ Unbuilt)) }
{
    let mut files = Vec::with_capacity(alloc, tables.jobs.len())?;
    let mut ids = Vec::with_capacity(alloc, tables.jobs.len())?;
    let mut rest = tables.jobs.as_slice();
    while let [row, after @ ..] = rest {
        let (file, id) = product_of(alloc, contents, row)?;
        files.push(file)?;
        ids.push(id)?;
        rest = after;
    }
    Ok(Laid { files, ids })
}

/// The one product that a job's row records, and its id; `Unbuilt` where it records anything else.
fn product_of<'a>(
    alloc: Global,
    contents: &'a Contents,
    row: &'a JobRow,
) -> Result<(CacheFile<'a>, ProductId<'a>), Stop>
    ensures laid { IfOk result (λ product. (things : List (Option FileThing)) (plain : PlainJob) → JobIs (Names things contents.now) row.now plain
        → files_in plain.id (products_recorded plain.result) ≡ product.0 ∷ []) }
    ensures id { IfOk result (λ product. (things : List (Option FileThing)) (plain : PlainJob) → JobIs (Names things contents.now) row.now plain
        → ids_in plain.id (products_recorded plain.result) ≡ plain_id product.1 ∷ []) }
    ensures made { IfOk result (λ _. (things : List (Option FileThing)) (plain : PlainJob) → JobIs (Names things contents.now) row.now plain
        → has_one_product plain.result ≡ true) }
    ensures unbuilt { IfErr result (λ stop. stop ≡ Unbuilt → (things : List (Option FileThing)) (plain : PlainJob) → JobIs (Names things contents.now) row.now plain
        → has_one_product plain.result ≡ false) }
    ensures only { IfErr result (λ stop. (stop ≡ Memory) ⊎ (stop ≡ Unbuilt)) }
{
    match &row.result {
        JobResult::Processed {
            outcome: OutcomeRow::Done(products),
            ..
        } => product_under(alloc, contents, &row.id, *products),
        _ => Err(Stop::Unbuilt),
    }
}

/// The one product of the thing under a number, and its id; `Unbuilt` where the thing has other than one kid.
fn product_under<'a>(
    alloc: Global,
    contents: &'a Contents,
    id: &'a JobId,
    number: Number,
) -> Result<(CacheFile<'a>, ProductId<'a>), Stop>
    ensures laid { IfOk result (λ product. (x : Thing) → Stands contents.now number x → files_in id.now (products_in x) ≡ product.0 ∷ []) }
    ensures id { IfOk result (λ product. (x : Thing) → Stands contents.now number x → ids_in id.now (products_in x) ≡ plain_id product.1 ∷ []) }
    ensures made { IfOk result (λ _. (x : Thing) → Stands contents.now number x → has_one_kid x ≡ true) }
    ensures unbuilt { IfErr result (λ stop. stop ≡ Unbuilt → (x : Thing) → Stands contents.now number x → has_one_kid x ≡ false) }
    ensures only { IfErr result (λ stop. (stop ≡ Memory) ⊎ (stop ≡ Unbuilt)) }
{
    let Some(node) = contents.get(number) else {
        return Err(Stop::Memory);
    };
    let row = only_row(alloc, node)?;
    let Some(bytes) = bytes_under(contents, row.bytes) else {
        return Err(Stop::Memory);
    };
    let file = cache_file(alloc, id, &row.name, bytes)?;
    Ok((file, product_id(id, row.sub)))
}

/// The row of the one product of a node; `Unbuilt` where it has other than one kid.
fn only_row(alloc: Global, node: &Node) -> Result<ProductRow, Stop>
    ensures row { IfOk result (λ row. products_of node.now ≡ Some (row ∷ [])) }
    ensures kid { IfOk result (λ row. node.now.kids ≡ row.bytes ∷ []) }
    ensures unbuilt { IfErr result (λ stop. stop ≡ Unbuilt → length node.now.kids ≢ 1) }
    ensures only { IfErr result (λ stop. (stop ≡ Memory) ⊎ (stop ≡ Unbuilt)) }
{
    if node.kids.as_slice().len() != 1 {
        return Err(Stop::Unbuilt);
    }
    let Some(mut rows) = read_products(alloc, node)? else {
        return Err(Stop::Memory);
    };
    match rows.pop() {
        Some(row) => Ok(row),
        None => Err(Stop::Memory),
    }
}

/// The bytes of the thing under a number, and `None` where that is no thing of bytes.
fn bytes_under(contents: &Contents, number: Number) -> Option<&[u8]>
    ensures { IfSome result (λ bytes. (x : Thing) → Stands contents.now number x → x ≡ bytes_thing bytes.now) }
{
    let node = contents.get(number)?;
    if node.tag == 0 && node.kids.as_slice().is_empty() {
        return Some(node.text.as_slice());
    }
    None
}
