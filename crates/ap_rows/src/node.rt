//! The thing of a job's products.
ghost use Rattle.std.specs.Prelude.{◌≡◌, ◌≤◌, ◌<◌, ◌++◌, IsTrue, OnOk, IfOk, IfErr, IfSome, Some, None, All, length, map, option_map};
ghost use Rattle.std.specs.List.{list_all};
ghost use Rattle.ap_rows.specs.Fields.{list_field};
ghost use Rattle.ap_rows.specs.Typed.{Fits32, TypedLegacy};
ghost use Rattle.ap_rows.specs.Products.{legacy_field, product_field, node_of, CanBeSpelled, legacy_row, product_row, product_rows, products_by, products_of, whole};

use crate::fields::{FieldReader, put_number};
use crate::forms::{Form, read_list};
use crate::product::{LegacyRow, ProductRow, RefRow};
use crate::read::{Unread, read_file_name, read_name, read_path, read_u32};
use crate::write::{Spell, write_file_name, write_list, write_name, write_path};
use ap_content::{Node, Number};
use ap_text::{Bytes, List, OutOfMemory, RelPath};
use std::alloc::Global;

/// The tag of a thing of products.
pub(crate) const PRODUCTS_TAG: u8 = 3;

impl Spell for u32 {
    ghost use Rattle.ap_rows.specs.Fields.{number_field};
    ghost use Rattle.ap_rows.specs.Typed.{Fits32};

    ghost field = { number_field 4 };

    ghost fits = { λ n. Unit {0} };

    ghost typed = { Fits32 };

    fn write(&self, out: &mut Vec<u8>) -> Result<(), OutOfMemory> {
        put_number(out, 4, *self as u64)
    }
}

impl Form for u32 {
    ghost use Rattle.ap_rows.specs.Readers.{number};

    ghost form = { number 4 };

    fn read(reader: &mut FieldReader<'_>, _alloc: Global) -> Result<u32, Unread> {
        read_u32(reader)
    }
}

impl Spell for RelPath {
    ghost use Rattle.ap_text.specs.PathRules.{IsRelPath};
    ghost use Rattle.ap_rows.specs.Fields.{path_field};

    ghost field = { path_field };

    ghost fits = { λ path. Unit {0} };

    ghost typed = { IsRelPath };

    fn write(&self, out: &mut Vec<u8>) -> Result<(), OutOfMemory> {
        write_path(out, self)
    }
}

impl Form for RelPath {
    ghost use Rattle.ap_rows.specs.Readers.{path};

    ghost form = { path };

    fn read(reader: &mut FieldReader<'_>, alloc: Global) -> Result<RelPath, Unread> {
        read_path(reader, alloc)
    }
}

impl Spell for RefRow {
    ghost use Rattle.ap_rows.specs.Products.{ref_field};
    ghost use Rattle.ap_rows.specs.Typed.{TypedRef};

    ghost field = { ref_field };

    ghost fits = { λ row. Unit {0} };

    ghost typed = { TypedRef };

    fn write(&self, out: &mut Vec<u8>) -> Result<(), OutOfMemory> {
        write_path(out, &self.path)?;
        put_number(out, 4, self.sub as u64)
    }
}

impl Form for RefRow {
    ghost use Rattle.ap_rows.specs.Products.{ref_row};

    ghost form = { ref_row };

    #[tactic(auto, unfolding(crate::specs::Products::ref_row))]
    fn read(reader: &mut FieldReader<'_>, alloc: Global) -> Result<RefRow, Unread> {
        let path = read_path(reader, alloc)?;
        let sub = read_u32(reader)?;
        Ok(RefRow { path, sub })
    }
}

fn write_legacy(out: &mut Vec<u8>, legacy: &LegacyRow) -> Result<(), OutOfMemory>
    requires old { Fits32 (length legacy.now.old) }
    requires formerly { Fits32 (length legacy.now.formerly) }
    ensures put { OnOk result (out.new.items ≡ out.old.items ++ legacy_field legacy.now) }
    ensures is_typed { OnOk result (TypedLegacy legacy.now) }
{
    write_list(out, legacy.old.as_slice())?;
    write_list(out, legacy.formerly.as_slice())
}

#[tactic(auto, unfolding(crate::specs::Products::legacy_row))]
fn read_legacy(reader: &mut FieldReader<'_>, alloc: Global) -> Result<LegacyRow, Unread>
    ensures read { IfOk result (λ x. legacy_row reader.old ≡ Some (x, reader.new)) }
    ensures outside { IfErr result (λ stop. stop ≡ Unread.Outside → legacy_row reader.old ≡ None) }
    ensures shorter { length reader.new ≤ length reader.old }
{
    let old = read_list(reader, alloc)?;
    let formerly = read_list(reader, alloc)?;
    Ok(LegacyRow { old, formerly })
}

impl Spell for ProductRow {
    ghost use Rattle.ap_rows.specs.Products.{product_field, HasCounts};
    ghost use Rattle.ap_rows.specs.Typed.{TypedProduct};

    ghost field = { product_field };

    ghost fits = { HasCounts };

    ghost typed = { TypedProduct };

    fn write(&self, out: &mut Vec<u8>) -> Result<(), OutOfMemory> {
        write_file_name(out, &self.name)?;
        write_name(out, &self.kind)?;
        put_number(out, 4, self.sub as u64)?;
        write_list(out, self.refs.as_slice())?;
        write_legacy(out, &self.legacy)
    }
}

/// A product, whose bytes are this thing.
#[tactic(auto, unfolding(crate::specs::Products::product_row))]
fn read_product(
    reader: &mut FieldReader<'_>,
    alloc: Global,
    bytes: Number,
) -> Result<ProductRow, Unread>
    ensures read { IfOk result (λ x. product_row bytes reader.old ≡ Some (x, reader.new)) }
    ensures outside { IfErr result (λ stop. stop ≡ Unread.Outside → product_row bytes reader.old ≡ None) }
    ensures shorter { length reader.new ≤ length reader.old }
{
    let name = read_file_name(reader, alloc)?;
    let kind = read_name(reader, alloc)?;
    let sub = read_u32(reader)?;
    let refs = read_list(reader, alloc)?;
    let legacy = read_legacy(reader, alloc)?;
    Ok(ProductRow {
        name,
        kind,
        sub,
        bytes,
        refs,
        legacy,
    })
}

/// A product for each of the things of their bytes.
fn read_rows(
    reader: &mut FieldReader<'_>,
    alloc: Global,
    kids: &[Number],
) -> Result<Vec<ProductRow>, Unread>
    ensures read { IfOk result (λ rows. product_rows kids.now reader.old ≡ Some (rows.items, reader.new)) }
    ensures outside { IfErr result (λ stop. stop ≡ Unread.Outside → product_rows kids.now reader.old ≡ None) }
{
    let mut rows = Vec::new(alloc);
    for kid in kids {
        let row = match read_product(reader, alloc, *kid) {
            Ok(row) => row,
            Err(stop) => return Err(stop),
        };
        if rows.push(row).is_err() {
            return Err(Unread::OutOfMemory);
        }
    }
    Ok(rows)
}

/// The products of a text and the things of their bytes.
fn products_in(alloc: Global, text: &[u8], kids: &[Number]) -> Result<Vec<ProductRow>, Unread>
    ensures read { IfOk result (λ rows. whole (products_by kids.now text.now) ≡ Some rows.items) }
    ensures one_spelling { IfOk result
        (λ rows. node_of rows.items ≡ record { tag = 3; text = text.now; kids = kids.now }) }
    ensures spelled_again { IfOk result (λ rows. CanBeSpelled rows.items) }
    ensures outside { IfErr result (λ stop. stop ≡ Unread.Outside → whole (products_by kids.now text.now) ≡ None) }
{
    let mut reader = FieldReader::new(text);
    let count = match read_u32(&mut reader) {
        Ok(count) => count,
        Err(stop) => return Err(stop),
    };
    if count as usize != kids.len() {
        return Err(Unread::Outside);
    }
    match read_rows(&mut reader, alloc, kids) {
        Ok(rows) => {
            if reader.rest().is_empty() {
                Ok(rows)
            } else {
                Err(Unread::Outside)
            }
        }
        Err(stop) => Err(stop),
    }
}

/// The things of the products' bytes.
fn bytes_of(alloc: Global, rows: &[ProductRow]) -> Result<Vec<Number>, OutOfMemory>
    ensures { IfOk result (λ kids. kids.items ≡ map (λ row. row.bytes) rows.now) }
{
    let kids = rows.iter().map(|row| row.bytes).collect(alloc)?;
    Ok(kids)
}

/// The node of a job's products, in their order: its text has their fields, and its kids are their bytes.
/// It costs the fields once.
pub fn products_node(alloc: Global, rows: &[ProductRow]) -> Result<Node, OutOfMemory>
    requires { CanBeSpelled rows.now }
    ensures node { IfOk result (λ node. node ≡ node_of rows.now) }
    ensures read_back { IfOk result (λ node. products_of node ≡ Some rows.now) }
{
    let mut text = Vec::new(alloc);
    write_list(&mut text, rows)?;
    let kids = List::of(bytes_of(alloc, rows)?);
    Ok(Node {
        tag: PRODUCTS_TAG,
        text: Bytes::of(text),
        kids,
    })
}

/// The products that the node is of, and None where it is of none. It costs the fields once.
pub fn read_products(alloc: Global, node: &Node) -> Result<Option<Vec<ProductRow>>, OutOfMemory>
    ensures read { IfOk result (λ read. option_map (λ rows. rows.items) read ≡ products_of node.now) }
    ensures one_spelling { IfOk result (λ read. IfSome read (λ rows. node_of rows.items ≡ node.now)) }
    ensures spelled_again { IfOk result (λ read. IfSome read (λ rows. CanBeSpelled rows.items)) }
{
    if node.tag != PRODUCTS_TAG {
        return Ok(None);
    }
    match products_in(alloc, node.text.as_slice(), node.kids.as_slice()) {
        Ok(rows) => Ok(Some(rows)),
        Err(Unread::Outside) => Ok(None),
        Err(Unread::OutOfMemory) => Err(OutOfMemory),
    }
}
