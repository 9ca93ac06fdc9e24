//! Whether a thing has the form of its tag.
ghost use Rattle.std.specs.Prelude.{◌≡◌, IsTrue, map, Some, None, MatchOption};
ghost use Rattle.ap_content.specs.Things.{Kids, thing};
ghost use Rattle.ap_content.specs.Entries.{StandEach};
ghost use Rattle.ap_rows.specs.Fields.{is_width};
ghost use Rattle.ap_rows.specs.Grammar.{dep_kind};
ghost use Rattle.ap_rows.specs.Forms.{has_form, HaveForms};
ghost use Rattle.ap_rows.specs.Walks.{tag_at, seen_kids, source_kids, handed_kids, list_walk, legacy_walk, row_walk, terms_walk, source_walk, is_all, walked, Leaves};

use crate::fields::FieldReader;
use crate::job::DepKind;
use crate::kid_reader::KidReader;
use crate::node::PRODUCTS_TAG;
use crate::skip::{
    skip_file_name, skip_job_id, skip_name, skip_number, skip_path, skip_platform, skip_run,
};
use ap_content::{Contents, Number};

const BYTES_TAG: u8 = 0;

pub(crate) const CREATE_TAG: u8 = 1;

pub(crate) const INPUT_TAG: u8 = 2;

/// Fields, and the kids that they ask for.
trait Walked {
    ghost use Rattle.ap_rows.specs.Walks.{Walk};

    ghost walk: { Walk };

    /// Reads past them. None where the fields and kids that are left don't begin so.
    fn skip(fields: &mut FieldReader<'_>, kids: &mut KidReader<'_>) -> Option<()>
        ensures { Leaves result (walk fields.old kids.old) (fields.new, kids.new) };
}

/// A count of so many bytes, and so many items.
fn skip_list<X: Walked>(
    fields: &mut FieldReader<'_>,
    kids: &mut KidReader<'_>,
    width: usize,
) -> Option<()>
    requires { IsTrue (is_width width) }
    ensures { Leaves result (list_walk width X.walk fields.old kids.old) (fields.new, kids.new) }
{
    let mut left = fields.number(width)?;
    while left > 0 {
        X::skip(fields, kids)?;
        left -= 1;
    }
    Some(())
}

/// How a file is seen, by its mark.
fn skip_seen(mark: u64, kids: &mut KidReader<'_>) -> Option<()>
    ensures { Leaves result (seen_kids mark kids.old) kids.new }
{
    match mark {
        0 => kids.take(BYTES_TAG),
        1 | 2 => Some(()),
        _ => None,
    }
}

/// How a source is seen, by its mark.
fn skip_source_seen(mark: u64, kids: &mut KidReader<'_>) -> Option<()>
    ensures { Leaves result (source_kids mark kids.old) kids.new }
{
    if mark == 1 {
        return None;
    }
    skip_seen(mark, kids)
}

/// A builder that matches a source.
struct BuilderField;

impl Walked for BuilderField {
    ghost use Rattle.ap_rows.specs.Walks.{builder_walk};

    ghost walk = { builder_walk };

    fn skip(fields: &mut FieldReader<'_>, _kids: &mut KidReader<'_>) -> Option<()> {
        skip_name(fields)?;
        skip_number(fields, 4)
    }
}

struct PlatformField;

impl Walked for PlatformField {
    ghost use Rattle.ap_rows.specs.Walks.{platform_walk};

    ghost walk = { platform_walk };

    fn skip(fields: &mut FieldReader<'_>, _kids: &mut KidReader<'_>) -> Option<()> {
        skip_platform(fields)
    }
}

/// A file that a source reaches.
struct FileField;

impl Walked for FileField {
    ghost use Rattle.ap_rows.specs.Walks.{reached_walk};

    ghost walk = { reached_walk };

    fn skip(fields: &mut FieldReader<'_>, kids: &mut KidReader<'_>) -> Option<()> {
        skip_path(fields)?;
        let mark = fields.number(1)?;
        skip_seen(mark, kids)
    }
}

#[tactic(auto, unfolding(crate::specs::Grammar::kind_by, crate::specs::Grammar::dep_kind))]
fn kind(fields: &mut FieldReader<'_>) -> Option<DepKind>
    ensures { MatchOption result (dep_kind fields.old ≡ None) (λ kind. dep_kind fields.old ≡ Some (kind, fields.new)) }
{
    match fields.number(1)? {
        0 => Some(DepKind::Order),
        1 => Some(DepKind::OrderOnce),
        2 => Some(DepKind::Fingerprint),
        _ => None,
    }
}

/// What a dependency of this kind hands over.
fn skip_things(kind: DepKind, kids: &mut KidReader<'_>) -> Option<()>
    ensures { Leaves result (handed_kids kind kids.old) kids.new }
{
    match kind {
        DepKind::Order => kids.take(PRODUCTS_TAG),
        DepKind::OrderOnce => None,
        DepKind::Fingerprint => {
            kids.take(INPUT_TAG)?;
            kids.take(PRODUCTS_TAG)
        }
    }
}

/// A dependency that hands something over.
struct HandedField;

impl Walked for HandedField {
    ghost use Rattle.ap_rows.specs.Walks.{handed_walk};

    ghost walk = { handed_walk };

    fn skip(fields: &mut FieldReader<'_>, kids: &mut KidReader<'_>) -> Option<()> {
        let kind = kind(fields)?;
        skip_job_id(fields)?;
        skip_things(kind, kids)
    }
}

/// A reference of a product.
struct RefField;

impl Walked for RefField {
    ghost use Rattle.ap_rows.specs.Walks.{ref_walk};

    ghost walk = { ref_walk };

    fn skip(fields: &mut FieldReader<'_>, _kids: &mut KidReader<'_>) -> Option<()> {
        skip_path(fields)?;
        skip_number(fields, 4)
    }
}

/// A former sub id.
struct OldField;

impl Walked for OldField {
    ghost use Rattle.ap_rows.specs.Walks.{old_walk};

    ghost walk = { old_walk };

    fn skip(fields: &mut FieldReader<'_>, _kids: &mut KidReader<'_>) -> Option<()> {
        skip_number(fields, 4)
    }
}

/// A former path.
struct FormerField;

impl Walked for FormerField {
    ghost use Rattle.ap_rows.specs.Walks.{formerly_walk};

    ghost walk = { formerly_walk };

    fn skip(fields: &mut FieldReader<'_>, _kids: &mut KidReader<'_>) -> Option<()> {
        skip_path(fields)
    }
}

fn skip_legacy(fields: &mut FieldReader<'_>, kids: &mut KidReader<'_>) -> Option<()>
    ensures { Leaves result (legacy_walk fields.old kids.old) (fields.new, kids.new) }
{
    skip_list::<OldField>(fields, kids, 4)?;
    skip_list::<FormerField>(fields, kids, 4)
}

/// A product, but for its bytes.
fn skip_row(fields: &mut FieldReader<'_>, kids: &mut KidReader<'_>) -> Option<()>
    ensures { Leaves result (row_walk fields.old kids.old) (fields.new, kids.new) }
{
    skip_file_name(fields)?;
    skip_name(fields)?;
    skip_number(fields, 4)?;
    skip_list::<RefField>(fields, kids, 4)?;
    skip_legacy(fields, kids)
}

struct ProductField;

impl Walked for ProductField {
    ghost use Rattle.ap_rows.specs.Walks.{product_walk};

    ghost walk = { product_walk };

    fn skip(fields: &mut FieldReader<'_>, kids: &mut KidReader<'_>) -> Option<()> {
        skip_row(fields, kids)?;
        kids.take(BYTES_TAG)
    }
}

/// The path of a source, and how it is seen.
fn skip_source(fields: &mut FieldReader<'_>, kids: &mut KidReader<'_>) -> Option<()>
    ensures { Leaves result (source_walk fields.old kids.old) (fields.new, kids.new) }
{
    skip_path(fields)?;
    let mark = fields.number(1)?;
    skip_source_seen(mark, kids)
}

struct CreateForm;

impl Walked for CreateForm {
    ghost use Rattle.ap_rows.specs.Walks.{create_walk};

    ghost walk = { create_walk };

    fn skip(fields: &mut FieldReader<'_>, kids: &mut KidReader<'_>) -> Option<()> {
        skip_list::<BuilderField>(fields, kids, 8)?;
        skip_list::<PlatformField>(fields, kids, 8)?;
        skip_source(fields, kids)?;
        skip_list::<FileField>(fields, kids, 8)
    }
}

/// What stands of a job input before the files that its source reaches.
fn skip_terms(fields: &mut FieldReader<'_>, kids: &mut KidReader<'_>) -> Option<()>
    ensures { Leaves result (terms_walk fields.old kids.old) (fields.new, kids.new) }
{
    skip_name(fields)?;
    skip_number(fields, 4)?;
    skip_platform(fields)?;
    skip_name(fields)?;
    skip_run(fields, 8)?;
    skip_path(fields)?;
    kids.take(BYTES_TAG)
}

struct InputForm;

impl Walked for InputForm {
    ghost use Rattle.ap_rows.specs.Walks.{input_walk};

    ghost walk = { input_walk };

    fn skip(fields: &mut FieldReader<'_>, kids: &mut KidReader<'_>) -> Option<()> {
        skip_terms(fields, kids)?;
        skip_list::<FileField>(fields, kids, 8)?;
        skip_list::<HandedField>(fields, kids, 8)
    }
}

struct ProductsForm;

impl Walked for ProductsForm {
    ghost use Rattle.ap_rows.specs.Walks.{products_walk};

    ghost walk = { products_walk };

    fn skip(fields: &mut FieldReader<'_>, kids: &mut KidReader<'_>) -> Option<()> {
        skip_list::<ProductField>(fields, kids, 4)
    }
}

/// Whether the form takes all of the text and all kids.
fn is_all<X: Walked>(contents: &Contents, text: &[u8], kids: &[Number]) -> bool
    ensures { result ≡ is_all (X.walk text.now (map (tag_at contents.now) kids.now)) }
{
    let mut fields = FieldReader::new(text);
    let mut left = KidReader::new(contents, kids);
    match X::skip(&mut fields, &mut left) {
        Some(()) => fields.rest().is_empty() && left.is_over(),
        None => false,
    }
}

#[tactic(auto, unfolding(crate::specs::Walks::walked))]
fn is_of_tag(contents: &Contents, tag: u8, text: &[u8], kids: &[Number]) -> bool
    ensures { result ≡ walked tag text.now (map (tag_at contents.now) kids.now) }
{
    match tag {
        BYTES_TAG => kids.is_empty(),
        CREATE_TAG => is_all::<CreateForm>(contents, text, kids),
        INPUT_TAG => is_all::<InputForm>(contents, text, kids),
        PRODUCTS_TAG => is_all::<ProductsForm>(contents, text, kids),
        _ => false,
    }
}

/// Whether the thing of this tag, this text and these kids has the form of its tag, where each kid has the form
/// of its own: bytes without kids, a create input, a job input or products. Of a kid it looks at the tag
/// alone. It costs a step for each field and each kid, and takes no memory.
pub fn has_form(contents: &Contents, tag: u8, text: &[u8], kids: &[Number]) -> bool
    ensures { (xs : Kids) → StandEach contents.now kids.now xs → HaveForms xs
        → result ≡ has_form (thing tag text.now xs) }
{
    is_of_tag(contents, tag, text, kids)
}
