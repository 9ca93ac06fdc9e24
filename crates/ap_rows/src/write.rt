//! The fields of rows, written one after another.
ghost use Rattle.std.specs.Prelude.{◌≡◌, ◌++◌, OnOk, All, length};
ghost use Rattle.std.specs.List.{flat_map};
ghost use Rattle.ap_text.specs.PathRules.{IsRelPath};
ghost use Rattle.ap_text.specs.NameRules.{IsName, IsPlatform, IsFileName};
ghost use Rattle.ap_rows.specs.Fields.{number_field, run_field, list_field, path_field, name_field, job_field};
ghost use Rattle.ap_rows.specs.Typed.{Fits32, TypedJob, TypedList};

use crate::fields::{put_number, put_run};
use ap_text::{FileName, JobId, Name, OutOfMemory, Platform, RelPath};

/// What is spelled in fields.
pub(crate) trait Spell {
    ghost use Rattle.std.specs.Prelude.{List, ℕ};

    // The bytes that spell it.
    ghost field: { Self → List ℕ };

    // What it needs for that: that its counts and lengths fit.
    ghost fits: { Self → Type 0 };

    // What its type promises.
    ghost typed: { Self → Type 0 };

    fn write(&self, out: &mut Vec<u8>) -> Result<(), OutOfMemory>
        requires { fits self.now }
        ensures put { OnOk result (out.new.items ≡ out.old.items ++ field self.now) }
        ensures is_typed { OnOk result (typed self.now) };
}

/// Each item, one after another.
pub(crate) fn write_each<X: Spell>(out: &mut Vec<u8>, items: &[X]) -> Result<(), OutOfMemory>
    requires { All X.fits items.now }
    ensures put { OnOk result (out.new.items ≡ out.old.items ++ flat_map X.field items.now) }
    ensures is_typed { OnOk result (All X.typed items.now) }
{
    for item in items {
        item.write(out)?;
    }
    Ok(())
}

/// A u32 count and so many items.
pub(crate) fn write_list<X: Spell>(out: &mut Vec<u8>, items: &[X]) -> Result<(), OutOfMemory>
    requires count { Fits32 (length items.now) }
    requires fits { All X.fits items.now }
    ensures put { OnOk result (out.new.items ≡ out.old.items ++ list_field 4 X.field items.now) }
    ensures is_typed { OnOk result (TypedList X.typed items.now) }
{
    put_number(out, 4, items.len() as u64)?;
    write_each(out, items)
}

pub(crate) fn write_path(out: &mut Vec<u8>, path: &RelPath) -> Result<(), OutOfMemory>
    ensures put { OnOk result (out.new.items ≡ out.old.items ++ path_field path.now) }
    ensures is_typed { OnOk result (IsRelPath path.now) }
{
    put_run(out, 2, path.as_slice())
}

pub(crate) fn write_name(out: &mut Vec<u8>, name: &Name) -> Result<(), OutOfMemory>
    ensures put { OnOk result (out.new.items ≡ out.old.items ++ name_field name.now) }
    ensures is_typed { OnOk result (IsName name.now) }
{
    put_run(out, 1, name.as_slice())
}

pub(crate) fn write_platform(out: &mut Vec<u8>, platform: &Platform) -> Result<(), OutOfMemory>
    ensures put { OnOk result (out.new.items ≡ out.old.items ++ name_field platform.now) }
    ensures is_typed { OnOk result (IsPlatform platform.now) }
{
    put_run(out, 1, platform.as_slice())
}

pub(crate) fn write_file_name(out: &mut Vec<u8>, name: &FileName) -> Result<(), OutOfMemory>
    ensures put { OnOk result (out.new.items ≡ out.old.items ++ path_field name.now) }
    ensures is_typed { OnOk result (IsFileName name.now) }
{
    put_run(out, 2, name.as_slice())
}

pub(crate) fn write_job_id(out: &mut Vec<u8>, id: &JobId) -> Result<(), OutOfMemory>
    ensures put { OnOk result (out.new.items ≡ out.old.items ++ job_field id.now) }
    ensures is_typed { OnOk result (TypedJob id.now) }
{
    write_path(out, &id.source)?;
    write_name(out, &id.key)?;
    write_platform(out, &id.platform)
}
