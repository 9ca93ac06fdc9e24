//! Fields that are read past, of which nothing is kept.
ghost use Rattle.std.specs.Prelude.{◌≡◌, IsTrue, Some, None, MatchOption};
ghost use Rattle.ap_rows.specs.Fields.{is_width};
ghost use Rattle.ap_rows.specs.Readers.{number, run_of, raw_path, path, name, platform, file_name, job_id};
ghost use Rattle.ap_rows.specs.Walks.{Leaves, behind};

use crate::fields::FieldReader;
use crate::read::has_no_capital;
use ap_text::{FileName, Name, Platform, RelPath};

pub(crate) fn skip_number(fields: &mut FieldReader<'_>, width: usize) -> Option<()>
    requires { IsTrue (is_width width) }
    ensures { Leaves result (behind (number width fields.old)) fields.new }
{
    fields.number(width)?;
    Some(())
}

/// The bytes of any relative path.
#[tactic(auto, unfolding(crate::specs::Readers::raw_path))]
fn path_bytes<'a>(fields: &mut FieldReader<'a>) -> Option<&'a [u8]>
    ensures { MatchOption result (raw_path fields.old ≡ None) (λ path. raw_path fields.old ≡ Some (path.now, fields.new)) }
{
    let bytes = fields.run(2)?;
    if !RelPath::accepts(bytes) {
        return None;
    }
    Some(bytes)
}

#[tactic(auto, unfolding(crate::specs::Readers::path, crate::specs::Readers::is_folded))]
pub(crate) fn skip_path(fields: &mut FieldReader<'_>) -> Option<()>
    ensures { Leaves result (behind (path fields.old)) fields.new }
{
    let path = path_bytes(fields)?;
    if !has_no_capital(path) {
        return None;
    }
    Some(())
}

#[tactic(auto, unfolding(crate::specs::Readers::name))]
pub(crate) fn skip_name(fields: &mut FieldReader<'_>) -> Option<()>
    ensures { Leaves result (behind (name fields.old)) fields.new }
{
    let bytes = fields.run(1)?;
    if !Name::accepts(bytes) {
        return None;
    }
    Some(())
}

#[tactic(auto, unfolding(crate::specs::Readers::platform))]
pub(crate) fn skip_platform(fields: &mut FieldReader<'_>) -> Option<()>
    ensures { Leaves result (behind (platform fields.old)) fields.new }
{
    let bytes = fields.run(1)?;
    if !Platform::accepts(bytes) {
        return None;
    }
    Some(())
}

#[tactic(auto, unfolding(crate::specs::Readers::file_name))]
pub(crate) fn skip_file_name(fields: &mut FieldReader<'_>) -> Option<()>
    ensures { Leaves result (behind (file_name fields.old)) fields.new }
{
    let bytes = fields.run(2)?;
    if !FileName::accepts(bytes) {
        return None;
    }
    Some(())
}

#[tactic(auto, unfolding(crate::specs::Readers::job_id))]
pub(crate) fn skip_job_id(fields: &mut FieldReader<'_>) -> Option<()>
    ensures { Leaves result (behind (job_id fields.old)) fields.new }
{
    skip_path(fields)?;
    skip_name(fields)?;
    skip_platform(fields)
}

pub(crate) fn skip_run(fields: &mut FieldReader<'_>, width: usize) -> Option<()>
    requires { IsTrue (is_width width) }
    ensures { Leaves result (behind (run_of width fields.old)) fields.new }
{
    fields.run(width)?;
    Some(())
}
