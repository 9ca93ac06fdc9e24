//! The fields of rows, read one after another.
ghost use Rattle.std.specs.Prelude.{◌≡◌, ◌≤◌, ◌<◌, ◌↔◌, OnOk, length, IsTrue, IfOk, IfErr, Some, None, true, false, not, ◌&&◌, nat_le};
ghost use Rattle.std.specs.List.{list_all};
ghost use Rattle.std.specs.Str.{str_to_ascii_lowercase};
ghost use Rattle.ap_text.specs.declared.job_id.JobId.{JobId};
ghost use Rattle.ap_rows.specs.Fields.{is_width};
ghost use Rattle.ap_text.specs.PathRules.{is_rel_path};
ghost use Rattle.ap_text.specs.NameRules.{is_name, is_platform, is_file_name};
ghost use Rattle.ap_rows.specs.Readers.{number, bytes_of, run_of, raw_path, path, name, platform, file_name, job_id, is_folded};

use crate::fields::FieldReader;
use ap_text::{FileName, JobId, Name, NameFault, OutOfMemory, PathFault, Platform, RelPath};
use std::alloc::Global;

/// Why nothing was read.
#[derive(Clone, Copy, Debug, PartialEq, Eq)]
pub(crate) enum Unread {
    /// What is wanted doesn't begin the bytes.
    Outside,
    OutOfMemory,
}

impl From<OutOfMemory> for Unread {
    fn from(_error: OutOfMemory) -> Unread {
        Unread::OutOfMemory
    }
}

/// A run of bytes behind its length.
pub(crate) fn read_run<'a>(reader: &mut FieldReader<'a>, width: usize) -> Result<&'a [u8], Unread>
    requires { IsTrue (is_width width) }
    ensures read { IfOk result (λ run. (run_of width) reader.old ≡ Some (run.now, reader.new)) }
    ensures outside { IfErr result (λ stop. stop ≡ Unread.Outside → (run_of width) reader.old ≡ None) }
    ensures shorter { length reader.new ≤ length reader.old }
{
    match reader.run(width) {
        Some(run) => Ok(run),
        None => Err(Unread::Outside),
    }
}

pub(crate) fn read_byte(reader: &mut FieldReader<'_>) -> Result<u8, Unread>
    ensures read { IfOk result (λ x. (number 1) reader.old ≡ Some (x, reader.new)) }
    ensures outside { IfErr result (λ stop. stop ≡ Unread.Outside → (number 1) reader.old ≡ None) }
    ensures shorter { length reader.new ≤ length reader.old }
    ensures taken { OnOk result (length reader.new < length reader.old) }
{
    match reader.number(1) {
        Some(n) => Ok(n as u8),
        None => Err(Unread::Outside),
    }
}

pub(crate) fn read_u32(reader: &mut FieldReader<'_>) -> Result<u32, Unread>
    ensures read { IfOk result (λ x. (number 4) reader.old ≡ Some (x, reader.new)) }
    ensures outside { IfErr result (λ stop. stop ≡ Unread.Outside → (number 4) reader.old ≡ None) }
    ensures shorter { length reader.new ≤ length reader.old }
{
    match reader.number(4) {
        Some(n) => Ok(n as u32),
        None => Err(Unread::Outside),
    }
}

pub(crate) fn read_u64(reader: &mut FieldReader<'_>) -> Result<u64, Unread>
    ensures read { IfOk result (λ x. (number 8) reader.old ≡ Some (x, reader.new)) }
    ensures outside { IfErr result (λ stop. stop ≡ Unread.Outside → (number 8) reader.old ≡ None) }
    ensures shorter { length reader.new ≤ length reader.old }
{
    reader.number(8).ok_or(Unread::Outside)
}

fn path_of(alloc: Global, bytes: &[u8]) -> Result<RelPath, Unread>
    ensures read { IfOk result (λ text. (text ≡ bytes.now) × (is_rel_path bytes.now ≡ true)) }
    ensures outside { IfErr result (λ stop. stop ≡ Unread.Outside → is_rel_path bytes.now ≡ false) }
{
    match RelPath::read(alloc, bytes) {
        Ok(path) => Ok(path),
        Err(fault) => match fault {
            PathFault::OutOfMemory => Err(Unread::OutOfMemory),
            _ => Err(Unread::Outside),
        },
    }
}

fn name_of(alloc: Global, bytes: &[u8]) -> Result<Name, Unread>
    ensures read { IfOk result (λ text. (text ≡ bytes.now) × (is_name bytes.now ≡ true)) }
    ensures outside { IfErr result (λ stop. stop ≡ Unread.Outside → is_name bytes.now ≡ false) }
{
    match Name::read(alloc, bytes) {
        Ok(name) => Ok(name),
        Err(NameFault::Bad) => Err(Unread::Outside),
        Err(NameFault::OutOfMemory) => Err(Unread::OutOfMemory),
    }
}

fn platform_of(alloc: Global, bytes: &[u8]) -> Result<Platform, Unread>
    ensures read { IfOk result (λ text. (text ≡ bytes.now) × (is_platform bytes.now ≡ true)) }
    ensures outside { IfErr result (λ stop. stop ≡ Unread.Outside → is_platform bytes.now ≡ false) }
{
    match Platform::read(alloc, bytes) {
        Ok(name) => Ok(name),
        Err(NameFault::Bad) => Err(Unread::Outside),
        Err(NameFault::OutOfMemory) => Err(Unread::OutOfMemory),
    }
}

fn file_name_of(alloc: Global, bytes: &[u8]) -> Result<FileName, Unread>
    ensures read { IfOk result (λ text. (text ≡ bytes.now) × (is_file_name bytes.now ≡ true)) }
    ensures outside { IfErr result (λ stop. stop ≡ Unread.Outside → is_file_name bytes.now ≡ false) }
{
    match FileName::read(alloc, bytes) {
        Ok(name) => Ok(name),
        Err(NameFault::Bad) => Err(Unread::Outside),
        Err(NameFault::OutOfMemory) => Err(Unread::OutOfMemory),
    }
}

/// Whether the path is folded, so that folding it leaves it as it is. It takes no memory.
pub fn is_folded(path: &RelPath) -> bool
    ensures folded { result ≡ is_folded path.now }
    ensures fold { IsTrue result ↔ (str_to_ascii_lowercase path.now ≡ path.now) }
{
    let bytes = path.as_slice();
    has_no_capital(bytes)
}

pub(crate) fn has_no_capital(bytes: &[u8]) -> bool
    ensures { result ≡ list_all (λ b. not (nat_le 65 b && nat_le b 90)) bytes.now }
{
    bytes.iter().all(|byte| !matches!(*byte, b'A'..=b'Z'))
}

/// Any relative path.
#[tactic(auto, unfolding(crate::specs::Readers::raw_path))]
pub(crate) fn read_raw_path(reader: &mut FieldReader<'_>, alloc: Global) -> Result<RelPath, Unread>
    ensures read { IfOk result (λ x. raw_path reader.old ≡ Some (x, reader.new)) }
    ensures outside { IfErr result (λ stop. stop ≡ Unread.Outside → raw_path reader.old ≡ None) }
    ensures shorter { length reader.new ≤ length reader.old }
{
    let bytes = read_run(reader, 2)?;
    path_of(alloc, bytes)
}

/// A folded relative path.
#[tactic(auto, unfolding(crate::specs::Readers::path))]
pub(crate) fn read_path(reader: &mut FieldReader<'_>, alloc: Global) -> Result<RelPath, Unread>
    ensures read { IfOk result (λ x. path reader.old ≡ Some (x, reader.new)) }
    ensures outside { IfErr result (λ stop. stop ≡ Unread.Outside → path reader.old ≡ None) }
    ensures shorter { length reader.new ≤ length reader.old }
{
    let path = read_raw_path(reader, alloc)?;
    if !is_folded(&path) {
        return Err(Unread::Outside);
    }
    Ok(path)
}

#[tactic(auto, unfolding(crate::specs::Readers::name))]
pub(crate) fn read_name(reader: &mut FieldReader<'_>, alloc: Global) -> Result<Name, Unread>
    ensures read { IfOk result (λ x. name reader.old ≡ Some (x, reader.new)) }
    ensures outside { IfErr result (λ stop. stop ≡ Unread.Outside → name reader.old ≡ None) }
    ensures shorter { length reader.new ≤ length reader.old }
{
    let bytes = read_run(reader, 1)?;
    name_of(alloc, bytes)
}

#[tactic(auto, unfolding(crate::specs::Readers::platform))]
pub(crate) fn read_platform(reader: &mut FieldReader<'_>, alloc: Global) -> Result<Platform, Unread>
    ensures read { IfOk result (λ x. platform reader.old ≡ Some (x, reader.new)) }
    ensures outside { IfErr result (λ stop. stop ≡ Unread.Outside → platform reader.old ≡ None) }
    ensures shorter { length reader.new ≤ length reader.old }
{
    let bytes = read_run(reader, 1)?;
    platform_of(alloc, bytes)
}

#[tactic(auto, unfolding(crate::specs::Readers::file_name))]
pub(crate) fn read_file_name(
    reader: &mut FieldReader<'_>,
    alloc: Global,
) -> Result<FileName, Unread>
    ensures read { IfOk result (λ x. file_name reader.old ≡ Some (x, reader.new)) }
    ensures outside { IfErr result (λ stop. stop ≡ Unread.Outside → file_name reader.old ≡ None) }
    ensures shorter { length reader.new ≤ length reader.old }
{
    let bytes = read_run(reader, 2)?;
    file_name_of(alloc, bytes)
}

#[tactic(auto, unfolding(crate::specs::Readers::job_id))]
pub(crate) fn read_job_id(reader: &mut FieldReader<'_>, alloc: Global) -> Result<JobId, Unread>
    ensures read { IfOk result (λ x. job_id reader.old ≡ Some (x, reader.new)) }
    ensures outside { IfErr result (λ stop. stop ≡ Unread.Outside → job_id reader.old ≡ None) }
    ensures shorter { length reader.new ≤ length reader.old }
{
    let source = read_path(reader, alloc)?;
    let key = read_name(reader, alloc)?;
    let platform = read_platform(reader, alloc)?;
    Ok(JobId {
        source,
        key,
        platform,
    })
}
