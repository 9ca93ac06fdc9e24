//! Reading a change.
ghost use Rattle.std.specs.Prelude.{◌≡◌, ◌≤◌, ◌<◌, ℕ, IsTrue, IfOk, IfErr, OnOk, Some, None, Ok, Err, IfSome, MatchOption, length};
ghost use Rattle.ap_rows.specs.Readers.{run_of, path};
ghost use Rattle.ap_rows.specs.Grammar.{thing_number, dep_kind, seen, created, outcome, job_result, source_row, create_row, job_row, define, item_by, item, decoded};
ghost use Rattle.ap_rows.specs.Spelling.{spelled};
ghost use Rattle.ap_rows.specs.Folded.{are_folded};

use crate::change::{Change, Item};
use crate::fields::FieldReader;
use crate::forms::{Form, read_list};
use crate::job::{Created, DepKind, DependencyRow, JobDesc};
use crate::read::{
    Unread, read_byte, read_job_id, read_name, read_path, read_platform, read_raw_path, read_run,
    read_u32, read_u64,
};
use crate::row::{CreateRow, FolderRow, JobResult, JobRow, OutcomeRow, SeenRow, SourceRow};
use ap_content::Number;
use ap_text::{Bytes, List, OutOfMemory};
use std::alloc::Global;

#[tactic(auto, unfolding(crate::specs::Grammar::thing_number))]
fn read_thing(reader: &mut FieldReader<'_>) -> Result<Number, Unread>
    ensures read { IfOk result (λ x. thing_number reader.old ≡ Some (x, reader.new)) }
    ensures outside { IfErr result (λ stop. stop ≡ Unread.Outside → thing_number reader.old ≡ None) }
    ensures shorter { length reader.new ≤ length reader.old }
{
    let n = read_u64(reader)?;
    Ok(Number(n))
}

fn read_blob(reader: &mut FieldReader<'_>, alloc: Global) -> Result<Bytes, Unread>
    ensures read { IfOk result (λ x. run_of 4 reader.old ≡ Some (x, reader.new)) }
    ensures outside { IfErr result (λ stop. stop ≡ Unread.Outside → run_of 4 reader.old ≡ None) }
    ensures shorter { length reader.new ≤ length reader.old }
{
    let run = read_run(reader, 4)?;
    match run.to_vec(alloc) {
        Ok(bytes) => Ok(Bytes::of(bytes)),
        Err(_) => Err(Unread::OutOfMemory),
    }
}

#[tactic(auto, unfolding(crate::specs::Grammar::kind_by, crate::specs::Grammar::dep_kind))]
fn read_kind(reader: &mut FieldReader<'_>) -> Result<DepKind, Unread>
    ensures read { IfOk result (λ x. dep_kind reader.old ≡ Some (x, reader.new)) }
    ensures outside { IfErr result (λ stop. stop ≡ Unread.Outside → dep_kind reader.old ≡ None) }
    ensures shorter { length reader.new ≤ length reader.old }
{
    match read_byte(reader)? {
        0 => Ok(DepKind::Order),
        1 => Ok(DepKind::OrderOnce),
        2 => Ok(DepKind::Fingerprint),
        _ => Err(Unread::Outside),
    }
}

impl Form for Number {
    ghost use Rattle.ap_rows.specs.Grammar.{thing_number};

    ghost form = { thing_number };

    fn read(reader: &mut FieldReader<'_>, _alloc: Global) -> Result<Number, Unread> {
        read_thing(reader)
    }
}

impl Form for DependencyRow {
    ghost use Rattle.ap_rows.specs.Grammar.{dependency};

    ghost form = { dependency };

    #[tactic(auto, unfolding(crate::specs::Grammar::dependency))]
    fn read(reader: &mut FieldReader<'_>, alloc: Global) -> Result<DependencyRow, Unread> {
        let kind = read_kind(reader)?;
        let job = read_job_id(reader, alloc)?;
        Ok(DependencyRow { kind, job })
    }
}

impl Form for JobDesc {
    ghost use Rattle.ap_rows.specs.Grammar.{job_desc};

    ghost form = { job_desc };

    #[tactic(auto, unfolding(crate::specs::Grammar::job_desc))]
    fn read(reader: &mut FieldReader<'_>, alloc: Global) -> Result<JobDesc, Unread> {
        let builder = read_name(reader, alloc)?;
        let version = read_u32(reader)?;
        let platform = read_platform(reader, alloc)?;
        let key = read_name(reader, alloc)?;
        let priority = read_u32(reader)?;
        let params = read_blob(reader, alloc)?;
        let deps = read_list(reader, alloc)?;
        Ok(JobDesc {
            builder,
            version,
            platform,
            key,
            priority: priority.cast_signed(),
            params,
            deps,
        })
    }
}

impl Form for FolderRow {
    ghost use Rattle.ap_rows.specs.Grammar.{folder_row};

    ghost form = { folder_row };

    #[tactic(auto, unfolding(crate::specs::Grammar::folder_row))]
    fn read(reader: &mut FieldReader<'_>, alloc: Global) -> Result<FolderRow, Unread> {
        let order = read_u32(reader)?;
        let path = read_raw_path(reader, alloc)?;
        Ok(FolderRow { order, path })
    }
}

#[tactic(auto, unfolding(crate::specs::Grammar::seen_by, crate::specs::Grammar::seen))]
fn read_seen(reader: &mut FieldReader<'_>) -> Result<SeenRow, Unread>
    ensures read { IfOk result (λ x. seen reader.old ≡ Some (x, reader.new)) }
    ensures outside { IfErr result (λ stop. stop ≡ Unread.Outside → seen reader.old ≡ None) }
    ensures shorter { length reader.new ≤ length reader.old }
{
    match read_byte(reader)? {
        0 => {
            let thing = read_thing(reader)?;
            Ok(SeenRow::Bytes(thing))
        }
        2 => Ok(SeenRow::TooLarge),
        _ => Err(Unread::Outside),
    }
}

#[tactic(auto, unfolding(crate::specs::Grammar::created_by, crate::specs::Grammar::created))]
fn read_created(reader: &mut FieldReader<'_>, alloc: Global) -> Result<Created, Unread>
    ensures read { IfOk result (λ x. created reader.old ≡ Some (x, reader.new)) }
    ensures outside { IfErr result (λ stop. stop ≡ Unread.Outside → created reader.old ≡ None) }
    ensures shorter { length reader.new ≤ length reader.old }
{
    match read_byte(reader)? {
        0 => {
            let jobs = read_list(reader, alloc)?;
            Ok(Created::Jobs(jobs))
        }
        1 => {
            let builder = read_name(reader, alloc)?;
            let code = read_u32(reader)?;
            Ok(Created::Builder { builder, code })
        }
        2 => {
            let key = read_name(reader, alloc)?;
            let platform = read_platform(reader, alloc)?;
            Ok(Created::DuplicateKey { key, platform })
        }
        3 => Ok(Created::TooLarge),
        _ => Err(Unread::Outside),
    }
}

#[tactic(auto, unfolding(crate::specs::Grammar::outcome_by, crate::specs::Grammar::outcome))]
fn read_outcome(reader: &mut FieldReader<'_>) -> Result<OutcomeRow, Unread>
    ensures read { IfOk result (λ x. outcome reader.old ≡ Some (x, reader.new)) }
    ensures outside { IfErr result (λ stop. stop ≡ Unread.Outside → outcome reader.old ≡ None) }
    ensures shorter { length reader.new ≤ length reader.old }
{
    match read_byte(reader)? {
        0 => {
            let thing = read_thing(reader)?;
            Ok(OutcomeRow::Done(thing))
        }
        1 => {
            let code = read_u32(reader)?;
            Ok(OutcomeRow::Failed(code))
        }
        _ => Err(Unread::Outside),
    }
}

#[tactic(auto, unfolding(crate::specs::Grammar::result_by, crate::specs::Grammar::job_result))]
fn read_result(reader: &mut FieldReader<'_>, alloc: Global) -> Result<JobResult, Unread>
    ensures read { IfOk result (λ x. job_result reader.old ≡ Some (x, reader.new)) }
    ensures outside { IfErr result (λ stop. stop ≡ Unread.Outside → job_result reader.old ≡ None) }
    ensures shorter { length reader.new ≤ length reader.old }
{
    match read_byte(reader)? {
        0 => {
            let input = read_thing(reader)?;
            let outcome = read_outcome(reader)?;
            Ok(JobResult::Processed { input, outcome })
        }
        1 => Ok(JobResult::Cycle),
        2 => {
            let job = read_job_id(reader, alloc)?;
            Ok(JobResult::Missing(job))
        }
        3 => {
            let job = read_job_id(reader, alloc)?;
            Ok(JobResult::DepFailed(job))
        }
        _ => Err(Unread::Outside),
    }
}

#[tactic(auto, unfolding(crate::specs::Grammar::source_row))]
fn read_source_row(reader: &mut FieldReader<'_>, alloc: Global) -> Result<SourceRow, Unread>
    ensures read { IfOk result (λ x. source_row reader.old ≡ Some (x, reader.new)) }
    ensures outside { IfErr result (λ stop. stop ≡ Unread.Outside → source_row reader.old ≡ None) }
    ensures shorter { length reader.new ≤ length reader.old }
{
    let path = read_path(reader, alloc)?;
    let order = read_u32(reader)?;
    let name = read_raw_path(reader, alloc)?;
    let seen = read_seen(reader)?;
    Ok(SourceRow {
        path,
        order,
        name,
        seen,
    })
}

#[tactic(auto, unfolding(crate::specs::Grammar::create_row))]
fn read_create_row(reader: &mut FieldReader<'_>, alloc: Global) -> Result<CreateRow, Unread>
    ensures read { IfOk result (λ x. create_row reader.old ≡ Some (x, reader.new)) }
    ensures outside { IfErr result (λ stop. stop ≡ Unread.Outside → create_row reader.old ≡ None) }
    ensures shorter { length reader.new ≤ length reader.old }
{
    let source = read_path(reader, alloc)?;
    let input = read_thing(reader)?;
    let created = read_created(reader, alloc)?;
    Ok(CreateRow {
        source,
        input,
        created,
    })
}

#[tactic(auto, unfolding(crate::specs::Grammar::job_row))]
fn read_job_row(reader: &mut FieldReader<'_>, alloc: Global) -> Result<JobRow, Unread>
    ensures read { IfOk result (λ x. job_row reader.old ≡ Some (x, reader.new)) }
    ensures outside { IfErr result (λ stop. stop ≡ Unread.Outside → job_row reader.old ≡ None) }
    ensures shorter { length reader.new ≤ length reader.old }
{
    let id = read_job_id(reader, alloc)?;
    let result = read_result(reader, alloc)?;
    Ok(JobRow { id, result })
}

#[tactic(auto, unfolding(crate::specs::Grammar::define))]
fn read_define(reader: &mut FieldReader<'_>, alloc: Global) -> Result<Item, Unread>
    ensures read { IfOk result (λ x. define reader.old ≡ Some (x, reader.new)) }
    ensures outside { IfErr result (λ stop. stop ≡ Unread.Outside → define reader.old ≡ None) }
    ensures shorter { length reader.new ≤ length reader.old }
{
    let tag = read_byte(reader)?;
    let text = read_blob(reader, alloc)?;
    let kids = read_list(reader, alloc)?;
    Ok(Item::Define { tag, text, kids })
}

#[tactic(auto, unfolding(crate::specs::Grammar::item_by))]
fn read_item_of(reader: &mut FieldReader<'_>, alloc: Global, byte: u8) -> Result<Item, Unread>
    ensures read { IfOk result (λ x. item_by byte reader.old ≡ Some (x, reader.new)) }
    ensures outside { IfErr result (λ stop. stop ≡ Unread.Outside → item_by byte reader.old ≡ None) }
    ensures shorter { length reader.new ≤ length reader.old }
{
    match byte {
        1 => read_define(reader, alloc),
        2 => {
            let thing = read_thing(reader)?;
            Ok(Item::Drop(thing))
        }
        3 => {
            let row = read_source_row(reader, alloc)?;
            Ok(Item::PutSource(row))
        }
        4 => {
            let path = read_path(reader, alloc)?;
            Ok(Item::RemoveSource(path))
        }
        5 => {
            let row = read_create_row(reader, alloc)?;
            Ok(Item::PutCreate(row))
        }
        6 => {
            let path = read_path(reader, alloc)?;
            Ok(Item::RemoveCreate(path))
        }
        7 => {
            let row = read_job_row(reader, alloc)?;
            Ok(Item::PutJob(row))
        }
        8 => {
            let id = read_job_id(reader, alloc)?;
            Ok(Item::RemoveJob(id))
        }
        9 => {
            let rows = read_list(reader, alloc)?;
            Ok(Item::PutFolders(rows))
        }
        _ => Err(Unread::Outside),
    }
}

#[tactic(auto, unfolding(crate::specs::Grammar::item))]
fn read_item(reader: &mut FieldReader<'_>, alloc: Global) -> Result<Item, Unread>
    ensures read { IfOk result (λ x. item reader.old ≡ Some (x, reader.new)) }
    ensures outside { IfErr result (λ stop. stop ≡ Unread.Outside → item reader.old ≡ None) }
    ensures shorter { length reader.new ≤ length reader.old }
    ensures taken { OnOk result (length reader.new < length reader.old) }
{
    let byte = read_byte(reader)?;
    read_item_of(reader, alloc, byte)
}

/// The item that begins the bytes, and the bytes behind it; None where none begins them. It costs the item's
/// bytes once.
pub fn first_item(alloc: Global, bytes: &[u8]) -> Result<Option<(Item, &[u8])>, OutOfMemory>
    ensures read { IfOk result (λ found. MatchOption found (item bytes.now ≡ None) (λ read. item bytes.now ≡ Some (read.0, read.1.now))) }
    ensures shorter { IfOk result (λ found. IfSome found (λ read. length read.1.now < length bytes.now)) }
{
    let mut reader = FieldReader::new(bytes);
    match read_item(&mut reader, alloc) {
        Ok(item) => Ok(Some((item, reader.rest()))),
        Err(Unread::Outside) => Ok(None),
        Err(Unread::OutOfMemory) => Err(OutOfMemory),
    }
}

/// Why bytes are no change.
#[derive(Clone, Copy, Debug, PartialEq, Eq)]
pub enum RowFault {
    /// The first item outside the grammar begins at this offset.
    BadRecord { offset: u64 },
    OutOfMemory,
}

/// The change that the bytes spell. It costs the bytes once.
pub fn decode(alloc: Global, bytes: &[u8]) -> Result<Change, RowFault>
    ensures change { IfOk result (λ change. decoded bytes.now ≡ Ok change.items) }
    ensures one_spelling { IfOk result (λ change. spelled change.items ≡ bytes.now) }
    ensures folded { IfOk result (λ change. IsTrue (are_folded change.items)) }
    ensures bad { IfErr result (λ fault. (offset : ℕ) → fault ≡ RowFault.BadRecord offset
        → decoded bytes.now ≡ Err offset) }
{
    let mut reader = FieldReader::new(bytes);
    let mut items = Vec::new(alloc);
    while !reader.rest().is_empty() {
        let offset = (bytes.len() - reader.rest().len()) as u64;
        let item = match read_item(&mut reader, alloc) {
            Ok(item) => item,
            Err(Unread::Outside) => return Err(RowFault::BadRecord { offset }),
            Err(Unread::OutOfMemory) => return Err(RowFault::OutOfMemory),
        };
        if items.push(item).is_err() {
            return Err(RowFault::OutOfMemory);
        }
    }
    Ok(Change {
        items: List::of(items),
    })
}
