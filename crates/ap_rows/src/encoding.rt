//! Spelling a change.
ghost use Rattle.std.specs.Prelude.{◌≡◌, ◌<◌, ◌++◌, [], ◌∷◌, IsTrue, OnOk, IfOk, IfErr, Ok, length};
ghost use Rattle.ap_rows.specs.Spelling.{thing_field, kind_byte, terms_field, seen_field, created_field, outcome_field, result_field, source_field, create_field, job_row_field, item_field, spelled};
ghost use Rattle.ap_rows.specs.Folded.{are_folded};
ghost use Rattle.ap_rows.specs.Grammar.{decoded};
ghost use Rattle.ap_rows.specs.Fields.{run_field, list_field};
ghost use Rattle.ap_rows.specs.Typed.{Fits32, TypedThing, TypedTerms, TypedSeen, TypedCreated, TypedOutcome, TypedResult, TypedSource, TypedCreate, TypedJobRow, TypedList};

use crate::change::{Change, Item};
use crate::decoding::RowFault;
use crate::fields::{put_number, put_run};
use crate::job::{Created, DepKind, DependencyRow, JobDesc};
use crate::row::{CreateRow, FolderRow, JobResult, JobRow, OutcomeRow, SeenRow, SourceRow};
use crate::write::{
    Spell, write_each, write_job_id, write_list, write_name, write_path, write_platform,
};
use ap_content::Number;
use ap_text::{Bytes, OutOfMemory};
use std::alloc::Global;

fn write_byte(out: &mut Vec<u8>, byte: u8) -> Result<(), OutOfMemory>
    ensures put { OnOk result (out.new.items ≡ out.old.items ++ byte ∷ []) }
{
    Ok(out.push(byte)?)
}

fn write_thing(out: &mut Vec<u8>, thing: Number) -> Result<(), OutOfMemory>
    ensures put { OnOk result (out.new.items ≡ out.old.items ++ thing_field thing) }
    ensures is_typed { OnOk result (TypedThing thing) }
{
    put_number(out, 8, thing.0)
}

fn byte_of(kind: DepKind) -> u8
    ensures { result ≡ kind_byte kind }
{
    match kind {
        DepKind::Order => 0,
        DepKind::OrderOnce => 1,
        DepKind::Fingerprint => 2,
    }
}

impl Spell for Number {
    ghost use Rattle.ap_rows.specs.Spelling.{thing_field};
    ghost use Rattle.ap_rows.specs.Typed.{TypedThing};

    ghost field = { thing_field };

    ghost fits = { λ n. Unit {0} };

    ghost typed = { TypedThing };

    fn write(&self, out: &mut Vec<u8>) -> Result<(), OutOfMemory> {
        write_thing(out, *self)
    }
}

impl Spell for DependencyRow {
    ghost use Rattle.ap_rows.specs.Spelling.{dependency_field};
    ghost use Rattle.ap_rows.specs.Typed.{TypedDependency};

    ghost field = { dependency_field };

    ghost fits = { λ dep. Unit {0} };

    ghost typed = { TypedDependency };

    fn write(&self, out: &mut Vec<u8>) -> Result<(), OutOfMemory> {
        write_byte(out, byte_of(self.kind))?;
        write_job_id(out, &self.job)
    }
}

/// What stands of a job before its parameters.
fn write_terms(out: &mut Vec<u8>, job: &JobDesc) -> Result<(), OutOfMemory>
    ensures put { OnOk result (out.new.items ≡ out.old.items ++ terms_field job.now) }
    ensures is_typed { OnOk result (TypedTerms job.now) }
{
    write_name(out, &job.builder)?;
    put_number(out, 4, job.version as u64)?;
    write_platform(out, &job.platform)?;
    write_name(out, &job.key)?;
    put_number(out, 4, job.priority.cast_unsigned() as u64)
}

impl Spell for JobDesc {
    ghost use Rattle.std.specs.Prelude.{length};
    ghost use Rattle.ap_rows.specs.Spelling.{desc_field};
    ghost use Rattle.ap_rows.specs.Typed.{Fits32, TypedDesc};

    ghost field = { desc_field };

    ghost fits = { λ desc. Fits32 (length (desc_field desc)) };

    ghost typed = { TypedDesc };

    fn write(&self, out: &mut Vec<u8>) -> Result<(), OutOfMemory> {
        write_terms(out, self)?;
        put_run(out, 4, self.params.as_slice())?;
        write_list(out, self.deps.as_slice())
    }
}

impl Spell for FolderRow {
    ghost use Rattle.ap_rows.specs.Spelling.{folder_field};
    ghost use Rattle.ap_rows.specs.Typed.{TypedFolder};

    ghost field = { folder_field };

    ghost fits = { λ row. Unit {0} };

    ghost typed = { TypedFolder };

    fn write(&self, out: &mut Vec<u8>) -> Result<(), OutOfMemory> {
        put_number(out, 4, self.order as u64)?;
        write_path(out, &self.path)
    }
}

fn write_seen(out: &mut Vec<u8>, seen: &SeenRow) -> Result<(), OutOfMemory>
    ensures put { OnOk result (out.new.items ≡ out.old.items ++ seen_field seen.now) }
    ensures is_typed { OnOk result (TypedSeen seen.now) }
{
    match seen {
        SeenRow::Bytes(thing) => {
            write_byte(out, 0)?;
            write_thing(out, *thing)
        }
        SeenRow::TooLarge => write_byte(out, 2),
    }
}

fn write_created(out: &mut Vec<u8>, created: &Created) -> Result<(), OutOfMemory>
    requires { Fits32 (length (created_field created.now)) }
    ensures put { OnOk result (out.new.items ≡ out.old.items ++ created_field created.now) }
    ensures is_typed { OnOk result (TypedCreated created.now) }
{
    match created {
        Created::Jobs(jobs) => {
            write_byte(out, 0)?;
            write_list(out, jobs.as_slice())
        }
        Created::Builder { builder, code } => {
            write_byte(out, 1)?;
            write_name(out, builder)?;
            put_number(out, 4, *code as u64)
        }
        Created::DuplicateKey { key, platform } => {
            write_byte(out, 2)?;
            write_name(out, key)?;
            write_platform(out, platform)
        }
        Created::TooLarge => write_byte(out, 3),
    }
}

fn write_outcome(out: &mut Vec<u8>, outcome: &OutcomeRow) -> Result<(), OutOfMemory>
    ensures put { OnOk result (out.new.items ≡ out.old.items ++ outcome_field outcome.now) }
    ensures is_typed { OnOk result (TypedOutcome outcome.now) }
{
    match outcome {
        OutcomeRow::Done(thing) => {
            write_byte(out, 0)?;
            write_thing(out, *thing)
        }
        OutcomeRow::Failed(code) => {
            write_byte(out, 1)?;
            put_number(out, 4, *code as u64)
        }
    }
}

fn write_result(out: &mut Vec<u8>, became: &JobResult) -> Result<(), OutOfMemory>
    ensures put { OnOk result (out.new.items ≡ out.old.items ++ result_field became.now) }
    ensures is_typed { OnOk result (TypedResult became.now) }
{
    match became {
        JobResult::Processed { input, outcome } => {
            write_byte(out, 0)?;
            write_thing(out, *input)?;
            write_outcome(out, outcome)
        }
        JobResult::Cycle => write_byte(out, 1),
        JobResult::Missing(job) => {
            write_byte(out, 2)?;
            write_job_id(out, job)
        }
        JobResult::DepFailed(job) => {
            write_byte(out, 3)?;
            write_job_id(out, job)
        }
    }
}

fn write_source_row(out: &mut Vec<u8>, row: &SourceRow) -> Result<(), OutOfMemory>
    ensures put { OnOk result (out.new.items ≡ out.old.items ++ source_field row.now) }
    ensures is_typed { OnOk result (TypedSource row.now) }
{
    write_path(out, &row.path)?;
    put_number(out, 4, row.order as u64)?;
    write_path(out, &row.name)?;
    write_seen(out, &row.seen)
}

fn write_create_row(out: &mut Vec<u8>, row: &CreateRow) -> Result<(), OutOfMemory>
    requires { Fits32 (length (create_field row.now)) }
    ensures put { OnOk result (out.new.items ≡ out.old.items ++ create_field row.now) }
    ensures is_typed { OnOk result (TypedCreate row.now) }
{
    write_path(out, &row.source)?;
    write_thing(out, row.input)?;
    write_created(out, &row.created)
}

fn write_job_row(out: &mut Vec<u8>, row: &JobRow) -> Result<(), OutOfMemory>
    ensures put { OnOk result (out.new.items ≡ out.old.items ++ job_row_field row.now) }
    ensures is_typed { OnOk result (TypedJobRow row.now) }
{
    write_job_id(out, &row.id)?;
    write_result(out, &row.result)
}

fn write_define(out: &mut Vec<u8>, tag: u8, text: &[u8], kids: &[Number]) -> Result<(), OutOfMemory>
    requires text { Fits32 (length text.now) }
    requires kids { Fits32 (length kids.now) }
    ensures put { OnOk result (out.new.items ≡ out.old.items ++ (tag ∷ run_field 4 text.now ++ list_field 4 thing_field kids.now)) }
    ensures is_typed { OnOk result ((tag < 256) × TypedList TypedThing kids.now) }
{
    write_byte(out, tag)?;
    put_run(out, 4, text)?;
    write_list(out, kids)
}

impl Spell for Item {
    ghost use Rattle.std.specs.Prelude.{length};
    ghost use Rattle.ap_rows.specs.Spelling.{item_field};
    ghost use Rattle.ap_rows.specs.Typed.{Fits32, TypedItem};

    ghost field = { item_field };

    ghost fits = { λ item. Fits32 (length (item_field item)) };

    ghost typed = { TypedItem };

    fn write(&self, out: &mut Vec<u8>) -> Result<(), OutOfMemory> {
        match self {
            Item::Define { tag, text, kids } => {
                write_byte(out, 1)?;
                write_define(out, *tag, text.as_slice(), kids.as_slice())
            }
            Item::Drop(thing) => {
                write_byte(out, 2)?;
                write_thing(out, *thing)
            }
            Item::PutSource(row) => {
                write_byte(out, 3)?;
                write_source_row(out, row)
            }
            Item::RemoveSource(path) => {
                write_byte(out, 4)?;
                write_path(out, path)
            }
            Item::PutCreate(row) => {
                write_byte(out, 5)?;
                write_create_row(out, row)
            }
            Item::RemoveCreate(path) => {
                write_byte(out, 6)?;
                write_path(out, path)
            }
            Item::PutJob(row) => {
                write_byte(out, 7)?;
                write_job_row(out, row)
            }
            Item::RemoveJob(id) => {
                write_byte(out, 8)?;
                write_job_id(out, id)
            }
            Item::PutFolders(rows) => {
                write_byte(out, 9)?;
                write_list(out, rows.as_slice())
            }
        }
    }
}

/// The bytes that spell the change. It costs these bytes once. `spelled_length` tells how many they are.
pub fn encode(alloc: Global, change: &Change) -> Result<Bytes, RowFault>
    requires { length (spelled change.now.items) < 4294967296 }
    ensures spelled { IfOk result (λ bytes. bytes ≡ spelled change.now.items) }
    ensures read_back { IfOk result (λ bytes. IsTrue (are_folded change.now.items) → decoded bytes ≡ Ok change.now.items) }
    ensures memory { IfErr result (λ fault. fault ≡ RowFault.OutOfMemory) }
{
    let mut out = Vec::new(alloc);
    match write_each(&mut out, change.items.as_slice()) {
        Ok(()) => Ok(Bytes::of(out)),
        Err(OutOfMemory) => Err(RowFault::OutOfMemory),
    }
}
