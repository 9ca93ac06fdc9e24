//! The nodes of create inputs and job inputs.
ghost use Rattle.std.specs.Prelude.{◌≡◌, ◌++◌, OnOk, IfOk, All, List, Option, Some};
ghost use Rattle.std.specs.List.{flat_map};
ghost use Rattle.ap_content.specs.Things.{Kids, thing};
ghost use Rattle.ap_content.specs.Entries.{Entry, StandEach};
ghost use Rattle.ap_rows.specs.Fields.{list_field};
ghost use Rattle.ap_rows.specs.Inputs.{CreateFrom, create_thing, MadeFrom, input_thing};
ghost use Rattle.ap_rows.specs.InputRanges.{IsCreateInput, IsJobInput};
ghost use Rattle.ap_rows.specs.Forms.{create_from_thing, made_from_thing};
ghost use Rattle.ap_rows.specs.InputNodes.{mark_of, seen_kids_of, file_kids, given_kids, create_node_of, input_node_of, IsCreateOf, IsInputOf};

use crate::fields::{put_number, put_run};
use crate::input::{CreateParts, HandedThings, JobParts, MatchingBuilder, ReachedFile, SeenThing};
use crate::thing_form::{CREATE_TAG, INPUT_TAG};
use crate::write::{Spell, write_each, write_job_id, write_name, write_path, write_platform};
use ap_content::{Node, Number};
use ap_text::{Bytes, List, OutOfMemory, Platform};
use std::alloc::Global;

impl<'a> Spell for MatchingBuilder<'a> {
    ghost use Rattle.ap_rows.specs.InputRanges.{IsCreateInput, IsJobInput};
    ghost use Rattle.ap_rows.specs.Forms.{create_from_thing, made_from_thing};
    ghost use Rattle.ap_rows.specs.InputNodes.{matching_field};

    ghost field = { matching_field };

    ghost fits = { λ b. Unit {0} };

    ghost typed = { λ b. Unit {0} };

    fn write(&self, out: &mut Vec<u8>) -> Result<(), OutOfMemory> {
        write_name(out, self.name)?;
        put_number(out, 4, self.version as u64)
    }
}

impl Spell for Platform {
    ghost use Rattle.ap_rows.specs.Fields.{name_field};

    ghost field = { name_field };

    ghost fits = { λ p. Unit {0} };

    ghost typed = { λ p. Unit {0} };

    fn write(&self, out: &mut Vec<u8>) -> Result<(), OutOfMemory> {
        write_platform(out, self)
    }
}

/// The mark of how a file is seen.
fn mark(seen: SeenThing) -> u8
    ensures { result ≡ mark_of seen }
{
    match seen {
        SeenThing::Bytes(_) => 0,
        SeenThing::Absent => 1,
        SeenThing::TooLarge => 2,
    }
}

impl<'a> Spell for ReachedFile<'a> {
    ghost use Rattle.ap_rows.specs.InputRanges.{IsCreateInput, IsJobInput};
    ghost use Rattle.ap_rows.specs.Forms.{create_from_thing, made_from_thing};
    ghost use Rattle.ap_rows.specs.InputNodes.{file_field};

    ghost field = { file_field };

    ghost fits = { λ file. Unit {0} };

    ghost typed = { λ file. Unit {0} };

    fn write(&self, out: &mut Vec<u8>) -> Result<(), OutOfMemory> {
        write_path(out, self.path)?;
        put_number(out, 1, mark(self.seen) as u64)
    }
}

impl<'a> Spell for HandedThings<'a> {
    ghost use Rattle.ap_rows.specs.InputRanges.{IsCreateInput, IsJobInput};
    ghost use Rattle.ap_rows.specs.Forms.{create_from_thing, made_from_thing};
    ghost use Rattle.ap_rows.specs.InputNodes.{given_field};

    ghost field = { given_field };

    ghost fits = { λ handed. Unit {0} };

    ghost typed = { λ handed. Unit {0} };

    fn write(&self, out: &mut Vec<u8>) -> Result<(), OutOfMemory> {
        match self {
            HandedThings::Order { job, .. } => {
                put_number(out, 1, 0)?;
                write_job_id(out, job)
            }
            HandedThings::Fingerprint { job, .. } => {
                put_number(out, 1, 2)?;
                write_job_id(out, job)
            }
        }
    }
}

/// A u64 count and so many items.
fn write_long_list<X: Spell>(out: &mut Vec<u8>, items: &[X]) -> Result<(), OutOfMemory>
    requires { All X.fits items.now }
    ensures { OnOk result (out.new.items ≡ out.old.items ++ list_field 8 X.field items.now) }
{
    put_number(out, 8, items.len() as u64)?;
    write_each(out, items)
}

fn push_seen(kids: &mut Vec<Number>, seen: SeenThing) -> Result<(), OutOfMemory>
    ensures { OnOk result (kids.new.items ≡ kids.old.items ++ seen_kids_of seen) }
{
    if let SeenThing::Bytes(number) = seen {
        kids.push(number)?;
    }
    Ok(())
}

fn push_files(kids: &mut Vec<Number>, files: &[ReachedFile<'_>]) -> Result<(), OutOfMemory>
    ensures { OnOk result (kids.new.items ≡ kids.old.items ++ flat_map file_kids files.now) }
{
    for file in files {
        push_seen(kids, file.seen)?;
    }
    Ok(())
}

fn push_given(kids: &mut Vec<Number>, handed: &HandedThings<'_>) -> Result<(), OutOfMemory>
    ensures { OnOk result (kids.new.items ≡ kids.old.items ++ given_kids handed.now) }
{
    match handed {
        HandedThings::Order { products, .. } => kids.push(*products)?,
        HandedThings::Fingerprint {
            input,
            products,
            ..
        } => {
            kids.push(*input)?;
            kids.push(*products)?;
        }
    }
    Ok(())
}

fn push_handed(kids: &mut Vec<Number>, all: &[HandedThings<'_>]) -> Result<(), OutOfMemory>
    ensures { OnOk result (kids.new.items ≡ kids.old.items ++ flat_map given_kids all.now) }
{
    for handed in all {
        push_given(kids, handed)?;
    }
    Ok(())
}

fn create_text(alloc: Global, parts: &CreateParts<'_>) -> Result<Vec<u8>, OutOfMemory>
    ensures { IfOk result (λ text. text.items ≡ (create_node_of parts.now).text) }
{
    let mut text = Vec::new(alloc);
    write_long_list(&mut text, parts.builders)?;
    write_long_list(&mut text, parts.platforms)?;
    write_path(&mut text, parts.path)?;
    put_number(&mut text, 1, mark(parts.seen) as u64)?;
    write_long_list(&mut text, parts.reached)?;
    Ok(text)
}

fn create_kids(alloc: Global, parts: &CreateParts<'_>) -> Result<Vec<Number>, OutOfMemory>
    ensures { IfOk result (λ kids. kids.items ≡ (create_node_of parts.now).kids) }
{
    let mut kids = Vec::new(alloc);
    push_seen(&mut kids, parts.seen)?;
    push_files(&mut kids, parts.reached)?;
    Ok(kids)
}

/// The node of a create input. Where its numbers stand for the bytes that are seen, it is the node of the thing of
/// the input. It costs the fields once.
pub fn create_node(alloc: Global, parts: &CreateParts<'_>) -> Result<Node, OutOfMemory>
    ensures node { IfOk result (λ node. node ≡ create_node_of parts.now) }
    ensures thing { IfOk result (λ node. (contents : List (Option Entry)) (from : CreateFrom) → IsCreateOf contents parts.now from
        → (xs : Kids) × StandEach contents node.kids xs × (thing node.tag node.text xs ≡ create_thing from)) }
    ensures read_back { IfOk result (λ node. (contents : List (Option Entry)) (from : CreateFrom) → IsCreateOf contents parts.now from → IsCreateInput from
        → (xs : Kids) × StandEach contents node.kids xs × (create_from_thing (thing node.tag node.text xs) ≡ Some from)) }
{
    let text = create_text(alloc, parts)?;
    let kids = create_kids(alloc, parts)?;
    Ok(Node {
        tag: CREATE_TAG,
        text: Bytes::of(text),
        kids: List::of(kids),
    })
}

fn input_text(alloc: Global, parts: &JobParts<'_>) -> Result<Vec<u8>, OutOfMemory>
    ensures { IfOk result (λ text. text.items ≡ (input_node_of parts.now).text) }
{
    let mut text = Vec::new(alloc);
    write_name(&mut text, &parts.job.builder)?;
    put_number(&mut text, 4, parts.job.version as u64)?;
    write_platform(&mut text, &parts.job.platform)?;
    write_name(&mut text, &parts.job.key)?;
    put_run(&mut text, 8, parts.job.params.as_slice())?;
    write_path(&mut text, parts.path)?;
    write_long_list(&mut text, parts.reached)?;
    write_long_list(&mut text, parts.handed)?;
    Ok(text)
}

fn input_kids(alloc: Global, parts: &JobParts<'_>) -> Result<Vec<Number>, OutOfMemory>
    ensures { IfOk result (λ kids. kids.items ≡ (input_node_of parts.now).kids) }
{
    let mut kids = Vec::new(alloc);
    kids.push(parts.bytes)?;
    push_files(&mut kids, parts.reached)?;
    push_handed(&mut kids, parts.handed)?;
    Ok(kids)
}

/// The node of a job input. Where its numbers stand for the bytes, the inputs and the products that it names, it is
/// the node of the thing of the input. It costs the fields once.
pub fn input_node(alloc: Global, parts: &JobParts<'_>) -> Result<Node, OutOfMemory>
    ensures node { IfOk result (λ node. node ≡ input_node_of parts.now) }
    ensures thing { IfOk result (λ node. (contents : List (Option Entry)) (from : MadeFrom) → IsInputOf contents parts.now from
        → (xs : Kids) × StandEach contents node.kids xs × (thing node.tag node.text xs ≡ input_thing from)) }
    ensures read_back { IfOk result (λ node. (contents : List (Option Entry)) (from : MadeFrom) → IsInputOf contents parts.now from → IsJobInput from
        → (xs : Kids) × StandEach contents node.kids xs × (made_from_thing (thing node.tag node.text xs) ≡ Some from)) }
{
    let text = input_text(alloc, parts)?;
    let kids = input_kids(alloc, parts)?;
    Ok(Node {
        tag: INPUT_TAG,
        text: Bytes::of(text),
        kids: List::of(kids),
    })
}
