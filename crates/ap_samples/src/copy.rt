//! The builder `copy`: a source's one product on each platform is its bytes under its folded name.
ghost use Rattle.std.specs.Prelude.{◌≡◌, [], map, codes, IfOk};
ghost use Rattle.std.specs.Str.{str_to_ascii_lowercase};
ghost use Rattle.ap_text.specs.PathRules.{file_name_lem};
ghost use Rattle.ap_samples.specs.Copying.{copy_job, copy_created, copy_product, copy_made};

use crate::creating::version_of;
use ap_builder::{
    CreateAnswer, CreateInput, JobDesc, JobInput, LegacyRow, Outcome, Product, Target,
};
use ap_text::{Bytes, FileName, List, Name, OutOfMemory, Platform, RelPath};
use std::alloc::Global;

/// A source of `copy` depends on nothing.
pub fn copy_declare(
    alloc: Global,
    _builder: &Name,
    _path: &RelPath,
    _bytes: &[u8],
) -> Result<Vec<Target>, OutOfMemory>
    ensures { IfOk result (λ targets. targets.items ≡ []) }
{
    Ok(Vec::new(alloc))
}

/// One job for each platform.
pub fn copy_create(
    alloc: Global,
    builder: &Name,
    input: &CreateInput,
) -> Result<CreateAnswer, OutOfMemory>
    ensures { IfOk result (λ answer. answer ≡ copy_created builder.now input.now) }
{
    Ok(CreateAnswer::Jobs(List::of(jobs(alloc, builder, input)?)))
}

/// The source's bytes under its folded name.
pub fn copy_process(alloc: Global, input: &JobInput) -> Result<Outcome, OutOfMemory>
    ensures { IfOk result (λ outcome. outcome ≡ copy_made input.now) }
{
    let product = product(alloc, input)?;
    Ok(Outcome::Done(List::of(vec![in alloc; product]?)))
}

fn name(alloc: Global) -> Result<Name, OutOfMemory>
    ensures { IfOk result (λ name. name ≡ codes "copy") }
{
    match Name::read(alloc, b"copy") {
        Ok(name) => Ok(name),
        Err(_) => Err(OutOfMemory),
    }
}

fn jobs(alloc: Global, builder: &Name, input: &CreateInput) -> Result<Vec<JobDesc>, OutOfMemory>
    ensures { IfOk result (λ jobs. jobs.items ≡ map (copy_job builder.now input.now) input.now.platforms) }
{
    let mut jobs = Vec::new(alloc);
    let mut rest = input.platforms.as_slice();
    while let [platform, after @ ..] = rest {
        jobs.push(job(alloc, builder, input, platform)?)?;
        rest = after;
    }
    Ok(jobs)
}

fn job(
    alloc: Global,
    builder: &Name,
    input: &CreateInput,
    platform: &Platform,
) -> Result<JobDesc, OutOfMemory>
    ensures { IfOk result (λ job. job ≡ copy_job builder.now input.now platform.now) }
{
    Ok(JobDesc {
        builder: builder.copy(alloc)?,
        version: version_of(input.builders.as_slice(), builder),
        platform: platform.copy(alloc)?,
        key: name(alloc)?,
        priority: 0,
        params: Bytes::of(Vec::new(alloc)),
        deps: List::of(Vec::new(alloc)),
    })
}

fn product(alloc: Global, input: &JobInput) -> Result<Product, OutOfMemory>
    ensures { IfOk result (λ product. product ≡ copy_product input.now) }
{
    Ok(Product {
        name: file_name(alloc, &input.path)?,
        kind: name(alloc)?,
        sub: 0,
        bytes: input.bytes.copy(alloc)?,
        refs: List::of(Vec::new(alloc)),
        legacy: LegacyRow {
            old: List::of(Vec::new(alloc)),
            formerly: List::of(Vec::new(alloc)),
        },
    })
}

/// The folded name of a path's file.
fn file_name(alloc: Global, path: &RelPath) -> Result<FileName, OutOfMemory>
    ensures { IfOk result (λ name. name ≡ str_to_ascii_lowercase (file_name_lem path.now)) }
{
    let folded = path.file_name().to_ascii_lowercase(alloc)?;
    match FileName::read(alloc, folded.as_bytes()) {
        Ok(name) => Ok(name),
        Err(_) => Err(OutOfMemory),
    }
}
