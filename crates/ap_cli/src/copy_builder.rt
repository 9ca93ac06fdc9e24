ghost use Rattle.std.specs.Prelude.{◌≡◌, map, IfOk};
ghost use Rattle.std.specs.Str.{str_to_ascii_lowercase};
ghost use Rattle.ap_text.specs.PathRules.{file_name_lem};
ghost use Rattle.ap_cli.specs.CopyBuilder.{copy_offers, copy_declares, copy_creates, copy_makes, copy_job, copy_product, version_in_lem};

use crate::names;
use ap_builder::{
    Builders, CreateAnswer, CreateInput, JobDesc, JobInput, LegacyRow, Offer, Outcome, Permit,
    Product, Target,
};
use ap_text::{Bytes, FileName, List, Name, OutOfMemory, Platform, RelPath};
use std::alloc::Global;

/// The mark of the benches whose permits the builder `copy` takes.
#[derive(Drop)]
pub struct CopyPass;

/// The builder `copy` alone: a source's one product on each platform is its bytes under its folded name.
#[derive(Drop)]
pub struct CopyBuilder;

impl Builders for CopyBuilder {
    type Pass = CopyPass;

    ghost declares = { copy_declares };

    ghost creates = { copy_creates };

    ghost makes = { copy_makes };

    ghost offers = { λ _. copy_offers };

    ghost use Rattle.std.proofs.Common.{refl};
    ghost use Rattle.ap_cli.specs.CopyLaws.{copy_patterns, copy_declared, copy_created, copy_made};

    ghost distinct = { λ _. refl };

    ghost patterns = { λ _. copy_patterns };

    ghost declared = { copy_declared };

    ghost created = { copy_created };

    ghost made = { copy_made };

    fn offers(&self, alloc: Global) -> Result<Vec<Offer>, OutOfMemory> {
        let patterns = vec![in alloc;
            Bytes::of(b"*.txt".to_vec(alloc)?),
            Bytes::of(b"*.png".to_vec(alloc)?),
            Bytes::of(b"*.wav".to_vec(alloc)?),
        ]?;
        let offer = Offer {
            name: names::copy(alloc)?,
            patterns: List::of(patterns),
            version: 1,
        };
        Ok(vec![in alloc; offer]?)
    }

    fn has(&self, builder: &Name) -> bool {
        builder.as_slice() == b"copy".as_slice()
    }

    fn declare(
        &self,
        alloc: Global,
        _builder: &Name,
        _path: &RelPath,
        _bytes: &[u8],
    ) -> Result<Vec<Target>, OutOfMemory> {
        Ok(Vec::new(alloc))
    }

    fn create(
        &self,
        alloc: Global,
        _permit: Permit<CopyPass>,
        builder: &Name,
        input: &CreateInput,
    ) -> Result<CreateAnswer, OutOfMemory>
        ensures { IfOk result (λ answer. answer ≡ copy_creates builder.now input.now) }
    {
        Ok(CreateAnswer::Jobs(List::of(jobs_for(alloc, builder, input)?)))
    }

    fn process(
        &self,
        alloc: Global,
        _permit: Permit<CopyPass>,
        input: &JobInput,
    ) -> Result<Outcome, OutOfMemory>
        ensures { IfOk result (λ outcome. outcome ≡ copy_makes input.now) }
    {
        let product = product_of(alloc, input)?;
        Ok(Outcome::Done(List::of(vec![in alloc; product]?)))
    }
}

/// One job for each platform.
pub(crate) fn jobs_for(
    alloc: Global,
    builder: &Name,
    input: &CreateInput,
) -> Result<Vec<JobDesc>, OutOfMemory>
    ensures { IfOk result (λ jobs. jobs.items ≡ map (copy_job builder.now input.now) input.now.platforms) }
{
    let mut jobs = Vec::new(alloc);
    let mut rest = input.platforms.as_slice();
    while let [platform, after @ ..] = rest {
        jobs.push(job_for(alloc, builder, input, platform)?)?;
        rest = after;
    }
    Ok(jobs)
}

fn job_for(
    alloc: Global,
    builder: &Name,
    input: &CreateInput,
    platform: &Platform,
) -> Result<JobDesc, OutOfMemory>
    ensures { IfOk result (λ job. job ≡ copy_job builder.now input.now platform.now) }
{
    Ok(JobDesc {
        builder: builder.copy(alloc)?,
        version: version_in(input.builders.as_slice(), builder),
        platform: platform.copy(alloc)?,
        key: names::copy(alloc)?,
        priority: 0,
        params: Bytes::of(Vec::new(alloc)),
        deps: List::of(Vec::new(alloc)),
    })
}

/// The version that the input first lists for a builder, or 1.
fn version_in(listed: &[(Name, u32)], builder: &Name) -> u32
    ensures { result ≡ version_in_lem listed.now builder.now }
{
    let mut rest = listed;
    while let [first, after @ ..] = rest {
        if first.0.as_slice() == builder.as_slice() {
            return first.1;
        }
        rest = after;
    }
    1
}

/// The source's bytes under its folded name.
pub(crate) fn product_of(alloc: Global, input: &JobInput) -> Result<Product, OutOfMemory>
    ensures { IfOk result (λ product. product ≡ copy_product input.now) }
{
    Ok(Product {
        name: file_name(alloc, &input.path)?,
        kind: names::copy(alloc)?,
        sub: 0,
        bytes: input.bytes.copy(alloc)?,
        refs: List::of(Vec::new(alloc)),
        legacy: LegacyRow {
            old: List::of(Vec::new(alloc)),
            formerly: List::of(Vec::new(alloc)),
        },
    })
}

/// The folded name of a path's file, which is a file name.
fn file_name(alloc: Global, path: &RelPath) -> Result<FileName, OutOfMemory>
    ensures { IfOk result (λ name. name ≡ str_to_ascii_lowercase (file_name_lem path.now)) }
{
    let folded = path.file_name().to_ascii_lowercase(alloc)?;
    match FileName::read(alloc, folded.as_bytes()) {
        Ok(name) => Ok(name),
        Err(_) => Err(OutOfMemory),
    }
}
