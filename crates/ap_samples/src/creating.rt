//! The jobs that the builders with directives create.
ghost use Rattle.std.specs.Prelude.{◌≡◌, ◌++◌, IfOk, OnOk, map, unwrap_or, nat_lt, count_by, pos, option_to_list};
ghost use Rattle.std.specs.List.{filter_map, list_any};
ghost use Rattle.std.specs.Option.{option_copied};
ghost use Rattle.ap_samples.specs.Creating.{key_in, priority_in, dependency_in, is_malformed_lem, is_key_lem, is_priority_lem, is_failure_lem, is_well_formed_lem, first, listed_version, job_by, created_by};

use crate::directive::Directive;
use crate::reading::read_directives;
use ap_builder::{CreateAnswer, CreateInput, DependencyRow, JobDesc};
use ap_text::{Bytes, JobId, List, Name, OutOfMemory, Platform};
use std::alloc::Global;

fn is_malformed(directive: &Directive) -> bool
    ensures { result ≡ is_malformed_lem directive.now }
{
    matches!(directive, Directive::Malformed)
}

fn is_key(directive: &Directive) -> bool
    ensures { result ≡ is_key_lem directive.now }
{
    matches!(directive, Directive::Key(_))
}

fn is_priority(directive: &Directive) -> bool
    ensures { result ≡ is_priority_lem directive.now }
{
    matches!(directive, Directive::Priority(_))
}

fn is_failure(directive: &Directive) -> bool
    ensures { result ≡ is_failure_lem directive.now }
{
    matches!(directive, Directive::Fail(_))
}

fn has_malformed(directives: &[Directive]) -> bool
    ensures { result ≡ list_any is_malformed_lem directives.now }
{
    directives.iter().any(|directive| is_malformed(directive))
}

fn has_two_keys(directives: &[Directive]) -> bool
    ensures { result ≡ nat_lt 1 (count_by is_key_lem directives.now) }
{
    directives
        .iter()
        .filter(|directive| is_key(directive))
        .count()
        > 1
}

fn has_two_priorities(directives: &[Directive]) -> bool
    ensures { result ≡ nat_lt 1 (count_by is_priority_lem directives.now) }
{
    directives
        .iter()
        .filter(|directive| is_priority(directive))
        .count()
        > 1
}

fn has_two_failures(directives: &[Directive]) -> bool
    ensures { result ≡ nat_lt 1 (count_by is_failure_lem directives.now) }
{
    directives
        .iter()
        .filter(|directive| is_failure(directive))
        .count()
        > 1
}

fn is_well_formed(directives: &[Directive]) -> bool
    ensures { result ≡ is_well_formed_lem directives.now }
{
    !has_malformed(directives)
        && !has_two_keys(directives)
        && !has_two_priorities(directives)
        && !has_two_failures(directives)
}

fn key(directive: &Directive) -> Option<&Name>
    ensures { option_copied result ≡ key_in directive.now }
{
    match directive {
        Directive::Key(name) => Some(name),
        _ => None,
    }
}

fn priority(directive: &Directive) -> Option<i32>
    ensures { result ≡ priority_in directive.now }
{
    match directive {
        Directive::Priority(priority) => Some(*priority),
        _ => None,
    }
}

/// The key that the directives say first, or another name.
fn first_key<'a>(directives: &'a [Directive], other: &'a Name) -> &'a Name
    ensures { result.now ≡ unwrap_or (first (filter_map key_in directives.now)) other.now }
{
    let mut rest = directives;
    while let [directive, after @ ..] = rest {
        if let Some(key) = key(directive) {
            return key;
        }
        rest = after;
    }
    other
}

/// The priority that the directives say first, or 0.
fn first_priority(directives: &[Directive]) -> i32
    ensures { result ≡ unwrap_or (first (filter_map priority_in directives.now)) (pos 0) }
{
    let mut rest = directives;
    while let [directive, after @ ..] = rest {
        if let Some(priority) = priority(directive) {
            return priority;
        }
        rest = after;
    }
    0
}

/// The version that the input first lists for a builder, or 1.
pub(crate) fn version_of(listed: &[(Name, u32)], builder: &Name) -> u32
    ensures { result ≡ listed_version listed.now builder.now }
{
    let mut rest = listed;
    while let [first, after @ ..] = rest {
        if first.0.as_slice() == builder.as_slice() {
            return first.1;
        }
        rest = after;
    }
    1
}

fn dependency(
    alloc: Global,
    platform: &Platform,
    directive: &Directive,
) -> Result<Option<DependencyRow>, OutOfMemory>
    ensures { IfOk result (λ row. row ≡ dependency_in platform.now directive.now) }
{
    match directive {
        Directive::Job { kind, source, key } => {
            let job = JobId {
                source: source.copy(alloc)?,
                key: key.copy(alloc)?,
                platform: platform.copy(alloc)?,
            };
            Ok(Some(DependencyRow { kind: *kind, job }))
        }
        _ => Ok(None),
    }
}

/// Appends the dependency of a directive, if it has one.
fn push_dependency(
    alloc: Global,
    platform: &Platform,
    rows: &mut Vec<DependencyRow>,
    directive: &Directive,
) -> Result<(), OutOfMemory>
    ensures { OnOk result (rows.new.items ≡ rows.old.items ++ option_to_list (dependency_in platform.now directive.now)) }
{
    if let Some(row) = dependency(alloc, platform, directive)? {
        rows.push(row)?;
    }
    Ok(())
}

fn dependencies(
    alloc: Global,
    platform: &Platform,
    directives: &[Directive],
) -> Result<Vec<DependencyRow>, OutOfMemory>
    ensures { IfOk result (λ rows. rows.items ≡ filter_map (dependency_in platform.now) directives.now) }
{
    let mut rows = Vec::new(alloc);
    let mut rest = directives;
    while let [directive, after @ ..] = rest {
        push_dependency(alloc, platform, &mut rows, directive)?;
        rest = after;
    }
    Ok(rows)
}

#[tactic(auto, unfolding(crate::specs::Creating::job_by))]
fn job(
    alloc: Global,
    builder: &Name,
    input: &CreateInput,
    directives: &[Directive],
    platform: &Platform,
) -> Result<JobDesc, OutOfMemory>
    ensures { IfOk result (λ job. job ≡ job_by builder.now input.now directives.now platform.now) }
{
    Ok(JobDesc {
        builder: builder.copy(alloc)?,
        version: version_of(input.builders.as_slice(), builder),
        platform: platform.copy(alloc)?,
        key: first_key(directives, builder).copy(alloc)?,
        priority: first_priority(directives),
        params: Bytes::of(Vec::new(alloc)),
        deps: List::of(dependencies(alloc, platform, directives)?),
    })
}

fn jobs(
    alloc: Global,
    builder: &Name,
    input: &CreateInput,
    directives: &[Directive],
) -> Result<Vec<JobDesc>, OutOfMemory>
    ensures { IfOk result (λ jobs. jobs.items ≡ map (job_by builder.now input.now directives.now) input.now.platforms) }
{
    let mut jobs = Vec::new(alloc);
    let mut rest = input.platforms.as_slice();
    while let [platform, after @ ..] = rest {
        jobs.push(job(alloc, builder, input, directives, platform)?)?;
        rest = after;
    }
    Ok(jobs)
}

/// One job for each platform, as the lines of the source say. The failure 1 where a line is malformed.
pub(crate) fn create_jobs(
    alloc: Global,
    builder: &Name,
    input: &CreateInput,
) -> Result<CreateAnswer, OutOfMemory>
    ensures { IfOk result (λ answer. answer ≡ created_by builder.now input.now) }
{
    let directives = read_directives(alloc, input.bytes.as_slice())?;
    if !is_well_formed(&directives) {
        return Ok(CreateAnswer::Failed(1));
    }
    let jobs = jobs(alloc, builder, input, &directives)?;
    Ok(CreateAnswer::Jobs(List::of(jobs)))
}
