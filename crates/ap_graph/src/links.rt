ghost use Rattle.std.specs.Prelude.{◌≡◌, map, length, IfOk};
ghost use Rattle.ap_graph.specs.Held.{targets_in, waits_in, all_targets, all_waits};

use crate::arrows::Arrows;
use crate::job::Job;
use crate::kind::{DepKind, waits};
use ap_text::OutOfMemory;
use std::alloc::Global;

/// An arrow for each edge.
pub(crate) fn edge_arrows(alloc: Global, jobs: &[Job]) -> Result<Arrows, OutOfMemory>
    ensures { IfOk result (λ arrows. arrows ≡ all_targets jobs.now) }
{
    let mut arrows = Arrows::empty(alloc);
    for job in jobs {
        arrows.push(targets(alloc, &job.edges)?)?;
    }
    Ok(arrows)
}

/// An arrow for each edge that is waited for.
pub(crate) fn wait_arrows(alloc: Global, jobs: &[Job]) -> Result<Arrows, OutOfMemory>
    ensures { IfOk result (λ arrows. arrows ≡ all_waits jobs.now) }
{
    let mut arrows = Arrows::empty(alloc);
    for job in jobs {
        arrows.push(awaited(alloc, job.processed, &job.edges)?)?;
    }
    Ok(arrows)
}

fn targets(alloc: Global, edges: &[(DepKind, usize)]) -> Result<Vec<usize>, OutOfMemory>
    ensures { IfOk result (λ targets. targets.items ≡ targets_in edges.now) }
{
    let mut targets = Vec::with_capacity(alloc, edges.len())?;
    for edge in edges {
        targets.push(edge.1)?;
    }
    Ok(targets)
}

fn awaited(
    alloc: Global,
    processed: bool,
    edges: &[(DepKind, usize)],
) -> Result<Vec<usize>, OutOfMemory>
    ensures { IfOk result (λ awaited. awaited.items ≡ waits_in processed edges.now) }
{
    let mut awaited = Vec::with_capacity(alloc, edges.len())?;
    for edge in edges {
        if waits(edge.0, processed) {
            awaited.push(edge.1)?;
        }
    }
    Ok(awaited)
}

/// How many each number leads to.
pub(crate) fn counts(alloc: Global, arrows: &Arrows) -> Result<Vec<usize>, OutOfMemory>
    ensures { IfOk result (λ counts. counts.items ≡ map length arrows.now) }
{
    let mut counts = Vec::with_capacity(alloc, arrows.len())?;
    for number in 0..arrows.len() {
        counts.push(arrows.row(number).len())?;
    }
    Ok(counts)
}

pub(crate) fn priorities(alloc: Global, jobs: &[Job]) -> Result<Vec<i32>, OutOfMemory>
    ensures { IfOk result (λ priorities. priorities.items ≡ map (λ job. job.priority) jobs.now) }
{
    let mut priorities = Vec::with_capacity(alloc, jobs.len())?;
    for job in jobs {
        priorities.push(job.priority)?;
    }
    Ok(priorities)
}
