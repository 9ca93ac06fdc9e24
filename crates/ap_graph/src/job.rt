ghost use Rattle.std.specs.Prelude.{◌≡◌, ◌<◌, true, map, length, Contains, All, IfOk};
ghost use Rattle.std.specs.List.{AllByRecursion};
ghost use Rattle.std.specs.List.Sorted.{IsStrictlySortedBy};
ghost use Rattle.ap_text.specs.Order.{Lists};
ghost use Rattle.ap_text.specs.JobOrder.{job_cmp};
ghost use Rattle.ap_graph.specs.Nodes.{node_cmp, HasDistinctIds};
ghost use Rattle.ap_graph.specs.Places.{HavePlaces};
ghost use Rattle.ap_graph.specs.Held.{named, nodes_held, EdgesWithin};

use crate::ids::place_of;
use crate::kind::DepKind;
use crate::node::JobNode;
use ap_text::{JobId, OutOfMemory};
use std::alloc::Global;

/// What a graph keeps of a node beside its id: each edge leads to a place among the ids.
#[derive(Drop)]
pub(crate) struct Job {
    pub(crate) priority: i32,
    pub(crate) edges: Vec<(DepKind, usize)>,
    pub(crate) processed: bool,
}

/// The nodes in the order of their ids.
pub(crate) fn by_id(alloc: Global, nodes: &[JobNode]) -> Result<Vec<&JobNode>, OutOfMemory>
    requires { HasDistinctIds nodes.now }
    ensures { IfOk result (λ sorted. Lists node_cmp (Contains nodes.now) (map (λ node. node.now) sorted.items)) }
{
    let mut sorted = Vec::with_capacity(alloc, nodes.len())?;
    for node in nodes {
        sorted.push(node)?;
    }
    sorted.sort_unstable_by(|a, b| a.id.cmp(&b.id));
    Ok(sorted)
}

pub(crate) fn copy_ids(alloc: Global, nodes: &[&JobNode]) -> Result<Vec<JobId>, OutOfMemory>
    ensures { IfOk result (λ ids. ids.items ≡ map (λ node. node.now.id) nodes.now) }
{
    let mut ids = Vec::with_capacity(alloc, nodes.len())?;
    for node in nodes {
        ids.push(node.id.copy(alloc)?)?;
    }
    Ok(ids)
}

/// What is kept of the nodes, where each edge leads to the place of its id.
pub(crate) fn resolve(
    alloc: Global,
    ids: &[JobId],
    nodes: &[&JobNode],
) -> Result<Vec<Job>, OutOfMemory>
    requires rises { IsStrictlySortedBy job_cmp ids.now }
    requires ids { ids.now ≡ map (λ node. node.now.id) nodes.now }
    requires resolved { All (λ node. HavePlaces ids.now node.now.edges) nodes.now }
    ensures nodes { IfOk result (λ jobs. nodes_held ids.now ids.now jobs.items ≡ map (λ node. node.now) nodes.now) }
    ensures places { IfOk result (λ jobs. length jobs.items ≡ length ids.now) }
    ensures within { IfOk result (λ jobs. EdgesWithin (length ids.now) jobs.items) }
{
    let mut jobs = Vec::with_capacity(alloc, nodes.len())?;
    for node in nodes {
        jobs.push(Job {
            priority: node.priority,
            edges: resolve_edges(alloc, ids, node.edges.as_slice())?,
            processed: node.processed,
        })?;
    }
    Ok(jobs)
}

fn resolve_edges(
    alloc: Global,
    ids: &[JobId],
    edges: &[(DepKind, JobId)],
) -> Result<Vec<(DepKind, usize)>, OutOfMemory>
    requires rises { IsStrictlySortedBy job_cmp ids.now }
    requires resolved { HavePlaces ids.now edges.now }
    ensures named { IfOk result (λ placed. named ids.now placed.items ≡ edges.now) }
    ensures within { IfOk result (λ placed. All (λ edge. edge.1 < length ids.now) placed.items) }
{
    let mut placed = Vec::with_capacity(alloc, edges.len())?;
    for edge in edges {
        placed.push((edge.0, place_of(ids, &edge.1)))?;
    }
    Ok(placed)
}
