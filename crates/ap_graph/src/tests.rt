ghost use Rattle.std.specs.Prelude.{◌≡◌, ◌<◌, true, length, IsTrue, IfSome};
ghost use Rattle.std.specs.List.{AllByRecursion};
ghost use Rattle.std.specs.List.Sorted.{IsStrictlySortedBy};
ghost use Rattle.ap_graph.specs.Nodes.{node_cmp, is_node, HasDistinctIds, IsResolved};
ghost use Rattle.ap_graph.specs.Jobs.{is_job};

use crate::kind::DepKind;
use crate::{Graph, JobNode, State};
use ap_text::{JobId, List, Name, OutOfMemory, Platform, RelPath};
use std::alloc::Global;
use std::test::Fail;

/// Whether the ids rise.
fn rises(nodes: &[JobNode]) -> bool
    ensures { IsTrue result → IsStrictlySortedBy node_cmp nodes.now }
{
    for at in 1..nodes.len() {
        if nodes[at - 1].id >= nodes[at].id {
            return false;
        }
    }
    true
}

fn has(nodes: &[JobNode], id: &JobId) -> bool
    ensures { IsTrue result → is_node nodes.now id.now ≡ true }
{
    nodes.binary_search_by(|node| node.id.cmp(id)).is_ok()
}

fn has_all(nodes: &[JobNode], edges: &[(DepKind, JobId)]) -> bool
    ensures { IsTrue result → AllByRecursion (λ edge. is_node nodes.now edge.1 ≡ true) edges.now }
{
    for edge in edges {
        if !has(nodes, &edge.1) {
            return false;
        }
    }
    true
}

/// Whether each edge leads to a node.
fn is_resolved(nodes: &[JobNode]) -> bool
    ensures { IsTrue result → IsResolved nodes.now }
{
    for node in nodes {
        if !has_all(nodes, node.edges.as_slice()) {
            return false;
        }
    }
    true
}

/// The graph of the nodes, whose ids are to rise.
fn graph_of(alloc: Global, nodes: &[JobNode]) -> Option<Graph>
    ensures { IfSome result (λ graph. AllByRecursion (λ node. is_job graph node.id ≡ true) nodes.now) }
{
    if !rises(nodes) {
        return None;
    }
    if !is_resolved(nodes) {
        return None;
    }
    match Graph::new(alloc, nodes) {
        Ok(graph) => Some(graph),
        Err(_) => None,
    }
}

/// Issues a job that is ready.
fn issue(graph: &mut Graph, nodes: &[JobNode], at: usize) -> bool
    requires { AllByRecursion (λ node. is_job graph.old node.id ≡ true) nodes.now }
    ensures { AllByRecursion (λ node. is_job graph.new node.id ≡ true) nodes.now }
{
    if at >= nodes.len() {
        return false;
    }
    match graph.state(&nodes[at].id) {
        State::Ready => {
            graph.issue(&nodes[at].id);
            true
        }
        _ => false,
    }
}

/// Settles a job, if that is lawful.
fn settle(graph: &mut Graph, nodes: &[JobNode], at: usize) -> bool
    requires { AllByRecursion (λ node. is_job graph.old node.id ≡ true) nodes.now }
    ensures { AllByRecursion (λ node. is_job graph.new node.id ≡ true) nodes.now }
{
    if at >= nodes.len() {
        return false;
    }
    match graph.state(&nodes[at].id) {
        State::Ready => {
            graph.settle(&nodes[at].id);
            true
        }
        State::Issued => {
            graph.settle(&nodes[at].id);
            true
        }
        _ => {
            if graph.on_cycle(&nodes[at].id) {
                graph.settle(&nodes[at].id);
                return true;
            }
            false
        }
    }
}

/// A letter for each job: `w`, `r`, `i` or `s`, and in upper case where it is on a cycle.
fn states(alloc: Global, graph: &Graph, nodes: &[JobNode]) -> Result<Vec<u8>, OutOfMemory>
    requires { AllByRecursion (λ node. is_job graph.now node.id ≡ true) nodes.now }
{
    let mut letters = Vec::with_capacity(alloc, nodes.len())?;
    for node in nodes {
        let on_cycle = graph.on_cycle(&node.id);
        letters.push(match graph.state(&node.id) {
            State::Waiting => if on_cycle { b'W' } else { b'w' },
            State::Ready => if on_cycle { b'R' } else { b'r' },
            State::Issued => if on_cycle { b'I' } else { b'i' },
            State::Settled => if on_cycle { b'S' } else { b's' },
        })?;
    }
    Ok(letters)
}

fn id_of(alloc: Global, source: &[u8]) -> Result<JobId, OutOfMemory> {
    let Ok(source) = RelPath::read(alloc, source) else {
        return Err(OutOfMemory);
    };
    let Ok(key) = Name::read(alloc, b"join") else {
        return Err(OutOfMemory);
    };
    let Ok(platform) = Platform::read(alloc, b"pc") else {
        return Err(OutOfMemory);
    };
    Ok(JobId {
        source,
        key,
        platform,
    })
}

/// The jobs of a text: for each, parted by `;`, its letter, its priority (`5` is 0), `n` or `p` where it was
/// processed, and then its edges, each the first letter of its kind (`c` for `OrderOnce`) and a job's letter.
fn nodes_of(alloc: Global, text: &[u8]) -> Result<Vec<JobNode>, OutOfMemory> {
    let mut nodes = Vec::new(alloc);
    for job in text.split(|byte| *byte == b';') {
        nodes.push(node_of(alloc, job)?)?;
    }
    Ok(nodes)
}

fn node_of(alloc: Global, job: &[u8]) -> Result<JobNode, OutOfMemory> {
    let [name, priority, processed, edges @ ..] = job else {
        return Err(OutOfMemory);
    };
    Ok(JobNode {
        id: id_of(alloc, &[*name])?,
        priority: i32::from(*priority) - 53,
        edges: List::of(edges_of(alloc, edges)?),
        processed: *processed == b'p',
    })
}

fn edges_of(alloc: Global, text: &[u8]) -> Result<Vec<(DepKind, JobId)>, OutOfMemory> {
    let mut edges = Vec::new(alloc);
    let mut rest = text;
    while let [kind, name, after @ ..] = rest {
        let kind = match kind {
            b'o' => DepKind::Order,
            b'f' => DepKind::Fingerprint,
            _ => DepKind::OrderOnce,
        };
        edges.push((kind, id_of(alloc, &[*name])?))?;
        rest = after;
    }
    Ok(edges)
}

/// The letters of the states, and then that of the next job, or `-`.
fn told(alloc: Global, graph: &Graph, nodes: &[JobNode]) -> Result<Vec<u8>, OutOfMemory>
    requires { AllByRecursion (λ node. is_job graph.now node.id ≡ true) nodes.now }
{
    let mut letters = states(alloc, graph, nodes)?;
    match graph.ready() {
        Some(next) => letters.extend_from_slice(next.source.as_slice())?,
        None => letters.push(b'-')?,
    }
    Ok(letters)
}

/// Takes a step: `i` to issue or `s` to settle, and a job's letter. Whether it is lawful.
fn take(graph: &mut Graph, nodes: &[JobNode], what: u8, name: u8) -> bool
    requires { AllByRecursion (λ node. is_job graph.old node.id ≡ true) nodes.now }
    ensures { AllByRecursion (λ node. is_job graph.new node.id ≡ true) nodes.now }
{
    let at = usize::from(name.wrapping_sub(b'a'));
    match what {
        b'i' => issue(graph, nodes, at),
        b's' => settle(graph, nodes, at),
        _ => true,
    }
}

/// Goes through the steps of a text, each with what is told then. Whether all is as it says.
fn goes_on(alloc: Global, graph: &mut Graph, nodes: &[JobNode], steps: &[u8]) -> bool
    requires { AllByRecursion (λ node. is_job graph.old node.id ≡ true) nodes.now }
{
    let mut rest = steps;
    for _ in 0..steps.len() {
        let [what, name, after @ ..] = rest else {
            return rest.is_empty();
        };
        if !take(graph, nodes, *what, *name) {
            return false;
        }
        let Ok(letters) = told(alloc, graph, nodes) else {
            return false;
        };
        let Some(next) = after.strip_prefix(letters.as_slice()) else {
            return false;
        };
        rest = next;
    }
    rest.is_empty()
}

fn goes(alloc: Global, jobs: &[u8], steps: &[u8]) -> bool {
    let Ok(nodes) = nodes_of(alloc, jobs) else {
        return false;
    };
    let Some(mut graph) = graph_of(alloc, &nodes) else {
        return false;
    };
    goes_on(alloc, &mut graph, &nodes, steps)
}

#[test]
fn graphs_go_step_by_step(rt: HostRuntime) -> Result<(), Fail> {
    let alloc = rt.alloc();
    let cases: [(&[u8], &[u8]); 11] = [
        // Each kind is waited for, the last one since the job wasn't processed, and whatever its priority.
        (b"a5n;b5noa", b"--rwaiaiw-sasrbibsi-sbss-"),
        (b"a5n;b5pfa", b"--rwaiaiw-sasrbibsi-sbss-"),
        (b"a5n;b9nca", b"--rwaiaiw-sasrbibsi-sbss-"),
        (b"a5n;b5pcaoa", b"--rwaiaiw-sasrbibsi-sbss-"),
        // A processed job doesn't wait for it, and goes first by its priority.
        (b"a5n;b9pca", b"--rrbibriasbrsasass-"),
        // A chain of three, a ring of three, and a job that leads into a ring of two.
        (b"a5nob;b5noc;c5n", b"--wwrcicwwi-scwrsbsbrssaiaiss-"),
        (b"a5nob;b5noc;c5noa", b"--WWW-saSWRcsaSWRcsbSSRcscSSS-"),
        (b"a5nob;b5noc;c5nob", b"--wWW-sbrSRascrSSa"),
        // A job that depends on itself, and one that would have waited for itself.
        (b"a5noa;b5pca", b"--WrbsaSrb"),
        (b"a5pca", b"--RaiaI-saS-"),
        // The greatest priority goes first, and of equal ones the least id.
        (b"a0n;b8n;c8n", b"--rrrbibrircscrisasasis-"),
    ];
    for (jobs, steps) in cases {
        assert!(rt; goes(alloc, jobs, steps), "{jobs:?} {steps:?}");
    }
    Ok(())
}

/// Jobs of which each waits for the one before, and the first for the last where it is a ring.
fn chain_of(alloc: Global, count: usize, ring: bool) -> Result<Vec<JobNode>, OutOfMemory> {
    let mut nodes = Vec::with_capacity(alloc, count)?;
    for at in 0..count {
        let mut edges = Vec::new(alloc);
        if at > 0 {
            edges.push((DepKind::Order, numbered(alloc, at - 1)?))?;
        } else if ring {
            edges.push((DepKind::Fingerprint, numbered(alloc, count - 1)?))?;
        }
        nodes.push(JobNode {
            id: numbered(alloc, at)?,
            priority: 0,
            edges: List::of(edges),
            processed: false,
        })?;
    }
    Ok(nodes)
}

/// The id of a number of five digits.
fn numbered(alloc: Global, number: usize) -> Result<JobId, OutOfMemory> {
    let mut source = Vec::with_capacity(alloc, 5)?;
    for unit in [10000, 1000, 100, 10, 1] {
        source.push(b"0123456789"[number / unit % 10])?;
    }
    id_of(alloc, &source)
}

#[test]
fn long_chains_and_rings_are_gone_through(rt: HostRuntime) -> Result<(), Fail> {
    let alloc = rt.alloc();
    let nodes = chain_of(alloc, 50000, false).ok().ok_or("no memory")?;
    let mut graph = graph_of(alloc, &nodes).ok_or("no graph")?;
    for at in 0..nodes.len() {
        assert!(rt; issue(&mut graph, &nodes, at), "{at} isn't ready");
        assert!(rt; settle(&mut graph, &nodes, at), "{at} isn't issued");
    }
    let letters = states(alloc, &graph, &nodes).ok().ok_or("no memory")?;
    assert!(rt;
        letters.iter().all(|letter| *letter == b's'),
        "all are settled"
    );
    let nodes = chain_of(alloc, 50000, true).ok().ok_or("no memory")?;
    let graph = graph_of(alloc, &nodes).ok_or("no graph")?;
    let letters = states(alloc, &graph, &nodes).ok().ok_or("no memory")?;
    assert!(rt;
        letters.iter().all(|letter| *letter == b'W'),
        "all are on the ring"
    );
    Ok(())
}
