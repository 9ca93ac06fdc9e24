ghost use Rattle.std.specs.Prelude.{◌≡◌, ◌≢◌, ◌↔◌, true, length, map, replicate, Contains, IsTrue, IfOk, IfSome, IfNone};
ghost use Rattle.std.specs.List.Sorted.{IsStrictlySortedBy};
ghost use Rattle.ap_graph.specs.declared.node.State.TheVariants.{Ready};
ghost use Rattle.ap_graph.specs.declared.node.Progress.TheVariants.{Pending, Issued, Settled};
ghost use Rattle.ap_text.specs.JobOrder.{job_cmp};
ghost use Rattle.ap_graph.specs.Nodes.{HasDistinctIds, IsResolved, IsOnCycle};
ghost use Rattle.ap_graph.specs.Jobs.{GraphJob, nodes_of, is_job, state_of, with_progress, IsNext, AreNew, MayBeSettled};
ghost use Rattle.ap_graph.specs.Held.{nodes_held, marked, EdgesWithin};

use crate::arrows::Arrows;
use crate::cycles::cycles;
use crate::ids::place_of;
use crate::job::{Job, by_id, copy_ids, resolve};
use crate::links::{counts, edge_arrows, priorities, wait_arrows};
use crate::node::{JobNode, Progress, State};
use crate::release::{enter_free, release};
use crate::reverse::reverse;
use crate::tournament::Tournament;
use ap_text::{JobId, OutOfMemory};
use std::alloc::Global;
use std::marker::Model;

/// Jobs, what they wait for, and how far each has come. Contracts see it as the list of its jobs by id.
///
/// A job is ready where it is neither issued nor settled, and each job that it waits for is settled. It
/// waits for its `Order` and `Fingerprint` dependencies, and for the `OrderOnce` ones until it was processed.
#[derive(Drop)]
pub struct Graph {
    ids: Vec<JobId>,
    jobs: Vec<Job>,
    dependents: Arrows,
    cyclic: Vec<bool>,
    progress: Vec<Progress>,
    waiting: Vec<usize>,
    ready: Tournament,
}

impl Model for Graph {
    ghost use Rattle.std.specs.Prelude.{List};
    ghost use Rattle.ap_graph.specs.Jobs.{GraphJob};

    ghost Value = { List GraphJob };

    ghost use Rattle.ap_graph.specs.Held.{nodes_held, marked, IsPlan, IsCount};

    ghost view = { λ g. marked (nodes_held g.ids.items g.ids.items g.jobs.items) g.progress.items };

    ghost invariant = { λ g. IsPlan g.ids.items g.jobs.items g.dependents g.cyclic.items × IsCount g.jobs.items g.progress.items g.waiting.items g.ready };
}

impl Graph {
    /// The graph of these jobs, none of which is issued or settled. Their ids are distinct, and each edge
    /// leads to one of them. It costs as much as sorting the nodes and looking up the edges, and makes the
    /// room for all other calls.
    pub fn new(alloc: Global, nodes: &[JobNode]) -> Result<Self, OutOfMemory>
        requires distinct { HasDistinctIds nodes.now }
        requires resolved { IsResolved nodes.now }
        ensures { IfOk result (λ graph. AreNew nodes.now graph) }
    {
        let sorted = by_id(alloc, nodes)?;
        let ids = copy_ids(alloc, &sorted)?;
        let jobs = resolve(alloc, &ids, &sorted)?;
        Graph::of(alloc, ids, jobs)
    }

    fn of(alloc: Global, ids: Vec<JobId>, jobs: Vec<Job>) -> Result<Self, OutOfMemory>
        requires rises { IsStrictlySortedBy job_cmp ids.items }
        requires places { length jobs.items ≡ length ids.items }
        requires within { EdgesWithin (length ids.items) jobs.items }
        ensures { IfOk result (λ graph. graph ≡ marked (nodes_held ids.items ids.items jobs.items) (replicate (length jobs.items) Pending)) }
    {
        let cyclic = cycles(alloc, &edge_arrows(alloc, &jobs)?)?;
        let waits = wait_arrows(alloc, &jobs)?;
        let dependents = reverse(alloc, &waits)?;
        let waiting = counts(alloc, &waits)?;
        let progress = vec![in alloc; Progress::Pending; jobs.len()]?;
        let mut ready = Tournament::new(alloc, priorities(alloc, &jobs)?)?;
        enter_free(&waiting, &progress, &mut ready);
        Ok(Graph {
            ids,
            jobs,
            dependents,
            cyclic,
            progress,
            waiting,
            ready,
        })
    }

    /// Whether a chain of dependencies of any kind leads from the job to itself. It costs a look-up.
    pub fn on_cycle(&self, id: &JobId) -> bool
        requires { is_job self.now id.now ≡ true }
        ensures { IsTrue result ↔ IsOnCycle (nodes_of self.now) id.now }
    {
        self.cyclic[place_of(&self.ids, id)]
    }

    /// How the job stands. It costs a look-up.
    pub fn state(&self, id: &JobId) -> State
        requires { is_job self.now id.now ≡ true }
        ensures { result ≡ state_of self.now id.now }
    {
        let place = place_of(&self.ids, id);
        match self.progress[place] {
            Progress::Issued => State::Issued,
            Progress::Settled => State::Settled,
            Progress::Pending => {
                if self.waiting[place] == 0 {
                    State::Ready
                } else {
                    State::Waiting
                }
            }
        }
    }

    /// The ready job of greatest priority, and among equals the one of the least id.
    pub fn ready(&self) -> Option<&JobId>
        ensures next { IfSome result (λ id. IsNext self.now id.now) }
        ensures none { IfNone result ((job : GraphJob) → Contains self.now job → state_of self.now job.node.id ≢ Ready) }
    {
        match self.ready.first() {
            Some(place) => Some(&self.ids[place]),
            None => None,
        }
    }

    /// Issues a job that is ready. It costs the logarithm of the count of all jobs.
    pub fn issue(&mut self, id: &JobId)
        requires { state_of self.old id.now ≡ Ready }
        ensures { self.new ≡ with_progress id.now Issued self.old }
    {
        let place = place_of(&self.ids, id);
        self.progress[place] = Progress::Issued;
        self.ready.set(place, false);
    }

    /// Settles a job that is ready or issued, or that is on a cycle. It costs the logarithm of the count of
    /// all jobs, for the job and for each that waits for it.
    pub fn settle(&mut self, id: &JobId)
        requires known { is_job self.old id.now ≡ true }
        requires allowed { MayBeSettled self.old id.now }
        ensures { self.new ≡ with_progress id.now Settled self.old }
    {
        let place = place_of(&self.ids, id);
        if self.progress[place].is_settled() {
            return;
        }
        self.progress[place] = Progress::Settled;
        self.ready.set(place, false);
        release(
            self.dependents.row(place),
            &self.progress,
            &mut self.waiting,
            &mut self.ready,
        );
    }
}
