use crate::kind::DepKind;
use ap_text::{JobId, List};

/// A job of the graph, and what it depends on.
#[derive(Drop)]
pub struct JobNode {
    pub id: JobId,
    /// A greater priority is issued first.
    pub priority: i32,
    /// The jobs that this one depends on, each by its id. One may stand here more than once, and the job
    /// itself may too.
    pub edges: List<(DepKind, JobId)>,
    /// Whether the job was processed before, so that it no longer waits for `OrderOnce` dependencies.
    pub processed: bool,
}

/// How a job of the graph stands.
#[derive(Clone, Copy, Debug, PartialEq, Eq)]
pub enum State {
    /// Some dependency that it waits for isn't settled.
    Waiting,
    /// It may be issued.
    Ready,
    /// It was issued, and isn't settled yet.
    Issued,
    /// It is done with, however it came out.
    Settled,
}

/// How far a job has come.
#[derive(Clone, Copy)]
pub(crate) enum Progress {
    Pending,
    Issued,
    Settled,
}

impl Progress {
    ghost use Rattle.std.specs.Prelude.{◌≡◌};
    ghost use Rattle.ap_graph.specs.Jobs.{has_settled};

    pub(crate) fn is_settled(self) -> bool
        ensures { result ≡ has_settled self }
    {
        matches!(self, Progress::Settled)
    }
}
