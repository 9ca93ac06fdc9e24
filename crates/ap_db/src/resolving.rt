//! Numbers of the file, as the numbers of the contents that stand for the same things.
ghost use Rattle.std.specs.Prelude.{◌≡◌, ◌==◌, List, Option, Some, None};
ghost use Rattle.ap_content.specs.Things.{Thing};
ghost use Rattle.ap_content.specs.Entries.{Stands};
ghost use Rattle.ap_db.specs.Same.{tag_of};
ghost use Rattle.ap_db.specs.Stored.{Stored, tagged_at, seen_at, outcome_at, result_at, source_at, create_at, job_at};
ghost use Rattle.ap_db.specs.declared.state.State.{State};
ghost use Rattle.ap_rows.specs.declared.row.JobResult.TheVariants.{Processed};
ghost use Rattle.ap_db.specs.Listed.{AreBoth};
ghost use Rattle.ap_db.specs.States.{StandsFor, Names, SeenIs, SourceIs, CreateIs, JobIs, OutcomeIs, ResultIs, IsIndexOf, indexed};

use ap_content::{Contents, Number};
use ap_rows::{CreateRow, JobResult, JobRow, OutcomeRow, SeenRow, SourceRow};

/// The contents' number of a thing of the file.
pub(crate) fn number_at(index: &[Option<Number>], n: Number) -> Option<Number>
    ensures { result ≡ indexed index.now n.0 }
{
    match index.get(n.0 as usize) {
        Some(number) => *number,
        None => None,
    }
}

/// Whether the thing under a number has this tag.
fn has_tag(contents: &Contents, m: Number, tag: u8) -> bool
    ensures { (x : Thing) → Stands contents.now m x → result ≡ (tag_of x == tag) }
{
    match contents.get(m) {
        Some(node) => node.tag == tag,
        None => false,
    }
}

/// The contents' number of a thing of the file that has this tag.
fn tagged(index: &[Option<Number>], contents: &Contents, n: Number, tag: u8) -> Option<Number>
    ensures { (state : State) (stored : Stored) → StandsFor state contents.now stored → IsIndexOf index.now state
        → AreBoth (Names state.things.items contents.now) result (tagged_at tag stored n) }
{
    match number_at(index, n) {
        Some(m) => {
            if has_tag(contents, m, tag) {
                Some(m)
            } else {
                None
            }
        }
        None => None,
    }
}

fn resolve_seen(index: &[Option<Number>], contents: &Contents, seen: SeenRow) -> Option<SeenRow>
    ensures { (state : State) (stored : Stored) → StandsFor state contents.now stored → IsIndexOf index.now state
        → AreBoth (SeenIs (Names state.things.items contents.now)) result (seen_at stored seen) }
{
    match seen {
        SeenRow::Bytes(n) => match tagged(index, contents, n, 0) {
            Some(m) => Some(SeenRow::Bytes(m)),
            None => None,
        },
        SeenRow::TooLarge => Some(SeenRow::TooLarge),
    }
}

fn resolve_outcome(
    index: &[Option<Number>],
    contents: &Contents,
    outcome: OutcomeRow,
) -> Option<OutcomeRow>
    ensures { (state : State) (stored : Stored) → StandsFor state contents.now stored → IsIndexOf index.now state
        → AreBoth (OutcomeIs (Names state.things.items contents.now)) result (outcome_at stored outcome) }
{
    match outcome {
        OutcomeRow::Done(n) => match tagged(index, contents, n, 3) {
            Some(m) => Some(OutcomeRow::Done(m)),
            None => None,
        },
        OutcomeRow::Failed(code) => Some(OutcomeRow::Failed(code)),
    }
}

fn resolve_processed(
    index: &[Option<Number>],
    contents: &Contents,
    n: Number,
    outcome: OutcomeRow,
) -> Option<JobResult>
    ensures { (state : State) (stored : Stored) → StandsFor state contents.now stored → IsIndexOf index.now state
        → AreBoth (ResultIs (Names state.things.items contents.now)) result (result_at stored (Processed n outcome)) }
{
    match tagged(index, contents, n, 2) {
        Some(input) => match resolve_outcome(index, contents, outcome) {
            Some(outcome) => Some(JobResult::Processed { input, outcome }),
            None => None,
        },
        None => None,
    }
}

fn resolve_result(
    index: &[Option<Number>],
    contents: &Contents,
    came: JobResult,
) -> Option<JobResult>
    ensures { (state : State) (stored : Stored) → StandsFor state contents.now stored → IsIndexOf index.now state
        → AreBoth (ResultIs (Names state.things.items contents.now)) result (result_at stored came) }
{
    match came {
        JobResult::Processed { input, outcome } => {
            resolve_processed(index, contents, input, outcome)
        }
        JobResult::Cycle => Some(JobResult::Cycle),
        JobResult::Missing(job) => Some(JobResult::Missing(job)),
        JobResult::DepFailed(job) => Some(JobResult::DepFailed(job)),
    }
}

/// The row with numbers of the contents, and None where its number isn't that of a thing of bytes.
pub(crate) fn resolve_source(
    index: &[Option<Number>],
    contents: &Contents,
    row: SourceRow,
) -> Option<SourceRow>
    ensures { (state : State) (stored : Stored) → StandsFor state contents.now stored → IsIndexOf index.now state
        → AreBoth (SourceIs (Names state.things.items contents.now)) result (source_at stored row) }
{
    match resolve_seen(index, contents, row.seen) {
        Some(seen) => Some(SourceRow {
            path: row.path,
            order: row.order,
            name: row.name,
            seen,
        }),
        None => None,
    }
}

/// The row with numbers of the contents, and None where its number isn't that of a create input.
pub(crate) fn resolve_create(
    index: &[Option<Number>],
    contents: &Contents,
    row: CreateRow,
) -> Option<CreateRow>
    ensures { (state : State) (stored : Stored) → StandsFor state contents.now stored → IsIndexOf index.now state
        → AreBoth (CreateIs (Names state.things.items contents.now)) result (create_at stored row) }
{
    match tagged(index, contents, row.input, 1) {
        Some(input) => Some(CreateRow {
            source: row.source,
            input,
            created: row.created,
        }),
        None => None,
    }
}

/// The row with numbers of the contents, and None where they aren't those of a job input and of products.
pub(crate) fn resolve_job(
    index: &[Option<Number>],
    contents: &Contents,
    row: JobRow,
) -> Option<JobRow>
    ensures { (state : State) (stored : Stored) → StandsFor state contents.now stored → IsIndexOf index.now state
        → AreBoth (JobIs (Names state.things.items contents.now)) result (job_at stored row) }
{
    match resolve_result(index, contents, row.result) {
        Some(result) => Some(JobRow { id: row.id, result }),
        None => None,
    }
}
