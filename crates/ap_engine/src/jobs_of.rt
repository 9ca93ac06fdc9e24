//! The job rows of one source.
ghost use Rattle.std.specs.Prelude.{◌≡◌, ◌≤◌, false, not, filter, length, take, drop, bytes_eq};
ghost use Rattle.std.specs.List.{AllByRecursion};
ghost use Rattle.std.specs.Ordering.{is_lt, is_eq};
ghost use Rattle.ap_text.specs.Order.{bytes_cmp};
ghost use Rattle.ap_db.specs.Rows.{JobsRise};
ghost use Rattle.ap_engine.specs.Removals.{is_job_of};

use ap_rows::{JobDesc, JobRow};
use ap_text::{JobId, RelPath};

/// How many of the rows, which rise, are of sources below this one.
fn count_below(rows: &[JobRow], source: &RelPath) -> usize
    requires { JobsRise rows.now }
    ensures bound { result ≤ length rows.now }
    ensures rest { drop result rows.now ≡ filter (λ row. not (is_lt (bytes_cmp row.id.source source.now))) rows.now }
{
    rows.partition_point(
        |row: &JobRow| -> bool
            ensures { result ≡ is_lt (bytes_cmp row.now.id.source source.entry.now) }
        { row.id.source.cmp(source).is_lt() },
    )
}

/// How many of the rows, which rise and of which none is of a source below this one, are of this one.
fn count_of(rows: &[JobRow], source: &RelPath) -> usize
    requires rise { JobsRise rows.now }
    requires none_below { AllByRecursion (λ row. is_lt (bytes_cmp row.id.source source.now) ≡ false) rows.now }
    ensures bound { result ≤ length rows.now }
    ensures front { take result rows.now ≡ filter (λ row. bytes_eq row.id.source source.now) rows.now }
{
    rows.partition_point(
        |row: &JobRow| -> bool
            ensures { result ≡ bytes_eq row.now.id.source source.entry.now }
        { row.id.source == *source },
    )
}

/// The rows of the jobs of a source, found by two binary searches.
pub(crate) fn jobs_of<'a>(rows: &'a [JobRow], source: &RelPath) -> &'a [JobRow]
    requires { JobsRise rows.now }
    ensures { result.now ≡ filter (λ row. bytes_eq row.id.source source.now) rows.now }
{
    let rest = &rows[count_below(rows, source)..];
    &rest[..count_of(rest, source)]
}

/// Whether the job of this id is one of these jobs of its source.
pub(crate) fn has_job(jobs: &[JobDesc], id: &JobId) -> bool
    ensures { result ≡ is_job_of jobs.now id.now }
{
    let mut rest = jobs;
    while let [job, after @ ..] = rest {
        if job.key.as_slice() == id.key.as_slice()
            && job.platform.as_slice() == id.platform.as_slice()
        {
            return true;
        }
        rest = after;
    }
    false
}
