//! Rows in the order of their keys: each is found by a binary search, behind a look at the last row, since rows mostly
//! come in their order.
ghost use Rattle.std.specs.Prelude.{◌≡◌, ◌≤◌, ◌+◌, List, IsSome, IfOk, OnErr, length, vec_capacity, vec_len, filter, not, find, bytes_eq};
ghost use Rattle.std.specs.List.Sorted.{IsSearchInRange};
ghost use Rattle.ap_text.specs.Order.{bytes_cmp, put_in_order};
ghost use Rattle.ap_text.specs.JobOrder.{job_cmp, same_job};
ghost use Rattle.ap_db.specs.Listed.{IsPlaceOf, IsPutAt, IsTakenAt, replaced};
ghost use Rattle.ap_db.specs.Rows.{by_path, by_source, by_id, SourcesRise, CreatesRise, JobsRise};

use ap_rows::{CreateRow, JobRow, SourceRow};
use ap_text::{JobId, OutOfMemory, RelPath};

/// Where the row of a path stands, or would.
pub(crate) fn place_of_source(rows: &[SourceRow], path: &RelPath) -> Result<usize, usize>
    requires { SourcesRise rows.now }
    ensures range { IsSearchInRange result (length rows.now) }
    ensures place { IsPlaceOf (λ row. bytes_cmp row.path path.now) rows.now result }
{
    if let [.., last] = rows
        && last.path.cmp(path).is_lt()
    {
        return Err(rows.len());
    }
    rows.binary_search_by(|row| row.path.cmp(path))
}

/// Where the row of a source stands, or would.
pub(crate) fn place_of_create(rows: &[CreateRow], source: &RelPath) -> Result<usize, usize>
    requires { CreatesRise rows.now }
    ensures range { IsSearchInRange result (length rows.now) }
    ensures place { IsPlaceOf (λ row. bytes_cmp row.source source.now) rows.now result }
{
    if let [.., last] = rows
        && last.source.cmp(source).is_lt()
    {
        return Err(rows.len());
    }
    rows.binary_search_by(|row| row.source.cmp(source))
}

/// Where the row of a job stands, or would.
pub(crate) fn place_of_job(rows: &[JobRow], id: &JobId) -> Result<usize, usize>
    requires { JobsRise rows.now }
    ensures range { IsSearchInRange result (length rows.now) }
    ensures place { IsPlaceOf (λ row. job_cmp row.id id.now) rows.now result }
{
    if let [.., last] = rows
        && last.id.cmp(id).is_lt()
    {
        return Err(rows.len());
    }
    rows.binary_search_by(|row| row.id.cmp(id))
}

/// Puts a row into its place, and gives the one that stood there.
fn put_at<X: Drop>(
    rows: &mut Vec<X>,
    place: Result<usize, usize>,
    row: X,
) -> Result<Option<X>, OutOfMemory>
    requires { IsSearchInRange place (vec_len rows.old) }
    ensures put { IfOk result (IsPutAt rows.old.items place row rows.new.items) }
    ensures room { OnErr result (vec_capacity rows.old ≤ vec_len rows.old) }
    ensures grows { vec_capacity rows.old ≤ vec_capacity rows.new }
    ensures longer { vec_len rows.new ≤ vec_len rows.old + 1 }
    ensures replaces { IfOk result (λ old. IsSome old → vec_len rows.new ≡ vec_len rows.old) }
{
    match place {
        Ok(at) => Ok(Some(std::mem::replace(&mut rows[at], row))),
        Err(at) => {
            rows.insert(at, row)?;
            Ok(None)
        }
    }
}

/// Takes the row out of its place, where one stands there.
fn take_at<X: Drop>(rows: &mut Vec<X>, place: Result<usize, usize>) -> Option<X>
    requires { IsSearchInRange place (vec_len rows.old) }
    ensures taken { IsTakenAt rows.old.items place rows.new.items result }
    ensures kept { vec_capacity rows.new ≡ vec_capacity rows.old }
    ensures shorter { vec_len rows.new ≤ vec_len rows.old }
    ensures frees { IsSome result → vec_len rows.new + 1 ≡ vec_len rows.old }
{
    match place {
        Ok(at) => Some(rows.remove(at)),
        Err(_) => None,
    }
}

/// Puts a row in place of the one of its path, which it gives. Where there is none it takes memory if the
/// rows have no room, and moves the rows behind it.
pub(crate) fn put_source_row(
    rows: &mut Vec<SourceRow>,
    row: SourceRow,
) -> Result<Option<SourceRow>, OutOfMemory>
    requires { SourcesRise rows.old.items }
    ensures put { IfOk result (λ old. (rows.new.items ≡ put_in_order by_path row rows.old.items) × (old ≡ replaced by_path row rows.old.items)) }
    ensures room { OnErr result (vec_capacity rows.old ≤ vec_len rows.old) }
    ensures grows { vec_capacity rows.old ≤ vec_capacity rows.new }
    ensures longer { vec_len rows.new ≤ vec_len rows.old + 1 }
    ensures replaces { IfOk result (λ old. IsSome old → vec_len rows.new ≡ vec_len rows.old) }
{
    let place = place_of_source(rows, &row.path);
    put_at(rows, place, row)
}

/// As `put_source_row`, by the source.
pub(crate) fn put_create_row(
    rows: &mut Vec<CreateRow>,
    row: CreateRow,
) -> Result<Option<CreateRow>, OutOfMemory>
    requires { CreatesRise rows.old.items }
    ensures put { IfOk result (λ old. (rows.new.items ≡ put_in_order by_source row rows.old.items) × (old ≡ replaced by_source row rows.old.items)) }
    ensures room { OnErr result (vec_capacity rows.old ≤ vec_len rows.old) }
    ensures grows { vec_capacity rows.old ≤ vec_capacity rows.new }
    ensures longer { vec_len rows.new ≤ vec_len rows.old + 1 }
    ensures replaces { IfOk result (λ old. IsSome old → vec_len rows.new ≡ vec_len rows.old) }
{
    let place = place_of_create(rows, &row.source);
    put_at(rows, place, row)
}

/// As `put_source_row`, by the job id.
pub(crate) fn put_job_row(
    rows: &mut Vec<JobRow>,
    row: JobRow,
) -> Result<Option<JobRow>, OutOfMemory>
    requires { JobsRise rows.old.items }
    ensures put { IfOk result (λ old. (rows.new.items ≡ put_in_order by_id row rows.old.items) × (old ≡ replaced by_id row rows.old.items)) }
    ensures room { OnErr result (vec_capacity rows.old ≤ vec_len rows.old) }
    ensures grows { vec_capacity rows.old ≤ vec_capacity rows.new }
    ensures longer { vec_len rows.new ≤ vec_len rows.old + 1 }
    ensures replaces { IfOk result (λ old. IsSome old → vec_len rows.new ≡ vec_len rows.old) }
{
    let place = place_of_job(rows, &row.id);
    put_at(rows, place, row)
}

/// Takes out the row of a path, which it gives. It moves the rows behind it.
pub(crate) fn take_source_row(rows: &mut Vec<SourceRow>, path: &RelPath) -> Option<SourceRow>
    requires { SourcesRise rows.old.items }
    ensures rows { rows.new.items ≡ filter (λ row. not (bytes_eq row.path path.now)) rows.old.items }
    ensures taken { result ≡ find (λ row. bytes_eq row.path path.now) rows.old.items }
    ensures kept { vec_capacity rows.new ≡ vec_capacity rows.old }
    ensures shorter { vec_len rows.new ≤ vec_len rows.old }
    ensures frees { IsSome result → vec_len rows.new + 1 ≡ vec_len rows.old }
{
    let place = place_of_source(rows, path);
    take_at(rows, place)
}

/// As `take_source_row`, by the source.
pub(crate) fn take_create_row(rows: &mut Vec<CreateRow>, source: &RelPath) -> Option<CreateRow>
    requires { CreatesRise rows.old.items }
    ensures rows { rows.new.items ≡ filter (λ row. not (bytes_eq row.source source.now)) rows.old.items }
    ensures taken { result ≡ find (λ row. bytes_eq row.source source.now) rows.old.items }
    ensures kept { vec_capacity rows.new ≡ vec_capacity rows.old }
    ensures shorter { vec_len rows.new ≤ vec_len rows.old }
    ensures frees { IsSome result → vec_len rows.new + 1 ≡ vec_len rows.old }
{
    let place = place_of_create(rows, source);
    take_at(rows, place)
}

/// As `take_source_row`, by the job id.
pub(crate) fn take_job_row(rows: &mut Vec<JobRow>, id: &JobId) -> Option<JobRow>
    requires { JobsRise rows.old.items }
    ensures rows { rows.new.items ≡ filter (λ row. not (same_job row.id id.now)) rows.old.items }
    ensures taken { result ≡ find (λ row. same_job row.id id.now) rows.old.items }
    ensures kept { vec_capacity rows.new ≡ vec_capacity rows.old }
    ensures shorter { vec_len rows.new ≤ vec_len rows.old }
    ensures frees { IsSome result → vec_len rows.new + 1 ≡ vec_len rows.old }
{
    let place = place_of_job(rows, id);
    take_at(rows, place)
}
