//! Whether a change may be committed.
ghost use Rattle.std.specs.Prelude.{◌≡◌, ℕ, ◌+◌, List, length, find, is_some, bytes_eq, fold};
ghost use Rattle.std.specs.List.{list_all};
ghost use Rattle.ap_content.specs.Things.{Thing};
ghost use Rattle.ap_content.specs.Entries.{Stands};
ghost use Rattle.ap_db.specs.Stored.{Stored};
ghost use Rattle.ap_db.specs.Lawful.{is_good_thing, is_good_content, is_good_outcome, is_good_result, is_lawful_item, is_lawful, after_plain};
ghost use Rattle.ap_db.specs.Commit.{PlainItem};
ghost use Rattle.ap_db.specs.Tables.{PlainTables};
ghost use Rattle.ap_rows.specs.declared.change.Item.TheVariants.{PutSource, PutCreate, PutJob};
ghost use Rattle.ap_db.specs.Said.{Says, ItemIs};
ghost use Rattle.ap_db.specs.Lookup.{source_left, create_left, job_left, left_after};
ghost use Rattle.ap_db.specs.Listed.{AreAll};
ghost use Rattle.ap_db.specs.Rows.{SourcesRise, CreatesRise, JobsRise};
ghost use Rattle.ap_db.specs.Changes.{source_row_at, create_row_at, job_row_at};
ghost use Rattle.ap_text.specs.JobOrder.{same_job};
ghost use Rattle.ap_content.specs.Entries.{Entry};
ghost use Rattle.std.specs.Prelude.{Option};
ghost use Rattle.ap_db.specs.States.{StandsFor, SeenIs, OutcomeIs, ResultIs};
ghost use Rattle.ap_rows.specs.Folded.{is_folded_job, is_folded_dependency, is_folded_desc, is_folded_created};
ghost use Rattle.ap_db.specs.NewThings.{size};
ghost use Rattle.ap_db.specs.GoodParts.{has_good_parts, IsDescent};

use crate::replay::do_orders_rise;
use crate::rows::{place_of_create, place_of_job, place_of_source};
use crate::state::State;
use crate::things::thing_of;
use ap_content::{Contents, Number};
use ap_rows::{
    Change, CreateRow, Created, Item, JobDesc, JobResult, JobRow, OutcomeRow, SeenRow, SourceRow,
    has_form, is_folded,
};
use ap_text::{JobId, RelPath};

/// Whether the paths of a job id are folded.
fn is_folded_job(job: &JobId) -> bool
    ensures { result ≡ is_folded_job job.now }
{
    is_folded(&job.source)
}

/// Whether those of a created job's dependencies are.
fn is_folded_desc(desc: &JobDesc) -> bool
    ensures { result ≡ is_folded_desc desc.now }
{
    let mut rest = desc.deps.as_slice();
    while let [dep, after @ ..] = rest {
        if !is_folded_job(&dep.job) {
            return false;
        }
        rest = after;
    }
    true
}

/// Whether those of what a creation came to are.
fn is_folded_created(created: &Created) -> bool
    ensures { result ≡ is_folded_created created.now }
{
    let Created::Jobs(jobs) = created else {
        return true;
    };
    let mut rest = jobs.as_slice();
    while let [job, after @ ..] = rest {
        if !is_folded_desc(job) {
            return false;
        }
        rest = after;
    }
    true
}

/// Whether there is a row of this path.
fn has_source(rows: &[SourceRow], path: &RelPath) -> bool
    requires { SourcesRise rows.now }
    ensures { result ≡ is_some (find (λ row. bytes_eq row.path path.now) rows.now) }
{
    place_of_source(rows, path).is_ok()
}

/// Whether there is a row of this source.
fn has_create(rows: &[CreateRow], source: &RelPath) -> bool
    requires { CreatesRise rows.now }
    ensures { result ≡ is_some (find (λ row. bytes_eq row.source source.now) rows.now) }
{
    place_of_create(rows, source).is_ok()
}

/// Whether there is a row of this job.
fn has_job(rows: &[JobRow], id: &JobId) -> bool
    requires { JobsRise rows.now }
    ensures { result ≡ is_some (find (λ row. same_job row.id id.now) rows.now) }
{
    place_of_job(rows, id).is_ok()
}

/// Whether the row of a path is there after an item, by whether it was.
fn source_left(item: &Item, path: &RelPath, there: bool) -> bool
    ensures { result ≡ source_left item.now path.now there }
{
    match item {
        Item::PutSource(row) => there || row.path == *path,
        Item::RemoveSource(other) => there && *other != *path,
        _ => there,
    }
}

/// As `source_left`, of a create row.
fn create_left(item: &Item, source: &RelPath, there: bool) -> bool
    ensures { result ≡ create_left item.now source.now there }
{
    match item {
        Item::PutCreate(row) => there || row.source == *source,
        Item::RemoveCreate(other) => there && *other != *source,
        _ => there,
    }
}

/// As `source_left`, of a job's row.
fn job_left(item: &Item, id: &JobId, there: bool) -> bool
    ensures { result ≡ job_left item.now id.now there }
{
    match item {
        Item::PutJob(row) => there || row.id == *id,
        Item::RemoveJob(other) => there && *other != *id,
        _ => there,
    }
}

/// Whether the row of a path is there after these items.
fn source_after(items: &[Item], path: &RelPath, first: bool) -> bool
    ensures { result ≡ left_after source_left items.now path.now first }
{
    let mut there = first;
    let mut rest = items;
    while let [item, after @ ..] = rest {
        there = source_left(item, path, there);
        rest = after;
    }
    there
}

/// As `source_after`, of a create row.
fn create_after(items: &[Item], source: &RelPath, first: bool) -> bool
    ensures { result ≡ left_after create_left items.now source.now first }
{
    let mut there = first;
    let mut rest = items;
    while let [item, after @ ..] = rest {
        there = create_left(item, source, there);
        rest = after;
    }
    there
}

/// As `source_after`, of a job's row.
fn job_after(items: &[Item], id: &JobId, first: bool) -> bool
    ensures { result ≡ left_after job_left items.now id.now first }
{
    let mut there = first;
    let mut rest = items;
    while let [item, after @ ..] = rest {
        there = job_left(item, id, there);
        rest = after;
    }
    there
}

impl State {
    /// Whether each thing at and below the one of this number is in the file or has the form of its tag. It goes
    /// down so far at most, which is further than any thing does.
    fn has_good_parts(&self, contents: &Contents, n: u64, depth: u128) -> bool
        ensures { (stored : Stored) (x : Thing) (above : List ℕ) → StandsFor self.now contents.now stored → Stands contents.now (record { 0 = n }) x → IsDescent contents.now (size x) above
            → length above + depth ≡ 18446744073709551616 → result ≡ has_good_parts stored x }
    {
        if depth == 0 {
            return false;
        }
        if thing_of(&self.things, Number(n)).is_some() {
            return true;
        }
        let Some(node) = contents.get(Number(n)) else {
            return false;
        };
        let kids = node.kids.as_slice();
        let mut rest = kids;
        while let [kid, after @ ..] = rest {
            if !self.has_good_parts(contents, kid.0, depth - 1) {
                return false;
            }
            rest = after;
        }
        has_form(contents, node.tag, node.text.as_slice(), kids)
    }

    /// Whether the number names a thing of this tag with good parts.
    fn is_good_thing(&self, contents: &Contents, m: Number, tag: u8) -> bool
        ensures { (stored : Stored) → StandsFor self.now contents.now stored → Says result (Stands contents.now m) (is_good_thing stored tag) }
    {
        let Some(node) = contents.get(m) else {
            return false;
        };
        node.tag == tag && self.has_good_parts(contents, m.0, 18446744073709551616)
    }

    fn is_good_seen(&self, contents: &Contents, seen: &SeenRow) -> bool
        ensures { (stored : Stored) → StandsFor self.now contents.now stored → Says result (SeenIs (Stands contents.now) seen.now) (is_good_content stored) }
    {
        match seen {
            SeenRow::Bytes(n) => self.is_good_thing(contents, *n, 0),
            SeenRow::TooLarge => true,
        }
    }

    fn is_good_outcome(&self, contents: &Contents, outcome: &OutcomeRow) -> bool
        ensures { (stored : Stored) → StandsFor self.now contents.now stored → Says result (OutcomeIs (Stands contents.now) outcome.now) (is_good_outcome stored) }
    {
        match outcome {
            OutcomeRow::Done(n) => self.is_good_thing(contents, *n, 3),
            OutcomeRow::Failed(_) => true,
        }
    }

    fn is_good_result(&self, contents: &Contents, came: &JobResult) -> bool
        ensures { (stored : Stored) → StandsFor self.now contents.now stored → Says result (ResultIs (Stands contents.now) came.now) (is_good_result stored) }
    {
        match came {
            JobResult::Processed { input, outcome } => {
                if !self.is_good_thing(contents, *input, 2) {
                    return false;
                }
                self.is_good_outcome(contents, outcome)
            }
            JobResult::Cycle => true,
            JobResult::Missing(job) => is_folded_job(job),
            JobResult::DepFailed(job) => is_folded_job(job),
        }
    }

    fn is_lawful_source(&self, contents: &Contents, row: &SourceRow) -> bool
        ensures { (stored : Stored) (tables : PlainTables) → StandsFor self.now contents.now stored → Says result (ItemIs (Stands contents.now) (PutSource row.now)) (is_lawful_item stored tables) }
    {
        if !is_folded(&row.path) {
            return false;
        }
        self.is_good_seen(contents, &row.seen)
    }

    fn is_lawful_create(&self, contents: &Contents, row: &CreateRow) -> bool
        ensures { (stored : Stored) (tables : PlainTables) → StandsFor self.now contents.now stored → Says result (ItemIs (Stands contents.now) (PutCreate row.now)) (is_lawful_item stored tables) }
    {
        if !is_folded(&row.source) {
            return false;
        }
        if !self.is_good_thing(contents, row.input, 1) {
            return false;
        }
        is_folded_created(&row.created)
    }

    fn is_lawful_job(&self, contents: &Contents, row: &JobRow) -> bool
        ensures { (stored : Stored) (tables : PlainTables) → StandsFor self.now contents.now stored → Says result (ItemIs (Stands contents.now) (PutJob row.now)) (is_lawful_item stored tables) }
    {
        if !is_folded_job(&row.id) {
            return false;
        }
        self.is_good_result(contents, &row.result)
    }

    /// Whether there is a row of this path after these items.
    fn source_there(&self, contents: &Contents, before: &[Item], path: &RelPath) -> bool
        requires { (stored : Stored) × StandsFor self.now contents.now stored }
        ensures { (stored : Stored) (plain : List PlainItem) → StandsFor self.now contents.now stored → AreAll (ItemIs (Stands contents.now)) before.now plain
            → result ≡ is_some (source_row_at (fold after_plain stored.tables plain) path.now) }
    {
        source_after(before, path, has_source(&self.tables.sources, path))
    }

    /// As `source_there`, of a create row.
    fn create_there(&self, contents: &Contents, before: &[Item], source: &RelPath) -> bool
        requires { (stored : Stored) × StandsFor self.now contents.now stored }
        ensures { (stored : Stored) (plain : List PlainItem) → StandsFor self.now contents.now stored → AreAll (ItemIs (Stands contents.now)) before.now plain
            → result ≡ is_some (create_row_at (fold after_plain stored.tables plain) source.now) }
    {
        create_after(before, source, has_create(&self.tables.creates, source))
    }

    /// As `source_there`, of a job's row.
    fn job_there(&self, contents: &Contents, before: &[Item], id: &JobId) -> bool
        requires { (stored : Stored) × StandsFor self.now contents.now stored }
        ensures { (stored : Stored) (plain : List PlainItem) → StandsFor self.now contents.now stored → AreAll (ItemIs (Stands contents.now)) before.now plain
            → result ≡ is_some (job_row_at (fold after_plain stored.tables plain) id.now) }
    {
        job_after(before, id, has_job(&self.tables.jobs, id))
    }

    /// Whether an item may come behind these.
    fn is_lawful_item(&self, contents: &Contents, before: &[Item], item: &Item) -> bool
        requires { (stored : Stored) × StandsFor self.now contents.now stored }
        ensures { (stored : Stored) (plain : List PlainItem) → StandsFor self.now contents.now stored → AreAll (ItemIs (Stands contents.now)) before.now plain
            → Says result (ItemIs (Stands contents.now) item.now) (is_lawful_item stored (fold after_plain stored.tables plain)) }
    {
        match item {
            Item::Define { .. } => false,
            Item::Drop(_) => false,
            Item::PutSource(row) => self.is_lawful_source(contents, row),
            Item::RemoveSource(path) => self.source_there(contents, before, path),
            Item::PutCreate(row) => self.is_lawful_create(contents, row),
            Item::RemoveCreate(source) => self.create_there(contents, before, source),
            Item::PutJob(row) => self.is_lawful_job(contents, row),
            Item::RemoveJob(id) => self.job_there(contents, before, id),
            Item::PutFolders(rows) => do_orders_rise(rows.as_slice()),
        }
    }

    /// Whether a commit takes this change: it has no `Define` and no `Drop`, each number that it names is live
    /// and of the right tag, each thing at or below it that the file lacks has the form of its tag, removed rows are
    /// there when their turn comes, paths are folded and the orders of folders rise. It takes no memory. Each
    /// removed row costs a look at the items before it, and each path down to a thing that the file lacks is
    /// walked.
    pub(crate) fn lawful(&self, contents: &Contents, change: &Change) -> bool
        requires { (stored : Stored) × StandsFor self.now contents.now stored }
        ensures { (stored : Stored) → StandsFor self.now contents.now stored → Says result (AreAll (ItemIs (Stands contents.now)) change.now.items) (is_lawful stored) }
    {
        let items = change.items.as_slice();
        let mut at = 0;
        while at < items.len() {
            if !self.is_lawful_item(contents, &items[..at], &items[at]) {
                return false;
            }
            at += 1;
        }
        true
    }
}
