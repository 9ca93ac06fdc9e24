ghost use Rattle.std.specs.Prelude.{◌≡◌, ◌<◌, ◌≤◌, ◌+◌, ◌==◌, ℕ, false, length, slice_index, slice_index_or, slice_set, All};
ghost use Rattle.ap_graph.specs.Rows.{count_of};
ghost use Rattle.ap_graph.specs.Held.{MatchesWaits, can_start};
ghost use Rattle.ap_graph.specs.declared.node.Progress.TheVariants.{Pending};

use crate::node::Progress;
use crate::tournament::Tournament;

/// Lets each job that waits for nothing take part.
pub(crate) fn enter_free(waiting: &[usize], progress: &[Progress], ready: &mut Tournament)
    requires waiting { length waiting.now ≡ length ready.old.priorities }
    requires entries { length ready.old.entered ≡ length ready.old.priorities }
    requires progress { length progress.now ≡ length waiting.now }
    ensures priorities { ready.new.priorities ≡ ready.old.priorities }
    ensures entered { MatchesWaits progress.now waiting.now ready.new.entered }
{
    for place in 0..waiting.len() {
        enter_if_free(place, waiting, progress, ready);
    }
}

/// Each of the places waits for one job less, once for each time that it stands in the list.
pub(crate) fn release(
    dependents: &[usize],
    progress: &[Progress],
    waiting: &mut [usize],
    ready: &mut Tournament,
)
    requires within { All (λ place. place < length waiting.old) dependents.now }
    requires enough { (i : ℕ) → i < length waiting.old → count_of i dependents.now ≤ slice_index waiting.old i }
    requires priorities { length ready.old.priorities ≡ length waiting.old }
    requires progress { length progress.now ≡ length waiting.old }
    requires entered { MatchesWaits progress.now waiting.old ready.old.entered }
    ensures waiting { (i : ℕ) → i < length waiting.old → slice_index waiting.new i + count_of i dependents.now ≡ slice_index waiting.old i }
    ensures priorities { ready.new.priorities ≡ ready.old.priorities }
    ensures entered { MatchesWaits progress.now waiting.new ready.new.entered }
{
    for place in dependents {
        waiting[*place] -= 1;
        enter_if_free(*place, waiting, progress, ready);
    }
}

/// Lets a job take part, or not, as it stands.
fn enter_if_free(place: usize, waiting: &[usize], progress: &[Progress], ready: &mut Tournament)
    requires place { place < length waiting.now }
    requires priorities { length ready.old.priorities ≡ length waiting.now }
    requires progress { length progress.now ≡ length waiting.now }
    ensures { ready.new ≡ record ready.old { entered = slice_set ready.old.entered place (can_start (slice_index_or progress.now place Pending) (slice_index waiting.now place)) } }
{
    let free = waiting[place] == 0 && matches!(progress[place], Progress::Pending);
    ready.set(place, free);
}
