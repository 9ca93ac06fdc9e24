ghost use Rattle.std.specs.Prelude.{◌≡◌, ◌<◌, length, Contains};
ghost use Rattle.std.specs.List.Sorted.{IsStrictlySortedBy};
ghost use Rattle.ap_text.specs.JobOrder.{job_cmp};
ghost use Rattle.ap_graph.specs.Ids.{name_at};

use ap_text::JobId;

/// The place of an id in a list that rises and has it.
pub(crate) fn place_of(ids: &[JobId], id: &JobId) -> usize
    requires rises { IsStrictlySortedBy job_cmp ids.now }
    requires has { Contains ids.now id.now }
    ensures within { result < length ids.now }
    ensures named { name_at ids.now result ≡ id.now }
{
    ids.binary_search_by(|other| other.cmp(id)).unwrap()
}
