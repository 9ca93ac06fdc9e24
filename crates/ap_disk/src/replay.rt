ghost use Rattle.std.specs.Prelude.{◌≡◌, ◌≤◌, [], ◌∷◌, length, drop, IfSome, IfNone};
ghost use Rattle.ap_disk.specs.CallLog.{count_of, change_of};
ghost use Rattle.ap_disk.specs.History.{changed, end_of, Tears, TearsTo};

use crate::call::{Call, Step};
use crate::room_file::RoomFile;

/// The first of these calls, and the others.
pub(crate) fn next_call(calls: &[Call]) -> Option<(Call, &[Call])>
    ensures some { IfSome result (λ next. calls.now ≡ next.0 ∷ next.1.now) }
    ensures none { IfNone result (calls.now ≡ []) }
{
    match calls {
        [] => None,
        [call, later @ ..] => Some((*call, later)),
    }
}

/// The bytes behind the first ones.
pub(crate) fn bytes_behind(kept: &[u8], count: usize) -> &[u8]
    requires { count ≤ length kept.now }
    ensures { result.now ≡ drop count kept.now }
{
    &kept[count..]
}

/// How many recorded bytes a step has.
pub(crate) fn written(step: Step) -> usize
    ensures { result ≡ count_of step }
{
    match step {
        Step::Wrote { count, .. } => count,
        _ => 0,
    }
}

/// Leaves an image as a stop within a call, with the range of a write filled with one byte. The bytes of a
/// write are the first of those kept.
pub(crate) fn tear(image: &mut RoomFile, step: Step, kept: &[u8], fill: u8)
    requires counted { count_of step ≤ length kept.now }
    requires fits { end_of (change_of step kept.now) ≤ image.old.1 }
    ensures image { Tears (change_of step kept.now) image.old.0 image.new.0 }
    ensures room { image.new.1 ≡ image.old.1 }
{
    match step {
        Step::Nothing | Step::FailedCut { .. } | Step::Synced => {}
        Step::Wrote { at, count } => image.tear(at, kept[..count].len(), fill),
        Step::Tore { at, count } => image.tear(at, count, fill),
        Step::Cut { len } => image.cut(len),
    }
}

/// Does a call again, on the file and on an image of it.
pub(crate) fn replay(file: &mut RoomFile, image: &mut RoomFile, step: Step, kept: &[u8], fill: u8)
    requires counted { count_of step ≤ length kept.now }
    requires fits { end_of (change_of step kept.now) ≤ file.old.1 }
    requires room { image.old.1 ≡ file.old.1 }
    ensures file { file.new ≡ (changed (change_of step kept.now) file.old.0, file.old.1) }
    ensures image { TearsTo (change_of step kept.now) file.new.0 image.old.0 image.new.0 }
    ensures same_room { image.new.1 ≡ file.old.1 }
{
    match step {
        Step::Nothing => {}
        Step::Wrote { at, count } => {
            file.write(at, &kept[..count]);
            image.tear(at, kept[..count].len(), fill);
        }
        Step::Tore { at, count } => image.tear(at, count, fill),
        Step::Cut { len } => {
            file.cut(len);
            image.cut(len);
        }
        Step::FailedCut { .. } => {}
        Step::Synced => image.copy_from(file),
    }
}
