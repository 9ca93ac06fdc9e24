ghost use Rattle.std.specs.Prelude.{◌≡◌, ◌<◌, length, OnOk, All};
ghost use Rattle.ap_graph.specs.Rows.{IsClosed};
ghost use Rattle.ap_graph.specs.Groups.{MovesReached};

use crate::arrows::Arrows;
use ap_text::OutOfMemory;
use std::alloc::Global;

/// Moves a number, and all that it leads to within its group, into a group that is new.
pub(crate) fn move_reached(
    alloc: Global,
    arrows: &Arrows,
    group: &mut [usize],
    start: usize,
    to: usize,
) -> Result<(), OutOfMemory>
    requires closed { IsClosed arrows.now }
    requires places { length group.old ≡ length arrows.now }
    requires start { start < length group.old }
    requires new { All (λ g. g < to) group.old }
    ensures { OnOk result (MovesReached arrows.now start to group.old group.new) }
{
    let from = group[start];
    group[start] = to;
    let mut stack = Vec::new(alloc);
    stack.push(start)?;
    while let Some(node) = stack.pop() {
        for target in arrows.row(node) {
            if group[*target] == from {
                group[*target] = to;
                stack.push(*target)?;
            }
        }
    }
    Ok(())
}
