ghost use Rattle.std.specs.Prelude.{◌≡◌, ◌<◌, ℕ, false, length, slice_index, slice_index_or, All, IfOk, OnOk};
ghost use Rattle.ap_graph.specs.Rows.{IsClosed, IsReverse};
ghost use Rattle.ap_graph.specs.Groups.{AreParts, IsWhole, TellsInside, TellsCycles, leads_into_lem};

use crate::arrows::Arrows;
use crate::order::finishing_order;
use crate::reverse::reverse;
use crate::search::move_reached;
use ap_text::OutOfMemory;
use std::alloc::Global;

/// For each number, whether a chain of arrows leads from it back to it.
///
/// The groups begin as one, and numbers that lead to one another stay together at each step: the root's
/// group is parted into what leads to the root, what of that the root leads to, and the rest. The second
/// part is whole: all its members lead to one another. Any order of the roots gives the same answer. In this
/// one, the last first of those that a walk in depth leaves (Kosaraju's), each part is whole at once,
/// so each arrow is looked at a fixed number of times.
pub(crate) fn cycles(alloc: Global, arrows: &Arrows) -> Result<Vec<bool>, OutOfMemory>
    requires { IsClosed arrows.now }
    ensures { IfOk result (λ cyclic. TellsCycles arrows.now cyclic.items) }
{
    let back = reverse(alloc, arrows)?;
    let mut group = vec![in alloc; 0; arrows.len()]?;
    let mut whole = vec![in alloc; false]?;
    let mut order = finishing_order(alloc, arrows)?;
    while let Some(root) = order.pop() {
        if !whole[group[root]] {
            part(alloc, arrows, &back, &mut group, &mut whole, root)?;
        }
    }
    inside(alloc, arrows, &group)
}

/// Parts the group of a root, so that the root's new group is whole.
fn part(
    alloc: Global,
    arrows: &Arrows,
    back: &Arrows,
    group: &mut [usize],
    whole: &mut Vec<bool>,
    root: usize,
) -> Result<(), OutOfMemory>
    requires closed { IsClosed arrows.now }
    requires back { IsReverse arrows.now back.now }
    requires parts { AreParts arrows.now group.old whole.old.items }
    requires root { root < length group.old }
    requires open { slice_index_or whole.old.items (slice_index group.old root) false ≡ false }
    ensures parts { OnOk result (AreParts arrows.now group.new whole.new.items) }
    ensures keeps { OnOk result ((v : ℕ) → v < length group.old → IsWhole group.old whole.old.items v → IsWhole group.new whole.new.items v) }
    ensures root { OnOk result (IsWhole group.new whole.new.items root) }
{
    let leading = whole.len();
    whole.push(false)?;
    move_reached(alloc, back, group, root, leading)?;
    let strong = whole.len();
    whole.push(true)?;
    move_reached(alloc, arrows, group, root, strong)?;
    Ok(())
}

/// For each number, whether it leads into its own group.
fn inside(alloc: Global, arrows: &Arrows, group: &[usize]) -> Result<Vec<bool>, OutOfMemory>
    requires closed { IsClosed arrows.now }
    requires places { length group.now ≡ length arrows.now }
    ensures { IfOk result (λ inside. TellsInside arrows.now group.now inside.items) }
{
    let mut inside = Vec::with_capacity(alloc, arrows.len())?;
    for node in 0..arrows.len() {
        inside.push(leads_into(arrows.row(node), group, group[node]))?;
    }
    Ok(inside)
}

fn leads_into(targets: &[usize], group: &[usize], own: usize) -> bool
    requires { All (λ target. target < length group.now) targets.now }
    ensures { result ≡ leads_into_lem targets.now group.now own }
{
    for target in targets {
        if group[*target] == own {
            return true;
        }
    }
    false
}
