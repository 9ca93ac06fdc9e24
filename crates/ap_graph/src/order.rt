ghost use Rattle.std.specs.Prelude.{◌≡◌, ◌<◌, ◌++◌, ℕ, true, length, map, slice_set, All, Contains, IfOk, OnOk};
ghost use Rattle.ap_graph.specs.Rows.{row_at, IsClosed};
ghost use Rattle.ap_graph.specs.Visits.{entered, IsWithin};
ghost use Rattle.ap_graph.specs.declared.order.Visit.TheVariants.{Enter};

use crate::arrows::Arrows;
use ap_text::OutOfMemory;
use std::alloc::Global;

/// A step of a walk in depth.
#[derive(Clone, Copy)]
pub(crate) enum Visit {
    /// To enter a number, unless it was entered before.
    Enter(usize),
    /// To leave it, once all that it leads to was entered.
    Leave(usize),
}

/// All numbers, in the order in which a walk in depth leaves them.
pub(crate) fn finishing_order(alloc: Global, arrows: &Arrows) -> Result<Vec<usize>, OutOfMemory>
    requires { IsClosed arrows.now }
    ensures all { IfOk result (λ order. (v : ℕ) → v < length arrows.now → Contains order.items v) }
    ensures only { IfOk result (λ order. All (λ v. v < length arrows.now) order.items) }
{
    let mut seen = vec![in alloc; false; arrows.len()]?;
    let mut order = Vec::with_capacity(alloc, arrows.len())?;
    let mut stack = all_to_enter(alloc, arrows.len())?;
    while let Some(visit) = stack.pop() {
        match visit {
            Visit::Enter(node) => enter(arrows, node, &mut seen, &mut stack)?,
            Visit::Leave(node) => order.push(node)?,
        }
    }
    Ok(order)
}

fn all_to_enter(alloc: Global, count: usize) -> Result<Vec<Visit>, OutOfMemory>
    ensures all { IfOk result (λ stack. (v : ℕ) → v < count → Contains stack.items (Enter v)) }
    ensures only { IfOk result (λ stack. All (IsWithin count) stack.items) }
{
    let mut stack = Vec::with_capacity(alloc, count)?;
    for node in 0..count {
        stack.push(Visit::Enter(node))?;
    }
    Ok(stack)
}

/// Enters a number that wasn't entered yet: its targets are to be entered, and then it is to be left.
fn enter(
    arrows: &Arrows,
    node: usize,
    seen: &mut [bool],
    stack: &mut Vec<Visit>,
) -> Result<(), OutOfMemory>
    requires node { node < length arrows.now }
    requires places { length seen.old ≡ length arrows.now }
    ensures seen { OnOk result (seen.new ≡ slice_set seen.old node true) }
    ensures stack { OnOk result (stack.new.items ≡ entered arrows.now seen.old stack.old.items node) }
{
    if seen[node] {
        return Ok(());
    }
    seen[node] = true;
    stack.push(Visit::Leave(node))?;
    enter_all(arrows.row(node), stack)
}

fn enter_all(targets: &[usize], stack: &mut Vec<Visit>) -> Result<(), OutOfMemory>
    ensures { OnOk result (stack.new.items ≡ stack.old.items ++ map Enter targets.now) }
{
    for target in targets {
        stack.push(Visit::Enter(*target))?;
    }
    Ok(())
}
