ghost use Rattle.std.specs.Prelude.{◌<◌, length, IfOk, OnOk, All};
ghost use Rattle.ap_graph.specs.Rows.{IsClosed, IsReverse, AddsBack};

use crate::arrows::Arrows;
use ap_text::OutOfMemory;
use std::alloc::Global;

/// The arrows the other way round.
pub(crate) fn reverse(alloc: Global, arrows: &Arrows) -> Result<Arrows, OutOfMemory>
    requires { IsClosed arrows.now }
    ensures { IfOk result (λ back. IsReverse arrows.now back) }
{
    let mut back = Arrows::new(alloc, arrows.len())?;
    for from in 0..arrows.len() {
        add_back(&mut back, arrows.row(from), from)?;
    }
    Ok(back)
}

/// An arrow from each of the targets to the number that leads to it.
fn add_back(back: &mut Arrows, targets: &[usize], from: usize) -> Result<(), OutOfMemory>
    requires { All (λ target. target < length back.old) targets.now }
    ensures { OnOk result (AddsBack back.old back.new from targets.now) }
{
    for target in targets {
        back.add(*target, from)?;
    }
    Ok(())
}
