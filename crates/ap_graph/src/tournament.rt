ghost use Rattle.std.specs.Prelude.{◌≡◌, ◌<◌, ◌≤◌, ◌/◌, ℕ, true, false, length, replicate, slice_set, slice_index, slice_index_or, IfOk, IfSome, IfNone};
ghost use Rattle.ap_graph.specs.Contest.{first_of, goes_before, IsTreeBut};

use ap_text::OutOfMemory;
use std::alloc::Global;
use std::marker::Model;

/// A tournament tree over numbers with priorities, which contracts see as these and who takes part.
///
/// The first of those that take part is read at once; a change costs a walk from a leaf to the root.
#[derive(Drop)]
pub(crate) struct Tournament {
    priorities: Vec<i32>,
    /// Behind one unused place come the inner nodes and then the leaves: below `k` stand `2 * k` and
    /// `2 * k + 1`, and the root is 1. A node has the first number that takes part below it, or the count of
    /// all where none does.
    nodes: Vec<usize>,
}

impl Model for Tournament {
    ghost use Rattle.ap_graph.specs.Contest.{Contest, IsTree, entered_in};
    ghost use Rattle.std.specs.Prelude.{length};

    ghost Value = { Contest };

    ghost view = { λ t. record { priorities = t.priorities.items; entered = entered_in (length t.priorities.items) t.nodes.items } };

    ghost invariant = { λ t. IsTree t.priorities.items t.nodes.items };
}

impl Tournament {
    /// Nobody takes part yet.
    pub(crate) fn new(alloc: Global, priorities: Vec<i32>) -> Result<Self, OutOfMemory>
        ensures { IfOk result (λ tournament. tournament ≡ record { priorities = priorities.items; entered = replicate (length priorities.items) false }) }
    {
        let count = priorities.len();
        let nodes = vec![in alloc; count; 2 * count]?;
        Ok(Tournament { priorities, nodes })
    }

    /// Says whether a number takes part.
    pub(crate) fn set(&mut self, number: usize, takes_part: bool)
        requires { number < length self.old.priorities }
        ensures { self.new ≡ record self.old { entered = slice_set self.old.entered number takes_part } }
    {
        let count = self.priorities.len();
        let leaf = if takes_part { number } else { count };
        self.nodes[count + number] = leaf;
        raise(&self.priorities, &mut self.nodes, count + number);
    }

    /// The first of those that take part.
    pub(crate) fn first(&self) -> Option<usize>
        ensures none { IfNone result ((i : ℕ) → i < length self.now.priorities → slice_index_or self.now.entered i false ≡ false) }
        ensures within { IfSome result (λ i. i < length self.now.priorities) }
        ensures entered { IfSome result (λ i. slice_index_or self.now.entered i false ≡ true) }
        ensures first { IfSome result (λ i. (j : ℕ) → j < length self.now.priorities → slice_index_or self.now.entered j false ≡ true → goes_before self.now.priorities j i ≡ false) }
    {
        let count = self.priorities.len();
        match self.nodes.get(1) {
            Some(first) if *first < count => Some(*first),
            _ => None,
        }
    }
}

/// Decides anew from above a place whose number changed up to the root.
fn raise(priorities: &[i32], nodes: &mut [usize], from: usize)
    requires tree { IsTreeBut priorities.now nodes.old (from / 2) }
    requires from { from < length nodes.old }
    ensures tree { IsTreeBut priorities.now nodes.new 0 }
    ensures leaves { (k : ℕ) → length priorities.now ≤ k → slice_index nodes.new k ≡ slice_index nodes.old k }
{
    let mut at = from / 2;
    while at >= 1 {
        nodes[at] = winner(priorities, nodes[2 * at], nodes[2 * at + 1]);
        at /= 2;
    }
}

/// The first of two numbers, where the count of all stands for none.
fn winner(priorities: &[i32], a: usize, b: usize) -> usize
    requires a { a ≤ length priorities.now }
    requires b { b ≤ length priorities.now }
    ensures { result ≡ first_of priorities.now a b }
{
    let count = priorities.len();
    if a == count {
        return b;
    }
    if b == count {
        return a;
    }
    if before(priorities, b, a) { b } else { a }
}

/// Whether the first number goes before the second.
fn before(priorities: &[i32], a: usize, b: usize) -> bool
    requires a { a < length priorities.now }
    requires b { b < length priorities.now }
    ensures { result ≡ goes_before priorities.now a b }
{
    priorities[b].cmp(&priorities[a]).then(a.cmp(&b)).is_lt()
}
