ghost use Rattle.std.specs.Prelude.{◌≡◌, ◌<◌, [], ◌∷◌, ◌++◌, length, replicate, slice_set, IfOk, OnOk};
ghost use Rattle.ap_graph.specs.Rows.{row_at};

use ap_text::OutOfMemory;
use std::alloc::Global;
use std::marker::Model;

/// Arrows between the numbers below a count, which contracts see as the list of those that each number
/// leads to.
#[derive(Drop)]
pub(crate) struct Arrows {
    rows: Vec<Vec<usize>>,
}

impl Model for Arrows {
    ghost use Rattle.std.specs.Prelude.{List, ℕ, map};

    ghost Value = { List (List ℕ) };

    ghost view = { λ a. map (λ row. row.items) a.rows.items };
}

impl Arrows {
    /// So many numbers, and no arrow.
    pub(crate) fn new(alloc: Global, count: usize) -> Result<Self, OutOfMemory>
        ensures { IfOk result (λ arrows. arrows ≡ replicate count []) }
    {
        let mut rows = Vec::with_capacity(alloc, count)?;
        for _ in 0..count {
            rows.push(Vec::new(alloc))?;
        }
        Ok(Arrows { rows })
    }

    /// No number yet.
    pub(crate) fn empty(alloc: Global) -> Self
        ensures { result ≡ [] }
    {
        Arrows {
            rows: Vec::new(alloc),
        }
    }

    /// One number more, which leads to these.
    pub(crate) fn push(&mut self, targets: Vec<usize>) -> Result<(), OutOfMemory>
        ensures { OnOk result (self.new ≡ self.old ++ targets.items ∷ []) }
    {
        self.rows.push(targets)?;
        Ok(())
    }

    pub(crate) fn len(&self) -> usize
        ensures { result ≡ length self.now }
    {
        self.rows.len()
    }

    pub(crate) fn row(&self, from: usize) -> &[usize]
        requires { from < length self.now }
        ensures { result.now ≡ row_at self.now from }
    {
        &self.rows[from]
    }

    pub(crate) fn add(&mut self, from: usize, to: usize) -> Result<(), OutOfMemory>
        requires { from < length self.old }
        ensures { OnOk result (self.new ≡ slice_set self.old from (row_at self.old from ++ to ∷ [])) }
    {
        self.rows[from].push(to)?;
        Ok(())
    }
}
