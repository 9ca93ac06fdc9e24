ghost use Rattle.std.specs.Prelude.{◌≡◌, ◌≢◌, ℕ, List, OnOk, OnErr, Some, nat_eq, filter, not, ◌==◌};
ghost use Rattle.std.specs.HashMap.{get};
ghost use Rattle.std.specs.Cmp.Lexicographic.{pointwise};

use ap_text::OutOfMemory;
use std::alloc::Global;
use std::collections::HashMap;

/// The numbers of things, by the digests of the things. Things with one digest may differ.
#[derive(Drop)]
pub(crate) struct Index {
    // One number under each digest.
    first: HashMap<[u8; 20], usize>,
    // The other numbers under a digest that has several. There is none, unless SHA-1 has collided.
    clashes: Vec<([u8; 20], usize)>,
}

impl Index {
    ghost use Rattle.ap_content.specs.Finding.{Finds, FindsSame, FindsToo, Forgets};

    pub(crate) fn new(alloc: Global) -> Self
        ensures { (d : List ℕ) (n : ℕ) → Finds result d n → ⊥ }
    {
        Index {
            first: HashMap::new(alloc),
            clashes: Vec::new(alloc),
        }
    }

    pub(crate) fn first(&self, digest: &[u8; 20]) -> Option<usize>
        ensures { result ≡ get (pointwise nat_eq) self.now.first digest.now }
    {
        self.first.get(digest).copied()
    }

    pub(crate) fn clashes(&self) -> &[([u8; 20], usize)]
        ensures { result.now ≡ self.now.clashes.items }
    {
        &self.clashes
    }

    /// Has the number be found under the digest.
    pub(crate) fn add(&mut self, digest: [u8; 20], n: usize) -> Result<(), OutOfMemory>
        ensures added { OnOk result (FindsToo self.old self.new digest n) }
        ensures refused { OnErr result (FindsSame self.old self.new) }
    {
        if self.first.contains_key(&digest) {
            self.clashes.push((digest, n))?;
            return Ok(());
        }
        self.first.insert(digest, n)?;
        Ok(())
    }

    /// Has the number, which no other digest finds, be found no more.
    pub(crate) fn forget(&mut self, digest: &[u8; 20], n: usize)
        requires { (d : List ℕ) → Finds self.old d n → d ≡ digest.now }
        ensures { Forgets self.old self.new n }
    {
        forget_first(&mut self.first, digest, n);
        forget_clashes(&mut self.clashes, n);
    }
}

fn forget_first(first: &mut HashMap<[u8; 20], usize>, digest: &[u8; 20], n: usize)
    ensures gone { get (pointwise nat_eq) first.new digest.now ≢ Some n }
    ensures still { (d : List ℕ) (m : ℕ) → m ≢ n → get (pointwise nat_eq) first.old d ≡ Some m
        → get (pointwise nat_eq) first.new d ≡ Some m }
    ensures only { (d : List ℕ) (m : ℕ) → get (pointwise nat_eq) first.new d ≡ Some m
        → get (pointwise nat_eq) first.old d ≡ Some m }
{
    if let Some(m) = first.get(digest) {
        if *m == n {
            first.remove(digest);
        }
    }
}

fn forget_clashes(clashes: &mut Vec<([u8; 20], usize)>, n: usize)
    ensures { clashes.new.items ≡ filter (λ clash. not (clash.1 == n)) clashes.old.items }
{
    clashes.retain(|clash| clash.1 != n);
}
