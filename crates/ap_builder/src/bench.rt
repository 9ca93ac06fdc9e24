ghost use Rattle.std.specs.Prelude.{◌≡◌, ◌++◌, [], ◌∷◌, IfOk, OnOk, OnErr};

use crate::entry::Entry;
use ap_text::OutOfMemory;
use std::alloc::Global;
use std::marker::{Model, PhantomData};

/// The leave to ask a builder for one piece of work, which contracts see as that work's entry. Only
/// `Bench::permit` makes one, and the call that takes it spends it. It may be dropped unspent.
#[derive(Drop)]
pub struct Permit<P> {
    entry: Entry,
    pass: PhantomData<P>,
}

impl<P> Model for Permit<P> {
    ghost use Rattle.ap_builder.specs.declared.entry.Entry.{Entry};

    ghost Value = { Entry };

    ghost view = { λ p. p.entry };
}

impl<P> Permit<P> {
    pub fn entry(&self) -> &Entry
        ensures { result.now ≡ self.now }
    {
        &self.entry
    }
}

/// All work for which there was a permit, the oldest first, which contracts see as the list of its
/// entries. `P` marks the builders that take its permits.
#[derive(Drop)]
pub struct Bench<P> {
    alloc: Global,
    pass: P,
    issued: Vec<Entry>,
}

impl<P> Model for Bench<P> {
    ghost use Rattle.std.specs.Prelude.{List};
    ghost use Rattle.ap_builder.specs.declared.entry.Entry.{Entry};

    ghost Value = { List Entry };

    ghost view = { λ b. b.issued.items };
}

impl<P> Bench<P> {
    /// A bench that has given no permit. It takes no memory.
    pub fn new(alloc: Global, pass: P) -> Self
        ensures { result ≡ [] }
    {
        Bench {
            alloc,
            pass,
            issued: Vec::new(alloc),
        }
    }

    /// Lists the work, and gives the permit for it.
    pub fn permit(&mut self, entry: Entry) -> Result<Permit<P>, OutOfMemory>
        ensures permit { IfOk result (λ permit. permit ≡ entry) }
        ensures listed { OnOk result (self.new ≡ self.old ++ entry ∷ []) }
        ensures refused { OnErr result (self.new ≡ self.old) }
    {
        let copy = entry.copy(self.alloc)?;
        self.issued.push(copy)?;
        Ok(Permit {
            entry,
            pass: PhantomData,
        })
    }

    pub fn issued(&self) -> &[Entry]
        ensures { result.now ≡ self.now }
    {
        &self.issued
    }
}
