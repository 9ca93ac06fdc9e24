ghost use Rattle.std.specs.Prelude.{◌≡◌, ◌≢◌, ℕ, ◌+◌, ◌<◌, [], ◌∷◌, ◌++◌, length, Some, None, IsSome, IfSome, IfNone, IfOk, OnErr, vec_capacity};
ghost use Rattle.slab.specs.Slab.{get};
ghost use Rattle.sha1.specs.Sha1.{sha1};
ghost use Rattle.ap_content.specs.Things.{digested};
ghost use Rattle.ap_content.specs.Counting.{kid_times, living, total};
ghost use Rattle.ap_content.specs.Entries.{Gains, Loses, holds_at};
ghost use Rattle.ap_content.specs.declared.slots.Interned.{Interned};

use crate::index::Index;
use crate::node::{Node, Number};
use crate::slots::{
    Interned, add_hold, digest_of, has_node, has_room, lower_all, raise_all, release_hold,
};
use ap_text::OutOfMemory;
use slab::Slab;
use std::alloc::Global;

/// The things that live, under their numbers, with what finds them.
#[derive(Drop)]
pub(crate) struct Arena {
    pub(crate) slots: Slab<Interned>,
    pub(crate) index: Index,
    // What has neither a hold nor a parent and has yet to be taken out. It has room for all things.
    pub(crate) dying: Vec<usize>,
}

impl Arena {
    ghost use Rattle.ap_content.specs.Finding.{Finds};
    ghost use Rattle.ap_content.specs.Sound.{IsSound, IsLinked, IsListed, HasNode, Thins, entries, number, kid_digests};

    pub(crate) fn new(alloc: Global) -> Self
        ensures sound { IsSound result }
        ensures empty { entries result.slots ≡ [] }
    {
        Arena {
            slots: Slab::new(alloc),
            index: Index::new(alloc),
            dying: Vec::new(alloc),
        }
    }

    /// The number of this thing, if it lives. Only things with its digest are compared with it.
    fn find(&self, digest: &[u8; 20], tag: u8, text: &[u8], kids: &[Number]) -> Option<usize>
        requires { (n : ℕ) (x : Interned) → get self.now.slots n ≡ Some x → Finds self.now.index x.digest n }
        ensures found { IfSome result
            (λ n. HasNode self.now.slots n (record { tag = tag; text = text.now; kids = kids.now })) }
        ensures absent { IfNone result
            ((n : ℕ) (x : Interned) → get self.now.slots n ≡ Some x → x.digest ≡ digest.now
            → x.node ≢ record { tag = tag; text = text.now; kids = kids.now }) }
    {
        if let Some(n) = self.index.first(digest) {
            if has_node(&self.slots, n, tag, text, kids) {
                return Some(n);
            }
        }
        let mut rest = self.index.clashes();
        while let [clash, after @ ..] = rest {
            if has_node(&self.slots, clash.1, tag, text, kids) {
                return Some(clash.1);
            }
            rest = after;
        }
        None
    }

    /// Adds a thing that doesn't live yet, with one hold.
    fn add(
        &mut self,
        alloc: Global,
        digest: [u8; 20],
        tag: u8,
        text: &[u8],
        kids: &[Number],
    ) -> Result<usize, OutOfMemory>
        requires sound { IsSound self.old }
        requires kids_live { (k : ℕ) → 0 < kid_times k kids.now → IsSome (get self.old.slots k) }
        requires digest { digest ≡ sha1 (digested tag text.now (length kids.now) (kid_digests self.old.slots kids.now)) }
        requires absent { (n : ℕ) (x : Interned) → get self.old.slots n ≡ Some x
            → x.node ≢ record { tag = tag; text = text.now; kids = kids.now } }
        ensures sound { IsSound self.new }
        ensures gains { IfOk result (λ n. Gains (entries self.old.slots) (entries self.new.slots) (number n)
            (record { tag = tag; text = text.now; kids = kids.now })) }
        ensures refused { OnErr result (entries self.new.slots ≡ entries self.old.slots) }
    {
        if !has_room(&self.slots, kids) {
            return Err(OutOfMemory);
        }
        let node = Node::of(alloc, tag, text, kids)?;
        self.slots.reserve(1)?;
        self.dying.reserve(self.slots.capacity())?;
        let n = self.slots.vacant_key();
        self.index.add(digest, n)?;
        self.slots.insert_reserved(Interned {
            node,
            digest,
            holds: 1,
            parents: 0,
        });
        raise_all(&mut self.slots, kids);
        Ok(n)
    }

    /// The number of this thing, with one hold more.
    pub(crate) fn intern(
        &mut self,
        alloc: Global,
        tag: u8,
        text: &[u8],
        kids: &[Number],
    ) -> Result<usize, OutOfMemory>
        requires sound { IsSound self.old }
        requires kids_live { (k : ℕ) → 0 < kid_times k kids.now → IsSome (get self.old.slots k) }
        ensures sound { IsSound self.new }
        ensures gains { IfOk result (λ n. Gains (entries self.old.slots) (entries self.new.slots) (number n)
            (record { tag = tag; text = text.now; kids = kids.now })) }
        ensures refused { OnErr result (entries self.new.slots ≡ entries self.old.slots) }
    {
        let digest = digest_of(&self.slots, tag, text, kids);
        if let Some(n) = self.find(&digest, tag, text, kids) {
            self.hold(n);
            return Ok(n);
        }
        self.add(alloc, digest, tag, text, kids)
    }

    /// Counts one hold more on what lives.
    pub(crate) fn hold(&mut self, n: usize)
        requires sound { IsSound self.old }
        requires lives { IsSome (get self.old.slots n) }
        ensures sound { IsSound self.new }
        ensures gains { (x : Interned) → get self.old.slots n ≡ Some x
            → Gains (entries self.old.slots) (entries self.new.slots) (number n) x.node }
    {
        add_hold(&mut self.slots, n);
    }

    /// Takes out what has neither a hold nor a parent, and lists those of its kids that have none left.
    fn take_out(&mut self, n: usize)
        requires linked { IsLinked self.old.slots self.old.index }
        requires listed { IsListed self.old.slots (self.old.dying.items ++ n ∷ []) (vec_capacity self.old.dying) }
        ensures linked { IsLinked self.new.slots self.new.index }
        ensures listed { IsListed self.new.slots self.new.dying.items (vec_capacity self.new.dying) }
        ensures fewer { total living self.new.slots.slots + 1 ≡ total living self.old.slots.slots }
        ensures thins { Thins self.old.slots self.new.slots }
    {
        let interned = self.slots.remove(n);
        self.index.forget(&interned.digest, n);
        lower_all(
            &mut self.slots,
            &mut self.dying,
            interned.node.kids.as_slice(),
        );
    }

    /// Takes out all that has neither a hold nor a parent.
    fn take_out_all(&mut self)
        requires linked { IsLinked self.old.slots self.old.index }
        requires listed { IsListed self.old.slots self.old.dying.items (vec_capacity self.old.dying) }
        ensures sound { IsSound self.new }
        ensures thins { Thins self.old.slots self.new.slots }
    {
        while let Some(n) = self.dying.pop() {
            self.take_out(n);
        }
    }

    /// Counts one hold less on what has one, and takes out what then has neither a hold nor a parent.
    pub(crate) fn release(&mut self, n: usize)
        requires sound { IsSound self.old }
        requires held { 0 < holds_at (entries self.old.slots) (number n) }
        ensures sound { IsSound self.new }
        ensures loses { Loses (entries self.old.slots) (entries self.new.slots) (number n) }
    {
        release_hold(&mut self.slots, &mut self.dying, n);
        self.take_out_all();
    }
}
