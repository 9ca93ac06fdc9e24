//! The counts of parents in the slots of an arena.
ghost use Rattle.std.specs.Prelude.{◌≡◌, ◌≢◌, ◌↔◌, ℕ, ◌+◌, ◌<◌, ◌≤◌, ◌^◌, Some, IsTrue, length, vec_capacity};
ghost use Rattle.slab.specs.Slab.{get};
ghost use Rattle.ap_content.specs.Counting.{kid_times, raised, lowered, with_less, with_more, spent};
ghost use Rattle.ap_content.specs.Sound.{IsListed, HasNode, kid_digests};
ghost use Rattle.ap_content.specs.Things.{digested};
ghost use Rattle.sha1.specs.Sha1.{sha1};
ghost use Rattle.ap_content.specs.declared.slots.Interned.{Interned};

use crate::node::{Node, Number};
use sha1::Sha1;
use slab::Slab;

/// A thing that lives.
#[derive(Drop)]
pub(crate) struct Interned {
    pub(crate) node: Node,
    pub(crate) digest: [u8; 20],
    // The holds of callers.
    pub(crate) holds: u64,
    // How many times things that live have it as a kid.
    pub(crate) parents: u64,
}

/// Counts one parent more.
fn raise(slots: &mut Slab<Interned>, n: usize)
    requires { (x : Interned) → get slots.old n ≡ Some x → x.parents + 1 < 2 ^ 64 }
    ensures here { get slots.new n ≡ raised 1 (get slots.old n) }
    ensures others { (m : ℕ) → m ≢ n → get slots.new m ≡ get slots.old m }
{
    if let Some(interned) = slots.get_mut(n) {
        interned.parents += 1;
    }
}

/// Counts one parent more for each of the kids.
pub(crate) fn raise_all(slots: &mut Slab<Interned>, kids: &[Number])
    requires { (n : ℕ) (x : Interned) → get slots.old n ≡ Some x → x.parents + kid_times n kids.now < 2 ^ 64 }
    ensures { (n : ℕ) → get slots.new n ≡ raised (kid_times n kids.now) (get slots.old n) }
{
    let mut rest = kids;
    while let [kid, after @ ..] = rest {
        raise(slots, kid.0 as usize);
        rest = after;
    }
}

/// Whether each of the kids can have one parent more for each time that it is among them.
pub(crate) fn has_room(slots: &Slab<Interned>, kids: &[Number]) -> bool
    requires { (n : ℕ) (x : Interned) → get slots.now n ≡ Some x → x.parents < 2 ^ 64 }
    ensures { IsTrue result → (n : ℕ) (x : Interned) → get slots.now n ≡ Some x
        → x.parents + kid_times n kids.now < 2 ^ 64 }
{
    let most = u64::MAX - kids.len() as u64;
    let mut rest = kids;
    while let [kid, after @ ..] = rest {
        if let Some(interned) = slots.get(kid.0 as usize) {
            if interned.parents > most {
                return false;
            }
        }
        rest = after;
    }
    true
}

/// Counts one parent less, and says whether neither a hold nor a parent is left.
fn lower(slots: &mut Slab<Interned>, n: usize) -> bool
    requires { (x : Interned) → get slots.old n ≡ Some x → 0 < x.parents }
    ensures here { get slots.new n ≡ lowered 1 (get slots.old n) }
    ensures others { (m : ℕ) → m ≢ n → get slots.new m ≡ get slots.old m }
    ensures left { IsTrue result ↔ (spent (get slots.new n) ≡ 1) }
{
    match slots.get_mut(n) {
        Some(interned) => {
            interned.parents -= 1;
            interned.holds == 0 && interned.parents == 0
        }
        None => false,
    }
}

/// Counts one hold less, unless there are as many as can be counted, and says whether neither a hold nor a
/// parent is left.
fn lower_holds(slots: &mut Slab<Interned>, n: usize) -> bool
    requires { (x : Interned) → get slots.old n ≡ Some x → 0 < x.holds }
    ensures here { get slots.new n ≡ with_less (get slots.old n) }
    ensures others { (m : ℕ) → m ≢ n → get slots.new m ≡ get slots.old m }
    ensures left { IsTrue result ↔ (spent (get slots.new n) ≡ 1) }
{
    match slots.get_mut(n) {
        Some(interned) => {
            if interned.holds < u64::MAX {
                interned.holds -= 1;
            }
            interned.holds == 0 && interned.parents == 0
        }
        None => false,
    }
}

/// Counts one parent less for a kid that lives, and lists it where nothing holds it any more.
fn lower_and_list(slots: &mut Slab<Interned>, dying: &mut Vec<usize>, n: usize)
    requires parents { (x : Interned) → get slots.old n ≡ Some x → 0 < x.parents }
    requires listed { IsListed slots.old dying.old.items (vec_capacity dying.old) }
    ensures here { get slots.new n ≡ lowered 1 (get slots.old n) }
    ensures others { (m : ℕ) → m ≢ n → get slots.new m ≡ get slots.old m }
    ensures listed { IsListed slots.new dying.new.items (vec_capacity dying.new) }
{
    if lower(slots, n) {
        dying.push_reserved(n);
    }
}

/// Counts one parent less for each of the kids, and lists those that nothing holds any more.
pub(crate) fn lower_all(slots: &mut Slab<Interned>, dying: &mut Vec<usize>, kids: &[Number])
    requires parents { (n : ℕ) (x : Interned) → get slots.old n ≡ Some x
        → kid_times n kids.now ≤ x.parents }
    requires listed { IsListed slots.old dying.old.items (vec_capacity dying.old) }
    ensures lowered { (n : ℕ) → get slots.new n ≡ lowered (kid_times n kids.now) (get slots.old n) }
    ensures listed { IsListed slots.new dying.new.items (vec_capacity dying.new) }
{
    let mut rest = kids;
    while let [kid, after @ ..] = rest {
        lower_and_list(slots, dying, kid.0 as usize);
        rest = after;
    }
}

/// Counts one hold less, and lists the number where nothing holds it any more.
pub(crate) fn release_hold(slots: &mut Slab<Interned>, dying: &mut Vec<usize>, n: usize)
    requires holds { (x : Interned) → get slots.old n ≡ Some x → 0 < x.holds }
    requires listed { IsListed slots.old dying.old.items (vec_capacity dying.old) }
    ensures here { get slots.new n ≡ with_less (get slots.old n) }
    ensures others { (m : ℕ) → m ≢ n → get slots.new m ≡ get slots.old m }
    ensures listed { IsListed slots.new dying.new.items (vec_capacity dying.new) }
{
    if lower_holds(slots, n) {
        dying.push_reserved(n);
    }
}

/// Counts one hold more, as far as holds are counted.
pub(crate) fn add_hold(slots: &mut Slab<Interned>, n: usize)
    ensures here { get slots.new n ≡ with_more (get slots.old n) }
    ensures others { (m : ℕ) → m ≢ n → get slots.new m ≡ get slots.old m }
{
    if let Some(interned) = slots.get_mut(n) {
        if interned.holds != u64::MAX {
            interned.holds += 1;
        }
    }
}

/// Whether the number's thing is the one of this tag, this text and these kids.
pub(crate) fn has_node(
    slots: &Slab<Interned>,
    n: usize,
    tag: u8,
    text: &[u8],
    kids: &[Number],
) -> bool
    ensures { IsTrue result
        ↔ HasNode slots.now n (record { tag = tag; text = text.now; kids = kids.now }) }
{
    match slots.get(n) {
        Some(interned) => interned.node.is(tag, text, kids),
        None => false,
    }
}

/// The digest of the thing of this tag, this text and these kids.
pub(crate) fn digest_of(slots: &Slab<Interned>, tag: u8, text: &[u8], kids: &[Number]) -> [u8; 20]
    ensures { result ≡ sha1 (digested tag text.now (length kids.now) (kid_digests slots.now kids.now)) }
{
    let mut hasher = Sha1::new();
    hasher.update(&[tag]);
    hasher.update(&(text.len() as u64).to_be_bytes());
    hasher.update(text);
    hasher.update(&(kids.len() as u64).to_be_bytes());
    let mut rest = kids;
    while let [kid, after @ ..] = rest {
        if let Some(interned) = slots.get(kid.0 as usize) {
            hasher.update(&interned.digest);
        }
        rest = after;
    }
    hasher.finalize()
}
