ghost use Rattle.std.specs.Prelude.{◌≡◌, ℕ, ◌<◌, List, [], IfOk, IfSome, OnErr, is_some, option_copied, Contains};
ghost use Rattle.ap_content.specs.Things.{Thing, Kids, thing, bytes_thing, no_kids, digest};
ghost use Rattle.ap_content.specs.Entries.{entry_at, node_at, holds_at, Lives, Stands, StandEach, IsTidy, Gains, Loses};
ghost use Rattle.ap_content.specs.declared.node.Number.{Number};

use crate::arena::Arena;
use crate::node::{Node, Number};
use ap_text::OutOfMemory;
use std::alloc::Global;
use std::marker::Model;

/// Things, each kept once. Contracts see the node and the holds under each number that lives.
///
/// A thing lives while a hold on it isn't released, or a thing that lives has it as a kid. Once neither
/// is so it dies, its kids with it where nothing else holds them, and its number may be given again. Holds
/// are counted up to 18446744073709551615, and a thing with so many lives for good.
#[derive(Drop)]
pub struct Contents {
    arena: Arena,
    alloc: Global,
}

impl Model for Contents {
    ghost use Rattle.std.specs.Prelude.{List, Option};
    ghost use Rattle.ap_content.specs.Entries.{Entry};
    ghost use Rattle.ap_content.specs.Sound.{entries, IsSound};

    ghost Value = { List (Option Entry) };

    ghost view = { λ c. entries c.arena.slots };

    ghost invariant = { λ c. IsSound c.arena };
}

impl Contents {
    /// Contents in which nothing lives. It takes no memory.
    pub fn new(alloc: Global) -> Self
        ensures empty { result ≡ [] }
        ensures tidy { IsTidy result }
    {
        Contents {
            arena: Arena::new(alloc),
            alloc,
        }
    }

    /// The number of the thing of these bytes, with one hold more. It costs the bytes and their digest.
    pub fn intern(&mut self, bytes: &[u8]) -> Result<Number, OutOfMemory>
        ensures thing { IfOk result (λ n. Stands self.new n (bytes_thing bytes.now)) }
        ensures gains { IfOk result
            (λ n. Gains self.old self.new n (record { tag = 0; text = bytes.now; kids = [] })) }
        ensures refused { OnErr result (self.new ≡ self.old) }
        ensures tidy { IsTidy self.new }
    {
        let n = self.arena.intern(self.alloc, 0, bytes, &[])?;
        Ok(Number(n as u64))
    }

    /// The number of the thing of this node, with one hold more. It costs the text, the kids and their
    /// digest. The thing keeps its kids alive by itself: the caller's holds on them may be released.
    pub fn intern_node(&mut self, node: &Node) -> Result<Number, OutOfMemory>
        requires { (k : Number) → Contains node.now.kids k → Lives self.old k }
        ensures thing { IfOk result (λ n. (kids : Kids) → StandEach self.old node.now.kids kids
            → Stands self.new n (thing node.now.tag node.now.text kids)) }
        ensures gains { IfOk result (λ n. Gains self.old self.new n node.now) }
        ensures refused { OnErr result (self.new ≡ self.old) }
        ensures tidy { IsTidy self.new }
    {
        let text = node.text.as_slice();
        let kids = node.kids.as_slice();
        let n = self.arena.intern(self.alloc, node.tag, text, kids)?;
        Ok(Number(n as u64))
    }

    /// The node of what lives under the number.
    pub fn get(&self, n: Number) -> Option<&Node>
        ensures node { option_copied result ≡ node_at self.now n }
        ensures tidy { IsTidy self.now }
    {
        match self.arena.slots.get(n.0 as usize) {
            Some(interned) => Some(&interned.node),
            None => None,
        }
    }

    /// Holds what lives under the number once more.
    pub fn hold(&mut self, n: Number)
        requires { Lives self.old n }
        ensures gains { IfSome (node_at self.old n) (Gains self.old self.new n) }
        ensures tidy { IsTidy self.new }
    {
        self.arena.hold(n.0 as usize);
    }

    /// Releases one hold. Where the thing dies it costs what dies with it, and needs no memory.
    pub fn release(&mut self, n: Number)
        requires { 0 < holds_at self.old n }
        ensures loses { Loses self.old self.new n }
        ensures tidy { IsTidy self.new }
    {
        self.arena.release(n.0 as usize);
    }

    /// The digest of what lives under the number: the SHA-1 of its tag byte, its text behind its length
    /// and its kids' digests behind their number, both as u64 in big-endian order. It is kept with the
    /// thing, so that asking for it costs nothing.
    pub fn digest(&self, n: Number) -> Option<[u8; 20]>
        ensures lives { is_some result ≡ is_some (entry_at self.now n) }
        ensures digest { IfSome result (λ d. (x : Thing) → Stands self.now n x → d ≡ digest x) }
    {
        match self.arena.slots.get(n.0 as usize) {
            Some(interned) => Some(interned.digest),
            None => None,
        }
    }
}
