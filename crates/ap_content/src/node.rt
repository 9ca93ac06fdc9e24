ghost use Rattle.std.specs.Prelude.{◌≡◌, ◌↔◌, IsTrue, IfOk};

use ap_text::{Bytes, List, OutOfMemory};
use std::alloc::Global;

/// The name of a thing in a `Contents`. Once the thing has died, the number may name another one.
#[derive(Clone, Copy, Debug, PartialEq, Eq)]
pub struct Number(pub u64);

/// A thing, whose kids are named by their numbers.
#[derive(Drop)]
pub struct Node {
    /// What the thing is, as 0 for a text of bytes.
    pub tag: u8,
    pub text: Bytes,
    pub kids: List<Number>,
}

impl Node {
    /// A node of this tag and copies of this text and these kids.
    pub(crate) fn of(
        alloc: Global,
        tag: u8,
        text: &[u8],
        kids: &[Number],
    ) -> Result<Node, OutOfMemory>
        ensures { IfOk result
            (λ node. node ≡ record { tag = tag; text = text.now; kids = kids.now }) }
    {
        Ok(Node {
            tag,
            text: Bytes::of(text.to_vec(alloc)?),
            kids: List::of(kids.to_vec(alloc)?),
        })
    }

    /// Whether the thing is one of this tag, this text and these kids.
    pub(crate) fn is(&self, tag: u8, text: &[u8], kids: &[Number]) -> bool
        ensures { IsTrue result ↔ (self.now ≡ record { tag = tag; text = text.now; kids = kids.now }) }
    {
        if self.tag != tag {
            return false;
        }
        if self.text.as_slice() != text {
            return false;
        }
        self.kids.as_slice() == kids
    }
}
