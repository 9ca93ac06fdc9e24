ghost use Rattle.std.specs.Prelude.{◌≡◌, map};
ghost use Rattle.ap_rows.specs.Walks.{tag_at, has_none, a_kid, Leaves};

use ap_content::{Contents, Number};
use std::marker::Model;

/// Looks at the kids of a thing one after another. Contracts see the tags of those that are left, None for a
/// number that doesn't live.
#[derive(Drop)]
pub(crate) struct KidReader<'a> {
    contents: &'a Contents,
    left: &'a [Number],
}

impl<'a> Model for KidReader<'a> {
    ghost use Rattle.std.specs.Prelude.{List, Option, ℕ, map};
    ghost use Rattle.ap_rows.specs.Walks.{tag_at};

    ghost Value = { List (Option ℕ) };

    ghost view = { λ r. map (tag_at r.contents.now) r.left.now };
}

impl<'a> KidReader<'a> {
    pub(crate) fn new(contents: &'a Contents, kids: &'a [Number]) -> KidReader<'a>
        ensures { result ≡ map (tag_at contents.now) kids.now }
    {
        KidReader {
            contents,
            left: kids,
        }
    }

    /// Takes the next kid, where it has this tag.
    pub(crate) fn take(&mut self, tag: u8) -> Option<()>
        ensures { Leaves result (a_kid tag self.old) self.new }
    {
        let [kid, after @ ..] = self.left else {
            return None;
        };
        let node = self.contents.get(*kid)?;
        if node.tag != tag {
            return None;
        }
        self.left = after;
        Some(())
    }

    pub(crate) fn is_over(&self) -> bool
        ensures { result ≡ has_none self.now }
    {
        self.left.is_empty()
    }
}
