//! The database's holds on the things of the file, once a commit stands.
ghost use Rattle.std.specs.Prelude.{◌≡◌, ◌<◌, ◌≤◌, ℕ, List, map};
ghost use Rattle.ap_content.specs.Things.{Thing};
ghost use Rattle.ap_content.specs.Entries.{IsTidy, Lives, Stands, holds_at};
ghost use Rattle.ap_content.specs.declared.node.Number.{Number};
ghost use Rattle.ap_db.specs.declared.state.State.{State};
ghost use Rattle.ap_db.specs.Commit.{PlainItem, after_commit};
ghost use Rattle.ap_db.specs.Members.{Has};
ghost use Rattle.ap_db.specs.Naming.{times_of};
ghost use Rattle.ap_db.specs.Planned.{IsSettled, AreHeldBeside, HoldsFollow, more_by, fewer_by};
ghost use Rattle.ap_db.specs.States.{StandsFor, AreHeld};
ghost use Rattle.ap_db.specs.Stored.{Stored};
ghost use Rattle.ap_db.specs.TakenOut.{number_here};

use crate::drops::Dropped;
use crate::state::State;
use ap_content::{Contents, Number};

/// Takes a hold on each of these numbers.
fn hold_all(contents: &mut Contents, ns: &[Number])
    requires live { (m : Number) → Has ns.now m → Lives contents.old m }
    requires was_tidy { IsTidy contents.old }
    ensures exact { (m : Number) → holds_at contents.new m ≡ more_by (times_of ns.now m) (holds_at contents.old m) }
    ensures stood { (m : Number) (x : Thing) → Stands contents.old m x → Stands contents.new m x }
    ensures tidy { IsTidy contents.new }
{
    let mut rest = ns;
    while let [m, after @ ..] = rest {
        contents.hold(*m);
        rest = after;
    }
}

/// Releases a hold on the number of each of these things.
fn release_all(contents: &mut Contents, dropped: &[Dropped])
    requires held { (m : Number) → times_of (map number_here dropped.now) m ≤ holds_at contents.old m }
    requires was_tidy { IsTidy contents.old }
    ensures exact { (m : Number) → holds_at contents.new m ≡ fewer_by (times_of (map number_here dropped.now) m) (holds_at contents.old m) }
    ensures stood { (m : Number) (x : Thing) → Stands contents.old m x → Lives contents.new m → Stands contents.new m x }
    ensures tidy { IsTidy contents.new }
{
    let mut rest = dropped;
    while let [thing, after @ ..] = rest {
        contents.release(thing.m);
        rest = after;
    }
}

impl State {
    /// Takes the database's hold on each thing that a commit defined, and releases those on the things that it
    /// dropped. It takes no memory.
    pub(crate) fn settle(&self, contents: &mut Contents, defined: &[Number], dropped: &[Dropped])
        requires settled { (old : State) × (stored : Stored) × (plain : List PlainItem) × IsSettled old self.now contents.old stored plain defined.now dropped.now × AreHeld old.things.items contents.old }
        ensures stands { (old : State) (stored : Stored) (plain : List PlainItem) → IsSettled old self.now contents.old stored plain defined.now dropped.now → AreHeld old.things.items contents.old
            → StandsFor self.now contents.new (after_commit stored plain) }
        ensures held { (others : Number → ℕ) (old : State) (stored : Stored) (plain : List PlainItem) → IsSettled old self.now contents.old stored plain defined.now dropped.now → ((m : Number) → others m < 18446744073709551614)
            → AreHeldBeside others old.things.items contents.old → AreHeldBeside others self.now.things.items contents.new }
        ensures exact { (old : State) (stored : Stored) (plain : List PlainItem) → IsSettled old self.now contents.old stored plain defined.now dropped.now
            → HoldsFollow old.things.items self.now.things.items contents.old contents.new }
        ensures keeps { (m : Number) (x : Thing) → Stands contents.old m x → 0 < holds_at contents.new m → Stands contents.new m x }
    {
        hold_all(contents, defined);
        release_all(contents, dropped);
    }
}
