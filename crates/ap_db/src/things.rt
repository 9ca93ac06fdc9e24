//! The things of the file, under their numbers of the contents.
ghost use Rattle.std.specs.Prelude.{◌≡◌, ◌≢◌, ◌<◌, length};
ghost use Rattle.ap_content.specs.declared.node.Number.{Number};
ghost use Rattle.ap_db.specs.States.{file_thing};
ghost use Rattle.ap_db.specs.Naming.{raised, lowered, one_if, times_of, HaveRoom};

use ap_content::Number;

/// A thing that lives in the file.
#[derive(Clone, Copy, Debug, PartialEq, Eq)]
pub struct FileThing {
    /// Its number in the file.
    pub(crate) number: u64,
    /// How many times rows name it, and things that live in the file have it as a kid.
    pub(crate) named: u64,
}

/// The thing under a number.
pub(crate) fn thing_of(things: &[Option<FileThing>], m: Number) -> Option<FileThing>
    ensures { result ≡ file_thing things.now m }
{
    match things.get(m.0 as usize) {
        Some(thing) => *thing,
        None => None,
    }
}

/// Puts a thing under a number, or none.
pub(crate) fn set_thing(things: &mut [Option<FileThing>], m: Number, thing: Option<FileThing>)
    requires { m.0 < length things.old }
    ensures here { file_thing things.new m ≡ thing }
    ensures others { (k : Number) → k ≢ m → file_thing things.new k ≡ file_thing things.old k }
    ensures long { length things.new ≡ length things.old }
{
    things[m.0 as usize] = thing;
}

/// Counts one name more.
pub(crate) fn raise(things: &mut [Option<FileThing>], m: Number)
    requires { HaveRoom things.old 1 }
    ensures counts { (k : Number) → file_thing things.new k ≡ raised (one_if m k) (file_thing things.old k) }
    ensures long { length things.new ≡ length things.old }
{
    if let Some(thing) = thing_of(things, m) {
        things[m.0 as usize] = Some(FileThing {
            number: thing.number,
            named: thing.named + 1,
        });
    }
}

/// Counts one name less.
pub(crate) fn lower(things: &mut [Option<FileThing>], m: Number)
    ensures counts { (k : Number) → file_thing things.new k ≡ lowered (one_if m k) (file_thing things.old k) }
    ensures long { length things.new ≡ length things.old }
{
    if let Some(thing) = thing_of(things, m) {
        things[m.0 as usize] = Some(FileThing {
            number: thing.number,
            named: thing.named.saturating_sub(1),
        });
    }
}

/// Counts one name more for each of these numbers.
pub(crate) fn raise_all(things: &mut [Option<FileThing>], kids: &[Number])
    requires { HaveRoom things.old (length kids.now) }
    ensures counts { (k : Number) → file_thing things.new k ≡ raised (times_of kids.now k) (file_thing things.old k) }
    ensures long { length things.new ≡ length things.old }
{
    let mut rest = kids;
    while let [kid, after @ ..] = rest {
        raise(things, *kid);
        rest = after;
    }
}

/// Counts one name less for each of these numbers.
pub(crate) fn lower_all(things: &mut [Option<FileThing>], kids: &[Number])
    ensures counts { (k : Number) → file_thing things.new k ≡ lowered (times_of kids.now k) (file_thing things.old k) }
    ensures long { length things.new ≡ length things.old }
{
    let mut rest = kids;
    while let [kid, after @ ..] = rest {
        lower(things, *kid);
        rest = after;
    }
}
