//! Things of the file that nothing names.
ghost use Rattle.std.specs.Prelude.{◌≡◌, ◌++◌, IfOk, OnOk};
ghost use Rattle.ap_db.specs.Loose.{if_unnamed, unnamed_from};

use crate::things::FileThing;
use ap_content::Number;
use ap_text::OutOfMemory;
use std::alloc::Global;

/// Adds the number, where its thing is one that nothing names.
fn note(found: &mut Vec<Number>, m: Number, thing: Option<FileThing>) -> Result<(), OutOfMemory>
    ensures { OnOk result (found.new.items ≡ found.old.items ++ if_unnamed m thing) }
{
    if let Some(thing) = thing
        && thing.named == 0
    {
        found.push(m)?;
    }
    Ok(())
}

/// The numbers of the things that nothing names. It looks at each number of the contents once.
pub(crate) fn unnamed(
    alloc: Global,
    things: &[Option<FileThing>],
) -> Result<Vec<Number>, OutOfMemory>
    ensures { IfOk result (λ found. found.items ≡ unnamed_from 0 things.now) }
{
    let mut found = Vec::new(alloc);
    let mut number = 0u64;
    let mut rest = things;
    while let [thing, after @ ..] = rest {
        note(&mut found, Number(number), *thing)?;
        number += 1;
        rest = after;
    }
    Ok(found)
}
