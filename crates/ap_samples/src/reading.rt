//! The directives of a whole source.
ghost use Rattle.std.specs.Prelude.{◌≡◌, ◌++◌, IfOk, OnOk, option_to_list};
ghost use Rattle.std.specs.Str.Lines.{lines};
ghost use Rattle.ap_samples.specs.Directives.{directive_in, directives_in};

use crate::directive::{Directive, read_line};
use crate::lines::first_line;
use ap_text::OutOfMemory;
use std::alloc::Global;

/// Appends what a line asks for.
fn push_directive(
    alloc: Global,
    directives: &mut Vec<Directive>,
    line: &[u8],
) -> Result<(), OutOfMemory>
    ensures { OnOk result (directives.new.items ≡ directives.old.items ++ option_to_list (directive_in line.now)) }
{
    if let Some(directive) = read_line(alloc, line)? {
        directives.push(directive)?;
    }
    Ok(())
}

/// What the lines of a source ask for, in order. It costs the bytes once.
pub fn read_directives(alloc: Global, bytes: &[u8]) -> Result<Vec<Directive>, OutOfMemory>
    ensures { IfOk result (λ directives. directives.items ≡ directives_in (lines bytes.now)) }
{
    let mut directives = Vec::new(alloc);
    let mut rest = bytes;
    while let Some((line, after)) = first_line(rest) {
        push_directive(alloc, &mut directives, line)?;
        rest = after;
    }
    Ok(directives)
}
