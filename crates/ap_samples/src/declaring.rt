//! What the sources of the builders with directives depend on.
ghost use Rattle.std.specs.Prelude.{◌≡◌, ◌++◌, IfOk, OnOk, option_to_list};
ghost use Rattle.std.specs.Str.Lines.{lines};
ghost use Rattle.ap_samples.specs.Declaring.{target_in, line_target, declared_by};

use crate::directive::{Directive, read_line};
use crate::lines::first_line;
use ap_builder::Target;
use ap_text::OutOfMemory;
use std::alloc::Global;

fn target(directive: Directive) -> Option<Target>
    ensures { result ≡ target_in directive }
{
    match directive {
        Directive::Include(path) => Some(Target::File(path)),
        Directive::Glob(pattern) => Some(Target::Glob(pattern)),
        _ => None,
    }
}

/// What a line depends on.
fn target_of_line(alloc: Global, line: &[u8]) -> Result<Option<Target>, OutOfMemory>
    ensures { IfOk result (λ target. target ≡ line_target line.now) }
{
    match read_line(alloc, line)? {
        Some(directive) => Ok(target(directive)),
        None => Ok(None),
    }
}

/// Appends what a line depends on.
fn push_target(alloc: Global, targets: &mut Vec<Target>, line: &[u8]) -> Result<(), OutOfMemory>
    ensures { OnOk result (targets.new.items ≡ targets.old.items ++ option_to_list (line_target line.now)) }
{
    if let Some(target) = target_of_line(alloc, line)? {
        targets.push(target)?;
    }
    Ok(())
}

/// The included files and the patterns of a source, in the order of its lines.
pub(crate) fn targets(alloc: Global, bytes: &[u8]) -> Result<Vec<Target>, OutOfMemory>
    ensures { IfOk result (λ targets. targets.items ≡ declared_by bytes.now) }
{
    let mut targets = Vec::new(alloc);
    let mut rest = bytes;
    while let Some((line, after)) = first_line(rest) {
        push_target(alloc, &mut targets, line)?;
        rest = after;
    }
    Ok(targets)
}
