//! What the lines of a source ask for.
ghost use Rattle.std.specs.Prelude.{◌≡◌, IfOk};
ghost use Rattle.std.specs.Str.{is_utf8};
ghost use Rattle.ap_samples.specs.declared.directive.Directive.TheVariants.{Include, Glob, Key, Priority, Part, OldSub, Formerly, Fail};
ghost use Rattle.ap_samples.specs.Numbers.{number_within, signed_number_lem};
ghost use Rattle.ap_samples.specs.Directives.{folded_path, name_that_is, is_pattern_lem, pattern_that_is, made_by, job_directive, ref_directive, directive_by, directive_in};

use crate::numbers::{number, signed_number};
use crate::words::{Word, argument, split_last, word_of};
use ap_rows::DepKind;
use ap_text::{Bytes, Name, OutOfMemory, RelPath};
use std::alloc::Global;
use std::str;

/// The most bytes of a pattern.
const PATTERN_LIMIT: usize = 240;

/// What a line that isn't plain asks for. Its paths are folded.
#[derive(Drop)]
pub enum Directive {
    /// The source depends on the file of this path, whose plain lines `flat` puts in the line's place.
    Include(RelPath),
    /// The source depends on the files that this pattern matches.
    Glob(Bytes),
    /// Each job depends on the job of this source and this key for the same platform.
    Job {
        kind: DepKind,
        source: RelPath,
        key: Name,
    },
    /// The jobs have this key.
    Key(Name),
    /// The jobs have this priority.
    Priority(i32),
    /// A section of `parts` begins, whose product has this name.
    Part(Name),
    /// The product depends on the product of this source with this sub id.
    Ref {
        path: RelPath,
        sub: u32,
    },
    /// The product had this sub id before.
    OldSub(u32),
    /// The product's source had this path before.
    Formerly(RelPath),
    /// The jobs fail with this code.
    Fail(u32),
    /// The line has a directive's word, and another argument than the word takes.
    Malformed,
}

/// The folded path that the bytes spell.
#[tactic(auto, unfolding(crate::specs::Directives::folded_path))]
pub(crate) fn path_in(alloc: Global, bytes: &[u8]) -> Result<Option<RelPath>, OutOfMemory>
    ensures { IfOk result (λ path. path ≡ folded_path bytes.now) }
{
    if !RelPath::accepts(bytes) {
        return Ok(None);
    }
    match RelPath::read(alloc, bytes) {
        Ok(path) => Ok(Some(path.fold(alloc)?)),
        Err(_) => Err(OutOfMemory),
    }
}

/// The name that the bytes spell.
#[tactic(auto, unfolding(crate::specs::Directives::name_that_is))]
fn name_in(alloc: Global, bytes: &[u8]) -> Result<Option<Name>, OutOfMemory>
    ensures { IfOk result (λ name. name ≡ name_that_is bytes.now) }
{
    if !Name::accepts(bytes) {
        return Ok(None);
    }
    match Name::read(alloc, bytes) {
        Ok(name) => Ok(Some(name)),
        Err(_) => Err(OutOfMemory),
    }
}

fn is_text(bytes: &[u8]) -> bool
    ensures { result ≡ is_utf8 bytes.now }
{
    str::from_utf8(bytes).is_ok()
}

fn is_pattern(bytes: &[u8]) -> bool
    ensures { result ≡ is_pattern_lem bytes.now }
{
    if bytes.is_empty() || bytes.len() > PATTERN_LIMIT {
        return false;
    }
    is_text(bytes)
}

/// The pattern that the bytes spell.
#[tactic(auto, unfolding(crate::specs::Directives::pattern_that_is))]
fn pattern_in(alloc: Global, bytes: &[u8]) -> Result<Option<Bytes>, OutOfMemory>
    ensures { IfOk result (λ pattern. pattern ≡ pattern_that_is bytes.now) }
{
    if !is_pattern(bytes) {
        return Ok(None);
    }
    Ok(Some(Bytes::of(bytes.to_vec(alloc)?)))
}

fn include(alloc: Global, argument: &[u8]) -> Result<Directive, OutOfMemory>
    ensures { IfOk result (λ directive. directive ≡ made_by Include (folded_path argument.now)) }
{
    match path_in(alloc, argument)? {
        Some(path) => Ok(Directive::Include(path)),
        None => Ok(Directive::Malformed),
    }
}

fn glob(alloc: Global, argument: &[u8]) -> Result<Directive, OutOfMemory>
    ensures { IfOk result (λ directive. directive ≡ made_by Glob (pattern_that_is argument.now)) }
{
    match pattern_in(alloc, argument)? {
        Some(pattern) => Ok(Directive::Glob(pattern)),
        None => Ok(Directive::Malformed),
    }
}

fn key(alloc: Global, argument: &[u8]) -> Result<Directive, OutOfMemory>
    ensures { IfOk result (λ directive. directive ≡ made_by Key (name_that_is argument.now)) }
{
    match name_in(alloc, argument)? {
        Some(name) => Ok(Directive::Key(name)),
        None => Ok(Directive::Malformed),
    }
}

fn part(alloc: Global, argument: &[u8]) -> Result<Directive, OutOfMemory>
    ensures { IfOk result (λ directive. directive ≡ made_by Part (name_that_is argument.now)) }
{
    match name_in(alloc, argument)? {
        Some(name) => Ok(Directive::Part(name)),
        None => Ok(Directive::Malformed),
    }
}

fn formerly(alloc: Global, argument: &[u8]) -> Result<Directive, OutOfMemory>
    ensures { IfOk result (λ directive. directive ≡ made_by Formerly (folded_path argument.now)) }
{
    match path_in(alloc, argument)? {
        Some(path) => Ok(Directive::Formerly(path)),
        None => Ok(Directive::Malformed),
    }
}

fn priority(argument: &[u8]) -> Directive
    ensures { result ≡ made_by Priority (signed_number_lem argument.now) }
{
    match signed_number(argument) {
        Some(priority) => Directive::Priority(priority),
        None => Directive::Malformed,
    }
}

fn old_sub(argument: &[u8]) -> Directive
    ensures { result ≡ made_by OldSub (number_within 0 4294967295 argument.now) }
{
    match number(0, u32::MAX, argument) {
        Some(sub) => Directive::OldSub(sub),
        None => Directive::Malformed,
    }
}

fn fail(argument: &[u8]) -> Directive
    ensures { result ≡ made_by Fail (number_within 1 4294967295 argument.now) }
{
    match number(1, u32::MAX, argument) {
        Some(code) => Directive::Fail(code),
        None => Directive::Malformed,
    }
}

/// A dependency on the job of a source and a key.
fn job(alloc: Global, kind: DepKind, argument: &[u8]) -> Result<Directive, OutOfMemory>
    ensures { IfOk result (λ directive. directive ≡ job_directive kind argument.now) }
{
    let (former, latter) = split_last(argument, b' ');
    let Some(source) = path_in(alloc, former)? else {
        return Ok(Directive::Malformed);
    };
    let Some(key) = name_in(alloc, latter)? else {
        return Ok(Directive::Malformed);
    };
    Ok(Directive::Job { kind, source, key })
}

/// A dependency on the product of a source and a sub id.
fn product_ref(alloc: Global, argument: &[u8]) -> Result<Directive, OutOfMemory>
    ensures { IfOk result (λ directive. directive ≡ ref_directive argument.now) }
{
    let (former, latter) = split_last(argument, b' ');
    let Some(path) = path_in(alloc, former)? else {
        return Ok(Directive::Malformed);
    };
    let Some(sub) = number(0, u32::MAX, latter) else {
        return Ok(Directive::Malformed);
    };
    Ok(Directive::Ref { path, sub })
}

/// What a word and an argument ask for.
fn read_argument(alloc: Global, word: Word, argument: &[u8]) -> Result<Directive, OutOfMemory>
    ensures { IfOk result (λ directive. directive ≡ directive_by word argument.now) }
{
    match word {
        Word::Include => include(alloc, argument),
        Word::Glob => glob(alloc, argument),
        Word::After => job(alloc, DepKind::Order, argument),
        Word::Once => job(alloc, DepKind::OrderOnce, argument),
        Word::Print => job(alloc, DepKind::Fingerprint, argument),
        Word::Key => key(alloc, argument),
        Word::Priority => Ok(priority(argument)),
        Word::Part => part(alloc, argument),
        Word::Ref => product_ref(alloc, argument),
        Word::OldSub => Ok(old_sub(argument)),
        Word::Formerly => formerly(alloc, argument),
        Word::Fail => Ok(fail(argument)),
    }
}

/// What a line asks for, None where it is plain.
pub fn read_line(alloc: Global, line: &[u8]) -> Result<Option<Directive>, OutOfMemory>
    ensures { IfOk result (λ directive. directive ≡ directive_in line.now) }
{
    match word_of(line) {
        Some(word) => Ok(Some(read_argument(alloc, word, argument(line))?)),
        None => Ok(None),
    }
}
