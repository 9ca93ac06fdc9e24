ghost use Rattle.std.specs.Prelude.{◌≡◌, ◌<◌, map, IfOk};
ghost use Rattle.std.specs.List.{flat_map};
ghost use Rattle.ap_cli.specs.Lines.{line_lem, entry_line_lem, labelled_lem, work_counts_lem, product_counts_lem, cache_counts_lem, counts_line_lem, hex_digit_lem, hex_lem, hidden_line_lem, odd_line_lem, other_lines_lem, ending_of, ending_line_lem, report_lem};

use crate::ending::Ending;
use crate::other_files::OtherFiles;
use ap_builder::Entry;
use ap_scan::{Hidden, Odd};
use ap_text::OutOfMemory;
use std::alloc::Global;

/// What a report counts: the sources, the jobs, those that are done, the products that are published and
/// those that aren't, and the cache files that were written and removed.
#[derive(Clone, Copy, Debug, PartialEq, Eq)]
pub struct Counts {
    pub sources: usize,
    pub jobs: usize,
    pub done: usize,
    pub published: usize,
    pub shadowed: usize,
    pub wrote: usize,
    pub removed: usize,
}

/// The report of a run that asked for these entries and passed over these files.
pub(crate) fn report_of(
    alloc: Global,
    entries: &[Entry],
    others: &OtherFiles,
    counts: &Counts,
) -> Result<Vec<u8>, OutOfMemory>
    ensures { IfOk result (λ text. text.items ≡ report_lem entries.now others.now counts.now) }
{
    let mut text = entry_lines(alloc, entries)?;
    text.extend_from_slice(&other_lines(alloc, others)?)?;
    text.extend_from_slice(&counts_line(alloc, counts)?)?;
    text.extend_from_slice(&ending_line(alloc, ending(others))?)?;
    Ok(text)
}

/// How a run ends that passed over these files: an odd name is a problem, and a hidden file is none.
pub(crate) fn ending(others: &OtherFiles) -> Ending
    ensures { result ≡ ending_of others.now }
{
    match others.odd.as_slice() {
        [] => Ending::Well,
        [_, ..] => Ending::Problems,
    }
}

fn ending_line(alloc: Global, ending: Ending) -> Result<Vec<u8>, OutOfMemory>
    ensures { IfOk result (λ text. text.items ≡ ending_line_lem ending) }
{
    match ending {
        Ending::Well => line(alloc, &[b"ok".as_slice()]),
        Ending::Problems => line(alloc, &[b"problems".as_slice()]),
    }
}

fn other_lines(alloc: Global, others: &OtherFiles) -> Result<Vec<u8>, OutOfMemory>
    ensures { IfOk result (λ text. text.items ≡ other_lines_lem others.now) }
{
    let mut text = hidden_lines(alloc, others.hidden.as_slice())?;
    text.extend_from_slice(&odd_lines(alloc, others.odd.as_slice())?)?;
    Ok(text)
}

fn hidden_lines(alloc: Global, hidden: &[Hidden]) -> Result<Vec<u8>, OutOfMemory>
    ensures { IfOk result (λ text. text.items ≡ flat_map hidden_line_lem hidden.now) }
{
    let mut text = Vec::new(alloc);
    let mut rest = hidden;
    while let [first, after @ ..] = rest {
        text.extend_from_slice(&hidden_line(alloc, first)?)?;
        rest = after;
    }
    Ok(text)
}

fn hidden_line(alloc: Global, hidden: &Hidden) -> Result<Vec<u8>, OutOfMemory>
    ensures { IfOk result (λ text. text.items ≡ hidden_line_lem hidden.now) }
{
    let order = hidden.order.to_string(alloc)?;
    line(
        alloc,
        &[
            b"hidden".as_slice(),
            order.as_bytes(),
            hidden.name.as_slice(),
        ],
    )
}

fn odd_lines(alloc: Global, odd: &[Odd]) -> Result<Vec<u8>, OutOfMemory>
    ensures { IfOk result (λ text. text.items ≡ flat_map odd_line_lem odd.now) }
{
    let mut text = Vec::new(alloc);
    let mut rest = odd;
    while let [first, after @ ..] = rest {
        text.extend_from_slice(&odd_line(alloc, first)?)?;
        rest = after;
    }
    Ok(text)
}

fn odd_line(alloc: Global, odd: &Odd) -> Result<Vec<u8>, OutOfMemory>
    ensures { IfOk result (λ text. text.items ≡ odd_line_lem odd.now) }
{
    let order = odd.order.to_string(alloc)?;
    let name = hex(alloc, odd.name.as_slice())?;
    line(
        alloc,
        &[b"odd".as_slice(), order.as_bytes(), name.as_slice()],
    )
}

/// Bytes in lower-case hexadecimal, each by two digits.
fn hex(alloc: Global, bytes: &[u8]) -> Result<Vec<u8>, OutOfMemory>
    ensures { IfOk result (λ text. text.items ≡ hex_lem bytes.now) }
{
    let mut text = Vec::new(alloc);
    let mut rest = bytes;
    while let [byte, after @ ..] = rest {
        text.push(hex_digit(byte / 16))?;
        text.push(hex_digit(byte % 16))?;
        rest = after;
    }
    Ok(text)
}

fn hex_digit(value: u8) -> u8
    requires { value < 16 }
    ensures { result ≡ hex_digit_lem value }
{
    if value < 10 { value + 48 } else { value + 87 }
}

fn entry_lines(alloc: Global, entries: &[Entry]) -> Result<Vec<u8>, OutOfMemory>
    ensures { IfOk result (λ text. text.items ≡ flat_map entry_line_lem entries.now) }
{
    let mut text = Vec::new(alloc);
    let mut rest = entries;
    while let [entry, after @ ..] = rest {
        text.extend_from_slice(&entry_line(alloc, entry)?)?;
        rest = after;
    }
    Ok(text)
}

fn entry_line(alloc: Global, entry: &Entry) -> Result<Vec<u8>, OutOfMemory>
    ensures { IfOk result (λ text. text.items ≡ entry_line_lem entry.now) }
{
    match entry {
        Entry::Create { source, builder } => line(
            alloc,
            &[b"create".as_slice(), builder.as_slice(), source.as_slice()],
        ),
        Entry::Process(job) => line(
            alloc,
            &[
                b"process".as_slice(),
                job.platform.as_slice(),
                job.key.as_slice(),
                job.source.as_slice(),
            ],
        ),
    }
}

fn counts_line(alloc: Global, counts: &Counts) -> Result<Vec<u8>, OutOfMemory>
    ensures { IfOk result (λ text. text.items ≡ counts_line_lem counts.now) }
{
    let mut text = work_counts(alloc, counts)?;
    text.extend_from_slice(&product_counts(alloc, counts)?)?;
    text.extend_from_slice(&cache_counts(alloc, counts)?)?;
    text.push(b'\n')?;
    Ok(text)
}

fn work_counts(alloc: Global, counts: &Counts) -> Result<Vec<u8>, OutOfMemory>
    ensures { IfOk result (λ text. text.items ≡ work_counts_lem counts.now) }
{
    let mut text = labelled(alloc, b"sources ", counts.sources)?;
    text.extend_from_slice(&labelled(alloc, b" jobs ", counts.jobs)?)?;
    text.extend_from_slice(&labelled(alloc, b" done ", counts.done)?)?;
    Ok(text)
}

fn product_counts(alloc: Global, counts: &Counts) -> Result<Vec<u8>, OutOfMemory>
    ensures { IfOk result (λ text. text.items ≡ product_counts_lem counts.now) }
{
    let mut text = labelled(alloc, b" published ", counts.published)?;
    text.extend_from_slice(&labelled(alloc, b" shadowed ", counts.shadowed)?)?;
    Ok(text)
}

fn cache_counts(alloc: Global, counts: &Counts) -> Result<Vec<u8>, OutOfMemory>
    ensures { IfOk result (λ text. text.items ≡ cache_counts_lem counts.now) }
{
    let mut text = labelled(alloc, b" wrote ", counts.wrote)?;
    text.extend_from_slice(&labelled(alloc, b" removed ", counts.removed)?)?;
    Ok(text)
}

/// A label and a number in decimal.
fn labelled(alloc: Global, label: &[u8], number: usize) -> Result<Vec<u8>, OutOfMemory>
    ensures { IfOk result (λ text. text.items ≡ labelled_lem label.now number) }
{
    let mut text = label.to_vec(alloc)?;
    let digits = number.to_string(alloc)?;
    text.extend_from_slice(digits.as_bytes())?;
    Ok(text)
}

/// Words with a space between each two, and a line feed.
fn line(alloc: Global, words: &[&[u8]]) -> Result<Vec<u8>, OutOfMemory>
    ensures { IfOk result (λ text. text.items ≡ line_lem (map (λ word. word.now) words.now)) }
{
    let mut text = Vec::new(alloc);
    let mut rest = words;
    while let [word, after @ ..] = rest {
        text.extend_from_slice(word)?;
        if !after.is_empty() {
            text.push(b' ')?;
        }
        rest = after;
    }
    text.push(b'\n')?;
    Ok(text)
}
