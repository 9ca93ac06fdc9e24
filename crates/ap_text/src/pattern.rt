ghost use Rattle.std.specs.Prelude.{◌≡◌, ◌<◌, ◌≤◌, ◌∷◌, [], length, MatchOption, ◌&&◌};
ghost use Rattle.std.specs.Str.{chars, is_utf8};
ghost use Rattle.ap_text.specs.Wild.{wild_chars, wild_lem, some_matches_lem, some_end, stands_for};
ghost use Rattle.ap_text.specs.Walk.{Walks, Shrinks, SplitsFirst};

use crate::bytes::Bytes;
use std::str;

/// What is found when a pattern is held against a text from its front, up to the first `*`.
enum Walk<'a> {
    /// Both ended.
    Ends,
    /// A character of the pattern had no character to stand for, or the text goes on behind the pattern.
    Differs,
    /// A `*` came: what stands behind it, and what is left of the text.
    Star(&'a str, &'a str),
}

/// Whether a pattern matches a path. `*` stands for any run of characters, `/` among them, `?` for one
/// character, and another character for itself, in upper or lower case if it is an ASCII letter.
///
/// It takes no memory. Each `*` is settled at the first place where what stands between it and the next
/// one fits, so the steps are at most the length of the pattern times one more than that of the path.
pub fn wild(pattern: &str, path: &str) -> bool
    ensures { result ≡ wild_lem pattern.now path.now }
{
    match walk_to_star(pattern, path) {
        Walk::Ends => true,
        Walk::Differs => false,
        Walk::Star(after, rest) => some_end_matches(after, rest),
    }
}

/// Whether some of the patterns matches a path. Bytes that are no UTF-8 match none. It takes no memory.
pub fn some_matches(patterns: &[Bytes], path: &str) -> bool
    ensures { result ≡ some_matches_lem patterns.now path.now }
{
    let mut rest = patterns;
    while let [pattern, after @ ..] = rest {
        if is_match(pattern.as_slice(), path) {
            return true;
        }
        rest = after;
    }
    false
}

fn is_match(pattern: &[u8], path: &str) -> bool
    ensures { result ≡ (is_utf8 pattern.now && wild_lem pattern.now path.now) }
{
    match str::from_utf8(pattern) {
        Ok(pattern) => wild(pattern, path),
        Err(_) => false,
    }
}

/// Whether the pattern matches the text or some end of it.
fn some_end_matches(pattern: &str, text: &str) -> bool
    ensures { result ≡ some_end (wild_chars (chars pattern.now)) (chars text.now) }
{
    let mut marks = pattern;
    let mut left = text;
    loop {
        match walk_to_star(marks, left) {
            Walk::Ends => return true,
            Walk::Star(after, rest) => {
                marks = after;
                left = rest;
            }
            Walk::Differs => match split_first(left) {
                None => return false,
                Some((_, rest)) => left = rest,
            },
        }
    }
}

fn walk_to_star<'a>(pattern: &'a str, text: &'a str) -> Walk<'a>
    ensures walks { Walks (chars pattern.now) (chars text.now) result }
    ensures shrinks { Shrinks pattern.now text.now result }
{
    let mut marks = pattern;
    let mut left = text;
    while let Some((mark, after)) = split_first(marks) {
        if mark == '*' {
            return Walk::Star(after, left);
        }
        let Some((c, rest)) = split_first(left) else {
            return Walk::Differs;
        };
        if !takes(mark, c) {
            return Walk::Differs;
        }
        marks = after;
        left = rest;
    }
    match split_first(left) {
        None => Walk::Ends,
        Some(_) => Walk::Differs,
    }
}

fn takes(mark: char, c: char) -> bool
    ensures { result ≡ stands_for mark c }
{
    mark == '?' || mark.eq_ignore_ascii_case(&c)
}

/// The first character of a text, and what stands behind it.
fn split_first(text: &str) -> Option<(char, &str)>
    ensures { MatchOption result (text.now ≡ []) (λ split. SplitsFirst text.now split.0 split.1.now) }
{
    let mut rest = text.chars();
    match rest.next() {
        Some(first) => Some((first, rest.as_str())),
        None => None,
    }
}
