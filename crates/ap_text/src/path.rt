ghost use Rattle.std.specs.Prelude.{◌≡◌, IfOk, nat_eq};
ghost use Rattle.std.specs.Ordering.{nat_cmp, as_partial_cmp};
ghost use Rattle.std.specs.Cmp.{partial_order_from_own_ties};
ghost use Rattle.std.specs.Cmp.Lexicographic.{slice_cmp, pointwise};
ghost use Rattle.std.specs.Cmp.Rules.{comparing};
ghost use Rattle.std.proofs.Common.{rules};
ghost use Rattle.std.specs.Str.{str_to_ascii_lowercase};
ghost use Rattle.ap_text.specs.PathRules.{IsRelPath, is_rel_path, is_bad_part_lem, has_bad_part_lem, has_bad_byte_lem, parent_lem, file_name_lem};
ghost use Rattle.ap_text.specs.PathReading.{ReadsPath};

use crate::memory::OutOfMemory;
use crate::utf8::is_text;
use std::alloc::Global;
use std::cmp::Ordering;
use std::marker::Model;
use std::str;

/// The most bytes of a path.
const PATH_LIMIT: usize = 240;

/// Why bytes are no path.
#[derive(Clone, Copy, Debug, PartialEq, Eq)]
pub enum PathFault {
    /// There is no byte.
    Empty,
    /// There are more than 240 bytes.
    TooLong,
    NotUtf8,
    /// A part between the slashes is empty, `.` or `..`.
    BadPart,
    /// There is a backslash, a byte below 0x20, or 0x7F.
    BadByte,
    OutOfMemory,
}

/// A relative path: UTF-8 text of 1 to 240 bytes, parts joined by `/`. Paths are ordered by their bytes.
#[derive(Drop)]
pub struct RelPath {
    text: String,
}

impl Model for RelPath {
    ghost use Rattle.std.specs.Prelude.{List, ℕ};

    ghost Value = { List ℕ };

    ghost use Rattle.std.specs.Prelude.{string_bytes};
    ghost use Rattle.ap_text.specs.PathRules.{IsRelPath};

    ghost view = { λ p. string_bytes p.text };

    ghost invariant = { λ p. IsRelPath (string_bytes p.text) };
}

impl RelPath {
    /// The path that the bytes spell. Where several faults apply, the first of `PathFault` comes.
    pub fn read(alloc: Global, bytes: &[u8]) -> Result<Self, PathFault>
        ensures { ReadsPath bytes.now result }
    {
        if bytes.is_empty() {
            return Err(PathFault::Empty);
        }
        if bytes.len() > PATH_LIMIT {
            return Err(PathFault::TooLong);
        }
        let Ok(text) = str::from_utf8(bytes) else {
            return Err(PathFault::NotUtf8);
        };
        if has_bad_part(bytes) {
            return Err(PathFault::BadPart);
        }
        if has_bad_byte(bytes) {
            return Err(PathFault::BadByte);
        }
        match String::from_str(alloc, text) {
            Ok(text) => Ok(RelPath { text }),
            Err(_) => Err(PathFault::OutOfMemory),
        }
    }

    /// Whether the bytes spell a path. It takes no memory.
    #[tactic(auto, unfolding(crate::specs::PathRules::is_rel_path))]
    pub fn accepts(bytes: &[u8]) -> bool
        ensures { result ≡ is_rel_path bytes.now }
    {
        if bytes.is_empty() || bytes.len() > PATH_LIMIT {
            return false;
        }
        is_text(bytes) && !has_bad_part(bytes) && !has_bad_byte(bytes)
    }

    pub fn as_str(&self) -> &str
        ensures text { result.now ≡ self.now }
        ensures path { IsRelPath self.now }
    {
        &self.text
    }

    pub fn as_slice(&self) -> &[u8]
        ensures bytes { result.now ≡ self.now }
        ensures path { IsRelPath self.now }
    {
        self.text.as_bytes()
    }

    /// The folder of the path: what stands before the last `/`, or nothing.
    pub fn parent(&self) -> &str
        ensures { result.now ≡ parent_lem self.now }
    {
        before_last_slash(&self.text)
    }

    /// The name of the file: what stands behind the last `/`, or the whole path.
    pub fn file_name(&self) -> &str
        ensures { result.now ≡ file_name_lem self.now }
    {
        after_last_slash(&self.text)
    }

    /// The path with its ASCII letters in lower case.
    pub fn fold(&self, alloc: Global) -> Result<RelPath, OutOfMemory>
        ensures { IfOk result (λ folded. folded ≡ str_to_ascii_lowercase self.now) }
    {
        let mut text = String::from_str(alloc, &self.text)?;
        text.make_ascii_lowercase();
        let _folded = text.as_str();
        Ok(RelPath { text })
    }

    pub fn copy(&self, alloc: Global) -> Result<Self, OutOfMemory>
        ensures { IfOk result (λ copy. copy ≡ self.now) }
    {
        Ok(RelPath {
            text: String::from_str(alloc, &self.text)?,
        })
    }
}

impl PartialEq for RelPath {
    ghost eq = { pointwise nat_eq };

    ghost laws = { Prim.search (comparing, rules) };

    fn eq(&self, other: &Self) -> bool {
        self.text.as_bytes() == other.text.as_bytes()
    }
}

impl Eq for RelPath {
    ghost laws = { Prim.search (comparing, rules) };
}

impl PartialOrd for RelPath {
    ghost partial_cmp = { as_partial_cmp (slice_cmp nat_cmp) };

    ghost laws = { partial_order_from_own_ties (Prim.search (comparing, rules)) (Prim.search (comparing, rules)) };

    fn partial_cmp(&self, other: &Self) -> Option<Ordering> {
        Some(self.cmp(other))
    }
}

impl Ord for RelPath {
    ghost cmp = { slice_cmp nat_cmp };

    ghost total = { Prim.search (comparing, rules) };

    ghost matches_partial_cmp = { Prim.search (comparing, rules) };

    ghost matches_eq = { Prim.search (comparing, rules) };

    fn cmp(&self, other: &Self) -> Ordering {
        self.text.as_bytes().cmp(other.text.as_bytes())
    }
}

fn before_last_slash(text: &str) -> &str
    ensures { result.now ≡ parent_lem text.now }
{
    match text.rfind('/') {
        Some(at) => &text[..at],
        None => "",
    }
}

fn after_last_slash(text: &str) -> &str
    ensures { result.now ≡ file_name_lem text.now }
{
    match text.rfind('/') {
        Some(at) => &text[at + 1..],
        None => text,
    }
}

fn is_bad_part(part: &[u8]) -> bool
    ensures { result ≡ is_bad_part_lem part.now }
{
    match part {
        [] => true,
        [a] => *a == b'.',
        [a, b] => *a == b'.' && *b == b'.',
        _ => false,
    }
}

fn has_bad_part(bytes: &[u8]) -> bool
    ensures { result ≡ has_bad_part_lem bytes.now }
{
    bytes.split(|b| *b == b'/').any(|part| is_bad_part(part))
}

fn has_bad_byte(bytes: &[u8]) -> bool
    ensures { result ≡ has_bad_byte_lem bytes.now }
{
    bytes.iter().any(|b| *b == b'\\' || *b < 0x20 || *b == 0x7f)
}
