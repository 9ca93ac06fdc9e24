ghost use Rattle.std.specs.Prelude.{◌≡◌, ◌↔◌, IsTrue, IfOk};
ghost use Rattle.ap_text.specs.NameRules as NameRules;
ghost use Rattle.ap_text.specs.NameRules.{IsName, IsPlatform, IsFileName, is_name_byte_lem, is_platform_byte_lem, is_file_name_byte_lem, is_dots_lem};
ghost use Rattle.std.specs.List.{list_all};
ghost use Rattle.ap_text.specs.NameReading.{ReadsName, ReadsPlatform, ReadsFileName};

use crate::memory::OutOfMemory;
use crate::utf8::is_text;
use std::alloc::Global;
use std::marker::Model;

/// The most bytes of a name.
const NAME_LIMIT: usize = 32;

/// The most bytes of a platform.
const PLATFORM_LIMIT: usize = 16;

/// The most bytes of a file name.
const FILE_NAME_LIMIT: usize = 255;

/// Why bytes are no name.
#[derive(Clone, Copy, Debug, PartialEq, Eq)]
pub enum NameFault {
    /// The grammar refuses them.
    Bad,
    OutOfMemory,
}

/// The name of a builder, a job key or an asset type: 1 to 32 bytes of `a-z`, `0-9`, `_` and `-`.
#[derive(Drop)]
pub struct Name {
    bytes: Vec<u8>,
}

impl Model for Name {
    ghost use Rattle.std.specs.Prelude.{List, ℕ};

    ghost Value = { List ℕ };

    ghost use Rattle.ap_text.specs.NameRules.{IsName};

    ghost view = { λ n. n.bytes.items };

    ghost invariant = { λ n. IsName n.bytes.items };
}

impl Name {
    /// The name that the bytes spell, `Bad` where they are outside its grammar.
    pub fn read(alloc: Global, bytes: &[u8]) -> Result<Self, NameFault>
        ensures { ReadsName bytes.now result }
    {
        if !is_name(bytes) {
            return Err(NameFault::Bad);
        }
        match bytes.to_vec(alloc) {
            Ok(bytes) => Ok(Name { bytes }),
            Err(_) => Err(NameFault::OutOfMemory),
        }
    }

    /// Whether the bytes spell a name. It takes no memory.
    pub fn accepts(bytes: &[u8]) -> bool
        ensures { result ≡ NameRules.is_name bytes.now }
    {
        is_name(bytes)
    }

    pub fn as_slice(&self) -> &[u8]
        ensures bytes { result.now ≡ self.now }
        ensures name { IsName self.now }
    {
        &self.bytes
    }

    pub fn copy(&self, alloc: Global) -> Result<Self, OutOfMemory>
        ensures { IfOk result (λ copy. copy ≡ self.now) }
    {
        Ok(Name {
            bytes: self.bytes.to_vec(alloc)?,
        })
    }
}

/// A platform that products are made for: 1 to 16 bytes of `a-z` and `0-9`.
#[derive(Drop)]
pub struct Platform {
    bytes: Vec<u8>,
}

impl Model for Platform {
    ghost use Rattle.std.specs.Prelude.{List, ℕ};

    ghost Value = { List ℕ };

    ghost use Rattle.ap_text.specs.NameRules.{IsPlatform};

    ghost view = { λ p. p.bytes.items };

    ghost invariant = { λ p. IsPlatform p.bytes.items };
}

impl Platform {
    /// The platform that the bytes spell, `Bad` where they are outside its grammar.
    pub fn read(alloc: Global, bytes: &[u8]) -> Result<Self, NameFault>
        ensures { ReadsPlatform bytes.now result }
    {
        if !is_platform(bytes) {
            return Err(NameFault::Bad);
        }
        match bytes.to_vec(alloc) {
            Ok(bytes) => Ok(Platform { bytes }),
            Err(_) => Err(NameFault::OutOfMemory),
        }
    }

    /// Whether the bytes spell a platform. It takes no memory.
    pub fn accepts(bytes: &[u8]) -> bool
        ensures { result ≡ NameRules.is_platform bytes.now }
    {
        is_platform(bytes)
    }

    pub fn as_slice(&self) -> &[u8]
        ensures bytes { result.now ≡ self.now }
        ensures platform { IsPlatform self.now }
    {
        &self.bytes
    }

    pub fn copy(&self, alloc: Global) -> Result<Self, OutOfMemory>
        ensures { IfOk result (λ copy. copy ≡ self.now) }
    {
        Ok(Platform {
            bytes: self.bytes.to_vec(alloc)?,
        })
    }
}

/// The name of a product's file: UTF-8 of 1 to 255 bytes without `/`, backslash, a byte below 0x20, 0x7F or
/// an upper-case ASCII letter, and neither `.` nor `..`.
#[derive(Drop)]
pub struct FileName {
    bytes: Vec<u8>,
}

impl Model for FileName {
    ghost use Rattle.std.specs.Prelude.{List, ℕ};

    ghost Value = { List ℕ };

    ghost use Rattle.ap_text.specs.NameRules.{IsFileName};

    ghost view = { λ n. n.bytes.items };

    ghost invariant = { λ n. IsFileName n.bytes.items };
}

impl FileName {
    /// The file name that the bytes spell, `Bad` where they are outside its grammar.
    pub fn read(alloc: Global, bytes: &[u8]) -> Result<Self, NameFault>
        ensures { ReadsFileName bytes.now result }
    {
        if !is_file_name(bytes) {
            return Err(NameFault::Bad);
        }
        match bytes.to_vec(alloc) {
            Ok(bytes) => Ok(FileName { bytes }),
            Err(_) => Err(NameFault::OutOfMemory),
        }
    }

    /// Whether the bytes spell a file name. It takes no memory.
    pub fn accepts(bytes: &[u8]) -> bool
        ensures { result ≡ NameRules.is_file_name bytes.now }
    {
        is_file_name(bytes)
    }

    pub fn as_slice(&self) -> &[u8]
        ensures bytes { result.now ≡ self.now }
        ensures name { IsFileName self.now }
    {
        &self.bytes
    }

    pub fn copy(&self, alloc: Global) -> Result<Self, OutOfMemory>
        ensures { IfOk result (λ copy. copy ≡ self.now) }
    {
        Ok(FileName {
            bytes: self.bytes.to_vec(alloc)?,
        })
    }
}

fn is_platform_byte(byte: u8) -> bool
    ensures { result ≡ is_platform_byte_lem byte }
{
    matches!(byte, b'a'..=b'z' | b'0'..=b'9')
}

fn is_name_byte(byte: u8) -> bool
    ensures { result ≡ is_name_byte_lem byte }
{
    is_platform_byte(byte) || byte == b'_' || byte == b'-'
}

fn is_file_name_byte(byte: u8) -> bool
    ensures { result ≡ is_file_name_byte_lem byte }
{
    !matches!(byte, b'/' | b'\\' | 0x7f | ..=0x1f | b'A'..=b'Z')
}

#[tactic(auto, unfolding(crate::specs::NameRules::is_name))]
fn is_name(bytes: &[u8]) -> bool
    ensures means { IsTrue result ↔ IsName bytes.now }
    ensures told { result ≡ NameRules.is_name bytes.now }
{
    if bytes.is_empty() || bytes.len() > NAME_LIMIT {
        return false;
    }
    has_name_bytes(bytes)
}

#[tactic(auto, unfolding(crate::specs::NameRules::is_platform))]
fn is_platform(bytes: &[u8]) -> bool
    ensures means { IsTrue result ↔ IsPlatform bytes.now }
    ensures told { result ≡ NameRules.is_platform bytes.now }
{
    if bytes.is_empty() || bytes.len() > PLATFORM_LIMIT {
        return false;
    }
    has_platform_bytes(bytes)
}

#[tactic(auto, unfolding(crate::specs::NameRules::is_file_name))]
fn is_file_name(bytes: &[u8]) -> bool
    ensures means { IsTrue result ↔ IsFileName bytes.now }
    ensures told { result ≡ NameRules.is_file_name bytes.now }
{
    if bytes.is_empty() || bytes.len() > FILE_NAME_LIMIT {
        return false;
    }
    !is_dots(bytes) && has_file_name_bytes(bytes) && is_text(bytes)
}

fn has_name_bytes(bytes: &[u8]) -> bool
    ensures { result ≡ list_all is_name_byte_lem bytes.now }
{
    bytes.iter().all(|b| is_name_byte(*b))
}

fn has_platform_bytes(bytes: &[u8]) -> bool
    ensures { result ≡ list_all is_platform_byte_lem bytes.now }
{
    bytes.iter().all(|b| is_platform_byte(*b))
}

fn has_file_name_bytes(bytes: &[u8]) -> bool
    ensures { result ≡ list_all is_file_name_byte_lem bytes.now }
{
    bytes.iter().all(|b| is_file_name_byte(*b))
}

fn is_dots(bytes: &[u8]) -> bool
    ensures { result ≡ is_dots_lem bytes.now }
{
    match bytes {
        [a] => *a == b'.',
        [a, b] => *a == b'.' && *b == b'.',
        _ => false,
    }
}
