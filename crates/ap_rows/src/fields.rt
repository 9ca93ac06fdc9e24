ghost use Rattle.std.specs.Prelude.{◌≡◌, ◌<◌, ◌≤◌, ◌^◌, ◌+◌, ◌++◌, ℕ, IsTrue, IfSome, OnSome, OnOk, OnErr, length, option_copied};
ghost use Rattle.ap_rows.specs.Fields.{is_width, number_field, run_field};
ghost use Rattle.ap_rows.specs.Readers.{Reads, number, run_of, bytes_of, value_onto};

use ap_text::OutOfMemory;
use std::marker::Model;

/// Reads fields one after another from bytes, which contracts see as the bytes that are left.
#[derive(Drop)]
pub struct FieldReader<'a> {
    left: &'a [u8],
}

impl<'a> Model for FieldReader<'a> {
    ghost use Rattle.std.specs.Prelude.{List, ℕ};

    ghost Value = { List ℕ };

    ghost view = { λ r. r.left.now };
}

impl<'a> FieldReader<'a> {
    pub fn new(bytes: &'a [u8]) -> FieldReader<'a>
        ensures { result ≡ bytes.now }
    {
        FieldReader { left: bytes }
    }

    /// A number of 1, 2, 4 or 8 bytes, the highest byte first. None where fewer are left; nothing is read then.
    pub fn number(&mut self, width: usize) -> Option<u64>
        requires { IsTrue (is_width width) }
        ensures read { Reads (number width) self.old self.new result }
        ensures fits { IfSome result (λ n. n < 256 ^ width) }
        ensures shorter { length self.new ≤ length self.old }
        ensures taken { OnSome result (length self.new + width ≡ length self.old) }
    {
        let digits = self.take(width)?;
        Some(value_of(digits))
    }

    /// A length of 1, 2, 4 or 8 bytes, and so many bytes. None where fewer are left; nothing is read then.
    pub fn run(&mut self, width: usize) -> Option<&'a [u8]>
        requires { IsTrue (is_width width) }
        ensures read { Reads (run_of width) self.old self.new (option_copied result) }
        ensures shorter { length self.new ≤ length self.old }
    {
        let before = self.left;
        let length = self.number(width)?;
        if length > self.left.len() as u64 {
            self.left = before;
            return None;
        }
        self.take(length as usize)
    }

    /// What is left.
    pub fn rest(&self) -> &'a [u8]
        ensures { result.now ≡ self.now }
    {
        self.left
    }

    fn take(&mut self, count: usize) -> Option<&'a [u8]>
        ensures read { Reads (bytes_of count) self.old self.new (option_copied result) }
        ensures shorter { length self.new ≤ length self.old }
        ensures taken { OnSome result (length self.new + count ≡ length self.old) }
    {
        if self.left.len() < count {
            return None;
        }
        let (run, after) = self.left.split_at(count);
        self.left = after;
        Some(run)
    }
}

/// The number whose digits these bytes are, the highest first.
fn value_of(digits: &[u8]) -> u64
    requires { length digits.now ≤ 8 }
    ensures value { result ≡ value_onto 0 digits.now }
    ensures fits { result < 256 ^ length digits.now }
{
    let mut n = 0;
    let mut rest = digits;
    while let [digit, after @ ..] = rest {
        n = n * 256 + *digit as u64;
        rest = after;
    }
    n
}

/// Appends a number of 1, 2, 4 or 8 bytes, the highest byte first. Without memory `out` stays as it was.
pub fn put_number(out: &mut Vec<u8>, width: usize, value: u64) -> Result<(), OutOfMemory>
    requires width { IsTrue (is_width width) }
    requires fits { value < 256 ^ width }
    ensures put { OnOk result (out.new.items ≡ out.old.items ++ number_field width value) }
    ensures refused { OnErr result (out.new.items ≡ out.old.items) }
{
    match width {
        1 => out.push(value as u8)?,
        2 => out.extend_from_slice(&(value as u16).to_be_bytes())?,
        4 => out.extend_from_slice(&(value as u32).to_be_bytes())?,
        _ => out.extend_from_slice(&value.to_be_bytes())?,
    }
    Ok(())
}

/// Appends a length of 1, 2, 4 or 8 bytes, and the bytes. Without memory `out` stays as it was.
pub fn put_run(out: &mut Vec<u8>, width: usize, bytes: &[u8]) -> Result<(), OutOfMemory>
    requires width { IsTrue (is_width width) }
    requires fits { length bytes.now < 256 ^ width }
    ensures put { OnOk result (out.new.items ≡ out.old.items ++ run_field width bytes.now) }
    ensures refused { OnErr result (out.new.items ≡ out.old.items) }
{
    let before = out.len();
    put_number(out, width, bytes.len() as u64)?;
    if out.extend_from_slice(bytes).is_err() {
        out.truncate(before);
        return Err(OutOfMemory);
    }
    Ok(())
}
