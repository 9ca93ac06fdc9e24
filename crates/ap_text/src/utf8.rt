//! Text in UTF-8.
ghost use Rattle.std.specs.Prelude.{◌≡◌, ◌↔◌, IsTrue};
ghost use Rattle.std.specs.Str.{IsUtf8, is_utf8};

use std::str;

pub(crate) fn is_text(bytes: &[u8]) -> bool
    ensures told { result ≡ is_utf8 bytes.now }
    ensures means { IsTrue result ↔ IsUtf8 bytes.now }
{
    str::from_utf8(bytes).is_ok()
}
