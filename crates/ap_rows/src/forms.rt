//! What stands in lists of fields.
ghost use Rattle.std.specs.Prelude.{◌≡◌, ◌≤◌, IfOk, IfErr, Some, None, length};
ghost use Rattle.ap_rows.specs.Readers.{list_of};

use crate::fields::FieldReader;
use crate::read::{Unread, read_u32};
use ap_text::List;
use std::alloc::Global;

/// What can be read from fields.
pub(crate) trait Form: Drop {
    ghost use Rattle.ap_rows.specs.Readers.{Reader};

    // The bytes that it is read from.
    ghost form: { Reader Self };

    fn read(reader: &mut FieldReader<'_>, alloc: Global) -> Result<Self, Unread>
        ensures read { IfOk result (λ x. form reader.old ≡ Some (x, reader.new)) }
        ensures outside { IfErr result (λ stop. stop ≡ Unread.Outside → form reader.old ≡ None) }
        ensures shorter { length reader.new ≤ length reader.old };
}

/// A u32 count and so many items.
pub(crate) fn read_list<X: Form>(
    reader: &mut FieldReader<'_>,
    alloc: Global,
) -> Result<List<X>, Unread>
    ensures read { IfOk result (λ items. list_of 4 X.form reader.old ≡ Some (items, reader.new)) }
    ensures outside { IfErr result (λ stop. stop ≡ Unread.Outside → list_of 4 X.form reader.old ≡ None) }
    ensures shorter { length reader.new ≤ length reader.old }
{
    let mut left = read_u32(reader)?;
    let mut items = Vec::new(alloc);
    while left > 0 {
        let item = X::read(reader, alloc)?;
        if items.push(item).is_err() {
            return Err(Unread::OutOfMemory);
        }
        left -= 1;
    }
    Ok(List::of(items))
}
