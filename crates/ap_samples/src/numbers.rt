//! The numbers of directives.
ghost use Rattle.std.specs.Prelude.{◌≡◌};
ghost use Rattle.std.specs.List.{list_all};
ghost use Rattle.std.specs.Char.{is_ascii_digit};
ghost use Rattle.ap_samples.specs.Numbers.{is_decimal_lem, number_within, signed_number_lem};

use std::str;

fn is_decimal(text: &[u8]) -> bool
    ensures { result ≡ is_decimal_lem text.now }
{
    match text {
        [] => false,
        [b'0'] => true,
        [b'0', ..] => false,
        _ => has_digits(text),
    }
}

fn has_digits(text: &[u8]) -> bool
    ensures { result ≡ list_all is_ascii_digit text.now }
{
    text.iter().all(|b| b.is_ascii_digit())
}

/// The number from the least to the most one that a decimal spells.
pub(crate) fn number(least: u32, most: u32, text: &[u8]) -> Option<u32>
    ensures { result ≡ number_within least most text.now }
{
    if !is_decimal(text) {
        return None;
    }
    let Ok(digits) = str::from_utf8(text) else {
        return None;
    };
    let Ok(number) = digits.parse::<u32>() else {
        return None;
    };
    if least <= number && number <= most {
        Some(number)
    } else {
        None
    }
}

/// The number that a decimal spells, perhaps with a minus before it.
pub(crate) fn signed_number(text: &[u8]) -> Option<i32>
    ensures { result ≡ signed_number_lem text.now }
{
    match text {
        [b'-', digits @ ..] => {
            let number = number(1, 2_147_483_648, digits)?;
            Some((-(number as i64)) as i32)
        }
        _ => {
            let number = number(0, 2_147_483_647, text)?;
            Some(number as i32)
        }
    }
}
