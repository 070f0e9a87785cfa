// Numbers as a ledger writes them.
ghost use Rattle.std.specs.Prelude.{◌≡◌, ◌≤◌, is_some, position};
ghost use Rattle.std.specs.Char.{is_ascii_digit};
ghost use Rattle.std.specs.List.{prefix_len};
ghost use Rattle.lines.specs.Numbers.{capped, decimal_of, decimals_of, fraction, hours_form, is_slash, number_of, numeral, pair_of, unsigned_hours, word_of};

use crate::fields::begins_with;
use std::str::from_utf8;

// The number that decimal digits write, where it fits 32 bits.
pub fn decimal(field: &[u8]) -> Option<u32>
    ensures { result ≡ decimal_of field.now }
{
    number(field, 10)
}

// The word of an archive that eight hexadecimal digits write.
pub fn archive_word(field: &[u8]) -> Option<u32>
    ensures { result ≡ word_of field.now }
{
    if field.len() == 8 {
        number(field, 16)
    } else {
        None
    }
}

// A decimal number up to a limit.
pub fn at_most(field: &[u8], limit: u32) -> Option<u32>
    ensures { result ≡ capped limit (decimal_of field.now) }
{
    decimal(field).filter(|value| *value <= limit)
}

// The number that digits of a radix write, where it fits 32 bits.
fn number(field: &[u8], radix: u32) -> Option<u32>
    requires low { 2 ≤ radix }
    requires high { radix ≤ 36 }
    ensures { result ≡ number_of radix field.now }
{
    let Ok(text) = from_utf8(field) else {
        return None;
    };
    if begins_with(field, b'+') {
        // The sign would be read below, and is no digit.
        return None;
    }
    u32::from_str_radix(text, radix).ok()
}

// Hours as a sheet writes them, as the nearest binary64 number.
pub fn hours(field: &[u8]) -> Option<f64>
    ensures { is_some result ≡ hours_form field.now }
{
    if !is_hours(field) {
        return None;
    }
    let Ok(text) = from_utf8(field) else {
        return None;
    };
    text.parse::<f64>().ok()
}

// An optional minus sign, digits, and optionally a point and digits.
fn is_hours(field: &[u8]) -> bool
    ensures { result ≡ hours_form field.now }
{
    if begins_with(field, b'-') {
        return is_unsigned(&field[1..]);
    }
    is_unsigned(field)
}

fn is_unsigned(text: &[u8]) -> bool
    ensures { result ≡ unsigned_hours text.now }
{
    let whole = digits_in_front(text);
    whole > 0 && is_fraction(&text[whole..])
}

// Nothing, or a point and digits.
fn is_fraction(text: &[u8]) -> bool
    ensures { result ≡ fraction text.now }
{
    text.is_empty() || (begins_with(text, b'.') && is_numeral(&text[1..]))
}

fn is_numeral(text: &[u8]) -> bool
    ensures { result ≡ numeral text.now }
{
    !text.is_empty() && digits_in_front(text) == text.len()
}

fn digits_in_front(text: &[u8]) -> usize
    ensures { result ≡ prefix_len is_ascii_digit text.now }
{
    text.iter().take_while(|byte| byte.is_ascii_digit()).count()
}

// Two decimal numbers with a slash between them.
pub fn pair(field: &[u8]) -> Option<(u32, u32)>
    ensures { result ≡ pair_of field.now }
{
    let slash = slash_place(field)?;
    decimals(&field[0..slash], &field[slash + 1..])
}

fn decimals(first: &[u8], second: &[u8]) -> Option<(u32, u32)>
    ensures { result ≡ decimals_of first.now second.now }
{
    Some((decimal(first)?, decimal(second)?))
}

// The place of the first slash.
fn slash_place(field: &[u8]) -> Option<usize>
    ensures { result ≡ position is_slash field.now }
{
    field.iter().position(|byte| *byte == b'/')
}
