//! The parts of a line, one after another.

ghost use Rattle.std.specs.Prelude.{◌≡◌, ℕ, ◌==◌, ◌∷◌, ◌<◌, ◌≤◌, ◌^◌, position, decimal, IfSome, IfNone};
ghost use Rattle.event_log.specs.Reading as spec;

use crate::word::right_named;
use smbd_base::Right;
use std::str;

/// The place of the first space.
fn space_in(bytes: &[u8]) -> Option<usize>
    ensures { result ≡ position (λ b. b == 32) bytes.now }
{
    bytes.iter().position(|&b| b == b' ')
}

/// The bytes before the first space, and those after it, where there is one. With no space the first part is all.
pub fn first_part(bytes: &[u8]) -> (&[u8], Option<&[u8]>)
    ensures { spec.parts_of bytes.now ≡ result.0.now ∷ spec.parts_left result.1 }
{
    match space_in(bytes) {
        Some(at) => (&bytes[..at], Some(&bytes[at + 1..])),
        None => (bytes, None),
    }
}

/// The number whose decimal digits are the text, if it is below 2^64.
fn decimal_value(text: &[u8]) -> Option<u64>
    ensures some { IfSome result (λ n. text.now ≡ decimal n) }
    ensures none { IfNone result ((n : ℕ) → n < 2 ^ 64 → text.now ≡ decimal n → ⊥) }
{
    if text.is_empty() {
        return None;
    }
    if text[0] == b'+' {
        return None;
    }
    if text[0] == b'0' && text.len() > 1 {
        return None;
    }
    let Ok(digits) = str::from_utf8(text) else {
        return None;
    };
    match digits.parse::<u64>() {
        Ok(number) => Some(number),
        Err(_) => None,
    }
}

/// The number of this range that the text spells by its decimal digits alone: with no sign and no leading zero.
pub fn number_in(text: &[u8], least: u64, most: u64) -> Option<u64>
    ensures value { result ≡ spec.number_in least most text.now }
    ensures least { IfSome result (λ n. least ≤ n) }
    ensures most { IfSome result (λ n. n ≤ most) }
{
    let number = decimal_value(text)?;
    if number < least {
        return None;
    }
    if most < number {
        return None;
    }
    Some(number)
}

/// The number of this range that the next part spells, and the parts after it. The next part is the bytes of `rest` up
/// to the first space, and it spells a number by the number's decimal digits alone: with no sign and no leading zero.
pub fn next_number(rest: Option<&[u8]>, least: u64, most: u64) -> Option<(u64, Option<&[u8]>)>
    ensures value { spec.value_and_parts result ≡ spec.next_number least most (spec.parts_left rest.entry) }
    ensures least { IfSome result (λ read. least ≤ read.0) }
    ensures most { IfSome result (λ read. read.0 ≤ most) }
{
    let (part, after) = first_part(rest?);
    let number = number_in(part, least, most)?;
    Some((number, after))
}

/// The right that the next part names, and the parts after it.
pub(crate) fn next_right(rest: Option<&[u8]>) -> Option<(Right, Option<&[u8]>)>
    ensures { spec.value_and_parts result ≡ spec.next_right (spec.parts_left rest.entry) }
{
    let (part, after) = first_part(rest?);
    let right = right_named(part)?;
    Some((right, after))
}
