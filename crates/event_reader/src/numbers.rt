//! Numbers in their one spelling.

ghost use Rattle.std.specs.Prelude.{◌≡◌, ◌≢◌, ◌<◌, ◌≤◌, ◌+◌, ◌-◌, ◌^◌, ◌++◌, ◌∷◌, ◌↔◌, [], ℕ, List, IsTrue, MatchOption, pos, negsuc};
ghost use Rattle.std.specs.Fmt.{decimal, signed_decimal};
ghost use Rattle.event_reader.specs.Known.{IsSmall, IsInt};
ghost use Rattle.std.specs.Option.{SomeIff};
ghost use Rattle.event_reader.specs.Readings.{IsReading};

use crate::fields::after;

/// The number that is written so in decimal digits, without zeros before it and without a sign.
pub fn number_of(digits: &[u8]) -> Option<u64>
    ensures { IsReading (λ n. n < 2 ^ 64) decimal digits.now result }
{
    match digits {
        [digit] => digit_of(*digit),
        _ => long_of(digits),
    }
}

// The number that is written so in one digit.
fn digit_of(digit: u8) -> Option<u64>
    ensures { IsReading (λ n. n < 2 ^ 64) decimal (digit ∷ []) result }
{
    if digit < b'0' || digit > b'9' {
        return None;
    }
    Some(u64::from(digit - b'0'))
}

// The number that is written so in any number of digits.
fn long_of(digits: &[u8]) -> Option<u64>
    ensures { IsReading (λ n. n < 2 ^ 64) decimal digits.now result }
{
    let first = *digits.first()?;
    if first == b'+' {
        return None;
    }
    if first == b'0' && digits.len() > 1 {
        return None;
    }
    match str::from_utf8(digits) {
        Ok(text) => text.parse::<u64>().ok(),
        Err(_) => None,
    }
}

// Whether a number is written so.
pub fn is_written(number: u64, digits: &[u8]) -> bool
    ensures { IsTrue result ↔ (digits.now ≡ decimal number) }
{
    let mut left = number;
    let mut rest = digits;
    while left >= 10 {
        let Some(front) = before_digit(rest, left % 10) else {
            return false;
        };
        left /= 10;
        rest = front;
    }
    rest.len() == 1 && rest[0] == b'0' + left as u8
}

// What stands before this digit, if it is the last one.
fn before_digit(digits: &[u8], digit: u64) -> Option<&[u8]>
    requires { digit < 10 }
    ensures { MatchOption result ((front : List ℕ) → digits.now ≢ front ++ (48 + digit) ∷ []) (λ front. digits.now ≡ front.now ++ (48 + digit) ∷ []) }
{
    match digits {
        [front @ .., last] if *last == b'0' + digit as u8 => Some(front),
        _ => None,
    }
}

// The number of 32 bits that is written so.
pub fn small_of(digits: &[u8]) -> Option<u32>
    ensures { IsReading IsSmall decimal digits.now result }
{
    let number = number_of(digits)?;
    if number > u64::from(u32::MAX) {
        return None;
    }
    Some(number as u32)
}

// The number that is written so, with its sign.
pub fn int_of(field: &[u8]) -> Option<i64>
    ensures { IsReading IsInt signed_decimal field.now result }
{
    match after(field, b'-') {
        Some(digits) => negative(number_of(digits)?),
        None => positive(number_of(field)?),
    }
}

// The number itself.
fn positive(size: u64) -> Option<i64>
    ensures { SomeIff result (size < 2 ^ 63) (pos size) }
{
    if size > i64::MAX as u64 {
        return None;
    }
    Some(size as i64)
}

// The number below zero that is so far from it.
fn negative(size: u64) -> Option<i64>
    ensures { SomeIff result ((0 < size) × (size ≤ 2 ^ 63)) (negsuc (size - 1)) }
{
    if size == 0 || size > 1 << 63 {
        return None;
    }
    Some(-1 - (size - 1) as i64)
}
