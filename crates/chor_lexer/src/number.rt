//! Numbers.

ghost use Rattle.std.specs.Prelude.{◌≡◌, ◌^◌, ◌<◌, ◌≤◌, pos, true, IfSome, IfNone};
ghost use Rattle.std.specs.Char.{is_ascii_digit};
ghost use Rattle.std.specs.List.{AllByRecursion};
ghost use Rattle.std.specs.Str.Parse.{digits_value};

// The value of digits, unless it is above the greatest number.
pub fn number_of(digits: &[u8]) -> Option<i64>
    requires { AllByRecursion (λ b. is_ascii_digit b ≡ true) digits.now }
    ensures value { IfSome result (λ z. z ≡ pos (digits_value 10 digits.now)) }
    ensures small { IfSome result (λ _. digits_value 10 digits.now < 2 ^ 63) }
    ensures too_great { IfNone result (2 ^ 63 ≤ digits_value 10 digits.now) }
{
    let mut value = 0u64;
    for digit in digits {
        let next = u128::from(value) * 10 + u128::from(*digit - b'0');
        if next >= 1 << 63 {
            return None;
        }
        value = next as u64;
    }
    Some(value as i64)
}
