//! Whole numbers that JSON writes as they stand: digits and nothing else (10.3.2).
ghost use Rattle.std.specs.Prelude.{◌≡◌, ◌<◌, IfSome, Some, All};
ghost use Rattle.std.specs.Char.{digit_value};
ghost use Rattle.std.specs.Str.Parse.{AllDigits, digits_value as value_of};
ghost use Rattle.serde_json.specs.Data.{number, unsigned};
ghost use Rattle.ref_yaml.specs.Core.{core_value};
ghost use Rattle.ref_yaml.specs.Passing.{IsWithoutMark};

use crate::number::is_json_whole;

// What a byte is as a digit.
fn digit(byte: u8) -> Option<u64>
    ensures value { IfSome result (λ d. d ≡ digit_value byte) }
    ensures below { IfSome result (λ d. d < 10) }
{
    if byte.is_ascii_digit() {
        return Some(u64::from(byte - b'0'));
    }
    None
}

// The number that digits write, where it has 18 digits at most.
fn digits_value(text: &[u8]) -> Option<u64>
    ensures digits { IfSome result (λ _. AllDigits 10 text.now) }
    ensures value { IfSome result (λ n. value_of 10 text.now ≡ n) }
    ensures below { IfSome result (λ n. n < 1000000000000000000) }
{
    let mut number: u64 = 0;
    for byte in text {
        let digit = digit(*byte)?;
        if number >= 100_000_000_000_000_000 {
            return None;
        }
        number = number * 10 + digit;
    }
    Some(number)
}

// The number that a plain text is, where that is some digits, 18 at most, as JSON writes them.
pub(crate) fn whole_value(text: &[u8]) -> Option<u64>
    ensures value { IfSome result (λ n. core_value text.now ≡ Some (number (unsigned n))) }
    ensures one_line { IfSome result (λ _. All (IsWithoutMark 10) text.now) }
{
    if !is_json_whole(text) {
        return None;
    }
    digits_value(text)
}
