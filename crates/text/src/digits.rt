//! The sixteen digits: the code of a value, and a byte in two of them.
ghost use Rattle.std.specs.Prelude.{◌≡◌, ◌+◌, ◌*◌};
ghost use Rattle.text.specs.Digits.{digit_value, digit_code, in_digits, no_byte, pair_value};
ghost use Rattle.text.specs.Answers.{if_below};

// What a code is worth as a digit. The library's `to_digit` takes small letters too, which no script has.
#[tactic(auto, unfolding(crate::specs::Digits::digit_value))]
fn value(code: u8) -> Option<u8>
    ensures { result ≡ if_below 16 (digit_value code) }
{
    match code {
        b'0'..=b'9' => Some(code - b'0'),
        b'A'..=b'F' => Some(code - b'A' + 10),
        _ => None,
    }
}

/// The code of the digit worth `n % 16`.
#[tactic(auto, unfolding(crate::specs::Digits::digit_code))]
pub fn code(n: u8) -> u8
    ensures { result ≡ digit_code n }
{
    let value = n % 16;
    if value < 10 {
        b'0' + value
    } else {
        b'A' - 10 + value
    }
}

/// A byte in two digits, that of its sixteens first.
pub fn of_byte(byte: u8) -> [u8; 2]
    ensures { result ≡ in_digits byte }
{
    [code(byte / 16), code(byte)]
}

// The byte that two codes write.
#[tactic(auto, unfolding(crate::specs::Digits::pair_value))]
pub(super) fn pair(high: u8, low: u8) -> Option<u8>
    ensures { result ≡ if_below no_byte (pair_value high low) }
{
    Some(16 * value(high)? + value(low)?)
}
