//! Numbers as words.

ghost use Rattle.std.specs.Prelude.{◌≡◌, ◌<◌, min, nat_lt};
ghost use Rattle.std.specs.List.{list_all};
ghost use Rattle.std.specs.Char.{digit_value};
ghost use Rattle.std.specs.Str.Parse.{digits_value, without_leading_plus};
ghost use Rattle.efibootmgr_words.specs.Number.{number_of, hexadecimal_of, decimal_of, without_prefix};

/// The base of a hexadecimal number.
const HEXADECIMAL: u8 = 16;

/// The base of a decimal number.
const DECIMAL: u8 = 10;

/// The number that one or more hexadecimal digits of either case write, perhaps behind `0x`: `None` if it isn't written so.
/// Above [`u32::MAX`] it is that.
pub(crate) fn hexadecimal(text: &str) -> Option<u32>
    ensures { result ≡ hexadecimal_of text.now }
{
    number(without_prefix(text.as_bytes()), HEXADECIMAL)
}

/// The text without `0x` at its front.
fn without_prefix(text: &[u8]) -> &[u8]
    ensures { result.now ≡ without_prefix text.now }
{
    match text {
        [b'0', b'x', digits @ ..] => digits,
        [b'0', b'X', digits @ ..] => digits,
        _ => text,
    }
}

/// The number that one or more decimal digits write, perhaps behind a plus: `None` if it isn't written so. Above [`u32::MAX`]
/// it is that.
pub(crate) fn decimal(text: &str) -> Option<u32>
    ensures { result ≡ decimal_of text.now }
{
    number(without_plus(text.as_bytes()), DECIMAL)
}

/// The text without a plus at its front.
fn without_plus(text: &[u8]) -> &[u8]
    ensures { result.now ≡ without_leading_plus text.now }
{
    match text {
        [b'+', digits @ ..] => digits,
        _ => text,
    }
}

/// The number that one or more digits of a base write, of either case.
#[tactic(auto, unfolding(crate::specs::Number::number_of))]
fn number(digits: &[u8], base: u8) -> Option<u32>
    requires { 0 < base }
    ensures { result ≡ number_of base digits.now }
{
    if digits.is_empty() || !are_digits(digits, base) {
        None
    } else {
        Some(value_of(digits, base))
    }
}

fn are_digits(digits: &[u8], base: u8) -> bool
    ensures { result ≡ list_all (λ digit. nat_lt (digit_value digit) base) digits.now }
{
    digits.iter().all(|digit| digit_of(*digit) < base)
}

/// The value of a digit, of either case: 36 if the byte is neither a digit nor a letter.
fn digit_of(byte: u8) -> u8
    ensures { result ≡ digit_value byte }
{
    match byte {
        b'0'..=b'9' => byte - b'0',
        b'a'..=b'z' => byte - b'a' + DECIMAL,
        b'A'..=b'Z' => byte - b'A' + DECIMAL,
        _ => 36,
    }
}

/// The number that digits write, or the largest one of 32 bits.
fn value_of(digits: &[u8], base: u8) -> u32
    requires { 0 < base }
    ensures { result ≡ min (digits_value base digits.now) 0xFFFFFFFF }
{
    let mut value = 0u32;
    for digit in digits {
        value = value
            .saturating_mul(u32::from(base))
            .saturating_add(u32::from(digit_of(*digit)));
    }
    value
}
