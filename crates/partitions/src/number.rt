//! Numbers as digits.

ghost use Rattle.std.specs.Prelude.{◌≡◌, ◌<◌, ◌≤◌, ◌^◌, ◌+◌, ◌*◌, nat_lt, IfSome, IfNone};
ghost use Rattle.std.specs.List.{list_all};
ghost use Rattle.std.specs.Char.{digit_value};
ghost use Rattle.std.specs.Str.Parse.{digits_value};
ghost use Rattle.partitions.specs.Number.{number_of, file_number_of, without_line_feed};

/// The base of a decimal number.
pub(crate) const DECIMAL: u8 = 10;

/// The base of a hexadecimal number.
pub(crate) const HEXADECIMAL: u8 = 16;

/// The number that a file of /sys has: one or more decimal digits, and perhaps a line feed after them. `None` for every
/// other text, and for a number that 64 bits can't hold.
pub fn read_number(text: &[u8]) -> Option<u64>
    ensures { result ≡ file_number_of text.now }
{
    number(without_line_feed(text), DECIMAL, u64::MAX)
}

/// The text without a line feed at its end.
fn without_line_feed(text: &[u8]) -> &[u8]
    ensures { result.now ≡ without_line_feed text.now }
{
    match text {
        [front @ .., b'\n'] => front,
        _ => text,
    }
}

/// The number that one or more digits of a base write, of either case, if it is at most this large.
#[tactic(auto, unfolding(crate::specs::Number::number_of))]
pub(crate) fn number(digits: &[u8], base: u8, most: u64) -> Option<u64>
    requires { 0 < base }
    ensures value { result ≡ number_of base most digits.now }
    ensures bound { IfSome result (λ value. value ≤ most) }
{
    if digits.is_empty() || !are_digits(digits, base) {
        return None;
    }
    match value_of(digits, base) {
        Some(value) if value <= most => Some(value),
        _ => None,
    }
}

/// The number of at most 32 bits that digits write.
pub(crate) fn number_u32(digits: &[u8], base: u8) -> Option<u32>
    requires { 0 < base }
    ensures { result ≡ number_of base 0xFFFFFFFF digits.now }
{
    match number(digits, base, 0xFFFF_FFFF) {
        Some(value) => Some(value as u32),
        None => None,
    }
}

fn are_digits(digits: &[u8], base: u8) -> bool
    ensures { result ≡ list_all (λ digit. nat_lt (digit_value digit) base) digits.now }
{
    digits.iter().all(|digit| digit_of(*digit) < base)
}

/// The value of a digit, of either case: 36 if the byte is neither a digit nor a letter.
fn digit_of(byte: u8) -> u8
    ensures { result ≡ digit_value byte }
{
    match byte {
        b'0'..=b'9' => byte - b'0',
        b'a'..=b'z' => byte - b'a' + DECIMAL,
        b'A'..=b'Z' => byte - b'A' + DECIMAL,
        _ => 36,
    }
}

/// The number that digits write, if 64 bits hold it.
fn value_of(digits: &[u8], base: u8) -> Option<u64>
    requires { 0 < base }
    ensures some { IfSome result (λ value. value ≡ digits_value base digits.now) }
    ensures none { IfNone result (2 ^ 64 ≤ digits_value base digits.now) }
{
    let mut value = 0;
    for digit in digits {
        match with_digit(value, base, digit_of(*digit)) {
            Some(more) => value = more,
            None => return None,
        }
    }
    Some(value)
}

/// The number with a digit after it, if 64 bits hold it.
fn with_digit(value: u64, base: u8, digit: u8) -> Option<u64>
    ensures some { IfSome result (λ more. more ≡ value * base + digit) }
    ensures none { IfNone result (2 ^ 64 ≤ value * base + digit) }
{
    match value.checked_mul(u64::from(base)) {
        Some(product) => product.checked_add(u64::from(digit)),
        None => None,
    }
}
