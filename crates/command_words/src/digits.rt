//! Numbers as they are written on a command line.

use thiserror::Error;

/// The most digits of an entry's number.
const ENTRY_DIGITS_MAX: usize = 4;

/// The greatest number that a request has.
const NUMBER_MAX: u32 = u32::MAX - 1;

/// Why a word isn't the number that it is to be: what the word is, for a sentence that begins with it and `is`.
#[derive(Clone, Copy, Debug, PartialEq, Eq, Error)]
pub enum DigitsFault {
    /// It isn't one to four hexadecimal digits.
    #[error("no entry: an entry is one to four hexadecimal digits, as 0003 of Boot0003")]
    Entry,
    /// It isn't decimal digits.
    #[error("no number of a request: that is decimal digits, as 10")]
    Number,
    /// It is above the greatest number of a request.
    #[error("too large: the number of a request is at most 4294967294")]
    NumberTooLarge,
    /// It isn't a number of seconds of two bytes.
    #[error("no number of seconds: that is decimal digits, at most 65535")]
    Seconds,
    /// It is neither decimal digits nor `0x` and hexadecimal ones.
    #[error("no value of attributes: that is decimal digits, or 0x and hexadecimal ones")]
    Attributes,
    /// It has more than 32 bits.
    #[error("too large: attributes have 32 bits, so they are at most 0xffffffff")]
    AttributesTooLarge,
}

/// The number of an entry that the text is: one to four hexadecimal digits of either case, as in the name of the entry's
/// variable (UEFI 2.10, 3.1.1). `10` is the entry of Boot0010.
///
/// # Errors
///
/// [`DigitsFault::Entry`] if the text is something else.
pub fn entry_of_digits(text: &str) -> Result<u16, DigitsFault> {
    if text.len() > ENTRY_DIGITS_MAX || !is_hexadecimal(text) {
        return Err(DigitsFault::Entry);
    }
    u16::from_str_radix(text, 16).map_err(|_| DigitsFault::Entry)
}

/// The number of a request that the text is: decimal digits, of which the first may be zeros. `0010` is ten.
///
/// # Errors
///
/// [`DigitsFault::Number`] if the text isn't decimal digits, and [`DigitsFault::NumberTooLarge`] if the number is
/// above 4,294,967,294, the greatest one of a request.
pub fn number_of_digits(text: &str) -> Result<u32, DigitsFault> {
    if !is_decimal(text) {
        return Err(DigitsFault::Number);
    }
    match text.parse::<u32>() {
        Ok(number) if number <= NUMBER_MAX => Ok(number),
        _ => Err(DigitsFault::NumberTooLarge),
    }
}

/// The seconds of Timeout that the text is (UEFI 2.10, 3.3): decimal digits, of which the first may be zeros.
///
/// # Errors
///
/// [`DigitsFault::Seconds`] if the text isn't decimal digits, or the number is above 65,535.
pub fn seconds_of_digits(text: &str) -> Result<u16, DigitsFault> {
    if !is_decimal(text) {
        return Err(DigitsFault::Seconds);
    }
    text.parse::<u16>().map_err(|_| DigitsFault::Seconds)
}

/// The attributes of a load option that the text is (UEFI 2.10, 3.1.3): decimal digits, or `0x` and hexadecimal digits
/// of either case.
///
/// # Errors
///
/// [`DigitsFault::Attributes`] if the text is something else, and [`DigitsFault::AttributesTooLarge`] if the number
/// has more than 32 bits.
pub fn attributes_of_text(text: &str) -> Result<u32, DigitsFault> {
    let number = match text.strip_prefix("0x") {
        Some(digits) if is_hexadecimal(digits) => u32::from_str_radix(digits, 16),
        None if is_decimal(text) => text.parse::<u32>(),
        _ => return Err(DigitsFault::Attributes),
    };
    number.map_err(|_| DigitsFault::AttributesTooLarge)
}

/// Whether the text is decimal digits, one at least: no sign, no blank.
fn is_decimal(text: &str) -> bool {
    !text.is_empty() && text.bytes().all(|byte| byte.is_ascii_digit())
}

/// Whether the text is hexadecimal digits of either case, one at least: no sign, no blank.
fn is_hexadecimal(text: &str) -> bool {
    !text.is_empty() && text.bytes().all(|byte| byte.is_ascii_hexdigit())
}
