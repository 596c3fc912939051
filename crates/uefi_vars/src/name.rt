//! The names of variables, and whose those of the standard are.

ghost use Rattle.std.specs.Prelude.{◌≡◌, ◌↔◌, ℕ, ◌<◌, ◌^◌, Some, IfSome, IsTrue};
ghost use Rattle.std.specs.List.{AllByRecursion};
ghost use Rattle.uefi_vars.specs.Name.{IsNameByte, IsName, upper_digit, four_digits, entry_text};

use std::fmt;
use uefi_path::Guid;

/// The most characters that a name has.
pub const NAME_MAX: usize = 64;

/// The name of the variable that says in which order entries are tried (UEFI 2.10, 3.3).
pub const BOOT_ORDER: &str = "BootOrder";

/// The name of the variable that says which entry the next boot tries first (UEFI 2.10, 3.3).
pub const BOOT_NEXT: &str = "BootNext";

/// The name of the variable that says how many seconds the boot manager waits before it boots by itself (UEFI 2.10, 3.3).
pub const TIMEOUT: &str = "Timeout";

/// The name of the variable in which a keeper of requests stores which of them were applied. Firmware refuses it.
pub const KEEP_STATE: &str = "BootKeepState";

/// 8be4df61-93ca-11d2-aa0d-00e098032b8c, EFI_GLOBAL_VARIABLE, the vendor of the variables of the standard (UEFI 2.10,
/// 3.3).
pub const GLOBAL_VENDOR: Guid = Guid([
    0x61, 0xDF, 0xE4, 0x8B, 0xCA, 0x93, 0xD2, 0x11, 0xAA, 0x0D, 0x00, 0xE0, 0x98, 0x03, 0x2B, 0x8C,
]);

/// Whether these bytes are the characters of a name: one to [`NAME_MAX`] of them, each from 0x21 to 0x7E.
pub(crate) fn is_name(name: &[u8]) -> bool
    ensures { IsTrue result ↔ IsName name.now }
{
    !name.is_empty() && name.len() <= NAME_MAX && name.iter().all(|byte| byte.is_ascii_graphic())
}

/// These bytes as text, which are the characters of a name.
pub(crate) fn name_text(name: &[u8]) -> &str
    requires { IsName name.now }
    ensures { result.now ≡ name.now }
{
    // Each of them is ASCII.
    unsafe { str::from_utf8_unchecked(name) }
}

/// The hexadecimal digit for a number below 16, in upper case.
fn upper_digit(number: u16) -> u8
    requires { number < 16 }
    ensures { result ≡ upper_digit number }
{
    let digit = number as u8;
    if digit < 10 {
        b'0' + digit
    } else {
        b'A' + (digit - 10)
    }
}

/// The number that an upper-case hexadecimal digit stands for.
fn digit_value(digit: u8) -> Option<u16>
    ensures found { IfSome result (λ number. (number < 16) × (digit ≡ upper_digit number)) }
    ensures only { (number : ℕ) → number < 16 → digit ≡ upper_digit number → result ≡ Some number }
{
    match digit {
        b'0'..=b'9' => Some(u16::from(digit - b'0')),
        b'A'..=b'F' => Some(u16::from(digit - b'A') + 10),
        _ => None,
    }
}

/// The four hexadecimal digits of a number, in upper case.
pub(crate) fn four_digits(number: u16) -> [u8; 4]
    ensures digits { result ≡ four_digits number }
    ensures ascii { AllByRecursion IsNameByte result }
{
    [
        upper_digit(number / 0x1000),
        upper_digit(number / 0x100 % 0x10),
        upper_digit(number / 0x10 % 0x10),
        upper_digit(number % 0x10),
    ]
}

/// The name of the entry of this number (UEFI 2.10, 3.1.1 and 3.3), as ASCII: `Boot` and its four hexadecimal digits in
/// upper case.
pub fn entry_name(number: u16) -> [u8; 8]
    ensures text { result ≡ entry_text number }
    // So it is text, and the name of a variable.
    ensures name { IsName result }
{
    let [a, b, c, d] = four_digits(number);
    [b'B', b'o', b'o', b't', a, b, c, d]
}

/// The number of the entry that has this name (UEFI 2.10, 3.1.1 and 3.3), if it is that of an entry: as ASCII, `Boot`
/// and four hexadecimal digits, of which the letters are in upper case. `Boot00ab` isn't an entry's name.
pub fn entry_number(name: &str) -> Option<u16>
    ensures { (number : ℕ) →
        (result ≡ Some number) ↔ ((number < 2 ^ 16) × (name.now ≡ entry_text number)) }
{
    let [b'B', b'o', b'o', b't', digits @ ..] = name.as_bytes() else {
        return None;
    };
    number_of(digits)
}

/// The number whose four hexadecimal digits in upper case these are.
pub(crate) fn number_of(digits: &[u8]) -> Option<u16>
    ensures { (number : ℕ) →
        (result ≡ Some number) ↔ ((number < 2 ^ 16) × (digits.now ≡ four_digits number)) }
{
    let [a, b, c, d] = digits else {
        return None;
    };
    let high = digit_value(*a)? * 0x1000 + digit_value(*b)? * 0x100;
    let low = digit_value(*c)? * 0x10 + digit_value(*d)?;
    Some(high + low)
}

/// The number of an entry, shown as the name of its variable (UEFI 2.10, 3.1.1).
#[derive(Clone, Copy, Debug, PartialEq, Eq)]
pub struct EntryName(pub u16);

impl fmt::Display for EntryName {
    fn fmt<W: fmt::Write>(&self, f: &mut fmt::Formatter<W>) -> fmt::Result {
        write!(f, "Boot{}", EntryDigits(self.0))
    }
}

/// The number of an entry, shown as the four hexadecimal digits in upper case that its variable's name has (UEFI 2.10,
/// 3.1.1).
#[derive(Clone, Copy, Debug, PartialEq, Eq, PartialOrd, Ord)]
pub struct EntryDigits(pub u16);

impl fmt::Display for EntryDigits {
    fn fmt<W: fmt::Write>(&self, f: &mut fmt::Formatter<W>) -> fmt::Result {
        write!(f, "{:04X}", self.0)
    }
}
