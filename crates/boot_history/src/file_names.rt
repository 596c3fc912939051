//! The names of the files of records.

ghost use Rattle.std.specs.Prelude.{◌≡◌, ◌<◌, ◌^◌, Some, IfOk};
ghost use Rattle.std.specs.Char.{is_ascii_digit};
ghost use Rattle.std.specs.List.{list_all};
ghost use Rattle.std.specs.String.{string_bytes};
ghost use Rattle.boot_history.specs.FileNames.{is_name, number_named};

use std::alloc::{AllocError, Global};

/// How many digits the name of a file has.
const DIGITS: usize = 10;

/// The greatest number that so many digits can state.
pub(crate) const NUMBER_MAX: u64 = 9_999_999_999;

/// The name of the file of the record of this number: ten digits, so that names are in the order of numbers.
pub(crate) fn file_name(alloc: Global, number: u64) -> Result<String, AllocError>
    ensures { number < 10 ^ 10 → IfOk result (λ name. number_named (string_bytes name) ≡ Some number) }
{
    format!(in alloc; "{number:010}")
}

/// The number of the record whose file has this name: `None` if it isn't ten digits.
pub(crate) fn file_number(name: &str) -> Option<u64>
    ensures { result ≡ number_named name.now }
{
    if is_name(name) {
        name.parse().ok()
    } else {
        None
    }
}

/// Whether this is ten digits.
fn is_name(name: &str) -> bool
    ensures { result ≡ is_name name.now }
{
    name.len() == DIGITS && is_digits(name)
}

/// Whether this is digits alone.
fn is_digits(text: &str) -> bool
    ensures { result ≡ list_all is_ascii_digit text.now }
{
    text.bytes().all(|byte| byte.is_ascii_digit())
}
