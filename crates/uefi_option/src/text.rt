//! Descriptions as text.

ghost use Rattle.std.specs.Prelude.{◌≡◌, ◌++◌, IfOk, OnOk};
ghost use Rattle.std.specs.String.{string_bytes};
ghost use Rattle.uefi_option.specs.Text.{is_plain, unit_text, units_text};

use std::alloc::{AllocError, Global};
use std::fmt::Write;

/// Whether a unit prints as itself: a printing ASCII character other than the backslash.
fn is_plain_unit(unit: u16) -> bool
    ensures { result ≡ is_plain unit }
{
    unit != 0x5c && (0x20..=0x7e).contains(&unit)
}

/// Appends the text of one unit.
fn append_unit(unit: u16, text: &mut String) -> Result<(), AllocError>
    ensures { OnOk result (string_bytes text.new ≡ string_bytes text.old ++ unit_text unit) }
{
    if is_plain_unit(unit) {
        return text.push(char::from(unit as u8));
    }
    let [high, low] = unit.to_be_bytes();
    write!(text, "\\{high:02x}{low:02x}")
}

/// The units of a description (UEFI 2.10, 3.1.3) as one line of ASCII text: a unit from 0x20 to 0x7E other than the
/// backslash, 0x5C, as itself, and every other as a backslash and its four hexadecimal digits in lower case. This fails
/// only when out of memory.
pub fn description_text(alloc: Global, description: &[u16]) -> Result<String, AllocError>
    ensures { IfOk result (λ text. string_bytes text ≡ units_text description.now) }
{
    let mut text = String::new(alloc);
    for unit in description {
        append_unit(*unit, &mut text)?;
    }
    Ok(text)
}
