//! The characters of units of UTF-16, as they are listed.

ghost use Rattle.std.specs.Prelude.{◌≡◌, ◌∷◌, ◌++◌, ◌<◌, [], ℕ, false, length, Some, IfSome, IfNone, OnOk};
ghost use Rattle.std.specs.String.{string_bytes};
ghost use Rattle.uefi_names.specs.Shown.{pair_char};
ghost use Rattle.efibootmgr_words.specs.Units.{has_pair, lone_text, units_text, first_text};

use std::alloc::AllocError;
use uefi_names::{is_hidden, pair_char};
use uefi_text::DigitsText;

/// What the first units of a text are listed as.
#[derive(Clone, Copy)]
enum FirstUnits {
    /// A character as it is.
    Shown(char),
    /// A unit by its digits: half of a character, or a character on which a terminal may act.
    Escaped(u16),
}

/// Appends the characters of units up to the first zero unit. Those that steer a terminal, and units that are half of a
/// character, are escaped.
pub(crate) fn append_units(units: &[u16], text: &mut String) -> Result<(), AllocError>
    ensures { OnOk result (string_bytes text.new ≡ string_bytes text.old ++ units_text units.now) }
{
    let mut rest = units;
    while let Some((first, others)) = split_units(rest) {
        append_first(first, text)?;
        rest = others;
    }
    Ok(())
}

/// Appends what the first units are listed as.
fn append_first(first: FirstUnits, text: &mut String) -> Result<(), AllocError>
    ensures { OnOk result (string_bytes text.new ≡ string_bytes text.old ++ first_text first) }
{
    match first {
        FirstUnits::Shown(character) => text.push(character),
        FirstUnits::Escaped(unit) => write!(text, "\\u{}", DigitsText(&unit.to_be_bytes())),
    }
}

/// What the first units are listed as, and the units after them: `None` at a zero unit and at the end.
fn split_units(units: &[u16]) -> Option<(FirstUnits, &[u16])>
    ensures some { IfSome result (λ split. units_text units.now ≡ first_text split.0 ++ units_text split.1.now) }
    ensures none { IfNone result (units_text units.now ≡ []) }
    ensures less { IfSome result (λ split. length split.1.now < length units.now) }
{
    let Some((unit, others)) = units.split_first() else {
        return None;
    };
    if *unit == 0 {
        return None;
    }
    match split_low(*unit, others) {
        Some((character, after)) => Some((FirstUnits::Shown(character), after)),
        None => Some((lone_unit(*unit), others)),
    }
}

/// The character of a unit and the first of these, if they are a pair, and the units after them.
fn split_low(high: u16, units: &[u16]) -> Option<(char, &[u16])>
    ensures some { IfSome result (λ split. (low : ℕ) × (units.now ≡ low ∷ split.1.now) × (pair_char high low ≡ Some split.0)) }
    ensures none { IfNone result (has_pair high units.now ≡ false) }
    ensures less { IfSome result (λ split. length split.1.now < length units.now) }
{
    let Some((low, after)) = units.split_first() else {
        return None;
    };
    match pair_char(high, *low) {
        Some(character) => Some((character, after)),
        None => None,
    }
}

/// What a unit is listed as that is in no pair.
fn lone_unit(unit: u16) -> FirstUnits
    ensures { first_text result ≡ lone_text unit }
{
    match char::from_u32(u32::from(unit)) {
        Some(character) if !is_hidden(character) => FirstUnits::Shown(character),
        _ => FirstUnits::Escaped(unit),
    }
}
