//! Descriptions as texts: as JSON has them, and as words of a command line give them.

ghost use Rattle.std.specs.Prelude.{◌≡◌, ◌≢◌, ◌≤◌, ◌++◌, ◌∷◌, ℕ, List, None, length, flat_map, IfOk, IfErr, IfSome, OnOk, MatchOption};
ghost use Rattle.std.specs.Char.Escape.{encode_utf16};
ghost use Rattle.std.specs.Str.{chars};
ghost use Rattle.std.specs.Str.Parse.{AllDigits, digits_value};
ghost use Rattle.value_texts.specs.Description.{HasNoUnit, BeginsWithUnit, BeginsWithU, BeginsWithEscape, IsNoEscape, IsEscapeFault, IsFront, IsDescription, IsDescriptionFault};
ghost use Rattle.value_texts.specs.declared.description.DescriptionFault.TheVariants as fault;

use std::alloc::{AllocError, AllocFailed, Global};
use thiserror::Error;
use uefi_path::append_units;

/// How many digits an escape has.
const ESCAPE_LEN: usize = 4;

/// Why a text is no description. The number is the place of a backslash among the text's characters, counted from 0.
#[derive(Clone, Copy, Debug, PartialEq, Eq, Error)]
pub enum DescriptionFault {
    /// A `u` comes after the backslash, and not four hexadecimal digits.
    #[error("at character {0}, counted from 0, \\u comes without four hexadecimal digits; a backslash before a u is \\u005c")]
    NoDigits(usize),
    /// Four hexadecimal digits come after the backslash.
    #[error("at character {0}, counted from 0, is an escape as lines of `show` have it: give the character itself, or \\u and the digits")]
    OfLines(usize),
    /// Memory was refused.
    #[error("out of memory")]
    OutOfMemory,
}

impl From<AllocError> for DescriptionFault {
    ghost from_gives = { λ _ made. made ≡ fault.OutOfMemory };

    fn from(_refusal: AllocError) -> DescriptionFault {
        DescriptionFault::OutOfMemory
    }
}

impl<T: Drop> From<AllocFailed<T>> for DescriptionFault {
    ghost from_gives = { λ _ made. made ≡ fault.OutOfMemory };

    fn from(_refusal: AllocFailed<T>) -> DescriptionFault {
        DescriptionFault::OutOfMemory
    }
}

/// The bytes of a description in hexadecimal digits, two bytes little-endian for each unit (UEFI 2.10, 3.1.3), if its text
/// doesn't say all: if [`description_units`] of the text wouldn't give these units. This fails only when out of memory.
pub(crate) fn description_digits(
    alloc: Global,
    units: &[u16],
) -> Result<Option<String>, AllocError> {
    let text = String::from_utf16_lossy(alloc, units)?;
    match description_units(alloc, &text) {
        Ok(read) if read.as_slice() == units => return Ok(None),
        Err(DescriptionFault::OutOfMemory) => return Err(AllocError),
        _ => {}
    }
    let mut bytes = Vec::new(alloc);
    append_units(units, &mut bytes)?;
    Ok(Some(hex::encode(alloc, &bytes)?))
}

/// The units of the description for which a text stands: those of UTF-16, where a backslash, `u` and four hexadecimal
/// digits are the unit of this number. Any other backslash is itself.
///
/// # Errors
///
/// [`DescriptionFault::NoDigits`] and [`DescriptionFault::OfLines`] with the first backslash that is neither, and
/// [`DescriptionFault::OutOfMemory`] if memory was refused.
pub fn description_units(alloc: Global, text: &str) -> Result<Vec<u16>, DescriptionFault>
    ensures found { IfOk result (λ units. IsDescription (chars text.now) units.items) }
    ensures fault { IfErr result (λ f. f ≢ fault.OutOfMemory → IsDescriptionFault (chars text.now) f) }
{
    let characters = characters_of(alloc, text)?;
    units_of(alloc, &characters)
}

/// The characters of a text.
fn characters_of(alloc: Global, text: &str) -> Result<Vec<char>, AllocError>
    ensures { IfOk result (λ characters. characters.items ≡ chars text.now) }
{
    let mut characters = Vec::new(alloc);
    for character in text.chars() {
        characters.push(character)?;
    }
    Ok(characters)
}

/// The same of a text of these characters.
fn units_of(alloc: Global, characters: &[char]) -> Result<Vec<u16>, DescriptionFault>
    ensures found { IfOk result (λ units. IsDescription characters.now units.items) }
    ensures fault { IfErr result (λ f. f ≢ fault.OutOfMemory → IsDescriptionFault characters.now f) }
{
    let mut units = Vec::new(alloc);
    let mut rest = characters;
    while let Some((first, after)) = rest.split_first() {
        let place = characters.len().saturating_sub(rest.len());
        rest = append_front(*first, after, place, &mut units)?;
    }
    Ok(units)
}

/// Appends the units for which the first character, at this place, stands with the front of those after it. Returns those
/// that are left.
fn append_front<'a>(
    first: char,
    after: &'a [char],
    place: usize,
    units: &mut Vec<u16>,
) -> Result<&'a [char], DescriptionFault>
    ensures front { IfOk result (λ rest. (here : List ℕ)
        × IsFront (first ∷ after.now) here rest.now × (units.new.items ≡ units.old.items ++ here)) }
    ensures less { IfOk result (λ rest. length rest.now ≤ length after.now) }
    ensures fault { IfErr result (λ f. f ≢ fault.OutOfMemory → (first ≡ 0x5C) × IsEscapeFault after.now place f) }
{
    if first != '\\' {
        append_character(first, units)?;
        return Ok(after);
    }
    match escape_at(after, place)? {
        Some((unit, rest)) => {
            units.push(unit)?;
            Ok(rest)
        }
        None => {
            units.push(0x5c)?;
            Ok(after)
        }
    }
}

/// The unit that an escape writes whose backslash is at this place, before these characters, and those after the escape:
/// `None` if the backslash is itself.
fn escape_at(text: &[char], place: usize) -> Result<Option<(u16, &[char])>, DescriptionFault>
    ensures found { IfOk result (λ found. MatchOption found (IsNoEscape text.now)
        (λ escape. BeginsWithEscape text.now escape.0 escape.1.now)) }
    ensures less { IfOk result (λ found. IfSome found (λ escape. length escape.1.now ≤ length text.now)) }
    ensures fault { IfErr result (IsEscapeFault text.now place) }
{
    match after_letter(text) {
        Some(digits) => match unit_at(digits) {
            Some(found) => Ok(Some(found)),
            None => Err(DescriptionFault::NoDigits(place)),
        },
        None => match unit_at(text) {
            Some(_) => Err(DescriptionFault::OfLines(place)),
            None => Ok(None),
        },
    }
}

/// What comes after the `u` at the front of these characters, if it is there.
fn after_letter(text: &[char]) -> Option<&[char]>
    ensures found { IfSome result (λ behind. BeginsWithU text.now behind.now) }
    ensures none { result ≡ None → (behind : List ℕ) → ¬ BeginsWithU text.now behind }
{
    match text.split_first() {
        Some(('u', behind)) => Some(behind),
        _ => None,
    }
}

/// The number of the four hexadecimal digits at the front of these characters, and those after them.
fn unit_at(text: &[char]) -> Option<(u16, &[char])>
    ensures found { IfSome result (λ found. BeginsWithUnit text.now found.0 found.1.now) }
    ensures none { result ≡ None → HasNoUnit text.now }
{
    let (digits, rest) = text.split_first_chunk::<ESCAPE_LEN>()?;
    let unit = unit_of(*digits)?;
    Some((unit, rest))
}

/// The number that these digits write, if they are hexadecimal ones.
fn unit_of(digits: [char; ESCAPE_LEN]) -> Option<u16>
    ensures some { IfSome result (λ unit. AllDigits 16 digits × (unit ≡ digits_value 16 digits)) }
    ensures none { result ≡ None → ¬ AllDigits 16 digits }
{
    let [first, second, third, fourth] = digits;
    let high = first.to_digit(16)? * 0x10 + second.to_digit(16)?;
    let low = third.to_digit(16)? * 0x10 + fourth.to_digit(16)?;
    Some((high * 0x100 + low) as u16)
}

/// Appends the units of UTF-16 that a character has. This fails only when out of memory.
fn append_character(character: char, units: &mut Vec<u16>) -> Result<(), AllocError>
    ensures { OnOk result (units.new.items ≡ units.old.items ++ encode_utf16 character) }
{
    let mut buffer = [0; 2];
    units.extend_from_slice(character.encode_utf16(&mut buffer))
}

/// Appends the units of UTF-16 that a text has. This fails only when out of memory.
pub fn append_text_units(text: &str, units: &mut Vec<u16>) -> Result<(), AllocError>
    ensures { OnOk result (units.new.items ≡ units.old.items ++ flat_map encode_utf16 (chars text.now)) }
{
    for character in text.chars() {
        append_character(character, units)?;
    }
    Ok(())
}
