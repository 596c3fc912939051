//! Texts in JSON (RFC 8259, 7). What a terminal may act on is an escape, so that no file that is shown can steer one; it
//! is the same text to whoever reads the JSON.

ghost use Rattle.std.specs.Prelude.{◌≡◌, ◌∷◌, ◌++◌, ◌≤◌, length, flat_map, IfOk, IfSome, IfNone, OnOk};
ghost use Rattle.std.specs.Str.{chars};
ghost use Rattle.std.specs.String.{string_bytes};
ghost use Rattle.value_texts.specs.Json.{escape_letter, unit_escape, character_json, text_json, lone_json, units_inside, units_json};

use std::alloc::AllocError;
use uefi_names::{is_hidden, pair_char};

/// Appends a text.
pub(crate) fn append_text(text: &str, json: &mut String) -> Result<(), AllocError>
    ensures { OnOk result (string_bytes json.new ≡ string_bytes json.old ++ text_json (chars text.now)) }
{
    json.push('"')?;
    append_characters(text, json)?;
    json.push('"')
}

/// Appends a text of units of UTF-16, in which half of a pair is an escape.
pub(crate) fn append_units(units: &[u16], json: &mut String) -> Result<(), AllocError>
    ensures { OnOk result (string_bytes json.new ≡ string_bytes json.old ++ units_json units.now) }
{
    json.push('"')?;
    append_units_inside(units, json)?;
    json.push('"')
}

/// Appends what is in a text for its characters.
fn append_characters(text: &str, json: &mut String) -> Result<(), AllocError>
    ensures { OnOk result
        (string_bytes json.new ≡ string_bytes json.old ++ flat_map character_json (chars text.now)) }
{
    for character in text.chars() {
        append_character(character, json)?;
    }
    Ok(())
}

/// Appends what is in a text for its units.
fn append_units_inside(units: &[u16], json: &mut String) -> Result<(), AllocError>
    ensures { OnOk result (string_bytes json.new ≡ string_bytes json.old ++ units_inside units.now) }
{
    let mut rest = units;
    while let Some((unit, after)) = rest.split_first() {
        rest = append_first(*unit, after, json)?;
    }
    Ok(())
}

/// Appends what is in a text for a unit, with the first of those after it if they are a pair. Returns those that are left.
fn append_first<'a>(unit: u16, after: &'a [u16], json: &mut String) -> Result<&'a [u16], AllocError>
    ensures left { IfOk result (λ rest. string_bytes json.new ++ units_inside rest.now
        ≡ string_bytes json.old ++ units_inside (unit ∷ after.now)) }
    ensures less { IfOk result (λ rest. length rest.now ≤ length after.now) }
{
    match pair_at(unit, after) {
        Some((character, rest)) => {
            append_character(character, json)?;
            Ok(rest)
        }
        None => {
            append_lone(unit, json)?;
            Ok(after)
        }
    }
}

/// The character of a unit and the first of those after it, if they are a pair, and the units after these.
fn pair_at(high: u16, after: &[u16]) -> Option<(char, &[u16])>
    ensures some { IfSome result (λ first. units_inside (high ∷ after.now)
        ≡ character_json first.0 ++ units_inside first.1.now) }
    ensures none { IfNone result (units_inside (high ∷ after.now) ≡ lone_json high ++ units_inside after.now) }
    ensures less { IfSome result (λ first. length first.1.now ≤ length after.now) }
{
    let Some((low, rest)) = after.split_first() else {
        return None;
    };
    match pair_char(high, *low) {
        Some(character) => Some((character, rest)),
        None => None,
    }
}

/// Appends what is in a text for a unit that is in no pair.
fn append_lone(unit: u16, json: &mut String) -> Result<(), AllocError>
    ensures { OnOk result (string_bytes json.new ≡ string_bytes json.old ++ lone_json unit) }
{
    match char::from_u32(u32::from(unit)) {
        Some(character) => append_character(character, json),
        None => append_escape(unit, json),
    }
}

/// Appends what is in a text for a character.
fn append_character(character: char, json: &mut String) -> Result<(), AllocError>
    ensures { OnOk result (string_bytes json.new ≡ string_bytes json.old ++ character_json character) }
{
    if let Some(letter) = escape_letter(character) {
        json.push('\\')?;
        return json.push(letter);
    }
    if is_hidden(character) {
        return append_escape(u32::from(character) as u16, json);
    }
    json.push(character)
}

/// What comes after the backslash for a character that has an escape of two characters.
fn escape_letter(character: char) -> Option<char>
    ensures { result ≡ escape_letter character }
{
    match character {
        '"' => Some('"'),
        '\\' => Some('\\'),
        '\u{8}' => Some('b'),
        '\t' => Some('t'),
        '\n' => Some('n'),
        '\u{c}' => Some('f'),
        '\r' => Some('r'),
        _ => None,
    }
}

/// Appends a unit as an escape of four digits.
fn append_escape(unit: u16, json: &mut String) -> Result<(), AllocError>
    ensures { OnOk result (string_bytes json.new ≡ string_bytes json.old ++ unit_escape unit) }
{
    let [high, low] = unit.to_be_bytes();
    write!(json, "\\u{high:02x}{low:02x}")
}
