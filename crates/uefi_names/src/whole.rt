//! Texts that are all that is in the parentheses of a node.

ghost use Rattle.std.specs.Prelude.{◌≡◌, ◌∷◌, ◌++◌, ◌<◌, [], length, unwrap_or, IfOk, IfSome, IfNone, OnOk};
ghost use Rattle.std.specs.Option.{option_map};
ghost use Rattle.std.specs.Str.{chars};
ghost use Rattle.std.specs.Char.Utf16.{lone_unit_char, utf16_lossy_chars};
ghost use Rattle.uefi_names.specs.Shown.{units_in, is_hidden, is_shown, shown_char, chars_in, pair_char};
ghost use Rattle.uefi_names.specs.Spelled.{char_bytes, closing_bytes, chars_read, whole_read};

use crate::cut::is_whole_for;
use crate::table::Encoding;
use std::alloc::{AllocError, Global};
use std::fmt;
use uefi_path::append_units;

/// The characters of bytes: one that isn't shown as itself is U+FFFD.
#[derive(Clone, Copy, Debug)]
pub(crate) struct WholeText<'a> {
    pub(crate) encoding: Encoding,
    pub(crate) bytes: &'a [u8],
}

impl fmt::Display for WholeText<'_> {
    ghost use Rattle.std.specs.Prelude.{Some};
    ghost use Rattle.uefi_names.specs.Shown.{whole_text};

    ghost output = { λ text. Some (whole_text text.encoding text.bytes.now) };

    fn fmt<W: fmt::Write>(&self, f: &mut fmt::Formatter<W>) -> fmt::Result {
        let mut rest = self.bytes;
        while let Some((character, after)) = first_char(self.encoding, rest) {
            write!(f, "{}", ShownChar(self.encoding, character))?;
            rest = after;
        }
        Ok(())
    }
}

/// A character as it is shown: itself, or U+FFFD.
#[derive(Clone, Copy, Debug)]
struct ShownChar(Encoding, char);

impl fmt::Display for ShownChar {
    ghost use Rattle.std.specs.Prelude.{Some};
    ghost use Rattle.uefi_names.specs.Shown.{char_text};

    ghost output = { λ shown. Some (char_text shown.0 shown.1) };

    fn fmt<W: fmt::Write>(&self, f: &mut fmt::Formatter<W>) -> fmt::Result {
        f.write_char(shown_char(self.0, self.1))
    }
}

// ---- characters

/// A character as it is shown: itself, or U+FFFD.
fn shown_char(encoding: Encoding, character: char) -> char
    ensures { result ≡ shown_char encoding character }
{
    if is_shown(encoding, character) {
        character
    } else {
        char::REPLACEMENT_CHARACTER
    }
}

/// Whether a character is shown as itself.
fn is_shown(encoding: Encoding, character: char) -> bool
    ensures { result ≡ is_shown encoding character }
{
    match encoding {
        Encoding::Ascii => ('!'..='~').contains(&character),
        Encoding::Utf16 => !is_hidden(character),
    }
}

/// Whether a terminal may act on a character: one of control, or one that parts lines or turns the direction of a text.
/// Each is one unit of UTF-16.
pub fn is_hidden(character: char) -> bool
    ensures { result ≡ is_hidden character }
{
    matches!(
        character,
        '\0'..='\x1f'
            | '\x7f'..='\u{9f}'
            | '\u{61c}'
            | '\u{200e}'..='\u{200f}'
            | '\u{2028}'..='\u{202e}'
            | '\u{2066}'..='\u{2069}'
            | '\u{feff}'
    )
}

/// The first character of bytes, and the bytes after it: `None` at the end.
fn first_char(encoding: Encoding, bytes: &[u8]) -> Option<(char, &[u8])>
    ensures some { IfSome result (λ first. chars_in encoding bytes.now ≡ first.0 ∷ chars_in encoding first.1.now) }
    ensures none { IfNone result (chars_in encoding bytes.now ≡ []) }
    ensures less { IfSome result (λ first. length first.1.now < length bytes.now) }
{
    match encoding {
        Encoding::Ascii => match bytes.split_first() {
            Some((byte, after)) => Some((char::from(*byte), after)),
            None => None,
        },
        Encoding::Utf16 => first_of_utf16(bytes),
    }
}

/// The first character of UTF-16, and the bytes after it: `None` at a zero unit and at the end. Half of a pair is U+FFFD.
fn first_of_utf16(bytes: &[u8]) -> Option<(char, &[u8])>
    ensures some { IfSome result (λ first. utf16_lossy_chars (units_in bytes.now)
        ≡ first.0 ∷ utf16_lossy_chars (units_in first.1.now)) }
    ensures none { IfNone result (utf16_lossy_chars (units_in bytes.now) ≡ []) }
    ensures less { IfSome result (λ first. length first.1.now < length bytes.now) }
{
    let Some((unit, after)) = first_unit(bytes) else {
        return None;
    };
    match pair_at(unit, after) {
        Some(pair) => Some(pair),
        None => Some((lone_char(unit), after)),
    }
}

/// The character of a unit and the one that comes after it, if they are a pair, and the bytes after them.
fn pair_at(high: u16, bytes: &[u8]) -> Option<(char, &[u8])>
    ensures some { IfSome result (λ first. utf16_lossy_chars (high ∷ units_in bytes.now)
        ≡ first.0 ∷ utf16_lossy_chars (units_in first.1.now)) }
    ensures none { IfNone result (utf16_lossy_chars (high ∷ units_in bytes.now)
        ≡ unwrap_or (lone_unit_char high) 0xFFFD ∷ utf16_lossy_chars (units_in bytes.now)) }
    ensures less { IfSome result (λ first. length first.1.now < length bytes.now) }
{
    let Some((low, after)) = first_unit(bytes) else {
        return None;
    };
    match pair_char(high, low) {
        Some(character) => Some((character, after)),
        None => None,
    }
}

/// The first unit of bytes, and the bytes after it: `None` at a zero unit and at the end.
fn first_unit(bytes: &[u8]) -> Option<(u16, &[u8])>
    ensures some { IfSome result (λ first. units_in bytes.now ≡ first.0 ∷ units_in first.1.now) }
    ensures none { IfNone result (units_in bytes.now ≡ []) }
    ensures less { IfSome result (λ first. length first.1.now < length bytes.now) }
{
    let Some((unit, after)) = bytes.split_first_chunk::<2>() else {
        return None;
    };
    match u16::from_le_bytes(*unit) {
        0 => None,
        unit => Some((unit, after)),
    }
}

/// The character of two units of UTF-16, if they are a pair.
pub fn pair_char(high: u16, low: u16) -> Option<char>
    ensures { result ≡ pair_char high low }
{
    if !(0xd800..0xdc00).contains(&high) || !(0xdc00..0xe000).contains(&low) {
        return None;
    }
    char::from_u32(0x1_0000 + (u32::from(high) - 0xd800) * 0x400 + (u32::from(low) - 0xdc00))
}

/// The character of a unit that is in no pair.
fn lone_char(unit: u16) -> char
    ensures { result ≡ unwrap_or (lone_unit_char unit) 0xFFFD }
{
    char::from_u32(u32::from(unit)).unwrap_or(char::REPLACEMENT_CHARACTER)
}

// ---- what a text spells

/// The bytes of a text in which each parenthesis closes one or is closed, and each character is shown as itself.
pub(crate) fn whole_bytes(
    alloc: Global,
    encoding: Encoding,
    text: &str,
) -> Result<Option<Vec<u8>>, AllocError>
    ensures { IfOk result (λ read. option_map (λ bytes. bytes.items) read ≡ whole_read encoding text.now) }
{
    if is_whole_for(text, b')') {
        encoded(alloc, encoding, text)
    } else {
        Ok(None)
    }
}

/// The bytes of a text whose characters are shown as themselves.
fn encoded(alloc: Global, encoding: Encoding, text: &str) -> Result<Option<Vec<u8>>, AllocError>
    ensures { IfOk result (λ read. option_map (λ bytes. bytes.items) read ≡ chars_read encoding [] (chars text.now)) }
{
    let mut bytes = Vec::new(alloc);
    for character in text.chars() {
        if !is_shown(encoding, character) {
            return Ok(None);
        }
        append_char(encoding, character, &mut bytes)?;
    }
    bytes.extend_from_slice(closing_bytes(encoding))?;
    Ok(Some(bytes))
}

/// Appends the bytes of a character.
fn append_char(encoding: Encoding, character: char, bytes: &mut Vec<u8>) -> Result<(), AllocError>
    ensures { OnOk result (bytes.new.items ≡ bytes.old.items ++ char_bytes encoding character) }
{
    match encoding {
        Encoding::Ascii => {
            let mut room = [0; 4];
            bytes.extend_from_slice(character.encode_utf8(&mut room).as_bytes())
        }
        Encoding::Utf16 => {
            let mut room = [0; 2];
            append_units(character.encode_utf16(&mut room), bytes)
        }
    }
}

/// What comes after the characters: a zero unit closes those of UTF-16.
fn closing_bytes(encoding: Encoding) -> &'static [u8]
    ensures { result.now ≡ closing_bytes encoding }
{
    match encoding {
        Encoding::Ascii => &[],
        Encoding::Utf16 => &[0, 0],
    }
}
