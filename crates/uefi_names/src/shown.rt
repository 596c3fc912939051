//! The fields of a node's data as text.

ghost use Rattle.std.specs.Prelude.{◌≡◌, take, drop};
ghost use Rattle.std.specs.Fmt.{WritesOnOk};
ghost use Rattle.std.specs.Option.{option_copied};
ghost use Rattle.uefi_names.specs.Shown.{number_in, word_for, guid_shown, hardware_id_shown, item_count, is_plain};

use crate::table::{Field, Form, Item, Numeral, Show, Word, byte, part};
use crate::whole::WholeText;
use std::fmt;
use uefi_path::Guid;
use uefi_text::{AddressText, DigitsText, GuidText, HidText, NumberText};

/// The data of a node in a form: its name, and in parentheses its fields, joined by commas.
#[derive(Clone, Copy, Debug)]
pub(crate) struct FormText<'a> {
    pub(crate) form: &'a Form,
    pub(crate) body: &'a [u8],
}

impl fmt::Display for FormText<'_> {
    ghost use Rattle.std.specs.Prelude.{Some};
    ghost use Rattle.uefi_names.specs.Shown.{form_text};

    ghost output = { λ text. Some (form_text text.form.now text.body.now) };

    fn fmt<W: fmt::Write>(&self, f: &mut fmt::Formatter<W>) -> fmt::Result {
        let fields = FieldsText {
            fields: self.form.fields,
            body: self.body,
        };
        write!(f, "{}({fields})", self.form.name)
    }
}

/// Fields of a node's data, joined by commas.
#[derive(Clone, Copy, Debug)]
struct FieldsText<'a> {
    fields: &'a [Field],
    body: &'a [u8],
}

impl fmt::Display for FieldsText<'_> {
    ghost use Rattle.std.specs.Prelude.{Some};
    ghost use Rattle.uefi_names.specs.Shown.{fields_text};

    ghost output = { λ text. Some (fields_text text.fields.now text.body.now) };

    fn fmt<W: fmt::Write>(&self, f: &mut fmt::Formatter<W>) -> fmt::Result {
        let Some((first, others)) = self.fields.split_first() else {
            return Ok(());
        };
        write!(f, "{}", FieldText(*first, self.body))?;
        for field in others {
            write!(f, ",{}", FieldText(*field, self.body))?;
        }
        Ok(())
    }
}

/// A field of a node's data.
#[derive(Clone, Copy, Debug)]
struct FieldText<'a>(Field, &'a [u8]);

impl fmt::Display for FieldText<'_> {
    ghost use Rattle.std.specs.Prelude.{Some};
    ghost use Rattle.uefi_names.specs.Shown.{field_text};

    ghost output = { λ text. Some (field_text text.0 text.1.now) };

    fn fmt<W: fmt::Write>(&self, f: &mut fmt::Formatter<W>) -> fmt::Result {
        let field = self.0;
        let shown = ShownText(field.show, part(self.1, field.at, field.len));
        write!(f, "{shown}")
    }
}

/// The bytes of a field as they are shown.
#[derive(Clone, Copy, Debug)]
struct ShownText<'a>(Show, &'a [u8]);

impl fmt::Display for ShownText<'_> {
    ghost use Rattle.std.specs.Prelude.{Some};
    ghost use Rattle.uefi_names.specs.Shown.{shown_text};

    ghost output = { λ text. Some (shown_text text.0 text.1.now) };

    fn fmt<W: fmt::Write>(&self, f: &mut fmt::Formatter<W>) -> fmt::Result {
        let bytes = self.1;
        match self.0 {
            Show::Number(numeral) => write!(f, "{}", NumeralText(numeral, number_of(bytes))),
            Show::OneMore => write!(f, "{}", NumberText(u64::from(byte(bytes, 0)) + 1)),
            Show::AllDigits => write!(f, "{}", DigitsText(&number_of(bytes).to_be_bytes())),
            Show::Word {
                mask,
                words,
                otherwise,
            } => {
                let number = number_of(bytes) & mask;
                match word_for(words, number) {
                    Some(word) => f.write_str(word.text),
                    None => write!(f, "{}", NumeralText(otherwise, number)),
                }
            }
            Show::Literal(text) => f.write_str(text),
            Show::Digits => write!(f, "{}", DigitsText(bytes)),
            Show::PrefixedDigits => write!(f, "0x{}", DigitsText(bytes)),
            Show::Guid => guid(f, bytes),
            Show::HardwareId => hardware_id(f, bytes),
            Show::Ipv4 => write!(f, "{}", ItemText(Item::Ipv4, bytes)),
            Show::Ipv6 => write!(f, "{}", ItemText(Item::Ipv6, bytes)),
            Show::Ascii(number) => write!(f, "{}", AsciiText { number, bytes }),
            Show::LoneAscii => write!(f, "{}", AsciiText { number: 0, bytes }),
            Show::Units => write!(f, "\"{}\"", UnitsText(bytes)),
            Show::Each(len, item) => write!(f, "{}", ItemsText { item, len, bytes }),
            Show::Whole(encoding) => write!(f, "{}", WholeText { encoding, bytes }),
        }
    }
}

/// The number that the first eight bytes are, the lowest first; bytes that aren't there are zero.
fn number_of(bytes: &[u8]) -> u64
    ensures { result ≡ number_in bytes.now }
{
    u64::from_le_bytes([
        byte(bytes, 0),
        byte(bytes, 1),
        byte(bytes, 2),
        byte(bytes, 3),
        byte(bytes, 4),
        byte(bytes, 5),
        byte(bytes, 6),
        byte(bytes, 7),
    ])
}

/// The word that stands for a number.
fn word_for(words: &'static [Word], number: u64) -> Option<&'static Word>
    ensures { option_copied result ≡ word_for words.now number }
{
    words.iter().find(|word| word.number == number)
}

/// A number as a numeral of its kind.
#[derive(Clone, Copy, Debug)]
struct NumeralText(Numeral, u64);

impl fmt::Display for NumeralText {
    ghost use Rattle.std.specs.Prelude.{Some};
    ghost use Rattle.uefi_names.specs.Shown.{numeral_text};

    ghost output = { λ text. Some (numeral_text text.0 text.1) };

    fn fmt<W: fmt::Write>(&self, f: &mut fmt::Formatter<W>) -> fmt::Result {
        let number = self.1;
        match self.0 {
            Numeral::Hexadecimal => write!(f, "{}", NumberText(number)),
            Numeral::Decimal => write!(f, "{number}"),
        }
    }
}

/// Writes a GUID, or the digits of fewer bytes.
fn guid<W: fmt::Write>(f: &mut fmt::Formatter<W>, bytes: &[u8]) -> fmt::Result
    ensures { WritesOnOk W.write_str_gives f.old result (guid_shown bytes.now) f.new }
{
    match bytes.first_chunk::<16>() {
        Some(guid) => write!(f, "{}", GuidText(&Guid(*guid))),
        None => write!(f, "{}", DigitsText(bytes)),
    }
}

/// Writes a hardware identifier, or the digits of fewer bytes.
fn hardware_id<W: fmt::Write>(f: &mut fmt::Formatter<W>, bytes: &[u8]) -> fmt::Result
    ensures { WritesOnOk W.write_str_gives f.old result (hardware_id_shown bytes.now) f.new }
{
    match bytes.first_chunk::<4>() {
        Some(id) => write!(f, "{}", HidText(u32::from_le_bytes(*id))),
        None => write!(f, "{}", DigitsText(bytes)),
    }
}

/// An item of a list, or the digits of bytes that are too few for it.
#[derive(Clone, Copy, Debug)]
struct ItemText<'a>(Item, &'a [u8]);

impl fmt::Display for ItemText<'_> {
    ghost use Rattle.std.specs.Prelude.{Some};
    ghost use Rattle.uefi_names.specs.Shown.{item_text};

    ghost output = { λ text. Some (item_text text.0 text.1.now) };

    fn fmt<W: fmt::Write>(&self, f: &mut fmt::Formatter<W>) -> fmt::Result {
        let bytes = self.1;
        match self.0 {
            Item::Number => write!(f, "{}", NumberText(number_of(bytes))),
            Item::Ipv4 => match bytes.first_chunk::<4>() {
                Some(address) => write!(f, "{}", AddressText(address)),
                None => write!(f, "{}", DigitsText(bytes)),
            },
            Item::Ipv6 => match bytes.split_at_checked(16) {
                Some((address, _)) => write!(f, "{}", Ipv6Text(address)),
                None => write!(f, "{}", DigitsText(bytes)),
            },
        }
    }
}

/// An address of IPv6: groups of two bytes, joined by colons.
#[derive(Clone, Copy, Debug)]
struct Ipv6Text<'a>(&'a [u8]);

impl fmt::Display for Ipv6Text<'_> {
    ghost use Rattle.std.specs.Prelude.{Some};
    ghost use Rattle.uefi_names.specs.Shown.{ipv6_text};

    ghost output = { λ address. Some (ipv6_text address.0.now) };

    fn fmt<W: fmt::Write>(&self, f: &mut fmt::Formatter<W>) -> fmt::Result {
        let Some((first, others)) = self.0.split_first_chunk::<2>() else {
            return Ok(());
        };
        write!(f, "{}", DigitsText(first))?;
        let mut rest = others;
        while let Some((group, after)) = rest.split_first_chunk::<2>() {
            write!(f, ":{}", DigitsText(group))?;
            rest = after;
        }
        Ok(())
    }
}

/// Items of so many bytes each, joined by commas.
#[derive(Clone, Copy, Debug)]
struct ItemsText<'a> {
    item: Item,
    len: usize,
    bytes: &'a [u8],
}

impl fmt::Display for ItemsText<'_> {
    ghost use Rattle.std.specs.Prelude.{Some};
    ghost use Rattle.uefi_names.specs.Shown.{items_text};

    ghost output = { λ text. Some (items_text text.item text.len text.bytes.now) };

    fn fmt<W: fmt::Write>(&self, f: &mut fmt::Formatter<W>) -> fmt::Result {
        let count = item_count(self.len, self.bytes);
        if count == 0 {
            return Ok(());
        }
        let (first, others) = cut(self.bytes, self.len);
        write!(f, "{}", ItemText(self.item, first))?;
        let mut rest = others;
        let mut left = count - 1;
        while left > 0 {
            let (item, after) = cut(rest, self.len);
            write!(f, ",{}", ItemText(self.item, item))?;
            rest = after;
            left -= 1;
        }
        Ok(())
    }
}

/// How many items of a length the bytes are.
fn item_count(len: usize, bytes: &[u8]) -> usize
    ensures { result ≡ item_count len bytes.now }
{
    if len == 0 { 0 } else { bytes.len() / len }
}

/// So many bytes, or fewer if there are no more, and those after them.
pub(crate) fn cut(bytes: &[u8], len: usize) -> (&[u8], &[u8])
    ensures front { result.0.now ≡ take len bytes.now }
    ensures after { result.1.now ≡ drop len bytes.now }
{
    bytes.split_at(len.min(bytes.len()))
}

/// One of the texts of ASCII that are each closed by a zero byte or the end.
#[derive(Clone, Copy, Debug)]
struct AsciiText<'a> {
    /// How many texts come before it.
    number: usize,
    bytes: &'a [u8],
}

impl fmt::Display for AsciiText<'_> {
    ghost use Rattle.std.specs.Prelude.{Some, flat_map};
    ghost use Rattle.uefi_names.specs.Shown.{escaped, nth_text};

    ghost output = { λ text. Some (flat_map escaped (nth_text text.number text.bytes.now)) };

    fn fmt<W: fmt::Write>(&self, f: &mut fmt::Formatter<W>) -> fmt::Result {
        let mut before = self.number;
        let mut rest = self.bytes;
        while let Some((byte, after)) = rest.split_first() {
            match (*byte, before) {
                (0, 0) => return Ok(()),
                (0, _) => before -= 1,
                (byte, 0) => write!(f, "{}", Escaped(u16::from(byte)))?,
                _ => {}
            }
            rest = after;
        }
        Ok(())
    }
}

/// Units of two bytes up to a zero unit or the end.
#[derive(Clone, Copy, Debug)]
struct UnitsText<'a>(&'a [u8]);

impl fmt::Display for UnitsText<'_> {
    ghost use Rattle.std.specs.Prelude.{Some, flat_map};
    ghost use Rattle.uefi_names.specs.Shown.{escaped, units_in};

    ghost output = { λ text. Some (flat_map escaped (units_in text.0.now)) };

    fn fmt<W: fmt::Write>(&self, f: &mut fmt::Formatter<W>) -> fmt::Result {
        let mut rest = self.0;
        while let Some((unit, after)) = rest.split_first_chunk::<2>() {
            let unit = u16::from_le_bytes(*unit);
            if unit == 0 {
                return Ok(());
            }
            write!(f, "{}", Escaped(unit))?;
            rest = after;
        }
        Ok(())
    }
}

/// A unit of a text: itself if it is plain, otherwise a backslash and four digits.
#[derive(Clone, Copy, Debug)]
struct Escaped(u16);

impl fmt::Display for Escaped {
    ghost use Rattle.std.specs.Prelude.{Some};
    ghost use Rattle.uefi_names.specs.Shown.{escaped};

    ghost output = { λ text. Some (escaped text.0) };

    fn fmt<W: fmt::Write>(&self, f: &mut fmt::Formatter<W>) -> fmt::Result {
        let unit = self.0;
        if is_plain(unit) {
            return f.write_char(char::from(unit as u8));
        }
        write!(f, "\\{}", DigitsText(&unit.to_be_bytes()))
    }
}

/// Whether a unit is shown as itself: a printing character of ASCII that closes or parts nothing in the text of a path.
pub(crate) fn is_plain(unit: u16) -> bool
    ensures { result ≡ is_plain unit }
{
    (0x20..=0x7e).contains(&unit) && !matches!(unit, 0x22 | 0x28 | 0x29 | 0x2c | 0x5c)
}
