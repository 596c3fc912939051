//! The parts of a node's printed text.

ghost use Rattle.std.specs.Prelude.{◌≡◌, ◌<◌, ◌≤◌, false, drop, length, IfOk};
ghost use Rattle.std.specs.Fmt.{digit_glyph, digits};
ghost use Rattle.uefi_text.specs.Bytes.{hex_text};

use std::{fmt, str};
use uefi_path::field;

/// The bytes whose digits are written at once.
const CHUNK: usize = 32;

/// The digits of that many bytes.
const CHUNK_DIGITS: usize = 64;

/// The bytes of a number's prefix, `0x`.
const PREFIX_LEN: usize = 2;

/// The most bytes of a number's text: the prefix and sixteen digits.
const NUMBER_LEN: usize = 18;

/// A number that is written by `{}`: `0x` and lower-case hexadecimal digits without leading zeros.
#[derive(Clone, Copy, Debug)]
pub struct Number(pub u64);

impl fmt::Display for Number {
    ghost use Rattle.std.specs.Prelude.{Some};
    ghost use Rattle.uefi_text.specs.Number.{number_text};

    ghost output = { λ number. Some (number_text number.0) };

    fn fmt<W: fmt::Write>(&self, f: &mut fmt::Formatter<W>) -> fmt::Result {
        // The whole text is written at once: the prefix and the digits by themselves took a tenth of the time of
        // printing.
        let mut text = [0; NUMBER_LEN];
        let start = write_digits(self.0, &mut text) - PREFIX_LEN;
        text[start] = b'0';
        text[start + 1] = b'x';
        f.write_str(str::from_utf8(&text[start..]).map_err(|_| fmt::Error)?)
    }
}

/// Writes the digits of a number to the end of a text. Answers where the first of them is.
#[inline(always)]
fn write_digits(number: u64, text: &mut [u8; NUMBER_LEN]) -> usize
    ensures low { PREFIX_LEN ≤ result }
    ensures high { result ≤ NUMBER_LEN }
    ensures digits { drop result text.new ≡ digits 16 false number }
{
    let mut start = NUMBER_LEN;
    let mut rest = number;
    loop {
        start -= 1;
        text[start] = digit_of((rest % 16) as u8);
        rest /= 16;
        if rest == 0 {
            return start;
        }
    }
}

/// The lower-case digit that stands for a value.
#[inline(always)]
fn digit_of(value: u8) -> u8
    requires { value < 16 }
    ensures { result ≡ digit_glyph false value }
{
    if value < 10 {
        b'0' + value
    } else {
        b'a' + (value - 10)
    }
}

/// Bytes that are written by `{}`: each as two lower-case hexadecimal digits.
#[derive(Clone, Copy, Debug)]
pub struct Digits<'a>(pub &'a [u8]);

impl fmt::Display for Digits<'_> {
    ghost use Rattle.std.specs.Prelude.{Some};
    ghost use Rattle.uefi_text.specs.Bytes.{hex_text};

    ghost output = { λ digits. Some (hex_text digits.0.now) };

    fn fmt<W: fmt::Write>(&self, f: &mut fmt::Formatter<W>) -> fmt::Result {
        let mut buffer = [0; CHUNK_DIGITS];
        let mut rest = self.0;
        while !rest.is_empty() {
            let (front, behind) = rest.split_at(rest.len().min(CHUNK));
            f.write_str(digits_of(front, &mut buffer)?)?;
            rest = behind;
        }
        Ok(())
    }
}

/// The digits of at most `CHUNK` bytes, in the buffer.
fn digits_of<'b>(bytes: &[u8], buffer: &'b mut [u8; CHUNK_DIGITS]) -> Result<&'b str, fmt::Error>
    requires { length bytes.now ≤ CHUNK }
    ensures { IfOk result (λ text. text.now ≡ hex_text bytes.now) }
{
    let digits = &mut buffer[..2 * bytes.len()];
    let Ok(()) = hex::encode_to_slice(bytes, digits) else {
        return Err(fmt::Error);
    };
    match str::from_utf8(digits) {
        Ok(text) => Ok(text),
        Err(_) => Err(fmt::Error),
    }
}

/// An address of four bytes that is written by `{}`: its bytes in decimal, joined by dots.
#[derive(Clone, Copy, Debug)]
pub struct Address<'a>(pub &'a [u8; 4]);

impl fmt::Display for Address<'_> {
    ghost use Rattle.std.specs.Prelude.{Some};
    ghost use Rattle.uefi_text.specs.Bytes.{address_text};

    ghost output = { λ address. Some (address_text address.0.now) };

    fn fmt<W: fmt::Write>(&self, f: &mut fmt::Formatter<W>) -> fmt::Result {
        let _ = field(self.0);
        let [a, b, c, d] = *self.0;
        write!(f, "{a}.{b}.{c}.{d}")
    }
}

/// A byte, as two lower-case hexadecimal digits.
#[derive(Clone, Copy, Debug)]
pub(crate) struct Byte(pub(crate) u8);

impl fmt::Display for Byte {
    ghost use Rattle.std.specs.Prelude.{Some, false};
    ghost use Rattle.uefi_text.specs.Bytes.{pair_text};

    ghost output = { λ byte. Some (pair_text false byte.0) };

    fn fmt<W: fmt::Write>(&self, f: &mut fmt::Formatter<W>) -> fmt::Result {
        let byte = self.0;
        write!(f, "{byte:02x}")
    }
}

/// A byte, as two upper-case hexadecimal digits.
#[derive(Clone, Copy, Debug)]
pub(crate) struct UpperByte(pub(crate) u8);

impl fmt::Display for UpperByte {
    ghost use Rattle.std.specs.Prelude.{Some, true};
    ghost use Rattle.uefi_text.specs.Bytes.{pair_text};

    ghost output = { λ byte. Some (pair_text true byte.0) };

    fn fmt<W: fmt::Write>(&self, f: &mut fmt::Formatter<W>) -> fmt::Result {
        let byte = self.0;
        write!(f, "{byte:02X}")
    }
}

/// An EUI-64: its bytes as two digits each, joined by hyphens.
#[derive(Clone, Copy, Debug)]
pub(crate) struct Eui<'a>(pub(crate) &'a [u8; 8]);

impl fmt::Display for Eui<'_> {
    ghost use Rattle.std.specs.Prelude.{Some};
    ghost use Rattle.uefi_text.specs.Bytes.{eui_text};

    ghost output = { λ eui. Some (eui_text eui.0.now) };

    fn fmt<W: fmt::Write>(&self, f: &mut fmt::Formatter<W>) -> fmt::Result {
        let _ = field(self.0);
        let [a, b, c, d, e, g, h, i] = *self.0;
        let (a, b, c, d) = (Byte(a), Byte(b), Byte(c), Byte(d));
        let (e, g, h, i) = (Byte(e), Byte(g), Byte(h), Byte(i));
        write!(f, "{a}-{b}-{c}-{d}-{e}-{g}-{h}-{i}")
    }
}

/// The data after other arguments: nothing if there is none, otherwise a comma and its digits.
#[derive(Clone, Copy, Debug)]
pub(crate) struct OptionalData<'a>(pub(crate) &'a [u8]);

impl fmt::Display for OptionalData<'_> {
    ghost use Rattle.std.specs.Prelude.{Some};
    ghost use Rattle.uefi_text.specs.Printer.{behind_comma};

    ghost output = { λ text. Some (behind_comma text.0.now) };

    fn fmt<W: fmt::Write>(&self, f: &mut fmt::Formatter<W>) -> fmt::Result {
        if self.0.is_empty() {
            return Ok(());
        }
        write!(f, ",{}", Digits(self.0))
    }
}

/// Bytes of ASCII, as they are.
#[derive(Clone, Copy, Debug)]
pub(crate) struct Plain<'a>(pub(crate) &'a [u8]);

impl fmt::Display for Plain<'_> {
    ghost use Rattle.std.specs.Prelude.{Some};

    ghost output = { λ plain. Some plain.0.now };

    fn fmt<W: fmt::Write>(&self, f: &mut fmt::Formatter<W>) -> fmt::Result {
        f.write_str(str::from_utf8(self.0).map_err(|_| fmt::Error)?)
    }
}

/// Bytes in several fields, as two digits each.
#[derive(Clone, Copy, Debug)]
pub(crate) struct Fields<'a>(pub(crate) &'a [&'a [u8]]);

impl fmt::Display for Fields<'_> {
    ghost use Rattle.std.specs.Prelude.{Some, flat_map};
    ghost use Rattle.uefi_text.specs.Bytes.{hex_text};

    ghost output = { λ fields. Some (hex_text (flat_map (λ field. field.now) fields.0.now)) };

    fn fmt<W: fmt::Write>(&self, f: &mut fmt::Formatter<W>) -> fmt::Result {
        for field in self.0 {
            write!(f, "{}", Digits(field))?;
        }
        Ok(())
    }
}

/// The units of a path name and the zero after them, as the digits of their bytes.
#[derive(Clone, Copy, Debug)]
pub(crate) struct NameDigits<'a>(pub(crate) &'a [u16]);

impl fmt::Display for NameDigits<'_> {
    ghost use Rattle.std.specs.Prelude.{Some};
    ghost use Rattle.uefi_path.specs.Parts.{name_bytes};
    ghost use Rattle.uefi_text.specs.Bytes.{hex_text};

    ghost output = { λ name. Some (hex_text (name_bytes name.0.now)) };

    fn fmt<W: fmt::Write>(&self, f: &mut fmt::Formatter<W>) -> fmt::Result {
        for unit in self.0 {
            write!(f, "{}", Digits(&unit.to_le_bytes()))?;
        }
        write!(f, "0000")
    }
}

/// The units of a path name, each of which is a character of ASCII.
#[derive(Clone, Copy, Debug)]
pub(crate) struct Name<'a>(pub(crate) &'a [u16]);

impl fmt::Display for Name<'_> {
    ghost use Rattle.std.specs.Prelude.{Some};

    ghost output = { λ name. Some name.0.now };

    fn fmt<W: fmt::Write>(&self, f: &mut fmt::Formatter<W>) -> fmt::Result {
        for unit in self.0 {
            match *unit {
                unit @ 0..=0x7f => f.write_char(char::from(unit as u8))?,
                _ => return Err(fmt::Error),
            }
        }
        Ok(())
    }
}
