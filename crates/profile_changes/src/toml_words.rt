//! Words of TOML.

use std::fmt;

/// A text between quotes.
#[derive(Clone, Copy)]
pub(crate) struct TomlText<'a>(pub(crate) &'a str);

impl fmt::Display for TomlText<'_> {
    fn fmt<W: fmt::Write>(&self, f: &mut fmt::Formatter<W>) -> fmt::Result {
        let is_plain = |character: char| character != '\'' && !character.is_control();
        if self.0.contains(['\\', '"']) && self.0.chars().all(is_plain) {
            return write!(f, "'{}'", self.0);
        }
        f.write_str("\"")?;
        for character in self.0.chars() {
            write_character(character, f)?;
        }
        f.write_str("\"")
    }
}

/// Writes a character of a text between quotes.
fn write_character<W: fmt::Write>(character: char, f: &mut fmt::Formatter<W>) -> fmt::Result {
    match character {
        '"' => f.write_str("\\\""),
        '\\' => f.write_str("\\\\"),
        character if character.is_control() => write!(f, "\\u{:04x}", u32::from(character)),
        character => write!(f, "{character}"),
    }
}
