//! What is told beside an answer, and names and texts as messages show them.

use crate::failure::Failure;
use std::alloc::{AllocError, Global};
use std::fmt::{self, Display};

/// How many characters messages show of a text that isn't the user's path.
pub const SHOWN_MAX: usize = 60;

/// A text from within a file or a folder, or a wrong word of the command line, as messages show it: as it is if it has at
/// most [`SHOWN_MAX`] characters, and otherwise so many of them, and then how many it has.
#[derive(Clone, Copy)]
pub struct Shortened<'a>(pub &'a str);

/// The same text between quotes, with escapes.
#[derive(Clone, Copy)]
pub struct Quoted<'a>(pub &'a str);

/// How many characters a text has, told after its front if that isn't all of it.
#[derive(Clone, Copy)]
struct Length<'a>(&'a str);

impl Display for Shortened<'_> {
    fn fmt<W: fmt::Write>(&self, f: &mut fmt::Formatter<W>) -> fmt::Result {
        write!(f, "{}{}", front(self.0), Length(self.0))
    }
}

impl Display for Quoted<'_> {
    fn fmt<W: fmt::Write>(&self, f: &mut fmt::Formatter<W>) -> fmt::Result {
        write!(f, "{:?}{}", front(self.0), Length(self.0))
    }
}

impl Display for Length<'_> {
    fn fmt<W: fmt::Write>(&self, f: &mut fmt::Formatter<W>) -> fmt::Result {
        let count = self.0.chars().count();
        if count > SHOWN_MAX {
            write!(f, "... ({count} characters)")
        } else {
            Ok(())
        }
    }
}

/// What is damaged of an emulator's variable file, in words that go on from what the file is called.
#[derive(Clone, Copy, Debug)]
pub struct DamageWords {
    /// The place of the first byte after the last record that isn't erased: its offset in bytes from the file's first byte.
    pub place: usize,
    /// How many records can be read after the last one.
    pub records: usize,
}

impl Display for DamageWords {
    fn fmt<W: fmt::Write>(&self, f: &mut fmt::Formatter<W>) -> fmt::Result {
        let DamageWords { place, records } = self;
        write!(f, "its store of variables is damaged at byte {place}: ")?;
        match records {
            0 => f.write_str("no record can be read after it"),
            1 => f.write_str("1 record can be read after it"),
            _ => write!(f, "{records} records can be read after it"),
        }
    }
}

/// The first [`SHOWN_MAX`] characters of the text, or all of them if there are fewer.
fn front(text: &str) -> &str {
    match text.char_indices().nth(SHOWN_MAX) {
        Some((end, _)) => text.get(..end).unwrap_or(text),
        None => text,
    }
}

/// The name of a file or a place, to be shown: as it is if each of its bytes is a blank or ASCII that prints, and
/// otherwise between quotes, with escapes, so that it can't steer a terminal or look like a line of its own.
#[derive(Clone, Copy)]
struct ShownName<'a>(&'a str);

impl Display for ShownName<'_> {
    fn fmt<W: fmt::Write>(&self, f: &mut fmt::Formatter<W>) -> fmt::Result {
        if self.0.bytes().all(|byte| matches!(byte, b' '..=b'~')) {
            f.write_str(self.0)
        } else {
            write!(f, "{:?}", self.0)
        }
    }
}

/// The name of a file or a place, as messages show it. This fails only when out of memory.
pub fn shown(alloc: Global, name: &str) -> Result<String, AllocError> {
    format!(in alloc; "{}", ShownName(name))
}

/// Tells something about the place or the file of this name on standard error.
pub fn note<R: Eprint, D: Display + Drop>(rt: &R, name: &str, text: D) {
    let name = ShownName(name);
    // If standard error takes nothing, there is no place left to say so.
    let _ = eprintln!(rt; "bootvars: {name}: {text}");
}

/// Writes the bytes to standard output.
///
/// # Errors
///
/// [`Failure::Closed`] if nobody reads it any more, [`Failure::Write`] if it doesn't take them for another reason, and
/// [`Failure::Memory`] if memory was refused.
pub fn print<R: Print + AllocGlobal>(rt: &R, bytes: &[u8]) -> Result<(), Failure> {
    rt.write_all(bytes)
        .map_err(|error| Failure::from_print(rt.alloc(), error))
}
