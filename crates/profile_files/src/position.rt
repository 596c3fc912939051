//! Places of texts as lines and columns.

ghost use Rattle.std.specs.Prelude.{◌≡◌, take};
ghost use Rattle.profile_files.specs.Position.{position_at};

use std::fmt;

/// A place of a text.
#[derive(Clone, Copy, Debug, PartialEq, Eq)]
pub struct Position {
    /// The line, from 1.
    pub line: usize,
    /// The column, from 1, in characters of UTF-8.
    pub column: usize,
}

impl fmt::Display for Position {
    fn fmt<W: fmt::Write>(&self, f: &mut fmt::Formatter<W>) -> fmt::Result {
        let Position { line, column } = self;
        write!(f, "line {line}, column {column}")
    }
}

/// The line and the column of the byte at this place, or of the text's end if it has no such byte. A line ends with a line feed.
pub fn position_of(text: &[u8], place: usize) -> Position
    ensures { (result.line, result.column) ≡ position_at text.now place }
{
    let before = front(text, place);
    let mut line = 1usize;
    let mut column = 1usize;
    let mut rest = before;
    'bytes: while let Some((byte, after)) = rest.split_first() {
        if *byte == b'\n' {
            line += 1;
            column = 1;
        } else if *byte & 0xc0 != 0x80 {
            column += 1;
        }
        rest = after;
    }
    Position { line, column }
}

/// The bytes before this place, or all if there are fewer.
fn front(text: &[u8], place: usize) -> &[u8]
    ensures { result.now ≡ take place text.now }
{
    if place < text.len() {
        &text[..place]
    } else {
        text
    }
}
