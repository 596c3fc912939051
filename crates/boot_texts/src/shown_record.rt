//! Changes that can be undone, as they are shown, by `bootvars undo --list`.

use messages::shown;
use std::alloc::{AllocError, Global};
use value_texts::json::{JsonObject, JsonWriter, Leaf, append_leaves, json_line};

/// A change that can be undone.
#[derive(Clone, Copy)]
pub struct RecordView<'a> {
    /// The number under which it is kept.
    pub number: u64,
    /// When it was made, as text.
    pub time: &'a str,
    /// The words of its command.
    pub words: &'a [String],
}

/// The change as a line for a person: its number, its time and the words of its command, each after a blank. This fails only
/// when out of memory.
pub fn record_line(alloc: Global, record: RecordView<'_>) -> Result<String, AllocError> {
    let mut line = format!(in alloc; "{} {}", record.number, record.time)?;
    for word in record.words {
        write!(line, " {}", shown(alloc, word)?)?;
    }
    line.push('\n')?;
    Ok(line)
}

/// The change as an object of JSON on one line, which ends with a line feed; docs/formats.md has each member. This fails only
/// when out of memory.
pub fn record_json(alloc: Global, record: RecordView<'_>) -> Result<String, AllocError> {
    json_line(alloc, &record)
}

impl JsonObject for RecordView<'_> {
    fn append_members(&self, out: &mut JsonWriter) -> Result<(), AllocError> {
        append_leaves(
            &[
                ("number", Leaf::Record(self.number)),
                ("time", Leaf::Text(Some(self.time))),
                ("words", Leaf::Texts(self.words)),
            ],
            out,
        )
    }
}
