//! Where in a script or a stream an event or a fault is.

use boot_requests::InputFormat;
use std::alloc::AllocError;
use std::fmt;
use value_texts::json::{JsonObject, JsonWriter, Leaf, append_leaves};

/// Where an event or a fault is.
#[derive(Clone, Copy, Debug, PartialEq, Eq, Drop)]
pub enum EventPosition {
    /// In the line of this number of a script, counted from 1.
    Line(usize),
    /// At this offset of a stream, in bytes from the first one.
    Offset(usize),
}

impl EventPosition {
    /// The line of this number, counted from 1, of a script; this offset of a stream.
    pub fn new(format: InputFormat, at: usize) -> EventPosition {
        match format {
            InputFormat::Script => EventPosition::Line(at),
            InputFormat::Stream => EventPosition::Offset(at),
        }
    }
}

impl JsonObject for EventPosition {
    fn append_members(&self, out: &mut JsonWriter) -> Result<(), AllocError> {
        let (line, offset) = match self {
            EventPosition::Line(number) => (Some(*number), None),
            EventPosition::Offset(offset) => (None, Some(*offset)),
        };
        append_leaves(
            &[("line", Leaf::Count(line)), ("offset", Leaf::Count(offset))],
            out,
        )
    }
}

impl fmt::Display for EventPosition {
    fn fmt<W: fmt::Write>(&self, f: &mut fmt::Formatter<W>) -> fmt::Result {
        match self {
            EventPosition::Line(number) => write!(f, "line {number}"),
            EventPosition::Offset(offset) => write!(f, "offset {offset}"),
        }
    }
}
