//! Why a text stands for no path, and where.

ghost use Rattle.std.specs.Prelude.{◌≡◌};
ghost use Rattle.uefi_names.specs.declared.fault.NamedFault.TheVariants as faults;

use crate::cut::{named_parts, pieces, trimmed};
use crate::form_reader::shows_whole;
use crate::nearest::nearest_name;
use crate::reading::{may_be_exact, respelled, segment_read, segments_in, takes_whole};
use crate::spelled::{is_word, spelled};
use crate::table::{Field, Form, NodeRow, NodeTable, Show};
use std::alloc::{AllocError, Global};
use thiserror::Error;
use uefi_text::{TextFault, read_text};

/// Why a text stands for no path. The number is the place in the text where reading went wrong, in bytes from its first
/// one.
#[derive(Clone, Copy, Debug, Error)]
pub enum NamedFault {
    /// What begins at this place isn't a segment: it has no parentheses, or doesn't end with them.
    #[error("BadSegment {0}")]
    BadSegment(usize),
    /// No node has the name at this place. With it comes the nearest name, if one is near.
    #[error("UnknownName {0}")]
    UnknownName(usize, Option<&'static str>),
    /// The argument at this place isn't one of this field.
    #[error("BadArgument {0}")]
    BadArgument(usize, Field),
    /// At this place the segment ends before it has all arguments of its form, or has one more.
    #[error("BadCount {0}")]
    BadCount(usize),
    /// What the arguments of the segment at this place say is no data of its form.
    #[error("BadData {0}")]
    BadData(usize),
    /// A segment that an exact text may be has this fault.
    #[error("{0}")]
    Exact(TextFault),
    /// Memory was refused.
    #[error("OutOfMemory")]
    OutOfMemory,
}

impl NamedFault {
    /// The place of the fault in the text, in bytes from its first one, if the fault has one: all but out of memory
    /// have.
    pub fn place(&self) -> Option<usize> {
        match self {
            NamedFault::BadSegment(place)
            | NamedFault::UnknownName(place, _)
            | NamedFault::BadArgument(place, _)
            | NamedFault::BadCount(place)
            | NamedFault::BadData(place) => Some(*place),
            NamedFault::Exact(fault) => fault.place(),
            NamedFault::OutOfMemory => None,
        }
    }
}

impl From<AllocError> for NamedFault {
    ghost from_gives = { λ _ fault. fault ≡ faults.OutOfMemory };

    fn from(_refusal: AllocError) -> NamedFault {
        NamedFault::OutOfMemory
    }
}

/// The fault of the first segment that stands for no node.
pub(crate) fn fault_of(
    alloc: Global,
    table: &NodeTable,
    text: &str,
) -> Result<NamedFault, AllocError> {
    let instances = pieces(alloc, text, b',')?;
    let mut place: usize = 0;
    for instance in &instances {
        if let Some(fault) = instance_fault(alloc, table, instance, place)? {
            return Ok(fault);
        }
        place = after(place, instance);
    }
    Ok(NamedFault::BadSegment(0))
}

/// The same of an instance at a place.
fn instance_fault(
    alloc: Global,
    table: &NodeTable,
    instance: &str,
    start: usize,
) -> Result<Option<NamedFault>, AllocError> {
    let segments = segments_in(alloc, instance)?;
    let mut place = start;
    for segment in &segments {
        if segment_read(alloc, table, segment)?.is_none() {
            return Ok(Some(segment_fault(alloc, table, segment, place)?));
        }
        place = after(place, segment);
    }
    Ok(None)
}

/// The place after a piece at a place, and after the mark after it.
fn after(place: usize, piece: &str) -> usize {
    place.saturating_add(piece.len()).saturating_add(1)
}

/// The fault of a segment at a place.
fn segment_fault(
    alloc: Global,
    table: &NodeTable,
    segment: &str,
    place: usize,
) -> Result<NamedFault, AllocError> {
    let Some((name, inside)) = named_parts(segment) else {
        return exact_fault(alloc, segment, segment, place);
    };
    if !may_be_exact(alloc, name, inside)? {
        return table_fault(alloc, table, name, inside, place);
    }
    match respelled(alloc, segment)? {
        Some(again) => exact_fault(alloc, &again, segment, place),
        None => Ok(NamedFault::BadSegment(place)),
    }
}

// ---- exact texts

/// The fault of the exact text that a segment at a place is respelled as.
fn exact_fault(
    alloc: Global,
    again: &str,
    segment: &str,
    place: usize,
) -> Result<NamedFault, AllocError> {
    let moved = |at: usize| place.saturating_add(place_in(segment, at));
    Ok(match read_text(alloc, again) {
        Ok(_) => NamedFault::BadSegment(place),
        Err(TextFault::BadSegment(at)) => NamedFault::Exact(TextFault::BadSegment(moved(at))),
        Err(TextFault::BadNumber(at)) => NamedFault::Exact(TextFault::BadNumber(moved(at))),
        Err(TextFault::OutOfRange(at)) => NamedFault::Exact(TextFault::OutOfRange(moved(at))),
        Err(TextFault::BadEnd(at)) => NamedFault::Exact(TextFault::BadEnd(moved(at))),
        Err(TextFault::OutOfMemory) => return Err(AllocError),
    })
}

/// The place in a segment of what is at a place in it without the spaces before its arguments.
fn place_in(segment: &str, at: usize) -> usize {
    if let Some((name, _)) = named_parts(segment) {
        if takes_whole(name) {
            return at;
        }
    }
    let mut left = at;
    let mut is_first = false;
    for (place, byte) in segment.as_bytes().iter().enumerate() {
        if is_first && *byte == b' ' {
            continue;
        }
        if left == 0 {
            return place;
        }
        left -= 1;
        is_first = matches!(*byte, b',' | b'(');
    }
    segment.len()
}

// ---- the table

/// The fault of a segment at a place that no exact text may be: of the forms of this name the one that goes furthest tells
/// it.
fn table_fault(
    alloc: Global,
    table: &NodeTable,
    name: &str,
    inside: &str,
    place: usize,
) -> Result<NamedFault, AllocError> {
    let start = after(place, name);
    let mut fault = NamedFault::UnknownName(place, None);
    for group in &table.groups {
        fault = rows_fault(alloc, group.rows, name, inside, start, fault)?;
    }
    Ok(match fault {
        NamedFault::UnknownName(..) => {
            NamedFault::UnknownName(place, nearest_name(alloc, table, name)?)
        }
        NamedFault::BadData(_) => NamedFault::BadData(place),
        fault => fault,
    })
}

/// Of this fault and those of the forms of the name in rows the one that is furthest.
fn rows_fault(
    alloc: Global,
    rows: &'static [NodeRow],
    name: &str,
    inside: &str,
    start: usize,
    before: NamedFault,
) -> Result<NamedFault, AllocError> {
    let mut fault = before;
    for row in rows {
        for form in row.forms {
            if is_word(name.as_bytes(), form.name.as_bytes()) {
                let other = form_fault(alloc, form, inside, start)?;
                if fault.place() < other.place() {
                    fault = other;
                }
            }
        }
    }
    Ok(fault)
}

/// The fault of a form whose arguments begin at a place.
fn form_fault(
    alloc: Global,
    form: &'static Form,
    inside: &str,
    start: usize,
) -> Result<NamedFault, AllocError> {
    if let [field] = form.fields {
        if shows_whole(field.show) {
            return whole_fault(alloc, *field, inside, start);
        }
    }
    let arguments = pieces(alloc, inside, b',')?;
    let mut index = 0;
    let mut place = start;
    for argument in &arguments {
        let Some(field) = form.fields.get(index) else {
            return Ok(NamedFault::BadCount(place));
        };
        let text = trimmed(argument);
        if spelled(alloc, field.show, field.len, text)?.is_none() {
            let spaces = argument.len().saturating_sub(text.len());
            return Ok(NamedFault::BadArgument(place.saturating_add(spaces), *field));
        }
        if !matches!(field.show, Show::Each(..)) {
            index += 1;
        }
        place = after(place, argument);
    }
    match form.fields.get(index) {
        Some(
            Field {
                show: Show::Each(..),
                ..
            },
        )
        | None => Ok(NamedFault::BadData(start.saturating_add(inside.len()))),
        Some(_) => Ok(NamedFault::BadCount(start.saturating_add(inside.len()))),
    }
}

/// The fault of a form whose only field is shown as all that is in parentheses, and begins at a place.
fn whole_fault(
    alloc: Global,
    field: Field,
    inside: &str,
    start: usize,
) -> Result<NamedFault, AllocError> {
    match spelled(alloc, field.show, field.len, inside)? {
        Some(_) => Ok(NamedFault::BadData(start)),
        None => Ok(NamedFault::BadArgument(start, field)),
    }
}
