//! Why a text stands for no path.

ghost use Rattle.std.specs.Prelude.{◌≡◌, ◌+◌, ◌<◌, ◌^◌, Some, None, IfOk, length};
ghost use Rattle.std.specs.String.{string_bytes};
ghost use Rattle.uefi_text.specs.declared.fault.TextFault.TheVariants as text;
ghost use Rattle.uefi_text.specs.declared.fault.SegmentFault.TheVariants as segment;
ghost use Rattle.uefi_text.specs.Cuts.{text_of};
ghost use Rattle.uefi_text.specs.Places.{IsFaultIn};

use crate::segment::Segment;
use std::alloc::{AllocError, AllocFailed, Global};
use thiserror::Error;

/// Why a text stands for no path. The number is a place in the text, in bytes from its first one.
///
/// The first faulty segment from the left decides. Within it [`TextFault::BadSegment`] for its
/// shape comes first, then its arguments from left to right, then [`TextFault::BadEnd`].
#[derive(Clone, Copy, Debug, PartialEq, Eq, Error)]
pub enum TextFault {
    /// What is at this place isn't a segment: it is empty where there must be one, without its parentheses, of an
    /// unknown name, with another number of arguments, or with an argument, other than a number, that isn't of its
    /// form.
    #[error("BadSegment {0}")]
    BadSegment(usize),
    /// The argument at this place must be a number and isn't a number's text.
    #[error("BadNumber {0}")]
    BadNumber(usize),
    /// The argument at this place is out of its range: a number too large, or a name, data or a URI
    /// too long.
    #[error("OutOfRange {0}")]
    OutOfRange(usize),
    /// The segment at this place is a `Path` of type 0x7F, that of the end nodes.
    #[error("BadEnd {0}")]
    BadEnd(usize),
    /// Memory was refused.
    #[error("OutOfMemory")]
    OutOfMemory,
}

impl TextFault {
    ghost use Rattle.uefi_text.specs.Words.{text_fault_words, text_fault_place};

    /// The place of the fault in the text, in bytes from its first one, if the fault has one: all but out of memory
    /// have.
    pub fn place(&self) -> Option<usize>
        ensures { result ≡ text_fault_place self.now }
    {
        match self {
            TextFault::BadSegment(place)
            | TextFault::BadNumber(place)
            | TextFault::OutOfRange(place)
            | TextFault::BadEnd(place) => Some(*place),
            TextFault::OutOfMemory => None,
        }
    }

    /// The fault's name and, if it has one, its place in decimal after a blank. This fails only when out of memory.
    pub fn words(&self, alloc: Global) -> Result<String, AllocError>
        ensures { IfOk result (λ words. string_bytes words ≡ text_fault_words self.now) }
    {
        match self {
            TextFault::BadSegment(place) => format!(in alloc; "BadSegment {place}"),
            TextFault::BadNumber(place) => format!(in alloc; "BadNumber {place}"),
            TextFault::OutOfRange(place) => format!(in alloc; "OutOfRange {place}"),
            TextFault::BadEnd(place) => format!(in alloc; "BadEnd {place}"),
            TextFault::OutOfMemory => String::from_str(alloc, "OutOfMemory"),
        }
    }
}

impl From<AllocError> for TextFault {
    ghost from_gives = { λ _ fault. fault ≡ text.OutOfMemory };

    fn from(_refusal: AllocError) -> TextFault {
        TextFault::OutOfMemory
    }
}

impl<T: Drop> From<AllocFailed<T>> for TextFault {
    ghost from_gives = { λ _ fault. fault ≡ text.OutOfMemory };

    fn from(_refusal: AllocFailed<T>) -> TextFault {
        TextFault::OutOfMemory
    }
}

/// Why a segment stands for no node, by the tests of [`TextFault`]. An argument is given by how many others come before
/// it.
#[derive(Clone, Copy, Debug)]
pub(crate) enum SegmentFault {
    BadSegment,
    BadNumber(usize),
    OutOfRange(usize),
    BadEnd,
    OutOfMemory,
}

impl SegmentFault {
    /// The fault of a text in which the segment begins at this place.
    pub(crate) fn in_text(self, segment: Segment<'_>, place: usize) -> TextFault
        requires { place + length (text_of segment) < 2 ^ 64 }
        ensures { IsFaultIn self result place (place + length (text_of segment.entry)) }
    {
        match self {
            SegmentFault::BadSegment => TextFault::BadSegment(place),
            SegmentFault::BadNumber(index) => {
                TextFault::BadNumber(place + segment.place_of(index))
            }
            SegmentFault::OutOfRange(index) => {
                TextFault::OutOfRange(place + segment.place_of(index))
            }
            SegmentFault::BadEnd => TextFault::BadEnd(place),
            SegmentFault::OutOfMemory => TextFault::OutOfMemory,
        }
    }
}

impl From<AllocError> for SegmentFault {
    ghost from_gives = { λ _ fault. fault ≡ segment.OutOfMemory };

    fn from(_refusal: AllocError) -> SegmentFault {
        SegmentFault::OutOfMemory
    }
}
