//! Why a file has no notes.

ghost use Rattle.std.specs.Prelude.{◌≡◌, IfOk};
ghost use Rattle.std.specs.String.{string_bytes};
ghost use Rattle.boot_notes.specs.declared.fault.NotesFault.TheVariants as fault;

use std::alloc::{AllocError, AllocFailed, Global};
use thiserror::Error;

/// Why there are no notes at the start of a file that begins as one with notes does. A place is that of the field with the
/// fault: its offset in bytes from the first byte of the file.
#[derive(Clone, Copy, Debug, PartialEq, Eq, Hash, Error)]
pub enum NotesFault {
    /// The file ends in the field that begins at this place: the identity, the count, or a digest with its number.
    #[error("Truncated {0}")]
    Truncated(usize),
    /// The count at this place is more than 128.
    #[error("TooMany {0}")]
    TooMany(usize),
    /// Memory was refused.
    #[error("OutOfMemory")]
    OutOfMemory,
}

impl NotesFault {
    ghost use Rattle.boot_notes.specs.Words.{notes_fault_place, notes_fault_words};

    /// The place of the field with the fault, in bytes from the first byte of the file, or `None` if memory was refused.
    pub fn place(&self) -> Option<usize>
        ensures { result ≡ notes_fault_place self.now }
    {
        match self {
            NotesFault::Truncated(place) | NotesFault::TooMany(place) => Some(*place),
            NotesFault::OutOfMemory => None,
        }
    }

    /// The fault's name and, after a blank, its place in decimal. This fails only when out of memory.
    pub fn words(&self, alloc: Global) -> Result<String, AllocError>
        ensures { IfOk result (λ text. string_bytes text ≡ notes_fault_words self.now) }
    {
        match self {
            NotesFault::Truncated(place) => format!(in alloc; "Truncated {place}"),
            NotesFault::TooMany(place) => format!(in alloc; "TooMany {place}"),
            NotesFault::OutOfMemory => String::from_str(alloc, "OutOfMemory"),
        }
    }
}

impl From<AllocError> for NotesFault {
    ghost from_gives = { λ _ made. made ≡ fault.OutOfMemory };

    fn from(_refusal: AllocError) -> NotesFault {
        NotesFault::OutOfMemory
    }
}

impl<T: Drop> From<AllocFailed<T>> for NotesFault {
    ghost from_gives = { λ _ made. made ≡ fault.OutOfMemory };

    fn from(_refusal: AllocFailed<T>) -> NotesFault {
        NotesFault::OutOfMemory
    }
}
