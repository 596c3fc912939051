//! Why a file isn't a journal.

ghost use Rattle.std.specs.Prelude.{◌≡◌, IfOk};
ghost use Rattle.std.specs.String.{string_bytes};
ghost use Rattle.boot_journal.specs.Words.{journal_fault_words, journal_fault_place};
ghost use Rattle.boot_journal.specs.declared.fault.JournalFault.TheVariants as fault;

use std::alloc::{AllocError, AllocFailed, Global};
use thiserror::Error;

/// Why bytes aren't a journal file. A place is that of the field with the fault: its offset in bytes from the first byte of
/// the file.
#[derive(Clone, Copy, Debug, PartialEq, Eq, Hash, Error)]
pub enum JournalFault {
    /// The file begins neither with the four bytes `BKJ1` nor with `BKJ2`.
    #[error("BadMagic")]
    BadMagic,
    /// The name of the machine that begins at this place, with the four bytes of its length, is to have no byte or more than
    /// [`MACHINE_NAME_MAX`](machine_names::MACHINE_NAME_MAX).
    #[error("BadMachine {0}")]
    BadMachine(usize),
    /// The file ends in the field that begins at this place. A value and the name of the machine begin with the four bytes
    /// of their length, and an identity or the name of a variable with the byte of its own.
    #[error("Truncated {0}")]
    Truncated(usize),
    /// The value that begins at this place, with the four bytes of its length, is to have more than
    /// [`DATA_MAX`](uefi_vars::DATA_MAX) bytes.
    #[error("ValueTooLong {0}")]
    ValueTooLong(usize),
    /// The byte at this place is neither 1, for changes that are being made, nor 2, for changes that are taken back.
    #[error("BadCourse {0}")]
    BadCourse(usize),
    /// The identity that begins at this place, with the byte of its length, isn't one to
    /// [`NAME_MAX`](uefi_vars::NAME_MAX) characters from 0x21 to 0x7E.
    #[error("BadIdentity {0}")]
    BadIdentity(usize),
    /// The name that begins at this place, with the byte of its length, isn't that of one of the boot manager's variables:
    /// `Boot` and four digits of 0-9A-F, `BootOrder`, `BootNext` or `Timeout`.
    #[error("BadName {0}")]
    BadName(usize),
    /// Memory was refused.
    #[error("OutOfMemory")]
    OutOfMemory,
}

impl JournalFault {
    /// The place of the field with the fault, in bytes from the first byte of the file: `None` if the file doesn't begin
    /// with a magic, or memory was refused.
    pub fn place(&self) -> Option<usize>
        ensures { result ≡ journal_fault_place self.now }
    {
        match self {
            JournalFault::BadMachine(place)
            | JournalFault::Truncated(place)
            | JournalFault::ValueTooLong(place)
            | JournalFault::BadCourse(place)
            | JournalFault::BadIdentity(place)
            | JournalFault::BadName(place) => Some(*place),
            JournalFault::BadMagic | JournalFault::OutOfMemory => None,
        }
    }

    /// The fault's name and, if it has one, its place in decimal after a blank. This fails only when out of memory.
    pub fn words(&self, alloc: Global) -> Result<String, AllocError>
        ensures { IfOk result (λ text. string_bytes text ≡ journal_fault_words self.now) }
    {
        match self {
            JournalFault::BadMagic => String::from_str(alloc, "BadMagic"),
            JournalFault::BadMachine(place) => format!(in alloc; "BadMachine {place}"),
            JournalFault::Truncated(place) => format!(in alloc; "Truncated {place}"),
            JournalFault::ValueTooLong(place) => format!(in alloc; "ValueTooLong {place}"),
            JournalFault::BadCourse(place) => format!(in alloc; "BadCourse {place}"),
            JournalFault::BadIdentity(place) => format!(in alloc; "BadIdentity {place}"),
            JournalFault::BadName(place) => format!(in alloc; "BadName {place}"),
            JournalFault::OutOfMemory => String::from_str(alloc, "OutOfMemory"),
        }
    }
}

impl From<AllocError> for JournalFault {
    ghost from_gives = { λ _ made. made ≡ fault.OutOfMemory };

    fn from(_refusal: AllocError) -> JournalFault {
        JournalFault::OutOfMemory
    }
}

impl<T: Drop> From<AllocFailed<T>> for JournalFault {
    ghost from_gives = { λ _ made. made ≡ fault.OutOfMemory };

    fn from(_refusal: AllocFailed<T>) -> JournalFault {
        JournalFault::OutOfMemory
    }
}
