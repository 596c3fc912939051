//! Why a file isn't a record, and why a record can't be written.

ghost use Rattle.std.specs.Prelude.{◌≡◌, IfOk};
ghost use Rattle.std.specs.String.{string_bytes};
ghost use Rattle.change_records.specs.declared.fault.RecordFault.TheVariants as fault;
ghost use Rattle.change_records.specs.declared.fault.WriteFault.TheVariants as write_fault;

use std::alloc::{AllocError, AllocFailed, Global};
use thiserror::Error;
use uefi_vars::SetFault;

/// Why bytes aren't the file of a record. Its `Display` goes on from what the file is called.
#[derive(Clone, Copy, Debug, PartialEq, Eq, Error)]
pub enum RecordFault {
    /// The file doesn't begin with the four bytes `BKH1`.
    #[error("it doesn't begin with BKH1")]
    BadMagic,
    /// The file ends in the field that begins at this place, in bytes from the first byte of the file: in the four bytes of
    /// its length, or before it has so many bytes.
    #[error("it ends in the field at byte {0}")]
    Truncated(usize),
    /// The file has fewer than the four fields before the words.
    #[error("it has fewer than four fields")]
    TooFewFields,
    /// The first field is no name of a machine: it has no byte, or more than
    /// [`MACHINE_NAME_MAX`](machine_names::MACHINE_NAME_MAX).
    #[error("its machine's name has no byte, or more than 4096")]
    BadMachine,
    /// The second field, the time, doesn't have eight bytes.
    #[error("its time doesn't have eight bytes")]
    BadTime,
    /// The third field is no set file. A place is in bytes from the first byte of the field.
    #[error("its set before the change is damaged: {0}")]
    BadBefore(SetFault),
    /// The fourth field is no set file. A place is in bytes from the first byte of the field.
    #[error("its set after the change is damaged: {0}")]
    BadAfter(SetFault),
    /// The word of this number, of which the first is 0, isn't UTF-8.
    #[error("word {0} of its command isn't UTF-8")]
    BadWord(usize),
    /// Memory was refused.
    #[error("out of memory")]
    OutOfMemory,
}

impl RecordFault {
    ghost use Rattle.change_records.specs.Words.{record_fault_words};

    /// What is wrong with the file, as `Display` says it. This fails only when out of memory.
    pub fn words(&self, alloc: Global) -> Result<String, AllocError>
        ensures { IfOk result (λ text. string_bytes text ≡ record_fault_words self.now) }
    {
        match self {
            RecordFault::BadMagic => String::from_str(alloc, "it doesn't begin with BKH1"),
            RecordFault::Truncated(place) => format!(in alloc;
                "it ends in the field at byte {place}"
            ),
            RecordFault::TooFewFields => String::from_str(alloc, "it has fewer than four fields"),
            RecordFault::BadMachine => String::from_str(
                alloc,
                "its machine's name has no byte, or more than 4096",
            ),
            RecordFault::BadTime => String::from_str(alloc, "its time doesn't have eight bytes"),
            RecordFault::BadBefore(fault) => {
                let words = fault.words(alloc)?;
                format!(in alloc; "its set before the change is damaged: {words}")
            }
            RecordFault::BadAfter(fault) => {
                let words = fault.words(alloc)?;
                format!(in alloc; "its set after the change is damaged: {words}")
            }
            RecordFault::BadWord(number) => format!(in alloc;
                "word {number} of its command isn't UTF-8"
            ),
            RecordFault::OutOfMemory => String::from_str(alloc, "out of memory"),
        }
    }
}

impl From<AllocError> for RecordFault {
    ghost from_gives = { λ _ made. made ≡ fault.OutOfMemory };

    fn from(_refusal: AllocError) -> RecordFault {
        RecordFault::OutOfMemory
    }
}

impl<T: Drop> From<AllocFailed<T>> for RecordFault {
    ghost from_gives = { λ _ made. made ≡ fault.OutOfMemory };

    fn from(_refusal: AllocFailed<T>) -> RecordFault {
        RecordFault::OutOfMemory
    }
}

/// Why a record can't be written.
#[derive(Clone, Copy, Debug, PartialEq, Eq, Error)]
pub enum WriteFault {
    /// A word, or the set file of the variables before or after, has 2^32 bytes or more.
    #[error("a field of the record is too long")]
    TooLong,
    /// Memory was refused.
    #[error("out of memory")]
    OutOfMemory,
}

impl WriteFault {
    ghost use Rattle.change_records.specs.Words.{write_fault_words};

    /// Why the record can't be written, as `Display` says it. This fails only when out of memory.
    pub fn words(&self, alloc: Global) -> Result<String, AllocError>
        ensures { IfOk result (λ text. string_bytes text ≡ write_fault_words self.now) }
    {
        match self {
            WriteFault::TooLong => String::from_str(alloc, "a field of the record is too long"),
            WriteFault::OutOfMemory => String::from_str(alloc, "out of memory"),
        }
    }
}

impl From<AllocError> for WriteFault {
    ghost from_gives = { λ _ made. made ≡ write_fault.OutOfMemory };

    fn from(_refusal: AllocError) -> WriteFault {
        WriteFault::OutOfMemory
    }
}

impl<T: Drop> From<AllocFailed<T>> for WriteFault {
    ghost from_gives = { λ _ made. made ≡ write_fault.OutOfMemory };

    fn from(_refusal: AllocFailed<T>) -> WriteFault {
        WriteFault::OutOfMemory
    }
}
