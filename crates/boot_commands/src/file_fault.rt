//! Why inputs aren't read and outputs aren't written.

ghost use Rattle.std.specs.Prelude.{◌≡◌, IfOk};
ghost use Rattle.std.specs.IoError.{error_kind};
ghost use Rattle.std.specs.String.{string_bytes};
ghost use Rattle.boot_commands.specs.FileFault.{input_fault_of, output_fault_of};
ghost use Rattle.boot_commands.specs.Words.{input_fault_words, output_fault_words};

use std::alloc::{AllocError, Global};
use std::io::{self, ErrorKind};
use thiserror::Error;

/// Why an input isn't read.
#[derive(Clone, Copy, Debug, PartialEq, Eq, Hash, Error)]
pub enum InputFault {
    /// It has more than [`LIMIT`](whole_files::LIMIT) bytes.
    #[error("TooMuch")]
    TooMuch,
    /// It can't be opened or read.
    #[error("Read")]
    Read,
    /// Memory was refused.
    #[error("OutOfMemory")]
    OutOfMemory,
}

impl InputFault {
    /// The fault's name. This fails only when out of memory.
    pub fn words(&self, alloc: Global) -> Result<String, AllocError>
        ensures { IfOk result (λ text. string_bytes text ≡ input_fault_words self.now) }
    {
        match self {
            InputFault::TooMuch => String::from_str(alloc, "TooMuch"),
            InputFault::Read => String::from_str(alloc, "Read"),
            InputFault::OutOfMemory => String::from_str(alloc, "OutOfMemory"),
        }
    }
}

impl From<io::Error> for InputFault {
    ghost from_gives = { λ error made. made ≡ input_fault_of (error_kind error) };

    fn from(error: io::Error) -> InputFault {
        match error.kind() {
            ErrorKind::OutOfMemory => InputFault::OutOfMemory,
            _ => InputFault::Read,
        }
    }
}

/// Why an output isn't written.
#[derive(Clone, Copy, Debug, PartialEq, Eq, Hash, Error)]
pub enum OutputFault {
    /// It can't be locked, made, written or put in its place.
    #[error("Write")]
    Write,
    /// Memory was refused.
    #[error("OutOfMemory")]
    OutOfMemory,
}

impl OutputFault {
    /// The fault's name. This fails only when out of memory.
    pub fn words(&self, alloc: Global) -> Result<String, AllocError>
        ensures { IfOk result (λ text. string_bytes text ≡ output_fault_words self.now) }
    {
        match self {
            OutputFault::Write => String::from_str(alloc, "Write"),
            OutputFault::OutOfMemory => String::from_str(alloc, "OutOfMemory"),
        }
    }
}

impl From<io::Error> for OutputFault {
    ghost from_gives = { λ error made. made ≡ output_fault_of (error_kind error) };

    fn from(error: io::Error) -> OutputFault {
        match error.kind() {
            ErrorKind::OutOfMemory => OutputFault::OutOfMemory,
            _ => OutputFault::Write,
        }
    }
}
