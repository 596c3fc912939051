//! Why files are refused.

use crate::position::Position;
use std::alloc::{AllocError, AllocFailed};
use std::fmt;
use thiserror::Error;
use toml_parser::{ErrorKind, ParseError};
use uefi_option::OptionFault;
use value_texts::DescriptionFault;

/// Why a file is no profile.
#[derive(Clone, Copy, Debug, PartialEq, Eq, Error)]
pub enum FileFault {
    /// It isn't UTF-8.
    #[error("it isn't UTF-8 from here on")]
    NotUtf8,
    /// It is no TOML.
    #[error("it is no TOML: {}", .0.description())]
    Toml(ErrorKind),
    /// It is no TOML, since what is defined here is there already.
    #[error("it is no TOML: what is defined here is there already")]
    TomlTwice,
    /// It is no JSON.
    #[error("it is no JSON from here on")]
    Json,
    /// A member has a name that no profile has there.
    #[error("there is no member of this name here")]
    UnknownMember,
    /// A member is there twice.
    #[error("the member is there twice")]
    MemberTwice,
    /// A value isn't what is to be there.
    #[error("{0} is to be here")]
    Wanted(Wanted),
    /// There is both `first` and `only`.
    #[error("an order has either first or only")]
    TwoOrders,
    /// An entry has no description.
    #[error("the entry has no description")]
    NoDescription,
    /// A backslash in a description is neither itself nor an escape.
    #[error("{0}")]
    Description(DescriptionFault),
    /// The description has a zero character.
    #[error("the description has a zero character")]
    ZeroCharacter,
    /// The entry isn't to be there, and has a member that only one has that is.
    #[error("an absent entry has its description alone")]
    OfAbsent,
    /// Nothing says what the entry starts.
    #[error("the entry has none of loader, path and option")]
    NoStart,
    /// Two members say what the entry starts.
    #[error("the entry has two of loader, path and option")]
    TwoStarts,
    /// A loader or a path is empty.
    #[error("there is nothing in it")]
    Empty,
    /// The optional data are there twice.
    #[error("the entry has both optional and optional_text")]
    TwoOptionals,
    /// The optional data are beside an option, which has its own.
    #[error("an option has its own optional data")]
    OptionalOfOption,
    /// The bytes of the option are no load option.
    #[error("it is no load option: {0}")]
    Option(OptionFault),
    /// The option has another description than its entry.
    #[error("the option has another description than its entry")]
    OtherDescription,
}

/// What is to be at a place of a file.
#[derive(Clone, Copy, Debug, PartialEq, Eq)]
pub enum Wanted {
    /// A table.
    Table,
    /// A list of entries.
    Entries,
    /// A list of descriptions.
    Descriptions,
    /// A text.
    Text,
    /// A text of hexadecimal digits.
    Hex,
    /// `present` or `absent`.
    State,
    /// True or false.
    Flag,
    /// A number of seconds, or false.
    Seconds,
    /// A description, or false.
    Next,
}

impl fmt::Display for Wanted {
    fn fmt<W: fmt::Write>(&self, f: &mut fmt::Formatter<W>) -> fmt::Result {
        f.write_str(match self {
            Wanted::Table => "a table",
            Wanted::Entries => "a list of tables",
            Wanted::Descriptions => "a list of descriptions",
            Wanted::Text => "a text",
            Wanted::Hex => "a text of hexadecimal digits, two for each byte,",
            Wanted::State => "\"present\" or \"absent\"",
            Wanted::Flag => "true or false",
            Wanted::Seconds => "a number of seconds from 0 to 65535, or false,",
            Wanted::Next => "a description, or false,",
        })
    }
}

/// Why a file isn't read.
#[derive(Clone, Copy, Debug, PartialEq, Eq, Error)]
pub enum FileError {
    /// It has a fault.
    #[error("{position}: {fault}")]
    At {
        /// Where it is.
        position: Position,
        /// The fault.
        fault: FileFault,
    },
    /// Memory was refused.
    #[error("out of memory")]
    OutOfMemory,
}

/// What stops the reading of a file.
#[derive(Clone, Copy, Debug, PartialEq, Eq)]
pub(crate) enum Stop {
    /// The fault of what is at this place, counted in bytes from 0.
    At(usize, FileFault),
    /// Memory was refused.
    OutOfMemory,
}

impl Stop {
    /// What it is to the reading of a TOML text of this length that this stopped it.
    pub(crate) fn of_toml(len: usize, error: ParseError) -> Stop {
        match error {
            ParseError::OutOfMemory | ParseError::At(ErrorKind::OutOfMemory, _, _) =>
                Stop::OutOfMemory,
            ParseError::At(kind, from, _) => Stop::At(
                len.saturating_sub(from),
                FileFault::Toml(kind),
            ),
        }
    }
}

impl From<AllocError> for Stop {
    fn from(_refusal: AllocError) -> Stop {
        Stop::OutOfMemory
    }
}

impl<T: Drop> From<AllocFailed<T>> for Stop {
    fn from(_refusal: AllocFailed<T>) -> Stop {
        Stop::OutOfMemory
    }
}
