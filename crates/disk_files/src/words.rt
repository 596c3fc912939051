//! Faults of what is read, in words for a person.

use partitions::{LoaderNameFault, MountsFault};
use std::fmt::{self, Display};
use uefi_path::PATH_NAME_MAX;

/// What is wrong with a text of mounts.
#[derive(Clone, Copy)]
pub(crate) struct MountsWords<'a>(pub(crate) &'a MountsFault);

/// What is wrong with the name of a file, whose bytes are counted from 0 on.
#[derive(Clone, Copy)]
pub(crate) struct NameWords<'a>(pub(crate) &'a LoaderNameFault);

impl Display for MountsWords<'_> {
    fn fmt<W: fmt::Write>(&self, f: &mut fmt::Formatter<W>) -> fmt::Result {
        match self.0 {
            MountsFault::BadLine(number, fault) => { write!(f, "line {number}: {}", fault.words()) }
            MountsFault::OutOfMemory => f.write_str("out of memory"),
        }
    }
}

impl Display for NameWords<'_> {
    fn fmt<W: fmt::Write>(&self, f: &mut fmt::Formatter<W>) -> fmt::Result {
        match self.0 {
            LoaderNameFault::NotUtf8(at) => write!(f, "from byte {at} on it isn't UTF-8"),
            LoaderNameFault::BadCharacter(at) => {
                write!(
                    f,
                    "the character at byte {at} is a backslash, or one that UCS-2 can't hold"
                )
            }
            LoaderNameFault::TooLong => write!(f, "it has more than {PATH_NAME_MAX} characters"),
            LoaderNameFault::OutOfMemory => f.write_str("out of memory"),
        }
    }
}
