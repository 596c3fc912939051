//! Entries that a start of firmware may write over or delete, as they are shown.

use std::fmt;
use uefi_vars::{AtRisk, EntryName};

/// What a start of firmware may do to an entry.
#[derive(Clone, Copy, Debug, PartialEq, Eq)]
pub(crate) enum Risk {
    /// It may write over the entry, which neither BootOrder nor BootNext names.
    Unnamed,
    /// It may delete the entry, which BootOrder names, and which is no load option.
    Undecodable,
}

impl Risk {
    /// What it may do to the entry of this number, if anything.
    pub(crate) fn of(at_risk: &AtRisk, number: u16) -> Option<Risk> {
        if at_risk.unnamed.binary_search(&number).is_ok() {
            Some(Risk::Unnamed)
        } else if at_risk.undecodable.binary_search(&number).is_ok() {
            Some(Risk::Undecodable)
        } else {
            None
        }
    }

    /// What its JSON calls it.
    pub(crate) fn word(self) -> &'static str {
        match self {
            Risk::Unnamed => "unnamed",
            Risk::Undecodable => "undecodable",
        }
    }
}

/// The words for a person that go on from the entry's name.
impl fmt::Display for Risk {
    fn fmt<W: fmt::Write>(&self, f: &mut fmt::Formatter<W>) -> fmt::Result {
        match self {
            Risk::Unnamed => f.write_str(
                "not in BootOrder or BootNext: firmware may write over it",
            ),
            Risk::Undecodable => f.write_str("undecodable, in BootOrder: firmware may delete it"),
        }
    }
}

/// That the entry of this number is in no order after a change, in words for a person.
#[derive(Clone, Copy, Debug)]
pub struct UnnamedWords(pub u16);

impl fmt::Display for UnnamedWords {
    fn fmt<W: fmt::Write>(&self, f: &mut fmt::Formatter<W>) -> fmt::Result {
        write!(f, "{} {}", EntryName(self.0), Risk::Unnamed)
    }
}
