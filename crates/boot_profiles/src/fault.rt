//! Why profiles aren't applied.

use boot_edits::EditFault;
use thiserror::Error;
use uefi_option::OptionFault;

/// Why an entry of a profile makes nothing of variables.
#[derive(Clone, Copy, Debug, PartialEq, Eq, Hash, Error)]
pub enum EntryFault {
    /// An entry after it has the same description.
    #[error("Twice")]
    Twice,
    /// The bytes of its option are no load option.
    #[error("BadOption {0}")]
    BadOption(OptionFault),
    /// Its option has another description.
    #[error("OtherDescription")]
    OtherDescription,
    /// Several entries of the variables have the description, so that it isn't known which one is meant.
    #[error("Ambiguous")]
    Ambiguous,
    /// There is no number for a new entry, no room for its bytes or in BootOrder, or BootOrder or BootNext can't be
    /// read.
    #[error("Edit {0}")]
    Edit(EditFault),
}

/// Why a description names no entry of variables.
#[derive(Clone, Copy, Debug, PartialEq, Eq, Hash, Error)]
pub enum NameFault {
    /// No entry has it.
    #[error("Unknown")]
    Unknown,
    /// Several entries have it.
    #[error("Ambiguous")]
    Ambiguous,
}

/// Why a profile isn't applied. Nothing is changed then. Places count from 0.
#[derive(Clone, Copy, Debug, PartialEq, Eq, Hash, Error)]
pub enum ProfileFault {
    /// The entry at this place makes nothing of the variables.
    #[error("Entry {0} {1}")]
    Entry(usize, EntryFault),
    /// The description at this place of the order names no entry.
    #[error("OrderName {0} {1}")]
    OrderName(usize, NameFault),
    /// BootOrder can't become what it is to be: an entry is named twice, or there are more than
    /// [`ORDER_MAX`](uefi_vars::ORDER_MAX) numbers.
    #[error("Order {0}")]
    Order(EditFault),
    /// The description of what the next boot is to try names no entry.
    #[error("Next {0}")]
    Next(NameFault),
}
