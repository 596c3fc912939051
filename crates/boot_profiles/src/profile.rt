//! What a machine is to have.

use crate::description::Description;

/// What a machine is to have. What it doesn't name isn't touched.
#[derive(Debug, Drop)]
pub struct Profile {
    /// Entries that are to be there or not, no two of one description.
    pub entries: Vec<ProfileEntry>,
    /// What BootOrder is to be.
    pub order: ProfileOrder,
    /// What BootNext is to be.
    pub next: ProfileNext,
    /// What Timeout is to be.
    pub timeout: ProfileTimeout,
}

/// An entry that is to be there or not.
#[derive(Debug, Drop)]
pub struct ProfileEntry {
    /// By which it is known.
    pub description: Description,
    /// What is to be of it.
    pub state: EntryState,
}

/// What is to be of an entry.
#[derive(Debug, Drop)]
pub enum EntryState {
    /// No entry has the description. All that have it are taken out, their numbers out of BootOrder, and BootNext is
    /// deleted if it names one.
    Absent,
    /// One entry has the description, and is so.
    Present(PresentEntry),
}

/// What an entry is to be.
#[derive(Debug, Drop)]
pub struct PresentEntry {
    /// Its bytes, which are a load option with its description (UEFI 2.10, 3.1.3): its paths, its optional data, and
    /// its attributes but for LOAD_OPTION_ACTIVE.
    pub option: Vec<u8>,
    /// Whether it is to have LOAD_OPTION_ACTIVE. `None` leaves an entry that is there as it is, and makes a new one as
    /// the option has it.
    pub active: Option<bool>,
}

/// What BootOrder is to be. Each description is that of one entry, which is there or is made, and no entry is named
/// twice.
#[derive(Debug, Drop)]
pub enum ProfileOrder {
    /// It stays, but that a new entry comes last, and one that is taken out is in it no more.
    Kept,
    /// These entries come first, in this sequence, and the others after them as they were. A BootOrder that can't be
    /// read counts as empty.
    First(Vec<Description>),
    /// It has these entries, in this sequence, and no others.
    Only(Vec<Description>),
}

/// What BootNext is to be.
#[derive(Debug, Drop)]
pub enum ProfileNext {
    /// It stays, unless it names an entry that is taken out.
    Kept,
    /// It isn't there.
    Gone,
    /// It names the entry of this description, which is there or is made.
    Entry(Description),
}

/// What Timeout is to be.
#[derive(Clone, Copy, Debug, PartialEq, Eq, Hash)]
pub enum ProfileTimeout {
    /// It stays.
    Kept,
    /// It isn't there.
    Gone,
    /// It is so many seconds.
    Seconds(u16),
}
