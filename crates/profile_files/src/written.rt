//! Profiles as they are written. Each place is that of a byte of the file, counted from 0.

/// What a file says that a machine is to have.
#[derive(Debug, Drop)]
pub struct WrittenProfile {
    /// Entries that are to be there or not.
    pub entries: Vec<WrittenEntry>,
    /// What BootOrder is to be.
    pub order: WrittenOrder,
    /// What BootNext is to be.
    pub next: WrittenNext,
    /// What Timeout is to be.
    pub timeout: WrittenTimeout,
}

/// A description.
#[derive(Debug, Drop)]
pub struct WrittenName {
    /// Its place.
    pub place: usize,
    /// Its text, as the file has it.
    pub text: String,
    /// The bytes of its CHAR16 units (UEFI 2.10, 3.1.3).
    pub bytes: Vec<u8>,
}

/// An entry.
#[derive(Debug, Drop)]
pub struct WrittenEntry {
    /// Its description.
    pub name: WrittenName,
    /// What is to be of it.
    pub state: WrittenState,
}

/// What is to be of an entry.
#[derive(Debug, Drop)]
pub enum WrittenState {
    /// It isn't to be there.
    Absent,
    /// It is to be there, and to be so.
    Present(WrittenPresent),
}

/// What an entry is to be.
#[derive(Debug, Drop)]
pub struct WrittenPresent {
    /// What it starts.
    pub start: WrittenStart,
    /// Whether it is to be active, if that is said.
    pub active: Option<bool>,
}

/// What an entry starts.
#[derive(Debug, Drop)]
pub enum WrittenStart {
    /// A file.
    Loader(WrittenText, Vec<u8>),
    /// What a device path leads to, whose text this is, with these optional data.
    Path(WrittenText, Vec<u8>),
    /// What the load option of these bytes has, which has the entry's description.
    Option(Vec<u8>),
}

/// A text that isn't empty.
#[derive(Debug, Drop)]
pub struct WrittenText {
    /// Its place.
    pub place: usize,
    /// The text.
    pub text: String,
}

/// What BootOrder is to be.
#[derive(Debug, Drop)]
pub enum WrittenOrder {
    /// Nothing is said of it.
    Kept,
    /// These come first.
    First(Vec<WrittenName>),
    /// It is these.
    Only(Vec<WrittenName>),
}

/// What BootNext is to be.
#[derive(Debug, Drop)]
pub enum WrittenNext {
    /// Nothing is said of it.
    Kept,
    /// It isn't to be there.
    Gone,
    /// It names this entry.
    Entry(WrittenName),
}

/// What Timeout is to be.
#[derive(Clone, Copy, Debug, PartialEq, Eq)]
pub enum WrittenTimeout {
    /// Nothing is said of it.
    Kept,
    /// It isn't to be there.
    Gone,
    /// It is so many seconds.
    Seconds(u16),
}
