//! Files that say what machines are to have, in TOML and in JSON (UEFI specification, version 2.10, chapter 3).
//!
//! [`read_profile`] reads one, and gives what is written in it as a [`WrittenProfile`], or a [`FileError`] with the line and the
//! column of the first fault. Both syntaxes are read to one tree of values, each with its place, and one grammar decides over
//! that. What a loader's path leads to, and what the text of a device path stands for, is left to the caller:
//! [`position_of`] tells where such a text is.
#![tactic(auto)]

mod document;
mod entry;
mod fault;
mod json_text;
mod position;
mod reading;
mod toml_table;
mod toml_text;
mod toml_value;
mod tree;
mod values;
mod written;

pub use fault::{FileError, FileFault, Wanted};
pub use position::{Position, position_of};
pub use reading::read_profile;
pub use written::{
    WrittenEntry, WrittenName, WrittenNext, WrittenOrder, WrittenPresent, WrittenProfile,
    WrittenStart, WrittenState, WrittenText, WrittenTimeout,
};
