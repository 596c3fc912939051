//! Device paths of the UEFI specification, version 2.10, as text (chapter 10.6), in one printed
//! spelling and in the spellings that are read.
//!
//! [`path_text`] prints a path and [`read_text`] reads one back, exactly: what is read is what the
//! grammar says, and a refusal says where. [`guid_text`] and [`read_guid`] do the same for GUIDs
//! alone. [`PathText`] and [`GuidText`] are the printed texts as values that `{}` writes, and [`NodeText`], [`HidText`],
//! [`NumberText`], [`DigitsText`] and [`AddressText`] those of their parts.
#![tactic(auto)]

mod argument;
mod fault;
mod forms;
mod guid;
pub mod laws;
mod print_node;
mod print_parts;
mod print_path;
mod reader;
mod segment;

pub use fault::TextFault;
pub use guid::{GuidText, guid_text, read_guid};
pub use print_node::{Hid as HidText, NodeText, is_hd_or_file};
pub use print_parts::{Address as AddressText, Digits as DigitsText, Number as NumberText};
pub use print_path::{PathText, path_text};
pub use reader::read_text;
