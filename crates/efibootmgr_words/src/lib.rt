//! The words that `efibootmgr` takes, and the lines that it prints: values and texts alone, with no file and no machine.
//!
//! [`read_words`] cuts the words of a command line into options and others, as getopt_long does by a table of options:
//! [`options`] is that of `efibootmgr`. [`Asked::new`] tells what they ask for. What is wrong with them is a [`WordFault`],
//! which names the word, and has the status that `efibootmgr` ends with. [`list_vars`] shows a machine's boot variables (UEFI
//! specification, version 2.10, chapter 3), and [`efivar_text`] a device path (chapter 10), in the forms of version 17 of
//! `efibootmgr` and version 37 of libefivar; docs/efibootmgr.md says where they differ. [`HELP`] and [`VERSION`] are what is
//! printed for those who ask for them.
#![tactic(auto)]

mod asked_words;
mod cut;
mod efivar_nodes;
mod efivar_path;
mod efivar_rows;
mod efivar_vendors;
mod fault;
mod given_words;
mod help_text;
mod lines;
mod numbers;
mod option_table;
mod units;
mod values;

pub use asked_words::{Asked, EntryWords};
pub use efivar_path::efivar_text;
pub use fault::WordFault;
pub use given_words::{Given, GivenOption, read_words};
pub use help_text::{HELP, VERSION};
pub use lines::{ListForm, Listing, list_vars};
pub use option_table::{Choice, OptionRow, Takes, options};
