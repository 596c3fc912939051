//! What may be wrong with boot entries, by their variables and by what is known of where they lead (UEFI specification,
//! version 2.10, chapter 3).
//!
//! [`findings`] gives what is found of an entry, as [`Facts`] tell of it, and [`entry_state`] whether it can be started
//! by that; a [`Finding`] has its words in a table. [`image_state`] is what the fault of a file and Secure Boot say of
//! it, if firmware is of a [`Processor`]. [`order_findings`] and [`next_finding`] are what is found of BootOrder and
//! BootNext, and [`listed`] is the order in which entries are told. [`path_target`] is where a path leads, as far as
//! that can be looked at, [`destination`] tells one such file from others, and [`twins`] finds entries that lead to
//! one; [`name_among`] finds a file by its name in a path. No file is read here: the caller looks.
#![tactic(auto)]

mod destinations;
mod facts;
mod file_names;
mod finding;
mod image;
mod lead;
mod named;
mod numbers;
mod same_files;
mod target;
mod telling;

pub use destinations::destination;
pub use facts::{Facts, Held, OptionFacts, State, entry_state, findings};
pub use file_names::name_among;
pub use finding::{Finding, FindingRow, Weight};
pub use image::{ImageState, Processor, image_state, own_verdict, processor_of};
pub use lead::Lead;
pub use named::{NextFinding, OrderFindings, is_order_wrong, next_finding, order_findings};
pub use same_files::{Known, twins};
pub use target::{Target, path_target};
pub use telling::listed;
