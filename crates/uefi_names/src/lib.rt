//! Device paths as text for a person, with each node of the UEFI specification, version 2.10 (chapter 10.3), by its
//! name and its fields.
#![tactic(auto)]

mod cut;
mod fault;
mod form_reader;
pub mod laws;
mod named;
mod nearest;
mod reading;
mod rows;
mod shown;
mod spelled;
mod table;
pub mod vendors;
mod views;
mod whole;

pub use fault::NamedFault;
pub use named::{NamedPath, named_text};
pub use reading::read_named_text;
pub use table::{
    DataLen, Encoding, Field, Form, Item, NodeGroup, NodeRow, NodeTable, Numeral, REST, Show, When,
    Word,
};
pub use views::named_nodes_text;
pub use whole::{is_hidden, pair_char};
