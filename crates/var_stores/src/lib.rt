//! An emulator's variable file, as edk2 writes it: the records of its variables, and the file with other boot variables
//! (UEFI specification, version 2.10, chapters 3 and 8).
//!
//! [`read_store`] finds the records of variables in a file, and [`store_vars`] makes a set of those that are there;
//! [`stored_value`] is the value of one of them, of any vendor. [`VariableStore::damage`] tells of what isn't erased
//! behind them. [`write_boot_vars`] gives the bytes of the file with the boot variables of another set.
#![tactic(auto)]

mod damage;
mod fault;
pub mod laws;
mod present;
mod record;
mod store;
mod stored_vars;
mod value;
mod volume;
mod write_fault;
mod writer;

pub use damage::Damage;
pub use fault::StoreFault;
pub use record::Record;
pub use store::{VariableStore, read_store};
pub use stored_vars::{left_out, store_attributes, store_vars};
pub use value::stored_value;
pub use volume::VOLUME_SIGNATURE;
pub use write_fault::WriteFault;
pub use writer::write_boot_vars;
