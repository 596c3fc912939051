//! The boot variables of a machine, as one value and as one file, and what they say of the next boot (UEFI specification,
//! version 2.10, chapter 3).
//!
//! [`Vars`] is a finite map from names to data. [`read_set`] reads one from the bytes of a set file, all of them, and
//! [`write_set`] gives its one spelling. [`Changes`] gathers what is to become of variables, and [`Vars::make`] makes
//! it. Copies share the bytes of names and of data, and so do a set and the copy of the file that it was read from.
//! Load options are stored under the names that [`entry_name`] gives, and [`entry_option`] reads one; [`lowest_free`]
//! finds a number for one more. [`boot_order`] and [`boot_next`] read which of them are to be tried, [`plan`] puts
//! together what a boot would try, and [`plan_numbers`] its numbers alone. [`entries_at_risk`] tells which of them a
//! start of firmware may write over or delete, and [`naming_change`] what a change makes of those that are in no order.
//! [`boot_changes`] lists the single changes of Boot####, BootOrder, BootNext and Timeout that lead from one set to
//! another, in an order in which a machine can make them: after each of them, BootOrder and BootNext name a missing entry
//! only if they did before all of them or do after them.
#![tactic(auto)]

mod at_risk;
mod attributes;
mod boot_change;
mod boot_plan;
mod by_number;
mod changes;
mod family;
mod fault;
mod free;
pub mod laws;
mod name;
mod named;
mod naming;
mod normal_entry;
mod order;
mod planner;
mod reader;
mod shared;
mod vars;
mod writer;

pub use at_risk::{AtRisk, entries_at_risk};
pub use attributes::{ATTRIBUTES_LEN, BOOT_ATTRIBUTES};
pub use boot_change::{BootChange, boot_changes, is_boot_name};
pub use boot_plan::{BootPlan, Choice, PlanNumbers};
pub use changes::Changes;
pub use family::{EntryFamily, EntryNameIn, NameIn};
pub use fault::{PutFault, PutRefusal, SetFault, VarFault};
pub use free::lowest_free;
pub use name::{
    BOOT_NEXT, BOOT_ORDER, EntryDigits, EntryName, GLOBAL_VENDOR, KEEP_STATE, NAME_MAX, TIMEOUT,
    entry_name, entry_number,
};
pub use naming::{NamingChange, known_risks, naming_change};
pub use order::{ORDER_MAX, boot_next, boot_order};
pub use planner::{entry_option, plan, plan_numbers};
pub use reader::read_set;
pub use vars::{DATA_MAX, Iter, Vars};
pub use writer::{SET_MAGIC, write_set};
