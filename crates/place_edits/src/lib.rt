//! Changes of the boot entries of a machine, as an administrator wants them, each as a whole: in a folder as Linux shows
//! variables, in an emulator's variable file, or in a set file (UEFI specification, version 2.10, chapter 3).
//!
//! A [`WantedEdit`] is a change of `boot_edits`, a [`WantedSet`] makes the boot variables of a place those of a set, and a
//! [`WantedUndo`] brings back what was there before the last change that is kept. Each says what it leads to, and what is told
//! of that; `machine_changes` makes it so. [`from_edit_run`] and [`EditFaultWords`] tell why an edit isn't made,
//! [`remark_repairs`] what it repairs, and [`get_entry`] gives the load option of an entry.
#![tactic(auto)]

mod brought;
mod edit_remarks;
mod edits;
mod entry;
mod fault_words;
mod left_out;
mod takeable;
mod undo;
mod undo_run;
mod unnamed;
mod voice;
mod wanted_set;

pub use edit_remarks::remark_repairs;
pub use edits::{EditForm, WantedEdit};
pub use entry::get_entry;
pub use fault_words::{EditFaultWords, from_edit_run};
pub use takeable::Takeable;
pub use undo::{UndoWords, WantedUndo};
pub use undo_run::{ChangedSince, UndoFault, Undone};
pub use wanted_set::WantedSet;
