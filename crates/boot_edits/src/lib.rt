//! Changes of boot entries as an administrator asks for them (UEFI specification, version 2.10, chapter 3).
//!
//! An [`Edit`] adds an entry, takes entries out, puts them first in BootOrder, makes another BootOrder or one without repeated
//! numbers, names the entry that the next boot tries, says for how long the boot manager waits, or makes entries active or
//! not. [`make_edit`] gives what becomes of a machine's variables, or says by an [`EditFault`] why nothing does; what is told of an edit that is done is an [`EditAnswer`]. [`EditRun`] is an edit over what
//! a machine keeps, which [`command`](boot_journal::command) makes as a whole, and [`Restore`] brings variables back that were
//! there before.
#![tactic(auto)]

mod activate;
mod addition;
mod answer;
mod edit;
mod entries;
mod fault;
pub mod laws;
mod listed;
mod next;
mod order;
mod remove;
mod reorder;
mod restore;
mod run;
mod same;
mod timeout;

pub use addition::{Addition, Position};
pub use answer::EditAnswer;
pub use edit::{Edit, make_edit};
pub use fault::EditFault;
pub use reorder::NewOrder;
pub use restore::Restore;
pub use run::{EditRun, EditRunFault, EditedVars};
