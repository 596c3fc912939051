//! Where a machine's variables and its journal are: in a folder as Linux shows them, or in an emulator's variable file, and in the
//! machine's state folder (UEFI specification, version 2.10, chapter 3).
//!
//! [`open_place`] locks a place, and reads what its machine keeps, as [`KeptVars`]; [`open_machine`] makes a
//! [`Machine`](boot_journal::Machine) of it, whose storage is that place and the journal, and [`settle_machine`] does what an
//! earlier update has left to do. [`settled_machine`] tells what a machine stands for, and changes nothing. [`kind_of_place`] tells
//! what a place is, [`name_of_machine`] what its machine is called, and [`boot_id`] the identity of its start. What changes a
//! machine is in `machine_changes`.
#![tactic(auto)]

mod boot_identity;
mod failures;
mod kept_vars;
mod moves;
mod notes;
mod opened;
mod owner;
mod place_kind;
mod settling;
mod standing;
mod state_folder;
mod storage;
mod told;
mod values;
mod variable_file;

pub use boot_identity::boot_id;
pub use failures::{from_settling, from_updating};
pub use kept_vars::{KeptVars, copies};
pub use notes::{begin_notes, notes_of};
pub use opened::{
    KeptFile, Machine, OpenedPlace, open_machine, open_place, read_kept, read_kept_file,
    read_kept_set,
};
pub use owner::name_of_machine;
pub use place_kind::kind_of_place;
pub use settling::{settle_left, settle_machine};
pub use standing::{SettledMachine, SettledVars, settled_file, settled_machine};
pub use state_folder::{StateFolder, StoredJournal, journal_path, lock_folder, stored_with_notes};
pub use storage::{PlaceStorage, from_change};
pub use told::tell_of_due;
pub use values::set_value;
