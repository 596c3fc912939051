//! Changes that are wanted of a machine's boot variables, apart from how a machine is changed (UEFI specification, version
//! 2.10, chapter 3).
//!
//! A [`Wanted`] says what is to become of the variables, [`Led`] what it leads to, and [`Told`] what is told of that; [`Seen`]
//! is what it may know of the machine beside them. [`set_of`] takes the attributes off what a machine keeps, and [`leave_out`]
//! takes out what no set can hold. [`MachineWords`] names a machine's place, and the folder with its journal, and
//! [`ProfileWords`] a profile. [`ChangeOptions`] say how a change is to be made, and [`Machines`] is who makes it.
#![tactic(auto)]

mod change_options;
mod kept_notes;
mod left_out;
mod machine_words;
mod machines;
mod profile_words;
mod sets;
mod told;
mod wanted;

pub use change_options::{ChangeOptions, PlaceKind, StateUse};
pub use kept_notes::{KeptNotes, digits_of, identity_digits, journal_identity};
pub use left_out::{LEFT_OUT, is_one_of, leave_out};
pub use machine_words::MachineWords;
pub use machines::Machines;
pub use profile_words::ProfileWords;
pub use sets::{SetChange, Sets, set_of, sets_of};
pub use told::{Remarks, Told, ToldAnswer};
pub use wanted::{Led, Seen, Wanted};
