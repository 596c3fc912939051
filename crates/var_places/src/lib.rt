//! The places where a machine's variables are: a set file, a folder as Linux shows variables, and an emulator's
//! variable file (UEFI specification, version 2.10, chapters 3 and 8).
//!
//! [`read_place`] reads the variables of whatever is at a path, [`file_kind`] tells files apart by their bytes, and
//! [`read_folder`], [`variable_file`] and [`file_vars`] read folders and files; a [`PlaceVars`] has the attributes too.
//! A folder is changed one variable at a time, by [`change_variable`] and [`set_variable`]. A file is replaced as a whole:
//! [`changed_variable_file`] gives its bytes, [`check_damage`] refuses one that is damaged,
//! [`lock()`] and [`lock_place`] lock it and [`write()`] replaces it; [`lock_place_folder`] locks a folder.
//! [`machine_identity`] tells the machine of a place from others. What goes wrong is a [`Failure`](messages::Failure), which
//! has a message and the status of a program that ends with it.
#![tactic(auto)]

mod file_kinds;
mod file_place;
mod folder;
mod folder_change;
mod input;
mod machine;
mod mounts;
mod output;
mod place;
mod place_vars;
mod reasons;

pub use file_kinds::{FileKind, file_kind, no_option, other_kind};
pub use file_place::{
    changed_variable_file, check_damage, file_vars, from_store, has_keep_state, no_place, set_vars,
    variable_file,
};
pub use folder::{Folder, LeftOut, read_folder};
pub use folder_change::{ChangeFault, KeptChange, change_variable, has_value, set_variable};
pub use input::{STANDARD, name_of, read, read_variables};
pub use machine::{MachineIdentity, PRODUCT_UUID, machine_identity, machine_name};
pub use output::{
    Output, check_output, is_same_file, lock, lock_place, lock_place_file, lock_place_folder, write,
};
pub use place::{is_folder, read_place};
pub use place_vars::PlaceVars;
