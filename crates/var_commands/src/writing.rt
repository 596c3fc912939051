//! The command `write`, which makes the boot variables of a place those of a set.

use bootvars_actions::{Form, SetWords};
use machine_storage::kind_of_place;
use messages::{Failure, Reason};
use place_edits::{Takeable, WantedSet};
use std::rt::{Clock, Files};
use uefi_vars::{Vars, entry_number};
use var_places::{FileKind, file_kind, is_folder, name_of, no_place, read_variables, set_vars};
use wanted_changes::{ChangeOptions, Machines, PlaceKind, StateUse};
use whole_files::OutputFile;

/// Makes the boot variables of a place those of a set, and prints each change, or how the two differ, for a dry run. Gives what
/// the place has then. What was there before is kept in the state folder of a machine; if the words name none, it isn't made
/// for a variable file.
///
/// # Errors
///
/// [`Failure::Refused`] if the set is none, is damaged or has no entry; otherwise those of the change.
pub(crate) fn write_place<R, M>(
    rt: &R,
    machines: &M,
    words: &SetWords<'_>,
    command: &[String],
) -> Result<Takeable, Failure>
where
    R: Files<File: OutputFile> + Clock + Input + Print + Eprint + AllocGlobal,
    M: Machines,
{
    let set = read_set_file(rt, words.set)?;
    if !words.empty && !has_entry(&set) {
        return Err(Failure::refused(rt.alloc(), name_of(words.set), Reason::NoEntry));
    }
    let place = words.machine.place;
    let kind = kind_of_place(rt, place)?;
    let options = ChangeOptions {
        machine: words.machine,
        command: Some(command),
        dry_run: words.dry_run,
        state: if words.names_state {
            StateUse::Made
        } else {
            StateUse::IfThere
        },
    };
    let wanted = WantedSet {
        name: name_of(words.set),
        set: &set,
        place,
        into_set_file: kind == PlaceKind::Set,
        json: matches!(words.form, Form::Json),
    };
    machines.change(rt, &options, kind, &wanted)?.give(rt)
}

/// The variables of the set file at this path.
fn read_set_file<R: Files + Input + AllocGlobal>(rt: &R, path: &str) -> Result<Vars, Failure> {
    let alloc = rt.alloc();
    let name = name_of(path);
    if is_folder(rt, path)? {
        return Err(Failure::refused(alloc, name, Reason::Folder));
    }
    let bytes = read_variables(rt, path)?;
    match file_kind(&bytes) {
        FileKind::Set => set_vars(alloc, name, &bytes),
        FileKind::VariableFile => Err(Failure::refused(alloc, name, Reason::VariableFile)),
        FileKind::Other => Err(no_place(alloc, name, &bytes)),
    }
}

/// Whether there is an entry among the variables.
fn has_entry(vars: &Vars) -> bool {
    vars.iter().any(|(name, _)| entry_number(name).is_some())
}
