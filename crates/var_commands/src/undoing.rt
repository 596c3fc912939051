//! The command `undo`, which brings back what was there before the last change of a machine.

use machine_storage::kind_of_place;
use messages::Failure;
use place_edits::{Takeable, UndoWords, WantedUndo};
use std::rt::{Clock, Files};
use wanted_changes::{ChangeOptions, Machines, PlaceKind, StateUse};
use whole_files::OutputFile;

/// Brings back what was there before the last change of a machine that is kept in the state folder, and prints the changes
/// as `diff` does. Gives what is brought back.
///
/// # Errors
///
/// [`Failure::Refused`] if the place is a set file; [`Failure::Run`] if nothing is kept of the machine, or something else has
/// changed since, which is printed then; otherwise those of the change.
pub(crate) fn undo_change<R, M>(
    rt: &R,
    machines: &M,
    words: &UndoWords<'_>,
) -> Result<Takeable, Failure>
where
    R: Files<File: OutputFile> + Clock + Input + Print + Eprint + AllocGlobal,
    M: Machines,
{
    let place = words.machine.place;
    let kind = kind_of_place(rt, place)?;
    if kind == PlaceKind::Set {
        return Err(Failure::from_fault(
            rt.alloc(),
            place,
            "it is a set file, and nothing is kept of its changes",
        ));
    }
    let options = ChangeOptions {
        machine: words.machine,
        command: None,
        dry_run: words.dry_run,
        state: StateUse::Needed,
    };
    let undone = machines
        .change(rt, &options, kind, &WantedUndo { rt, words })?
        .give(rt)?;
    Ok(undone.back)
}
