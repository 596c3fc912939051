//! The state folder of a change, and what is kept in it of what was there before.

use crate::history::History;
use boot_history::make_state_folder;
use boot_journal::CallError;
use machine_names::MachineName;
use machine_storage::{StateFolder, lock_folder};
use messages::{Failure, note};
use std::fs;
use std::rt::{Clock, Files};
use uefi_vars::Vars;
use wanted_changes::{MachineWords, StateUse};
use whole_files::OutputFile;

/// The state folder of a change by the journal, locked.
///
/// # Errors
///
/// Those of [`lock_folder`], and of [`make_state_folder`] if it is made.
pub(crate) fn state_folder<R: Files<File: OutputFile> + AllocGlobal>(
    rt: &R,
    machine: &MachineWords<'_>,
    how: StateUse,
) -> Result<StateFolder<R::File>, Failure> {
    match how {
        StateUse::Needed => lock_folder(rt, machine.state),
        StateUse::Made | StateUse::IfThere => made_and_locked(rt, machine.state),
    }
}

/// The state folder of a change of a variable file, locked, if there is one.
///
/// # Errors
///
/// As of [`state_folder`]; but a folder that can't be made or opened counts as none, unless it is needed.
pub(crate) fn file_state<R: Files<File: OutputFile> + Eprint + AllocGlobal>(
    rt: &R,
    machine: &MachineWords<'_>,
    how: StateUse,
) -> Result<Option<StateFolder<R::File>>, Failure> {
    match how {
        StateUse::Needed => Ok(Some(lock_folder(rt, machine.state)?)),
        StateUse::IfThere if fs::metadata(rt, machine.state).is_err() => Ok(None),
        StateUse::Made | StateUse::IfThere => folder_if_any(rt, machine),
    }
}

/// Keeps in the state folder, which is locked, what the machine of this name keeps before a change by these words, and what
/// after it. If that can't be, it is told.
///
/// # Errors
///
/// [`Failure::Memory`] if memory was refused.
pub(crate) fn keep_before<R: Files<File: OutputFile> + Clock + Eprint + AllocGlobal>(
    rt: &R,
    machine: &MachineWords<'_>,
    (name, command): (&MachineName, Option<&[String]>),
    (from, to): (&Vars, &Vars),
) -> Result<(), Failure> {
    let history = History {
        state: machine.state,
        machine: name,
        command,
    };
    match history.keep(rt, from, to) {
        Err(CallError::OutOfMemory) => Err(Failure::Memory),
        Err(CallError::Refused(failure)) => {
            tell_of_no_undo(rt, machine.place, &failure);
            Ok(())
        }
        Ok(()) => Ok(()),
    }
}

/// Tells on standard error that a change of this place can't be undone, for this failure.
fn tell_of_no_undo<R: Eprint>(rt: &R, place: &str, failure: &Failure) {
    note(
        rt,
        place,
        format_args!("there is no undo of this change: {failure}"),
    );
}

/// The state folder, locked: `None` if it can't be made or opened, which is told.
///
/// # Errors
///
/// [`Failure::Busy`] if an update is at work, [`Failure::Refused`] if it is no folder, and [`Failure::Memory`] if memory was
/// refused.
fn folder_if_any<R: Files<File: OutputFile> + Eprint + AllocGlobal>(
    rt: &R,
    machine: &MachineWords<'_>,
) -> Result<Option<StateFolder<R::File>>, Failure> {
    match made_and_locked(rt, machine.state) {
        Ok(folder) => Ok(Some(folder)),
        Err(failure) if matches!(&failure, Failure::Read { .. } | Failure::Write { .. }) => {
            tell_of_no_undo(rt, machine.place, &failure);
            Ok(None)
        }
        Err(failure) => Err(failure),
    }
}

/// The state folder at this path, which is made if it isn't there, locked.
///
/// # Errors
///
/// Those of [`make_state_folder`] and of [`lock_folder`].
fn made_and_locked<R: Files<File: OutputFile> + AllocGlobal>(
    rt: &R,
    state: &str,
) -> Result<StateFolder<R::File>, Failure> {
    make_state_folder(rt, state)?;
    lock_folder(rt, state)
}
