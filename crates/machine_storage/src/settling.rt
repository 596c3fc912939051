//! What earlier updates of a machine have left to do.

use crate::failures::from_settling;
use crate::opened::{open_machine, open_place};
use crate::standing::is_left_to;
use crate::state_folder::{lock_folder, stored_journal};
use boot_journal::settle;
use messages::Failure;
use std::rt::Files;
use wanted_changes::MachineWords;
use whole_files::OutputFile;

/// Does what an earlier update of the machine in a variable file has left to do, by the journal at this path. Another machine's
/// journal is left alone.
///
/// # Errors
///
/// [`Failure::Read`] and [`Failure::Write`] with the system's reason; [`Failure::Refused`] if the journal or the file is damaged;
/// [`Failure::Words`] if the identity of the start isn't given, or it or the machine's name isn't one; [`Failure::TakenBack`]
/// and [`Failure::Unsettled`] if the system refuses a change; and [`Failure::Memory`] if memory was refused.
pub fn settle_left<R: Files<File: OutputFile> + Input + Print + Eprint + AllocGlobal>(
    rt: &R,
    machine: &MachineWords<'_>,
    journal_path: &str,
) -> Result<(), Failure> {
    match stored_journal(rt, journal_path)? {
        Some(stored) if is_left_to(rt, machine, false, &stored)? => {
            settle_locked(rt, machine, journal_path)
        }
        _ => Ok(()),
    }
}

/// Does what earlier updates of a machine have left to do, by the journal in the state folder.
///
/// # Errors
///
/// As of [`settle_left`], and those of [`lock_folder`].
pub fn settle_machine<R: Files<File: OutputFile> + Input + Print + Eprint + AllocGlobal>(
    rt: &R,
    machine: &MachineWords<'_>,
) -> Result<(), Failure> {
    let folder = lock_folder(rt, machine.state)?;
    settle_locked(rt, machine, folder.journal())
}

/// The same by the journal at this path, whose folder is locked.
fn settle_locked<R: Files<File: OutputFile> + Input + Print + Eprint + AllocGlobal>(
    rt: &R,
    machine: &MachineWords<'_>,
    journal_path: &str,
) -> Result<(), Failure> {
    let (mut kept, boot) = open_machine(rt, machine, open_place(rt, machine)?, journal_path)?;
    settle(rt.alloc(), &mut kept, &boot).map_err(|error| from_settling(rt.alloc(), machine, error))
}
