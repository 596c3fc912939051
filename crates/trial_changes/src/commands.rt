//! The commands of starts on trial.

use crate::ending::end_stored;
use crate::telling::{TrialForm, no_trial};
use crate::trial_file::stored_trial;
use crate::wanted_confirm::WantedConfirm;
use crate::wanted_try::WantedTry;
use boot_trials::{Outcome, TrialTarget};
use machine_storage::{boot_id, kind_of_place, lock_folder};
use messages::{Failure, print};
use std::fs;
use std::rt::{Clock, Files};
use wanted_changes::{ChangeOptions, MachineWords, Machines, PlaceKind};
use whole_files::OutputFile;

/// Begins a trial of this, and prints that.
///
/// # Errors
///
/// [`Failure::Refused`] if the place is a file, which doesn't tell by which entry a machine came up; [`Failure::Run`] if there
/// is a trial already, or the entry can't be tried; and otherwise those of the change.
pub fn begin_trial<R, M>(
    rt: &R,
    machines: &M,
    options: &ChangeOptions<'_>,
    target: TrialTarget<'_>,
    form: TrialForm,
) -> Result<(), Failure>
where
    R: Files<File: OutputFile> + Clock + Input + Print + Eprint + AllocGlobal,
    M: Machines,
{
    check_place(rt, options.machine.place)?;
    let start = boot_id(rt, &options.machine, true)?;
    let wanted = WantedTry {
        rt,
        machine: options.machine,
        target,
        start: &start,
        form,
    };
    machines
        .change(rt, options, PlaceKind::Folder, &wanted)?
        .give(rt)?;
    Ok(())
}

/// Makes what follows from the trial that is kept, prints that, and gives what came of the trial. Without one nothing is locked,
/// and nothing is done that an earlier update has left.
///
/// # Errors
///
/// [`Failure::Refused`] if the place is a file, which doesn't tell by which entry a machine came up, or the trial that is kept
/// is damaged; and otherwise those of the change.
pub fn confirm_trial<R, M>(
    rt: &R,
    machines: &M,
    options: &ChangeOptions<'_>,
    form: TrialForm,
) -> Result<Option<Outcome>, Failure>
where
    R: Files<File: OutputFile> + Clock + Input + Print + Eprint + AllocGlobal,
    M: Machines,
{
    check_place(rt, options.machine.place)?;
    if stored_trial(rt, options.machine.state)?.is_none() {
        print(rt, no_trial(rt.alloc(), form)?.as_bytes())?;
        return Ok(None);
    }
    let start = boot_id(rt, &options.machine, true)?;
    let wanted = WantedConfirm {
        rt,
        machine: options.machine,
        start: &start,
        form,
    };
    let confirmation = machines
        .change(rt, options, PlaceKind::Folder, &wanted)?
        .give(rt)?;
    Ok(confirmation.map(|confirmation| confirmation.outcome))
}

/// Ends the trial that is kept, without a change of variables, and prints that.
///
/// # Errors
///
/// [`Failure::Refused`] if the place is a file; [`Failure::Busy`] if an update is at work; [`Failure::Read`] and
/// [`Failure::Write`] with the system's reason; and [`Failure::Memory`] if memory was refused.
pub fn end_trial<R: Files<File: OutputFile> + Input + Print + AllocGlobal>(
    rt: &R,
    machine: &MachineWords<'_>,
    form: TrialForm,
) -> Result<(), Failure> {
    check_place(rt, machine.place)?;
    let state = machine.state;
    let text = if fs::metadata(rt, state).is_err() {
        no_trial(rt.alloc(), form)?
    } else {
        let _folder = lock_folder(rt, state)?;
        end_stored(rt, state, form)?
    };
    print(rt, text.as_bytes())
}

/// Refuses a place that isn't a folder.
fn check_place<R: Files + Input + AllocGlobal>(rt: &R, place: &str) -> Result<(), Failure> {
    match kind_of_place(rt, place)? {
        PlaceKind::Folder => Ok(()),
        PlaceKind::VariableFile | PlaceKind::Set => Err(Failure::from_fault(
            rt.alloc(),
            place,
            "it is a file, and only a folder as Linux shows variables tells by which entry the machine came up",
        )),
    }
}
