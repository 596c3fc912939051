//! What is told of the trial that is kept of a machine.

use crate::telling::standing_of;
use crate::trial_file::stored_trial;
use boot_texts::{TrialStanding, TrialView};
use boot_trials::{Facts, Outcome, Trial, boot_current, outcome_of};
use machine_storage::boot_id;
use messages::{Failure, note};
use std::io::ErrorKind;
use std::rt::Files;
use uefi_vars::Vars;
use wanted_changes::MachineWords;

/// What there is to tell of the trial that is kept of a machine, if one is, with these variables, which have no attributes.
/// Nothing is changed. Whoever may not read the state folder is told of none; standard error is told of a trial that can't be
/// read otherwise, or of which it isn't known what came of it.
///
/// # Errors
///
/// [`Failure::Memory`] if memory was refused.
pub fn trial_view<R: Files + Eprint + AllocGlobal>(
    rt: &R,
    machine: &MachineWords<'_>,
    vars: &Vars,
) -> Result<Option<TrialView>, Failure> {
    match view_of_stored(rt, machine, vars) {
        Ok(view) => Ok(view),
        Err(Failure::Memory) => Err(Failure::Memory),
        Err(Failure::Read { error, .. }) if error.kind() == ErrorKind::PermissionDenied => Ok(None),
        Err(failure) => {
            note(
                rt,
                machine.state,
                format_args!("it isn't known what came of the start on trial: {failure}"),
            );
            Ok(None)
        }
    }
}

/// The same, with why it can't be told.
fn view_of_stored<R: Files + AllocGlobal>(
    rt: &R,
    machine: &MachineWords<'_>,
    vars: &Vars,
) -> Result<Option<TrialView>, Failure> {
    match stored_trial(rt, machine.state)? {
        Some(trial) => Ok(Some(view_of(rt, machine, &trial, vars)?)),
        None => Ok(None),
    }
}

/// What there is to tell of this trial.
fn view_of<R: Files + AllocGlobal>(
    rt: &R,
    machine: &MachineWords<'_>,
    trial: &Trial,
    vars: &Vars,
) -> Result<TrialView, Failure> {
    let start = boot_id(rt, machine, true)?;
    let current = boot_current(vars);
    let facts = Facts {
        start: &start,
        current,
        vars,
    };
    let outcome = outcome_of(rt.alloc(), trial, &facts)?;
    Ok(TrialView {
        standing: standing_before(outcome),
        entry: Some(trial.entry()),
        current,
    })
}

/// What there is to tell of a trial of which this came, before what follows is made.
fn standing_before(outcome: Outcome) -> TrialStanding {
    match outcome {
        Outcome::CameUp => TrialStanding::CameUp,
        outcome => standing_of(outcome),
    }
}
