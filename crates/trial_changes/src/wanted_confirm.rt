//! What is to follow from trials.

ghost use Rattle.std.specs.Prelude.{◌≡◌, ◌≢◌, IfOk, IfErr};
ghost use Rattle.boot_journal.specs.Cause.{IfRefused};
ghost use Rattle.messages.specs.declared.failure.Failure.{Failure};
ghost use Rattle.trial_changes.specs.declared.wanted_confirm.ConfirmFault.{ConfirmFault};
ghost use Rattle.trial_changes.specs.Faults.{IsConfirmRefusal};
ghost use Rattle.trial_changes.specs.Following.{IsFollowing};

use crate::telling::{TrialForm, no_trial, standing_of, trial_text};
use crate::trial_file::{forget_trial, store_stage, stored_trial};
use boot_edits::{Edit, EditRunFault};
use boot_journal::{BootId, CallError, Run};
use boot_texts::TrialView;
use boot_trials::{ConfirmRun, Outcome, Stage, Trial, boot_current};
use messages::{Failure, note};
use place_edits::{EditForm, WantedEdit, from_edit_run};
use std::alloc::Global;
use std::rt::Files;
use uefi_vars::Vars;
use wanted_changes::{Led, MachineWords, Remarks, Seen, SetChange, Told, Wanted, sets_of};
use whole_files::OutputFile;

/// What is to follow from the trial that is kept in a machine's state folder, if one is. If the entry is confirmed, the trial
/// is kept as one that is being confirmed before BootOrder is changed, and is over after it.
#[derive(Drop)]
pub struct WantedConfirm<'a, 'w, R> {
    /// What reaches the files.
    pub rt: &'a R,
    /// The machine.
    pub machine: MachineWords<'w>,
    /// The identity of the machine's start.
    pub start: &'a BootId,
    /// How it is told.
    pub form: TrialForm,
}

/// What came of a trial.
#[derive(Debug, Drop)]
pub struct Confirmation {
    /// The trial, as it was kept.
    pub trial: Trial,
    /// What came of it.
    pub outcome: Outcome,
}

/// Why nothing follows from a trial.
#[derive(Debug, Drop)]
pub enum ConfirmFault {
    /// What is there refuses it.
    Run(EditRunFault),
    /// It can't be told whether one is kept. The failure is never [`Failure::Memory`].
    Failure(Failure),
}

/// What it is to a run that something failed.
fn call_error(failure: Failure) -> CallError<ConfirmFault>
    ensures { IfRefused result (λ fault. (fault ≡ ConfirmFault.Failure failure) × (failure ≢ Failure.Memory)) }
{
    match failure {
        Failure::Memory => CallError::OutOfMemory,
        failure => CallError::Refused(ConfirmFault::Failure(failure)),
    }
}

impl<R: Files<File: OutputFile> + Eprint + AllocGlobal> WantedConfirm<'_, '_, R> {
    /// What follows from the trial that is kept, if one is, and what came of it.
    fn follow(
        &self,
        alloc: Global,
        vars: &Vars,
    ) -> Result<(Vars, Option<Confirmation>), CallError<ConfirmFault>>
        ensures done { IfOk result (λ done. IsFollowing self.now.start.now vars.now done.0 done.1) }
        ensures refused { IfErr result (λ error. IfRefused error (IsConfirmRefusal self.now.start.now vars.now)) }
    {
        match stored_trial(self.rt, self.machine.state) {
            Ok(None) => Ok((vars.copy(alloc)?, None)),
            Ok(Some(trial)) => follow(alloc, trial, self.start, vars),
            Err(failure) => Err(call_error(failure)),
        }
    }
}

impl<R: Files<File: OutputFile> + Eprint + AllocGlobal> Wanted for WantedConfirm<'_, '_, R> {
    type Answer = Option<Confirmation>;

    type Fault = ConfirmFault;

    type Refusal = Failure;

    ghost leads = { λ wanted seen from to confirmation. IsFollowing wanted.start.now from to confirmation };

    ghost refuses = { λ wanted seen from fault. IsConfirmRefusal wanted.start.now from fault };

    /// Refuses a BootOrder that no set can hold. An entry that none can hold isn't what was tried.
    fn check(&self, alloc: Global, left_out: &[String]) -> Result<(), Failure> {
        let edit = WantedEdit {
            place: self.machine.place,
            edit: Edit::First(&[]),
            form: EditForm::Lines,
        };
        edit.check(alloc, left_out)
    }

    fn replaced(&self) -> Option<&Vars> {
        None
    }

    fn has_requests(&self) -> bool {
        false
    }

    fn run(
        &self,
        alloc: Global,
        _seen: &Seen<'_>,
        vars: &Vars,
    ) -> Result<Led<Option<Confirmation>>, CallError<ConfirmFault>> {
        match self.follow(alloc, vars) {
            Ok((kept, confirmation)) => match sets_of(alloc, self.machine.place, vars, &kept) {
                Ok(sets) => Ok(Led {
                    sets,
                    kept,
                    answer: confirmation,
                }),
                Err(failure) => Err(call_error(failure)),
            },
            Err(error) => Err(error),
        }
    }

    fn tell(
        &self,
        alloc: Global,
        _seen: &Seen<'_>,
        change: SetChange<'_>,
        confirmation: &Option<Confirmation>,
    ) -> Result<Told, Failure> {
        let text = match confirmation {
            None => no_trial(alloc, self.form)?,
            Some(Confirmation { trial, outcome }) => {
                let shown = TrialView {
                    standing: standing_of(*outcome),
                    entry: Some(trial.entry()),
                    current: boot_current(change.from),
                };
                trial_text(alloc, self.form, shown, change)?
            }
        };
        Ok(Told {
            text,
            remarks: Remarks::new(alloc),
        })
    }

    fn refusal(&self, alloc: Global, fault: ConfirmFault) -> Failure {
        match fault {
            ConfirmFault::Run(fault) => from_edit_run(alloc, self.machine.place, fault),
            ConfirmFault::Failure(failure) => failure,
        }
    }

    /// If the entry is confirmed, keeps the trial as one that is being confirmed, so that it changes nothing a second time. If
    /// that can't be, it stays open.
    fn begin(&self, confirmation: &Option<Confirmation>) -> Result<(), Failure> {
        if !matches!(
            confirmation,
            Some(Confirmation {
                outcome: Outcome::CameUp,
                ..
            })
        ) {
            return Ok(());
        }
        let stored = store_stage(self.rt, self.machine.state, Stage::Confirming);
        if stored.is_err() {
            self.take_back();
        }
        stored
    }

    /// Keeps the trial as an open one again. Something was changed and taken back, so the machine came up by the entry.
    fn take_back(&self) {
        let state = self.machine.state;
        if let Err(failure) = store_stage(self.rt, state, Stage::Open) {
            note(
                self.rt,
                state,
                format_args!("the trial isn't open again, and changes nothing any more: {failure}"),
            );
        }
    }

    /// Ends the trial, if its entry is confirmed.
    fn end(&self, confirmation: &Option<Confirmation>) {
        let state = self.machine.state;
        if let Some(
            Confirmation {
                outcome: Outcome::CameUp | Outcome::Done,
                ..
            },
        ) = confirmation
            && let Err(failure) = forget_trial(self.rt, state)
        {
            note(
                self.rt,
                state,
                format_args!("the trial is over, but is kept still: {failure}"),
            );
        }
    }
}

/// What follows from this trial in this start, and what came of it.
fn follow(
    alloc: Global,
    trial: Trial,
    start: &BootId,
    vars: &Vars,
) -> Result<(Vars, Option<Confirmation>), CallError<ConfirmFault>>
    ensures done { IfOk result (λ done. IsFollowing start.now vars.now done.0 done.1) }
    ensures refused { IfErr result (λ error. IfRefused error (IsConfirmRefusal start.now vars.now)) }
{
    let run = ConfirmRun {
        trial: &trial,
        start,
    };
    match run.run(alloc, vars) {
        Ok((to, outcome)) => Ok((to, Some(Confirmation { trial, outcome }))),
        Err(CallError::OutOfMemory) => Err(CallError::OutOfMemory),
        Err(CallError::Refused(fault)) => Err(CallError::Refused(ConfirmFault::Run(fault))),
    }
}
