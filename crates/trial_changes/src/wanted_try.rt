//! Trials that are to begin.

ghost use Rattle.std.specs.Prelude.{◌≡◌, ◌≢◌};
ghost use Rattle.boot_journal.specs.Cause.{IfRefused};
ghost use Rattle.messages.specs.declared.failure.Failure.{Failure};
ghost use Rattle.trial_changes.specs.declared.wanted_try.TryFault.{TryFault};

use crate::telling::{TrialForm, trial_text};
use crate::trial_file::{forget_trial, store_trial, stored_trial};
use boot_edits::{Edit, EditAnswer, EditRunFault};
use boot_journal::{BootId, CallError, Run};
use boot_texts::{TrialStanding, TrialView};
use boot_trials::{BeginRun, BegunTrial, TrialTarget};
use messages::{Failure, note};
use place_edits::{EditForm, WantedEdit, from_edit_run};
use std::alloc::Global;
use std::rt::Files;
use uefi_vars::{EntryName, Vars};
use wanted_changes::{Led, MachineWords, Remarks, Seen, SetChange, Told, Wanted, sets_of};
use whole_files::OutputFile;

/// A trial that is to begin of a machine's entry. It is kept in the state folder before a variable is changed.
#[derive(Drop)]
pub struct WantedTry<'a, 'w, R> {
    /// What reaches the files.
    pub rt: &'a R,
    /// The machine.
    pub machine: MachineWords<'w>,
    /// What is tried.
    pub target: TrialTarget<'w>,
    /// The identity of the machine's start.
    pub start: &'a BootId,
    /// How it is told.
    pub form: TrialForm,
}

/// Why no trial begins.
#[derive(Debug, Drop)]
pub enum TryFault {
    /// One of the entry of this number is kept already, which may have failed.
    Kept(u16),
    /// What is there refuses it.
    Run(EditRunFault),
    /// It can't be told whether one is kept. The failure is never [`Failure::Memory`].
    Failure(Failure),
}

/// What it is to a run that something failed.
fn call_error(failure: Failure) -> CallError<TryFault>
    ensures { IfRefused result (λ fault. (fault ≡ TryFault.Failure failure) × (failure ≢ Failure.Memory)) }
{
    match failure {
        Failure::Memory => CallError::OutOfMemory,
        failure => CallError::Refused(TryFault::Failure(failure)),
    }
}

impl<R> WantedTry<'_, '_, R> {
    /// The edit by which the trial begins, or which comes before it.
    fn edit(&self) -> WantedEdit<'_> {
        self.edit_of(match self.target {
            TrialTarget::There(entry) => Edit::Next(Some(entry)),
            TrialTarget::Added(addition) => Edit::Add(addition),
        })
    }

    /// What standard error is told of the edits that begin the trial.
    fn remarks(
        &self,
        alloc: Global,
        seen: &Seen<'_>,
        change: SetChange<'_>,
        begun: &BegunTrial,
    ) -> Result<Remarks, Failure> {
        let entry = begun.trial.entry();
        let (edit, answer) = match begun.added {
            Some(EditAnswer::Added(number)) => (self.edit(), EditAnswer::Added(number)),
            _ => (self.edit_of(Edit::Next(Some(entry))), EditAnswer::Done),
        };
        let Told {
            text: _,
            mut remarks,
        } = edit.tell(alloc, seen, change, &answer)?;
        if let Some(EditAnswer::Present(_)) = begun.added {
            let name = EntryName(entry);
            let text = format!(in alloc;
                "{name} has this description and these paths already, and is tried as it is: --again adds another one"
            )?;
            remarks.push(self.machine.place, text)?;
        }
        Ok(remarks)
    }

    /// This edit, wanted of the machine.
    fn edit_of<'b>(&'b self, edit: Edit<'b>) -> WantedEdit<'b> {
        WantedEdit {
            place: self.machine.place,
            edit,
            form: EditForm::Lines,
        }
    }
}

impl<R: Files<File: OutputFile> + Eprint + AllocGlobal> Wanted for WantedTry<'_, '_, R> {
    ghost use Rattle.boot_trials.specs.Adding.{IsBegun};
    ghost use Rattle.trial_changes.specs.Faults.{IsTryRefusal};

    type Answer = BegunTrial;

    type Fault = TryFault;

    type Refusal = Failure;

    ghost leads = { λ wanted seen from to begun. IsBegun wanted.target wanted.start.now from to begun };

    ghost refuses = { λ wanted seen from fault. IsTryRefusal wanted.target from fault };

    /// Refuses a change of an entry, of BootOrder or of BootNext that no set can hold.
    fn check(&self, alloc: Global, left_out: &[String]) -> Result<(), Failure> {
        self.edit().check(alloc, left_out)?;
        self.edit_of(Edit::Next(None)).check(alloc, left_out)
    }

    fn replaced(&self) -> Option<&Vars> {
        None
    }

    fn has_requests(&self) -> bool {
        false
    }

    fn run(
        &self,
        alloc: Global,
        _seen: &Seen<'_>,
        vars: &Vars,
    ) -> Result<Led<BegunTrial>, CallError<TryFault>> {
        match stored_trial(self.rt, self.machine.state) {
            Ok(None) => {}
            Ok(Some(trial)) => return Err(CallError::Refused(TryFault::Kept(trial.entry()))),
            Err(failure) => return Err(call_error(failure)),
        }
        let run = BeginRun {
            target: self.target,
            start: self.start,
        };
        match run.run(alloc, vars) {
            Ok((kept, begun)) => match sets_of(alloc, self.machine.place, vars, &kept) {
                Ok(sets) => Ok(Led {
                    sets,
                    kept,
                    answer: begun,
                }),
                Err(failure) => Err(call_error(failure)),
            },
            Err(CallError::OutOfMemory) => Err(CallError::OutOfMemory),
            Err(CallError::Refused(fault)) => Err(CallError::Refused(TryFault::Run(fault))),
        }
    }

    fn tell(
        &self,
        alloc: Global,
        seen: &Seen<'_>,
        change: SetChange<'_>,
        begun: &BegunTrial,
    ) -> Result<Told, Failure> {
        let remarks = self.remarks(alloc, seen, change, begun)?;
        let trial = TrialView {
            standing: TrialStanding::Begun,
            entry: Some(begun.trial.entry()),
            current: None,
        };
        Ok(Told {
            text: trial_text(alloc, self.form, trial, change)?,
            remarks,
        })
    }

    fn refusal(&self, alloc: Global, fault: TryFault) -> Failure {
        let place = self.machine.place;
        match fault {
            TryFault::Run(fault) => from_edit_run(alloc, place, fault),
            TryFault::Failure(failure) => failure,
            TryFault::Kept(entry) => {
                let name = EntryName(entry);
                match format!(in alloc;
                    "a trial of {name} isn't ended: `bootvars confirm` tells what came of it, and `bootvars try --forget` ends it"
                ) {
                    Ok(words) => Failure::from_run(alloc, place, words.as_str()),
                    Err(_) => Failure::Memory,
                }
            }
        }
    }

    /// Keeps the trial. If that can't be, none is kept.
    fn begin(&self, begun: &BegunTrial) -> Result<(), Failure> {
        let stored = store_trial(self.rt, self.machine.state, &begun.trial);
        if stored.is_err() {
            self.take_back();
        }
        stored
    }

    /// Ends the trial, which hasn't begun.
    fn take_back(&self) {
        let state = self.machine.state;
        if let Err(failure) = forget_trial(self.rt, state) {
            note(
                self.rt,
                state,
                format_args!(
                    "the trial hasn't begun, but is kept: `bootvars try --forget` ends it: {failure}"
                ),
            );
        }
    }

    fn end(&self, _begun: &BegunTrial) {}
}
