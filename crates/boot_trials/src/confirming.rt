//! Runs that make what follows from a trial.

ghost use Rattle.std.specs.Prelude.{◌≡◌, IfOk, IfErr};
ghost use Rattle.boot_edits.specs.declared.run.EditRunFault.TheVariants as fault;
ghost use Rattle.boot_journal.specs.Attributes.{data_of, HasNoData};
ghost use Rattle.boot_journal.specs.Cause.{IfRefused};
ghost use Rattle.boot_trials.specs.Outcome.{IsOutcome, current_of};
ghost use Rattle.boot_trials.specs.Run.{IsConfirming, IsConfirmingFault};

use crate::confirmation::confirmed;
use crate::current::boot_current;
use crate::outcome::{Facts, Outcome, outcome_of};
use crate::trial::Trial;
use boot_edits::EditRunFault;
use boot_journal::{BootId, CallError, Run, without_attributes_or};
use std::alloc::{AllocError, Global};
use uefi_vars::Vars;

/// What follows from a trial, run over what a machine keeps. It gives what came of the trial.
#[derive(Clone, Copy, Debug)]
pub struct ConfirmRun<'a> {
    /// The trial.
    pub trial: &'a Trial,
    /// The identity of the machine's start.
    pub start: &'a BootId,
}

impl Run for ConfirmRun<'_> {
    type Answer = Outcome;

    type Fault = EditRunFault;

    ghost leads = { λ run from to came. IsConfirming run.trial.now run.start.now from to came };

    ghost refuses = { λ run from fault. IsConfirmingFault run.trial.now run.start.now from fault };

    /// If the machine came up by the entry, and its data is what it was, puts it first in BootOrder and makes it active. The
    /// variables have their attributes, and keep them. In every other case nothing is changed.
    fn run(self, alloc: Global, vars: &Vars) -> Result<(Vars, Outcome), CallError<EditRunFault>> {
        match came_of(alloc, &self, vars) {
            Ok(came) => follow(alloc, &self, vars, came),
            Err(error) => Err(error),
        }
    }
}

/// What follows from the trial, of which this came.
fn follow(
    alloc: Global,
    run: &ConfirmRun<'_>,
    vars: &Vars,
    came: Outcome,
) -> Result<(Vars, Outcome), CallError<EditRunFault>>
    requires { IsOutcome run.now.trial.now run.now.start.now (current_of (data_of vars.now)) (data_of vars.now) came }
    ensures done { IfOk result (λ done. IsConfirming run.now.trial.now run.now.start.now vars.now done.0 done.1) }
    ensures refused { IfErr result (λ error. IfRefused error (IsConfirmingFault run.now.trial.now run.now.start.now vars.now)) }
{
    match came {
        Outcome::CameUp => confirm(alloc, run, vars),
        Outcome::TooEarly => Ok((vars.copy(alloc)?, Outcome::TooEarly)),
        Outcome::Changed => Ok((vars.copy(alloc)?, Outcome::Changed)),
        Outcome::Failed { by } => Ok((vars.copy(alloc)?, Outcome::Failed { by })),
        Outcome::Interrupted => Ok((vars.copy(alloc)?, Outcome::Interrupted)),
        Outcome::Done => Ok((vars.copy(alloc)?, Outcome::Done)),
    }
}

/// Confirms the entry, by which the machine came up.
fn confirm(
    alloc: Global,
    run: &ConfirmRun<'_>,
    vars: &Vars,
) -> Result<(Vars, Outcome), CallError<EditRunFault>>
    requires { IsOutcome run.now.trial.now run.now.start.now (current_of (data_of vars.now)) (data_of vars.now) Outcome.CameUp }
    ensures done { IfOk result (λ done. IsConfirming run.now.trial.now run.now.start.now vars.now done.0 done.1) }
    ensures refused { IfErr result (λ error. IfRefused error (IsConfirmingFault run.now.trial.now run.now.start.now vars.now)) }
{
    match confirmed(alloc, vars, run.trial.entry()) {
        Ok(to) => Ok((to, Outcome::CameUp)),
        Err(error) => Err(error),
    }
}

/// What came of the trial, by what the machine keeps.
fn came_of(
    alloc: Global,
    run: &ConfirmRun<'_>,
    vars: &Vars,
) -> Result<Outcome, CallError<EditRunFault>>
    ensures done { IfOk result (IsOutcome run.now.trial.now run.now.start.now (current_of (data_of vars.now)) (data_of vars.now)) }
    ensures refused { IfErr result (λ error. IfRefused error (λ f. (f ≡ fault.NoData) × HasNoData vars.now)) }
{
    let set = without_attributes_or(alloc, vars, EditRunFault::NoData)?;
    Ok(outcome_in(alloc, run, &set)?)
}

/// What came of the trial, by these variables without attributes.
fn outcome_in(alloc: Global, run: &ConfirmRun<'_>, set: &Vars) -> Result<Outcome, AllocError>
    ensures { IfOk result (IsOutcome run.now.trial.now run.now.start.now (current_of set.now) set.now) }
{
    let facts = Facts {
        start: run.start,
        current: boot_current(set),
        vars: set,
    };
    outcome_of(alloc, run.trial, &facts)
}
