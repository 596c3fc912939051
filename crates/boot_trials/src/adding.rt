//! Runs that begin a trial of an entry that is there, or of one that they add.

ghost use Rattle.std.specs.Prelude.{◌≡◌, Some, None, IfOk, IfErr};
ghost use Rattle.boot_edits.specs.Run.{IsRun};
ghost use Rattle.boot_edits.specs.declared.edit.Edit.TheVariants.{Add};
ghost use Rattle.boot_journal.specs.Cause.{IfRefused};
ghost use Rattle.boot_trials.specs.Adding.{IsAddedTry, IsAddedTryFault, IsOfEntry};

use crate::beginning::TryRun;
use crate::trial::Trial;
use boot_edits::{Addition, Edit, EditAnswer, EditRun, EditRunFault};
use boot_journal::{BootId, CallError, Run};
use std::alloc::Global;
use uefi_vars::Vars;

/// What is tried.
#[derive(Clone, Copy, Debug)]
pub enum TrialTarget<'a> {
    /// The entry of this number.
    There(u16),
    /// An entry that is added. If it is there already and isn't added again, that one is tried.
    Added(Addition<'a>),
}

/// The beginning of a trial, run over what a machine keeps, and before that the addition of its entry, if it is to be added.
#[derive(Clone, Copy, Debug)]
pub struct BeginRun<'a> {
    /// What is tried.
    pub target: TrialTarget<'a>,
    /// The identity of the machine's start.
    pub start: &'a BootId,
}

/// A trial that begins.
#[derive(Debug, Drop)]
pub struct BegunTrial {
    /// What came of the addition of its entry, if it was to be added.
    pub added: Option<EditAnswer>,
    /// The trial.
    pub trial: Trial,
}

impl Run for BeginRun<'_> {
    ghost use Rattle.boot_trials.specs.Adding.{IsBegun, IsBeginFault};

    type Answer = BegunTrial;

    type Fault = EditRunFault;

    ghost leads = { λ run from to begun. IsBegun run.target run.start.now from to begun };

    ghost refuses = { λ run from fault. IsBeginFault run.target from fault };

    /// Adds the entry, if it is to be added, and makes BootNext name it. The variables have their attributes, and keep them.
    fn run(
        self,
        alloc: Global,
        vars: &Vars,
    ) -> Result<(Vars, BegunTrial), CallError<EditRunFault>> {
        match self.target {
            TrialTarget::There(entry) => {
                let run = TryRun {
                    entry,
                    start: self.start,
                };
                match run.run(alloc, vars) {
                    Ok((to, trial)) => Ok((to, BegunTrial { added: None, trial })),
                    Err(error) => Err(error),
                }
            }
            TrialTarget::Added(addition) => add_and_try(alloc, &addition, self.start, vars),
        }
    }
}

/// Adds the entry, and begins its trial.
fn add_and_try(
    alloc: Global,
    addition: &Addition<'_>,
    start: &BootId,
    vars: &Vars,
) -> Result<(Vars, BegunTrial), CallError<EditRunFault>>
    ensures done { IfOk result (λ done. IsAddedTry addition.now start.now vars.now done.0 done.1) }
    ensures refused { IfErr result (λ error. IfRefused error (IsAddedTryFault addition.now vars.now)) }
{
    let run = EditRun {
        edit: Edit::Add(*addition),
    };
    match run.run(alloc, vars) {
        Ok((between, added)) => try_added(alloc, addition, start, vars, &between, added),
        Err(error) => Err(error),
    }
}

/// Begins the trial of the entry that was added to these variables, which led to those between, with this answer.
fn try_added(
    alloc: Global,
    addition: &Addition<'_>,
    start: &BootId,
    vars: &Vars,
    between: &Vars,
    added: EditAnswer,
) -> Result<(Vars, BegunTrial), CallError<EditRunFault>>
    requires { IsRun (Add addition.now) vars.now between.now added }
    ensures done { IfOk result (λ done. IsAddedTry addition.now start.now vars.now done.0 done.1) }
    ensures refused { IfErr result (λ error. IfRefused error (IsAddedTryFault addition.now vars.now)) }
{
    match added {
        EditAnswer::Added(entry) => {
            try_entry(alloc, addition, start, vars, between, added, entry)
        }
        EditAnswer::Present(entry) => {
            try_entry(alloc, addition, start, vars, between, added, entry)
        }
        EditAnswer::Done => unreachable!(),
    }
}

/// The same, if this is the entry.
fn try_entry(
    alloc: Global,
    addition: &Addition<'_>,
    start: &BootId,
    vars: &Vars,
    between: &Vars,
    added: EditAnswer,
    entry: u16,
) -> Result<(Vars, BegunTrial), CallError<EditRunFault>>
    requires run { IsRun (Add addition.now) vars.now between.now added }
    requires names { IsOfEntry added entry }
    ensures done { IfOk result (λ done. IsAddedTry addition.now start.now vars.now done.0 done.1) }
    ensures refused { IfErr result (λ error. IfRefused error (IsAddedTryFault addition.now vars.now)) }
{
    let run = TryRun { entry, start };
    match run.run(alloc, between) {
        Ok((to, trial)) => {
            let added = Some(added);
            Ok((to, BegunTrial { added, trial }))
        }
        Err(error) => Err(error),
    }
}
