//! Runs that begin trials.

ghost use Rattle.std.specs.Prelude.{◌≡◌, IfOk, IfErr};
ghost use Rattle.std.specs.FinMap.{get};
ghost use Rattle.std.specs.Option.{option_map};
ghost use Rattle.uefi_vars.specs.Name.{order_text};
ghost use Rattle.boot_journal.specs.Attributes.{data_of};
ghost use Rattle.boot_journal.specs.Cause.{IfRefused};
ghost use Rattle.boot_trials.specs.Run.{IsKept, IsNext, IsNewTrial, IsNoTrial, IsNextRefusal, IsTry, IsTryFault};

use crate::stage::Stage;
use crate::trial::Trial;
use boot_edits::{Edit, EditFault, EditRun, EditRunFault};
use boot_journal::{BootId, CallError, Run, without_attributes_or};
use sha2::{Digest, Sha256};
use std::alloc::{AllocError, Global};
use uefi_option::check_option;
use uefi_vars::{BOOT_ORDER, Vars, laws as vars_laws};

/// The beginning of a trial, run over what a machine keeps: the next start tries the entry once, before the others. It gives
/// the trial.
#[derive(Clone, Copy, Debug)]
pub struct TryRun<'a> {
    /// The number of the entry.
    pub entry: u16,
    /// The identity of the machine's start.
    pub start: &'a BootId,
}

impl Run for TryRun<'_> {
    type Answer = Trial;

    type Fault = EditRunFault;

    ghost leads = { λ run from to trial. IsTry run.entry run.start.now from to trial };

    ghost refuses = { λ run from fault. IsTryFault run.entry from fault };

    /// Makes BootNext name the entry, which has to be a load option. The variables have their attributes, and keep them.
    fn run(self, alloc: Global, vars: &Vars) -> Result<(Vars, Trial), CallError<EditRunFault>> {
        match without_attributes_or(alloc, vars, EditRunFault::NoData) {
            Ok(set) => begin(alloc, &self, vars, &set),
            Err(error) => Err(error),
        }
    }
}

/// Begins the trial over these variables, whose data is the set.
fn begin(
    alloc: Global,
    run: &TryRun<'_>,
    vars: &Vars,
    set: &Vars,
) -> Result<(Vars, Trial), CallError<EditRunFault>>
    requires { set.now ≡ data_of vars.now }
    ensures done { IfOk result (λ done. IsTry run.now.entry run.now.start.now vars.now done.0 done.1) }
    ensures refused { IfErr result (λ error. IfRefused error (IsTryFault run.now.entry vars.now)) }
{
    match new_trial(alloc, set, run) {
        Ok(trial) => begun(alloc, run, vars, trial),
        Err(error) => Err(error),
    }
}

/// Makes BootNext name the entry of the trial that begins.
fn begun(
    alloc: Global,
    run: &TryRun<'_>,
    vars: &Vars,
    trial: Trial,
) -> Result<(Vars, Trial), CallError<EditRunFault>>
    requires { IsNewTrial (data_of vars.now) run.now.entry run.now.start.now trial }
    ensures done { IfOk result (λ done. IsTry run.now.entry run.now.start.now vars.now done.0 done.1) }
    ensures refused { IfErr result (λ error. IfRefused error (IsTryFault run.now.entry vars.now)) }
{
    match with_next(alloc, vars, run.entry) {
        Ok(to) => Ok((to, trial)),
        Err(error) => Err(error),
    }
}

/// The trial that begins.
fn new_trial(alloc: Global, vars: &Vars, run: &TryRun<'_>) -> Result<Trial, CallError<EditRunFault>>
    ensures done { IfOk result (IsNewTrial vars.now run.now.entry run.now.start.now) }
    ensures refused { IfErr result (λ error. IfRefused error (IsNoTrial vars.now run.now.entry)) }
{
    let Some(bytes) = vars.entry(run.entry) else {
        return Err(CallError::Refused(EditRunFault::Edit(EditFault::Missing(run.entry))));
    };
    if check_option(bytes).is_err() {
        return Err(CallError::Refused(EditRunFault::Edit(EditFault::NoOption(run.entry))));
    }
    Ok(Trial {
        entry: run.entry,
        digest: Sha256::digest(bytes),
        start: same_start(alloc, run.start)?,
        order: order_data(alloc, vars)?,
        stage: Stage::Open,
    })
}

/// The same identity.
fn same_start(alloc: Global, start: &BootId) -> Result<BootId, AllocError>
    ensures { IfOk result (λ same. same ≡ start.now) }
{
    BootId::new(String::from_str(alloc, start.as_str())?).ok_or(AllocError)
}

/// The data of BootOrder, if it is there.
fn order_data(alloc: Global, vars: &Vars) -> Result<Option<Vec<u8>>, AllocError>
    ensures { IfOk result (λ found. option_map (λ bytes. bytes.items) found ≡ get vars.now order_text) }
{
    vars_laws::constants_are_those_of_the_definitions();
    match vars.get(BOOT_ORDER) {
        Some(data) => Ok(Some(Vec::from_slice(alloc, data)?)),
        None => Ok(None),
    }
}

/// Makes BootNext name the entry of this number.
fn with_next(alloc: Global, vars: &Vars, entry: u16) -> Result<Vars, CallError<EditRunFault>>
    ensures done { IfOk result (IsKept (IsNext entry) vars.now) }
    ensures refused { IfErr result (λ error. IfRefused error (IsNextRefusal entry vars.now)) }
{
    let run = EditRun {
        edit: Edit::Next(Some(entry)),
    };
    match run.run(alloc, vars) {
        Ok((to, _done)) => Ok(to),
        Err(error) => Err(error),
    }
}
