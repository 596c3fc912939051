//! The commands of starts on trial, and what others tell of one.

use crate::making::entry_of;
use boot_history::DEFAULT_STATE;
use boot_texts::{TellsTrial, TrialView};
use boot_trials::{Outcome, TrialTarget};
use bootvars_actions::{Form, KeptWords, TrialJob, TrialWords};
use messages::Failure;
use std::rt::Files;
use uefi_vars::{EntryFamily, Vars};
use var_places::is_folder;
use wanted_changes::{ChangeOptions, MachineWords, StateUse};

/// The folder in which Linux shows the variables of its own firmware.
const OWN_VARIABLES: &str = "/sys/firmware/efi/efivars";

/// What begins starts on trial, makes what follows from them, and ends them. Each call prints what is told of that, as lines or
/// as JSON.
pub trait Trials<R> {
    /// Begins a trial of this.
    ///
    /// # Errors
    ///
    /// Why it doesn't begin.
    fn begin(
        &self,
        rt: &R,
        options: &ChangeOptions<'_>,
        target: TrialTarget<'_>,
        json: bool,
    ) -> Result<(), Failure>;

    /// Makes what follows from the trial that is kept, and gives what came of it: `None` if there is none.
    ///
    /// # Errors
    ///
    /// Why that isn't made.
    fn confirm(
        &self,
        rt: &R,
        options: &ChangeOptions<'_>,
        json: bool,
    ) -> Result<Option<Outcome>, Failure>;

    /// Ends the trial that is kept, without a change of variables.
    ///
    /// # Errors
    ///
    /// Why it can't be ended.
    fn end(&self, rt: &R, machine: &MachineWords<'_>, json: bool) -> Result<(), Failure>;

    /// What there is to tell of the trial that is kept, if one is, with these variables, which have no attributes.
    ///
    /// # Errors
    ///
    /// [`Failure::Memory`] if memory was refused.
    fn view(
        &self,
        rt: &R,
        machine: &MachineWords<'_>,
        vars: &Vars,
    ) -> Result<Option<TrialView>, Failure>;
}

/// What tells of the trial of a machine, if that is to be told.
#[derive(Drop)]
pub(crate) struct KeptTrial<'a, R, T> {
    /// What reaches the files.
    pub(crate) rt: &'a R,
    /// What knows of trials.
    pub(crate) trials: &'a T,
    /// The machine, or nothing if nothing is to be told.
    pub(crate) machine: Option<MachineWords<'a>>,
}

impl<R, T: Trials<R>> TellsTrial for KeptTrial<'_, R, T> {
    fn told(&self, vars: &Vars) -> Result<Option<TrialView>, Failure> {
        match &self.machine {
            Some(machine) => self.trials.view(self.rt, machine, vars),
            None => Ok(None),
        }
    }
}

/// The machine at this place, whose start on trial is told: one whose state folder is named, or the own one, if the place is a
/// folder.
pub(crate) fn told_machine<'a, R: Files + AllocGlobal>(
    rt: &R,
    place: &'a str,
    kept: KeptWords<'a>,
) -> Option<MachineWords<'a>> {
    let state = match kept.state {
        Some(state) => state,
        None if place == OWN_VARIABLES => DEFAULT_STATE,
        None => return None,
    };
    if !is_folder(rt, place).unwrap_or(false) {
        return None;
    }
    Some(MachineWords {
        state,
        place,
        boot_id: kept.boot_id,
        machine: None,
        adopt: false,
        force: false,
        family: EntryFamily::Boot,
    })
}

/// Begins a trial, makes what follows from it or ends it, as the words ask for. Gives what came of the trial, if that was asked
/// for and there is one.
///
/// # Errors
///
/// [`Failure::Words`] if a word isn't what it is to be, and those of the call.
pub(crate) fn run_trial<R: AllocGlobal, T: Trials<R>>(
    rt: &R,
    trials: &T,
    words: &TrialWords<'_>,
    command: &[String],
) -> Result<Option<Outcome>, Failure> {
    let json = matches!(words.form, Form::Json);
    match words.job {
        TrialJob::Begin(entry) => {
            let target = TrialTarget::There(entry_of(rt.alloc(), entry)?);
            let options = options_of(words, command, StateUse::Made);
            trials.begin(rt, &options, target, json)?;
            Ok(None)
        }
        TrialJob::Confirm => {
            let options = options_of(words, command, StateUse::Needed);
            trials.confirm(rt, &options, json)
        }
        TrialJob::End => {
            trials.end(rt, &words.machine, json)?;
            Ok(None)
        }
    }
}

/// How the change is to be made.
fn options_of<'a>(
    words: &TrialWords<'a>,
    command: &'a [String],
    state: StateUse,
) -> ChangeOptions<'a> {
    ChangeOptions {
        machine: words.machine,
        command: Some(command),
        dry_run: words.dry_run,
        state,
    }
}
