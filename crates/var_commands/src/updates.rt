//! The command `update`.

use crate::refusals::print_refusal;
use crate::trials::{KeptTrial, Trials};
use boot_history::family_state;
use boot_journal::BootId;
use boot_requests::InputFormat;
use boot_updates::{
    Answered, Ended, NotMade, Printing, ReplyForm, Script, WantedRequests, ending, read_events,
};
use bootvars_actions::{Form, Job};
use machine_storage::{boot_id, settle_machine};
use messages::{Failure, Quoted, WrongWord};
use request_preconditions::{Precondition, PreconditionFault, read_precondition};
use std::alloc::Global;
use std::fs;
use std::rt::{Clock, Files};
use uefi_vars::EntryFamily;
use var_places::is_folder;
use wanted_changes::{ChangeOptions, MachineWords, Machines, PlaceKind, StateUse, ToldAnswer};
use whole_files::OutputFile;

/// The words of an update.
#[derive(Clone, Copy, Debug)]
pub(crate) struct UpdateWords<'a> {
    /// The machine.
    pub(crate) machine: MachineWords<'a>,
    /// What is expected of it.
    pub(crate) expected: &'a [&'a str],
    /// What is to be done.
    pub(crate) job: Job<'a>,
    /// The words of the command, by which a change is told later.
    pub(crate) command: &'a [String],
}

/// Makes or takes back what earlier updates of a place have left to do, and then does its job: runs a script over the
/// place's variables and makes what it leads to, prints the replies, and tells on standard error which entries it left in no
/// order; or prints the next number; or a look at the place. Whatever is cut off when, the next update goes on with what is
/// left. Before a change of Boot####, BootOrder or BootNext the folder of the journal keeps what was there, as of any other
/// change of the place. The folder is locked meanwhile. If JSON is to be printed and nothing is done, why is printed as JSON
/// too.
///
/// # Errors
///
/// [`Failure::Busy`] if another update has the lock; [`Failure::Run`] if the script or the variables are refused, or a
/// request would change a variable that no set can hold; [`Failure::Refused`] if the place or the journal is, as another
/// machine's, or a file is too long; [`Failure::Read`] with the system's reason, and [`Failure::Write`] if what is there can't
/// be kept; [`Failure::Words`] if the identity of the start is needed and isn't given, or it or the machine's name isn't one.
/// Nothing was changed then, beyond what was left of earlier updates, and that the journal names this machine.
/// [`Failure::TakenBack`] if a change was refused, and the update hasn't happened; [`Failure::Unsettled`] if it couldn't be
/// taken back either; [`Failure::Write`] also if the replies can't be printed, and the update has happened;
/// [`Failure::Memory`] if memory was refused.
pub(crate) fn update<
    R: Files<File: OutputFile> + Clock + Input + Print + Eprint + AllocGlobal,
    T: Trials<R> + Machines,
>(rt: &R, others: &T, words: &UpdateWords<'_>) -> Result<Ended, Failure> {
    match do_job(rt, others, words) {
        Ok(Some(answered)) => Ok(ending(&answered.give(rt)?)),
        Ok(None) => Ok(Ended::AllDone),
        Err(not_made) => {
            if is_told_as_json(&words.job) {
                print_refusal(rt, &words.machine, &not_made);
            }
            Err(not_made.failure)
        }
    }
}

/// Whether what comes of the job is printed as JSON.
fn is_told_as_json(job: &Job<'_>) -> bool {
    match job {
        Job::Run { form, look, .. } => *look || matches!(form, Form::Json),
        Job::Look => true,
        Job::Next | Job::Settle => false,
    }
}

/// How the replies are printed that are to be shown so, perhaps with what there is afterwards.
fn reply_form(form: Form, look: bool) -> ReplyForm {
    match form {
        _ if look => ReplyForm::Look,
        Form::Json => ReplyForm::Json,
        Form::Text => ReplyForm::Lines,
    }
}

/// Does the job, as of [`update`], and tells nothing: that is given, unless it is only to do what is left of earlier updates.
fn do_job<
    R: Files<File: OutputFile> + Clock + Input + Print + Eprint + AllocGlobal,
    T: Trials<R> + Machines,
>(rt: &R, others: &T, words: &UpdateWords<'_>) -> Result<Option<ToldAnswer<Answered>>, NotMade> {
    match words.job {
        Job::Run {
            script,
            is_stream,
            form,
            look,
            dry_run,
        } => {
            let form = reply_form(form, look);
            let format = if is_stream {
                InputFormat::Stream
            } else {
                InputFormat::Script
            };
            let script = read_events(rt, script, format)?;
            let printing = if dry_run {
                Printing::Plan(form)
            } else {
                Printing::Replies(form)
            };
            Ok(Some(run_script(rt, others, words, &script, printing)?))
        }
        Job::Next => {
            let script = Script::empty(rt.alloc());
            Ok(Some(run_script(rt, others, words, &script, Printing::Next)?))
        }
        Job::Look => {
            let script = Script::empty(rt.alloc());
            let printing = Printing::Replies(ReplyForm::Look);
            Ok(Some(run_script(rt, others, words, &script, printing)?))
        }
        Job::Settle => {
            settle_all(rt, &words.machine)?;
            Ok(None)
        }
    }
}

/// Does what earlier changes have left to do: of the boot manager's entries, and in a folder of those of other families too.
/// A family is settled also if another one can't be. The first failure is given, and others are told on standard error.
fn settle_all<R: Files<File: OutputFile> + Clock + Input + Print + Eprint + AllocGlobal>(
    rt: &R,
    machine: &MachineWords<'_>,
) -> Result<(), Failure> {
    let boot = settle_machine(rt, machine);
    if !matches!(is_folder(rt, machine.place), Ok(true)) {
        return boot;
    }
    let boot_or_driver = first_failure(rt, boot, settle_family(rt, machine, EntryFamily::Driver));
    let prepared = settle_family(rt, machine, EntryFamily::SysPrep);
    first_failure(rt, boot_or_driver, prepared)
}

/// The first of two failures, if there is one. If both are there, the second is told on standard error.
fn first_failure<R: Eprint>(
    rt: &R,
    first: Result<(), Failure>,
    second: Result<(), Failure>,
) -> Result<(), Failure> {
    match (first, second) {
        (Ok(()), second) => second,
        (Err(failure), Ok(())) => Err(failure),
        (Err(failure), Err(other)) => {
            // If standard error takes nothing, there is no place left to say so.
            let _ = eprintln!(rt; "bootvars: {other}");
            Err(failure)
        }
    }
}

/// The same of a family that has a journal of its own.
fn settle_family<R: Files<File: OutputFile> + Clock + Input + Print + Eprint + AllocGlobal>(
    rt: &R,
    machine: &MachineWords<'_>,
    family: EntryFamily,
) -> Result<(), Failure> {
    let state = family_state(rt.alloc(), machine.state, family)?;
    if fs::metadata(rt, state.as_str()).is_err() {
        return Ok(());
    }
    let machine = MachineWords {
        state: state.as_str(),
        family,
        ..*machine
    };
    settle_machine(rt, &machine)
}

/// Runs the script over the place, or looks what it would do.
fn run_script<
    R: Files<File: OutputFile> + Clock + Input + Print + Eprint + AllocGlobal,
    T: Trials<R> + Machines,
>(
    rt: &R,
    others: &T,
    words: &UpdateWords<'_>,
    script: &Script<'_>,
    printing: Printing,
) -> Result<ToldAnswer<Answered>, NotMade> {
    let place = words.machine.place;
    let options = ChangeOptions {
        machine: words.machine,
        command: Some(words.command),
        dry_run: matches!(printing, Printing::Plan(_)),
        state: StateUse::Needed,
    };
    let kind = if is_folder(rt, place)? {
        PlaceKind::Folder
    } else {
        PlaceKind::VariableFile
    };
    let preconditions = preconditions_of(rt.alloc(), words.expected)?;
    let start = match printing {
        Printing::Replies(ReplyForm::Look) => told_start(rt, &words.machine, kind)?,
        _ => None,
    };
    let trials = KeptTrial {
        rt,
        trials: others,
        machine: match kind {
            PlaceKind::Folder => Some(words.machine),
            PlaceKind::VariableFile | PlaceKind::Set => None,
        },
    };
    let wanted = WantedRequests {
        place,
        script,
        preconditions: &preconditions,
        printing,
        start: start.as_ref().map(BootId::as_str),
        trials: &trials,
    };
    others.change(rt, &options, kind, &wanted)
}

/// The identity of the machine's start that a look tells: none if it isn't given and the system doesn't tell it.
///
/// # Errors
///
/// [`Failure::Words`] if one is given and isn't one, and [`Failure::Memory`] if memory was refused.
fn told_start<R: Files + AllocGlobal>(
    rt: &R,
    machine: &MachineWords<'_>,
    kind: PlaceKind,
) -> Result<Option<BootId>, Failure> {
    match boot_id(rt, machine, matches!(kind, PlaceKind::Folder)) {
        Ok(start) => Ok(Some(start)),
        Err(Failure::Memory) => Err(Failure::Memory),
        Err(failure) if machine.boot_id.is_some() => Err(failure),
        Err(_) => Ok(None),
    }
}

/// What these words expect.
///
/// # Errors
///
/// [`Failure::Words`] if one of them is no precondition, and [`Failure::Memory`] if memory was refused.
fn preconditions_of(alloc: Global, words: &[&str]) -> Result<Vec<Precondition>, Failure> {
    let mut preconditions = Vec::with_capacity(alloc, words.len())?;
    for word in words {
        match read_precondition(alloc, word) {
            Ok(precondition) => preconditions.push(precondition)?,
            Err(PreconditionFault::OutOfMemory) => return Err(Failure::Memory),
            Err(fault) => {
                let word = Quoted(word);
                return Err(Failure::from_word(alloc, WrongWord { word, fault }));
            }
        }
    }
    Ok(preconditions)
}
