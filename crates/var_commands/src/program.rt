//! A run of the program, over any runtime.

ghost use Rattle.std.specs.Prelude.{◌≡◌, MatchResult};
ghost use Rattle.var_commands.specs.Ending.{ending_status};
ghost use Rattle.messages.specs.Failure.{status_of};

use crate::changing::change_entries;
use crate::making::{entry_of, explain, make_frame, make_option};
use crate::profiles::{Profiles, apply_words};
use crate::trials::{KeptTrial, Trials, run_trial, told_machine};
use crate::undo_list::list_changes;
use crate::undoing::undo_change;
use crate::updates::{UpdateWords, update};
use crate::writing::write_place;
use boot_texts::{changes_text, timeout_json, timeout_report, vars_json, vars_report};
use boot_trials::Outcome;
use boot_updates::Ended;
use bootvars_actions::{Action, Form, KeptWords, action_of, read_words};
use clap::error::ErrorKind;
use messages::{Failure, Reason, SHOWN_MAX, Shortened, print};
use place_checks::{CheckWords, Verdict, check_place};
use place_edits::{Takeable, UndoWords, get_entry};
use std::alloc::{AllocError, Global};
use std::rt::{Clock, Env, Files};
use std::{env, io};
use uefi_vars::{Changes, KEEP_STATE, Vars, boot_changes, is_boot_name, write_set};
use var_places::{
    FileKind, Output, STANDARD, check_output, file_kind, has_keep_state, is_same_file, lock,
    name_of, read, read_place, write,
};
use wanted_changes::Machines;
use whole_files::OutputFile;

/// How the program ends if it did what it was asked to.
#[derive(Clone, Copy, Debug, PartialEq, Eq)]
pub(crate) enum Ending {
    /// It is done.
    Done,
    /// It was asked how two places differ, and they do.
    Differs,
    /// It was asked which entries can be started, and something is wrong with the first.
    Wrong,
    /// It ran requests, and not all of them were applied and carried out; or it left out what firmware refuses.
    NotAll,
    /// It was to run requests, and didn't, since something isn't as it was expected.
    Unmet,
    /// It was to confirm an entry, and the trial failed.
    TrialFailed,
    /// It was to confirm an entry, and the machine wasn't started since the trial began.
    TooEarly,
    /// It was to tell whether it changed something, and it did, or would have.
    Changed,
}

impl Ending {
    /// The status that the program ends with: 1 if two places differ or something is wrong with the first entry, 6 if not
    /// all requests were applied and carried out, 9 if none was run since something isn't as it was expected, 10 if a trial
    /// failed, 11 if the machine wasn't started since it began, 12 if something was changed and that is to be told, otherwise 0.
    fn status(self) -> u8
        ensures { result ≡ ending_status self }
    {
        match self {
            Ending::Done => 0,
            Ending::Differs | Ending::Wrong => 1,
            Ending::NotAll => 6,
            Ending::Unmet => 9,
            Ending::TrialFailed => 10,
            Ending::TooEarly => 11,
            Ending::Changed => 12,
        }
    }
}

/// Does what the words of the command line ask for, and returns the status to end with: 0, or 1 if two places were
/// compared and differ or something is wrong with the first entry that was checked, 6 if requests were run and not all of
/// them were applied and carried out, 9 if none was run since something isn't as it was expected, 10 if a start on trial failed, 11 if
/// the machine wasn't started since the trial began, 12 if a file was applied that changes something, and that is to be told; or, with a message on standard error, 1 if requests aren't run, 2 if the words are
/// wrong, 3 if a file or a variable can't be read or changed, 4 if memory was refused, 5 if an input is refused, 7 if
/// another update is at work, and 8 if an update was neither made nor taken back; or 141, without a message, if nobody
/// reads standard output any more. Words that begin with `efibootmgr` are that program's.
pub fn run<R, O>(rt: &R, others: &O) -> u8
where
    R: Env + Files<File: OutputFile> + Clock + Input + Print + Eprint + AllocGlobal,
    O: OtherProgram<R> + Trials<R> + Profiles<R> + Machines,
{
    match words(rt) {
        Ok(words) => match words.as_slice() {
            [_, called @ ..] if is_efibootmgr(called) => others.run(rt, called),
            words => tell(rt, answer(rt, others, words)),
        },
        Err(failure) => tell(rt, Err(failure)),
    }
}

/// A program with words of its own, which stand after its name on the command line of this one.
pub trait OtherProgram<R> {
    /// Does what the words ask for, of which the first is the program's name, and returns the status to end with.
    fn run(&self, rt: &R, words: &[String]) -> u8;
}

/// The command whose words are those of `efibootmgr`, which no other command has.
const EFIBOOTMGR: &str = "efibootmgr";

/// Whether the words begin with that command.
fn is_efibootmgr(words: &[String]) -> bool {
    words
        .first()
        .is_some_and(|word| word.as_str() == EFIBOOTMGR)
}

/// Ends a run: writes the message of a failure to standard error, if it has one, and returns the status.
fn tell<R: Eprint>(rt: &R, outcome: Result<Ending, Failure>) -> u8
    ensures { MatchResult outcome (λ ending. result ≡ ending_status ending) (λ failure. result ≡ status_of failure) }
{
    match outcome {
        Ok(ending) => ending.status(),
        Err(failure) => {
            let status = failure.status();
            if !matches!(failure, Failure::Closed) {
                // If standard error takes nothing, there is no place left to say so: the status tells it all the same.
                let _ = eprintln!(rt; "bootvars: {failure}");
            }
            status
        }
    }
}

/// Does what the words of the command line ask for, of which the first is the program's name.
fn answer<R, T>(rt: &R, others: &T, words: &[String]) -> Result<Ending, Failure>
where
    R: Files<File: OutputFile> + Clock + Input + Print + Eprint + AllocGlobal,
    T: Trials<R> + Profiles<R> + Machines,
{
    let alloc = rt.alloc();
    match read_words(alloc, words) {
        Ok(matches) => match action_of(&matches) {
            Some(action) => act(rt, others, action, words.get(1..).unwrap_or(&[])),
            None => Err(Failure::from_word(alloc, "no command is named")),
        },
        Err(error) => end_without_action(rt, words, &error),
    }
}

/// Prints what `clap` answers in place of matches, if it is the help or the version; if not, no action was asked for.
fn end_without_action<R: Print + AllocGlobal>(
    rt: &R,
    words: &[String],
    error: &clap::Error,
) -> Result<Ending, Failure> {
    let alloc = rt.alloc();
    if error.kind() == ErrorKind::OutOfMemory {
        return Err(Failure::Memory);
    }
    if error.use_stderr() {
        return Err(wrong_words(alloc, words, error));
    }
    print(rt, format!(in alloc; "{error}")?.as_bytes())?;
    Ok(Ending::Done)
}

/// The words of the command line.
fn words<R: Env + AllocGlobal>(rt: &R) -> Result<Vec<String>, Failure> {
    let given = env::args(rt).map_err(|error| match error.kind() {
        io::ErrorKind::OutOfMemory => Failure::Memory,
        _ => Failure::from_word(rt.alloc(), "a word of the command line isn't UTF-8"),
    })?;
    let mut words = Vec::new(rt.alloc());
    for word in given {
        words.push(word)?;
    }
    Ok(words)
}

/// What it is to the program that `clap` finds words wrong: its message, with the usage.
fn wrong_words(alloc: Global, words: &[String], error: &clap::Error) -> Failure {
    match message_of(alloc, words, error) {
        Ok(message) => Failure::Words(message),
        Err(AllocError) => Failure::Memory,
    }
}

/// The message of `clap`, with the usage, for a line that begins with the program's name.
fn message_of(alloc: Global, words: &[String], error: &clap::Error) -> Result<String, AllocError> {
    let text = format!(in alloc; "{error}")?;
    let message = text.trim_end();
    let message = message.strip_prefix("error: ").unwrap_or(message);
    without_controls(alloc, shortened(alloc, message, words)?.as_str())
}

/// The message, in which each of the words, and of an option with a value its name and its value, is shown as messages show
/// what is wrong.
fn shortened(alloc: Global, message: &str, words: &[String]) -> Result<String, AllocError> {
    let mut message = String::from_str(alloc, message)?;
    for word in words {
        let word = word.as_str();
        let (name, value) = word.split_once('=').unwrap_or((word, ""));
        for part in [word, name, value] {
            if part.len() > SHOWN_MAX && message.contains(part) {
                let front = format!(in alloc; "{}", Shortened(part))?;
                message = message.replace(alloc, part, front.as_str())?;
            }
        }
    }
    Ok(message)
}

/// The lines of a message that repeats words, in which each control character but the line feeds is shown by an escape.
fn without_controls(alloc: Global, message: &str) -> Result<String, AllocError> {
    let mut shown = String::new(alloc);
    for character in message.chars() {
        if character.is_control() && character != '\n' {
            write!(shown, "{}", character.escape_default())?;
        } else {
            shown.push(character)?;
        }
    }
    Ok(shown)
}

/// Does what is asked for by these words.
fn act<R, T>(rt: &R, others: &T, action: Action<'_>, words: &[String]) -> Result<Ending, Failure>
where
    R: Files<File: OutputFile> + Clock + Input + Print + Eprint + AllocGlobal,
    T: Trials<R> + Profiles<R> + Machines,
{
    match action {
        Action::Read {
            place,
            out,
            boot_only,
        } => done(make_set(rt, place, out, boot_only)),
        Action::Show { place, form, kept } => done(show(rt, others, place, form, kept)),
        Action::ShowTimeout { place, form } => done(show_timeout(rt, place, form)),
        Action::Check { words, kept } => {
            let words = CheckWords {
                place: words.place,
                root: words.root,
                json: words.json,
            };
            check(rt, others, &words, kept)
        }
        Action::Diff { from, to, form } => diff(rt, from, to, form),
        Action::Get { place, entry, out } => {
            done(get_entry(rt, place, entry_of(rt.alloc(), entry)?, out))
        }
        Action::Change(change) => done(change_entries(rt, others, &change, words)),
        Action::Apply(apply) => apply_words(rt, others, &apply, words).map(ending_of_change),
        Action::ShowProfile { place } => done(others.show(rt, place)),
        Action::Trial(trial) => run_trial(rt, others, &trial, words).map(ending_of_trial),
        Action::Undo {
            machine,
            dry_run,
            form,
        } => undo_change(
            rt,
            others,
            &UndoWords {
                machine,
                force: machine.force,
                dry_run,
                json: matches!(form, Form::Json),
            },
        )
        .map(ending_of),
        Action::ListChanges { machine, form } => {
            done(list_changes(rt, &machine, matches!(form, Form::Json)))
        }
        Action::Write(set) => write_place(rt, others, &set, words).map(ending_of),
        Action::Update {
            machine,
            expected,
            job,
        } => {
            update_place(
                rt,
                others,
                &UpdateWords {
                    machine,
                    expected,
                    job,
                    command: words,
                },
            )
        }
        Action::LoadOption { option, out } => done(make_option(rt, &option, out)),
        Action::Frame {
            number,
            request,
            raw,
        } => done(make_frame(rt, number, &request, raw)),
        Action::Explain {
            file,
            is_stream,
            form,
        } => done(explain(rt, file, is_stream, form)),
    }
}

/// The ending of what is done if nothing failed.
fn done(outcome: Result<(), Failure>) -> Result<Ending, Failure> {
    outcome.map(|()| Ending::Done)
}

/// How the program ends if something was changed, and that is to be told.
fn ending_of_change(is_told: bool) -> Ending {
    if is_told {
        Ending::Changed
    } else {
        Ending::Done
    }
}

/// How the program ends after a change that leaves this.
fn ending_of(left: Takeable) -> Ending {
    if left.missing.is_empty() {
        Ending::Done
    } else {
        Ending::NotAll
    }
}

/// How the program ends if this came of a trial.
fn ending_of_trial(came: Option<Outcome>) -> Ending {
    match came {
        None | Some(Outcome::CameUp | Outcome::Done) => Ending::Done,
        Some(Outcome::TooEarly) => Ending::TooEarly,
        Some(Outcome::Failed { .. } | Outcome::Changed | Outcome::Interrupted) =>
            Ending::TrialFailed,
    }
}

/// Updates a machine.
fn update_place<
    R: Files<File: OutputFile> + Clock + Input + Print + Eprint + AllocGlobal,
    T: Trials<R> + Machines,
>(rt: &R, others: &T, words: &UpdateWords<'_>) -> Result<Ending, Failure> {
    match update(rt, others, words) {
        Ok(Ended::AllDone) => Ok(Ending::Done),
        Ok(Ended::NotAll) => Ok(Ending::NotAll),
        Ok(Ended::Unmet) => Ok(Ending::Unmet),
        Err(failure) => Err(failure),
    }
}

/// Makes a set file of the variables of a place. It is locked before the place is read, which may be the same file if that
/// is a set file too. A set file with BootKeepState is replaced only by one that has it too.
fn make_set<R: Files<File: OutputFile> + Input + Print + Eprint + AllocGlobal>(
    rt: &R,
    place: &str,
    out: &str,
    boot_only: bool,
) -> Result<(), Failure> {
    let output = lock(rt, out);
    let vars = read_vars(rt, place, boot_only)?;
    check_own_place(rt, place, out)?;
    write_vars(rt, out, output?, &vars)
}

/// Refuses to replace the place by a set of it, unless it is a set file already.
fn check_own_place<R: Files + Input + AllocGlobal>(
    rt: &R,
    place: &str,
    out: &str,
) -> Result<(), Failure> {
    if is_same_file(rt, out, place) && matches!(file_kind(&read(rt, out)?), FileKind::Set) {
        return Ok(());
    }
    check_output(rt, out, place)
}

/// The variables of a place, or the boot variables alone.
fn read_vars<R: Files + Input + Eprint + AllocGlobal>(
    rt: &R,
    place: &str,
    boot_only: bool,
) -> Result<Vars, Failure> {
    let mut vars = read_place(rt, place)?;
    if boot_only {
        keep_boot_variables(rt.alloc(), &mut vars)?;
    }
    Ok(vars)
}

/// Writes the set file of variables at this path, unless BootKeepState would be lost.
fn write_vars<R: Files<File: OutputFile> + Input + Print + AllocGlobal>(
    rt: &R,
    out: &str,
    output: Output<'_, R::File>,
    vars: &Vars,
) -> Result<(), Failure> {
    if vars.get(KEEP_STATE).is_none() && has_keep_state(rt, out)? {
        return Err(Failure::refused(rt.alloc(), out, Reason::LosesKeepState));
    }
    let bytes = write_set(rt.alloc(), vars)?;
    write(rt, output, &bytes)
}

/// Takes out all variables but Boot####, BootOrder, BootNext and Timeout.
fn keep_boot_variables(alloc: Global, vars: &mut Vars) -> Result<(), AllocError> {
    let mut changes = Changes::new(alloc);
    for (name, _data) in vars.iter() {
        if !is_boot_name(name) {
            changes.remove(name)?;
        }
    }
    vars.make(changes)
}

/// Prints the boot variables of a place, and what there is to tell of its start on trial.
fn show<R: Files + Input + Print + Eprint + AllocGlobal, T: Trials<R>>(
    rt: &R,
    trials: &T,
    place: &str,
    form: Form,
    kept: KeptWords<'_>,
) -> Result<(), Failure> {
    let vars = read_place(rt, place)?;
    let trial = match told_machine(rt, place, kept) {
        Some(machine) => trials.view(rt, &machine, &vars)?,
        None => None,
    };
    let text = match form {
        Form::Text => vars_report(rt.alloc(), &vars, trial)?,
        Form::Json => vars_json(rt.alloc(), &vars, trial)?,
    };
    print(rt, text.as_bytes())
}

/// Prints for how long the boot manager of a place waits.
fn show_timeout<R: Files + Input + Print + Eprint + AllocGlobal>(
    rt: &R,
    place: &str,
    form: Form,
) -> Result<(), Failure> {
    let vars = read_place(rt, place)?;
    let text = match form {
        Form::Text => timeout_report(rt.alloc(), &vars)?,
        Form::Json => timeout_json(rt.alloc(), &vars)?,
    };
    print(rt, text.as_bytes())
}

/// Prints which boot entries of a place can be started.
fn check<R: Files + Input + Print + Eprint + AllocGlobal, T: Trials<R>>(
    rt: &R,
    trials: &T,
    words: &CheckWords<'_>,
    kept: KeptWords<'_>,
) -> Result<Ending, Failure> {
    let kept = KeptTrial {
        rt,
        trials,
        machine: told_machine(rt, words.place, kept),
    };
    match check_place(rt, words, &kept)? {
        Verdict::Fine => Ok(Ending::Done),
        Verdict::Wrong => Ok(Ending::Wrong),
    }
}

/// Prints how the boot variables of two places differ.
fn diff<R: Files + Input + Print + Eprint + AllocGlobal>(
    rt: &R,
    from: &str,
    to: &str,
    form: Form,
) -> Result<Ending, Failure> {
    let alloc = rt.alloc();
    if from == STANDARD && to == STANDARD {
        return Err(Failure::refused(alloc, name_of(to), Reason::StandardTwice));
    }
    let from = read_place(rt, from)?;
    let to = read_place(rt, to)?;
    print_diff(rt, &from, &to, form)
}

/// Prints how two sets of boot variables differ.
fn print_diff<R: Print + AllocGlobal>(
    rt: &R,
    from: &Vars,
    to: &Vars,
    form: Form,
) -> Result<Ending, Failure> {
    let alloc = rt.alloc();
    let text = changes_text(alloc, from, to, matches!(form, Form::Json))?;
    print(rt, text.as_bytes())?;
    Ok(if boot_changes(alloc, from, to)?.is_empty() {
        Ending::Done
    } else {
        Ending::Differs
    })
}
