//! A run of the program, over any runtime.

ghost use Rattle.std.specs.Prelude.{◌≡◌, ◌≢◌, ℕ, ◌<◌, ◌≤◌, List, length, vec_len, Err, IfOk, IfErr, IfSome, MatchResult, false};
ghost use Rattle.std.specs.Io.KnownBytes.{Keeps, Appends};
ghost use Rattle.uefi_vars.specs.Vars.{Variables};
ghost use Rattle.boot_requests.specs.declared.reply.Reply.{Reply};
ghost use Rattle.boot_commands.specs.declared.fault.ScriptRunFault.{ScriptRunFault};
ghost use Rattle.boot_requests.specs.Happens.{answer_lines};
ghost use Rattle.boot_commands.specs.Runs.{RunsIn};
ghost use Rattle.boot_commands.specs.RunFault.{script_max, IsFirstFaultIn, MayComeIn};
ghost use Rattle.boot_commands.specs.Source.{ReadsAll, AppendsFront};
ghost use Rattle.bootkeep.specs.Failure.{status_of, IfRefused, IsFailureOf, IsFailureUnless, TellsScriptFault};
ghost use Rattle.bootkeep.specs.declared.failure.Failure.TheVariants as failure;

use crate::command_line::{self, Action, USAGE};
use crate::failure::Failure;
use boot_commands::{
    InputFault, OutputFault, Sink, Source, Watched, option_report, path_report, refuse, run_input,
    set_report, text_report,
};
use boot_requests::InputFormat;
use std::alloc::Global;
use std::rt::{Env, Files};
use std::{env, io};
use uefi_vars::{Vars, read_set, write_set};
use whole_files::{LIMIT, OutputFile, lock_file, read_file, write_file};

/// Does what the words of the command line ask for, and returns the status to end with: 0, or that
/// of the [`Failure`], whose line goes to standard error.
pub fn run<R: Env + Files<File: OutputFile> + Print + Eprint + AllocGlobal>(rt: &R) -> u8 {
    tell(rt, answer(rt))
}

/// Ends a run: writes the line of a failure to standard error, and returns the status.
pub fn tell<R: Eprint>(rt: &R, outcome: Result<(), Failure>) -> u8
    ensures { MatchResult outcome (λ _. result ≡ 0) (λ failure. result ≡ status_of failure) }
{
    match outcome {
        Ok(()) => 0,
        Err(failure) => {
            let status = failure.status();
            // If standard error takes nothing, there is no place left to say so: the status tells
            // it all the same.
            let _ = rt.eprintln(failure);
            status
        }
    }
}

fn answer<R: Env + Files<File: OutputFile> + Print + AllocGlobal>(rt: &R) -> Result<(), Failure> {
    let words = words(rt)?;
    match command_line::read_words(rt.alloc(), words.as_slice())? {
        Action::Help => rt.println(USAGE),
        Action::Path { hex } => rt.print(path_report(rt.alloc(), hex)?),
        Action::Text { text } => rt.print(text_report(rt.alloc(), text)?),
        Action::LoadOption { file } => {
            let bytes = read_whole(rt, file)?;
            rt.print(option_report(rt.alloc(), bytes.as_slice())?)
        }
        Action::Show { set } => {
            let bytes = read_whole(rt, set)?;
            rt.print(set_report(rt.alloc(), bytes.as_slice())?)
        }
        Action::Run {
            format,
            set,
            script,
            file,
        } => return run_file(rt, format, set, script, file),
    }
    .map_err(|_| Failure::Write)
}

/// Runs the script or the stream in one file over the set in another, prints the replies, and then writes the new set to a
/// third. That file is locked from before the set is read until the new set is there, so that runs over one file go one
/// after the other. The script is read before, so that one that comes slowly keeps no other run waiting. If several
/// things are at fault, the set's fault is told first, then the script's, and then that of the lock.
fn run_file<R: Files<File: OutputFile> + Print + AllocGlobal>(
    rt: &R,
    format: InputFormat,
    set: &str,
    script: &str,
    file: &str,
) -> Result<(), Failure> {
    let alloc = rt.alloc();
    let script = match read_whole(rt, script) {
        Ok(script) => script,
        Err(fault) => {
            read_vars(rt, set)?;
            return Err(fault.into());
        }
    };
    let mut reader = watch(script.as_slice());
    let lock = lock_file(rt, file).map_err(OutputFault::from);
    let vars = read_vars(rt, set)?;
    let lock = match lock {
        Ok(lock) => lock,
        Err(fault) => {
            run_events(alloc, format, &mut reader, &mut watch(io::sink()), vars)?;
            return Err(fault.into());
        }
    };
    let vars = run_events(alloc, format, &mut reader, &mut watch(io::writer(rt)), vars)?;
    let bytes = write_set(alloc, &vars)?;
    Ok(write_file(rt, lock, &bytes).map_err(OutputFault::from)?)
}

/// A reader or a writer of which no call has failed.
fn watch<T>(inner: T) -> Watched<T>
    ensures inner { result.inner ≡ inner }
    ensures failed { result.failed ≡ false }
{
    Watched {
        inner,
        failed: false,
    }
}

/// The variables after the events of a script or a stream, whose replies are written, a line for each. If this fails,
/// nothing is written, except at [`Failure::Write`], when it is a prefix of the lines.
fn run_events<R: Source, W: Sink>(
    alloc: Global,
    format: InputFormat,
    script: &mut R,
    replies: &mut W,
    vars: Vars,
) -> Result<Vars, Failure>
    requires reads { R.failed script.old ≡ false }
    requires writes { W.failed replies.old ≡ false }
    // All that was read is a script or a stream, the variables are those after it, and all its replies were written.
    ensures done { IfOk result (λ after.
        (text : List ℕ) × ReadsAll (R.remaining script.old) (R.remaining script.new) text × (length text ≤ script_max)
        × (answers : List Reply) × RunsIn format text vars after answers
        × Appends (W.contents replies.old) (W.contents replies.new) (answer_lines answers)) }
    ensures refused { IfErr result (λ failure. IfSome (R.remaining script.old) (λ text.
        IfRefused failure (TellsScriptFault format text vars))) }
    ensures too_much { result ≡ Err failure.TooMuch → IfSome (R.remaining script.old) (λ text.
        script_max < length text) }
    // The first fault of the input and of the variables is told as the program's failure for it.
    ensures only_fault { IfSome (R.remaining script.old) (λ text. (fault : ScriptRunFault) →
        IsFirstFaultIn format text vars fault → IsFailureUnless result fault) }
    // If replies aren't written, all of the input was read, and the first of them were written.
    ensures write { result ≡ Err failure.Write →
        (text : List ℕ) × ReadsAll (R.remaining script.old) (R.remaining script.new) text × (length text ≤ script_max)
        × (after : Variables) × (answers : List Reply) × RunsIn format text vars after answers
        × AppendsFront (W.contents replies.old) (W.contents replies.new) (answer_lines answers) }
    ensures unwritten { IfErr result (λ failed. failed ≢ failure.Write →
        Keeps (W.contents replies.old) (W.contents replies.new)) }
    // Which failures may come, also if the bytes aren't known: those for the faults that such a run may have.
    ensures may_come { IfErr result (λ failure.
        (fault : ScriptRunFault) × MayComeIn format vars fault × IsFailureOf fault failure) }
    ensures no_usage { result ≢ Err failure.CommandLine }
{
    match run_input(alloc, format, script, replies, vars) {
        Ok(vars) => Ok(vars),
        Err(fault) => Err(Failure::from_script(alloc, fault)),
    }
}

/// The bytes of the file at this path.
fn read_whole<R: Files + AllocGlobal>(rt: &R, path: &str) -> Result<Vec<u8>, InputFault>
    ensures { IfOk result (λ bytes. vec_len bytes ≤ LIMIT) }
{
    match read_file(rt, path, LIMIT)? {
        Some(bytes) => Ok(bytes),
        None => Err(InputFault::TooMuch),
    }
}

/// The variables of the set file at this path.
fn read_vars<R: Files + AllocGlobal>(rt: &R, set: &str) -> Result<Vars, Failure> {
    let bytes = read_whole(rt, set)?;
    Ok(read_set(rt.alloc(), &bytes).map_err(|fault| refuse(rt.alloc(), fault))?)
}

fn words<R: Env + AllocGlobal>(rt: &R) -> Result<Vec<String>, Failure> {
    let given = env::args(rt).map_err(InputFault::from)?;
    let mut words = Vec::new(rt.alloc());
    for word in given {
        words.push(word)?;
    }
    Ok(words)
}
