//! A run of the program.

use crate::fault_words::FaultWords;
use crate::machine::{Machine, place, state_of};
use crate::steps::make_changes;
use crate::stopped::{Step, Stopped};
use crate::told_once::ToldOnce;
use efibootmgr_words::{Asked, HELP, ListForm, VERSION, WordFault, list_vars, options, read_words};
use messages::{Failure, note, print};
use std::alloc::AllocError;
use std::fmt::Display;
use std::rt::{Clock, Env, Files};
use uefi_option::check_option;
use uefi_vars::{EntryNameIn, Vars};
use value_texts::option_reason;
use wanted_changes::Machines;
use whole_files::OutputFile;

/// Does what the words ask for, of which the first is the name by which the program is called, and returns the status to end
/// with: that of `efibootmgr`, which is 0 if all is done. What goes wrong is told on standard error.
pub fn run<R, M>(rt: &R, machines: &M, words: &[String]) -> u8
where
    R: Env + Files<File: OutputFile> + Clock + Input + Print + Eprint + AllocGlobal,
    M: Machines,
{
    match asked_of(rt, words) {
        Ok(Ok(asked)) => match answer(rt, machines, words, &asked) {
            Ok(()) => 0,
            Err(stopped) => tell_stop(rt, &stopped),
        },
        Ok(Err(fault)) => {
            tell(rt, FaultWords(fault));
            fault.status()
        }
        Err(AllocError) => {
            tell(rt, Failure::Memory);
            NO_MEMORY
        }
    }
}

/// The status if memory was refused before anything was done.
const NO_MEMORY: u8 = 1;

/// What the words ask for, or what is wrong with them.
fn asked_of<'a, R: AllocGlobal>(
    rt: &R,
    words: &'a [String],
) -> Result<Result<Asked<'a>, WordFault<'a>>, AllocError> {
    let given = read_words(rt.alloc(), options(), words.get(1..).unwrap_or(&[]))?;
    Asked::new(rt.alloc(), given)
}

/// Tells why a run stopped, and returns the status to end with.
fn tell_stop<R: Eprint>(rt: &R, stopped: &Stopped) -> u8 {
    if let Some(failure) = stopped.told() {
        tell(rt, format_args!("{failure}"));
    }
    stopped.status()
}

/// Tells something on standard error.
fn tell<R: Eprint, D: Display + Drop>(rt: &R, text: D) {
    // If standard error takes nothing, there is no place left to say so: the status tells it all the same.
    let _ = eprintln!(rt; "efibootmgr: {text}");
}

/// Does what is asked for.
fn answer<R, M>(rt: &R, machines: &M, words: &[String], asked: &Asked<'_>) -> Result<(), Stopped>
where
    R: Env + Files<File: OutputFile> + Clock + Input + Print + Eprint + AllocGlobal,
    M: Machines,
{
    if asked.help {
        return show(rt, HELP);
    }
    if asked.version {
        return show(rt, VERSION);
    }
    let place = match place(rt) {
        Ok(place) => place,
        Err(failure) => return Err(Stopped::at(Step::Read, failure)),
    };
    let family = asked.family();
    let state = state_of(rt.alloc(), family)?;
    let machine = Machine {
        place: place.as_str(),
        command: words,
        family,
        state: state.as_str(),
    };
    run_steps(&ToldOnce::new(rt), machines, &machine, asked)
}

/// Makes the changes that are asked for, and lists the variables unless that isn't wanted.
fn run_steps<R, M>(
    rt: &R,
    machines: &M,
    machine: &Machine<'_>,
    asked: &Asked<'_>,
) -> Result<(), Stopped>
where
    R: Files<File: OutputFile> + Clock + Input + Print + Eprint + AllocGlobal,
    M: Machines,
{
    if let Err(failure) = machine.read(rt) {
        return Err(Stopped::at(Step::Read, failure));
    }
    make_changes(rt, machines, machine, asked)?;
    if asked.quiet {
        return Ok(());
    }
    let form = ListForm {
        family: machine.family,
        verbose: asked.verbose,
    };
    list(rt, machine, form)
}

/// Prints a text.
fn show<R: Print + AllocGlobal>(rt: &R, text: &str) -> Result<(), Stopped> {
    match print(rt, text.as_bytes()) {
        Ok(()) => Ok(()),
        Err(failure) => Err(Stopped::at(Step::List, failure)),
    }
}

/// Prints the variables of the machine.
fn list<R: Files + Print + Eprint + AllocGlobal>(
    rt: &R,
    machine: &Machine<'_>,
    form: ListForm,
) -> Result<(), Stopped> {
    let vars = match machine.read(rt) {
        Ok(folder) => folder.found.vars,
        Err(failure) => return Err(Stopped::at(Step::List, failure)),
    };
    let listing = list_vars(rt.alloc(), &vars, form)?;
    show(rt, &listing.text)?;
    if form.verbose {
        tell_of_faulty(rt, machine, &vars, &listing.faulty);
    }
    Ok(())
}

/// Tells which entries are no load options, and why.
fn tell_of_faulty<R: Eprint>(rt: &R, machine: &Machine<'_>, vars: &Vars, faulty: &[u16]) {
    for entry in faulty {
        if let Some(data) = vars.entry(*entry)
            && let Err(fault) = check_option(data)
        {
            let name = EntryNameIn(machine.family, *entry);
            let reason = option_reason(data, &fault);
            note(
                rt,
                machine.place,
                format_args!("{name} is no load option: {reason}"),
            );
        }
    }
}
