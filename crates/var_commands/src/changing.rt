//! The commands that change boot entries.

use crate::making::{entries_of, entry_of, option_of_words, seconds_of};
use crate::trials::Trials;
use boot_edits::{Addition, Edit, NewOrder};
use boot_trials::TrialTarget;
use bootvars_actions::{AddWords, ChangeWords, EntryChange, Form};
use machine_storage::kind_of_place;
use messages::Failure;
use place_edits::{EditForm, WantedEdit};
use std::rt::{Clock, Files};
use wanted_changes::{ChangeOptions, Machines, StateUse};
use whole_files::OutputFile;

/// Makes the change that the words ask for, which are these of the command line, and prints it. What was there before is kept
/// in the state folder of a machine, which is made if it isn't there.
///
/// # Errors
///
/// [`Failure::Words`] if a word isn't what it is to be, and those of the change.
pub(crate) fn change_entries<
    R: Files<File: OutputFile> + Clock + Input + Print + Eprint + AllocGlobal,
    T: Trials<R> + Machines,
>(rt: &R, others: &T, words: &ChangeWords<'_>, command: &[String]) -> Result<(), Failure> {
    let alloc = rt.alloc();
    match words.change {
        EntryChange::Add(add) => add_entry(rt, others, words, &add, command),
        EntryChange::Remove(entries) => {
            change(
                rt,
                others,
                words,
                Edit::Remove(&entries_of(alloc, entries)?),
                command,
            )
        }
        EntryChange::First(entries) => change(
            rt,
            others,
            words,
            Edit::First(&entries_of(alloc, entries)?),
            command,
        ),
        EntryChange::Order {
            entries,
            stale,
            only,
        } => {
            let entries = entries_of(alloc, entries)?;
            let order = NewOrder {
                entries: &entries,
                stale,
                only,
            };
            change(rt, others, words, Edit::Order(order), command)
        }
        EntryChange::Next(None) => change(rt, others, words, Edit::Next(None), command),
        EntryChange::Next(Some(entry)) => {
            change(
                rt,
                others,
                words,
                Edit::Next(Some(entry_of(alloc, entry)?)),
                command,
            )
        }
        EntryChange::Timeout(seconds) => {
            let seconds = match seconds {
                Some(word) => Some(seconds_of(alloc, word)?),
                None => None,
            };
            change(rt, others, words, Edit::Timeout(seconds), command)
        }
        EntryChange::Activate(entries) => {
            change(
                rt,
                others,
                words,
                Edit::Activate(&entries_of(alloc, entries)?),
                command,
            )
        }
        EntryChange::Deactivate(entries) => {
            change(
                rt,
                others,
                words,
                Edit::Deactivate(&entries_of(alloc, entries)?),
                command,
            )
        }
    }
}

/// Adds the entry that the words say, and begins its trial, if it is to be tried.
fn add_entry<
    R: Files<File: OutputFile> + Clock + Input + Print + Eprint + AllocGlobal,
    T: Trials<R> + Machines,
>(
    rt: &R,
    others: &T,
    words: &ChangeWords<'_>,
    add: &AddWords<'_>,
    command: &[String],
) -> Result<(), Failure> {
    let entry = match add.entry {
        Some(word) => Some(entry_of(rt.alloc(), word)?),
        None => None,
    };
    let option = option_of_words(rt, &add.option)?;
    let addition = Addition {
        entry,
        option: &option,
        position: add.position,
        again: add.again,
    };
    if add.tried {
        let json = matches!(words.form, Form::Json);
        let target = TrialTarget::Added(addition);
        return others.begin(rt, &options_of(words, command), target, json);
    }
    change(rt, others, words, Edit::Add(addition), command)
}

/// How the change is to be made.
fn options_of<'a>(words: &ChangeWords<'a>, command: &'a [String]) -> ChangeOptions<'a> {
    ChangeOptions {
        machine: words.machine,
        command: Some(command),
        dry_run: words.dry_run,
        state: StateUse::Made,
    }
}

/// Makes the change, and prints it.
fn change<R, M>(
    rt: &R,
    machines: &M,
    words: &ChangeWords<'_>,
    edit: Edit<'_>,
    command: &[String],
) -> Result<(), Failure>
where
    R: Files<File: OutputFile> + Clock + Input + Print + Eprint + AllocGlobal,
    M: Machines,
{
    let place = words.machine.place;
    let options = options_of(words, command);
    let wanted = WantedEdit {
        place,
        edit,
        form: match words.form {
            Form::Text => EditForm::Lines,
            Form::Json => EditForm::Json,
        },
    };
    let kind = kind_of_place(rt, place)?;
    let answered = machines.change(rt, &options, kind, &wanted)?;
    answered.give(rt)?;
    Ok(())
}
