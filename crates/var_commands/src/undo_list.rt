//! The changes that can be undone.

use boot_history::{KeptRecord, kept_numbers, kept_record, time_text};
use boot_texts::{RecordView, record_json, record_line};
use machine_storage::{lock_folder, name_of_machine};
use messages::{Failure, print};
use std::alloc::{AllocError, Global};
use std::rt::Files;
use var_places::is_folder;
use wanted_changes::MachineWords;
use whole_files::OutputFile;

/// Prints a line for each change of a machine that is kept in the state folder, the newest first: its number, its time and the
/// words of its command, or an object of JSON.
///
/// # Errors
///
/// [`Failure::Read`] with the system's reason; [`Failure::Refused`] if what is kept is damaged; [`Failure::Busy`] if an update is
/// at work; [`Failure::Words`] if the machine's name isn't one; [`Failure::Write`] if the lines can't be printed; and
/// [`Failure::Memory`] if memory was refused.
pub(crate) fn list_changes<R: Files<File: OutputFile> + Print + AllocGlobal>(
    rt: &R,
    words: &MachineWords<'_>,
    json: bool,
) -> Result<(), Failure> {
    let _folder = lock_folder(rt, words.state)?;
    let is_folder = is_folder(rt, words.place)?;
    let machine = name_of_machine(rt, words, is_folder)?;
    let mut text = String::new(rt.alloc());
    for number in &kept_numbers(rt, words.state)? {
        if let Some(kept) = kept_record(rt, words.state, *number, &machine)? {
            append_change(rt.alloc(), &kept, json, &mut text)?;
        }
    }
    print(rt, text.as_bytes())
}

/// Appends the line of a change. This fails only when out of memory.
fn append_change(
    alloc: Global,
    kept: &KeptRecord,
    json: bool,
    text: &mut String,
) -> Result<(), AllocError> {
    let time = time_text(alloc, kept.record.time)?;
    let record = RecordView {
        number: kept.number,
        time: &time,
        words: &kept.record.words,
    };
    let line = if json {
        record_json(alloc, record)?
    } else {
        record_line(alloc, record)?
    };
    text.push_str(&line)
}
