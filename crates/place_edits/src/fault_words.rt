//! Why a change of entries is refused, in words for a person.

use crate::voice::Voice;
use boot_edits::{EditFault, EditRunFault};
use messages::{Failure, IsThere, NoSuch};
use std::alloc::{AllocError, Global};
use std::fmt;
use uefi_vars::{EntryFamily, EntryNameIn};

/// What it is to the program that the change of the place of this name is refused for this fault, in these words.
fn from_edit(alloc: Global, place: &str, voice: Voice, fault: EditFault) -> Failure {
    match fault {
        EditFault::OutOfMemory => Failure::Memory,
        fault => match format!(in alloc; "{}", FaultWords(voice, fault)) {
            Ok(words) => Failure::from_run(alloc, place, words.as_str()),
            Err(AllocError) => Failure::Memory,
        },
    }
}

/// What it is to the program that what the machine keeps in the place of this name is refused by an edit.
pub fn from_edit_run(alloc: Global, place: &str, fault: EditRunFault) -> Failure {
    from_edit_run_in(alloc, place, Voice::Bootvars, fault)
}

/// The same in these words.
pub(crate) fn from_edit_run_in(
    alloc: Global,
    place: &str,
    voice: Voice,
    fault: EditRunFault,
) -> Failure {
    match fault {
        EditRunFault::Edit(fault) => from_edit(alloc, place, voice, fault),
        EditRunFault::NoData | EditRunFault::TooLong => Failure::from_fault(alloc, place, fault),
    }
}

/// A fault, with the entry that it is of.
#[derive(Clone, Copy)]
pub struct EditFaultWords(pub EditFault);

impl fmt::Display for EditFaultWords {
    fn fmt<W: fmt::Write>(&self, f: &mut fmt::Formatter<W>) -> fmt::Result {
        FaultWords(Voice::Bootvars, self.0).fmt(f)
    }
}

/// The same in these words.
#[derive(Clone, Copy)]
struct FaultWords(Voice, EditFault);

impl fmt::Display for FaultWords {
    fn fmt<W: fmt::Write>(&self, f: &mut fmt::Formatter<W>) -> fmt::Result {
        let FaultWords(voice, fault) = *self;
        if let Voice::Efibootmgr(family) = voice
            && write_as_efibootmgr(f, family, &fault)?
        {
            return Ok(());
        }
        let name = |entry| EntryNameIn(voice.family(), entry);
        match fault {
            EditFault::Taken(entry) => write!(f, "{}", IsThere(name(entry))),
            EditFault::Twice(entry) => write!(f, "{} is named twice", name(entry)),
            EditFault::Missing(entry) => write!(f, "{}", NoSuch(name(entry))),
            EditFault::Stale(entry) => write!(
                f,
                "{}: --stale puts its number into the order all the same",
                NoSuch(name(entry))
            ),
            EditFault::NoOption(entry) => write!(f, "{} is no load option", name(entry)),
            fault => f.write_str(plain_words(&fault)),
        }
    }
}

/// Writes the fault if `efibootmgr` has other words for it than `bootvars`, and tells whether it has.
fn write_as_efibootmgr<W: fmt::Write>(
    f: &mut fmt::Formatter<W>,
    family: EntryFamily,
    fault: &EditFault,
) -> Result<bool, fmt::Error> {
    let order = family.prefix();
    match fault {
        EditFault::Stale(entry) => write!(f, "{}", NoSuch(EntryNameIn(family, *entry)))?,
        EditFault::BadOrder => write!(
            f,
            "{order}Order isn't two bytes for each entry: -o puts a new one in its place"
        )?,
        EditFault::BadNext => f.write_str(
            "BootNext isn't the two bytes of one entry: -n puts a new one in its place",
        )?,
        EditFault::OrderTooLong => write!(f, "{order}Order would have more than 65536 entries")?,
        _ => return Ok(false),
    }
    Ok(true)
}

/// The words of a fault that is of no single entry.
fn plain_words(fault: &EditFault) -> &'static str {
    match fault {
        EditFault::BadOption(_) => "what is to be stored is no load option",
        EditFault::OptionTooLong => "the load option has more than 1048576 bytes",
        EditFault::NoFree => "no number is free: all 65536 entries are there",
        EditFault::BadOrder => {
            "BootOrder isn't two bytes for each entry: `bootvars order` puts a new one in its place"
        }
        EditFault::BadNext => {
            "BootNext isn't the two bytes of one entry: `bootvars next` puts a new one in its place"
        }
        EditFault::OrderTooLong => "BootOrder would have more than 65536 entries",
        _ => "out of memory",
    }
}
