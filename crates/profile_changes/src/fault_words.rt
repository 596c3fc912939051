//! Why a profile isn't applied, in words for a person.

use boot_edits::EditRunFault;
use boot_profiles::{EntryFault, NameFault, ProfileFault, ProfileRunFault};
use messages::{Failure, Quoted};
use place_edits::{EditFaultWords, from_edit_run};
use profile_files::{WrittenName, WrittenNext, WrittenOrder, WrittenProfile};
use std::alloc::Global;
use std::fmt;

/// What it is to the program that what is in the place of this name refuses the profile that is written so.
pub(crate) fn from_profile_run(
    alloc: Global,
    place: &str,
    written: &WrittenProfile,
    fault: ProfileRunFault,
) -> Failure {
    match fault {
        ProfileRunFault::NoData => from_edit_run(alloc, place, EditRunFault::NoData),
        ProfileRunFault::TooLong => from_edit_run(alloc, place, EditRunFault::TooLong),
        ProfileRunFault::Profile(fault) => match format!(in alloc; "{}", Words { written, fault }) {
            Ok(words) => Failure::from_run(alloc, place, &words),
            Err(_) => Failure::Memory,
        },
    }
}

/// A fault of a profile that is written so.
#[derive(Clone, Copy)]
struct Words<'a> {
    written: &'a WrittenProfile,
    fault: ProfileFault,
}

impl fmt::Display for Words<'_> {
    fn fmt<W: fmt::Write>(&self, f: &mut fmt::Formatter<W>) -> fmt::Result {
        match self.fault {
            ProfileFault::Entry(place, fault) => {
                let name = entry_name(self.written, place);
                write!(f, "entry {}: {}", Quoted(name), EntryWords(fault))
            }
            ProfileFault::OrderName(place, fault) => {
                let name = order_name(self.written, place);
                write!(f, "order: {}: {}", Quoted(name), name_words(fault))
            }
            ProfileFault::Order(fault) => write!(f, "order: {}", EditFaultWords(fault)),
            ProfileFault::Next(fault) => {
                let name = next_name(self.written);
                write!(f, "next: {}: {}", Quoted(name), name_words(fault))
            }
        }
    }
}

/// The description of the entry at this place.
fn entry_name(written: &WrittenProfile, place: usize) -> &str {
    match written.entries.get(place) {
        Some(entry) => &entry.name.text,
        None => "",
    }
}

/// The description at this place of the order.
fn order_name(written: &WrittenProfile, place: usize) -> &str {
    match &written.order {
        WrittenOrder::Kept => "",
        WrittenOrder::First(names) | WrittenOrder::Only(names) => name_at(names, place),
    }
}

/// The description at this place.
fn name_at(names: &[WrittenName], place: usize) -> &str {
    match names.get(place) {
        Some(name) => &name.text,
        None => "",
    }
}

/// The description of what the next boot is to try.
fn next_name(written: &WrittenProfile) -> &str {
    match &written.next {
        WrittenNext::Entry(name) => &name.text,
        WrittenNext::Kept | WrittenNext::Gone => "",
    }
}

/// Why a description names no entry.
fn name_words(fault: NameFault) -> &'static str {
    match fault {
        NameFault::Unknown => "no entry has this description",
        NameFault::Ambiguous => SEVERAL,
    }
}

/// What is said of a description that several entries have.
const SEVERAL: &str = "several entries have this description, so it isn't known which one is meant";

/// Why an entry makes nothing.
#[derive(Clone, Copy)]
struct EntryWords(EntryFault);

impl fmt::Display for EntryWords {
    fn fmt<W: fmt::Write>(&self, f: &mut fmt::Formatter<W>) -> fmt::Result {
        match self.0 {
            EntryFault::Twice => f.write_str("the file has another entry of this description"),
            EntryFault::BadOption(fault) => write!(f, "its option is no load option: {fault}"),
            EntryFault::OtherDescription => f.write_str("its option has another description"),
            EntryFault::Ambiguous => f.write_str(SEVERAL),
            EntryFault::Edit(fault) => write!(f, "{}", EditFaultWords(fault)),
        }
    }
}
