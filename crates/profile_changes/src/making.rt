//! Profiles of what files say, for a machine whose files are looked at.

use boot_profiles::{
    Description, EntryState, PresentEntry, Profile, ProfileEntry, ProfileNext, ProfileOrder,
    ProfileTimeout,
};
use command_words::{OptionWordsFault, path_of_text, single_backslashes};
use disk_files::loader_path;
use messages::{Failure, note};
use place_checks::{LoaderNote, note_of_file};
use profile_files::{
    WrittenName, WrittenNext, WrittenOrder, WrittenPresent, WrittenProfile, WrittenStart,
    WrittenState, WrittenText, WrittenTimeout, position_of,
};
use std::alloc::{AllocError, Global};
use std::fmt::Display;
use std::rt::Files;
use uefi_option::{ACTIVE, OptionFault, make_option, write_option};
use uefi_path::{Path, read_units};

/// Where a profile is from, and for which machine.
#[derive(Clone, Copy)]
pub(crate) struct ProfileSource<'a> {
    /// What the file is called.
    pub(crate) name: &'a str,
    /// Its bytes.
    pub(crate) bytes: &'a [u8],
    /// The path of the folder that stands for the root of the system, or nothing.
    pub(crate) root: &'a str,
    /// The place whose firmware is to start the loaders.
    pub(crate) place: &'a str,
    /// Whether a loader is taken that firmware doesn't start.
    pub(crate) force: bool,
}

impl ProfileSource<'_> {
    /// What it is to the program that there is this fault at a place of the file.
    fn refused<D: Display + Drop>(&self, alloc: Global, place: usize, fault: D) -> Failure {
        let position = position_of(self.bytes, place);
        Failure::from_fault(alloc, self.name, format_args!("{position}: {fault}"))
    }
}

/// The profile that a file says.
pub(crate) fn made_profile<R: Files + Eprint + AllocGlobal>(
    rt: &R,
    source: &ProfileSource<'_>,
    written: &WrittenProfile,
) -> Result<Profile, Failure> {
    let alloc = rt.alloc();
    let mut entries = Vec::with_capacity(alloc, written.entries.len())?;
    for entry in &written.entries {
        let description = description_of(alloc, &entry.name)?;
        let state = made_state(rt, source, &entry.name, &entry.state)?;
        entries.push(ProfileEntry { description, state })?;
    }
    Ok(Profile {
        entries,
        order: made_order(alloc, &written.order)?,
        next: made_next(alloc, &written.next)?,
        timeout: made_timeout(written.timeout),
    })
}

/// What is to be of an entry of this description.
fn made_state<R: Files + Eprint + AllocGlobal>(
    rt: &R,
    source: &ProfileSource<'_>,
    name: &WrittenName,
    state: &WrittenState,
) -> Result<EntryState, Failure> {
    match state {
        WrittenState::Absent => Ok(EntryState::Absent),
        WrittenState::Present(WrittenPresent { start, active }) => {
            let option = option_of(rt, source, name, start)?;
            Ok(EntryState::Present(PresentEntry {
                option,
                active: *active,
            }))
        }
    }
}

/// The bytes of the load option of this description that starts this.
fn option_of<R: Files + Eprint + AllocGlobal>(
    rt: &R,
    source: &ProfileSource<'_>,
    name: &WrittenName,
    start: &WrittenStart,
) -> Result<Vec<u8>, Failure> {
    match start {
        WrittenStart::Loader(file, optional) => {
            let path = loader_path(rt, source.root, &file.text)?;
            look_at_loader(rt, source, file)?;
            option_bytes(rt.alloc(), source, name, path, optional)
        }
        WrittenStart::Path(text, optional) => {
            let path = path_of(rt, source, text)?;
            option_bytes(rt.alloc(), source, name, path, optional)
        }
        WrittenStart::Option(bytes) => Ok(Vec::from_slice(rt.alloc(), bytes)?),
    }
}

/// The bytes of an active load option of these parts.
fn option_bytes(
    alloc: Global,
    source: &ProfileSource<'_>,
    name: &WrittenName,
    path: Path,
    optional: &[u8],
) -> Result<Vec<u8>, Failure> {
    let units = read_units(alloc, &name.bytes)?;
    match make_option(alloc, ACTIVE, &units, &[path], optional) {
        Ok(option) => Ok(write_option(alloc, &option)?),
        Err(OptionFault::OutOfMemory) => Err(Failure::Memory),
        Err(fault) => Err(source.refused(alloc, name.place, fault)),
    }
}

/// The path that a text stands for, as `bootvars add --path` reads it.
fn path_of<R: Eprint + AllocGlobal>(
    rt: &R,
    source: &ProfileSource<'_>,
    text: &WrittenText,
) -> Result<Path, Failure> {
    let alloc = rt.alloc();
    let path = match single_backslashes(alloc, &text.text)? {
        Some(single) => {
            let position = position_of(source.bytes, text.place);
            note(
                rt,
                source.name,
                format_args!(
                    "{position}: doubled backslashes are read as single ones, which UEFI has in paths"
                ),
            );
            path_of_text(alloc, &single)
        }
        None => path_of_text(alloc, &text.text),
    };
    match path {
        Ok(path) => Ok(path),
        Err(OptionWordsFault::OutOfMemory) => Err(Failure::Memory),
        Err(fault) => Err(source.refused(alloc, text.place, fault)),
    }
}

/// Looks whether firmware starts the file, and tells on standard error what is found.
fn look_at_loader<R: Files + Eprint + AllocGlobal>(
    rt: &R,
    source: &ProfileSource<'_>,
    file: &WrittenText,
) -> Result<(), Failure> {
    let alloc = rt.alloc();
    let path = below(alloc, source.root, &file.text)?;
    match note_of_file(rt, source.place, source.root, &path)? {
        None => {}
        Some(LoaderNote { is_fault, words }) if is_fault && !source.force => {
            let words = format_args!("{words}: --force takes it all the same");
            return Err(Failure::from_loader(alloc, &file.text, words));
        }
        Some(LoaderNote { words, .. }) => note(rt, &file.text, words),
    }
    Ok(())
}

/// The path of a file below a root, which may be nothing. This fails only when out of memory.
fn below(alloc: Global, root: &str, file: &str) -> Result<String, AllocError> {
    if root.is_empty() {
        return String::from_str(alloc, file);
    }
    let slash = if file.starts_with('/') { "" } else { "/" };
    format!(in alloc; "{}{slash}{file}", root.trim_end_matches('/'))
}

/// The description of this name.
fn description_of(alloc: Global, name: &WrittenName) -> Result<Description, AllocError> {
    Ok(Description::new(Vec::from_slice(alloc, &name.bytes)?))
}

/// The descriptions of these names.
fn descriptions_of(alloc: Global, names: &[WrittenName]) -> Result<Vec<Description>, AllocError> {
    let mut descriptions = Vec::with_capacity(alloc, names.len())?;
    for name in names {
        descriptions.push(description_of(alloc, name)?)?;
    }
    Ok(descriptions)
}

/// What BootOrder is to be.
fn made_order(alloc: Global, order: &WrittenOrder) -> Result<ProfileOrder, AllocError> {
    match order {
        WrittenOrder::Kept => Ok(ProfileOrder::Kept),
        WrittenOrder::First(names) => Ok(ProfileOrder::First(descriptions_of(alloc, names)?)),
        WrittenOrder::Only(names) => Ok(ProfileOrder::Only(descriptions_of(alloc, names)?)),
    }
}

/// What BootNext is to be.
fn made_next(alloc: Global, next: &WrittenNext) -> Result<ProfileNext, AllocError> {
    match next {
        WrittenNext::Kept => Ok(ProfileNext::Kept),
        WrittenNext::Gone => Ok(ProfileNext::Gone),
        WrittenNext::Entry(name) => Ok(ProfileNext::Entry(description_of(alloc, name)?)),
    }
}

/// What Timeout is to be.
fn made_timeout(timeout: WrittenTimeout) -> ProfileTimeout {
    match timeout {
        WrittenTimeout::Kept => ProfileTimeout::Kept,
        WrittenTimeout::Gone => ProfileTimeout::Gone,
        WrittenTimeout::Seconds(seconds) => ProfileTimeout::Seconds(seconds),
    }
}
