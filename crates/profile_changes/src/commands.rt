//! The commands of profiles.

use crate::making::{ProfileSource, made_profile};
use crate::showing::shown_profile;
use crate::wanted_profile::WantedProfile;
use machine_storage::kind_of_place;
use messages::{Failure, note, print};
use profile_files::{FileError, read_profile};
use std::alloc::Global;
use std::rt::{Clock, Files};
use var_places::{name_of, read, read_place};
use wanted_changes::{ChangeOptions, Machines, ProfileWords};
use whole_files::OutputFile;

/// Makes the boot variables of a place what the file says, and prints the changes. Gives whether there are some.
///
/// # Errors
///
/// [`Failure::Read`] and [`Failure::Refused`] if the file can't be read or is no profile, or a loader isn't found;
/// [`Failure::Loader`] if firmware doesn't start it; [`Failure::Run`] if the profile isn't applied to what is there; and
/// those of the change.
pub fn apply_profile<R, M>(
    rt: &R,
    machines: &M,
    options: &ChangeOptions<'_>,
    words: &ProfileWords<'_>,
) -> Result<bool, Failure>
where
    R: Files<File: OutputFile> + Clock + Input + Print + Eprint + AllocGlobal,
    M: Machines,
{
    let place = options.machine.place;
    let bytes = read(rt, words.file)?;
    let name = name_of(words.file);
    let written = match read_profile(rt.alloc(), &bytes) {
        Ok(written) => written,
        Err(error) => return Err(from_file(rt.alloc(), name, error)),
    };
    let source = ProfileSource {
        name,
        bytes: &bytes,
        root: words.root,
        place,
        force: options.machine.force,
    };
    let profile = made_profile(rt, &source, &written)?;
    let wanted = WantedProfile {
        place,
        profile: &profile,
        written: &written,
        json: words.json,
    };
    let kind = kind_of_place(rt, place)?;
    machines.change(rt, options, kind, &wanted)?.give(rt)
}

/// What it is to the program that the file of this name isn't read.
fn from_file(alloc: Global, name: &str, error: FileError) -> Failure {
    match error {
        FileError::OutOfMemory => Failure::Memory,
        error => Failure::from_fault(alloc, name, error),
    }
}

/// Prints the file that a place has now, and tells on standard error what it doesn't say.
///
/// # Errors
///
/// Those of [`read_place`] and [`print`].
pub fn show_profile<R: Files + Input + Print + Eprint + AllocGlobal>(
    rt: &R,
    place: &str,
) -> Result<(), Failure> {
    let vars = read_place(rt, place)?;
    let shown = shown_profile(rt.alloc(), &vars)?;
    for unsaid in &shown.unsaid {
        note(rt, name_of(place), unsaid.as_str());
    }
    print(rt, shown.text.as_bytes())
}
