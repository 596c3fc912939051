//! A loader for which an entry is to be made.

use crate::image::SeenImage;
use crate::machine::{Machine, Seen};
use crate::place::source_at;
use entry_checks::{Finding, ImageState, Weight, path_target};
use messages::Failure;
use std::alloc::{AllocError, Global};
use std::rt::Files;
use uefi_path::Path;

/// What is to be told of a loader.
#[derive(Drop)]
pub struct LoaderNote {
    /// Whether it can't be started.
    pub is_fault: bool,
    /// The words for a person.
    pub words: String,
}

/// What is to be told of the loader that is at this path of a system, if an entry of the place leads to it: whether
/// firmware starts it, and its Secure Boot allows it. That Secure Boot is undecided isn't told: of good signed loaders
/// it always is. `root` is nothing, or the path of a folder that stands for the root of the system, of which the path
/// of the file has that in front.
///
/// # Errors
///
/// [`Failure::Memory`] if memory was refused: a file that can't be read is told of.
pub fn note_of_file<R: Files + AllocGlobal>(
    rt: &R,
    place: &str,
    root: &str,
    file: &str,
) -> Result<Option<LoaderNote>, Failure> {
    let mut machine = Machine::new(rt, root, source_at(rt, place)?);
    let seen = machine.image_at(file)?;
    Ok(note_of(rt.alloc(), &seen)?)
}

/// What is to be told of the loader to which this path leads, as of [`note_of_file`], or that no file is there:
/// nothing, if its partition isn't mounted.
///
/// # Errors
///
/// [`Failure::Memory`] if memory was refused: what the system doesn't tell is told of.
pub fn note_of_path<R: Files + AllocGlobal>(
    rt: &R,
    place: &str,
    root: &str,
    path: &Path,
) -> Result<Option<LoaderNote>, Failure> {
    let mut machine = Machine::new(rt, root, source_at(rt, place)?);
    let alloc = rt.alloc();
    match machine.look(path_target(path)) {
        Ok(seen) => Ok(note_of_look(alloc, &seen)?),
        Err(Failure::Memory) => Err(Failure::Memory),
        Err(failure) => Ok(Some(LoaderNote {
            is_fault: false,
            words: format!(in alloc; "not looked at: {failure}")?,
        })),
    }
}

/// What is to be told of a loader that was looked for: it may be yet to be put there.
fn note_of_look(alloc: Global, seen: &Seen) -> Result<Option<LoaderNote>, AllocError> {
    let row = Finding::Leads(seen.lead).row();
    if row.weight != Weight::Fault {
        return note_of(alloc, &seen.image);
    }
    let part = if seen.detail.is_empty() { "" } else { ": " };
    Ok(Some(LoaderNote {
        is_fault: false,
        words: format!(in alloc; "{}{part}{}", row.words, seen.detail)?,
    }))
}

/// What is to be told of a loader of which this is known.
fn note_of(alloc: Global, seen: &SeenImage) -> Result<Option<LoaderNote>, AllocError> {
    let Some(state) = seen.state else {
        return Ok(None);
    };
    let row = state.row();
    if row.weight == Weight::Remark || state == ImageState::Unsettled {
        return Ok(None);
    }
    Ok(Some(LoaderNote {
        is_fault: row.weight == Weight::Fault,
        words: format!(in alloc; "{}: {}", row.words, seen.detail)?,
    }))
}
