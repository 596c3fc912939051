//! The file of a trial in a state folder.

use boot_trials::{Stage, Trial, TrialFault, read_trial, write_trial};
use messages::{Failure, Reason};
use std::alloc::{AllocError, Global};
use std::fs;
use std::io::{self, ErrorKind};
use std::path::{Path, PathBuf};
use std::rt::Files;
use whole_files::{LIMIT, OutputFile, RegularFile, read_regular, replace_file, sync_folder};

/// The name of the file.
const TRIAL: &str = "trial";

/// The trial that is kept in the state folder at this path, if one is. The caller keeps others from the folder, or takes what
/// it finds for what was there a moment ago.
///
/// # Errors
///
/// [`Failure::Read`] if it can't be read, [`Failure::Refused`] if it is damaged, and [`Failure::Memory`] if memory was refused.
pub fn stored_trial<R: Files + AllocGlobal>(rt: &R, state: &str) -> Result<Option<Trial>, Failure> {
    let alloc = rt.alloc();
    let path = trial_path(alloc, state)?;
    let path = path.as_path().as_str();
    match read_regular(rt, path, LIMIT) {
        Ok(RegularFile::Bytes(bytes)) => Ok(Some(trial_of(alloc, path, &bytes)?)),
        Ok(RegularFile::TooMuch) => Err(Failure::refused(alloc, path, Reason::TooMuch(LIMIT))),
        Ok(RegularFile::Irregular) => Err(Failure::refused(alloc, path, Reason::NoRegularFile)),
        Err(error) if error.kind() == ErrorKind::NotFound => Ok(None),
        Err(error) => Err(Failure::from_read(alloc, path, error)),
    }
}

/// Ends the trial that is kept in the state folder at this path, also a damaged one: its file is taken away. Whether there was
/// one. The caller keeps others from the folder.
///
/// # Errors
///
/// [`Failure::Write`] if the file can't be taken away, and [`Failure::Memory`] if memory was refused.
pub(crate) fn forget_trial<R: Files + AllocGlobal>(rt: &R, state: &str) -> Result<bool, Failure> {
    let path = trial_path(rt.alloc(), state)?;
    let path = path.as_path().as_str();
    match remove(rt, state, path) {
        Ok(()) => Ok(true),
        Err(error) if error.kind() == ErrorKind::NotFound => Ok(false),
        Err(error) => Err(Failure::from_write(rt.alloc(), path, error)),
    }
}

/// Keeps the trial in the state folder at this path, in the place of what is kept there. It is on the disk then.
///
/// # Errors
///
/// [`Failure::Write`] if it can't be written, and [`Failure::Memory`] if memory was refused.
pub(crate) fn store_trial<R: Files<File: OutputFile> + AllocGlobal>(
    rt: &R,
    state: &str,
    trial: &Trial,
) -> Result<(), Failure> {
    let alloc = rt.alloc();
    let path = trial_path(alloc, state)?;
    let path = path.as_path().as_str();
    let bytes = write_trial(alloc, trial)?;
    replace_file(rt, path, &bytes).map_err(|error| Failure::from_write(alloc, path, error))
}

/// Keeps the trial that is kept in the state folder at this path, if one is, in another stage.
///
/// # Errors
///
/// Those of [`stored_trial`] and of [`store_trial`].
pub(crate) fn store_stage<R: Files<File: OutputFile> + AllocGlobal>(
    rt: &R,
    state: &str,
    stage: Stage,
) -> Result<(), Failure> {
    match stored_trial(rt, state)? {
        Some(trial) => store_trial(rt, state, &trial.with_stage(stage)),
        None => Ok(()),
    }
}

/// The path of the file in the state folder at this path. This fails only when out of memory.
fn trial_path(alloc: Global, state: &str) -> Result<PathBuf, AllocError> {
    Path::new(state).join(alloc, TRIAL)
}

/// The trial of these bytes of the file at this path.
fn trial_of(alloc: Global, path: &str, bytes: &[u8]) -> Result<Trial, Failure> {
    match read_trial(alloc, bytes) {
        Ok(trial) => Ok(trial),
        Err(TrialFault::OutOfMemory) => Err(Failure::Memory),
        Err(fault) => {
            let words = fault.words(alloc)?;
            let text = format!(in alloc;
                "the trial is damaged: {words}: `bootvars try --forget` takes it away"
            )?;
            Err(Failure::from_fault(alloc, path, text))
        }
    }
}

/// Takes the file at this path, which is in the folder at the other one, away, and brings that to the disk.
fn remove<R: Files>(rt: &R, folder: &str, path: &str) -> io::Result<()> {
    fs::remove_file(rt, path)?;
    sync_folder(rt, folder)
}
