//! A place and a journal, as what a machine's updates are made in.

use crate::moves::{Moves, Way};
use crate::owner::Identity;
use crate::variable_file::{DueChange, bytes_due, is_in_file, write_due};
use boot_journal::{CallError, Change, Journal, Storage, write_journal};
use boot_notes::{Notes, with_notes};
use messages::{Failure, Reason};
use std::alloc::{AllocError, Global};
use std::fmt::Display;
use std::io::ErrorKind;
use std::rc::Rc;
use std::rt::Files;
use var_places::{ChangeFault, Folder, KeptChange, change_variable, has_value, set_variable};
use wanted_changes::KeptNotes;
use whole_files::{FileLock, LIMIT, OutputFile, RegularFile, read_regular, replace_file};

/// Where the variables of a machine are.
#[derive(Drop)]
pub(crate) enum Place<F> {
    /// In a folder as Linux shows them.
    Folder {
        /// The path of the folder.
        path: String,
        /// What it showed.
        folder: Folder,
        /// The folder, which is open and locked from before it is read until the update ends.
        _lock: F,
    },
    /// In an emulator's variable file. Its changes are written at once, before the journal that has them done: a cut before
    /// that leaves none of them made, and a journal that has all of them to be made.
    File {
        /// The path of the file.
        path: String,
        /// Its lock, which is held from before the file is read until the update ends.
        lock: FileLock<F>,
        /// The changes that aren't written yet.
        due: Vec<DueChange>,
    },
}

/// A place, and the file of its journal.
#[derive(Drop)]
pub struct PlaceStorage<'a, R: Files> {
    /// What reaches them.
    pub(crate) rt: &'a R,
    /// The place.
    pub(crate) place: Place<R::File>,
    /// What its machine is called.
    pub(crate) identity: Identity,
    /// The path of the journal.
    pub(crate) journal: String,
    /// What is kept beside the journal.
    pub(crate) notes: Rc<KeptNotes>,
    /// What is being done.
    pub(crate) moves: Moves,
    /// The names of the variables that this run has begun to write, since its changes are made for the first time.
    pub(crate) begun: Vec<String>,
}

impl<R: Files<File: OutputFile> + Input + Print + AllocGlobal> Storage for PlaceStorage<'_, R> {
    type Refusal = Failure;

    fn make(&mut self, change: &Change) -> Result<(), CallError<Failure>> {
        let has_begun = self.begun.iter().any(|name| name.as_str() == change.name());
        match self.moves.way(has_begun) {
            Way::Whatever => make_in(self.rt, &mut self.place, change).map_err(call_error),
            Way::IfUnchanged => self.make_first(change).map_err(call_error),
            Way::NotAtAll => Ok(()),
        }
    }

    fn has_made(&mut self, change: &Change) -> bool {
        is_made_in(self.rt, &self.place, change)
    }

    fn replace_journal(&mut self, journal: &Journal) -> Result<(), CallError<Failure>> {
        let is_idle = journal.is_idle();
        if is_idle {
            self.write_due().map_err(call_error)?;
        } else {
            self.forget_due();
            // Also if that fails: it may be there nevertheless, and is taken back then.
            self.moves = self.moves.after(is_idle);
        }
        self.replace(journal).map_err(call_error)?;
        if is_idle {
            self.moves = self.moves.after(is_idle);
            self.begun.clear();
        }
        Ok(())
    }

    fn has_replaced(&mut self, journal: &Journal) -> bool {
        self.may_have(journal)
    }
}

impl<R: Files<File: OutputFile> + Input + Print + AllocGlobal> PlaceStorage<'_, R> {
    /// Makes the change for the first time, if the variable is what was read of it.
    fn make_first(&mut self, change: &Change) -> Result<(), Failure> {
        let alloc = self.rt.alloc();
        self.begun.push(String::from_str(alloc, change.name())?)?;
        let made = make_first_in(self.rt, &mut self.place, change);
        if let Err(failure) = &made
            && is_untouched(failure)
        {
            let _ = self.begun.pop();
        }
        made
    }
}

impl<R: Files<File: OutputFile> + Input + Print + AllocGlobal> PlaceStorage<'_, R> {
    /// Writes the changes of a variable file that aren't written yet. If it fails before something is written, nothing is to be
    /// taken back of those that are made for the first time: another program may have put a file of its own there.
    fn write_due(&mut self) -> Result<(), Failure> {
        let Place::File { path, lock, due } = &mut self.place else {
            return Ok(());
        };
        let made = bytes_due(self.rt, path, due);
        due.clear();
        let written = match made {
            Ok(None) => Ok(()),
            Ok(Some(bytes)) => match write_due(self.rt, path, lock, &bytes) {
                Err(failure) if !is_untouched(&failure) => return Err(failure),
                written => written,
            },
            Err(failure) => Err(failure),
        };
        if written.is_err() && matches!(self.moves, Moves::First) {
            self.begun.clear();
        }
        written
    }

    /// Forgets the changes of a variable file that aren't written yet: an update is begun, or taken back without them.
    fn forget_due(&mut self) {
        if let Place::File { due, .. } = &mut self.place
            && !due.is_empty()
        {
            due.clear();
            self.begun.clear();
        }
    }
}

/// Whether a change failed so before anything was written.
fn is_untouched(failure: &Failure) -> bool {
    matches!(
        failure,
        Failure::Refused {
            reason: Reason::ChangedMeanwhile | Reason::NotWritten,
            ..
        }
    )
}

impl<R: Files<File: OutputFile> + AllocGlobal> PlaceStorage<'_, R> {
    /// Replaces the journal's file by that of this journal, unless it would be longer than what is read of one.
    ///
    /// # Errors
    ///
    /// [`Failure::Refused`] if it would be too long, [`Failure::Write`] with the system's reason, and [`Failure::Memory`] if
    /// memory was refused.
    pub(crate) fn replace(&self, journal: &Journal) -> Result<(), Failure> {
        let alloc = self.rt.alloc();
        let path = self.journal.as_str();
        let bytes = self.file_of(journal)?;
        if bytes.len() > LIMIT {
            return Err(too_long(alloc, path, bytes.len()));
        }
        match replace_file(self.rt, path, &bytes) {
            Ok(()) => Ok(()),
            Err(error) => Err(Failure::from_write(alloc, path, error)),
        }
    }

    /// Whether notes are kept beside the journal.
    pub(crate) fn has_notes(&self) -> bool {
        match self.notes.try_borrow() {
            Ok(notes) => notes.is_some(),
            Err(_) => true,
        }
    }

    /// Replaces the journal's file by that of this journal, with these notes beside it.
    ///
    /// # Errors
    ///
    /// As of [`PlaceStorage::replace`]: nothing is kept beside the journal then.
    pub(crate) fn replace_with(&self, notes: Notes, journal: &Journal) -> Result<(), Failure> {
        let _ = self.notes.try_replace(Some(notes));
        let replaced = self.replace(journal);
        if replaced.is_err() {
            let _ = self.notes.try_replace(None);
        }
        replaced
    }

    /// The bytes of the journal's file, with what is kept beside the journal. This fails only when out of memory.
    fn file_of(&self, journal: &Journal) -> Result<Vec<u8>, AllocError> {
        let alloc = self.rt.alloc();
        let file = write_journal(alloc, &self.identity.name, journal)?;
        let Ok(notes) = self.notes.try_borrow() else {
            return Err(AllocError);
        };
        match &*notes {
            Some(notes) => with_notes(alloc, notes, &file),
            None => Ok(file),
        }
    }

    /// Whether the journal's file is that of this journal, or that can't be told: then it may be so, and is to be taken
    /// back.
    fn may_have(&self, journal: &Journal) -> bool {
        let Ok(bytes) = self.file_of(journal) else {
            return true;
        };
        match read_regular(self.rt, self.journal.as_str(), LIMIT) {
            Ok(RegularFile::Bytes(stored)) => stored == bytes,
            Ok(RegularFile::TooMuch | RegularFile::Irregular) => false,
            Err(error) => error.kind() != ErrorKind::NotFound,
        }
    }
}

/// Makes the change in the place, if the variable is what was read of it.
fn make_first_in<R: Files<File: OutputFile> + Input + Print + AllocGlobal>(
    rt: &R,
    place: &mut Place<R::File>,
    change: &Change,
) -> Result<(), Failure> {
    let kept = KeptChange {
        name: change.name(),
        before: change.before(),
        after: change.after(),
    };
    match place {
        // It is what no set can hold, so what was read of it says nothing of what it has.
        Place::Folder { path, folder, .. } if is_left_out(folder, kept.name) => {
            set_in_folder(rt, (path, folder), kept.name, kept.after)
        }
        Place::Folder { path, folder, .. } => match change_variable(rt, folder, path, &kept) {
            Ok(()) => Ok(()),
            Err(fault) => Err(from_change(rt.alloc(), path, folder.shown(kept.name), fault)),
        },
        Place::File { due, .. } => Ok(due.push(DueChange::new(rt.alloc(), change, true)?)?),
    }
}

/// Whether no set can hold what the folder showed of the variable of this name.
fn is_left_out(folder: &Folder, name: &str) -> bool {
    folder
        .found
        .left_out
        .iter()
        .any(|left_out| left_out.as_str() == name)
}

/// Makes the change in the place, whatever is there.
fn make_in<R: Files<File: OutputFile> + Input + Print + AllocGlobal>(
    rt: &R,
    place: &mut Place<R::File>,
    change: &Change,
) -> Result<(), Failure> {
    let (name, kept) = (change.name(), change.after());
    match place {
        Place::Folder { path, folder, .. } => set_in_folder(rt, (path, folder), name, kept),
        Place::File { due, .. } => Ok(due.push(DueChange::new(rt.alloc(), change, false)?)?),
    }
}

/// Sets the variable of this name to what is to be kept of it in the folder at this path, whatever is there.
fn set_in_folder<R: Files + AllocGlobal>(
    rt: &R,
    (path, folder): (&str, &Folder),
    name: &str,
    kept: Option<&[u8]>,
) -> Result<(), Failure> {
    match set_variable(rt, folder, path, name, kept) {
        Ok(()) => Ok(()),
        Err(fault) => Err(from_change(rt.alloc(), path, folder.shown(name), fault)),
    }
}

/// Whether the change is made in the place. What can't be read counts as not made.
fn is_made_in<R: Files + Input + AllocGlobal>(
    rt: &R,
    place: &Place<R::File>,
    change: &Change,
) -> bool {
    let (name, kept) = (change.name(), change.after());
    match place {
        Place::Folder { path, folder, .. } => {
            has_value(rt, folder, path, name, kept).unwrap_or(false)
        }
        Place::File { path, .. } => is_in_file(rt, path, change).unwrap_or(false),
    }
}

/// What it is to the program that the journal at this path would have so many bytes.
fn too_long(alloc: Global, path: &str, len: usize) -> Failure {
    Failure::from_fault(
        alloc,
        path,
        format_args!("the update takes a journal of {len} bytes, and at most {LIMIT} are read"),
    )
}

/// What it is to an update that something failed.
fn call_error(failure: Failure) -> CallError<Failure> {
    match failure {
        Failure::Memory => CallError::OutOfMemory,
        failure => CallError::Refused(failure),
    }
}

/// What it is to the program that the variable of this name can't be changed in the folder at this path.
pub fn from_change<N: Display + Drop>(
    alloc: Global,
    path: &str,
    name: N,
    fault: ChangeFault,
) -> Failure {
    let Ok(name) = format!(in alloc; "{path}: {name}") else {
        return Failure::Memory;
    };
    let name = name.as_str();
    match fault {
        ChangeFault::Changed => Failure::refused(alloc, name, Reason::ChangedMeanwhile),
        ChangeFault::Irregular => Failure::refused(alloc, name, Reason::NotWritten),
        ChangeFault::System(error) => Failure::from_write(alloc, name, error),
    }
}
