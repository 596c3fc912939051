//! The machine in a place, with its journal.

use crate::boot_identity::boot_id;
use crate::kept_vars::{KeptVars, kept_of};
use crate::moves::Moves;
use crate::owner::{Identity, identity_of, own_journal};
use crate::state_folder::{StoredJournal, stored_with_notes};
use crate::storage::{Place, PlaceStorage};
use crate::told::tell_of_settling;
use boot_journal::{BootId, Journal, Recorded};
use messages::{Failure, Reason};
use std::alloc::Global;
use std::cell::RefCell;
use std::rc::Rc;
use std::rt::Files;
use uefi_vars::Vars;
use var_places::{
    FileKind, PlaceVars, STANDARD, check_damage, file_kind, is_folder, lock_place_file,
    lock_place_folder, name_of, no_place, read_folder, read_variables, set_vars, variable_file,
};
use wanted_changes::{KeptNotes, MachineWords};
use whole_files::OutputFile;

/// A machine in a place, with its journal.
pub type Machine<'a, R> = Recorded<PlaceStorage<'a, R>>;

/// A place that was read, and what its machine keeps. It is locked until this is dropped.
#[derive(Drop)]
pub struct OpenedPlace<F> {
    pub(crate) place: Place<F>,
    pub kept: KeptVars,
}

/// The folder or the variable file at the path of the words, locked: another state folder doesn't keep its changes from this
/// place. Tells on standard error what is left out of its variables.
///
/// # Errors
///
/// [`Failure::Read`] and [`Failure::Write`] with the system's reason; [`Failure::Refused`] if it is neither of the two, or is
/// damaged; [`Failure::Held`] if somebody else has its lock; and [`Failure::Memory`] if memory was refused.
pub fn open_place<R: Files<File: OutputFile> + Input + Eprint + AllocGlobal>(
    rt: &R,
    words: &MachineWords<'_>,
) -> Result<OpenedPlace<R::File>, Failure> {
    if is_folder(rt, words.place)? {
        open_folder(rt, words)
    } else {
        open_file(rt, words)
    }
}

/// What the machine in the place keeps, of a folder or a variable file that is read and isn't to be written: so no lock is
/// taken. Tells on standard error what is left out of its variables.
///
/// # Errors
///
/// As of [`open_place`].
pub fn read_kept<R: Files + Input + Eprint + AllocGlobal>(
    rt: &R,
    words: &MachineWords<'_>,
) -> Result<KeptVars, Failure> {
    let path = words.place;
    if is_folder(rt, path)? {
        kept_of(
            rt.alloc(),
            path,
            true,
            read_folder(rt, path, words.family)?.found,
        )
    } else {
        kept_of_file(rt, words)
    }
}

/// The machine in a place that was opened, with the journal at this path, and the identity of its start. Tells on standard
/// error what finishing an earlier update will do that wasn't meant. A journal that named no machine names this one then, and
/// so does another machine's that is to be taken over.
///
/// # Errors
///
/// [`Failure::Words`] if the identity of the start is needed and isn't given, or it or the machine's name isn't one;
/// [`Failure::Read`] and [`Failure::Write`] with the system's reason; [`Failure::Refused`] if the journal is damaged, or is
/// another machine's; and [`Failure::Memory`] if memory was refused.
pub fn open_machine<'a, R: Files<File: OutputFile> + Input + Print + Eprint + AllocGlobal>(
    rt: &'a R,
    words: &MachineWords<'_>,
    opened: OpenedPlace<R::File>,
    journal_path: &str,
) -> Result<(Machine<'a, R>, BootId), Failure> {
    let boot = boot_id(rt, words, opened.kept.is_folder)?;
    let storage = storage_of(rt, words, opened, journal_path)?;
    Ok((machine_over(words, storage, &boot)?, boot))
}

/// A place that was opened, with the journal at this path.
fn storage_of<'a, R: Files<File: OutputFile> + AllocGlobal>(
    rt: &'a R,
    words: &MachineWords<'_>,
    opened: OpenedPlace<R::File>,
    journal_path: &str,
) -> Result<OpenedStorage<'a, R>, Failure> {
    let BesidePlace {
        identity,
        journal,
        notes,
    } = beside_place(rt, words, opened.kept.is_folder, journal_path)?;
    let OpenedPlace { place, kept } = opened;
    Ok(OpenedStorage {
        storage: PlaceStorage {
            rt,
            place,
            identity,
            journal,
            notes,
            moves: Moves::Idle,
            begun: Vec::new(rt.alloc()),
        },
        vars: kept.vars,
    })
}

/// What storage has beside its place.
#[derive(Drop)]
struct BesidePlace {
    /// What its machine is called.
    identity: Identity,
    /// The path of the journal.
    journal: String,
    /// What is kept beside the journal.
    notes: Rc<KeptNotes>,
}

/// What storage has beside its place, before the journal is read.
fn beside_place<R: Files + AllocGlobal>(
    rt: &R,
    words: &MachineWords<'_>,
    is_folder: bool,
    journal_path: &str,
) -> Result<BesidePlace, Failure> {
    Ok(BesidePlace {
        identity: identity_of(rt, words, is_folder)?,
        journal: String::from_str(rt.alloc(), journal_path)?,
        notes: Rc::new(rt.alloc(), RefCell::new(None))?,
    })
}

/// The machine over storage, with the journal that is stored there.
fn machine_over<'a, R: Files<File: OutputFile> + Input + Print + Eprint + AllocGlobal>(
    words: &MachineWords<'_>,
    opened: OpenedStorage<'a, R>,
    boot: &BootId,
) -> Result<Machine<'a, R>, Failure> {
    let journal = journal_for(words, &opened, boot)?;
    let OpenedStorage { mut storage, vars } = opened;
    if !journal.is_idle() {
        storage.moves = Moves::Settling;
    }
    Ok(Recorded::new(storage.rt.alloc(), storage, vars, journal)?)
}

/// The journal that is stored there, as its machine's own. Tells what finishing an earlier update will do that wasn't
/// meant.
fn journal_for<R: Files<File: OutputFile> + Input + Print + Eprint + AllocGlobal>(
    words: &MachineWords<'_>,
    opened: &OpenedStorage<'_, R>,
    boot: &BootId,
) -> Result<Journal, Failure> {
    let OpenedStorage { storage, vars } = opened;
    let stored = match stored_with_notes(storage.rt, storage.journal.as_str())? {
        Some(StoredJournal { notes, file }) => {
            // Nothing else holds them as yet.
            let _ = storage.notes.try_replace(notes);
            Some(file)
        }
        None => None,
    };
    let journal = own_journal(words, storage, stored, vars)?;
    tell_of_settling(storage.rt, words, vars, &journal, boot)?;
    Ok(journal)
}

/// Storage, and what its machine keeps of the variables.
#[derive(Drop)]
struct OpenedStorage<'a, R: Files> {
    storage: PlaceStorage<'a, R>,
    vars: Vars,
}

/// The folder at the path of the words as a place. It is locked before it is read.
fn open_folder<R: Files<File: OutputFile> + Eprint + AllocGlobal>(
    rt: &R,
    words: &MachineWords<'_>,
) -> Result<OpenedPlace<R::File>, Failure> {
    let alloc = rt.alloc();
    let path = words.place;
    let lock = lock_place_folder(rt, path)?;
    let folder = read_folder(rt, path, words.family)?;
    let kept = kept_of(alloc, path, true, folder.found.copy(alloc)?)?;
    let path = String::from_str(alloc, path)?;
    Ok(OpenedPlace {
        place: Place::Folder {
            path,
            folder,
            _lock: lock,
        },
        kept,
    })
}

/// The variable file at the path of the words as a place. It is locked before it is read.
fn open_file<R: Files<File: OutputFile> + Input + Eprint + AllocGlobal>(
    rt: &R,
    words: &MachineWords<'_>,
) -> Result<OpenedPlace<R::File>, Failure> {
    let alloc = rt.alloc();
    let path = words.place;
    if path == STANDARD {
        return Err(Failure::refused(alloc, name_of(path), Reason::Standard));
    }
    let lock = lock_place_file(rt, path)?;
    let kept = kept_of_file(rt, words)?;
    let path = String::from_str(alloc, path)?;
    Ok(OpenedPlace {
        place: Place::File {
            path,
            lock,
            due: Vec::new(alloc),
        },
        kept,
    })
}

/// What the machine of the variable file at the path of the words keeps.
fn kept_of_file<R: Files + Input + Eprint + AllocGlobal>(
    rt: &R,
    words: &MachineWords<'_>,
) -> Result<KeptVars, Failure> {
    let KeptFile { bytes: _, kept } = read_kept_file(rt, words)?;
    Ok(kept)
}

/// A variable file or a set file that was read.
#[derive(Drop)]
pub struct KeptFile {
    /// Its bytes.
    pub bytes: Vec<u8>,
    /// What its machine keeps, or would keep of the set.
    pub kept: KeptVars,
}

/// The set file at this path.
///
/// # Errors
///
/// [`Failure::Read`] with the system's reason; [`Failure::Refused`] if it is damaged; and [`Failure::Memory`] if memory was
/// refused.
pub fn read_kept_set<R: Files + Input + AllocGlobal>(
    rt: &R,
    path: &str,
) -> Result<KeptFile, Failure> {
    let alloc = rt.alloc();
    let bytes = read_variables(rt, path)?;
    let found = PlaceVars {
        vars: set_vars(alloc, path, &bytes)?,
        attributes: Vars::new(alloc),
        left_out: Vec::new(alloc),
    };
    let kept = kept_of(alloc, path, false, found)?;
    Ok(KeptFile { bytes, kept })
}

/// The variable file at the path of the words. Tells on standard error what is left out of its variables.
///
/// # Errors
///
/// [`Failure::Read`] with the system's reason; [`Failure::Refused`] if it is none, or is damaged; and [`Failure::Memory`] if
/// memory was refused.
pub fn read_kept_file<R: Files + Input + Eprint + AllocGlobal>(
    rt: &R,
    words: &MachineWords<'_>,
) -> Result<KeptFile, Failure> {
    let alloc = rt.alloc();
    let path = words.place;
    let bytes = read_variables(rt, path)?;
    check_kind(alloc, path, &bytes)?;
    if !words.force {
        check_damage(alloc, path, &bytes)?;
    }
    let kept = kept_of(alloc, path, false, variable_file(rt, path, &bytes)?)?;
    Ok(KeptFile { bytes, kept })
}

/// Refuses a file with these bytes, unless it is a variable file.
fn check_kind(alloc: Global, path: &str, bytes: &[u8]) -> Result<(), Failure> {
    match file_kind(bytes) {
        FileKind::VariableFile => Ok(()),
        FileKind::Set => Err(Failure::refused(alloc, path, Reason::SetPlace)),
        FileKind::Other => Err(no_place(alloc, path, bytes)),
    }
}
