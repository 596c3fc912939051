//! What is kept beside a journal for those who send requests.

use crate::opened::Machine as PlaceMachine;
use crate::storage::PlaceStorage;
use boot_journal::Machine;
use boot_notes::{IDENTITY_LEN, Notes};
use messages::Failure;
use std::fs::{File, OpenFile};
use std::io::Read;
use std::rc::Rc;
use std::rt::Files;
use wanted_changes::KeptNotes;
use whole_files::OutputFile;

/// What draws identities.
const RANDOM: &str = "/dev/urandom";

/// Notes with a new identity, if the system draws one.
fn new_notes<R: Files + AllocGlobal>(rt: &R) -> Option<Notes> {
    let mut identity = [0; IDENTITY_LEN];
    let mut source = File::open(rt, RANDOM).ok()?;
    source.read_exact(&mut identity).ok()?;
    Some(Notes::new(rt.alloc(), identity))
}

/// Begins notes beside the journal of the machine, with an identity, if there are none and the system draws one.
///
/// # Errors
///
/// As of the storage's replacing of the journal: no notes are kept then.
pub fn begin_notes<R: Files<File: OutputFile> + Input + Print + AllocGlobal>(
    rt: &R,
    machine: &PlaceMachine<'_, R>,
) -> Result<(), Failure> {
    let storage = machine.storage();
    if storage.has_notes() {
        return Ok(());
    }
    match new_notes(rt) {
        Some(notes) => storage.replace_with(notes, &machine.read_journal(rt.alloc())?),
        None => Ok(()),
    }
}

/// The notes that the storage writes with the journal. This fails only when out of memory.
pub fn notes_of<R: Files>(storage: &PlaceStorage<'_, R>) -> Result<Rc<KeptNotes>, Failure> {
    Ok(Rc::clone(&storage.notes)?)
}
