//! What is kept beside a journal for those who send requests.

use boot_notes::{IDENTITY_LEN, Notes};
use std::alloc::{AllocError, Global};
use std::cell::RefCell;

/// The notes beside a journal, which a run adds to, and which are written with the journal: `None` if there are none.
pub type KeptNotes = RefCell<Option<Notes>>;

/// The identity that is kept beside a journal, if one is.
pub fn journal_identity(notes: &KeptNotes) -> Option<[u8; IDENTITY_LEN]> {
    let notes = notes.try_borrow().ok()?;
    Some((*notes).as_ref()?.identity())
}

/// The identity in hexadecimal digits, if there are notes. This fails only when out of memory.
pub fn identity_digits(alloc: Global, notes: &KeptNotes) -> Result<Option<String>, AllocError> {
    match notes.try_borrow() {
        Ok(notes) => digits_of(alloc, (*notes).as_ref()),
        Err(_) => Ok(None),
    }
}

/// The identity of these notes in hexadecimal digits. This fails only when out of memory.
pub fn digits_of(alloc: Global, notes: Option<&Notes>) -> Result<Option<String>, AllocError> {
    match notes {
        Some(notes) => Ok(Some(hex::encode(alloc, &notes.identity())?)),
        None => Ok(None),
    }
}
