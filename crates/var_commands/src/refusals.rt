//! What is told of an update that wasn't made, as JSON.

use boot_journal::Journal;
use boot_updates::{NotMade, next_number};
use machine_storage::{StoredJournal, journal_path, set_value, stored_with_notes};
use messages::{Failure, print};
use request_texts::{Refusal, refusal_json};
use std::alloc::{AllocError, Global};
use std::rt::Files;
use uefi_vars::{KEEP_STATE, Vars};
use wanted_changes::{MachineWords, digits_of};

/// Prints why an update of the machine wasn't made, as JSON, unless it is that the words are wrong or that nobody reads. If
/// that can't be printed either, the status and standard error tell it alone.
pub(crate) fn print_refusal<R: Files + Print + AllocGlobal>(
    rt: &R,
    words: &MachineWords<'_>,
    not_made: &NotMade,
) {
    if matches!(&not_made.failure, Failure::Words(_) | Failure::Closed) {
        return;
    }
    if let Ok(text) = refusal_text(rt, words, not_made) {
        let _ = print(rt, text.as_bytes());
    }
}

/// Why an update of the machine wasn't made, as JSON.
fn refusal_text<R: Files + AllocGlobal>(
    rt: &R,
    words: &MachineWords<'_>,
    not_made: &NotMade,
) -> Result<String, AllocError> {
    let alloc = rt.alloc();
    let failure = &not_made.failure;
    let text = format!(in alloc; "{failure}")?;
    let kind = not_made.kind(alloc)?;
    let Told { next, identity } = told_now(rt, words)?;
    let journal = identity.as_deref();
    let refusal = Refusal {
        kind: kind.as_str(),
        count: not_made.count(),
        words: text.as_str(),
        remedy: not_made.remedy(),
        next,
        journal,
    };
    refusal_json(alloc, &refusal)
}

/// What can be told of a journal without its lock.
#[derive(Drop)]
struct Told {
    /// The next number, if it is known, and nothing is left to do.
    next: Option<u32>,
    /// The identity, in hexadecimal digits, if it has one.
    identity: Option<String>,
}

/// What is told of the journal as it is stored now: nothing of one that can't be read.
fn told_now<R: Files + AllocGlobal>(rt: &R, words: &MachineWords<'_>) -> Result<Told, AllocError> {
    let alloc = rt.alloc();
    let path = journal_path(alloc, words.state)?;
    match stored_with_notes(rt, path.as_path().as_str()) {
        Ok(Some(stored)) => told_of(alloc, &stored),
        _ => Ok(Told {
            next: None,
            identity: None,
        }),
    }
}

/// What is told of this journal.
fn told_of(alloc: Global, stored: &StoredJournal) -> Result<Told, AllocError> {
    Ok(Told {
        next: settled_next(alloc, &stored.file.journal)?,
        identity: digits_of(alloc, stored.notes.as_ref())?,
    })
}

/// The next number by a journal, if it can be read, and nothing is left to do.
fn settled_next(alloc: Global, journal: &Journal) -> Result<Option<u32>, AllocError> {
    if !journal.is_idle() {
        return Ok(None);
    }
    let mut state = Vars::new(alloc);
    set_value(&mut state, KEEP_STATE, journal.state())?;
    next_number(alloc, state)
}
