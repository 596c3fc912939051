//! What is noted of a run of requests beside the journal.

ghost use Rattle.std.specs.Prelude.{IfOk};
ghost use Rattle.boot_updates.specs.Told.{AreToldBy};

use boot_notes::Notes;
use boot_requests::{Answer, Event};
use journaled_requests::NotedRun;
use std::alloc::{AllocError, Global};
use wanted_changes::KeptNotes;

/// What is told of a run by notes.
#[derive(Drop)]
pub struct Noted {
    /// What was kept before the run.
    pub before: Option<Notes>,
    /// Of each event whether it is a repeat of the frame that was applied under its number, if it is a repeat and that is
    /// known.
    pub same: Vec<Option<bool>>,
}

/// Notes which frames these events applied in a run that began with this next number, by the answers to them.
///
/// # Errors
///
/// [`AllocError`] if memory was refused: nothing is kept any more then, so nothing is to be written.
pub(crate) fn note_run(
    alloc: Global,
    kept: &KeptNotes,
    next_number: u32,
    events: &[Event],
    answers: &[Answer],
) -> Result<Noted, AllocError>
    ensures { IfOk result (λ noted. AreToldBy noted.before next_number events.now answers.now noted.same.items) }
{
    let Ok(before) = kept.try_take() else {
        return Err(AllocError);
    };
    match before {
        Some(before) => {
            let NotedRun { notes, same } = NotedRun::new(
                alloc,
                &before,
                next_number,
                events,
                answers,
            )?;
            let _ = kept.try_replace(Some(notes));
            Ok(Noted {
                before: Some(before),
                same,
            })
        }
        None => Ok(Noted {
            before: None,
            same: vec![in alloc; None; answers.len()]?,
        }),
    }
}
