//! What a run leaves to be kept beside a journal, and to be told.

ghost use Rattle.std.specs.Prelude.{◌≡◌, [], IfOk};
ghost use Rattle.boot_notes.specs.Notes.{after_run, kept_before};
ghost use Rattle.journaled_requests.specs.Applied.{sent_of, applied_in};
ghost use Rattle.journaled_requests.specs.Same.{AreTold};

use crate::applied::Sent;
use boot_notes::{FrameDigest, Notes};
use boot_requests::{Answer, Event};
use std::alloc::{AllocError, Global};

/// What a run leaves to be kept beside a journal, and to be told.
#[derive(Debug, Drop)]
pub struct NotedRun {
    /// The notes after the run.
    pub notes: Notes,
    /// Of each event whether it is a repeat of the frame that was applied under its number: `None` if it is no repeat, or no
    /// digest of that frame is kept.
    pub same: Vec<Option<bool>>,
}

impl NotedRun {
    /// The notes after a run of these events that began with this next number and with these notes, by the answers to them,
    /// one each, and what is to be told of each event.
    ///
    /// The notes are those after a run that applied these frames, as [`Notes::after_run`] says. What came as a request that
    /// was applied before is compared with the last [`KEPT_MAX`](boot_notes::KEPT_MAX) that the run applied up to then, and
    /// otherwise with as many before it.
    ///
    /// # Errors
    ///
    /// [`AllocError`] if memory was refused.
    pub fn new(
        alloc: Global,
        before: &Notes,
        next_number: u32,
        events: &[Event],
        answers: &[Answer],
    ) -> Result<NotedRun, AllocError>
        ensures notes { IfOk result (λ run. run.notes ≡ after_run before.now next_number (applied_in events.now answers.now)) }
        ensures same { IfOk result (λ run.
            AreTold (kept_before before.now next_number) (sent_of [] []) events.now answers.now run.same.items) }
    {
        let digests = before.kept_before(alloc, next_number)?;
        let (applied, same) = follow(alloc, &digests, events, answers)?;
        let notes = before.after_run(alloc, next_number, &applied)?;
        Ok(NotedRun { notes, same })
    }
}

/// The digests of the frames that these events applied, by the answers to them, in their order; and what is to be told of
/// each event, if these digests were kept before.
fn follow(
    alloc: Global,
    before: &[FrameDigest],
    events: &[Event],
    answers: &[Answer],
) -> Result<(Vec<FrameDigest>, Vec<Option<bool>>), AllocError>
    ensures applied { IfOk result (λ done. done.0.items ≡ applied_in events.now answers.now) }
    ensures same { IfOk result (λ done. AreTold before.now (sent_of [] []) events.now answers.now done.1.items) }
{
    let mut sent = Sent::new(alloc);
    let mut same = Vec::new(alloc);
    for (event, answer) in events.iter().zip(answers) {
        same.push(sent.is_same(before, event, answer))?;
        sent.take(event, answer)?;
    }
    Ok((sent.applied, same))
}
