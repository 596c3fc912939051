//! Notes after commands whose moves C made, and what they tell of frames that came again.

ghost use Rattle.std.specs.Prelude.{◌≡◌, ◌≢◌, IfOk, IfErr, IfSome, IfNone};
ghost use Rattle.std.specs.Option.{option_map};
ghost use Rattle.bootkeep_c.specs.declared.failure.Failure.{Failure};
ghost use Rattle.bootkeep_c.specs.Status.{closed};
ghost use Rattle.bootkeep_c.specs.Answers.{Finds, FindsValue};
ghost use Rattle.bootkeep_c.specs.Buffer.{IsKept};
ghost use Rattle.bootkeep_c.specs.Notes.{IsNotesFailure};
ghost use Rattle.bootkeep_c.specs.Noted.{ran_by, ran_of, AreNotesAfter, AreToldOf, HasNotRun, IsSameAt, IsNoFrame, same_number};

use crate::answer::{answer_found, tell_found};
use crate::failure::Failure;
use crate::refusal::Refusal;
use crate::session::Session;
use crate::session_handle::MovesHandle;
use crate::status::CLOSED;
use crate::wanted_run::{RunAnswer, WantedRun};
use boot_notes::{split_notes, with_notes};
use boot_requests::{Answer, Event};
use journaled_requests::NotedRun;
use std::alloc::Global;

/// The frame is no repeat of one that was applied, or no digest of that one is kept.
pub const SAME_UNKNOWN: u32 = 0;

/// The frame is the one that was applied under its number.
pub const SAME_YES: u32 = 1;

/// Another frame was applied under its number.
pub const SAME_NO: u32 = 2;

/// Frames that a command ran, and what they were answered.
#[derive(Clone, Copy)]
pub(crate) struct Ran<'a> {
    /// The number that was to be applied next before them.
    pub(crate) first: u32,
    /// Their deliveries.
    pub(crate) events: &'a [Event],
    /// The answer to each.
    pub(crate) answers: &'a [Answer],
}

/// The notes after a command of frames that has happened, from those before it.
#[unsafe(no_mangle)]
pub extern "C" fn bootkeep_moves_notes(
    alloc: Global,
    moves: &mut MovesHandle,
    notes: &[u8],
    out: &mut [u8],
    len: &mut usize,
    refusal: &mut Refusal,
) -> u32
    ensures notes { IfSome moves.old.seal.kept (λ from. Finds (AreNotesAfter notes.now (ran_by from.wanted from.ended))
        (HasNotRun (ran_by from.wanted from.ended)) (IsNotesFailure notes.now)
        result out.old out.new len.old len.new refusal.old refusal.new) }
    ensures closed { IfNone moves.old.seal.kept ((result ≡ closed) × IsKept out.old out.new len.old len.new
        × (refusal.new ≡ refusal.old)) }
    ensures untouched { moves.new.seal.kept ≡ moves.old.seal.kept }
{
    let Some(session) = moves.take(alloc) else {
        return CLOSED;
    };
    let status = give_notes(alloc, session.as_ref(), notes, out, len, refusal);
    *moves = MovesHandle::opened(session);
    status
}

/// Gives the notes after what the command ran.
fn give_notes(
    alloc: Global,
    session: &Session,
    notes: &[u8],
    out: &mut [u8],
    len: &mut usize,
    refusal: &mut Refusal,
) -> u32
    ensures { Finds (AreNotesAfter notes.now (ran_by session.now.wanted session.now.ended))
        (HasNotRun (ran_by session.now.wanted session.now.ended)) (IsNotesFailure notes.now)
        result out.old out.new len.old len.new refusal.old refusal.new }
{
    let found = notes_after(alloc, ran_of(session), notes);
    answer_found(found, out, len, refusal)
}

/// The frames that the command ran, if it is one of frames and has happened.
fn ran_of(session: &Session) -> Option<Ran<'_>>
    ensures { option_map (λ it. ran_of it.first it.events.now it.answers.now) result
        ≡ ran_by session.now.wanted session.now.ended }
{
    let WantedRun::Frames(events) = &session.wanted else {
        return None;
    };
    match &session.ended {
        Some(Ok(RunAnswer::Replies(replied))) => Some(Ran {
            first: replied.first,
            events,
            answers: &replied.answers,
        }),
        _ => None,
    }
}

/// The bytes of the notes after these frames, from those that these bytes begin with: none if they don't.
fn notes_after(
    alloc: Global,
    ran: Option<Ran<'_>>,
    bytes: &[u8],
) -> Result<Option<Vec<u8>>, Failure>
    ensures found { IfOk result (λ found. IfSome found (λ notes. AreNotesAfter bytes.now
        (option_map (λ it. ran_of it.first it.events.now it.answers.now) ran.entry) notes.items)) }
    ensures none { IfOk result (λ found. IfNone found
        (HasNotRun (option_map (λ it. ran_of it.first it.events.now it.answers.now) ran.entry))) }
    ensures fault { IfErr result (λ failed. failed ≢ Failure.Memory → IsNotesFailure bytes.now failed) }
{
    let Some(ran) = ran else {
        return Ok(None);
    };
    let Some(split) = split_notes(alloc, bytes)? else {
        return Ok(Some(Vec::new(alloc)));
    };
    let noted = NotedRun::new(alloc, &split.notes, ran.first, ran.events, ran.answers)?;
    Ok(Some(with_notes(alloc, &noted.notes, &[])?))
}

/// Whether a frame that came again is the one that was applied under its number, by its place among those that were run.
#[unsafe(no_mangle)]
pub extern "C" fn bootkeep_moves_same(
    alloc: Global,
    moves: &mut MovesHandle,
    notes: &[u8],
    place: usize,
    same: &mut u32,
    refusal: &mut Refusal,
) -> u32
    ensures same { IfSome moves.old.seal.kept (λ from. FindsValue (IsSameAt notes.now (ran_by from.wanted from.ended) place)
        (IsNoFrame notes.now (ran_by from.wanted from.ended) place) (IsNotesFailure notes.now)
        result same.old same.new refusal.old refusal.new) }
    ensures closed { IfNone moves.old.seal.kept ((result ≡ closed) × (same.new ≡ same.old) × (refusal.new ≡ refusal.old)) }
    ensures untouched { moves.new.seal.kept ≡ moves.old.seal.kept }
{
    let Some(session) = moves.take(alloc) else {
        return CLOSED;
    };
    let status = tell_same(alloc, session.as_ref(), notes, place, same, refusal);
    *moves = MovesHandle::opened(session);
    status
}

/// Tells whether the frame at this place is the one that was applied under its number.
fn tell_same(
    alloc: Global,
    session: &Session,
    notes: &[u8],
    place: usize,
    same: &mut u32,
    refusal: &mut Refusal,
) -> u32
    ensures { FindsValue (IsSameAt notes.now (ran_by session.now.wanted session.now.ended) place)
        (IsNoFrame notes.now (ran_by session.now.wanted session.now.ended) place) (IsNotesFailure notes.now)
        result same.old same.new refusal.old refusal.new }
{
    tell_found(same_at(alloc, ran_of(session), notes, place), same, refusal)
}

/// The number that tells whether the frame at this place is the one that was applied under its number, if there is one.
fn same_at(
    alloc: Global,
    ran: Option<Ran<'_>>,
    bytes: &[u8],
    place: usize,
) -> Result<Option<u32>, Failure>
    ensures found { IfOk result (λ found. IfSome found (IsSameAt bytes.now
        (option_map (λ it. ran_of it.first it.events.now it.answers.now) ran.entry) place)) }
    ensures none { IfOk result (λ found. IfNone found (IsNoFrame bytes.now
        (option_map (λ it. ran_of it.first it.events.now it.answers.now) ran.entry) place)) }
    ensures fault { IfErr result (λ failed. failed ≢ Failure.Memory → IsNotesFailure bytes.now failed) }
{
    let Some(ran) = ran else {
        return Ok(None);
    };
    let told = told_of(alloc, ran, bytes)?;
    match told.get(place) {
        Some(same) => Ok(Some(same_number(*same))),
        None => Ok(None),
    }
}

/// What the notes that these bytes begin with tell of each of these frames: nothing if they don't.
fn told_of(alloc: Global, ran: Ran<'_>, bytes: &[u8]) -> Result<Vec<Option<bool>>, Failure>
    ensures told { IfOk result (λ same. AreToldOf bytes.now (ran_of ran.entry.first ran.entry.events.now ran.entry.answers.now) same.items) }
    ensures fault { IfErr result (λ failed. failed ≢ Failure.Memory → IsNotesFailure bytes.now failed) }
{
    match split_notes(alloc, bytes)? {
        Some(split) => {
            let noted = NotedRun::new(alloc, &split.notes, ran.first, ran.events, ran.answers)?;
            Ok(noted.same)
        }
        None => Ok(vec![in alloc; None; ran.answers.len()]?),
    }
}

/// The number that tells whether a frame is the one that was applied.
fn same_number(same: Option<bool>) -> u32
    ensures { result ≡ same_number same }
{
    match same {
        Some(true) => SAME_YES,
        Some(false) => SAME_NO,
        None => SAME_UNKNOWN,
    }
}
