//! Commands over a machine whose moves C makes, by a handle.

ghost use Rattle.std.specs.Prelude.{◌≡◌, ◌⊎◌, ◌<◌, ◌≤◌, Some, None, IfOk, IfErr, IfSome, IfNone};
ghost use Rattle.bootkeep_c.specs.declared.session.Session.{Session};
ghost use Rattle.bootkeep_c.specs.Status.{done, closed, bad_size};
ghost use Rattle.bootkeep_c.specs.Refusals.{Tells};
ghost use Rattle.bootkeep_c.specs.Buffer.{IsKept};
ghost use Rattle.bootkeep_c.specs.SessionHandle.{session_number};
ghost use Rattle.bootkeep_c.specs.Sessions.{IsBegun, IsBegunBy, IsBegunWith, IsBeginFailure, IsUnbegunBy, IsUnbegunWith, IsBegunBack, IsUnbegunBack, Begins, SaysNext, HearsOf, GivesName, GivesBytes, became};
ghost use Rattle.bootkeep_c.specs.declared.wanted_run.WantedRun.TheVariants as wanted;
ghost use Rattle.bootkeep_c.specs.Ends.{TellsEnd, TellsReply, answer_at};

use crate::buffer::give;
use crate::edit::{EDIT_LEN, EditNumbers};
use crate::end::{END_LEN, EndNumbers, tell_end, tell_reply};
use crate::failure::Failure;
use crate::refusal::Refusal;
use crate::reply::{REPLY_LEN, ReplyNumbers};
use crate::session::{Session, became};
use crate::session_begin::{Read, begun, begun_back, begun_by, begun_with};
use crate::session_handle::{MovesHandle, MovesRoom};
use crate::status::{ABSENT, BAD_SIZE, CLOSED, DONE, NO_MEMORY};
use crate::wanted_run::WantedRun;
use boot_journal::write_journal;
use boot_moves::{Dialogue, Move};
use std::alloc::Global;

/// Begins a command that runs a stream of frames over the variables of a machine, in memory of which nothing is read.
#[unsafe(no_mangle)]
pub extern "C" fn bootkeep_moves_requests(
    alloc: Global,
    moves: &mut MovesRoom,
    machine: &[u8],
    start: &[u8],
    set: &[u8],
    journal: &[u8],
    stream: &[u8],
    refusal: &mut Refusal,
) -> u32
    // What is there owns nothing: an open command would be lost.
    requires { moves.old.seal.kept ≡ None }
    ensures begins { Begins (IsBegunBy machine.now start.now set.now journal.now stream.now)
        (IsUnbegunBy machine.now start.now set.now journal.now stream.now)
        result moves.new.seal.kept refusal.old refusal.new }
    ensures handle { moves.new.is_open ≡ session_number moves.new.seal.kept }
{
    let read = Read {
        machine,
        start,
        set,
        journal,
    };
    let begun = begun_by(alloc, read, stream);
    open_begun(alloc, begun, moves, refusal)
}

/// Begins a command that makes an edit of the variables of a machine, in memory of which nothing is read.
#[unsafe(no_mangle)]
pub extern "C" fn bootkeep_moves_edit(
    alloc: Global,
    moves: &mut MovesRoom,
    machine: &[u8],
    start: &[u8],
    set: &[u8],
    journal: &[u8],
    edit: &EditNumbers,
    numbers: &[u16],
    option: &[u8],
    refusal: &mut Refusal,
) -> u32
    // What is there owns nothing: an open command would be lost.
    requires { moves.old.seal.kept ≡ None }
    ensures size { edit.now.size < 32 → (result ≡ bad_size) × (moves.new.seal.kept ≡ None) × (refusal.new ≡ refusal.old) }
    ensures begins { 32 ≤ edit.now.size →
        Begins (IsBegunWith machine.now start.now set.now journal.now edit.now numbers.now option.now)
        (IsUnbegunWith machine.now start.now set.now journal.now edit.now numbers.now option.now)
        result moves.new.seal.kept refusal.old refusal.new }
    ensures handle { moves.new.is_open ≡ session_number moves.new.seal.kept }
{
    if edit.size < EDIT_LEN {
        moves.fill(MovesHandle::closed(alloc));
        return BAD_SIZE;
    }
    let read = Read {
        machine,
        start,
        set,
        journal,
    };
    let begun = begun_with(alloc, read, edit, numbers, option);
    open_begun(alloc, begun, moves, refusal)
}

/// Begins a command that brings the boot manager's variables of a machine back to those of a set, which has them as the
/// machine keeps them, in memory of which nothing is read.
#[unsafe(no_mangle)]
pub extern "C" fn bootkeep_moves_restore(
    alloc: Global,
    moves: &mut MovesRoom,
    machine: &[u8],
    start: &[u8],
    set: &[u8],
    journal: &[u8],
    back: &[u8],
    refusal: &mut Refusal,
) -> u32
    // What is there owns nothing: an open command would be lost.
    requires { moves.old.seal.kept ≡ None }
    ensures begins { Begins (IsBegunBack machine.now start.now set.now journal.now back.now)
        (IsUnbegunBack machine.now start.now set.now journal.now back.now)
        result moves.new.seal.kept refusal.old refusal.new }
    ensures handle { moves.new.is_open ≡ session_number moves.new.seal.kept }
{
    let read = Read {
        machine,
        start,
        set,
        journal,
    };
    let begun = begun_back(alloc, read, back);
    open_begun(alloc, begun, moves, refusal)
}

/// Begins a command that does what an earlier one has left to do, and no more, in memory of which nothing is read.
#[unsafe(no_mangle)]
pub extern "C" fn bootkeep_moves_settle(
    alloc: Global,
    moves: &mut MovesRoom,
    machine: &[u8],
    start: &[u8],
    set: &[u8],
    journal: &[u8],
    refusal: &mut Refusal,
) -> u32
    // What is there owns nothing: an open command would be lost.
    requires { moves.old.seal.kept ≡ None }
    ensures begins { Begins (IsBegun machine.now start.now set.now journal.now wanted.Nothing)
        (IsBeginFailure machine.now start.now set.now journal.now)
        result moves.new.seal.kept refusal.old refusal.new }
    ensures handle { moves.new.is_open ≡ session_number moves.new.seal.kept }
{
    let read = Read {
        machine,
        start,
        set,
        journal,
    };
    let begun = begun(alloc, read, WantedRun::Nothing);
    open_begun(alloc, begun, moves, refusal)
}

/// Writes the handle of a command that was begun, or that of none, and tells why.
fn open_begun(
    alloc: Global,
    begun: Result<Box<Session>, Failure>,
    moves: &mut MovesRoom,
    refusal: &mut Refusal,
) -> u32
    requires { moves.old.seal.kept ≡ None }
    ensures opened { IfOk begun (λ session. (result ≡ done) × (moves.new.seal.kept ≡ Some session.value) × (refusal.new ≡ refusal.old)) }
    ensures told { IfErr begun (λ failed. Tells failed result refusal.old refusal.new × (moves.new.seal.kept ≡ None)) }
    ensures handle { moves.new.is_open ≡ session_number moves.new.seal.kept }
{
    match begun {
        Ok(session) => {
            moves.fill(MovesHandle::opened(session));
            DONE
        }
        Err(failure) => {
            moves.fill(MovesHandle::closed(alloc));
            failure.tell(refusal)
        }
    }
}

/// Asks what comes next, by what was told so far.
#[unsafe(no_mangle)]
pub extern "C" fn bootkeep_moves_next(alloc: Global, moves: &mut MovesHandle, kind: &mut u32) -> u32
    ensures next { IfSome moves.old.seal.kept (λ from. (to : Session) × (moves.new.seal.kept ≡ Some to)
        × SaysNext result from to kind.old kind.new) }
    ensures closed { IfNone moves.old.seal.kept ((result ≡ closed) × (moves.new.seal.kept ≡ None) × (kind.new ≡ kind.old)) }
{
    let Some(mut session) = moves.take(alloc) else {
        return CLOSED;
    };
    let status = say_next(session.as_mut(), kind);
    *moves = MovesHandle::opened(session);
    status
}

/// Says what comes next.
fn say_next(session: &mut Session, kind: &mut u32) -> u32
    ensures { SaysNext result session.old session.new kind.old kind.new }
{
    match session.next() {
        Ok(number) => {
            *kind = number;
            DONE
        }
        Err(_) => NO_MEMORY,
    }
}

/// Tells what became of the move that is asked for.
#[unsafe(no_mangle)]
pub extern "C" fn bootkeep_moves_tell(
    alloc: Global,
    moves: &mut MovesHandle,
    what: u32,
    reason: u32,
) -> u32
    ensures heard { IfSome moves.old.seal.kept (λ from. (to : Session) × (moves.new.seal.kept ≡ Some to)
        × HearsOf (became what reason) result from to) }
    ensures closed { IfNone moves.old.seal.kept ((result ≡ closed) × (moves.new.seal.kept ≡ None)) }
{
    let Some(mut session) = moves.take(alloc) else {
        return CLOSED;
    };
    let status = session.as_mut().tell(became(what, reason));
    *moves = MovesHandle::opened(session);
    status
}

/// The name of the variable that is to be set or deleted.
#[unsafe(no_mangle)]
pub extern "C" fn bootkeep_moves_name(
    alloc: Global,
    moves: &mut MovesHandle,
    out: &mut [u8],
    len: &mut usize,
) -> u32
    ensures name { IfSome moves.old.seal.kept (λ from. GivesName from.dialogue.asked result out.old out.new len.old len.new) }
    ensures closed { IfNone moves.old.seal.kept ((result ≡ closed) × IsKept out.old out.new len.old len.new) }
    ensures untouched { moves.new.seal.kept ≡ moves.old.seal.kept }
{
    let Some(session) = moves.take(alloc) else {
        return CLOSED;
    };
    let status = give_name(&session.as_ref().dialogue, out, len);
    *moves = MovesHandle::opened(session);
    status
}

/// Gives the name of the variable that is to be set or deleted.
fn give_name(dialogue: &Dialogue, out: &mut [u8], len: &mut usize) -> u32
    ensures { GivesName dialogue.now.asked result out.old out.new len.old len.new }
{
    match dialogue.asked() {
        Some(Move::Set(name, _) | Move::Delete(name)) => give(name.as_bytes(), out, len),
        Some(Move::Replace(_)) | None => ABSENT,
    }
}

/// The bytes to which the variable is to be set, or those by which the journal's file is to be replaced.
#[unsafe(no_mangle)]
pub extern "C" fn bootkeep_moves_bytes(
    alloc: Global,
    moves: &mut MovesHandle,
    out: &mut [u8],
    len: &mut usize,
) -> u32
    ensures bytes { IfSome moves.old.seal.kept (λ from.
        GivesBytes from.dialogue.machine from.dialogue.asked result out.old out.new len.old len.new) }
    ensures closed { IfNone moves.old.seal.kept ((result ≡ closed) × IsKept out.old out.new len.old len.new) }
    ensures untouched { moves.new.seal.kept ≡ moves.old.seal.kept }
{
    let Some(session) = moves.take(alloc) else {
        return CLOSED;
    };
    let status = give_bytes(alloc, &session.as_ref().dialogue, out, len);
    *moves = MovesHandle::opened(session);
    status
}

/// Gives the bytes to which a variable is to be set, or those of the journal's file.
fn give_bytes(alloc: Global, dialogue: &Dialogue, out: &mut [u8], len: &mut usize) -> u32
    ensures { GivesBytes dialogue.now.machine dialogue.now.asked result out.old out.new len.old len.new }
{
    match dialogue.asked() {
        Some(Move::Set(_, kept)) => give(kept, out, len),
        Some(Move::Replace(journal)) => match write_journal(alloc, dialogue.machine(), journal) {
            Ok(bytes) => give(&bytes, out, len),
            Err(_) => NO_MEMORY,
        },
        Some(Move::Delete(_)) | None => ABSENT,
    }
}

/// How the command ended.
#[unsafe(no_mangle)]
pub extern "C" fn bootkeep_moves_end(
    alloc: Global,
    moves: &mut MovesHandle,
    end: &mut EndNumbers,
) -> u32
    ensures size { end.old.size < 40 → (result ≡ bad_size) × (end.new ≡ end.old) }
    ensures end { 40 ≤ end.old.size → IfSome moves.old.seal.kept (λ from. TellsEnd from.ended result end.old end.new) }
    ensures closed { 40 ≤ end.old.size → IfNone moves.old.seal.kept ((result ≡ closed) × (end.new ≡ end.old)) }
    ensures untouched { moves.new.seal.kept ≡ moves.old.seal.kept }
{
    if end.size < END_LEN {
        return BAD_SIZE;
    }
    let Some(session) = moves.take(alloc) else {
        return CLOSED;
    };
    let status = tell_end(&session.as_ref().ended, end);
    *moves = MovesHandle::opened(session);
    status
}

/// The reply to a frame, by its place among those that were run, as a value.
#[unsafe(no_mangle)]
pub extern "C" fn bootkeep_moves_reply(
    alloc: Global,
    moves: &mut MovesHandle,
    place: usize,
    reply: &mut ReplyNumbers,
) -> u32
    ensures size { reply.old.size < 64 → (result ≡ bad_size) × (reply.new ≡ reply.old) }
    ensures reply { 64 ≤ reply.old.size → IfSome moves.old.seal.kept (λ from.
        TellsReply (answer_at from.ended place) result reply.old reply.new) }
    ensures closed { 64 ≤ reply.old.size → IfNone moves.old.seal.kept ((result ≡ closed) × (reply.new ≡ reply.old)) }
    ensures untouched { moves.new.seal.kept ≡ moves.old.seal.kept }
{
    if reply.size < REPLY_LEN {
        return BAD_SIZE;
    }
    let Some(session) = moves.take(alloc) else {
        return CLOSED;
    };
    let status = tell_reply(&session.as_ref().ended, place, reply);
    *moves = MovesHandle::opened(session);
    status
}

/// Gives up what the command holds.
#[unsafe(no_mangle)]
pub extern "C" fn bootkeep_moves_close(alloc: Global, moves: &mut MovesHandle) -> u32
    ensures left { moves.new.seal.kept ≡ None }
    ensures was_open { IfSome moves.old.seal.kept (λ _. result ≡ done) }
    ensures was_closed { IfNone moves.old.seal.kept (result ≡ closed) }
{
    match moves.take(alloc) {
        Some(open) => {
            drop(open);
            DONE
        }
        None => CLOSED,
    }
}
