//! How commands ended whose moves C made.

ghost use Rattle.std.specs.Prelude.{◌≡◌};
ghost use Rattle.bootkeep_c.specs.Ends.{end_of, end_numbers, happened, update_end, reason_number, second_number, run_fault_number, refusal_number, kind_of, TellsEnd, TellsReply, answer_at};

use crate::edit::{EDITED_ADDED, EDITED_DONE, EDITED_PRESENT};
use crate::failure::Failure;
use crate::refusal::{
    MACHINE_NO_DATA, MACHINE_TOO_LONG, NO_KIND, VARS_BAD_NEXT, VARS_BAD_ORDER, VARS_BAD_STATE,
};
use crate::reply::ReplyNumbers;
use crate::set::NO_ENTRY;
use crate::status::{ABSENT, DONE};
use crate::wanted_run::{RunAnswer, RunRefusal};
use boot_edits::{EditAnswer, EditRunFault};
use boot_journal::{CallError, CommandError, UpdateError};
use boot_requests::OpenFault;
use journaled_requests::RunFault;

/// The change has happened.
pub const END_DONE: u32 = 1;

/// What an earlier command has left was refused and is taken back, and nothing was run.
pub const END_NOT_RUN: u32 = 2;

/// What an earlier command has left was refused and isn't taken back yet, and nothing was run.
pub const END_NOT_SETTLED: u32 = 3;

/// The run refused the variables, and nothing was changed.
pub const END_RUN_REFUSED: u32 = 4;

/// A move was refused, and the change is taken back.
pub const END_TAKEN_BACK: u32 = 5;

/// A move was refused, and the change isn't taken back yet.
pub const END_UNSETTLED: u32 = 6;

/// Memory was refused, and nothing was changed.
pub const END_NO_MEMORY: u32 = 7;

/// How many bytes the struct of an end has.
pub(crate) const END_LEN: usize = 40;

/// How a command ended: `struct bootkeep_moves_end`.
#[repr(C)]
#[derive(Clone, Copy, Debug, PartialEq, Eq)]
pub struct EndNumbers {
    /// How many bytes the caller's struct has.
    pub size: usize,
    /// How it ended.
    pub kind: u32,
    /// The caller's number of why a move was refused, or 0.
    pub reason: u32,
    /// The caller's number of why a move that takes it back was refused, or 0.
    pub second_reason: u32,
    /// Why the run refused the variables, or [`NO_KIND`].
    pub fault: u32,
    /// How many replies there are.
    pub replies: usize,
    /// Whether an edit added an entry, or found it.
    pub edited: u32,
    /// The number of that entry, or [`NO_ENTRY`].
    pub entry: u32,
}

// As many bytes as the header asserts.
const _: () = prove!(size_of::<EndNumbers>() == END_LEN);

impl EndNumbers {
    /// How it ended.
    fn of(size: usize, ended: &Result<RunAnswer, CommandError<u32, RunRefusal>>) -> EndNumbers
        ensures { result ≡ end_numbers size ended.now }
    {
        match ended {
            Ok(answer) => EndNumbers::happened(size, answer),
            Err(CommandError::Settling(error)) => {
                EndNumbers::of_update(size, END_NOT_RUN, END_NOT_SETTLED, error)
            }
            Err(CommandError::Run(fault)) => {
                EndNumbers::new(size, END_RUN_REFUSED, 0, 0, refusal_number(fault))
            }
            Err(CommandError::Updating(error)) => {
                EndNumbers::of_update(size, END_TAKEN_BACK, END_UNSETTLED, error)
            }
            Err(CommandError::OutOfMemory) => EndNumbers::new(size, END_NO_MEMORY, 0, 0, NO_KIND),
        }
    }

    /// The change has happened, with this answer.
    fn happened(size: usize, answer: &RunAnswer) -> EndNumbers
        ensures { result ≡ happened size answer.now }
    {
        let done = EndNumbers::new(size, END_DONE, 0, 0, NO_KIND);
        match answer {
            RunAnswer::Done | RunAnswer::Edited(EditAnswer::Done) => done,
            RunAnswer::Replies(replied) => EndNumbers {
                replies: replied.answers.len(),
                ..done
            },
            RunAnswer::Edited(EditAnswer::Added(entry)) => EndNumbers {
                edited: EDITED_ADDED,
                entry: u32::from(*entry),
                ..done
            },
            RunAnswer::Edited(EditAnswer::Present(entry)) => EndNumbers {
                edited: EDITED_PRESENT,
                entry: u32::from(*entry),
                ..done
            },
        }
    }

    /// How an update or a settling failed, if these numbers say that it was taken back, and that it wasn't.
    fn of_update(size: usize, back: u32, unsettled: u32, error: &UpdateError<u32>) -> EndNumbers
        ensures { result ≡ update_end size back unsettled error.now }
    {
        match error {
            UpdateError::OutOfMemory => EndNumbers::new(size, END_NO_MEMORY, 0, 0, NO_KIND),
            UpdateError::TakenBack(why) => EndNumbers::new(size, back, reason_of(why), 0, NO_KIND),
            UpdateError::Unsettled(why, second) => {
                EndNumbers::new(size, unsettled, reason_of(why), second_of(second), NO_KIND)
            }
        }
    }

    /// An end of this kind, with no reply and no entry.
    fn new(size: usize, kind: u32, reason: u32, second_reason: u32, fault: u32) -> EndNumbers
        ensures { result ≡ end_of size kind reason second_reason fault }
    {
        EndNumbers {
            size,
            kind,
            reason,
            second_reason,
            fault,
            replies: 0,
            edited: EDITED_DONE,
            entry: NO_ENTRY,
        }
    }
}

/// The caller's number of why a move was refused.
fn reason_of(why: &CallError<u32>) -> u32
    ensures { result ≡ reason_number why.now }
{
    match why {
        CallError::OutOfMemory => 0,
        CallError::Refused(reason) => *reason,
    }
}

/// The same of a second move, if there is one.
fn second_of(why: &Option<CallError<u32>>) -> u32
    ensures { result ≡ second_number why.now }
{
    match why {
        Some(why) => reason_of(why),
        None => 0,
    }
}

/// The number of why the run refused the variables.
fn refusal_number(refusal: &RunRefusal) -> u32
    ensures { result ≡ refusal_number refusal.now }
{
    match refusal {
        RunRefusal::Frames(fault) => fault_number(fault),
        RunRefusal::Edit(EditRunFault::Edit(fault)) => kind_of(Failure::from(*fault)),
        RunRefusal::Edit(EditRunFault::NoData) => MACHINE_NO_DATA,
        RunRefusal::Edit(EditRunFault::TooLong) => MACHINE_TOO_LONG,
    }
}

/// The number of the kind of a failure.
fn kind_of(failure: Failure) -> u32
    ensures { result ≡ kind_of failure }
{
    match failure {
        Failure::Refused(refusal) => refusal.kind,
        Failure::Memory => NO_KIND,
    }
}

/// The number of why frames are refused.
fn fault_number(fault: &RunFault) -> u32
    ensures { result ≡ run_fault_number fault.now }
{
    match fault {
        RunFault::Open(OpenFault::BadOrder) => VARS_BAD_ORDER,
        RunFault::Open(OpenFault::BadNext) => VARS_BAD_NEXT,
        RunFault::Open(OpenFault::BadState) => VARS_BAD_STATE,
        RunFault::Open(OpenFault::OutOfMemory) => NO_KIND,
        RunFault::NoData => MACHINE_NO_DATA,
        RunFault::TooLong => MACHINE_TOO_LONG,
    }
}

/// Tells how a command ended, if it did.
pub(crate) fn tell_end(
    ended: &Option<Result<RunAnswer, CommandError<u32, RunRefusal>>>,
    end: &mut EndNumbers,
) -> u32
    ensures { TellsEnd ended.now result end.old end.new }
{
    match ended {
        Some(ended) => {
            *end = EndNumbers::of(end.size, ended);
            DONE
        }
        None => ABSENT,
    }
}

/// Tells the reply at this place, if there is one.
pub(crate) fn tell_reply(
    ended: &Option<Result<RunAnswer, CommandError<u32, RunRefusal>>>,
    place: usize,
    reply: &mut ReplyNumbers,
) -> u32
    ensures { TellsReply (answer_at ended.now place) result reply.old reply.new }
{
    let Some(Ok(RunAnswer::Replies(replied))) = ended else {
        return ABSENT;
    };
    match replied.answers.get(place) {
        Some(answer) => {
            *reply = ReplyNumbers::of(reply.size, &answer.reply);
            DONE
        }
        None => ABSENT,
    }
}
