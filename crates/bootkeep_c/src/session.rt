//! What C has open while it changes a machine: what it and a command said to each other, and what that runs.

ghost use Rattle.std.specs.Prelude.{◌≡◌, OnErr, IfOk, IfSome};
ghost use Rattle.boot_moves.specs.Deeds.{act_of};
ghost use Rattle.bootkeep_c.specs.Sessions.{SaysMove, HearsOf, act_number, became};

use crate::status::{ABSENT, DONE};
use crate::wanted_run::{RunAnswer, RunRefusal, Running, WantedRun};
use boot_journal::CommandError;
use boot_moves::{Answer as Became, Dialogue, Move, Next};
use std::alloc::AllocError;

/// No move comes next: the command ended.
pub const MOVE_NONE: u32 = 0;

/// A variable is to be set.
pub const MOVE_SET: u32 = 1;

/// A variable is to be deleted.
pub const MOVE_DELETE: u32 = 2;

/// The journal's file is to be replaced.
pub const MOVE_JOURNAL: u32 = 3;

/// The move is made.
pub const BECAME_DONE: u32 = 0;

/// The move was refused, and isn't made.
pub const BECAME_REFUSED: u32 = 1;

/// The move was refused, and may be made nevertheless.
pub const BECAME_PERHAPS: u32 = 2;

/// A command over a machine whose moves C makes.
#[derive(Drop)]
pub struct Session {
    /// What was said.
    pub(crate) dialogue: Dialogue,
    /// What is run.
    pub(crate) wanted: WantedRun,
    /// How it ended, if it did.
    pub(crate) ended: Option<Result<RunAnswer, CommandError<u32, RunRefusal>>>,
}

impl Session {
    /// Asks for what comes next, and gives its number. This fails only if memory is refused, and nothing has happened then.
    pub(crate) fn next(&mut self) -> Result<u32, AllocError>
        ensures says { IfOk result (λ kind. SaysMove self.old self.new kind) }
        ensures refused { OnErr result (self.new ≡ self.old) }
    {
        match self.dialogue.next(Running {
            wanted: &self.wanted,
        })? {
            Next::Move => {
                self.ended = None;
                Ok(move_number(self.dialogue.asked()))
            }
            Next::Ended(ended) => {
                self.ended = Some(ended);
                Ok(MOVE_NONE)
            }
        }
    }

    /// Tells what became of the move that is asked for, if one is, and gives the status of that.
    pub(crate) fn tell(&mut self, answer: Became) -> u32
        ensures { HearsOf answer result self.old self.new }
    {
        if self.dialogue.tell(answer) {
            DONE
        } else {
            ABSENT
        }
    }
}

/// The number of a move, if one is asked for.
fn move_number(asked: Option<&Move>) -> u32
    ensures { IfSome asked.entry (λ it. result ≡ act_number (act_of it.now)) }
{
    match asked {
        Some(Move::Set(_, _)) => MOVE_SET,
        Some(Move::Delete(_)) => MOVE_DELETE,
        Some(Move::Replace(_)) => MOVE_JOURNAL,
        None => MOVE_NONE,
    }
}

/// What became of a move, by its number.
pub(crate) fn became(number: u32, reason: u32) -> Became
    ensures { result ≡ became number reason }
{
    match number {
        BECAME_DONE => Became::Done,
        BECAME_REFUSED => Became::Refused(reason),
        _ => Became::Perhaps(reason),
    }
}
