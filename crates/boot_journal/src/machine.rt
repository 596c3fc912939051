//! Machines, as updates see them.

ghost use Rattle.std.specs.Prelude.{◌≡◌, ◌↔◌, IsTrue, Option, None, [], ◌∷◌, ℕ, List, IfOk, OnOk};
ghost use Rattle.boot_journal.specs.Cause.{HasCause, HaveFailed, failures_of};
ghost use Rattle.boot_journal.specs.declared.machine.CallError.{CallError};
ghost use Rattle.boot_journal.specs.Moments.{Leaves, IsRecorded};
ghost use Rattle.boot_journal.specs.Store.{Store, with_made, with_journal, seen, IsEither};

use crate::change::Change;
use crate::journal::Journal;
use std::alloc::{AllocError, AllocFailed, Global};
use uefi_vars::Vars;

/// Why a machine, or a run, didn't do what it was asked to.
#[derive(Debug, Drop)]
pub enum CallError<E> {
    /// Memory was refused.
    OutOfMemory,
    /// It was refused, for this reason.
    Refused(E),
}

/// Why an update, or a settling, failed.
#[derive(Debug, Drop)]
pub enum UpdateError<E> {
    /// Memory was refused before the first move: nothing was done.
    OutOfMemory,
    /// A move was refused, of the journal or of a variable, and the update is taken back: it hasn't happened.
    TakenBack(CallError<E>),
    /// A move was refused, for the first reason, and then a move of taking the update back, for the second. Without a second
    /// reason it was a settling that was taking an update back already. The journal keeps what is to be done, unless the move
    /// that was refused last was made nevertheless, and the next settling goes on with it: the update may still happen, so
    /// don't take it for one that failed.
    Unsettled(CallError<E>, Option<CallError<E>>),
}

impl<E> From<AllocError> for UpdateError<E> {
    ghost use Rattle.std.specs.Prelude.{◌≡◌};
    ghost use Rattle.boot_journal.specs.declared.machine.UpdateError.TheVariants.{OutOfMemory};

    ghost from_gives = { λ _ error. error ≡ OutOfMemory };

    fn from(_refusal: AllocError) -> UpdateError<E> {
        UpdateError::OutOfMemory
    }
}

/// Why a command failed.
#[derive(Debug, Drop)]
pub enum CommandError<E, F> {
    /// What was to be done from before wasn't settled. Nothing was run.
    Settling(UpdateError<E>),
    /// Memory was refused. Nothing was changed.
    OutOfMemory,
    /// The run refused the variables, for this fault. Nothing was changed.
    Run(F),
    /// The update failed.
    Updating(UpdateError<E>),
}

impl<E, F> From<AllocError> for CommandError<E, F> {
    ghost use Rattle.std.specs.Prelude.{◌≡◌};
    ghost use Rattle.boot_journal.specs.declared.machine.CommandError.TheVariants.{OutOfMemory};

    ghost from_gives = { λ _ error. error ≡ OutOfMemory };

    fn from(_refusal: AllocError) -> CommandError<E, F> {
        CommandError::OutOfMemory
    }
}

impl<E> From<AllocError> for CallError<E> {
    ghost use Rattle.std.specs.Prelude.{◌≡◌};
    ghost use Rattle.boot_journal.specs.declared.machine.CallError.TheVariants.{OutOfMemory};

    ghost from_gives = { λ _ error. error ≡ OutOfMemory };

    fn from(_refusal: AllocError) -> CallError<E> {
        CallError::OutOfMemory
    }
}

/// A machine: the variables of its firmware, and its journal. Under the name of a variable of the boot manager
/// (Boot####, BootOrder, BootNext or Timeout) it keeps the variable's attributes, in [`ATTRIBUTES_LEN`](uefi_vars::ATTRIBUTES_LEN)
/// bytes, and then its data, and under another name data alone. Each change of a variable is whole or isn't made, and
/// so is each replacement of the journal.
pub trait Machine {
    /// Why the machine refuses something.
    type Refusal: Drop;

    /// What is there now.
    ghost store: { Self → Store };

    /// What was there after each move, and after each that was refused, the first one first: what a cut at that moment would
    /// have left.
    ghost history: { Self → List Store };

    /// How often the machine refused a move.
    ghost refusals: { Self → ℕ };

    /// The errors with which moves failed, the first one first, if it tells that.
    ghost failures: { Self → Option (List (CallError Self.Refusal)) } = { λ _. None };

    /// The variables of the firmware, those of the boot manager with their attributes, and BootKeepState, which the
    /// journal keeps. This fails only if memory is refused.
    fn read_vars(&self, alloc: Global) -> Result<Vars, AllocError>
        ensures { IfOk result (λ vars. vars ≡ seen (store self.now)) };

    /// The journal. This fails only if memory is refused.
    fn read_journal(&self, alloc: Global) -> Result<Journal, AllocError>
        ensures { IfOk result (λ journal. journal ≡ (store self.now).journal) };

    /// Whether the journal has nothing that is still to be done.
    fn is_idle(&self) -> bool
        ensures { IsTrue result ↔ ((store self.now).journal.pending ≡ None) };

    /// Makes the change of one variable, with its attributes.
    fn make(&mut self, change: &Change) -> Result<(), CallError<Self::Refusal>>
        ensures cause { HasCause (refusals self.old) (refusals self.new) result }
        ensures failed { HaveFailed (failures self.old) (failures self.new) (failures_of result) }
        ensures made { OnOk result (store self.new ≡ with_made (change.now ∷ []) (store self.old)) }
        ensures recorded { IsRecorded (store self.old) (store self.new) (history self.old) (history self.new) }
        ensures whole { IsEither (store self.old) (with_made (change.now ∷ []) (store self.old)) (store self.new) }
        ensures moments { Leaves (IsEither (store self.old) (with_made (change.now ∷ []) (store self.old))) (history self.old) (history self.new) };

    /// Replaces the journal.
    fn replace_journal(&mut self, journal: &Journal) -> Result<(), CallError<Self::Refusal>>
        ensures cause { HasCause (refusals self.old) (refusals self.new) result }
        ensures failed { HaveFailed (failures self.old) (failures self.new) (failures_of result) }
        ensures replaced { OnOk result (store self.new ≡ with_journal journal.now (store self.old)) }
        ensures recorded { IsRecorded (store self.old) (store self.new) (history self.old) (history self.new) }
        ensures whole { IsEither (store self.old) (with_journal journal.now (store self.old)) (store self.new) }
        ensures moments { Leaves (IsEither (store self.old) (with_journal journal.now (store self.old))) (history self.old) (history self.new) };
}
