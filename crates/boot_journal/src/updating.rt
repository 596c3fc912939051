//! Updates, and what settles them.

ghost use Rattle.std.specs.Prelude.{◌≡◌, ◌⊎◌, ◌<◌, ◌≤◌, true, false, Some, IfErr, OnOk, OnErr};
ghost use Rattle.boot_journal.specs.Working.{IsGoingOn, IsTakenBack, IsUndertaking, IsGivenUp};
ghost use Rattle.boot_journal.specs.Cause.{HasCause, HasUpdateCause, IsCausedBy, IfNothingDone, IfTakenBack, IfUntried, IfTried};
ghost use Rattle.boot_journal.specs.Cause.{HaveFailed, failures_of, update_failures, second_in};
ghost use Rattle.boot_journal.specs.declared.machine.CallError.TheVariants as CallError;
ghost use Rattle.boot_journal.specs.declared.machine.UpdateError.TheVariants as UpdateError;
ghost use Rattle.boot_journal.specs.Journal.{is_making};
ghost use Rattle.boot_journal.specs.Moments.{Leaves};
ghost use Rattle.boot_journal.specs.Moves.{IsMaking, IsCarrying, IsSettling, IsUpdating, settled};
ghost use Rattle.boot_journal.specs.Store.{with_made, with_journal, IsIdle, IsFrontStore, IsBeforeOrAfter, IsSettledOrTakenBack, updated, stands_for, falls_back_to};

use crate::boot_id::BootId;
use crate::change::Change;
use crate::journal::Journal;
use crate::laws::keep_is_no_boot_name;
use crate::machine::{CallError, Machine, UpdateError};
use crate::work::Work;
use std::alloc::Global;
use uefi_vars::{Vars, laws as vars_laws};

/// Makes the changes, one after the other.
fn make_all<M: Machine>(machine: &mut M, changes: &[Change]) -> Result<(), CallError<M::Refusal>>
    ensures cause { HasCause (M.refusals machine.old) (M.refusals machine.new) result }
    ensures failed_moves { HaveFailed (M.failures machine.old) (M.failures machine.new) (failures_of result) }
    ensures done { OnOk result (M.store machine.new ≡ with_made changes.now (M.store machine.old)) }
    ensures failed { OnErr result (IsFrontStore changes.now (M.store machine.old) (M.store machine.new)) }
    ensures moments { Leaves (IsFrontStore changes.now (M.store machine.old)) (M.history machine.old) (M.history machine.new) }
{
    for change in changes {
        machine.make(change)?;
    }
    Ok(())
}

/// Makes the changes, and then replaces the journal by the last one.
fn finish<M: Machine>(
    machine: &mut M,
    changes: &[Change],
    last: &Journal,
) -> Result<(), CallError<M::Refusal>>
    ensures cause { HasCause (M.refusals machine.old) (M.refusals machine.new) result }
    ensures failed_moves { HaveFailed (M.failures machine.old) (M.failures machine.new) (failures_of result) }
    ensures done { OnOk result (M.store machine.new ≡ with_journal last.now (with_made changes.now (M.store machine.old))) }
    ensures amid { IsMaking changes.now last.now (M.store machine.old) (M.store machine.new) }
    ensures moments { Leaves (IsMaking changes.now last.now (M.store machine.old)) (M.history machine.old) (M.history machine.new) }
{
    make_all(machine, changes)?;
    machine.replace_journal(last)
}

/// Replaces the journal, makes the changes that it has due, and replaces it by the last one.
fn carry_out<M: Machine>(machine: &mut M, work: &Work) -> Result<(), CallError<M::Refusal>>
    ensures cause { HasCause (M.refusals machine.old) (M.refusals machine.new) result }
    ensures failed_moves { HaveFailed (M.failures machine.old) (M.failures machine.new) (failures_of result) }
    ensures done { OnOk result (M.store machine.new
        ≡ with_journal work.now.last (with_made work.now.due.items (M.store machine.old))) }
    ensures amid { IsCarrying work.now.journal work.now.due.items work.now.last (M.store machine.old) (M.store machine.new) }
    ensures moments { Leaves (IsCarrying work.now.journal work.now.due.items work.now.last (M.store machine.old))
        (M.history machine.old) (M.history machine.new) }
{
    machine.replace_journal(&work.journal)?;
    finish(machine, &work.due, &work.last)
}

/// Takes back what was refused for this cause, and tells what came of it.
fn take_back<M: Machine>(
    machine: &mut M,
    back: &Work,
    cause: CallError<M::Refusal>,
) -> UpdateError<M::Refusal>
    ensures later { M.refusals machine.old ≤ M.refusals machine.new }
    ensures cause { IsCausedBy cause result }
    ensures failed_moves { HaveFailed (M.failures machine.old) (M.failures machine.new) (second_in result) }
    ensures second { (refusal : M.Refusal) → result ≡ UpdateError.Unsettled cause (Some (CallError.Refused refusal)) →
        M.refusals machine.old < M.refusals machine.new }
    ensures done { IfTakenBack result (M.store machine.new
        ≡ with_journal back.now.last (with_made back.now.due.items (M.store machine.old))) }
    ensures amid { IsCarrying back.now.journal back.now.due.items back.now.last (M.store machine.old) (M.store machine.new) }
    ensures moments { Leaves (IsCarrying back.now.journal back.now.due.items back.now.last (M.store machine.old))
        (M.history machine.old) (M.history machine.new) }
{
    match carry_out(machine, back) {
        Ok(()) => UpdateError::TakenBack(cause),
        Err(second) => UpdateError::Unsettled(cause, Some(second)),
    }
}

/// Does what is to be done by a journal that is there, or takes it back if the machine refuses a change.
fn go_on<M: Machine>(
    machine: &mut M,
    work: &Work,
    back: &Work,
) -> Result<(), UpdateError<M::Refusal>>
    ensures cause { HasUpdateCause (M.refusals machine.old) (M.refusals machine.new) result }
    ensures failed_moves { HaveFailed (M.failures machine.old) (M.failures machine.new) (update_failures result) }
    ensures done { OnOk result (M.store machine.new
        ≡ with_journal work.now.last (with_made work.now.due.items (M.store machine.old))) }
    ensures something { IfErr result (λ error. IfNothingDone error ⊥) }
    ensures taken_back { IfErr result (λ error. IfTakenBack error
        (IsTakenBack work.now back.now (M.store machine.old) (M.store machine.new))) }
    ensures tried { IfErr result (λ error. IfUntried error (is_making work.now.journal.pending ≡ false)) }
    ensures only_tried { IfErr result (λ error. IfTried error (is_making work.now.journal.pending ≡ true)) }
    ensures left { IsGoingOn work.now back.now (M.store machine.old) (M.store machine.new) }
    ensures moments { Leaves (IsGoingOn work.now back.now (M.store machine.old)) (M.history machine.old) (M.history machine.new) }
{
    match finish(machine, &work.due, &work.last) {
        Ok(()) => Ok(()),
        Err(cause) => {
            if work.journal.is_making() {
                Err(take_back(machine, back, cause))
            } else {
                Err(UpdateError::Unsettled(cause, None))
            }
        }
    }
}

/// Settles a machine: makes or takes back what its journal owes, and replaces it by one that owes nothing. It may be cut off
/// at any moment, and is then done again. The identity is that of the machine's start. If what is owed began under another
/// one, the machine was started in between, and a change of BootNext takes it out, since that start may have used it.
///
/// # Errors
///
/// [`UpdateError::OutOfMemory`] if memory was refused before the first move. [`UpdateError::TakenBack`] if the machine
/// refused a move: the earlier update that the journal is of is then taken back, and hasn't happened, also if a start in
/// between used its BootNext. [`UpdateError::Unsettled`] if it refused to take changes back: the next settling goes on with
/// that.
#[tactic(auto, using(crate::proofs::Settling::still_settling, crate::proofs::Failures::untouched, crate::proofs::Failures::none_failed))]
pub fn settle<M: Machine>(
    alloc: Global,
    machine: &mut M,
    boot: &BootId,
) -> Result<(), UpdateError<M::Refusal>>
    ensures cause { HasUpdateCause (M.refusals machine.old) (M.refusals machine.new) result }
    ensures failed_moves { HaveFailed (M.failures machine.old) (M.failures machine.new) (update_failures result) }
    ensures done { OnOk result (M.store machine.new ≡ settled boot.now (M.store machine.old)) }
    ensures nothing { IfErr result (λ error. IfNothingDone error (M.store machine.new ≡ M.store machine.old)) }
    ensures taken_back { IfErr result (λ error. IfTakenBack error
        (IsIdle (M.store machine.new) × (stands_for boot.now (M.store machine.new) ≡ falls_back_to boot.now (M.store machine.old)))) }
    ensures tried { IfErr result (λ error. IfUntried error (is_making (M.store machine.old).journal.pending ≡ false)) }
    ensures only_tried { IfErr result (λ error. IfTried error (is_making (M.store machine.old).journal.pending ≡ true)) }
    // With nothing to be done, there is no move.
    ensures unmoved { IsIdle (M.store machine.old) → M.history machine.new ≡ M.history machine.old }
    // Whatever is cut off when, the machine stands for what it stood for, or for what that falls back to.
    ensures any_moment { Leaves (IsSettledOrTakenBack boot.now (M.store machine.old)) (M.history machine.old) (M.history machine.new) }
    // What is there then, and after each move.
    ensures left { IsSettling boot.now (M.store machine.old) (M.store machine.new) }
    ensures moves { Leaves (IsSettling boot.now (M.store machine.old)) (M.history machine.old) (M.history machine.new) }
{
    let journal = machine.read_journal(alloc)?;
    if journal.is_idle() {
        return Ok(());
    }
    let back = Work::new(alloc, journal.turned(alloc)?, boot)?;
    let work = Work::new(alloc, journal, boot)?;
    go_on(machine, &work, &back)
}

/// Carries a journal of changes that are made out, or takes it back if the machine refuses a move. If the journal itself is
/// refused, there is nothing to take back.
fn undertake<M: Machine>(
    machine: &mut M,
    work: &Work,
    back: &Work,
) -> Result<(), UpdateError<M::Refusal>>
    requires { is_making work.now.journal.pending ≡ true }
    ensures cause { HasUpdateCause (M.refusals machine.old) (M.refusals machine.new) result }
    ensures failed_moves { HaveFailed (M.failures machine.old) (M.failures machine.new) (update_failures result) }
    ensures done { OnOk result (M.store machine.new
        ≡ with_journal work.now.last (with_made work.now.due.items (M.store machine.old))) }
    ensures something { IfErr result (λ error. IfNothingDone error ⊥) }
    ensures taken_back { IfErr result (λ error. IfTakenBack error ((M.store machine.new ≡ M.store machine.old)
        ⊎ IsGivenUp work.now back.now (M.store machine.old) (M.store machine.new))) }
    ensures tried { IfErr result (λ error. IfUntried error ⊥) }
    ensures left { IsUndertaking work.now back.now (M.store machine.old) (M.store machine.new) }
    ensures moments { Leaves (IsUndertaking work.now back.now (M.store machine.old)) (M.history machine.old) (M.history machine.new) }
{
    match machine.replace_journal(&work.journal) {
        Ok(()) => go_on(machine, work, back),
        Err(cause) => {
            if machine.is_idle() {
                Err(UpdateError::TakenBack(cause))
            } else {
                Err(take_back(machine, back, cause))
            }
        }
    }
}

/// Makes the boot manager's variables of a settled machine, and its BootKeepState, those of a set, as a whole: a cut at any
/// moment leaves a machine that settles to what was before or to what is after. If the machine is started before it is
/// settled, BootNext is gone where the update changes it. Variables of other names are left alone. If they are those
/// already, nothing is moved. The identity is that of the machine's start.
///
/// # Errors
///
/// [`UpdateError::OutOfMemory`] if memory was refused before the first move. [`UpdateError::TakenBack`] if the machine
/// refused a move: it is as it was before. [`UpdateError::Unsettled`] if it refused to take the update back too: the
/// journal keeps what is to be done, and the next settling begins with it.
#[tactic(auto, using(crate::proofs::Failures::untouched, crate::proofs::Failures::none_failed))]
pub fn update<M: Machine>(
    alloc: Global,
    machine: &mut M,
    to: &Vars,
    boot: &BootId,
) -> Result<(), UpdateError<M::Refusal>>
    requires { IsIdle (M.store machine.old) }
    ensures cause { HasUpdateCause (M.refusals machine.old) (M.refusals machine.new) result }
    ensures failed_moves { HaveFailed (M.failures machine.old) (M.failures machine.new) (update_failures result) }
    ensures done { OnOk result (M.store machine.new ≡ updated (M.store machine.old) to.now) }
    ensures nothing { IfErr result (λ error. IfNothingDone error (M.store machine.new ≡ M.store machine.old)) }
    ensures taken_back { IfErr result (λ error. IfTakenBack error (M.store machine.new ≡ M.store machine.old)) }
    ensures tried { IfErr result (λ error. IfUntried error ⊥) }
    // What leads to what is there already takes no move.
    ensures unmoved { updated (M.store machine.old) to.now ≡ M.store machine.old → M.history machine.new ≡ M.history machine.old }
    // Whatever is cut off when, the machine stands for what was before, or for what the update leads to.
    ensures any_moment { Leaves (IsBeforeOrAfter boot.now to.now (M.store machine.old)) (M.history machine.old) (M.history machine.new) }
    // What is there then, and after each move.
    ensures left { IsUpdating boot.now to.now (M.store machine.old) (M.store machine.new) }
    ensures moves { Leaves (IsUpdating boot.now to.now (M.store machine.old)) (M.history machine.old) (M.history machine.new) }
{
    vars_laws::each_change_is_needed();
    vars_laws::each_change_is_of_another_variable();
    keep_is_no_boot_name();
    let from = machine.read_vars(alloc)?;
    let journal = Journal::begin(alloc, &from, to, boot)?;
    if journal.changes_nothing() {
        return Ok(());
    }
    let back = Work::new(alloc, journal.turned(alloc)?, boot)?;
    let work = Work::new(alloc, journal, boot)?;
    undertake(machine, &work, &back)
}
