//! Runs that bring back what was there before the last change of a machine.

ghost use Rattle.std.specs.Prelude.{◌≡◌, ◌≢◌, ◌↔◌, true, false, [], map, IfOk, IfErr, IsTrue};
ghost use Rattle.std.specs.String.{string_bytes};
ghost use Rattle.uefi_vars.specs.BootChange.{changes_from};
ghost use Rattle.boot_journal.specs.Cause.{IfRefused};
ghost use Rattle.messages.specs.declared.failure.Failure.{Failure};
ghost use Rattle.place_edits.specs.declared.takeable.Takeable.{Takeable};
ghost use Rattle.place_edits.specs.declared.undo_run.UndoFault.{UndoFault};
ghost use Rattle.place_edits.specs.Undo.{CanBeUndone, IsPassedOver, IsLast, IsBroughtBack, IsThere, IsFailure, IsChangeFault, IsUndoFault, IsCounted};

use crate::brought::{brought, restored};
use crate::takeable::{Takeable, check_numbers};
use crate::undo::UndoWords;
use boot_history::{KeptRecord, remove};
use boot_journal::{CallError, Run};
use change_records::{Record, Standing, as_used, standing_of, wanted_back};
use messages::Failure;
use std::alloc::{AllocError, Global};
use std::rt::Files;
use uefi_vars::{Vars, boot_changes, laws as vars_laws};
use wanted_changes::Seen;
use whole_files::OutputFile;

/// What is to be undone.
#[derive(Drop)]
pub(crate) struct UndoRun<'a, 'w, R> {
    /// What reaches the files.
    pub(crate) rt: &'a R,
    /// The words of the undoing.
    pub(crate) words: &'a UndoWords<'w>,
    /// The changes of the machine that are kept, the last one first.
    pub(crate) changes: &'a [KeptRecord],
    /// What is known of the machine.
    pub(crate) seen: &'a Seen<'a>,
}

/// What an undoing tells.
#[derive(Drop)]
pub struct Undone {
    /// The number of the change that is undone.
    pub number: u64,
    /// What was there before the change, as the machine kept it.
    pub before: Vars,
    /// What is brought back of it.
    pub back: Takeable,
}

/// Why nothing is undone.
#[derive(Debug, Drop)]
pub enum UndoFault {
    /// Nothing is kept that could be.
    Nothing,
    /// Something else has changed since.
    Changed(ChangedSince),
    /// What is kept can't be taken away or brought back. The failure is never [`Failure::Memory`].
    Failure(Failure),
}

/// What has changed since the last change.
#[derive(Debug, Drop)]
pub struct ChangedSince {
    /// What the machine keeps now.
    pub now: Vars,
    /// The boot manager's variables after the last change.
    pub after: Vars,
    /// When that was made: how many seconds after 1970-01-01T00:00:00Z.
    pub time: u64,
}

/// What it is to a run that something failed.
pub(crate) fn call_error(failure: Failure) -> CallError<UndoFault>
    ensures { IfRefused result (λ fault. (fault ≡ UndoFault.Failure failure) × (failure ≢ Failure.Memory)) }
{
    match failure {
        Failure::Memory => CallError::OutOfMemory,
        failure => CallError::Refused(UndoFault::Failure(failure)),
    }
}

impl<R: Files<File: OutputFile> + AllocGlobal> Run for UndoRun<'_, '_, R> {
    ghost use Rattle.std.specs.Prelude.{◌≡◌, map};
    ghost use Rattle.std.specs.String.{string_bytes};
    ghost use Rattle.boot_edits.specs.Restore.{IsRestored};
    ghost use Rattle.place_edits.specs.Undo.{IsUndoing, IsUndoFault};

    type Answer = Undone;

    type Fault = UndoFault;

    ghost leads = { λ undo from to undone.
        IsUndoing undo.words.now.force undo.changes.now (map string_bytes undo.seen.now.left_out.now) from undone
        × IsRestored undone.back.vars from to };

    ghost refuses = { λ undo from fault. IsUndoFault undo.words.now.force undo.words.now.dry_run undo.changes.now
        (map string_bytes undo.seen.now.left_out.now) from fault };

    fn run(self, alloc: Global, vars: &Vars) -> Result<(Vars, Undone), CallError<UndoFault>> {
        let kept = self.last(alloc, vars)?;
        let undone = self.undone(alloc, vars, kept)?;
        let to = restored(alloc, vars, &undone.back.vars)?;
        Ok((to, undone))
    }
}

impl<R: Files<File: OutputFile> + AllocGlobal> UndoRun<'_, '_, R> {
    /// What undoing the change that is kept brings back where these variables are.
    fn undone(
        &self,
        alloc: Global,
        vars: &Vars,
        kept: &KeptRecord,
    ) -> Result<Undone, CallError<UndoFault>>
        ensures number { IfOk result (λ undone. undone.number ≡ kept.now.number) }
        ensures before { IfOk result (λ undone. undone.before ≡ kept.now.«record».before) }
        ensures back { IfOk result (λ undone.
            IsBroughtBack (map string_bytes self.now.seen.now.left_out.now) kept.now.«record» vars.now undone.back) }
        ensures refused { IfErr result (λ error. IfRefused error IsFailure) }
    {
        let back = self.back(alloc, vars, &kept.record)?;
        self.check(alloc, vars, &back.vars)?;
        Ok(Undone {
            number: kept.number,
            before: kept.record.before.copy(alloc)?,
            back,
        })
    }

    /// Refuses to bring back what firmware refuses.
    fn check(&self, alloc: Global, vars: &Vars, back: &Vars) -> Result<(), CallError<UndoFault>>
        ensures { IfErr result (λ error. IfRefused error IsFailure) }
    {
        let words = self.words;
        match check_numbers(alloc, words.machine.place, vars, back) {
            Ok(()) => Ok(()),
            Err(failure) => Err(call_error(failure)),
        }
    }

    /// The last change that was made of the machine, which keeps these variables, and isn't undone. What is kept of later ones
    /// is taken away: they weren't made, or undoing them was cut off before that.
    fn last(&self, alloc: Global, vars: &Vars) -> Result<&KeptRecord, CallError<UndoFault>>
        ensures last { IfOk result (λ kept. IsLast self.now.changes.now (map string_bytes self.now.seen.now.left_out.now) vars.now kept.now
            × CanBeUndone self.now.words.now.force (map string_bytes self.now.seen.now.left_out.now) vars.now kept.now.«record») }
        ensures refused { IfErr result (λ error. IfRefused error
            (IsUndoFault self.now.words.now.force self.now.words.now.dry_run self.now.changes.now
            (map string_bytes self.now.seen.now.left_out.now) vars.now)) }
    {
        let changes = self.changes;
        for change in changes {
            if !self.passes_over(alloc, vars, change)? {
                return Ok(change);
            }
        }
        Err(CallError::Refused(UndoFault::Nothing))
    }

    /// Whether the change is passed over, and another one is undone. What is kept of it is taken away then.
    fn passes_over(
        &self,
        alloc: Global,
        vars: &Vars,
        change: &KeptRecord,
    ) -> Result<bool, CallError<UndoFault>>
        ensures over { IfOk result (λ over. over ≡ true →
            IsPassedOver (map string_bytes self.now.seen.now.left_out.now) vars.now change.now.«record») }
        ensures last { IfOk result (λ over. over ≡ false →
            CanBeUndone self.now.words.now.force (map string_bytes self.now.seen.now.left_out.now) vars.now change.now.«record») }
        ensures refused { IfErr result (λ error. IfRefused error
            (IsChangeFault self.now.words.now.force self.now.words.now.dry_run (map string_bytes self.now.seen.now.left_out.now)
            vars.now change.now)) }
    {
        let words = self.words;
        match self.standing(alloc, vars, &change.record)? {
            Standing::Unchanged => Ok(false),
            Standing::NotMade => match self.forget(change.number) {
                Ok(()) => Ok(true),
                Err(error) => Err(error),
            },
            Standing::Changed => {
                if words.force {
                    return Ok(false);
                }
                let since = changed_since(alloc, vars, &change.record)?;
                Err(CallError::Refused(UndoFault::Changed(since)))
            }
        }
    }

    /// How a change of the machine, which keeps these variables, stands: one that was undone counts as not made.
    fn standing(&self, alloc: Global, vars: &Vars, change: &Record) -> Result<Standing, AllocError>
        ensures { IfOk result (IsCounted (map string_bytes self.now.seen.now.left_out.now) change.now vars.now) }
    {
        match standing_of(alloc, change, vars)? {
            Standing::Unchanged => Ok(Standing::Unchanged),
            Standing::NotMade => Ok(Standing::NotMade),
            Standing::Changed => {
                if self.is_undone(alloc, vars, change)? {
                    Ok(Standing::NotMade)
                } else {
                    Ok(Standing::Changed)
                }
            }
        }
    }

    /// Whether the machine keeps what undoing the change brings back, but perhaps for a BootNext, which a start uses.
    fn is_undone(&self, alloc: Global, vars: &Vars, change: &Record) -> Result<bool, AllocError>
        ensures { IfOk result (λ undone. (back : Takeable)
            × IsBroughtBack (map string_bytes self.now.seen.now.left_out.now) change.now vars.now back
            × (IsTrue undone ↔ IsThere vars.now back.vars)) }
    {
        let back = self.back(alloc, vars, change)?;
        let there = is_there(alloc, vars, &back.vars)?;
        Ok(there)
    }

    /// Takes away what is kept of a change that isn't there, unless it is a dry run.
    fn forget(&self, number: u64) -> Result<(), CallError<UndoFault>>
        ensures { IfErr result (λ error. IfRefused error (λ fault. IsFailure fault × (self.now.words.now.dry_run ≡ false))) }
    {
        let words = self.words;
        if words.dry_run {
            return Ok(());
        }
        match remove(self.rt, words.machine.state, number) {
            Ok(()) => Ok(()),
            Err(failure) => Err(call_error(failure)),
        }
    }

    /// What the machine, which keeps these variables, is to have again of what was there before the change.
    fn back(&self, alloc: Global, vars: &Vars, change: &Record) -> Result<Takeable, AllocError>
        ensures { IfOk result (IsBroughtBack (map string_bytes self.now.seen.now.left_out.now) change.now vars.now) }
    {
        let wanted = wanted_back(alloc, change, vars)?;
        let back = brought(alloc, self.seen, vars, wanted)?;
        Ok(back)
    }
}

/// Whether the variables have what is to be brought back, but perhaps for BootNext, where they have none.
fn is_there(alloc: Global, vars: &Vars, back: &Vars) -> Result<bool, AllocError>
    ensures { IfOk result (λ there. IsTrue there ↔ IsThere vars.now back.now) }
{
    vars_laws::equal_variables_need_no_change();
    let used = as_used(alloc, vars, back)?;
    let there = needs_no_change(alloc, vars, &used)?;
    Ok(there)
}

/// Whether the boot manager's variables of the two are the same. This fails only when out of memory.
fn needs_no_change(alloc: Global, from: &Vars, to: &Vars) -> Result<bool, AllocError>
    ensures { IfOk result (λ same. IsTrue same ↔ (changes_from from.now to.now ≡ [])) }
{
    Ok(boot_changes(alloc, from, to)?.is_empty())
}

/// What has changed since this change.
fn changed_since(alloc: Global, vars: &Vars, change: &Record) -> Result<ChangedSince, AllocError>
    ensures { IfOk result (λ since. (since.now ≡ vars.now) × (since.after ≡ change.now.after)
        × (since.time ≡ change.now.time)) }
{
    Ok(ChangedSince {
        now: vars.copy(alloc)?,
        after: change.after.copy(alloc)?,
        time: change.time,
    })
}
