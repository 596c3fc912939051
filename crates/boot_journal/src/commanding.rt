//! Commands, which run something over a machine's variables.

ghost use Rattle.std.specs.Prelude.{◌≡◌, ◌⊎◌, true, false, IfOk, IfErr};
ghost use Rattle.uefi_vars.specs.Vars.{Variables};
ghost use Rattle.boot_journal.specs.Commands.{IsCommanding, IsCommandMoment, IfUnchanged, IfSettlingFailed, IfUpdatingFailed, IfRunRefused, HasCommandCause, command_failures};
ghost use Rattle.boot_journal.specs.Cause.{IfRefused, IfTakenBack, IfUntried, IfTried, HaveFailed};
ghost use Rattle.boot_journal.specs.Journal.{is_making};
ghost use Rattle.boot_journal.specs.Moments.{Leaves};
ghost use Rattle.boot_journal.specs.Moves.{IsSettling, IsUpdating};
ghost use Rattle.boot_journal.specs.Store.{IsIdle, seen, updated, stands_for, falls_back_to, brought};

use crate::boot_id::BootId;
use crate::laws::keep_is_no_boot_name;
use crate::machine::{CallError, CommandError, Machine};
use crate::updating::{settle, update};
use std::alloc::Global;
use uefi_vars::{Vars, laws as vars_laws};

/// What is run once over a machine's variables. It sees them, and gives them, as a machine keeps them: those of the boot
/// manager with their attributes.
pub trait Run: Drop {
    /// What it answers.
    type Answer: Drop;

    /// Why it refuses variables.
    type Fault: Drop;

    /// It leads from the one set to the other, with this answer.
    ghost leads: { Self → Variables → Variables → Self.Answer → Type 0 };

    /// It refuses the variables for this fault.
    ghost refuses: { Self → Variables → Self.Fault → Type 0 };

    /// Runs over these variables, and gives those after it, with the answer. It takes the run, which may have effects, so
    /// that there is no second one.
    fn run(self, alloc: Global, vars: &Vars) -> Result<(Vars, Self::Answer), CallError<Self::Fault>>
        ensures done { IfOk result (λ done. leads self vars.now done.0 done.1) }
        ensures refused { IfErr result (λ error. IfRefused error (refuses self vars.now)) };
}

/// Settles a machine, runs something over its variables and BootKeepState, and brings the boot manager's variables and
/// BootKeepState of the machine to those that the run leads to, as a whole; what the run makes of other variables is left
/// out. Whatever is cut off when, the machine stands for what it stood for, or for what that falls back to if the settling
/// is refused a move, or for what the run leads to. The identity is that of the machine's start.
///
/// # Errors
///
/// [`CommandError::Settling`] as for [`settle`]: nothing was run. [`CommandError::OutOfMemory`] if memory was refused, and
/// [`CommandError::Run`] if the run refuses the variables: nothing was changed. [`CommandError::Updating`] as for
/// [`update`].
pub fn command<M: Machine, R: Run>(
    alloc: Global,
    machine: &mut M,
    run: R,
    boot: &BootId,
) -> Result<R::Answer, CommandError<M::Refusal, R::Fault>>
    ensures cause { HasCommandCause (M.refusals machine.old) (M.refusals machine.new) result }
    ensures failed_moves { HaveFailed (M.failures machine.old) (M.failures machine.new) (command_failures result) }
    ensures done { IfOk result (λ answer. (to : Variables) × R.leads run (stands_for boot.now (M.store machine.old)) to answer
        × IsIdle (M.store machine.new)
        × (stands_for boot.now (M.store machine.new) ≡ brought (stands_for boot.now (M.store machine.old)) to)) }
    ensures unchanged { IfErr result (λ error. IfUnchanged error
        (stands_for boot.now (M.store machine.new) ≡ stands_for boot.now (M.store machine.old))) }
    // What it says of a settling that failed, after which nothing is run, and of an update that did.
    ensures not_run { IfErr result (λ error. IfSettlingFailed error (λ _. IsSettling boot.now (M.store machine.old) (M.store machine.new))) }
    ensures settling { IfErr result (λ error. IfSettlingFailed error (λ why. IfTakenBack why (IsIdle (M.store machine.new)
        × (stands_for boot.now (M.store machine.new) ≡ falls_back_to boot.now (M.store machine.old))))) }
    ensures settling_tried { IfErr result (λ error. IfSettlingFailed error (λ why.
        IfUntried why (is_making (M.store machine.old).journal.pending ≡ false))) }
    ensures settling_only_tried { IfErr result (λ error. IfSettlingFailed error (λ why.
        IfTried why (is_making (M.store machine.old).journal.pending ≡ true))) }
    ensures updating { IfErr result (λ error. IfUpdatingFailed error (λ why. IfTakenBack why (IsIdle (M.store machine.new)
        × (stands_for boot.now (M.store machine.new) ≡ stands_for boot.now (M.store machine.old))))) }
    ensures updating_tried { IfErr result (λ error. IfUpdatingFailed error (λ why. IfUntried why ⊥)) }
    ensures refused { IfErr result (λ error. IfRunRefused error (R.refuses run (stands_for boot.now (M.store machine.old)))) }
    // Whatever is cut off when, the machine stands for what it stood for, or for what that falls back to, or for what the
    // run leads to.
    ensures any_moment { Leaves (IsCommandMoment (λ from to. (answer : R.Answer) × R.leads run from to answer) boot.now (M.store machine.old))
        (M.history machine.old) (M.history machine.new) }
    // What is there then, and after each move.
    ensures left { IsCommanding (λ from to. (answer : R.Answer) × R.leads run from to answer) boot.now
        (M.store machine.old) (M.store machine.new) }
    ensures moves { Leaves (IsCommanding (λ from to. (answer : R.Answer) × R.leads run from to answer) boot.now (M.store machine.old))
        (M.history machine.old) (M.history machine.new) }
{
    vars_laws::each_change_is_needed();
    keep_is_no_boot_name();
    match settle(alloc, machine, boot) {
        Ok(()) => run_settled(alloc, machine, run, boot),
        Err(error) => Err(CommandError::Settling(error)),
    }
}

/// Runs over a settled machine.
#[tactic(auto, using(crate::proofs::Failures::none_failed))]
fn run_settled<M: Machine, R: Run>(
    alloc: Global,
    machine: &mut M,
    run: R,
    boot: &BootId,
) -> Result<R::Answer, CommandError<M::Refusal, R::Fault>>
    requires { IsIdle (M.store machine.old) }
    ensures cause { HasCommandCause (M.refusals machine.old) (M.refusals machine.new) result }
    ensures failed_moves { HaveFailed (M.failures machine.old) (M.failures machine.new) (command_failures result) }
    ensures done { IfOk result (λ answer. (to : Variables) × R.leads run (seen (M.store machine.old)) to answer
        × (M.store machine.new ≡ updated (M.store machine.old) to)) }
    ensures unchanged { IfErr result (λ error. IfUnchanged error (M.store machine.new ≡ M.store machine.old)) }
    ensures settling { IfErr result (λ error. IfSettlingFailed error (λ _. ⊥)) }
    ensures updating { IfErr result (λ error. IfUpdatingFailed error (λ why. IfTakenBack why (M.store machine.new ≡ M.store machine.old))) }
    ensures updating_tried { IfErr result (λ error. IfUpdatingFailed error (λ why. IfUntried why ⊥)) }
    ensures refused { IfErr result (λ error. IfRunRefused error (R.refuses run (seen (M.store machine.old)))) }
    ensures left { (M.store machine.new ≡ M.store machine.old) ⊎ ((to : Variables) × (answer : R.Answer)
        × R.leads run (seen (M.store machine.old)) to answer × IsUpdating boot.now to (M.store machine.old) (M.store machine.new)) }
    ensures moves { Leaves (λ c. (to : Variables) × (answer : R.Answer) × R.leads run (seen (M.store machine.old)) to answer
        × IsUpdating boot.now to (M.store machine.old) c) (M.history machine.old) (M.history machine.new) }
{
    let vars = machine.read_vars(alloc)?;
    match run.run(alloc, &vars) {
        Ok((to, answer)) => match update(alloc, machine, &to, boot) {
            Ok(()) => Ok(answer),
            Err(error) => Err(CommandError::Updating(error)),
        },
        Err(CallError::OutOfMemory) => Err(CommandError::OutOfMemory),
        Err(CallError::Refused(fault)) => Err(CommandError::Run(fault)),
    }
}
