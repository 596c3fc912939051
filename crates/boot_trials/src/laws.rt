//! Laws of the definitions. Each function's contract is one law; calling it does nothing.

ghost use Rattle.std.specs.Prelude.{◌≡◌, ◌≢◌, ℕ, List, Option, Some, None};
ghost use Rattle.uefi_option.specs.Attributes.{IsNormal};
ghost use Rattle.uefi_option.specs.LoadOption.{OptionParts, SpellsOption};
ghost use Rattle.uefi_vars.specs.Order.{HasOrder, IsEntryNumber};
ghost use Rattle.uefi_vars.specs.Plan.{PlanParts, IsPlan};
ghost use Rattle.uefi_vars.specs.Vars.{Variables, entry_of};
ghost use Rattle.boot_journal.specs.Attributes.{data_of};
ghost use Rattle.boot_edits.specs.declared.addition.Addition.{Addition};
ghost use Rattle.boot_edits.specs.declared.addition.Position.TheVariants as position;
ghost use Rattle.boot_trials.specs.Adding.{IsAddedTry};
ghost use Rattle.boot_trials.specs.File.{SpellsTrial, IsTrialFault};
ghost use Rattle.boot_trials.specs.Outcome.{IsOutcome, current_of, digest_of, next_of};
ghost use Rattle.boot_trials.specs.Run.{IsConfirming, IsTry, DifferInNext};
ghost use Rattle.boot_trials.specs.Trial.{TrialParts};
ghost use Rattle.boot_trials.specs.declared.adding.BegunTrial.{BegunTrial};
ghost use Rattle.boot_trials.specs.declared.fault.TrialFault.{TrialFault};
ghost use Rattle.boot_trials.specs.declared.fault.TrialFault.TheVariants as fault;
ghost use Rattle.boot_trials.specs.declared.outcome.Outcome.{Outcome};
ghost use Rattle.boot_trials.specs.declared.outcome.Outcome.TheVariants as came;
ghost use Rattle.boot_trials.specs.declared.stage.Stage.TheVariants as stage;

use boot_journal::laws as journal_laws;
use uefi_vars::laws as vars_laws;

/// Bytes spell at most one trial.
pub fn bytes_spell_one_trial()
    ensures { (bytes : List ℕ) (a b : TrialParts) → SpellsTrial bytes a → SpellsTrial bytes b → a ≡ b }
{
    vars_laws::bytes_spell_one_set();
}

/// Bytes that have a fault spell no trial.
pub fn a_fault_leaves_no_trial()
    ensures { (bytes : List ℕ) (f : TrialFault) (trial : TrialParts) → f ≢ fault.OutOfMemory →
        IsTrialFault bytes f → SpellsTrial bytes trial → ⊥ }
{
    vars_laws::a_fault_leaves_no_set();
}

/// At most one thing came of a trial.
pub fn a_trial_has_one_outcome()
    ensures { (trial : TrialParts) (start : List ℕ) (current : Option ℕ) (vars : Variables) (a b : Outcome) →
        IsOutcome trial start current vars a → IsOutcome trial start current vars b → a ≡ b }
{}

/// Nothing that is kept is changed for a trial, unless the machine came up by its entry.
pub fn no_outcome_but_came_up_changes_a_variable()
    ensures { (trial : TrialParts) (start : List ℕ) (from to : Variables) (outcome : Outcome) →
        IsConfirming trial start from to outcome → outcome ≢ came.CameUp → to ≡ from }
{}

/// If something is changed for a trial, then the trial was open, this is another start than that in which it began, BootNext
/// doesn't name the entry any more, the machine came up by the entry, and its data is what it was.
pub fn a_change_needs_the_entry_its_bytes_and_another_start()
    ensures stage { (trial : TrialParts) (start : List ℕ) (from to : Variables) (outcome : Outcome) →
        IsConfirming trial start from to outcome → to ≢ from → trial.stage ≡ stage.Open }
    ensures start { (trial : TrialParts) (start : List ℕ) (from to : Variables) (outcome : Outcome) →
        IsConfirming trial start from to outcome → to ≢ from → start ≢ trial.start }
    ensures next { (trial : TrialParts) (start : List ℕ) (from to : Variables) (outcome : Outcome) →
        IsConfirming trial start from to outcome → to ≢ from → next_of (data_of from) ≢ Some trial.entry }
    ensures entry { (trial : TrialParts) (start : List ℕ) (from to : Variables) (outcome : Outcome) →
        IsConfirming trial start from to outcome → to ≢ from → current_of (data_of from) ≡ Some trial.entry }
    ensures bytes { (trial : TrialParts) (start : List ℕ) (from to : Variables) (outcome : Outcome) →
        IsConfirming trial start from to outcome → to ≢ from → digest_of (data_of from) trial.entry ≡ Some trial.digest }
{}

/// A trial that is being confirmed changes nothing any more, whatever is there then, and in whatever start.
pub fn a_trial_that_is_confirming_changes_nothing()
    ensures { (trial : TrialParts) (start : List ℕ) (from to : Variables) (outcome : Outcome) →
        trial.stage ≡ stage.Confirming → IsConfirming trial start from to outcome → to ≡ from }
{}

/// The start in which a trial begins changes nothing for it.
pub fn nothing_is_changed_before_a_start()
    ensures { (trial : TrialParts) (from to : Variables) (outcome : Outcome) →
        IsConfirming trial trial.start from to outcome → to ≡ from }
{}

/// The beginning of a trial changes BootNext alone: every entry, BootOrder and each variable of another name has the data that
/// it had.
pub fn a_try_changes_boot_next_alone()
    ensures { (entry : ℕ) (start : List ℕ) (from to : Variables) (trial : TrialParts) →
        IsTry entry start from to trial → DifferInNext (data_of from) (data_of to) }
{
    journal_laws::attributes_and_data_are_what_is_kept();
}

/// The beginning of a trial leaves the order, and so what a boot would try without BootNext: the plan is what it was.
pub fn a_try_leaves_the_plan_without_boot_next()
    ensures { (entry : ℕ) (start : List ℕ) (from to : Variables) (trial : TrialParts) (order : List ℕ) (plan : PlanParts) →
        IsTry entry start from to trial → HasOrder (data_of from) order →
        IsPlan (entry_of (data_of from)) order None plan →
        HasOrder (data_of to) order × IsPlan (entry_of (data_of to)) order None plan }
{
    vars_laws::a_plan_reads_entries_alone();
    a_try_changes_boot_next_alone();
}

/// So does the beginning of a trial of an entry that is added, comes last in BootOrder, and isn't an option that the boot
/// manager tries by itself: there is an order then with the plan that there was.
pub fn an_added_try_leaves_the_plan_without_boot_next()
    ensures { (addition : Addition) (start : List ℕ) (from to : Variables) (begun : BegunTrial) (order : List ℕ) (plan : PlanParts) →
        IsAddedTry addition start from to begun → IsEntryNumber begun.trial.entry → addition.position ≡ position.Last →
        ((option : OptionParts) → SpellsOption addition.option.now option → IsNormal option.attributes → ⊥) →
        HasOrder (data_of from) order → IsPlan (entry_of (data_of from)) order None plan →
        (new : List ℕ) × HasOrder (data_of to) new × IsPlan (entry_of (data_of to)) new None plan }
{
    vars_laws::variables_have_one_order();
    journal_laws::attributes_and_data_are_what_is_kept();
    a_try_leaves_the_plan_without_boot_next();
}
