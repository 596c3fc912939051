//! The laws of the definitions. Each is a function that does nothing, and whose contract is the law.

ghost use Rattle.std.specs.Prelude.{◌≡◌, ◌⊎◌, ℕ, ◌^◌, ◌<◌, Bool, false, List, [], ◌∷◌, Option, None, take, ◌↔◌, IsTrue};
ghost use Rattle.std.specs.List.{AllByRecursion};
ghost use Rattle.std.specs.FinMap as map;
ghost use Rattle.uefi_path.specs.Row.{IsByte};
ghost use Rattle.uefi_vars.specs.Name.{next_text, keep_text};
ghost use Rattle.uefi_vars.specs.Vars.{Variables};
ghost use Rattle.uefi_vars.specs.NameChanges.{after_each};
ghost use Rattle.uefi_vars.specs.BootChange.{ChangeParts, same_name, is_boot_name, changes_from, DanglesInOrder, DanglesAsNext};
ghost use Rattle.boot_journal.specs.Attributes.{data_of, with_attributes, KeepAttributes, HaveAttributes};
ghost use Rattle.boot_journal.specs.Changes.{made, IsFront, LeaveAlone};
ghost use Rattle.boot_journal.specs.Events.{Event, Starts, World, world, all_happen, without_next, with_variables, IsUpdateTo, AreSettlings, AreSettlingsOrStarts, AreNoUpdates, by_firmware, UpdatesLeaveAlone};
ghost use Rattle.boot_journal.specs.Journal.{BeganUnderAnother, changes_of, due};
ghost use Rattle.boot_journal.specs.Moves.{cut_undoing};
ghost use Rattle.boot_journal.specs.Store.{Store, IsIdle, seen, stands_for, falls_back_to};
ghost use Rattle.boot_journal.specs.Turns.{after_turns, happened, StartsAreNew};
ghost use Rattle.boot_journal.specs.declared.attributes.AttributesFault.{AttributesFault};
ghost use Rattle.boot_journal.specs.declared.fault.JournalFault.{JournalFault};
ghost use Rattle.boot_journal.specs.declared.journal_file.JournalFile.{JournalFile};
ghost use Rattle.boot_journal.specs.Bytes.{IsJournalFile, SpellsJournalFile};
ghost use Rattle.boot_journal.specs.Fault.{IsJournalFault};

use crate::attributes::AttributesFault;
use crate::fault::JournalFault;
use uefi_vars::laws as vars_laws;

/// All or nothing. Over every list of updates and settlings that are cut off after any number of moves, of updates that
/// fail and whose taking back is cut off, of starts and of what firmware does by itself: a machine stands for the turns that
/// happened, each as a whole, in order. An update has happened once its journal is there, and one that fails, also in a
/// later settling, hasn't once its changes are begun to be taken back. The premise is that nothing is to be done at first,
/// and that each start has an identity that none before it had.
pub fn updates_are_whole_or_do_not_happen()
    ensures { (w : World) (events : List Event) → IsIdle w.store → StartsAreNew (w.boot ∷ []) events →
        stands_for (all_happen w events).boot (all_happen w events).store
        ≡ after_turns (stands_for w.boot w.store) (happened w events) }
{
    vars_laws::each_change_is_needed();
    keep_is_no_boot_name();
}

/// At most once. If what is to be done began under another identity, no settling sets BootNext, wherever it is cut off and
/// whether it fails or not: it is as it was or isn't there.
pub fn no_settling_after_a_start_sets_boot_next()
    ensures { (boot : List ℕ) (s : Store) (moves back : ℕ) → BeganUnderAnother boot s.journal.pending →
        (map.get (cut_undoing boot moves back s).variables next_text ≡ None)
        ⊎ (map.get (cut_undoing boot moves back s).variables next_text ≡ map.get s.variables next_text) }
{}

/// At most once, over lists. If what is to be done began under another identity, then over every list of settlings that are
/// cut off or fail after any number of moves, of starts under other identities than that, and of what firmware does to
/// variables other than BootNext, BootNext is at the end as it was at the beginning, or isn't there.
pub fn no_settlings_after_a_start_set_boot_next()
    ensures { (w : World) (events : List Event) → BeganUnderAnother w.boot w.store.journal.pending →
        AreNoUpdates w.store.journal.pending events →
        (map.get (all_happen w events).store.variables next_text ≡ None)
        ⊎ (map.get (all_happen w events).store.variables next_text ≡ map.get w.store.variables next_text) }
{}

/// After each move of an update, of its taking back and of each settling before the next start, the variables are those
/// after some of its changes, from the first one on. After starts they are that too, or without BootNext.
pub fn variables_are_those_after_some_changes()
    ensures before_a_start { (boot : List ℕ) (s : Store) (to : Variables) (update : Event) (settlings : List Event) →
        IsIdle s → IsUpdateTo to update → AreSettlings settlings →
        IsFront (changes_from (seen s) to) s.variables (all_happen (world boot s) (update ∷ settlings)).store.variables }
    ensures after_a_start { (boot next_boot : List ℕ) (deletes : Bool) (s : Store) (to : Variables) (update : Event) (settlings later : List Event) →
        IsIdle s → IsUpdateTo to update → AreSettlings settlings → same_name next_boot boot ≡ false → AreSettlingsOrStarts boot later →
        (front : Variables) × (gone : Bool) × IsFront (changes_from (seen s) to) s.variables front
        × ((all_happen (all_happen (world boot s) (update ∷ settlings)) (Starts next_boot deletes ∷ later)).store.variables ≡ without_next gone front) }
{
    vars_laws::each_change_is_needed();
    vars_laws::each_change_is_of_another_variable();
    keep_is_no_boot_name();
}

/// Nothing dangles. Where the variables are those after some changes of an update, from the first one on, with BootNext
/// or without, a missing entry that BootOrder or BootNext names was missing and named before the update, or is so after
/// it. What they name is in their data, without their attributes.
pub fn nothing_dangles_in_between()
    ensures order { (s : Store) (to front : Variables) (gone : Bool) (number : ℕ) → number < 2 ^ 16 →
        IsFront (changes_from (seen s) to) s.variables front → DanglesInOrder (data_of (without_next gone front)) number →
        DanglesInOrder (data_of s.variables) number ⊎ DanglesInOrder (data_of to) number }
    ensures next { (s : Store) (to front : Variables) (gone : Bool) (number : ℕ) → number < 2 ^ 16 →
        IsFront (changes_from (seen s) to) s.variables front → DanglesAsNext (data_of (without_next gone front)) number →
        DanglesAsNext (data_of s.variables) number ⊎ DanglesAsNext (data_of to) number }
{
    vars_laws::order_and_next_are_no_entries();
}

/// Firmware's own. What firmware did to variables that no change is of stays, and changes that are made again after
/// firmware's are those made over firmware's alone.
pub fn firmware_keeps_its_own()
    ensures others { (changes : List ChangeParts) (vars : Variables) (name : List ℕ) → LeaveAlone name changes →
        map.get (made changes vars) name ≡ map.get vars name }
    ensures over { (changes : List ChangeParts) (firmware : List (List ℕ × Option (List ℕ))) (vars : Variables) (count : ℕ) →
        made changes (after_each (made (take count changes) vars) firmware) ≡ made changes (after_each vars firmware) }
{}

/// Firmware's own, over lists. Updates and settlings are cut off or fail after any number of moves, the machine is started
/// in between, and firmware changes variables. Then a variable of which no change was to be done at first, and none of an
/// update is, is at the end as firmware alone made it: whatever is done or taken back when, before a start or after it. A
/// start that deletes BootNext counts as firmware's. And firmware may come after any number of the changes that are due:
/// then what the machine stands for under whatever identity, and what that falls back to, is as if none had been made.
pub fn firmware_keeps_its_own_whatever_happens()
    ensures others { (w : World) (events : List Event) (name : List ℕ) → LeaveAlone name (changes_of w.store.journal.pending) →
        UpdatesLeaveAlone name w events →
        map.get (all_happen w events).store.variables name ≡ map.get (after_each w.store.variables (by_firmware events)) name }
    ensures over { (boot later : List ℕ) (s : Store) (firmware : List (List ℕ × Option (List ℕ))) (count : ℕ) →
        stands_for later (with_variables (after_each (made (take count (due boot s.journal.pending)) s.variables) firmware) s)
        ≡ stands_for later (with_variables (after_each s.variables firmware) s) }
    ensures back { (boot later : List ℕ) (s : Store) (firmware : List (List ℕ × Option (List ℕ))) (count : ℕ) →
        falls_back_to later (with_variables (after_each (made (take count (due boot s.journal.pending)) s.variables) firmware) s)
        ≡ falls_back_to later (with_variables (after_each s.variables firmware) s) }
{}

/// What a machine keeps is attributes and data. A set that attributes were put on is the same without them, and has the
/// attributes of what was there. Variables that have attributes are the set of their data with these attributes.
pub fn attributes_and_data_are_what_is_kept()
    ensures set { (there vars : Variables) → data_of (with_attributes there vars) ≡ vars }
    ensures attributes { (there vars : Variables) → KeepAttributes there (with_attributes there vars) }
    ensures kept { (vars : Variables) → HaveAttributes vars → with_attributes vars (data_of vars) ≡ vars }
{}

/// `==` on the faults of attributes tells whether they are equal.
pub fn attributes_faults_compare_as_values()
    ensures { (a b : AttributesFault) → IsTrue (⟦<AttributesFault as PartialEq>⟧.eq a b) ↔ (a ≡ b) }
{}

/// A journal has a spelling, of bytes, with the name of its machine and without one.
pub fn each_journal_is_spelled()
    ensures { (file : JournalFile) → IsJournalFile file →
        (bytes : List ℕ) × SpellsJournalFile bytes file × AllByRecursion IsByte bytes }
{
    vars_laws::boot_names_are_names();
}

/// A journal with the name of its machine, or without one, has at most one spelling.
pub fn a_journal_has_one_spelling()
    ensures { (file : JournalFile) (a b : List ℕ) → SpellsJournalFile a file → SpellsJournalFile b file → a ≡ b }
{}

/// Bytes spell at most one journal, with at most one name of a machine.
pub fn bytes_spell_one_journal()
    ensures { (bytes : List ℕ) (a b : JournalFile) → SpellsJournalFile bytes a → SpellsJournalFile bytes b → a ≡ b }
{}

/// Bytes spell a journal, or have a first fault.
pub fn bytes_spell_a_journal_or_have_a_fault()
    ensures { (bytes : List ℕ) → AllByRecursion IsByte bytes →
        ((file : JournalFile) × SpellsJournalFile bytes file)
        ⊎ ((fault : JournalFault) × IsJournalFault bytes fault) }
{}

/// Bytes that have a first fault spell no journal.
pub fn a_fault_leaves_no_journal()
    ensures { (bytes : List ℕ) (fault : JournalFault) (file : JournalFile) →
        IsJournalFault bytes fault → SpellsJournalFile bytes file → ⊥ }
{}

/// Bytes have at most one first fault.
pub fn bytes_have_one_journal_fault()
    ensures { (bytes : List ℕ) (f g : JournalFault) →
        IsJournalFault bytes f → IsJournalFault bytes g → f ≡ g }
{}

/// `==` on the faults of a journal tells whether they are equal.
pub fn journal_faults_compare_as_values()
    ensures { (a b : JournalFault) → IsTrue (⟦<JournalFault as PartialEq>⟧.eq a b) ↔ (a ≡ b) }
{}

/// BootKeepState is no variable of the boot manager.
pub fn keep_is_no_boot_name()
    ensures { is_boot_name keep_text ≡ false }
{
    vars_laws::entry_names_are_those_of_numbers();
    vars_laws::order_and_next_are_no_entries();
}
