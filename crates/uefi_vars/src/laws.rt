//! Laws of the definitions. Each function's contract is one law; calling it does nothing.

ghost use Rattle.std.specs.Prelude.{◌≡◌, ◌≢◌, ◌⊎◌, ◌↔◌, ℕ, ◌<◌, ◌^◌, true, false, List, [], length, map, take, slice_get, Contains, Option, Some, None, IfSome, IsTrue};
ghost use Rattle.std.specs.List.{AllByRecursion, IsDistinct};
ghost use Rattle.std.specs.FinMap as map;
ghost use Rattle.std.specs.declared.cmp.Ordering.TheVariants.{Less};
ghost use Rattle.uefi_path.specs.Row.{IsByte};
ghost use Rattle.uefi_vars.specs.declared.boot_plan.Choice.{Choice};
ghost use Rattle.uefi_vars.specs.declared.fault.PutFault.{PutFault};
ghost use Rattle.uefi_vars.specs.declared.fault.SetFault.{SetFault};
ghost use Rattle.uefi_vars.specs.declared.fault.VarFault.{VarFault};
ghost use Rattle.uefi_vars.specs.Name.{name_max, IsName, entry_text, order_text, next_text, timeout_text, keep_text, global_vendor};
ghost use Rattle.uefi_vars.specs.Attributes.{attributes_len, boot_attributes};
ghost use Rattle.uefi_vars.specs.Vars.{Variables, name_cmp, data_max, IsVars, entry_of};
ghost use Rattle.uefi_vars.specs.NameChanges.{after_each};
ghost use Rattle.uefi_vars.specs.BootChange.{ChangeParts, same_name, is_entry_name, is_boot_name, changes_from, new_data, IsNeeded, DanglesInOrder, DanglesAsNext};
ghost use Rattle.uefi_vars.specs.Set.{magic, SpellsSet};
ghost use Rattle.uefi_vars.specs.Fault.{IsFirstFault};
ghost use Rattle.uefi_vars.specs.Order.{order_max, IsEntryNumber, HasOrder, HasNext, HasBadOrder, HasBadNext};
ghost use Rattle.uefi_vars.specs.Plan.{PlanParts, IsNormalChoice, IsPlan, HasPlan};
ghost use Rattle.uefi_vars.specs.AtRisk.{IsUnnamed, IsUndecodable, AreThose};

use crate::attributes::{ATTRIBUTES_LEN, BOOT_ATTRIBUTES};
use crate::boot_plan::{BootPlan, Choice};
use crate::fault::{PutFault, SetFault, VarFault};
use crate::name::{BOOT_NEXT, BOOT_ORDER, GLOBAL_VENDOR, KEEP_STATE, NAME_MAX, TIMEOUT};
use crate::order::ORDER_MAX;
use crate::vars::{DATA_MAX, Vars};
use crate::writer::SET_MAGIC;
use uefi_option::laws as option_laws;
use uefi_path::laws as path_laws;

/// Variables that may be in a set have a spelling, of bytes.
pub fn each_set_is_spelled()
    ensures { (vars : Variables) → IsVars vars →
        (bytes : List ℕ) × SpellsSet bytes vars × AllByRecursion IsByte bytes }
{}

/// Variables have at most one spelling.
pub fn a_set_has_one_spelling()
    ensures { (vars : Variables) (a b : List ℕ) → SpellsSet a vars → SpellsSet b vars → a ≡ b }
{}

/// Bytes spell at most one set of variables.
pub fn bytes_spell_one_set()
    ensures { (bytes : List ℕ) (a b : Variables) → SpellsSet bytes a → SpellsSet bytes b → a ≡ b }
{}

/// Bytes spell variables, or have a first fault.
pub fn bytes_spell_a_set_or_have_a_fault()
    ensures { (bytes : List ℕ) → AllByRecursion IsByte bytes →
        ((vars : Variables) × SpellsSet bytes vars)
        ⊎ ((fault : SetFault) × IsFirstFault bytes fault) }
{}

/// Bytes that have a first fault spell no variables.
pub fn a_fault_leaves_no_set()
    ensures { (bytes : List ℕ) (fault : SetFault) (vars : Variables) →
        IsFirstFault bytes fault → SpellsSet bytes vars → ⊥ }
{}

/// Bytes have at most one first fault.
pub fn bytes_have_one_first_fault()
    ensures { (bytes : List ℕ) (f g : SetFault) →
        IsFirstFault bytes f → IsFirstFault bytes g → f ≡ g }
{}

/// Variables have at most one BootOrder.
pub fn variables_have_one_order()
    ensures { (vars : Variables) (a b : List ℕ) → HasOrder vars a → HasOrder vars b → a ≡ b }
{
    path_laws::units_are_read_again();
}

/// If BootOrder is bad, it gives no order.
pub fn a_bad_order_gives_no_order()
    ensures { (vars : Variables) (order : List ℕ) → HasBadOrder vars → HasOrder vars order → ⊥ }
{
    path_laws::units_have_two_bytes_each();
}

/// If variables may be in a set, BootOrder gives an order, or is bad.
pub fn variables_have_an_order_or_a_bad_one()
    ensures { (vars : Variables) → IsVars vars →
        ((order : List ℕ) × HasOrder vars order) ⊎ HasBadOrder vars }
{
    path_laws::bytes_are_written_again();
    path_laws::two_bytes_are_a_unit();
}

/// Variables have at most one BootNext: a number, or none.
pub fn variables_have_one_next()
    ensures { (vars : Variables) (a b : Option ℕ) → HasNext vars a → HasNext vars b → a ≡ b }
{}

/// If BootNext is bad, it is neither a number nor none.
pub fn a_bad_next_gives_no_next()
    ensures { (vars : Variables) (next : Option ℕ) → HasBadNext vars → HasNext vars next → ⊥ }
{}

/// If variables may be in a set, BootNext is a number or none, or is bad.
pub fn variables_have_a_next_or_a_bad_one()
    ensures { (vars : Variables) → IsVars vars →
        ((next : Option ℕ) × HasNext vars next) ⊎ HasBadNext vars }
{
    path_laws::bytes_are_written_again();
}

/// `==` on variables tells whether they are equal.
pub fn variables_compare_as_values()
    ensures { (a b : Variables) → IsTrue (⟦<Vars as PartialEq>⟧.eq a b) ↔ (a ≡ b) }
{}

/// `==` on the faults of a set tells whether they are equal.
pub fn set_faults_compare_as_values()
    ensures { (a b : SetFault) → IsTrue (⟦<SetFault as PartialEq>⟧.eq a b) ↔ (a ≡ b) }
{}

/// `==` on the faults of a put tells whether they are equal.
pub fn put_faults_compare_as_values()
    ensures { (a b : PutFault) → IsTrue (⟦<PutFault as PartialEq>⟧.eq a b) ↔ (a ≡ b) }
{}

/// `==` on the faults of variables tells whether they are equal.
pub fn var_faults_compare_as_values()
    ensures { (a b : VarFault) → IsTrue (⟦<VarFault as PartialEq>⟧.eq a b) ↔ (a ≡ b) }
{}

/// Variables are equal if they have the same data under each name.
pub fn variables_are_equal_name_by_name()
    ensures { (a b : Variables) → ((name : List ℕ) → map.get a name ≡ map.get b name) → a ≡ b }
{}

/// Of puts and removals under one name the last one counts.
pub fn the_last_change_of_a_name_counts()
    ensures put_put { (vars : Variables) (name value other : List ℕ) →
        map.insert (map.insert vars name value) name other ≡ map.insert vars name other }
    ensures put_removed { (vars : Variables) (name value : List ℕ) →
        map.remove (map.insert vars name value) name ≡ map.remove vars name }
    ensures removed_put { (vars : Variables) (name value : List ℕ) →
        map.insert (map.remove vars name) name value ≡ map.insert vars name value }
{}

/// Puts under two names may come in either order.
pub fn puts_under_two_names_commute()
    ensures { (vars : Variables) (a b value other : List ℕ) → a ≢ b →
        map.insert (map.insert vars a value) b other ≡ map.insert (map.insert vars b other) a value }
{}

/// To put what is there, or to remove what isn't, changes nothing.
pub fn needless_changes_change_nothing()
    ensures put { (vars : Variables) (name value : List ℕ) →
        map.get vars name ≡ Some value → map.insert vars name value ≡ vars }
    ensures removed { (vars : Variables) (name : List ℕ) →
        map.get vars name ≡ None → map.remove vars name ≡ vars }
{}

/// Two numbers have two entries' names.
pub fn entry_names_are_distinct()
    ensures { (m n : ℕ) → m < 2 ^ 16 → n < 2 ^ 16 → entry_text m ≡ entry_text n → m ≡ n }
{}

/// The names of entries rise with their numbers.
pub fn entry_names_rise()
    ensures { (m n : ℕ) → m < n → n < 2 ^ 16 → name_cmp (entry_text m) (entry_text n) ≡ Less }
{}

/// The public constants are the limits and the names that the definitions state.
pub fn constants_are_those_of_the_definitions()
    ensures name_max { NAME_MAX ≡ name_max }
    ensures data_max { DATA_MAX ≡ data_max }
    ensures order_max { ORDER_MAX ≡ order_max }
    ensures boot_order { BOOT_ORDER.now ≡ order_text }
    ensures boot_next { BOOT_NEXT.now ≡ next_text }
    ensures timeout { TIMEOUT.now ≡ timeout_text }
    ensures keep_state { KEEP_STATE.now ≡ keep_text }
    ensures global_vendor { GLOBAL_VENDOR.0 ≡ global_vendor }
    ensures attributes_len { ATTRIBUTES_LEN ≡ attributes_len }
    ensures boot_attributes { BOOT_ATTRIBUTES ≡ boot_attributes }
    ensures set_magic { SET_MAGIC ≡ magic }
{}

/// The names of entries, BootOrder, BootNext and Timeout are names that a variable may have.
pub fn boot_names_are_names()
    ensures entry { (number : ℕ) → number < 2 ^ 16 → IsName (entry_text number) }
    ensures order { IsName order_text }
    ensures next { IsName next_text }
    ensures timeout { IsName timeout_text }
{}

/// The name of an entry has eight characters, and is neither BootOrder, which has nine, nor Timeout, which has seven, nor
/// BootNext.
pub fn order_and_next_are_no_entries()
    ensures len { (number : ℕ) → length (entry_text number) ≡ 8 }
    ensures order { (number : ℕ) → entry_text number ≢ order_text }
    ensures next { (number : ℕ) → entry_text number ≢ next_text }
    ensures timeout { (number : ℕ) → entry_text number ≢ timeout_text }
    ensures apart { order_text ≢ next_text }
{}

/// The names of entries are those of the numbers of two bytes.
pub fn entry_names_are_those_of_numbers()
    ensures { (name : List ℕ) →
        (is_entry_name name ≡ true) ↔ ((number : ℕ) × (number < 2 ^ 16) × (name ≡ entry_text number)) }
{}

/// To put an entry sets it, and leaves the others.
pub fn a_put_sets_one_entry()
    ensures here { (vars : Variables) (k : ℕ) (value : List ℕ) →
        entry_of (map.insert vars (entry_text k) value) k ≡ Some value }
    ensures others { (vars : Variables) (k n : ℕ) (value : List ℕ) →
        k < 2 ^ 16 → n < 2 ^ 16 → n ≢ k →
        entry_of (map.insert vars (entry_text k) value) n ≡ entry_of vars n }
{}

/// To remove an entry takes it out, and leaves the others.
pub fn a_remove_takes_one_entry()
    ensures here { (vars : Variables) (k : ℕ) → entry_of (map.remove vars (entry_text k)) k ≡ None }
    ensures others { (vars : Variables) (k n : ℕ) → k < 2 ^ 16 → n < 2 ^ 16 → n ≢ k →
        entry_of (map.remove vars (entry_text k)) n ≡ entry_of vars n }
{}

/// What is put or removed under one name leaves what is stored under the others, entries or not, as it is.
pub fn changes_leave_the_other_names()
    ensures put { (vars : Variables) (name value other : List ℕ) → name ≢ other →
        map.get (map.insert vars name value) other ≡ map.get vars other }
    ensures removed { (vars : Variables) (name other : List ℕ) → name ≢ other →
        map.get (map.remove vars name) other ≡ map.get vars other }
{}

/// To put or to remove an entry leaves BootOrder and BootNext as they are.
pub fn changes_of_entries_leave_order_and_next()
    ensures put_order { (vars : Variables) (k : ℕ) (value order : List ℕ) →
        HasOrder (map.insert vars (entry_text k) value) order ↔ HasOrder vars order }
    ensures put_next { (vars : Variables) (k : ℕ) (value : List ℕ) (next : Option ℕ) →
        HasNext (map.insert vars (entry_text k) value) next ↔ HasNext vars next }
    ensures removed_order { (vars : Variables) (k : ℕ) (order : List ℕ) →
        HasOrder (map.remove vars (entry_text k)) order ↔ HasOrder vars order }
    ensures removed_next { (vars : Variables) (k : ℕ) (next : Option ℕ) →
        HasNext (map.remove vars (entry_text k)) next ↔ HasNext vars next }
{
    order_and_next_are_no_entries();
}

/// No two changes are of one variable.
pub fn each_change_is_of_another_variable()
    ensures { (from to : Variables) →
        IsDistinct same_name (map (λ change. change.name) (changes_from from to)) }
{
    order_and_next_are_no_entries();
}

/// Each change is of a variable of the boot manager, tells its data in the two sets, and these differ.
pub fn each_change_is_needed()
    ensures { (from to : Variables) → AllByRecursion (IsNeeded from to) (changes_from from to) }
{}

/// There is no change exactly if the boot manager's variables of the two sets are equal.
pub fn equal_variables_need_no_change()
    ensures { (from to : Variables) → (changes_from from to ≡ [])
        ↔ ((name : List ℕ) → is_boot_name name ≡ true → map.get from name ≡ map.get to name) }
{}

/// All changes in their order lead from the one set to the boot manager's variables of the other, and leave the variables
/// of other names as they are.
pub fn all_changes_lead_to_the_other_set()
    ensures boot { (from to : Variables) (name : List ℕ) → is_boot_name name ≡ true →
        map.get (after_each from (new_data (changes_from from to))) name ≡ map.get to name }
    ensures others { (from to : Variables) (name : List ℕ) → is_boot_name name ≡ false →
        map.get (after_each from (new_data (changes_from from to))) name ≡ map.get from name }
{}

/// What is there right before a change is made is what the change tells of before.
pub fn each_change_replaces_what_is_there()
    ensures { (from to : Variables) (place : ℕ) (change : ChangeParts) →
        slice_get (changes_from from to) place ≡ Some change →
        map.get (after_each from (new_data (take place (changes_from from to)))) change.name ≡ change.before }
{
    order_and_next_are_no_entries();
}

/// However many of the changes are made, BootOrder and BootNext name an entry that isn't there only if they did before all
/// of them, or do after them.
pub fn nothing_dangles_in_between()
    ensures order { (from to : Variables) (made number : ℕ) → number < 2 ^ 16 →
        DanglesInOrder (after_each from (new_data (take made (changes_from from to)))) number →
        DanglesInOrder from number ⊎ DanglesInOrder to number }
    ensures next { (from to : Variables) (made number : ℕ) → number < 2 ^ 16 →
        DanglesAsNext (after_each from (new_data (take made (changes_from from to)))) number →
        DanglesAsNext from number ⊎ DanglesAsNext to number }
{
    order_and_next_are_no_entries();
}

/// A plan depends on what is stored under the numbers of entries, and on nothing else.
pub fn a_plan_reads_entries_alone()
    ensures { (entries others : ℕ → Option (List ℕ)) (order : List ℕ) (next : Option ℕ)
        (plan : PlanParts) → AllByRecursion IsEntryNumber order → IfSome next IsEntryNumber →
        ((number : ℕ) → IsEntryNumber number → entries number ≡ others number) →
        IsPlan entries order next plan → IsPlan others order next plan }
{}

/// Entries have at most one plan for an order and a next.
pub fn entries_have_one_plan()
    ensures { (entries : ℕ → Option (List ℕ)) (order : List ℕ) (next : Option ℕ)
        (p q : PlanParts) → IsPlan entries order next p → IsPlan entries order next q → p ≡ q }
{
    option_laws::bytes_spell_one_option();
}

/// Entries of bytes have a plan for each order and each next.
pub fn entries_have_a_plan()
    ensures { (entries : ℕ → Option (List ℕ)) (order : List ℕ) (next : Option ℕ) →
        ((number : ℕ) → IfSome (entries number) (AllByRecursion IsByte)) →
        (plan : PlanParts) × IsPlan entries order next plan }
{
    option_laws::bytes_spell_one_option();
    option_laws::bytes_spell_an_option_or_have_a_fault();
    option_laws::a_fault_leaves_no_option();
}

/// A number of the order with a normal option has its choice in the plan.
pub fn a_plan_has_each_normal_option()
    ensures { (entries : ℕ → Option (List ℕ)) (order : List ℕ) (next : Option ℕ)
        (plan : PlanParts) (choice : Choice) →
        IsPlan entries order next plan → Contains order choice.number →
        IsNormalChoice entries choice.number choice → Contains plan.normal choice }
{
    option_laws::bytes_spell_one_option();
}

/// Variables have at most one plan.
pub fn variables_have_one_plan()
    ensures { (vars : Variables) (p q : PlanParts) → HasPlan vars p → HasPlan vars q → p ≡ q }
{
    variables_have_one_order();
    variables_have_one_next();
    entries_have_one_plan();
}

/// The entries of variables that neither BootOrder nor BootNext names have one list, and so have those of BootOrder that are
/// no load option.
pub fn variables_have_one_list_of_entries_at_risk()
    ensures unnamed { (vars : Variables) (a b : List ℕ) →
        AreThose (IsUnnamed vars) a → AreThose (IsUnnamed vars) b → a ≡ b }
    ensures undecodable { (vars : Variables) (a b : List ℕ) →
        AreThose (IsUndecodable vars) a → AreThose (IsUndecodable vars) b → a ≡ b }
{}

/// An entry that BootOrder or BootNext names is none of those that neither names.
pub fn a_named_entry_is_not_unnamed()
    ensures order { (vars : Variables) (order : List ℕ) (number : ℕ) →
        HasOrder vars order → Contains order number → IsUnnamed vars number → ⊥ }
    ensures next { (vars : Variables) (number : ℕ) →
        HasNext vars (Some number) → IsUnnamed vars number → ⊥ }
    ensures undecodable { (vars : Variables) (number : ℕ) →
        IsUndecodable vars number → IsUnnamed vars number → ⊥ }
{}

/// `==` on choices tells whether they are equal.
pub fn choices_compare_as_values()
    ensures { (a b : Choice) → IsTrue (⟦<Choice as PartialEq>⟧.eq a b) ↔ (a ≡ b) }
{
    option_laws::load_options_compare_as_values();
}

/// `==` on plans tells whether they are equal.
pub fn plans_compare_as_values()
    ensures { (a b : PlanParts) → IsTrue (⟦<BootPlan as PartialEq>⟧.eq a b) ↔ (a ≡ b) }
{
    option_laws::load_options_compare_as_values();
}
