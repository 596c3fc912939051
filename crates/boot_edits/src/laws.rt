//! Laws of the definitions. Each function's contract is one law; calling it does nothing.

ghost use Rattle.std.specs.Prelude.{◌≡◌, ◌&&◌, ◌||◌, ℕ, Bool, true, false, List};
ghost use Rattle.std.specs.FinMap as map;
ghost use Rattle.uefi_option.specs.LoadOption.{OptionParts, SpellsOption};
ghost use Rattle.uefi_vars.specs.Vars.{Variables};
ghost use Rattle.boot_requests.specs.Apply.{is_in, repeats, without_all, in_front};
ghost use Rattle.boot_edits.specs.declared.answer.EditAnswer.{EditAnswer};
ghost use Rattle.boot_edits.specs.declared.edit.Edit.{Edit};
ghost use Rattle.boot_edits.specs.declared.fault.EditFault.{EditFault};
ghost use Rattle.boot_edits.specs.Edit.{IsEdited, IsEditFault, IsLeft};
ghost use Rattle.boot_edits.specs.Orders.{extended};
ghost use Rattle.boot_edits.specs.Readings.{HasOneReading};
ghost use Rattle.boot_edits.specs.Switch.{with_bit_0, switched};

use crate::answer::EditAnswer;
use crate::edit::Edit;
use crate::fault::EditFault;
use uefi_option::laws as option_laws;
use uefi_vars::laws as vars_laws;

/// An edit of variables has at most one outcome.
pub fn an_edit_has_one_outcome()
    ensures { (vars : Variables) (edit : Edit) (a b : Variables) (x y : EditAnswer) →
        IsEdited vars edit a x → IsEdited vars edit b y → (a ≡ b) × (x ≡ y) }
{
    variables_and_options_are_read_one_way();
}

/// An edit of variables is refused for at most one fault.
pub fn an_edit_has_one_fault()
    ensures { (vars : Variables) (edit : Edit) (f g : EditFault) →
        IsEditFault vars edit f → IsEditFault vars edit g → f ≡ g }
{
    variables_and_options_are_read_one_way();
}

/// An edit of variables that is refused has no outcome.
pub fn a_fault_leaves_no_outcome()
    ensures { (vars : Variables) (edit : Edit) (to : Variables) (answer : EditAnswer) (fault : EditFault) →
        IsEdited vars edit to answer → IsEditFault vars edit fault → ⊥ }
{
    variables_and_options_are_read_one_way();
}

/// An edit of Timeout leaves all other variables as they are, and any other edit those of other names than Boot####, BootOrder
/// and BootNext.
pub fn edits_keep_other_variables()
    ensures { (vars : Variables) (edit : Edit) (to : Variables) (answer : EditAnswer) →
        IsEdited vars edit to answer → (name : List ℕ) → IsLeft edit name →
        map.get to name ≡ map.get vars name }
{}

/// An order has what was put in front, and what it had.
pub fn what_is_in_front_is_in_the_order()
    ensures { (numbers order : List ℕ) (number : ℕ) →
        is_in (in_front numbers order) number ≡ (is_in numbers number || is_in order number) }
{}

/// What is put in front is nowhere behind.
pub fn what_is_in_front_is_not_behind()
    ensures { (numbers order : List ℕ) (number : ℕ) →
        is_in numbers number ≡ true → is_in (without_all numbers order) number ≡ false }
{}

/// A new order has the numbers that it was given, and of the old ones those that pass the test.
pub fn what_is_left_is_in_the_order()
    ensures { (test : ℕ → Bool) (numbers order : List ℕ) (number : ℕ) →
        is_in (extended test numbers order) number
        ≡ (is_in numbers number || (test number && is_in order number)) }
{}

/// If the numbers that it was given are there once, then so is each number of the new order.
pub fn what_is_left_is_there_once()
    ensures { (test : ℕ → Bool) (numbers order : List ℕ) →
        repeats numbers ≡ false → repeats (extended test numbers order) ≡ false }
{}

/// If an entry is a load option, it is the same one with the bit set or cleared, but for that bit of its attributes.
pub fn a_switch_changes_one_bit()
    ensures { (active : Bool) (bytes : List ℕ) (option : OptionParts) → SpellsOption bytes option →
        SpellsOption (switched active bytes)
        (record option { attributes = with_bit_0 active option.attributes }) }
{}

/// What laws of the crates below say of how variables and load options are read.
fn variables_and_options_are_read_one_way()
    ensures { HasOneReading }
{
    vars_laws::variables_have_one_order();
    vars_laws::a_bad_order_gives_no_order();
    vars_laws::variables_have_one_next();
    vars_laws::a_bad_next_gives_no_next();
    option_laws::bytes_spell_one_option();
    option_laws::a_fault_leaves_no_option();
    option_laws::bytes_have_one_first_fault();
}
