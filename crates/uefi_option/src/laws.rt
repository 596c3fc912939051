//! Laws of the definitions. Each function's contract is one law; calling it does nothing.

ghost use Rattle.std.specs.Prelude.{◌≡◌, ◌⊎◌, ◌↔◌, ℕ, List, IsTrue};
ghost use Rattle.std.specs.List.{AllByRecursion};
ghost use Rattle.uefi_path.specs.Row.{IsByte};
ghost use Rattle.uefi_option.specs.declared.fault.OptionFault.{OptionFault};
ghost use Rattle.uefi_option.specs.Attributes.{active_bit, category_bits, category_boot};
ghost use Rattle.uefi_option.specs.LoadOption.{OptionParts, list_max, IsOption, SpellsOption};
ghost use Rattle.uefi_option.specs.Fault.{IsFirstFault};

use crate::attributes::{ACTIVE, CATEGORY, CATEGORY_APP, CATEGORY_BOOT, FORCE_RECONNECT, HIDDEN};
use crate::fault::OptionFault;
use crate::load_option::{LIST_MAX, LoadOption};
use uefi_path::laws as path_laws;

/// Each load option whose numbers are in their ranges has a spelling, of bytes.
pub fn each_option_is_spelled()
    ensures { (option : OptionParts) → IsOption option →
        (bytes : List ℕ) × SpellsOption bytes option × AllByRecursion IsByte bytes }
{
    path_laws::each_path_is_spelled();
    path_laws::units_have_two_bytes_each();
}

/// A load option has at most one spelling.
pub fn an_option_has_one_spelling()
    ensures { (option : OptionParts) (a b : List ℕ) →
        SpellsOption a option → SpellsOption b option → a ≡ b }
{}

/// Bytes spell at most one load option.
pub fn bytes_spell_one_option()
    ensures { (bytes : List ℕ) (o p : OptionParts) →
        SpellsOption bytes o → SpellsOption bytes p → o ≡ p }
{
    path_laws::bytes_spell_one_path();
    path_laws::no_path_begins_another();
}

/// Bytes spell a load option, or have a first fault.
pub fn bytes_spell_an_option_or_have_a_fault()
    ensures { (bytes : List ℕ) → AllByRecursion IsByte bytes →
        ((option : OptionParts) × SpellsOption bytes option)
        ⊎ ((fault : OptionFault) × IsFirstFault bytes fault) }
{
    path_laws::bytes_begin_with_a_path_or_have_a_fault();
}

/// Bytes that have a first fault spell no load option.
pub fn a_fault_leaves_no_option()
    ensures { (bytes : List ℕ) (fault : OptionFault) (option : OptionParts) →
        IsFirstFault bytes fault → SpellsOption bytes option → ⊥ }
{
    path_laws::bytes_spell_one_path();
    path_laws::no_path_begins_another();
    path_laws::a_fault_leaves_no_path();
}

/// Bytes have at most one first fault.
pub fn bytes_have_one_first_fault()
    ensures { (bytes : List ℕ) (f g : OptionFault) →
        IsFirstFault bytes f → IsFirstFault bytes g → f ≡ g }
{
    path_laws::bytes_spell_one_path();
    path_laws::no_path_begins_another();
    path_laws::a_fault_leaves_no_path();
    path_laws::bytes_have_one_first_fault();
}

/// `==` on load options tells whether they are equal.
pub fn load_options_compare_as_values()
    ensures { (a b : OptionParts) → IsTrue (⟦<LoadOption as PartialEq>⟧.eq a b) ↔ (a ≡ b) }
{
    path_laws::paths_compare_as_values();
}

/// `==` on the faults of load options tells whether they are equal.
pub fn option_faults_compare_as_values()
    ensures { (a b : OptionFault) → IsTrue (⟦<OptionFault as PartialEq>⟧.eq a b) ↔ (a ≡ b) }
{}

/// The public constants are the numbers of the standard (UEFI 2.10, 3.1.3).
pub fn constants_are_the_standards_numbers()
    ensures active { ACTIVE ≡ active_bit }
    ensures force_reconnect { FORCE_RECONNECT ≡ 0x00000002 }
    ensures hidden { HIDDEN ≡ 0x00000008 }
    ensures category { CATEGORY ≡ category_bits }
    ensures category_boot { CATEGORY_BOOT ≡ category_boot }
    ensures category_app { CATEGORY_APP ≡ 0x00000100 }
    ensures list_max { LIST_MAX ≡ list_max }
{}
