//! Laws of the definitions. Each function's contract is one law; calling it does nothing.

ghost use Rattle.std.specs.Prelude.{◌≡◌, ℕ, List, Some};
ghost use Rattle.std.specs.FinMap as map;
ghost use Rattle.uefi_vars.specs.Name.{timeout_text};
ghost use Rattle.uefi_vars.specs.Order.{IsEntryNumber};
ghost use Rattle.uefi_vars.specs.Vars.{Variables, IsVars, entry_of};
ghost use Rattle.boot_edits.specs.Readings.{HasOneReading};
ghost use Rattle.boot_profiles.specs.Applied.{IsApplied, IsProfileFault};
ghost use Rattle.boot_profiles.specs.Left.{IsOfOthers, IsNoBootName};
ghost use Rattle.boot_profiles.specs.Met.{IsMet};
ghost use Rattle.boot_profiles.specs.declared.fault.ProfileFault.{ProfileFault};
ghost use Rattle.boot_profiles.specs.declared.profile.Profile.{Profile};
ghost use Rattle.boot_profiles.specs.declared.profile.ProfileTimeout.TheVariants as timeout;

use boot_edits::laws as edit_laws;
use uefi_option::laws as option_laws;
use uefi_vars::laws as vars_laws;

/// After a profile is applied, the variables have what it says.
pub fn what_is_applied_is_met()
    ensures { (profile : Profile) (from to : Variables) → IsApplied profile from to → IsMet profile to }
{
    option_laws::bytes_spell_one_option();
    edit_laws::a_switch_changes_one_bit();
}

/// To variables that have what it says, a profile is applied by changing nothing.
pub fn what_is_met_is_applied()
    ensures { (profile : Profile) (vars : Variables) → IsVars vars → IsMet profile vars → IsApplied profile vars vars }
{
    edit_laws::a_switch_changes_one_bit();
}

/// A profile has at most one outcome.
pub fn a_profile_has_one_outcome()
    ensures { (profile : Profile) (from a b : Variables) → IsApplied profile from a → IsApplied profile from b → a ≡ b }
{
    variables_and_options_are_read_one_way();
}

/// A profile that is refused has no outcome.
pub fn a_fault_leaves_no_outcome()
    ensures { (profile : Profile) (from to : Variables) (fault : ProfileFault) →
        IsApplied profile from to → IsProfileFault profile from fault → ⊥ }
{
    variables_and_options_are_read_one_way();
}

/// Applied again, a profile changes nothing, and isn't refused.
pub fn applied_again_a_profile_changes_nothing()
    ensures unchanged { (profile : Profile) (from to again : Variables) → IsVars to →
        IsApplied profile from to → IsApplied profile to again → again ≡ to }
    ensures unrefused { (profile : Profile) (from to : Variables) (fault : ProfileFault) → IsVars to →
        IsApplied profile from to → IsProfileFault profile to fault → ⊥ }
{
    what_is_applied_is_met();
    what_is_met_is_applied();
    a_profile_has_one_outcome();
    a_fault_leaves_no_outcome();
}

/// What a profile doesn't name stays as it is: entries of other descriptions and those that are no load option, of
/// which none comes either; variables of other names; and Timeout, if nothing is said of it.
pub fn what_is_not_named_stays()
    ensures entries { (profile : Profile) (from to : Variables) (number : ℕ) (bytes : List ℕ) →
        IsApplied profile from to → IsEntryNumber number → IsOfOthers profile bytes →
        entry_of from number ≡ Some bytes → entry_of to number ≡ Some bytes }
    ensures none_comes { (profile : Profile) (from to : Variables) (number : ℕ) (bytes : List ℕ) →
        IsApplied profile from to → IsEntryNumber number → IsOfOthers profile bytes →
        entry_of to number ≡ Some bytes → entry_of from number ≡ Some bytes }
    ensures others { (profile : Profile) (from to : Variables) (name : List ℕ) →
        IsApplied profile from to → IsNoBootName name → map.get to name ≡ map.get from name }
    ensures timeout { (profile : Profile) (from to : Variables) →
        IsApplied profile from to → profile.timeout ≡ timeout.Kept →
        map.get to timeout_text ≡ map.get from timeout_text }
{
    edit_laws::a_switch_changes_one_bit();
}

/// What laws of the crates below say of how variables and load options are read.
fn variables_and_options_are_read_one_way()
    ensures { HasOneReading }
{
    vars_laws::variables_have_one_order();
    vars_laws::a_bad_order_gives_no_order();
    vars_laws::variables_have_one_next();
    vars_laws::a_bad_next_gives_no_next();
    option_laws::bytes_spell_one_option();
    option_laws::a_fault_leaves_no_option();
    option_laws::bytes_have_one_first_fault();
}
