//! Entries that are the same load option.

ghost use Rattle.std.specs.Prelude.{◌≡◌, ◌≢◌, ◌↔◌, ℕ, Some, None, IfSome, IsTrue};
ghost use Rattle.uefi_option.specs.LoadOption.{OptionParts, IsOption};
ghost use Rattle.uefi_option.specs.View.{ShowsOption};
ghost use Rattle.boot_edits.specs.Addition.{IsSameOption, IsSame, IsLowestSame};
ghost use Rattle.boot_edits.specs.Steps.{IsSameEntry};

use uefi_option::{OptionView, check_option, laws as option_laws};
use uefi_vars::{Vars, entry_number};

/// The lowest number of an entry that is a load option with the same description and the same paths, if there is one. The
/// variables are gone over once.
pub(crate) fn same_entry(vars: &Vars, option: &OptionView<'_>) -> Option<u16>
    ensures found { (parts : OptionParts) → IsOption parts → ShowsOption option.now parts →
        IfSome result (IsLowestSame vars.now parts) }
    ensures only { (parts : OptionParts) → IsOption parts → ShowsOption option.now parts → (number : ℕ) →
        IsSame vars.now parts number → result ≢ None }
{
    for (name, bytes) in vars.iter() {
        let found = same_number(name, bytes, option);
        if found.is_some() {
            return found;
        }
    }
    None
}

/// The number of the entry that has this name, if it is one, and its bytes are such a load option.
fn same_number(name: &str, bytes: &[u8], option: &OptionView<'_>) -> Option<u16>
    ensures found { (parts : OptionParts) → IsOption parts → ShowsOption option.now parts →
        IfSome result (IsSameEntry parts (name.now, bytes.now)) }
    ensures only { (parts : OptionParts) → IsOption parts → ShowsOption option.now parts → (number : ℕ) →
        IsSameEntry parts (name.now, bytes.now) number → result ≡ Some number }
{
    let number = entry_number(name)?;
    if !is_same(bytes, option) {
        return None;
    }
    Some(number)
}

/// Whether the bytes are a load option with the same description and the same paths.
fn is_same(bytes: &[u8], option: &OptionView<'_>) -> bool
    ensures { (parts : OptionParts) → IsOption parts → ShowsOption option.now parts →
        IsTrue result ↔ IsSameOption parts bytes.now }
{
    option_laws::bytes_spell_one_option();
    match check_option(bytes) {
        Ok(other) => is_shown_so(&other, option),
        Err(_) => false,
    }
}

/// Whether the two show the same description and the same paths.
fn is_shown_so(other: &OptionView<'_>, option: &OptionView<'_>) -> bool
    ensures { IsTrue result ↔ ((other.now.description.now ≡ option.now.description.now)
        × (other.now.list.now ≡ option.now.list.now)) }
{
    other.description == option.description && other.list == option.list
}
