//! Entries by their descriptions.

ghost use Rattle.std.specs.Prelude.{◌≡◌, ◌↔◌, ℕ, Some, IsTrue, IfOk, IfSome};
ghost use Rattle.uefi_vars.specs.AtRisk.{AreThose};
ghost use Rattle.boot_profiles.specs.Described.{HasDescription, IsNumberOf};
ghost use Rattle.boot_profiles.specs.Steps.{IsVariableOf, IsNumberAt, IsFound, IsFoundIn};

use crate::description::Description;
use std::alloc::{AllocError, Global};
use uefi_option::{check_option, laws as option_laws};
use uefi_vars::{Vars, entry_number};

/// What is found of a description.
#[derive(Clone, Copy)]
pub(crate) enum Found {
    /// No entry has it.
    Nothing,
    /// This entry has it, and no other one.
    One(u16),
    /// Several entries have it.
    Several,
}

/// What is found of this description.
pub(crate) fn find(
    alloc: Global,
    vars: &Vars,
    description: &Description,
) -> Result<Found, AllocError>
    ensures { IfOk result (IsFound vars.now description.now) }
{
    let numbers = numbers_of(alloc, vars, description)?;
    Ok(found_in(&numbers))
}

/// How many numbers these are.
fn found_in(numbers: &[u16]) -> Found
    ensures { IsFoundIn numbers.now result }
{
    match numbers {
        [] => Found::Nothing,
        [number] => Found::One(*number),
        _ => Found::Several,
    }
}

/// The numbers of the entries with this description, rising. The variables are gone over once.
pub(crate) fn numbers_of(
    alloc: Global,
    vars: &Vars,
    description: &Description,
) -> Result<Vec<u16>, AllocError>
    ensures { IfOk result (λ numbers. AreThose (IsNumberOf vars.now description.now) numbers.items) }
{
    let mut numbers = Vec::new(alloc);
    for place in 0..vars.len() {
        if let Some(number) = number_at(vars, place, description) {
            numbers.push(number)?;
        }
    }
    Ok(numbers)
}

/// The number of the entry that is the variable at this place, if it is one and has the description.
fn number_at(vars: &Vars, place: usize, description: &Description) -> Option<u16>
    ensures found { IfSome result (IsNumberAt vars.now place description.now) }
    ensures only { (number : ℕ) → IsNumberAt vars.now place description.now number → result ≡ Some number }
{
    let (name, bytes) = vars.item(place)?;
    number_in(name, bytes, description)
}

/// The number of the entry of this name, if it is one, and its bytes have the description.
fn number_in(name: &str, bytes: &[u8], description: &Description) -> Option<u16>
    ensures found { IfSome result (IsVariableOf description.now (name.now, bytes.now)) }
    ensures only { (number : ℕ) → IsVariableOf description.now (name.now, bytes.now) number → result ≡ Some number }
{
    let number = entry_number(name)?;
    if has_description(bytes, description) {
        Some(number)
    } else {
        None
    }
}

/// Whether the bytes are a load option with this description.
pub(crate) fn has_description(bytes: &[u8], description: &Description) -> bool
    ensures { IsTrue result ↔ HasDescription bytes.now description.now }
{
    option_laws::bytes_spell_one_option();
    match check_option(bytes) {
        Ok(view) => view.description == description.as_bytes(),
        Err(_) => false,
    }
}
