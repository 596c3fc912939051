//! Descriptions that name entries.

ghost use Rattle.std.specs.Prelude.{◌≡◌, ◌<◌, [], ◌∷◌, ◌++◌, length, IfOk, IfErr, OnOk};
ghost use Rattle.boot_journal.specs.Cause.{IfRefused};
ghost use Rattle.boot_profiles.specs.Described.{IsNamed};
ghost use Rattle.boot_profiles.specs.Order.{AreNamed, IsNameFault};
ghost use Rattle.boot_profiles.specs.Steps.{IsNameRefusal, IsNameAt, IsNameFaultAt, IsNameErrorAt};

use crate::described::{Found, find};
use crate::description::Description;
use crate::fault::{NameFault, ProfileFault};
use boot_journal::CallError;
use std::alloc::{AllocError, Global};
use uefi_vars::Vars;

/// The numbers of the entries that these descriptions name, one for each.
pub(crate) fn numbers_named(
    alloc: Global,
    vars: &Vars,
    names: &[Description],
) -> Result<Vec<u16>, CallError<ProfileFault>>
    ensures named { IfOk result (λ numbers. AreNamed vars.now names.now numbers.items) }
    ensures refused { IfErr result (λ error. IfRefused error (IsNameRefusal vars.now names.now)) }
{
    let mut numbers = Vec::new(alloc);
    for place in 0..names.len() {
        let number = number_at(alloc, vars, names, place)?;
        push(&mut numbers, number)?;
    }
    Ok(numbers)
}

/// Appends the number.
fn push(numbers: &mut Vec<u16>, number: u16) -> Result<(), AllocError>
    ensures { OnOk result (numbers.new.items ≡ numbers.old.items ++ number ∷ []) }
{
    numbers.push(number)?;
    Ok(())
}

/// The number of the entry that the description at this place names.
fn number_at(
    alloc: Global,
    vars: &Vars,
    names: &[Description],
    place: usize,
) -> Result<u16, CallError<ProfileFault>>
    requires { place < length names.now }
    ensures named { IfOk result (IsNameAt vars.now names.now place) }
    ensures refused { IfErr result (λ error. IfRefused error (IsNameFaultAt vars.now names.now place)) }
{
    match number_named(alloc, vars, &names[place]) {
        Ok(number) => Ok(number),
        Err(error) => Err(name_error_at(place, error)),
    }
}

/// The number of the entry that the description names.
pub(crate) fn number_named(
    alloc: Global,
    vars: &Vars,
    name: &Description,
) -> Result<u16, CallError<NameFault>>
    ensures named { IfOk result (IsNamed vars.now name.now) }
    ensures refused { IfErr result (λ error. IfRefused error (IsNameFault vars.now name.now)) }
{
    match find(alloc, vars, name)? {
        Found::Nothing => Err(CallError::Refused(NameFault::Unknown)),
        Found::One(number) => Ok(number),
        Found::Several => Err(CallError::Refused(NameFault::Ambiguous)),
    }
}

/// What it is to a profile that the description at this place of its order names no entry.
fn name_error_at(place: usize, error: CallError<NameFault>) -> CallError<ProfileFault>
    ensures { IsNameErrorAt place error result }
{
    match error {
        CallError::OutOfMemory => CallError::OutOfMemory,
        CallError::Refused(fault) => CallError::Refused(ProfileFault::OrderName(place, fault)),
    }
}
