//! Whole profiles.

ghost use Rattle.std.specs.Prelude.{IfOk, IfErr};
ghost use Rattle.boot_journal.specs.Cause.{IfRefused};
ghost use Rattle.boot_profiles.specs.Applied.{AreSteps, IsOrdered, IsApplied, IsProfileFault};
ghost use Rattle.boot_profiles.specs.Order.{IsNextStep};
ghost use Rattle.boot_profiles.specs.Steps.{IsOrderedFault, IsNextErrorOf};

use crate::entries::with_entries;
use crate::fault::{NameFault, ProfileFault};
use crate::next::with_next;
use crate::order::with_order;
use crate::profile::Profile;
use crate::timeout::with_timeout;
use boot_journal::CallError;
use std::alloc::Global;
use uefi_vars::Vars;

/// What becomes of variables by this profile. They have data alone, without attributes. Its entries are taken one after
/// the other: one that is to be there and isn't gets the lowest free number and comes last in BootOrder, one that is
/// there keeps its number and its place. Then BootOrder, BootNext and Timeout become what they are to be. Applied
/// again, it changes nothing.
///
/// # Errors
///
/// The first of these. [`ProfileFault::Entry`] for the first entry that can't be made so, over what those before it
/// have made: [`EntryFault::Twice`] if one after it has the same description. If it is to be there,
/// [`EntryFault::BadOption`] or [`EntryFault::OtherDescription`] if its option isn't one with its description;
/// otherwise [`EntryFault::Ambiguous`] if several entries of the variables have it; otherwise [`EntryFault::Edit`] with
/// [`EditFault::NoFree`], [`EditFault::OptionTooLong`], [`EditFault::BadOrder`] or [`EditFault::OrderTooLong`] if there
/// is no number, no room or no place for it. If it isn't to be there and is, [`EntryFault::Edit`] with
/// [`EditFault::BadOrder`] or [`EditFault::BadNext`] if those can't be read.
///
/// [`ProfileFault::OrderName`] for the first description of the order that names no entry, and [`ProfileFault::Order`]
/// with [`EditFault::Twice`] if an entry is named twice, or [`EditFault::OrderTooLong`]. [`ProfileFault::Next`] if the
/// description of what the next boot is to try names no entry.
///
/// [`CallError::OutOfMemory`] if memory was refused.
///
/// [`EntryFault::Twice`]: crate::EntryFault::Twice
/// [`EntryFault::BadOption`]: crate::EntryFault::BadOption
/// [`EntryFault::OtherDescription`]: crate::EntryFault::OtherDescription
/// [`EntryFault::Ambiguous`]: crate::EntryFault::Ambiguous
/// [`EntryFault::Edit`]: crate::EntryFault::Edit
/// [`EditFault::NoFree`]: boot_edits::EditFault::NoFree
/// [`EditFault::OptionTooLong`]: boot_edits::EditFault::OptionTooLong
/// [`EditFault::BadOrder`]: boot_edits::EditFault::BadOrder
/// [`EditFault::OrderTooLong`]: boot_edits::EditFault::OrderTooLong
/// [`EditFault::BadNext`]: boot_edits::EditFault::BadNext
/// [`EditFault::Twice`]: boot_edits::EditFault::Twice
pub fn apply(alloc: Global, vars: &Vars, profile: &Profile) -> Result<Vars, CallError<ProfileFault>>
    ensures done { IfOk result (IsApplied profile.now vars.now) }
    ensures refused { IfErr result (λ error. IfRefused error (IsProfileFault profile.now vars.now)) }
{
    match ordered(alloc, vars, profile) {
        Ok(between) => after_order(alloc, vars, profile, &between),
        Err(error) => Err(error),
    }
}

/// The entries, and then BootOrder.
fn ordered(alloc: Global, vars: &Vars, profile: &Profile) -> Result<Vars, CallError<ProfileFault>>
    ensures done { IfOk result (IsOrdered profile.now vars.now) }
    ensures refused { IfErr result (λ error. IfRefused error (IsOrderedFault profile.now vars.now)) }
{
    match with_entries(alloc, vars, &profile.entries) {
        Ok(between) => after_entries(alloc, vars, profile, &between),
        Err(error) => Err(error),
    }
}

/// BootOrder, once the entries have made those between.
fn after_entries(
    alloc: Global,
    vars: &Vars,
    profile: &Profile,
    between: &Vars,
) -> Result<Vars, CallError<ProfileFault>>
    requires { AreSteps profile.now.entries.items vars.now between.now }
    ensures done { IfOk result (IsOrdered profile.now vars.now) }
    ensures refused { IfErr result (λ error. IfRefused error (IsOrderedFault profile.now vars.now)) }
{
    let _vars = vars;
    match with_order(alloc, between, &profile.order) {
        Ok(to) => Ok(to),
        Err(error) => Err(error),
    }
}

/// BootNext and Timeout, once the entries and BootOrder have made those between.
fn after_order(
    alloc: Global,
    vars: &Vars,
    profile: &Profile,
    between: &Vars,
) -> Result<Vars, CallError<ProfileFault>>
    requires { IsOrdered profile.now vars.now between.now }
    ensures done { IfOk result (IsApplied profile.now vars.now) }
    ensures refused { IfErr result (λ error. IfRefused error (IsProfileFault profile.now vars.now)) }
{
    match with_next(alloc, between, &profile.next) {
        Ok(with_next) => after_next(alloc, vars, profile, between, &with_next),
        Err(error) => Err(next_error(error)),
    }
}

/// Timeout, once all else is made.
fn after_next(
    alloc: Global,
    vars: &Vars,
    profile: &Profile,
    between: &Vars,
    with_next: &Vars,
) -> Result<Vars, CallError<ProfileFault>>
    requires ordered { IsOrdered profile.now vars.now between.now }
    requires next { IsNextStep between.now profile.now.next with_next.now }
    ensures done { IfOk result (IsApplied profile.now vars.now) }
    ensures refused { IfErr result (λ error. IfRefused error (IsProfileFault profile.now vars.now)) }
{
    let _vars = vars;
    let _between = between;
    Ok(with_timeout(alloc, with_next, profile.timeout)?)
}

/// What it is to a profile that the description of what the next boot is to try names no entry.
fn next_error(error: CallError<NameFault>) -> CallError<ProfileFault>
    ensures { IsNextErrorOf error result }
{
    match error {
        CallError::OutOfMemory => CallError::OutOfMemory,
        CallError::Refused(fault) => CallError::Refused(ProfileFault::Next(fault)),
    }
}
