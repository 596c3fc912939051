//! All entries of profiles.

ghost use Rattle.std.specs.Prelude.{◌≡◌, ◌↔◌, ◌<◌, length, IfOk, IfErr, IsTrue};
ghost use Rattle.boot_journal.specs.Cause.{IfRefused};
ghost use Rattle.boot_profiles.specs.Applied.{IsAmong, IsStep, IsStepFault, AreSteps};
ghost use Rattle.boot_profiles.specs.Steps.{IsStepAt, IsStepFaultAt, IsStepsRefusal, IsErrorAt};
ghost use Rattle.boot_profiles.specs.declared.fault.ProfileFault.{ProfileFault};
ghost use Rattle.boot_profiles.specs.declared.fault.EntryFault.{EntryFault};

use crate::description::Description;
use crate::entry::with_entry;
use crate::fault::{EntryFault, ProfileFault};
use crate::profile::ProfileEntry;
use boot_journal::CallError;
use std::alloc::Global;
use uefi_vars::Vars;

/// What becomes of variables by these entries, one after the other.
pub(crate) fn with_entries(
    alloc: Global,
    vars: &Vars,
    entries: &[ProfileEntry],
) -> Result<Vars, CallError<ProfileFault>>
    ensures done { IfOk result (AreSteps entries.now vars.now) }
    ensures refused { IfErr result (λ error. IfRefused error (IsStepsRefusal entries.now vars.now)) }
{
    let mut now = vars.copy(alloc)?;
    for place in 0..entries.len() {
        now = step_at(alloc, &now, entries, place)?;
    }
    Ok(now)
}

/// What becomes of variables by the entry at this place.
fn step_at(
    alloc: Global,
    vars: &Vars,
    entries: &[ProfileEntry],
    place: usize,
) -> Result<Vars, CallError<ProfileFault>>
    requires { place < length entries.now }
    ensures done { IfOk result (IsStepAt vars.now entries.now place) }
    ensures refused { IfErr result (λ error. IfRefused error (IsStepFaultAt vars.now entries.now place)) }
{
    match step(alloc, vars, &entries[place], &entries[place + 1..]) {
        Ok(to) => Ok(to),
        Err(error) => Err(error_at(place, error)),
    }
}

/// What becomes of variables by an entry, after which the others come.
fn step(
    alloc: Global,
    vars: &Vars,
    entry: &ProfileEntry,
    others: &[ProfileEntry],
) -> Result<Vars, CallError<EntryFault>>
    ensures done { IfOk result (IsStep vars.now entry.now others.now) }
    ensures refused { IfErr result (λ error. IfRefused error (IsStepFault vars.now entry.now others.now)) }
{
    if is_among(others, &entry.description) {
        return Err(CallError::Refused(EntryFault::Twice));
    }
    match with_entry(alloc, vars, entry) {
        Ok(to) => Ok(to),
        Err(error) => Err(error),
    }
}

/// Whether one of these entries has the description.
fn is_among(entries: &[ProfileEntry], description: &Description) -> bool
    ensures { IsTrue result ↔ IsAmong entries.now description.now }
{
    for place in 0..entries.len() {
        if is_same(&entries[place].description, description) {
            return true;
        }
    }
    false
}

/// Whether the two are one description.
fn is_same(a: &Description, b: &Description) -> bool
    ensures { IsTrue result ↔ (a.now ≡ b.now) }
{
    a.as_bytes() == b.as_bytes()
}

/// What it is to a profile that its entry at this place makes nothing.
fn error_at(place: usize, error: CallError<EntryFault>) -> CallError<ProfileFault>
    ensures { IsErrorAt place error result }
{
    match error {
        CallError::OutOfMemory => CallError::OutOfMemory,
        CallError::Refused(fault) => CallError::Refused(ProfileFault::Entry(place, fault)),
    }
}
