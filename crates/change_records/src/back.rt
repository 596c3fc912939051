//! What undoing a change brings back.

ghost use Rattle.std.specs.Prelude.{◌≡◌, ◌↔◌, IfOk, IsTrue};
ghost use Rattle.std.specs.Option.{option_map};
ghost use Rattle.change_records.specs.Back.{IsNextGone, IsWanted};
ghost use Rattle.change_records.specs.Record.{record_parts};

use crate::record::Record;
use crate::stands::without_next;
use std::alloc::{AllocError, Global};
use uefi_vars::{BOOT_NEXT, Vars, laws as vars_laws};

/// What is to be there again where these variables are now, if the change is undone: what was there before it, without a
/// BootNext if the one that the change left isn't there any more, nor the one before it (UEFI 2.10, 3.3). A start may have
/// used that, and would otherwise be made by it once more.
///
/// # Errors
///
/// [`AllocError`] if memory was refused.
pub fn wanted_back(alloc: Global, change: &Record, now: &Vars) -> Result<Vars, AllocError>
    ensures { IfOk result (IsWanted (record_parts change.now) now.now) }
{
    let before = change.before.copy(alloc)?;
    if is_next_gone(change, now) {
        Ok(without_next(before))
    } else {
        Ok(before)
    }
}

/// Whether the BootNext that a change left isn't there any more, and the one before it isn't there again.
fn is_next_gone(change: &Record, now: &Vars) -> bool
    ensures { IsTrue result ↔ IsNextGone (record_parts change.now) now.now }
{
    vars_laws::constants_are_those_of_the_definitions();
    match change.after.get(BOOT_NEXT) {
        Some(left) => {
            let next = now.get(BOOT_NEXT);
            !is_same(next, Some(left)) && !is_same(next, change.before.get(BOOT_NEXT))
        }
        None => false,
    }
}

/// Whether the two are the same value, or there is neither.
fn is_same(one: Option<&[u8]>, other: Option<&[u8]>) -> bool
    ensures { IsTrue result ↔ (option_map (λ b. b.now) one.entry ≡ option_map (λ b. b.now) other.entry) }
{
    match (one, other) {
        (Some(one), Some(other)) => one == other,
        (None, None) => true,
        _ => false,
    }
}
