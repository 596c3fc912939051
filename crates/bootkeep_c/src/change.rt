//! The changes from one set to another.

ghost use Rattle.std.specs.Prelude.{◌≡◌, ◌≢◌, true, map, IfOk, IfErr};
ghost use Rattle.std.specs.Option.{option_map};
ghost use Rattle.uefi_text.specs.Bytes.{Each};
ghost use Rattle.uefi_vars.specs.BootChange.{is_boot_name, change_parts};
ghost use Rattle.bootkeep_c.specs.declared.failure.Failure.{Failure};
ghost use Rattle.bootkeep_c.specs.Status.{bad_size};
ghost use Rattle.bootkeep_c.specs.Buffer.{IsKept};
ghost use Rattle.bootkeep_c.specs.Answers.{Answers};
ghost use Rattle.bootkeep_c.specs.Changes.{StandsForName, change_number, variable_of, TellsIfBoot, AreChangesBetween, IsPairFailure};

use crate::answer::answer;
use crate::failure::Failure;
use crate::refusal::Refusal;
use crate::status::BAD_SIZE;
use std::alloc::{AllocError, Global};
use uefi_vars::{BOOT_NEXT, BOOT_ORDER, BootChange, boot_changes, entry_number, laws, read_set};

/// What stands for BootOrder among the numbers of entries.
pub const VARIABLE_ORDER: u32 = 0x10001;

/// What stands for BootNext among the numbers of entries.
pub const VARIABLE_NEXT: u32 = 0x10002;

/// What stands for Timeout among the numbers of entries.
pub const VARIABLE_TIMEOUT: u32 = 0x10003;

/// The variable is new.
pub const CHANGE_ADDED: u32 = 1;

/// The variable has other data.
pub const CHANGE_REPLACED: u32 = 2;

/// The variable is taken out.
pub const CHANGE_REMOVED: u32 = 3;

/// How many bytes the struct of a change has.
const CHANGE_LEN: usize = 8;

/// A change of one variable of the boot manager: `struct bootkeep_change`.
#[repr(C)]
#[derive(Clone, Copy, Debug, PartialEq, Eq)]
pub struct ChangeNumbers {
    /// The number of the entry, [`VARIABLE_ORDER`], [`VARIABLE_NEXT`] or [`VARIABLE_TIMEOUT`].
    pub variable: u32,
    /// [`CHANGE_ADDED`], [`CHANGE_REPLACED`] or [`CHANGE_REMOVED`].
    pub kind: u32,
}

// As many bytes as the header asserts.
const _: () = prove!(size_of::<ChangeNumbers>() == CHANGE_LEN);

/// The changes that lead from one set to the boot manager's variables of another, in the order in which a machine is to
/// make them (UEFI 2.10, 3.3).
#[unsafe(no_mangle)]
pub extern "C" fn bootkeep_vars_changes(
    alloc: Global,
    from: &[u8],
    to: &[u8],
    changes: &mut [ChangeNumbers],
    item_size: usize,
    len: &mut usize,
    refusal: &mut Refusal,
) -> u32
    ensures size { item_size ≢ 8 → (result ≡ bad_size) × IsKept changes.old changes.new len.old len.new
        × (refusal.new ≡ refusal.old) }
    ensures answers { item_size ≡ 8 → Answers (AreChangesBetween from.now to.now) (IsPairFailure from.now to.now)
        result changes.old changes.new len.old len.new refusal.old refusal.new }
{
    if item_size != CHANGE_LEN {
        return BAD_SIZE;
    }
    let found = changes_between(alloc, from, to);
    answer(found, changes, len, refusal)
}

/// The numbers of the changes from one set to another.
fn changes_between(alloc: Global, from: &[u8], to: &[u8]) -> Result<Vec<ChangeNumbers>, Failure>
    ensures found { IfOk result (λ told. AreChangesBetween from.now to.now told.items) }
    ensures fault { IfErr result (λ failed. failed ≢ Failure.Memory → IsPairFailure from.now to.now failed) }
{
    let before = read_set(alloc, from)?;
    let after = read_set(alloc, to)?;
    let changes = boot_changes(alloc, &before, &after)?;
    let told = numbers_of(alloc, &changes)?;
    Ok(told)
}

/// The numbers of these changes.
fn numbers_of(alloc: Global, changes: &[BootChange<'_>]) -> Result<Vec<ChangeNumbers>, AllocError>
    ensures { IfOk result (λ told. Each TellsIfBoot (map change_parts changes.now) told.items) }
{
    let mut told = Vec::with_capacity(alloc, changes.len())?;
    for change in changes {
        told.push(numbers_for(change))?;
    }
    Ok(told)
}

/// The numbers of a change.
fn numbers_for(change: &BootChange<'_>) -> ChangeNumbers
    ensures { TellsIfBoot (change_parts change.now) result }
{
    ChangeNumbers {
        variable: variable_number(change.name),
        kind: change_number(change.before, change.after),
    }
}

/// What stands for a variable of the boot manager.
fn variable_number(name: &str) -> u32
    ensures { is_boot_name name.now ≡ true → StandsForName result name.now }
{
    laws::constants_are_those_of_the_definitions();
    standing_for(entry_number(name), name == BOOT_ORDER, name == BOOT_NEXT)
}

/// What stands for the variable of an entry's number, if it is one, or of BootOrder, or of BootNext, or otherwise of Timeout.
fn standing_for(entry: Option<u16>, is_order: bool, is_next: bool) -> u32
    ensures { result ≡ variable_of entry is_order is_next }
{
    match (entry, is_order, is_next) {
        (Some(number), _, _) => u32::from(number),
        (None, true, _) => VARIABLE_ORDER,
        (None, false, true) => VARIABLE_NEXT,
        (None, false, false) => VARIABLE_TIMEOUT,
    }
}

/// What stands for a change from this data to that.
fn change_number(before: Option<&[u8]>, after: Option<&[u8]>) -> u32
    ensures { result ≡ change_number (option_map (λ bytes. bytes.now) before.entry) (option_map (λ bytes. bytes.now) after.entry) }
{
    match (before, after) {
        (None, _) => CHANGE_ADDED,
        (Some(_), Some(_)) => CHANGE_REPLACED,
        (Some(_), None) => CHANGE_REMOVED,
    }
}
