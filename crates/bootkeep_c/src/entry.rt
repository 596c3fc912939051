//! Entries of sets: the lowest free number, and what a boot makes of an entry.

ghost use Rattle.std.specs.Prelude.{◌≡◌, ◌≢◌, ℕ, IfOk, IfErr};
ghost use Rattle.uefi_vars.specs.Vars.{entry_of};
ghost use Rattle.bootkeep_c.specs.declared.failure.Failure.{Failure};
ghost use Rattle.bootkeep_c.specs.Answers.{TellsValue};
ghost use Rattle.bootkeep_c.specs.Sets.{IsSetFailure};
ghost use Rattle.bootkeep_c.specs.Entries.{IsFreeIn, state_number, IsStateOf, IsEntryState, IsStateIn};

use crate::answer::tell;
use crate::failure::Failure;
use crate::refusal::Refusal;
use crate::set::number_or_none;
use std::alloc::Global;
use uefi_option::{check_option, is_active, is_normal, laws};
use uefi_vars::{Vars, lowest_free, read_set};

/// The entry is tried where BootOrder names it.
pub const ENTRY_NORMAL: u32 = 0;

/// No entry has the number.
pub const ENTRY_ABSENT: u32 = 1;

/// What is stored under the number is no load option.
pub const ENTRY_UNDECODABLE: u32 = 2;

/// The entry isn't active.
pub const ENTRY_INACTIVE: u32 = 3;

/// The entry is active, and of another category than the normal boot.
pub const ENTRY_OTHER_CATEGORY: u32 = 4;

/// What a boot makes of an entry that BootOrder names (UEFI 2.10, 3.1.3 and 3.3).
#[derive(Clone, Copy, Debug)]
pub enum EntryState {
    /// It is tried.
    Normal,
    /// It isn't there.
    Absent,
    /// It is no load option.
    Undecodable,
    /// It isn't active.
    Inactive,
    /// It is active, and of another category than the normal boot.
    OtherCategory,
}

impl EntryState {
    /// The state of an option of these attributes.
    fn from_attributes(attributes: u32) -> EntryState
        ensures { IsStateOf attributes result }
    {
        if is_normal(attributes) {
            EntryState::Normal
        } else if is_active(attributes) {
            EntryState::OtherCategory
        } else {
            EntryState::Inactive
        }
    }

    /// The number by which C is told of it.
    pub(crate) fn number(self) -> u32
        ensures { result ≡ state_number self }
    {
        match self {
            EntryState::Normal => ENTRY_NORMAL,
            EntryState::Absent => ENTRY_ABSENT,
            EntryState::Undecodable => ENTRY_UNDECODABLE,
            EntryState::Inactive => ENTRY_INACTIVE,
            EntryState::OtherCategory => ENTRY_OTHER_CATEGORY,
        }
    }
}

/// The lowest number under which the set has no entry (UEFI 2.10, 3.3), or what stands for none.
#[unsafe(no_mangle)]
pub extern "C" fn bootkeep_vars_lowest_free(
    alloc: Global,
    set: &[u8],
    number: &mut u32,
    refusal: &mut Refusal,
) -> u32
    ensures { TellsValue (IsFreeIn set.now) (IsSetFailure set.now) result number.old number.new refusal.old refusal.new }
{
    tell(free_in(alloc, set), number, refusal)
}

/// What a boot makes of the entry of this number, if BootOrder names it (UEFI 2.10, 3.1.3 and 3.3).
#[unsafe(no_mangle)]
pub extern "C" fn bootkeep_vars_entry(
    alloc: Global,
    set: &[u8],
    number: u16,
    state: &mut u32,
    refusal: &mut Refusal,
) -> u32
    ensures { TellsValue (IsStateIn set.now number) (IsSetFailure set.now)
        result state.old state.new refusal.old refusal.new }
{
    tell(state_in(alloc, set, number), state, refusal)
}

/// The lowest number under which the set has no entry, or what stands for none.
fn free_in(alloc: Global, set: &[u8]) -> Result<u32, Failure>
    ensures found { IfOk result (λ told. IsFreeIn set.now told) }
    ensures fault { IfErr result (λ failed. failed ≢ Failure.Memory → IsSetFailure set.now failed) }
{
    let vars = read_set(alloc, set)?;
    Ok(number_or_none(lowest_free(&vars)))
}

/// The number of the state of an entry of the set.
fn state_in(alloc: Global, set: &[u8], number: u16) -> Result<u32, Failure>
    ensures found { IfOk result (λ told. IsStateIn set.now number told) }
    ensures fault { IfErr result (λ failed. failed ≢ Failure.Memory → IsSetFailure set.now failed) }
{
    let vars = read_set(alloc, set)?;
    Ok(state_of(&vars, number).number())
}

/// The state of the entry of this number.
pub(crate) fn state_of(vars: &Vars, number: u16) -> EntryState
    ensures { IsEntryState (entry_of vars.now) number result }
{
    laws::a_fault_leaves_no_option();
    let Some(bytes) = vars.entry(number) else {
        return EntryState::Absent;
    };
    match check_option(bytes) {
        Ok(view) => EntryState::from_attributes(view.attributes),
        Err(_) => EntryState::Undecodable,
    }
}
