//! Sets, and what a machine keeps: the same with attributes.

ghost use Rattle.std.specs.Prelude.{◌≡◌, IfOk};
ghost use Rattle.boot_journal.specs.Attributes.{data_of};

use boot_journal::{AttributesFault, without_attributes};
use messages::Failure;
use std::alloc::Global;
use uefi_vars::Vars;

/// The sets before and after a change of a machine's variables: without attributes.
#[derive(Drop)]
pub struct Sets {
    /// The variables before it.
    pub from: Vars,
    /// The variables after it.
    pub to: Vars,
}

/// A change of a machine's variables, as sets, which have no attributes.
#[derive(Clone, Copy)]
pub struct SetChange<'a> {
    /// The variables before it.
    pub from: &'a Vars,
    /// The variables after it.
    pub to: &'a Vars,
    /// Whether it is yet to be made: a dry run only tells of it.
    pub is_coming: bool,
}

/// The set of what the machine in the place of this name keeps: without attributes.
///
/// # Errors
///
/// [`Failure::Refused`] if something is kept that has no data, and [`Failure::Memory`] if memory was refused.
pub fn set_of(alloc: Global, place: &str, kept: &Vars) -> Result<Vars, Failure>
    ensures { IfOk result (λ set. set ≡ data_of kept.now) }
{
    match without_attributes(alloc, kept) {
        Ok(set) => Ok(set),
        Err(AttributesFault::OutOfMemory) => Err(Failure::Memory),
        Err(fault) => Err(Failure::from_fault(alloc, place, fault)),
    }
}

/// The sets of what the machine in the place of this name keeps before and after a change.
///
/// # Errors
///
/// As of [`set_of`].
pub fn sets_of(alloc: Global, place: &str, from: &Vars, to: &Vars) -> Result<Sets, Failure>
    ensures from { IfOk result (λ sets. sets.from ≡ data_of from.now) }
    ensures to { IfOk result (λ sets. sets.to ≡ data_of to.now) }
{
    Ok(Sets {
        from: set_of(alloc, place, from)?,
        to: set_of(alloc, place, to)?,
    })
}
