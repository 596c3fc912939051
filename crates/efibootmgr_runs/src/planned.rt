//! The changes that words ask for, in the sequence in which `efibootmgr` makes them.

ghost use Rattle.std.specs.Prelude.{◌≡◌, ◌++◌, true, is_some, IfOk, OnOk};
ghost use Rattle.efibootmgr_runs.specs.declared.planned.Planned.TheVariants as plan;
ghost use Rattle.efibootmgr_runs.specs.Planned.{if_asked, if_some, entry_changes, order_changes, planned_of};

use efibootmgr_words::Asked;
use std::alloc::{AllocError, Global};

/// A change that is asked for.
#[derive(Clone, Copy, Debug)]
pub(crate) enum Planned {
    /// This entry is taken out.
    Delete(u16),
    /// This entry becomes active.
    Activate(u16),
    /// This entry becomes inactive.
    Deactivate(u16),
    /// An entry is made.
    Create,
    /// BootOrder is taken out.
    DeleteOrder,
    /// BootOrder is set.
    Order,
    /// Repeated numbers are taken out of BootOrder.
    RemoveRepeats,
    /// BootNext is taken out.
    DeleteNext,
    /// Timeout is taken out.
    DeleteTimeout,
    /// BootNext becomes this entry.
    Next(u16),
    /// Timeout becomes so many seconds.
    Timeout(u16),
}

/// The changes that are asked for, each once, in that sequence: of the entry that is named, then the making of one, and then
/// of BootOrder, BootNext and Timeout.
///
/// # Errors
///
/// [`AllocError`] if memory was refused.
pub(crate) fn plan_changes(alloc: Global, asked: &Asked<'_>) -> Result<Vec<Planned>, AllocError>
    ensures { IfOk result (λ changes. changes.items ≡ planned_of asked.now) }
{
    let mut changes = Vec::new(alloc);
    push_entry_changes(&mut changes, asked)?;
    push_if(&mut changes, asked.create, Planned::Create)?;
    push_order_changes(&mut changes, asked)?;
    push_if(&mut changes, asked.delete_next, Planned::DeleteNext)?;
    push_if(&mut changes, asked.delete_timeout, Planned::DeleteTimeout)?;
    push_next(&mut changes, asked.next)?;
    push_timeout(&mut changes, asked.timeout)?;
    Ok(changes)
}

/// Appends the changes of the entry that is named.
fn push_entry_changes(changes: &mut Vec<Planned>, asked: &Asked<'_>) -> Result<(), AllocError>
    ensures { OnOk result (changes.new.items ≡ changes.old.items ++ entry_changes asked.now.entry asked.now.delete asked.now.active) }
{
    let Some(entry) = asked.entry else {
        return Ok(());
    };
    push_if(changes, asked.delete, Planned::Delete(entry))?;
    match asked.active {
        Some(true) => push(changes, Planned::Activate(entry)),
        Some(false) => push(changes, Planned::Deactivate(entry)),
        None => Ok(()),
    }
}

/// Appends the changes of BootOrder.
fn push_order_changes(changes: &mut Vec<Planned>, asked: &Asked<'_>) -> Result<(), AllocError>
    ensures { OnOk result (changes.new.items
        ≡ changes.old.items ++ order_changes asked.now.delete_order (is_some asked.now.order) asked.now.remove_repeats) }
{
    push_if(changes, asked.delete_order, Planned::DeleteOrder)?;
    push_if(changes, asked.order.is_some(), Planned::Order)?;
    push_if(changes, asked.remove_repeats, Planned::RemoveRepeats)
}

/// Appends that BootNext becomes this entry, if one is given.
fn push_next(changes: &mut Vec<Planned>, next: Option<u16>) -> Result<(), AllocError>
    ensures { OnOk result (changes.new.items ≡ changes.old.items ++ if_some plan.Next next) }
{
    match next {
        Some(entry) => push(changes, Planned::Next(entry)),
        None => Ok(()),
    }
}

/// Appends that Timeout becomes so many seconds, if some are given.
fn push_timeout(changes: &mut Vec<Planned>, timeout: Option<u16>) -> Result<(), AllocError>
    ensures { OnOk result (changes.new.items ≡ changes.old.items ++ if_some plan.Timeout timeout) }
{
    match timeout {
        Some(seconds) => push(changes, Planned::Timeout(seconds)),
        None => Ok(()),
    }
}

/// Appends the change, if it is asked for.
fn push_if(changes: &mut Vec<Planned>, is_asked: bool, change: Planned) -> Result<(), AllocError>
    ensures { OnOk result (changes.new.items ≡ changes.old.items ++ if_asked is_asked change) }
{
    if is_asked {
        push(changes, change)
    } else {
        Ok(())
    }
}

/// Appends the change.
fn push(changes: &mut Vec<Planned>, change: Planned) -> Result<(), AllocError>
    ensures { OnOk result (changes.new.items ≡ changes.old.items ++ if_asked true change) }
{
    Ok(changes.push(change)?)
}
