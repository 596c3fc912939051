//! All edits.

ghost use Rattle.std.specs.Prelude.{◌≡◌, ◌≢◌, Err, IfOk, IfErr};
ghost use Rattle.boot_edits.specs.declared.answer.EditAnswer.{EditAnswer};
ghost use Rattle.boot_edits.specs.declared.fault.EditFault.{EditFault};
ghost use Rattle.boot_edits.specs.Edit.{IsEdited, IsEditFault};

use crate::activate::set_active;
use crate::addition::{Addition, add};
use crate::answer::EditAnswer;
use crate::fault::EditFault;
use crate::next::set_next;
use crate::remove::remove;
use crate::reorder::{NewOrder, put_first, set_order, unrepeat};
use crate::timeout::set_timeout;
use std::alloc::Global;
use uefi_vars::Vars;

/// A change of boot entries that is asked for. Each list of numbers names entries, no one twice.
#[derive(Clone, Copy, Debug)]
pub enum Edit<'a> {
    /// A new entry is stored, and gets its place in BootOrder, unless it is there already.
    Add(Addition<'a>),
    /// These entries are taken out, their numbers out of BootOrder, wherever they are, and BootNext is deleted if it names one.
    Remove(&'a [u16]),
    /// These entries come first in BootOrder, in this sequence. Behind them the rest of it stays as it was, numbers without an
    /// entry too, but without these numbers. A BootOrder that can't be read counts as empty.
    First(&'a [u16]),
    /// BootOrder becomes another one.
    Order(NewOrder<'a>),
    /// BootOrder has each of its numbers once, where that is first, numbers without an entry too.
    Unrepeat,
    /// BootNext names this entry, or is deleted. One that can't be read is replaced.
    Next(Option<u16>),
    /// Timeout, for which the boot manager waits before it boots by itself, becomes so many seconds, or is deleted. One that
    /// can't be read is replaced. Of 65,535 seconds it waits until somebody chooses.
    Timeout(Option<u16>),
    /// These entries get the attribute LOAD_OPTION_ACTIVE (3.1.3). All other bits of them stay.
    Activate(&'a [u16]),
    /// These entries lose the attribute LOAD_OPTION_ACTIVE (3.1.3). All other bits of them stay.
    Deactivate(&'a [u16]),
}

/// What becomes of variables by this edit, and what is told of it. The variables have data alone, without attributes. Those
/// of other names than Boot####, BootOrder, BootNext and Timeout stay as they are (UEFI 2.10, 3.3), and an order without a
/// number is no BootOrder at all.
///
/// # Errors
///
/// Of a list of numbers the first one that is refused is told: [`EditFault::Twice`] if it is in the list before, otherwise
/// [`EditFault::Missing`] if there is no such entry, or [`EditFault::Stale`] for [`Edit::Order`], and otherwise
/// [`EditFault::NoOption`] for [`Edit::Activate`] and [`Edit::Deactivate`] if the entry is no load option.
///
/// For [`Edit::Remove`] then [`EditFault::BadOrder`] if BootOrder can't be read, and [`EditFault::BadNext`] if BootNext can't.
/// For [`Edit::First`] and [`Edit::Order`] then [`EditFault::OrderTooLong`] if BootOrder would have more than
/// [`ORDER_MAX`](uefi_vars::ORDER_MAX) numbers. For [`Edit::Unrepeat`] [`EditFault::BadOrder`] if it can't be read.
///
/// For [`Edit::Add`] [`EditFault::BadOption`] if the bytes are no load option; otherwise, if it is new,
/// [`EditFault::Taken`] or [`EditFault::NoFree`] if there is no number for it; otherwise [`EditFault::OptionTooLong`] if it
/// has more than [`DATA_MAX`](uefi_vars::DATA_MAX) bytes; otherwise, if it gets a place in BootOrder, [`EditFault::BadOrder`]
/// or [`EditFault::OrderTooLong`].
///
/// [`EditFault::OutOfMemory`] if memory was refused.
pub fn make_edit(
    alloc: Global,
    vars: &Vars,
    edit: &Edit<'_>,
) -> Result<(Vars, EditAnswer), EditFault>
    ensures done { IfOk result (λ done. IsEdited vars.now edit.now done.0 done.1) }
    ensures refused { IfErr result (λ fault.
        fault ≢ EditFault.OutOfMemory → IsEditFault vars.now edit.now fault) }
{
    match edit {
        Edit::Add(addition) => add(alloc, vars, addition),
        Edit::Remove(numbers) => done(remove(alloc, vars, numbers)),
        Edit::First(numbers) => done(put_first(alloc, vars, numbers)),
        Edit::Order(new) => done(set_order(alloc, vars, new)),
        Edit::Unrepeat => done(unrepeat(alloc, vars)),
        Edit::Next(next) => done(set_next(alloc, vars, *next)),
        Edit::Timeout(seconds) => done(set_timeout(alloc, vars, *seconds)),
        Edit::Activate(numbers) => done(set_active(alloc, vars, numbers, true)),
        Edit::Deactivate(numbers) => done(set_active(alloc, vars, numbers, false)),
    }
}

/// What an edit gives that makes these variables.
fn done(edited: Result<Vars, EditFault>) -> Result<(Vars, EditAnswer), EditFault>
    ensures done { IfOk result (λ done. (edited ≡ Ok done.0) × (done.1 ≡ EditAnswer.Done)) }
    ensures refused { IfErr result (λ fault. edited ≡ Err fault) }
{
    Ok((edited?, EditAnswer::Done))
}
