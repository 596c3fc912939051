//! The edits of boot entries that make the changes.

ghost use Rattle.std.specs.Prelude.{◌≡◌};
ghost use Rattle.efibootmgr_runs.specs.Edits.{IsEditOf, IsAdditionOf, IsOrderOf, numbers_asked};

use crate::planned::Planned;
use boot_edits::{Addition, Edit, NewOrder, Position};
use efibootmgr_words::Asked;
use std::slice::from_ref;

/// The edit that makes this change. An entry that is made has these bytes, whatever else is there.
pub(crate) fn edit_of<'a>(asked: &'a Asked<'_>, change: &'a Planned, option: &'a [u8]) -> Edit<'a>
    ensures { IsEditOf asked.now option.now change.now result }
{
    match change {
        Planned::Delete(entry) => Edit::Remove(from_ref(entry)),
        Planned::Activate(entry) => Edit::Activate(from_ref(entry)),
        Planned::Deactivate(entry) => Edit::Deactivate(from_ref(entry)),
        Planned::Create => Edit::Add(addition_of(asked, option)),
        Planned::DeleteOrder => Edit::Order(order_of(&[], true)),
        Planned::Order => Edit::Order(order_of(numbers_of(&asked.order), !asked.keep)),
        Planned::RemoveRepeats => Edit::Unrepeat,
        Planned::DeleteNext => Edit::Next(None),
        Planned::DeleteTimeout => Edit::Timeout(None),
        Planned::Next(entry) => Edit::Next(Some(*entry)),
        Planned::Timeout(seconds) => Edit::Timeout(Some(*seconds)),
    }
}

/// The entry that is to be made: first in BootOrder, unless it is to stay out of it, and also if there is one like it.
fn addition_of<'a>(asked: &Asked<'_>, option: &'a [u8]) -> Addition<'a>
    ensures { IsAdditionOf asked.now option.now result }
{
    Addition {
        entry: asked.entry,
        option,
        position: if asked.no_order {
            Position::NoOrder
        } else {
            Position::First
        },
        again: true,
    }
}

/// The numbers that BootOrder is to have.
fn numbers_of(order: &Option<Vec<u16>>) -> &[u16]
    ensures { result.now ≡ numbers_asked order.now }
{
    match order {
        Some(numbers) => numbers,
        None => &[],
    }
}

/// BootOrder with these numbers, each of an entry, as the whole of it or before what it has.
fn order_of(entries: &[u16], only: bool) -> NewOrder<'_>
    ensures { IsOrderOf entries.now only result }
{
    NewOrder {
        entries,
        stale: false,
        only,
    }
}
