//! Whole profiles.

ghost use Rattle.std.specs.Prelude.{IfOk};
ghost use Rattle.std.specs.Option.{option_map};
ghost use Rattle.profile_files.specs.Entries.{AreEntries, AreEntriesOf, HasOrder, IsOrder, IsOrderTable, IsProfile};
ghost use Rattle.profile_files.specs.Values.{IsNext, IsTimeout};

use crate::entry::entry_of;
use crate::fault::{FileFault, Stop, Wanted};
use crate::tree::{Key, Node, member};
use crate::values::{check_names, members_of, name_of, names_of, not};
use crate::written::{WrittenEntry, WrittenNext, WrittenOrder, WrittenProfile, WrittenTimeout};
use std::alloc::Global;

/// The names of a profile's members.
const NAMES: [&str; 4] = ["entries", "order", "next", "timeout"];

/// The names of an order's members.
const ORDER_NAMES: [&str; 2] = ["first", "only"];

/// The profile of these members.
pub(crate) fn profile_of(alloc: Global, members: &[(Key, Node)]) -> Result<WrittenProfile, Stop>
    ensures { IfOk result (IsProfile members.now) }
{
    check_names(members, &NAMES)?;
    let entries = entries_of(alloc, member(members, "entries"))?;
    let order = order_of(alloc, member(members, "order"))?;
    let next = next_of(alloc, member(members, "next"))?;
    let timeout = timeout_of(member(members, "timeout"))?;
    Ok(WrittenProfile {
        entries,
        order,
        next,
        timeout,
    })
}

/// The entries.
fn entries_of(alloc: Global, found: Option<&Node>) -> Result<Vec<WrittenEntry>, Stop>
    ensures { IfOk result (λ entries. AreEntries (option_map (λ value. value.now) found.entry) entries.items) }
{
    match found {
        None => Ok(Vec::new(alloc)),
        Some(node) => entries_in(alloc, node),
    }
}

/// The entries of the list that a value is to be.
fn entries_in(alloc: Global, node: &Node) -> Result<Vec<WrittenEntry>, Stop>
    ensures { IfOk result (λ entries. AreEntriesOf node.now entries.items) }
{
    let Node::List(_, items) = node else {
        return Err(not(node, Wanted::Entries));
    };
    let mut entries = Vec::with_capacity(alloc, items.len())?;
    for item in items {
        entries.push(entry_of(alloc, item)?)?;
    }
    Ok(entries)
}

/// What BootOrder is to be.
fn order_of(alloc: Global, found: Option<&Node>) -> Result<WrittenOrder, Stop>
    ensures { IfOk result (IsOrder (option_map (λ value. value.now) found.entry)) }
{
    match found {
        None => Ok(WrittenOrder::Kept),
        Some(node) => order_table(alloc, node),
    }
}

/// What the table says of BootOrder that a value is to be.
fn order_table(alloc: Global, node: &Node) -> Result<WrittenOrder, Stop>
    ensures { IfOk result (IsOrderTable node.now) }
{
    let members = members_of(node)?;
    let order = order_in(alloc, members)?;
    Ok(order)
}

/// What these members say of BootOrder.
fn order_in(alloc: Global, members: &[(Key, Node)]) -> Result<WrittenOrder, Stop>
    ensures { IfOk result (HasOrder members.now) }
{
    check_names(members, &ORDER_NAMES)?;
    match (member(members, "first"), member(members, "only")) {
        (None, None) => Ok(WrittenOrder::Kept),
        (Some(first), None) => Ok(WrittenOrder::First(names_of(alloc, first)?)),
        (None, Some(only)) => Ok(WrittenOrder::Only(names_of(alloc, only)?)),
        (Some(_), Some(_)) => Err(Stop::At(last_place(members), FileFault::TwoOrders)),
    }
}

/// The place of the last one of the members.
fn last_place(members: &[(Key, Node)]) -> usize {
    match members.last() {
        Some((key, _)) => key.place,
        None => 0,
    }
}

/// What BootNext is to be.
fn next_of(alloc: Global, found: Option<&Node>) -> Result<WrittenNext, Stop>
    ensures { IfOk result (IsNext (option_map (λ value. value.now) found.entry)) }
{
    match found {
        None => Ok(WrittenNext::Kept),
        Some(Node::Flag(_, false)) => Ok(WrittenNext::Gone),
        Some(node @ Node::Text(_, _)) => Ok(WrittenNext::Entry(name_of(alloc, node)?)),
        Some(node) => Err(not(node, Wanted::Next)),
    }
}

/// What Timeout is to be.
fn timeout_of(found: Option<&Node>) -> Result<WrittenTimeout, Stop>
    ensures { IfOk result (IsTimeout (option_map (λ value. value.now) found.entry)) }
{
    match found {
        None => Ok(WrittenTimeout::Kept),
        Some(Node::Flag(_, false)) => Ok(WrittenTimeout::Gone),
        Some(Node::Number(place, number)) => match u16::try_from(*number) {
            Ok(seconds) => Ok(WrittenTimeout::Seconds(seconds)),
            Err(_) => Err(Stop::At(*place, FileFault::Wanted(Wanted::Seconds))),
        },
        Some(node) => Err(not(node, Wanted::Seconds)),
    }
}
