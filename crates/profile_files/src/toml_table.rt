//! Tables of TOML, which grow while lines are read.

use crate::fault::{FileFault, Stop};
use crate::tree::{Key, Members, Node, add_member, index_of};
use std::alloc::Global;

/// What a line defines.
#[derive(Drop)]
pub(crate) enum What {
    /// A member with this value.
    Pair(Node),
    /// A table, which may be there already.
    Table,
    /// One more table in a list.
    Element,
}

/// Defines this under the key in the table to which the path leads, and then the dots. Of a list of tables the last one is
/// meant.
pub(crate) fn define(
    alloc: Global,
    members: &mut Members,
    path: &[String],
    dots: &[String],
    key: Key,
    what: What,
) -> Result<(), Stop> {
    let (part, path, dots) = match (path, dots) {
        ([part, path @ ..], dots) => (part, path, dots),
        ([], [part, dots @ ..]) => (part, path, dots),
        ([], []) => return put(alloc, members, key, what),
    };
    match index_of(members, part) {
        Some(index) => match &mut members[index].1 {
            Node::Table(_, inner) => define(alloc, inner, path, dots, key, what),
            Node::List(_, items) => match items.last_mut() {
                Some(Node::Table(_, inner)) => define(alloc, inner, path, dots, key, what),
                _ => Err(Stop::At(key.place, FileFault::TomlTwice)),
            },
            _ => Err(Stop::At(key.place, FileFault::TomlTwice)),
        },
        None => {
            let place = key.place;
            let mut inner = Vec::new(alloc);
            define(alloc, &mut inner, path, dots, key, what)?;
            let name = part.clone()?;
            add_member(members, Key { place, name }, Node::Table(place, inner))?;
            Ok(())
        }
    }
}

/// Defines this under the key.
fn put(alloc: Global, members: &mut Members, key: Key, what: What) -> Result<(), Stop> {
    let place = key.place;
    match what {
        What::Pair(node) => add_member(members, key, node)?,
        What::Table => {
            if index_of(members, &key.name).is_none() {
                add_member(members, key, Node::Table(place, Vec::new(alloc)))?;
            }
        }
        What::Element => put_element(alloc, members, key)?,
    }
    Ok(())
}

/// Puts one more table into the list under the key.
fn put_element(alloc: Global, members: &mut Members, key: Key) -> Result<(), Stop> {
    let place = key.place;
    let element = Node::Table(place, Vec::new(alloc));
    match index_of(members, &key.name) {
        Some(index) => match &mut members[index].1 {
            Node::List(_, items) => {
                items.push(element)?;
                Ok(())
            }
            _ => Err(Stop::At(place, FileFault::TomlTwice)),
        },
        None => {
            let mut items = Vec::new(alloc);
            items.push(element)?;
            add_member(members, key, Node::List(place, items))?;
            Ok(())
        }
    }
}
