//! Documents as trees of values, each with its place in the text. Both syntaxes give such a tree.

ghost use Rattle.std.specs.Prelude.{◌<◌, length, IfSome};
ghost use Rattle.std.specs.Option.{option_map};
ghost use Rattle.profile_files.specs.Members.{HasMember};

use std::alloc::AllocError;

/// How many members are kept of a table at most. No table of a profile has so many names: of one with more a member is
/// unknown or there twice, and is among those that are kept.
const MEMBERS_MAX: usize = 16;

/// A value. The number is the place of its first byte in the text.
#[derive(Debug, Drop)]
pub(crate) enum Node {
    /// A text.
    Text(usize, String),
    /// A whole number.
    Number(usize, i64),
    /// True or false.
    Flag(usize, bool),
    /// A value that no profile has, such as a date.
    Other(usize),
    /// Values, one after the other.
    List(usize, Vec<Node>),
    /// Values with names, in the order of the text.
    Table(usize, Vec<(Key, Node)>),
}

/// The name of a member, and its place.
#[derive(Debug, Drop)]
pub(crate) struct Key {
    /// Where it begins.
    pub(crate) place: usize,
    /// Its text.
    pub(crate) name: String,
}

/// The members of a table.
pub(crate) type Members = Vec<(Key, Node)>;

impl Node {
    /// Where it begins.
    pub(crate) fn place(&self) -> usize {
        match self {
            Node::Text(place, _)
            | Node::Number(place, _)
            | Node::Flag(place, _)
            | Node::Other(place)
            | Node::List(place, _)
            | Node::Table(place, _) => *place,
        }
    }
}

/// Appends a member, unless there are so many that one of them is at fault.
pub(crate) fn add_member(members: &mut Members, key: Key, node: Node) -> Result<(), AllocError> {
    if members.len() < MEMBERS_MAX {
        members.push((key, node))?;
    }
    Ok(())
}

/// The index of the member of this name, if there is one.
pub(crate) fn index_of(members: &[(Key, Node)], name: &str) -> Option<usize>
    ensures { IfSome result (λ index. index < length members.now) }
{
    for index in 0..members.len() {
        if members[index].0.name.as_str() == name {
            return Some(index);
        }
    }
    None
}

/// The value of the member of this name, if there is one.
pub(crate) fn member<'a>(members: &'a [(Key, Node)], name: &str) -> Option<&'a Node>
    ensures { HasMember name.now (option_map (λ value. value.now) result) members.now }
{
    let [(key, node), rest @ ..] = members else {
        return None;
    };
    if key.name.as_str() == name {
        Some(node)
    } else {
        member(rest, name)
    }
}
