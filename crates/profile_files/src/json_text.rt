//! Texts of JSON, read to trees.

ghost use Rattle.std.specs.Prelude.{◌<◌, length, OnOk};

use crate::fault::{FileFault, Stop};
use crate::tree::{Key, Members, Node, add_member};
use json::{MAX_DEPTH, Reader, Scratch, Token};
use std::alloc::Global;

/// The object that a text of JSON is.
pub(crate) fn read_json(alloc: Global, text: &str) -> Result<Members, Stop> {
    let mut scratch = Scratch::new(alloc);
    let mut reader = Reader::new(text, &mut scratch)?;
    let place = reader.offset();
    let members = match reader.next() {
        Some(Token::BeginObject) => read_members(alloc, &mut reader, MAX_DEPTH)?,
        _ => return Err(Stop::At(place, FileFault::Json)),
    };
    let place = reader.offset();
    match reader.next() {
        None => Ok(members),
        Some(_) => Err(Stop::At(place, FileFault::Json)),
    }
}

/// The next value. Lists and objects are at most so deep.
#[cycle(value)]
fn read_value(alloc: Global, reader: &mut Reader<'_>, depth: usize) -> Result<Node, Stop>
    ensures { OnOk result (length reader.new < length reader.old) }
{
    let place = reader.offset();
    match reader.next() {
        Some(Token::String(text)) => Ok(Node::Text(place, String::from_str(alloc, text)?)),
        Some(Token::Number(text)) => Ok(number_at(place, text)),
        Some(Token::Bool(flag)) => Ok(Node::Flag(place, flag)),
        Some(Token::Null) => Ok(Node::Other(place)),
        Some(Token::BeginArray) if depth > 0 => {
            Ok(Node::List(place, read_items(alloc, reader, depth - 1)?))
        }
        Some(Token::BeginObject) if depth > 0 => {
            Ok(Node::Table(place, read_members(alloc, reader, depth - 1)?))
        }
        _ => Err(Stop::At(place, FileFault::Json)),
    }
}

/// The number at this place with this text, if it is a whole one.
fn number_at(place: usize, text: &str) -> Node {
    match text.parse::<i64>() {
        Ok(number) => Node::Number(place, number),
        Err(_) => Node::Other(place),
    }
}

/// The values of a list, after its bracket.
#[cycle(value)]
fn read_items(alloc: Global, reader: &mut Reader<'_>, depth: usize) -> Result<Vec<Node>, Stop>
    ensures { OnOk result (length reader.new < length reader.old) }
{
    let mut items = Vec::new(alloc);
    'items: while !reader.take_end_array() {
        items.push(read_value(alloc, reader, depth)?)?;
    }
    Ok(items)
}

/// The members of an object, after its brace.
#[cycle(value)]
fn read_members(alloc: Global, reader: &mut Reader<'_>, depth: usize) -> Result<Members, Stop>
    ensures { OnOk result (length reader.new < length reader.old) }
{
    let mut members = Vec::new(alloc);
    'members: loop {
        let place = reader.offset();
        match reader.next_key() {
            Ok(Some(key)) => {
                let name = String::from_str(alloc, key)?;
                let node = read_value(alloc, reader, depth)?;
                add_member(&mut members, Key { place, name }, node)?;
            }
            Ok(None) => return Ok(members),
            Err(_) => return Err(Stop::At(place, FileFault::Json)),
        }
    }
}
