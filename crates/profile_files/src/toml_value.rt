//! Values of TOML, read to trees.

ghost use Rattle.std.specs.Prelude.{◌<◌, ◌≤◌, length, IfOk};

use crate::fault::Stop;
use crate::toml_table::{What, define};
use crate::tree::{Key, Members, Node};
use std::alloc::Global;
use toml_parser::text::{first, skip, skip_blank, skip_ws};
use toml_parser::{
    ErrorKind, Key as TomlKey, ParseError, Scalar, dotted_key, quoted, starts_string, unquoted,
};

/// The value at the front of a text that is the end of one of this length, and what comes after it. Lists and tables are at
/// most so deep.
#[cycle(value)]
pub(crate) fn read_value(
    alloc: Global,
    len: usize,
    text: &str,
    depth: usize,
) -> Result<(Node, &str), Stop>
    ensures { IfOk result (λ read. length read.1.now < length text.now) }
{
    let place = place_of(len, text);
    let byte = first(text);
    if byte != b'[' && byte != b'{' {
        return read_single(alloc, len, text);
    }
    if depth == 0 {
        return Err(fault(len, ErrorKind::Recursion, text));
    }
    if byte == b'[' {
        let (items, rest) = read_items(alloc, len, skip(text, 1), depth - 1)?;
        Ok((Node::List(place, items), rest))
    } else {
        let (members, rest) = read_members(alloc, len, skip(text, 1), depth - 1)?;
        Ok((Node::Table(place, members), rest))
    }
}

/// The place of the front of a text that is the end of one of this length.
pub(crate) fn place_of(len: usize, text: &str) -> usize {
    len.saturating_sub(text.len())
}

/// This fault at the front of the text.
pub(crate) fn fault(len: usize, kind: ErrorKind, text: &str) -> Stop {
    Stop::of_toml(len, ParseError::at(kind, text))
}

/// A value without brackets.
fn read_single(alloc: Global, len: usize, text: &str) -> Result<(Node, &str), Stop>
    ensures { IfOk result (λ read. length read.1.now < length text.now) }
{
    let place = place_of(len, text);
    if starts_string(text) {
        return match quoted(alloc, text) {
            Ok((value, rest)) => Ok((Node::Text(place, value), rest)),
            Err(error) => Err(Stop::of_toml(len, error)),
        };
    }
    match unquoted(alloc, text) {
        Ok((scalar, rest)) => Ok((node_of(place, scalar), rest)),
        Err(error) => read_word(alloc, len, text, Stop::of_toml(len, error)),
    }
}

/// The value of the first word of a text, which together with a second one, as a date with a time is written, is none for
/// this reason; and what comes after it.
fn read_word(alloc: Global, len: usize, text: &str, stop: Stop) -> Result<(Node, &str), Stop>
    ensures { IfOk result (λ read. length read.1.now < length text.now) }
{
    if matches!(stop, Stop::OutOfMemory) {
        return Err(stop);
    }
    let Some((word, after)) = text.split_once(' ') else {
        return Err(stop);
    };
    match unquoted(alloc, word) {
        Ok((scalar, "")) => Ok((node_of(place_of(len, text), scalar), after)),
        _ => Err(stop),
    }
}

/// The value that a scalar at this place is.
fn node_of(place: usize, scalar: Scalar) -> Node {
    match scalar {
        Scalar::Boolean(flag) => Node::Flag(place, flag),
        Scalar::Integer(number) => Node::Number(place, number),
        Scalar::Float(_) | Scalar::Datetime(_) => Node::Other(place),
    }
}

/// The values of a list, after its bracket.
#[cycle(value)]
fn read_items(
    alloc: Global,
    len: usize,
    text: &str,
    depth: usize,
) -> Result<(Vec<Node>, &str), Stop>
    ensures { IfOk result (λ read. length read.1.now < length text.now) }
{
    let mut items = Vec::new(alloc);
    let mut rest = text;
    'items: loop {
        let start = skip_blank(rest, true);
        if first(start) == b']' {
            return Ok((items, skip(start, 1)));
        }
        let (item, after) = read_value(alloc, len, start, depth)?;
        items.push(item)?;
        rest = after_part(len, after, b']', ErrorKind::Array)?;
    }
}

/// The members of a table in braces, after its brace.
#[cycle(value)]
fn read_members(
    alloc: Global,
    len: usize,
    text: &str,
    depth: usize,
) -> Result<(Members, &str), Stop>
    ensures { IfOk result (λ read. length read.1.now < length text.now) }
{
    let mut members = Vec::new(alloc);
    let mut rest = text;
    'members: loop {
        let start = skip_blank(rest, true);
        if first(start) == b'}' {
            return Ok((members, skip(start, 1)));
        }
        let (key, at_value) = read_key(alloc, len, start)?;
        let (node, after) = read_value(alloc, len, at_value, depth)?;
        let TomlKey { path, last } = key;
        let key = Key {
            place: place_of(len, start),
            name: last,
        };
        define(alloc, &mut members, &[], &path, key, What::Pair(node))?;
        rest = after_part(len, after, b'}', ErrorKind::InlineTable)?;
    }
}

/// What comes after the comma that may follow a part, or the text from the bracket on that closes.
fn after_part(len: usize, text: &str, close: u8, kind: ErrorKind) -> Result<&str, Stop>
    ensures { IfOk result (λ rest. length rest.now ≤ length text.now) }
{
    let rest = skip_blank(text, true);
    if first(rest) == b',' {
        Ok(skip(rest, 1))
    } else if first(rest) == close {
        Ok(rest)
    } else {
        Err(fault(len, kind, rest))
    }
}

/// A key, and the text from its value on.
pub(crate) fn read_key(alloc: Global, len: usize, text: &str) -> Result<(TomlKey, &str), Stop>
    ensures { IfOk result (λ read. length read.1.now < length text.now) }
{
    match dotted_key(alloc, text) {
        Ok((key, rest)) if first(rest) == b'=' => Ok((key, skip_ws(skip(rest, 1)))),
        Ok((_, rest)) => Err(fault(len, ErrorKind::MissingEquals, rest)),
        Err(error) => Err(Stop::of_toml(len, error)),
    }
}
