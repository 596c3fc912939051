//! Texts of TOML, read to trees.

ghost use Rattle.std.specs.Prelude.{◌<◌, ◌≤◌, length, IfOk, IsSome, OnOk};
ghost use Rattle.toml.specs.Parse.{parse_document};

use crate::fault::{FileFault, Stop};
use crate::toml_table::{What, define};
use crate::toml_value::{fault, place_of, read_key, read_value};
use crate::tree::{Key, Members};
use std::alloc::Global;
use toml_parser::text::{first, skip, skip_blank, skip_ws};
use toml_parser::{ErrorKind, Key as TomlKey, RECURSION_LIMIT, dotted_key};

/// The table that a text of TOML is. The toolchain's reader of TOML has to take the text too.
pub(crate) fn read_toml(alloc: Global, text: &str) -> Result<Members, Stop>
    ensures { OnOk result (IsSome (parse_document text.now)) }
{
    let members = read_lines(alloc, text)?;
    match toml::table_from_str(alloc, text) {
        Ok(_) => Ok(members),
        Err(error) => match error.span() {
            Some(span) => Err(Stop::At(span.start, FileFault::TomlTwice)),
            None => Err(Stop::OutOfMemory),
        },
    }
}

/// The table that the lines define.
fn read_lines(alloc: Global, text: &str) -> Result<Members, Stop> {
    let len = text.len();
    let mut members = Vec::new(alloc);
    let mut section = Vec::new(alloc);
    let mut rest = text;
    'lines: loop {
        let start = skip_blank(rest, true);
        if start.is_empty() {
            return Ok(members);
        }
        let after = if first(start) == b'[' {
            read_header(alloc, len, skip(start, 1), &mut members, &mut section)?
        } else {
            read_pair(alloc, len, start, &mut members, &section)?
        };
        rest = line_end(len, after)?;
    }
}

/// The text from the end of the line on, before which there are blanks alone.
fn line_end(len: usize, text: &str) -> Result<&str, Stop>
    ensures { IfOk result (λ rest. length rest.now ≤ length text.now) }
{
    let end = skip_ws(text);
    if end.is_empty() || matches!(first(end), b'#' | b'\n' | b'\r') {
        Ok(end)
    } else {
        Err(fault(len, ErrorKind::EndOfLine, end))
    }
}

/// Reads a key with its value, and defines it in this section. Returns what comes after it.
fn read_pair<'a>(
    alloc: Global,
    len: usize,
    text: &'a str,
    members: &mut Members,
    section: &[String],
) -> Result<&'a str, Stop>
    ensures { IfOk result (λ rest. length rest.now < length text.now) }
{
    let (TomlKey { path, last }, at_value) = read_key(alloc, len, text)?;
    let (node, rest) = read_value(alloc, len, at_value, RECURSION_LIMIT)?;
    let key = Key {
        place: place_of(len, text),
        name: last,
    };
    define(alloc, members, section, &path, key, What::Pair(node))?;
    Ok(rest)
}

/// Reads a header after its first bracket, and begins its section. Returns what comes after it.
fn read_header<'a>(
    alloc: Global,
    len: usize,
    text: &'a str,
    members: &mut Members,
    section: &mut Vec<String>,
) -> Result<&'a str, Stop>
    ensures { IfOk result (λ rest. length rest.now < length text.now) }
{
    let is_element = first(text) == b'[';
    let inside = if is_element { skip(text, 1) } else { text };
    let (TomlKey { mut path, last }, rest) = match dotted_key(alloc, skip_ws(inside)) {
        Ok(found) => found,
        Err(error) => return Err(Stop::of_toml(len, error)),
    };
    let rest = header_end(len, rest, is_element)?;
    let key = Key {
        place: place_of(len, text).saturating_sub(1),
        name: last.clone()?,
    };
    let what = if is_element {
        What::Element
    } else {
        What::Table
    };
    define(alloc, members, &path, &[], key, what)?;
    path.push(last)?;
    *section = path;
    Ok(rest)
}

/// What comes after the brackets that close a header.
fn header_end(len: usize, text: &str, is_element: bool) -> Result<&str, Stop>
    ensures { IfOk result (λ rest. length rest.now < length text.now) }
{
    if first(text) != b']' {
        return Err(fault(len, ErrorKind::UnclosedTable, text));
    }
    let rest = skip(text, 1);
    if !is_element {
        return Ok(rest);
    }
    if first(rest) != b']' {
        return Err(fault(len, ErrorKind::UnclosedArrayTable, rest));
    }
    Ok(skip(rest, 1))
}
