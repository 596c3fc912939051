//! How a text is cut at marks that aren't in parentheses.

ghost use Rattle.std.specs.Prelude.{◌≡◌, ◌<◌, ◌≤◌, ◌^◌, ◌∷◌, ◌==◌, ◌&&◌, true, drop, map, IfOk, IfSome, length};
ghost use Rattle.std.specs.Option.{option_map};
ghost use Rattle.uefi_names.specs.Named.{is_segment};
ghost use Rattle.uefi_names.specs.Cut.{deeper, first_outside, depth_after, is_whole_for, pieces, pieces_left, around_mark, begins_with_space, trimmed, arguments_in, named_parts, before_close};

use crate::table::byte;
use std::alloc::{AllocError, Global};

/// What is between the marks of a text that aren't in parentheses.
pub(crate) fn pieces<'a>(alloc: Global, text: &'a str, mark: u8) -> Result<Vec<&'a str>, AllocError>
    requires { mark < 128 }
    ensures { IfOk result (λ all. map (λ piece. piece.now) all.items ≡ pieces mark text.now) }
{
    let mut all = Vec::new(alloc);
    let mut left = Some(text);
    while let Some(rest) = left {
        let (piece, after) = split_outside(rest, mark);
        all.push(piece)?;
        left = after;
    }
    Ok(all)
}

/// The first piece, and what comes after the mark after it, if there is one.
fn split_outside(text: &str, mark: u8) -> (&str, Option<&str>)
    requires { mark < 128 }
    ensures all { pieces mark text.now ≡ result.0.now ∷ pieces_left mark (option_map (λ rest. rest.now) result.1) }
    ensures less { IfSome result.1 (λ rest. length rest.now < length text.now) }
{
    match around_mark(text, mark) {
        None => (text, None),
        Some((piece, rest)) => (piece, Some(rest)),
    }
}

/// What comes before the first mark outside parentheses, and what comes after it.
fn around_mark(text: &str, mark: u8) -> Option<(&str, &str)>
    requires { mark < 128 }
    ensures parts { option_map (λ parts. (parts.0.now, parts.1.now)) result ≡ around_mark mark text.now }
    ensures less { IfSome result (λ parts. length parts.1.now < length text.now) }
{
    match first_outside(text.as_bytes(), mark) {
        None => None,
        Some(at) => Some((&text[..at], &text[at + 1..])),
    }
}

/// Where the first mark outside parentheses is.
fn first_outside(text: &[u8], mark: u8) -> Option<usize>
    ensures { result ≡ first_outside mark 0 0 text.now }
{
    let mut depth = 0;
    for (index, byte) in text.iter().enumerate() {
        if is_outside(*byte, mark, depth) {
            return Some(index);
        }
        depth = deeper(depth, *byte);
    }
    None
}

/// Whether a byte is the mark and no parentheses are open.
fn is_outside(byte: u8, mark: u8, depth: usize) -> bool
    ensures { result ≡ (byte == mark) && (depth == 0) }
{
    byte == mark && depth == 0
}

/// How many parentheses are open after a byte.
fn deeper(depth: usize, byte: u8) -> usize
    requires { depth < 2 ^ 63 }
    ensures { result ≡ deeper depth byte }
{
    match byte {
        b'(' => depth + 1,
        b')' => depth.saturating_sub(1),
        _ => depth,
    }
}

/// The arguments between parentheses, without the spaces before each.
pub(crate) fn arguments_in<'a>(alloc: Global, inside: &'a str) -> Result<Vec<&'a str>, AllocError>
    ensures { IfOk result (λ all. map (λ argument. argument.now) all.items ≡ arguments_in inside.now) }
{
    let pieces = pieces(alloc, inside, b',')?;
    trimmed_all(alloc, &pieces)
}

/// Texts without the spaces that each begins with.
fn trimmed_all<'a>(alloc: Global, texts: &[&'a str]) -> Result<Vec<&'a str>, AllocError>
    ensures { IfOk result (λ all. map (λ text. text.now) all.items ≡ map trimmed (map (λ text. text.now) texts.now)) }
{
    let mut all = Vec::new(alloc);
    for text in texts {
        all.push(trimmed(text))?;
    }
    Ok(all)
}

/// A text without the spaces that it begins with.
pub(crate) fn trimmed(text: &str) -> &str
    ensures { result.now ≡ trimmed text.now }
{
    let mut rest = text;
    while begins_with_space(rest) {
        rest = without_first(rest);
    }
    rest
}

fn begins_with_space(text: &str) -> bool
    ensures { result ≡ begins_with_space text.now }
{
    byte(text.as_bytes(), 0) == b' '
}

/// A text without its first byte.
fn without_first(text: &str) -> &str
    requires { begins_with_space text.now ≡ true }
    ensures { result.now ≡ drop 1 text.now }
{
    &text[1..]
}

/// The name of a segment and what is between its parentheses, if it has parentheses and ends with them.
pub(crate) fn named_parts(text: &str) -> Option<(&str, &str)>
    ensures { option_map (λ parts. (parts.0.now, parts.1.now)) result ≡ named_parts text.now }
{
    let Some((name, after)) = around_mark(text, b'(') else {
        return None;
    };
    match before_close(after) {
        Some(inside) => Some((name, inside)),
        None => None,
    }
}

/// A text that ends with a closing parenthesis, without it.
fn before_close(text: &str) -> Option<&str>
    ensures { option_map (λ inside. inside.now) result ≡ before_close text.now }
{
    let len = text.len();
    if len == 0 || text.as_bytes()[len - 1] != b')' {
        return None;
    }
    Some(&text[..len - 1])
}

/// Whether a text is one segment wherever it stands: it has no comma and no slash outside parentheses, and closes those
/// that it opens.
pub(crate) fn is_segment(text: &str) -> bool
    ensures { result ≡ is_segment text.now }
{
    is_whole_for(text, b',') && is_whole_for(text, b'/')
}

/// Whether a text has no such mark outside parentheses, and closes those that it opens.
pub(crate) fn is_whole_for(text: &str, mark: u8) -> bool
    ensures { result ≡ is_whole_for mark text.now }
{
    let bytes = text.as_bytes();
    first_outside(bytes, mark).is_none() && depth_after(bytes) == 0
}

/// How many parentheses are open after a text.
fn depth_after(text: &[u8]) -> usize
    ensures { result ≡ depth_after 0 text.now }
{
    let mut depth = 0;
    for byte in text {
        depth = deeper(depth, *byte);
    }
    depth
}
