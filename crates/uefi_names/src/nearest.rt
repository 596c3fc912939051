//! The name of a node that is nearest to another text.

ghost use Rattle.std.specs.Prelude.{◌≡◌, IfOk, map};
ghost use Rattle.std.specs.Option.{option_map};
ghost use Rattle.uefi_names.specs.Nearest.{edits_between, near_of, nearer, nearest_of, nearest_of_rows, nearest_of_groups, nearest_name};

use crate::reading::profile_names;
use crate::table::{Form, NodeGroup, NodeRow, NodeTable};
use std::alloc::{AllocError, Global};
use strsim::generic_levenshtein;

/// The nearest name so far, and how many edits lead to it. Before there is one, as many as are too many.
#[derive(Clone, Copy)]
struct Near {
    name: Option<&'static str>,
    edits: usize,
}

/// The name of a node to which the fewest edits lead from a text, and the first of those, if at most a third of the
/// text's letters are edited, or one: put in, taken out or exchanged, whatever their case.
pub(crate) fn nearest_name(
    alloc: Global,
    table: &NodeTable,
    text: &str,
) -> Result<Option<&'static str>, AllocError>
    ensures { IfOk result (λ found. option_map (λ name. name.now) found ≡ nearest_name table.now text.now) }
{
    let near = Near {
        name: None,
        edits: text.len().max(3) / 3 + 1,
    };
    let near = nearest_of(alloc, near, text, profile_names())?;
    let near = nearest_of_groups(alloc, near, text, &table.groups)?;
    Ok(near.name)
}

/// The nearest of a name and others.
fn nearest_of(
    alloc: Global,
    before: Near,
    text: &str,
    names: &'static [&'static str],
) -> Result<Near, AllocError>
    ensures { IfOk result (λ near. near_of near ≡ nearest_of text.now (near_of before)
        (map (λ name. name.now) names.now)) }
{
    let mut near = before;
    for name in names {
        near = nearer(alloc, near, text, name)?;
    }
    Ok(near)
}

/// The nearest of a name and those of groups of rows.
fn nearest_of_groups(
    alloc: Global,
    before: Near,
    text: &str,
    groups: &[NodeGroup],
) -> Result<Near, AllocError>
    ensures { IfOk result (λ near. near_of near ≡ nearest_of_groups text.now (near_of before) groups.now) }
{
    let mut near = before;
    for group in groups {
        near = nearest_of_rows(alloc, near, text, group.rows)?;
    }
    Ok(near)
}

/// The nearest of a name and those of rows.
fn nearest_of_rows(
    alloc: Global,
    before: Near,
    text: &str,
    rows: &'static [NodeRow],
) -> Result<Near, AllocError>
    ensures { IfOk result (λ near. near_of near ≡ nearest_of_rows text.now (near_of before) rows.now) }
{
    let mut near = before;
    for row in rows {
        near = nearest_of_forms(alloc, near, text, row.forms)?;
    }
    Ok(near)
}

/// The nearest of a name and those of forms.
fn nearest_of_forms(
    alloc: Global,
    before: Near,
    text: &str,
    forms: &'static [Form],
) -> Result<Near, AllocError>
    ensures { IfOk result (λ near. near_of near ≡ nearest_of text.now (near_of before)
        (map (λ form. form.name.now) forms.now)) }
{
    let mut near = before;
    for form in forms {
        near = nearer(alloc, near, text, form.name)?;
    }
    Ok(near)
}

/// The nearer of two names: the first if they are as near.
fn nearer(alloc: Global, near: Near, text: &str, name: &'static str) -> Result<Near, AllocError>
    ensures { IfOk result (λ found. near_of found ≡ nearer text.now (near_of near) name.now) }
{
    // At least as many edits lead there as the lengths differ by, so a long text takes no time.
    if text.len().abs_diff(name.len()) >= near.edits {
        return Ok(near);
    }
    let edits = edits_between(alloc, text, name)?;
    if edits < near.edits {
        Ok(Near {
            name: Some(name),
            edits,
        })
    } else {
        Ok(near)
    }
}

/// The fewest edits that lead from a text to a name, whatever the case of the letters.
fn edits_between(alloc: Global, text: &str, name: &str) -> Result<usize, AllocError>
    ensures { IfOk result (λ edits. edits ≡ edits_between text.now name.now) }
{
    let text = text.as_bytes().to_ascii_lowercase(alloc)?;
    let name = name.as_bytes().to_ascii_lowercase(alloc)?;
    generic_levenshtein(alloc, &text, &name)
}
