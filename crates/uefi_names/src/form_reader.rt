//! The data that the text of a node in a form of a table spells.

ghost use Rattle.std.specs.Prelude.{◌≡◌, ◌==◌, ◌≤◌, [], map, drop, length, IfOk, IfSome, OnOk};
ghost use Rattle.std.specs.Option.{option_map, option_copied};
ghost use Rattle.std.specs.List.{find};
ghost use Rattle.uefi_names.specs.Table.{to_end};
ghost use Rattle.uefi_path.specs.Row.{row};
ghost use Rattle.uefi_names.specs.SpelledFields.{spelled_of};
ghost use Rattle.uefi_names.specs.Read.{spelled_in, items_read, first_read, all_read, items_of, field_read, fields_read, shows_whole, takes_inside, arguments_of, front_len, with_bits, front_of, with_fields, rank_of, with_tails, body_of, form_read, named_form_read, forms_read, rows_read, groups_read, table_read};

use crate::cut::arguments_in;
use crate::spelled::{is_word, item_bytes, spelled};
use crate::table::{Field, Form, Item, NodeGroup, NodeRow, NodeTable, REST, Show, When};
use std::alloc::{AllocError, Global};

/// A node as it is read: its type, its sub-type and its data.
#[derive(Drop)]
pub(crate) struct ReadRow {
    pub(crate) kind: u8,
    pub(crate) sub: u8,
    pub(crate) body: Vec<u8>,
}

/// The bytes that are spelled in a field.
#[derive(Drop)]
struct SpelledField {
    /// The field's offset.
    at: usize,
    /// Whether it goes to the end of the data.
    is_last: bool,
    /// How many texts come before it there.
    rank: usize,
    bytes: Vec<u8>,
}

/// The bytes that are spelled in a field.
fn spelled_in(field: &Field, bytes: Vec<u8>) -> SpelledField
    ensures { spelled_of result ≡ spelled_in field.now bytes.items }
{
    SpelledField {
        at: field.at,
        is_last: field.len == REST,
        rank: rank_of(field.show),
        bytes,
    }
}

impl NodeTable {
    /// The node that a name and what is between parentheses spell by the table: `None` if they spell none.
    pub(crate) fn read(
        &self,
        alloc: Global,
        name: &str,
        inside: &str,
    ) -> Result<Option<ReadRow>, AllocError>
        ensures { IfOk result (λ read. option_map (λ r. row r.kind r.sub r.body.items) read
            ≡ table_read self.now name.now inside.now) }
    {
        groups_read(alloc, &self.groups, name, inside)
    }
}

/// The same by some groups of rows.
fn groups_read(
    alloc: Global,
    groups: &[NodeGroup],
    name: &str,
    inside: &str,
) -> Result<Option<ReadRow>, AllocError>
    ensures { IfOk result (λ read. option_map (λ r. row r.kind r.sub r.body.items) read
        ≡ groups_read name.now inside.now groups.now) }
{
    for group in groups {
        if let Some(row) = rows_read(alloc, group.kind, group.rows, name, inside)? {
            return Ok(Some(row));
        }
    }
    Ok(None)
}

/// The same by the rows of a type.
fn rows_read(
    alloc: Global,
    kind: u8,
    rows: &'static [NodeRow],
    name: &str,
    inside: &str,
) -> Result<Option<ReadRow>, AllocError>
    ensures { IfOk result (λ read. option_map (λ r. row r.kind r.sub r.body.items) read
        ≡ rows_read kind name.now inside.now rows.now) }
{
    for row in rows {
        if let Some(body) = forms_read(alloc, row.forms, name, inside)? {
            return Ok(Some(ReadRow {
                kind,
                sub: row.sub,
                body,
            }));
        }
    }
    Ok(None)
}

/// The data that the first form of this name with data spells.
fn forms_read(
    alloc: Global,
    forms: &'static [Form],
    name: &str,
    inside: &str,
) -> Result<Option<Vec<u8>>, AllocError>
    ensures { IfOk result (λ read. option_map (λ body. body.items) read ≡ forms_read name.now inside.now forms.now) }
{
    for form in forms {
        if let Some(body) = named_form_read(alloc, form, name, inside)? {
            return Ok(Some(body));
        }
    }
    Ok(None)
}

/// The data that a text in a form spells, if the form has this name.
fn named_form_read(
    alloc: Global,
    form: &'static Form,
    name: &str,
    inside: &str,
) -> Result<Option<Vec<u8>>, AllocError>
    ensures { IfOk result (λ read. option_map (λ body. body.items) read
        ≡ named_form_read name.now inside.now form.now) }
{
    if is_word(name.as_bytes(), form.name.as_bytes()) {
        form_read(alloc, form, inside)
    } else {
        Ok(None)
    }
}

/// The data that a text in a form spells, if they are data of the form.
fn form_read(
    alloc: Global,
    form: &'static Form,
    inside: &str,
) -> Result<Option<Vec<u8>>, AllocError>
    ensures { IfOk result (λ read. option_map (λ body. body.items) read ≡ form_read form.now inside.now) }
{
    let arguments = arguments_of(alloc, form.fields, inside)?;
    let Some(fields) = fields_read(alloc, form.fields, &arguments)? else {
        return Ok(None);
    };
    let body = body_of(alloc, form, &fields)?;
    if form.fits(&body) {
        Ok(Some(body))
    } else {
        Ok(None)
    }
}

// ---- arguments

/// Whether the only field is shown as all that is in parentheses.
fn takes_inside(fields: &[Field]) -> bool
    ensures { result ≡ takes_inside fields.now }
{
    match fields {
        [field] => shows_whole(field.show),
        _ => false,
    }
}

pub(crate) fn shows_whole(show: Show) -> bool
    ensures { result ≡ shows_whole show }
{
    matches!(show, Show::Whole(_))
}

/// The arguments of a form: a form without fields has none.
fn arguments_of<'a>(
    alloc: Global,
    fields: &[Field],
    inside: &'a str,
) -> Result<Vec<&'a str>, AllocError>
    ensures { IfOk result (λ all. map (λ argument. argument.now) all.items ≡ arguments_of fields.now inside.now) }
{
    let mut all = Vec::new(alloc);
    if takes_inside(fields) {
        all.push(inside)?;
        return Ok(all);
    }
    if fields.is_empty() && inside.is_empty() {
        return Ok(all);
    }
    arguments_in(alloc, inside)
}

/// What the arguments of fields spell: `None` if one spells nothing, or if there are fewer or more than the fields have.
fn fields_read(
    alloc: Global,
    fields: &'static [Field],
    arguments: &[&str],
) -> Result<Option<Vec<SpelledField>>, AllocError>
    ensures { IfOk result (λ read. option_map (λ all. map spelled_of all.items) read
        ≡ fields_read [] fields.now (map (λ argument. argument.now) arguments.now)) }
{
    let mut all = Vec::new(alloc);
    let mut taken = 0;
    for field in fields {
        match field_read(alloc, field.show, field.len, arguments, taken)? {
            Some((bytes, after)) => {
                all.push(spelled_in(field, bytes))?;
                taken = after;
            }
            None => return Ok(None),
        }
    }
    if taken == arguments.len() {
        Ok(Some(all))
    } else {
        Ok(None)
    }
}

/// What the arguments of a field spell, of those from an index on, and the index after them: a list of items has all,
/// another field the first.
fn field_read(
    alloc: Global,
    show: Show,
    len: usize,
    arguments: &[&str],
    from: usize,
) -> Result<Option<(Vec<u8>, usize)>, AllocError>
    requires { from ≤ length arguments.now }
    ensures read { IfOk result (λ read. option_map (λ one. (
      one.0.items,
      drop one.1
          (map (λ argument. argument.now) arguments.now),
    )) read
        ≡ field_read show len (drop from (map (λ argument. argument.now) arguments.now))) }
    ensures within { IfOk result (λ read. IfSome read (λ one. one.1 ≤ length arguments.now)) }
{
    match items_of(show) {
        Some((size, item)) => all_read(alloc, item, size, arguments, from),
        None => first_read(alloc, show, len, arguments, from),
    }
}

/// The length and the kind of the items of a list.
fn items_of(show: Show) -> Option<(usize, Item)>
    ensures { result ≡ items_of show }
{
    match show {
        Show::Each(size, item) => Some((size, item)),
        _ => None,
    }
}

/// What all arguments from an index on spell, and the index after them.
fn all_read(
    alloc: Global,
    item: Item,
    size: usize,
    arguments: &[&str],
    from: usize,
) -> Result<Option<(Vec<u8>, usize)>, AllocError>
    requires { from ≤ length arguments.now }
    ensures read { IfOk result (λ read. option_map (λ one. (
      one.0.items,
      drop one.1
          (map (λ argument. argument.now) arguments.now),
    )) read
        ≡ all_read item size (drop from (map (λ argument. argument.now) arguments.now))) }
    ensures within { IfOk result (λ read. IfSome read (λ one. one.1 ≤ length arguments.now)) }
{
    match items_read(alloc, item, size, &arguments[from..])? {
        Some(bytes) => Ok(Some((bytes, arguments.len()))),
        None => Ok(None),
    }
}

/// What the first argument from an index on spells, and the index after it.
fn first_read(
    alloc: Global,
    show: Show,
    len: usize,
    arguments: &[&str],
    from: usize,
) -> Result<Option<(Vec<u8>, usize)>, AllocError>
    requires { from ≤ length arguments.now }
    ensures read { IfOk result (λ read. option_map (λ one. (
      one.0.items,
      drop one.1
          (map (λ argument. argument.now) arguments.now),
    )) read
        ≡ first_read show len (drop from (map (λ argument. argument.now) arguments.now))) }
    ensures within { IfOk result (λ read. IfSome read (λ one. one.1 ≤ length arguments.now)) }
{
    let Some((first, _)) = arguments[from..].split_first() else {
        return Ok(None);
    };
    match spelled(alloc, show, len, first)? {
        Some(bytes) => Ok(Some((bytes, from + 1))),
        None => Ok(None),
    }
}

/// What items spell, one after the other.
fn items_read(
    alloc: Global,
    item: Item,
    size: usize,
    arguments: &[&str],
) -> Result<Option<Vec<u8>>, AllocError>
    ensures { IfOk result (λ read. option_map (λ bytes. bytes.items) read
        ≡ items_read item size [] (map (λ argument. argument.now) arguments.now)) }
{
    let mut all = Vec::new(alloc);
    for argument in arguments {
        match item_bytes(alloc, item, size, argument)? {
            Some(bytes) => all.extend_from_slice(&bytes)?,
            None => return Ok(None),
        }
    }
    Ok(Some(all))
}

// ---- data

/// The data of a form whose fields have these bytes.
fn body_of(alloc: Global, form: &Form, all: &[SpelledField]) -> Result<Vec<u8>, AllocError>
    ensures { IfOk result (λ body. body.items ≡ body_of form.now (map spelled_of all.now)) }
{
    let mut body = front_of(alloc, form.when, front_len(form))?;
    set_fields(all, &mut body);
    append_tails(0, all, &mut body)?;
    append_tails(1, all, &mut body)?;
    append_tails(2, all, &mut body)?;
    Ok(body)
}

/// How many bytes come before what goes to the end of the data.
fn front_len(form: &Form) -> usize
    ensures { result ≡ front_len form.now }
{
    match last_field(form.fields) {
        Some(field) => field.at,
        None => form.len.least(),
    }
}

/// The first field that goes to the end of the data.
fn last_field(fields: &'static [Field]) -> Option<&'static Field>
    ensures { option_copied result ≡ find (λ field. field.len == to_end) fields.now }
{
    fields.iter().find(|field| field.len == REST)
}

/// So many bytes: zeros, but what the form must have.
fn front_of(alloc: Global, when: When, len: usize) -> Result<Vec<u8>, AllocError>
    ensures { IfOk result (λ front. front.items ≡ front_of when len) }
{
    let mut front = vec![in alloc; 0; len]?;
    match when {
        When::Always | When::Unlike { .. } => {}
        When::Byte { at, is, .. } => set_bits(at, &[is], &mut front),
        When::Bytes { at, are } => set_bits(at, are, &mut front),
        When::BytesAndByte { are, at, is, .. } => {
            set_bits(0, are, &mut front);
            set_bits(at, &[is], &mut front);
        }
    }
    Ok(front)
}

/// Sets the bits of each field that doesn't go to the end.
fn set_fields(all: &[SpelledField], body: &mut [u8])
    ensures { body.new ≡ with_fields (map spelled_of all.now) body.old }
{
    for one in all {
        if !one.is_last {
            set_bits(one.at, &one.bytes, body);
        }
    }
}

/// Sets bits of bytes from an offset on; after the end there are none.
fn set_bits(at: usize, bits: &[u8], body: &mut [u8])
    ensures { body.new ≡ with_bits at bits.now body.old }
{
    let mut place = at;
    for one in bits {
        if place >= body.len() {
            return;
        }
        body[place] |= *one;
        place += 1;
    }
}

/// Appends the bytes of each field that goes to the end and has so many texts before it.
fn append_tails(rank: usize, all: &[SpelledField], body: &mut Vec<u8>) -> Result<(), AllocError>
    ensures { OnOk result (body.new.items ≡ with_tails rank (map spelled_of all.now) body.old.items) }
{
    for one in all {
        if one.is_last && one.rank == rank {
            body.extend_from_slice(&one.bytes)?;
        }
    }
    Ok(())
}

/// How many texts come before that of a field.
fn rank_of(show: Show) -> usize
    ensures { result ≡ rank_of show }
{
    match show {
        Show::Ascii(before) => before,
        _ => 0,
    }
}
