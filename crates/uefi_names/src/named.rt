//! Paths as text, with each node by its name.

ghost use Rattle.std.specs.Prelude.{◌≡◌, ◌++◌, IfOk, OnOk};
ghost use Rattle.std.specs.Option.{option_map};
ghost use Rattle.std.specs.String.{string_bytes};
ghost use Rattle.uefi_path.specs.Row.{row as path_row};
ghost use Rattle.uefi_path.specs.Node.{row_of};
ghost use Rattle.uefi_path.specs.Equality.{row_eq};
ghost use Rattle.uefi_names.specs.Standard.{standard_table};
ghost use Rattle.uefi_names.specs.Named.{named_node, named_instance, named_path, plain_text, table_text, text_in_forms, text_in_form, is_read_back};

use crate::cut::is_segment;
use crate::form_reader::ReadRow;
use crate::reading::segment_row;
use crate::shown::FormText;
use crate::table::{Form, NodeTable};
use std::alloc::{AllocError, Global};
use std::fmt::{self, Write};
use uefi_path::{Node, Path, write_node};
use uefi_text::{NodeText, is_hd_or_file};

/// The bytes before a node's data: type, sub-type and length (UEFI 2.10, 10.3.1).
const HEADER_LEN: usize = 4;

/// A path that is written by `{}` in the forms of a table, whether or not the text can be read back.
#[derive(Clone, Copy, Debug)]
pub struct NamedPath<'a> {
    /// The path.
    pub path: &'a Path,
    /// The table.
    pub table: &'a NodeTable,
}

impl fmt::Display for NamedPath<'_> {
    ghost use Rattle.std.specs.Prelude.{Some};
    ghost use Rattle.uefi_names.specs.Named.{shown_path};

    ghost output = { λ text. Some (shown_path text.table.now text.path.now) };

    fn fmt<W: fmt::Write>(&self, f: &mut fmt::Formatter<W>) -> fmt::Result {
        let table = self.table;
        let Some((first, others)) = self.path.instances().split_first() else {
            return Ok(());
        };
        write!(
            f,
            "{}",
            NamedInstance {
                nodes: first,
                table
            }
        )?;
        for nodes in others {
            write!(f, ",{}", NamedInstance { nodes, table })?;
        }
        Ok(())
    }
}

/// The nodes of an instance, joined by slashes.
#[derive(Clone, Copy, Debug)]
struct NamedInstance<'a> {
    nodes: &'a [Node],
    table: &'a NodeTable,
}

impl fmt::Display for NamedInstance<'_> {
    ghost use Rattle.std.specs.Prelude.{Some};
    ghost use Rattle.uefi_names.specs.Named.{shown_instance};

    ghost output = { λ text. Some (shown_instance text.table.now text.nodes.now) };

    fn fmt<W: fmt::Write>(&self, f: &mut fmt::Formatter<W>) -> fmt::Result {
        let table = self.table;
        let Some((node, others)) = self.nodes.split_first() else {
            return Ok(());
        };
        write!(f, "{}", NamedNode { node, table })?;
        for node in others {
            write!(f, "/{}", NamedNode { node, table })?;
        }
        Ok(())
    }
}

/// A node in the form that the table has for it, otherwise as it is printed exactly.
#[derive(Clone, Copy, Debug)]
pub(crate) struct NamedNode<'a> {
    pub(crate) node: &'a Node,
    pub(crate) table: &'a NodeTable,
}

impl fmt::Display for NamedNode<'_> {
    ghost use Rattle.std.specs.Prelude.{Some};
    ghost use Rattle.uefi_names.specs.Named.{shown_node};

    ghost output = { λ text. Some (shown_node text.table.now text.node.now) };

    fn fmt<W: fmt::Write>(&self, f: &mut fmt::Formatter<W>) -> fmt::Result {
        if let Node::Other(other) = self.node {
            let body = other.body();
            if let Some(form) = self.table.form_of(other.kind(), other.sub(), body) {
                return write!(f, "{}", FormText { form, body });
            }
        }
        write!(f, "{}", NodeText(self.node))
    }
}

/// The text of a path for a person (docs/formats.md): that of [`path_text`](uefi_text::path_text), but with its name and
/// its fields for each node of the standard's table (UEFI 2.10, 10.3) whose text is read as the node.
/// [`read_named_text`](crate::read_named_text) reads it back. This fails only when out of memory.
pub fn named_text(alloc: Global, path: &Path) -> Result<String, AllocError>
    ensures { IfOk result (λ text. string_bytes text ≡ named_path standard_table path.now) }
{
    let table = NodeTable::standard();
    let mut text = String::new(alloc);
    append_path(alloc, &table, path, &mut text)?;
    Ok(text)
}

/// Appends a path.
fn append_path(
    alloc: Global,
    table: &NodeTable,
    path: &Path,
    text: &mut String,
) -> Result<(), AllocError>
    ensures { OnOk result (string_bytes text.new ≡ string_bytes text.old ++ named_path table.now path.now) }
{
    let Some((first, others)) = path.instances().split_first() else {
        return Ok(());
    };
    append_instance(alloc, table, first, text)?;
    for nodes in others {
        text.push(',')?;
        append_instance(alloc, table, nodes, text)?;
    }
    Ok(())
}

/// Appends the nodes of an instance.
fn append_instance(
    alloc: Global,
    table: &NodeTable,
    nodes: &[Node],
    text: &mut String,
) -> Result<(), AllocError>
    ensures { OnOk result (string_bytes text.new ≡ string_bytes text.old ++ named_instance table.now nodes.now) }
{
    let Some((node, others)) = nodes.split_first() else {
        return Ok(());
    };
    append_node(alloc, table, node, text)?;
    for node in others {
        text.push('/')?;
        append_node(alloc, table, node, text)?;
    }
    Ok(())
}

/// Appends a node: by its name if the table has one and its text is read as the node, otherwise without a form. No form
/// of the standard has such a text for an `HD` or a `File`.
pub(crate) fn append_node(
    alloc: Global,
    table: &NodeTable,
    node: &Node,
    text: &mut String,
) -> Result<(), AllocError>
    ensures { OnOk result (string_bytes text.new ≡ string_bytes text.old ++ named_node table.now node.now) }
{
    if is_hd_or_file(node) {
        return append_plain(node, text);
    }
    match table_text(alloc, table, node)? {
        Some(named) => text.push_str(&named),
        None => append_plain(node, text),
    }
}

/// Appends a node as it is printed exactly, but with the identifier of a network in decimal digits (10.6.1).
fn append_plain(node: &Node, text: &mut String) -> Result<(), AllocError>
    ensures { OnOk result (string_bytes text.new ≡ string_bytes text.old ++ plain_text node.now) }
{
    if let Node::Vlan { id } = node {
        return write!(text, "Vlan({id})");
    }
    write!(text, "{}", NodeText(node))
}

/// The text of a node by the table.
fn table_text(alloc: Global, table: &NodeTable, node: &Node) -> Result<Option<String>, AllocError>
    ensures { IfOk result (λ text. option_map (λ t. string_bytes t) text ≡ table_text table.now (row_of node.now)) }
{
    let (kind, sub) = (node.kind(), node.sub());
    let forms = table.forms_for(kind, sub);
    if forms.is_empty() {
        return Ok(None);
    }
    let body = body_of(alloc, node)?;
    text_in_forms(alloc, table, forms, &ReadRow { kind, sub, body })
}

/// The text of a node in the first of these forms that has one.
fn text_in_forms(
    alloc: Global,
    table: &NodeTable,
    forms: &'static [Form],
    node: &ReadRow,
) -> Result<Option<String>, AllocError>
    ensures { IfOk result (λ text. option_map (λ t. string_bytes t) text
        ≡ text_in_forms table.now (path_row node.now.kind node.now.sub node.now.body.items) forms.now) }
{
    for form in forms {
        if let Some(text) = text_in_form(alloc, table, form, node)? {
            return Ok(Some(text));
        }
    }
    Ok(None)
}

/// The text of a node in a form, if its data fit and the text is read as the node.
fn text_in_form(
    alloc: Global,
    table: &NodeTable,
    form: &Form,
    node: &ReadRow,
) -> Result<Option<String>, AllocError>
    ensures { IfOk result (λ text. option_map (λ t. string_bytes t) text
        ≡ text_in_form table.now (path_row node.now.kind node.now.sub node.now.body.items) form.now) }
{
    let body = node.body.as_slice();
    if !form.fits(body) {
        return Ok(None);
    }
    let text = FormText { form, body }.to_string(alloc)?;
    if is_read_back(alloc, table, &text, node)? {
        Ok(Some(text))
    } else {
        Ok(None)
    }
}

/// The data of a node.
fn body_of(alloc: Global, node: &Node) -> Result<Vec<u8>, AllocError>
    ensures { IfOk result (λ body. body.items ≡ (row_of node.now).body) }
{
    if let Node::Other(other) = node {
        return Vec::from_slice(alloc, other.body());
    }
    let mut bytes = Vec::new(alloc);
    write_node(node, &mut bytes)?;
    Vec::from_slice(alloc, &bytes[HEADER_LEN..])
}

/// Whether the text is a segment that is read as the node.
fn is_read_back(
    alloc: Global,
    table: &NodeTable,
    text: &str,
    node: &ReadRow,
) -> Result<bool, AllocError>
    ensures { IfOk result (λ is. is ≡ is_read_back table.now text.now
        (path_row node.now.kind node.now.sub node.now.body.items)) }
{
    if !is_segment(text) {
        return Ok(false);
    }
    match segment_row(alloc, table, text)? {
        Some(read) => Ok(is_row(&read, node)),
        None => Ok(false),
    }
}

/// Whether two rows are the same.
fn is_row(read: &ReadRow, node: &ReadRow) -> bool
    ensures { result ≡ row_eq (path_row read.now.kind read.now.sub read.now.body.items)
        (path_row node.now.kind node.now.sub node.now.body.items) }
{
    read.kind == node.kind && read.sub == node.sub && read.body.as_slice() == node.body.as_slice()
}
