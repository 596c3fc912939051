//! Nodes where they are in the bytes of a path as text, each by its name.

ghost use Rattle.std.specs.Prelude.{◌≡◌, ◌++◌, List, IfOk, OnOk};
ghost use Rattle.std.specs.String.{string_bytes};
ghost use Rattle.uefi_path.specs.declared.node.Node.{Node};
ghost use Rattle.uefi_path.specs.Node.{row_of, IsNode};
ghost use Rattle.uefi_path.specs.Path.{IsPath, path_rows};
ghost use Rattle.uefi_path.specs.Views.{row_seen, rows_left};
ghost use Rattle.uefi_names.specs.Standard.{standard_table};
ghost use Rattle.uefi_names.specs.Named.{named_node, named_path, slash_before};

use crate::named;
use crate::table::NodeTable;
use std::alloc::{AllocError, Global};
use uefi_path::{Node, NodeFault, NodeIter, NodeView};

/// The type of the node between two instances (UEFI 2.10, 10.3.1).
const END: u8 = 0x7f;

/// The text of a path for a person, as [`named_text`](crate::named_text) has it, from the nodes that
/// [`nodes`](uefi_path::nodes) gives where they are in its bytes. This fails only when out of memory.
pub fn named_nodes_text(alloc: Global, nodes: NodeIter<'_>) -> Result<String, AllocError>
    ensures { IfOk result (λ text. (path : List (List Node)) → IsPath path → rows_left nodes.entry ≡ path_rows path →
        string_bytes text ≡ named_path standard_table path) }
{
    let table = NodeTable::standard();
    let mut text = String::new(alloc);
    let mut is_first = true;
    for view in nodes {
        if view.kind == END {
            text.push(',')?;
            is_first = true;
        } else {
            append_node(alloc, &view, is_first, &table, &mut text)?;
            is_first = false;
        }
    }
    Ok(text)
}

/// Appends a node, after a slash if it isn't the first of its instance. A view that isn't of a node adds nothing.
fn append_node(
    alloc: Global,
    view: &NodeView<'_>,
    is_first: bool,
    table: &NodeTable,
    text: &mut String,
) -> Result<(), AllocError>
    ensures { OnOk result ((node : Node) → IsNode node → row_of node ≡ row_seen view.now →
        string_bytes text.new ≡ string_bytes text.old ++ (slash_before is_first ++ named_node table.now node)) }
{
    match view.to_node(alloc) {
        Ok(node) => append_marked(alloc, table, &node, is_first, text),
        Err(NodeFault::OutOfMemory) => Err(AllocError),
        Err(NodeFault::BadEnd | NodeFault::TooLong) => Ok(()),
    }
}

/// Appends a node, after a slash if it isn't the first of its instance.
fn append_marked(
    alloc: Global,
    table: &NodeTable,
    node: &Node,
    is_first: bool,
    text: &mut String,
) -> Result<(), AllocError>
    ensures { OnOk result (string_bytes text.new ≡ string_bytes text.old
        ++ (slash_before is_first ++ named_node table.now node.now)) }
{
    text.push_str(mark_before(is_first))?;
    named::append_node(alloc, table, node, text)
}

/// What comes before a node.
fn mark_before(is_first: bool) -> &'static str
    ensures { result.now ≡ slash_before is_first }
{
    if is_first { "" } else { "/" }
}
