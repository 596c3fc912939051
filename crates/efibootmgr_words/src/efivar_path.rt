//! Device paths as libefivar prints them.

ghost use Rattle.std.specs.Prelude.{◌≡◌, ◌++◌, ◌∷◌, [], IfOk, OnOk};
ghost use Rattle.std.specs.Option.{option_map};
ghost use Rattle.std.specs.String.{string_bytes};
ghost use Rattle.uefi_path.specs.declared.node.Node.TheVariants.{Other};
ghost use Rattle.uefi_names.specs.declared.table.NodeTable.{NodeTable};
ghost use Rattle.uefi_names.specs.Named.{shown_path};
ghost use Rattle.efibootmgr_words.specs.EfivarText.{AreTables, file_text, kind_name, bare_text, other_text, node_text, instance_text, path_text};

use crate::efivar_nodes::EfivarNode;
use crate::efivar_rows::efivar_table;
use crate::units::append_units;
use std::alloc::{AllocError, Global};
use uefi_names::{NamedPath, NodeTable, named_text};
use uefi_path::{FileNode, Node, OtherNode, Path, make_path};
use uefi_text::{DigitsText, NodeText};

/// The type and the sub-type of a file (10.3.5.4). One that is kept as bytes has no name.
const FILE: (u8, u8) = (4, 4);

/// The tables by which nodes are printed that are kept as bytes.
#[derive(Clone, Copy, Debug)]
struct Tables {
    /// Those that libefivar prints in a form of its own.
    own: NodeTable,
    /// Those that the standard has.
    standard: NodeTable,
}

impl Tables {
    fn new() -> Tables
        ensures { AreTables result.own result.standard }
    {
        Tables {
            own: efivar_table(),
            standard: NodeTable::standard(),
        }
    }
}

/// The text of a path in the forms of libefivar 37 (UEFI 2.10, 10.6), but for nodes that it prints wrong: those are as
/// `uefi_names` shows them, as docs/efibootmgr.md says. This fails only when out of memory.
pub fn efivar_text(alloc: Global, path: &Path) -> Result<String, AllocError>
    ensures { IfOk result (λ text. (own : NodeTable) × (standard : NodeTable) × AreTables own standard
        × (string_bytes text ≡ path_text own standard path.now)) }
{
    let mut text = String::new(alloc);
    append_path(alloc, &Tables::new(), path, &mut text)?;
    Ok(text)
}

/// Appends the text of a path.
fn append_path(
    alloc: Global,
    tables: &Tables,
    path: &Path,
    text: &mut String,
) -> Result<(), AllocError>
    ensures { OnOk result (string_bytes text.new ≡ string_bytes text.old ++ path_text tables.now.own tables.now.standard path.now) }
{
    let Some((first, others)) = path.instances().split_first() else {
        return Ok(());
    };
    append_instance(alloc, tables, first, text)?;
    for nodes in others {
        text.push(',')?;
        append_instance(alloc, tables, nodes, text)?;
    }
    Ok(())
}

/// Appends the text of the nodes of an instance, joined by slashes.
fn append_instance(
    alloc: Global,
    tables: &Tables,
    nodes: &[Node],
    text: &mut String,
) -> Result<(), AllocError>
    ensures { OnOk result (string_bytes text.new ≡ string_bytes text.old ++ instance_text tables.now.own tables.now.standard nodes.now) }
{
    let Some((node, others)) = nodes.split_first() else {
        return Ok(());
    };
    append_node(alloc, tables, node, text)?;
    for node in others {
        text.push('/')?;
        append_node(alloc, tables, node, text)?;
    }
    Ok(())
}

/// Appends the text of a node.
fn append_node(
    alloc: Global,
    tables: &Tables,
    node: &Node,
    text: &mut String,
) -> Result<(), AllocError>
    ensures { OnOk result (string_bytes text.new ≡ string_bytes text.old ++ node_text tables.now.own tables.now.standard node.now) }
{
    match node {
        Node::FilePath(file) => append_file(file, text),
        Node::Other(other) => append_other(alloc, tables, node, other, text),
        node => write!(text, "{}", EfivarNode(node)),
    }
}

/// Appends the node of a file: the characters of its name up to the first zero unit.
fn append_file(file: &FileNode, text: &mut String) -> Result<(), AllocError>
    ensures { OnOk result (string_bytes text.new ≡ string_bytes text.old ++ file_text file.now) }
{
    text.push_str("File(")?;
    append_units(file.units(), text)?;
    text.push(')')
}

/// Appends a node that is kept as bytes: in the form that libefivar has for it, otherwise in that which a person is shown.
fn append_other(
    alloc: Global,
    tables: &Tables,
    node: &Node,
    other: &OtherNode,
    text: &mut String,
) -> Result<(), AllocError>
    requires { node.now ≡ Other other.now }
    ensures { OnOk result (string_bytes text.new ≡ string_bytes text.old ++ other_text tables.now.own tables.now.standard other.now) }
{
    let (kind, sub, body) = (other.kind(), other.sub(), other.body());
    if tables.own.form_of(kind, sub, body).is_some() {
        return append_named(alloc, node, &tables.own, text);
    }
    if (kind, sub) != FILE && tables.standard.form_of(kind, sub, body).is_some() {
        return text.push_str(&named_text(alloc, &path_of(alloc, node)?)?);
    }
    append_bare(node, other, text)
}

/// Appends a node that has no form: as libefivar prints those of its type, otherwise as it is printed exactly.
fn append_bare(node: &Node, other: &OtherNode, text: &mut String) -> Result<(), AllocError>
    requires { node.now ≡ Other other.now }
    ensures { OnOk result (string_bytes text.new ≡ string_bytes text.old ++ bare_text (kind_name other.now.kind) other.now) }
{
    let (sub, body) = (other.sub(), other.body());
    match name_of_kind(other.kind()) {
        Some(name) => write!(text, "{name}({sub},{})", DigitsText(body)),
        None => write!(text, "{}", NodeText(node)),
    }
}

/// What nodes of a type are called that have no name of their own.
fn name_of_kind(kind: u8) -> Option<&'static str>
    ensures { option_map (λ name. name.now) result ≡ kind_name kind }
{
    match kind {
        1 => Some("HardwarePath"),
        2 => Some("AcpiPath"),
        3 => Some("Msg"),
        4 => Some("MediaPath"),
        5 => Some("BbsPath"),
        _ => None,
    }
}

/// Appends the text of a node by a table that has a form for it.
fn append_named(
    alloc: Global,
    node: &Node,
    table: &NodeTable,
    text: &mut String,
) -> Result<(), AllocError>
    ensures { OnOk result (string_bytes text.new ≡ string_bytes text.old ++ shown_path table.now ((node.now ∷ []) ∷ [])) }
{
    let path = path_of(alloc, node)?;
    write!(text, "{}", NamedPath { path: &path, table })
}

/// The path of a node alone.
fn path_of(alloc: Global, node: &Node) -> Result<Path, AllocError>
    ensures { IfOk result (λ path. path ≡ ((node.now ∷ []) ∷ [])) }
{
    let mut nodes = Vec::with_capacity(alloc, 1)?;
    nodes.push(node.copy(alloc)?)?;
    let mut instances = Vec::with_capacity(alloc, 1)?;
    instances.push(nodes)?;
    // It has an instance.
    make_path(instances).map_err(|_| AllocError)
}
