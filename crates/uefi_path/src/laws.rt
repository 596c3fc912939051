//! Laws of the definitions. Each function's contract is one law; calling it does nothing.

ghost use Rattle.std.specs.Prelude.{◌≡◌, ◌≢◌, ◌⊎◌, ◌↔◌, ℕ, ◌*◌, ◌/◌, ◌%◌, ◌^◌, ◌<◌, List, [], ◌++◌, length, IsTrue};
ghost use Rattle.std.specs.List.{AllByRecursion, flat_map};
ghost use Rattle.uefi_path.specs.declared.node.Node.{Node};
ghost use Rattle.uefi_path.specs.declared.fault.NameFault.{NameFault};
ghost use Rattle.uefi_path.specs.declared.fault.NodeFault.{NodeFault};
ghost use Rattle.uefi_path.specs.declared.fault.PathFault.{PathFault};
ghost use Rattle.uefi_path.specs.declared.guid.Guid.{Guid};
ghost use Rattle.uefi_path.specs.Standard.{body_max, vendor_body_max, path_name_max, pci_root_hid, pcie_root_hid};
ghost use Rattle.uefi_path.specs.Units.{IsTwoByte, units_bytes, units_of};
ghost use Rattle.uefi_path.specs.Parts.{VendorParts, Ipv4Parts, HardDriveParts};
ghost use Rattle.uefi_path.specs.Row.{Row, IsByte, IsRow, IsListed, row_bytes, end_entire};
ghost use Rattle.uefi_path.specs.Node.{row_of, IsNode, SpellsNode, HasTypedNode};
ghost use Rattle.uefi_path.specs.Path.{IsPath, SpellsPath, IsPathFront, path_bytes, path_rows};
ghost use Rattle.uefi_path.specs.Fault.{IsFirstFault};

use crate::fault::{NameFault, NodeFault, PathFault};
use crate::file::{FileNode, PATH_NAME_MAX};
use crate::generic::BODY_MAX;
use crate::guid::Guid;
use crate::hard_drive::HardDriveNode;
use crate::ipv4::Ipv4Node;
use crate::node::{Node, PCI_ROOT_HID, PCIE_ROOT_HID};
use crate::other::OtherNode;
use crate::path::Path;
use crate::uri::UriNode;
use crate::vendor::{VENDOR_BODY_MAX, Vendor};

/// Each node whose numbers are in their ranges has a spelling, of bytes, and two bytes state its
/// length.
pub fn each_node_is_spelled()
    ensures { (node : Node) → IsNode node →
        (bytes : List ℕ) × SpellsNode bytes node
        × AllByRecursion IsByte bytes × (length bytes < 2 ^ 16) }
{}

/// A node has at most one spelling.
pub fn a_node_has_one_spelling()
    ensures { (node : Node) (a b : List ℕ) → SpellsNode a node → SpellsNode b node → a ≡ b }
{}

/// Bytes spell at most one node.
pub fn bytes_spell_one_node()
    ensures { (bytes : List ℕ) (m n : Node) → SpellsNode bytes m → SpellsNode bytes n → m ≡ n }
{}

/// Each row that isn't an end node's is the row of a node.
pub fn each_row_is_a_nodes()
    ensures { (r : Row) → IsRow r → r.kind ≢ 0x7F →
        (node : Node) × IsNode node × (row_of node ≡ r) }
{}

/// The listed rows are those of the nodes with a case of their own.
pub fn listed_rows_are_those_of_the_table()
    ensures { (r : Row) → IsRow r → (IsListed r ↔ HasTypedNode r) }
{}

/// Each path whose numbers are in their ranges has a spelling, of bytes.
pub fn each_path_is_spelled()
    ensures { (path : List (List Node)) → IsPath path →
        (bytes : List ℕ) × SpellsPath bytes path × AllByRecursion IsByte bytes }
{}

/// A path has at most one spelling.
pub fn a_path_has_one_spelling()
    ensures { (path : List (List Node)) (a b : List ℕ) →
        SpellsPath a path → SpellsPath b path → a ≡ b }
{}

/// Bytes spell at most one path.
pub fn bytes_spell_one_path()
    ensures { (bytes : List ℕ) (p q : List (List Node)) →
        SpellsPath bytes p → SpellsPath bytes q → p ≡ q }
{}

/// No spelling of a path is a proper prefix of another.
pub fn no_path_begins_another()
    ensures { (bytes more : List ℕ) (p q : List (List Node)) →
        SpellsPath bytes p → SpellsPath (bytes ++ more) q → more ≡ [] }
{}

/// A path's bytes are those of its rows, and of the node that ends the whole path.
pub fn a_path_is_its_rows()
    ensures { (path : List (List Node)) → IsPath path →
        path_bytes path ≡ flat_map row_bytes (path_rows path) ++ row_bytes end_entire }
{}

/// Bytes begin with a path, or have a first fault.
pub fn bytes_begin_with_a_path_or_have_a_fault()
    ensures { (bytes : List ℕ) → AllByRecursion IsByte bytes →
        ((path : List (List Node)) × (n : ℕ) × IsPathFront bytes path n)
        ⊎ ((fault : PathFault) × IsFirstFault bytes fault) }
{}

/// Bytes that have a first fault don't begin with a path.
pub fn a_fault_leaves_no_path()
    ensures { (bytes : List ℕ) (fault : PathFault) (path : List (List Node)) (n : ℕ) →
        IsFirstFault bytes fault → IsPathFront bytes path n → ⊥ }
{}

/// Bytes have at most one first fault.
pub fn bytes_have_one_first_fault()
    ensures { (bytes : List ℕ) (f g : PathFault) →
        IsFirstFault bytes f → IsFirstFault bytes g → f ≡ g }
{}

/// Numbers of two bytes are read from their bytes again.
pub fn units_are_read_again()
    ensures { (units : List ℕ) → AllByRecursion IsTwoByte units → units_of (units_bytes units) ≡ units }
{}

/// Bytes, even in number, are those of the numbers that are read from them.
pub fn bytes_are_written_again()
    ensures { (bytes : List ℕ) → AllByRecursion IsByte bytes → length bytes % 2 ≡ 0 →
        units_bytes (units_of bytes) ≡ bytes }
{}

/// Numbers have two bytes each.
pub fn units_have_two_bytes_each()
    ensures { (units : List ℕ) → AllByRecursion IsByte (units_bytes units)
        × (length (units_bytes units) ≡ 2 * length units) }
{}

/// Two bytes are a number each, and such numbers have two bytes.
pub fn two_bytes_are_a_unit()
    ensures { (bytes : List ℕ) → AllByRecursion IsByte bytes → AllByRecursion IsTwoByte (units_of bytes)
        × (length (units_of bytes) ≡ length bytes / 2) }
{}

/// The public constants are the standard's numbers (UEFI 2.10, 10.3).
pub fn constants_are_the_standards_numbers()
    ensures body_max { BODY_MAX ≡ body_max }
    ensures vendor_body_max { VENDOR_BODY_MAX ≡ vendor_body_max }
    ensures path_name_max { PATH_NAME_MAX ≡ path_name_max }
    ensures pci_root { PCI_ROOT_HID ≡ pci_root_hid }
    ensures pcie_root { PCIE_ROOT_HID ≡ pcie_root_hid }
    // how the local address was set (10.3.4.12)
    ensures dhcp_flag { Ipv4Node.DHCP ≡ 0 }
    ensures static_flag { Ipv4Node.STATIC ≡ 1 }
    // the partition table and the signature (10.3.5.1)
    ensures format_mbr { HardDriveNode.FORMAT_MBR ≡ 1 }
    ensures format_gpt { HardDriveNode.FORMAT_GPT ≡ 2 }
    ensures signature_none { HardDriveNode.SIGNATURE_NONE ≡ 0 }
    ensures signature_mbr { HardDriveNode.SIGNATURE_MBR ≡ 1 }
    ensures signature_guid { HardDriveNode.SIGNATURE_GUID ≡ 2 }
{}

/// `==` on nodes tells whether they are equal.
pub fn nodes_compare_as_values()
    ensures { (a b : Node) → IsTrue (⟦<Node as PartialEq>⟧.eq a b) ↔ (a ≡ b) }
{}

/// `==` on what a vendor defines tells whether they are equal.
pub fn vendors_compare_as_values()
    ensures { (a b : VendorParts) → IsTrue (⟦<Vendor as PartialEq>⟧.eq a b) ↔ (a ≡ b) }
{}

/// `==` on IPv4 nodes tells whether they are equal.
pub fn ipv4_nodes_compare_as_values()
    ensures { (a b : Ipv4Parts) → IsTrue (⟦<Ipv4Node as PartialEq>⟧.eq a b) ↔ (a ≡ b) }
{}

/// `==` on URI nodes tells whether they are equal.
pub fn uri_nodes_compare_as_values()
    ensures { (a b : List ℕ) → IsTrue (⟦<UriNode as PartialEq>⟧.eq a b) ↔ (a ≡ b) }
{}

/// `==` on hard drive nodes tells whether they are equal.
pub fn hard_drive_nodes_compare_as_values()
    ensures { (a b : HardDriveParts) → IsTrue (⟦<HardDriveNode as PartialEq>⟧.eq a b) ↔ (a ≡ b) }
{}

/// `==` on file paths tells whether they are equal.
pub fn file_nodes_compare_as_values()
    ensures { (a b : List ℕ) → IsTrue (⟦<FileNode as PartialEq>⟧.eq a b) ↔ (a ≡ b) }
{}

/// `==` on nodes that are kept as bytes tells whether they are equal.
pub fn other_nodes_compare_as_values()
    ensures { (a b : Row) → IsTrue (⟦<OtherNode as PartialEq>⟧.eq a b) ↔ (a ≡ b) }
{}

/// `==` on paths tells whether they are equal.
pub fn paths_compare_as_values()
    ensures { (a b : List (List Node)) → IsTrue (⟦<Path as PartialEq>⟧.eq a b) ↔ (a ≡ b) }
{}

/// `==` on GUIDs tells whether they are equal.
pub fn guids_compare_as_values()
    ensures { (a b : Guid) → IsTrue (⟦<Guid as PartialEq>⟧.eq a b) ↔ (a ≡ b) }
{}

/// `==` on the faults of nodes tells whether they are equal.
pub fn node_faults_compare_as_values()
    ensures { (a b : NodeFault) → IsTrue (⟦<NodeFault as PartialEq>⟧.eq a b) ↔ (a ≡ b) }
{}

/// `==` on the faults of names tells whether they are equal.
pub fn name_faults_compare_as_values()
    ensures { (a b : NameFault) → IsTrue (⟦<NameFault as PartialEq>⟧.eq a b) ↔ (a ≡ b) }
{}

/// `==` on the faults of paths tells whether they are equal.
pub fn path_faults_compare_as_values()
    ensures { (a b : PathFault) → IsTrue (⟦<PathFault as PartialEq>⟧.eq a b) ↔ (a ≡ b) }
{}
