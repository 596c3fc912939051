//! Laws of the definitions. Each function's contract is one law; calling it does nothing.

ghost use Rattle.std.specs.Prelude.{◌≡◌, ◌↔◌, ◌<◌, ◌^◌, ℕ, List, IsTrue};
ghost use Rattle.uefi_path.specs.declared.node.Node.{Node};
ghost use Rattle.uefi_path.specs.Row.{AreBytes};
ghost use Rattle.uefi_path.specs.Node.{IsNode};
ghost use Rattle.uefi_path.specs.Path.{IsPath};
ghost use Rattle.uefi_text.specs.declared.fault.TextFault.{TextFault};
ghost use Rattle.uefi_text.specs.Number.{IsNumber, number_text};
ghost use Rattle.uefi_text.specs.Guid.{IsGuid, guid_text};
ghost use Rattle.uefi_text.specs.Path.{IsNodeText, IsPathText};
ghost use Rattle.uefi_text.specs.Printed.{segment_of, canonical};
ghost use Rattle.uefi_text.specs.Fault.{IsStuckAt, IsTextFault};

use crate::fault::TextFault;
use uefi_path::Node;

/// A printed number is read as that number.
pub fn a_printed_number_is_its_text()
    ensures { (n : ℕ) → n < 2 ^ 64 → IsNumber (number_text n) n }
{}

/// A text is read as at most one number.
pub fn a_text_is_one_number()
    ensures { (text : List ℕ) (m n : ℕ) → IsNumber text m → IsNumber text n → m ≡ n }
{}

/// A printed GUID is read as that GUID.
pub fn a_printed_guid_is_its_text()
    ensures { (guid : List ℕ) → AreBytes 16 guid → IsGuid (guid_text guid) guid }
{}

/// A text is read as at most one GUID.
pub fn a_text_is_one_guid()
    ensures { (text g h : List ℕ) → IsGuid text g → IsGuid text h → g ≡ h }
{}

/// The printed segment of a node stands for the node.
pub fn a_printed_segment_stands_for_the_node()
    ensures { (node : Node) → IsNode node → IsNodeText (segment_of node) node }
{
    uefi_path::laws::each_node_is_spelled();
}

/// The printed text of a path stands for the path.
pub fn a_printed_path_stands_for_the_path()
    ensures { (path : List (List Node)) → IsPath path → IsPathText (canonical path) path }
{
    uefi_path::laws::each_node_is_spelled();
}

/// A text stands for at most one path.
pub fn a_text_stands_for_one_path()
    ensures { (text : List ℕ) (p q : List (List Node)) →
        IsPathText text p → IsPathText text q → p ≡ q }
{
    uefi_path::laws::bytes_spell_one_node();
}

/// A text that goes on with no node where there must be one stands for no path.
pub fn a_stuck_text_stands_for_no_path()
    ensures { (text : List ℕ) (place : ℕ) (path : List (List Node)) →
        IsStuckAt text place → IsPathText text path → ⊥ }
{}

/// A text goes on with no node at one place at most.
pub fn a_text_is_stuck_at_one_place()
    ensures { (text : List ℕ) (a b : ℕ) → IsStuckAt text a → IsStuckAt text b → a ≡ b }
{}

/// A text that has a fault stands for no path.
pub fn a_text_with_a_fault_stands_for_no_path()
    ensures { (text : List ℕ) (fault : TextFault) (path : List (List Node)) →
        IsTextFault text fault → IsPathText text path → ⊥ }
{}

/// `==` on the faults of texts tells whether they are equal.
pub fn text_faults_compare_as_values()
    ensures { (a b : TextFault) → IsTrue (⟦<TextFault as PartialEq>⟧.eq a b) ↔ (a ≡ b) }
{}
