//! Laws of the definitions. Each function's contract is one law; calling it does nothing.

ghost use Rattle.std.specs.Prelude.{◌≡◌, ℕ, List};
ghost use Rattle.uefi_path.specs.declared.node.Node.{Node};
ghost use Rattle.uefi_path.specs.Path.{IsPath};
ghost use Rattle.uefi_text.specs.Path.{IsPathText};
ghost use Rattle.uefi_names.specs.declared.table.NodeTable.{NodeTable};
ghost use Rattle.uefi_names.specs.Named.{named_path};
ghost use Rattle.uefi_names.specs.Reading.{IsNamedText};

/// What is printed of a path with the names of a table is read as that path by the table.
pub fn a_printed_path_is_read_back()
    ensures { (table : NodeTable) (path : List (List Node)) → IsPath path →
        IsNamedText table (named_path table path) path }
{
    uefi_text::laws::a_printed_segment_stands_for_the_node();
}

/// Each exact text of a path is read as that path by any table.
pub fn an_exact_text_is_a_named_text()
    ensures { (table : NodeTable) (text : List ℕ) (path : List (List Node)) → IsPathText text path →
        IsNamedText table text path }
{}

/// A text stands for at most one path by a table.
pub fn a_named_text_stands_for_one_path()
    ensures { (table : NodeTable) (text : List ℕ) (p q : List (List Node)) →
        IsNamedText table text p → IsNamedText table text q → p ≡ q }
{
    uefi_path::laws::bytes_spell_one_node();
}
