//! Entries that were to be added, as they are shown, by `bootvars add`.

use std::alloc::{AllocError, Global};
use uefi_vars::{EntryDigits, EntryName};
use value_texts::json::{JsonObject, JsonWriter, Leaf, append_leaves, json_line};

/// An entry that was to be added.
#[derive(Clone, Copy, Debug, PartialEq, Eq)]
pub struct AdditionView {
    /// Its number.
    pub entry: u16,
    /// Whether it wasn't there before.
    pub is_added: bool,
}

/// The entry's name on a line. This fails only when out of memory.
pub fn addition_line(alloc: Global, addition: AdditionView) -> Result<String, AllocError> {
    let name = EntryName(addition.entry);
    format!(in alloc; "{name}\n")
}

/// The entry as an object of JSON on one line, which ends with a line feed; docs/formats.md has each member. This fails only
/// when out of memory.
pub fn addition_json(alloc: Global, addition: AdditionView) -> Result<String, AllocError> {
    json_line(alloc, &addition)
}

impl JsonObject for AdditionView {
    fn append_members(&self, out: &mut JsonWriter) -> Result<(), AllocError> {
        append_leaves(
            &[
                ("name", Leaf::Name(EntryName(self.entry))),
                ("entry", Leaf::Entry(Some(EntryDigits(self.entry)))),
                ("added", Leaf::Flag(Some(self.is_added))),
            ],
            out,
        )
    }
}
