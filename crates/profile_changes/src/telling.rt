//! What is told of a profile that is applied.

use boot_texts::changes_text;
use std::alloc::{AllocError, Global};
use value_texts::json::{JsonObject, JsonWriter, Leaf, append_leaf, json_line};
use wanted_changes::SetChange;

/// What a person is told if nothing is changed.
const UNCHANGED: &str = "nothing to change\n";

/// Whether a profile changes something.
#[derive(Clone, Copy)]
struct AppliedView {
    is_changed: bool,
}

impl JsonObject for AppliedView {
    fn append_members(&self, out: &mut JsonWriter) -> Result<(), AllocError> {
        append_leaf("changed", Leaf::Flag(Some(self.is_changed)), out)
    }
}

/// What is printed of a profile that changes something, or nothing: as `diff` does, and in JSON with a member more.
pub(crate) fn told_text(
    alloc: Global,
    change: SetChange<'_>,
    json: bool,
    is_changed: bool,
) -> Result<String, AllocError> {
    if json {
        return told_json(alloc, change, is_changed);
    }
    if is_changed {
        changes_text(alloc, change.from, change.to, false)
    } else {
        String::from_str(alloc, UNCHANGED)
    }
}

/// The object of the changes, with a member more, which comes from a line of its own: after the comma behind that line's version.
fn told_json(alloc: Global, change: SetChange<'_>, is_changed: bool) -> Result<String, AllocError> {
    let changes = changes_text(alloc, change.from, change.to, true)?;
    let line = json_line(alloc, &AppliedView { is_changed })?;
    match (changes.strip_suffix("}\n"), line.split_once(',')) {
        (Some(members), Some((_version, last))) => format!(in alloc; "{members},{last}"),
        _ => Ok(changes),
    }
}
