//! What differs between two sets of variables, by `bootvars diff`.

use crate::at_risk::UnnamedWords;
use std::alloc::{AllocError, Global};
use std::fmt::{self, Display};
use uefi_path::Path;
use uefi_text::path_text;
use uefi_vars::{
    BootChange, EntryDigits, EntryName, NamingChange, Vars, boot_changes, entry_number,
    naming_change,
};
use value_texts::json::{
    JsonObject, JsonWriter, Leaf, append_leaf, append_leaves, append_object, append_objects,
    json_line,
};
use value_texts::{AttributeWords, Content, DataText, Quoted, ShownOption};

/// What differs between two sets, as it is shown.
#[derive(Drop)]
struct ShownDiff<'a> {
    /// Whether nothing does.
    equal: bool,
    /// The changes from the first set to the second, in the order in which a machine can make them.
    changes: Vec<ShownChange<'a>>,
    /// The entries of the second set that are in no order there, and weren't in the first.
    unnamed: Vec<u16>,
    /// The entries of the second set that were in no order in the first, and are named there.
    named: Vec<u16>,
}

impl JsonObject for ShownDiff<'_> {
    fn append_members(&self, out: &mut JsonWriter) -> Result<(), AllocError> {
        append_leaf("equal", Leaf::Flag(Some(self.equal)), out)?;
        append_objects("changes", &self.changes, out)?;
        append_leaves(
            &[
                ("unnamed", Leaf::Numbers(Some(&self.unnamed))),
                ("named", Leaf::Numbers(Some(&self.named))),
            ],
            out,
        )
    }
}

/// A change as it is shown.
#[derive(Drop)]
struct ShownChange<'a> {
    /// What becomes of the variable.
    change: ChangeKind,
    /// The name of the variable.
    name: &'a str,
    /// The number of the entry, if the variable is one.
    entry: Option<EntryDigits>,
    /// What it held.
    before: Option<Content>,
    /// What it holds.
    after: Option<Content>,
}

impl JsonObject for ShownChange<'_> {
    fn append_members(&self, out: &mut JsonWriter) -> Result<(), AllocError> {
        append_leaves(
            &[
                ("change", Leaf::Word(Some(self.change.word()))),
                ("name", Leaf::Text(Some(self.name))),
                ("entry", Leaf::Entry(self.entry)),
            ],
            out,
        )?;
        append_object("before", self.before.as_ref(), out)?;
        append_object("after", self.after.as_ref(), out)
    }
}

/// What becomes of a variable.
#[derive(Clone, Copy)]
enum ChangeKind {
    /// It is new.
    Added,
    /// It is taken out.
    Removed,
    /// It has new data.
    Changed,
}

impl ChangeKind {
    /// The kind of the change: one that holds data on neither side is none, and is shown as changed.
    fn of(change: &BootChange<'_>) -> ChangeKind {
        match (change.before, change.after) {
            (None, Some(_)) => ChangeKind::Added,
            (Some(_), None) => ChangeKind::Removed,
            _ => ChangeKind::Changed,
        }
    }

    /// What its JSON calls it.
    fn word(self) -> &'static str {
        match self {
            ChangeKind::Added => "added",
            ChangeKind::Removed => "removed",
            ChangeKind::Changed => "changed",
        }
    }

    /// The sign before its line.
    fn sign(self) -> char {
        match self {
            ChangeKind::Added => '+',
            ChangeKind::Removed => '-',
            ChangeKind::Changed => '~',
        }
    }
}

impl<'a> ShownChange<'a> {
    /// What is shown of a change.
    fn new(alloc: Global, change: &BootChange<'a>) -> Result<ShownChange<'a>, AllocError> {
        Ok(ShownChange {
            change: ChangeKind::of(change),
            name: change.name,
            entry: entry_number(change.name).map(EntryDigits),
            before: content_of(alloc, change.name, change.before)?,
            after: content_of(alloc, change.name, change.after)?,
        })
    }
}

/// What a variable with this name and perhaps these data holds.
fn content_of(
    alloc: Global,
    name: &str,
    data: Option<&[u8]>,
) -> Result<Option<Content>, AllocError> {
    match data {
        Some(data) => Ok(Some(Content::new(alloc, name, data)?)),
        None => Ok(None),
    }
}

/// Shows which of Boot####, BootOrder, BootNext and Timeout differ in two sets (UEFI 2.10, 3.3), as lines for a person, in the
/// order of [`boot_changes`]: nothing if they are equal. The lines of each change are those of [`change_report`]. After
/// them a line tells of each entry that is in no order in the second set and wasn't in the first, and of each that no
/// longer is, by [`naming_change`]. docs/formats.md has each line.
///
/// # Errors
///
/// [`AllocError`] if memory was refused.
pub fn diff_report(alloc: Global, from: &Vars, to: &Vars) -> Result<String, AllocError> {
    let mut report = String::new(alloc);
    for change in &boot_changes(alloc, from, to)? {
        append_change(alloc, change, &mut report)?;
    }
    append_naming(&naming_change(alloc, from, to)?, &mut report)?;
    Ok(report)
}

/// Appends the lines of what changes of entries in no order.
fn append_naming(change: &NamingChange, report: &mut String) -> Result<(), AllocError> {
    for number in &change.unnamed {
        writeln!(report, "{}", UnnamedWords(*number))?;
    }
    for number in &change.named {
        writeln!(
            report,
            "{} named by BootOrder or BootNext now",
            EntryName(*number)
        )?;
    }
    Ok(())
}

/// Shows which of Boot####, BootOrder, BootNext and Timeout differ in two sets: as [`diff_json`] does, or as
/// [`diff_report`] does.
///
/// # Errors
///
/// [`AllocError`] if memory was refused.
pub fn changes_text(
    alloc: Global,
    from: &Vars,
    to: &Vars,
    json: bool,
) -> Result<String, AllocError> {
    if json {
        diff_json(alloc, from, to)
    } else {
        diff_report(alloc, from, to)
    }
}

/// Shows which of Boot####, BootOrder, BootNext and Timeout differ in two sets as JSON, an object on one line that ends with a
/// line feed. docs/formats.md has each member.
///
/// # Errors
///
/// [`AllocError`] if memory was refused.
pub fn diff_json(alloc: Global, from: &Vars, to: &Vars) -> Result<String, AllocError> {
    let boot_changes = boot_changes(alloc, from, to)?;
    let mut changes = Vec::with_capacity(alloc, boot_changes.len())?;
    for change in &boot_changes {
        changes.push(ShownChange::new(alloc, change)?)?;
    }
    let NamingChange { unnamed, named } = naming_change(alloc, from, to)?;
    let shown = ShownDiff {
        equal: changes.is_empty(),
        changes,
        unnamed,
        named,
    };
    json_line(alloc, &shown)
}

/// Shows one change of a variable of the boot manager as lines for a person. The first has `+` for a variable that is
/// new, `-` for one that is taken out or `~` for one that has new data, its name, and what it holds: the description of
/// an entry between quotes and its first path, the numbers of BootOrder, that of BootNext, or the seconds of Timeout. Of an entry whose load
/// option changes to another, indented lines say which parts do. docs/formats.md has each line.
///
/// # Errors
///
/// [`AllocError`] if memory was refused.
pub fn change_report(alloc: Global, change: &BootChange<'_>) -> Result<String, AllocError> {
    let mut report = String::new(alloc);
    append_change(alloc, change, &mut report)?;
    Ok(report)
}

/// Appends the lines of a change.
fn append_change(
    alloc: Global,
    change: &BootChange<'_>,
    report: &mut String,
) -> Result<(), AllocError> {
    append_shown(alloc, &ShownChange::new(alloc, change)?, report)
}

/// Appends the lines of a change, as it is shown.
fn append_shown(
    alloc: Global,
    change: &ShownChange<'_>,
    report: &mut String,
) -> Result<(), AllocError> {
    write!(report, "{} {}", change.change.sign(), change.name)?;
    match (&change.before, &change.after) {
        (Some(Content::LoadOption(before)), Some(Content::LoadOption(after))) => {
            writeln!(report, " {}", Quoted(&after.description))?;
            append_parts(alloc, before, after, report)
        }
        (Some(before), Some(after)) => writeln!(report, "{before} ->{after}"),
        (Some(before), None) => writeln!(report, "{before}"),
        (None, Some(after)) => writeln!(report, "{after}"),
        (None, None) => report.push('\n'),
    }
}

/// Appends an indented line for each part in which two options differ.
fn append_parts(
    alloc: Global,
    before: &ShownOption,
    after: &ShownOption,
    report: &mut String,
) -> Result<(), AllocError> {
    if before.description != after.description {
        let (before, after) = (Quoted(&before.description), Quoted(&after.description));
        append_part("description", before, after, report)?;
    }
    if before.attributes() != after.attributes() {
        append_part(
            "attributes",
            AttributeWords(before.attributes()),
            AttributeWords(after.attributes()),
            report,
        )?;
    }
    append_paths(alloc, before, after, report)?;
    if before.optional != after.optional {
        let before = OptionalData(before.optional.as_ref());
        append_part(
            "optional",
            before,
            OptionalData(after.optional.as_ref()),
            report,
        )?;
    }
    Ok(())
}

/// Appends an indented line for a part that was one thing, and becomes another.
fn append_part<D: Display + Drop>(
    name: &str,
    before: D,
    after: D,
    report: &mut String,
) -> Result<(), AllocError> {
    writeln!(report, "  {name} {before} -> {after}")
}

/// Appends an indented line for each place of the lists of paths in which two options differ.
fn append_paths(
    alloc: Global,
    before: &ShownOption,
    after: &ShownOption,
    report: &mut String,
) -> Result<(), AllocError> {
    for place in 0..before.paths().len().max(after.paths().len()) {
        if before.paths().get(place) != after.paths().get(place) {
            append_path(alloc, before, after, place, report)?;
        }
    }
    Ok(())
}

/// Appends the indented line of a place at which the paths of two options differ, where an option may have none. The texts
/// are those for a person, or the exact ones if only bytes differ that the former don't show.
fn append_path(
    alloc: Global,
    before: &ShownOption,
    after: &ShownOption,
    place: usize,
    report: &mut String,
) -> Result<(), AllocError> {
    let number = place.saturating_add(1);
    let (old, new) = (before.named_paths.get(place), after.named_paths.get(place));
    if old != new {
        return writeln!(report, "  path {number} {} -> {}", OrNone(old), OrNone(new));
    }
    let old = exact_text(alloc, before.paths().get(place))?;
    let new = exact_text(alloc, after.paths().get(place))?;
    let (old, new) = (OrNone(old.as_ref()), OrNone(new.as_ref()));
    writeln!(report, "  path {number} {old} -> {new}")
}

/// The exact text of a path, if there is one. This fails only when out of memory.
fn exact_text(alloc: Global, path: Option<&Path>) -> Result<Option<String>, AllocError> {
    match path {
        Some(path) => Ok(Some(path_text(alloc, path)?)),
        None => Ok(None),
    }
}

/// A text, or `none` if there is none.
#[derive(Clone, Copy)]
struct OrNone<'a>(Option<&'a String>);

impl fmt::Display for OrNone<'_> {
    fn fmt<W: fmt::Write>(&self, f: &mut fmt::Formatter<W>) -> fmt::Result {
        match self.0 {
            Some(text) => f.write_str(text),
            None => f.write_str("none"),
        }
    }
}

/// The optional data of an option, which is given in hexadecimal digits, or `none` if there are none.
#[derive(Clone, Copy)]
struct OptionalData<'a>(Option<&'a String>);

impl fmt::Display for OptionalData<'_> {
    fn fmt<W: fmt::Write>(&self, f: &mut fmt::Formatter<W>) -> fmt::Result {
        match self.0 {
            Some(digits) => write!(f, "{}", DataText(digits)),
            None => f.write_str("none"),
        }
    }
}
