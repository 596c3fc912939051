//! Values to JSON, an object on one line. What is an object here says which members it has; all texts are written by
//! `json_text`.

ghost use Rattle.std.specs.Prelude.{◌≡◌, ◌++◌, codes, OnOk};
ghost use Rattle.std.specs.String.{string_bytes};
ghost use Rattle.value_texts.specs.Json.{text_or_null, WritesText};

use crate::json_text::{append_text, append_units};
use crate::reason::FaultReason;
use std::alloc::{AllocError, Global};
use std::fmt::Display;
use uefi_vars::{EntryDigits, EntryName};

/// The version of the members: one whose meaning changes gets another number. New members don't change it.
pub const VERSION: u32 = 1;

/// What is shown as an object of JSON.
pub trait JsonObject {
    /// Appends the members to the object that is open.
    ///
    /// # Errors
    ///
    /// [`AllocError`] if memory was refused.
    fn append_members(&self, out: &mut JsonWriter) -> Result<(), AllocError>;
}

/// What a member is that isn't an object. `None` is `null`.
#[derive(Clone, Copy, Debug)]
pub enum Leaf<'a> {
    /// Whether something is so.
    Flag(Option<bool>),
    /// A number.
    Number(Option<u32>),
    /// How many there are of something.
    Count(Option<usize>),
    /// The number of a record of the history.
    Record(u64),
    /// A word of the program's own.
    Word(Option<&'static str>),
    /// A text.
    Text(Option<&'a str>),
    /// Texts.
    Texts(&'a [String]),
    /// A text of units of UTF-16, in which half of a pair is an escape.
    Units(&'a [u16]),
    /// The name of an entry's variable.
    Name(EntryName),
    /// An entry, as its four digits.
    Entry(Option<EntryDigits>),
    /// Entries, each as its four digits.
    Numbers(Option<&'a [u16]>),
    /// The words of a reason.
    Reason(FaultReason),
}

/// A line of JSON while it is written.
#[derive(Debug, Drop)]
pub struct JsonWriter {
    alloc: Global,
    line: String,
    /// Whether a comma comes before the next member or item.
    needs_comma: bool,
}

impl JsonWriter {
    /// What memory comes from.
    pub fn alloc(&self) -> Global {
        self.alloc
    }

    /// Opens an object or a list.
    fn open(&mut self, bracket: char) -> Result<(), AllocError> {
        self.needs_comma = false;
        self.line.push(bracket)
    }

    /// Closes an object or a list.
    fn close(&mut self, bracket: char) -> Result<(), AllocError> {
        self.needs_comma = true;
        self.line.push(bracket)
    }

    /// Begins an item of a list.
    fn begin_item(&mut self) -> Result<(), AllocError> {
        if self.needs_comma {
            self.line.push(',')?;
        }
        Ok(())
    }

    /// Begins a member of this name.
    fn begin_member(&mut self, name: &str) -> Result<(), AllocError> {
        self.begin_item()?;
        append_text(name, &mut self.line)?;
        self.line.push(':')
    }

    /// Appends an object.
    fn object<T: JsonObject>(&mut self, object: &T) -> Result<(), AllocError> {
        self.open('{')?;
        object.append_members(self)?;
        self.close('}')
    }

    /// Appends what isn't an object.
    fn leaf(&mut self, leaf: Leaf<'_>) -> Result<(), AllocError>
        ensures { OnOk result (WritesText leaf.entry (string_bytes self.old.line) (string_bytes self.new.line)) }
    {
        match leaf {
            Leaf::Flag(flag) => self.value(flag),
            Leaf::Number(number) => self.value(number),
            Leaf::Count(count) => self.value(count),
            Leaf::Record(number) => self.value(Some(number)),
            Leaf::Word(text) | Leaf::Text(text) => self.text(text),
            Leaf::Texts(texts) => self.texts(texts),
            Leaf::Units(units) => append_units(units, &mut self.line),
            Leaf::Name(name) => self.words(name),
            Leaf::Entry(Some(entry)) => self.words(entry),
            Leaf::Entry(None) | Leaf::Numbers(None) => self.null(),
            Leaf::Numbers(Some(numbers)) => self.numbers(numbers),
            Leaf::Reason(reason) => self.words(reason),
        }
    }

    /// Appends that there is nothing.
    fn null(&mut self) -> Result<(), AllocError>
        ensures { OnOk result (string_bytes self.new.line ≡ string_bytes self.old.line ++ codes "null") }
    {
        self.line.push_str("null")
    }

    /// Appends a number, or whether something is so.
    fn value<D: Display + Drop>(&mut self, value: Option<D>) -> Result<(), AllocError> {
        match value {
            Some(value) => write!(self.line, "{value}"),
            None => self.null(),
        }
    }

    /// Appends a text.
    fn text(&mut self, text: Option<&str>) -> Result<(), AllocError>
        ensures { OnOk result (string_bytes self.new.line ≡ string_bytes self.old.line ++ text_or_null text.entry) }
    {
        match text {
            Some(text) => append_text(text, &mut self.line),
            None => self.null(),
        }
    }

    /// Appends a list of texts.
    fn texts(&mut self, texts: &[String]) -> Result<(), AllocError> {
        self.open('[')?;
        for text in texts {
            self.begin_item()?;
            append_text(text, &mut self.line)?;
            self.needs_comma = true;
        }
        self.close(']')
    }

    /// Appends a list of entries by their numbers.
    fn numbers(&mut self, numbers: &[u16]) -> Result<(), AllocError> {
        self.open('[')?;
        for number in numbers {
            self.item(EntryDigits(*number))?;
        }
        self.close(']')
    }

    /// Appends an item of a list, a text that is what is shown of a value.
    fn item<D: Display + Drop>(&mut self, value: D) -> Result<(), AllocError> {
        self.begin_item()?;
        self.words(value)?;
        self.needs_comma = true;
        Ok(())
    }

    /// Appends a text that is what is shown of a value.
    fn words<D: Display + Drop>(&mut self, value: D) -> Result<(), AllocError> {
        let words = format!(in self.alloc; "{value}")?;
        append_text(&words, &mut self.line)
    }
}

/// Appends members to the object that is open.
///
/// # Errors
///
/// [`AllocError`] if memory was refused.
pub fn append_leaves(leaves: &[(&str, Leaf<'_>)], out: &mut JsonWriter) -> Result<(), AllocError> {
    for (name, leaf) in leaves {
        append_leaf(name, *leaf, out)?;
    }
    Ok(())
}

/// Appends a member to the object that is open.
///
/// # Errors
///
/// [`AllocError`] if memory was refused.
pub fn append_leaf(name: &str, leaf: Leaf<'_>, out: &mut JsonWriter) -> Result<(), AllocError> {
    out.begin_member(name)?;
    out.leaf(leaf)?;
    out.needs_comma = true;
    Ok(())
}

/// Appends a member that is an object, or `null` if there is none.
///
/// # Errors
///
/// [`AllocError`] if memory was refused.
pub fn append_object<T: JsonObject>(
    name: &str,
    object: Option<&T>,
    out: &mut JsonWriter,
) -> Result<(), AllocError> {
    out.begin_member(name)?;
    match object {
        Some(object) => out.object(object)?,
        None => out.null()?,
    }
    out.needs_comma = true;
    Ok(())
}

/// Appends a member that is a list of objects.
///
/// # Errors
///
/// [`AllocError`] if memory was refused.
pub fn append_objects<T: JsonObject>(
    name: &str,
    objects: &[T],
    out: &mut JsonWriter,
) -> Result<(), AllocError> {
    out.begin_member(name)?;
    out.open('[')?;
    for object in objects {
        out.begin_item()?;
        out.object(object)?;
    }
    out.close(']')
}

/// The object as JSON on one line, which ends with a line feed. Its first member, `version`, is [`VERSION`].
///
/// # Errors
///
/// [`AllocError`] if memory was refused.
pub fn json_line<T: JsonObject>(alloc: Global, object: &T) -> Result<String, AllocError> {
    let mut out = JsonWriter {
        alloc,
        line: String::new(alloc),
        needs_comma: false,
    };
    out.open('{')?;
    append_leaf("version", Leaf::Number(Some(VERSION)), &mut out)?;
    object.append_members(&mut out)?;
    out.close('}')?;
    out.line.push('\n')?;
    Ok(out.line)
}
