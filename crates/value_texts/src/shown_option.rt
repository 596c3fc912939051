//! Load options as they are shown.

ghost use Rattle.std.specs.Prelude.{◌<◌, IfSome, length};

use crate::description::description_digits;
use crate::json::{JsonObject, JsonWriter, Leaf, append_leaf, append_leaves};
use std::alloc::{AllocError, Global};
use std::fmt;
use uefi_names::named_text;
use uefi_option::{
    ACTIVE, CATEGORY, CATEGORY_APP, CATEGORY_BOOT, FORCE_RECONNECT, HIDDEN, LoadOption, category,
    description_text, is_active, is_normal,
};
use uefi_path::{NodeIter, Path, check_path, nodes, read_units};
use uefi_text::path_text;

/// A load option (UEFI 2.10, 3.1.3) as it is shown. What JSON alone has is made when JSON is.
#[derive(Drop)]
pub struct ShownOption {
    /// The option.
    option: LoadOption,
    /// The description, as [`description_text`] shows it.
    pub description: String,
    /// The text of each path for a person, as [`named_text`] has it.
    pub named_paths: Vec<String>,
    /// The optional data in hexadecimal digits, if there are some.
    pub optional: Option<String>,
    /// The optional data as text, if they are one.
    pub optional_text: Option<String>,
}

impl ShownOption {
    /// What is shown of the option.
    ///
    /// # Errors
    ///
    /// [`AllocError`] if memory was refused.
    pub fn new(alloc: Global, option: LoadOption) -> Result<ShownOption, AllocError> {
        Ok(ShownOption {
            description: description_text(alloc, option.description())?,
            named_paths: named_texts(alloc, option.paths())?,
            optional: optional_digits(alloc, option.optional())?,
            optional_text: printed_text(alloc, option.optional())?,
            option,
        })
    }

    /// The attributes, all 32 bits.
    pub fn attributes(&self) -> u32 {
        self.option.attributes()
    }

    /// The device paths.
    pub fn paths(&self) -> &[Path] {
        self.option.paths()
    }

    /// Whether the boot manager tries the option by itself.
    pub(crate) fn is_normal(&self) -> bool {
        is_normal(self.attributes())
    }

    /// Appends the members of the description, from which it can be had again.
    fn append_description(&self, out: &mut JsonWriter) -> Result<(), AllocError> {
        let units = self.option.description();
        let digits = description_digits(out.alloc(), units)?;
        append_leaf("description", Leaf::Units(units), out)?;
        append_leaf("description_hex", Leaf::Text(digits.as_deref()), out)
    }

    /// Appends the members of the attributes.
    fn append_attributes(&self, out: &mut JsonWriter) -> Result<(), AllocError> {
        let bits = self.attributes();
        let category = format!(in out.alloc(); "{}", Category(bits))?;
        append_leaves(
            &[
                ("attributes", Leaf::Number(Some(bits))),
                ("active", Leaf::Flag(Some(is_active(bits)))),
                ("hidden", Leaf::Flag(Some(bits & HIDDEN != 0))),
                (
                    "force_reconnect",
                    Leaf::Flag(Some(bits & FORCE_RECONNECT != 0)),
                ),
                ("category", Leaf::Text(Some(&category))),
                ("normal", Leaf::Flag(Some(self.is_normal()))),
            ],
            out,
        )
    }
}

impl JsonObject for ShownOption {
    fn append_members(&self, out: &mut JsonWriter) -> Result<(), AllocError> {
        self.append_description(out)?;
        self.append_attributes(out)?;
        let paths = exact_texts(out.alloc(), self.paths())?;
        append_leaf("paths", Leaf::Texts(&paths), out)?;
        append_leaves(
            &[
                ("named_paths", Leaf::Texts(&self.named_paths)),
                ("optional", Leaf::Text(self.optional.as_deref())),
                ("optional_text", Leaf::Text(self.optional_text.as_deref())),
            ],
            out,
        )
    }
}

/// The text of each path for a person, as [`named_text`] has it. This fails only when out of memory.
fn named_texts(alloc: Global, paths: &[Path]) -> Result<Vec<String>, AllocError> {
    let mut texts = Vec::with_capacity(alloc, paths.len())?;
    for path in paths {
        texts.push(named_text(alloc, path)?)?;
    }
    Ok(texts)
}

/// The text of each path from which it can be had again, as [`path_text`] has it. This fails only when out of memory.
fn exact_texts(alloc: Global, paths: &[Path]) -> Result<Vec<String>, AllocError> {
    let mut texts = Vec::with_capacity(alloc, paths.len())?;
    for path in paths {
        texts.push(path_text(alloc, path)?)?;
    }
    Ok(texts)
}

/// The path at the start of a list of paths, and the list after it.
#[derive(Clone, Copy)]
pub struct FirstPath<'a> {
    /// The nodes of the path, where they are.
    pub nodes: NodeIter<'a>,
    /// The paths after it.
    pub rest: &'a [u8],
}

/// The path at the start of the list of an option, if there is one.
pub fn first_path(list: &[u8]) -> Option<FirstPath<'_>>
    ensures { IfSome result (λ first. length first.rest.now < length list.now) }
{
    let len = check_path(list).ok()?;
    let rest = list.get(len..)?;
    if rest.len() == list.len() {
        return None;
    }
    let nodes = nodes(list).ok()?;
    Some(FirstPath { nodes, rest })
}

/// Data in hexadecimal digits, or `None` if there are none.
///
/// # Errors
///
/// [`AllocError`] if memory was refused.
pub fn optional_digits(alloc: Global, bytes: &[u8]) -> Result<Option<String>, AllocError> {
    if bytes.is_empty() {
        return Ok(None);
    }
    Ok(Some(hex::encode(alloc, bytes)?))
}

/// The text that the bytes are, if they are units of two bytes, one at least and each from 0x20 to 0x7E, with perhaps a
/// zero unit after them.
///
/// # Errors
///
/// [`AllocError`] if memory was refused.
pub fn printed_text(alloc: Global, bytes: &[u8]) -> Result<Option<String>, AllocError> {
    if bytes.len() % 2 != 0 {
        return Ok(None);
    }
    let units = read_units(alloc, bytes)?;
    let printed = match units.as_slice() {
        [printed @ .., 0] => printed,
        printed => printed,
    };
    if printed.is_empty() {
        return Ok(None);
    }
    let mut text = String::with_capacity(alloc, printed.len())?;
    for unit in printed {
        match u8::try_from(*unit) {
            Ok(byte @ 0x20..=0x7e) => text.push(char::from(byte))?,
            _ => return Ok(None),
        }
    }
    Ok(Some(text))
}

/// The category in the attributes of an option: `boot`, `app`, or its bits where they are in the attributes.
#[derive(Clone, Copy)]
struct Category(u32);

impl fmt::Display for Category {
    fn fmt<W: fmt::Write>(&self, f: &mut fmt::Formatter<W>) -> fmt::Result {
        match category(self.0) {
            CATEGORY_BOOT => f.write_str("boot"),
            CATEGORY_APP => f.write_str("app"),
            bits => write!(f, "0x{bits:04x}"),
        }
    }
}

/// The attributes of an option in words: all bits, and then what those of the standard say.
#[derive(Clone, Copy)]
pub struct AttributeWords(pub u32);

impl fmt::Display for AttributeWords {
    fn fmt<W: fmt::Write>(&self, f: &mut fmt::Formatter<W>) -> fmt::Result {
        let bits = self.0;
        let active = if is_active(bits) {
            "active"
        } else {
            "inactive"
        };
        let hidden = if bits & HIDDEN != 0 { ", hidden" } else { "" };
        let reconnect = if bits & FORCE_RECONNECT != 0 {
            ", force reconnect"
        } else {
            ""
        };
        let category = Category(bits);
        write!(
            f,
            "0x{bits:08x} {active}{hidden}{reconnect}, category {category}"
        )?;
        match bits & !(ACTIVE | FORCE_RECONNECT | HIDDEN | CATEGORY) {
            0 => Ok(()),
            others => write!(f, ", other bits 0x{others:08x}"),
        }
    }
}
