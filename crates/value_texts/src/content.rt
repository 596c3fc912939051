//! What variables hold, as it is shown.

use crate::json::{JsonObject, JsonWriter, Leaf, append_leaf, append_leaves};
use crate::reason::{FaultReason, numbers_reason, option_reason};
use crate::settings::{Timeout, bad_timeout, number_of};
use crate::shown_option::ShownOption;
use std::alloc::{AllocError, Global};
use std::fmt;
use uefi_option::{OptionFault, read_option};
use uefi_path::read_units;
use uefi_vars::{BOOT_NEXT, BOOT_ORDER, EntryDigits, ORDER_MAX, TIMEOUT, VarFault};

/// Numbers of entries, each after a blank, or ` -` if there is none.
#[derive(Clone, Copy)]
pub struct NumberList<'a>(pub &'a [u16]);

impl fmt::Display for NumberList<'_> {
    fn fmt<W: fmt::Write>(&self, f: &mut fmt::Formatter<W>) -> fmt::Result {
        if self.0.is_empty() {
            return f.write_str(" -");
        }
        for number in self.0 {
            write!(f, " {}", EntryDigits(*number))?;
        }
        Ok(())
    }
}

/// Bytes that aren't what their variable is to hold, as they are shown.
#[derive(Drop)]
pub struct ShownFault {
    /// The words of the fault.
    pub fault: String,
    /// The offset of the fault in the bytes, if it has one.
    pub place: Option<usize>,
    /// The fault in plain words.
    pub reason: FaultReason,
    /// The bytes in hexadecimal digits.
    pub data: String,
}

impl ShownFault {
    /// Bytes that are no load option, for this fault (UEFI 2.10, 3.1.3).
    ///
    /// # Errors
    ///
    /// [`AllocError`] if memory was refused.
    pub fn from_option(
        alloc: Global,
        bytes: &[u8],
        fault: &OptionFault,
    ) -> Result<ShownFault, AllocError> {
        Ok(ShownFault {
            fault: fault.words(alloc)?,
            place: option_place(fault),
            reason: option_reason(bytes, fault),
            data: hex::encode(alloc, bytes)?,
        })
    }
}

impl JsonObject for ShownFault {
    fn append_members(&self, out: &mut JsonWriter) -> Result<(), AllocError> {
        append_leaves(
            &[
                ("fault", Leaf::Text(Some(&self.fault))),
                ("place", Leaf::Count(self.place)),
                ("reason", Leaf::Reason(self.reason)),
                ("data", Leaf::Text(Some(&self.data))),
            ],
            out,
        )
    }
}

impl fmt::Display for ShownFault {
    fn fmt<W: fmt::Write>(&self, f: &mut fmt::Formatter<W>) -> fmt::Result {
        write!(f, "undecodable, {}: {}", self.fault, self.reason)
    }
}

/// What a variable holds, as it is shown.
#[derive(Drop)]
pub enum Content {
    /// A load option, of an entry.
    LoadOption(ShownOption),
    /// The numbers of BootOrder.
    Order {
        /// These, in the order in which they are tried.
        entries: Vec<u16>,
    },
    /// The number of BootNext.
    Next {
        /// This.
        entry: EntryDigits,
    },
    /// The seconds of Timeout.
    Timeout(Timeout),
    /// Bytes that aren't what the variable is to hold.
    Undecodable(ShownFault),
}

impl Content {
    /// What the variable of the boot manager with this name holds (UEFI 2.10, 3.3): a name that is none of BootOrder's,
    /// BootNext's and Timeout's is taken for an entry's.
    ///
    /// # Errors
    ///
    /// [`AllocError`] if memory was refused.
    pub fn new(alloc: Global, name: &str, bytes: &[u8]) -> Result<Content, AllocError> {
        match name {
            BOOT_ORDER => Content::from_order(alloc, bytes),
            BOOT_NEXT => Content::from_next(alloc, bytes),
            TIMEOUT => Content::from_timeout(alloc, bytes),
            _ => Content::from_entry(alloc, bytes),
        }
    }

    /// The load option that the bytes are (UEFI 2.10, 3.1.3), or why they are none.
    ///
    /// # Errors
    ///
    /// [`AllocError`] if memory was refused.
    pub fn from_entry(alloc: Global, bytes: &[u8]) -> Result<Content, AllocError> {
        match read_option(alloc, bytes) {
            Ok(option) => Ok(Content::LoadOption(ShownOption::new(alloc, option)?)),
            Err(OptionFault::OutOfMemory) => Err(AllocError),
            Err(fault) => {
                Ok(Content::Undecodable(ShownFault::from_option(alloc, bytes, &fault)?))
            }
        }
    }

    /// The numbers that the bytes of BootOrder are (UEFI 2.10, 3.3), or why they are none.
    ///
    /// # Errors
    ///
    /// [`AllocError`] if memory was refused.
    pub fn from_order(alloc: Global, bytes: &[u8]) -> Result<Content, AllocError> {
        if bytes.len() % 2 != 0 || bytes.len() / 2 > ORDER_MAX {
            return Content::from_bad_numbers(alloc, bytes, VarFault::BadOrder);
        }
        Ok(Content::Order {
            entries: read_units(alloc, bytes)?,
        })
    }

    /// The number that the bytes of BootNext are (UEFI 2.10, 3.3), or why they are none.
    ///
    /// # Errors
    ///
    /// [`AllocError`] if memory was refused.
    pub fn from_next(alloc: Global, bytes: &[u8]) -> Result<Content, AllocError> {
        match bytes {
            [low, high] => Ok(Content::Next {
                entry: EntryDigits(u16::from_le_bytes([*low, *high])),
            }),
            _ => Content::from_bad_numbers(alloc, bytes, VarFault::BadNext),
        }
    }

    /// The seconds that the bytes of Timeout are (UEFI 2.10, 3.3), or why they are none.
    ///
    /// # Errors
    ///
    /// [`AllocError`] if memory was refused.
    pub fn from_timeout(alloc: Global, bytes: &[u8]) -> Result<Content, AllocError> {
        match number_of(bytes) {
            Some(seconds) => Ok(Content::Timeout(Timeout(seconds))),
            None => Ok(Content::Undecodable(bad_timeout(alloc, bytes)?)),
        }
    }

    /// What its JSON calls it.
    fn kind(&self) -> &'static str {
        match self {
            Content::LoadOption(_) => "option",
            Content::Order { .. } => "order",
            Content::Next { .. } => "next",
            Content::Timeout(_) => "timeout",
            Content::Undecodable(_) => "undecodable",
        }
    }

    /// Bytes that are no numbers of entries.
    fn from_bad_numbers(
        alloc: Global,
        bytes: &[u8],
        fault: VarFault,
    ) -> Result<Content, AllocError> {
        Ok(Content::Undecodable(ShownFault {
            fault: fault.words(alloc)?,
            place: None,
            reason: FaultReason::Words(numbers_reason(&fault)),
            data: hex::encode(alloc, bytes)?,
        }))
    }
}

impl JsonObject for Content {
    fn append_members(&self, out: &mut JsonWriter) -> Result<(), AllocError> {
        append_leaf("kind", Leaf::Word(Some(self.kind())), out)?;
        match self {
            Content::LoadOption(option) => option.append_members(out),
            Content::Order { entries } => {
                append_leaf("entries", Leaf::Numbers(Some(entries)), out)
            }
            Content::Next { entry } => append_leaf("entry", Leaf::Entry(Some(*entry)), out),
            Content::Timeout(timeout) => {
                append_leaf("seconds", Leaf::Number(Some(u32::from(timeout.0))), out)
            }
            Content::Undecodable(fault) => fault.append_members(out),
        }
    }
}

/// What is in one line of a variable: of an option the description between quotes and the first path, and of bytes
/// that can't be decoded all of them.
impl fmt::Display for Content {
    fn fmt<W: fmt::Write>(&self, f: &mut fmt::Formatter<W>) -> fmt::Result {
        match self {
            Content::LoadOption(option) => write!(f, " {}", Summary(option)),
            Content::Order { entries } => write!(f, "{}", NumberList(entries)),
            Content::Next { entry } => write!(f, " {entry}"),
            Content::Timeout(timeout) => write!(f, " {timeout}"),
            Content::Undecodable(fault) => write!(f, " {fault}, {}", DataText(&fault.data)),
        }
    }
}

/// An option in one line: the description between quotes, and the first path.
#[derive(Clone, Copy)]
pub struct Summary<'a>(pub &'a ShownOption);

impl fmt::Display for Summary<'_> {
    fn fmt<W: fmt::Write>(&self, f: &mut fmt::Formatter<W>) -> fmt::Result {
        write!(f, "{}", Quoted(&self.0.description))?;
        match self.0.named_paths.first() {
            Some(path) => write!(f, " {path}"),
            None => Ok(()),
        }
    }
}

/// A description between quotes. A quote in it is shown as `\0022`, so that the second quote ends it.
#[derive(Clone, Copy)]
pub struct Quoted<'a>(pub &'a str);

impl fmt::Display for Quoted<'_> {
    fn fmt<W: fmt::Write>(&self, f: &mut fmt::Formatter<W>) -> fmt::Result {
        f.write_char('"')?;
        for character in self.0.chars() {
            match character {
                '"' => f.write_str("\\0022")?,
                character => f.write_char(character)?,
            }
        }
        f.write_char('"')
    }
}

/// Data that are given in hexadecimal digits: how many bytes they are, and the digits.
#[derive(Clone, Copy)]
pub struct DataText<'a>(pub &'a str);

impl fmt::Display for DataText<'_> {
    fn fmt<W: fmt::Write>(&self, f: &mut fmt::Formatter<W>) -> fmt::Result {
        write!(f, "{} {}", ByteCount(self.0.len() / 2), self.0)
    }
}

/// A number of bytes, in words.
#[derive(Clone, Copy)]
pub struct ByteCount(pub usize);

impl fmt::Display for ByteCount {
    fn fmt<W: fmt::Write>(&self, f: &mut fmt::Formatter<W>) -> fmt::Result {
        match self.0 {
            1 => f.write_str("1 byte"),
            count => write!(f, "{count} bytes"),
        }
    }
}

/// The offset of an option's fault in its bytes, if it is known: that of the node at fault.
pub fn option_place(fault: &OptionFault) -> Option<usize> {
    match fault {
        OptionFault::Path(place, fault) => place.checked_add(fault.offset()?),
        _ => None,
    }
}
