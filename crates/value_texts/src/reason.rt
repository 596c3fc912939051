//! Why bytes or a text are refused, in plain words.

use std::fmt;
use uefi_names::{Encoding, Field, Item, NamedFault, Show};
use uefi_option::{OptionFault, check_option};
use uefi_path::PathFault;
use uefi_text::TextFault;
use uefi_vars::{ATTRIBUTES_LEN, VarFault};

/// What is said of an option that has the attributes of its variable before it.
const HAS_ATTRIBUTES: &str =
    "four bytes come before the load option, as in a file of efivarfs: leave them out";

/// The bytes of a load option before its description (UEFI 2.10, 3.1.3).
const OPTION_HEAD_LEN: usize = 6;

/// The bytes of a node's header (UEFI 2.10, 10.3).
const NODE_HEADER_LEN: usize = 4;

/// What is said of a name that no node has.
const NO_SUCH_NAME: &str = "no node has this name";

/// What is said of a segment that is no node.
const NO_SUCH_NODE: &str = "no node is written so";

/// What is said of what is no number.
const NUMBER_WANTED: &str = "a number is wanted, such as 0x1";

/// Why something is refused. Its `Display` is in plain words.
#[derive(Clone, Copy, Debug, PartialEq, Eq)]
pub enum FaultReason {
    /// In words alone.
    Words(&'static str),
    /// In words that speak of a length, and then the length that there is and the one that there has to be, in bytes.
    Sizes(&'static str, Sizes),
    /// In words that speak of a name, and then the nearest name that there is.
    Nearest(&'static str, &'static str),
    /// At a character of a line that is no hexadecimal digit, counted from 1.
    Column(usize),
}

/// How many bytes there are of something, and how many there have to be.
#[derive(Clone, Copy, Debug, PartialEq, Eq)]
pub struct Sizes {
    /// How many there are.
    pub found: usize,
    /// How many there have to be.
    pub wanted: usize,
}

impl FaultReason {
    /// The words, with the sizes if they are known.
    pub fn with_sizes(words: &'static str, sizes: Option<Sizes>) -> FaultReason {
        match sizes {
            Some(sizes) => FaultReason::Sizes(words, sizes),
            None => FaultReason::Words(words),
        }
    }
}

impl fmt::Display for FaultReason {
    fn fmt<W: fmt::Write>(&self, f: &mut fmt::Formatter<W>) -> fmt::Result {
        match self {
            FaultReason::Words(words) => f.write_str(words),
            FaultReason::Sizes(words, sizes) => {
                write!(f, "{words}: {} in place of {}", sizes.found, sizes.wanted)
            }
            FaultReason::Nearest(words, name) => write!(f, "{words}: the nearest is {name}"),
            FaultReason::Column(column) => {
                write!(
                    f,
                    "the character in column {column} is no hexadecimal digit"
                )
            }
        }
    }
}

/// Whether the bytes are a load option after four others, as the file of an entry in efivarfs has it.
fn has_attributes(bytes: &[u8]) -> bool {
    bytes
        .get(ATTRIBUTES_LEN..)
        .is_some_and(|rest| check_option(rest).is_ok())
}

/// Why the bytes, which have this fault, are no load option (UEFI 2.10, 3.1.3), in words, with sizes if some are missing.
pub fn option_reason(bytes: &[u8], fault: &OptionFault) -> FaultReason {
    if has_attributes(bytes) {
        FaultReason::Words(HAS_ATTRIBUTES)
    } else {
        FaultReason::with_sizes(option_words(fault), option_sizes(fault))
    }
}

/// How many bytes there are and have to be of a load option, its list of paths, or a node, which has this fault: `None` if
/// no bytes are missing.
pub fn option_sizes(fault: &OptionFault) -> Option<Sizes> {
    match fault {
        OptionFault::Short { found } => Some(Sizes {
            found: *found,
            wanted: OPTION_HEAD_LEN,
        }),
        OptionFault::ListPastEnd { stated, left } => Some(Sizes {
            found: *left,
            wanted: *stated,
        }),
        OptionFault::Path(_, PathFault::ShortHeader { left, .. }) => Some(Sizes {
            found: *left,
            wanted: NODE_HEADER_LEN,
        }),
        OptionFault::Path(_, PathFault::PastEnd { stated, left, .. }) => Some(Sizes {
            found: *left,
            wanted: *stated,
        }),
        _ => None,
    }
}

/// Why there is no load option (UEFI 2.10, 3.1.3).
pub fn option_words(fault: &OptionFault) -> &'static str {
    match fault {
        OptionFault::Short { .. } => "it has fewer bytes than the six before a description",
        OptionFault::NoTerminator => "no zero unit closes the description",
        OptionFault::ListPastEnd { .. } => "the list of paths has fewer bytes than it states",
        OptionFault::EmptyList => "it has no device path",
        OptionFault::Path(_, fault) => path_words(fault),
        OptionFault::ZeroUnit => "the description has a zero unit",
        OptionFault::ListTooLong => "the paths have more than 65535 bytes together",
        OptionFault::OutOfMemory => "out of memory",
    }
}

/// Why bytes don't begin with a device path (UEFI 2.10, 10.3).
fn path_words(fault: &PathFault) -> &'static str {
    match fault {
        PathFault::NoEnd(_) => "a path has no end node",
        PathFault::ShortHeader { .. } => "a path ends within the header of a node",
        PathFault::BadLength(_) => "a node of a path states fewer bytes than its header has",
        PathFault::PastEnd { .. } => "a node of a path states more bytes than there are",
        PathFault::BadEnd(_) => "an end node of a path isn't one of the standard",
        PathFault::OutOfMemory => "out of memory",
    }
}

/// Why a text in which nodes have their names stands for no device path (UEFI 2.10, 10.6), after the words `at that
/// character`.
pub fn named_reason(fault: &NamedFault) -> FaultReason {
    match fault {
        NamedFault::UnknownName(_, Some(name)) => FaultReason::Nearest(NO_SUCH_NAME, *name),
        fault => FaultReason::Words(named_words(fault)),
    }
}

/// The same, without a name that is near.
fn named_words(fault: &NamedFault) -> &'static str {
    match fault {
        NamedFault::BadSegment(_) => NO_SUCH_NODE,
        NamedFault::UnknownName(..) => NO_SUCH_NAME,
        NamedFault::BadArgument(_, field) => argument_reason(field),
        NamedFault::BadCount(_) => "the node has another number of arguments",
        NamedFault::BadData(_) => "no node has these arguments together",
        NamedFault::Exact(fault) => text_reason(fault),
        NamedFault::OutOfMemory => "out of memory",
    }
}

/// What is wanted in a field.
fn argument_reason(field: &Field) -> &'static str {
    match (field.show, field.len) {
        (Show::Number(_) | Show::OneMore, 1) => "a number up to 0xff is wanted",
        (Show::Number(_), 2) => "a number up to 0xffff is wanted",
        (Show::Number(_), 4) => "a number up to 0xffffffff is wanted",
        (Show::Number(_) | Show::OneMore, _) => "a number of 64 bits is wanted, such as 0x1",
        (Show::AllDigits, _) => "up to sixteen hexadecimal digits are wanted",
        (Show::Word { .. }, _) => "a word of this node is wanted, or its number",
        (Show::Literal(_), _) => "this is always written the same",
        (Show::Digits | Show::PrefixedDigits, _) => {
            "two hexadecimal digits are wanted for each byte"
        }
        (Show::Guid, _) => "a GUID is wanted, as 5f2c1a9e-7d64-4b0e-9c3b-1e8f60a2d7c4",
        (Show::HardwareId, _) => "an identifier is wanted, as PNP0A03 or 0x0a0341d0",
        (Show::Ipv4, _) | (Show::Each(_, Item::Ipv4), _) => {
            "an address of IPv4 is wanted, as 192.168.1.1"
        }
        (Show::Ipv6, _) | (Show::Each(_, Item::Ipv6), _) => {
            "an address of IPv6 is wanted, of eight groups of digits"
        }
        (Show::Each(_, Item::Number), _) => NUMBER_WANTED,
        (Show::Ascii(_) | Show::LoneAscii, _) => {
            "a text is wanted, with a backslash and four digits for what isn't plain"
        }
        (Show::Units, _) => "a text between quotes is wanted",
        (Show::Whole(Encoding::Ascii), _) => {
            "printing ASCII without blanks is wanted, with each parenthesis closed"
        }
        (Show::Whole(Encoding::Utf16), _) => {
            "printing characters are wanted, with each parenthesis closed"
        }
    }
}

/// Why a text stands for no device path (UEFI 2.10, 10.6), after the words `at that character`.
fn text_reason(fault: &TextFault) -> &'static str {
    match fault {
        TextFault::BadSegment(_) => NO_SUCH_NODE,
        TextFault::BadNumber(_) => NUMBER_WANTED,
        TextFault::OutOfRange(_) => "what is written is too large",
        TextFault::BadEnd(_) => "the end of a path isn't written",
        TextFault::OutOfMemory => "out of memory",
    }
}

/// Why bytes are no number of an entry.
pub(crate) const NOT_ONE_ENTRY: &str = "it isn't the two bytes of one entry";

/// Why the bytes of a variable are no numbers of entries (UEFI 2.10, 3.3).
pub(crate) fn numbers_reason(fault: &VarFault) -> &'static str {
    match fault {
        VarFault::BadOrder => "it isn't two bytes for each entry, of 65536 entries at most",
        VarFault::BadNext => NOT_ONE_ENTRY,
        VarFault::OutOfMemory => "out of memory",
    }
}

/// Why BootOrder can't be read (UEFI 2.10, 3.3).
pub const BAD_ORDER: &str = "BootOrder isn't two bytes for each entry, of 65536 entries at most";

/// Why BootNext can't be read (UEFI 2.10, 3.3).
pub const BAD_NEXT: &str = "BootNext isn't the two bytes of one entry";
