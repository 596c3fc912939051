//! What the calls on load options refuse.

ghost use Rattle.std.specs.Prelude.{◌≡◌, IfOk};
ghost use Rattle.std.specs.String.{string_bytes};
ghost use Rattle.uefi_option.specs.declared.fault.OptionFault.TheVariants as fault;

use std::alloc::{AllocError, AllocFailed, Global};
use thiserror::Error;
use uefi_path::{Path, PathFault};

/// Why bytes or parts aren't a load option.
#[derive(Clone, Copy, Debug, PartialEq, Eq, Hash, Error)]
pub enum OptionFault {
    /// There are fewer bytes than the six of the attributes and of the length of the list.
    #[error("Short")]
    Short {
        /// How many bytes there are.
        found: usize,
    },
    /// No zero unit closes the description.
    #[error("NoTerminator")]
    NoTerminator,
    /// The list of paths has fewer bytes than the option states.
    #[error("ListPastEnd")]
    ListPastEnd {
        /// How many bytes the option states.
        stated: usize,
        /// How many bytes follow its description.
        left: usize,
    },
    /// There is no path: the list has no byte, or the parts have none.
    #[error("EmptyList")]
    EmptyList,
    /// In the list are bytes that don't begin with a path. The number is their offset from the option's first byte, and
    /// the fault is that of a path in them, up to the end of the list, with its own offset from there.
    #[error("Path {0} {1}")]
    Path(usize, PathFault),
    /// A unit of the description is zero.
    #[error("ZeroUnit")]
    ZeroUnit,
    /// The list of paths would have more than [`LIST_MAX`](crate::LIST_MAX) bytes: two bytes cannot state its length.
    #[error("ListTooLong")]
    ListTooLong,
    /// Memory was refused.
    #[error("OutOfMemory")]
    OutOfMemory,
}

/// Parts of which no load option was made, handed back, and why.
#[derive(Debug, Drop)]
pub struct OptionRefused {
    /// Why they are refused.
    pub fault: OptionFault,
    /// The units of the description.
    pub description: Vec<u16>,
    /// The device paths.
    pub paths: Vec<Path>,
    /// The optional data.
    pub optional: Vec<u8>,
}

impl OptionFault {
    ghost use Rattle.uefi_option.specs.Words.{option_fault_place, option_fault_words};

    /// The offset of the bytes that don't begin with a path, from the option's first byte, if the fault is
    /// [`OptionFault::Path`]; no other fault has a place.
    pub fn place(&self) -> Option<usize>
        ensures { result ≡ option_fault_place self.now }
    {
        match self {
            OptionFault::Path(place, _) => Some(*place),
            OptionFault::Short { .. }
            | OptionFault::NoTerminator
            | OptionFault::ListPastEnd { .. }
            | OptionFault::EmptyList
            | OptionFault::ZeroUnit
            | OptionFault::ListTooLong
            | OptionFault::OutOfMemory => None,
        }
    }

    /// The fault's name and, for [`OptionFault::Path`], its offset in decimal and the words of the path's fault, each
    /// after a blank. This fails only when out of memory.
    pub fn words(&self, alloc: Global) -> Result<String, AllocError>
        ensures { IfOk result (λ text. string_bytes text ≡ option_fault_words self.now) }
    {
        match self {
            OptionFault::Short { .. } => String::from_str(alloc, "Short"),
            OptionFault::NoTerminator => String::from_str(alloc, "NoTerminator"),
            OptionFault::ListPastEnd { .. } => String::from_str(alloc, "ListPastEnd"),
            OptionFault::EmptyList => String::from_str(alloc, "EmptyList"),
            OptionFault::Path(place, fault) => {
                let words = fault.words(alloc)?;
                format!(in alloc; "Path {place} {words}")
            }
            OptionFault::ZeroUnit => String::from_str(alloc, "ZeroUnit"),
            OptionFault::ListTooLong => String::from_str(alloc, "ListTooLong"),
            OptionFault::OutOfMemory => String::from_str(alloc, "OutOfMemory"),
        }
    }
}

impl From<AllocError> for OptionFault {
    ghost from_gives = { λ _ made. made ≡ fault.OutOfMemory };

    fn from(_refusal: AllocError) -> OptionFault {
        OptionFault::OutOfMemory
    }
}

impl<T: Drop> From<AllocFailed<T>> for OptionFault {
    ghost from_gives = { λ _ made. made ≡ fault.OutOfMemory };

    fn from(_refusal: AllocFailed<T>) -> OptionFault {
        OptionFault::OutOfMemory
    }
}
