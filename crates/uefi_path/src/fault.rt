//! What a call refuses, each with its place.

ghost use Rattle.std.specs.Prelude.{◌≡◌, IfOk};
ghost use Rattle.std.specs.String.{string_bytes};
ghost use Rattle.uefi_path.specs.declared.fault.NodeFault.TheVariants as node;
ghost use Rattle.uefi_path.specs.declared.fault.NameFault.TheVariants as name;
ghost use Rattle.uefi_path.specs.declared.fault.PathFault.TheVariants as path;

use std::alloc::{AllocError, AllocFailed, Global};
use thiserror::Error;

/// Why parts don't make a node.
#[derive(Clone, Copy, Debug, PartialEq, Eq, Hash, Error)]
pub enum NodeFault {
    /// The type is 0x7F, that of the end nodes, which aren't nodes of a path.
    #[error("BadEnd")]
    BadEnd,
    /// The data would have more than [`BODY_MAX`](crate::BODY_MAX) bytes, a vendor's identifier included: two bytes
    /// cannot state the length of the node.
    #[error("TooLong")]
    TooLong,
    /// Memory was refused.
    #[error("OutOfMemory")]
    OutOfMemory,
}

/// Why bytes don't begin with a path. The offset, or the number, is that of the node with the fault, in bytes from the first
/// byte of the path.
#[derive(Clone, Copy, Debug, PartialEq, Eq, Hash, Error)]
pub enum PathFault {
    /// No byte remains where a node must be.
    #[error("NoEnd {0}")]
    NoEnd(usize),
    /// One to three bytes remain, fewer than the header of a node has.
    #[error("ShortHeader {offset}")]
    ShortHeader {
        /// The offset of the node.
        offset: usize,
        /// How many bytes remain.
        left: usize,
    },
    /// The node states a length below 4, that of its header alone.
    #[error("BadLength {0}")]
    BadLength(usize),
    /// The node states more bytes than remain.
    #[error("PastEnd {offset}")]
    PastEnd {
        /// The offset of the node.
        offset: usize,
        /// How many bytes the node states, its header included.
        stated: usize,
        /// How many bytes remain.
        left: usize,
    },
    /// The node has type 0x7F and isn't an end node: its sub-type is neither 0x01 nor 0xFF, or its length isn't 4.
    #[error("BadEnd {0}")]
    BadEnd(usize),
    /// Memory was refused.
    #[error("OutOfMemory")]
    OutOfMemory,
}

/// Why units aren't a path name of a file.
#[derive(Clone, Copy, Debug, PartialEq, Eq, Hash, Error)]
pub enum NameFault {
    /// A unit is zero. The number is the index of the first such unit.
    #[error("ZeroUnit {0}")]
    ZeroUnit(usize),
    /// There are more than [`PATH_NAME_MAX`](crate::PATH_NAME_MAX) units: two bytes cannot state the
    /// length of the node.
    #[error("TooLong")]
    TooLong,
    /// Memory was refused.
    #[error("OutOfMemory")]
    OutOfMemory,
}

impl NodeFault {
    ghost use Rattle.uefi_path.specs.Words.{node_fault_words};

    /// The fault's name. This fails only when out of memory.
    pub fn words(&self, alloc: Global) -> Result<String, AllocError>
        ensures { IfOk result (λ text. string_bytes text ≡ node_fault_words self.now) }
    {
        match self {
            NodeFault::BadEnd => String::from_str(alloc, "BadEnd"),
            NodeFault::TooLong => String::from_str(alloc, "TooLong"),
            NodeFault::OutOfMemory => String::from_str(alloc, "OutOfMemory"),
        }
    }
}

impl PathFault {
    ghost use Rattle.uefi_path.specs.Words.{path_fault_words, path_fault_offset};

    /// The offset of the node with the fault, in bytes from the first byte of the path, if the fault has one: all but
    /// out of memory have.
    pub fn offset(&self) -> Option<usize>
        ensures { result ≡ path_fault_offset self.now }
    {
        match self {
            PathFault::NoEnd(offset)
            | PathFault::ShortHeader { offset, .. }
            | PathFault::BadLength(offset)
            | PathFault::PastEnd { offset, .. }
            | PathFault::BadEnd(offset) => Some(*offset),
            PathFault::OutOfMemory => None,
        }
    }

    /// The fault's name and, if it has one, its offset in decimal after a blank. This fails only when out of memory.
    pub fn words(&self, alloc: Global) -> Result<String, AllocError>
        ensures { IfOk result (λ text. string_bytes text ≡ path_fault_words self.now) }
    {
        match self {
            PathFault::NoEnd(offset) => format!(in alloc; "NoEnd {offset}"),
            PathFault::ShortHeader { offset, .. } => format!(in alloc; "ShortHeader {offset}"),
            PathFault::BadLength(offset) => format!(in alloc; "BadLength {offset}"),
            PathFault::PastEnd { offset, .. } => format!(in alloc; "PastEnd {offset}"),
            PathFault::BadEnd(offset) => format!(in alloc; "BadEnd {offset}"),
            PathFault::OutOfMemory => String::from_str(alloc, "OutOfMemory"),
        }
    }
}

impl NameFault {
    ghost use Rattle.uefi_path.specs.Words.{name_fault_words, name_fault_index};

    /// The index of the unit that is refused, if the fault has one.
    pub fn index(&self) -> Option<usize>
        ensures { result ≡ name_fault_index self.now }
    {
        match self {
            NameFault::ZeroUnit(at) => Some(*at),
            NameFault::TooLong | NameFault::OutOfMemory => None,
        }
    }

    /// The fault's name and, if it has one, its index in decimal after a blank. This fails only when out of memory.
    pub fn words(&self, alloc: Global) -> Result<String, AllocError>
        ensures { IfOk result (λ text. string_bytes text ≡ name_fault_words self.now) }
    {
        match self {
            NameFault::ZeroUnit(at) => format!(in alloc; "ZeroUnit {at}"),
            NameFault::TooLong => String::from_str(alloc, "TooLong"),
            NameFault::OutOfMemory => String::from_str(alloc, "OutOfMemory"),
        }
    }
}

impl From<AllocError> for NodeFault {
    ghost from_gives = { λ _ fault. fault ≡ node.OutOfMemory };

    fn from(_refusal: AllocError) -> NodeFault {
        NodeFault::OutOfMemory
    }
}

impl<T: Drop> From<AllocFailed<T>> for NodeFault {
    ghost from_gives = { λ _ fault. fault ≡ node.OutOfMemory };

    fn from(_refusal: AllocFailed<T>) -> NodeFault {
        NodeFault::OutOfMemory
    }
}

impl From<AllocError> for NameFault {
    ghost from_gives = { λ _ fault. fault ≡ name.OutOfMemory };

    fn from(_refusal: AllocError) -> NameFault {
        NameFault::OutOfMemory
    }
}

impl<T: Drop> From<AllocFailed<T>> for NameFault {
    ghost from_gives = { λ _ fault. fault ≡ name.OutOfMemory };

    fn from(_refusal: AllocFailed<T>) -> NameFault {
        NameFault::OutOfMemory
    }
}

impl From<AllocError> for PathFault {
    ghost from_gives = { λ _ fault. fault ≡ path.OutOfMemory };

    fn from(_refusal: AllocError) -> PathFault {
        PathFault::OutOfMemory
    }
}

impl<T: Drop> From<AllocFailed<T>> for PathFault {
    ghost from_gives = { λ _ fault. fault ≡ path.OutOfMemory };

    fn from(_refusal: AllocFailed<T>) -> PathFault {
        PathFault::OutOfMemory
    }
}
