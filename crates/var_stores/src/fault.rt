//! Why a file isn't a store of variables.

ghost use Rattle.std.specs.Prelude.{◌≡◌, IfOk};
ghost use Rattle.std.specs.String.{string_bytes};
ghost use Rattle.var_stores.specs.declared.fault.StoreFault.TheVariants as fault;
ghost use Rattle.var_stores.specs.Words.{store_fault_words, store_fault_place};

use std::alloc::{AllocError, Global};
use thiserror::Error;

/// Why a file isn't one of an emulator's variables. A place is an offset in bytes from the file's first byte.
#[derive(Clone, Copy, Debug, PartialEq, Eq, Hash, Error)]
pub enum StoreFault {
    /// The file doesn't begin with a firmware volume of variables.
    #[error("NoVolume")]
    NoVolume,
    /// The header of the volume is damaged, or the file ends in the volume.
    #[error("BadHeader")]
    BadHeader,
    /// No store of variables is in the volume.
    #[error("NoStore")]
    NoStore,
    /// The store is of the older kind, whose records have no times.
    #[error("Unauthenticated")]
    Unauthenticated,
    /// The store isn't formatted or healthy, or ends after the volume.
    #[error("BadStore")]
    BadStore,
    /// The record at this place ends after the store.
    #[error("CutRecord {0}")]
    CutRecord(usize),
    /// Memory was refused.
    #[error("OutOfMemory")]
    OutOfMemory,
}

impl StoreFault {
    /// The place of the record with the fault, in bytes from the first byte of the file, if a record has it.
    pub fn place(&self) -> Option<usize>
        ensures { result ≡ store_fault_place self.now }
    {
        match self {
            StoreFault::CutRecord(place) => Some(*place),
            _ => None,
        }
    }

    /// The fault's name and, if it has one, its place in decimal after a blank. This fails only when out of memory.
    pub fn words(&self, alloc: Global) -> Result<String, AllocError>
        ensures { IfOk result (λ text. string_bytes text ≡ store_fault_words self.now) }
    {
        match self {
            StoreFault::NoVolume => String::from_str(alloc, "NoVolume"),
            StoreFault::BadHeader => String::from_str(alloc, "BadHeader"),
            StoreFault::NoStore => String::from_str(alloc, "NoStore"),
            StoreFault::Unauthenticated => String::from_str(alloc, "Unauthenticated"),
            StoreFault::BadStore => String::from_str(alloc, "BadStore"),
            StoreFault::CutRecord(place) => format!(in alloc; "CutRecord {place}"),
            StoreFault::OutOfMemory => String::from_str(alloc, "OutOfMemory"),
        }
    }
}

impl From<AllocError> for StoreFault {
    ghost use Rattle.std.specs.Prelude.{◌≡◌};

    ghost from_gives = { λ _ made. made ≡ fault.OutOfMemory };

    fn from(_: AllocError) -> StoreFault {
        StoreFault::OutOfMemory
    }
}
