//! What the calls on variables refuse.

ghost use Rattle.std.specs.Prelude.{◌≡◌, IfOk};
ghost use Rattle.std.specs.String.{string_bytes};
ghost use Rattle.uefi_vars.specs.declared.fault.PutFault.TheVariants as put;
ghost use Rattle.uefi_vars.specs.declared.fault.SetFault.TheVariants as set;
ghost use Rattle.uefi_vars.specs.declared.fault.VarFault.TheVariants as var;

use std::alloc::{AllocError, AllocFailed, Global};
use thiserror::Error;

/// Why a variable isn't put among the others.
#[derive(Clone, Copy, Debug, PartialEq, Eq, Hash, Error)]
pub enum PutFault {
    /// The name isn't one to [`NAME_MAX`](crate::NAME_MAX) characters from 0x21 to 0x7E.
    #[error("BadName")]
    BadName,
    /// There is no data. A variable without data is deleted, and never stored.
    #[error("EmptyData")]
    EmptyData,
    /// The data has more than [`DATA_MAX`](crate::DATA_MAX) bytes.
    #[error("DataTooLong")]
    DataTooLong,
    /// Memory was refused.
    #[error("OutOfMemory")]
    OutOfMemory,
}

/// Why a variable isn't put among the others, with the list that was to be its data, which is handed back.
#[derive(Debug, Drop, Error)]
#[error("{fault}")]
pub struct PutRefusal {
    /// Why.
    pub fault: PutFault,
    /// The list, as it was handed in.
    pub value: Vec<u8>,
}

/// Why bytes aren't a set file. The number is the offset of the record with the fault, in bytes from the first byte of
/// the file; a bad magic is at 0.
#[derive(Clone, Copy, Debug, PartialEq, Eq, Hash, Error)]
pub enum SetFault {
    /// The file doesn't begin with the four bytes `BVS1`.
    #[error("BadMagic {0}")]
    BadMagic(usize),
    /// The file ends within the record.
    #[error("Truncated {0}")]
    Truncated(usize),
    /// The name isn't one to [`NAME_MAX`](crate::NAME_MAX) characters from 0x21 to 0x7E.
    #[error("BadName {0}")]
    BadName(usize),
    /// The data is to have no byte, or more than [`DATA_MAX`](crate::DATA_MAX).
    #[error("BadData {0}")]
    BadData(usize),
    /// The name isn't above that of the record before, by bytes.
    #[error("NotRising {0}")]
    NotRising(usize),
    /// Memory was refused.
    #[error("OutOfMemory")]
    OutOfMemory,
}

/// Why variables don't say what is to be booted.
#[derive(Clone, Copy, Debug, PartialEq, Eq, Hash, Error)]
pub enum VarFault {
    /// The bytes of BootOrder are odd in number, or more than two for each of [`ORDER_MAX`](crate::ORDER_MAX) entries.
    #[error("BadOrder")]
    BadOrder,
    /// BootNext has another number of bytes than two.
    #[error("BadNext")]
    BadNext,
    /// Memory was refused.
    #[error("OutOfMemory")]
    OutOfMemory,
}

impl PutFault {
    ghost use Rattle.uefi_vars.specs.Words.{put_fault_words};

    /// The fault's name. This fails only when out of memory.
    pub fn words(&self, alloc: Global) -> Result<String, AllocError>
        ensures { IfOk result (λ text. string_bytes text ≡ put_fault_words self.now) }
    {
        match self {
            PutFault::BadName => String::from_str(alloc, "BadName"),
            PutFault::EmptyData => String::from_str(alloc, "EmptyData"),
            PutFault::DataTooLong => String::from_str(alloc, "DataTooLong"),
            PutFault::OutOfMemory => String::from_str(alloc, "OutOfMemory"),
        }
    }
}

impl SetFault {
    ghost use Rattle.uefi_vars.specs.Words.{set_fault_words, set_fault_place};

    /// The offset of the record with the fault, in bytes from the first byte of the file, or `None` if memory was
    /// refused.
    pub fn place(&self) -> Option<usize>
        ensures { result ≡ set_fault_place self.now }
    {
        match self {
            SetFault::BadMagic(place)
            | SetFault::Truncated(place)
            | SetFault::BadName(place)
            | SetFault::BadData(place)
            | SetFault::NotRising(place) => Some(*place),
            SetFault::OutOfMemory => None,
        }
    }

    /// The fault's name and, after a blank, its offset in decimal. This fails only when out of memory.
    pub fn words(&self, alloc: Global) -> Result<String, AllocError>
        ensures { IfOk result (λ text. string_bytes text ≡ set_fault_words self.now) }
    {
        match self {
            SetFault::BadMagic(place) => format!(in alloc; "BadMagic {place}"),
            SetFault::Truncated(place) => format!(in alloc; "Truncated {place}"),
            SetFault::BadName(place) => format!(in alloc; "BadName {place}"),
            SetFault::BadData(place) => format!(in alloc; "BadData {place}"),
            SetFault::NotRising(place) => format!(in alloc; "NotRising {place}"),
            SetFault::OutOfMemory => String::from_str(alloc, "OutOfMemory"),
        }
    }
}

impl VarFault {
    ghost use Rattle.uefi_vars.specs.Words.{var_fault_words};

    /// The fault's name. This fails only when out of memory.
    pub fn words(&self, alloc: Global) -> Result<String, AllocError>
        ensures { IfOk result (λ text. string_bytes text ≡ var_fault_words self.now) }
    {
        match self {
            VarFault::BadOrder => String::from_str(alloc, "BadOrder"),
            VarFault::BadNext => String::from_str(alloc, "BadNext"),
            VarFault::OutOfMemory => String::from_str(alloc, "OutOfMemory"),
        }
    }
}

impl From<AllocError> for PutFault {
    ghost from_gives = { λ _ made. made ≡ put.OutOfMemory };

    fn from(_refusal: AllocError) -> PutFault {
        PutFault::OutOfMemory
    }
}

impl<T: Drop> From<AllocFailed<T>> for PutFault {
    ghost from_gives = { λ _ made. made ≡ put.OutOfMemory };

    fn from(_refusal: AllocFailed<T>) -> PutFault {
        PutFault::OutOfMemory
    }
}

impl From<PutRefusal> for PutFault {
    ghost from_gives = { λ refusal made. made ≡ refusal.fault };

    fn from(refusal: PutRefusal) -> PutFault {
        refusal.fault
    }
}

impl From<AllocFailed<Vec<u8>>> for PutRefusal {
    ghost from_gives = { λ refusal made.
        (made.fault ≡ put.OutOfMemory) × (made.value ≡ refusal.value) };

    fn from(refusal: AllocFailed<Vec<u8>>) -> PutRefusal {
        PutRefusal {
            fault: PutFault::OutOfMemory,
            value: refusal.value,
        }
    }
}

impl From<AllocError> for SetFault {
    ghost from_gives = { λ _ made. made ≡ set.OutOfMemory };

    fn from(_refusal: AllocError) -> SetFault {
        SetFault::OutOfMemory
    }
}

impl<T: Drop> From<AllocFailed<T>> for SetFault {
    ghost from_gives = { λ _ made. made ≡ set.OutOfMemory };

    fn from(_refusal: AllocFailed<T>) -> SetFault {
        SetFault::OutOfMemory
    }
}

impl From<AllocError> for VarFault {
    ghost from_gives = { λ _ made. made ≡ var.OutOfMemory };

    fn from(_refusal: AllocError) -> VarFault {
        VarFault::OutOfMemory
    }
}

impl<T: Drop> From<AllocFailed<T>> for VarFault {
    ghost from_gives = { λ _ made. made ≡ var.OutOfMemory };

    fn from(_refusal: AllocFailed<T>) -> VarFault {
        VarFault::OutOfMemory
    }
}
