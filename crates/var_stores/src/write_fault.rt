//! Why variables aren't written to a store.

ghost use Rattle.std.specs.Prelude.{◌≡◌, IfOk};
ghost use Rattle.std.specs.String.{string_bytes};
ghost use Rattle.var_stores.specs.declared.write_fault.WriteFault.TheVariants as fault;
ghost use Rattle.var_stores.specs.Words.{write_fault_words, write_fault_of};

use crate::fault::StoreFault;
use std::alloc::{AllocError, Global};
use thiserror::Error;

/// Why variables aren't written to an emulator's variable file.
#[derive(Clone, Copy, Debug, PartialEq, Eq, Hash, Error)]
pub enum WriteFault {
    /// The file isn't one of an emulator's variables.
    #[error("{0}")]
    Store(StoreFault),
    /// The store has no room for the records.
    #[error("Full")]
    Full,
    /// Memory was refused.
    #[error("OutOfMemory")]
    OutOfMemory,
}

impl WriteFault {
    /// The fault's name, and after a blank its place if a record has it. This fails only when out of memory.
    pub fn words(&self, alloc: Global) -> Result<String, AllocError>
        ensures { IfOk result (λ text. string_bytes text ≡ write_fault_words self.now) }
    {
        match self {
            WriteFault::Store(fault) => fault.words(alloc),
            WriteFault::Full => String::from_str(alloc, "Full"),
            WriteFault::OutOfMemory => String::from_str(alloc, "OutOfMemory"),
        }
    }
}

impl From<AllocError> for WriteFault {
    ghost from_gives = { λ _ made. made ≡ fault.OutOfMemory };

    fn from(_: AllocError) -> WriteFault {
        WriteFault::OutOfMemory
    }
}

impl From<StoreFault> for WriteFault {
    ghost from_gives = { λ given made. made ≡ write_fault_of given };

    fn from(fault: StoreFault) -> WriteFault {
        match fault {
            StoreFault::OutOfMemory => WriteFault::OutOfMemory,
            fault => WriteFault::Store(fault),
        }
    }
}
