//! Why scripts and streams aren't read as events.

ghost use Rattle.std.specs.Prelude.{◌≡◌, IfOk};
ghost use Rattle.std.specs.String.{string_bytes};
ghost use Rattle.boot_requests.specs.Words.{feed_fault_words};
ghost use Rattle.boot_requests.specs.ScriptWords.{script_fault_words};
ghost use Rattle.boot_requests.specs.EventStream.{script_fault_of};
ghost use Rattle.boot_requests.specs.declared.script_fault.ScriptFault.TheVariants as script;

use crate::fault::FeedFault;
use std::alloc::{AllocError, Global};
use thiserror::Error;

/// Why a script or a stream isn't read as events.
#[derive(Clone, Copy, Debug, PartialEq, Eq, Hash, Error)]
pub enum ScriptFault {
    /// The line of this number, counted from 1, isn't a line of a script.
    #[error("BadLine {0}")]
    BadLine(usize),
    /// A header of the stream is at fault.
    #[error("Stream {0}")]
    Stream(FeedFault),
    /// This many bytes are left of a frame that isn't whole.
    #[error("Rest {0}")]
    Rest(usize),
    /// Memory was refused.
    #[error("OutOfMemory")]
    OutOfMemory,
}

impl ScriptFault {
    /// The fault's name, and after a blank the number or the words of the fault that it holds. This fails only when out
    /// of memory.
    pub fn words(&self, alloc: Global) -> Result<String, AllocError>
        ensures { IfOk result (λ text. string_bytes text ≡ script_fault_words self.now) }
    {
        match self {
            ScriptFault::BadLine(number) => format!(in alloc; "BadLine {number}"),
            ScriptFault::Stream(fault) => {
                let words = fault.words(alloc)?;
                format!(in alloc; "Stream {words}")
            }
            ScriptFault::Rest(count) => format!(in alloc; "Rest {count}"),
            ScriptFault::OutOfMemory => String::from_str(alloc, "OutOfMemory"),
        }
    }
}

impl From<FeedFault> for ScriptFault {
    ghost from_gives = { λ fault made. made ≡ script_fault_of fault };

    fn from(fault: FeedFault) -> ScriptFault {
        match fault {
            FeedFault::OutOfMemory => ScriptFault::OutOfMemory,
            FeedFault::BadMagic | FeedFault::BadVersion | FeedFault::TooLong => {
                ScriptFault::Stream(fault)
            }
        }
    }
}

impl From<AllocError> for ScriptFault {
    ghost from_gives = { λ _ made. made ≡ script.OutOfMemory };

    fn from(_refusal: AllocError) -> ScriptFault {
        ScriptFault::OutOfMemory
    }
}
