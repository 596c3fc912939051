//! What runs of scripts and streams are refused for.

ghost use Rattle.std.specs.Prelude.{◌≡◌, IfOk};
ghost use Rattle.std.specs.String.{string_bytes};
ghost use Rattle.boot_commands.specs.RunFault.{run_fault_of, run_fault_of_open};
ghost use Rattle.boot_commands.specs.declared.fault.ScriptRunFault.TheVariants as running;

use boot_requests::{OpenFault, ScriptFault};
use std::alloc::{AllocError, AllocFailed, Global};
use thiserror::Error;

/// Why a script or a stream isn't run, or its answers aren't written.
#[derive(Clone, Copy, Debug, PartialEq, Eq, Hash, Error)]
pub enum ScriptRunFault {
    /// The script or the stream has this fault, which is never [`ScriptFault::OutOfMemory`].
    #[error("{0}")]
    Script(ScriptFault),
    /// The variables can't be kept.
    #[error("Open {0}")]
    Open(OpenFault),
    /// A read failed.
    #[error("Read")]
    Read,
    /// A write failed, or took no byte.
    #[error("Write")]
    Write,
    /// The script or the stream has more bytes than [`LIMIT`](whole_files::LIMIT).
    #[error("TooMuch")]
    TooMuch,
    /// Memory was refused.
    #[error("OutOfMemory")]
    OutOfMemory,
}

impl ScriptRunFault {
    ghost use Rattle.boot_commands.specs.Words.{script_run_fault_words};

    /// The words of the script's fault, or this fault's name, and after a blank the words of the fault that it holds.
    /// This fails only when out of memory.
    pub fn words(&self, alloc: Global) -> Result<String, AllocError>
        ensures { IfOk result (λ text. string_bytes text ≡ script_run_fault_words self.now) }
    {
        match self {
            ScriptRunFault::Script(fault) => fault.words(alloc),
            ScriptRunFault::Open(fault) => {
                let words = fault.words(alloc)?;
                format!(in alloc; "Open {words}")
            }
            ScriptRunFault::Read => String::from_str(alloc, "Read"),
            ScriptRunFault::Write => String::from_str(alloc, "Write"),
            ScriptRunFault::TooMuch => String::from_str(alloc, "TooMuch"),
            ScriptRunFault::OutOfMemory => String::from_str(alloc, "OutOfMemory"),
        }
    }
}

impl From<ScriptFault> for ScriptRunFault {
    ghost from_gives = { λ fault made. made ≡ run_fault_of fault };

    fn from(fault: ScriptFault) -> ScriptRunFault {
        match fault {
            ScriptFault::OutOfMemory => ScriptRunFault::OutOfMemory,
            ScriptFault::BadLine(_) | ScriptFault::Stream(_) | ScriptFault::Rest(_) => {
                ScriptRunFault::Script(fault)
            }
        }
    }
}

impl From<OpenFault> for ScriptRunFault {
    ghost from_gives = { λ fault made. made ≡ run_fault_of_open fault };

    fn from(fault: OpenFault) -> ScriptRunFault {
        match fault {
            OpenFault::OutOfMemory => ScriptRunFault::OutOfMemory,
            OpenFault::BadOrder | OpenFault::BadNext | OpenFault::BadState => {
                ScriptRunFault::Open(fault)
            }
        }
    }
}

impl From<AllocError> for ScriptRunFault {
    ghost from_gives = { λ _ made. made ≡ running.OutOfMemory };

    fn from(_refusal: AllocError) -> ScriptRunFault {
        ScriptRunFault::OutOfMemory
    }
}

impl<T: Drop> From<AllocFailed<T>> for ScriptRunFault {
    ghost from_gives = { λ _ made. made ≡ running.OutOfMemory };

    fn from(_refusal: AllocFailed<T>) -> ScriptRunFault {
        ScriptRunFault::OutOfMemory
    }
}
