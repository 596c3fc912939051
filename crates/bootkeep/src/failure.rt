//! What keeps the program from doing what it was asked to.

ghost use Rattle.std.specs.Prelude.{◌≡◌, ◌⊎◌};
ghost use Rattle.bootkeep.specs.Failure.{failure_of, failure_of_input, failure_of_output, script_status_of, IsFailureOf};
ghost use Rattle.bootkeep.specs.declared.failure.Failure.TheVariants as failure;

use crate::command_line::USAGE;
use boot_commands::{InputFault, OutputFault, Refusal, ScriptRunFault};
use std::alloc::{AllocError, AllocFailed, Global};
use thiserror::Error;

/// Why the program did not do what it was asked to. Its `Display` is the line for standard error.
#[derive(Debug, Drop, Error)]
pub enum Failure {
    /// The input is refused. The words are those of its fault.
    #[error("refused: {0}")]
    Refused(String),
    /// An input has more bytes than the program reads.
    #[error("refused: TooMuch")]
    TooMuch,
    /// The words of the command line ask for nothing that the program does.
    #[error("{}", USAGE)]
    CommandLine,
    /// The words of the command line can't be read, or a file can't be opened or read.
    #[error("fault: read")]
    Read,
    /// Standard output didn't take all of the answer, or a file can't be written.
    #[error("fault: write")]
    Write,
    /// Memory was refused.
    #[error("fault: memory")]
    Memory,
}

impl Failure {
    ghost use Rattle.bootkeep.specs.Failure.{status_of};

    /// The status that the program ends with: 1 if the input is refused or too much, 2 if the command line asks for
    /// nothing that the program does, 3 if reading or writing failed, and 4 if memory was refused.
    pub fn status(&self) -> u8
        ensures { result ≡ status_of self.now }
    {
        match self {
            Failure::Refused(_) | Failure::TooMuch => 1,
            Failure::CommandLine => 2,
            Failure::Read | Failure::Write => 3,
            Failure::Memory => 4,
        }
    }

    /// What a fault of a script or a stream is to the program. If there is no memory for its words, it is
    /// [`Failure::Memory`].
    pub fn from_script(alloc: Global, fault: ScriptRunFault) -> Failure
        ensures fault { IsFailureOf fault result }
        ensures status { (result ≡ failure.Memory) ⊎ (status_of result ≡ script_status_of fault) }
    {
        match fault {
            ScriptRunFault::Read => Failure::Read,
            ScriptRunFault::Write => Failure::Write,
            ScriptRunFault::TooMuch => Failure::TooMuch,
            ScriptRunFault::OutOfMemory => Failure::Memory,
            ScriptRunFault::Script(_) | ScriptRunFault::Open(_) => match fault.words(alloc) {
                Ok(words) => Failure::Refused(words),
                Err(AllocError) => Failure::Memory,
            },
        }
    }
}

impl From<AllocError> for Failure {
    ghost from_gives = { λ _ made. made ≡ failure.Memory };

    fn from(_refusal: AllocError) -> Failure {
        Failure::Memory
    }
}

impl<T: Drop> From<AllocFailed<T>> for Failure {
    ghost from_gives = { λ _ made. made ≡ failure.Memory };

    fn from(_refusal: AllocFailed<T>) -> Failure {
        Failure::Memory
    }
}

impl From<Refusal> for Failure {
    ghost from_gives = { λ refusal made. made ≡ failure_of refusal };

    fn from(refusal: Refusal) -> Failure {
        match refusal {
            Refusal::Input(words) => Failure::Refused(words),
            Refusal::Memory => Failure::Memory,
        }
    }
}

impl From<InputFault> for Failure {
    ghost from_gives = { λ fault made. made ≡ failure_of_input fault };

    fn from(fault: InputFault) -> Failure {
        match fault {
            InputFault::TooMuch => Failure::TooMuch,
            InputFault::Read => Failure::Read,
            InputFault::OutOfMemory => Failure::Memory,
        }
    }
}

impl From<OutputFault> for Failure {
    ghost from_gives = { λ fault made. made ≡ failure_of_output fault };

    fn from(fault: OutputFault) -> Failure {
        match fault {
            OutputFault::Write => Failure::Write,
            OutputFault::OutOfMemory => Failure::Memory,
        }
    }
}

/// The status that a program ends with if its script or stream is refused: 3 if reading or writing failed, 4 if memory
/// was refused, and 1 if the script, the stream or the variables are at fault.
pub fn script_status(fault: &ScriptRunFault) -> u8
    ensures { result ≡ script_status_of fault.now }
{
    match fault {
        ScriptRunFault::Read | ScriptRunFault::Write => 3,
        ScriptRunFault::OutOfMemory => 4,
        ScriptRunFault::Script(_) | ScriptRunFault::Open(_) | ScriptRunFault::TooMuch => 1,
    }
}
