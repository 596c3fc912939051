//! What keeps the program from doing what it was asked to.

ghost use Rattle.std.specs.Prelude.{◌≡◌};
ghost use Rattle.messages.specs.Failure.{status_of};
ghost use Rattle.messages.specs.declared.failure.Failure.TheVariants as failure;

use crate::notes::shown;
use crate::reason::Reason;
use crate::words::Unreadable;
use std::alloc::{AllocError, AllocFailed, Global};
use std::fmt::Display;
use std::io::{self, ErrorKind};
use thiserror::Error;

/// Why the program did not do what it was asked to. Its `Display` is the message for standard error, after the
/// program's name.
#[derive(Debug, Drop, Error)]
pub enum Failure {
    /// The words of the command line are wrong.
    #[error("{0}")]
    Words(String),
    /// A file or a folder can't be read.
    #[error("{}", Unreadable {name: .name, why: .error})]
    Read {
        /// What it is called, as messages show it.
        name: String,
        /// The system's reason.
        error: io::Error,
    },
    /// A file can't be locked or written.
    #[error("{name} can't be written: {error}")]
    Write {
        /// What it is called, as messages show it.
        name: String,
        /// The system's reason.
        error: io::Error,
    },
    /// A script of requests, or the variables that it is run over, are refused. Nothing is changed.
    #[error("{name}: refused: {fault}")]
    Run {
        /// What the file or the place is called, as messages show it.
        name: String,
        /// The words of the fault.
        fault: String,
    },
    /// A change of a machine was refused, and the update that it is of is taken back.
    #[error("{0}")]
    TakenBack(String),
    /// A change of a machine was refused, and then one that takes the update back. There are no words if memory for them was
    /// refused.
    #[error("{}", words_or_memory(.0.as_str()))]
    Unsettled(String),
    /// Another update has the lock of the folder of this name, as messages show it.
    #[error("{0}: another update has its lock: try again after it")]
    Busy(String),
    /// Somebody else has the lock of the place of this name, as messages show it.
    #[error("{0}: another program has its lock, which `fuser -v` tells: try again after it")]
    Held(String),
    /// Memory was refused.
    #[error("out of memory")]
    Memory,
    /// Nobody reads standard output any more: that is told by the status alone.
    #[error("standard output is closed")]
    Closed,
    /// Firmware doesn't start the loader for which an entry is to be made.
    #[error("{name}: {words}")]
    Loader {
        /// What the file is called, as messages show it.
        name: String,
        /// What is found, in words.
        words: String,
    },
    /// An input is refused.
    #[error("{name}: {reason}")]
    Refused {
        /// What the file, the place or the word is called, as messages show it.
        name: String,
        /// Why.
        reason: Reason,
    },
}

impl Failure {
    /// The status that the program ends with: 1 if a script or the variables that it is run over are refused, 2 if the
    /// words of the command line are wrong, 3 if a file or a variable can't be read or changed, 4 if memory was
    /// refused, 5 if an input is refused, 7 if somebody else has a lock, 8 if an update was neither made nor taken
    /// back, 9 if firmware doesn't start the loader for which an entry is to be made, and 141 if nobody reads standard
    /// output any more, as of a program that SIGPIPE ended.
    pub fn status(&self) -> u8
        ensures { result ≡ status_of self.now }
    {
        match self {
            Failure::Run { .. } => 1,
            Failure::Words(_) => 2,
            Failure::Read { .. } | Failure::Write { .. } | Failure::TakenBack(_) => 3,
            Failure::Memory => 4,
            Failure::Refused { .. } => 5,
            Failure::Busy(_) | Failure::Held(_) => 7,
            Failure::Unsettled(_) => 8,
            Failure::Loader { .. } => 9,
            Failure::Closed => 141,
        }
    }

    /// What it is to the program that something of this name can't be read.
    pub fn from_read(alloc: Global, name: &str, error: io::Error) -> Failure {
        match shown_unless_memory(alloc, name, &error) {
            Ok(name) => Failure::Read { name, error },
            Err(AllocError) => Failure::Memory,
        }
    }

    /// What it is to the program that something of this name can't be written.
    pub fn from_write(alloc: Global, name: &str, error: io::Error) -> Failure {
        match shown_unless_memory(alloc, name, &error) {
            Ok(name) => Failure::Write { name, error },
            Err(AllocError) => Failure::Memory,
        }
    }

    /// What it is to the program that standard output doesn't take what is printed.
    pub fn from_print(alloc: Global, error: io::Error) -> Failure {
        match error.kind() {
            ErrorKind::BrokenPipe => Failure::Closed,
            _ => Failure::from_write(alloc, "standard output", error),
        }
    }

    /// What it is to the program that something of this name is refused.
    pub fn refused(alloc: Global, name: &str, reason: Reason) -> Failure {
        match shown(alloc, name) {
            Ok(name) => Failure::Refused { name, reason },
            Err(AllocError) => Failure::Memory,
        }
    }

    /// What it is to the program that somebody else has the lock of the place of this name.
    pub fn held(alloc: Global, name: &str) -> Failure {
        match shown(alloc, name) {
            Ok(name) => Failure::Held(name),
            Err(AllocError) => Failure::Memory,
        }
    }

    /// What it is to the program that something of this name is refused for a fault.
    pub fn from_fault<D: Display + Drop>(alloc: Global, name: &str, fault: D) -> Failure {
        match format!(in alloc; "{fault}") {
            Ok(text) => Failure::refused(alloc, name, Reason::Fault(text)),
            Err(AllocError) => Failure::Memory,
        }
    }

    /// What it is to the program that firmware doesn't start the loader of this name, for which an entry is to be made,
    /// as these words say.
    pub fn from_loader<D: Display + Drop>(alloc: Global, name: &str, words: D) -> Failure {
        match loader_refused(alloc, name, words) {
            Ok(failure) => failure,
            Err(AllocError) => Failure::Memory,
        }
    }

    /// What it is to the program that a script or variables of this name are refused for this fault, in words.
    pub fn from_run(alloc: Global, name: &str, fault: &str) -> Failure {
        match run_refused(alloc, name, fault) {
            Ok(failure) => failure,
            Err(AllocError) => Failure::Memory,
        }
    }

    /// What it is to the program that an update is taken back, in these words.
    pub fn taken_back<D: Display + Drop>(alloc: Global, words: D) -> Failure {
        match format!(in alloc; "{words}") {
            Ok(text) => Failure::TakenBack(text),
            Err(AllocError) => Failure::Memory,
        }
    }

    /// What it is to the program that an update was neither made nor taken back, in these words. It is that too if memory for
    /// the words is refused, since something is left to do.
    pub fn unsettled<D: Display + Drop>(alloc: Global, words: D) -> Failure {
        match format!(in alloc; "{words}") {
            Ok(text) => Failure::Unsettled(text),
            Err(AllocError) => Failure::Unsettled(String::new(alloc)),
        }
    }

    /// What it is to the program that a word of the command line has a fault, which names the word.
    pub fn from_word<D: Display + Drop>(alloc: Global, fault: D) -> Failure {
        match format!(in alloc; "{fault}") {
            Ok(text) => Failure::Words(text),
            Err(AllocError) => Failure::Memory,
        }
    }
}

/// The words, or what is said if memory for them was refused.
fn words_or_memory(words: &str) -> &str {
    if words.is_empty() {
        "out of memory; an update is neither made nor taken back: the next update begins with what is left to do"
    } else {
        words
    }
}

/// What it is to the program that firmware doesn't start the loader of this name, as these words say. This fails only
/// when out of memory.
fn loader_refused<D: Display + Drop>(
    alloc: Global,
    name: &str,
    words: D,
) -> Result<Failure, AllocError> {
    Ok(Failure::Loader {
        name: shown(alloc, name)?,
        words: format!(in alloc; "{words}")?,
    })
}

/// What it is to the program that a script or variables of this name are refused for this fault. This fails only when out
/// of memory.
fn run_refused(alloc: Global, name: &str, fault: &str) -> Result<Failure, AllocError> {
    Ok(Failure::Run {
        name: shown(alloc, name)?,
        fault: String::from_str(alloc, fault)?,
    })
}

/// The name, as messages show it, unless the error is that memory was refused.
fn shown_unless_memory(alloc: Global, name: &str, error: &io::Error) -> Result<String, AllocError> {
    if error.kind() == ErrorKind::OutOfMemory {
        return Err(AllocError);
    }
    shown(alloc, name)
}

impl From<AllocError> for Failure {
    ghost from_gives = { λ _ made. made ≡ failure.Memory };

    fn from(_refusal: AllocError) -> Failure {
        Failure::Memory
    }
}

impl<T: Drop> From<AllocFailed<T>> for Failure {
    ghost from_gives = { λ _ made. made ≡ failure.Memory };

    fn from(_refusal: AllocFailed<T>) -> Failure {
        Failure::Memory
    }
}
