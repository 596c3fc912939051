//! What keeps a change from being made, in words.

use boot_journal::{CallError, UpdateError};
use messages::Failure;
use std::alloc::Global;
use std::fmt::{self, Display};
use wanted_changes::MachineWords;

/// Why a move was refused.
#[derive(Clone, Copy)]
struct Cause<'a>(&'a CallError<Failure>);

impl Display for Cause<'_> {
    fn fmt<W: fmt::Write>(&self, f: &mut fmt::Formatter<W>) -> fmt::Result {
        match self.0 {
            CallError::OutOfMemory => f.write_str("out of memory"),
            CallError::Refused(failure) => write!(f, "{failure}"),
        }
    }
}

/// What it is to the program that an update couldn't be made.
pub fn from_updating(
    alloc: Global,
    words: &MachineWords<'_>,
    error: UpdateError<Failure>,
) -> Failure {
    from_error(
        alloc,
        words,
        error,
        "so the update is taken back, and the machine is as before it",
    )
}

/// What it is to the program that what was left of an earlier update couldn't be made.
pub fn from_settling(
    alloc: Global,
    words: &MachineWords<'_>,
    error: UpdateError<Failure>,
) -> Failure {
    from_error(
        alloc,
        words,
        error,
        "so an earlier update is taken back, and nothing else is done",
    )
}

/// What it is to the program that an update couldn't be made: if it is taken back, these words say so.
fn from_error(
    alloc: Global,
    words: &MachineWords<'_>,
    error: UpdateError<Failure>,
    taken_back: &str,
) -> Failure {
    match error {
        UpdateError::OutOfMemory => Failure::Memory,
        UpdateError::TakenBack(cause) => {
            Failure::taken_back(alloc, format_args!("{}; {taken_back}", Cause(&cause)))
        }
        UpdateError::Unsettled(cause, second) => unsettled(alloc, words, &cause, second.as_ref()),
    }
}

/// What it is to the program that an update was neither made nor taken back.
fn unsettled(
    alloc: Global,
    words: &MachineWords<'_>,
    cause: &CallError<Failure>,
    second: Option<&CallError<Failure>>,
) -> Failure {
    let state = words.state;
    let cause = Cause(cause);
    match second {
        Some(second) => Failure::unsettled(
            alloc,
            format_args!(
                "{cause}; and then, taking the update back: {}; {state} has what is left to do, and the next update begins with it",
                Cause(second),
            ),
        ),
        None => Failure::unsettled(
            alloc,
            format_args!(
                "{cause}; {state} has what is left to do to take an update back, and the next update begins with it",
            ),
        ),
    }
}
