//! Why updates aren't made, for those who sent them.

ghost use Rattle.std.specs.Prelude.{◌≡◌, None, IfOk};
ghost use Rattle.std.specs.String.{string_bytes};
ghost use Rattle.messages.specs.declared.failure.Failure.TheVariants as failure;
ghost use Rattle.boot_updates.specs.NotMade.{count_of, failure_word, kind_of, refused_for, remedy_of};

use boot_requests::{OpenFault, ScriptFault};
use journaled_requests::RunFault;
use messages::Failure;
use request_texts::{Remedy, open_reason};
use std::alloc::{AllocError, AllocFailed, Global};

/// Why an update wasn't made.
#[derive(Debug, Drop)]
pub struct NotMade {
    /// What it is to the program.
    pub failure: Failure,
    /// What is refused, if the script or the variables are.
    refused: Option<Refused>,
}

/// What an update is refused for, of its script or the variables.
#[derive(Clone, Copy, Debug)]
pub(crate) enum Refused {
    /// The script or the stream has this fault.
    Script(ScriptFault),
    /// A request in it would change a variable that no set can hold.
    LeftOut,
    /// The variables have this fault.
    Open(OpenFault),
}

impl NotMade {
    /// An update is refused for this, which is this failure to the program, unless memory was refused.
    pub(crate) fn refused(refused: Refused, failure: Failure) -> NotMade
        ensures failure { result.failure ≡ failure }
        ensures refused { result.refused ≡ refused_for refused failure }
    {
        match failure {
            Failure::Memory => NotMade::from(Failure::Memory),
            failure => NotMade {
                failure,
                refused: Some(refused),
            },
        }
    }

    /// What kept the update from being made: the words of a fault, without its number, or a word. This fails only when out of
    /// memory.
    pub fn kind(&self, alloc: Global) -> Result<String, AllocError>
        ensures { IfOk result (λ text. string_bytes text ≡ kind_of self.now.refused self.now.failure) }
    {
        match &self.refused {
            Some(Refused::Script(ScriptFault::BadLine(_))) => String::from_str(alloc, "BadLine"),
            Some(Refused::Script(ScriptFault::Rest(_))) => String::from_str(alloc, "Rest"),
            Some(Refused::Script(fault)) => fault.words(alloc),
            Some(Refused::LeftOut) => String::from_str(alloc, "LeftOut"),
            Some(Refused::Open(fault)) => {
                let words = fault.words(alloc)?;
                format!(in alloc; "Open {words}")
            }
            None => String::from_str(alloc, word_of(&self.failure)),
        }
    }

    /// The line or how many bytes, if the fault tells that.
    pub fn count(&self) -> Option<u32>
        ensures { result ≡ count_of self.now.refused }
    {
        match &self.refused {
            Some(Refused::Script(ScriptFault::BadLine(count) | ScriptFault::Rest(count))) => {
                u32::try_from(*count).ok()
            }
            _ => None,
        }
    }

    /// What is to be done about it.
    pub fn remedy(&self) -> Remedy
        ensures { result ≡ remedy_of self.now.refused self.now.failure }
    {
        match (&self.refused, &self.failure) {
            (Some(Refused::Script(_)), _) => Remedy::SendAgain,
            (Some(Refused::LeftOut | Refused::Open(_)), _) => Remedy::MendMachine,
            (None, Failure::TakenBack(_) | Failure::Memory) => Remedy::SendAgain,
            (None, Failure::Busy(_) | Failure::Held(_)) => Remedy::Wait,
            (None, _) => Remedy::MendMachine,
        }
    }
}

/// The failure in a word.
fn word_of(failure: &Failure) -> &'static str
    ensures { result.now ≡ failure_word failure.now }
{
    match failure {
        Failure::Words(_) => "Words",
        Failure::Read { .. } => "Read",
        Failure::Write { .. } => "Write",
        Failure::TakenBack(_) => "TakenBack",
        Failure::Unsettled(_) => "Unsettled",
        Failure::Busy(_) | Failure::Held(_) => "Busy",
        Failure::Memory => "OutOfMemory",
        Failure::Closed => "Closed",
        Failure::Run { .. } | Failure::Refused { .. } | Failure::Loader { .. } => "Refused",
    }
}

impl From<Failure> for NotMade {
    ghost from_gives = { λ failure made. (made.failure ≡ failure) × (made.refused ≡ None) };

    fn from(failure: Failure) -> NotMade {
        NotMade {
            failure,
            refused: None,
        }
    }
}

impl From<AllocError> for NotMade {
    ghost from_gives = { λ _ made. (made.failure ≡ failure.Memory) × (made.refused ≡ None) };

    fn from(_refusal: AllocError) -> NotMade {
        NotMade::from(Failure::Memory)
    }
}

impl<T: Drop> From<AllocFailed<T>> for NotMade {
    ghost from_gives = { λ _ made. (made.failure ≡ failure.Memory) × (made.refused ≡ None) };

    fn from(_refusal: AllocFailed<T>) -> NotMade {
        NotMade::from(Failure::Memory)
    }
}

/// What keeps an update from being made if the variables of the place, or those that the requests lead to, are refused.
pub(crate) fn from_run(alloc: Global, place: &str, fault: RunFault) -> NotMade {
    match fault {
        RunFault::Open(open) => NotMade::refused(
            Refused::Open(open),
            from_open(alloc, place, &open),
        ),
        RunFault::NoData => NotMade::from(Failure::from_fault(
            alloc,
            place,
            "a boot variable has no value after its attributes",
        )),
        RunFault::TooLong => NotMade::from(Failure::from_fault(
            alloc,
            place,
            "a boot variable would have more than 1048576 bytes, with its four of attributes",
        )),
    }
}

/// What it is to the program that the variables of the place can't be kept.
fn from_open(alloc: Global, place: &str, fault: &OpenFault) -> Failure {
    match format!(in alloc; "{fault}: {}", open_reason(fault)) {
        Ok(text) => Failure::from_run(alloc, place, text.as_str()),
        Err(AllocError) => Failure::Memory,
    }
}
