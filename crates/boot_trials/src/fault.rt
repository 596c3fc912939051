//! Why bytes are no trial.

ghost use Rattle.std.specs.Prelude.{◌≡◌, IfOk};
ghost use Rattle.std.specs.String.{string_bytes};
ghost use Rattle.boot_trials.specs.declared.fault.TrialFault.TheVariants as fault;

use std::alloc::{AllocError, AllocFailed, Global};
use thiserror::Error;
use uefi_vars::SetFault;

/// Why the bytes of a file are no trial.
#[derive(Clone, Copy, Debug, PartialEq, Eq, Hash, Error)]
pub enum TrialFault {
    /// They are no set file. The fault is never [`SetFault::OutOfMemory`].
    #[error("NoSet {0}")]
    NoSet(SetFault),
    /// They are a set file of other variables: a name of a trial isn't there, or another one is, or the data of one isn't
    /// that of a trial.
    #[error("NoTrial")]
    NoTrial,
    /// Memory was refused.
    #[error("OutOfMemory")]
    OutOfMemory,
}

impl TrialFault {
    ghost use Rattle.boot_trials.specs.Words.{trial_fault_words};

    /// The fault's name and, after a blank, the words of the fault of the set. This fails only when out of memory.
    pub fn words(&self, alloc: Global) -> Result<String, AllocError>
        ensures { IfOk result (λ text. string_bytes text ≡ trial_fault_words self.now) }
    {
        match self {
            TrialFault::NoSet(fault) => {
                let words = fault.words(alloc)?;
                format!(in alloc; "NoSet {words}")
            }
            TrialFault::NoTrial => String::from_str(alloc, "NoTrial"),
            TrialFault::OutOfMemory => String::from_str(alloc, "OutOfMemory"),
        }
    }
}

impl From<AllocError> for TrialFault {
    ghost from_gives = { λ _ made. made ≡ fault.OutOfMemory };

    fn from(_refusal: AllocError) -> TrialFault {
        TrialFault::OutOfMemory
    }
}

impl<T: Drop> From<AllocFailed<T>> for TrialFault {
    ghost from_gives = { λ _ made. made ≡ fault.OutOfMemory };

    fn from(_refusal: AllocFailed<T>) -> TrialFault {
        TrialFault::OutOfMemory
    }
}
