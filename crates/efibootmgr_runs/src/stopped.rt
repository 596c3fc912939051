//! Why a run stops.

ghost use Rattle.std.specs.Prelude.{◌≡◌};
ghost use Rattle.std.specs.Option.{option_map};
ghost use Rattle.messages.specs.declared.failure.Failure.TheVariants as failure;
ghost use Rattle.efibootmgr_runs.specs.declared.stopped.Step.TheVariants as step;
ghost use Rattle.efibootmgr_runs.specs.Stopped.{status_at, status_of, step_of, told_of};

use crate::planned::Planned;
use messages::Failure;
use std::alloc::AllocError;

/// What was to be done when a run stopped.
#[derive(Clone, Copy, Debug, PartialEq, Eq)]
pub(crate) enum Step {
    /// The variables were to be read.
    Read,
    /// An entry was to be taken out.
    Delete,
    /// An entry was to become active or inactive.
    Activate,
    /// An entry was to be made.
    Create,
    /// An entry was to be made under a number that has one.
    CreateTaken,
    /// BootOrder was to be taken out.
    DeleteOrder,
    /// BootOrder was to be set.
    Order,
    /// Repeated numbers were to be taken out of BootOrder.
    RemoveRepeats,
    /// BootNext was to be taken out.
    DeleteNext,
    /// Timeout was to be taken out.
    DeleteTimeout,
    /// BootNext was to be set.
    Next,
    /// Timeout was to be set.
    Timeout,
    /// The variables were to be listed.
    List,
}

impl Step {
    /// What is to be done when this change is to be made.
    pub(crate) fn of(change: &Planned) -> Step
        ensures { result ≡ step_of change.now }
    {
        match change {
            Planned::Delete(_) => Step::Delete,
            Planned::Activate(_) | Planned::Deactivate(_) => Step::Activate,
            Planned::Create => Step::Create,
            Planned::DeleteOrder => Step::DeleteOrder,
            Planned::Order => Step::Order,
            Planned::RemoveRepeats => Step::RemoveRepeats,
            Planned::DeleteNext => Step::DeleteNext,
            Planned::DeleteTimeout => Step::DeleteTimeout,
            Planned::Next(_) => Step::Next,
            Planned::Timeout(_) => Step::Timeout,
        }
    }

    /// The status that `efibootmgr` ends with if this can't be done.
    fn status(self) -> u8
        ensures { result ≡ status_of self }
    {
        match self {
            Step::List => 1,
            Step::Read => 2,
            Step::Create => 5,
            Step::DeleteOrder => 7,
            Step::Order => 8,
            Step::RemoveRepeats => 9,
            Step::DeleteNext => 10,
            Step::DeleteTimeout => 11,
            Step::Next => 12,
            Step::Timeout => 14,
            Step::Delete => 15,
            Step::Activate => 16,
            Step::CreateTaken => 40,
        }
    }
}

/// Why a run stops.
#[derive(Debug, Drop)]
pub(crate) struct Stopped {
    /// What was to be done.
    step: Step,
    /// What kept it from being done.
    failure: Failure,
}

impl Stopped {
    /// What it is to a run that this can't be done.
    pub(crate) fn at(step: Step, failure: Failure) -> Stopped
        ensures step { result.step ≡ step }
        ensures failure { result.failure ≡ failure }
    {
        Stopped { step, failure }
    }

    /// The status to end with: that of what was to be done, unless nobody reads what is printed any more.
    pub(crate) fn status(&self) -> u8
        ensures { result ≡ status_at self.now.step self.now.failure }
    {
        match self.failure {
            Failure::Closed => self.failure.status(),
            _ => self.step.status(),
        }
    }

    /// What is told of it, if there is something to tell.
    pub(crate) fn told(&self) -> Option<&Failure>
        ensures { option_map (λ failure. failure.now) result ≡ told_of self.now.failure }
    {
        match self.failure {
            Failure::Closed => None,
            _ => Some(&self.failure),
        }
    }
}

/// What it is to a run that memory was refused while variables were read or listed.
impl From<AllocError> for Stopped {
    ghost from_gives = { λ _ made. (made.step ≡ step.List) × (made.failure ≡ failure.Memory) };

    fn from(_refusal: AllocError) -> Stopped {
        Stopped::at(Step::List, Failure::Memory)
    }
}
