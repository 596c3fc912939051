//! What is wanted of a machine.

ghost use Rattle.std.specs.Prelude.{◌≡◌, IfOk, IfErr};
ghost use Rattle.uefi_vars.specs.Vars.{Variables};
ghost use Rattle.boot_journal.specs.Attributes.{data_of};
ghost use Rattle.boot_journal.specs.Cause.{IfRefused};
ghost use Rattle.wanted_changes.specs.declared.wanted.Seen.{Seen};

use crate::kept_notes::KeptNotes;
use crate::sets::{SetChange, Sets};
use crate::told::Told;
use boot_journal::CallError;
use boot_notes::IDENTITY_LEN;
use machine_names::MachineName;
use messages::Failure;
use std::alloc::Global;
use uefi_vars::Vars;

/// What a run may know of a machine beside its variables.
#[derive(Clone, Copy)]
pub struct Seen<'a> {
    /// The names of its variables of the boot manager that no set can hold.
    pub left_out: &'a [String],
    /// What the machine is called.
    pub machine: &'a MachineName,
    /// Whether its variables are in a folder, so that firmware has a say in what is stored.
    pub is_folder: bool,
    /// The identity that was kept beside its journal before the change, if one was.
    pub journal: Option<[u8; IDENTITY_LEN]>,
    /// What is kept beside its journal.
    pub notes: &'a KeptNotes,
}

/// What a change leads to.
#[derive(Drop)]
pub struct Led<A> {
    /// The variables before it and after it, without attributes.
    pub sets: Sets,
    /// The variables after it, as the machine is to keep them.
    pub kept: Vars,
    /// What the change answers.
    pub answer: A,
}

/// A change that is wanted of a machine.
pub trait Wanted {
    /// What it answers.
    type Answer: Drop;

    /// Why it refuses variables.
    type Fault: Drop;

    /// What keeps it from being made.
    type Refusal: Drop + From<Failure>;

    /// It leads from the one set to the other, with this answer.
    ghost leads: { Self → Seen → Variables → Variables → Self.Answer → Type 0 };

    /// It refuses the variables for this fault.
    ghost refuses: { Self → Seen → Variables → Self.Fault → Type 0 };

    /// Refuses a change of the variables of these names, which no set can hold, before anything is done.
    ///
    /// # Errors
    ///
    /// That it would change one of them, or that memory was refused.
    fn check(&self, alloc: Global, left_out: &[String]) -> Result<(), Self::Refusal>;

    /// The variables that it replaces, whatever they have, if there are some: also those that no set can hold.
    fn replaced(&self) -> Option<&Vars>;

    /// Whether it is of requests. What was applied of them is kept by the journal then, also of a variable file, and notes
    /// with an identity are begun beside the journal if there are none.
    fn has_requests(&self) -> bool;

    /// What it leads to from these variables, which are as a machine keeps them, with attributes.
    ///
    /// # Errors
    ///
    /// Its fault if it refuses the variables, and that memory was refused.
    fn run(
        &self,
        alloc: Global,
        seen: &Seen<'_>,
        vars: &Vars,
    ) -> Result<Led<Self::Answer>, CallError<Self::Fault>>
        ensures done { IfOk result (λ led. leads self.now seen.now vars.now led.kept led.answer) }
        ensures from { IfOk result (λ led. led.sets.from ≡ data_of vars.now) }
        ensures to { IfOk result (λ led. led.sets.to ≡ data_of led.kept) }
        ensures refused { IfErr result (λ error. IfRefused error (refuses self.now seen.now vars.now)) };

    /// What is told of it, if it leads from the one set to the other and answers so. The sets have no attributes.
    ///
    /// # Errors
    ///
    /// [`Failure::Memory`] if memory was refused, and others if it can't be told.
    fn tell(
        &self,
        alloc: Global,
        seen: &Seen<'_>,
        change: SetChange<'_>,
        answer: &Self::Answer,
    ) -> Result<Told, Failure>;

    /// What keeps it from being made if it refuses variables for this fault.
    fn refusal(&self, alloc: Global, fault: Self::Fault) -> Self::Refusal;

    /// What is done right before the change is made by the journal, once what is told of it is made and what is there is kept:
    /// nothing, unless it says otherwise. It isn't done for a dry run, nor of a file that is replaced as a whole.
    ///
    /// # Errors
    ///
    /// That it can't be done, and so isn't: nothing is changed then.
    fn begin(&self, _answer: &Self::Answer) -> Result<(), Failure> {
        Ok(())
    }

    /// What is done if the change had begun so, and is taken back: it hasn't happened.
    fn take_back(&self) {}

    /// What is done once the change is made, while the machine is still locked.
    fn end(&self, answer: &Self::Answer);
}
