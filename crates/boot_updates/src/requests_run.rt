//! Runs of requests over a machine's variables, of which it is noted what they applied. None is made if something isn't as
//! it was expected.

ghost use Rattle.std.specs.Prelude.{◌≡◌, [], Some, IfOk, IfErr};

use crate::guarded::{Unmet, unmet_of};
use crate::noted::{Noted, note_run};
use boot_journal::CallError;
use boot_requests::Answer;
use journaled_requests::{AnsweredRequests, Requests, RunFault};
use request_preconditions::{IDENTITY_LEN, MachineState, Precondition};
use std::alloc::Global;
use uefi_vars::Vars;
use wanted_changes::{KeptNotes, Led, Sets, leave_out};

/// Events that are run over a machine's variables.
#[derive(Clone, Copy)]
pub(crate) struct RequestsRun<'a> {
    /// The events.
    pub(crate) requests: Requests<'a>,
    /// What is expected of the machine.
    pub(crate) preconditions: &'a [Precondition],
    /// The identity that was kept beside the journal before, if one was.
    pub(crate) journal: Option<[u8; IDENTITY_LEN]>,
    /// The names of the variables that no set can hold: to what is expected they aren't there.
    pub(crate) left_out: &'a [String],
    /// What is kept beside the journal, to which the run adds the frames that it applies.
    pub(crate) notes: &'a KeptNotes,
}

/// What a run of events answers.
#[derive(Drop)]
pub struct Answered {
    /// What isn't as it was expected, if something isn't: then no event was run.
    pub unmet: Option<Unmet>,
    /// The identity that was kept beside the journal before them, if one was.
    pub journal: Option<[u8; IDENTITY_LEN]>,
    /// The next number before the events.
    pub first: u32,
    /// The answers to the events.
    pub answers: Vec<Answer>,
    /// What is told of the events by notes.
    pub noted: Noted,
}

impl RequestsRun<'_> {
    ghost use Rattle.boot_journal.specs.Attributes.{data_of};
    ghost use Rattle.boot_journal.specs.Cause.{IfRefused};
    ghost use Rattle.journaled_requests.specs.Requests.{IsAnswered, IsNextOf};
    ghost use Rattle.journaled_requests.specs.RunFault.{IsRunFault};
    ghost use Rattle.boot_updates.specs.Guarded.{AreMet, IsGuarded};
    ghost use Rattle.boot_updates.specs.Told.{AreToldBy};
    ghost use Rattle.std.specs.Prelude.{map};
    ghost use Rattle.std.specs.String.{string_bytes};
    ghost use Rattle.wanted_changes.specs.LeftOut.{without_names};

    /// Runs the events over these variables, which are as the machine keeps them, and notes what they applied, if all is as it
    /// is expected. Otherwise nothing is run.
    ///
    /// # Errors
    ///
    /// [`CallError::Refused`] with the fault that what the machine keeps has, and [`CallError::OutOfMemory`] if memory was
    /// refused.
    pub(crate) fn lead(
        &self,
        alloc: Global,
        vars: &Vars,
    ) -> Result<Led<Answered>, CallError<RunFault>>
        ensures done { IfOk result (λ led. (led.answer.journal ≡ self.now.journal) × IsNextOf vars.now led.answer.first
            × IsGuarded (AreMet self.now.journal led.answer.first
            (without_names (data_of vars.now) (map string_bytes self.now.left_out.now)) self.now.preconditions.now)
            (IsAnswered self.now.requests.events.now vars.now led.kept led.answer.answers.items
            × AreToldBy led.answer.noted.before led.answer.first self.now.requests.events.now led.answer.answers.items
            led.answer.noted.same.items)
            vars.now led.kept led.answer.answers.items led.answer.unmet) }
        ensures from { IfOk result (λ led. led.sets.from ≡ data_of vars.now) }
        ensures to { IfOk result (λ led. led.sets.to ≡ data_of led.kept) }
        ensures refused { IfErr result (λ error. IfRefused error (IsRunFault self.now.requests.events.now vars.now)) }
    {
        let AnsweredRequests {
            from,
            first,
            to,
            kept,
            answers,
        } = self.requests.answer(alloc, vars)?;
        let mut known = from.copy(alloc)?;
        leave_out(&mut known, self.left_out);
        let state = MachineState {
            journal: self.journal,
            next_number: first,
            vars: &known,
        };
        if let Some(unmet) = unmet_of(alloc, self.preconditions, &state)? {
            let to = from.copy(alloc)?;
            let kept = vars.copy(alloc)?;
            return Ok(Led {
                sets: Sets { from, to },
                kept,
                answer: Answered::not_run(alloc, unmet, &state),
            });
        }
        let noted = note_run(alloc, self.notes, first, self.requests.events, &answers)?;
        Ok(Led {
            sets: Sets { from, to },
            kept,
            answer: Answered {
                unmet: None,
                journal: self.journal,
                first,
                answers,
                noted,
            },
        })
    }
}

impl Answered {
    /// No event was run over the variables of the machine, since this isn't as it was expected.
    fn not_run(alloc: Global, unmet: Unmet, state: &MachineState<'_>) -> Answered
        ensures unmet { result.unmet ≡ Some unmet }
        ensures journal { result.journal ≡ state.now.journal }
        ensures first { result.first ≡ state.now.next_number }
        ensures none { result.answers.items ≡ [] }
    {
        Answered {
            unmet: Some(unmet),
            journal: state.journal,
            first: state.next_number,
            answers: Vec::new(alloc),
            noted: Noted {
                before: None,
                same: Vec::new(alloc),
            },
        }
    }
}
