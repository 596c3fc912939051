//! What is run over a machine whose moves C makes.

ghost use Rattle.std.specs.Prelude.{◌≡◌, IfOk, IfErr};
ghost use Rattle.boot_journal.specs.Cause.{IfRefused};
ghost use Rattle.boot_journal.specs.declared.machine.CallError.TheVariants.{OutOfMemory};
ghost use Rattle.bootkeep_c.specs.Wanted.{LeadsByFrames, RefusesFrames, LeadsByEdit, RefusesEdit, LeadsBack};

use crate::edit::{EditNumbers, edit_asked};
use boot_edits::{EditAnswer, EditRun, EditRunFault, Restore};
use boot_journal::{CallError, Run};
use boot_requests::{Answer, Event};
use journaled_requests::{AnsweredRequests, Requests, RunFault};
use std::alloc::Global;
use uefi_vars::Vars;

/// What is run over a machine.
#[derive(Drop)]
pub enum WantedRun {
    /// Nothing: what an earlier command has left to do is done, and no more.
    Nothing,
    /// The deliveries of frames.
    Frames(Vec<Event>),
    /// An edit.
    Edit(OwnedEdit),
    /// The boot manager's variables become those of a set, as a machine keeps them.
    Restore(Vars),
}

/// An edit, with the numbers and the bytes that it is of.
#[derive(Drop)]
pub struct OwnedEdit {
    /// What is to be done.
    pub(crate) asked: EditNumbers,
    /// The numbers of its entries.
    pub(crate) numbers: Vec<u16>,
    /// The bytes of its load option.
    pub(crate) option: Vec<u8>,
}

/// What a run answers.
#[derive(Debug, Drop)]
pub enum RunAnswer {
    /// Nothing more than that it has happened.
    Done,
    /// The replies to frames.
    Replies(Replied),
    /// What is told of an edit.
    Edited(EditAnswer),
}

/// What a run of frames answers.
#[derive(Debug, Drop)]
pub struct Replied {
    /// The number of the request that was to be applied next before them.
    pub(crate) first: u32,
    /// The answer to each.
    pub(crate) answers: Vec<Answer>,
}

/// Why a run refuses the variables.
#[derive(Clone, Copy, Debug, PartialEq, Eq)]
pub enum RunRefusal {
    /// They refuse frames.
    Frames(RunFault),
    /// They refuse the edit.
    Edit(EditRunFault),
}

/// What is run, lent to a command.
#[derive(Clone, Copy)]
pub(crate) struct Running<'a> {
    /// What is run.
    pub(crate) wanted: &'a WantedRun,
}

impl Run for Running<'_> {
    ghost use Rattle.bootkeep_c.specs.Wanted.{RunLeads, RunRefuses};

    type Answer = RunAnswer;

    type Fault = RunRefusal;

    ghost leads = { λ run from to answer. RunLeads run.wanted.now from to answer };

    ghost refuses = { λ run from fault. RunRefuses run.wanted.now from fault };

    fn run(self, alloc: Global, vars: &Vars) -> Result<(Vars, RunAnswer), CallError<RunRefusal>> {
        match self.wanted {
            WantedRun::Nothing => Ok((vars.copy(alloc)?, RunAnswer::Done)),
            WantedRun::Frames(events) => run_frames(alloc, vars, events),
            WantedRun::Edit(edit) => run_edit(alloc, vars, edit),
            WantedRun::Restore(back) => run_restore(alloc, vars, back),
        }
    }
}

/// Delivers frames over the variables.
fn run_frames(
    alloc: Global,
    vars: &Vars,
    events: &[Event],
) -> Result<(Vars, RunAnswer), CallError<RunRefusal>>
    ensures leads { IfOk result (λ done. LeadsByFrames events.now vars.now done.0 done.1) }
    ensures refuses { IfErr result (λ error. IfRefused error (RefusesFrames events.now vars.now)) }
{
    match (Requests { events }).answer(alloc, vars) {
        Ok(
            AnsweredRequests {
                from: _,
                first,
                to: _,
                kept,
                answers,
            },
        ) => Ok((kept, RunAnswer::Replies(Replied { first, answers }))),
        Err(CallError::Refused(fault)) => Err(CallError::Refused(RunRefusal::Frames(fault))),
        Err(CallError::OutOfMemory) => Err(CallError::OutOfMemory),
    }
}

/// Makes an edit of the variables.
fn run_edit(
    alloc: Global,
    vars: &Vars,
    edit: &OwnedEdit,
) -> Result<(Vars, RunAnswer), CallError<RunRefusal>>
    ensures leads { IfOk result (λ done. LeadsByEdit edit.now vars.now done.0 done.1) }
    ensures refuses { IfErr result (λ error. IfRefused error (RefusesEdit edit.now vars.now)) }
{
    // Where a command begins with what is no edit, that is refused.
    let Ok(edit) = edit_asked(&edit.asked, &edit.numbers, &edit.option) else {
        return Err(CallError::OutOfMemory);
    };
    match (EditRun { edit }).run(alloc, vars) {
        Ok((to, answer)) => Ok((to, RunAnswer::Edited(answer))),
        Err(CallError::Refused(fault)) => Err(CallError::Refused(RunRefusal::Edit(fault))),
        Err(CallError::OutOfMemory) => Err(CallError::OutOfMemory),
    }
}

/// Brings the boot manager's variables back to those of a set, and answers nothing. It is never refused.
fn run_restore(
    alloc: Global,
    vars: &Vars,
    back: &Vars,
) -> Result<(Vars, RunAnswer), CallError<RunRefusal>>
    ensures leads { IfOk result (λ done. LeadsBack back.now vars.now done.0 done.1) }
    ensures refuses { IfErr result (λ error. error ≡ OutOfMemory) }
{
    match (Restore { to: back }).run(alloc, vars) {
        Ok((to, ())) => Ok((to, RunAnswer::Done)),
        Err(_) => Err(CallError::OutOfMemory),
    }
}
