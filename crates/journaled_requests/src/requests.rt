//! Runs of requests over a machine's variables.

ghost use Rattle.std.specs.Prelude.{◌≡◌, ◌≢◌, IfOk, IfErr};
ghost use Rattle.boot_requests.specs.StoredState.{OpensAs};
ghost use Rattle.boot_requests.specs.declared.fault.OpenFault.{OpenFault};
ghost use Rattle.boot_requests.specs.Turn.{plain_start};
ghost use Rattle.boot_journal.specs.Cause.{IfRefused};
ghost use Rattle.journaled_requests.specs.RunFault.{IsOpenRefusal};

use boot_journal::{
    CallError, Run, laws as journal_laws, with_attributes_or, without_attributes_or,
};
use boot_requests::{Answer, Event, Keeper, OpenFault, answer_events, laws};
use std::alloc::{AllocError, Global};
use thiserror::Error;
use uefi_vars::Vars;

/// Events that are run over a machine's variables, as by [`answer_events`]. The answer has one [`Answer`] to each.
#[derive(Clone, Copy, Debug)]
pub struct Requests<'a> {
    /// The events, in their order.
    pub events: &'a [Event],
}

/// Why a run of requests refuses what a machine keeps.
#[derive(Clone, Copy, Debug, PartialEq, Eq, Hash, Error)]
pub enum RunFault {
    /// The variables, without their attributes, can't be kept. The fault is never [`OpenFault::OutOfMemory`].
    #[error("Open {0}")]
    Open(OpenFault),
    /// Under the name of a variable of the boot manager there is no byte after its attributes.
    #[error("NoData")]
    NoData,
    /// With its attributes, the data that a variable of the boot manager would have after the run has more than
    /// [`DATA_MAX`](uefi_vars::DATA_MAX) bytes.
    #[error("TooLong")]
    TooLong,
}

impl RunFault {
    ghost use Rattle.std.specs.String.{string_bytes};
    ghost use Rattle.journaled_requests.specs.RunFault.{run_fault_words};

    /// The fault's name and, after a blank, the words of the fault of opening. This fails only when out of memory.
    pub fn words(&self, alloc: Global) -> Result<String, AllocError>
        ensures { IfOk result (λ text. string_bytes text ≡ run_fault_words self.now) }
    {
        match self {
            RunFault::Open(fault) => {
                let words = fault.words(alloc)?;
                format!(in alloc; "Open {words}")
            }
            RunFault::NoData => String::from_str(alloc, "NoData"),
            RunFault::TooLong => String::from_str(alloc, "TooLong"),
        }
    }
}

/// What events lead to over a machine's variables.
#[derive(Drop)]
pub struct AnsweredRequests {
    /// The variables before them, without their attributes.
    pub from: Vars,
    /// The number of the request that was to be applied next before them.
    pub first: u32,
    /// The variables after them, without their attributes.
    pub to: Vars,
    /// The variables after them, as the machine is to keep them.
    pub kept: Vars,
    /// The answers to the events.
    pub answers: Vec<Answer>,
}

impl Requests<'_> {
    ghost use Rattle.boot_journal.specs.Attributes.{data_of};
    ghost use Rattle.journaled_requests.specs.Requests.{IsAnswered, IsNextOf};
    ghost use Rattle.journaled_requests.specs.RunFault.{IsRunFault};

    /// Takes the attributes off the variables of the boot manager, opens what is left, runs the events over it, and
    /// puts the attributes on again: a variable that is replaced has those that it had, and a new one has
    /// [`BOOT_ATTRIBUTES`](uefi_vars::BOOT_ATTRIBUTES).
    ///
    /// # Errors
    ///
    /// [`CallError::Refused`] with the fault that what the machine keeps has, and [`CallError::OutOfMemory`] if memory was
    /// refused.
    pub fn answer(
        &self,
        alloc: Global,
        vars: &Vars,
    ) -> Result<AnsweredRequests, CallError<RunFault>>
        ensures answered { IfOk result (λ led. IsAnswered self.now.events.now vars.now led.kept led.answers.items) }
        ensures from { IfOk result (λ led. led.from ≡ data_of vars.now) }
        ensures to { IfOk result (λ led. led.to ≡ data_of led.kept) }
        ensures first { IfOk result (λ led. IsNextOf vars.now led.first) }
        ensures refused { IfErr result (λ error. IfRefused error (IsRunFault self.now.events.now vars.now)) }
    {
        laws::a_start_stands_for_no_events();
        laws::variables_open_as_one_state();
        journal_laws::attributes_and_data_are_what_is_kept();
        let from = without_attributes_or(alloc, vars, RunFault::NoData)?;
        let keeper = open(alloc, from.copy(alloc)?)?;
        let first = keeper.next_number();
        let (keeper, answers) = answer_events(alloc, keeper, self.events)?;
        let to = keeper.into_vars();
        let kept = with_attributes_or(alloc, &to, vars, RunFault::TooLong)?;
        Ok(AnsweredRequests {
            from,
            first,
            to,
            kept,
            answers,
        })
    }
}

impl Run for Requests<'_> {
    ghost use Rattle.journaled_requests.specs.Requests.{IsAnswered};
    ghost use Rattle.journaled_requests.specs.RunFault.{IsRunFault};

    type Answer = Vec<Answer>;

    type Fault = RunFault;

    ghost leads = { λ requests from to answers. IsAnswered requests.events.now from to answers.items };

    ghost refuses = { λ requests from fault. IsRunFault requests.events.now from fault };

    /// Runs the events as [`Requests::answer`] does.
    fn run(self, alloc: Global, vars: &Vars) -> Result<(Vars, Vec<Answer>), CallError<RunFault>> {
        let AnsweredRequests {
            from: _,
            first: _,
            to: _,
            kept,
            answers,
        } = self.answer(alloc, vars)?;
        Ok((kept, answers))
    }
}

/// What keeps this set.
fn open(alloc: Global, set: Vars) -> Result<Keeper, CallError<RunFault>>
    ensures opened { IfOk result (λ keeper. (keeper ≡ plain_start keeper.state) × OpensAs set keeper.state) }
    ensures refused { IfErr result (λ error. IfRefused error (IsOpenRefusal set)) }
{
    match Keeper::open(alloc, set) {
        Ok(keeper) => Ok(keeper),
        Err(refused) => Err(open_error(refused.fault)),
    }
}

/// What it is to a run that variables can't be kept.
fn open_error(fault: OpenFault) -> CallError<RunFault>
    ensures { IfRefused result (λ reason. (reason ≡ RunFault.Open fault) × (fault ≢ OpenFault.OutOfMemory)) }
{
    match fault {
        OpenFault::OutOfMemory => CallError::OutOfMemory,
        OpenFault::BadOrder | OpenFault::BadNext | OpenFault::BadState => {
            CallError::Refused(RunFault::Open(fault))
        }
    }
}
