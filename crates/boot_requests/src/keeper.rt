//! What keeps the boot entries of a machine.

ghost use Rattle.std.specs.Prelude.{◌≡◌, ◌≢◌, ◌↔◌, ℕ, ◌+◌, ◌<◌, ◌≤◌, List, ◌∷◌, length, IfOk, IsTrue};
ghost use Rattle.std.specs.FinMap as map;
ghost use Rattle.boot_requests.specs.declared.request.Request.{Request};
ghost use Rattle.boot_requests.specs.declared.reply.Reply.{Reply};
ghost use Rattle.boot_requests.specs.declared.fault.FrameFault.{FrameFault};
ghost use Rattle.boot_requests.specs.Limits.{width, payload_max, no_number};
ghost use Rattle.boot_requests.specs.Request.{payload_of};
ghost use Rattle.boot_requests.specs.Frame.{SpellsFrame, IsSent};
ghost use Rattle.boot_requests.specs.FrameFault.{IsFirstFault};
ghost use Rattle.boot_requests.specs.State.{State, IsState, IsImage};
ghost use Rattle.boot_requests.specs.Apply.{outcome_of, HasPlanOf};
ghost use Rattle.boot_requests.specs.Seen.{Seen, IsEvent, IsSeen, Came, Malformed, Prepare, Hand, Restart};
ghost use Rattle.boot_requests.specs.Answer.{kept_outcome, again, choice_count};
ghost use Rattle.boot_requests.specs.Reply.{IsReply};
ghost use Rattle.boot_requests.specs.Turn.{settled_state, Turn};
ghost use Rattle.boot_requests.specs.Keeper.{IsStateOf, IsPlain, StandsFor};
ghost use Rattle.boot_requests.specs.Update.{Fits, after_update};

use crate::event::Event;
use crate::fault::FrameFault;
use crate::gap::{apply, apply_followers};
use crate::laws;
use crate::mark::Mark;
use crate::outcome::Outcome;
use crate::reader::read_frame;
use crate::reply::Reply;
use crate::request::Request;
use crate::update::Update;
use crate::window::{WIDTH, Window};
use std::alloc::{AllocError, Global};
use std::marker::Model;
use std::rc::Rc;
use uefi_vars::{BootPlan, Changes, Vars, laws as vars_laws, plan};

/// What keeps the boot entries of a machine: its variables, the number of the request that is to be applied next, what
/// came of the last ones, the requests that wait for one of a lower number, and the plan that is prepared. What waits
/// and the plan are kept in memory alone.
#[derive(Debug, Drop)]
pub struct Keeper {
    pub(crate) vars: Vars,
    pub(crate) mark: Mark,
    pub(crate) window: Window,
    pub(crate) plan: Option<BootPlan>,
}

impl Model for Keeper {
    ghost use Rattle.std.specs.Coded.{codes};
    ghost use Rattle.std.specs.FinMap.{code as map_code};
    ghost use Rattle.boot_requests.specs.Turn.{Plain};
    ghost use Rattle.boot_requests.specs.StateOf.{state_of, plain_of};
    ghost use Rattle.boot_requests.specs.Slots.{waiting_of, IsKeeper};

    ghost Value = { Plain };

    ghost coded = { Prim.hlevel (codes, map_code) };

    ghost view = { λ k.
        plain_of (state_of k.vars k.mark) (waiting_of k.mark.next_number k.window) k.plan };

    ghost invariant = { λ k. IsKeeper k.vars k.mark k.window };
}

impl Keeper {
    /// The variables of the machine, as they are to be stored.
    pub fn vars(&self) -> &Vars
        ensures image { IsImage self.now.state result.now }
        ensures valid { IsState self.now.state }
    {
        &self.vars
    }

    /// The variables of the machine, as they are to be stored, without what keeps them.
    pub fn into_vars(self) -> Vars
        ensures image { IsImage self.state result }
        ensures valid { IsState self.state }
    {
        self.vars
    }

    /// The number of the request that is to be applied next.
    pub fn next_number(&self) -> u32
        ensures number { result ≡ self.now.state.next_number }
        ensures valid { IsPlain self.now }
    {
        self.mark.next_number()
    }

    /// How many requests wait for one of a lower number: fewer than [`WIDTH`].
    pub fn waiting(&self) -> usize
        ensures len { result ≡ map.len self.now.waiting }
        ensures bound { result < width }
        ensures valid { IsPlain self.now }
    {
        self.window.len(self.mark.next_number())
    }

    /// What came of the request of this number: `None` if it wasn't applied yet, or so long ago that its outcome isn't kept
    /// any more.
    pub fn outcome(&self, number: u32) -> Option<Outcome>
        ensures { result ≡ kept_outcome self.now.state number }
    {
        self.mark.outcome(number)
    }

    /// The keeper after this event, and the answer to it. This keeper stays as it was, so it can still be used if the
    /// new one can't be stored.
    ///
    /// A delivery that isn't a frame is answered [`Reply::Malformed`], with what [`read_frame`](crate::read_frame)
    /// finds. A request whose number is below the next one was applied before and isn't again: [`Reply::Repeat`] with
    /// the outcome if that is still kept, and otherwise [`Reply::Old`], whatever the request is. One whose number is
    /// [`WIDTH`] or more above the next one isn't taken: [`Reply::Ahead`]. One of another number above the next one
    /// waits, [`Reply::Waiting`], unless another request of that number already does, which stays: [`Reply::Conflict`].
    /// The request of the next number is applied, and after it those that wait for it and follow without a gap, in the
    /// order of their numbers: [`Reply::Applied`], with its own outcome and the next number after them all.
    ///
    /// [`Event::Prepare`] makes the plan of a boot, and then deletes BootNext (UEFI 2.10, 3.3): [`Reply::Prepared`]; if
    /// a plan is already prepared, it stays: [`Reply::AlreadyPrepared`]. [`Event::Hand`] gives that plan away,
    /// [`Reply::Plan`], or [`Reply::NothingPrepared`]. [`Event::Restart`] forgets it and all that waits:
    /// [`Reply::Restarted`].
    ///
    /// # Errors
    ///
    /// [`AllocError`] if memory was refused.
    pub fn step(&self, alloc: Global, event: &Event) -> Result<(Keeper, Reply), AllocError>
        // The table of turns.
        ensures turn { IfOk result (λ answer. (seen : Seen) → IsSeen event.now seen →
            Turn self.now seen answer.0 answer.1) }
        // From a keeper that stands for a run, to one that stands for it and the event, with the reply of the run.
        ensures run { IfOk result (λ answer. (start : State) (run : List Seen) (seen : Seen) →
            StandsFor self.now start run → IsSeen event.now seen →
            StandsFor answer.0 start (seen ∷ run) × IsReply start run seen answer.1) }
        // So the event can be read in some way.
        ensures valid { IsEvent event.now }
    {
        laws::a_turn_goes_on_with_the_run();
        let (update, reply) = self.take_turn(alloc, event)?;
        let keeper = self.updated(alloc, update)?;
        Ok((keeper, reply))
    }

    /// What this event changes, by the table of turns, and the answer to it.
    #[inline(always)]
    pub(crate) fn take_turn(
        &self,
        alloc: Global,
        event: &Event,
    ) -> Result<(Update, Reply), AllocError>
        ensures fits { IfOk result (λ answer. Fits self.now answer.0) }
        ensures turn { IfOk result (λ answer. (seen : Seen) → IsSeen event.now seen →
            Turn self.now seen (after_update self.now answer.0) answer.1) }
        ensures valid { IsEvent event.now }
    {
        match event {
            Event::Deliver(bytes) => self.receive(alloc, bytes.bytes()),
            Event::Prepare => self.prepare(alloc),
            Event::Hand => self.hand(alloc),
            Event::Restart => Ok(self.restart()),
        }
    }

    /// These bytes came.
    #[inline(always)]
    fn receive(&self, alloc: Global, bytes: &[u8]) -> Result<(Update, Reply), AllocError>
        ensures fits { IfOk result (λ answer. Fits self.now answer.0) }
        ensures came { IfOk result (λ answer. (number : ℕ) (request : Request) →
            SpellsFrame bytes.now number request →
            Turn self.now (Came number request) (after_update self.now answer.0) answer.1) }
        ensures malformed { IfOk result (λ answer. (fault : FrameFault) →
            IsFirstFault bytes.now fault →
            Turn self.now (Malformed fault) (after_update self.now answer.0) answer.1) }
    {
        match read_frame(alloc, bytes) {
            Ok((number, request)) => {
                let answer = self.deliver(alloc, number, request)?;
                Ok(answer)
            }
            Err(fault) => {
                let reply = refusal(fault)?;
                Ok((Update::Nothing, reply))
            }
        }
    }

    /// A request came with its number.
    #[inline(always)]
    fn deliver(
        &self,
        alloc: Global,
        number: u32,
        request: Request,
    ) -> Result<(Update, Reply), AllocError>
        requires { IsSent number request }
        ensures fits { IfOk result (λ answer. Fits self.now answer.0) }
        ensures turn { IfOk result (λ answer.
            Turn self.now (Came number request) (after_update self.now answer.0) answer.1) }
    {
        laws::requests_compare_as_values();
        let next_number = self.mark.next_number();
        if number < next_number {
            return Ok((Update::Nothing, self.again(number)));
        }
        let is_ahead = number - next_number >= WIDTH;
        if is_ahead {
            return Ok((Update::Nothing, Reply::Ahead(next_number)));
        }
        if number == next_number {
            let answer = self.fill(alloc, &request)?;
            return Ok(answer);
        }
        match self.window.get(next_number, number) {
            Some(other) if *other == request => Ok((Update::Nothing, Reply::Waiting(next_number))),
            Some(_) => Ok((Update::Nothing, Reply::Conflict)),
            None => {
                let request = Rc::new(alloc, request)?;
                Ok((Update::Waits(number, request), Reply::Waiting(next_number)))
            }
        }
    }

    /// The answer to a request of this number, which was applied before.
    #[inline(always)]
    fn again(&self, number: u32) -> Reply
        requires { number < self.now.state.next_number }
        ensures { result ≡ again (kept_outcome self.now.state number) }
    {
        match self.mark.outcome(number) {
            Some(outcome) => Reply::Repeat(outcome),
            None => Reply::Old,
        }
    }

    /// The request of the next number is applied, and then those that follow it without a gap.
    fn fill(&self, alloc: Global, request: &Request) -> Result<(Update, Reply), AllocError>
        requires room { self.now.state.next_number < no_number }
        requires fits { length (payload_of request.now) ≤ payload_max }
        ensures fits { IfOk result (λ answer. Fits self.now answer.0) }
        ensures state { IfOk result (λ answer. after_update self.now answer.0
            ≡ settled_state self.now (map.insert self.now.waiting self.now.state.next_number request.now)) }
        ensures answer { IfOk result (λ answer. answer.1
            ≡ Reply.Applied (outcome_of self.now.state request.now)
            (after_update self.now answer.0).state.next_number) }
    {
        let vars = &self.vars;
        let mut changes = Changes::new(alloc);
        let (outcome, first) = apply(alloc, vars, &mut changes, &self.mark, request)?;
        let mark = apply_followers(alloc, vars, &mut changes, &self.window, first)?;
        let after = mark.next_number();
        Ok((
            Update::Applied(changes, mark),
            Reply::Applied(outcome, after),
        ))
    }

    /// A boot is prepared.
    #[inline(always)]
    fn prepare(&self, alloc: Global) -> Result<(Update, Reply), AllocError>
        ensures fits { IfOk result (λ answer. Fits self.now answer.0) }
        ensures turn { IfOk result (λ answer.
            Turn self.now Prepare (after_update self.now answer.0) answer.1) }
    {
        if self.plan.is_some() {
            return Ok((Update::Nothing, Reply::AlreadyPrepared));
        }
        let plan = make_plan(alloc, &self.vars)?;
        let count = choice_count(&plan);
        Ok((Update::Prepared(plan), Reply::Prepared(count)))
    }

    /// The plan that is prepared is to be handed out.
    #[inline(always)]
    fn hand(&self, alloc: Global) -> Result<(Update, Reply), AllocError>
        ensures fits { IfOk result (λ answer. Fits self.now answer.0) }
        ensures turn { IfOk result (λ answer.
            Turn self.now Hand (after_update self.now answer.0) answer.1) }
    {
        match copy_plan(alloc, &self.plan)? {
            Some(plan) => Ok((Update::HandedOut, Reply::Plan(plan))),
            None => Ok((Update::Nothing, Reply::NothingPrepared)),
        }
    }

    /// The keeper starts again.
    #[inline(always)]
    fn restart(&self) -> (Update, Reply)
        ensures fits { Fits self.now result.0 }
        ensures turn { Turn self.now Restart (after_update self.now result.0) result.1 }
    {
        (Update::Restarted, Reply::Restarted(self.mark.next_number()))
    }
}

/// The answer to bytes that aren't a frame, for this fault, unless it is out of memory.
fn refusal(fault: FrameFault) -> Result<Reply, AllocError>
    ensures { IfOk result (λ reply.
        (fault ≢ FrameFault.OutOfMemory) × (reply ≡ Reply.Malformed fault)) }
{
    if is_memory(fault) {
        return Err(AllocError);
    }
    Ok(Reply::Malformed(fault))
}

/// Whether the fault is out of memory.
fn is_memory(fault: FrameFault) -> bool
    ensures { IsTrue result ↔ (fault ≡ FrameFault.OutOfMemory) }
{
    matches!(fault, FrameFault::OutOfMemory)
}

/// An equal plan, or none.
pub(crate) fn copy_plan(
    alloc: Global,
    plan: &Option<BootPlan>,
) -> Result<Option<BootPlan>, AllocError>
    ensures { IfOk result (λ copy. copy ≡ plan.now) }
{
    match plan {
        Some(plan) => Ok(Some(plan.copy(alloc)?)),
        None => Ok(None),
    }
}

/// The plan of the variables.
fn make_plan(alloc: Global, vars: &Vars) -> Result<BootPlan, AllocError>
    ensures { IfOk result (λ plan. (m : State) → IsStateOf m vars.now → HasPlanOf m plan) }
{
    vars_laws::variables_have_one_order();
    vars_laws::variables_have_one_next();
    vars_laws::a_plan_reads_entries_alone();
    match plan(alloc, vars) {
        Ok(plan) => Ok(plan),
        Err(_) => Err(AllocError),
    }
}

/// How many options the plan has, BootNext's included.
fn choice_count(plan: &BootPlan) -> usize
    ensures { result ≡ choice_count plan.now }
{
    match plan.next() {
        Some(_) => 1 + plan.normal().len(),
        None => plan.normal().len(),
    }
}
