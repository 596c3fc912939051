//! Replies of a keeper as values.

ghost use Rattle.std.specs.Prelude.{◌≡◌, IfOk};
ghost use Rattle.bootkeep_c.specs.Replies.{no_refusal, told_of, fault_number, fault_of_option, code_number, bare_reply, numbered_reply, outcome_reply, fault_reply, plan_reply, count_reply, reply_numbers, planned_numbers};
ghost use Rattle.bootkeep_c.specs.Plans.{next_number, normal_numbers};
ghost use Rattle.boot_requests.specs.Answer.{choice_count};

use crate::failure::Failure;
use crate::refusal::{
    FRAME_BAD_KIND, FRAME_BAD_MAGIC, FRAME_BAD_NUMBER, FRAME_BAD_PAYLOAD, FRAME_BAD_SIZE,
    FRAME_BAD_VERSION, FRAME_OPTION, FRAME_SHORT, FRAME_TOO_LONG, NO_KIND, NO_PLACE, Refusal,
};
use crate::set::{NO_ENTRY, number_or_none};
use boot_requests::{Code, FrameFault, Outcome, Reply};
use std::alloc::{AllocError, Global};
use uefi_vars::BootPlan;

/// What was delivered isn't a frame.
pub const REPLY_MALFORMED: u32 = 1;

/// The request was applied before, with this outcome.
pub const REPLY_REPEAT: u32 = 2;

/// The request was applied before, and its outcome isn't kept any more.
pub const REPLY_OLD: u32 = 3;

/// The number is too far ahead of the next one.
pub const REPLY_AHEAD: u32 = 4;

/// Another request of this number waits.
pub const REPLY_CONFLICT: u32 = 5;

/// The request waits for those before it.
pub const REPLY_WAITING: u32 = 6;

/// The request was applied, with this outcome.
pub const REPLY_APPLIED: u32 = 7;

/// A plan is prepared.
pub const REPLY_PREPARED: u32 = 8;

/// A plan was prepared before.
pub const REPLY_ALREADY_PREPARED: u32 = 9;

/// The plan that was prepared.
pub const REPLY_PLAN: u32 = 10;

/// No plan is prepared.
pub const REPLY_NOTHING_PREPARED: u32 = 11;

/// What waited and what was prepared is forgotten.
pub const REPLY_RESTARTED: u32 = 12;

/// The reply tells no outcome.
pub const OUTCOME_NONE: u32 = 0;

/// The request was carried out.
pub const OUTCOME_DONE: u32 = 1;

/// The entry to add is there already.
pub const OUTCOME_EXISTS: u32 = 2;

/// The entry isn't there.
pub const OUTCOME_MISSING: u32 = 3;

/// The order has a number twice.
pub const OUTCOME_ORDER_REPEATS: u32 = 4;

/// The order has a number without an entry.
pub const OUTCOME_ORDER_UNKNOWN: u32 = 5;

/// Each number has an entry already.
pub const OUTCOME_NO_FREE: u32 = 6;

/// What stands for no number of a request.
pub const NO_NUMBER: u32 = 0xffff_ffff;

/// How many bytes the struct of a reply has.
pub(crate) const REPLY_LEN: usize = 64;

/// A reply as a value: `struct bootkeep_reply`.
#[repr(C)]
#[derive(Clone, Copy, Debug, PartialEq, Eq)]
pub struct ReplyNumbers {
    /// How many bytes the caller's struct has.
    pub size: usize,
    /// What the reply is.
    pub kind: u32,
    /// The fault of a frame, or [`NO_KIND`].
    pub fault: u32,
    /// The fault of the option of a frame.
    pub option_fault: Refusal,
    /// The outcome, or [`OUTCOME_NONE`].
    pub outcome: u32,
    /// The entry that the outcome tells, or [`NO_ENTRY`].
    pub entry: u32,
    /// The number of the request that is to be applied next, or [`NO_NUMBER`].
    pub next_number: u32,
    /// The number of the option that a plan tries first, or [`NO_ENTRY`].
    pub plan_next: u32,
    /// How many options a plan has.
    pub count: usize,
}

// As many bytes as the header asserts.
const _: () = prove!(size_of::<ReplyNumbers>() == REPLY_LEN);

/// No fault of an option.
const NO_REFUSAL: Refusal = Refusal {
    kind: NO_KIND,
    inner_kind: NO_KIND,
    place: NO_PLACE,
    inner_place: NO_PLACE,
};

impl ReplyNumbers {
    /// The numbers of a reply, in a struct of this size.
    pub(crate) fn of(size: usize, reply: &Reply) -> ReplyNumbers
        ensures { result ≡ reply_numbers size reply.now }
    {
        match reply {
            Reply::Malformed(fault) => ReplyNumbers::from_fault(size, fault),
            Reply::Repeat(outcome) => ReplyNumbers::from_outcome(
                size,
                REPLY_REPEAT,
                *outcome,
                NO_NUMBER,
            ),
            Reply::Old => ReplyNumbers::bare(size, REPLY_OLD),
            Reply::Ahead(next) => ReplyNumbers::numbered(size, REPLY_AHEAD, *next),
            Reply::Conflict => ReplyNumbers::bare(size, REPLY_CONFLICT),
            Reply::Waiting(next) => ReplyNumbers::numbered(size, REPLY_WAITING, *next),
            Reply::Applied(outcome, next) => ReplyNumbers::from_outcome(
                size,
                REPLY_APPLIED,
                *outcome,
                *next,
            ),
            Reply::Prepared(count) => ReplyNumbers::counted(size, *count),
            Reply::AlreadyPrepared => ReplyNumbers::bare(size, REPLY_ALREADY_PREPARED),
            Reply::Plan(plan) => ReplyNumbers::from_plan(size, plan),
            Reply::NothingPrepared => ReplyNumbers::bare(size, REPLY_NOTHING_PREPARED),
            Reply::Restarted(next) => ReplyNumbers::numbered(size, REPLY_RESTARTED, *next),
        }
    }

    /// A reply of this kind that tells nothing else.
    fn bare(size: usize, kind: u32) -> ReplyNumbers
        ensures { result ≡ bare_reply size kind }
    {
        ReplyNumbers {
            size,
            kind,
            fault: NO_KIND,
            option_fault: NO_REFUSAL,
            outcome: OUTCOME_NONE,
            entry: NO_ENTRY,
            next_number: NO_NUMBER,
            plan_next: NO_ENTRY,
            count: 0,
        }
    }

    /// A reply of this kind with the next number.
    fn numbered(size: usize, kind: u32, next: u32) -> ReplyNumbers
        ensures { result ≡ numbered_reply size kind next }
    {
        ReplyNumbers {
            next_number: next,
            ..ReplyNumbers::bare(size, kind)
        }
    }

    /// A reply of this kind with an outcome and the next number.
    fn from_outcome(size: usize, kind: u32, outcome: Outcome, next: u32) -> ReplyNumbers
        ensures { result ≡ outcome_reply size kind outcome next }
    {
        ReplyNumbers {
            outcome: code_number(outcome.code),
            entry: number_or_none(outcome.entry),
            ..ReplyNumbers::numbered(size, kind, next)
        }
    }

    /// The reply that tells how many options are prepared.
    fn counted(size: usize, count: usize) -> ReplyNumbers
        ensures { result ≡ count_reply size count }
    {
        ReplyNumbers {
            count,
            ..ReplyNumbers::bare(size, REPLY_PREPARED)
        }
    }

    /// The reply that hands out a plan.
    fn from_plan(size: usize, plan: &BootPlan) -> ReplyNumbers
        ensures { result ≡ plan_reply size plan.now }
    {
        ReplyNumbers {
            plan_next: next_number(plan),
            count: choice_count(plan),
            ..ReplyNumbers::bare(size, REPLY_PLAN)
        }
    }

    /// The reply to bytes that aren't a frame, for this.
    fn from_fault(size: usize, fault: &FrameFault) -> ReplyNumbers
        ensures { result ≡ fault_reply size fault.now }
    {
        ReplyNumbers {
            fault: fault_number(fault),
            option_fault: fault_of_option(fault),
            ..ReplyNumbers::bare(size, REPLY_MALFORMED)
        }
    }
}

/// The number of an outcome.
fn code_number(code: Code) -> u32
    ensures { result ≡ code_number code }
{
    match code {
        Code::Done => OUTCOME_DONE,
        Code::Exists => OUTCOME_EXISTS,
        Code::Missing => OUTCOME_MISSING,
        Code::OrderRepeats => OUTCOME_ORDER_REPEATS,
        Code::OrderUnknown => OUTCOME_ORDER_UNKNOWN,
        Code::NoFree => OUTCOME_NO_FREE,
    }
}

/// The number of a frame's fault.
fn fault_number(fault: &FrameFault) -> u32
    ensures { result ≡ fault_number fault.now }
{
    match fault {
        FrameFault::Short { .. } => FRAME_SHORT,
        FrameFault::BadMagic => FRAME_BAD_MAGIC,
        FrameFault::BadVersion => FRAME_BAD_VERSION,
        FrameFault::TooLong => FRAME_TOO_LONG,
        FrameFault::BadSize { .. } => FRAME_BAD_SIZE,
        FrameFault::BadKind => FRAME_BAD_KIND,
        FrameFault::BadNumber => FRAME_BAD_NUMBER,
        FrameFault::BadPayload => FRAME_BAD_PAYLOAD,
        FrameFault::Option(_) => FRAME_OPTION,
        FrameFault::OutOfMemory => NO_KIND,
    }
}

/// What is told of the option of a frame with this fault.
fn fault_of_option(fault: &FrameFault) -> Refusal
    ensures { result ≡ fault_of_option fault.now }
{
    match fault {
        FrameFault::Option(why) => told_of(Failure::from(*why)),
        FrameFault::Short { .. }
        | FrameFault::BadMagic
        | FrameFault::BadVersion
        | FrameFault::TooLong
        | FrameFault::BadSize { .. }
        | FrameFault::BadKind
        | FrameFault::BadNumber
        | FrameFault::BadPayload
        | FrameFault::OutOfMemory => NO_REFUSAL,
    }
}

/// What is told of a failure.
fn told_of(failure: Failure) -> Refusal
    ensures { result ≡ told_of failure }
{
    match failure {
        Failure::Refused(told) => told,
        Failure::Memory => NO_REFUSAL,
    }
}

/// The number of the option that the plan tries first, or what stands for none.
fn next_number(plan: &BootPlan) -> u32
    ensures { result ≡ next_number plan.now }
{
    match plan.next() {
        Some(choice) => u32::from(choice.number),
        None => NO_ENTRY,
    }
}

/// How many options the plan has, BootNext's included.
fn choice_count(plan: &BootPlan) -> usize
    ensures { result ≡ choice_count plan.now }
{
    match plan.next() {
        Some(_) => 1 + plan.normal().len(),
        None => plan.normal().len(),
    }
}

/// The numbers of the normal options of the plan that the reply hands out.
pub(crate) fn planned_numbers(alloc: Global, reply: &Reply) -> Result<Vec<u16>, AllocError>
    ensures { IfOk result (λ numbers. numbers.items ≡ planned_numbers reply.now) }
{
    match reply {
        Reply::Plan(plan) => normal_numbers(alloc, plan),
        Reply::Malformed(_)
        | Reply::Repeat(_)
        | Reply::Old
        | Reply::Ahead(_)
        | Reply::Conflict
        | Reply::Waiting(_)
        | Reply::Applied(..)
        | Reply::Prepared(_)
        | Reply::AlreadyPrepared
        | Reply::NothingPrepared
        | Reply::Restarted(_) => Ok(Vec::new(alloc)),
    }
}

/// The numbers of the normal options of the plan.
fn normal_numbers(alloc: Global, plan: &BootPlan) -> Result<Vec<u16>, AllocError>
    ensures { IfOk result (λ numbers. numbers.items ≡ normal_numbers plan.now) }
{
    let choices = plan.normal();
    let mut numbers = Vec::with_capacity(alloc, choices.len())?;
    for choice in choices {
        numbers.push(choice.number)?;
    }
    Ok(numbers)
}
