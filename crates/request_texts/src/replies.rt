//! Replies to requests, as `bootvars update` prints them in JSON.

use crate::event_position::EventPosition;
use crate::frame_reason::frame_words;
use boot_requests::{Answer, Outcome, Reply};
use std::alloc::{AllocError, Global};
use uefi_vars::{BootPlan, EntryDigits, PlanNumbers};
use value_texts::json::{
    JsonObject, JsonWriter, Leaf, append_leaf, append_leaves, append_object, append_objects,
    json_line,
};
use value_texts::shown_plan;

/// An answer to an event, and what is told besides.
#[derive(Clone, Copy, Debug)]
pub struct ToldReply<'a> {
    /// Where the event is.
    pub place: EventPosition,
    /// The answer.
    pub answer: &'a Answer,
    /// Of a repeat, whether the frame is the one that was applied under its number, if that is known.
    pub same: Option<bool>,
    /// The next number after the event, which the answer may tell too.
    pub next: u32,
    /// The entries that the update left in no order, if this is its last reply.
    pub unnamed: Option<&'a [u16]>,
    /// The identity of the journal, if it has one.
    pub journal: Option<&'a str>,
}

/// A reply as it is shown: as an object of JSON with the members that [`reply_json`] has.
#[derive(Drop)]
pub struct ShownReply<'a> {
    /// Where the event is.
    place: EventPosition,
    /// The number of the request, if the event is one.
    request: Option<u32>,
    /// What the reply is.
    reply: &'static str,
    /// What came of the request, if it is told.
    outcome: Option<&'static str>,
    /// Whether the frame is the one that was applied under the number, if that is known.
    same: Option<bool>,
    /// The entry under which an AddFree or an AddFirst stored its option, if it is told.
    entry: Option<EntryDigits>,
    /// The next number.
    next: u32,
    /// What had waited and was applied right after the request, in the order of the numbers.
    followers: Vec<Follower>,
    /// Why what was delivered is no frame.
    fault: Option<String>,
    /// The same in plain words.
    reason: Option<&'static str>,
    /// How many options the plan has that is prepared.
    options: Option<usize>,
    /// The plan that is handed out.
    plan: Option<PlanNumbers>,
    /// The entries that the update left in no order, if this is its last reply.
    unnamed: Option<Vec<u16>>,
    /// The identity of the journal, if it has one.
    journal: Option<&'a str>,
}

/// A request that had waited and was applied right after another one.
#[derive(Drop)]
struct Follower {
    /// Its number.
    request: u32,
    /// What came of it.
    outcome: &'static str,
    /// The entry under which an AddFree or an AddFirst stored its option.
    entry: Option<EntryDigits>,
}

impl JsonObject for ShownReply<'_> {
    fn append_members(&self, out: &mut JsonWriter) -> Result<(), AllocError> {
        self.place.append_members(out)?;
        self.append_reply(out)?;
        append_objects("followers", &self.followers, out)?;
        append_leaves(
            &[
                ("fault", Leaf::Text(self.fault.as_deref())),
                ("reason", Leaf::Word(self.reason)),
                ("options", Leaf::Count(self.options)),
            ],
            out,
        )?;
        append_object("plan", shown_plan(&self.plan).as_ref(), out)?;
        append_leaves(
            &[
                ("unnamed", Leaf::Numbers(self.unnamed.as_deref())),
                ("journal", Leaf::Text(self.journal)),
            ],
            out,
        )
    }
}

impl JsonObject for Follower {
    fn append_members(&self, out: &mut JsonWriter) -> Result<(), AllocError> {
        append_leaves(
            &[
                ("request", Leaf::Number(Some(self.request))),
                ("outcome", Leaf::Word(Some(self.outcome))),
                ("entry", Leaf::Entry(self.entry)),
            ],
            out,
        )
    }
}

/// Shows an answer as JSON, an object on one line that ends with a line feed. Its followers are the outcomes of the requests
/// that had waited and were applied right after the event's own, of which the last is the one below the next number. The
/// last reply of an update also has the entries that the update left in no order ([`naming_change`](uefi_vars::naming_change)).
/// docs/formats.md has each member.
///
/// # Errors
///
/// [`AllocError`] if memory was refused.
pub fn reply_json(alloc: Global, told: &ToldReply<'_>) -> Result<String, AllocError> {
    json_line(alloc, &ShownReply::new(alloc, told)?)
}

impl<'a> ShownReply<'a> {
    /// What is shown of the answer.
    ///
    /// # Errors
    ///
    /// [`AllocError`] if memory was refused.
    pub fn new(alloc: Global, told: &ToldReply<'a>) -> Result<ShownReply<'a>, AllocError> {
        let ToldReply {
            place,
            answer,
            same,
            next,
            unnamed,
            journal,
        } = *told;
        let reply = &answer.reply;
        Ok(ShownReply {
            place,
            request: answer.request,
            reply: name_of(reply),
            outcome: outcome_of(reply).map(|outcome| outcome.code.name()),
            same,
            entry: outcome_of(reply).and_then(entry_of),
            next,
            followers: shown_followers(alloc, next, &answer.followers)?,
            fault: fault_of(alloc, reply)?,
            reason: reason_of(reply),
            options: options_of(reply),
            plan: plan_of(alloc, reply)?,
            unnamed: match unnamed {
                Some(entries) => Some(Vec::from_slice(alloc, entries)?),
                None => None,
            },
            journal,
        })
    }

    /// Appends what the reply is, and what it tells in numbers and words.
    fn append_reply(&self, out: &mut JsonWriter) -> Result<(), AllocError> {
        append_leaves(
            &[
                ("request", Leaf::Number(self.request)),
                ("reply", Leaf::Word(Some(self.reply))),
                ("outcome", Leaf::Word(self.outcome)),
                ("same", Leaf::Flag(self.same)),
                ("entry", Leaf::Entry(self.entry)),
                ("next", Leaf::Number(Some(self.next))),
            ],
            out,
        )
    }
}

/// What the reply is.
fn name_of(reply: &Reply) -> &'static str {
    match reply {
        Reply::Malformed(_) => "malformed",
        Reply::Repeat(_) => "repeat",
        Reply::Old => "old",
        Reply::Ahead(_) => "ahead",
        Reply::Conflict => "conflict",
        Reply::Waiting(_) => "waiting",
        Reply::Applied(_, _) => "applied",
        Reply::Prepared(_) => "prepared",
        Reply::AlreadyPrepared => "already-prepared",
        Reply::Plan(_) => "plan",
        Reply::NothingPrepared => "nothing-prepared",
        Reply::Restarted(_) => "restarted",
    }
}

/// The outcome that the reply tells.
fn outcome_of(reply: &Reply) -> Option<Outcome> {
    match reply {
        Reply::Repeat(outcome) | Reply::Applied(outcome, _) => Some(*outcome),
        _ => None,
    }
}

/// The entry that the outcome tells.
fn entry_of(outcome: Outcome) -> Option<EntryDigits> {
    outcome.entry.map(EntryDigits)
}

/// Why what was delivered is no frame.
fn fault_of(alloc: Global, reply: &Reply) -> Result<Option<String>, AllocError> {
    match reply {
        Reply::Malformed(fault) => Ok(Some(fault.words(alloc)?)),
        _ => Ok(None),
    }
}

/// The same in plain words.
fn reason_of(reply: &Reply) -> Option<&'static str> {
    match reply {
        Reply::Malformed(fault) => Some(frame_words(fault)),
        _ => None,
    }
}

/// How many options the plan has that is prepared.
fn options_of(reply: &Reply) -> Option<usize> {
    match reply {
        Reply::Prepared(count) => Some(*count),
        _ => None,
    }
}

/// The numbers of the plan that is handed out.
fn plan_of(alloc: Global, reply: &Reply) -> Result<Option<PlanNumbers>, AllocError> {
    match reply {
        Reply::Plan(plan) => Ok(Some(numbers_of(alloc, plan)?)),
        _ => Ok(None),
    }
}

/// What is shown of requests with these outcomes, whose numbers are those right below the next one.
fn shown_followers(
    alloc: Global,
    next: u32,
    outcomes: &[Outcome],
) -> Result<Vec<Follower>, AllocError> {
    let len = u32::try_from(outcomes.len()).unwrap_or(u32::MAX);
    let mut request = next.saturating_sub(len);
    let mut shown = Vec::with_capacity(alloc, outcomes.len())?;
    for outcome in outcomes {
        shown.push(Follower {
            request,
            outcome: outcome.code.name(),
            entry: entry_of(*outcome),
        })?;
        request = request.saturating_add(1);
    }
    Ok(shown)
}

/// The numbers of a plan.
fn numbers_of(alloc: Global, plan: &BootPlan) -> Result<PlanNumbers, AllocError> {
    let mut normal = Vec::with_capacity(alloc, plan.normal().len())?;
    for choice in plan.normal() {
        normal.push(choice.number)?;
    }
    Ok(PlanNumbers {
        next: plan.next().map(|choice| choice.number),
        normal,
    })
}
