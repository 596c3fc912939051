//! What a keeper answers to events that it takes one after the other.

ghost use Rattle.std.specs.Prelude.{◌≡◌, ◌+◌, ◌<◌, ◌≤◌, ◌++◌, ℕ, List, [], ◌∷◌, IfOk, OnOk, IsSome};
ghost use Rattle.std.specs.List.{AllByRecursion};
ghost use Rattle.std.specs.String.{string_bytes};
ghost use Rattle.boot_requests.specs.declared.reply.Reply.{Reply};
ghost use Rattle.boot_requests.specs.Answer.{kept_outcome};
ghost use Rattle.boot_requests.specs.Seen.{Seen, IsEvent, IsSeen};
ghost use Rattle.boot_requests.specs.Turn.{Plain, Turn};
ghost use Rattle.boot_requests.specs.Followers.{AreThere, AreOutcomes, AreFollowers, request_of, is_malformed};
ghost use Rattle.boot_requests.specs.Answering.{IsAnswered, AreAnswered, AreReplied};
ghost use Rattle.boot_requests.specs.Happens.{answer_lines};

use crate::event::Event;
use crate::keeper::Keeper;
use crate::laws;
use crate::line::append_reply_line;
use crate::outcome::Outcome;
use crate::reader::header_number;
use crate::reply::Reply;
use crate::runs::{look_at_each, next_reply};
use std::alloc::{AllocError, Global};

/// The answer to an event: the reply, the number of the request that came, and what came of the requests that had
/// waited and were applied with it.
#[derive(Debug, PartialEq, Drop)]
pub struct Answer {
    /// The number of the request, if what was delivered is a frame.
    pub request: Option<u32>,
    /// The reply.
    pub reply: Reply,
    /// If the reply is [`Reply::Applied`]: the outcomes of the requests that had waited and were applied right after
    /// the event's own, in the order of their numbers. The first is that of the number above the event's own, and the
    /// last that of the number below the next one, which the reply tells. Of any other reply none.
    pub followers: Vec<Outcome>,
}

/// The keeper after these events, and the answer to each, in their order. The keeper takes them one by one, as
/// [`run`](crate::run) does, since it has the outcomes of the last requests alone. The variables aren't copied.
///
/// # Errors
///
/// [`AllocError`] if memory was refused. The keeper is given up.
pub fn answer_events(
    alloc: Global,
    keeper: Keeper,
    events: &[Event],
) -> Result<(Keeper, Vec<Answer>), AllocError>
    ensures answered { IfOk result (λ done. AreAnswered keeper events.now done.0 done.1.items) }
    ensures valid { AllByRecursion IsEvent events.now }
{
    laws::each_event_is_seen();
    look_at_each(events);
    let mut now = keeper;
    let mut answers = Vec::new(alloc);
    for event in events {
        let answer = answer_event(alloc, &mut now, event)?;
        answers.push(answer)?;
    }
    Ok((now, answers))
}

/// The keeper after these events, as [`answer_events`] has it, and the line of each reply, that of
/// [`reply_line`](crate::reply_line) and a line feed. Each event is answered before the next one is taken, and only
/// the line of its reply is kept: a plan holds its options, and its line only their numbers.
///
/// # Errors
///
/// [`AllocError`] if memory was refused. The keeper is given up.
pub fn answer_lines(
    alloc: Global,
    keeper: Keeper,
    events: &[Event],
) -> Result<(Keeper, String), AllocError>
    ensures answered { IfOk result (λ done. (replies : List Reply) × AreReplied keeper events.now done.0 replies
        × (string_bytes done.1 ≡ answer_lines replies)) }
    ensures valid { AllByRecursion IsEvent events.now }
{
    laws::each_event_is_seen();
    look_at_each(events);
    let mut now = keeper;
    let mut lines = String::new(alloc);
    for event in events {
        let reply = next_reply(alloc, &mut now, event)?;
        append_reply_line(alloc, &reply, &mut lines)?;
    }
    Ok((now, lines))
}

/// The keeper takes this event, and the answer to it is given.
fn answer_event(alloc: Global, keeper: &mut Keeper, event: &Event) -> Result<Answer, AllocError>
    ensures { IfOk result (λ answer. IsAnswered keeper.old event.now keeper.new answer) }
{
    laws::each_event_is_seen();
    let number = keeper.next_number();
    let reply = next_reply(alloc, keeper, event)?;
    let followers = followers(alloc, keeper, number, &reply)?;
    let request = request_of(event, &reply);
    Ok(Answer {
        request,
        reply,
        followers,
    })
}

/// The number of the request that the event delivers, if it has this reply: what is malformed is none.
fn request_of(event: &Event, reply: &Reply) -> Option<u32>
    ensures { (from to : Plain) (seen : Seen) → IsSeen event.now seen → Turn from seen to reply.now →
        result ≡ request_of seen }
{
    if is_malformed(reply) {
        return None;
    }
    match event {
        Event::Deliver(bytes) => header_number(bytes.bytes()),
        Event::Prepare | Event::Hand | Event::Restart => None,
    }
}

/// Whether what was delivered isn't a frame.
fn is_malformed(reply: &Reply) -> bool
    ensures { result ≡ is_malformed reply.now }
{
    matches!(reply, Reply::Malformed(_))
}

/// The outcomes of what was applied after the request of this number, which was the next one before the reply.
fn followers(
    alloc: Global,
    keeper: &Keeper,
    number: u32,
    reply: &Reply,
) -> Result<Vec<Outcome>, AllocError>
    requires { AreThere number keeper.now.state reply.now }
    ensures { IfOk result (λ followers. AreFollowers number keeper.now.state reply.now followers.items) }
{
    match *reply {
        Reply::Applied(_, next) => outcomes(alloc, keeper, number + 1, next),
        _ => Ok(Vec::new(alloc)),
    }
}

/// The outcomes that the keeper has of the requests from the first number on to the one below the next.
fn outcomes(
    alloc: Global,
    keeper: &Keeper,
    first: u32,
    next: u32,
) -> Result<Vec<Outcome>, AllocError>
    requires order { first ≤ next }
    requires kept { (number : ℕ) → first ≤ number → number < next → IsSome (kept_outcome keeper.now.state number) }
    ensures { IfOk result (λ outcomes. AreOutcomes keeper.now.state first next outcomes.items) }
{
    let mut outcomes = Vec::new(alloc);
    for number in first..next {
        let Some(outcome) = keeper.outcome(number) else {
            unreachable!();
        };
        outcomes.push(outcome)?;
    }
    Ok(outcomes)
}
