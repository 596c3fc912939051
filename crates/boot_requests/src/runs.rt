//! Events one after the other.

ghost use Rattle.std.specs.Prelude.{◌≡◌, ◌<◌, ◌+◌, List, [], ◌∷◌, ◌++◌, length, take, drop, IsTrue, IfOk, OnOk, OnErr, false};
ghost use Rattle.std.specs.List.{AllByRecursion};
ghost use Rattle.boot_requests.specs.declared.reply.Reply.{Reply};
ghost use Rattle.boot_requests.specs.State.{State};
ghost use Rattle.boot_requests.specs.Seen.{Seen, IsEvent, IsSeen, AreSeen};
ghost use Rattle.boot_requests.specs.Run.{run_followed_by};
ghost use Rattle.boot_requests.specs.Reply.{AreAnswers};
ghost use Rattle.boot_requests.specs.Turn.{Turn, Turns};
ghost use Rattle.boot_requests.specs.Keeper.{StandsFor};

use crate::event::Event;
use crate::keeper::Keeper;
use crate::reply::Reply;
use std::alloc::{AllocError, Global};

/// The keeper after these events, one after the other, as [`Keeper::step`] has it. The reply to each is appended to
/// those that are there. False says that memory was refused: the keeper is then the one after the first of the events,
/// as many as replies were appended. The variables aren't copied: what an event changes of them is gathered first, and
/// then made.
pub fn run(
    alloc: Global,
    keeper: Keeper,
    events: &[Event],
    replies: &mut Vec<Reply>,
) -> (Keeper, bool)
    // What was there stays, and after it is one reply for each of the first events: all of them, or fewer if memory was
    // refused.
    ensures kept { replies.new.items
        ≡ replies.old.items ++ drop (length replies.old.items) replies.new.items }
    ensures whole { IsTrue result.1 →
        length replies.new.items ≡ length replies.old.items + length events.now }
    ensures cut { result.1 ≡ false →
        length replies.new.items < length replies.old.items + length events.now }
    // The table of turns.
    ensures turns { let answers = drop (length replies.old.items) replies.new.items in
        (seen : List Seen) → AreSeen (take (length answers) events.now) seen →
        Turns keeper seen result.0 answers }
    // From a keeper that stands for a run, to one that stands for it and the events, with the replies of the run.
    ensures run { let answers = drop (length replies.old.items) replies.new.items in
        (start : State) (before seen : List Seen) → StandsFor keeper start before →
        AreSeen (take (length answers) events.now) seen →
        StandsFor result.0 start (run_followed_by before seen) × AreAnswers start before seen answers }
    // So each event can be read in some way.
    ensures valid { AllByRecursion IsEvent events.now }
{
    look_at_each(events);
    let mut now = keeper;
    for event in events {
        let Ok(()) = take_event(alloc, &mut now, event, replies) else {
            return (now, false);
        };
    }
    (now, true)
}

/// The keeper takes this event, and the reply is appended. If memory is refused, nothing changes. The keeper is lent
/// and not handed on: it is large, and an event changes little of it.
fn take_event(
    alloc: Global,
    keeper: &mut Keeper,
    event: &Event,
    replies: &mut Vec<Reply>,
) -> Result<(), AllocError>
    ensures taken { OnOk result ((answer : Reply)
        × (replies.new.items ≡ replies.old.items ++ answer ∷ [])
        × ((seen : Seen) → IsSeen event.now seen → Turn keeper.old seen keeper.new answer)) }
    ensures refused { OnErr result
        ((replies.new.items ≡ replies.old.items) × (keeper.new ≡ keeper.old)) }
{
    let (update, reply) = keeper.take_turn(alloc, event)?;
    replies.reserve(1)?;
    keeper.update(update)?;
    replies.push_reserved(reply);
    Ok(())
}

/// The keeper takes this event, and the reply is given. If memory is refused, nothing changes.
pub(crate) fn next_reply(
    alloc: Global,
    keeper: &mut Keeper,
    event: &Event,
) -> Result<Reply, AllocError>
    ensures turn { IfOk result (λ reply. (seen : Seen) → IsSeen event.now seen →
        Turn keeper.old seen keeper.new reply) }
    ensures unchanged { OnErr result (keeper.new ≡ keeper.old) }
    ensures valid { IsEvent event.now }
{
    let (update, reply) = keeper.take_turn(alloc, event)?;
    keeper.update(update)?;
    Ok(reply)
}

/// Looks at each event, for the contract alone: what a value's type keeps is known where the value is looked at.
pub(crate) fn look_at_each(events: &[Event])
    ensures { AllByRecursion IsEvent events.now }
{
    for event in events {
        event.look();
    }
}
