//! Events of keepers whose replies are told as values.

ghost use Rattle.std.specs.Prelude.{◌≡◌, ◌≢◌, Some, IfOk};
ghost use Rattle.boot_requests.specs.declared.event.Event.{Event};
ghost use Rattle.bootkeep_c.specs.Status.{done};
ghost use Rattle.bootkeep_c.specs.Steps.{StepsTo};
ghost use Rattle.bootkeep_c.specs.Replies.{reply_numbers, planned_numbers, RepliesOf};

use crate::buffer::give;
use crate::handle::KeeperHandle;
use crate::keeper::go_on;
use crate::reply::{REPLY_LEN, ReplyNumbers, planned_numbers};
use crate::status::{BAD_SIZE, CLOSED, DONE, NO_MEMORY};
use boot_requests::{Bytes, Event, Keeper, Reply};
use std::alloc::{AllocError, Global};

/// These bytes are delivered to the keeper, which may be a frame, and the reply is told as a value.
#[unsafe(no_mangle)]
pub extern "C" fn bootkeep_keeper_deliver_reply(
    alloc: Global,
    keeper: &mut KeeperHandle,
    frame: &[u8],
    reply: &mut ReplyNumbers,
    numbers: &mut [u16],
    len: &mut usize,
) -> u32
    ensures event { RepliesOf (Event.Deliver frame.now) result keeper.old.seal.kept keeper.new.seal.kept
        numbers.old numbers.new len.old len.new reply.old reply.new }
{
    if reply.size < REPLY_LEN {
        return BAD_SIZE;
    }
    if keeper.is_open == 0 {
        return CLOSED;
    }
    let Ok(bytes) = Vec::from_slice(alloc, frame) else {
        return NO_MEMORY;
    };
    take_reply(
        alloc,
        keeper,
        &Event::Deliver(Bytes::new(bytes)),
        reply,
        numbers,
        len,
    )
}

/// A boot is prepared, and the reply is told as a value.
#[unsafe(no_mangle)]
pub extern "C" fn bootkeep_keeper_prepare_reply(
    alloc: Global,
    keeper: &mut KeeperHandle,
    reply: &mut ReplyNumbers,
    numbers: &mut [u16],
    len: &mut usize,
) -> u32
    ensures event { RepliesOf Event.Prepare result keeper.old.seal.kept keeper.new.seal.kept
        numbers.old numbers.new len.old len.new reply.old reply.new }
{
    take_reply(alloc, keeper, &Event::Prepare, reply, numbers, len)
}

/// The plan that is prepared is handed out, and the reply is told as a value.
#[unsafe(no_mangle)]
pub extern "C" fn bootkeep_keeper_hand_reply(
    alloc: Global,
    keeper: &mut KeeperHandle,
    reply: &mut ReplyNumbers,
    numbers: &mut [u16],
    len: &mut usize,
) -> u32
    ensures event { RepliesOf Event.Hand result keeper.old.seal.kept keeper.new.seal.kept
        numbers.old numbers.new len.old len.new reply.old reply.new }
{
    take_reply(alloc, keeper, &Event::Hand, reply, numbers, len)
}

/// The keeper starts again, and the reply is told as a value.
#[unsafe(no_mangle)]
pub extern "C" fn bootkeep_keeper_restart_reply(
    alloc: Global,
    keeper: &mut KeeperHandle,
    reply: &mut ReplyNumbers,
    numbers: &mut [u16],
    len: &mut usize,
) -> u32
    ensures event { RepliesOf Event.Restart result keeper.old.seal.kept keeper.new.seal.kept
        numbers.old numbers.new len.old len.new reply.old reply.new }
{
    take_reply(alloc, keeper, &Event::Restart, reply, numbers, len)
}

/// The keeper takes the event, if it is open, and there is room for the numbers of the reply.
fn take_reply(
    alloc: Global,
    keeper: &mut KeeperHandle,
    event: &Event,
    reply: &mut ReplyNumbers,
    numbers: &mut [u16],
    len: &mut usize,
) -> u32
    ensures { RepliesOf event.now result keeper.old.seal.kept keeper.new.seal.kept
        numbers.old numbers.new len.old len.new reply.old reply.new }
{
    if reply.size < REPLY_LEN {
        return BAD_SIZE;
    }
    let Some(open) = keeper.take(alloc) else {
        return CLOSED;
    };
    let (open, status) = replied(alloc, open, event, reply, numbers, len);
    *keeper = KeeperHandle::opened(open);
    status
}

/// The keeper after the event, if it happens, and otherwise the keeper as it was; and the status.
fn replied(
    alloc: Global,
    keeper: Box<Keeper>,
    event: &Event,
    reply: &mut ReplyNumbers,
    numbers: &mut [u16],
    len: &mut usize,
) -> (Box<Keeper>, u32)
    ensures { RepliesOf event.now result.1 (Some keeper.value) (Some result.0.value)
        numbers.old numbers.new len.old len.new reply.old reply.new }
{
    let mut keeper = keeper;
    let Ok((next, answer, planned)) = stepped(alloc, keeper.as_ref(), event) else {
        return (keeper, NO_MEMORY);
    };
    let status = give(&planned, numbers, len);
    tell_reply(&answer, status, reply);
    go_on(&mut keeper, next, status);
    (keeper, status)
}

/// Tells the reply, if its numbers were given.
fn tell_reply(answer: &Reply, status: u32, reply: &mut ReplyNumbers)
    ensures given { status ≡ done → reply.new ≡ reply_numbers reply.old.size answer.now }
    ensures otherwise { status ≢ done → reply.new ≡ reply.old }
{
    if status == DONE {
        *reply = ReplyNumbers::of(reply.size, answer);
    }
}

/// The keeper after the event, the reply, and the numbers of the plan that this hands out.
fn stepped(
    alloc: Global,
    keeper: &Keeper,
    event: &Event,
) -> Result<(Keeper, Reply, Vec<u16>), AllocError>
    ensures { IfOk result (λ answer. StepsTo keeper.now event.now answer.0 answer.1
        × (answer.2.items ≡ planned_numbers answer.1)) }
{
    let (after, reply) = keeper.step(alloc, event)?;
    let planned = planned_numbers(alloc, &reply)?;
    Ok((after, reply, planned))
}
