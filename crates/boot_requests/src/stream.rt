//! Streams: frames, one after the other.

ghost use Rattle.std.specs.Prelude.{◌≡◌, ◌≢◌, ℕ, ◌+◌, ◌<◌, ◌^◌, List, length, map, Some, Err, IfOk, IfErr, MatchResult};
ghost use Rattle.std.specs.List.{AllByRecursion, flat_map};
ghost use Rattle.uefi_path.specs.Answer.{IsUnless};
ghost use Rattle.boot_requests.specs.declared.event.Event.{Event};
ghost use Rattle.boot_requests.specs.declared.script_fault.ScriptFault.{ScriptFault};
ghost use Rattle.boot_requests.specs.Limits.{payload_max};
ghost use Rattle.boot_requests.specs.Seen.{IsEvent};
ghost use Rattle.boot_requests.specs.Stream.{Cut, IsCut};
ghost use Rattle.boot_requests.specs.EventStream.{IsStream, IsStreamFault, EndsIn, frame_offsets, IsStreamList};

use crate::bytes::Bytes;
use crate::event::Event;
use crate::event_list::EventList;
use crate::inbox::Inbox;
use crate::script_fault::ScriptFault;
use std::alloc::{AllocError, Global};

/// The events of a stream, the delivery of each frame, in their order, with the offsets of these frames: up to the
/// first header at fault, or up to what is left of a frame that isn't whole, for the faults of [`read_stream`].
/// Whether the bytes that are cut are a frame is found when they are delivered.
///
/// # Errors
///
/// [`AllocError`] if memory was refused.
pub fn stream_events(alloc: Global, stream: &[u8]) -> Result<EventList, AllocError>
    ensures list { IfOk result (λ list.
        IsStreamList stream.now list.events.items list.places.items list.end list.fault) }
    // What is left of a frame is less than the longest one.
    ensures rest { IfOk result (λ list. (count : ℕ) → list.fault ≡ Some (ScriptFault.Rest count) →
        count < 12 + payload_max) }
    ensures valid { IfOk result (λ list. AllByRecursion IsEvent list.events.items) }
{
    let (frames, fault) = cut(alloc, stream)?;
    let (places, end) = offsets(alloc, &frames)?;
    let events = deliveries(alloc, frames)?;
    Ok(EventList {
        events,
        places,
        end,
        fault,
    })
}

/// The events of a stream: the delivery of each frame, in their order. Whether the bytes that are cut are a frame is
/// found when they are delivered.
///
/// # Errors
///
/// [`ScriptFault::Stream`] with the fault of the first header that has one; otherwise [`ScriptFault::Rest`] with the
/// number of bytes that are left after the last frame, if there are some. [`ScriptFault::OutOfMemory`] if memory was
/// refused, which may come before these.
pub fn read_stream(alloc: Global, stream: &[u8]) -> Result<Vec<Event>, ScriptFault>
    ensures found { IfOk result (λ events. IsStream stream.now events.items) }
    ensures only { (events : List Event) → IsStream stream.now events → MatchResult result
        (λ found. found.items ≡ events)
        (λ fault. fault ≡ ScriptFault.OutOfMemory) }
    ensures fault { IfErr result (λ fault.
        fault ≢ ScriptFault.OutOfMemory → IsStreamFault stream.now fault) }
    ensures only_fault { (fault : ScriptFault) → IsStreamFault stream.now fault →
        IsUnless result (Err fault) ScriptFault.OutOfMemory }
    // What is left of a frame is less than the longest one.
    ensures rest { IfErr result (λ fault. (count : ℕ) → fault ≡ ScriptFault.Rest count → count < 12 + payload_max) }
    ensures valid { IfOk result (λ events. AllByRecursion IsEvent events.items) }
{
    let list = stream_events(alloc, stream)?;
    list.into_events()
}

/// The bytes of each frame of a stream, and the fault behind them, if there is one.
fn cut(alloc: Global, stream: &[u8]) -> Result<(Vec<Bytes>, Option<ScriptFault>), AllocError>
    ensures cut { IfOk result (λ found.
        (cut : Cut) × IsCut stream.now cut × (cut.deliveries ≡ found.0.items) × EndsIn cut found.1) }
    ensures rest { IfOk result (λ found. (count : ℕ) → found.1 ≡ Some (ScriptFault.Rest count) →
        count < 12 + payload_max) }
{
    let mut inbox = Inbox::new(alloc);
    let mut frames = Vec::new(alloc);
    match inbox.feed(stream, &mut frames) {
        Ok(()) => match inbox.held() {
            0 => Ok((frames, None)),
            count => Ok((frames, Some(ScriptFault::Rest(count)))),
        },
        Err(fault) => match ScriptFault::from(fault) {
            ScriptFault::OutOfMemory => Err(AllocError),
            fault => Ok((frames, Some(fault))),
        },
    }
}

/// The offset of each of the frames, and that of their end.
fn offsets(alloc: Global, frames: &[Bytes]) -> Result<(Vec<usize>, usize), AllocError>
    requires { length (flat_map (λ frame. frame) frames.now) < 2 ^ 64 }
    ensures places { IfOk result (λ found. found.0.items ≡ frame_offsets 0 frames.now) }
    ensures end { IfOk result (λ found. found.1 ≡ length (flat_map (λ frame. frame) frames.now)) }
{
    let mut places = Vec::with_capacity(alloc, frames.len())?;
    let mut end = 0usize;
    for frame in frames {
        places.push(end)?;
        end += frame.bytes().len();
    }
    Ok((places, end))
}

/// The delivery of each of the frames.
fn deliveries(alloc: Global, frames: Vec<Bytes>) -> Result<Vec<Event>, AllocError>
    ensures { IfOk result (λ events.
        events.items ≡ map (λ frame. Event.Deliver frame) frames.items) }
{
    let mut events = Vec::with_capacity(alloc, frames.len())?;
    for frame in frames {
        events.push(Event::Deliver(frame))?;
    }
    Ok(events)
}
