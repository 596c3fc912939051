//! What events are written down as.

ghost use Rattle.std.specs.Prelude.{◌≡◌, IfOk};
ghost use Rattle.std.specs.List.{AllByRecursion};
ghost use Rattle.boot_requests.specs.Seen.{IsEvent};
ghost use Rattle.boot_requests.specs.InputFormat.{IsListIn};

use crate::event_list::EventList;
use crate::script::script_events;
use crate::stream::stream_events;
use std::alloc::{AllocError, Global};

/// What events are read from.
#[derive(Clone, Copy, Debug)]
pub enum InputFormat {
    /// The lines of a script.
    Script,
    /// A stream of frames, each of which is delivered.
    Stream,
}

impl InputFormat {
    /// The events of bytes of this format, each with where it is, up to the first fault: those of [`script_events`] or of
    /// [`stream_events`].
    ///
    /// # Errors
    ///
    /// [`AllocError`] if memory was refused.
    pub fn events(self, alloc: Global, bytes: &[u8]) -> Result<EventList, AllocError>
        ensures list { IfOk result (λ list.
            IsListIn self bytes.now list.events.items list.places.items list.end list.fault) }
        ensures valid { IfOk result (λ list. AllByRecursion IsEvent list.events.items) }
    {
        match self {
            InputFormat::Script => script_events(alloc, bytes),
            InputFormat::Stream => stream_events(alloc, bytes),
        }
    }
}
