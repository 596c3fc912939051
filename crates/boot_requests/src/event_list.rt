//! What a script or a stream is read as.

ghost use Rattle.std.specs.Prelude.{◌≡◌, Some, None, IfOk, IfErr};

use crate::event::Event;
use crate::script_fault::ScriptFault;

/// The events of a script or a stream, up to its end or to the first fault, for which nothing of it is to be run.
#[derive(Debug, PartialEq, Drop)]
pub struct EventList {
    /// The events, in their order.
    pub events: Vec<Event>,
    /// Where each of them is: the number of its line, counted from 1, or the offset of its frame, in bytes from 0.
    pub places: Vec<usize>,
    /// Where the first fault is: the number of the bad line, or the offset of the header at fault or of what is left
    /// of a frame. Without a fault, the number of lines, or of bytes.
    pub end: usize,
    /// The first fault, if there is one. It is never [`ScriptFault::OutOfMemory`].
    pub fault: Option<ScriptFault>,
}

impl EventList {
    /// The events alone.
    ///
    /// # Errors
    ///
    /// The fault, if there is one.
    pub fn into_events(self) -> Result<Vec<Event>, ScriptFault>
        ensures events { IfOk result (λ events. (self.fault ≡ None) × (events.items ≡ self.events.items)) }
        ensures fault { IfErr result (λ fault. self.fault ≡ Some fault) }
    {
        match self.fault {
            None => Ok(self.events),
            Some(fault) => Err(fault),
        }
    }
}
