//! What happens to a machine.

ghost use Rattle.boot_requests.specs.Seen.{IsEvent};

use crate::bytes::Bytes;

/// What happens to the boot entries of a machine.
#[derive(Debug, PartialEq, Eq, Drop)]
pub enum Event {
    /// These bytes are delivered, which may be a frame.
    Deliver(Bytes),
    /// A boot is prepared: its plan is made, and BootNext is deleted (UEFI 2.10, 3.3).
    Prepare,
    /// The plan that was prepared is handed out, to be booted by.
    Hand,
    /// The program that keeps the entries starts again, from the variables that were kept last.
    Restart,
}

impl Event {
    /// Looks at the event, for the contract alone: what a value's type keeps is known where the value is looked at.
    pub(crate) fn look(&self)
        ensures { IsEvent self.now }
    {
        match self {
            Event::Deliver(bytes) => {
                let _ = bytes.bytes();
            }
            Event::Prepare | Event::Hand | Event::Restart => {}
        }
    }
}
