//! A slot of the window.

ghost use Rattle.std.specs.Prelude.{◌≡◌, Some, None, is_some, option_copied, IfOk};

use crate::request::Request;
use std::alloc::AllocError;
use std::marker::Model;
use std::rc::Rc;

/// A request that waits, which copies of the slot share, or none. The request is never written into.
#[derive(Debug, Drop)]
pub(crate) struct Slot {
    request: Option<Rc<Request>>,
}

impl Model for Slot {
    ghost use Rattle.std.specs.Prelude.{Option, option_map};
    ghost use Rattle.boot_requests.specs.declared.request.Request.{Request};

    ghost Value = { Option Request };

    ghost view = { λ slot. option_map (λ request. request.value) slot.request };
}

impl Slot {
    /// Nothing waits.
    pub(crate) fn free() -> Slot
        ensures { result ≡ None }
    {
        Slot { request: None }
    }

    /// This request waits.
    pub(crate) fn taken(request: Rc<Request>) -> Slot
        ensures { result ≡ Some request.value }
    {
        Slot {
            request: Some(request),
        }
    }

    /// The request that waits, if one does.
    pub(crate) fn request(&self) -> Option<&Request>
        ensures { option_copied result ≡ self.now }
    {
        match &self.request {
            Some(request) => Some(request.as_ref()),
            None => None,
        }
    }

    /// Whether a request waits.
    pub(crate) fn is_taken(&self) -> bool
        ensures { result ≡ is_some self.now }
    {
        self.request.is_some()
    }

    /// An equal slot, which shares the request.
    pub(crate) fn copy(&self) -> Result<Slot, AllocError>
        ensures { IfOk result (λ slot. slot ≡ self.now) }
    {
        match &self.request {
            Some(request) => Ok(Slot::taken(request.clone()?)),
            None => Ok(Slot::free()),
        }
    }
}
