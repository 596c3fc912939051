//! C's handle of a command over a machine.

ghost use Rattle.std.specs.Prelude.{◌≡◌, Option, Some, None, IsSome};
ghost use Rattle.std.specs.Option.{option_map};
ghost use Rattle.bootkeep_c.specs.declared.session.Session.{Session};
ghost use Rattle.bootkeep_c.specs.SessionHandle.{session_seal_owns, session_coded, session_number};

use crate::handle::parts::Parts;
use crate::session::Session;
use std::alloc::Global;
use std::marker::Model;
use std::{mem, ptr};

/// The pointer of a handle, which owns the session in its box, or nothing if the handle is closed. What it owns is told
/// by the handle alone, so it is never dropped by itself. To C it is a pointer to some bytes.
#[repr(C)]
pub struct SessionSeal {
    at: *mut u8,
    alloc: Global,
    pub ghost kept: { Option Session } by { session_coded },
}

impl Model for SessionSeal {
    ghost also_owns = { λ seal. session_seal_owns seal.alloc seal.at seal.kept };
}

impl SessionSeal {
    /// A pointer that owns nothing.
    fn empty(alloc: Global) -> SessionSeal
        ensures { result.kept ≡ None }
    {
        SessionSeal {
            at: ptr::null_mut(),
            alloc,
        }
    }

    /// The pointer that owns what these parts own.
    fn from_parts(parts: Parts<Session, Global>) -> SessionSeal
        ensures { result.kept ≡ Some parts.value }
    {
        let Parts { ptr, alloc } = parts;
        SessionSeal {
            at: ptr as *mut u8,
            alloc,
        }
    }

    /// The parts that own what this pointer owns.
    fn into_parts(self) -> Parts<Session, Global>
        requires { IsSome self.kept }
        ensures { self.kept ≡ Some result.value }
    {
        let SessionSeal { at, alloc } = self;
        Parts {
            ptr: at as *mut Session,
            alloc,
        }
    }

    /// Gives up a pointer that owns nothing.
    fn forget(self)
        requires { self.kept ≡ None }
    {
        let SessionSeal { at: _, alloc: _ } = self;
    }
}

/// C's handle of a command over a machine: `struct bootkeep_moves`. Zeroed, it is closed.
#[repr(C)]
pub struct MovesHandle {
    /// 1 if a command is open, and 0 if not.
    pub(crate) is_open: u32,
    pub(crate) seal: SessionSeal,
    pub ghost tells: { is_open ≡ session_number seal.kept },
}

// As many bytes as the header asserts.
const _: () = prove!(size_of::<MovesHandle>() == 16);

impl MovesHandle {
    /// A closed handle.
    pub(crate) fn closed(alloc: Global) -> MovesHandle
        ensures { result.seal.kept ≡ None }
    {
        MovesHandle {
            is_open: 0,
            seal: SessionSeal::empty(alloc),
        }
    }

    /// The handle of this session.
    pub(crate) fn opened(session: Box<Session>) -> MovesHandle
        ensures { result.seal.kept ≡ Some session.value }
    {
        MovesHandle {
            is_open: 1,
            seal: SessionSeal::from_parts(Parts::of(session)),
        }
    }

    /// The session of this handle, if it is open.
    fn into_session(self) -> Option<Box<Session>>
        ensures { option_map (λ session. session.value) result ≡ self.seal.kept }
    {
        let MovesHandle { is_open, seal } = self;
        if is_open == 0 {
            seal.forget();
            return None;
        }
        Some(seal.into_parts().into_box())
    }

    /// What the handle is in memory.
    fn into_room(self) -> MovesRoom
        ensures kept { result.seal.kept ≡ self.seal.kept }
        ensures is_open { result.is_open ≡ session_number self.seal.kept }
    {
        let MovesHandle { is_open, seal } = self;
        MovesRoom { is_open, seal }
    }

    /// Takes the session out, if the handle is open. It is closed then.
    pub(crate) fn take(&mut self, alloc: Global) -> Option<Box<Session>>
        ensures taken { option_map (λ session. session.value) result ≡ self.old.seal.kept }
        ensures left { self.new.seal.kept ≡ None }
    {
        mem::replace(self, MovesHandle::closed(alloc)).into_session()
    }
}

/// Memory for a handle of a command, which may never have been written: it is `struct bootkeep_moves` too.
#[repr(C)]
pub struct MovesRoom {
    pub(crate) is_open: u32,
    pub(crate) seal: SessionSeal,
}

// As many bytes as the handle.
const _: () = prove!(size_of::<MovesRoom>() == 16);

impl MovesRoom {
    /// Writes the handle here, over what owns nothing.
    pub(crate) fn fill(&mut self, handle: MovesHandle)
        requires { self.old.seal.kept ≡ None }
        ensures kept { self.new.seal.kept ≡ handle.seal.kept }
        ensures is_open { self.new.is_open ≡ session_number handle.seal.kept }
    {
        let MovesRoom { is_open: _, seal } = mem::replace(self, handle.into_room());
        seal.forget();
    }
}

impl Drop for MovesHandle {
    fn drop(self) {
        drop(self.into_session());
    }
}
