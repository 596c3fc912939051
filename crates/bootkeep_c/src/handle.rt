//! C's handle of a keeper.

ghost use Rattle.std.specs.Prelude.{◌≡◌, Option, Some, None, IsSome};
ghost use Rattle.std.specs.Option.{option_map};
ghost use Rattle.boot_requests.specs.Turn.{Plain};
ghost use Rattle.bootkeep_c.specs.Handle.{seal_owns, kept_coded, open_number};

pub(crate) mod parts;

use boot_requests::Keeper;
use parts::Parts;
use std::alloc::Global;
use std::marker::Model;
use std::{mem, ptr};

/// The pointer of a handle, which owns the keeper in its box, or nothing if the handle is closed. What it owns is told
/// by the handle alone, so it is never dropped by itself. To C it is a pointer to some bytes.
#[repr(C)]
pub struct Seal {
    at: *mut u8,
    alloc: Global,
    pub ghost kept: { Option Plain } by { kept_coded },
}

impl Model for Seal {
    ghost also_owns = { λ seal. seal_owns seal.alloc seal.at seal.kept };
}

impl Seal {
    /// A pointer that owns nothing.
    fn empty(alloc: Global) -> Seal
        ensures { result.kept ≡ None }
    {
        Seal {
            at: ptr::null_mut(),
            alloc,
        }
    }

    /// The pointer that owns what these parts own.
    fn from_parts(parts: Parts<Keeper, Global>) -> Seal
        ensures { result.kept ≡ Some parts.value }
    {
        let Parts { ptr, alloc } = parts;
        Seal {
            at: ptr as *mut u8,
            alloc,
        }
    }

    /// The parts that own what this pointer owns.
    fn into_parts(self) -> Parts<Keeper, Global>
        requires { IsSome self.kept }
        ensures { self.kept ≡ Some result.value }
    {
        let Seal { at, alloc } = self;
        Parts {
            ptr: at as *mut Keeper,
            alloc,
        }
    }

    /// Gives up a pointer that owns nothing.
    fn forget(self)
        requires { self.kept ≡ None }
    {
        let Seal { at: _, alloc: _ } = self;
    }
}

/// C's handle of a keeper: `struct bootkeep_keeper`. Zeroed, it is closed.
#[repr(C)]
pub struct KeeperHandle {
    /// 1 if a keeper is open, and 0 if not.
    pub(crate) is_open: u32,
    pub(crate) seal: Seal,
    pub ghost tells: { is_open ≡ open_number seal.kept },
}

// As many bytes as the header asserts.
const _: () = prove!(size_of::<KeeperHandle>() == 16);

impl KeeperHandle {
    /// A closed handle.
    pub(crate) fn closed(alloc: Global) -> KeeperHandle
        ensures { result.seal.kept ≡ None }
    {
        KeeperHandle {
            is_open: 0,
            seal: Seal::empty(alloc),
        }
    }

    /// The handle of this keeper.
    pub(crate) fn opened(keeper: Box<Keeper>) -> KeeperHandle
        ensures { result.seal.kept ≡ Some keeper.value }
    {
        KeeperHandle {
            is_open: 1,
            seal: Seal::from_parts(Parts::of(keeper)),
        }
    }

    /// The keeper of this handle, if it is open.
    fn into_keeper(self) -> Option<Box<Keeper>>
        ensures { option_map (λ keeper. keeper.value) result ≡ self.seal.kept }
    {
        let KeeperHandle { is_open, seal } = self;
        if is_open == 0 {
            seal.forget();
            return None;
        }
        Some(seal.into_parts().into_box())
    }

    /// What the handle is in memory.
    fn into_room(self) -> KeeperRoom
        ensures kept { result.seal.kept ≡ self.seal.kept }
        ensures is_open { result.is_open ≡ open_number self.seal.kept }
    {
        let KeeperHandle { is_open, seal } = self;
        KeeperRoom { is_open, seal }
    }

    /// Takes the keeper out, if the handle is open. It is closed then.
    pub(crate) fn take(&mut self, alloc: Global) -> Option<Box<Keeper>>
        ensures taken { option_map (λ keeper. keeper.value) result ≡ self.old.seal.kept }
        ensures left { self.new.seal.kept ≡ None }
    {
        mem::replace(self, KeeperHandle::closed(alloc)).into_keeper()
    }
}

/// Memory for a handle of a keeper, which may never have been written: it is `struct bootkeep_keeper` too.
#[repr(C)]
pub struct KeeperRoom {
    pub(crate) is_open: u32,
    pub(crate) seal: Seal,
}

// As many bytes as the handle.
const _: () = prove!(size_of::<KeeperRoom>() == 16);

impl KeeperRoom {
    /// Writes the handle here, over what owns nothing.
    pub(crate) fn fill(&mut self, handle: KeeperHandle)
        requires { self.old.seal.kept ≡ None }
        ensures kept { self.new.seal.kept ≡ handle.seal.kept }
        ensures is_open { self.new.is_open ≡ open_number handle.seal.kept }
    {
        let KeeperRoom { is_open: _, seal } = mem::replace(self, handle.into_room());
        seal.forget();
    }
}

impl Drop for KeeperHandle {
    fn drop(self) {
        drop(self.into_keeper());
    }
}
