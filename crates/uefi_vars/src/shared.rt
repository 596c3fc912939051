//! Bytes and text that copies share.

ghost use Rattle.std.specs.Prelude.{◌≡◌, ◌+◌, ◌≤◌, length, take, drop, IfOk, IfErr};
ghost use Rattle.std.specs.Str.{IsUtf8};

use std::alloc::{AllocError, AllocFailed, Global};
use std::fmt;
use std::fmt::Debug;
use std::marker::Model;
use std::rc::Rc;

/// Bytes that copies share: a part of a list that nobody writes into any more. The whole list stays in memory as long as one
/// part of it is there.
#[derive(Drop)]
pub(crate) struct Shared {
    list: Rc<Vec<u8>>,
    start: usize,
    len: usize,
}

impl Model for Shared {
    ghost use Rattle.std.specs.Prelude.{List, ℕ, ◌+◌, ◌≤◌, take, drop, length};

    ghost Value = { List ℕ };

    ghost view = { λ s. take s.len (drop s.start s.list.value.items) };

    ghost invariant = { λ s. s.start + s.len ≤ length s.list.value.items };
}

impl Shared {
    /// The bytes of this list, which is taken over, or handed back if memory is refused.
    pub(crate) fn from_vec(list: Vec<u8>) -> Result<Shared, AllocFailed<Vec<u8>>>
        ensures shared { IfOk result (λ shared. shared ≡ list.items) }
        ensures value_returned { IfErr result (λ refusal. refusal.value ≡ list) }
    {
        let len = list.len();
        match Rc::new(*list.allocator(), list) {
            Ok(list) => Ok(Shared {
                list,
                start: 0,
                len,
            }),
            Err(refusal) => Err(refusal),
        }
    }

    /// These bytes, which are copied.
    pub(crate) fn from_slice(alloc: Global, bytes: &[u8]) -> Result<Shared, AllocError>
        ensures { IfOk result (λ shared. shared ≡ bytes.now) }
    {
        Ok(Shared::from_vec(Vec::from_slice(alloc, bytes)?)?)
    }

    /// The bytes.
    pub(crate) fn as_slice(&self) -> &[u8]
        ensures { result.now ≡ self.now }
    {
        let list = self.list.as_slice();
        &list[self.start..self.start + self.len]
    }

    /// How many bytes there are.
    pub(crate) fn len(&self) -> usize
        ensures { result ≡ length self.now }
    {
        self.len
    }

    /// The same bytes, which the two share.
    pub(crate) fn copy(&self) -> Result<Shared, AllocError>
        ensures { IfOk result (λ copy. copy ≡ self.now) }
    {
        Ok(Shared {
            list: self.list.clone()?,
            start: self.start,
            len: self.len,
        })
    }

    /// This many of the bytes from this place on, which the two share.
    pub(crate) fn part(&self, start: usize, len: usize) -> Result<Shared, AllocError>
        requires { start + len ≤ length self.now }
        ensures { IfOk result (λ part. part ≡ take len (drop start self.now)) }
    {
        Ok(Shared {
            list: self.list.clone()?,
            start: self.start + start,
            len,
        })
    }
}

/// Bytes are equal wherever they are.
impl PartialEq for Shared {
    ghost use Rattle.std.specs.Prelude.{◌==◌};
    ghost use Rattle.std.specs.Cmp.Lexicographic.{pointwise};
    ghost use Rattle.std.proofs.Common.{rules};
    ghost use Rattle.std.specs.Cmp.Rules.{comparing};

    ghost eq = { pointwise ◌==◌ };

    ghost laws = { Prim.search (comparing, rules) };

    fn eq(&self, other: &Shared) -> bool {
        self.as_slice() == other.as_slice()
    }
}

impl Eq for Shared {
    ghost use Rattle.std.proofs.Common.{rules};
    ghost use Rattle.std.specs.Cmp.Rules.{comparing};

    ghost laws = { Prim.search (comparing, rules) };
}

impl Debug for Shared {
    fn fmt<W: fmt::Write>(&self, f: &mut fmt::Formatter<W>) -> fmt::Result {
        self.as_slice().fmt(f)
    }
}

/// Text that copies share.
#[derive(Drop)]
pub(crate) struct SharedText {
    bytes: Shared,
}

impl Model for SharedText {
    ghost use Rattle.std.specs.Prelude.{List, ℕ};
    ghost use Rattle.std.specs.Str.{IsUtf8};

    ghost Value = { List ℕ };

    ghost view = { λ t. t.bytes };

    ghost invariant = { λ t. IsUtf8 t.bytes };
}

impl SharedText {
    /// These bytes as text.
    pub(crate) fn from_utf8(bytes: Shared) -> SharedText
        requires { IsUtf8 bytes }
        ensures { result ≡ bytes }
    {
        SharedText { bytes }
    }

    /// This text, which is copied.
    pub(crate) fn new(alloc: Global, text: &str) -> Result<SharedText, AllocError>
        ensures { IfOk result (λ copy. copy ≡ text.now) }
    {
        let bytes = Shared::from_slice(alloc, text.as_bytes())?;
        Ok(SharedText::from_utf8(bytes))
    }

    /// The same text, which the two share.
    pub(crate) fn copy(&self) -> Result<SharedText, AllocError>
        ensures { IfOk result (λ copy. copy ≡ self.now) }
    {
        Ok(SharedText {
            bytes: self.bytes.copy()?,
        })
    }

    /// The bytes of the text.
    pub(crate) fn as_bytes(&self) -> &[u8]
        ensures { result.now ≡ self.now }
    {
        self.bytes.as_slice()
    }

    /// How many bytes the text has.
    pub(crate) fn len(&self) -> usize
        ensures { result ≡ length self.now }
    {
        self.bytes.len()
    }

    /// The text.
    pub(crate) fn as_str(&self) -> &str
        ensures { result.now ≡ self.now }
    {
        // It was made of text alone.
        unsafe { str::from_utf8_unchecked(self.bytes.as_slice()) }
    }
}

/// Texts are equal wherever they are.
impl PartialEq for SharedText {
    ghost use Rattle.std.specs.Prelude.{◌==◌};
    ghost use Rattle.std.specs.Cmp.Lexicographic.{pointwise};
    ghost use Rattle.std.proofs.Common.{rules};
    ghost use Rattle.std.specs.Cmp.Rules.{comparing};

    ghost eq = { pointwise ◌==◌ };

    ghost laws = { Prim.search (comparing, rules) };

    fn eq(&self, other: &SharedText) -> bool {
        self.bytes == other.bytes
    }
}

impl Eq for SharedText {
    ghost use Rattle.std.proofs.Common.{rules};
    ghost use Rattle.std.specs.Cmp.Rules.{comparing};

    ghost laws = { Prim.search (comparing, rules) };
}

impl Debug for SharedText {
    fn fmt<W: fmt::Write>(&self, f: &mut fmt::Formatter<W>) -> fmt::Result {
        self.as_str().fmt(f)
    }
}
