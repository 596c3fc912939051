//! The fields of a node's data: read at their offsets, and put together in their order.

ghost use Rattle.std.specs.Prelude.{◌≡◌, ◌+◌, ◌<◌, ◌≤◌, ◌++◌, length, OnOk, OnErr};
ghost use Rattle.std.specs.List.{AllByRecursion};
ghost use Rattle.std.specs.Int.{w8, w16, w32, w64};
ghost use Rattle.uefi_path.specs.Row.{IsByte, AreBytes};
ghost use Rattle.uefi_path.specs.Reader.{number_at, bytes_at as bytes_of};

use crate::generic::HEADER_LEN;
use std::alloc::AllocError;
use std::marker::Model;

/// The bytes at an offset of the data.
pub(crate) fn bytes_at<const N: usize>(body: &[u8], at: usize) -> [u8; N]
    requires { at + N ≤ length body.now }
    ensures { result ≡ bytes_of at N body.now }
{
    let mut bytes = [0; N];
    bytes.copy_from_slice(&body[at..at + N]);
    bytes
}

pub(crate) fn u8_at(body: &[u8], at: usize) -> u8
    requires { at < length body.now }
    ensures { result ≡ number_at w8 at body.now }
{
    u8::from_le_bytes(bytes_at(body, at))
}

pub(crate) fn u16_at(body: &[u8], at: usize) -> u16
    requires { at + 2 ≤ length body.now }
    ensures { result ≡ number_at w16 at body.now }
{
    u16::from_le_bytes(bytes_at(body, at))
}

pub(crate) fn u32_at(body: &[u8], at: usize) -> u32
    requires { at + 4 ≤ length body.now }
    ensures { result ≡ number_at w32 at body.now }
{
    u32::from_le_bytes(bytes_at(body, at))
}

pub(crate) fn u64_at(body: &[u8], at: usize) -> u64
    requires { at + 8 ≤ length body.now }
    ensures { result ≡ number_at w64 at body.now }
{
    u64::from_le_bytes(bytes_at(body, at))
}

/// The same array. A contract learns here what the type says: that these are `N` bytes.
pub(crate) fn octets<const N: usize>(bytes: [u8; N]) -> [u8; N]
    ensures same { result ≡ bytes.entry }
    ensures valid { AreBytes N bytes.entry }
{
    let _ = field(&bytes);
    bytes
}

/// The bytes of an array, as many as its type says. A contract sees an array only as a list, and learns here what the
/// type says: that these are `N` bytes. So the call is made for that too, even if its answer isn't used.
pub fn field<const N: usize>(bytes: &[u8; N]) -> &[u8]
    ensures same { result.now ≡ bytes.now }
    ensures valid { AreBytes N bytes.now }
{
    each_octet(bytes.as_slice())
}

/// The same bytes. A contract learns here what the type says: that these are bytes.
pub(crate) fn each_octet(bytes: &[u8]) -> &[u8]
    ensures same { result.now ≡ bytes.now }
    ensures valid { AllByRecursion IsByte bytes.now }
{
    bytes
}

/// The first bytes of a node of `N` bytes: its header, and the fields that were put after it.
#[derive(Drop)]
pub(crate) struct NodeBytes<const N: usize> {
    bytes: [u8; N],
    len: usize,
}

impl<const N: usize> Model for NodeBytes<N> {
    ghost use Rattle.std.specs.Prelude.{ℕ, List, ◌≤◌, take};

    ghost Value = { List ℕ };

    ghost view = { λ node. take node.len node.bytes };

    ghost invariant = { λ node. node.len ≤ N };
}

impl<const N: usize> NodeBytes<N> {
    #[inline(always)]
    pub(crate) fn new(header: [u8; HEADER_LEN]) -> NodeBytes<N>
        requires { HEADER_LEN ≤ N }
        ensures { result ≡ header }
    {
        let mut node = NodeBytes {
            bytes: [0; N],
            len: 0,
        };
        node.put(field(&header));
        node
    }

    /// Puts a field after the others.
    #[inline(always)]
    pub(crate) fn put(&mut self, field: &[u8])
        requires { length self.old + length field.now ≤ N }
        ensures { self.new ≡ self.old ++ field.now }
    {
        let end = self.len + field.len();
        let all = &mut self.bytes[..];
        all[self.len..end].copy_from_slice(field);
        self.len = end;
    }

    /// Appends what there is. An `Err` leaves the output as it was.
    #[inline(always)]
    pub(crate) fn append_to(&self, out: &mut Vec<u8>) -> Result<(), AllocError>
        ensures ok { OnOk result (out.new.items ≡ out.old.items ++ self.now) }
        ensures err { OnErr result (out.new.items ≡ out.old.items) }
    {
        let all = &self.bytes[..];
        out.extend_from_slice(&all[..self.len])
    }
}
