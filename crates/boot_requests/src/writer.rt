//! Requests to bytes.

ghost use Rattle.std.specs.Prelude.{◌≡◌, ◌↔◌, ◌<◌, ◌≤◌, ◌^◌, ◌++◌, length, Err, IfOk, IfErr, OnOk};
ghost use Rattle.std.specs.Option.{SomeIff};
ghost use Rattle.std.specs.List.{AllByRecursion};
ghost use Rattle.uefi_path.specs.Units.{units_bytes};
ghost use Rattle.uefi_vars.specs.Order.{IsEntryNumber};
ghost use Rattle.boot_requests.specs.declared.fault.FrameFault.{FrameFault};
ghost use Rattle.boot_requests.specs.Limits.{payload_max, no_number};
ghost use Rattle.boot_requests.specs.Request.{IsRequest, payload_of};
ghost use Rattle.boot_requests.specs.Frame.{header_bytes, SpellsFrame};
ghost use Rattle.boot_requests.specs.Writer.{IsWriteFault};

use crate::fault::FrameFault;
use crate::frame::{ENTRY_LEN, FRAME_MAGIC, HEADER_LEN, Kind, NO_NUMBER, PAYLOAD_MAX};
use crate::request::Request;
use std::alloc::{AllocError, Global};
use uefi_option::{append_option, option_len};
use uefi_path::{append_units, laws as path_laws};

/// How many bytes the payload of the request has, if `usize` can count them.
fn payload_len(request: &Request) -> Option<usize>
    ensures { let len = length (payload_of request.now) in SomeIff result (len < 2 ^ 64) len }
{
    path_laws::units_have_two_bytes_each();
    match request {
        Request::Add(_, option) | Request::Replace(_, option) => {
            option_len(option)?.checked_add(ENTRY_LEN)
        }
        Request::Remove(_) | Request::Next(_) | Request::First(_) => Some(ENTRY_LEN),
        Request::Order(order) => order.numbers().len().checked_mul(ENTRY_LEN),
        Request::AddFree(option) | Request::AddFirst(option) => option_len(option),
    }
}

/// The header of a frame whose payload has this many bytes.
fn header(kind: Kind, number: u32, len: u32) -> [u8; HEADER_LEN]
    ensures { result ≡ header_bytes kind number len }
{
    let [a, b, c, d] = number.to_le_bytes();
    let [e, f, g, h] = len.to_le_bytes();
    [
        FRAME_MAGIC[0],
        FRAME_MAGIC[1],
        kind.version(),
        kind.byte(),
        a,
        b,
        c,
        d,
        e,
        f,
        g,
        h,
    ]
}

/// Appends the numbers of entries.
fn append_numbers(numbers: &[u16], out: &mut Vec<u8>) -> Result<(), AllocError>
    ensures written { OnOk result (out.new.items ≡ out.old.items ++ units_bytes numbers.now) }
    ensures valid { AllByRecursion IsEntryNumber numbers.now }
{
    append_units(numbers, out)
}

/// Appends the payload of the request.
fn append_payload(request: &Request, out: &mut Vec<u8>) -> Result<(), AllocError>
    ensures written { OnOk result (out.new.items ≡ out.old.items ++ payload_of request.now) }
    ensures valid { OnOk result (IsRequest request.now) }
{
    match request {
        Request::Add(entry, option) | Request::Replace(entry, option) => {
            out.extend_from_slice(&entry.to_le_bytes())?;
            append_option(option, out)
        }
        Request::Remove(entry) | Request::Next(entry) | Request::First(entry) => {
            out.extend_from_slice(&entry.to_le_bytes())
        }
        Request::Order(order) => append_numbers(order.numbers(), out),
        Request::AddFree(option) | Request::AddFirst(option) => append_option(option, out),
    }
}

/// The frame of the request with this number, as [`read_frame`](crate::read_frame) takes it.
///
/// # Errors
///
/// [`FrameFault::TooLong`] if the payload has more than [`PAYLOAD_MAX`] bytes; otherwise [`FrameFault::BadNumber`] if
/// the number is 4,294,967,295; otherwise [`FrameFault::OutOfMemory`] if memory was refused.
pub fn write_frame(alloc: Global, number: u32, request: &Request) -> Result<Vec<u8>, FrameFault>
    ensures written { IfOk result (λ out. SpellsFrame out.items number request.now) }

    ensures too_long { (result ≡ Err FrameFault.TooLong)
        ↔ (payload_max < length (payload_of request.now)) }
    ensures bad_number { (result ≡ Err FrameFault.BadNumber)
        ↔ ((length (payload_of request.now) ≤ payload_max) × (number ≡ no_number)) }
    // There is no other fault than these and out of memory.
    ensures named { IfErr result IsWriteFault }
{
    let len = match payload_len(request) {
        Some(len) if len <= PAYLOAD_MAX => len,
        _ => return Err(FrameFault::TooLong),
    };
    if number == NO_NUMBER {
        return Err(FrameFault::BadNumber);
    }
    let mut out = Vec::with_capacity(alloc, HEADER_LEN + len)?;
    out.extend_from_slice(&header(request.kind(), number, len as u32))?;
    append_payload(request, &mut out)?;
    Ok(out)
}
