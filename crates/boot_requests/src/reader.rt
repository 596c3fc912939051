//! Bytes to requests.

ghost use Rattle.std.specs.Prelude.{◌≡◌, ◌≢◌, ◌+◌, ◌<◌, ◌^◌, ◌%◌, ◌++◌, ℕ, List, length, IfOk, IfErr, OnOk, IfSome, IfNone, Some, Ok, Err};
ghost use Rattle.std.specs.List.{AllByRecursion, flat_map};
ghost use Rattle.std.specs.Int.{w16, w32, to_le_bytes};
ghost use Rattle.uefi_path.specs.declared.fault.PathFault.{PathFault};
ghost use Rattle.uefi_path.specs.Answer.{IsUnless};
ghost use Rattle.uefi_option.specs.declared.fault.OptionFault.{OptionFault};
ghost use Rattle.uefi_option.specs.LoadOption.{SpellsOption};
ghost use Rattle.uefi_vars.specs.Order.{IsEntryNumber};
ghost use Rattle.boot_requests.specs.declared.fault.FrameFault.{FrameFault};
ghost use Rattle.boot_requests.specs.declared.request.Request.{Request};
ghost use Rattle.boot_requests.specs.Frame.{SpellsFrame};
ghost use Rattle.boot_requests.specs.FrameFault.{Raw, IsRaw, IsFirstFault};
ghost use Rattle.boot_requests.specs.Reader.{raw_of, PassesLength, FailsHeader, SplitsFrame, SpellsPayload, IsPayloadFault, SpellsEntry, IsEntryFault, IsOptionFault};

use crate::fault::{FeedFault, FrameFault};
use crate::frame::{ENTRY_LEN, FRAME_MAGIC, HEADER_LEN, Kind, NO_NUMBER, PAYLOAD_MAX};
use crate::laws;
use crate::request::{OrderList, Request};
use std::alloc::Global;
use uefi_option::{LoadOption, OptionFault, read_option};
use uefi_path::{PathFault, laws as path_laws, read_units};

/// The header of a frame as it is in the bytes, and the bytes after it.
#[derive(Clone, Copy)]
pub(crate) struct RawFrame<'a> {
    magic: [u8; 2],
    pub(crate) version: u8,
    pub(crate) kind: u8,
    number: u32,
    len: u32,
    pub(crate) payload: &'a [u8],
}

/// What a frame says: the number and the kind of its request, and its payload.
#[derive(Clone, Copy)]
struct Frame<'a> {
    number: u32,
    kind: Kind,
    payload: &'a [u8],
}

/// The number that the first four bytes are, and the bytes after them, if there are that many.
#[inline(always)]
fn split_number(bytes: &[u8]) -> Option<(u32, &[u8])>
    ensures found { IfSome result (λ split. bytes.now ≡ to_le_bytes w32 split.0 ++ split.1.now) }
    ensures bound { IfSome result (λ split. split.0 < 2 ^ 32) }
    ensures none { IfNone result (length bytes.now < 4) }
{
    match bytes {
        [a, b, c, d, rest @ ..] => Some((u32::from_le_bytes([*a, *b, *c, *d]), rest)),
        _ => None,
    }
}

/// The header, if there are the twelve bytes of one.
#[inline(always)]
pub(crate) fn split_header(bytes: &[u8]) -> Option<RawFrame<'_>>
    ensures found { IfSome result (λ raw. IsRaw bytes.now
        (raw_of raw.magic raw.version raw.kind raw.number raw.len raw.payload.now)) }
    ensures none { IfNone result (length bytes.now < 12) }
{
    let [first, second, version, kind, rest @ ..] = bytes else {
        return None;
    };
    let (number, rest) = split_number(rest)?;
    let (len, payload) = split_number(rest)?;
    Some(RawFrame {
        magic: [*first, *second],
        version: *version,
        kind: *kind,
        number,
        len,
        payload,
    })
}

/// The number in a header, if there are the twelve bytes of one: that of the request, if the bytes are a frame.
pub(crate) fn header_number(bytes: &[u8]) -> Option<u32>
    ensures { (number : ℕ) (request : Request) → SpellsFrame bytes.now number request → result ≡ Some number }
{
    let raw = split_header(bytes)?;
    Some(raw.number)
}

/// How many bytes the frame has that begins with these, if they are all of it: the twelve of a header, and those of the
/// payload that it states, whatever else it says. If there are fewer than twelve, it is the twelve alone.
pub fn frame_len(bytes: &[u8]) -> usize
    ensures short { length bytes.now < 12 → result ≡ 12 }
    ensures stated { (raw : Raw) → IsRaw bytes.now raw → result ≡ 12 + raw.len }
{
    match split_header(bytes) {
        Some(raw) => HEADER_LEN + raw.len as usize,
        None => HEADER_LEN,
    }
}

/// How many bytes the header states after it, if it passes its tests.
#[inline(always)]
pub(crate) fn stated_len(raw: RawFrame<'_>) -> Result<usize, FeedFault>
    ensures len { IfOk result (λ len. len ≡ raw.entry.len) }
    ensures good { OnOk result (PassesLength (raw_of raw.entry.magic raw.entry.version
        raw.entry.kind raw.entry.number raw.entry.len raw.entry.payload.now)) }
    ensures fault { IfErr result (FailsHeader (raw_of raw.entry.magic raw.entry.version
        raw.entry.kind raw.entry.number raw.entry.len raw.entry.payload.now)) }
{
    if raw.magic != FRAME_MAGIC {
        return Err(FeedFault::BadMagic);
    }
    if !Kind::has_version(raw.version) {
        return Err(FeedFault::BadVersion);
    }
    let len = raw.len as usize;
    if len > PAYLOAD_MAX {
        return Err(FeedFault::TooLong);
    }
    Ok(len)
}

/// The frame that the bytes are, if they are one as far as can be told without reading its payload.
fn split_frame(bytes: &[u8]) -> Result<Frame<'_>, FrameFault>
    ensures found { IfOk result (λ frame.
        SplitsFrame bytes.now frame.number frame.kind frame.payload.now) }
    ensures fault { IfErr result (λ fault. IsFirstFault bytes.now fault) }
{
    let Some(raw) = split_header(bytes) else {
        return Err(FrameFault::Short { found: bytes.len() });
    };
    let len = stated_len(raw)?;
    if raw.payload.len() != len {
        return Err(FrameFault::BadSize {
            stated: len,
            found: raw.payload.len(),
        });
    }
    let Some(kind) = Kind::from_bytes(raw.version, raw.kind) else {
        return Err(FrameFault::BadKind);
    };
    if raw.number == NO_NUMBER {
        return Err(FrameFault::BadNumber);
    }
    Ok(Frame {
        number: raw.number,
        kind,
        payload: raw.payload,
    })
}

/// The number of an entry that the bytes are.
fn read_entry(bytes: &[u8]) -> Result<u16, FrameFault>
    ensures found { IfOk result (λ entry. bytes.now ≡ to_le_bytes w16 entry) }
    ensures fault { IfErr result (λ fault.
        (fault ≡ FrameFault.BadPayload) × (length bytes.now ≢ 2)) }
{
    match bytes {
        [low, high] => Ok(u16::from_le_bytes([*low, *high])),
        _ => Err(FrameFault::BadPayload),
    }
}

/// The fault of a payload whose load option has this one.
fn option_fault(fault: OptionFault) -> FrameFault
    ensures option { fault ≢ OptionFault.OutOfMemory → result ≡ FrameFault.Option fault }
    ensures memory { fault ≡ OptionFault.OutOfMemory → result ≡ FrameFault.OutOfMemory }
{
    match fault {
        OptionFault::OutOfMemory => FrameFault::OutOfMemory,
        fault => FrameFault::Option(fault),
    }
}

/// The number of an entry and the load option that the bytes are, one after the other.
fn read_entry_option(alloc: Global, bytes: &[u8]) -> Result<(u16, LoadOption), FrameFault>
    ensures found { IfOk result (λ read. SpellsEntry bytes.now read.0 read.1) }
    ensures fault { IfErr result (λ fault. IsEntryFault bytes.now fault) }
{
    let [low, high, rest @ ..] = bytes else {
        return Err(FrameFault::BadPayload);
    };
    let entry = u16::from_le_bytes([*low, *high]);
    match read_option(alloc, rest) {
        Ok(option) => Ok((entry, option)),
        Err(fault) => Err(option_fault(fault)),
    }
}

/// The load option that the bytes are, all of them.
fn read_option_alone(alloc: Global, bytes: &[u8]) -> Result<LoadOption, FrameFault>
    ensures found { IfOk result (λ option. SpellsOption bytes.now option) }
    ensures fault { IfErr result (λ fault. IsOptionFault bytes.now fault) }
{
    match read_option(alloc, bytes) {
        Ok(option) => Ok(option),
        Err(fault) => Err(option_fault(fault)),
    }
}

/// The numbers of entries that the bytes are.
fn read_order(alloc: Global, bytes: &[u8]) -> Result<OrderList, FrameFault>
    ensures found { IfOk result (λ order. bytes.now ≡ flat_map (to_le_bytes w16) order) }
    ensures valid { IfOk result (λ order. AllByRecursion IsEntryNumber order) }
    ensures fault { IfErr result (λ fault. fault ≢ FrameFault.OutOfMemory →
        (fault ≡ FrameFault.BadPayload) × (length bytes.now % 2 ≢ 0)) }
{
    path_laws::bytes_are_written_again();
    path_laws::two_bytes_are_a_unit();
    if bytes.len() % ENTRY_LEN != 0 {
        return Err(FrameFault::BadPayload);
    }
    Ok(OrderList::new(read_units(alloc, bytes)?))
}

/// The request of this kind that the payload spells.
fn read_payload(alloc: Global, kind: Kind, payload: &[u8]) -> Result<Request, FrameFault>
    ensures found { IfOk result (λ request. SpellsPayload kind payload.now request) }
    ensures fault { IfErr result (λ fault. IsPayloadFault kind payload.now fault) }
{
    Ok(match kind {
        Kind::Add => {
            let (entry, option) = read_entry_option(alloc, payload)?;
            Request::Add(entry, option)
        }
        Kind::Replace => {
            let (entry, option) = read_entry_option(alloc, payload)?;
            Request::Replace(entry, option)
        }
        Kind::Remove => Request::Remove(read_entry(payload)?),
        Kind::Order => Request::Order(read_order(alloc, payload)?),
        Kind::Next => Request::Next(read_entry(payload)?),
        Kind::AddFree => Request::AddFree(read_option_alone(alloc, payload)?),
        Kind::AddFirst => Request::AddFirst(read_option_alone(alloc, payload)?),
        Kind::First => Request::First(read_entry(payload)?),
    })
}

/// Reads a frame, and says of its answer what is found.
fn read_parts(alloc: Global, bytes: &[u8]) -> Result<(u32, Request), FrameFault>
    ensures found { IfOk result (λ read. SpellsFrame bytes.now read.0 read.1) }
    ensures fault { IfErr result (λ fault.
        fault ≢ FrameFault.OutOfMemory → IsFirstFault bytes.now fault) }
{
    let frame = split_frame(bytes)?;
    let request = read_payload(alloc, frame.kind, frame.payload)?;
    Ok((frame.number, request))
}

/// Reads the frame that the bytes are, all of them: the number of a request, and the request. Before the payload are
/// twelve bytes: 0x42 0x51, the version, the kind of the request, its number in four bytes, and the length of the
/// payload in four, both little-endian. In version 1 the payload of [`Request::Add`] (kind 1) and [`Request::Replace`]
/// (2) is the number of the entry in two bytes and the load option (UEFI 2.10, 3.1.3), that of [`Request::Remove`] (3)
/// and [`Request::Next`] (5) is the number of the entry, and that of [`Request::Order`] (4) is the numbers, two bytes
/// each. In version 2 that of [`Request::AddFree`] (6) is the load option. In version 3 that of [`Request::AddFirst`] (7)
/// is the load option, and that of [`Request::First`] (8) is the number of the entry. No version has a kind of another.
///
/// # Errors
///
/// The first of these faults: [`FrameFault::Short`] if there are fewer than twelve bytes; [`FrameFault::BadMagic`] if
/// the first two are others; [`FrameFault::BadVersion`] if the version is none of 1 to 3; [`FrameFault::TooLong`] if
/// the payload is to have more than [`PAYLOAD_MAX`] bytes; [`FrameFault::BadSize`] if fewer or more follow the twelve;
/// [`FrameFault::BadKind`] if no request has the kind in that version; [`FrameFault::BadNumber`] if the number is
/// 4,294,967,295; [`FrameFault::BadPayload`] if the number of an entry isn't whole, or bytes follow it that the kind
/// doesn't have; [`FrameFault::Option`] if the option isn't one. [`FrameFault::OutOfMemory`] comes if memory was
/// refused, also before a fault of the option.
pub fn read_frame(alloc: Global, bytes: &[u8]) -> Result<(u32, Request), FrameFault>
    // What is read is spelled so.
    ensures found { IfOk result (λ read. SpellsFrame bytes.now read.0 read.1) }
    // What is spelled so is read.
    ensures only { (number : ℕ) (request : Request) → SpellsFrame bytes.now number request →
        IsUnless result (Ok (number, request)) FrameFault.OutOfMemory }

    ensures fault { IfErr result (λ fault.
        fault ≢ FrameFault.OutOfMemory → IsFirstFault bytes.now fault) }
    ensures only_fault { (fault : FrameFault) → IsFirstFault bytes.now fault →
        IsUnless result (Err fault) FrameFault.OutOfMemory }
    // If memory for the option, or for a path in it, was refused, the fault is `OutOfMemory` itself.
    ensures own_memory { result ≢ Err (FrameFault.Option OptionFault.OutOfMemory) }
    ensures path_memory { (place : ℕ) →
        result ≢ Err (FrameFault.Option (OptionFault.Path place PathFault.OutOfMemory)) }
{
    laws::bytes_spell_one_request();
    laws::a_fault_leaves_no_request();
    laws::bytes_have_one_first_fault();
    read_parts(alloc, bytes)
}
