//! Frames of words.

ghost use Rattle.std.specs.Prelude.{◌≡◌, IfOk};
ghost use Rattle.uefi_option.specs.LoadOption.{SpellsOption};
ghost use Rattle.boot_requests.specs.declared.request.Request.{Request};
ghost use Rattle.boot_requests.specs.Frame.{SpellsFrame};
ghost use Rattle.command_words.specs.Frame.{AsksFor};

use boot_requests::{FrameFault, OrderList, Request, write_frame};
use request_texts::frame_words;
use std::alloc::{AllocError, AllocFailed, Global};
use std::collections::BTreeSet;
use thiserror::Error;
use uefi_option::{LoadOption, OptionFault, read_option};
use value_texts::{FaultReason, option_reason};

/// What a frame is to ask for. An option is given by its bytes (UEFI 2.10, 3.1.3).
#[derive(Clone, Copy, Debug)]
pub enum FrameWords<'a> {
    /// To store an entry of this number that isn't there.
    Add(u16, &'a [u8]),
    /// To store an entry of this number in the place of one that is there.
    Replace(u16, &'a [u8]),
    /// To store an entry under the least number that none has.
    AddFree(&'a [u8]),
    /// To do that, and to put the number in front of BootOrder.
    AddFirst(&'a [u8]),
    /// To take out the entry of this number.
    Remove(u16),
    /// To set BootOrder to these numbers.
    Order(&'a [u16]),
    /// To set BootNext to this number.
    Next(u16),
    /// To put this number in front of BootOrder.
    First(u16),
}

/// Why no frame is made of words.
#[derive(Debug, Drop, Error)]
pub enum FrameWordsFault {
    /// The bytes of the option are no load option.
    #[error("no load option, {fault}: {reason}")]
    Option {
        /// The fault of the bytes.
        fault: OptionFault,
        /// The fault in plain words.
        reason: FaultReason,
    },
    /// An entry is in the order twice.
    #[error("{0:04X} is in the order twice, and a machine refuses such an order")]
    OrderRepeats(u16),
    /// The request has no frame.
    #[error("{0}: {reason}", reason = frame_words(.0))]
    Frame(FrameFault),
    /// Memory was refused.
    #[error("out of memory")]
    OutOfMemory,
}

impl From<AllocError> for FrameWordsFault {
    fn from(_refusal: AllocError) -> FrameWordsFault {
        FrameWordsFault::OutOfMemory
    }
}

impl<T: Drop> From<AllocFailed<T>> for FrameWordsFault {
    fn from(_refusal: AllocFailed<T>) -> FrameWordsFault {
        FrameWordsFault::OutOfMemory
    }
}

impl From<FrameFault> for FrameWordsFault {
    fn from(fault: FrameFault) -> FrameWordsFault {
        match fault {
            FrameFault::OutOfMemory => FrameWordsFault::OutOfMemory,
            fault => FrameWordsFault::Frame(fault),
        }
    }
}

/// The bytes of the frame that asks for this, with this number.
///
/// # Errors
///
/// [`FrameWordsFault::Option`] if the bytes of an option are none; [`FrameWordsFault::OrderRepeats`] with the first
/// entry that an order has a second time, which no machine takes; otherwise [`FrameWordsFault::Frame`] with
/// [`FrameFault::TooLong`] if the payload has more than 131,072 bytes, or with [`FrameFault::BadNumber`] if the number
/// is 4,294,967,295. [`FrameWordsFault::OutOfMemory`] comes if memory was refused, also before these.
pub fn frame_bytes(
    alloc: Global,
    number: u32,
    words: FrameWords<'_>,
) -> Result<Vec<u8>, FrameWordsFault>
    ensures { IfOk result (λ bytes.
        (request : Request) × AsksFor words.entry request × SpellsFrame bytes.items number request) }
{
    let request = request_of(alloc, words)?;
    Ok(write_frame(alloc, number, &request)?)
}

/// The line of a script that delivers the frame (docs/formats.md): `deliver`, a blank, the digits of the bytes and a
/// line feed. This fails only when out of memory.
pub fn frame_line(alloc: Global, frame: &[u8]) -> Result<String, AllocError> {
    let digits = hex::encode(alloc, frame)?;
    format!(in alloc; "deliver {digits}\n")
}

/// The request that the words name.
fn request_of(alloc: Global, words: FrameWords<'_>) -> Result<Request, FrameWordsFault>
    ensures { IfOk result (λ request. AsksFor words.entry request) }
{
    Ok(match words {
        FrameWords::Add(entry, bytes) => Request::Add(entry, option_of(alloc, bytes)?),
        FrameWords::Replace(entry, bytes) => Request::Replace(entry, option_of(alloc, bytes)?),
        FrameWords::AddFree(bytes) => Request::AddFree(option_of(alloc, bytes)?),
        FrameWords::AddFirst(bytes) => Request::AddFirst(option_of(alloc, bytes)?),
        FrameWords::Remove(entry) => Request::Remove(entry),
        FrameWords::Order(entries) => Request::Order(order_of(alloc, entries)?),
        FrameWords::Next(entry) => Request::Next(entry),
        FrameWords::First(entry) => Request::First(entry),
    })
}

/// The load option that the bytes are.
fn option_of(alloc: Global, bytes: &[u8]) -> Result<LoadOption, FrameWordsFault>
    ensures { IfOk result (λ option. SpellsOption bytes.now option) }
{
    match read_option(alloc, bytes) {
        Ok(option) => Ok(option),
        Err(OptionFault::OutOfMemory) => Err(FrameWordsFault::OutOfMemory),
        Err(fault) => Err(FrameWordsFault::Option {
            fault,
            reason: option_reason(bytes, &fault),
        }),
    }
}

/// The order of these entries, if none is in it twice.
fn order_of(alloc: Global, entries: &[u16]) -> Result<OrderList, FrameWordsFault>
    ensures { IfOk result (λ order. order ≡ entries.now) }
{
    match first_repeated(alloc, entries)? {
        Some(entry) => Err(FrameWordsFault::OrderRepeats(entry)),
        None => Ok(OrderList::new(Vec::from_slice(alloc, entries)?)),
    }
}

/// The first of the entries that came before, if there is one.
fn first_repeated(alloc: Global, entries: &[u16]) -> Result<Option<u16>, AllocError> {
    let mut known = BTreeSet::new(alloc);
    for entry in entries {
        if !known.insert(*entry)? {
            return Ok(Some(*entry));
        }
    }
    Ok(None)
}
