//! The parts of frames.

ghost use Rattle.std.specs.Prelude.{◌≡◌, ◌≢◌, ◌<◌, ◌≤◌, ℕ, IfOk, IfErr};
ghost use Rattle.boot_requests.specs.Frame.{SpellsFrame};
ghost use Rattle.bootkeep_c.specs.declared.failure.Failure.{Failure};
ghost use Rattle.bootkeep_c.specs.Status.{bad_size};
ghost use Rattle.bootkeep_c.specs.Refusals.{Tells};
ghost use Rattle.bootkeep_c.specs.Buffer.{Gives, IsKept};
ghost use Rattle.bootkeep_c.specs.FrameParts.{request_number, order_of, HasOptionAt, TellsFrame, HasFrameParts, IsUnreadFrame, TellsIfGiven, AnswersFrame};

use crate::buffer::give;
use crate::failure::Failure;
use crate::frame::{
    REQUEST_ADD, REQUEST_ADD_FIRST, REQUEST_ADD_FREE, REQUEST_FIRST, REQUEST_NEXT, REQUEST_ORDER,
    REQUEST_REMOVE, REQUEST_REPLACE,
};
use crate::refusal::Refusal;
use crate::set::number_or_none;
use crate::status::{BAD_SIZE, DONE};
use boot_requests::{Request, read_frame};
use std::alloc::{AllocError, Global};

/// How many bytes of a frame are before its payload.
const HEADER_LEN: usize = 12;

/// How many bytes of a payload the number of an entry has.
const ENTRY_LEN: usize = 2;

/// How many bytes the struct of a frame's parts has.
const PARTS_LEN: usize = 40;

/// The parts of a frame: `struct bootkeep_frame_parts`.
#[repr(C)]
#[derive(Clone, Copy, Debug, PartialEq, Eq)]
pub struct FrameParts {
    /// How many bytes the caller's struct has.
    pub size: usize,
    /// The number of the request.
    pub number: u32,
    /// What the request is to do.
    pub kind: u32,
    /// The entry that the request names, or [`NO_ENTRY`](crate::set::NO_ENTRY).
    pub entry: u32,
    /// 0.
    pub reserved: u32,
    /// Where the load option of the request is, or 0.
    pub option: usize,
    /// How many bytes it has: 0 if the request has none.
    pub option_len: usize,
}

// As many bytes as the header asserts.
const _: () = prove!(size_of::<FrameParts>() == PARTS_LEN);

/// What the frame asks for that the bytes are, all of them: its parts, and the numbers of an order.
#[unsafe(no_mangle)]
pub extern "C" fn bootkeep_frame_parts(
    alloc: Global,
    frame: &[u8],
    parts: &mut FrameParts,
    numbers: &mut [u16],
    len: &mut usize,
    refusal: &mut Refusal,
) -> u32
    ensures size { parts.old.size < 40 → (result ≡ bad_size) × IsKept numbers.old numbers.new len.old len.new
        × (parts.new ≡ parts.old) × (refusal.new ≡ refusal.old) }
    ensures answers { 40 ≤ parts.old.size → AnswersFrame frame.now result numbers.old numbers.new len.old len.new
        parts.old parts.new refusal.old refusal.new }
{
    if parts.size < PARTS_LEN {
        return BAD_SIZE;
    }
    let read = frame_read(alloc, parts.size, frame);
    answer_frame(read, parts, numbers, len, refusal)
}

/// What was read of a frame.
#[derive(Drop)]
struct FrameRead {
    /// Its parts.
    parts: FrameParts,
    /// The numbers of its order, none if it has no order.
    numbers: Vec<u16>,
}

/// Gives the numbers and tells the parts, if a frame was read and there is room for the numbers, or tells why none was.
fn answer_frame(
    read: Result<FrameRead, Failure>,
    parts: &mut FrameParts,
    numbers: &mut [u16],
    len: &mut usize,
    refusal: &mut Refusal,
) -> u32
    ensures given { IfOk read (λ it. Gives result it.numbers.items numbers.old numbers.new len.new
        × TellsIfGiven result it.parts parts.old parts.new × (refusal.new ≡ refusal.old)) }
    ensures told { IfErr read (λ failed. Tells failed result refusal.old refusal.new
        × IsKept numbers.old numbers.new len.old len.new × (parts.new ≡ parts.old)) }
{
    match read {
        Ok(it) => {
            let status = give(&it.numbers, numbers, len);
            if status == DONE {
                *parts = it.parts;
            }
            status
        }
        Err(failure) => failure.tell(refusal),
    }
}

/// The parts of the frame that the bytes are, in a struct of so many bytes, and the numbers of its order.
fn frame_read(alloc: Global, size: usize, frame: &[u8]) -> Result<FrameRead, Failure>
    ensures found { IfOk result (λ read. HasFrameParts frame.now size read.parts read.numbers.items) }
    ensures fault { IfErr result (λ failed. failed ≢ Failure.Memory → IsUnreadFrame frame.now failed) }
{
    let (number, request) = read_frame(alloc, frame)?;
    let parts = parts_of(size, frame, number, &request);
    let numbers = numbers_of(alloc, &request)?;
    Ok(FrameRead { parts, numbers })
}

/// The parts of the frame of this request with this number, in a struct of so many bytes.
fn parts_of(size: usize, frame: &[u8], number: u32, request: &Request) -> FrameParts
    requires { SpellsFrame frame.now number request.now }
    ensures { TellsFrame frame.now size number request.now result }
{
    let (option, option_len) = option_at(frame, number, request);
    FrameParts {
        size,
        number,
        kind: kind_number(request),
        entry: number_or_none(request.entry()),
        reserved: 0,
        option,
        option_len,
    }
}

/// The number by which C names the kind of the request.
fn kind_number(request: &Request) -> u32
    ensures { result ≡ request_number request.now }
{
    match request {
        Request::Add(..) => REQUEST_ADD,
        Request::Replace(..) => REQUEST_REPLACE,
        Request::Remove(_) => REQUEST_REMOVE,
        Request::Order(_) => REQUEST_ORDER,
        Request::Next(_) => REQUEST_NEXT,
        Request::AddFree(_) => REQUEST_ADD_FREE,
        Request::AddFirst(_) => REQUEST_ADD_FIRST,
        Request::First(_) => REQUEST_FIRST,
    }
}

/// Where the load option of the request is in its frame, and how many bytes it has: twice 0 if there is none.
fn option_at(frame: &[u8], number: u32, request: &Request) -> (usize, usize)
    requires { SpellsFrame frame.now number request.now }
    ensures { HasOptionAt frame.now result.0 result.1 request.now }
{
    match request {
        Request::Add(..) | Request::Replace(..) => {
            let at = HEADER_LEN + ENTRY_LEN;
            (at, frame.len() - at)
        }
        Request::AddFree(_) | Request::AddFirst(_) => (HEADER_LEN, frame.len() - HEADER_LEN),
        Request::Remove(_) | Request::Order(_) | Request::Next(_) | Request::First(_) => (0, 0),
    }
}

/// The numbers of the request's order, none if it has no order.
fn numbers_of(alloc: Global, request: &Request) -> Result<Vec<u16>, AllocError>
    ensures { IfOk result (λ numbers. numbers.items ≡ order_of request.now) }
{
    match request {
        Request::Order(order) => Vec::from_slice(alloc, order.numbers()),
        Request::Add(..)
        | Request::Replace(..)
        | Request::Remove(_)
        | Request::Next(_)
        | Request::AddFree(_)
        | Request::AddFirst(_)
        | Request::First(_) => Ok(Vec::new(alloc)),
    }
}
