//! Frames of requests.

ghost use Rattle.std.specs.Prelude.{◌≡◌, ◌≢◌, IfOk, IfErr, IfSome, IfNone};
ghost use Rattle.uefi_option.specs.declared.fault.OptionFault.{OptionFault};
ghost use Rattle.bootkeep_c.specs.declared.failure.Failure.{Failure};
ghost use Rattle.bootkeep_c.specs.declared.frame.Asked.{Asked};
ghost use Rattle.bootkeep_c.specs.Refusals.{option_failure};
ghost use Rattle.bootkeep_c.specs.Answers.{Answers};
ghost use Rattle.bootkeep_c.specs.Frames.{asked_number, AsksFor, HasBadOption, IsFrameOf, IsFrameFailure};

use crate::answer::answer;
use crate::failure::Failure;
use crate::refusal::{FRAME_BAD_KIND, Refusal};
use boot_requests::{OrderList, Request, write_frame};
use std::alloc::Global;
use uefi_option::read_option;

/// To store an entry that isn't there.
pub const REQUEST_ADD: u32 = 1;

/// To store an entry in the place of one that is there.
pub const REQUEST_REPLACE: u32 = 2;

/// To take out an entry.
pub const REQUEST_REMOVE: u32 = 3;

/// To set BootOrder.
pub const REQUEST_ORDER: u32 = 4;

/// To set BootNext.
pub const REQUEST_NEXT: u32 = 5;

/// To store an entry under the least number that none has.
pub const REQUEST_ADD_FREE: u32 = 6;

/// To store an entry under such a number, and to put that in front of BootOrder.
pub const REQUEST_ADD_FIRST: u32 = 7;

/// To put an entry in front of BootOrder.
pub const REQUEST_FIRST: u32 = 8;

/// What a frame is to ask for.
#[derive(Clone, Copy, Debug)]
pub enum Asked {
    /// To store an entry that isn't there.
    Add,
    /// To store an entry in the place of one that is there.
    Replace,
    /// To take out an entry.
    Remove,
    /// To set BootOrder.
    Order,
    /// To set BootNext.
    Next,
    /// To store an entry under the least number that none has.
    AddFree,
    /// To do that, and to put the number in front of BootOrder.
    AddFirst,
    /// To put an entry in front of BootOrder.
    First,
}

impl Asked {
    /// What C names by this number, if it is one.
    fn from_number(number: u32) -> Option<Asked>
        ensures found { IfSome result (λ what. asked_number what ≡ number) }
        ensures none { IfNone result ((what : Asked) → asked_number what ≢ number) }
    {
        match number {
            REQUEST_ADD => Some(Asked::Add),
            REQUEST_REPLACE => Some(Asked::Replace),
            REQUEST_REMOVE => Some(Asked::Remove),
            REQUEST_ORDER => Some(Asked::Order),
            REQUEST_NEXT => Some(Asked::Next),
            REQUEST_ADD_FREE => Some(Asked::AddFree),
            REQUEST_ADD_FIRST => Some(Asked::AddFirst),
            REQUEST_FIRST => Some(Asked::First),
            _ => None,
        }
    }
}

/// The frame of the request of this kind with this number. Of the entry, the bytes of the option and the order it has
/// what its kind takes, and the others aren't looked at.
#[unsafe(no_mangle)]
pub extern "C" fn bootkeep_frame_make(
    alloc: Global,
    number: u32,
    kind: u32,
    entry: u16,
    option: &[u8],
    order: &[u16],
    out: &mut [u8],
    len: &mut usize,
    refusal: &mut Refusal,
) -> u32
    ensures { Answers (IsFrameOf number kind entry option.now order.now)
        (IsFrameFailure number kind entry option.now order.now)
        result out.old out.new len.old len.new refusal.old refusal.new }
{
    let made = frame_of(alloc, number, kind, entry, option, order);
    answer(made, out, len, refusal)
}

/// The bytes of the frame.
fn frame_of(
    alloc: Global,
    number: u32,
    kind: u32,
    entry: u16,
    option: &[u8],
    order: &[u16],
) -> Result<Vec<u8>, Failure>
    ensures made { IfOk result (λ bytes. IsFrameOf number kind entry option.now order.now bytes.items) }
    ensures fault { IfErr result (λ failed. failed ≢ Failure.Memory →
        IsFrameFailure number kind entry option.now order.now failed) }
{
    let Some(what) = Asked::from_number(kind) else {
        return Err(Failure::bare(FRAME_BAD_KIND));
    };
    let request = request_of(alloc, what, entry, option, order)?;
    Ok(write_frame(alloc, number, &request)?)
}

/// The request that is asked for.
fn request_of(
    alloc: Global,
    what: Asked,
    entry: u16,
    option: &[u8],
    order: &[u16],
) -> Result<Request, Failure>
    ensures asks { IfOk result (λ request. AsksFor what entry option.now order.now request) }
    ensures fault { IfErr result (λ failed. failed ≢ Failure.Memory →
        (why : OptionFault) × HasBadOption what option.now why × (failed ≡ option_failure why)) }
{
    Ok(match what {
        Asked::Add => Request::Add(entry, read_option(alloc, option)?),
        Asked::Replace => Request::Replace(entry, read_option(alloc, option)?),
        Asked::Remove => Request::Remove(entry),
        Asked::Order => Request::Order(OrderList::new(Vec::from_slice(alloc, order)?)),
        Asked::Next => Request::Next(entry),
        Asked::AddFree => Request::AddFree(read_option(alloc, option)?),
        Asked::AddFirst => Request::AddFirst(read_option(alloc, option)?),
        Asked::First => Request::First(entry),
    })
}
