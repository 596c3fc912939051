//! The requests that wait for one of a lower number.

ghost use Rattle.std.specs.Prelude.{◌≡◌, ℕ, ◌+◌, ◌<◌, ◌≤◌, length, replicate, slice_set, option_copied, Some, None, IfOk};
ghost use Rattle.std.specs.FinMap as map;
ghost use Rattle.boot_requests.specs.Limits.{width};
ghost use Rattle.boot_requests.specs.Frame.{IsSent};
ghost use Rattle.boot_requests.specs.Slots.{place_of, above, waiting_of, IsWindow};

use crate::request::Request;
use crate::slot::Slot;
use std::alloc::{AllocError, Global};
use std::marker::Model;
use std::rc::Rc;

/// How many numbers are taken, the next one included: a request of one of the others waits for those of lower numbers.
pub const WIDTH: u32 = 64;

/// How many slots there are, one for each of those numbers.
const SLOTS: usize = WIDTH as usize;

/// The requests that wait for one of a lower number. That of a number is in the slot of the number modulo [`SLOTS`], so
/// none is searched for; the slot of the next number is free. The calls are told which number that is.
#[derive(Debug, Drop)]
pub(crate) struct Window {
    slots: Vec<Slot>,
}

impl Model for Window {
    ghost use Rattle.std.specs.Prelude.{◌≡◌, List, Option, length};
    ghost use Rattle.boot_requests.specs.declared.request.Request.{Request};
    ghost use Rattle.boot_requests.specs.Limits.{width};

    ghost Value = { List (Option Request) };

    ghost view = { λ w. w.slots.items };

    ghost invariant = { λ w. length w.slots.items ≡ width };
}

impl Window {
    /// Nothing waits.
    pub(crate) fn new(alloc: Global) -> Result<Window, AllocError>
        ensures { IfOk result (λ window. (next_number : ℕ) →
            IsWindow next_number window × (waiting_of next_number window ≡ map.empty)) }
    {
        let slots = free_slots(alloc, SLOTS)?;
        Ok(Window { slots })
    }

    /// The request that waits under this number, which is above the next one, if one does.
    pub(crate) fn get(&self, next_number: u32, number: u32) -> Option<&Request>
        requires { next_number < number }
        ensures { option_copied result ≡ map.get (waiting_of next_number self.now) number }
    {
        if number - next_number >= WIDTH {
            return None;
        }
        self.slots[place_of(number as usize)].request()
    }

    /// How many requests wait.
    pub(crate) fn len(&self, next_number: u32) -> usize
        ensures len { result ≡ map.len (waiting_of next_number self.now) }
        ensures bound { result < width }
    {
        let next_number = next_number as usize;
        let mut count = 0usize;
        for distance in 1..SLOTS {
            if self.slots[place_of(next_number + distance)].is_taken() {
                count += 1;
            }
        }
        count
    }

    /// The request waits under this number from now on.
    pub(crate) fn keep(&mut self, number: u32, request: Rc<Request>)
        ensures { (next_number : ℕ) → IsWindow next_number self.old →
            next_number < number → number < next_number + width → IsSent number request.value →
            IsWindow next_number self.new × (waiting_of next_number self.new
            ≡ map.insert (waiting_of next_number self.old) number request.value) }
    {
        set_slot(&mut self.slots, place_of(number as usize), request);
    }

    /// The next number is the second of these from now on. What waits under numbers that aren't above it waits no
    /// longer.
    pub(crate) fn pass_to(&mut self, next_number: u32, after: u32)
        requires { next_number ≤ after }
        ensures { IsWindow next_number self.old → IsWindow after self.new
            × (waiting_of after self.new ≡ above after (waiting_of next_number self.old)) }
    {
        for number in next_number..after {
            self.pass(number);
        }
    }

    /// The next number is one more from now on. The request that waits under it, if one does, waits no longer.
    fn pass(&mut self, next_number: u32)
        ensures { IsWindow next_number self.old → IsWindow (next_number + 1) self.new
            × (waiting_of (next_number + 1) self.new ≡ map.remove (waiting_of next_number self.old) (next_number + 1)) }
    {
        free_slot(&mut self.slots, place_of(next_number as usize + 1));
    }

    /// Nothing waits any longer.
    pub(crate) fn clear(&mut self)
        ensures { (next_number : ℕ) →
            IsWindow next_number self.new × (waiting_of next_number self.new ≡ map.empty) }
    {
        free_all(&mut self.slots);
    }

    /// An equal window, which shares the requests.
    pub(crate) fn copy(&self, alloc: Global) -> Result<Window, AllocError>
        ensures { IfOk result (λ window. window ≡ self.now) }
    {
        let slots = copy_slots(alloc, &self.slots)?;
        Ok(Window { slots })
    }
}

/// The slot of this number.
fn place_of(number: usize) -> usize
    ensures is { result ≡ place_of number }
    ensures below { result < width }
{
    number % SLOTS
}

/// This many slots, with nothing in them.
fn free_slots(alloc: Global, len: usize) -> Result<Vec<Slot>, AllocError>
    ensures { IfOk result (λ slots. slots.items ≡ replicate len None) }
{
    let mut slots = Vec::with_capacity(alloc, len)?;
    for _index in 0..len {
        slots.push(Slot::free())?;
    }
    Ok(slots)
}

/// The request is in this slot from then on, in the place of what was there.
fn set_slot(slots: &mut [Slot], place: usize, request: Rc<Request>)
    requires { place < length slots.old }
    ensures { slots.new ≡ slice_set slots.old place (Some request.value) }
{
    slots[place] = Slot::taken(request);
}

/// Nothing is in this slot from then on.
fn free_slot(slots: &mut [Slot], place: usize)
    requires { place < length slots.old }
    ensures { slots.new ≡ slice_set slots.old place None }
{
    slots[place] = Slot::free();
}

/// Nothing is in any of these slots from then on.
fn free_all(slots: &mut [Slot])
    ensures { slots.new ≡ replicate (length slots.old) None }
{
    for place in 0..slots.len() {
        free_slot(slots, place);
    }
}

/// Equal slots, which share the requests.
fn copy_slots(alloc: Global, slots: &[Slot]) -> Result<Vec<Slot>, AllocError>
    ensures { IfOk result (λ copy. copy.items ≡ slots.now) }
{
    let mut copy = Vec::with_capacity(alloc, slots.len())?;
    for slot in slots {
        copy.push(slot.copy()?)?;
    }
    Ok(copy)
}
