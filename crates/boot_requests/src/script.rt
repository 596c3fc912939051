//! Scripts: what happens to a machine, as text.

ghost use Rattle.std.specs.Prelude.{◌≡◌, ◌≢◌, ℕ, ◌<◌, ◌==◌, ◌↔◌, List, [], ◌∷◌, length, position, Err, IfOk, IfErr, IsTrue, MatchBool, MatchOption, MatchResult};
ghost use Rattle.std.specs.List.{AllByRecursion};
ghost use Rattle.uefi_path.specs.Answer.{IsUnless};
ghost use Rattle.boot_requests.specs.declared.event.Event.{Event};
ghost use Rattle.boot_requests.specs.declared.script_fault.ScriptFault.{ScriptFault};
ghost use Rattle.boot_requests.specs.Seen.{IsEvent};
ghost use Rattle.boot_requests.specs.Script.{line_feed, lines_of, Tells, IsScript, IsScriptLine, IsFirstBadLine, IsLineFault, IsScriptList};
ghost use Rattle.boot_requests.specs.Lines.{AppendsEvents};

use crate::bytes::Bytes;
use crate::event::Event;
use crate::event_list::EventList;
use crate::script_fault::ScriptFault;
use hex::FromHexError;
use std::alloc::{AllocError, Global};

/// The events of a script, one for each line that isn't empty, in the order of the lines, with the numbers of these
/// lines: up to the first line that isn't one of a script, which is the fault [`ScriptFault::BadLine`]. The lines are
/// those of [`read_script`].
///
/// # Errors
///
/// [`AllocError`] if memory was refused.
pub fn script_events(alloc: Global, text: &[u8]) -> Result<EventList, AllocError>
    ensures list { IfOk result (λ list.
        IsScriptList text.now list.events.items list.places.items list.end list.fault) }
    ensures valid { IfOk result (λ list. AllByRecursion IsEvent list.events.items) }
{
    let mut events = Vec::new(alloc);
    let mut places = Vec::new(alloc);
    let mut number = 1usize;
    let mut rest = text;
    loop {
        let (line, others) = split_line(rest);
        if !append_event(alloc, line, number, &mut events, &mut places)? {
            return Ok(EventList {
                events,
                places,
                end: number,
                fault: Some(ScriptFault::BadLine(number)),
            });
        }
        match others {
            Some(others) => {
                number += 1;
                rest = others;
            }
            None => {
                return Ok(EventList {
                    events,
                    places,
                    end: number,
                    fault: None,
                });
            }
        }
    }
}

/// The events of a script, one for each line that isn't empty, in the order of the lines. Line feeds part the lines.
/// `deliver` with one blank and the hexadecimal digits of some bytes, two of either case for each, perhaps none, is
/// the delivery of these; `prepare`, `hand` and `restart` are the other events.
///
/// # Errors
///
/// [`ScriptFault::BadLine`] with the number of the first line that isn't one of these, empty lines counted, from 1.
/// Otherwise [`ScriptFault::OutOfMemory`] if memory was refused, which may come before a bad line.
pub fn read_script(alloc: Global, text: &[u8]) -> Result<Vec<Event>, ScriptFault>
    ensures found { IfOk result (λ events. IsScript text.now events.items) }
    ensures only { (events : List Event) → IsScript text.now events → MatchResult result
        (λ found. found.items ≡ events)
        (λ fault. fault ≡ ScriptFault.OutOfMemory) }
    ensures fault { IfErr result (λ fault.
        fault ≢ ScriptFault.OutOfMemory → IsLineFault text.now fault) }
    ensures only_fault { (number : ℕ) → IsFirstBadLine text.now number →
        IsUnless result (Err (ScriptFault.BadLine number)) ScriptFault.OutOfMemory }
    ensures valid { IfOk result (λ events. AllByRecursion IsEvent events.items) }
{
    let list = script_events(alloc, text)?;
    list.into_events()
}

/// Appends the event that the line of this number tells of, and the number, or nothing if the line is empty. False if
/// it isn't a line of a script.
fn append_event(
    alloc: Global,
    line: &[u8],
    number: usize,
    events: &mut Vec<Event>,
    places: &mut Vec<usize>,
) -> Result<bool, AllocError>
    ensures { IfOk result (λ good. MatchBool good
        (AppendsEvents line.now number events.old.items events.new.items places.old.items places.new.items)
        ((IsScriptLine line.now → ⊥) × (events.new.items ≡ events.old.items) × (places.new.items ≡ places.old.items))) }
{
    if line.is_empty() {
        return Ok(true);
    }
    match read_line(alloc, line)? {
        Some(event) => {
            places.push(number)?;
            events.push(event)?;
            Ok(true)
        }
        None => Ok(false),
    }
}

/// The first line of a text, and what is after its line feed, if it has one.
fn split_line(text: &[u8]) -> (&[u8], Option<&[u8]>)
    ensures { MatchOption result.1
        (lines_of text.now ≡ result.0.now ∷ [])
        (λ others. (lines_of text.now ≡ result.0.now ∷ lines_of others.now)
        × (length others.now < length text.now)) }
{
    match find_line_feed(text) {
        Some(len) => (&text[..len], Some(&text[len + 1..])),
        None => (text, None),
    }
}

// In line, the loop would keep a count for each place that comes of it, which slows it down.
#[inline(never)]
fn find_line_feed(text: &[u8]) -> Option<usize>
    ensures { result ≡ position (λ byte. byte == line_feed) text.now }
{
    text.iter().position(|byte| *byte == b'\n')
}

/// The event that a line tells of, or `None` if it tells of none.
fn read_line(alloc: Global, line: &[u8]) -> Result<Option<Event>, AllocError>
    ensures { IfOk result (λ found. MatchOption found
        ((event : Event) → Tells line.now event → ⊥)
        (λ event. Tells line.now event × IsEvent event)) }
{
    if is(line, b"prepare") {
        Ok(Some(Event::Prepare))
    } else if is(line, b"hand") {
        Ok(Some(Event::Hand))
    } else if is(line, b"restart") {
        Ok(Some(Event::Restart))
    } else {
        read_delivery(alloc, line)
    }
}

/// Whether the line is this word.
fn is(line: &[u8], word: &[u8]) -> bool
    ensures { IsTrue result ↔ (line.now ≡ word.now) }
{
    line == word
}

/// The delivery that a line tells of, or `None` if it tells of none.
fn read_delivery(alloc: Global, line: &[u8]) -> Result<Option<Event>, AllocError>
    ensures { IfOk result (λ found. MatchOption found
        ((bytes : List ℕ) → Tells line.now (Event.Deliver bytes) → ⊥)
        (λ event. Tells line.now event × IsEvent event)) }
{
    let Some(digits) = line.strip_prefix(b"deliver ") else {
        return Ok(None);
    };
    match hex::decode(alloc, digits) {
        Ok(bytes) => Ok(Some(Event::Deliver(Bytes::new(bytes)))),
        Err(FromHexError::OutOfMemory) => Err(AllocError),
        Err(_) => Ok(None),
    }
}
