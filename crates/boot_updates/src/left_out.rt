//! Variables of a machine that no set can hold, and that requests so can't change.

ghost use Rattle.std.specs.Prelude.{◌↔◌, All, Contains, map, IfSome, IfNone, IsTrue};
ghost use Rattle.std.specs.String.{string_bytes};
ghost use Rattle.boot_updates.specs.LeftOut.{IsTouched};

use crate::not_made::{NotMade, Refused};
use crate::script::Script;
use boot_requests::{Event, FrameFault, Request, read_frame};
use messages::Failure;
use request_texts::EventPosition;
use std::alloc::{AllocError, Global};
use uefi_vars::{BOOT_NEXT, BOOT_ORDER, laws as vars_laws};
use wanted_changes::{LEFT_OUT, is_one_of};

/// Refuses the script if a request in it would change one of the variables of these names, which no set can hold. It is
/// looked at before anything is run, so also a request is refused that was applied before.
///
/// # Errors
///
/// [`Failure::Run`] with the first such request, and [`Failure::Memory`] if memory was refused.
pub(crate) fn check_requests(
    alloc: Global,
    script: &Script<'_>,
    left_out: &[String],
) -> Result<(), NotMade> {
    if left_out.is_empty() {
        return Ok(());
    }
    for (event, at) in script.events.iter().zip(&script.places) {
        if let Some(variable) = changed_by(alloc, event, left_out)? {
            let place = EventPosition::new(script.format, *at);
            let fault = format!(in alloc; "{place} would change {variable}, which {LEFT_OUT}")?;
            return Err(NotMade::refused(
                Refused::LeftOut,
                Failure::from_run(alloc, script.name, fault.as_str()),
            ));
        }
    }
    Ok(())
}

/// The variable of these that the event would change, if it is a request.
fn changed_by<'a>(
    alloc: Global,
    event: &Event,
    left_out: &'a [String],
) -> Result<Option<&'a str>, AllocError> {
    let Event::Deliver(bytes) = event else {
        return Ok(None);
    };
    match read_frame(alloc, bytes.bytes()) {
        Ok((_number, request)) => Ok(changed_by_request(&request, left_out)),
        Err(FrameFault::OutOfMemory) => Err(AllocError),
        Err(_) => Ok(None),
    }
}

/// The first of these variables that the request would change, or name.
fn changed_by_request<'a>(request: &Request, left_out: &'a [String]) -> Option<&'a str>
    ensures some { IfSome result (λ name. Contains (map string_bytes left_out.now) name.now × IsTouched request.now name.now) }
    ensures none { IfNone result (All (λ name. ¬ IsTouched request.now (string_bytes name)) left_out.now) }
{
    left_out
        .iter()
        .map(String::as_str)
        .find(|name| touches(request, name))
}

/// Whether the request changes the variable of this name, or names its entry. One that makes an entry passes taken numbers
/// over.
fn touches(request: &Request, name: &str) -> bool
    ensures { IsTrue result ↔ IsTouched request.now name.now }
{
    vars_laws::constants_are_those_of_the_definitions();
    match request {
        Request::Add(..) | Request::AddFree(_) | Request::AddFirst(_) => name == BOOT_ORDER,
        Request::Replace(entry, _) => is_one_of(&[*entry], name),
        Request::Remove(entry) => {
            is_one_of(&[*entry], name) || name == BOOT_ORDER || name == BOOT_NEXT
        }
        Request::Next(entry) => is_one_of(&[*entry], name) || name == BOOT_NEXT,
        Request::First(entry) => is_one_of(&[*entry], name) || name == BOOT_ORDER,
        Request::Order(order) => is_one_of(order.numbers(), name) || name == BOOT_ORDER,
    }
}
