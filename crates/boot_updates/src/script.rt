//! Scripts and streams of requests.

use crate::not_made::{NotMade, Refused};
use boot_requests::{Event, EventList, InputFormat};
use messages::Failure;
use request_texts::refused_script;
use std::alloc::Global;
use std::rt::Files;
use var_places::{name_of, read};

/// The events of a script or a stream.
#[derive(Drop)]
pub struct Script<'a> {
    /// What it is called.
    pub name: &'a str,
    /// What it is.
    pub format: InputFormat,
    /// The events, in their order.
    pub events: Vec<Event>,
    /// The place of each of them, as [`EventList`] has it.
    pub places: Vec<usize>,
}

impl Script<'_> {
    /// A script without events, of no file.
    pub fn empty(alloc: Global) -> Script<'static> {
        Script {
            name: "",
            format: InputFormat::Script,
            events: Vec::new(alloc),
            places: Vec::new(alloc),
        }
    }
}

/// The events of the script at this path, or of the stream, read to its end.
///
/// # Errors
///
/// [`Failure::Read`] if it can't be read, [`Failure::Refused`] if it is too long, [`Failure::Run`] if it is no script or
/// no stream, and [`Failure::Memory`] if memory was refused.
pub fn read_events<'a, R: Files + Input + AllocGlobal>(
    rt: &R,
    path: &'a str,
    format: InputFormat,
) -> Result<Script<'a>, NotMade> {
    let alloc = rt.alloc();
    let bytes = read(rt, path)?;
    let name = name_of(path);
    let list = format.events(alloc, &bytes)?;
    let words = refused_script(alloc, format, &bytes, &list)?;
    let EventList {
        events,
        places,
        fault,
        ..
    } = list;
    match (fault, words) {
        (Some(fault), Some(words)) => Err(NotMade::refused(
            Refused::Script(fault),
            Failure::from_run(alloc, name, words.as_str()),
        )),
        _ => Ok(Script {
            name,
            format,
            events,
            places,
        }),
    }
}
