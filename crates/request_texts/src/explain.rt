//! What the frames of a script or a stream ask for, by `bootvars explain`.

use crate::event_position::EventPosition;
use crate::frame_reason::frame_reason;
use crate::script_reason::script_reason;
use boot_requests::{Event, EventList, FRAME_MAGIC, FrameFault, InputFormat, Request, read_frame};
use std::alloc::{AllocError, Global};
use std::fmt;
use uefi_option::LoadOption;
use uefi_vars::EntryDigits;
use value_texts::json::{
    JsonObject, JsonWriter, Leaf, append_leaf, append_leaves, append_object, append_objects,
    json_line,
};
use value_texts::{
    AttributeWords, FaultReason, NumberList, ShownOption, Summary, option_place, option_reason,
};

/// What a script or a stream asks for, in words.
#[derive(Debug, Drop)]
pub struct Explained {
    /// The lines for a person, or the JSON.
    pub text: String,
    /// Whether something in it is at fault: a frame, or the script or the stream itself.
    pub is_faulty: bool,
}

/// A script or a stream as it is shown.
#[derive(Drop)]
struct Explanation {
    /// What the bytes are.
    format: InputFormat,
    /// What is asked for, in its order, up to a fault of the script or the stream itself.
    steps: Vec<Step>,
    /// The fault of the script or the stream itself, for which nothing of it is run.
    fault: Option<FormatFault>,
    /// Where the first fault is, of a frame or of the whole.
    first_fault: Option<EventPosition>,
}

/// One event of a script, or one frame of a stream.
#[derive(Drop)]
struct Step {
    /// Where it is.
    place: EventPosition,
    /// What it asks for.
    asks: Asks,
}

/// What a step asks for.
#[derive(Drop)]
enum Asks {
    /// What a request does.
    Request(ShownRequest),
    /// An event of this word that is no delivery.
    Event(&'static str),
    /// Nothing: the bytes aren't a frame.
    Malformed(Malformed),
}

/// A request as it is shown.
#[derive(Drop)]
struct ShownRequest {
    /// What it is about, in a word.
    kind: &'static str,
    /// Its number.
    request: u32,
    /// The number of the entry that it names, if it names one.
    entry: Option<EntryDigits>,
    /// The numbers that BootOrder is to have, if it is about that.
    entries: Option<Vec<u16>>,
    /// The load option that it has, if it has one. It is in a box, since a script may have many requests without one.
    option: Option<Box<ShownOption>>,
}

/// Bytes that are delivered and aren't a frame.
#[derive(Drop)]
struct Malformed {
    /// The words of the fault.
    fault: String,
    /// The offset of the fault in the bytes.
    place: usize,
    /// The fault in plain words.
    reason: FaultReason,
    /// The bytes in hexadecimal digits.
    data: String,
}

/// The fault of a script or a stream.
#[derive(Drop)]
struct FormatFault {
    /// Where it is.
    place: EventPosition,
    /// The words of the fault.
    fault: String,
    /// The fault in plain words.
    reason: FaultReason,
}

impl fmt::Display for FormatFault {
    fn fmt<W: fmt::Write>(&self, f: &mut fmt::Formatter<W>) -> fmt::Result {
        write!(f, "{}: {}: {}", self.place, self.fault, self.reason)
    }
}

/// Explains what the frames of a script or a stream ask for (docs/formats.md), as lines for a person: what it is, each
/// event of the script with the number of its line, or each frame of the stream with its offset, then what is wrong
/// with the script or the stream itself, and where the first fault is. If no format is given, bytes that begin with `42 51`
/// are a stream, and all others a script. A frame that is at fault doesn't end it, since a machine goes on after it too; a bad line does.
///
/// # Errors
///
/// [`AllocError`] if memory was refused.
pub fn explain_report(
    alloc: Global,
    bytes: &[u8],
    format: Option<InputFormat>,
) -> Result<Explained, AllocError> {
    let explanation = explain(alloc, bytes, format)?;
    let mut text = String::new(alloc);
    append_explanation(&explanation, &mut text)?;
    let is_faulty = explanation.first_fault.is_some();
    Ok(Explained { text, is_faulty })
}

/// Appends the lines of a script or a stream.
fn append_explanation(explanation: &Explanation, text: &mut String) -> Result<(), AllocError> {
    writeln!(text, "{}", format_word(explanation.format))?;
    for step in &explanation.steps {
        writeln!(text, "{}: {}", step.place, step.asks)?;
    }
    if let Some(fault) = &explanation.fault {
        writeln!(text, "{fault}")?;
    }
    match &explanation.first_fault {
        Some(place) => writeln!(text, "first fault at {place}"),
        None => text.push_str("no fault\n"),
    }
}

/// Explains what the frames of a script or a stream ask for as JSON, an object on one line that ends with a line feed:
/// what [`explain_report`] explains. docs/formats.md has each member.
///
/// # Errors
///
/// [`AllocError`] if memory was refused.
pub fn explain_json(
    alloc: Global,
    bytes: &[u8],
    format: Option<InputFormat>,
) -> Result<Explained, AllocError> {
    let explanation = explain(alloc, bytes, format)?;
    let text = json_line(alloc, &explanation)?;
    let is_faulty = explanation.first_fault.is_some();
    Ok(Explained { text, is_faulty })
}

/// The words of what is wrong with a script or a stream itself, of which these are the events: where it is, the fault and
/// its reason, as the line of [`explain_report`] has them. They are `None` if it has no fault.
///
/// # Errors
///
/// [`AllocError`] if memory was refused.
pub fn refused_script(
    alloc: Global,
    format: InputFormat,
    bytes: &[u8],
    list: &EventList,
) -> Result<Option<String>, AllocError> {
    match fault_of(alloc, format, bytes, list)? {
        Some(fault) => Ok(Some(format!(in alloc; "{fault}")?)),
        None => Ok(None),
    }
}

/// What the bytes are that begin so.
fn format_of(bytes: &[u8]) -> InputFormat {
    if bytes.starts_with(&FRAME_MAGIC) {
        InputFormat::Stream
    } else {
        InputFormat::Script
    }
}

/// What the bytes ask for, which are of this format, if one is given.
fn explain(
    alloc: Global,
    bytes: &[u8],
    format: Option<InputFormat>,
) -> Result<Explanation, AllocError> {
    let format = format.unwrap_or_else(|| format_of(bytes));
    let list = format.events(alloc, bytes)?;
    let steps = steps_of(alloc, format, &list)?;
    let fault = fault_of(alloc, format, bytes, &list)?;
    let first_fault = first_fault(&steps, fault.as_ref());
    Ok(Explanation {
        format,
        steps,
        fault,
        first_fault,
    })
}

/// The steps of the events, each at its place.
fn steps_of(alloc: Global, format: InputFormat, list: &EventList) -> Result<Vec<Step>, AllocError> {
    let mut steps = Vec::with_capacity(alloc, list.events.len())?;
    for (event, at) in list.events.iter().zip(&list.places) {
        steps.push(Step {
            place: EventPosition::new(format, *at),
            asks: Asks::from_event(alloc, event)?,
        })?;
    }
    Ok(steps)
}

/// The fault of the script or the stream itself, if it has one.
fn fault_of(
    alloc: Global,
    format: InputFormat,
    bytes: &[u8],
    list: &EventList,
) -> Result<Option<FormatFault>, AllocError> {
    match &list.fault {
        Some(fault) => Ok(Some(FormatFault {
            place: EventPosition::new(format, list.end),
            fault: fault.words(alloc)?,
            reason: script_reason(bytes, fault),
        })),
        None => Ok(None),
    }
}

/// Where the first fault is: every step comes before the fault of the whole.
fn first_fault(steps: &[Step], fault: Option<&FormatFault>) -> Option<EventPosition> {
    let malformed = steps
        .iter()
        .find(|step| matches!(step.asks, Asks::Malformed(_)));
    match (malformed, fault) {
        (Some(step), _) => Some(step.place),
        (None, Some(fault)) => Some(fault.place),
        (None, None) => None,
    }
}

/// What bytes of this format are called.
fn format_word(format: InputFormat) -> &'static str {
    match format {
        InputFormat::Script => "script",
        InputFormat::Stream => "stream",
    }
}

impl Asks {
    /// What an event of a script asks for.
    fn from_event(alloc: Global, event: &Event) -> Result<Asks, AllocError> {
        match event {
            Event::Deliver(bytes) => Asks::from_frame(alloc, bytes.bytes()),
            Event::Prepare => Ok(Asks::Event("prepare")),
            Event::Hand => Ok(Asks::Event("hand")),
            Event::Restart => Ok(Asks::Event("restart")),
        }
    }

    /// What the bytes ask for, which may be a frame.
    fn from_frame(alloc: Global, bytes: &[u8]) -> Result<Asks, AllocError> {
        match read_frame(alloc, bytes) {
            Ok((number, request)) => Ok(Asks::Request(ShownRequest::new(alloc, number, &request)?)),
            Err(FrameFault::OutOfMemory) => Err(AllocError),
            Err(fault) => Ok(Asks::Malformed(Malformed::new(alloc, bytes, &fault)?)),
        }
    }
}

impl ShownRequest {
    /// What is shown of the request with this number.
    fn new(alloc: Global, number: u32, request: &Request) -> Result<ShownRequest, AllocError> {
        Ok(ShownRequest {
            kind: request.name(),
            request: number,
            entry: request.entry().map(EntryDigits),
            entries: match request {
                Request::Order(order) => Some(Vec::from_slice(alloc, order.numbers())?),
                _ => None,
            },
            option: match request {
                Request::Add(_, option)
                | Request::Replace(_, option)
                | Request::AddFree(option)
                | Request::AddFirst(option) => Some(shown_option(alloc, option)?),
                _ => None,
            },
        })
    }
}

/// What is shown of an option, in a box.
fn shown_option(alloc: Global, option: &LoadOption) -> Result<Box<ShownOption>, AllocError> {
    Ok(Box::new(alloc, ShownOption::new(alloc, option.copy(alloc)?)?)?)
}

impl Malformed {
    /// What is shown of bytes that have this fault.
    fn new(alloc: Global, bytes: &[u8], fault: &FrameFault) -> Result<Malformed, AllocError> {
        let start = fault.offset(bytes);
        let (within, reason) = match fault {
            FrameFault::Option(fault) => (
                option_place(fault).unwrap_or(0),
                option_reason(bytes.get(start..).unwrap_or(&[]), fault),
            ),
            fault => (0, frame_reason(fault)),
        };
        Ok(Malformed {
            fault: fault.words(alloc)?,
            place: start.saturating_add(within),
            reason,
            data: hex::encode(alloc, bytes)?,
        })
    }
}

impl fmt::Display for Asks {
    fn fmt<W: fmt::Write>(&self, f: &mut fmt::Formatter<W>) -> fmt::Result {
        match self {
            Asks::Request(request) => write!(f, "{request}"),
            Asks::Event(word) => f.write_str(word),
            Asks::Malformed(malformed) => write!(f, "{malformed}"),
        }
    }
}

impl fmt::Display for ShownRequest {
    fn fmt<W: fmt::Write>(&self, f: &mut fmt::Formatter<W>) -> fmt::Result {
        write!(f, "request {}: {}", self.request, self.kind)?;
        if let Some(entry) = &self.entry {
            write!(f, " {entry}")?;
        }
        if let Some(entries) = &self.entries {
            write!(f, "{}", NumberList(entries))?;
        }
        match &self.option {
            Some(option) => write!(f, " {}", WithAttributes(option)),
            None => Ok(()),
        }
    }
}

impl fmt::Display for Malformed {
    fn fmt<W: fmt::Write>(&self, f: &mut fmt::Formatter<W>) -> fmt::Result {
        let (fault, reason) = (self.fault.as_str(), &self.reason);
        write!(f, "malformed, {fault}, at byte {}: {reason}", self.place)
    }
}

/// An option in one line, with its attributes in words.
#[derive(Clone, Copy)]
struct WithAttributes<'a>(&'a ShownOption);

impl fmt::Display for WithAttributes<'_> {
    fn fmt<W: fmt::Write>(&self, f: &mut fmt::Formatter<W>) -> fmt::Result {
        let attributes = AttributeWords(self.0.attributes());
        write!(f, "{} ({attributes})", Summary(self.0))
    }
}

impl JsonObject for Explanation {
    fn append_members(&self, out: &mut JsonWriter) -> Result<(), AllocError> {
        append_leaf("form", Leaf::Word(Some(format_word(self.format))), out)?;
        append_objects("steps", &self.steps, out)?;
        append_object("fault", self.fault.as_ref(), out)?;
        append_object("first_fault", self.first_fault.as_ref(), out)
    }
}

impl JsonObject for Step {
    fn append_members(&self, out: &mut JsonWriter) -> Result<(), AllocError> {
        self.place.append_members(out)?;
        match &self.asks {
            Asks::Request(request) => request.append_members(out),
            Asks::Event(word) => append_leaf("kind", Leaf::Word(Some(word)), out),
            Asks::Malformed(malformed) => malformed.append_members(out),
        }
    }
}

impl JsonObject for ShownRequest {
    fn append_members(&self, out: &mut JsonWriter) -> Result<(), AllocError> {
        append_leaf("kind", Leaf::Word(Some(self.kind)), out)?;
        append_leaf("request", Leaf::Number(Some(self.request)), out)?;
        if let Some(entry) = self.entry {
            append_leaf("entry", Leaf::Entry(Some(entry)), out)?;
        }
        if let Some(entries) = &self.entries {
            append_leaf("entries", Leaf::Numbers(Some(entries)), out)?;
        }
        match &self.option {
            Some(option) => append_object("option", Some(&**option), out),
            None => Ok(()),
        }
    }
}

impl JsonObject for Malformed {
    fn append_members(&self, out: &mut JsonWriter) -> Result<(), AllocError> {
        append_leaves(
            &[
                ("kind", Leaf::Word(Some("malformed"))),
                ("fault", Leaf::Text(Some(&self.fault))),
                ("place", Leaf::Count(Some(self.place))),
                ("reason", Leaf::Reason(self.reason)),
                ("data", Leaf::Text(Some(&self.data))),
            ],
            out,
        )
    }
}

impl JsonObject for FormatFault {
    fn append_members(&self, out: &mut JsonWriter) -> Result<(), AllocError> {
        self.place.append_members(out)?;
        append_leaves(
            &[
                ("fault", Leaf::Text(Some(&self.fault))),
                ("reason", Leaf::Reason(self.reason)),
            ],
            out,
        )
    }
}
