//! Numbered requests that change the boot entries of a machine, each applied once and in the order of the numbers,
//! and the boots between them (UEFI specification, version 2.10, chapter 3).
//!
//! A [`Request`] with its number is sent as a frame: [`read_frame`] reads one from its bytes, all of them, and
//! [`write_frame`] gives its one spelling. An [`Inbox`] cuts a stream of frames, in pieces of any length, into the
//! bytes of each. A [`Keeper`] holds the variables, what waits and what is prepared: [`Keeper::step`] gives the one
//! after an [`Event`] and the [`Reply`], and [`run`] goes over many events. [`answer_events`] gives an [`Answer`] to
//! each, which tells more than the reply, and [`answer_lines`] the lines of the replies alone.
//!
//! Events are written down as a script, lines of text, or as a stream, frames one after the other: [`read_script`]
//! and [`read_stream`] read them, or tell the first fault by a [`ScriptFault`], and [`script_events`] and
//! [`stream_events`] read up to that fault, as an [`EventList`] with the place of each event. An [`InputFormat`] says
//! which of the two some bytes are.
#![tactic(auto)]

mod answer;
mod bytes;
mod edit;
mod effect;
mod event;
mod event_list;
mod fault;
mod fault_offset;
mod frame;
mod gap;
mod inbox;
mod input_format;
mod keeper;
pub mod laws;
mod line;
mod mark;
mod outcome;
mod reader;
mod reply;
mod request;
mod runs;
mod script;
mod script_fault;
mod slot;
mod stored_state;
mod stream;
mod update;
mod window;
mod writer;

pub use answer::{Answer, answer_events, answer_lines};
pub use bytes::Bytes;
pub use event::Event;
pub use event_list::EventList;
pub use fault::{FeedFault, FrameFault, OpenFault};
pub use frame::{FRAME_MAGIC, PAYLOAD_MAX};
pub use inbox::Inbox;
pub use input_format::InputFormat;
pub use keeper::Keeper;
pub use line::{append_reply_line, reply_line};
pub use mark::KEPT_MAX;
pub use outcome::{Code, Outcome};
pub use reader::{frame_len, read_frame};
pub use reply::Reply;
pub use request::{OrderList, Request};
pub use runs::run;
pub use script::{read_script, script_events};
pub use script_fault::ScriptFault;
pub use stored_state::OpenRefused;
pub use stream::{read_stream, stream_events};
pub use window::WIDTH;
pub use writer::write_frame;
