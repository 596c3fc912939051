//! What the command `bootvars` prints of numbered requests: values and texts alone, with no file and no machine (UEFI
//! specification, version 2.10, chapters 3 and 10).
//!
//! [`explain_report`] shows what the frames of a script or a stream ask for, as lines for a person, and [`explain_json`] as JSON.
//! [`reply_json`] shows the answer to an event, and [`refusal_json`] why an update wasn't made; docs/formats.md has each line and
//! each field. [`frame_words`] are why bytes are no frame, [`refused_script`] why a script is none, and [`open_reason`] why no
//! requests can be run over variables.
#![tactic(auto)]

mod event_position;
mod explain;
mod frame_reason;
mod refusal;
mod replies;
mod script_reason;

pub use event_position::EventPosition;
pub use explain::{Explained, explain_json, explain_report, refused_script};
pub use frame_reason::{frame_words, open_reason};
pub use refusal::{Refusal, Remedy, refusal_json};
pub use replies::{ShownReply, ToldReply, reply_json};
