//! What the command `bootkeep` does, over values, readers, writers and files: reports of what firmware keeps about
//! how a machine starts, and runs of numbered requests over its boot variables.
//!
//! [`path_report`], [`text_report`], [`option_report`] and [`set_report`] show a device path, its bytes, a load
//! option and a set of variables as text; what they refuse is told by a [`Refusal`]. [`run_script`] and
//! [`run_stream`] run the events of a script, or the frames of a stream, over variables, and [`run_input`] either, by
//! its [`InputFormat`](boot_requests::InputFormat), from a [`Source`] to a [`Sink`], which a [`Watched`] makes of a reader or a writer of the
//! standard library; they tell what is wrong by a [`ScriptRunFault`]. An [`InputFault`] and an [`OutputFault`] are what
//! the command says of a file that isn't read or written.
#![tactic(auto)]

mod fault;
mod file_fault;
pub mod laws;
mod refusal;
mod report;
mod runs;
mod source;
mod transfer;

pub use fault::ScriptRunFault;
pub use file_fault::{InputFault, OutputFault};
pub use refusal::{Fault, Refusal, refuse};
pub use report::{option_report, path_report, set_report, text_report};
pub use runs::{run_input, run_script, run_stream};
pub use source::{Sink, Source, Watched};
