//! Requests that are run over a machine's boot variables with a journal, and what is noted of them (UEFI specification,
//! version 2.10, chapter 3).
//!
//! [`Requests`] are events of `boot_requests` as a [`Run`](boot_journal::Run), over variables as a machine keeps them, with
//! attributes. By [`command`](boot_journal::command) each request is applied once, whatever is cut off when and whatever
//! firmware does in between: the [`laws`] say so of lists of calls. [`NotedRun`] is what such a run leaves to be kept beside
//! the journal, by which a sender is told whether a number that comes again was given to the same request.
#![tactic(auto)]

mod applied;
pub mod laws;
mod noted_run;
mod requests;

pub use noted_run::NotedRun;
pub use requests::{AnsweredRequests, Requests, RunFault};
