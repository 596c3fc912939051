//! Updates of a machine's boot variables by numbered requests, as they are wanted: in a folder as Linux shows variables, or
//! in an emulator's variable file (UEFI specification, version 2.10, chapter 3).
//!
//! [`WantedRequests`] are the events of a [`Script`], which [`read_events`] reads, to be run over a machine's variables by
//! `machine_changes`, whatever is cut off when; beside the journal it is noted which frames were applied. None is run if
//! something isn't as [`Precondition`](request_preconditions::Precondition)s expect it: that is [`Unmet`]. [`ending`] tells
//! whether all was done, [`NotMade`] why nothing was, and [`next_number`] which request is to be applied next.
#![tactic(auto)]

mod guarded;
mod left_out;
mod look;
mod not_made;
mod noted;
mod numbers;
mod replies;
mod requests_run;
mod script;
mod wanted;

pub use guarded::Unmet;
pub use not_made::NotMade;
pub use noted::Noted;
pub use numbers::next_number;
pub use replies::{Ended, ReplyForm, ending};
pub use requests_run::Answered;
pub use script::{Script, read_events};
pub use wanted::{Printing, WantedRequests};
