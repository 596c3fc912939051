//! What a program tells a person: why it didn't do what it was asked to, and what it tells on standard error beside its
//! answer.
//!
//! A [`Failure`] has a message, and the status of a program that ends with it; of an input that is refused it has a
//! [`Reason`]. What several parts of a program tell has words of its own, as [`NoSuch`]. [`note`] tells something on standard error about a place or a file, and [`print`] writes to standard
//! output. [`shown`], [`Quoted`] and [`Shortened`] show names and texts as messages do, so that they can't steer a
//! terminal.
#![tactic(auto)]

mod failure;
mod notes;
mod other_files;
mod reason;
mod words;

pub use failure::Failure;
pub use notes::{DamageWords, Quoted, SHOWN_MAX, Shortened, note, print, shown};
pub use other_files::{NoOption, OtherKind};
pub use reason::Reason;
pub use words::{IsIgnored, IsThere, NoSuch, Unreadable, WrongWord};
