//! Changes of a machine's boot variables that a caller makes move by move, in any language: an engine without input and
//! output (UEFI specification, version 2.10, chapter 3).
//!
//! [`boot_journal::command`] settles a machine, runs something over its variables, and updates it, and it makes each move by
//! a call of a [`Storage`](boot_journal::Storage), which is Rattle code. [`Moves`] is the same command turned round: it does
//! nothing by itself. [`Moves::next`] says that a [`Move`] comes next, the caller makes it and tells by [`Moves::tell`] what
//! became of it, an [`Answer`], and so on until [`Next::Ended`] has what the command answers. After a loss of power the
//! caller throws it away, and begins a new one over what is there then; with [`Nothing`] as its run that does what is left
//! to do, and no more. [`Dialogue`] is the same without what is run, for a caller that keeps that.
//!
//! It is a replay. It keeps what the machine had at first, and the moves with their answers, the first one first. For the
//! next move it runs the command from the start over a machine that answers each move as it was told, and that stops at
//! the first move of which nothing was told yet. So there is no other engine than the command's own, and what is proved of
//! that is so of what the caller does: [`laws`] has that each such command is a call of `command`.
//!
//! The caller promises this, which no proof can see:
//!
//! - *Order*: it makes no move but the one that is asked for, and that one once, and tells what became of it before it asks
//!   for the next one.
//! - *Whole*: a move is made or isn't, whatever is cut off when.
//! - *Lasting*: it tells [`Answer::Done`] once no cut undoes the move, and no later move lasts before an earlier one.
//! - *Truth*: what it begins with is what is there; it tells [`Answer::Refused`] only if the move isn't made, and
//!   [`Answer::Perhaps`] if it is made, or if that can't be told. To set what is there already, and to delete what isn't
//!   there, is done.
//! - *Alone*: from before it reads what is there until the end nobody else changes the boot manager's variables or the
//!   journal.
//! - *Starts*: the identity is another one after each start of the machine, and the same until then.
#![tactic(auto)]

mod dialogue;
mod journals;
pub mod laws;
mod moves;
mod nothing;
mod parts;
mod replay;
mod replaying;
mod same;

pub use dialogue::{Dialogue, Next};
pub use moves::Moves;
pub use nothing::Nothing;
pub use parts::{Answer, Move};
