//! What is kept beside a journal for those who send requests: an identity, by which a sender knows the journal again, and
//! digests of the frames that were applied last, by which it is told whether a number that comes again was given to the same
//! request.
//!
//! [`Notes`] are both. [`split_notes`] reads them at the start of a journal's file, and [`with_notes`] writes them there, in
//! this crate's own format. [`Notes::after_run`] adds the [`FrameDigest`] of each frame that a run applied, [`digest_under`]
//! finds that of a number, and [`is_same`] tells whether it is of a frame.
#![tactic(auto)]

mod digest;
mod fault;
pub mod laws;
mod notes;
mod reader;
mod writer;

pub use digest::{DIGEST_LEN, FrameDigest, digest_under, is_same};
pub use fault::NotesFault;
pub use notes::{IDENTITY_LEN, KEPT_MAX, Notes, last_of};
pub use reader::{SplitNotes, split_notes};
pub use writer::with_notes;
