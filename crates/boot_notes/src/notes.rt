//! What is kept beside a journal for those who send requests.

ghost use Rattle.std.specs.Prelude.{◌≡◌, ◌≤◌, [], length, IfOk};
ghost use Rattle.boot_notes.specs.Notes.{notes_of, kept_before, after_run, last_of, below};

use crate::digest::{FrameDigest, look_at_each};
use std::alloc::{AllocError, Global};
use std::marker::Model;

/// How many bytes an identity has.
pub const IDENTITY_LEN: usize = 16;

/// Of how many frames the digests are kept: of those that were applied last.
pub const KEPT_MAX: usize = 64;

/// An identity, and the digests of the frames that were applied last: of those before the last run [`KEPT_MAX`] at most, and
/// behind them as many at most of that run, which may be taken back.
#[derive(Debug, Drop)]
pub struct Notes {
    pub(crate) identity: [u8; IDENTITY_LEN],
    pub(crate) digests: Vec<FrameDigest>,
}

impl Model for Notes {
    ghost use Rattle.boot_notes.specs.Notes.{NotesParts, IsNotes, notes_of};

    ghost Value = { NotesParts };

    ghost view = { λ n. notes_of n.identity n.digests.items };

    ghost invariant = { λ n. IsNotes (notes_of n.identity n.digests.items) };
}

impl Notes {
    /// Notes with this identity, of which no frame was applied as yet.
    pub fn new(alloc: Global, identity: [u8; IDENTITY_LEN]) -> Notes
        ensures { result ≡ notes_of identity [] }
    {
        Notes {
            identity,
            digests: Vec::new(alloc),
        }
    }

    /// The identity.
    pub fn identity(&self) -> [u8; IDENTITY_LEN]
        ensures { result ≡ self.now.identity }
    {
        self.identity
    }

    /// The digests of the last [`KEPT_MAX`] frames that were applied before a run that begins with this next number. What is
    /// kept of other numbers is of a run that was taken back.
    ///
    /// # Errors
    ///
    /// [`AllocError`] if memory was refused.
    pub fn kept_before(
        &self,
        alloc: Global,
        next_number: u32,
    ) -> Result<Vec<FrameDigest>, AllocError>
        ensures { IfOk result (λ kept. kept.items ≡ kept_before self.now next_number) }
    {
        let lower = below(alloc, &self.digests, next_number)?;
        Vec::from_slice(alloc, last_of(&lower))
    }

    /// The notes after a run that began with this next number, and applied frames of these digests, in this order.
    ///
    /// They keep the digests of the last [`KEPT_MAX`] frames that were applied before the run, so that they are still there
    /// if it is taken back, and behind them those of the last as many that the run applied. A digest of a number that isn't
    /// below the next one is of a run that was taken back: it is never read, and isn't kept.
    ///
    /// # Errors
    ///
    /// [`AllocError`] if memory was refused.
    pub fn after_run(
        &self,
        alloc: Global,
        next_number: u32,
        applied: &[FrameDigest],
    ) -> Result<Notes, AllocError>
        ensures { IfOk result (λ notes. notes ≡ after_run self.now next_number applied.now) }
    {
        let mut digests = self.kept_before(alloc, next_number)?;
        digests.extend_from_slice(last_of(applied))?;
        look_at_each(&digests);
        Ok(Notes {
            identity: self.identity,
            digests,
        })
    }
}

/// The digests of requests below this number.
fn below(
    alloc: Global,
    digests: &[FrameDigest],
    number: u32,
) -> Result<Vec<FrameDigest>, AllocError>
    ensures { IfOk result (λ lower. lower.items ≡ below number digests.now) }
{
    let mut lower = Vec::new(alloc);
    for kept in digests {
        if kept.number < number {
            lower.push(*kept)?;
        }
    }
    Ok(lower)
}

/// The last [`KEPT_MAX`] of these.
pub fn last_of(digests: &[FrameDigest]) -> &[FrameDigest]
    ensures last { result.now ≡ last_of digests.now }
    ensures len { length result.now ≤ 64 }
{
    &digests[digests.len().saturating_sub(KEPT_MAX)..]
}
