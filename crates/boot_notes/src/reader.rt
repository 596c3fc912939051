//! Bytes to notes.

ghost use Rattle.std.specs.Prelude.{◌≡◌, ◌≢◌, ◌++◌, ◌+◌, ◌<◌, ℕ, List, length, IfOk, IfErr, IfSome, IfNone, MatchOption, MatchResult};
ghost use Rattle.std.specs.List.{flat_map};
ghost use Rattle.boot_notes.specs.Bytes.{HasNoNotes, SpellsNotes, body_bytes, digest_bytes};
ghost use Rattle.boot_notes.specs.Fault.{IsCutAfter, IsBodyFault, IsNotesFault};
ghost use Rattle.boot_notes.specs.Notes.{NotesParts, IsNotes};
ghost use Rattle.boot_notes.specs.declared.fault.NotesFault.TheVariants as fault;

use crate::digest::{DIGEST_LEN, FrameDigest, look_at_each};
use crate::fault::NotesFault;
use crate::laws;
use crate::notes::{IDENTITY_LEN, Notes};
use crate::writer::MAGIC;
use std::alloc::Global;

/// Where the identity is in a file.
const IDENTITY_AT: usize = MAGIC.len();

/// Where the count of digests is.
const COUNT_AT: usize = IDENTITY_AT + IDENTITY_LEN;

/// Where the first digest is.
const DIGESTS_AT: usize = COUNT_AT + 1;

/// How many bytes the number of a request has.
const NUMBER_LEN: usize = 4;

/// How many bytes a digest has with the number of its request.
const KEPT_LEN: usize = NUMBER_LEN + DIGEST_LEN;

/// The most digests that notes have.
const DIGESTS_MAX: u8 = 128;

/// The notes at the start of a file, and the file without them.
#[derive(Debug, Drop)]
pub struct SplitNotes<'a> {
    /// The notes.
    pub notes: Notes,
    /// The file without them.
    pub file: &'a [u8],
}

/// The notes at the start of a journal's file, as [`with_notes`](crate::with_notes) writes them, and the file behind them:
/// `None` if it doesn't begin with `BKJ3`. A count that the bytes state takes no more memory than there are bytes.
///
/// # Errors
///
/// The first of these faults. [`NotesFault::Truncated`] if the file ends in the identity or the count;
/// [`NotesFault::TooMany`] if the count is more than 128, however many digests there are; then [`NotesFault::Truncated`] if
/// the file ends in a digest. [`NotesFault::OutOfMemory`] comes if memory was refused, also before a digest in which the
/// file ends, and never if it doesn't begin with `BKJ3`.
pub fn split_notes(alloc: Global, bytes: &[u8]) -> Result<Option<SplitNotes<'_>>, NotesFault>
    // What is read is spelled so.
    ensures found { IfOk result (λ split. IfSome split (λ parts. SpellsNotes bytes.now parts.notes parts.file.now)) }
    // What is spelled so is read.
    ensures only { (notes : NotesParts) (file : List ℕ) → SpellsNotes bytes.now notes file → MatchResult result
        (λ split. MatchOption split ⊥ (λ parts. (parts.notes ≡ notes) × (parts.file.now ≡ file)))
        (λ f. f ≡ fault.OutOfMemory) }

    ensures none { IfOk result (λ split. IfNone split (HasNoNotes bytes.now)) }
    ensures only_none { HasNoNotes bytes.now → MatchResult result (λ split. MatchOption split (Unit {0}) (λ parts. ⊥)) (λ f. ⊥) }
    ensures fault { IfErr result (λ f. f ≢ fault.OutOfMemory → IsNotesFault bytes.now f) }
{
    laws::bytes_spell_notes_once();
    laws::a_fault_leaves_no_notes();
    match bytes.strip_prefix(&MAGIC) {
        Some(body) => Ok(Some(split_body(alloc, body)?)),
        None => Ok(None),
    }
}

/// The notes that follow the letters, and what is behind them.
fn split_body(alloc: Global, body: &[u8]) -> Result<SplitNotes<'_>, NotesFault>
    ensures found { IfOk result (λ parts. body.now ≡ body_bytes parts.notes ++ parts.file.now) }
    ensures valid { IfOk result (λ parts. IsNotes parts.notes) }
    ensures fault { IfErr result (λ f. f ≢ fault.OutOfMemory → IsBodyFault body.now f) }
{
    let Some((identity, behind)) = body.split_first_chunk::<IDENTITY_LEN>() else {
        return Err(NotesFault::Truncated(IDENTITY_AT));
    };
    let Some((count, behind)) = behind.split_first() else {
        return Err(NotesFault::Truncated(COUNT_AT));
    };
    if *count > DIGESTS_MAX {
        return Err(NotesFault::TooMany(COUNT_AT));
    }
    let (digests, file) = split_digests(alloc, *count, behind)?;
    look_at_each(&digests);
    Ok(SplitNotes {
        notes: Notes {
            identity: *identity,
            digests,
        },
        file,
    })
}

/// So many digests at the start of these bytes, which are behind the count, and what is behind them.
fn split_digests(
    alloc: Global,
    count: u8,
    bytes: &[u8],
) -> Result<(Vec<FrameDigest>, &[u8]), NotesFault>
    ensures found { IfOk result (λ split. bytes.now ≡ flat_map digest_bytes split.0.items ++ split.1.now) }
    ensures count { IfOk result (λ split. length split.0.items ≡ count) }
    ensures fault { IfErr result (λ f. f ≢ fault.OutOfMemory → IsCutAfter count bytes.now f) }
{
    let mut digests = Vec::new(alloc);
    let mut rest = bytes;
    for index in 0..usize::from(count) {
        let Some((kept, behind)) = split_digest(rest) else {
            return Err(NotesFault::Truncated(DIGESTS_AT + KEPT_LEN * index));
        };
        digests.push(kept)?;
        rest = behind;
    }
    Ok((digests, rest))
}

/// The digest at the start of these bytes, and what is behind it: `None` if they end in it.
fn split_digest(bytes: &[u8]) -> Option<(FrameDigest, &[u8])>
    ensures found { IfSome result (λ split. bytes.now ≡ digest_bytes split.0 ++ split.1.now) }
    ensures len { IfSome result (λ split. length bytes.now ≡ 12 + length split.1.now) }
    ensures none { IfNone result (length bytes.now < 12) }
{
    let (number, behind) = bytes.split_first_chunk::<NUMBER_LEN>()?;
    let (digest, behind) = behind.split_first_chunk::<DIGEST_LEN>()?;
    let kept = FrameDigest {
        number: u32::from_le_bytes(*number),
        digest: *digest,
    };
    Some((kept, behind))
}
