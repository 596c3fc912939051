//! Notes at the start of a journal's file.

ghost use Rattle.std.specs.Prelude.{◌≢◌, IfOk, IfErr, IfSome, IfNone};
ghost use Rattle.boot_notes.specs.Bytes.{HasNoNotes};
ghost use Rattle.bootkeep_c.specs.declared.failure.Failure.{Failure};
ghost use Rattle.bootkeep_c.specs.Answers.{Answers, Finds, TellsValue};
ghost use Rattle.bootkeep_c.specs.Notes.{TakesNotes, IsIdentityIn, AreNewNotes, HasBadIdentity, IsNotesFailure};

use crate::answer::{answer, answer_found, tell};
use crate::failure::Failure;
use crate::refusal::{NOTES_BAD_IDENTITY, Refusal};
use boot_notes::{IDENTITY_LEN, Notes, split_notes, with_notes};
use std::alloc::Global;

/// How many bytes of notes a journal's file begins with.
#[unsafe(no_mangle)]
pub extern "C" fn bootkeep_notes_len(
    alloc: Global,
    notes: &[u8],
    taken: &mut usize,
    refusal: &mut Refusal,
) -> u32
    ensures { TellsValue (TakesNotes notes.now) (IsNotesFailure notes.now) result taken.old taken.new refusal.old refusal.new }
{
    tell(taken_of(alloc, notes), taken, refusal)
}

/// How many bytes of notes these begin with.
fn taken_of(alloc: Global, bytes: &[u8]) -> Result<usize, Failure>
    ensures found { IfOk result (λ taken. TakesNotes bytes.now taken) }
    ensures fault { IfErr result (λ failed. failed ≢ Failure.Memory → IsNotesFailure bytes.now failed) }
{
    match split_notes(alloc, bytes)? {
        Some(split) => Ok(bytes.len() - split.file.len()),
        None => Ok(0),
    }
}

/// Notes with this identity, of which no frame was applied as yet.
#[unsafe(no_mangle)]
pub extern "C" fn bootkeep_notes_make(
    alloc: Global,
    identity: &[u8],
    out: &mut [u8],
    len: &mut usize,
    refusal: &mut Refusal,
) -> u32
    ensures { Answers (AreNewNotes identity.now) (HasBadIdentity identity.now)
        result out.old out.new len.old len.new refusal.old refusal.new }
{
    let made = new_notes(alloc, identity);
    answer(made, out, len, refusal)
}

/// The bytes of notes with this identity and no digests.
fn new_notes(alloc: Global, identity: &[u8]) -> Result<Vec<u8>, Failure>
    ensures made { IfOk result (λ bytes. AreNewNotes identity.now bytes.items) }
    ensures fault { IfErr result (λ failed. failed ≢ Failure.Memory → HasBadIdentity identity.now failed) }
{
    match identity.split_first_chunk::<IDENTITY_LEN>() {
        Some((identity, [])) => Ok(with_notes(alloc, &Notes::new(alloc, *identity), &[])?),
        _ => Err(Failure::bare(NOTES_BAD_IDENTITY)),
    }
}

/// The identity in notes.
#[unsafe(no_mangle)]
pub extern "C" fn bootkeep_notes_identity(
    alloc: Global,
    notes: &[u8],
    out: &mut [u8],
    len: &mut usize,
    refusal: &mut Refusal,
) -> u32
    ensures { Finds (IsIdentityIn notes.now) (HasNoNotes notes.now) (IsNotesFailure notes.now)
        result out.old out.new len.old len.new refusal.old refusal.new }
{
    let found = identity_in(alloc, notes);
    answer_found(found, out, len, refusal)
}

/// The identity in the notes that these bytes begin with, if they do.
fn identity_in(alloc: Global, bytes: &[u8]) -> Result<Option<Vec<u8>>, Failure>
    ensures found { IfOk result (λ found. IfSome found (λ identity. IsIdentityIn bytes.now identity.items)) }
    ensures none { IfOk result (λ found. IfNone found (HasNoNotes bytes.now)) }
    ensures fault { IfErr result (λ failed. failed ≢ Failure.Memory → IsNotesFailure bytes.now failed) }
{
    match split_notes(alloc, bytes)? {
        Some(split) => Ok(Some(Vec::from_slice(alloc, &split.notes.identity())?)),
        None => Ok(None),
    }
}
