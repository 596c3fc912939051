//! Notes to bytes.

ghost use Rattle.std.specs.Prelude.{◌≡◌, ◌++◌, IfOk, OnOk};
ghost use Rattle.std.specs.List.{flat_map};
ghost use Rattle.boot_notes.specs.Bytes.{SpellsNotes, digest_bytes};

use crate::digest::FrameDigest;
use crate::notes::Notes;
use std::alloc::{AllocError, Global};

/// What a journal's file with notes begins with: `BKJ3`.
pub(crate) const MAGIC: [u8; 4] = [0x42, 0x4B, 0x4A, 0x33];

/// The file of a journal with these notes, of its file without: the four bytes `BKJ3`, the identity, how many digests there
/// are in one byte, for each the number of its request in four bytes, little-endian, and its eight bytes, and then the file
/// without notes. This fails only when out of memory.
pub fn with_notes(alloc: Global, notes: &Notes, file: &[u8]) -> Result<Vec<u8>, AllocError>
    ensures { IfOk result (λ bytes. SpellsNotes bytes.items notes.now file.now) }
{
    let mut out = Vec::from_slice(alloc, &MAGIC)?;
    out.extend_from_slice(&notes.identity)?;
    // There are at most 128.
    out.push(notes.digests.len() as u8)?;
    append_digests(&notes.digests, &mut out)?;
    out.extend_from_slice(file)?;
    Ok(out)
}

/// Appends digests one after the other.
fn append_digests(digests: &[FrameDigest], out: &mut Vec<u8>) -> Result<(), AllocError>
    ensures { OnOk result (out.new.items ≡ out.old.items ++ flat_map digest_bytes digests.now) }
{
    for kept in digests {
        out.extend_from_slice(&kept.number.to_le_bytes())?;
        out.extend_from_slice(&kept.digest)?;
    }
    Ok(())
}
