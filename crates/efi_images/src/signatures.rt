//! Signature lists (UEFI 2.10, 32.4.1), which db, dbx and KEK hold.

ghost use Rattle.std.specs.Prelude.{◌≡◌, ◌⊎◌, ◌+◌, ◌<◌, ◌≤◌, ◌^◌, ℕ, List, Ok, Err, IfOk, IfErr, length, map};
ghost use Rattle.efi_images.specs.Signatures.{list_parts, list_at, HasLists, HasListFault};

use crate::bytes::u32_at;
use crate::digest::part;
use std::alloc::Global;
use thiserror::Error;

/// How many bytes a list has before its header.
const LIST_LEN: usize = 28;

/// How many bytes a GUID has, that of a list's type or of a signature's owner.
pub(crate) const GUID_LEN: usize = 16;

/// A signature list, where it is in the bytes.
#[derive(Clone, Copy, Debug)]
pub struct SignatureList<'a> {
    /// Where it begins: its offset in bytes.
    pub place: usize,
    /// How many bytes it has.
    pub len: usize,
    /// The GUID of its type, as it is stored.
    pub kind: &'a [u8],
    /// Its header, which no type of the standard has.
    pub header: &'a [u8],
    /// How many bytes each signature has: 16 for the GUID of its owner, and its data.
    pub signature_len: usize,
    /// The bytes of the signatures, one right after the other. There may be none.
    pub signatures: &'a [u8],
}

/// Why bytes aren't signature lists. The first number is the offset of the list with the fault.
#[derive(Clone, Copy, Debug, PartialEq, Eq, Error)]
pub enum ListFault {
    /// The bytes end in the 28 before the list's header.
    #[error("CutHeader {0}")]
    CutHeader(usize),
    /// The list has fewer bytes than its headers, or more than there are; and how many it has.
    #[error("BadListSize {0} {1}")]
    BadListSize(usize, usize),
    /// A signature has fewer than 16 bytes, or the signatures aren't whole; and how many it has.
    #[error("BadSignatureSize {0} {1}")]
    BadSignatureSize(usize, usize),
    /// Memory was refused.
    #[error("OutOfMemory")]
    OutOfMemory,
}

/// The signature lists that the bytes of db, dbx or KEK are, all of them, one right after the other. The bytes are lent,
/// and not copied.
///
/// # Errors
///
/// The fault of the first list that has one. [`ListFault::OutOfMemory`] if memory for the list of lists was refused.
pub fn read_lists(alloc: Global, bytes: &[u8]) -> Result<Vec<SignatureList<'_>>, ListFault>
    ensures lists { IfOk result (λ lists. HasLists bytes.now 0 (map list_parts lists.items)) }
    ensures fault { IfErr result (λ fault. (fault ≡ ListFault.OutOfMemory) ⊎ HasListFault bytes.now 0 fault) }
{
    let mut lists = Vec::new(alloc);
    let mut place = 0;
    while place < bytes.len() {
        let list = list_at(bytes, place)?;
        let Ok(()) = lists.push(list) else {
            return Err(ListFault::OutOfMemory);
        };
        place += list.len;
    }
    Ok(lists)
}

/// The list at this offset.
#[tactic(auto, unfolding(crate::specs::Signatures::list_at))]
fn list_at(bytes: &[u8], place: usize) -> Result<SignatureList<'_>, ListFault>
    requires { place ≤ length bytes.now }
    ensures list { IfOk result (λ list. list_at bytes.now place ≡ Ok (list_parts list)) }
    ensures within { IfOk result (λ list. (28 ≤ list.len) × (place + list.len ≤ length bytes.now)) }
    ensures fault { IfErr result (λ fault. list_at bytes.now place ≡ Err fault) }
{
    if place + LIST_LEN > bytes.len() {
        return Err(ListFault::CutHeader(place));
    }
    let len = u32_at(bytes, place + 16) as usize;
    let header_len = u32_at(bytes, place + 20) as usize;
    let signature_len = u32_at(bytes, place + 24) as usize;
    if len < LIST_LEN + header_len || place + len > bytes.len() {
        return Err(ListFault::BadListSize(place, len));
    }
    let signatures_len = len - (LIST_LEN + header_len);
    if signature_len < GUID_LEN || signatures_len % signature_len != 0 {
        return Err(ListFault::BadSignatureSize(place, signature_len));
    }
    Ok(SignatureList {
        place,
        len,
        kind: part(bytes, place, GUID_LEN),
        header: part(bytes, place + LIST_LEN, header_len),
        signature_len,
        signatures: part(bytes, place + (LIST_LEN + header_len), signatures_len),
    })
}
