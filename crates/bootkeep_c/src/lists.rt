//! Where signature lists are in the data of a variable.

ghost use Rattle.std.specs.Prelude.{◌≡◌, ◌≢◌, map, IfOk, IfErr};
ghost use Rattle.efi_images.specs.declared.signatures.SignatureList.{SignatureList};
ghost use Rattle.efi_images.specs.Signatures.{list_parts};
ghost use Rattle.bootkeep_c.specs.declared.failure.Failure.{Failure};
ghost use Rattle.bootkeep_c.specs.Status.{bad_size};
ghost use Rattle.bootkeep_c.specs.Buffer.{IsKept};
ghost use Rattle.bootkeep_c.specs.Answers.{Answers};
ghost use Rattle.bootkeep_c.specs.Images.{list_places, HasListsAt, IsListsFailure};

use crate::answer::answer;
use crate::failure::Failure;
use crate::refusal::Refusal;
use crate::status::BAD_SIZE;
use efi_images::{SignatureList, read_lists};
use std::alloc::{AllocError, Global};

/// How many bytes the struct of a list's places has.
const LIST_LEN: usize = 32;

/// Where a signature list is in the bytes: `struct bootkeep_signature_list`.
#[repr(C)]
#[derive(Clone, Copy, Debug, PartialEq, Eq)]
pub struct ListPlaces {
    /// Where it begins: with the GUID of its type, in 16 bytes.
    pub place: usize,
    /// How many bytes it has.
    pub len: usize,
    /// How many bytes its header has, which begins after 28 bytes.
    pub header_len: usize,
    /// How many bytes each signature has. The first begins after the header.
    pub signature_len: usize,
}

// As many bytes as the header asserts.
const _: () = prove!(size_of::<ListPlaces>() == LIST_LEN);

/// Where the signature lists are in the data of db, dbx or KEK (UEFI 2.10, 32.4.1).
#[unsafe(no_mangle)]
pub extern "C" fn bootkeep_signature_lists(
    alloc: Global,
    bytes: &[u8],
    lists: &mut [ListPlaces],
    item_size: usize,
    len: &mut usize,
    refusal: &mut Refusal,
) -> u32
    ensures size { item_size ≢ 32 → (result ≡ bad_size) × IsKept lists.old lists.new len.old len.new
        × (refusal.new ≡ refusal.old) }
    ensures answers { item_size ≡ 32 → Answers (HasListsAt bytes.now) (IsListsFailure bytes.now)
        result lists.old lists.new len.old len.new refusal.old refusal.new }
{
    if item_size != LIST_LEN {
        return BAD_SIZE;
    }
    let found = lists_of(alloc, bytes);
    answer(found, lists, len, refusal)
}

/// The places of the lists.
fn lists_of(alloc: Global, bytes: &[u8]) -> Result<Vec<ListPlaces>, Failure>
    ensures found { IfOk result (λ places. HasListsAt bytes.now places.items) }
    ensures fault { IfErr result (λ failed. failed ≢ Failure.Memory → IsListsFailure bytes.now failed) }
{
    let lists = read_lists(alloc, bytes)?;
    Ok(places_of(alloc, &lists)?)
}

/// The places of these lists.
fn places_of(alloc: Global, lists: &[SignatureList<'_>]) -> Result<Vec<ListPlaces>, AllocError>
    ensures { IfOk result (λ places. places.items ≡ map (λ (list : SignatureList). list_places (list_parts list)) lists.now) }
{
    let mut places = Vec::new(alloc);
    for list in lists {
        places.push(place_of(list))?;
    }
    Ok(places)
}

/// The place of this list.
fn place_of(list: &SignatureList<'_>) -> ListPlaces
    ensures { result ≡ list_places (list_parts list.now) }
{
    ListPlaces {
        place: list.place,
        len: list.len,
        header_len: list.header.len(),
        signature_len: list.signature_len,
    }
}
