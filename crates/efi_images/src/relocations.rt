//! The relocations (PE/COFF, 6.6), as the loader goes through them in memory.

ghost use Rattle.std.specs.Prelude.{◌≡◌, ◌+◌, ◌*◌, ◌<◌, ◌≤◌, ◌^◌, IfOk};
ghost use Rattle.std.specs.Result.{result_err};
ghost use Rattle.efi_images.specs.Sections.{HasTable};
ghost use Rattle.efi_images.specs.Check.{first_fault};
ghost use Rattle.efi_images.specs.Checks.{relocation_checks};
ghost use Rattle.efi_images.specs.Relocations.{has_relocations, block_checks, all_blocks_checks, blocks_checks, block_at_checks, block_size, block_address, block_end, entry_count, entries_checks, entry_checks, is_known_type};

use crate::fault::ImageFault;
use crate::headers::Headers;
use crate::loaded::{Loaded, loaded_at};
use crate::relocation_fault::RelocationFault;
use crate::wanted::wanted;

/// The index of the directory of relocations.
const RELOCATIONS: usize = 5;

/// Addresses of four bytes are below this one.
const ADDRESSES: u64 = 0x1_0000_0000;

/// How many bytes the header of a block has.
const BLOCK_LEN: usize = 8;

/// How many bytes a relocation has.
const RELOCATION_LEN: usize = 2;

/// Relocations are in blocks, each of addresses of one page of so many bytes.
const BLOCK_PAGE: u16 = 0x1000;

/// That the relocations end in the image.
#[tactic(auto, unfolding(crate::specs::Checks::relocation_checks))]
pub(crate) fn check_relocations(headers: &Headers<'_>) -> Result<(), ImageFault>
    ensures { result_err result ≡ first_fault (relocation_checks headers.now) }
{
    let place = headers.directory_place(RELOCATIONS);
    wanted(
        headers.directory_count() < RELOCATIONS as u32
            || headers.directory_place(RELOCATIONS + 1) <= headers.headers_size() as usize,
        ImageFault::RelocationsNotLoaded { place },
    )?;
    let start = headers.directory_start(RELOCATIONS);
    let size = headers.directory_size(RELOCATIONS);
    let end = u64::from(start) + u64::from(size);
    wanted(
        !has_relocations(headers) || end < ADDRESSES,
        ImageFault::RelocationsOverflow { place, start, size },
    )?;
    let image_size = headers.image_size();
    wanted(
        !has_relocations(headers) || end <= u64::from(image_size),
        ImageFault::RelocationsBeyondImage {
            place,
            start,
            size,
            image_size,
        },
    )
}

/// Whether there are relocations.
fn has_relocations(headers: &Headers<'_>) -> bool
    ensures { result ≡ has_relocations headers.now }
{
    headers.directory_count() >= RELOCATIONS as u32 && headers.directory_size(RELOCATIONS) != 0
}

/// That each block of relocations is in the directory, and tells of addresses in the image, in ways that firmware knows.
///
/// The work is no more than the bytes that one section has in the file, or the headers: a block that isn't in them isn't
/// looked at, and one of zeros is refused.
#[tactic(auto, unfolding(crate::specs::Relocations::block_checks))]
pub(crate) fn check_blocks(headers: &Headers<'_>) -> Result<(), ImageFault>
    requires { HasTable headers.now }
    ensures { result_err result ≡ first_fault (block_checks headers.now) }
{
    if !has_relocations(headers) {
        return Ok(());
    }
    let loaded = loaded_at(headers, headers.directory_start(RELOCATIONS));
    let size = headers.directory_size(RELOCATIONS) as usize;
    wanted(
        loaded.size >= BLOCK_LEN || size < 2,
        ImageFault::Relocations(RelocationFault::BlockNotLoaded {
            place: headers.directory_place(RELOCATIONS),
        }),
    )?;
    check_each_block(headers, loaded, size)
}

/// The same of blocks of so many bytes.
fn check_each_block(headers: &Headers<'_>, loaded: Loaded, size: usize) -> Result<(), ImageFault>
    requires loaded { (loaded.place < 2 ^ 33) × (loaded.size < 2 ^ 32) }
    requires size { size < 2 ^ 32 }
    ensures { result_err result ≡ first_fault (blocks_checks headers.now loaded size 0 size) }
{
    let mut offset = 0;
    for _ in 0..size {
        if offset + 1 >= size {
            return Ok(());
        }
        offset = check_block(headers, loaded, size, offset)?;
    }
    Ok(())
}

/// The same of the block at this offset. Gives where the next one is.
fn check_block(
    headers: &Headers<'_>,
    loaded: Loaded,
    size: usize,
    offset: usize,
) -> Result<usize, ImageFault>
    requires loaded { (loaded.place < 2 ^ 33) × (loaded.size < 2 ^ 32) }
    requires size { (offset ≤ size) × (size < 2 ^ 32) }
    ensures fault { result_err result ≡ first_fault (block_at_checks headers.now loaded size offset) }
    ensures next { IfOk result (λ next. (next ≡ offset + block_size headers.now loaded offset) × (next ≤ size)) }
{
    let file = headers.file();
    let place = loaded.file_offset(offset);
    wanted(
        offset + BLOCK_LEN <= loaded.size,
        ImageFault::Relocations(RelocationFault::BlockNotLoaded { place }),
    )?;
    let found = loaded.u32(file, offset + 4);
    let left = size - offset;
    wanted(
        found != 0 && found as usize <= left,
        ImageFault::Relocations(RelocationFault::BlockSize { place, found, left }),
    )?;
    let address = loaded.u32(file, offset);
    let image_size = headers.image_size();
    wanted(
        address < image_size,
        ImageFault::Relocations(RelocationFault::BlockAddress {
            place,
            found: address,
            image_size,
        }),
    )?;
    wanted(
        offset + (found as usize).div_ceil(RELOCATION_LEN) * RELOCATION_LEN <= loaded.size,
        ImageFault::Relocations(RelocationFault::BlockNotLoaded { place }),
    )?;
    let next = offset + found as usize;
    let start = offset + BLOCK_LEN;
    let count = next
        .min(loaded.filled)
        .saturating_sub(start)
        .div_ceil(RELOCATION_LEN);
    check_entries(headers, loaded, address, start, count)?;
    Ok(next)
}

/// The same of so many relocations of a block of this address, the first at this offset.
fn check_entries(
    headers: &Headers<'_>,
    loaded: Loaded,
    address: u32,
    start: usize,
    count: usize,
) -> Result<(), ImageFault>
    requires loaded { loaded.place < 2 ^ 33 }
    requires count { (start < 2 ^ 32) × (count < 2 ^ 31) }
    ensures { result_err result ≡ first_fault (entries_checks headers.now loaded address start count) }
{
    let mut offset = start;
    for _ in 0..count {
        check_entry(headers, loaded, address, offset)?;
        offset += RELOCATION_LEN;
    }
    Ok(())
}

/// That the relocation at this offset is one of an address in the image, in a way that firmware knows.
fn check_entry(
    headers: &Headers<'_>,
    loaded: Loaded,
    address: u32,
    offset: usize,
) -> Result<(), ImageFault>
    requires loaded { loaded.place < 2 ^ 33 }
    requires offset { offset < 2 ^ 33 }
    ensures { result_err result ≡ first_fault (entry_checks headers.now loaded address offset) }
{
    let place = loaded.file_offset(offset);
    let entry = loaded.u16(headers.file(), offset);
    let found = address.wrapping_add(u32::from(entry % BLOCK_PAGE));
    let image_size = headers.image_size();
    wanted(
        found < image_size,
        ImageFault::Relocations(RelocationFault::BeyondImage {
            place,
            found,
            image_size,
        }),
    )?;
    let found = entry / BLOCK_PAGE;
    wanted(
        is_known_type(found),
        ImageFault::Relocations(RelocationFault::UnknownType { place, found }),
    )
}

/// Whether firmware knows relocations of this type.
fn is_known_type(kind: u16) -> bool
    ensures { result ≡ is_known_type kind }
{
    kind == 0 || kind == 1 || kind == 2 || kind == 3 || kind == 10
}
