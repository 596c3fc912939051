//! What the loader asks while it brings an image into memory.

ghost use Rattle.std.specs.Prelude.{◌≡◌, ◌+◌, ◌*◌, ◌<◌, ◌≤◌, ◌^◌, length};
ghost use Rattle.std.specs.Result.{result_err};
ghost use Rattle.std.specs.List.{flat_map};
ghost use Rattle.efi_images.specs.Sections.{HasTable, sections, copied_size, written_size};
ghost use Rattle.efi_images.specs.Check.{first_fault};
ghost use Rattle.efi_images.specs.Checks.{memory_checks, memory_size, loading_checks, last_address};

use crate::fault::ImageFault;
use crate::headers::Headers;
use crate::loader::ARM64;
use crate::section::Section;
use crate::wanted::wanted;

/// How many bytes a page has.
const PAGE: u64 = 4096;

/// The most memory that is taken for granted: 512 MiB. Firmware takes an image's pages wherever they are free, and a machine
/// that starts an operating system has more memory than that. So an image of which a kernel is a part is no larger.
const MEMORY_MAX: u64 = 0x2000_0000;

/// That the image is one that x86-64 loads, that it takes no more memory than is taken for granted, and that it may be
/// loaded at any address.
#[tactic(auto, unfolding(crate::specs::Checks::memory_checks))]
pub(crate) fn check_memory(headers: &Headers<'_>) -> Result<(), ImageFault>
    ensures { result_err result ≡ first_fault (memory_checks headers.now) }
{
    let place = headers.pe() + 4;
    wanted(headers.machine() != ARM64, ImageFault::Arm64 { place })?;
    let place = headers.pe() + 80;
    let found = memory_size(headers);
    wanted(found <= MEMORY_MAX, ImageFault::Memory { place, found })?;
    let place = headers.pe() + headers.base_offset();
    let found = headers.image_base();
    wanted(
        !headers.is_stripped() || found >= PAGE,
        ImageFault::FixedBase { place, found },
    )?;
    let place = headers.pe() + 22;
    wanted(
        !headers.is_stripped(),
        ImageFault::RelocationsStripped { place },
    )?;
    let place = headers.pe() + 56;
    wanted(
        headers.alignment() != 0,
        ImageFault::SectionAlignment { place },
    )
}

/// How much memory is taken for the image.
#[tactic(auto, unfolding(crate::specs::Checks::memory_size))]
fn memory_size(headers: &Headers<'_>) -> u64
    ensures { result ≡ memory_size headers.now }
{
    let alignment = u64::from(headers.alignment());
    let more = if alignment > PAGE { alignment } else { 0 };
    let size = u64::from(headers.image_size()) + more;
    (size + (PAGE - 1)) / PAGE * PAGE
}

/// That each section ends in the image, and is written over none of the headers that are read.
pub(crate) fn check_loading(headers: &Headers<'_>) -> Result<(), ImageFault>
    requires { HasTable headers.now }
    ensures { result_err result ≡ first_fault (flat_map (loading_checks headers.now) (sections headers.now)) }
{
    for index in 0..headers.section_count() {
        check_loaded(headers, headers.section(index))?;
    }
    Ok(())
}

/// The same of this section.
fn check_loaded(headers: &Headers<'_>, section: Section) -> Result<(), ImageFault>
    ensures { result_err result ≡ first_fault (loading_checks headers.now section) }
{
    let address = section.virtual_address;
    let copied = section.copied_size();
    let image_size = headers.image_size();
    wanted(
        copied == 0 || address < image_size && last_address(&section) < image_size,
        ImageFault::SectionBeyondImage {
            section,
            image_size,
        },
    )?;
    let written = section.written_size();
    let memory_size = memory_size(headers);
    wanted(
        written == 0 || u64::from(address) + u64::from(written) <= memory_size,
        ImageFault::SectionBeyondMemory {
            section,
            memory_size,
        },
    )?;
    let table_end = headers.table_end();
    wanted(
        section.virtual_size <= copied || address as usize >= table_end,
        ImageFault::SectionOverTable { section, table_end },
    )
}

/// The section's last address, a number of four bytes.
fn last_address(section: &Section) -> u32
    ensures { result ≡ last_address section.now }
{
    section
        .virtual_address
        .wrapping_add(section.virtual_size)
        .wrapping_sub(1)
}
