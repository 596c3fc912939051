//! What the loader asks of the headers and of the section table.

ghost use Rattle.std.specs.Prelude.{◌≡◌, ◌+◌, ◌*◌, ◌<◌, ◌≤◌, ◌^◌, IfOk, length};
ghost use Rattle.std.specs.Result.{result_err};
ghost use Rattle.std.specs.List.{flat_map};
ghost use Rattle.efi_images.specs.Headers.{HoldsHeaders, table_place, section_count};
ghost use Rattle.efi_images.specs.Sections.{HasTable, sections};
ghost use Rattle.efi_images.specs.Check.{first_fault};
ghost use Rattle.efi_images.specs.Checks.{directory_checks, size_checks, table_checks, section_checks, is_in_file, is_known, wanted_image_size, wanted_headers_size, wanted_optional_size, has_certificates};

use crate::fault::ImageFault;
use crate::headers::Headers;
use crate::section::{SECTION_LEN, Section};
use crate::wanted::wanted;

/// Machine of x86-64.
const X86_64: u16 = 0x8664;

/// Machine of IA32.
pub(crate) const IA32: u16 = 0x14C;

/// Machine of EFI byte code.
pub(crate) const BYTE_CODE: u16 = 0xEBC;

/// Machine of ARM64.
pub(crate) const ARM64: u16 = 0xAA64;

/// How many data directories an image has at most.
const DIRECTORY_MAX: u32 = 16;

/// How many bytes a data directory has.
const DIRECTORY_LEN: usize = 8;

/// The index of the certificate table's directory.
pub(crate) const CERTIFICATES: usize = 4;

/// What a part of a file ends at, at most: the greatest number of four bytes.
const END_MAX: usize = 0xFFFF_FFFF;

/// That there are no more data directories than the format has, and that the optional header ends with them.
#[tactic(auto, unfolding(crate::specs::Checks::directory_checks))]
pub(crate) fn check_directories(headers: &Headers<'_>) -> Result<(), ImageFault>
    ensures fault { result_err result ≡ first_fault (directory_checks headers.now) }
{
    let count = headers.directory_count();
    wanted(
        count <= DIRECTORY_MAX,
        ImageFault::DirectoryCount {
            place: headers.count_place(),
            found: count,
        },
    )?;
    let found = headers.optional_size();
    let wanted_size = headers.fixed_size() + DIRECTORY_LEN * count as usize;
    wanted(
        usize::from(found) == wanted_size,
        ImageFault::OptionalHeaderSize {
            place: headers.pe() + 20,
            found,
            wanted: wanted_size,
        },
    )
}

/// That SizeOfImage and SizeOfHeaders have room for the section table, and that the headers end in the image and in the
/// file, which has this length.
#[tactic(auto, unfolding(crate::specs::Checks::size_checks))]
pub(crate) fn check_sizes(headers: &Headers<'_>, len: usize) -> Result<(), ImageFault>
    requires { HoldsHeaders len headers.now }
    ensures fault { result_err result ≡ first_fault (size_checks len headers.now) }
    ensures table { IfOk result (λ _. HasTable headers.now) }
{
    let place = headers.pe() + 80;
    let image_size = headers.image_size();
    let least = headers.table_end() + SECTION_LEN;
    wanted(
        image_size as usize >= least,
        ImageFault::ImageSize {
            place,
            found: image_size,
            wanted: least,
        },
    )?;
    let place = headers.pe() + 84;
    let found = headers.headers_size();
    let least = headers.least_headers_size();
    wanted(
        found as usize >= least,
        ImageFault::HeadersSize {
            place,
            found,
            wanted: least,
        },
    )?;
    wanted(
        found < image_size,
        ImageFault::HeadersBeyondImage {
            place,
            found,
            image_size,
        },
    )?;
    wanted(
        found as usize <= len,
        ImageFault::HeadersBeyondFile { place, found, len },
    )
}

/// That the certificate table ends in the file, which has this length, and that firmware knows the machine.
#[tactic(auto, unfolding(crate::specs::Checks::table_checks))]
pub(crate) fn check_table(headers: &Headers<'_>, len: usize) -> Result<(), ImageFault>
    ensures fault { result_err result ≡ first_fault (table_checks len headers.now) }
{
    let start = headers.directory_start(CERTIFICATES);
    let size = headers.directory_size(CERTIFICATES);
    wanted(
        headers.directory_count() <= CERTIFICATES as u32 || is_in_file(start, size, len),
        ImageFault::CertificatesBeyondFile {
            place: headers.directory_place(CERTIFICATES),
            start,
            size,
            len,
        },
    )?;
    let found = headers.machine();
    wanted(
        is_known(found),
        ImageFault::Machine {
            place: headers.pe() + 4,
            found,
        },
    )
}

/// Whether firmware knows the machine.
fn is_known(machine: u16) -> bool
    ensures { result ≡ is_known machine }
{
    machine == X86_64 || machine == IA32 || machine == BYTE_CODE || machine == ARM64
}

/// Whether so many bytes from this offset on are in a file of this length, or are none.
fn is_in_file(start: u32, size: u32, len: usize) -> bool
    ensures { result ≡ is_in_file start size len }
{
    size == 0 || start as usize + size as usize <= len.min(END_MAX)
}

/// That each section is after the headers, and ends in the file, which has this length.
pub(crate) fn check_sections(headers: &Headers<'_>, len: usize) -> Result<(), ImageFault>
    requires { HasTable headers.now }
    ensures { result_err result ≡ first_fault (flat_map (section_checks len headers.now) (sections headers.now)) }
{
    for index in 0..headers.section_count() {
        check_section(headers, headers.section(index), len)?;
    }
    Ok(())
}

/// That this section is after the headers, and ends in the file, which has this length.
fn check_section(headers: &Headers<'_>, section: Section, len: usize) -> Result<(), ImageFault>
    ensures { result_err result ≡ first_fault (section_checks len headers.now section) }
{
    let headers_size = headers.headers_size();
    wanted(
        section.raw_size == 0
            || section.virtual_address >= headers_size && section.raw_place >= headers_size,
        ImageFault::SectionInHeaders {
            section,
            headers_size,
        },
    )?;
    wanted(
        is_in_file(section.raw_place, section.raw_size, len),
        ImageFault::SectionBeyondFile { section, len },
    )
}
