//! What firmware asks of an image, in the order in which it looks.

ghost use Rattle.std.specs.Prelude.{◌≡◌, ◌+◌, ◌*◌, ◌<◌, ◌≤◌, ◌^◌, ◌++◌, List, Some, None, IfOk, IfErr, IfSome, OnOk, IsTrue, IsFalse, length};
ghost use Rattle.std.specs.Result.{result_err};
ghost use Rattle.efi_images.specs.Headers.{HasHeaders, HoldsHeaders};
ghost use Rattle.efi_images.specs.Sections.{HasTable, sections};
ghost use Rattle.efi_images.specs.Check.{first_fault};
ghost use Rattle.efi_images.specs.Debug.{code_view_place};
ghost use Rattle.efi_images.specs.Checks.{signature_checks, kind_checks, boot_manager_checks, form_checks, file_checks, loader_checks, image_checks};

use crate::bytes::{u16_at, u32_at};
use crate::code_view::check_code_view;
use crate::debug::check_debug;
use crate::fault::ImageFault;
use crate::headers::{DOS_LEN, Headers, PE_LEN, PE_PLACE, PE32, PE32_PLUS};
use crate::loader::{check_directories, check_sections, check_sizes, check_table};
use crate::loading::{check_loading, check_memory};
use crate::relocations::{check_blocks, check_relocations};
use crate::resources::check_resources;
use crate::start::check_start;
use crate::wanted::wanted;

/// `MZ`, by which a DOS header begins.
const DOS_SIGNATURE: u16 = 0x5A4D;

/// `PE` and two zeros.
const PE_SIGNATURE: u32 = 0x4550;

/// Subsystem of an EFI application.
const APPLICATION: u16 = 10;

/// Makes the checks that EDK2's firmware for x86-64 makes of a file's headers before it starts it, in firmware's order:
/// the boot manager's, LoadImage's (UEFI 2.10, 7.4.1) and StartImage's (UEFI 2.10, 7.4.2). `Ok` says that each of them
/// holds. They are all but those of signatures.
///
/// What the loader reads in memory - CodeView data, the resource directory, the blocks of relocations - is told from the
/// file: it is undecided where that is in no section, or in several. What a relocation changes isn't followed.
///
/// # Errors
///
/// The fault of the first check that doesn't hold. [`ImageFault::effect`] tells whether firmware then refuses the file,
/// goes wrong, or decides by more than the file's bytes. What comes after that check isn't looked at.
#[tactic(auto, using(crate::proofs::Firsts::first_fault_append), unfolding(crate::specs::Checks::image_checks))]
pub fn check_image(file: &[u8]) -> Result<(), ImageFault>
    ensures { result_err result ≡ first_fault (image_checks file.now) }
{
    let headers = check_boot_manager(file, file.len())?;
    let code_view = check_file(&headers)?;
    check_loader(&headers, code_view)?;
    check_start(&headers)
}

/// The headers, if the boot manager takes a file of this length that begins with these bytes for an application.
#[tactic(auto, using(crate::proofs::Firsts::first_fault_append), unfolding(crate::specs::Checks::boot_manager_checks))]
pub(crate) fn check_boot_manager(front: &[u8], len: usize) -> Result<Headers<'_>, ImageFault>
    requires { HoldsHeaders len front.now }
    ensures fault { result_err result ≡ first_fault (boot_manager_checks len front.now) }
    ensures headers { IfOk result (λ headers. headers ≡ front.now) }
{
    let headers = check_signatures(front, len)?;
    check_kind(&headers)?;
    Ok(headers)
}

/// What the loader asks before it takes memory: where things are in the file. Gives where the debug entry of CodeView data
/// is.
#[tactic(auto, using(crate::proofs::Firsts::first_fault_append), unfolding(crate::specs::Checks::file_checks))]
fn check_file(headers: &Headers<'_>) -> Result<Option<usize>, ImageFault>
    ensures fault { result_err result ≡ first_fault (file_checks headers.now) }
    ensures table { IfOk result (λ _. HasTable headers.now) }
    ensures entry { IfOk result (λ entry. entry ≡ code_view_place headers.now) }
    ensures bound { IfOk result (λ entry. IfSome entry (λ place. place < 2 ^ 63)) }
{
    check_form(headers, headers.file().len())?;
    check_debug(headers)
}

/// What the loader asks of the headers and of where sections are in the file, which has this length.
#[tactic(auto, using(crate::proofs::Firsts::first_fault_append), unfolding(crate::specs::Checks::form_checks))]
pub(crate) fn check_form(headers: &Headers<'_>, len: usize) -> Result<(), ImageFault>
    requires { HoldsHeaders len headers.now }
    ensures fault { result_err result ≡ first_fault (form_checks len headers.now) }
    ensures table { IfOk result (λ _. HasTable headers.now) }
{
    check_directories(headers)?;
    check_sizes(headers, len)?;
    check_table(headers, len)?;
    check_sections(headers, len)?;
    Ok(())
}

/// What the loader asks then: where things are in memory.
#[tactic(auto, using(crate::proofs::Firsts::first_fault_append), unfolding(crate::specs::Checks::loader_checks))]
fn check_loader(headers: &Headers<'_>, code_view: Option<usize>) -> Result<(), ImageFault>
    requires table { HasTable headers.now }
    requires entry { code_view ≡ code_view_place headers.now }
    requires bound { IfSome code_view (λ place. place < 2 ^ 63) }
    ensures { result_err result ≡ first_fault (loader_checks headers.now) }
{
    check_memory(headers)?;
    check_loading(headers)?;
    check_code_view(headers, code_view)?;
    check_resources(headers)?;
    check_relocations(headers)?;
    check_blocks(headers)
}

/// The headers, if a file of this length that begins with these bytes has the signatures that the boot manager looks for,
/// and bytes for the headers.
#[tactic(auto, unfolding(crate::specs::Checks::signature_checks))]
fn check_signatures(front: &[u8], len: usize) -> Result<Headers<'_>, ImageFault>
    requires { HoldsHeaders len front.now }
    ensures fault { result_err result ≡ first_fault (signature_checks len front.now) }
    ensures headers { IfOk result (λ headers. headers ≡ front.now) }
{
    wanted(len != 0, ImageFault::Empty)?;
    wanted(len >= DOS_LEN, ImageFault::ShortDosHeader { len })?;
    let found = u16_at(front, 0);
    wanted(found == DOS_SIGNATURE, ImageFault::DosSignature { found })?;
    let found = u32_at(front, PE_PLACE);
    let place = found as usize;
    wanted(place + PE_LEN <= len, ImageFault::PePlace { found, len })?;
    let found = u32_at(front, place);
    wanted(
        found == PE_SIGNATURE,
        ImageFault::PeSignature { place, found },
    )?;
    Ok(Headers::new(front))
}

/// That the image is an application.
#[tactic(auto, unfolding(crate::specs::Checks::kind_checks))]
fn check_kind(headers: &Headers<'_>) -> Result<(), ImageFault>
    ensures { result_err result ≡ first_fault (kind_checks headers.now) }
{
    let place = headers.pe() + 24;
    let found = headers.magic();
    wanted(
        found == PE32 || found == PE32_PLUS,
        ImageFault::Magic { place, found },
    )?;
    let place = headers.pe() + 92;
    let found = headers.subsystem();
    wanted(found == APPLICATION, ImageFault::Subsystem { place, found })
}
