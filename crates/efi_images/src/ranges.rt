//! Which bytes of a file are digested.

ghost use Rattle.std.specs.Prelude.{◌≡◌, ◌⊎◌, ◌<◌, ◌≤◌, ◌^◌, ◌++◌, None, Some, IfOk, IfErr, IfSome, IfNone, length, map};
ghost use Rattle.std.specs.Result.{result_err};
ghost use Rattle.efi_images.specs.Headers.{HoldsHeaders};
ghost use Rattle.efi_images.specs.Sections.{HasTable, sections};
ghost use Rattle.efi_images.specs.Digest.{between, header_ranges, section_range, total_size, certificates_size, last_range, IsFileOrder, HasRanges, size_fault, front_fault, IsFaultOf, IsRead};

use crate::bytes::u32_at;
use crate::check::{check_boot_manager, check_form};
use crate::digest_fault::DigestFault;
use crate::headers::{DOS_LEN, Headers, PE_LEN, PE_PLACE};
use crate::loader::CERTIFICATES;
use crate::section::Section;
use std::alloc::{AllocError, Global};

/// How many bytes CheckSum is after the PE signature.
const SUM: usize = 88;

/// How many bytes CheckSum has.
const SUM_LEN: usize = 4;

/// A range of a file that is digested.
#[derive(Clone, Copy, Debug, PartialEq, Eq, Hash)]
pub struct DigestRange {
    /// Where it begins: its offset in bytes from the file's first byte.
    pub place: usize,
    /// How many bytes it has. If these are some, they are in the file; a range without bytes may begin after its end.
    pub len: usize,
}

/// What the first bytes of a file tell of the ranges that are digested.
#[derive(Drop, Debug)]
pub enum RangesRead {
    /// These are all of them, in the order in which they are digested.
    Ranges(Vec<DigestRange>),
    /// The headers go on after these bytes.
    Cut {
        /// How many of the file's first bytes are wanted: more than were given, and no more than it has.
        wanted: usize,
    },
}

/// The ranges of a file of this length that its Authenticode digest runs over (UEFI 2.10, 32.5.3), as far as its first
/// bytes tell them, so that it can be read in pieces: the digest is that of the bytes of these ranges, one right after the
/// other, and [`image_digest`](crate::image_digest) gives the same. Two sections may share bytes, which are then digested
/// twice.
///
/// The first 4096 bytes tell the ranges of most files. After [`RangesRead::Cut`] a call with as many bytes as are wanted
/// gets further: no more than three answers in a row are `Cut`. A file can say that its headers are anywhere in its first
/// four gigabytes, so set a limit to what you read. `front` may have more bytes than the headers, up to the whole file.
///
/// # Errors
///
/// Those of [`image_digest`](crate::image_digest).
pub fn digest_ranges(alloc: Global, front: &[u8], len: usize) -> Result<RangesRead, DigestFault>
    ensures read { IfOk result (λ read. IsRead len front.now read) }
    ensures fault { IfErr result (λ fault. (fault ≡ DigestFault.OutOfMemory) ⊎ IsFaultOf len front.now fault) }
{
    if let Some(wanted) = wanted_len(front, len) {
        return Ok(RangesRead::Cut { wanted });
    }
    match front_ranges(alloc, front, len) {
        Ok(ranges) => Ok(RangesRead::Ranges(ranges)),
        Err(fault) => Err(fault),
    }
}

/// How many of a file's first bytes are wanted, if its headers go on after these.
fn wanted_len(front: &[u8], len: usize) -> Option<usize>
    ensures wanted { IfSome result (λ wanted. (length front.now < wanted) × (wanted ≤ len)) }
    ensures held { IfNone result (HoldsHeaders len front.now) }
{
    if len < DOS_LEN {
        return None;
    }
    if front.len() < DOS_LEN {
        return Some(DOS_LEN);
    }
    let headers_end = u32_at(front, PE_PLACE) as usize + PE_LEN;
    if headers_end > len {
        return None;
    }
    if front.len() < headers_end {
        return Some(headers_end);
    }
    let table_end = Headers::new(front).table_end();
    if table_end <= len && front.len() < table_end {
        return Some(table_end);
    }
    None
}

/// The ranges of a file of this length that begins with these bytes, which hold its headers.
pub(crate) fn front_ranges(
    alloc: Global,
    front: &[u8],
    len: usize,
) -> Result<Vec<DigestRange>, DigestFault>
    requires { HoldsHeaders len front.now }
    ensures ranges { IfOk result (λ ranges. (front_fault len front.now ≡ None) × HasRanges len front.now ranges.items) }
    ensures fault { IfErr result (λ fault. (fault ≡ DigestFault.OutOfMemory) ⊎ (front_fault len front.now ≡ Some fault)) }
{
    let headers = match check_boot_manager(front, len) {
        Ok(headers) => headers,
        Err(fault) => return Err(DigestFault::Image(fault)),
    };
    match check_form(&headers, len) {
        Ok(()) => {}
        Err(fault) => return Err(DigestFault::Image(fault)),
    }
    check_total(&headers, len)?;
    match all_ranges(alloc, &headers, len) {
        Ok(ranges) => Ok(ranges),
        Err(_) => Err(DigestFault::OutOfMemory),
    }
}

/// That headers, sections and certificate table have no more bytes than the file, which has this length.
#[tactic(auto, unfolding(crate::specs::Digest::size_fault))]
fn check_total(headers: &Headers<'_>, len: usize) -> Result<(), DigestFault>
    requires { HasTable headers.now }
    ensures { result_err result ≡ size_fault len headers.now }
{
    let found = total_size(headers);
    if found > len {
        return Err(DigestFault::Overlap { found, len });
    }
    let size = certificates_size(headers);
    if found < len && size > len - found {
        return Err(DigestFault::CertificatesOverlap { found, size, len });
    }
    Ok(())
}

/// How many bytes the headers and the sections have.
fn total_size(headers: &Headers<'_>) -> usize
    requires { HasTable headers.now }
    ensures { result ≡ total_size headers.now }
{
    let mut total = headers.headers_size() as usize;
    for index in 0..headers.section_count() {
        let section = headers.section(index);
        total += raw_len(&section);
    }
    total
}

/// How many bytes the section has in the file.
fn raw_len(section: &Section) -> usize
    ensures len { result ≡ section.now.raw_size }
    ensures bound { result < 2 ^ 32 }
{
    section.raw_size as usize
}

/// How many bytes the certificate table has.
pub(crate) fn certificates_size(headers: &Headers<'_>) -> usize
    ensures { result ≡ certificates_size headers.now }
{
    if headers.directory_count() as usize <= CERTIFICATES {
        return 0;
    }
    headers.directory_size(CERTIFICATES) as usize
}

/// The ranges of a file of this length with these headers.
#[tactic(auto, unfolding(crate::specs::Digest::digest_ranges))]
fn all_ranges(
    alloc: Global,
    headers: &Headers<'_>,
    len: usize,
) -> Result<Vec<DigestRange>, AllocError>
    requires { HasTable headers.now }
    ensures { IfOk result (λ ranges. HasRanges len headers.now ranges.items) }
{
    let order = in_file_order(alloc, headers)?;
    let mut ranges = header_ranges(alloc, headers)?;
    add_sections(&mut ranges, &order)?;
    ranges.push(last_range(headers, len))?;
    Ok(ranges)
}

/// The ranges of the headers, without CheckSum and without the directory of the certificate table.
#[tactic(auto, unfolding(crate::specs::Digest::header_ranges))]
fn header_ranges(alloc: Global, headers: &Headers<'_>) -> Result<Vec<DigestRange>, AllocError>
    ensures { IfOk result (λ ranges. ranges.items ≡ header_ranges headers.now) }
{
    let sum = headers.pe() + SUM;
    let end = headers.headers_size() as usize;
    let mut ranges = Vec::new(alloc);
    ranges.push(between(0, sum))?;
    if headers.directory_count() as usize > CERTIFICATES {
        let directory = headers.directory_place(CERTIFICATES);
        ranges.push(between(sum + SUM_LEN, directory))?;
        ranges.push(between(headers.directory_place(CERTIFICATES + 1), end))?;
    } else {
        ranges.push(between(sum + SUM_LEN, end))?;
    }
    Ok(ranges)
}

/// Adds the ranges of these sections.
fn add_sections(ranges: &mut Vec<DigestRange>, order: &[Section]) -> Result<(), AllocError>
    ensures { IfOk result (λ _. ranges.new.items ≡ ranges.old.items ++ map section_range order.now) }
{
    for section in order {
        ranges.push(DigestRange {
            place: section.raw_place as usize,
            len: raw_len(section),
        })?;
    }
    Ok(())
}

/// The range of what is left of a file of this length after as many bytes as headers and sections have, without as many
/// as the certificate table has.
#[tactic(auto, unfolding(crate::specs::Digest::last_range))]
fn last_range(headers: &Headers<'_>, len: usize) -> DigestRange
    requires { HasTable headers.now }
    ensures { result ≡ last_range len headers.now }
{
    let end = len.saturating_sub(certificates_size(headers));
    between(total_size(headers), end)
}

/// The range from one offset to another.
fn between(start: usize, end: usize) -> DigestRange
    ensures { result ≡ between start end }
{
    DigestRange {
        place: start,
        len: end.saturating_sub(start),
    }
}

/// The sections in the order of their bytes in the file.
fn in_file_order(alloc: Global, headers: &Headers<'_>) -> Result<Vec<Section>, AllocError>
    requires { HasTable headers.now }
    ensures { IfOk result (λ order. IsFileOrder (sections headers.now) order.items) }
{
    let mut order = all_sections(alloc, headers)?;
    order.sort_by_key(|section| section.raw_place)?;
    Ok(order)
}

/// The sections in the table's order.
fn all_sections(alloc: Global, headers: &Headers<'_>) -> Result<Vec<Section>, AllocError>
    requires { HasTable headers.now }
    ensures { IfOk result (λ all. all.items ≡ sections headers.now) }
{
    let mut all = Vec::new(alloc);
    for index in 0..headers.section_count() {
        let section = headers.section(index);
        all.push(section)?;
    }
    Ok(all)
}
