//! The Authenticode digest of an image.

ghost use Rattle.std.specs.Prelude.{◌≡◌, ◌⊎◌, None, Some, IfOk, IfErr};
ghost use Rattle.sha2.specs.Sha256.{sha256};
ghost use Rattle.efi_images.specs.Digest.{part, range_bytes, IsDigest, digest_fault};

use crate::digest_fault::DigestFault;
use crate::ranges::{DigestRange, front_ranges};
use sha2::{Digest, Sha256};
use std::alloc::Global;

/// How many bytes a digest has.
pub const DIGEST_LEN: usize = 32;

/// The Authenticode digest of an image by SHA-256, by which a signature in it, db and dbx tell of it (UEFI 2.10, 32.5.3):
/// that of its headers without CheckSum and without the directory of the certificate table, of its sections in the order
/// of their bytes in the file, and of the bytes that are left of the file, without as many as the certificate table has.
/// [`digest_ranges`](crate::digest_ranges) tells where these are, for a file that is read in pieces.
///
/// # Errors
///
/// [`DigestFault::Image`] with the first fault of the headers, or of where sections are in the file;
/// [`DigestFault::Overlap`] if headers and sections have more bytes than the file; [`DigestFault::CertificatesOverlap`] if
/// fewer bytes are left than the certificate table has. Otherwise [`DigestFault::OutOfMemory`] if memory for the lists of
/// sections and ranges was refused.
pub fn image_digest(alloc: Global, file: &[u8]) -> Result<[u8; DIGEST_LEN], DigestFault>
    ensures digest { IfOk result (λ digest. (digest_fault file.now ≡ None) × IsDigest file.now digest) }
    ensures fault { IfErr result (λ fault. (fault ≡ DigestFault.OutOfMemory) ⊎ (digest_fault file.now ≡ Some fault)) }
{
    let ranges = front_ranges(alloc, file, file.len())?;
    Ok(digest_of(file, &ranges))
}

/// The digest of the bytes of these ranges.
pub(crate) fn digest_of(file: &[u8], ranges: &[DigestRange]) -> [u8; DIGEST_LEN]
    ensures { result ≡ sha256 (range_bytes file.now ranges.now) }
{
    let mut hasher = Sha256::new();
    for range in ranges {
        hasher.update(part(file, range.place, range.len));
    }
    hasher.finalize()
}

/// As many bytes from an offset on as the file has.
pub(crate) fn part(file: &[u8], start: usize, size: usize) -> &[u8]
    ensures { result.now ≡ part file.now start size }
{
    let start = start.min(file.len());
    let size = size.min(file.len() - start);
    &file[start..start + size]
}
