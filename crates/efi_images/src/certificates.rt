//! The attribute certificate table of an image (UEFI 2.10, 32.2.4), as firmware goes through it for signatures.

ghost use Rattle.std.specs.Prelude.{◌≡◌, ◌+◌, ◌<◌, ◌≤◌, ◌^◌, IfErr, IsTrue, length};
ghost use Rattle.efi_images.specs.Certificates.{certificate_table, certificate_len, certificate_type, padded_len, is_whole, signature_bytes, is_of_hash, signing_of, joined, IsSigned};

use crate::bytes::{u16_at, u32_at};
use crate::digest::part;
use crate::headers::Headers;
use crate::loader::CERTIFICATES;
use crate::ranges::certificates_size;

/// How many bytes a certificate has before what it holds: dwLength, wRevision and wCertificateType.
const HEADER_LEN: usize = 8;

/// The same of one that has a GUID for its form.
const GUID_HEADER_LEN: usize = 24;

/// WIN_CERT_TYPE_PKCS_SIGNED_DATA.
const PKCS_SIGNED_DATA: u16 = 0x0002;

/// WIN_CERT_TYPE_EFI_GUID.
const EFI_GUID: u16 = 0x0EF1;

/// EFI_CERT_TYPE_PKCS7_GUID, as it is stored.
const PKCS7_GUID: [u8; 16] = [
    0x9D, 0xD2, 0xAF, 0x4A, 0xDF, 0x68, 0xEE, 0x49, 0x8A, 0xA9, 0x34, 0x7D, 0x37, 0x56, 0x65, 0xA7,
];

/// The object identifier of SHA-1, as ASN.1 stores it.
const SHA1: [u8; 5] = [0x2B, 0x0E, 0x03, 0x02, 0x1A];

/// That of SHA-256.
const SHA256: [u8; 9] = [0x60, 0x86, 0x48, 0x01, 0x65, 0x03, 0x04, 0x02, 0x01];

/// That of SHA-384.
const SHA384: [u8; 9] = [0x60, 0x86, 0x48, 0x01, 0x65, 0x03, 0x04, 0x02, 0x02];

/// That of SHA-512.
const SHA512: [u8; 9] = [0x60, 0x86, 0x48, 0x01, 0x65, 0x03, 0x04, 0x02, 0x03];

/// Where firmware looks for the object identifier of the hash in a signature.
const HASH_PLACE: usize = 32;

/// The bits that firmware wants in the second byte of a signature.
const LENGTH_BITS: u16 = 0x8200;

/// How an image is signed, as firmware finds it.
#[derive(Clone, Copy, Debug, PartialEq, Eq)]
pub enum Signing {
    /// It has no certificates.
    Unsigned,
    /// None of its certificates is a signature that firmware knows.
    Unknown,
    /// There is a signature over another digest than that by SHA-256, and none over that.
    Other,
    /// There is a signature over the digest by SHA-256.
    Sha256,
}

/// How the certificates of an image say that it is signed, or where in their table one isn't whole.
pub(crate) fn read_certificates(table: &[u8]) -> Result<Signing, usize>
    ensures certificates { IsSigned table.now Signing.Unsigned 0 result }
    ensures place { IfErr result (λ place. place < length table.now) }
{
    let mut found = Signing::Unsigned;
    let mut place = 0;
    while place < table.len() {
        if !is_whole(table, place) {
            return Err(place);
        }
        found = joined(found, signing_of(signature_bytes(table, place)));
        place += padded_len(table, place);
    }
    Ok(found)
}

/// The bytes of the certificate table.
#[tactic(auto, unfolding(crate::specs::Certificates::certificate_table))]
pub(crate) fn certificate_table<'a>(headers: &Headers<'a>) -> &'a [u8]
    ensures { result.now ≡ certificate_table headers.now }
{
    let start = headers.directory_start(CERTIFICATES) as usize;
    part(headers.file(), start, certificates_size(headers))
}

/// Whether the certificate at this offset has bytes after its headers, and it and those up to the next one are in the table.
#[tactic(auto, unfolding(crate::specs::Certificates::is_whole))]
pub(crate) fn is_whole(table: &[u8], place: usize) -> bool
    requires { place ≤ length table.now }
    ensures { result ≡ is_whole table.now place }
{
    if place + HEADER_LEN >= table.len() {
        return false;
    }
    let least = if u16_at(table, place + 6) == EFI_GUID {
        GUID_HEADER_LEN
    } else {
        HEADER_LEN
    };
    u32_at(table, place) as usize > least && place + padded_len(table, place) <= table.len()
}

/// How many bytes the certificate at this offset has up to the next one, which begins at a multiple of 8.
pub(crate) fn padded_len(table: &[u8], place: usize) -> usize
    requires { place + 8 ≤ length table.now }
    ensures len { result ≡ padded_len table.now place }
    ensures bound { result < 2 ^ 33 }
{
    (u32_at(table, place) as usize).div_ceil(8) * 8
}

/// The signature in the certificate at this offset; none if it is of another form.
#[tactic(auto, using(crate::proofs::Whole::within, crate::proofs::Whole::plain_len, crate::proofs::Whole::guid_len), unfolding(crate::specs::Certificates::signature_bytes))]
pub(crate) fn signature_bytes(table: &[u8], place: usize) -> &[u8]
    requires { IsTrue (is_whole table.now place) }
    ensures { result.now ≡ signature_bytes table.now place }
{
    let len = u32_at(table, place) as usize;
    let kind = u16_at(table, place + 6);
    if kind == PKCS_SIGNED_DATA {
        return part(table, place + HEADER_LEN, len - HEADER_LEN);
    }
    let guid = part(table, place + HEADER_LEN, PKCS7_GUID.len());
    if kind == EFI_GUID && guid == PKCS7_GUID.as_slice() {
        return part(table, place + GUID_HEADER_LEN, len - GUID_HEADER_LEN);
    }
    &[]
}

/// How an image with this signature is signed.
#[tactic(auto, unfolding(crate::specs::Certificates::signing_of))]
pub(crate) fn signing_of(signature: &[u8]) -> Signing
    ensures { result ≡ signing_of signature.now }
{
    if is_of_hash(signature, SHA256.as_slice()) {
        return Signing::Sha256;
    }
    let is_of_other = is_of_hash(signature, SHA1.as_slice())
        || is_of_hash(signature, SHA384.as_slice())
        || is_of_hash(signature, SHA512.as_slice());
    if is_of_other {
        return Signing::Other;
    }
    Signing::Unknown
}

/// Whether firmware finds the object identifier of this hash in the signature. It looks at one place alone, where the
/// identifier is if the lengths before it have two bytes each.
#[tactic(auto, unfolding(crate::specs::Certificates::is_of_hash))]
fn is_of_hash(signature: &[u8], identifier: &[u8]) -> bool
    ensures { result ≡ is_of_hash signature.now identifier.now }
{
    HASH_PLACE + identifier.len() <= signature.len()
        && u16_at(signature, 0) & LENGTH_BITS == LENGTH_BITS
        && part(signature, HASH_PLACE, identifier.len()) == identifier
}

/// What two certificates say: that of SHA-256 comes first, then that of another hash.
fn joined(before: Signing, another: Signing) -> Signing
    ensures { result ≡ joined before another }
{
    match (before, another) {
        (Signing::Sha256, _) | (_, Signing::Sha256) => Signing::Sha256,
        (Signing::Other, _) | (_, Signing::Other) => Signing::Other,
        _ => Signing::Unknown,
    }
}
