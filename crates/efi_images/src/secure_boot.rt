//! Whether Secure Boot lets firmware load an image.

ghost use Rattle.std.specs.Prelude.{◌≡◌, ◌≢◌, ◌+◌, ◌*◌, ◌/◌, ◌≤◌, ◌||◌, IfOk, map, length};
ghost use Rattle.std.specs.Option.{option_map};
ghost use Rattle.std.specs.List.{list_any};
ghost use Rattle.efi_images.specs.declared.signatures.SignatureList.{SignatureList};
ghost use Rattle.sha2.specs.Sha256.{sha256};
ghost use Rattle.efi_images.specs.Digest.{range_bytes};
ghost use Rattle.efi_images.specs.Signatures.{list_parts};
ghost use Rattle.efi_images.specs.Signers.{all_signers};
ghost use Rattle.efi_images.specs.X509.{certificate_parts};
ghost use Rattle.efi_images.specs.SecureBoot.{is_of_digests, is_among, has_digest, has_digests, has_others, has_certificates, is_in_dbx, lead_answer, signers_answer, db_answer, IsDbAnswer, IsListsAnswer, IsSecureBootAnswer, HaveDigests, AnswersAlike};

use crate::answer::SecureBootAnswer;
use crate::certificates::{Signing, certificate_table, read_certificates};
use crate::check::check_boot_manager;
use crate::digest::{DIGEST_LEN, digest_of, part};
use crate::digest_fault::DigestFault;
use crate::leads::{Lead, find_lead, is_of_certificates};
use crate::loader::CERTIFICATES;
use crate::ranges::{DigestRange, front_ranges};
use crate::signatures::{GUID_LEN, ListFault, SignatureList, read_lists};
use crate::signers::read_signers;
use crate::x509::Certificate;
use std::alloc::{AllocError, Global};

/// EFI_CERT_SHA256_GUID, as it is stored.
const SHA256_GUID: [u8; 16] = [
    0x26, 0x16, 0xC4, 0xC1, 0x4C, 0x50, 0x92, 0x40, 0xAC, 0xA9, 0x41, 0xF9, 0x36, 0x93, 0x43, 0x28,
];

/// How many bytes a signature has that is a digest by SHA-256.
const SIGNATURE_LEN: usize = GUID_LEN + DIGEST_LEN;

/// What Secure Boot decides by.
#[derive(Clone, Copy, Debug)]
pub struct SecureBoot<'a> {
    /// Whether it is on: the variable SecureBoot is 1.
    pub is_on: bool,
    /// The data of db, which tells of what is allowed. No bytes if there is no such variable.
    pub db: &'a [u8],
    /// The data of dbx, which tells of what is denied. No bytes if there is no such variable.
    pub dbx: &'a [u8],
}

/// What Secure Boot answers to an image, as EDK2's firmware decides it, and as far as it is told without the check of a
/// signature. An image that isn't signed is denied if its digest is in dbx, and else allowed if it is in db. One with a
/// signature over that digest is denied if it is in dbx, and one with any signature that firmware knows if db has
/// neither its digest nor a certificate to which the signatures may lead by names, or none but such as dbx has too;
/// else [`SecureBootAnswer::SignedBy`] tells which certificate of db that is, or [`SecureBootAnswer::Signed`] that it
/// isn't told, and only the check of its signatures decides. Digests by SHA-1, SHA-384 and SHA-512 are not compared.
///
/// The boot manager's checks come before, and with Secure Boot the loader's up to [`ImageFault::DebugBeyondFile`],
/// which [`check_image`](crate::check_image) makes. The fault of an image that has no digest is told here too.
///
/// [`ImageFault::DebugBeyondFile`]: crate::ImageFault::DebugBeyondFile
///
/// # Errors
///
/// `AllocError` if memory for lists of sections, ranges or signatures was refused.
pub fn secure_boot_answer(
    alloc: Global,
    file: &[u8],
    secure_boot: &SecureBoot<'_>,
) -> Result<SecureBootAnswer, AllocError>
    ensures { IfOk result (λ answer. IsSecureBootAnswer file.now secure_boot.now.is_on secure_boot.now.db.now secure_boot.now.dbx.now answer) }
{
    if !secure_boot.is_on {
        return Ok(SecureBootAnswer::NotAsked);
    }
    let headers = match check_boot_manager(file, file.len()) {
        Ok(headers) => headers,
        Err(fault) => return Ok(SecureBootAnswer::NoDigest(DigestFault::Image(fault))),
    };
    let ranges = match front_ranges(alloc, file, file.len()) {
        Ok(ranges) => ranges,
        Err(fault) => {
            return match fault {
                DigestFault::OutOfMemory => Err(AllocError),
                _ => Ok(SecureBootAnswer::NoDigest(fault)),
            };
        }
    };
    let table = certificate_table(&headers);
    let signed = match read_certificates(table) {
        Ok(signed) => signed,
        Err(place) => {
            let place = headers.directory_start(CERTIFICATES) as usize + place;
            return Ok(SecureBootAnswer::BadCertificates { place });
        }
    };
    match signed {
        Signing::Unknown => Ok(SecureBootAnswer::NoSignature),
        _ => signed_answer(alloc, file, &ranges, table, signed, secure_boot),
    }
}

/// What dbx and then db say of an image with these ranges, which is signed like this by certificates of this table.
fn signed_answer(
    alloc: Global,
    file: &[u8],
    ranges: &[DigestRange],
    table: &[u8],
    signed: Signing,
    secure_boot: &SecureBoot<'_>,
) -> Result<SecureBootAnswer, AllocError>
    ensures { IfOk result (λ answer. IsListsAnswer (sha256 (range_bytes file.now ranges.now)) signed (all_signers 32 table.now 0) secure_boot.now.db.now secure_boot.now.dbx.now answer) }
{
    let signers = read_signers(alloc, table)?;
    let digest = compared_digest(alloc, file, ranges, secure_boot)?;
    lists_answer(alloc, digest.as_slice(), signed, &signers, secure_boot)
}

/// The digest of these ranges, if it is compared with those of dbx or db. Otherwise it doesn't matter what it is, and it
/// isn't made.
fn compared_digest(
    alloc: Global,
    file: &[u8],
    ranges: &[DigestRange],
    secure_boot: &SecureBoot<'_>,
) -> Result<[u8; DIGEST_LEN], AllocError>
    ensures { IfOk result (λ digest. AnswersAlike digest (sha256 (range_bytes file.now ranges.now)) secure_boot.now.db.now secure_boot.now.dbx.now) }
{
    let is_denied_by_some = have_digests(alloc, secure_boot.dbx)?;
    let is_allowed_by_some = have_digests(alloc, secure_boot.db)?;
    if is_denied_by_some || is_allowed_by_some {
        return Ok(digest_of(file, ranges));
    }
    Ok([0; DIGEST_LEN])
}

/// Whether these are the bytes of lists with digests. Damaged ones have none.
fn have_digests(alloc: Global, bytes: &[u8]) -> Result<bool, AllocError>
    ensures { IfOk result (λ some. HaveDigests bytes.now some) }
{
    match read_lists(alloc, bytes) {
        Ok(lists) => Ok(has_digests(&lists)),
        Err(fault) => match fault {
            ListFault::OutOfMemory => Err(AllocError),
            _ => Ok(false),
        },
    }
}

/// Whether one of the lists has digests with which one is compared.
fn has_digests(lists: &[SignatureList<'_>]) -> bool
    ensures { result ≡ list_any (λ (list : SignatureList). has_digests (list_parts list)) lists.now }
{
    lists.iter().any(list_has_digests)
}

/// Whether the list has digests with which one is compared.
#[tactic(auto, unfolding(crate::specs::SecureBoot::has_digests))]
fn list_has_digests(list: &SignatureList<'_>) -> bool
    ensures { result ≡ has_digests (list_parts list.now) }
{
    is_of_digests(list) && list.signature_len == SIGNATURE_LEN && !list.signatures.is_empty()
}

/// What dbx and then db say of an image of this digest, whose signatures have these certificates with them.
fn lists_answer(
    alloc: Global,
    digest: &[u8],
    signed: Signing,
    signers: &Option<Vec<Certificate<'_>>>,
    secure_boot: &SecureBoot<'_>,
) -> Result<SecureBootAnswer, AllocError>
    ensures { IfOk result (λ answer. IsListsAnswer digest.now signed (option_map (λ all. map certificate_parts all.items) signers.now) secure_boot.now.db.now secure_boot.now.dbx.now answer) }
{
    let denied = match read_lists(alloc, secure_boot.dbx) {
        Ok(denied) => denied,
        Err(fault) => {
            return match fault {
                ListFault::OutOfMemory => Err(AllocError),
                _ => Ok(SecureBootAnswer::BadDbx(fault)),
            };
        }
    };
    let dbx = denied.as_slice();
    if is_in_dbx(digest, signed, dbx) {
        return Ok(SecureBootAnswer::InDbx);
    }
    allowed_answer(alloc, digest, signed, signers, dbx, secure_boot.db)
}

/// What db says of an image of this digest that isn't in dbx, which has these lists.
fn allowed_answer(
    alloc: Global,
    digest: &[u8],
    signed: Signing,
    signers: &Option<Vec<Certificate<'_>>>,
    dbx: &[SignatureList<'_>],
    db: &[u8],
) -> Result<SecureBootAnswer, AllocError>
    ensures { IfOk result (λ answer. IsDbAnswer digest.now signed (option_map (λ all. map certificate_parts all.items) signers.now) (map list_parts dbx.now) db.now answer) }
{
    match read_lists(alloc, db) {
        Ok(allowed) => Ok(db_answer(digest, signed, signers, dbx, &allowed)),
        Err(fault) => match fault {
            ListFault::OutOfMemory => Err(AllocError),
            _ => Ok(SecureBootAnswer::BadDb(fault)),
        },
    }
}

/// Whether dbx denies the image by its digest. One that is signed by another hash alone is looked for by that hash.
#[tactic(auto, unfolding(crate::specs::SecureBoot::is_in_dbx))]
fn is_in_dbx(digest: &[u8], signed: Signing, dbx: &[SignatureList<'_>]) -> bool
    ensures { result ≡ is_in_dbx digest.now signed (map list_parts dbx.now) }
{
    match signed {
        Signing::Other => false,
        _ => has_digest(digest, dbx),
    }
}

/// What db says of an image that isn't in dbx. A signed one may be allowed by what isn't compared.
#[tactic(auto, unfolding(crate::specs::SecureBoot::db_answer))]
fn db_answer(
    digest: &[u8],
    signed: Signing,
    signers: &Option<Vec<Certificate<'_>>>,
    dbx: &[SignatureList<'_>],
    db: &[SignatureList<'_>],
) -> SecureBootAnswer
    ensures { result ≡ db_answer digest.now signed (option_map (λ all. map certificate_parts all.items) signers.now) (map list_parts dbx.now) (map list_parts db.now) }
{
    match signed {
        Signing::Unsigned if has_digest(digest, db) => SecureBootAnswer::InDb,
        Signing::Unsigned => SecureBootAnswer::NotSigned,
        _ if may_allow(digest, db) => SecureBootAnswer::Signed,
        _ => signers_answer(signers, dbx, db),
    }
}

/// What these lists of dbx and db say of an image whose signatures have these certificates with them, if they are read.
#[tactic(auto, unfolding(crate::specs::SecureBoot::signers_answer))]
fn signers_answer(
    signers: &Option<Vec<Certificate<'_>>>,
    dbx: &[SignatureList<'_>],
    db: &[SignatureList<'_>],
) -> SecureBootAnswer
    ensures { result ≡ signers_answer (option_map (λ all. map certificate_parts all.items) signers.now) (map list_parts dbx.now) (map list_parts db.now) }
{
    match signers {
        Some(signers) => lead_answer(find_lead(signers, dbx, db)),
        None if have_certificates(db) => SecureBootAnswer::Signed,
        None => SecureBootAnswer::NotInDb,
    }
}

/// What is said of an image whose signatures may lead there.
fn lead_answer(lead: Lead) -> SecureBootAnswer
    ensures { result ≡ lead_answer lead }
{
    match lead {
        Lead::Nowhere => SecureBootAnswer::NotInDb,
        Lead::Denied { list, entry } => SecureBootAnswer::SignerInDbx { list, entry },
        Lead::Unread => SecureBootAnswer::Signed,
        Lead::Certificate { list, entry } => SecureBootAnswer::SignedBy { list, entry },
    }
}

/// Whether one of the lists has certificates.
fn have_certificates(lists: &[SignatureList<'_>]) -> bool
    ensures { result ≡ list_any (λ (list : SignatureList). has_certificates (list_parts list)) lists.now }
{
    lists.iter().any(has_certificates)
}

/// Whether the list has certificates.
#[tactic(auto, unfolding(crate::specs::SecureBoot::has_certificates))]
fn has_certificates(list: &SignatureList<'_>) -> bool
    ensures { result ≡ has_certificates (list_parts list.now) }
{
    is_of_certificates(list) && !list.signatures.is_empty()
}

/// Whether one of the lists has this digest, or signatures that aren't compared.
fn may_allow(digest: &[u8], lists: &[SignatureList<'_>]) -> bool
    ensures { result ≡ (list_any (λ (list : SignatureList). has_digest digest.now (list_parts list)) lists.now
        || list_any (λ (list : SignatureList). has_others (list_parts list)) lists.now) }
{
    has_digest(digest, lists) || has_others(lists)
}

/// Whether one of the lists has this digest.
fn has_digest(digest: &[u8], lists: &[SignatureList<'_>]) -> bool
    ensures { result ≡ list_any (λ (list : SignatureList). has_digest digest.now (list_parts list)) lists.now }
{
    lists.iter().any(|list| list_has_digest(digest, list))
}

/// Whether one of the lists has signatures that are neither digests by SHA-256 nor certificates.
fn has_others(lists: &[SignatureList<'_>]) -> bool
    ensures { result ≡ list_any (λ (list : SignatureList). has_others (list_parts list)) lists.now }
{
    lists.iter().any(list_has_others)
}

/// Whether the list has this digest.
#[tactic(auto, unfolding(crate::specs::SecureBoot::has_digest))]
fn list_has_digest(digest: &[u8], list: &SignatureList<'_>) -> bool
    ensures { result ≡ has_digest digest.now (list_parts list.now) }
{
    is_of_digests(list) && list.signature_len == SIGNATURE_LEN && is_among(digest, list.signatures)
}

/// Whether the list has signatures that are neither digests by SHA-256 nor certificates: digests by another hash, say.
#[tactic(auto, unfolding(crate::specs::SecureBoot::has_others))]
fn list_has_others(list: &SignatureList<'_>) -> bool
    ensures { result ≡ has_others (list_parts list.now) }
{
    !is_of_digests(list) && !is_of_certificates(list) && !list.signatures.is_empty()
}

/// Whether the list is one of digests by SHA-256.
fn is_of_digests(list: &SignatureList<'_>) -> bool
    ensures { result ≡ is_of_digests (list_parts list.now) }
{
    list.kind == SHA256_GUID.as_slice()
}

/// Whether one of these signatures is of this digest.
fn is_among(digest: &[u8], signatures: &[u8]) -> bool
    ensures { result ≡ is_among digest.now signatures.now 0 (length signatures.now / 48) }
{
    let mut place = 0;
    for _ in 0..signatures.len() / SIGNATURE_LEN {
        if part(signatures, place + GUID_LEN, DIGEST_LEN) == digest {
            return true;
        }
        place += SIGNATURE_LEN;
    }
    false
}
