//! The certificates that the signatures of an image have with them.

ghost use Rattle.std.specs.Prelude.{◌≡◌, map, IfOk};
ghost use Rattle.std.specs.Option.{option_map};
ghost use Rattle.efi_images.specs.X509.{certificate_parts, bundled};
ghost use Rattle.efi_images.specs.Signers.{Adds, signers_of, all_signers};

use crate::certificates::{Signing, is_whole, padded_len, signature_bytes, signing_of};
use crate::x509::{Certificate, read_bundle, read_certificate};
use std::alloc::{AllocError, Global};

/// How many certificates a signature may have with it.
const BUNDLE_MAX: usize = 32;

/// How many certificates of an image are looked at.
const SIGNATURES_MAX: usize = 32;

/// The certificates that the signatures of an image with this certificate table have with them: those that firmware
/// looks at, of all signatures that it knows. `None` if there are too many, or if some aren't read.
///
/// # Errors
///
/// `AllocError` if memory was refused.
pub(crate) fn read_signers(
    alloc: Global,
    table: &[u8],
) -> Result<Option<Vec<Certificate<'_>>>, AllocError>
    ensures { IfOk result (λ found. option_map (λ all. map certificate_parts all.items) found ≡ all_signers 32 table.now 0) }
{
    let mut all = Vec::new(alloc);
    let mut place = 0;
    for _ in 0..SIGNATURES_MAX {
        if place >= table.len() {
            return Ok(Some(all));
        }
        if !is_whole(table, place) {
            return Ok(None);
        }
        if !add_signers(&mut all, signature_bytes(table, place))? {
            return Ok(None);
        }
        place += padded_len(table, place);
    }
    if place < table.len() {
        return Ok(None);
    }
    Ok(Some(all))
}

/// Adds the certificates that a signature has with it, and tells whether that is all of them. Firmware doesn't look at
/// one of a hash that it doesn't know.
fn add_signers<'a>(all: &mut Vec<Certificate<'a>>, signature: &'a [u8]) -> Result<bool, AllocError>
    ensures { IfOk result (λ done. Adds all.old.items all.new.items (signers_of signature.now) done) }
{
    match signing_of(signature) {
        Signing::Unknown => Ok(true),
        _ => match read_bundle(signature) {
            Some(bundle) => add_bundle(all, bundle),
            None => Ok(false),
        },
    }
}

/// Adds the certificates that these bytes are, and tells whether that is all of them.
fn add_bundle<'a>(all: &mut Vec<Certificate<'a>>, bundle: &'a [u8]) -> Result<bool, AllocError>
    ensures { IfOk result (λ done. Adds all.old.items all.new.items (bundled 32 bundle.now) done) }
{
    let mut rest = bundle;
    for _ in 0..BUNDLE_MAX {
        if rest.is_empty() {
            return Ok(true);
        }
        let Some(certificate) = read_certificate(rest) else {
            return Ok(false);
        };
        all.push(certificate)?;
        rest = certificate.rest;
    }
    Ok(rest.is_empty())
}
