//! What Secure Boot answers to an image.

ghost use Rattle.std.specs.Prelude.{◌≡◌};
ghost use Rattle.efi_images.specs.SecureBoot.{verdict_of};

use crate::digest_fault::DigestFault;
use crate::signatures::ListFault;
use std::fmt;

/// What comes of an answer.
#[derive(Clone, Copy, Debug, PartialEq, Eq, Hash)]
pub enum Verdict {
    /// Secure Boot lets firmware load the image.
    Allowed,
    /// It doesn't: LoadImage denies access.
    Denied,
    /// What was looked at doesn't tell.
    Undecided,
}

/// What Secure Boot answers to an image, as far as it is told without the check of a signature (UEFI 2.10, 32.5.3.3).
#[derive(Clone, Copy, Debug, PartialEq, Eq)]
pub enum SecureBootAnswer {
    /// Secure Boot is off, so it isn't asked.
    NotAsked,
    /// The image has no digest, by which Secure Boot tells of it. Of one whose headers and sections overlap firmware
    /// makes a digest with some bytes twice, which is not told.
    NoDigest(DigestFault),
    /// A certificate of the image isn't whole.
    BadCertificates {
        /// Where it begins: its offset in bytes from the file's first byte.
        place: usize,
    },
    /// The image has certificates, but none is a signature that firmware knows.
    NoSignature,
    /// dbx is damaged, and what firmware finds in it is not told.
    BadDbx(ListFault),
    /// dbx has the image's digest.
    InDbx,
    /// db is damaged, and what firmware finds in it is not told.
    BadDb(ListFault),
    /// db has the image's digest, and the image isn't signed.
    InDb,
    /// The image isn't signed, and db doesn't have its digest.
    NotSigned,
    /// The image is signed, but by none whom db has: by its names none of the certificates that its signatures have
    /// with them is one of db's, or is issued by one of db's. db doesn't have its digest either.
    NotInDb,
    /// The image is signed, and of the certificates of db its signatures may lead to none but such as dbx has too. db
    /// doesn't have its digest. Lists of db, and certificates in a list, are counted from 0.
    SignerInDbx {
        /// The list of db with the first of these certificates.
        list: usize,
        /// Which of the list's it is.
        entry: usize,
    },
    /// The image is signed, and by their names its certificates lead to one of db. Only the check of the signatures
    /// tells whether db allows it and dbx doesn't deny it, and their values are not looked at: `sbverify --cert` checks
    /// them by that certificate. Lists of db, and certificates in a list, are counted from 0.
    SignedBy {
        /// The list of db with the first certificate to which they may lead, and that dbx doesn't have.
        list: usize,
        /// Which of the list's it is.
        entry: usize,
    },
    /// The image is signed, and it isn't told to which certificate of db, since its certificates or one of db's aren't
    /// read, or since db has its digest, or digests by another hash. Only the check of its signatures tells whether db
    /// allows it and dbx doesn't deny it: `sbverify` makes it.
    Signed,
}

impl SecureBootAnswer {
    /// What comes of the answer.
    pub fn verdict(&self) -> Verdict
        ensures { result ≡ verdict_of self.now }
    {
        match self {
            SecureBootAnswer::NotAsked | SecureBootAnswer::InDb => Verdict::Allowed,
            SecureBootAnswer::BadDbx(_fault) | SecureBootAnswer::BadDb(_fault) =>
                Verdict::Undecided,
            SecureBootAnswer::NoDigest(DigestFault::Overlap { .. }) => Verdict::Undecided,
            SecureBootAnswer::Signed => Verdict::Undecided,
            SecureBootAnswer::SignedBy { .. } => Verdict::Undecided,
            _ => Verdict::Denied,
        }
    }
}

impl fmt::Display for SecureBootAnswer {
    fn fmt<W: fmt::Write>(&self, f: &mut fmt::Formatter<W>) -> fmt::Result {
        match self {
            SecureBootAnswer::NotAsked => write!(f, "Secure Boot is off"),
            SecureBootAnswer::NoDigest(fault) => write!(f, "it has no digest: {fault}"),
            SecureBootAnswer::BadCertificates { place } => {
                write!(f, "the certificate at offset {place:#x} isn't whole")
            }
            SecureBootAnswer::NoSignature => write!(f, "its certificates hold no signature"),
            SecureBootAnswer::BadDbx(fault) => write!(f, "dbx is damaged: {fault}"),
            SecureBootAnswer::InDbx => write!(f, "dbx has its digest"),
            SecureBootAnswer::BadDb(fault) => write!(f, "db is damaged: {fault}"),
            SecureBootAnswer::InDb => write!(f, "db has its digest"),
            SecureBootAnswer::NotSigned => write!(
                f,
                "it isn't signed, and db doesn't have its digest"
            ),
            SecureBootAnswer::NotInDb => write!(
                f,
                "it is signed, but by none whom db has, and db doesn't have its digest"
            ),
            SecureBootAnswer::SignerInDbx { list, entry } => write!(
                f,
                "it is signed, at best by certificate {entry} of list {list} of db, which dbx has too"
            ),
            SecureBootAnswer::SignedBy { list, entry } => write!(
                f,
                "it is signed, perhaps by certificate {entry} of list {list} of db, and its signatures are not looked at"
            ),
            SecureBootAnswer::Signed => write!(
                f,
                "it is signed, and its signatures are not looked at"
            ),
        }
    }
}
