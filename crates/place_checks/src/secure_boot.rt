//! What Secure Boot of a machine decides by, and what it says of a file.

ghost use Rattle.std.specs.Prelude.{◌≡◌, IfOk};
ghost use Rattle.entry_checks.specs.Image.{own_verdict_of};

use efi_images::{SecureBoot, SecureBootAnswer, Verdict, secure_boot_answer};
use entry_checks::own_verdict;
use messages::Unreadable;
use std::alloc::{AllocError, Global};
use std::io::ErrorKind;
use std::rt::Files;
use uefi_vars::{ATTRIBUTES_LEN, DATA_MAX};
use whole_files::{RegularFile, read_regular};

/// A variable, as Linux names its file.
#[derive(Clone, Copy)]
struct Variable {
    /// Its name.
    name: &'static str,
    /// Its vendor's GUID.
    vendor: &'static str,
}

/// Whether Secure Boot is on (UEFI 2.10, 3.3).
const SECURE_BOOT: Variable = Variable {
    name: "SecureBoot",
    vendor: "8be4df61-93ca-11d2-aa0d-00e098032b8c",
};

/// What Secure Boot allows (UEFI 2.10, 32.4.1), of EFI_IMAGE_SECURITY_DATABASE_GUID.
const DB: Variable = Variable {
    name: "db",
    vendor: "d719b2cb-3d3a-4596-a3bc-dad00e67656f",
};

/// What it denies.
const DBX: Variable = Variable {
    name: "dbx",
    vendor: "d719b2cb-3d3a-4596-a3bc-dad00e67656f",
};

/// The data of SecureBoot if it is on.
const ON: &[u8] = &[1];

/// What Secure Boot of a machine decides by.
#[derive(Drop)]
pub(crate) enum SeenSecureBoot {
    /// It is off, or the variables don't tell of it.
    Off,
    /// It is on.
    On {
        /// The data of db.
        db: Vec<u8>,
        /// The data of dbx.
        dbx: Vec<u8>,
    },
    /// What it decides by can't be read, for this reason.
    Unread(String),
}

/// What Secure Boot says of a file.
#[derive(Drop)]
pub(crate) struct Told {
    /// Whether it allows it.
    pub(crate) verdict: Verdict,
    /// Why that is so.
    pub(crate) detail: String,
}

/// Why a variable can't be read.
#[derive(Drop)]
enum Unread {
    /// For this reason.
    Because(String),
    /// Memory was refused.
    OutOfMemory,
}

impl From<AllocError> for Unread {
    fn from(_: AllocError) -> Unread {
        Unread::OutOfMemory
    }
}

/// What Secure Boot of the firmware decides by whose variables this folder shows. A variable that isn't there has no
/// data.
///
/// # Errors
///
/// [`AllocError`] if memory was refused.
pub(crate) fn read_secure_boot<R: Files + AllocGlobal>(
    rt: &R,
    folder: &str,
) -> Result<SeenSecureBoot, AllocError> {
    match read_variables(rt, folder) {
        Ok(seen) => Ok(seen),
        Err(Unread::Because(why)) => Ok(SeenSecureBoot::Unread(why)),
        Err(Unread::OutOfMemory) => Err(AllocError),
    }
}

/// What Secure Boot decides by, if its variables can be read.
fn read_variables<R: Files + AllocGlobal>(rt: &R, folder: &str) -> Result<SeenSecureBoot, Unread> {
    if read_data(rt, folder, SECURE_BOOT)?.as_slice() != ON {
        return Ok(SeenSecureBoot::Off);
    }
    Ok(SeenSecureBoot::On {
        db: read_data(rt, folder, DB)?,
        dbx: read_data(rt, folder, DBX)?,
    })
}

/// The data of a variable that the folder shows, after its attributes: no bytes if it isn't there.
fn read_data<R: Files + AllocGlobal>(
    rt: &R,
    folder: &str,
    variable: Variable,
) -> Result<Vec<u8>, Unread> {
    let alloc = rt.alloc();
    let Variable { name, vendor } = variable;
    let path = format!(in alloc; "{folder}/{name}-{vendor}")?;
    match read_regular(rt, &path, ATTRIBUTES_LEN + DATA_MAX) {
        Ok(RegularFile::Bytes(bytes)) => match bytes.get(ATTRIBUTES_LEN..) {
            Some(data) => Ok(Vec::from_slice(alloc, data)?),
            None => why_unread(alloc, name, "it has no attributes"),
        },
        Ok(RegularFile::TooMuch) => {
            let why = format!(in alloc; "its value has more than {DATA_MAX} bytes")?;
            why_unread(alloc, name, &why)
        }
        Ok(RegularFile::Irregular) => why_unread(alloc, name, "it is a pipe, a device or a socket"),
        Err(error) if error.kind() == ErrorKind::NotFound => Ok(Vec::new(alloc)),
        Err(error) if error.kind() == ErrorKind::OutOfMemory => Err(Unread::OutOfMemory),
        Err(error) => {
            let why = format!(in alloc; "{error}")?;
            why_unread(alloc, name, &why)
        }
    }
}

/// That the variable of this name can't be read, for this reason.
fn why_unread(alloc: Global, name: &str, why: &str) -> Result<Vec<u8>, Unread> {
    let why = format!(in alloc; "{}", Unreadable { name, why })?;
    Err(Unread::Because(why))
}

/// What Secure Boot, by what it decides by, says of a file that has these bytes.
///
/// # Errors
///
/// [`AllocError`] if memory was refused.
pub(crate) fn ask_secure_boot(
    alloc: Global,
    file: &[u8],
    seen: &SeenSecureBoot,
) -> Result<Told, AllocError> {
    match seen {
        SeenSecureBoot::Off => Ok(Told {
            verdict: Verdict::Allowed,
            detail: String::new(alloc),
        }),
        SeenSecureBoot::Unread(why) => Ok(Told {
            verdict: Verdict::Undecided,
            detail: why.clone()?,
        }),
        SeenSecureBoot::On { db, dbx } => {
            let secure_boot = SecureBoot {
                is_on: true,
                db,
                dbx,
            };
            told_of(alloc, &secure_boot_answer(alloc, file, &secure_boot)?)
        }
    }
}

/// What Secure Boot says of a file to which it answers this.
fn told_of(alloc: Global, answer: &SecureBootAnswer) -> Result<Told, AllocError>
    ensures { IfOk result (λ told. told.verdict ≡ own_verdict_of answer.now) }
{
    let more = match answer {
        SecureBootAnswer::Signed => ": `sbverify` checks them",
        SecureBootAnswer::SignedBy { .. } => ": `sbverify --cert` checks them by it",
        _ => "",
    };
    Ok(Told {
        verdict: own_verdict(answer),
        detail: format!(in alloc; "{answer}{more}")?,
    })
}
