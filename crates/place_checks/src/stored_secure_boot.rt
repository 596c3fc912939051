//! What an emulator's variable file says of Secure Boot at the next start.

ghost use Rattle.std.specs.Prelude.{◌≡◌, map, IfOk};
ghost use Rattle.std.specs.Option.{option_map};
ghost use Rattle.var_stores.specs.Record.{record_parts};
ghost use Rattle.place_checks.specs.SecureBoot.{by_enable, next_secure_boot, stored_list, IsStored};

use crate::secure_boot::SeenSecureBoot;
use std::alloc::{AllocError, Global};
use uefi_path::Guid;
use uefi_vars::GLOBAL_VENDOR;
use var_stores::{StoreFault, VariableStore, read_store, stored_value};

/// The name of the variable with the platform key (UEFI 2.10, 32.3).
const PLATFORM_KEY: &str = "PK";

/// The name of EDK2's variable that says whether Secure Boot is wanted.
const ENABLE: &str = "SecureBootEnable";

/// f0a30bc7-af08-4556-99c4-001009c93a44, its vendor.
const ENABLE_VENDOR: Guid = Guid([
    0xC7, 0x0B, 0xA3, 0xF0, 0x08, 0xAF, 0x56, 0x45, 0x99, 0xC4, 0x00, 0x10, 0x09, 0xC9, 0x3A, 0x44,
]);

/// d719b2cb-3d3a-4596-a3bc-dad00e67656f, EFI_IMAGE_SECURITY_DATABASE_GUID, the vendor of db and dbx (UEFI 2.10,
/// 32.4.1).
const DATABASE_VENDOR: Guid = Guid([
    0xCB, 0xB2, 0x19, 0xD7, 0x3A, 0x3D, 0x96, 0x45, 0xA3, 0xBC, 0xDA, 0xD0, 0x0E, 0x67, 0x65, 0x6F,
]);

/// Whether Secure Boot is on once firmware has started.
#[derive(Clone, Copy, Debug, PartialEq, Eq)]
pub(crate) enum NextSecureBoot {
    /// It is off.
    Off,
    /// It is on.
    On,
    /// The variables don't tell.
    Untold,
}

/// What Secure Boot decides by at the next start of the emulator whose variable file this is, all its bytes: SecureBoot
/// isn't in it, since that is volatile.
///
/// # Errors
///
/// [`AllocError`] if memory was refused.
pub(crate) fn stored_secure_boot(alloc: Global, file: &[u8]) -> Result<SeenSecureBoot, AllocError> {
    match read_store(alloc, file) {
        Ok(store) => seen_in_store(alloc, &store),
        Err(StoreFault::OutOfMemory) => Err(AllocError),
        Err(fault) => Ok(SeenSecureBoot::Unread(format!(in alloc; "{fault}")?)),
    }
}

/// What Secure Boot decides by at the next start, by the variables of this store.
fn seen_in_store(alloc: Global, store: &VariableStore<'_>) -> Result<SeenSecureBoot, AllocError>
    ensures { IfOk result (IsStored (map record_parts store.now.records.items)) }
{
    let key = stored_value(alloc, store, &GLOBAL_VENDOR, PLATFORM_KEY)?;
    let enable = stored_value(alloc, store, &ENABLE_VENDOR, ENABLE)?;
    match next_secure_boot(key, enable) {
        NextSecureBoot::Off => Ok(SeenSecureBoot::Off),
        NextSecureBoot::On => Ok(SeenSecureBoot::On {
            db: stored_list(alloc, store, "db")?,
            dbx: stored_list(alloc, store, "dbx")?,
        }),
        NextSecureBoot::Untold => {
            let why = format!(in alloc; "{ENABLE} has no data")?;
            Ok(SeenSecureBoot::Unread(why))
        }
    }
}

/// Whether Secure Boot is on at the next start, by the data of PK and of SecureBootEnable, if they are there: as EDK2's
/// AuthVariableLib decides it when firmware starts. It is off without a platform key. With one it is on if the first
/// byte of SecureBootEnable is 1; and also if that isn't there, since it is made 1 then.
fn next_secure_boot(key: Option<&[u8]>, enable: Option<&[u8]>) -> NextSecureBoot
    ensures { result ≡ next_secure_boot (option_map (λ bytes. bytes.now) key.entry) (option_map (λ bytes. bytes.now) enable.entry) }
{
    match (key, enable) {
        (None, _) => NextSecureBoot::Off,
        (Some(_), None) => NextSecureBoot::On,
        (Some(_), Some([])) => NextSecureBoot::Untold,
        (Some(_), Some([first, ..])) => by_enable(*first),
    }
}

/// Whether Secure Boot is on at the next start with a platform key, by the first byte of SecureBootEnable.
fn by_enable(first: u8) -> NextSecureBoot
    ensures { result ≡ by_enable first }
{
    if first == 1 {
        NextSecureBoot::On
    } else {
        NextSecureBoot::Off
    }
}

/// The data of db or dbx, no bytes if it isn't there.
fn stored_list(alloc: Global, store: &VariableStore<'_>, name: &str) -> Result<Vec<u8>, AllocError>
    ensures { IfOk result (λ list. list.items ≡ stored_list name.now (map record_parts store.now.records.items)) }
{
    match stored_value(alloc, store, &DATABASE_VENDOR, name)? {
        Some(data) => Ok(Vec::from_slice(alloc, data)?),
        None => Ok(Vec::new(alloc)),
    }
}
