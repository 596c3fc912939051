//! What a machine is called.

ghost use Rattle.std.specs.Prelude.{◌≡◌, ◌↔◌, ◌++◌, IsTrue, IfOk, Contains, codes};
ghost use Rattle.std.specs.Option.{option_map};
ghost use Rattle.std.specs.String.{string_bytes};
ghost use Rattle.var_places.specs.Machine.{IsBlankGuid, IsLowerDigit, IsShared, machine_text, shared};

use crate::mounts::is_on_efivarfs;
use messages::{Failure, Reason};
use std::alloc::{AllocError, Global};
use std::io::{self, ErrorKind};
use std::rt::Files;
use uefi_path::Guid;
use uefi_text::{GuidText, guid_text, read_guid};
use whole_files::{read_file, resolved};

/// The file in which Linux tells the UUID that the maker gave to the machine.
pub const PRODUCT_UUID: &str = "/sys/class/dmi/id/product_uuid";

/// The file in which a system has its own identity, which it made when it was installed.
const MACHINE_ID: &str = "/etc/machine-id";

/// How many bytes are read at most of either file: a UUID has 36, and a line feed comes after it.
const IDENTITY_MAX: usize = 64;

/// How many bytes the path of a place has at most that names a machine.
const PATH_MAX: usize = 4096;

/// How many UUIDs are known that many machines have.
const SHARED_COUNT: usize = 8;

/// UUIDs that makers of boards leave there who give none, as the bytes of a GUID: each in the two orders of bytes in which
/// Linux has told them.
const SHARED: [[u8; 16]; SHARED_COUNT] = [
    // 03000200-0400-0500-0006-000700080009
    [
        0x00, 0x02, 0x00, 0x03, 0x00, 0x04, 0x00, 0x05, 0x00, 0x06, 0x00, 0x07, 0x00, 0x08, 0x00,
        0x09,
    ],
    // 00020003-0004-0005-0006-000700080009
    [
        0x03, 0x00, 0x02, 0x00, 0x04, 0x00, 0x05, 0x00, 0x00, 0x06, 0x00, 0x07, 0x00, 0x08, 0x00,
        0x09,
    ],
    // 12345678-1234-5678-90ab-cddeefaabbcc
    [
        0x78, 0x56, 0x34, 0x12, 0x34, 0x12, 0x78, 0x56, 0x90, 0xAB, 0xCD, 0xDE, 0xEF, 0xAA, 0xBB,
        0xCC,
    ],
    // 78563412-3412-7856-90ab-cddeefaabbcc
    [
        0x12, 0x34, 0x56, 0x78, 0x12, 0x34, 0x56, 0x78, 0x90, 0xAB, 0xCD, 0xDE, 0xEF, 0xAA, 0xBB,
        0xCC,
    ],
    // 4c4c4544-0000-2010-8020-80c04f202020
    [
        0x44, 0x45, 0x4C, 0x4C, 0x00, 0x00, 0x10, 0x20, 0x80, 0x20, 0x80, 0xC0, 0x4F, 0x20, 0x20,
        0x20,
    ],
    // 44454c4c-0000-1020-8020-80c04f202020
    [
        0x4C, 0x4C, 0x45, 0x44, 0x00, 0x00, 0x20, 0x10, 0x80, 0x20, 0x80, 0xC0, 0x4F, 0x20, 0x20,
        0x20,
    ],
    // 00010203-0405-0607-0809-0a0b0c0d0e0f
    [
        0x03, 0x02, 0x01, 0x00, 0x05, 0x04, 0x07, 0x06, 0x08, 0x09, 0x0A, 0x0B, 0x0C, 0x0D, 0x0E,
        0x0F,
    ],
    // 03020100-0504-0706-0809-0a0b0c0d0e0f
    [
        0x00, 0x01, 0x02, 0x03, 0x04, 0x05, 0x06, 0x07, 0x08, 0x09, 0x0A, 0x0B, 0x0C, 0x0D, 0x0E,
        0x0F,
    ],
];

/// What a machine is called, by which it is told from others.
#[derive(Debug, Drop)]
pub struct MachineIdentity {
    /// Its name.
    pub name: String,
    /// What earlier versions of this program called it, where that was something else.
    pub former: Vec<String>,
    /// Why what should name it can't be read, so that the name is that of its place: the system's reason.
    pub unread: Option<io::Error>,
}

/// The name of the machine whose variables are in the place at this path, as [`machine_identity`] gives it.
///
/// # Errors
///
/// As of [`machine_identity`].
pub fn machine_name<R: Files + AllocGlobal>(
    rt: &R,
    path: &str,
    is_folder: bool,
) -> Result<String, Failure> {
    Ok(machine_identity(rt, path, is_folder)?.name)
}

/// What the machine is called whose variables are in the place at this path.
///
/// If the place is a folder on an efivarfs, that is the UUID of the machine that this runs on, as
/// `/sys/class/dmi/id/product_uuid` has it, in lower case: 36 characters. If the system has no such file, or something
/// else than a UUID in it, or one that many machines have, as makers leave it there who give none, it is `machine-id:` and
/// the 32 digits of `/etc/machine-id`; and if those aren't there either, the path of the place. It is the path too if the
/// UUID can't be read, as by another user than root. Of every other place it is the path: from the root on, without links,
/// with up to 4,096 bytes; as it is given, if the system resolves none.
///
/// # Errors
///
/// [`Failure::Read`] if the path can't be resolved, [`Failure::Refused`] if it is too long, and [`Failure::Memory`] if
/// memory was refused.
pub fn machine_identity<R: Files + AllocGlobal>(
    rt: &R,
    path: &str,
    is_folder: bool,
) -> Result<MachineIdentity, Failure> {
    if !is_folder || !is_on_efivarfs(rt, path)? {
        return of_path(rt, path, None);
    }
    match read_text(rt, PRODUCT_UUID) {
        Ok(text) => of_system(rt, path, text.as_deref()),
        Err(error) if error.kind() == ErrorKind::OutOfMemory => Err(Failure::Memory),
        Err(error) => of_path(rt, path, Some(error)),
    }
}

/// What a machine is called by the path of its place, since what should name it can't be read for this reason, if that is
/// so.
fn of_path<R: Files + AllocGlobal>(
    rt: &R,
    path: &str,
    unread: Option<io::Error>,
) -> Result<MachineIdentity, Failure> {
    Ok(MachineIdentity {
        name: path_from_root(rt, path)?,
        former: Vec::new(rt.alloc()),
        unread,
    })
}

/// What the machine is called that this runs on, of which the system tells this as its UUID, if it tells anything.
fn of_system<R: Files + AllocGlobal>(
    rt: &R,
    path: &str,
    uuid: Option<&str>,
) -> Result<MachineIdentity, Failure> {
    let alloc = rt.alloc();
    let uuid = match uuid {
        Some(text) => read_guid(text),
        None => None,
    };
    let machine_id = system_id(rt)?;
    let path = path_from_root(rt, path)?;
    let name = name_of(alloc, own_uuid(uuid), machine_id.as_deref(), &path)?;
    Ok(MachineIdentity {
        former: former_names(alloc, uuid, &name, path)?,
        name,
        unread: None,
    })
}

/// The UUID, if it is this machine's own, and no other's.
fn own_uuid(uuid: Option<Guid>) -> Option<Guid> {
    let guid = uuid?;
    if is_shared(&guid) { None } else { Some(guid) }
}

/// The name of a machine that has this UUID of its own, whose system has this identity, and whose place has this path. What is
/// before that identity tells it from a UUID and from a path.
fn name_of(
    alloc: Global,
    uuid: Option<Guid>,
    machine_id: Option<&str>,
    path: &str,
) -> Result<String, AllocError>
    ensures { IfOk result (λ name. string_bytes name
        ≡ machine_text (option_map (λ guid. guid.0) uuid) (option_map (λ id. id.now) machine_id.entry) path.now) }
{
    match (uuid, machine_id) {
        (Some(guid), _) => guid_text(alloc, &guid),
        (None, Some(digits)) => machine_id_name(alloc, digits),
        (None, None) => String::from_str(alloc, path),
    }
}

/// The name of a machine whose system has this identity.
fn machine_id_name(alloc: Global, digits: &str) -> Result<String, AllocError>
    ensures { IfOk result (λ name. string_bytes name ≡ codes "machine-id:" ++ digits.now) }
{
    format!(in alloc; "machine-id:{digits}")
}

/// What earlier versions called the machine that has this UUID, this name and this path: by any UUID that isn't blank, and
/// else by the path.
fn former_names(
    alloc: Global,
    uuid: Option<Guid>,
    name: &str,
    path: String,
) -> Result<Vec<String>, AllocError> {
    let former = match uuid.filter(|guid| !is_blank(guid)) {
        Some(guid) => format!(in alloc; "{}", GuidText(&guid))?,
        None => path,
    };
    let mut names = Vec::new(alloc);
    if former.as_str() != name {
        names.push(former)?;
    }
    Ok(names)
}

/// Whether many machines have this UUID.
fn is_shared(guid: &Guid) -> bool
    ensures { IsTrue result ↔ IsShared guid.now.0 }
{
    is_blank(guid) || is_listed(guid)
}

/// Whether it is one of the UUIDs that are known.
fn is_listed(guid: &Guid) -> bool
    ensures { IsTrue result ↔ Contains shared guid.now.0 }
{
    SHARED.contains(&guid.0)
}

/// Whether the digits are all 0, or all F.
fn is_blank(guid: &Guid) -> bool
    ensures { IsTrue result ↔ IsBlankGuid guid.now.0 }
{
    guid.0.iter().all(|byte| *byte == 0) || guid.0.iter().all(|byte| *byte == 0xFF)
}

/// The identity that the system has of its own: `None` if it tells none.
fn system_id<R: Files + AllocGlobal>(rt: &R) -> Result<Option<String>, AllocError> {
    match read_text(rt, MACHINE_ID) {
        Ok(text) => Ok(text.filter(|text| is_machine_id(text))),
        Err(error) if error.kind() == ErrorKind::OutOfMemory => Err(AllocError),
        Err(_) => Ok(None),
    }
}

/// Whether the text is the identity of a system: 32 digits in lower case, which aren't all 0.
fn is_machine_id(text: &str) -> bool {
    let digits = text.as_bytes();
    digits.len() == 32
        && digits.iter().all(|digit| is_lower_digit(*digit))
        && !digits.iter().all(|digit| *digit == b'0')
}

/// Whether it is a hexadecimal digit in lower case.
fn is_lower_digit(digit: u8) -> bool
    ensures { IsTrue result ↔ IsLowerDigit digit }
{
    matches!(digit, b'0'..=b'9' | b'a'..=b'f')
}

/// The text of the file at this path, without blanks and a line feed at its end: `None` if there is no file, or one that is
/// too long or no text.
fn read_text<R: Files + AllocGlobal>(rt: &R, path: &str) -> io::Result<Option<String>> {
    match read_file(rt, path, IDENTITY_MAX) {
        Ok(Some(bytes)) => match str::from_utf8(&bytes) {
            Ok(text) => Ok(Some(String::from_str(rt.alloc(), text.trim_end())?)),
            Err(_) => Ok(None),
        },
        Ok(None) => Ok(None),
        Err(error) if error.kind() == ErrorKind::NotFound => Ok(None),
        Err(error) => Err(error),
    }
}

/// The path from the root on, without links.
fn path_from_root<R: Files + AllocGlobal>(rt: &R, path: &str) -> Result<String, Failure> {
    let alloc = rt.alloc();
    let resolved = resolved(rt, path).map_err(|error| Failure::from_read(alloc, path, error))?;
    let text = resolved.as_path().as_str();
    if text.len() > PATH_MAX {
        return Err(Failure::refused(alloc, path, Reason::LongPath(PATH_MAX)));
    }
    Ok(String::from_str(alloc, text)?)
}
