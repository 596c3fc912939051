//! What kind of file some bytes are.

ghost use Rattle.std.specs.Prelude.{◌↔◌, IsTrue};
ghost use Rattle.var_places.specs.FileKind.{BeginsSet, HasSignature, IsKind};

use messages::{NoOption, OtherKind};
use uefi_option::check_option;
use uefi_vars::{ATTRIBUTES_LEN, SET_MAGIC};
use var_stores::VOLUME_SIGNATURE;

/// What the first bytes of a file say that it is.
#[derive(Clone, Copy, Debug, PartialEq, Eq)]
pub enum FileKind {
    /// A set file.
    Set,
    /// An emulator's variable file.
    VariableFile,
    /// Neither of them.
    Other,
}

/// What kind of file the bytes are. A set file begins with `BVS1`, and a firmware volume has its signature at byte 40.
pub fn file_kind(bytes: &[u8]) -> FileKind
    ensures { IsKind result bytes.now }
{
    if begins_set(bytes) {
        FileKind::Set
    } else if has_signature(bytes) {
        FileKind::VariableFile
    } else {
        FileKind::Other
    }
}

/// Whether the bytes begin as a set file.
fn begins_set(bytes: &[u8]) -> bool
    ensures { IsTrue result ↔ BeginsSet bytes.now }
{
    bytes.starts_with(&SET_MAGIC)
}

/// Whether the bytes have the signature of a firmware volume.
fn has_signature(bytes: &[u8]) -> bool
    ensures { IsTrue result ↔ HasSignature bytes.now }
{
    bytes.len() >= 44 && &bytes[40..44] == VOLUME_SIGNATURE.as_slice()
}

/// What the bytes of a file look like that is no place of variables.
pub fn other_kind(bytes: &[u8]) -> OtherKind {
    if bytes.is_empty() {
        OtherKind::Empty
    } else if check_option(bytes).is_ok() {
        OtherKind::LoadOption
    } else if is_efivar(bytes) {
        OtherKind::Efivar
    } else if bytes.starts_with(b"BQ") {
        OtherKind::Stream
    } else if bytes.starts_with(b"deliver ") {
        OtherKind::Script
    } else if bytes.starts_with(b"QFI\xfb") {
        OtherKind::DiskImage
    } else {
        OtherKind::Unknown
    }
}

/// Whether the bytes begin with the attributes of a variable, of which seven bits are defined (UEFI 2.10, 8.2), and have
/// a value after them.
fn is_efivar(bytes: &[u8]) -> bool {
    matches!(bytes, [1..=0x7f, 0, 0, 0, _, ..])
}

/// What the bytes of a file look like that is no load option, if they look like anything else.
pub fn no_option(bytes: &[u8]) -> Option<NoOption> {
    match file_kind(bytes) {
        FileKind::Set => Some(NoOption::Set),
        FileKind::VariableFile => Some(NoOption::VariableFile),
        FileKind::Other => match other_kind(bytes) {
            OtherKind::Empty => Some(NoOption::Empty),
            // A damaged option begins as a file of efivarfs does, so there has to be an option after the attributes.
            OtherKind::Efivar => Some(NoOption::Efivar).filter(|_| has_option(bytes)),
            OtherKind::Stream => Some(NoOption::Stream),
            OtherKind::Script => Some(NoOption::Script),
            OtherKind::DiskImage => Some(NoOption::DiskImage),
            OtherKind::LoadOption | OtherKind::Unknown => None,
        },
    }
}

/// Whether a load option comes after the attributes of a variable.
fn has_option(bytes: &[u8]) -> bool {
    bytes
        .get(ATTRIBUTES_LEN..)
        .is_some_and(|rest| check_option(rest).is_ok())
}
