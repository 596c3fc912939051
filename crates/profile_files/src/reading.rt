//! Files, read to profiles.

ghost use Rattle.std.specs.Prelude.{◌≡◌, false, IfErr, IsSome, OnOk};
ghost use Rattle.toml.specs.Parse.{parse_document};
ghost use Rattle.profile_files.specs.Position.{IsPlaced};
ghost use Rattle.profile_files.specs.Syntax.{begins_with_brace};

use crate::document::profile_of;
use crate::fault::{FileError, FileFault, Stop};
use crate::json_text::read_json;
use crate::position::position_of;
use crate::toml_text::read_toml;
use crate::written::WrittenProfile;
use std::alloc::Global;

/// The profile that a file of these bytes says. It is JSON if its first byte that isn't white space is an opening brace, and TOML
/// otherwise.
///
/// # Errors
///
/// [`FileError::At`] with a fault and its place, and [`FileError::OutOfMemory`] if memory was refused.
pub fn read_profile(alloc: Global, bytes: &[u8]) -> Result<WrittenProfile, FileError>
    ensures toml { OnOk result (begins_with_brace bytes.now ≡ false → IsSome (parse_document bytes.now)) }
    ensures placed { IfErr result (IsPlaced bytes.now) }
{
    match read_bytes(alloc, bytes) {
        Ok(profile) => Ok(profile),
        Err(Stop::OutOfMemory) => Err(FileError::OutOfMemory),
        Err(Stop::At(place, fault)) => {
            let place = place.min(bytes.len());
            let position = position_of(bytes, place);
            Err(FileError::At { position, fault })
        }
    }
}

/// The same, with the place of the fault counted in bytes.
fn read_bytes(alloc: Global, bytes: &[u8]) -> Result<WrittenProfile, Stop>
    ensures { OnOk result (begins_with_brace bytes.now ≡ false → IsSome (parse_document bytes.now)) }
{
    let text = match str::from_utf8(bytes) {
        Ok(text) => text,
        Err(error) => return Err(Stop::At(error.valid_up_to(), FileFault::NotUtf8)),
    };
    let members = if is_json(bytes) {
        read_json(alloc, text)?
    } else {
        read_toml(alloc, text)?
    };
    profile_of(alloc, &members)
}

/// Whether the first byte that isn't white space is an opening brace.
fn is_json(bytes: &[u8]) -> bool
    ensures { result ≡ begins_with_brace bytes.now }
{
    let mut rest = bytes;
    'bytes: while let Some((byte, after)) = rest.split_first() {
        if !matches!(*byte, b' ' | b'\t' | b'\n' | b'\r') {
            return *byte == b'{';
        }
        rest = after;
    }
    false
}
