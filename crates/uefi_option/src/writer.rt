//! Load options to bytes.

ghost use Rattle.std.specs.Prelude.{◌≡◌, ◌<◌, ◌≤◌, ◌^◌, ◌++◌, length, IfOk, OnOk, OnErr, OnSome};
ghost use Rattle.std.specs.List.{AllByRecursion};
ghost use Rattle.std.specs.Option.{SomeIff};
ghost use Rattle.uefi_path.specs.Path.{IsPath};
ghost use Rattle.uefi_option.specs.LoadOption.{list_max, list_bytes, option_bytes, IsOption};
ghost use Rattle.uefi_option.specs.Writer.{Extends};

use crate::load_option::LoadOption;
use std::alloc::{AllocError, Global};
use uefi_path::{Path, append_units, laws, path_len, write_path};

/// The bytes of the attributes and of the length of the list.
const HEADER_LEN: usize = 6;

/// The bytes of a unit.
const UNIT_LEN: usize = 2;

/// How many bytes the list of these paths has: `None` if two bytes can't state it.
pub(crate) fn list_len(paths: &[Path]) -> Option<u16>
    ensures len { let len = length (list_bytes paths.now) in SomeIff result (len ≤ list_max) len }
    ensures valid { OnSome result (AllByRecursion IsPath paths.now) }
{
    let mut len: u16 = 0;
    for path in paths {
        len = len.checked_add(u16::try_from(path_len(path)?).ok()?)?;
    }
    Some(len)
}

/// How many bytes the spelling of a load option has (UEFI 2.10, 3.1.3): `None` if `usize` can't count them. Nothing is
/// written.
pub fn option_len(option: &LoadOption) -> Option<usize>
    ensures len { let len = length (option_bytes option.now) in SomeIff result (len < 2 ^ 64) len }
    ensures valid { IsOption option.now }
{
    laws::units_have_two_bytes_each();
    let units = option.description().len().checked_add(1)?;
    units
        .checked_mul(UNIT_LEN)?
        .checked_add(HEADER_LEN)?
        .checked_add(usize::from(option.list_len()))?
        .checked_add(option.optional().len())
}

/// Appends the spellings of paths one after the other. An `Err` may leave a part of them.
fn append_paths(paths: &[Path], bytes: &mut Vec<u8>) -> Result<(), AllocError>
    ensures ok { OnOk result (bytes.new.items ≡ bytes.old.items ++ list_bytes paths.now) }
    ensures err { OnErr result (Extends bytes.old.items bytes.new.items) }
{
    for path in paths {
        write_path(path, bytes)?;
    }
    Ok(())
}

/// Appends the spelling of the option. An `Err` may leave a part of it.
fn append_parts(option: &LoadOption, bytes: &mut Vec<u8>) -> Result<(), AllocError>
    ensures ok { OnOk result (bytes.new.items ≡ bytes.old.items ++ option_bytes option.now) }
    ensures err { OnErr result (Extends bytes.old.items bytes.new.items) }
{
    bytes.extend_from_slice(&option.attributes().to_le_bytes())?;
    bytes.extend_from_slice(&option.list_len().to_le_bytes())?;
    append_units(option.description(), bytes)?;
    bytes.extend_from_slice(&0u16.to_le_bytes())?;
    append_paths(option.paths(), bytes)?;
    bytes.extend_from_slice(option.optional())
}

/// Appends the spelling of a load option (UEFI 2.10, 3.1.3): its attributes in four bytes and the length of its list in
/// two, little-endian, the units of its description and a zero unit, two bytes each, the spellings of its paths, and
/// its optional data. Room for it is made once.
///
/// # Errors
///
/// `AllocError` if memory was refused; `bytes` then has the bytes that it had.
pub fn append_option(option: &LoadOption, bytes: &mut Vec<u8>) -> Result<(), AllocError>
    ensures ok { OnOk result (bytes.new.items ≡ bytes.old.items ++ option_bytes option.now) }
    ensures err { OnErr result (bytes.new.items ≡ bytes.old.items) }
    ensures valid { IsOption option.now }
{
    // More bytes than `usize` can count find no room.
    let Some(len) = option_len(option) else {
        return Err(AllocError);
    };
    bytes.reserve(len)?;
    let start = bytes.len();
    let written = append_parts(option, bytes);
    if written.is_err() {
        bytes.truncate(start);
    }
    written
}

/// The spelling of a load option (UEFI 2.10, 3.1.3): its attributes in four bytes and the length of its list in two,
/// little-endian, the units of its description and a zero unit, two bytes each, the spellings of its paths, and its
/// optional data. This fails only when out of memory.
pub fn write_option(alloc: Global, option: &LoadOption) -> Result<Vec<u8>, AllocError>
    ensures written { IfOk result (λ out. out.items ≡ option_bytes option.now) }
    ensures valid { IsOption option.now }
{
    let mut out = Vec::new(alloc);
    append_option(option, &mut out)?;
    Ok(out)
}
