//! Bytes to load options.

ghost use Rattle.std.specs.Prelude.{◌≡◌, ◌≢◌, ◌+◌, ◌<◌, ◌≤◌, ◌^◌, ◌++◌, ℕ, length, IfOk, IfErr, IfSome, IfNone, IsOkAnd, OnOk, Ok, Err};
ghost use Rattle.std.specs.List.{AllByRecursion};
ghost use Rattle.uefi_path.specs.declared.fault.PathFault.{PathFault};
ghost use Rattle.uefi_path.specs.Answer.{IsUnless};
ghost use Rattle.uefi_path.specs.Path.{IsPath};
ghost use Rattle.uefi_option.specs.declared.fault.OptionFault.{OptionFault};
ghost use Rattle.uefi_option.specs.LoadOption.{OptionParts, SpellsOption, header_bytes, list_bytes};
ghost use Rattle.uefi_option.specs.Fault.{IsFirstFault};
ghost use Rattle.uefi_option.specs.View.{ShowsOption, IsCutFrom};
ghost use Rattle.uefi_option.specs.Reader.{AreUnits, SplitsUnits, HasNoZero, SplitsOption, ArePaths, IsListFault};

use crate::fault::OptionFault;
use crate::laws;
use crate::load_option::LoadOption;
use crate::shared::Lists;
use crate::view::OptionView;
use std::alloc::{AllocError, Global};
use uefi_path::{Path, PathFault, check_path, laws as path_laws, read_path, read_units};

/// The attributes, the length of the list, and the bytes after them, if there are the six bytes of the two.
fn split_header(bytes: &[u8]) -> Option<(u32, usize, &[u8])>
    ensures found { IfSome result (λ split. bytes.now ≡ header_bytes split.0 split.1 ++ split.2.now) }
    ensures bounds { IfSome result (λ split. (split.0 < 2 ^ 32) × (split.1 < 2 ^ 16)) }
    ensures none { IfNone result (length bytes.now < 6) }
{
    match bytes {
        [a, b, c, d, low, high, rest @ ..] => {
            let attributes = u32::from_le_bytes([*a, *b, *c, *d]);
            let len = u16::from_le_bytes([*low, *high]);
            Some((attributes, usize::from(len), rest))
        }
        _ => None,
    }
}

/// The bytes of the units before the first zero unit, and the bytes after it, if there is one.
fn split_units(bytes: &[u8]) -> Option<(&[u8], &[u8])>
    ensures found { IfSome result (λ split. SplitsUnits bytes.now split.0.now split.1.now) }
    ensures none { IfNone result (HasNoZero bytes.now) }
{
    path_laws::units_are_read_again();
    let mut rest = bytes;
    while let [low, high, behind @ ..] = rest {
        let unit = u16::from_le_bytes([*low, *high]);
        if unit == 0 {
            let (units, _) = bytes.split_at(bytes.len() - rest.len());
            return Some((units, behind));
        }
        rest = behind;
    }
    None
}

/// The parts of the option that the bytes are, if they are one as far as can be told without reading a path.
fn split_option(bytes: &[u8]) -> Result<OptionView<'_>, OptionFault>
    ensures found { IfOk result (λ view.
        SplitsOption bytes.now view.attributes view.description.now view.list.now view.optional.now) }
    ensures fault { IfErr result (λ fault. IsFirstFault bytes.now fault) }
{
    let Some((attributes, len, rest)) = split_header(bytes) else {
        return Err(OptionFault::Short { found: bytes.len() });
    };
    let Some((description, rest)) = split_units(rest) else {
        return Err(OptionFault::NoTerminator);
    };
    if len > rest.len() {
        return Err(OptionFault::ListPastEnd {
            stated: len,
            left: rest.len(),
        });
    }
    if len == 0 {
        return Err(OptionFault::EmptyList);
    }
    let (list, optional) = rest.split_at(len);
    Ok(OptionView {
        attributes,
        description,
        list,
        optional,
    })
}

/// Looks whether the list is paths, one after the other. The list begins at this offset of the option.
fn check_paths(list: &[u8], start: usize) -> Result<(), OptionFault>
    requires { start + length list.now < 2 ^ 64 }
    ensures ok { OnOk result (ArePaths list.now) }
    ensures fault { IfErr result (λ fault. IsListFault list.now start fault) }
{
    let mut rest = list;
    while !rest.is_empty() {
        match check_path(rest) {
            Ok(len) => rest = &rest[len..],
            Err(fault) => {
                let place = start + (list.len() - rest.len());
                return Err(OptionFault::Path(place, fault));
            }
        }
    }
    Ok(())
}

/// Finds an option, and says of its answer what is found.
fn find_option(bytes: &[u8]) -> Result<OptionView<'_>, OptionFault>
    ensures found { IfOk result (λ view.
        (option : OptionParts) × SpellsOption bytes.now option × ShowsOption view option) }
    ensures places { IfOk result (λ view. IsCutFrom view bytes.now) }
    ensures fault { IfErr result (λ fault. IsFirstFault bytes.now fault) }
{
    let view = split_option(bytes)?;
    let start = bytes.len() - view.optional.len() - view.list.len();
    check_paths(view.list, start)?;
    Ok(view)
}

/// Finds the load option that the bytes are, all of them (UEFI 2.10, 3.1.3), in place: [`read_option`] without the
/// memory. What comes after the list of paths is its optional data.
///
/// # Errors
///
/// The first of these faults: [`OptionFault::Short`] if there are fewer than six bytes; [`OptionFault::NoTerminator`]
/// if no zero unit closes the description; [`OptionFault::ListPastEnd`] if fewer bytes follow than the list is to have;
/// [`OptionFault::EmptyList`] if it is to have none; [`OptionFault::Path`] if the bytes after whole paths in the list,
/// up to the end of the list, don't begin with a path.
pub fn check_option(bytes: &[u8]) -> Result<OptionView<'_>, OptionFault>
    // What is found is spelled so.
    ensures found { IfOk result (λ view.
        (option : OptionParts) × SpellsOption bytes.now option × ShowsOption view option) }
    // Each part is the slice of the input at its place.
    ensures places { IfOk result (λ view. IsCutFrom view bytes.now) }
    // What is spelled so is found.
    ensures only { (option : OptionParts) → SpellsOption bytes.now option →
        IsOkAnd result (λ view. ShowsOption view option) }

    ensures fault { IfErr result (λ fault. IsFirstFault bytes.now fault) }
    ensures only_fault { (fault : OptionFault) → IsFirstFault bytes.now fault → result ≡ Err fault }
    // No memory is taken.
    ensures memory { result ≢ Err OptionFault.OutOfMemory }
    ensures own_memory { (place : ℕ) → result ≢ Err (OptionFault.Path place PathFault.OutOfMemory) }
{
    laws::bytes_spell_one_option();
    laws::a_fault_leaves_no_option();
    laws::bytes_have_one_first_fault();
    find_option(bytes)
}

/// The paths that the list is, one after the other.
fn read_paths(alloc: Global, list: &[u8]) -> Result<Vec<Path>, AllocError>
    ensures valid { IfOk result (λ paths. AllByRecursion IsPath paths.items) }
    ensures found { IfOk result (λ paths. list.now ≡ list_bytes paths.items) }
{
    let mut paths = Vec::new(alloc);
    let mut rest = list;
    while !rest.is_empty() {
        // The list is whole paths, so nothing is refused but memory.
        let Ok((path, len)) = read_path(alloc, rest) else {
            return Err(AllocError);
        };
        paths.push(path)?;
        rest = &rest[len..];
    }
    Ok(paths)
}

/// Reads the load option that the bytes are, all of them (UEFI 2.10, 3.1.3). What comes after the list of paths is its
/// optional data.
///
/// # Errors
///
/// Those of [`check_option`], before any memory is taken. [`OptionFault::OutOfMemory`] comes only for bytes that are a
/// load option, if memory for its parts was refused.
pub fn read_option(alloc: Global, bytes: &[u8]) -> Result<LoadOption, OptionFault>
    // What is read is spelled so.
    ensures found { IfOk result (λ option. SpellsOption bytes.now option) }
    // What is spelled so is read.
    ensures only { (option : OptionParts) → SpellsOption bytes.now option →
        IsUnless result (Ok option) OptionFault.OutOfMemory }

    ensures fault { IfErr result (λ fault.
        fault ≢ OptionFault.OutOfMemory → IsFirstFault bytes.now fault) }
    ensures only_fault { (fault : OptionFault) → IsFirstFault bytes.now fault →
        IsUnless result (Err fault) OptionFault.OutOfMemory }
    // Out of memory for a path is out of memory.
    ensures own_memory { (place : ℕ) → result ≢ Err (OptionFault.Path place PathFault.OutOfMemory) }
{
    laws::bytes_spell_one_option();
    path_laws::units_are_read_again();
    let view = check_option(bytes)?;
    let lists = Lists {
        description: read_units(alloc, view.description)?,
        paths: read_paths(alloc, view.list)?,
        optional: Vec::from_slice(alloc, view.optional)?,
    };
    Ok(LoadOption::from_lists(alloc, view.attributes, view.list.len() as u16, lists)?)
}
