//! Load options of their parts.

ghost use Rattle.std.specs.Prelude.{◌≡◌, ◌≢◌, ℕ, IfOk, IfErr};
ghost use Rattle.std.specs.Str.{IsUtf8, IsValidUpTo};
ghost use Rattle.uefi_path.specs.declared.fault.PathFault.{PathFault};
ghost use Rattle.bootkeep_c.specs.declared.failure.Failure.{Failure};
ghost use Rattle.bootkeep_c.specs.Refusals.{path_failure, list_failure};
ghost use Rattle.bootkeep_c.specs.Answers.{Answers};
ghost use Rattle.bootkeep_c.specs.Making.{text_units, IsOptionOf, IsOptionOfUnits, ArePathsOf, HasBadPath, not_a_text, IsMakeFailure, IsUnitsFailure};

use crate::answer::answer;
use crate::failure::Failure;
use crate::refusal::{OPTION_NOT_UTF8, Refusal};
use std::alloc::{AllocError, Global};
use std::str;
use uefi_option::{make_option, write_option};
use uefi_path::{Path, read_path};

/// The load option of these parts (UEFI 2.10, 3.1.3): the description is a text, and the list the bytes of the paths,
/// one path after the other.
#[unsafe(no_mangle)]
pub extern "C" fn bootkeep_option_make(
    alloc: Global,
    attributes: u32,
    description: &[u8],
    list: &[u8],
    optional: &[u8],
    out: &mut [u8],
    len: &mut usize,
    refusal: &mut Refusal,
) -> u32
    ensures { Answers (IsOptionOf attributes description.now list.now optional.now)
        (IsMakeFailure description.now list.now) result out.old out.new len.old len.new refusal.old refusal.new }
{
    let made = option_of(alloc, attributes, description, list, optional);
    answer(made, out, len, refusal)
}

/// The load option of these parts (UEFI 2.10, 3.1.3): the description is the units that are stored, without the zero
/// unit that closes it, and the list the bytes of the paths, one path after the other.
#[unsafe(no_mangle)]
pub extern "C" fn bootkeep_option_make_units(
    alloc: Global,
    attributes: u32,
    units: &[u16],
    list: &[u8],
    optional: &[u8],
    out: &mut [u8],
    len: &mut usize,
    refusal: &mut Refusal,
) -> u32
    ensures { Answers (IsOptionOfUnits attributes units.now list.now optional.now)
        (IsUnitsFailure units.now list.now) result out.old out.new len.old len.new refusal.old refusal.new }
{
    let made = option_of_units(alloc, attributes, units, list, optional);
    answer(made, out, len, refusal)
}

/// The bytes of the load option of these parts.
fn option_of(
    alloc: Global,
    attributes: u32,
    description: &[u8],
    list: &[u8],
    optional: &[u8],
) -> Result<Vec<u8>, Failure>
    ensures made { IfOk result (λ bytes.
        IsOptionOf attributes description.now list.now optional.now bytes.items) }
    ensures fault { IfErr result (λ failed. failed ≢ Failure.Memory → IsMakeFailure description.now list.now failed) }
{
    let units = units_of(alloc, text_of(description)?)?;
    option_of_units(alloc, attributes, &units, list, optional)
}

/// The bytes of the load option of these units and parts.
fn option_of_units(
    alloc: Global,
    attributes: u32,
    units: &[u16],
    list: &[u8],
    optional: &[u8],
) -> Result<Vec<u8>, Failure>
    ensures made { IfOk result (λ bytes.
        IsOptionOfUnits attributes units.now list.now optional.now bytes.items) }
    ensures fault { IfErr result (λ failed. failed ≢ Failure.Memory → IsUnitsFailure units.now list.now failed) }
{
    let paths = read_paths(alloc, list)?;
    let option = make_option(alloc, attributes, units, &paths, optional)?;
    Ok(write_option(alloc, &option)?)
}

/// The text that the description is, if it is UTF-8.
fn text_of(description: &[u8]) -> Result<&str, Failure>
    ensures found { IfOk result (λ text. (text.now ≡ description.now) × IsUtf8 description.now) }
    ensures fault { IfErr result (λ failed. (¬ IsUtf8 description.now)
        × (place : ℕ) × IsValidUpTo description.now place × (failed ≡ not_a_text place)) }
{
    match str::from_utf8(description) {
        Ok(text) => Ok(text),
        Err(fault) => Err(Failure::at(OPTION_NOT_UTF8, fault.valid_up_to())),
    }
}

/// The units of a text in UTF-16.
fn units_of(alloc: Global, text: &str) -> Result<Vec<u16>, AllocError>
    ensures { IfOk result (λ units. units.items ≡ text_units text.now) }
{
    let mut units = Vec::new(alloc);
    for character in text.chars() {
        let mut pair = [0; 2];
        units.extend_from_slice(character.encode_utf16(&mut pair))?;
    }
    Ok(units)
}

/// The paths that the list is, one after the other.
fn read_paths(alloc: Global, list: &[u8]) -> Result<Vec<Path>, Failure>
    ensures found { IfOk result (λ paths. ArePathsOf list.now paths.items) }
    ensures fault { IfErr result (λ failed. failed ≢ Failure.Memory → (place : ℕ) × (fault : PathFault)
        × HasBadPath list.now place fault × (failed ≡ list_failure place (path_failure fault))) }
{
    let mut paths = Vec::new(alloc);
    let mut rest = list;
    while !rest.is_empty() {
        match read_path(alloc, rest) {
            Ok((path, len)) => {
                paths.push(path)?;
                rest = &rest[len..];
            }
            Err(fault) => {
                let place = list.len() - rest.len();
                return Err(Failure::from(fault).in_list(place));
            }
        }
    }
    Ok(paths)
}
