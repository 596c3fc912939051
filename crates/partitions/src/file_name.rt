//! The name of a file in an EFI System Partition.

ghost use Rattle.std.specs.Prelude.{◌≡◌, ◌⊎◌, ℕ, Some, None, IfOk, IfErr, IsTrue};
ghost use Rattle.std.specs.Option.{SomeIff};
ghost use Rattle.std.specs.Str.{chars, IsUtf8};
ghost use Rattle.partitions.specs.LoaderName.{is_name_character, unit_of, bad_place, units_of, IsNameFault};

use crate::fault::LoaderNameFault;
use std::alloc::Global;
use uefi_path::FileNode;

/// The node of a file (UEFI 2.10, 10.3.5.4) of which this is the path in its file system, from the root on. Its name has
/// a unit for each character, and a backslash for each slash.
///
/// # Errors
///
/// [`LoaderNameFault::NotUtf8`] if the path isn't UTF-8; otherwise [`LoaderNameFault::BadCharacter`] with the place of the
/// first character that the name can't have: zero, a backslash, or one beyond the basic multilingual plane, for which
/// UCS-2 has no unit; otherwise [`LoaderNameFault::TooLong`] if there are more characters than a node holds.
/// [`LoaderNameFault::OutOfMemory`] if memory was refused, which may come before the others but for the first.
pub fn loader_name(alloc: Global, name: &[u8]) -> Result<FileNode, LoaderNameFault>
    ensures utf8 { IfOk result (λ _. IsUtf8 name.now) }
    ensures good { IfOk result (λ _. bad_place (chars name.now) ≡ None) }
    ensures made { IfOk result (λ node. node ≡ units_of name.now) }
    ensures fault { IfErr result (λ fault. IsNameFault name.now fault) }
{
    let text = match str::from_utf8(name) {
        Ok(text) => text,
        Err(error) => return Err(LoaderNameFault::NotUtf8(error.valid_up_to())),
    };
    let units = units_of(alloc, text)?;
    match FileNode::from_vec(units) {
        Ok(node) => Ok(node),
        // No unit is zero.
        Err(_) => Err(LoaderNameFault::TooLong),
    }
}

/// The units of a text's characters, with a backslash for each slash.
fn units_of(alloc: Global, text: &str) -> Result<Vec<u16>, LoaderNameFault>
    ensures good { IfOk result (λ _. bad_place (chars text.now) ≡ None) }
    ensures made { IfOk result (λ units. units.items ≡ units_of text.now) }
    ensures fault { IfErr result (λ fault. (fault ≡ LoaderNameFault.OutOfMemory)
        ⊎ ((at : ℕ) × (fault ≡ LoaderNameFault.BadCharacter at) × (bad_place (chars text.now) ≡ Some at))) }
{
    let mut units = Vec::with_capacity(alloc, text.len())?;
    for (at, character) in text.char_indices() {
        match unit_of(character) {
            Some(unit) => units.push(unit)?,
            None => return Err(LoaderNameFault::BadCharacter(at)),
        }
    }
    Ok(units)
}

/// The unit of a character, if a name can have it.
fn unit_of(character: char) -> Option<u16>
    ensures { SomeIff result (IsTrue (is_name_character character)) (unit_of character) }
{
    match character {
        '\0' | '\\' => None,
        '/' => Some(0x5C),
        '\u{1}'..='\u{FFFF}' => Some(character as u32 as u16),
        _ => None,
    }
}
