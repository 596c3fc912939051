//! Parts to load options.

ghost use Rattle.std.specs.Prelude.{◌≡◌, ◌≢◌, ◌↔◌, ◌<◌, [], length, Contains, Err, IfOk, IfErr, OnOk};
ghost use Rattle.uefi_option.specs.declared.fault.OptionFault.{OptionFault};
ghost use Rattle.uefi_option.specs.LoadOption.{option_parts, list_max, list_bytes, IsOption};
ghost use Rattle.uefi_option.specs.PartsFault.{ArePartsOfOption, IsPartsFault};

use crate::fault::OptionFault;
use crate::load_option::LoadOption;
use crate::shared::Lists;
use crate::writer::list_len;
use std::alloc::Global;
use uefi_path::Path;

/// The load option of these parts, which are copied (UEFI 2.10, 3.1.3). The description is given as CHAR16 units
/// without the zero that closes it.
///
/// # Errors
///
/// [`OptionFault::ZeroUnit`] if a unit of the description is zero; otherwise [`OptionFault::EmptyList`] if there is no
/// path; otherwise [`OptionFault::ListTooLong`] if the spellings of the paths have more than
/// [`LIST_MAX`](crate::LIST_MAX) bytes together; otherwise [`OptionFault::OutOfMemory`] if memory for the parts was
/// refused.
pub fn make_option(
    alloc: Global,
    attributes: u32,
    description: &[u16],
    paths: &[Path],
    optional: &[u8],
) -> Result<LoadOption, OptionFault>
    ensures made { IfOk result (λ option.
        option ≡ option_parts attributes description.now paths.now optional.now) }
    ensures valid { IfOk result (λ option. IsOption option) }

    ensures zero_unit { (result ≡ Err OptionFault.ZeroUnit) ↔ Contains description.now 0 }
    ensures empty_list { (result ≡ Err OptionFault.EmptyList)
        ↔ ((¬ Contains description.now 0) × (paths.now ≡ [])) }
    ensures list_too_long { (result ≡ Err OptionFault.ListTooLong)
        ↔ ((¬ Contains description.now 0) × (list_max < length (list_bytes paths.now))) }
    // The only other refusal is out of memory.
    ensures named { IfErr result IsPartsFault }
{
    let list_len = check_parts(description, paths)?;
    let lists = Lists::from_slices(alloc, description, paths, optional)?;
    Ok(LoadOption::from_lists(alloc, attributes, list_len, lists)?)
}

/// How many bytes the list of these paths has, if the description and they are those of an option.
pub(crate) fn check_parts(description: &[u16], paths: &[Path]) -> Result<u16, OptionFault>
    ensures ok { OnOk result (ArePartsOfOption description.now paths.now) }
    ensures len { IfOk result (λ len. len ≡ length (list_bytes paths.now)) }
    ensures zero_unit { (result ≡ Err OptionFault.ZeroUnit) ↔ Contains description.now 0 }
    ensures empty_list { (result ≡ Err OptionFault.EmptyList)
        ↔ ((¬ Contains description.now 0) × (paths.now ≡ [])) }
    ensures list_too_long { (result ≡ Err OptionFault.ListTooLong)
        ↔ ((¬ Contains description.now 0) × (list_max < length (list_bytes paths.now))) }
    ensures named { IfErr result IsPartsFault }
    ensures no_memory { IfErr result (λ fault. fault ≢ OptionFault.OutOfMemory) }
{
    if description.contains(&0) {
        return Err(OptionFault::ZeroUnit);
    }
    if paths.is_empty() {
        return Err(OptionFault::EmptyList);
    }
    let Some(len) = list_len(paths) else {
        return Err(OptionFault::ListTooLong);
    };
    Ok(len)
}
