//! The resource directory (PE/COFF, 6.9), in which the loader looks for HII (UEFI 2.10, 7.4.1).

ghost use Rattle.std.specs.Prelude.{◌≡◌, ◌+◌, ◌-◌, ◌*◌, ◌<◌, ◌≤◌, ◌^◌, IfOk, IfSome, None, Some, if◌then◌else◌};
ghost use Rattle.std.specs.Result.{result_err};
ghost use Rattle.efi_images.specs.Sections.{HasTable};
ghost use Rattle.efi_images.specs.Check.{first_fault};
ghost use Rattle.efi_images.specs.Resources.{is_marked, unmarked, entries_end, named_entries, directory_at_checks, entry_name, entry_target, is_hii, is_hii_entry, descent_checks, descended, twice_descended, target_checks, hii_checks, name_place_checks, named_checks, reached, is_found, next_entry, names_checks, root_checks, has_resources, resource_checks};

use crate::fault::ImageFault;
use crate::headers::Headers;
use crate::loaded::{Loaded, loaded_at};
use crate::resource_fault::ResourceFault;
use crate::wanted::wanted;

/// The index of the directory of resources.
const RESOURCES: usize = 2;

/// The bit of what is said of a name's place, or of a directory's.
const MARK: u32 = 0x8000_0000;

/// How many bytes a directory has before its entries.
const DIRECTORY_LEN: usize = 16;

/// How many bytes an entry has.
const ENTRY_LEN: usize = 8;

/// How many bytes the name HII has: its length, 3, and the letters.
const HII_LEN: usize = 8;

/// The first four of them.
const HII_FIRST: u32 = 0x48_0003;

/// The last four of them.
const HII_LAST: u32 = 0x49_0049;

/// Where the loader is among the entries with names of a directory.
#[derive(Clone, Copy, Debug, PartialEq, Eq, Hash)]
pub(crate) struct NamedEntries {
    /// How many the directory has.
    pub(crate) count: u16,
    /// Where the one is that is looked at, from the first byte of the resources.
    pub(crate) offset: usize,
}

/// That what the loader looks at of the resource directory is in it.
#[tactic(auto, unfolding(crate::specs::Resources::resource_checks))]
pub(crate) fn check_resources(headers: &Headers<'_>) -> Result<(), ImageFault>
    requires { HasTable headers.now }
    ensures { result_err result ≡ first_fault (resource_checks headers.now) }
{
    if !has_resources(headers) {
        return Ok(());
    }
    let loaded = loaded_at(headers, headers.directory_start(RESOURCES));
    check_root(headers, loaded, headers.directory_size(RESOURCES))
}

/// Whether there are resources, in the image.
fn has_resources(headers: &Headers<'_>) -> bool
    ensures { result ≡ has_resources headers.now }
{
    headers.directory_count() as usize > RESOURCES
        && headers.directory_size(RESOURCES) != 0
        && headers.directory_start(RESOURCES) < headers.image_size()
}

/// The same of resources of so many bytes.
#[tactic(auto, using(crate::proofs::Firsts::first_fault_append))]
fn check_root(headers: &Headers<'_>, loaded: Loaded, size: u32) -> Result<(), ImageFault>
    requires { (loaded.place < 2 ^ 33) × (loaded.size < 2 ^ 32) }
    ensures { result_err result ≡ first_fault (root_checks headers.now loaded size) }
{
    let file = headers.file();
    let place = headers.directory_place(RESOURCES);
    let first = check_directory(file, loaded, size, place, 0)?;
    check_names(file, loaded, size, first)
}

/// That the directory at this offset is in the resources. Gives its entries with names.
fn check_directory(
    file: &[u8],
    loaded: Loaded,
    size: u32,
    place: usize,
    at: u32,
) -> Result<NamedEntries, ImageFault>
    requires { loaded.place < 2 ^ 33 }
    ensures fault { result_err result ≡ first_fault (directory_at_checks file.now loaded size place at) }
    ensures entries { IfOk result (λ entries. entries ≡ named_entries file.now loaded at) }
{
    wanted(
        at < size,
        ImageFault::Resources(ResourceFault::BeyondResources {
            place,
            found: at,
            size,
        }),
    )?;
    let at = at as usize;
    wanted(
        at + DIRECTORY_LEN <= loaded.size,
        ImageFault::Resources(ResourceFault::NotLoaded { place }),
    )?;
    let count = loaded.u16(file, at + 12);
    let others = loaded.u16(file, at + 14);
    let found = at + (DIRECTORY_LEN + ENTRY_LEN * (usize::from(count) + usize::from(others)));
    wanted(
        found <= size as usize,
        ImageFault::Resources(ResourceFault::DirectorySize { place, found, size }),
    )?;
    Ok(NamedEntries {
        count,
        offset: at + DIRECTORY_LEN,
    })
}

/// That what the loader looks at is in the resources, from these entries on.
///
/// It counts the names that it has looked at, wherever it is, up to as many as its directory has: so it comes to an end
/// after 65,535 at most, also in resources that lead back to where it was.
fn check_names(
    file: &[u8],
    loaded: Loaded,
    size: u32,
    first: NamedEntries,
) -> Result<(), ImageFault>
    requires loaded { (loaded.place < 2 ^ 33) × (loaded.size < 2 ^ 32) }
    requires offset { first.offset < 2 ^ 32 }
    ensures { result_err result ≡ first_fault (names_checks file.now loaded size 0 first size) }
{
    let mut entries = first;
    for index in 0..size {
        if index >= u32::from(entries.count) {
            return Ok(());
        }
        match check_name(file, loaded, size, entries)? {
            Some(next) => entries = next,
            None => return Ok(()),
        }
    }
    Ok(())
}

/// The same of this entry. Gives the next that the loader looks at, if it looks at one.
#[tactic(auto, using(crate::proofs::Firsts::first_fault_append))]
fn check_name(
    file: &[u8],
    loaded: Loaded,
    size: u32,
    entries: NamedEntries,
) -> Result<Option<NamedEntries>, ImageFault>
    requires loaded { (loaded.place < 2 ^ 33) × (loaded.size < 2 ^ 32) }
    requires offset { entries.offset < 2 ^ 32 }
    ensures fault { result_err result ≡ first_fault (named_checks file.now loaded size entries) }
    ensures next { IfOk result (λ next.
        next ≡ (if is_found file.now loaded entries then None else Some (next_entry file.now loaded entries))) }
    ensures bound { IfOk result (λ next. IfSome next (λ e. e.offset < 2 ^ 32)) }
{
    let place = loaded.file_offset(entries.offset);
    wanted(
        entries.offset + ENTRY_LEN <= loaded.size,
        ImageFault::Resources(ResourceFault::NotLoaded { place }),
    )?;
    let name = loaded.u32(file, entries.offset);
    check_name_place(loaded, size, place, name)?;
    if name < MARK || !is_hii(file, loaded, name - MARK) {
        return Ok(Some(after(entries)));
    }
    let reached = check_hii(file, loaded, size, entries)?;
    if loaded.u32(file, reached.offset + 4) < MARK {
        return Ok(None);
    }
    Ok(Some(after(reached)))
}

/// The entry after this one.
fn after(entries: NamedEntries) -> NamedEntries
    requires { entries.offset < 2 ^ 33 }
    ensures { (result.count ≡ entries.count) × (result.offset ≡ entries.offset + 8) }
{
    NamedEntries {
        count: entries.count,
        offset: entries.offset + ENTRY_LEN,
    }
}

/// That the name, if it is letters, is in the resources.
fn check_name_place(loaded: Loaded, size: u32, place: usize, name: u32) -> Result<(), ImageFault>
    ensures { result_err result ≡ first_fault (name_place_checks loaded size place name) }
{
    if name < MARK {
        return Ok(());
    }
    let found = name - MARK;
    wanted(
        found < size,
        ImageFault::Resources(ResourceFault::BeyondResources { place, found, size }),
    )?;
    wanted(
        found as usize + HII_LEN <= loaded.size,
        ImageFault::Resources(ResourceFault::NotLoaded { place }),
    )
}

/// Whether the name at this offset is HII.
fn is_hii(file: &[u8], loaded: Loaded, at: u32) -> bool
    requires { loaded.place < 2 ^ 33 }
    ensures { result ≡ is_hii file.now loaded at }
{
    let at = at as usize;
    loaded.u32(file, at) == HII_FIRST && loaded.u32(file, at + 4) == HII_LAST
}

/// That what the entry named HII leads to is in the resources, two levels down. Gives the entry there.
#[tactic(auto, using(crate::proofs::Firsts::first_fault_append))]
fn check_hii(
    file: &[u8],
    loaded: Loaded,
    size: u32,
    entries: NamedEntries,
) -> Result<NamedEntries, ImageFault>
    requires loaded { (loaded.place < 2 ^ 33) × (loaded.size < 2 ^ 32) }
    requires offset { entries.offset + 8 ≤ loaded.size }
    ensures fault { result_err result ≡ first_fault (hii_checks file.now loaded size entries) }
    ensures reached { IfOk result (λ e. e ≡ twice_descended file.now loaded entries) }
    ensures bound { IfOk result (λ e. e.offset + 8 ≤ loaded.size) }
{
    let names = check_descent(file, loaded, size, entries)?;
    let languages = check_descent(file, loaded, size, names)?;
    check_target(file, loaded, size, languages)?;
    Ok(languages)
}

/// That the directory that the entry leads to, if it leads to one, is in the resources. Gives the first entry of that, or
/// else this one.
#[tactic(auto, using(crate::proofs::Firsts::first_fault_append))]
fn check_descent(
    file: &[u8],
    loaded: Loaded,
    size: u32,
    entries: NamedEntries,
) -> Result<NamedEntries, ImageFault>
    requires loaded { (loaded.place < 2 ^ 33) × (loaded.size < 2 ^ 32) }
    requires offset { entries.offset + 8 ≤ loaded.size }
    ensures fault { result_err result ≡ first_fault (descent_checks file.now loaded size entries) }
    ensures descended { IfOk result (λ e. e ≡ descended file.now loaded entries) }
    ensures bound { IfOk result (λ e. e.offset + 8 ≤ loaded.size) }
{
    let target = loaded.u32(file, entries.offset + 4);
    if target < MARK {
        return Ok(entries);
    }
    let at = target - MARK;
    let place = loaded.file_offset(entries.offset);
    let first = check_directory(file, loaded, size, place, at)?;
    wanted(
        at as usize + (DIRECTORY_LEN + ENTRY_LEN) <= loaded.size,
        ImageFault::Resources(ResourceFault::NotLoaded { place }),
    )?;
    Ok(first)
}

/// That the data that the entry leads to, if it leads to some, are in the resources.
fn check_target(
    file: &[u8],
    loaded: Loaded,
    size: u32,
    entries: NamedEntries,
) -> Result<(), ImageFault>
    requires loaded { loaded.place < 2 ^ 33 }
    requires offset { entries.offset < 2 ^ 32 }
    ensures { result_err result ≡ first_fault (target_checks file.now loaded size entries) }
{
    let found = loaded.u32(file, entries.offset + 4);
    wanted(
        found >= MARK || found < size,
        ImageFault::Resources(ResourceFault::BeyondResources {
            place: loaded.file_offset(entries.offset),
            found,
            size,
        }),
    )
}
