//! Folders in which Linux shows variables, each as a file: its name, a hyphen and its vendor's GUID are the file's name,
//! and the file has four bytes of attributes and then the value.

ghost use Rattle.std.specs.Prelude.{◌≡◌, ◌↔◌, ℕ, List, None, IfSome, IfOk, IsTrue, MatchOption, take, drop};
ghost use Rattle.std.specs.FinMap as map;
ghost use Rattle.std.specs.String.{string_bytes};
ghost use Rattle.uefi_text.specs.Guid.{IsGuid};
ghost use Rattle.uefi_vars.specs.Name.{global_vendor};
ghost use Rattle.var_places.specs.Folder.{IsFileName, IsVendorText, IsRefused, IsUnkept, IsRead};
ghost use Rattle.var_places.specs.declared.folder.LeftOut.{LeftOut};

use crate::mounts::is_on_efivarfs;
use crate::place_vars::PlaceVars;
use messages::{Failure, IsIgnored, Quoted, Reason, Shortened, note};
use std::alloc::{AllocError, Global};
use std::collections::BTreeMap;
use std::fs;
use std::io::ErrorKind;
use std::path::{Path, PathBuf};
use std::rt::Files;
use thiserror::Error;
use uefi_text::{GuidText, laws as text_laws, read_guid};
use uefi_vars::{
    ATTRIBUTES_LEN, DATA_MAX, EntryFamily, GLOBAL_VENDOR, KEEP_STATE, NameIn, PutFault, Vars,
};
use whole_files::{RegularFile, read_regular};

/// How many bytes a GUID and the hyphen before it have in a file's name.
const VENDOR_LEN: usize = 37;

/// What a folder shows of a machine's variables.
#[derive(Drop)]
pub struct Folder {
    /// The variables that were found in it.
    pub found: PlaceVars,
    /// The name of the file of each variable of the standard's vendor, by the name that the variable has here: also of those
    /// that are left out.
    files: BTreeMap<String, String>,
    /// Whose entries have the names of the boot manager's here.
    family: EntryFamily,
}

/// Why a variable isn't read.
#[derive(Clone, Copy, Debug, Error)]
pub enum LeftOut {
    /// A set can't hold its name.
    #[error("its name isn't one to 64 characters of ASCII that print")]
    Name,
    /// It has no value.
    #[error("it has no value")]
    NoValue,
    /// Its value is too long for a set.
    #[error("its value has more than 1048576 bytes")]
    LongValue,
    /// It is BootKeepState.
    #[error("it belongs into a set file, and firmware refuses it")]
    KeepState,
}

/// The variables that the folder at this path shows; of another family of load options than the boot manager's its entries and
/// their order alone, under the names Boot#### and BootOrder. Tells on standard error what is left out. A variable that goes
/// away while the folder is read isn't there.
///
/// # Errors
///
/// [`Failure::Read`] if the folder or the file of one of its variables can't be read, [`Failure::Refused`] if what shows a
/// variable is a pipe, a device or a socket, if it has a variable twice, or no file of a variable and isn't on an efivarfs,
/// and [`Failure::Memory`] if memory was refused.
pub fn read_folder<R: Files + Eprint + AllocGlobal>(
    rt: &R,
    path: &str,
    family: EntryFamily,
) -> Result<Folder, Failure> {
    let mut folder = Folder {
        found: PlaceVars::new(rt.alloc()),
        files: BTreeMap::new(rt.alloc()),
        family,
    };
    let files = file_names(rt, path)?;
    // A machine may have no entry, and then none of these variables, until it gets one.
    if !files.iter().any(|file| variable_name(file).is_some()) && !is_on_efivarfs(rt, path)? {
        return Err(Failure::refused(rt.alloc(), path, Reason::NoBootVariables));
    }
    for file in &files {
        if let Some(name) = variable_name(file) {
            add_if_of_family(rt, path, &mut folder, name, file)?;
        }
    }
    Ok(folder)
}

/// Adds the variable of this name that a file shows, unless another family of load options is meant: then only one of that,
/// under the name that it would have in the boot manager's.
fn add_if_of_family<R: Files + Eprint + AllocGlobal>(
    rt: &R,
    path: &str,
    folder: &mut Folder,
    name: &str,
    file: &str,
) -> Result<(), Failure> {
    if folder.family == EntryFamily::Boot {
        return add_variable(rt, path, folder, name, file);
    }
    match folder.family.name_in(rt.alloc(), EntryFamily::Boot, name)? {
        Some(name) => add_variable(rt, path, folder, name.as_str(), file),
        None => Ok(()),
    }
}

/// The names of the files in the folder, in the order of their bytes.
fn file_names<R: Files + Eprint + AllocGlobal>(rt: &R, path: &str) -> Result<Vec<String>, Failure> {
    let alloc = rt.alloc();
    let from_read = |error| Failure::from_read(alloc, path, error);
    let mut names = Vec::new(alloc);
    for entry in fs::read_dir(&(rt, alloc), path).map_err(from_read)? {
        match entry {
            Ok(entry) => names.push(String::from_str(alloc, entry.file_name())?)?,
            Err(error) if error.kind() == ErrorKind::InvalidFilename => {
                note(rt, path, "a file is ignored: its name isn't UTF-8");
            }
            Err(error) => return Err(from_read(error)),
        }
    }
    names.sort()?;
    Ok(names)
}

/// The name of the variable that a file of this name shows, if it is one of the standard's vendor.
fn variable_name(file: &str) -> Option<&str>
    ensures found { IfSome result (λ name. IsFileName file.now name.now) }
    ensures none { result ≡ None → (name : List ℕ) → ¬ IsFileName file.now name }
{
    let (name, rest) = file.split_at_checked(file.len().checked_sub(VENDOR_LEN)?)?;
    if is_vendor(rest) { Some(name) } else { None }
}

/// Whether this is a hyphen and the GUID of the standard's vendor.
fn is_vendor(text: &str) -> bool
    ensures { IsTrue result ↔ IsVendorText text.now }
{
    match text.strip_prefix('-') {
        Some(vendor) => is_global(vendor),
        None => false,
    }
}

/// Whether this is the GUID of the standard's vendor.
fn is_global(text: &str) -> bool
    ensures { IsTrue result ↔ IsGuid text.now global_vendor }
{
    match read_guid(text) {
        Some(guid) => guid == GLOBAL_VENDOR,
        None => false,
    }
}

/// The name that the file of a variable of the standard's vendor gets. This fails only when out of memory.
fn new_file_name(alloc: Global, name: &str) -> Result<String, AllocError>
    ensures { IfOk result (λ file. IsFileName (string_bytes file) name.now) }
{
    text_laws::a_printed_guid_is_its_text();
    format!(in alloc; "{name}-{}", GuidText(&GLOBAL_VENDOR))
}

/// Adds the variable of this name that a file shows, or tells on standard error that it is left out.
fn add_variable<R: Files + Eprint + AllocGlobal>(
    rt: &R,
    path: &str,
    folder: &mut Folder,
    name: &str,
    file: &str,
) -> Result<(), Failure> {
    let alloc = rt.alloc();
    if let Some(first) = folder.files.get(name) {
        return Err(Failure::refused(alloc, path, Reason::Twice(first.clone()?)));
    }
    let Some(bytes) = file_of(rt, path, file)? else {
        return Ok(());
    };
    folder.add_file(alloc, name, file)?;
    if let Some(why) = keep(&mut folder.found, name, bytes.as_slice())? {
        folder.found.leave_out(alloc, name)?;
        let file = Quoted(file);
        note(rt, path, IsIgnored { name: file, why });
    }
    Ok(())
}

/// What the file of a variable has.
#[derive(Drop)]
enum FileBytes {
    /// These bytes.
    Whole(Vec<u8>),
    /// More than attributes and a value that a set can hold.
    TooMuch,
}

impl FileBytes {
    /// The bytes, unless they are too many.
    fn as_slice(&self) -> Option<&[u8]> {
        match self {
            FileBytes::Whole(bytes) => Some(bytes.as_slice()),
            FileBytes::TooMuch => None,
        }
    }
}

/// What the file of this name has in the folder at this path: `None` if it is there no more.
fn file_of<R: Files + AllocGlobal>(
    rt: &R,
    path: &str,
    file: &str,
) -> Result<Option<FileBytes>, Failure> {
    let alloc = rt.alloc();
    let whole = Path::new(path).join(alloc, file)?;
    match read_regular(rt, whole.as_path().as_str(), ATTRIBUTES_LEN + DATA_MAX) {
        Ok(RegularFile::Bytes(bytes)) => Ok(Some(FileBytes::Whole(bytes))),
        Ok(RegularFile::TooMuch) => Ok(Some(FileBytes::TooMuch)),
        Ok(RegularFile::Irregular) => {
            let name = path_with_front(alloc, path, file)?;
            let name = name.as_path().as_str();
            Err(Failure::refused(alloc, name, Reason::NoRegularFile))
        }
        Err(error) if error.kind() == ErrorKind::NotFound => Ok(None),
        Err(error) => {
            let name = path_with_front(alloc, path, file)?;
            Err(Failure::from_read(alloc, name.as_path().as_str(), error))
        }
    }
}

/// The path of a folder, and as much of the name of a file in it as messages show.
fn path_with_front(alloc: Global, path: &str, file: &str) -> Result<PathBuf, AllocError> {
    let front = format!(in alloc; "{}", Shortened(file))?;
    Path::new(path).join(alloc, front.as_str())
}

/// Stores the value and the attributes of a file under this name, or says why that can't be.
fn keep(
    found: &mut PlaceVars,
    name: &str,
    bytes: Option<&[u8]>,
) -> Result<Option<LeftOut>, AllocError>
    ensures { IfOk result (λ why. MatchOption why
        (IsRead name.now bytes.entry (found.old.vars, found.old.attributes) (found.new.vars, found.new.attributes))
        (λ reason. IsUnkept name.now bytes.entry reason × (found.new ≡ found.old))) }
{
    if name == KEEP_STATE {
        return Ok(Some(LeftOut::KeepState));
    }
    let Some(bytes) = bytes else {
        return Ok(Some(LeftOut::LongValue));
    };
    let (attributes, value) = parts(bytes);
    match put(&mut found.vars, name, value)? {
        // There is a value, and so there are four bytes of attributes, which a set can hold.
        None => put(&mut found.attributes, name, attributes),
        why => Ok(why),
    }
}

/// The attributes at the front of a file, and the value after them.
fn parts(bytes: &[u8]) -> (&[u8], &[u8])
    ensures attributes { result.0.now ≡ take 4 bytes.now }
    ensures value { result.1.now ≡ drop 4 bytes.now }
{
    bytes
        .split_at_checked(ATTRIBUTES_LEN)
        .unwrap_or((bytes, &[]))
}

/// Stores the bytes under this name, or says why a set can't hold them.
fn put(vars: &mut Vars, name: &str, bytes: &[u8]) -> Result<Option<LeftOut>, AllocError>
    ensures { IfOk result (λ why. MatchOption why
        ((vars.new ≡ map.insert vars.old name.now bytes.now)
        × ((reason : LeftOut) → ¬ IsRefused name.now bytes.now reason))
        (λ reason. IsRefused name.now bytes.now reason × (vars.new ≡ vars.old))) }
{
    match vars.put(name, bytes) {
        Ok(()) => Ok(None),
        Err(PutFault::BadName) => Ok(Some(LeftOut::Name)),
        Err(PutFault::EmptyData) => Ok(Some(LeftOut::NoValue)),
        Err(PutFault::DataTooLong) => Ok(Some(LeftOut::LongValue)),
        Err(PutFault::OutOfMemory) => Err(AllocError),
    }
}

impl Folder {
    /// Keeps in mind which file shows the variable of this name.
    fn add_file(&mut self, alloc: Global, name: &str, file: &str) -> Result<(), AllocError> {
        let name = String::from_str(alloc, name)?;
        self.files.insert(name, String::from_str(alloc, file)?)?;
        Ok(())
    }

    /// The path of the file of the variable of this name in the folder at this path: the file that shows it, or the one
    /// that is to.
    pub(crate) fn path_of(
        &self,
        alloc: Global,
        path: &str,
        name: &str,
    ) -> Result<PathBuf, AllocError> {
        let path = Path::new(path);
        match self.files.get(name) {
            Some(file) => path.join(alloc, file.as_str()),
            None => path.join(alloc, self.new_file(alloc, name)?.as_str()),
        }
    }

    /// The name that a variable has in the folder that has this one here, shown.
    pub fn shown<'a>(&self, name: &'a str) -> NameIn<'a> {
        NameIn(self.family, name)
    }

    /// The name that the file of a variable gets that has this name here.
    fn new_file(&self, alloc: Global, name: &str) -> Result<String, AllocError> {
        match EntryFamily::Boot.name_in(alloc, self.family, name)? {
            Some(name) => new_file_name(alloc, name.as_str()),
            None => new_file_name(alloc, name),
        }
    }
}
