//! The load option of an entry that is to be made.

use command_words::optional_text;
use disk_files::disk_path;
use efibootmgr_words::EntryWords;
use messages::Failure;
use std::alloc::Global;
use std::rt::Files;
use uefi_option::{ACTIVE, OptionFault, make_option, write_option};
use uefi_path::{Path, read_units};
use var_places::read;

/// The bytes of the load option (UEFI 2.10, 3.1.3) that the words say: active, with the path of a file on a partition, and with
/// the bytes of a file and other words as optional data.
///
/// # Errors
///
/// [`Failure::Read`] and [`Failure::Refused`] if the partition or the file with optional data can't be read, or isn't what it
/// has to be; [`Failure::Words`] if the words make no load option; and [`Failure::Memory`] if memory was refused.
pub(crate) fn option_bytes<R: Files + Input + AllocGlobal>(
    rt: &R,
    words: &EntryWords<'_>,
    others: &[&str],
) -> Result<Vec<u8>, Failure> {
    let alloc = rt.alloc();
    let path = disk_path(rt, "", words.disk, words.part, words.loader)?;
    let optional = optional_data(rt, words, others)?;
    let description = read_units(alloc, &optional_text(alloc, words.label)?)?;
    let mut paths = Vec::with_capacity(alloc, 1)?;
    paths.push(path)?;
    bytes_of(alloc, &description, &paths, &optional)
}

/// The bytes of an active load option.
fn bytes_of(
    alloc: Global,
    description: &[u16],
    paths: &[Path],
    optional: &[u8],
) -> Result<Vec<u8>, Failure> {
    match make_option(alloc, ACTIVE, description, paths, optional) {
        Ok(option) => Ok(write_option(alloc, &option)?),
        Err(OptionFault::OutOfMemory) => Err(Failure::Memory),
        Err(fault) => Err(Failure::from_word(alloc, fault)),
    }
}

/// The optional data: the bytes of the file, if one is named, and then the other words with a blank between two, as they are or
/// in UTF-16.
fn optional_data<R: Files + Input + AllocGlobal>(
    rt: &R,
    words: &EntryWords<'_>,
    others: &[&str],
) -> Result<Vec<u8>, Failure> {
    let alloc = rt.alloc();
    let mut data = match words.binary_arguments {
        Some(file) => read(rt, file)?,
        None => Vec::new(alloc),
    };
    let text = joined(alloc, others)?;
    if words.unicode {
        data.extend_from_slice(&optional_text(alloc, &text)?)?;
    } else {
        data.extend_from_slice(text.as_bytes())?;
    }
    Ok(data)
}

/// The words with a blank between two.
fn joined(alloc: Global, words: &[&str]) -> Result<String, Failure> {
    let mut text = String::new(alloc);
    for (index, word) in words.iter().enumerate() {
        if index > 0 {
            text.push(' ')?;
        }
        text.push_str(word)?;
    }
    Ok(text)
}
