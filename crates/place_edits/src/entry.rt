//! The command `get`, which gives the load option of an entry.

use messages::{Failure, NoSuch};
use std::rt::Files;
use uefi_vars::EntryName;
use var_places::{check_output, lock, name_of, read_place, write};
use whole_files::OutputFile;

/// Makes a file of the bytes of an entry of a place: the data of its variable, without attributes.
///
/// # Errors
///
/// [`Failure::Run`] if there is no such entry; [`Failure::Read`] and [`Failure::Refused`] if the place can't be read;
/// [`Failure::Refused`] also if it is the file that is to be made; [`Failure::Write`] if the file can't be made; and
/// [`Failure::Memory`] if memory was refused.
pub fn get_entry<R: Files<File: OutputFile> + Input + Print + Eprint + AllocGlobal>(
    rt: &R,
    place: &str,
    entry: u16,
    out: &str,
) -> Result<(), Failure> {
    let output = lock(rt, out);
    let vars = read_place(rt, place)?;
    check_output(rt, out, place)?;
    match vars.entry(entry) {
        Some(bytes) => write(rt, output?, bytes),
        None => {
            let fault = format!(in rt.alloc(); "{}", NoSuch(EntryName(entry)))?;
            Err(Failure::from_run(rt.alloc(), name_of(place), fault.as_str()))
        }
    }
}
