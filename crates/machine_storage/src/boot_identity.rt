//! The identity of a machine's start.

use boot_journal::BootId;
use messages::{Failure, Quoted, Reason};
use std::alloc::Global;
use std::rt::Files;
use wanted_changes::MachineWords;
use whole_files::read_file;

/// The file in which Linux tells the identity of its start.
const BOOT_ID: &str = "/proc/sys/kernel/random/boot_id";

/// How many bytes that file has at most, with a line feed at its end.
const BOOT_ID_LEN: usize = 65;

/// The identity of the machine's start: the one that is given, or that of this system if its own variables are changed.
///
/// # Errors
///
/// [`Failure::Words`] if it is needed and isn't given, or isn't one; [`Failure::Read`] and [`Failure::Refused`] if the system
/// doesn't tell it; and [`Failure::Memory`] if memory was refused.
pub fn boot_id<R: Files + AllocGlobal>(
    rt: &R,
    words: &MachineWords<'_>,
    is_folder: bool,
) -> Result<BootId, Failure> {
    let alloc = rt.alloc();
    match words.boot_id {
        Some(text) => boot_id_of(alloc, "--boot-id", text),
        None if is_folder => own_boot_id(rt),
        None => Err(Failure::from_word(
            alloc,
            "--boot-id is needed for a variable file: a text that is another one after each start of its machine",
        )),
    }
}

/// The identity of this system's start.
fn own_boot_id<R: Files + AllocGlobal>(rt: &R) -> Result<BootId, Failure> {
    let alloc = rt.alloc();
    match read_file(rt, BOOT_ID, BOOT_ID_LEN) {
        Ok(Some(bytes)) => boot_id_of(
            alloc,
            BOOT_ID,
            str::from_utf8(&bytes).unwrap_or("").trim_end(),
        ),
        Ok(None) => Err(Failure::refused(alloc, BOOT_ID, Reason::TooMuch(BOOT_ID_LEN))),
        Err(error) => Err(Failure::from_read(alloc, BOOT_ID, error)),
    }
}

/// The identity of this text, which is from there.
fn boot_id_of(alloc: Global, from: &str, text: &str) -> Result<BootId, Failure> {
    match BootId::new(String::from_str(alloc, text)?) {
        Some(boot) => Ok(boot),
        None => {
            let text = Quoted(text);
            Err(Failure::from_word(
                alloc,
                format_args!(
                    "{from} {text} is no identity of a start: one to 64 characters of ASCII that print, without blanks"
                ),
            ))
        }
    }
}
