//! What a folder is mounted from.

use partitions::{Mount, MountFault, leading_mount, read_mount};
use std::alloc::{AllocError, Global};
use std::fs;
use std::io::{self, ErrorKind};
use std::rt::Files;
use whole_files::{LIMIT, read_file, resolved};

/// The file in which Linux tells what is mounted.
const MOUNTS: &str = "/proc/self/mountinfo";

/// The type of the file system in which Linux shows the variables of the firmware.
const EFIVARFS: &[u8] = b"efivarfs";

/// Whether the folder at this path is on an efivarfs. If the system doesn't tell, it counts as none.
///
/// # Errors
///
/// [`AllocError`] if memory was refused.
pub(crate) fn is_on_efivarfs<R: Files + AllocGlobal>(
    rt: &R,
    path: &str,
) -> Result<bool, AllocError> {
    match find_efivarfs(rt, path) {
        Ok(found) => Ok(found),
        Err(error) if error.kind() == ErrorKind::OutOfMemory => Err(AllocError),
        Err(_) => Ok(false),
    }
}

/// Whether the system tells that the folder at this path is on an efivarfs.
fn find_efivarfs<R: Files + AllocGlobal>(rt: &R, path: &str) -> io::Result<bool> {
    let path = resolved(rt, path)?;
    let Some(text) = read_file(rt, MOUNTS, LIMIT)? else {
        return Ok(false);
    };
    let mounts = mounts_of(rt.alloc(), &text)?;
    match leading_mount(&mounts, path.as_path().as_str().as_bytes()) {
        Some(mount) => Ok(mount.kind.as_slice() == EFIVARFS),
        None => Ok(false),
    }
}

/// The mounts that lines tell of. A line that tells of none is passed over. This fails only when out of memory.
fn mounts_of(alloc: Global, text: &[u8]) -> Result<Vec<Mount>, AllocError> {
    let mut mounts = Vec::new(alloc);
    for line in text.split(|byte| *byte == b'\n') {
        match read_mount(alloc, line) {
            Ok(mount) => mounts.push(mount)?,
            Err(MountFault::OutOfMemory) => return Err(AllocError),
            Err(_) => {}
        }
    }
    Ok(mounts)
}
