//! Paths from the root on.

use std::fs;
use std::io::{self, ErrorKind};
use std::path::PathBuf;
use std::rt::Files;

/// The path from the root on, without links: as it is given, if the system resolves none.
///
/// # Errors
///
/// The system's, if nothing is there, or a folder on the way may not be passed, and that memory was refused.
pub fn resolved<R: Files + AllocGlobal>(rt: &R, path: &str) -> io::Result<PathBuf> {
    match fs::canonicalize(rt, path) {
        Err(error) if error.kind() == ErrorKind::Unsupported => {
            Ok(PathBuf::from_str(rt.alloc(), path)?)
        }
        resolved => resolved,
    }
}
