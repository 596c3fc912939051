//! Records whose files are on the disk.

use crate::folder::file_path;
use change_records::{Record, WriteFault, write_record};
use messages::{Failure, Reason};
use std::path::Path;
use std::rt::Files;
use whole_files::{LIMIT, OutputFile, replace_file, sync_folder};

/// That a new record is on the disk. What removes old records asks for one, and [`Written::new`] alone makes one, so that
/// none is removed before.
#[derive(Drop)]
pub(crate) struct Written(());

impl Written {
    /// Writes the file of a record, and brings its name to the disk.
    pub(crate) fn new<R: Files<File: OutputFile> + AllocGlobal>(
        rt: &R,
        folder: Path<'_>,
        number: u64,
        record: &Record,
    ) -> Result<Written, Failure> {
        let alloc = rt.alloc();
        let path = file_path(alloc, folder, number)?;
        let path = path.as_path().as_str();
        let bytes = match write_record(alloc, record) {
            Ok(bytes) if bytes.len() <= LIMIT => bytes,
            Err(WriteFault::OutOfMemory) => return Err(Failure::Memory),
            _ => return Err(Failure::refused(alloc, path, Reason::TooMuch(LIMIT))),
        };
        replace_file(rt, path, &bytes)
            .and_then(|_| sync_folder(rt, folder.as_str()))
            .map_err(|error| Failure::from_write(alloc, path, error))?;
        Ok(Written(()))
    }
}
