//! Files that are read whole up to a limit, locked, and replaced whole.
//!
//! [`read_file`] and [`read_input`] read what has at most so many bytes; of a file of the user's that is [`LIMIT`].
//! [`read_regular`] and [`open_regular`] open nothing but a regular file, where somebody else may have put something else.
//! [`write_file`] replaces a whole file, which [`lock_file`] has locked: whoever changes a file this way reads it in
//! between, and nobody's change is lost. [`try_lock_file`] doesn't wait for the lock, and [`rewrite_file`] keeps it, for
//! one change after the other. [`replace_file`] replaces a file of the program's own, that the caller keeps others from by
//! other means. [`sync_file`] and [`sync_folder`] bring to the disk what was written otherwise; [`folder_of`] tells which
//! folder has a name, and [`resolved()`] gives a path without links. What fails is told by the system's reason.
#![tactic(auto)]

mod input;
mod lock;
mod output;
mod paths;
mod sync;

pub use input::{LIMIT, RegularFile, open_regular, read_file, read_input, read_regular};
pub use lock::{FileLock, OutputFile, folder_of, lock_file, try_lock_file};
pub use output::{replace_file, rewrite_file, write_file};
pub use paths::resolved;
pub use sync::{sync_file, sync_folder};
