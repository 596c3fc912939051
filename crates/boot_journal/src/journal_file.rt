//! What the file of a journal has.

use crate::journal::Journal;
use machine_names::MachineName;

/// What the file of a journal has: the journal, and the name of the machine that it is of.
#[derive(Debug, Drop)]
pub struct JournalFile {
    /// The machine's name: `None` in a file of version 1, which doesn't tell whose it is. The changes of its journal have no
    /// attributes: [`Journal::with_attributes`] gives them some.
    pub machine: Option<MachineName>,
    /// The journal.
    pub journal: Journal,
}
