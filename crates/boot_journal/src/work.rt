//! What a journal has to be done.

ghost use Rattle.std.specs.Prelude.{IfOk};
ghost use Rattle.boot_journal.specs.Journal.{due};
ghost use Rattle.boot_journal.specs.Working.{IsWork};

use crate::boot_id::BootId;
use crate::change::Change;
use crate::journal::Journal;
use std::alloc::{AllocError, Global};

/// All that it takes to carry a journal out, made before the first move.
#[derive(Drop)]
pub(crate) struct Work {
    /// The journal.
    pub(crate) journal: Journal,
    /// The changes that it has due.
    pub(crate) due: Vec<Change>,
    /// The journal once they are made.
    pub(crate) last: Journal,
}

impl Work {
    /// The work of this journal under this identity. This fails only if memory is refused.
    pub(crate) fn new(alloc: Global, journal: Journal, boot: &BootId) -> Result<Work, AllocError>
        ensures { IfOk result (λ work. IsWork boot.now journal work) }
    {
        let due = journal.due(alloc, boot)?;
        let last = journal.finished(alloc)?;
        Ok(Work { journal, due, last })
    }
}
