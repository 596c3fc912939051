//! What is expected of a machine before requests are run over its variables.

ghost use Rattle.std.specs.Prelude.{◌≡◌, ◌↔◌, IfOk, IfSome, IfNone, All, None};
ghost use Rattle.boot_updates.specs.Guarded.{AreMet};

use request_preconditions::{MachineState, Precondition, first_unmet};
use std::alloc::{AllocError, Global};

/// What isn't as it was expected, in the words of preconditions.
#[derive(Drop)]
pub struct Unmet {
    /// What was expected, such as `next=7`.
    pub expected: String,
    /// What is so instead, such as `next=9`.
    pub found: String,
}

/// The first of these that isn't so.
///
/// # Errors
///
/// [`AllocError`] if memory was refused.
pub(crate) fn unmet_of(
    alloc: Global,
    preconditions: &[Precondition],
    state: &MachineState<'_>,
) -> Result<Option<Unmet>, AllocError>
    ensures { IfOk result (λ unmet. (unmet ≡ None)
        ↔ AreMet state.now.journal state.now.next_number state.now.vars.now preconditions.now) }
{
    let Some(unmet) = first_unmet(preconditions, state) else {
        return Ok(None);
    };
    Ok(Some(Unmet {
        expected: unmet.words(alloc)?,
        found: unmet.actual(alloc, state)?.words(alloc)?,
    }))
}
