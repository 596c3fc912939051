//! Runs of nothing.

use boot_journal::{CallError, Run};
use std::alloc::Global;
use uefi_vars::Vars;

/// A run that leaves the variables as they are, and refuses none: a command of it does what an earlier one has left to do,
/// and no more.
#[derive(Clone, Copy, Debug)]
pub struct Nothing;

impl Run for Nothing {
    ghost use Rattle.std.specs.Prelude.{◌≡◌};

    type Answer = ();

    type Fault = ();

    ghost leads = { λ _ from to _. to ≡ from };

    ghost refuses = { λ _ _ _. ⊥ };

    fn run(self, alloc: Global, vars: &Vars) -> Result<(Vars, ()), CallError<()>> {
        Ok((vars.copy(alloc)?, ()))
    }
}
