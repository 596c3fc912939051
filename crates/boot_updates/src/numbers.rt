//! The next number of variables.

ghost use Rattle.std.specs.Prelude.{◌≡◌, Some, IfOk};
ghost use Rattle.boot_requests.specs.State.{State};
ghost use Rattle.boot_requests.specs.StoredState.{OpensAs};

use boot_requests::{Keeper, OpenFault};
use std::alloc::{AllocError, Global};
use uefi_vars::Vars;

/// The number of the request that is to be applied next over these variables, which have no attributes: `None` if a keeper
/// doesn't open them.
///
/// # Errors
///
/// [`AllocError`] if memory was refused.
pub fn next_number(alloc: Global, vars: Vars) -> Result<Option<u32>, AllocError>
    ensures { IfOk result (λ found. (m : State) → OpensAs vars m → found ≡ Some m.next_number) }
{
    match Keeper::open(alloc, vars) {
        Ok(keeper) => Ok(Some(keeper.next_number())),
        Err(refused) => match refused.fault {
            OpenFault::OutOfMemory => Err(AllocError),
            OpenFault::BadOrder | OpenFault::BadNext | OpenFault::BadState => Ok(None),
        },
    }
}
