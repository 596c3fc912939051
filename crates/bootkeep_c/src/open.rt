//! Variables to a keeper.

ghost use Rattle.std.specs.Prelude.{◌≡◌, ◌≢◌, IfOk, IfErr};
ghost use Rattle.boot_requests.specs.Turn.{plain_start};
ghost use Rattle.boot_requests.specs.StoredState.{OpensAs};
ghost use Rattle.bootkeep_c.specs.Runnings.{IsOpenFailure};

use crate::failure::Failure;
use boot_requests::Keeper;
use std::alloc::Global;
use uefi_vars::Vars;

/// What keeps these variables.
pub(crate) fn open(alloc: Global, vars: Vars) -> Result<Keeper, Failure>
    ensures opened { IfOk result (λ keeper. (keeper ≡ plain_start keeper.state) × OpensAs vars keeper.state) }
    ensures fault { IfErr result (λ failed. failed ≢ Failure.Memory → IsOpenFailure vars failed) }
{
    match Keeper::open(alloc, vars) {
        Ok(keeper) => Ok(keeper),
        Err(refused) => Err(Failure::from(refused.fault)),
    }
}
