//! What is wanted, or else a fault.

ghost use Rattle.std.specs.Prelude.{◌≡◌, Some, None, if◌then◌else◌};
ghost use Rattle.std.specs.Result.{result_err};

use crate::fault::ImageFault;

/// The fault, unless this holds.
pub(crate) fn wanted(holds: bool, otherwise: ImageFault) -> Result<(), ImageFault>
    ensures { result_err result ≡ (if holds then None else Some otherwise) }
{
    if !holds {
        return Err(otherwise);
    }
    Ok(())
}
