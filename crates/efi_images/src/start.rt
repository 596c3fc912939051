//! What the start of an image that was loaded asks.

ghost use Rattle.std.specs.Prelude.{◌≡◌};
ghost use Rattle.std.specs.Result.{result_err};
ghost use Rattle.efi_images.specs.Check.{first_fault};
ghost use Rattle.efi_images.specs.Checks.{start_checks};

use crate::fault::ImageFault;
use crate::headers::Headers;
use crate::loader::{BYTE_CODE, IA32};
use crate::wanted::wanted;

/// That the image is one for x86-64, and has its entry point.
#[tactic(auto, unfolding(crate::specs::Checks::start_checks))]
pub(crate) fn check_start(headers: &Headers<'_>) -> Result<(), ImageFault>
    ensures { result_err result ≡ first_fault (start_checks headers.now) }
{
    let place = headers.pe() + 4;
    let machine = headers.machine();
    wanted(machine != IA32, ImageFault::Ia32 { place })?;
    wanted(machine != BYTE_CODE, ImageFault::ByteCode { place })?;
    let place = headers.pe() + 40;
    let found = headers.entry_point();
    let image_size = headers.image_size();
    wanted(
        found < image_size,
        ImageFault::EntryPoint {
            place,
            found,
            image_size,
        },
    )
}
