//! What firmware asks of an image, and its digest.

ghost use Rattle.std.specs.Prelude.{◌≡◌, ◌≢◌, None, Some, IfOk, IfErr};
ghost use Rattle.efi_images.specs.declared.fault.ImageFault.{ImageFault};
ghost use Rattle.efi_images.specs.Check.{first_fault};
ghost use Rattle.efi_images.specs.Checks.{image_checks};
ghost use Rattle.efi_images.specs.Words.{stage_of, effect_of};
ghost use Rattle.bootkeep_c.specs.declared.failure.Failure.{Failure};
ghost use Rattle.bootkeep_c.specs.Status.{done, IsReadStatus};
ghost use Rattle.bootkeep_c.specs.Refusals.{image_failure, Tells};
ghost use Rattle.bootkeep_c.specs.Answers.{Answers};
ghost use Rattle.bootkeep_c.specs.Images.{stage_number, effect_number, IsDigested, IsDigestFailure};

use crate::answer::answer;
use crate::failure::Failure;
use crate::refusal::Refusal;
use crate::status::DONE;
use efi_images::{Effect, Stage, check_image, image_digest};
use std::alloc::Global;

/// [`Stage::BootManager`].
pub const STAGE_BOOT_MANAGER: u32 = 0;

/// [`Stage::Loader`].
pub const STAGE_LOADER: u32 = 1;

/// [`Stage::Start`].
pub const STAGE_START: u32 = 2;

/// [`Effect::Refused`].
pub const EFFECT_REFUSED: u32 = 0;

/// [`Effect::Unsafe`].
pub const EFFECT_UNSAFE: u32 = 1;

/// [`Effect::Undecided`].
pub const EFFECT_UNDECIDED: u32 = 2;

/// Makes firmware's checks of an image, and tells the first that doesn't hold, which part of firmware makes it, and what
/// comes of it. This takes no memory.
#[unsafe(no_mangle)]
pub extern "C" fn bootkeep_image_check(
    image: &[u8],
    stage: &mut u32,
    effect: &mut u32,
    refusal: &mut Refusal,
) -> u32
    // Each check holds.
    ensures none { first_fault (image_checks image.now) ≡ None → result ≡ done }
    // The fault of the first that doesn't is told.
    ensures fault { (fault : ImageFault) → first_fault (image_checks image.now) ≡ Some fault →
        Tells (image_failure fault) result refusal.old refusal.new
        × (stage.new ≡ stage_number (stage_of fault)) × (effect.new ≡ effect_number (effect_of fault)) }
    ensures status { IsReadStatus result }
    ensures untouched { result ≡ done → (stage.new ≡ stage.old) × (effect.new ≡ effect.old) × (refusal.new ≡ refusal.old) }
{
    match check_image(image) {
        Ok(()) => DONE,
        Err(fault) => {
            *stage = stage_number(fault.stage());
            *effect = effect_number(fault.effect());
            Failure::from(fault).tell(refusal)
        }
    }
}

/// The number of a part of firmware.
fn stage_number(stage: Stage) -> u32
    ensures { result ≡ stage_number stage }
{
    match stage {
        Stage::BootManager => STAGE_BOOT_MANAGER,
        Stage::Loader => STAGE_LOADER,
        Stage::Start => STAGE_START,
    }
}

/// The number of what comes of a fault.
fn effect_number(effect: Effect) -> u32
    ensures { result ≡ effect_number effect }
{
    match effect {
        Effect::Refused => EFFECT_REFUSED,
        Effect::Unsafe => EFFECT_UNSAFE,
        Effect::Undecided => EFFECT_UNDECIDED,
    }
}

/// The Authenticode digest of an image by SHA-256 (UEFI 2.10, 32.5.3).
#[unsafe(no_mangle)]
pub extern "C" fn bootkeep_image_digest(
    alloc: Global,
    image: &[u8],
    out: &mut [u8],
    len: &mut usize,
    refusal: &mut Refusal,
) -> u32
    ensures { Answers (IsDigested image.now) (IsDigestFailure image.now)
        result out.old out.new len.old len.new refusal.old refusal.new }
{
    let found = digest_of(alloc, image);
    answer(found, out, len, refusal)
}

/// The digest of the image.
fn digest_of(alloc: Global, image: &[u8]) -> Result<Vec<u8>, Failure>
    ensures found { IfOk result (λ digest. IsDigested image.now digest.items) }
    ensures fault { IfErr result (λ failed. failed ≢ Failure.Memory → IsDigestFailure image.now failed) }
{
    let digest = image_digest(alloc, image)?;
    Ok(Vec::from_slice(alloc, digest.as_slice())?)
}
