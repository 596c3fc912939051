//! What is known of the file that an entry leads to: whether firmware starts it.

ghost use Rattle.std.specs.Prelude.{◌≡◌};
ghost use Rattle.std.specs.Option.{option_map};
ghost use Rattle.entry_checks.specs.Image.{state_by_effect, state_on_x86_64, state_if_untold, state_on_others, loader_state_of, denied_state, unsettled_state, image_state_of, own_verdict_of, is_found_before, is_foreign, is_of_boot_manager, told_processor, processor_of};

use efi_images::{DigestFault, Effect, ImageFault, SecureBootAnswer, Stage, Verdict};

/// What Linux tells of x86-64.
const ARCH_X86_64: &[u8] = b"x86_64\n";

/// What Linux tells of firmware with addresses of 64 bits.
const BITS_X86_64: &[u8] = b"64\n";

/// The processor of the firmware that starts entries, as far as it is known.
#[derive(Clone, Copy, Debug, PartialEq, Eq)]
pub enum Processor {
    /// x86-64.
    X8664,
    /// Another one, whose firmware may ask other things of a file.
    Other,
    /// It isn't known.
    Untold,
}

/// What is known of a file that firmware is to start, unless it is that firmware starts it.
#[derive(Clone, Copy, Debug, PartialEq, Eq)]
pub enum ImageState {
    /// Firmware doesn't start it.
    Refused,
    /// Firmware starts it, and goes wrong.
    Unsafe,
    /// It is for another processor than firmware's.
    Foreign,
    /// Secure Boot refuses it.
    Denied,
    /// Firmware starts it if that is of x86-64.
    OfX8664,
    /// Its bytes don't tell whether firmware starts it.
    Undecided,
    /// What firmware asks of a file for such a processor isn't known.
    Unknown,
    /// It isn't known whether Secure Boot allows it.
    Unsettled,
    /// It can't be read.
    Unreadable,
    /// It has more bytes than are read.
    TooLong,
    /// It is a pipe, a device or a socket, of which nothing is read.
    Irregular,
}

/// The firmware's processor, by what Linux tells in `/proc/sys/kernel/arch` of the one that it is made for, and in
/// `/sys/firmware/efi/fw_platform_size` of the bits of the firmware's addresses, if it tells them.
pub fn processor_of(arch: Option<&[u8]>, bits: Option<&[u8]>) -> Processor
    ensures { result ≡ processor_of (option_map (λ text. text.now) arch.entry) (option_map (λ text. text.now) bits.entry) }
{
    match (arch, bits) {
        (Some(arch), Some(bits)) => told_processor(arch, bits),
        _ => Processor::Untold,
    }
}

/// The firmware's processor, if Linux tells both.
fn told_processor(arch: &[u8], bits: &[u8]) -> Processor
    ensures { result ≡ told_processor arch.now bits.now }
{
    if arch == ARCH_X86_64 && bits == BITS_X86_64 {
        Processor::X8664
    } else {
        Processor::Other
    }
}

/// What Secure Boot itself says of a file to which it answers this: nothing against one that has no digest for a fault
/// of its headers, since that fault says more.
pub fn own_verdict(answer: &SecureBootAnswer) -> Verdict
    ensures { result ≡ own_verdict_of answer.now }
{
    match answer {
        SecureBootAnswer::NoDigest(DigestFault::Image(_fault)) => Verdict::Allowed,
        _ => answer.verdict(),
    }
}

/// What is known of a file with this fault, the first that [`check_image`](efi_images::check_image) finds, or with
/// none, if firmware is of this processor, and its Secure Boot says this of the file: that it allows it too if it is
/// off. The boot manager looks first, then Secure Boot, and then the loader (UEFI 2.10, 3.1.1, 32.5.3.3 and 7.4.1).
pub fn image_state(
    processor: Processor,
    fault: Option<ImageFault>,
    verdict: Verdict,
) -> Option<ImageState>
    ensures { result ≡ image_state_of processor fault verdict }
{
    match verdict {
        Verdict::Allowed => loader_state(processor, fault),
        Verdict::Denied => denied_state(processor, fault),
        Verdict::Undecided => Some(unsettled_state(loader_state(processor, fault))),
    }
}

/// What is known of a file with this fault or none that Secure Boot denies.
fn denied_state(processor: Processor, fault: Option<ImageFault>) -> Option<ImageState>
    ensures { result ≡ denied_state processor fault }
{
    if is_found_before(fault) {
        loader_state(processor, fault)
    } else {
        Some(ImageState::Denied)
    }
}

/// What is known of a file of which it isn't known whether Secure Boot allows it, if this is known of it besides.
fn unsettled_state(known: Option<ImageState>) -> ImageState
    ensures { result ≡ unsettled_state known }
{
    match known {
        None | Some(ImageState::OfX8664) => ImageState::Unsettled,
        Some(known) => known,
    }
}

/// What is known of a file with this fault or none, if firmware is of this processor, but for Secure Boot.
fn loader_state(processor: Processor, fault: Option<ImageFault>) -> Option<ImageState>
    ensures { result ≡ loader_state_of processor fault }
{
    match processor {
        Processor::X8664 => fault.map(on_x86_64),
        Processor::Untold => Some(if_untold(fault)),
        Processor::Other => Some(on_others(fault)),
    }
}

/// What is known of a file with this fault, if firmware is of x86-64.
fn on_x86_64(fault: ImageFault) -> ImageState
    ensures { result ≡ state_on_x86_64 fault }
{
    if is_foreign(&fault) {
        ImageState::Foreign
    } else {
        by_effect(fault.effect())
    }
}

/// What is known of a file with this fault or none, if firmware's processor isn't known.
fn if_untold(fault: Option<ImageFault>) -> ImageState
    ensures { result ≡ state_if_untold fault }
{
    match fault {
        None => ImageState::OfX8664,
        Some(fault) if is_foreign(&fault) => ImageState::Unknown,
        Some(fault) => by_effect(fault.effect()),
    }
}

/// What is known of a file with this fault or none, if firmware is of another processor than x86-64: one without a
/// fault is for x86-64, and what no boot manager takes for an application is one nowhere.
fn on_others(fault: Option<ImageFault>) -> ImageState
    ensures { result ≡ state_on_others fault }
{
    match fault {
        None => ImageState::Foreign,
        Some(fault) if is_of_boot_manager(&fault) => ImageState::Refused,
        Some(_) => ImageState::Unknown,
    }
}

/// What is known of a file with a fault of which this comes.
fn by_effect(effect: Effect) -> ImageState
    ensures { result ≡ state_by_effect effect }
{
    match effect {
        Effect::Refused => ImageState::Refused,
        Effect::Unsafe => ImageState::Unsafe,
        Effect::Undecided => ImageState::Undecided,
    }
}

/// Whether the fault says that the file is for another processor than x86-64.
fn is_foreign(fault: &ImageFault) -> bool
    ensures { result ≡ is_foreign fault.now }
{
    matches!(
        fault,
        ImageFault::Machine { .. } | ImageFault::Arm64 { .. } | ImageFault::Ia32 { .. }
    )
}

/// Whether there is a fault that is found before Secure Boot is asked.
fn is_found_before(fault: Option<ImageFault>) -> bool
    ensures { result ≡ is_found_before fault }
{
    match fault {
        Some(fault) => is_of_boot_manager(&fault),
        None => false,
    }
}

/// Whether the boot manager finds the fault.
fn is_of_boot_manager(fault: &ImageFault) -> bool
    ensures { result ≡ is_of_boot_manager fault.now }
{
    matches!(fault.stage(), Stage::BootManager)
}
