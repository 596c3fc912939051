//! Sizes that callers in C need, each that of the library.

/// The most bytes that a frame has: those of its header and of the longest payload.
pub const FRAME_MAX: u32 = 131_084;

/// The most bytes that the name of a variable has.
pub const NAME_MAX: u32 = 64;

/// The most bytes that the data of a variable has.
pub const DATA_MAX: u32 = 1_048_576;

/// The most numbers that BootOrder has.
pub const ORDER_MAX: u32 = 65_536;

/// The most bytes that the list of paths of an option has.
pub const LIST_MAX: u32 = 65_535;

/// The most bytes that the word of a status, a refusal or an outcome has.
pub const WORD_MAX: u32 = 32;

/// The most bytes that the name of a machine has.
pub const MACHINE_MAX: u32 = 4_096;

/// How many bytes the identity in notes has.
pub const IDENTITY_LEN: u32 = 16;

/// The most bytes that notes have.
pub const NOTES_MAX: u32 = 1_557;

// The twelve bytes before a payload, and the payload.
const _: () = prove!(FRAME_MAX as usize == 12 + boot_requests::PAYLOAD_MAX);

const _: () = prove!(NAME_MAX as usize == uefi_vars::NAME_MAX);

const _: () = prove!(DATA_MAX as usize == uefi_vars::DATA_MAX);

const _: () = prove!(ORDER_MAX as usize == uefi_vars::ORDER_MAX);

const _: () = prove!(LIST_MAX as usize == uefi_option::LIST_MAX);

const _: () = prove!(MACHINE_MAX as usize == machine_names::MACHINE_NAME_MAX);

const _: () = prove!(IDENTITY_LEN as usize == boot_notes::IDENTITY_LEN);

// The magic, the identity, the count, and of each digest the number of its request before it: of those before the last run
// and of those that it applied.
const _: () = prove!(
    NOTES_MAX as usize
        == 4 + boot_notes::IDENTITY_LEN
            + 1
            + 2 * boot_notes::KEPT_MAX * (4 + boot_notes::DIGEST_LEN)
);
