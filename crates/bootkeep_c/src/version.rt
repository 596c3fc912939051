//! The version of the interface.

ghost use Rattle.std.specs.Prelude.{◌≡◌};

/// The version of the interface that `libraries/c/include/bootkeep.h` declares.
pub const VERSION: u32 = 1;

/// The version of the interface that the library has.
#[unsafe(no_mangle)]
pub extern "C" fn bootkeep_version() -> u32
    ensures { result ≡ 1 }
{
    VERSION
}
