//! Numbers in the bytes of a file, at their offsets.

ghost use Rattle.std.specs.Prelude.{◌≡◌, ◌+◌, ◌≤◌, ◌<◌, ◌^◌, length};
ghost use Rattle.efi_images.specs.Bytes.{bytes_at, u16_at, u32_at, u64_at};

/// The bytes from this offset on, as many as the array has.
fn array_at<const N: usize>(file: &[u8], place: usize) -> [u8; N]
    requires { place + N ≤ length file.now }
    ensures { result ≡ bytes_at file.now place N }
{
    let mut array = [0; N];
    array.copy_from_slice(&file[place..place + N]);
    array
}

/// The number of two bytes at this offset, little-endian.
#[tactic(auto, unfolding(crate::specs::Bytes::u16_at))]
pub(crate) fn u16_at(file: &[u8], place: usize) -> u16
    requires { place + 2 ≤ length file.now }
    ensures { result ≡ u16_at file.now place }
{
    u16::from_le_bytes(array_at(file, place))
}

/// The number of four bytes at this offset, little-endian.
#[tactic(auto, unfolding(crate::specs::Bytes::u32_at))]
pub(crate) fn u32_at(file: &[u8], place: usize) -> u32
    requires { place + 4 ≤ length file.now }
    ensures { result ≡ u32_at file.now place }
{
    u32::from_le_bytes(array_at(file, place))
}

/// The number of eight bytes at this offset, little-endian.
#[tactic(auto, unfolding(crate::specs::Bytes::u64_at))]
pub(crate) fn u64_at(file: &[u8], place: usize) -> u64
    requires { place + 8 ≤ length file.now }
    ensures { result ≡ u64_at file.now place }
{
    u64::from_le_bytes(array_at(file, place))
}
