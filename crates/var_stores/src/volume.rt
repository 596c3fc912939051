//! The headers of a variable file.

ghost use Rattle.std.specs.Prelude.{◌≡◌, ◌↔◌, ◌≤◌, ◌<◌, ◌+◌, ◌^◌, length, IsTrue};
ghost use Rattle.var_stores.specs.Volume.{bytes_at, IsVolume, HasGoodHeader, HasStoreHeader, HasGoodStore, header_min, volume_len, header_size, store_size, store_header_len, word_sum};

/// The least length of a volume's header.
const HEADER_MIN: usize = 56;

/// The length of a store's header.
pub(crate) const STORE_HEADER_LEN: usize = 28;

/// fff12b8d-7696-4c8b-a985-2747075b4f50, the GUID of a volume of variables, as it is stored.
const VOLUME_GUID: [u8; 16] = [
    0x8D, 0x2B, 0xF1, 0xFF, 0x96, 0x76, 0x8B, 0x4C, 0xA9, 0x85, 0x27, 0x47, 0x07, 0x5B, 0x4F, 0x50,
];

/// The signature of a firmware volume, `_FVH`: its bytes 40 to 43.
pub const VOLUME_SIGNATURE: [u8; 4] = [0x5F, 0x46, 0x56, 0x48];

/// Whether the file begins with a volume of variables, of revision 2.
pub(crate) fn is_volume(file: &[u8]) -> bool
    ensures { IsTrue result ↔ IsVolume file.now }
{
    file.len() >= HEADER_MIN
        && array_at(file, 16) == VOLUME_GUID
        && array_at(file, 40) == VOLUME_SIGNATURE
        && array_at(file, 55) == [2]
}

/// The bytes from this place on, as many as the array has.
pub(crate) fn array_at<const N: usize>(bytes: &[u8], place: usize) -> [u8; N]
    requires { place + N ≤ length bytes.now }
    ensures { result ≡ bytes_at bytes.now place N }
{
    let mut array = [0; N];
    array.copy_from_slice(&bytes[place..place + N]);
    array
}

/// The length of the volume's header.
pub(crate) fn header_size(file: &[u8]) -> usize
    requires { header_min ≤ length file.now }
    ensures size { result ≡ header_size file.now }
    ensures bound { result < 2 ^ 16 }
{
    usize::from(u16::from_le_bytes(array_at(file, 48)))
}

/// The length of the volume.
pub(crate) fn volume_len(file: &[u8]) -> u64
    requires { header_min ≤ length file.now }
    ensures { result ≡ volume_len file.now }
{
    u64::from_le_bytes(array_at(file, 32))
}

/// Whether the header's length is whole, its numbers sum to 0, and the volume ends in the file.
pub(crate) fn has_good_header(file: &[u8]) -> bool
    requires { IsVolume file.now }
    ensures { IsTrue result ↔ HasGoodHeader file.now }
{
    let size = header_size(file);
    size >= HEADER_MIN
        && size % 2 == 0
        && size <= file.len()
        && word_sum(&file[..size]) == 0
        && volume_len(file) <= file.len() as u64
}

/// The sum of numbers of two bytes, as one of two bytes.
fn word_sum(bytes: &[u8]) -> u16
    ensures { result ≡ word_sum bytes.now }
{
    let mut sum = 0u16;
    let mut rest = bytes;
    while let [low, high, after @ ..] = rest {
        sum = sum.wrapping_add(u16::from_le_bytes([*low, *high]));
        rest = after;
    }
    sum
}
