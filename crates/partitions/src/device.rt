//! Numbers of devices.

ghost use Rattle.std.specs.Prelude.{◌≡◌};
ghost use Rattle.partitions.specs.Device.{device_of, device_of_stat};

use crate::cut::cut;
use crate::number::{DECIMAL, number_u32};

/// The number of a device, by which the kernel knows it.
#[derive(Clone, Copy, Debug, PartialEq, Eq, Hash)]
pub struct DeviceNumber {
    /// The number of its driver.
    pub major: u32,
    /// Its number among the devices of the driver.
    pub minor: u32,
}

impl DeviceNumber {
    /// The number that `stat` tells of a file's device, in Linux's form of 64 bits: of the major number the last 12
    /// bits at bit 8 and the others at bit 44, of the minor number the last 8 bits at bit 0 and the others at bit 20.
    pub fn from_stat(device: u64) -> DeviceNumber
        ensures { result ≡ device_of_stat device }
    {
        DeviceNumber {
            major: (device / 0x100 % 0x1000 + device / 0x1000_0000_0000 * 0x1000) as u32,
            minor: (device % 0x100 + device / 0x10_0000 % 0x100_0000 * 0x100) as u32,
        }
    }
}

/// The number of a device as text: two decimal numbers of at most 32 bits, joined by a colon. `None` for every other
/// text.
#[tactic(auto, unfolding(crate::specs::Device::device_of))]
pub fn read_device(text: &[u8]) -> Option<DeviceNumber>
    ensures { result ≡ device_of text.now }
{
    let (major, minor) = cut(text, b':')?;
    let major = number_u32(major, DECIMAL)?;
    let minor = number_u32(minor, DECIMAL)?;
    Some(DeviceNumber { major, minor })
}
