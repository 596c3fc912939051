//! The vendors' nodes that libefivar prints by a name.

ghost use Rattle.std.specs.Prelude.{◌≡◌, ◌==◌};
ghost use Rattle.std.specs.Cmp.Lexicographic.{pointwise};
ghost use Rattle.std.specs.Fmt.{WritesOnOk};
ghost use Rattle.std.specs.List.{find};
ghost use Rattle.std.specs.Option.{option_map, option_copied};
ghost use Rattle.efibootmgr_words.specs.Vendors.{hardware_text, messaging_text, number_of, device_name, flow_text};

use std::fmt;
use uefi_names::vendors::{DEBUG_PORT, PC_ANSI, UART_FLOW_CONTROL, VT_100, VT_100_PLUS, VT_UTF8};
use uefi_path::{Guid, Node, Vendor};
use uefi_text::{DigitsText, NodeText, NumberText};

/// The identifier of a BIOS's disk, in the order in which its bytes are stored.
const EDD: Guid = Guid([
    0xc5, 0xfa, 0x31, 0xcf, 0x4e, 0xc2, 0xd2, 0x11, 0x85, 0xf3, 0x00, 0xa0, 0xc9, 0x3e, 0xc9, 0x3b,
]);

/// The nodes with an identifier that have a name, and whose data may be any bytes.
#[derive(Clone, Copy)]
struct Device {
    guid: Guid,
    name: &'static str,
}

/// Terminals and debug ports.
static DEVICES: [Device; 5] = [
    Device {
        guid: Guid(PC_ANSI),
        name: "VenPcAnsi",
    },
    Device {
        guid: Guid(VT_100),
        name: "VenVt100",
    },
    Device {
        guid: Guid(VT_100_PLUS),
        name: "VenVt100Plus",
    },
    Device {
        guid: Guid(VT_UTF8),
        name: "VenUtf8",
    },
    Device {
        guid: Guid(DEBUG_PORT),
        name: "DebugPort",
    },
];

/// Writes a vendor's hardware node, which holds this.
pub(crate) fn vendor_hardware<W: fmt::Write>(
    f: &mut fmt::Formatter<W>,
    node: &Node,
    vendor: &Vendor,
) -> fmt::Result
    ensures { WritesOnOk W.write_str_gives f.old result (hardware_text node.now vendor.now) f.new }
{
    match number_of(vendor, &EDD) {
        Some(number) => write!(f, "EDD10({})", NumberText(u64::from(number))),
        None => write!(f, "{}", NodeText(node)),
    }
}

/// Writes a vendor's messaging node, which holds this.
pub(crate) fn vendor_messaging<W: fmt::Write>(
    f: &mut fmt::Formatter<W>,
    node: &Node,
    vendor: &Vendor,
) -> fmt::Result
    ensures { WritesOnOk W.write_str_gives f.old result (messaging_text node.now vendor.now) f.new }
{
    if let Some(kind) = number_of(vendor, &Guid(UART_FLOW_CONTROL)) {
        return flow_control(f, kind);
    }
    match device_name(vendor.guid()) {
        Some(name) => write!(f, "{name}({})", DigitsText(vendor.body())),
        None => write!(f, "{}", NodeText(node)),
    }
}

/// The number that the data of the nodes with this identifier begin with. Other nodes have none, nor do shorter data.
fn number_of(vendor: &Vendor, guid: &Guid) -> Option<u32>
    ensures { result ≡ number_of guid.now.0 vendor.now }
{
    if vendor.guid() != guid {
        return None;
    }
    let number = vendor.body().first_chunk::<4>()?;
    Some(u32::from_le_bytes(*number))
}

/// What the messaging nodes with an identifier are called, if they have a name and any data.
fn device_name(guid: &Guid) -> Option<&'static str>
    ensures { option_map (λ name. name.now) result ≡ device_name guid.now.0 }
{
    let device = device_of(&DEVICES, guid)?;
    Some(device.name)
}

/// The device of an identifier.
fn device_of(devices: &'static [Device], guid: &Guid) -> Option<&'static Device>
    ensures { option_copied result ≡ find (λ device. pointwise ◌==◌ device.guid.0 guid.now.0) devices.now }
{
    devices.iter().find(|device| device.guid == *guid)
}

/// Writes how the flow on a serial line is controlled: a word, or another number with its sign.
fn flow_control<W: fmt::Write>(f: &mut fmt::Formatter<W>, kind: u32) -> fmt::Result
    ensures { WritesOnOk W.write_str_gives f.old result (flow_text kind) f.new }
{
    let word = match kind {
        0 => "None",
        1 => "Hardware",
        2 => "XonXoff",
        _ => return write!(f, "UartFlowControl({})", kind.cast_signed()),
    };
    write!(f, "UartFlowControl({word})")
}
