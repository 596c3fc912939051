//! The table of the nodes that have a name here: those of the standard (UEFI 2.10, 10.3) that have no exact text, or
//! another form beside it. Its rows are in groups, each proved for itself: one proof of all would be too large.

ghost use Rattle.std.specs.Prelude.{◌≡◌};
ghost use Rattle.uefi_names.specs.Table.{IsTable, AreWhole};
ghost use Rattle.uefi_names.specs.Standard.{plain_group, plain_table, group_of, hardware_rows, acpi_rows, storage_rows, vendor_rows, network_rows, usb_rows, media_rows, bios_boot_rows, standard_table};

use crate::table::{
    DataLen, Encoding, Field, Form, Item, NodeGroup, NodeRow, NodeTable, Numeral, REST, Show, When,
    Word,
};
use crate::vendors::{DEBUG_PORT, PC_ANSI, SAS, UART_FLOW_CONTROL, VT_100, VT_100_PLUS, VT_UTF8};

/// A form: what the data must have in them, how long they must be, the name, and of each field the offset, the length
/// and how it is shown.
macro_rules! form {
    ($when:expr, $len:expr, $name:literal, [$(($at:expr, $size:expr, $show:expr)),*]) => {
        Form {
            when: $when,
            len: $len,
            name: $name,
            fields: &[$(Field { at: $at, len: $size, show: $show }),*],
        }
    };
}

/// A row of nodes with one form: the sub-type, and of the form how long the data must be, the name and the fields.
macro_rules! row {
    ($sub:literal, $len:expr, $name:literal, $fields:tt) => {
        NodeRow {
            sub: $sub,
            forms: &[form!(When::Always, $len, $name, $fields)],
        }
    };
}

/// The form of the devices whose identifier is `PNP` and these two bytes.
macro_rules! acpi_device {
    ($high:literal, $low:literal, $name:literal) => {
        form!(
            When::Bytes { at: 0, are: &[0xd0, 0x41, $low, $high] },
            DataLen::Exactly(8),
            $name,
            [(4, 4, HEX)]
        )
    };
}

/// The form of the vendor's nodes with a GUID, these data after it, and these arguments.
macro_rules! vendor {
    ($guid:expr, $len:literal, $name:literal, $fields:tt) => {
        form!(
            When::Bytes { at: 0, are: &$guid },
            DataLen::Exactly($len),
            $name,
            $fields
        )
    };
}

/// The form of the USB devices of a class.
macro_rules! usb_class {
    ($class:literal, $name:literal) => {
        form!(
            When::Byte { at: 4, mask: 0xff, is: $class },
            DataLen::Exactly(7),
            $name,
            [(0, 2, HEX), (2, 2, HEX), (5, 1, HEX), (6, 1, HEX)]
        )
    };
}

/// The form of the USB devices of a sub-class of class 0xFE.
macro_rules! usb_application {
    ($sub_class:literal, $name:literal) => {
        form!(
            When::Bytes { at: 4, are: &[0xfe, $sub_class] },
            DataLen::Exactly(7),
            $name,
            [(0, 2, HEX), (2, 2, HEX), (6, 1, HEX)]
        )
    };
}

/// The form of the RAM disks of a type (10.3.5.9).
macro_rules! ram_disk {
    ($guid:expr, $name:literal) => {
        form!(
            When::Bytes { at: 16, are: &$guid },
            DataLen::Exactly(34),
            $name,
            [(0, 8, HEX), (8, 8, HEX), (32, 2, DECIMAL)]
        )
    };
}

/// The form of a SAS device whose topology has these low and high bits, and of its last arguments.
macro_rules! sas_topology {
    ($is:literal, $fields:tt) => {
        form!(
            When::Byte { at: 16, mask: 0x8f, is: $is },
            DataLen::Exactly(20),
            "SasEx",
            $fields
        )
    };
}

/// The form of a vendor's node for a SAS device with this condition, and of the four arguments of its topology.
macro_rules! vendor_sas {
    ($when:expr, [$($topology:tt),*]) => {
        form!(
            $when,
            DataLen::Exactly(40),
            "SAS",
            [
                (20, 8, HEX),
                (28, 8, HEX),
                (38, 2, HEX),
                $($topology,)*
                (16, 4, HEX)
            ]
        )
    };
}

/// The condition that a vendor's node is of a SAS device whose topology has these low and high bits.
macro_rules! has_sas_topology {
    ($is:literal) => {
        When::BytesAndByte {
            are: &SAS,
            at: 36,
            mask: 0x8f,
            is: $is,
        }
    };
}

const HEX: Show = Show::Number(Numeral::Hexadecimal);

const DECIMAL: Show = Show::Number(Numeral::Decimal);

const ZERO: Show = Show::Literal("0");

/// A word for each of some numbers; another number is shown as it is.
macro_rules! words {
    ($mask:expr, $otherwise:expr, [$(($number:literal, $text:literal)),*]) => {
        Show::Word {
            mask: $mask,
            words: &[$(Word { number: $number, text: $text }),*],
            otherwise: $otherwise,
        }
    };
}

/// All bits of a number.
const ALL: u64 = u64::MAX;

const PROTOCOL: Show = words!(ALL, Numeral::Hexadecimal, [(6, "TCP"), (17, "UDP")]);

const ORIGIN: Show = words!(
    ALL,
    Numeral::Hexadecimal,
    [
        (0, "Static"),
        (1, "StatelessAutoConfigure"),
        (2, "StatefulAutoConfigure")
    ]
);

const DIGEST_HEADER: Show = words!(0x3, Numeral::Hexadecimal, [(0, "None"), (2, "CRC32C")]);

const DIGEST_DATA: Show = words!(0xc, Numeral::Hexadecimal, [(0, "None"), (8, "CRC32C")]);

const AUTHENTICATION: Show = words!(
    0x1c00,
    Numeral::Hexadecimal,
    [
        (0, "CHAP_BI"),
        (0x1000, "CHAP_UNI"),
        (0x800, "None"),
        (0x1800, "None")
    ]
);

const SAS_PROTOCOL: Show = words!(0x10, Numeral::Hexadecimal, [(0, "SAS"), (0x10, "SATA")]);

const SAS_LOCATION: Show = words!(
    0x20,
    Numeral::Hexadecimal,
    [(0, "Internal"), (0x20, "External")]
);

const SAS_CONNECTION: Show = words!(
    0x40,
    Numeral::Hexadecimal,
    [(0, "Direct"), (0x40, "Expanded")]
);

/// The types of RAM disks, as GUIDs in the order in which their bytes are stored.
const VIRTUAL_DISK: [u8; 16] = [
    0x5a, 0x53, 0xab, 0x77, 0xfc, 0x45, 0x4b, 0x62, 0x55, 0x60, 0xf7, 0xb2, 0x81, 0xd1, 0xf9, 0x6e,
];

const VIRTUAL_CD: [u8; 16] = [
    0x30, 0xbd, 0x5a, 0x3d, 0x75, 0x41, 0xce, 0x87, 0x6d, 0x64, 0xd2, 0xad, 0xe5, 0x23, 0xc4, 0xbb,
];

const PERSISTENT_VIRTUAL_DISK: [u8; 16] = [
    0xc9, 0x02, 0xea, 0x5c, 0x07, 0x4d, 0xd3, 0x69, 0x26, 0x9f, 0x44, 0x96, 0xfb, 0xe0, 0x96, 0xf9,
];

const PERSISTENT_VIRTUAL_CD: [u8; 16] = [
    0x88, 0x81, 0x01, 0x08, 0xcd, 0x42, 0x48, 0xbb, 0x10, 0x0f, 0x53, 0x87, 0xd5, 0x3d, 0xed, 0x3d,
];

/// Hardware (10.3.2).
static HARDWARE: [NodeRow; 4] = [
    row!(2, DataLen::Exactly(1), "PcCard", [(0, 1, HEX)]),
    row!(
        3,
        DataLen::Exactly(20),
        "MemoryMapped",
        [(0, 4, HEX), (4, 8, HEX), (12, 8, HEX)]
    ),
    row!(5, DataLen::Exactly(4), "Ctrl", [(0, 4, HEX)]),
    row!(6, DataLen::Exactly(9), "BMC", [(0, 1, HEX), (1, 8, HEX)]),
];

/// ACPI (10.3.3).
static ACPI: [NodeRow; 4] = [
    NodeRow {
        sub: 1,
        forms: &[
            acpi_device!(0x06, 0x04, "Floppy"),
            acpi_device!(0x03, 0x01, "Keyboard"),
            acpi_device!(0x05, 0x01, "Serial"),
            acpi_device!(0x04, 0x01, "ParallelPort"),
        ],
    },
    NodeRow {
        sub: 2,
        forms: &[
            form!(
                When::Always,
                DataLen::AtLeast(16),
                "AcpiExp",
                [
                    (0, 4, Show::HardwareId),
                    (8, 4, ZERO),
                    (13, REST, Show::LoneAscii)
                ]
            ),
            form!(
                When::Always,
                DataLen::AtLeast(16),
                "AcpiExp",
                [
                    (0, 4, Show::HardwareId),
                    (8, 4, Show::HardwareId),
                    (13, REST, Show::LoneAscii)
                ]
            ),
            form!(
                When::Always,
                DataLen::AtLeast(15),
                "AcpiEx",
                [
                    (0, 4, Show::HardwareId),
                    (8, 4, Show::HardwareId),
                    (4, 4, HEX),
                    (12, REST, Show::Ascii(0)),
                    (12, REST, Show::Ascii(2)),
                    (12, REST, Show::Ascii(1))
                ]
            ),
        ],
    },
    row!(
        3,
        DataLen::Items { before: 4, each: 4 },
        "AcpiAdr",
        [(0, REST, Show::Each(4, Item::Number))]
    ),
    row!(4, DataLen::Exactly(4), "AcpiNVDIMM", [(0, 4, HEX)]),
];

/// Buses and drives (10.3.4).
static STORAGE: [NodeRow; 15] = [
    row!(
        1,
        DataLen::Exactly(4),
        "Ata",
        [
            (
                0,
                1,
                words!(
                    ALL,
                    Numeral::Hexadecimal,
                    [(0, "Primary"), (1, "Secondary")]
                )
            ),
            (
                1,
                1,
                words!(ALL, Numeral::Hexadecimal, [(0, "Master"), (1, "Slave")])
            ),
            (2, 2, HEX)
        ]
    ),
    row!(2, DataLen::Exactly(4), "Scsi", [(0, 2, HEX), (2, 2, HEX)]),
    row!(
        3,
        DataLen::Exactly(20),
        "Fibre",
        [(4, 8, HEX), (12, 8, HEX)]
    ),
    row!(4, DataLen::Exactly(12), "I1394", [(4, 8, Show::AllDigits)]),
    row!(6, DataLen::Exactly(4), "I2O", [(0, 4, HEX)]),
    row!(
        9,
        DataLen::Exactly(44),
        "Infiniband",
        [
            (0, 4, HEX),
            (4, 16, Show::Guid),
            (20, 8, HEX),
            (28, 8, HEX),
            (36, 8, HEX)
        ]
    ),
    row!(17, DataLen::Exactly(1), "Unit", [(0, 1, HEX)]),
    row!(
        19,
        DataLen::AtLeast(14),
        "iSCSI",
        [
            (14, REST, Show::Ascii(0)),
            (12, 2, HEX),
            (4, 8, Show::PrefixedDigits),
            (2, 2, DIGEST_HEADER),
            (2, 2, DIGEST_DATA),
            (2, 2, AUTHENTICATION),
            (0, 2, words!(ALL, Numeral::Hexadecimal, [(0, "TCP")]))
        ]
    ),
    row!(
        21,
        DataLen::Exactly(20),
        "FibreEx",
        [(4, 8, Show::PrefixedDigits), (12, 8, Show::PrefixedDigits)]
    ),
    NodeRow {
        sub: 22,
        forms: &[
            sas_topology!(
                0,
                [
                    (0, 8, Show::PrefixedDigits),
                    (8, 8, Show::PrefixedDigits),
                    (18, 2, HEX),
                    (16, 2, Show::Literal("NoTopology")),
                    (16, 2, ZERO),
                    (16, 2, ZERO),
                    (16, 2, ZERO)
                ]
            ),
            sas_topology!(
                1,
                [
                    (0, 8, Show::PrefixedDigits),
                    (8, 8, Show::PrefixedDigits),
                    (18, 2, HEX),
                    (16, 1, SAS_PROTOCOL),
                    (16, 1, SAS_LOCATION),
                    (16, 1, SAS_CONNECTION),
                    (17, 1, ZERO)
                ]
            ),
            sas_topology!(
                2,
                [
                    (0, 8, Show::PrefixedDigits),
                    (8, 8, Show::PrefixedDigits),
                    (18, 2, HEX),
                    (16, 1, SAS_PROTOCOL),
                    (16, 1, SAS_LOCATION),
                    (16, 1, SAS_CONNECTION),
                    (17, 1, Show::OneMore)
                ]
            ),
            form!(
                When::Always,
                DataLen::Exactly(20),
                "SasEx",
                [
                    (0, 8, Show::PrefixedDigits),
                    (8, 8, Show::PrefixedDigits),
                    (18, 2, HEX),
                    (16, 2, HEX),
                    (16, 2, ZERO),
                    (16, 2, ZERO),
                    (16, 2, ZERO)
                ]
            ),
        ],
    },
    row!(25, DataLen::Exactly(2), "UFS", [(0, 1, HEX), (1, 1, HEX)]),
    row!(26, DataLen::Exactly(1), "SD", [(0, 1, HEX)]),
    row!(29, DataLen::Exactly(1), "eMMC", [(0, 1, HEX)]),
    row!(32, DataLen::Exactly(16), "NVDIMM", [(0, 16, Show::Guid)]),
    row!(
        34,
        DataLen::AtLeast(18),
        "NVMEoF",
        [
            (17, REST, Show::Ascii(0)),
            (0, 1, HEX),
            (1, 16, Show::Digits)
        ]
    ),
];

/// Nodes of vendors (10.3.4.17).
static VENDORS: [NodeRow; 1] = [NodeRow {
    sub: 10,
    forms: &[
        vendor!(PC_ANSI, 16, "VenPcAnsi", []),
        vendor!(VT_100, 16, "VenVt100", []),
        vendor!(VT_100_PLUS, 16, "VenVt100Plus", []),
        vendor!(VT_UTF8, 16, "VenUtf8", []),
        vendor!(
            UART_FLOW_CONTROL,
            20,
            "UartFlowCtrl",
            [(
                16,
                4,
                words!(
                    ALL,
                    Numeral::Hexadecimal,
                    [(0, "None"), (1, "Hardware"), (2, "XonXoff")]
                )
            )]
        ),
        vendor!(DEBUG_PORT, 16, "DebugPort", []),
        vendor_sas!(
            has_sas_topology!(0),
            [
                (36, 2, Show::Literal("NoTopology")),
                (36, 2, ZERO),
                (36, 2, ZERO),
                (36, 2, ZERO)
            ]
        ),
        vendor_sas!(
            has_sas_topology!(1),
            [
                (36, 1, SAS_PROTOCOL),
                (36, 1, SAS_LOCATION),
                (36, 1, SAS_CONNECTION),
                (37, 1, ZERO)
            ]
        ),
        vendor_sas!(
            has_sas_topology!(2),
            [
                (36, 1, SAS_PROTOCOL),
                (36, 1, SAS_LOCATION),
                (36, 1, SAS_CONNECTION),
                (37, 1, Show::OneMore)
            ]
        ),
        vendor_sas!(
            When::Bytes { at: 0, are: &SAS },
            [(36, 2, HEX), (36, 2, ZERO), (36, 2, ZERO), (36, 2, ZERO)]
        ),
    ],
}];

/// Networks and serial lines (10.3.4).
static NETWORKS: [NodeRow; 10] = [
    NodeRow {
        sub: 11,
        forms: &[form!(
            When::Unlike {
                at: 32,
                mask: 0xfe,
                is: 0
            },
            DataLen::Exactly(33),
            "MAC",
            [(0, 32, Show::Digits), (32, 1, HEX)]
        )],
    },
    row!(
        12,
        DataLen::Exactly(15),
        "IPv4",
        [
            (4, 4, Show::Ipv4),
            (12, 2, PROTOCOL),
            (
                14,
                1,
                words!(ALL, Numeral::Hexadecimal, [(0, "DHCP"), (1, "Static")])
            ),
            (0, 4, Show::Ipv4)
        ]
    ),
    NodeRow {
        sub: 13,
        forms: &[
            form!(
                When::Always,
                DataLen::Exactly(56),
                "IPv6",
                [
                    (16, 16, Show::Ipv6),
                    (36, 2, PROTOCOL),
                    (38, 1, ORIGIN),
                    (0, 16, Show::Ipv6),
                    (39, 1, HEX),
                    (40, 16, Show::Ipv6)
                ]
            ),
            form!(
                When::Always,
                DataLen::Exactly(39),
                "IPv6",
                [
                    (16, 16, Show::Ipv6),
                    (36, 2, PROTOCOL),
                    (38, 1, ORIGIN),
                    (0, 16, Show::Ipv6)
                ]
            ),
        ],
    },
    row!(
        14,
        DataLen::Exactly(15),
        "Uart",
        [
            (4, 8, words!(ALL, Numeral::Decimal, [(0, "DEFAULT")])),
            (12, 1, words!(ALL, Numeral::Decimal, [(0, "DEFAULT")])),
            (
                13,
                1,
                words!(
                    ALL,
                    Numeral::Hexadecimal,
                    [(0, "D"), (1, "N"), (2, "E"), (3, "O"), (4, "M"), (5, "S")]
                )
            ),
            (
                14,
                1,
                words!(
                    ALL,
                    Numeral::Hexadecimal,
                    [(0, "D"), (1, "1"), (2, "1.5"), (3, "2")]
                )
            )
        ]
    ),
    row!(
        24,
        DataLen::AtLeast(1),
        "Uri",
        [(0, REST, Show::Whole(Encoding::Ascii))]
    ),
    row!(27, DataLen::Exactly(6), "Bluetooth", [(0, 6, Show::Digits)]),
    row!(28, DataLen::Exactly(32), "Wi-Fi", [(0, 32, Show::Ascii(0))]),
    row!(
        30,
        DataLen::Exactly(7),
        "BluetoothLE",
        [(0, 6, Show::Digits), (6, 1, HEX)]
    ),
    NodeRow {
        sub: 31,
        forms: &[
            form!(
                When::Byte {
                    at: 0,
                    mask: 0xff,
                    is: 0
                },
                DataLen::Items {
                    before: 17,
                    each: 16
                },
                "Dns",
                [(1, REST, Show::Each(16, Item::Ipv4))]
            ),
            form!(
                When::Byte {
                    at: 0,
                    mask: 0xff,
                    is: 1
                },
                DataLen::Items {
                    before: 17,
                    each: 16
                },
                "Dns",
                [(1, REST, Show::Each(16, Item::Ipv6))]
            ),
        ],
    },
    NodeRow {
        sub: 33,
        forms: &[
            form!(
                When::Byte {
                    at: 0,
                    mask: 0xff,
                    is: 0xff
                },
                DataLen::Exactly(18),
                "RestService",
                [(0, 1, HEX), (1, 1, HEX), (2, 16, Show::Guid)]
            ),
            form!(
                When::Byte {
                    at: 0,
                    mask: 0xff,
                    is: 0xff
                },
                DataLen::AtLeast(19),
                "RestService",
                [
                    (0, 1, HEX),
                    (1, 1, HEX),
                    (2, 16, Show::Guid),
                    (18, REST, Show::Digits)
                ]
            ),
            form!(
                When::Unlike {
                    at: 0,
                    mask: 0xff,
                    is: 0xff
                },
                DataLen::Exactly(2),
                "RestService",
                [(0, 1, HEX), (1, 1, HEX)]
            ),
        ],
    },
];

/// USB (10.3.4).
static USB: [NodeRow; 2] = [
    NodeRow {
        sub: 15,
        forms: &[
            usb_class!(0x01, "UsbAudio"),
            usb_class!(0x02, "UsbCDCControl"),
            usb_class!(0x03, "UsbHID"),
            usb_class!(0x06, "UsbImage"),
            usb_class!(0x07, "UsbPrinter"),
            usb_class!(0x08, "UsbMassStorage"),
            usb_class!(0x09, "UsbHub"),
            usb_class!(0x0a, "UsbCDCData"),
            usb_class!(0x0b, "UsbSmartCard"),
            usb_class!(0x0e, "UsbVideo"),
            usb_class!(0xdc, "UsbDiagnostic"),
            usb_class!(0xe0, "UsbWireless"),
            usb_application!(0x01, "UsbDeviceFirmwareUpdate"),
            usb_application!(0x02, "UsbIrdaBridge"),
            usb_application!(0x03, "UsbTestAndMeasurement"),
            form!(
                When::Always,
                DataLen::Exactly(7),
                "UsbClass",
                [
                    (0, 2, HEX),
                    (2, 2, HEX),
                    (4, 1, HEX),
                    (5, 1, HEX),
                    (6, 1, HEX)
                ]
            ),
        ],
    },
    row!(
        16,
        DataLen::Items { before: 6, each: 2 },
        "UsbWwid",
        [
            (2, 2, HEX),
            (4, 2, HEX),
            (0, 2, HEX),
            (6, REST, Show::Units)
        ]
    ),
];

/// Media (10.3.5).
static MEDIA: [NodeRow; 7] = [
    row!(
        1,
        DataLen::Exactly(38),
        "HD",
        [
            (0, 4, DECIMAL),
            (37, 1, DECIMAL),
            (20, 16, ZERO),
            (4, 8, HEX),
            (12, 8, HEX)
        ]
    ),
    row!(
        4,
        DataLen::AtLeast(4),
        "File",
        [(0, REST, Show::Whole(Encoding::Utf16))]
    ),
    row!(5, DataLen::Exactly(16), "Media", [(0, 16, Show::Guid)]),
    row!(6, DataLen::Exactly(16), "FvFile", [(0, 16, Show::Guid)]),
    row!(7, DataLen::Exactly(16), "Fv", [(0, 16, Show::Guid)]),
    row!(
        8,
        DataLen::Exactly(20),
        "Offset",
        [(4, 8, HEX), (12, 8, HEX)]
    ),
    NodeRow {
        sub: 9,
        forms: &[
            ram_disk!(VIRTUAL_DISK, "VirtualDisk"),
            ram_disk!(VIRTUAL_CD, "VirtualCD"),
            ram_disk!(PERSISTENT_VIRTUAL_DISK, "PersistentVirtualDisk"),
            ram_disk!(PERSISTENT_VIRTUAL_CD, "PersistentVirtualCD"),
            form!(
                When::Always,
                DataLen::Exactly(34),
                "RamDisk",
                [
                    (0, 8, HEX),
                    (8, 8, HEX),
                    (32, 2, DECIMAL),
                    (16, 16, Show::Guid)
                ]
            ),
        ],
    },
];

/// BIOS boot specification (10.3.6).
static BIOS_BOOT: [NodeRow; 1] = [row!(
    1,
    DataLen::AtLeast(5),
    "BBS",
    [
        (
            0,
            2,
            words!(
                ALL,
                Numeral::Hexadecimal,
                [
                    (1, "Floppy"),
                    (2, "HD"),
                    (3, "CDROM"),
                    (4, "PCMCIA"),
                    (5, "USB"),
                    (6, "Network")
                ]
            )
        ),
        (4, REST, Show::Ascii(0)),
        (2, 2, HEX)
    ]
)];

impl NodeTable {
    /// The table of the nodes of the standard that have no exact text, or another form beside it.
    pub fn standard() -> NodeTable
        ensures rows { plain_table result ≡ standard_table }
        ensures distinct { IsTable result }
        ensures whole { AreWhole result }
    {
        NodeTable {
            groups: [
                hardware(),
                acpi(),
                storage(),
                vendors(),
                networks(),
                usb(),
                media(),
                bios_boot(),
            ],
        }
    }
}

fn hardware() -> NodeGroup
    ensures { plain_group result ≡ group_of 1 hardware_rows }
{
    NodeGroup {
        kind: 1,
        rows: &HARDWARE,
    }
}

fn acpi() -> NodeGroup
    ensures { plain_group result ≡ group_of 2 acpi_rows }
{
    NodeGroup {
        kind: 2,
        rows: &ACPI,
    }
}

fn storage() -> NodeGroup
    ensures { plain_group result ≡ group_of 3 storage_rows }
{
    NodeGroup {
        kind: 3,
        rows: &STORAGE,
    }
}

fn vendors() -> NodeGroup
    ensures { plain_group result ≡ group_of 3 vendor_rows }
{
    NodeGroup {
        kind: 3,
        rows: &VENDORS,
    }
}

fn networks() -> NodeGroup
    ensures { plain_group result ≡ group_of 3 network_rows }
{
    NodeGroup {
        kind: 3,
        rows: &NETWORKS,
    }
}

fn usb() -> NodeGroup
    ensures { plain_group result ≡ group_of 3 usb_rows }
{
    NodeGroup {
        kind: 3,
        rows: &USB,
    }
}

fn media() -> NodeGroup
    ensures { plain_group result ≡ group_of 4 media_rows }
{
    NodeGroup {
        kind: 4,
        rows: &MEDIA,
    }
}

fn bios_boot() -> NodeGroup
    ensures { plain_group result ≡ group_of 5 bios_boot_rows }
{
    NodeGroup {
        kind: 5,
        rows: &BIOS_BOOT,
    }
}
