//! The nodes that libefivar prints in another form than a person is shown by `uefi_names`.

ghost use Rattle.std.specs.Prelude.{◌≡◌, []};
ghost use Rattle.uefi_names.specs.Standard.{plain_group, plain_table, group_of};
ghost use Rattle.efibootmgr_words.specs.EfivarRows.{hardware_rows, messaging_rows, media_rows, bios_boot_rows, efivar_table};

use uefi_names::{
    DataLen, Field, Form, NodeGroup, NodeRow, NodeTable, Numeral, REST, Show, When, Word,
};

/// A row of nodes with one form: the sub-type, and of the form how long the data must be, the name, and of each field the
/// offset, the length and how it is shown.
macro_rules! row {
    ($sub:literal, $len:expr, $name:literal, [$(($at:expr, $size:expr, $show:expr)),*]) => {
        NodeRow {
            sub: $sub,
            forms: &[Form {
                when: When::Always,
                len: $len,
                name: $name,
                fields: &[$(Field { at: $at, len: $size, show: $show }),*],
            }],
        }
    };
}

/// A word for each of some numbers; another number is shown in decimal digits.
macro_rules! words {
    ([$(($number:literal, $text:literal)),*]) => {
        Show::Word {
            mask: u64::MAX,
            words: &[$(Word { number: $number, text: $text }),*],
            otherwise: Numeral::Decimal,
        }
    };
}

const HEX: Show = Show::Number(Numeral::Hexadecimal);

const DECIMAL: Show = Show::Number(Numeral::Decimal);

/// A zero is the rate that most firmware has.
const BAUD_RATE: Show = words!([(0, "115200")]);

const DATA_BITS: Show = words!([(0, "8")]);

const PARITY: Show = words!([(0, "D"), (1, "N"), (2, "E"), (3, "O"), (4, "M"), (5, "S")]);

const STOP_BITS: Show = words!([(0, "D"), (1, "1"), (2, "1.5"), (3, "2")]);

const BOOT_DEVICE: Show = words!([
    (1, "Floppy"),
    (2, "HD"),
    (3, "CDROM"),
    (4, "PCMCIA"),
    (5, "USB"),
    (6, "Network")
]);

static HARDWARE: [NodeRow; 2] = [
    row!(
        3,
        DataLen::Exactly(20),
        "MemoryMapped",
        [(0, 4, DECIMAL), (4, 8, HEX), (12, 8, HEX)]
    ),
    row!(
        6,
        DataLen::Exactly(9),
        "BMC",
        [(0, 1, DECIMAL), (1, 8, HEX)]
    ),
];

static MESSAGING: [NodeRow; 8] = [
    row!(
        1,
        DataLen::Exactly(4),
        "Ata",
        [(0, 1, DECIMAL), (1, 1, DECIMAL), (2, 2, DECIMAL)]
    ),
    row!(
        2,
        DataLen::Exactly(4),
        "SCSI",
        [(0, 2, DECIMAL), (2, 2, DECIMAL)]
    ),
    row!(4, DataLen::Exactly(12), "I1394", [(4, 8, HEX)]),
    row!(6, DataLen::Exactly(4), "I2O", [(0, 4, DECIMAL)]),
    row!(
        14,
        DataLen::Exactly(15),
        "Uart",
        [
            (4, 8, BAUD_RATE),
            (12, 1, DATA_BITS),
            (13, 1, PARITY),
            (14, 1, STOP_BITS)
        ]
    ),
    row!(17, DataLen::Exactly(1), "Unit", [(0, 1, DECIMAL)]),
    row!(26, DataLen::Exactly(1), "SD", [(0, 1, DECIMAL)]),
    row!(29, DataLen::Exactly(1), "eMMC", [(0, 1, DECIMAL)]),
];

static MEDIA: [NodeRow; 1] = [row!(7, DataLen::Exactly(16), "FvVol", [(0, 16, Show::Guid)])];

static BIOS_BOOT: [NodeRow; 1] = [row!(
    1,
    DataLen::AtLeast(5),
    "BBS",
    [(0, 2, BOOT_DEVICE), (4, REST, Show::Ascii(0)), (2, 2, HEX)]
)];

/// The table of these nodes.
#[tactic(auto, unfolding(crate::specs::EfivarRows::efivar_table))]
pub(crate) fn efivar_table() -> NodeTable
    ensures { plain_table result ≡ efivar_table }
{
    NodeTable {
        groups: [
            hardware(),
            messaging(),
            media(),
            bios_boot(),
            none(),
            none(),
            none(),
            none(),
        ],
    }
}

fn hardware() -> NodeGroup
    ensures { plain_group result ≡ group_of 1 hardware_rows }
{
    NodeGroup {
        kind: 1,
        rows: &HARDWARE,
    }
}

fn messaging() -> NodeGroup
    ensures { plain_group result ≡ group_of 3 messaging_rows }
{
    NodeGroup {
        kind: 3,
        rows: &MESSAGING,
    }
}

fn media() -> NodeGroup
    ensures { plain_group result ≡ group_of 4 media_rows }
{
    NodeGroup {
        kind: 4,
        rows: &MEDIA,
    }
}

fn bios_boot() -> NodeGroup
    ensures { plain_group result ≡ group_of 5 bios_boot_rows }
{
    NodeGroup {
        kind: 5,
        rows: &BIOS_BOOT,
    }
}

/// A group without rows.
fn none() -> NodeGroup
    ensures { plain_group result ≡ group_of 0 [] }
{
    NodeGroup { kind: 0, rows: &[] }
}
