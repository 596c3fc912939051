//! What the rows of the table of nodes are made of, and how a node finds its row and its form.

ghost use Rattle.std.specs.Prelude.{◌≡◌, ◌==◌, slice_index};
ghost use Rattle.std.specs.Option.{option_copied};
ghost use Rattle.std.specs.List.{find};
ghost use Rattle.uefi_names.specs.Table.{allows, holds, fits, row_in, row_among, row_for, form_for, forms_for, part, least};

/// The table of nodes (UEFI 2.10, 10.3).
#[derive(Clone, Copy, Debug)]
pub struct NodeTable {
    /// The rows, in groups. A type may have several groups, and a group no rows.
    pub groups: [NodeGroup; 8],
}

/// Rows of one type.
#[derive(Clone, Copy, Debug)]
pub struct NodeGroup {
    /// The type.
    pub kind: u8,
    /// The rows.
    pub rows: &'static [NodeRow],
}

/// A row of the table: the nodes of a type and a sub-type, and how they are printed.
#[derive(Clone, Copy, Debug)]
pub struct NodeRow {
    /// The sub-type.
    pub sub: u8,
    /// The forms. A node has the first that fits its data, and is printed as a `Path` if none does.
    pub forms: &'static [Form],
}

/// A form in which nodes of a type are printed: a name, and in parentheses arguments joined by commas.
#[derive(Clone, Copy, Debug)]
pub struct Form {
    /// What the data must have in them.
    pub when: When,
    /// How long the data must be.
    pub len: DataLen,
    /// The name.
    pub name: &'static str,
    /// The fields, an argument each, in the order of the arguments.
    pub fields: &'static [Field],
}

/// What the data of a node must have in them.
#[derive(Clone, Copy, Debug)]
pub enum When {
    /// Anything.
    Always,
    /// A byte that has these bits of the mask.
    Byte {
        /// The byte's offset in the data.
        at: usize,
        /// The bits that count.
        mask: u8,
        /// What they must be.
        is: u8,
    },
    /// A byte that has other bits of the mask than these.
    Unlike {
        /// The byte's offset in the data.
        at: usize,
        /// The bits that count.
        mask: u8,
        /// What they must not be.
        is: u8,
    },
    /// These bytes.
    Bytes {
        /// The offset of the first in the data.
        at: usize,
        /// The bytes.
        are: &'static [u8],
    },
    /// These bytes first, and a byte that has these bits of the mask.
    BytesAndByte {
        /// The bytes.
        are: &'static [u8],
        /// The byte's offset in the data.
        at: usize,
        /// The bits that count.
        mask: u8,
        /// What they must be.
        is: u8,
    },
}

/// How long the data of a node must be, in bytes.
#[derive(Clone, Copy, Debug)]
pub enum DataLen {
    /// This long.
    Exactly(usize),
    /// This long or longer.
    AtLeast(usize),
    /// As long as some bytes and then items of one length, perhaps none.
    Items {
        /// The bytes before the first item.
        before: usize,
        /// The bytes of an item.
        each: usize,
    },
}

/// A field of a node's data, which is printed as an argument.
#[derive(Clone, Copy, Debug)]
pub struct Field {
    /// Its offset in the data.
    pub at: usize,
    /// How many bytes it has, if the data go so far; [`REST`] for all from the offset on.
    pub len: usize,
    /// How it is shown.
    pub show: Show,
}

/// The length of a field that goes to the end of the data.
pub const REST: usize = usize::MAX;

/// How the bytes of a field are shown. Numbers are little-endian and have eight bytes at most.
#[derive(Clone, Copy, Debug)]
pub enum Show {
    /// A number.
    Number(Numeral),
    /// A number of one byte, and one more.
    OneMore,
    /// A number of eight bytes with all its sixteen digits, without `0x`.
    AllDigits,
    /// The word that stands for the bits of the mask in a number, or these bits as a number if no word does.
    Word {
        /// The bits that count.
        mask: u64,
        /// The words.
        words: &'static [Word],
        /// How other numbers are shown.
        otherwise: Numeral,
    },
    /// This text, whatever the bytes are.
    Literal(&'static str),
    /// Each byte as two digits.
    Digits,
    /// `0x`, and each byte as two digits.
    PrefixedDigits,
    /// A GUID of sixteen bytes (appendix A).
    Guid,
    /// A hardware identifier of ACPI (10.3.3).
    HardwareId,
    /// An address of IPv4: the first four bytes.
    Ipv4,
    /// An address of IPv6: the first sixteen bytes.
    Ipv6,
    /// The text of this number, from 0, of those of ASCII that are each closed by a zero byte or the end: what isn't
    /// plain is escaped.
    Ascii(usize),
    /// The first of two texts of ASCII that are each closed by a zero byte, of which the first isn't empty and the other
    /// is: what isn't plain is escaped.
    LoneAscii,
    /// Units of two bytes up to a zero unit or the end, between quotes: what isn't plain is escaped.
    Units,
    /// Items of so many bytes each, to the end, joined by commas.
    Each(usize, Item),
    /// All that is in the parentheses: the characters, of which one that a terminal may act on is U+FFFD, and so isn't
    /// read back. A form has no other field then.
    Whole(Encoding),
}

/// What characters the bytes of a text are.
#[derive(Clone, Copy, Debug, PartialEq, Eq)]
pub enum Encoding {
    /// A printing character of ASCII for each byte.
    Ascii,
    /// Those of UTF-16 in units of two bytes, little-endian, up to a zero unit.
    Utf16,
}

/// How a number is written.
#[derive(Clone, Copy, Debug, PartialEq, Eq)]
pub enum Numeral {
    /// `0x` and hexadecimal digits.
    Hexadecimal,
    /// Decimal digits.
    Decimal,
}

/// A word that stands for a number.
#[derive(Clone, Copy, Debug)]
pub struct Word {
    /// The number.
    pub number: u64,
    /// The word.
    pub text: &'static str,
}

/// What each item of a list is shown as.
#[derive(Clone, Copy, Debug, PartialEq, Eq)]
pub enum Item {
    /// A number, in hexadecimal digits.
    Number,
    /// An address of IPv4: the first four bytes.
    Ipv4,
    /// An address of IPv6: the first sixteen bytes.
    Ipv6,
}

impl DataLen {
    /// Whether data may be this long.
    fn allows(self, len: usize) -> bool
        ensures { result ≡ allows self len }
    {
        match self {
            DataLen::Exactly(wanted) => len == wanted,
            DataLen::AtLeast(least) => len >= least,
            DataLen::Items { before, each } => {
                len >= before && each != 0 && (len - before) % each == 0
            }
        }
    }

    /// The fewest bytes that data may have.
    pub(crate) fn least(self) -> usize
        ensures { result ≡ least self }
    {
        match self {
            DataLen::Exactly(wanted) => wanted,
            DataLen::AtLeast(few) => few,
            DataLen::Items { before, .. } => before,
        }
    }
}

impl When {
    /// Whether the data have in them what they must.
    fn holds(self, body: &[u8]) -> bool
        ensures { result ≡ holds self body.now }
    {
        match self {
            When::Always => true,
            When::Byte { at, mask, is } => byte(body, at) & mask == is,
            When::Unlike { at, mask, is } => byte(body, at) & mask != is,
            When::Bytes { at, are } => part(body, at, are.len()) == are,
            When::BytesAndByte { are, at, mask, is } => {
                part(body, 0, are.len()) == are && byte(body, at) & mask == is
            }
        }
    }
}

impl Form {
    /// Whether a node with these data has this form.
    pub(crate) fn fits(&self, body: &[u8]) -> bool
        ensures { result ≡ fits body.now self.now }
    {
        self.len.allows(body.len()) && self.when.holds(body)
    }
}

impl NodeTable {
    /// The form of a node of this type, this sub-type and these data, or `None` if the table has none for it.
    pub fn form_of(&self, kind: u8, sub: u8, body: &[u8]) -> Option<&'static Form>
        ensures { option_copied result ≡ form_for self.now kind sub body.now }
    {
        let row = self.row_for(kind, sub)?;
        first_fitting(row.forms, body)
    }

    /// The forms of the nodes of a type and a sub-type: none if the table has none.
    pub(crate) fn forms_for(&self, kind: u8, sub: u8) -> &'static [Form]
        ensures { result.now ≡ forms_for self.now kind sub }
    {
        match self.row_for(kind, sub) {
            Some(row) => row.forms,
            None => &[],
        }
    }

    /// The row of a type and a sub-type.
    fn row_for(&self, kind: u8, sub: u8) -> Option<&'static NodeRow>
        ensures { option_copied result ≡ row_for self.now kind sub }
    {
        row_among(&self.groups, kind, sub)
    }
}

impl NodeGroup {
    /// The row of a sub-type, if the group is of the type.
    fn row_of(&self, kind: u8, sub: u8) -> Option<&'static NodeRow>
        ensures { option_copied result ≡ row_in kind sub self.now }
    {
        if self.kind == kind {
            row_of(self.rows, sub)
        } else {
            None
        }
    }
}

/// The first row of a type and a sub-type in some groups.
fn row_among(groups: &[NodeGroup], kind: u8, sub: u8) -> Option<&'static NodeRow>
    ensures { option_copied result ≡ row_among kind sub groups.now }
{
    for group in groups {
        if let Some(row) = group.row_of(kind, sub) {
            return Some(row);
        }
    }
    None
}

/// The row of a sub-type.
fn row_of(rows: &'static [NodeRow], sub: u8) -> Option<&'static NodeRow>
    ensures { option_copied result ≡ find (λ row. row.sub == sub) rows.now }
{
    rows.iter().find(|row| row.sub == sub)
}

/// The first form that fits data.
fn first_fitting(forms: &'static [Form], body: &[u8]) -> Option<&'static Form>
    ensures { option_copied result ≡ find (fits body.now) forms.now }
{
    forms.iter().find(|form| form.fits(body))
}

/// The byte at an offset: zero after the end.
pub(crate) fn byte(bytes: &[u8], at: usize) -> u8
    ensures { result ≡ slice_index bytes.now at }
{
    bytes.get(at).copied().unwrap_or(0)
}

/// So many bytes from an offset on: fewer if they end before.
pub(crate) fn part(bytes: &[u8], at: usize, len: usize) -> &[u8]
    ensures { result.now ≡ part at len bytes.now }
{
    let (_, after) = bytes.split_at(at.min(bytes.len()));
    let (front, _) = after.split_at(len.min(after.len()));
    front
}
