//! What is before a payload.

ghost use Rattle.std.specs.Prelude.{◌≡◌, ◌↔◌, IfSome, IfNone, IsTrue};
ghost use Rattle.boot_requests.specs.Kind.{version_of, byte_of, layout_of, option_place, IsVersion, IsKind};

/// The most bytes of a payload.
pub const PAYLOAD_MAX: usize = 131_072;

/// The two bytes at the start of a frame, and so of a stream of frames. No line of a script begins with them.
pub const FRAME_MAGIC: [u8; 2] = [0x42, 0x51];

/// The bytes before a payload.
pub(crate) const HEADER_LEN: usize = 12;

/// The bytes of a number of an entry.
pub(crate) const ENTRY_LEN: usize = 2;

/// The number that no request has.
pub(crate) const NO_NUMBER: u32 = u32::MAX;

/// What a request is about, as its frame states it.
#[derive(Clone, Copy, Debug, PartialEq, Eq)]
pub(crate) enum Kind {
    /// To store an entry that isn't there.
    Add,
    /// To store an entry in the place of another.
    Replace,
    /// To take out an entry.
    Remove,
    /// To set BootOrder.
    Order,
    /// To set BootNext.
    Next,
    /// To store an entry under the least number that none has.
    AddFree,
    /// To do that, and to put the number in front of BootOrder.
    AddFirst,
    /// To put an entry in front of BootOrder.
    First,
}

impl Kind {
    /// All kinds.
    const ALL: [Kind; 8] = [
        Kind::Add,
        Kind::Replace,
        Kind::Remove,
        Kind::Order,
        Kind::Next,
        Kind::AddFree,
        Kind::AddFirst,
        Kind::First,
    ];

    /// The kind that the version of a frame and the byte stand for, if they stand for one.
    pub(crate) fn from_bytes(version: u8, byte: u8) -> Option<Kind>
        ensures found { IfSome result (λ kind.
            (version_of kind ≡ version) × (byte_of kind ≡ byte)) }
        ensures none { IfNone result (¬ IsKind version byte) }
    {
        Kind::ALL
            .iter()
            .copied()
            .find(|kind| kind.version() == version && kind.byte() == byte)
    }

    /// Whether some kind has frames of this version.
    pub(crate) fn has_version(version: u8) -> bool
        ensures { IsTrue result ↔ IsVersion version }
    {
        Kind::ALL.iter().any(|kind| kind.version() == version)
    }

    /// The version of the kind's frames.
    pub(crate) fn version(self) -> u8
        ensures { result ≡ version_of self }
    {
        match self {
            Kind::Add | Kind::Replace | Kind::Remove | Kind::Order | Kind::Next => 1,
            Kind::AddFree => 2,
            Kind::AddFirst | Kind::First => 3,
        }
    }

    /// The byte that stands for the kind.
    pub(crate) fn byte(self) -> u8
        ensures { result ≡ byte_of self }
    {
        match self {
            Kind::Add => 1,
            Kind::Replace => 2,
            Kind::Remove => 3,
            Kind::Order => 4,
            Kind::Next => 5,
            Kind::AddFree => 6,
            Kind::AddFirst => 7,
            Kind::First => 8,
        }
    }

    /// How many bytes of the kind's payload are before its load option, if it has one.
    pub(crate) fn option_place(self) -> usize
        ensures { result ≡ option_place (layout_of self) }
    {
        match self {
            Kind::Add | Kind::Replace => ENTRY_LEN,
            Kind::Remove
            | Kind::Order
            | Kind::Next
            | Kind::AddFree
            | Kind::AddFirst
            | Kind::First => 0,
        }
    }
}
