//! What is wrong with words.

ghost use Rattle.std.specs.Prelude.{◌≡◌};
ghost use Rattle.efibootmgr_words.specs.Statuses.{status_of};

/// Why words aren't taken.
#[derive(Clone, Copy, Debug, PartialEq, Eq)]
pub enum WordFault<'a> {
    /// A letter after a hyphen is no option.
    UnknownLetter(char),
    /// A name after two hyphens is no option.
    UnknownName(&'a str),
    /// A name after two hyphens is the front of several options.
    Ambiguous(&'a str),
    /// A value is missing behind the last word, an option with this name.
    NoValue(&'static str),
    /// There is a value at the name of an option that has none.
    ExtraValue(&'static str),
    /// The option of this name isn't done here.
    NotDone(&'static str),
    /// The value of `--edd30` asks for another form of a path than the short one.
    LongPath(&'a str),
    /// The value of `-b` isn't hexadecimal digits.
    BadEntry(&'a str),
    /// The value of `-b` is above FFFF.
    LargeEntry(&'a str),
    /// The value of `-e` is no number.
    BadEdd(&'a str),
    /// The value of `-e` is a number that has no meaning.
    UnknownEdd(&'a str),
    /// The value of `-n` isn't hexadecimal digits.
    BadNext(&'a str),
    /// The value of `-n` is above FFFF.
    LargeNext(&'a str),
    /// The value of `-p` is no number of a partition.
    BadPart(&'a str),
    /// The value of `-t` is no number of seconds.
    BadTimeout(&'a str),
    /// The value of `-v` is no number.
    BadVerbose(&'a str),
    /// What is between two commas of the value of `-o` is no number of an entry.
    BadOrder(&'a str),
    /// Entries of drivers are meant, and those of what prepares the system too.
    BothFamilies,
    /// BootNext is to be set or taken out by the words for entries of another family, whose option has this name.
    NoNext(&'static str),
    /// Timeout is to be set or taken out by the words for entries of another family, whose option has this name.
    NoTimeout(&'static str),
    /// An entry is to be taken out, and none is named.
    NoneToDelete,
    /// An entry is to be made active or inactive, and none is named.
    NoneToActivate,
}

impl WordFault<'_> {
    /// The status that `efibootmgr` ends with.
    pub fn status(&self) -> u8
        ensures { result ≡ status_of self.now }
    {
        match self {
            WordFault::UnknownLetter(_)
            | WordFault::UnknownName(_)
            | WordFault::Ambiguous(_)
            | WordFault::NoValue(_)
            | WordFault::ExtraValue(_)
            | WordFault::NotDone(_)
            | WordFault::LongPath(_) => 1,
            WordFault::BothFamilies => 25,
            WordFault::NoNext(_) => 26,
            WordFault::NoTimeout(_) => 27,
            WordFault::NoneToDelete => 3,
            WordFault::NoneToActivate => 4,
            WordFault::BadOrder(_) => 8,
            WordFault::BadEntry(_) => 28,
            WordFault::LargeEntry(_) => 29,
            WordFault::BadEdd(_) => 30,
            WordFault::UnknownEdd(_) => 31,
            WordFault::BadNext(_) => 35,
            WordFault::LargeNext(_) => 36,
            WordFault::BadPart(_) => 37,
            WordFault::BadTimeout(_) => 38,
            WordFault::BadVerbose(_) => 39,
        }
    }
}
