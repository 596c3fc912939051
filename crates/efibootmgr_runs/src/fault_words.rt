//! What is wrong with words, in words for a person.

use efibootmgr_words::WordFault;
use messages::Quoted;
use std::fmt;

/// A fault of words, with the word that it is of.
#[derive(Clone, Copy)]
pub(crate) struct FaultWords<'a>(pub(crate) WordFault<'a>);

impl fmt::Display for FaultWords<'_> {
    fn fmt<W: fmt::Write>(&self, f: &mut fmt::Formatter<W>) -> fmt::Result {
        match &self.0 {
            WordFault::UnknownLetter(letter) => write!(
                f,
                "there is no option -{}",
                letter.escape_default()
            ),
            WordFault::NoValue(name) => write!(f, "--{name} needs a value behind it"),
            WordFault::ExtraValue(name) => write!(f, "--{name} takes no value"),
            WordFault::NotDone(name) => write!(f, "--{name} isn't done here"),
            WordFault::BothFamilies => f.write_str("--driver and --sysprep exclude each other"),
            WordFault::NoNext(name) => write!(f, "--{name} goes with no option of BootNext"),
            WordFault::NoTimeout(name) => write!(f, "--{name} goes with no option of Timeout"),
            WordFault::NoneToDelete => f.write_str("-B needs an entry: name it by -b"),
            WordFault::NoneToActivate => f.write_str("-a and -A need an entry: name it by -b"),
            fault => write_word(f, fault),
        }
    }
}

/// Writes what is wrong with a word that is shown.
fn write_word<W: fmt::Write>(f: &mut fmt::Formatter<W>, fault: &WordFault<'_>) -> fmt::Result {
    let (before, word, after) = match fault {
        WordFault::UnknownName(name) => ("there is no option --", *name, ""),
        WordFault::Ambiguous(name) => ("more than one option begins with --", *name, ""),
        WordFault::LongPath(value) => ("-e ", *value, " isn't done here: paths are the short ones"),
        WordFault::BadEntry(value) | WordFault::LargeEntry(value) => ("-b ", *value, NO_ENTRY),
        WordFault::BadNext(value) | WordFault::LargeNext(value) => ("-n ", *value, NO_ENTRY),
        WordFault::BadOrder(value) => ("in the value of -o ", *value, NO_ENTRY),
        WordFault::BadEdd(value) | WordFault::UnknownEdd(value) => (
            "-e ",
            *value,
            " is neither -1 nor 0",
        ),
        WordFault::BadPart(value) => ("-p ", *value, " is no number of a partition"),
        WordFault::BadTimeout(value) => ("-t ", *value, " is no number of seconds up to 65535"),
        WordFault::BadVerbose(value) => ("-v ", *value, " is no number"),
        _ => return Ok(()),
    };
    write!(f, "{before}{}{after}", Quoted(word))
}

/// What is said of a word that is no number of an entry.
const NO_ENTRY: &str = " is no number of an entry: that is one to four hexadecimal digits";
