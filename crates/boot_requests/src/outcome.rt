//! What came of a request.

ghost use Rattle.std.specs.Prelude.{◌≡◌, ◌≢◌, ◌++◌, IfOk, OnOk, IfSome, IfNone};
ghost use Rattle.std.specs.String.{string_bytes};
ghost use Rattle.uefi_vars.specs.Words.{number_words};
ghost use Rattle.boot_requests.specs.Words.{code_words, outcome_words};

use std::alloc::{AllocError, Global};
use uefi_vars::entry_name;

/// Whether a request was carried out, or why not. Any but [`Code::Done`] uses up the request's number and changes
/// nothing else.
#[derive(Clone, Copy, Debug, PartialEq, Eq, Hash)]
pub enum Code {
    /// The request was carried out.
    Done,
    /// The entry to add is there already.
    Exists,
    /// The entry isn't there.
    Missing,
    /// The order has a number twice.
    OrderRepeats,
    /// The order has a number without an entry.
    OrderUnknown,
    /// Each number has an entry already.
    NoFree,
}

/// Each code.
const CODES: [Code; 6] = [
    Code::Done,
    Code::Exists,
    Code::Missing,
    Code::OrderRepeats,
    Code::OrderUnknown,
    Code::NoFree,
];

impl Code {
    ghost use Rattle.boot_requests.specs.declared.outcome.Code.{Code};
    ghost use Rattle.boot_requests.specs.Outcome.{code_byte};

    /// The code's name.
    pub fn name(self) -> &'static str
        ensures { result.now ≡ code_words self }
    {
        match self {
            Code::Done => "Done",
            Code::Exists => "Exists",
            Code::Missing => "Missing",
            Code::OrderRepeats => "OrderRepeats",
            Code::OrderUnknown => "OrderUnknown",
            Code::NoFree => "NoFree",
        }
    }

    /// The byte that stands for the code where it is stored.
    pub(crate) fn byte(self) -> u8
        ensures { result ≡ code_byte self }
    {
        match self {
            Code::Done => 0,
            Code::Exists => 1,
            Code::Missing => 2,
            Code::OrderRepeats => 3,
            Code::OrderUnknown => 4,
            Code::NoFree => 5,
        }
    }

    /// The code that the byte stands for, if it stands for one.
    pub(crate) fn from_byte(byte: u8) -> Option<Code>
        ensures found { IfSome result (λ code. code_byte code ≡ byte) }
        ensures none { IfNone result ((code : Code) → code_byte code ≢ byte) }
    {
        for code in CODES {
            if code.byte() == byte {
                return Some(code);
            }
        }
        None
    }
}

/// What came of a request.
#[derive(Clone, Copy, Debug, PartialEq, Eq, Hash)]
pub struct Outcome {
    /// Whether the request was carried out, or why not.
    pub code: Code,
    /// The number of the entry that was added, if the request left it open and was carried out. `None` of any other.
    pub entry: Option<u16>,
}

impl Outcome {
    ghost use Rattle.boot_requests.specs.declared.outcome.Outcome.{Outcome};
    ghost use Rattle.boot_requests.specs.Outcome.{IsOutcome, outcome_bytes, without_entry, added_at};

    /// The outcome of this code that tells no entry.
    pub(crate) fn of(code: Code) -> Outcome
        ensures { result ≡ without_entry code }
    {
        Outcome { code, entry: None }
    }

    /// The outcome of a request that left the number of its entry open, and stored it under this one.
    pub(crate) fn added_at(entry: u16) -> Outcome
        ensures { result ≡ added_at entry }
    {
        Outcome {
            code: Code::Done,
            entry: Some(entry),
        }
    }

    /// The bytes in which the outcome is kept: that of its code, 1 if it tells an entry and 0 if not, and the number of
    /// the entry, little-endian, or 0.
    pub(crate) fn bytes(self) -> [u8; 4]
        ensures { result ≡ outcome_bytes self }
    {
        let (has, entry) = match self.entry {
            Some(entry) => (1, entry),
            None => (0, 0),
        };
        let [low, high] = entry.to_le_bytes();
        [self.code.byte(), has, low, high]
    }

    /// The outcome that is kept in these bytes, if one is.
    pub(crate) fn from_bytes(bytes: [u8; 4]) -> Option<Outcome>
        ensures found { IfSome result (λ outcome.
            IsOutcome outcome × (outcome_bytes outcome ≡ bytes)) }
        ensures none { IfNone result ((outcome : Outcome) →
            IsOutcome outcome → outcome_bytes outcome ≢ bytes) }
    {
        let [code, has, low, high] = bytes;
        let code = Code::from_byte(code)?;
        let entry = u16::from_le_bytes([low, high]);
        match has {
            0 if entry == 0 => Some(Outcome::of(code)),
            1 if code == Code::Done => Some(Outcome {
                code,
                entry: Some(entry),
            }),
            _ => None,
        }
    }

    /// The outcome in words: the code's name, and after one blank the four hexadecimal digits of the entry, in upper
    /// case, if there is one. This fails only when out of memory.
    pub fn words(self, alloc: Global) -> Result<String, AllocError>
        ensures { IfOk result (λ text. string_bytes text ≡ outcome_words self) }
    {
        let mut text = String::from_str(alloc, self.code.name())?;
        if let Some(entry) = self.entry {
            append_number(entry, &mut text)?;
        }
        Ok(text)
    }
}

/// Appends a blank and the digits of an entry's number.
fn append_number(entry: u16, text: &mut String) -> Result<(), AllocError>
    ensures { OnOk result (string_bytes text.new ≡ string_bytes text.old ++ number_words entry) }
{
    let [_, _, _, _, a, b, c, d] = entry_name(entry);
    text.push(' ')?;
    text.push(char::from(a))?;
    text.push(char::from(b))?;
    text.push(char::from(c))?;
    text.push(char::from(d))
}
