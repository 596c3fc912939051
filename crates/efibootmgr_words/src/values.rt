//! The values of options.

ghost use Rattle.std.specs.Prelude.{◌≡◌, Some, None, Ok, Err, MatchResult};
ghost use Rattle.efibootmgr_words.specs.declared.values.ValueFault.TheVariants as refused;
ghost use Rattle.efibootmgr_words.specs.Parts.{fault_parts};
ghost use Rattle.efibootmgr_words.specs.Values.{short_of, entry_of, next_of, timeout_of, part_of, verbose_of, edd_number, edd_fault, order_number, order_of, IsRefusal};

use crate::cut::{behind_hyphen, cut};
use crate::fault::WordFault;
use crate::numbers::{decimal, hexadecimal};
use std::alloc::{AllocError, AllocFailed, Global};

/// Why what words ask for isn't known.
#[derive(Clone, Copy, Debug)]
pub(crate) enum ValueFault<'a> {
    /// A word is wrong.
    Word(WordFault<'a>),
    /// Memory was refused.
    OutOfMemory,
}

impl<'a> From<WordFault<'a>> for ValueFault<'a> {
    ghost from_gives = { λ fault made. made ≡ refused.Word fault };

    fn from(fault: WordFault<'a>) -> Self {
        ValueFault::Word(fault)
    }
}

impl From<AllocError> for ValueFault<'_> {
    ghost from_gives = { λ _ made. made ≡ refused.OutOfMemory };

    fn from(_refusal: AllocError) -> Self {
        ValueFault::OutOfMemory
    }
}

impl<T: Drop> From<AllocFailed<T>> for ValueFault<'_> {
    ghost from_gives = { λ _ made. made ≡ refused.OutOfMemory };

    fn from(_refusal: AllocFailed<T>) -> Self {
        ValueFault::OutOfMemory
    }
}

/// The number of the entry that is the value of `-b`.
pub(crate) fn entry_value(text: &str) -> Result<u16, WordFault<'_>>
    ensures { MatchResult result
        (λ number. entry_of text.now ≡ Ok number)
        (λ fault. entry_of text.now ≡ Err (fault_parts fault)) }
{
    short(
        hexadecimal(text),
        WordFault::BadEntry(text),
        WordFault::LargeEntry(text),
    )
}

/// The number of the entry that is the value of `-n`.
pub(crate) fn next_value(text: &str) -> Result<u16, WordFault<'_>>
    ensures { MatchResult result
        (λ number. next_of text.now ≡ Ok number)
        (λ fault. next_of text.now ≡ Err (fault_parts fault)) }
{
    short(
        hexadecimal(text),
        WordFault::BadNext(text),
        WordFault::LargeNext(text),
    )
}

/// The seconds that are the value of `-t`.
pub(crate) fn timeout_value(text: &str) -> Result<u16, WordFault<'_>>
    ensures { MatchResult result
        (λ seconds. timeout_of text.now ≡ Ok seconds)
        (λ fault. timeout_of text.now ≡ Err (fault_parts fault)) }
{
    let fault = WordFault::BadTimeout(text);
    short(decimal(text), fault, fault)
}

/// The number, if it has 16 bits: otherwise the fault of a text that is none, or that of a larger number.
fn short<'a>(
    number: Option<u32>,
    bad: WordFault<'a>,
    large: WordFault<'a>,
) -> Result<u16, WordFault<'a>>
    ensures { MatchResult result
        (λ short. short_of (fault_parts bad.entry) (fault_parts large.entry) number ≡ Ok short)
        (λ fault. short_of (fault_parts bad.entry) (fault_parts large.entry) number ≡ Err (fault_parts fault)) }
{
    match number {
        None => Err(bad),
        Some(number) => match u16::try_from(number) {
            Ok(short) => Ok(short),
            Err(_) => Err(large),
        },
    }
}

/// The number of the partition that is the value of `-p`.
pub(crate) fn part_value(text: &str) -> Result<u32, WordFault<'_>>
    ensures { MatchResult result
        (λ number. part_of text.now ≡ Ok number)
        (λ fault. part_of text.now ≡ Err (fault_parts fault)) }
{
    match decimal(text) {
        Some(number) => Ok(number),
        None => Err(WordFault::BadPart(text)),
    }
}

/// Whether the value of `-v` asks for more lines.
pub(crate) fn verbose_value(text: &str) -> Result<bool, WordFault<'_>>
    ensures { MatchResult result
        (λ more. verbose_of text.now ≡ Ok more)
        (λ fault. verbose_of text.now ≡ Err (fault_parts fault)) }
{
    match decimal(text) {
        Some(level) => Ok(level > 0),
        None => Err(WordFault::BadVerbose(text)),
    }
}

/// Looks at the value of `-e`: the short form of a path is the only one that is made.
pub(crate) fn check_edd(text: &str) -> Result<(), WordFault<'_>>
    ensures { MatchResult result
        (λ _. edd_fault text.now ≡ None)
        (λ fault. edd_fault text.now ≡ Some (fault_parts fault)) }
{
    match behind_hyphen(text) {
        Some(number) => check_edd_number(text, true, decimal(number)),
        None => check_edd_number(text, false, decimal(text)),
    }
}

/// Looks at the number of a form, which is behind a minus or not.
fn check_edd_number(text: &str, minus: bool, number: Option<u32>) -> Result<(), WordFault<'_>>
    ensures { MatchResult result
        (λ _. edd_number text.now minus number ≡ None)
        (λ fault. edd_number text.now minus number ≡ Some (fault_parts fault)) }
{
    let Some(number) = number else {
        return Err(WordFault::BadEdd(text));
    };
    if number == 0 || (minus && number == 1) {
        Ok(())
    } else if !minus && (number == 1 || number == 3) {
        Err(WordFault::LongPath(text))
    } else {
        Err(WordFault::UnknownEdd(text))
    }
}

/// The numbers that are the value of `-o`, with a comma between two.
pub(crate) fn order_value<'a>(alloc: Global, text: &'a str) -> Result<Vec<u16>, ValueFault<'a>>
    ensures { MatchResult result
        (λ numbers. order_of text.now ≡ Ok numbers.items)
        (λ fault. IsRefusal fault (order_of text.now)) }
{
    let mut numbers = Vec::new(alloc);
    let mut rest = Some(text);
    while let Some(left) = rest {
        let (word, behind) = cut(left, ',');
        let number = order_number(word)?;
        numbers.push(number)?;
        rest = behind;
    }
    Ok(numbers)
}

/// The number of an entry that is between two commas.
fn order_number(word: &str) -> Result<u16, WordFault<'_>>
    ensures { MatchResult result
        (λ number. order_number word.now ≡ Ok number)
        (λ fault. order_number word.now ≡ Err (fault_parts fault)) }
{
    let fault = WordFault::BadOrder(word);
    short(hexadecimal(word), fault, fault)
}
