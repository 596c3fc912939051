//! What is given by the words of a command line.

ghost use Rattle.std.specs.Prelude.{◌≡◌, ◌==◌, map, filter, Ok, Err, Some, IfOk, MatchResult};
ghost use Rattle.std.specs.Option.{option_copied, option_map};
ghost use Rattle.std.specs.List.{find, starts_with};
ghost use Rattle.std.specs.Cmp.Lexicographic.{pointwise};
ghost use Rattle.std.specs.Str.{chars};
ghost use Rattle.std.specs.String.{string_bytes};
ghost use Rattle.efibootmgr_words.specs.Cut.{behind_hyphen};
ghost use Rattle.efibootmgr_words.specs.Parts.{given_parts, fault_parts};
ghost use Rattle.efibootmgr_words.specs.Words.{IsAdded, behind_parts, word_parts, free_by, hyphened_parts, letters_parts, name_parts, named_by, own_value, value_parts, one_option, row_of_letter, row_of_name, only_row, fault_at_end, given_of};

use crate::cut::{behind_hyphen, cut};
use crate::fault::WordFault;
use crate::option_table::{Choice, OptionRow, Takes};
use std::alloc::{AllocError, Global};

/// An option that is given.
#[derive(Clone, Copy, Debug, PartialEq, Eq)]
pub struct GivenOption<'a> {
    /// What it is.
    pub choice: Choice,
    /// Its value, if one belongs to it.
    pub value: Option<&'a str>,
}

/// What words give, up to the first that is wrong.
#[derive(Debug, Drop)]
pub struct Given<'a> {
    /// The options, in the order of the words.
    pub options: Vec<GivenOption<'a>>,
    /// The words that belong to no option.
    pub others: Vec<&'a str>,
    /// What is wrong with the first wrong word.
    pub fault: Option<WordFault<'a>>,
}

/// What the words behind one are.
#[derive(Clone, Copy)]
enum Behind<'a> {
    /// Options and others.
    Any,
    /// First the value of this option.
    ValueOf(OptionRow),
    /// Others alone.
    Others,
    /// They aren't read, since a word is wrong.
    Unread(WordFault<'a>),
}

/// What the words give, as getopt_long reads them by a table of options: a word that begins with a hyphen and has more than
/// that is letters of options, one that begins with two is the name of one, or so much of it that no other begins so, and
/// perhaps `=` and a value; and behind a word of two hyphens alone none is an option. Options may stand behind other words.
///
/// # Errors
///
/// [`AllocError`] if memory was refused.
pub fn read_words<'a>(
    alloc: Global,
    table: &[OptionRow],
    words: &'a [String],
) -> Result<Given<'a>, AllocError>
    ensures { IfOk result (λ given. given_parts given ≡ given_of table.now (map string_bytes words.now)) }
{
    let mut given = Given {
        options: Vec::new(alloc),
        others: Vec::new(alloc),
        fault: None,
    };
    let mut behind = Behind::Any;
    for word in words {
        behind = read_word(table, behind, word.as_str(), &mut given)?;
    }
    given.fault = fault_at_end(behind);
    Ok(given)
}

/// What is wrong if no more words come.
fn fault_at_end(behind: Behind<'_>) -> Option<WordFault<'_>>
    ensures { option_map fault_parts result ≡ fault_at_end (behind_parts behind.entry) }
{
    match behind {
        Behind::Any | Behind::Others => None,
        Behind::ValueOf(row) => Some(WordFault::NoValue(row.name)),
        Behind::Unread(fault) => Some(fault),
    }
}

/// Reads a word behind others, which say what it is.
fn read_word<'a>(
    table: &[OptionRow],
    behind: Behind<'a>,
    word: &'a str,
    given: &mut Given<'a>,
) -> Result<Behind<'a>, AllocError>
    ensures { IfOk result (λ next. IsAdded (word_parts table.now (behind_parts behind.entry) word.now) given.old given.new next) }
{
    match behind {
        Behind::Any => read_free(table, word, given),
        Behind::ValueOf(row) => add_option(given, row.choice, Some(word)),
        Behind::Others => {
            given.others.push(word)?;
            Ok(Behind::Others)
        }
        Behind::Unread(fault) => Ok(Behind::Unread(fault)),
    }
}

/// Reads a word that may be an option.
fn read_free<'a>(
    table: &[OptionRow],
    word: &'a str,
    given: &mut Given<'a>,
) -> Result<Behind<'a>, AllocError>
    ensures { IfOk result (λ next. IsAdded (free_by table.now word.now (behind_hyphen word.now)) given.old given.new next) }
{
    match behind_hyphen(word) {
        Some(rest) if !rest.is_empty() => read_hyphened(table, rest, given),
        _ => {
            given.others.push(word)?;
            Ok(Behind::Any)
        }
    }
}

/// Reads what is behind the hyphen of a word.
fn read_hyphened<'a>(
    table: &[OptionRow],
    rest: &'a str,
    given: &mut Given<'a>,
) -> Result<Behind<'a>, AllocError>
    ensures { IfOk result (λ next. IsAdded (hyphened_parts table.now rest.now (behind_hyphen rest.now)) given.old given.new next) }
{
    match behind_hyphen(rest) {
        None => read_letters(table, rest, given),
        Some(name) if name.is_empty() => Ok(Behind::Others),
        Some(name) => read_name(table, name, given),
    }
}

/// Reads letters of options, of which the last may have a value: the rest of its word, or the next one.
fn read_letters<'a>(
    table: &[OptionRow],
    letters: &'a str,
    given: &mut Given<'a>,
) -> Result<Behind<'a>, AllocError>
    ensures { IfOk result (λ next. IsAdded (letters_parts table.now (chars letters.now)) given.old given.new next) }
{
    let mut rest = letters.chars();
    while let Some(letter) = rest.next() {
        let Some(row) = row_of_letter(table, letter) else {
            return Ok(Behind::Unread(WordFault::UnknownLetter(letter)));
        };
        match row.takes {
            Takes::Nothing => given.options.push(GivenOption {
                choice: row.choice,
                value: None,
            })?,
            Takes::Value | Takes::Perhaps => return read_value(
                *row,
                own_value(rest.as_str()),
                given,
            ),
        }
    }
    Ok(Behind::Any)
}

/// The value that the rest of a word is, if there is some.
fn own_value(rest: &str) -> Option<&str>
    ensures { option_map (λ value. value.now) result ≡ own_value (chars rest.now) }
{
    if rest.is_empty() { None } else { Some(rest) }
}

/// Reads the name of an option, and perhaps its value: what is behind `=`, or the next word.
fn read_name<'a>(
    table: &[OptionRow],
    word: &'a str,
    given: &mut Given<'a>,
) -> Result<Behind<'a>, AllocError>
    ensures { IfOk result (λ next. IsAdded (name_parts table.now word.now) given.old given.new next) }
{
    let (name, value) = cut(word, '=');
    match row_of_name(table, name) {
        Ok(row) => read_named(row, value, given),
        Err(fault) => Ok(Behind::Unread(fault)),
    }
}

/// Adds an option that is named, with the value that its word has.
fn read_named<'a>(
    row: OptionRow,
    own: Option<&'a str>,
    given: &mut Given<'a>,
) -> Result<Behind<'a>, AllocError>
    ensures { IfOk result (λ next. IsAdded (named_by row.takes row (option_map (λ value. value.now) own.entry)) given.old given.new next) }
{
    match (row.takes, own) {
        (Takes::Nothing, Some(_)) => Ok(Behind::Unread(WordFault::ExtraValue(row.name))),
        _ => read_value(row, own, given),
    }
}

/// Adds an option with the value that its word has, or else with the next word, if it needs a value.
fn read_value<'a>(
    row: OptionRow,
    own: Option<&'a str>,
    given: &mut Given<'a>,
) -> Result<Behind<'a>, AllocError>
    ensures { IfOk result (λ next. IsAdded (value_parts row (option_map (λ value. value.now) own.entry)) given.old given.new next) }
{
    match (row.takes, own) {
        (Takes::Value, None) => Ok(Behind::ValueOf(row)),
        _ => add_option(given, row.choice, own),
    }
}

/// Adds an option, behind which words may be all.
fn add_option<'a>(
    given: &mut Given<'a>,
    choice: Choice,
    value: Option<&'a str>,
) -> Result<Behind<'a>, AllocError>
    ensures { IfOk result (λ next. IsAdded (one_option choice (option_map (λ value. value.now) value.entry)) given.old given.new next) }
{
    given.options.push(GivenOption { choice, value })?;
    Ok(Behind::Any)
}

/// The row of a letter. A blank is none.
fn row_of_letter(table: &[OptionRow], letter: char) -> Option<&OptionRow>
    ensures { option_copied result ≡ row_of_letter table.now letter }
{
    if letter == NO_LETTER {
        None
    } else {
        row_with_letter(table, letter)
    }
}

/// The first row that has this letter.
fn row_with_letter(table: &[OptionRow], letter: char) -> Option<&OptionRow>
    ensures { option_copied result ≡ find (λ row. row.letter == letter) table.now }
{
    table.iter().find(|row| row.letter == letter)
}

/// What the table has in the place of the letter of an option that has none.
const NO_LETTER: char = ' ';

/// The row of a name, or of the only one that begins so.
fn row_of_name<'a>(table: &[OptionRow], name: &'a str) -> Result<OptionRow, WordFault<'a>>
    ensures { MatchResult result
        (λ row. row_of_name table.now name.now ≡ Ok row)
        (λ fault. row_of_name table.now name.now ≡ Err (fault_parts fault)) }
{
    match row_with_name(table, name) {
        Some(row) => Ok(*row),
        None => only_row(table, name),
    }
}

/// The first row that has this name.
fn row_with_name<'a>(table: &'a [OptionRow], name: &str) -> Option<&'a OptionRow>
    ensures { option_copied result ≡ find (λ row. pointwise ◌==◌ row.name.now name.now) table.now }
{
    table.iter().find(|row| row.name == name)
}

/// The only row whose name begins so.
fn only_row<'a>(table: &[OptionRow], name: &'a str) -> Result<OptionRow, WordFault<'a>>
    ensures { MatchResult result
        (λ row. only_row name.now (filter (λ row. starts_with ◌==◌ row.name.now name.now) table.now) ≡ Ok row)
        (λ fault. only_row name.now (filter (λ row. starts_with ◌==◌ row.name.now name.now) table.now) ≡ Err (fault_parts fault)) }
{
    let mut found = None;
    for row in table {
        if begins_with(row, name) {
            if found.is_some() {
                return Err(WordFault::Ambiguous(name));
            }
            found = Some(*row);
        }
    }
    found.ok_or(WordFault::UnknownName(name))
}

/// Whether the name of a row begins so.
fn begins_with(row: &OptionRow, name: &str) -> bool
    ensures { result ≡ starts_with ◌==◌ row.now.name.now name.now }
{
    row.name.starts_with(name)
}
