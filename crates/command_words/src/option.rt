//! Load options of words.

ghost use Rattle.std.specs.Prelude.{◌≡◌, ◌≢◌, flat_map, map, IfOk, IfErr};
ghost use Rattle.std.specs.Char.Escape.{encode_utf16};
ghost use Rattle.std.specs.List.{list_any};
ghost use Rattle.std.specs.Str.{chars};
ghost use Rattle.uefi_path.specs.Units.{units_bytes};
ghost use Rattle.uefi_option.specs.LoadOption.{OptionParts, SpellsOption};
ghost use Rattle.uefi_names.specs.Standard.{standard_table};
ghost use Rattle.uefi_names.specs.Reading.{IsNamedText};
ghost use Rattle.command_words.specs.OptionOfWords.{bit_if, said_attributes, node_has_slash, has_slashes, IsPathText, ArePathTexts, ArePaths, IsOptionOfWords};
ghost use Rattle.uefi_names.specs.declared.fault.NamedFault.TheVariants as named_fault;
ghost use Rattle.command_words.specs.declared.option.OptionWordsFault.TheVariants as words_fault;
ghost use Rattle.command_words.specs.OptionWordsFault.{of_option, of_description, StandsForNone, IsTextFault, IsTextsFault, IsOptionFault, IsWordsFault};

use std::alloc::{AllocError, AllocFailed, Global};
use thiserror::Error;
use uefi_names::{NamedFault, read_named_text};
use uefi_option::{
    ACTIVE, CATEGORY_APP, FORCE_RECONNECT, HIDDEN, OptionFault, make_option, write_option,
};
use uefi_path::{Node, Path, append_units, check_path};
use uefi_text::TextFault;
use value_texts::{
    DescriptionFault, FaultReason, append_text_units, description_units, named_reason, option_words,
};

/// What is said of a word in a path that is neither a node nor the name of a file.
const PLAIN_NAME: &str =
    "there is neither a node, with parentheses, nor a file name with backslashes, as \\EFI\\BOOT\\BOOTX64.EFI";

/// What a load option is made of (UEFI 2.10, 3.1.3).
#[derive(Clone, Copy, Debug)]
pub struct OptionWords<'a> {
    /// The attributes, all 32 bits.
    pub attributes: u32,
    /// The description as text, in which a backslash, `u` and four hexadecimal digits are the unit of UTF-16 of this number,
    /// as in JSON. Any other backslash is itself.
    pub description: &'a str,
    /// The device paths.
    pub paths: OptionPaths<'a>,
    /// The optional data.
    pub optional: &'a [u8],
}

/// What the device paths of a load option are made of.
#[derive(Clone, Copy, Debug)]
pub enum OptionPaths<'a> {
    /// The text of each.
    Texts(&'a [&'a str]),
    /// The paths themselves.
    Paths(&'a [Path]),
}

/// What is said of a load option's attributes, one bit each (UEFI 2.10, 3.1.3).
#[derive(Clone, Copy, Debug, Default)]
pub struct Flags {
    /// The boot manager doesn't try the option by itself: LOAD_OPTION_ACTIVE is left out.
    pub inactive: bool,
    /// A menu leaves the option out: LOAD_OPTION_HIDDEN.
    pub hidden: bool,
    /// The option is an application that the user starts: LOAD_OPTION_CATEGORY_APP.
    pub app: bool,
    /// All drivers are connected again after the option's driver is loaded: LOAD_OPTION_FORCE_RECONNECT.
    pub reconnect: bool,
}

/// Why no load option is made of words. A path is told by its number, counted from 1.
#[derive(Debug, Drop, Error)]
pub enum OptionWordsFault {
    /// A path is empty.
    #[error("path {0} is empty: it leads nowhere")]
    EmptyPath(usize),
    /// A path is given by its bytes in hexadecimal digits.
    #[error("path {0} is the bytes of a path: give its text, as `bootkeep path` shows it")]
    PathOfBytes(usize),
    /// The name of a file in a path has slashes.
    #[error("path {0}: firmware takes no slashes in the name of a file: write backslashes, as \\EFI\\BOOT\\BOOTX64.EFI")]
    Slashes(usize),
    /// A text stands for no path. The characters of its fault are counted from 0.
    #[error("path {path}: {fault}: at that character, counted from 0, {reason}")]
    Path {
        /// The number of the path.
        path: usize,
        /// The fault of its text, with the place.
        fault: NamedFault,
        /// The fault in plain words.
        reason: FaultReason,
    },
    /// The description has an escape that is none.
    #[error("the description: {0}")]
    Description(DescriptionFault),
    /// The parts make no load option.
    #[error("{0}: {reason}", reason = option_words(.0))]
    Option(OptionFault),
    /// Memory was refused.
    #[error("out of memory")]
    OutOfMemory,
}

impl From<AllocError> for OptionWordsFault {
    ghost from_gives = { λ _ made. made ≡ words_fault.OutOfMemory };

    fn from(_refusal: AllocError) -> OptionWordsFault {
        OptionWordsFault::OutOfMemory
    }
}

impl<T: Drop> From<AllocFailed<T>> for OptionWordsFault {
    ghost from_gives = { λ _ made. made ≡ words_fault.OutOfMemory };

    fn from(_refusal: AllocFailed<T>) -> OptionWordsFault {
        OptionWordsFault::OutOfMemory
    }
}

impl From<OptionFault> for OptionWordsFault {
    ghost from_gives = { λ fault made. made ≡ of_option fault };

    fn from(fault: OptionFault) -> OptionWordsFault {
        match fault {
            OptionFault::OutOfMemory => OptionWordsFault::OutOfMemory,
            fault => OptionWordsFault::Option(fault),
        }
    }
}

impl From<DescriptionFault> for OptionWordsFault {
    ghost from_gives = { λ fault made. made ≡ of_description fault };

    fn from(fault: DescriptionFault) -> OptionWordsFault {
        match fault {
            DescriptionFault::OutOfMemory => OptionWordsFault::OutOfMemory,
            fault => OptionWordsFault::Description(fault),
        }
    }
}

/// The attributes of a load option of which this is said (UEFI 2.10, 3.1.3).
pub fn attribute_bits(flags: Flags) -> u32
    ensures { result ≡ said_attributes flags }
{
    bit_if(!flags.inactive, ACTIVE)
        | bit_if(flags.hidden, HIDDEN)
        | bit_if(flags.app, CATEGORY_APP)
        | bit_if(flags.reconnect, FORCE_RECONNECT)
}

/// A bit, if something is so.
fn bit_if(is_so: bool, bit: u32) -> u32
    ensures { result ≡ bit_if is_so bit }
{
    if is_so { bit } else { 0 }
}

/// The bytes of the load option of these words (UEFI 2.10, 3.1.3). The description becomes units of UTF-16, and the text
/// of a path is read as `uefi_names` reads it. So the description of each option is had again from the one that its JSON
/// has, unless that has `description_hex` beside it.
///
/// # Errors
///
/// The fault of the first text of a path that has one: [`OptionWordsFault::EmptyPath`] if it is empty,
/// [`OptionWordsFault::PathOfBytes`] if it is bytes of a path in hexadecimal digits, [`OptionWordsFault::Slashes`] if
/// the name of a file in it has slashes, which firmware takes for no folder, and [`OptionWordsFault::Path`] if it stands
/// for no path. Otherwise [`OptionWordsFault::Description`] if a backslash in the description looks like an escape and is
/// none; otherwise [`OptionWordsFault::Option`] with [`OptionFault::ZeroUnit`] if the description has a zero
/// character, with [`OptionFault::EmptyList`] if there is no path, or with [`OptionFault::ListTooLong`] if the paths
/// have more than 65,535 bytes together. [`OptionWordsFault::OutOfMemory`] comes if memory was refused, also before
/// these.
pub fn option_bytes(alloc: Global, words: &OptionWords<'_>) -> Result<Vec<u8>, OptionWordsFault>
    ensures found { IfOk result (λ bytes.
        (option : OptionParts) × IsOptionOfWords words.now option × SpellsOption bytes.items option) }
    ensures fault { IfErr result (λ f. f ≢ words_fault.OutOfMemory → IsWordsFault words.now f) }
{
    match words.paths {
        OptionPaths::Texts(texts) => option_of(alloc, words, &read_paths(alloc, texts)?),
        OptionPaths::Paths(paths) => option_of(alloc, words, paths),
    }
}

/// The bytes of the load option of these words, which has these paths.
fn option_of(
    alloc: Global,
    words: &OptionWords<'_>,
    paths: &[Path],
) -> Result<Vec<u8>, OptionWordsFault>
    ensures found { IfOk result (λ bytes. ArePaths words.now.paths paths.now →
        (option : OptionParts) × IsOptionOfWords words.now option × SpellsOption bytes.items option) }
    ensures fault { IfErr result (λ f. f ≢ words_fault.OutOfMemory → IsOptionFault words.now.description.now paths.now f) }
{
    let description = description_units(alloc, words.description)?;
    let option = make_option(alloc, words.attributes, &description, paths, words.optional)?;
    Ok(write_option(alloc, &option)?)
}

/// A text as optional data: its units of UTF-16, two bytes each, little-endian, without a zero unit after them, as
/// `efibootmgr -u` stores it. This fails only when out of memory.
pub fn optional_text(alloc: Global, text: &str) -> Result<Vec<u8>, AllocError>
    ensures { IfOk result (λ bytes. bytes.items ≡ units_bytes (flat_map encode_utf16 (chars text.now))) }
{
    let mut bytes = Vec::new(alloc);
    let mut units = Vec::new(alloc);
    append_text_units(text, &mut units)?;
    append_units(&units, &mut bytes)?;
    Ok(bytes)
}

/// The text of a path with one backslash in the place of each run of them, as a path of UEFI has them, or `None` if it has
/// no run. A text that was escaped for a shell or for JSON has them doubled. This fails only when out of memory.
pub fn single_backslashes(alloc: Global, text: &str) -> Result<Option<String>, AllocError> {
    if !text.contains("\\\\") {
        return Ok(None);
    }
    let mut single = String::with_capacity(alloc, text.len())?;
    let mut before = ' ';
    for character in text.chars() {
        if (before, character) != ('\\', '\\') {
            single.push(character)?;
        }
        before = character;
    }
    Ok(Some(single))
}

/// The paths that the texts stand for.
fn read_paths(alloc: Global, texts: &[&str]) -> Result<Vec<Path>, OptionWordsFault>
    ensures found { IfOk result (λ paths. ArePathTexts (map (λ text. text.now) texts.now) paths.items) }
    ensures fault { IfErr result (λ f. f ≢ words_fault.OutOfMemory → IsTextsFault (map (λ text. text.now) texts.now) f) }
{
    let mut paths = Vec::with_capacity(alloc, texts.len())?;
    for text in texts {
        let number = paths.len().saturating_add(1);
        paths.push(read_path(alloc, text, number)?)?;
    }
    Ok(paths)
}

/// The path that a text stands for, which is read as those of [`option_bytes`] are.
///
/// # Errors
///
/// As of [`option_bytes`], of which the path is the first.
pub fn path_of_text(alloc: Global, text: &str) -> Result<Path, OptionWordsFault>
    ensures { IfOk result (λ path. IsNamedText standard_table text.now path) }
{
    read_path(alloc, text, 1)
}

/// The path that a text stands for, which is the one of this number.
fn read_path(alloc: Global, text: &str, number: usize) -> Result<Path, OptionWordsFault>
    ensures found { IfOk result (λ path. IsPathText text.now path) }
    ensures fault { IfErr result (λ f. f ≢ words_fault.OutOfMemory → IsTextFault text.now number f) }
{
    if text.is_empty() {
        return Err(OptionWordsFault::EmptyPath(number));
    }
    match read_named_text(alloc, text) {
        Ok(path) if has_slashes(&path) => Err(OptionWordsFault::Slashes(number)),
        Ok(path) => Ok(path),
        Err(fault) => Err(text_fault(alloc, text, number, fault)),
    }
}

/// Whether the name of a file in the path has slashes.
fn has_slashes(path: &Path) -> bool
    ensures { result ≡ has_slashes path.now }
{
    any_has_slash(path.instances())
}

/// Whether the name of a file in the instances has slashes.
fn any_has_slash(instances: &[Vec<Node>]) -> bool
    ensures { result ≡ list_any (λ nodes. list_any node_has_slash nodes.items) instances.now }
{
    instances.iter().any(has_slash)
}

/// Whether the name of a file in an instance has slashes.
fn has_slash(nodes: &Vec<Node>) -> bool
    ensures { result ≡ list_any node_has_slash nodes.now.items }
{
    nodes.iter().any(node_has_slash)
}

/// Whether a node is the name of a file with slashes.
fn node_has_slash(node: &Node) -> bool
    ensures { result ≡ node_has_slash node.now }
{
    match node {
        Node::FilePath(file) => file.units().contains(&u16::from(b'/')),
        _ => false,
    }
}

/// What is told of a text with this fault, of the path of this number.
fn text_fault(alloc: Global, text: &str, number: usize, fault: NamedFault) -> OptionWordsFault
    ensures { (fault ≢ named_fault.OutOfMemory → StandsForNone text.now) → result ≢ words_fault.OutOfMemory →
        IsTextFault text.now number result }
{
    if matches!(fault, NamedFault::OutOfMemory) {
        return OptionWordsFault::OutOfMemory;
    }
    if is_path_of_bytes(alloc, text) {
        return OptionWordsFault::PathOfBytes(number);
    }
    let reason = if is_plain_name(text, fault) {
        FaultReason::Words(PLAIN_NAME)
    } else {
        named_reason(&fault)
    };
    OptionWordsFault::Path {
        path: number,
        fault,
        reason,
    }
}

/// Whether the text is the hexadecimal digits of bytes that begin with a path. If there is no memory for them, it is
/// taken for something else.
fn is_path_of_bytes(alloc: Global, text: &str) -> bool {
    match hex::decode(alloc, text) {
        Ok(bytes) => check_path(&bytes).is_ok(),
        Err(_) => false,
    }
}

/// Whether what is at the place of the fault has neither parentheses nor a backslash before it, as `EFI` in
/// `HD(..)/EFI/BOOT/BOOTX64.EFI`. A slash may come before it.
fn is_plain_name(text: &str, fault: NamedFault) -> bool {
    let (NamedFault::BadSegment(place) | NamedFault::Exact(TextFault::BadSegment(place))) = fault
    else {
        return false;
    };
    let Some(rest) = text.get(place..) else {
        return false;
    };
    let rest = rest.trim_start_matches('/');
    let segment = rest.split(['/', ',']).next().unwrap_or(rest);
    !segment.is_empty() && !segment.contains(['(', ')'])
}
