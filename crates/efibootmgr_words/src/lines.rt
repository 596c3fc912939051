//! The lines that show a machine's boot variables.

ghost use Rattle.std.specs.Prelude.{◌≡◌, ◌<◌, ◌∷◌, ◌++◌, [], ℕ, List, length, drop, Some, IfOk, IfSome, IfNone, OnOk};
ghost use Rattle.std.specs.Int.{w16, from_le_bytes};
ghost use Rattle.std.specs.FinMap.{get, entries};
ghost use Rattle.std.specs.Option.{option_map};
ghost use Rattle.std.specs.String.{string_bytes};
ghost use Rattle.uefi_vars.specs.Name.{four_digits};
ghost use Rattle.uefi_option.specs.LoadOption.{OptionParts};
ghost use Rattle.uefi_option.specs.View.{ShowsOption};
ghost use Rattle.efibootmgr_words.specs.Lines.{number_in, digits_line, seconds_line, number_lines, order_words, no_order, order_line};
ghost use Rattle.efibootmgr_words.specs.Listing.{star_of, front_text, printable, printed, IsFirstPath, IsPartsText, IsOptionText, IsEntry, Appends, AppendsVariable, AppendsEntries, IsListing};

use crate::efivar_path::efivar_text;
use crate::units::append_units;
use std::alloc::{AllocError, Global};
use uefi_option::{OptionView, check_option, is_active};
use uefi_path::{read_path, read_units};
use uefi_vars::{
    BOOT_NEXT, BOOT_ORDER, EntryFamily, EntryNameIn, TIMEOUT, Vars, entry_name, entry_number,
};

/// The variable with the entry that was started, which firmware sets (UEFI 2.10, 3.3).
const BOOT_CURRENT: &str = "BootCurrent";

/// The bytes of an entry before its description: its attributes and the length of its list (UEFI 2.10, 3.1.3).
const HEADER_LEN: usize = 6;

/// What is listed.
#[derive(Debug, Drop)]
pub struct Listing {
    /// The lines.
    pub text: String,
    /// The entries of which less is listed, by rising number: they are no load options.
    pub faulty: Vec<u16>,
}

/// How variables are listed.
#[derive(Clone, Copy, Debug, PartialEq, Eq)]
pub struct ListForm {
    /// Whose entries they are. Those of another family than the boot manager's have its names, and are listed by their own.
    pub family: EntryFamily,
    /// Whether paths and optional data are listed too.
    pub verbose: bool,
}

/// The lines that show the variables of a machine: BootNext, BootCurrent, Timeout and BootOrder, each if it is there and as long
/// as it has to be, and then each entry, with a star if it is active. If it is asked for, an entry's first path follows its
/// description, behind a tab, and right behind the path its optional data, with a dot for each byte that doesn't print. An entry
/// that is no load option is shown as far as it can be read. This fails only when out of memory.
pub fn list_vars(alloc: Global, vars: &Vars, form: ListForm) -> Result<Listing, AllocError>
    ensures { IfOk result (λ listing. IsListing form vars.now listing) }
{
    let mut listing = Listing {
        text: String::new(alloc),
        faulty: Vec::new(alloc),
    };
    append_numbers(vars, &mut listing.text)?;
    append_order(form.family, vars.get(BOOT_ORDER), &mut listing.text)?;
    append_entries(alloc, &mut listing, vars, form)?;
    Ok(listing)
}

/// Appends the lines of the entries among variables.
fn append_entries(
    alloc: Global,
    listing: &mut Listing,
    vars: &Vars,
    form: ListForm,
) -> Result<(), AllocError>
    ensures { OnOk result (AppendsEntries form (entries vars.now) listing.old listing.new) }
{
    for (name, bytes) in vars.iter() {
        append_variable(alloc, listing, name, bytes, form)?;
    }
    Ok(())
}

/// Appends the line of a variable, if it is an entry.
fn append_variable(
    alloc: Global,
    listing: &mut Listing,
    name: &str,
    bytes: &[u8],
    form: ListForm,
) -> Result<(), AllocError>
    ensures { OnOk result (AppendsVariable form (name.now, bytes.now) listing.old listing.new) }
{
    match entry_number(name) {
        Some(number) => append_entry(alloc, listing, number, bytes, form),
        None => Ok(()),
    }
}

/// Appends the lines of the variables that are one number.
fn append_numbers(vars: &Vars, text: &mut String) -> Result<(), AllocError>
    ensures { OnOk result (string_bytes text.new ≡ string_bytes text.old ++ number_lines vars.now) }
{
    append_digits_line(BOOT_NEXT, number_of(vars, BOOT_NEXT), text)?;
    append_digits_line(BOOT_CURRENT, number_of(vars, BOOT_CURRENT), text)?;
    append_seconds_line(number_of(vars, TIMEOUT), text)
}

/// The number that a variable of two bytes has.
fn number_of(vars: &Vars, name: &str) -> Option<u16>
    ensures { result ≡ number_in (get vars.now name.now) }
{
    match vars.get(name)? {
        [low, high] => Some(u16::from_le_bytes([*low, *high])),
        _ => None,
    }
}

/// Appends a line with the name of a variable and its number in four hexadecimal digits, if it has one.
fn append_digits_line(name: &str, number: Option<u16>, text: &mut String) -> Result<(), AllocError>
    ensures { OnOk result (string_bytes text.new ≡ string_bytes text.old ++ digits_line name.now number) }
{
    let Some(number) = number else {
        return Ok(());
    };
    text.push_str(name)?;
    text.push_str(": ")?;
    append_digits(number, text)?;
    text.push('\n')
}

/// Appends the line of Timeout, if it is this number.
fn append_seconds_line(seconds: Option<u16>, text: &mut String) -> Result<(), AllocError>
    ensures { OnOk result (string_bytes text.new ≡ string_bytes text.old ++ seconds_line seconds) }
{
    let Some(seconds) = seconds else {
        return Ok(());
    };
    write!(text, "Timeout: {seconds} seconds\n")?;
    Ok(())
}

/// Appends the four hexadecimal digits that the name of the entry of this number has.
fn append_digits(number: u16, text: &mut String) -> Result<(), AllocError>
    ensures { OnOk result (string_bytes text.new ≡ string_bytes text.old ++ four_digits number) }
{
    let [_, _, _, _, a, b, c, d] = entry_name(number);
    text.push(char::from(a))?;
    text.push(char::from(b))?;
    text.push(char::from(c))?;
    text.push(char::from(d))
}

/// Appends the line of the order of a family, which has these bytes.
fn append_order(
    family: EntryFamily,
    bytes: Option<&[u8]>,
    text: &mut String,
) -> Result<(), AllocError>
    ensures { OnOk result (string_bytes text.new
        ≡ string_bytes text.old ++ order_line family (option_map (λ b. b.now) bytes.entry)) }
{
    match bytes {
        Some(bytes) => append_order_of(family, bytes, text),
        None => text.push_str(no_order(family)),
    }
}

/// The line of an order that isn't there.
fn no_order(family: EntryFamily) -> &'static str
    ensures { result.now ≡ no_order family }
{
    match family {
        EntryFamily::Boot => "No BootOrder is set; firmware will attempt recovery\n",
        EntryFamily::Driver => "No DriverOrder is set\n",
        EntryFamily::SysPrep => "No SysPrepOrder is set\n",
    }
}

/// Appends the line of an order that is there.
fn append_order_of(family: EntryFamily, bytes: &[u8], text: &mut String) -> Result<(), AllocError>
    ensures { OnOk result (string_bytes text.new ≡ string_bytes text.old ++ order_line family (Some bytes.now)) }
{
    text.push_str(family.prefix())?;
    text.push_str("Order: ")?;
    append_order_words(bytes, text)?;
    text.push('\n')
}

/// Appends the numbers of an order, with a comma between two.
fn append_order_words(bytes: &[u8], text: &mut String) -> Result<(), AllocError>
    ensures { OnOk result (string_bytes text.new ≡ string_bytes text.old ++ order_words [] bytes.now) }
{
    let mut rest = bytes;
    let mut comma = "";
    while let Some((number, behind)) = split_number(rest) {
        text.push_str(comma)?;
        append_digits(number, text)?;
        comma = ",";
        rest = behind;
    }
    Ok(())
}

/// The number that the first two bytes are, and the bytes after them, if there are two.
fn split_number(bytes: &[u8]) -> Option<(u16, &[u8])>
    ensures found { IfSome result (λ split. (low : ℕ) × (high : ℕ)
        × (bytes.now ≡ low ∷ high ∷ split.1.now) × (split.0 ≡ from_le_bytes w16 (low ∷ high ∷ []))) }
    ensures none { IfNone result (length bytes.now < 2) }
{
    match bytes {
        [low, high, behind @ ..] => Some((u16::from_le_bytes([*low, *high]), behind)),
        _ => None,
    }
}

/// Appends the line of the entry with this number and this data.
fn append_entry(
    alloc: Global,
    listing: &mut Listing,
    number: u16,
    bytes: &[u8],
    form: ListForm,
) -> Result<(), AllocError>
    ensures { OnOk result ((line : List ℕ) × (bad : List ℕ) × IsEntry form number bytes.now line bad
        × Appends line bad listing.old listing.new) }
{
    append_front(
        alloc,
        EntryNameIn(form.family, number),
        bytes,
        &mut listing.text,
    )?;
    append_option(alloc, listing, number, bytes, form.verbose)?;
    listing.text.push('\n')
}

/// Appends what follows the description of an entry, or notes its number if it is no load option.
fn append_option(
    alloc: Global,
    listing: &mut Listing,
    number: u16,
    bytes: &[u8],
    verbose: bool,
) -> Result<(), AllocError>
    ensures { OnOk result ((more : List ℕ) × (bad : List ℕ) × IsOptionText verbose number bytes.now more bad
        × Appends more bad listing.old listing.new) }
{
    match check_option(bytes) {
        Ok(view) => append_parts(alloc, &view, verbose, &mut listing.text),
        Err(_) => Ok(listing.faulty.push(number)?),
    }
}

/// Appends the name of an entry, a star if it is active, and its description.
fn append_front(
    alloc: Global,
    name: EntryNameIn,
    bytes: &[u8],
    text: &mut String,
) -> Result<(), AllocError>
    ensures { OnOk result (string_bytes text.new ≡ string_bytes text.old ++ front_text name.0 name.1 bytes.now) }
{
    let EntryNameIn(family, number) = name;
    text.push_str(family.prefix())?;
    append_digits(number, text)?;
    text.push(star_of(bytes))?;
    text.push(' ')?;
    let units = read_units(alloc, behind_header(bytes))?;
    append_units(&units, text)
}

/// A star for the data of an active entry (UEFI 2.10, 3.1.3), otherwise a blank.
fn star_of(bytes: &[u8]) -> char
    ensures { result ≡ star_of bytes.now }
{
    match bytes.first() {
        Some(flags) if is_active(u32::from(*flags)) => '*',
        _ => ' ',
    }
}

/// The bytes after the attributes of an entry and the length of its list.
fn behind_header(bytes: &[u8]) -> &[u8]
    ensures { result.now ≡ drop 6 bytes.now }
{
    if bytes.len() < HEADER_LEN {
        return &[];
    }
    &bytes[HEADER_LEN..]
}

/// Appends a tab, the first path and the optional data of a load option, if they are asked for.
fn append_parts(
    alloc: Global,
    view: &OptionView<'_>,
    verbose: bool,
    text: &mut String,
) -> Result<(), AllocError>
    ensures { OnOk result ((option : OptionParts) → ShowsOption view.now option →
        (more : List ℕ) × IsPartsText verbose option more × (string_bytes text.new ≡ string_bytes text.old ++ more)) }
{
    if !verbose {
        return Ok(());
    }
    append_path(alloc, view.list, text)?;
    append_printable(view.optional, text)
}

/// Appends a tab and the first path of a list that has one.
fn append_path(alloc: Global, list: &[u8], text: &mut String) -> Result<(), AllocError>
    ensures { OnOk result ((path : List ℕ) × IsFirstPath list.now path × (string_bytes text.new ≡ string_bytes text.old ++ 9 ∷ path)) }
{
    text.push('\t')?;
    match read_path(alloc, list) {
        Ok((path, _)) => text.push_str(&efivar_text(alloc, &path)?),
        // A load option has a path, so memory was refused.
        Err(_) => Err(AllocError),
    }
}

/// Appends bytes as the characters that they are in ASCII, and a dot for each that doesn't print.
fn append_printable(bytes: &[u8], text: &mut String) -> Result<(), AllocError>
    ensures { OnOk result (string_bytes text.new ≡ string_bytes text.old ++ printable bytes.now) }
{
    for byte in bytes {
        text.push(printed(*byte))?;
    }
    Ok(())
}

/// A byte as the character that it is in ASCII, or a dot if that doesn't print.
fn printed(byte: u8) -> char
    ensures { result ≡ printed byte }
{
    match byte {
        b' '..=b'~' => char::from(byte),
        _ => '.',
    }
}
