//! The commands `option`, `frame` and `explain`, which make load options and requests, and show requests.

use boot_requests::InputFormat;
use bootvars_actions::{
    AttributeWords, Form, LoadOptionWords, LoaderWords, OptionalWords, PathWords, RequestWords,
};
use command_words::{
    DigitsFault, Flags, FrameWords, FrameWordsFault, OptionPaths, OptionWords, OptionWordsFault,
    attribute_bits, attributes_of_text, entry_of_digits, frame_bytes, frame_line, number_of_digits,
    option_bytes, optional_text, seconds_of_digits, single_backslashes,
};
use disk_files::{disk_path, loader_path};
use hex::FromHexError;
use messages::{Failure, Quoted, Reason, WrongWord, note, print};
use place_checks::{LoaderNote, note_of_file, note_of_path};
use request_texts::{explain_json, explain_report};
use std::alloc::{AllocError, Global};
use std::rt::Files;
use uefi_path::Path;
use var_places::{check_output, lock, name_of, no_option, read, write};
use whole_files::OutputFile;

/// Makes a file with the load option of these words. Tells on standard error which paths had doubled backslashes.
///
/// # Errors
///
/// Those of [`option_of_words`]; [`Failure::Refused`] if the file is one that the words name, and [`Failure::Write`] if the
/// option can't be written.
pub(crate) fn make_option<R: Files<File: OutputFile> + Input + Print + Eprint + AllocGlobal>(
    rt: &R,
    words: &LoadOptionWords<'_>,
    out: &str,
) -> Result<(), Failure> {
    let bytes = option_of_words(rt, words)?;
    let output = lock(rt, out)?;
    check_inputs(rt, words, out)?;
    write(rt, output, &bytes)
}

/// Refuses an output that is the file with the optional data, or the one that firmware is to load.
fn check_inputs<R: Files + AllocGlobal>(
    rt: &R,
    words: &LoadOptionWords<'_>,
    out: &str,
) -> Result<(), Failure> {
    if let OptionalWords::File(file) = words.optional {
        check_output(rt, out, file)?;
    }
    if let PathWords::Loader(
        LoaderWords {
            file,
            disk: None,
            root,
            ..
        },
    ) = words.paths
    {
        check_output(rt, out, below(rt.alloc(), root, file)?.as_str())?;
    }
    Ok(())
}

/// The path of a file below a root, which may be nothing. This fails only when out of memory.
fn below(alloc: Global, root: &str, file: &str) -> Result<String, AllocError> {
    if root.is_empty() {
        return String::from_str(alloc, file);
    }
    let slash = if file.starts_with('/') { "" } else { "/" };
    format!(in alloc; "{}{slash}{file}", root.trim_end_matches('/'))
}

/// The bytes of the load option of these words. Tells on standard error what was found of the file that firmware is to
/// load, if it is looked at.
///
/// # Errors
///
/// [`Failure::Words`] if a word isn't what it is to be; [`Failure::Read`] and [`Failure::Refused`] if the file with the
/// optional data can't be read or is too long, and those of [`loader_path`] and [`disk_path`]; [`Failure::Loader`] if
/// firmware doesn't start the file, and that isn't forced; and [`Failure::Memory`] if memory was refused.
pub(crate) fn option_of_words<R: Files + Input + Eprint + AllocGlobal>(
    rt: &R,
    words: &LoadOptionWords<'_>,
) -> Result<Vec<u8>, Failure> {
    let alloc = rt.alloc();
    let attributes = attributes(alloc, words.attributes)?;
    let optional = optional(rt, words.optional)?;
    match words.paths {
        PathWords::Texts(paths) => {
            let paths = single_texts(rt, paths)?;
            let paths = texts(alloc, &paths)?;
            let words = OptionWords {
                attributes,
                description: words.description,
                paths: OptionPaths::Texts(&paths),
                optional: &optional,
            };
            bytes_of_words(alloc, &words)
        }
        PathWords::Loader(loader) => {
            let path = path_of_loader(rt, &loader)?;
            look_at_loader(rt, &loader, &path)?;
            let paths = [path];
            let words = OptionWords {
                attributes,
                description: words.description,
                paths: OptionPaths::Paths(&paths),
                optional: &optional,
            };
            bytes_of_words(alloc, &words)
        }
    }
}

/// The bytes of the load option that is made of this.
fn bytes_of_words(alloc: Global, words: &OptionWords<'_>) -> Result<Vec<u8>, Failure> {
    match option_bytes(alloc, words) {
        Ok(bytes) => Ok(bytes),
        Err(OptionWordsFault::OutOfMemory) => Err(Failure::Memory),
        Err(fault) => Err(Failure::from_word(alloc, fault)),
    }
}

/// The path that leads to the file that firmware is to load. Tells on standard error if its name on a disk had doubled
/// backslashes.
fn path_of_loader<R: Files + Eprint + AllocGlobal>(
    rt: &R,
    words: &LoaderWords<'_>,
) -> Result<Path, Failure> {
    let Some(disk) = words.disk else {
        return loader_path(rt, words.root, words.file);
    };
    let part = match words.part {
        Some(word) => Some(part_of(rt.alloc(), word)?),
        None => None,
    };
    let name = words.file.replace(rt.alloc(), '/', "\\")?;
    match single_backslashes(rt.alloc(), &name)? {
        Some(single) => {
            note_doubled(rt, 1);
            disk_path(rt, words.root, disk, part, &single)
        }
        None => disk_path(rt, words.root, disk, part, &name),
    }
}

/// Looks whether firmware starts the file to which this path leads, if it is to be looked at, and tells on standard error
/// what is found.
///
/// # Errors
///
/// [`Failure::Loader`] if firmware doesn't start it, and that isn't forced, and [`Failure::Memory`] if memory was refused.
fn look_at_loader<R: Files + Eprint + AllocGlobal>(
    rt: &R,
    words: &LoaderWords<'_>,
    path: &Path,
) -> Result<(), Failure> {
    let alloc = rt.alloc();
    let Some(start) = words.start else {
        return Ok(());
    };
    let found = match words.disk {
        Some(_) => note_of_path(rt, start.place, words.root, path)?,
        None => {
            let file = below(alloc, words.root, words.file)?;
            note_of_file(rt, start.place, words.root, &file)?
        }
    };
    match found {
        None => {}
        Some(
            LoaderNote {
                is_fault,
                words: told,
            },
        ) if is_fault && !start.force => {
            let told = format_args!("{told}: --force adds the entry all the same");
            return Err(Failure::from_loader(alloc, words.file, told));
        }
        Some(LoaderNote { words: told, .. }) => note(rt, words.file, told),
    }
    Ok(())
}

/// The number of the partition that a word names.
fn part_of(alloc: Global, word: &str) -> Result<u32, Failure> {
    let is_decimal = word.bytes().all(|byte| byte.is_ascii_digit());
    match word.parse::<u32>() {
        Ok(number) if number > 0 && is_decimal => Ok(number),
        _ => {
            let word = Quoted(word);
            Err(Failure::from_word(
                alloc,
                format_args!("--part {word} is no number of a partition, which is 1 or more"),
            ))
        }
    }
}

/// The texts with single backslashes.
fn single_texts<R: Eprint + AllocGlobal>(
    rt: &R,
    words: &[&str],
) -> Result<Vec<String>, AllocError> {
    let alloc = rt.alloc();
    let mut paths = Vec::with_capacity(alloc, words.len())?;
    for word in words {
        match single_backslashes(alloc, word)? {
            Some(single) => {
                note_doubled(rt, paths.len().saturating_add(1));
                paths.push(single)?;
            }
            None => paths.push(String::from_str(alloc, word)?)?,
        }
    }
    Ok(paths)
}

/// The same texts, each as a part of the list.
fn texts<'a>(alloc: Global, paths: &'a [String]) -> Result<Vec<&'a str>, AllocError> {
    let mut texts = Vec::with_capacity(alloc, paths.len())?;
    for path in paths {
        texts.push(path.as_str())?;
    }
    Ok(texts)
}

/// Tells that the path of this number is read with single backslashes.
fn note_doubled<R: Eprint>(rt: &R, number: usize) {
    // If standard error takes nothing, there is no place left to say so.
    let _ = eprintln!(rt;
        "bootvars: path {number}: doubled backslashes are read as single ones, which UEFI has in paths"
    );
}

/// The attributes that the words say.
fn attributes(alloc: Global, words: AttributeWords<'_>) -> Result<u32, Failure> {
    match words {
        AttributeWords::Number(text) => {
            attributes_of_text(text).map_err(|fault| from_digits(alloc, text, fault))
        }
        AttributeWords::Flags {
            inactive,
            hidden,
            app,
            reconnect,
        } => Ok(attribute_bits(Flags {
            inactive,
            hidden,
            app,
            reconnect,
        })),
    }
}

/// The optional data that the words say.
fn optional<R: Files + Input + AllocGlobal>(
    rt: &R,
    words: OptionalWords<'_>,
) -> Result<Vec<u8>, Failure> {
    let alloc = rt.alloc();
    match words {
        OptionalWords::Nothing => Ok(Vec::new(alloc)),
        OptionalWords::Hex(digits) => {
            hex::decode(alloc, digits).map_err(|fault| from_hex(alloc, digits, fault))
        }
        OptionalWords::File(file) => read(rt, file),
        OptionalWords::Text(text) => Ok(optional_text(alloc, text)?),
    }
}

/// What it is to the program that these digits of optional data have this fault.
fn from_hex(alloc: Global, digits: &str, fault: FromHexError) -> Failure {
    let digits = Quoted(digits);
    match fault {
        FromHexError::OutOfMemory => Failure::Memory,
        fault => Failure::from_word(
            alloc,
            format_args!("--optional-hex {digits}: {fault}; --optional-text takes a text"),
        ),
    }
}

/// Prints the frame of a request: a line of a script, or its bytes.
///
/// # Errors
///
/// [`Failure::Words`] if a word isn't what it is to be; [`Failure::Read`] and [`Failure::Refused`] if the file with the
/// load option can't be read or has none; [`Failure::Write`] if the frame can't be printed; and [`Failure::Memory`] if
/// memory was refused.
pub(crate) fn make_frame<R: Files + Input + Print + AllocGlobal>(
    rt: &R,
    number: &str,
    request: &RequestWords<'_>,
    raw: bool,
) -> Result<(), Failure> {
    let alloc = rt.alloc();
    let number = number_of_digits(number).map_err(|fault| from_digits(alloc, number, fault))?;
    let frame = frame(rt, number, request)?;
    if raw {
        print(rt, &frame)
    } else {
        print(rt, frame_line(alloc, &frame)?.as_bytes())
    }
}

/// The bytes of the frame of a request.
fn frame<R: Files + Input + AllocGlobal>(
    rt: &R,
    number: u32,
    request: &RequestWords<'_>,
) -> Result<Vec<u8>, Failure> {
    let alloc = rt.alloc();
    match request {
        RequestWords::Add { entry, file } => {
            let entry = entry_of(alloc, entry)?;
            let option = read(rt, file)?;
            frame_of_option(
                alloc,
                number,
                file,
                &option,
                FrameWords::Add(entry, &option),
            )
        }
        RequestWords::Replace { entry, file } => {
            let entry = entry_of(alloc, entry)?;
            let option = read(rt, file)?;
            frame_of_option(
                alloc,
                number,
                file,
                &option,
                FrameWords::Replace(entry, &option),
            )
        }
        RequestWords::AddFree { file } => {
            let option = read(rt, file)?;
            frame_of_option(alloc, number, file, &option, FrameWords::AddFree(&option))
        }
        RequestWords::AddFirst { file } => {
            let option = read(rt, file)?;
            frame_of_option(alloc, number, file, &option, FrameWords::AddFirst(&option))
        }
        RequestWords::Remove { entry } => {
            frame_of_words(alloc, number, FrameWords::Remove(entry_of(alloc, entry)?))
        }
        RequestWords::Order { entries } => {
            let numbers = entries_of(alloc, entries)?;
            frame_of_words(alloc, number, FrameWords::Order(&numbers))
        }
        RequestWords::Next { entry } => {
            frame_of_words(alloc, number, FrameWords::Next(entry_of(alloc, entry)?))
        }
        RequestWords::First { entry } => {
            frame_of_words(alloc, number, FrameWords::First(entry_of(alloc, entry)?))
        }
    }
}

/// The bytes of the frame that asks for this, with the load option that is in the file at this path and has these bytes.
fn frame_of_option(
    alloc: Global,
    number: u32,
    file: &str,
    bytes: &[u8],
    words: FrameWords<'_>,
) -> Result<Vec<u8>, Failure> {
    frame_bytes(alloc, number, words).map_err(|fault| from_option(alloc, file, bytes, fault))
}

/// The bytes of the frame that asks for this, which has no load option.
fn frame_of_words(alloc: Global, number: u32, words: FrameWords<'_>) -> Result<Vec<u8>, Failure> {
    frame_bytes(alloc, number, words).map_err(|fault| from_words(alloc, fault))
}

/// The numbers of the entries that the words name.
///
/// # Errors
///
/// [`Failure::Words`] if one names none, and [`Failure::Memory`] if memory was refused.
pub(crate) fn entries_of(alloc: Global, words: &[&str]) -> Result<Vec<u16>, Failure> {
    let mut entries = Vec::with_capacity(alloc, words.len())?;
    for word in words {
        entries.push(entry_of(alloc, word)?)?;
    }
    Ok(entries)
}

/// The number of the entry that the word names.
///
/// # Errors
///
/// As of [`entries_of`].
pub(crate) fn entry_of(alloc: Global, word: &str) -> Result<u16, Failure> {
    entry_of_digits(word).map_err(|fault| from_digits(alloc, word, fault))
}

/// The seconds that the word names.
///
/// # Errors
///
/// As of [`entries_of`].
pub(crate) fn seconds_of(alloc: Global, word: &str) -> Result<u16, Failure> {
    seconds_of_digits(word).map_err(|fault| from_digits(alloc, word, fault))
}

/// What it is to the program that a word isn't the number that it is to be.
fn from_digits(alloc: Global, word: &str, fault: DigitsFault) -> Failure {
    let word = Quoted(word);
    Failure::from_word(alloc, WrongWord { word, fault })
}

/// What it is to the program that no frame is made of the load option in the file at this path, which has these bytes.
fn from_option(alloc: Global, file: &str, bytes: &[u8], fault: FrameWordsFault) -> Failure {
    match (fault, no_option(bytes)) {
        (FrameWordsFault::OutOfMemory, _) => Failure::Memory,
        (FrameWordsFault::Option { .. }, Some(kind)) => {
            Failure::refused(alloc, name_of(file), Reason::NoOption(kind))
        }
        (fault, _) => Failure::from_fault(alloc, name_of(file), fault),
    }
}

/// What it is to the program that no frame is made of words.
fn from_words(alloc: Global, fault: FrameWordsFault) -> Failure {
    match fault {
        FrameWordsFault::OutOfMemory => Failure::Memory,
        fault => Failure::from_word(alloc, fault),
    }
}

/// Prints what the frames of the script or the stream at this path ask for. It is a stream if that is said, and otherwise
/// what it begins as.
///
/// # Errors
///
/// [`Failure::Read`] if it can't be read; [`Failure::Write`] if the answer can't be printed; [`Failure::Refused`] if it
/// is too long, or has a fault, which was printed then; and [`Failure::Memory`] if memory was refused.
pub(crate) fn explain<R: Files + Input + Print + AllocGlobal>(
    rt: &R,
    file: &str,
    is_stream: bool,
    form: Form,
) -> Result<(), Failure> {
    let bytes = read(rt, file)?;
    let format = if is_stream {
        Some(InputFormat::Stream)
    } else {
        None
    };
    if explain_bytes(rt, &bytes, format, form)? {
        return Err(Failure::refused(rt.alloc(), name_of(file), Reason::Faulty));
    }
    Ok(())
}

/// Prints what the frames of a script or a stream ask for, and tells whether something is at fault.
fn explain_bytes<R: Print + AllocGlobal>(
    rt: &R,
    bytes: &[u8],
    format: Option<InputFormat>,
    form: Form,
) -> Result<bool, Failure> {
    let explained = match form {
        Form::Text => explain_report(rt.alloc(), bytes, format)?,
        Form::Json => explain_json(rt.alloc(), bytes, format)?,
    };
    print(rt, explained.text.as_bytes())?;
    Ok(explained.is_faulty)
}
