//! The words of the command line.

use crate::failure::Failure;
use boot_requests::InputFormat;
use clap::error::ErrorKind;
use clap::{Arg, ArgAction, ArgMatches, Command};
use std::alloc::{AllocError, Global};

/// How the program is called, on one line.
pub const USAGE: &str =
    "usage: bootkeep path HEX | text TEXT | option FILE | show SET | run [--stream] SET SCRIPT --out FILE";

// The subcommands, each by its word.
const PATH_COMMAND: &str = "path";

const TEXT_COMMAND: &str = "text";

const OPTION_COMMAND: &str = "option";

const SHOW_COMMAND: &str = "show";

const RUN_COMMAND: &str = "run";

// The values that follow them, each by its name in the usage line.
const HEX_VALUE: &str = "HEX";

const TEXT_VALUE: &str = "TEXT";

const FILE_VALUE: &str = "FILE";

const SET_VALUE: &str = "SET";

const SCRIPT_VALUE: &str = "SCRIPT";

// The options of `run`, without their hyphens.
const OUT_OPTION: &str = "out";

const STREAM_OPTION: &str = "stream";

/// What the words of the command line ask for.
#[derive(Clone, Copy)]
pub enum Action<'a> {
    /// To print how the program is called.
    Help,
    /// To print the device path that some bytes begin with.
    Path {
        /// The bytes, in hexadecimal digits.
        hex: &'a str,
    },
    /// To print the bytes of the device path that a text stands for.
    Text {
        /// The text.
        text: &'a str,
    },
    /// To print the load option that a file holds.
    LoadOption {
        /// The path of the file.
        file: &'a str,
    },
    /// To print the boot variables that a set file holds.
    Show {
        /// The path of the set file.
        set: &'a str,
    },
    /// To run the events of a script or a stream over the boot variables of a set file.
    Run {
        /// Which of the two it is.
        format: InputFormat,
        /// The path of the set file.
        set: &'a str,
        /// The path of the script or the stream.
        script: &'a str,
        /// The path of the file that the new set is written to.
        file: &'a str,
    },
}

/// What the words ask for. The first one is the program's name.
///
/// # Errors
///
/// [`Failure::CommandLine`] if they are not an action of the program, and also if they ask for the
/// help or the version that `clap` would print: `--help` is an action only if it is the only word.
/// [`Failure::Memory`] only if memory is refused.
pub fn read_words<'a>(alloc: Global, words: &'a [String]) -> Result<Action<'a>, Failure> {
    if let [_, word] = words
        && word.as_str() == "--help"
    {
        return Ok(Action::Help);
    }
    match command(alloc)?.try_get_matches_from(words) {
        Ok(matches) => action_of(&matches).ok_or(Failure::CommandLine),
        Err(error) if error.kind() == ErrorKind::OutOfMemory => Err(Failure::Memory),
        Err(_) => Err(Failure::CommandLine),
    }
}

/// A subcommand.
#[derive(Clone, Copy)]
struct CommandRow {
    /// Its word.
    name: &'static str,
    /// What follows it.
    args: &'static [ArgRow],
}

/// An argument of a subcommand.
#[derive(Clone, Copy)]
enum ArgRow {
    /// A value of this name, which has to be given.
    Value(&'static str),
    /// An option of this name, which has to be given, with a value of the second name.
    Option(&'static str, &'static str),
    /// An option of this name without a value.
    Flag(&'static str),
}

static COMMANDS: [CommandRow; 5] = [
    CommandRow {
        name: PATH_COMMAND,
        args: &[ArgRow::Value(HEX_VALUE)],
    },
    CommandRow {
        name: TEXT_COMMAND,
        args: &[ArgRow::Value(TEXT_VALUE)],
    },
    CommandRow {
        name: OPTION_COMMAND,
        args: &[ArgRow::Value(FILE_VALUE)],
    },
    CommandRow {
        name: SHOW_COMMAND,
        args: &[ArgRow::Value(SET_VALUE)],
    },
    CommandRow {
        name: RUN_COMMAND,
        args: &[
            ArgRow::Value(SET_VALUE),
            ArgRow::Value(SCRIPT_VALUE),
            ArgRow::Option(OUT_OPTION, FILE_VALUE),
            ArgRow::Flag(STREAM_OPTION),
        ],
    },
];

fn command<'a>(alloc: Global) -> Result<Command<'a>, AllocError> {
    Command::new(alloc, "bootkeep")
        .subcommand_required(true)
        .subcommands(subcommands(alloc, &COMMANDS)?)
}

fn subcommands<'a>(alloc: Global, rows: &[CommandRow]) -> Result<Vec<Command<'a>>, AllocError> {
    let mut commands = Vec::new(alloc);
    for row in rows {
        commands.push(subcommand(alloc, row)?)?;
    }
    Ok(commands)
}

fn subcommand<'a>(alloc: Global, row: &CommandRow) -> Result<Command<'a>, AllocError> {
    Command::new(alloc, row.name).args(args(alloc, row.args)?)
}

fn args<'a>(alloc: Global, rows: &[ArgRow]) -> Result<Vec<Arg<'a>>, AllocError> {
    let mut args = Vec::new(alloc);
    for row in rows {
        args.push(arg(alloc, row))?;
    }
    Ok(args)
}

fn arg<'a>(alloc: Global, row: &ArgRow) -> Arg<'a> {
    match *row {
        ArgRow::Value(name) => Arg::new(alloc, name).required(true),
        ArgRow::Option(name, value) => Arg::new(alloc, value).long(name).required(true),
        ArgRow::Flag(name) => Arg::new(alloc, name).long(name).action(ArgAction::SetTrue),
    }
}

fn action_of<'a>(matches: &ArgMatches<'a>) -> Option<Action<'a>> {
    let (name, matches) = matches.subcommand()?;
    match name {
        PATH_COMMAND => matches.get_str(HEX_VALUE).map(|hex| Action::Path { hex }),
        TEXT_COMMAND => matches
            .get_str(TEXT_VALUE)
            .map(|text| Action::Text { text }),
        OPTION_COMMAND => matches
            .get_str(FILE_VALUE)
            .map(|file| Action::LoadOption { file }),
        SHOW_COMMAND => matches.get_str(SET_VALUE).map(|set| Action::Show { set }),
        RUN_COMMAND => run_of(matches),
        _ => None,
    }
}

fn run_of<'a>(matches: &ArgMatches<'a>) -> Option<Action<'a>> {
    Some(Action::Run {
        format: format_of(matches),
        set: matches.get_str(SET_VALUE)?,
        script: matches.get_str(SCRIPT_VALUE)?,
        file: matches.get_str(FILE_VALUE)?,
    })
}

fn format_of(matches: &ArgMatches<'_>) -> InputFormat {
    if matches.get_flag(STREAM_OPTION) {
        InputFormat::Stream
    } else {
        InputFormat::Script
    }
}
