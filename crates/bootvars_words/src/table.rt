//! Commands and their arguments as rows of a table, and what `clap` takes made of them.

use clap::{Arg, ArgAction, ArgGroup, Command};
use std::alloc::{AllocError, Global};

/// A command.
#[derive(Clone, Copy)]
pub(crate) struct CommandRow {
    /// Its word.
    pub(crate) name: &'static str,
    /// What it does, on one line.
    pub(crate) about: &'static str,
    /// What its long help says in place of that line, if it says more.
    pub(crate) long_about: Option<&'static str>,
    /// What its help says last: an example.
    pub(crate) after_help: &'static str,
    /// Its arguments: values in the order in which they are given, and options in that of the help.
    pub(crate) args: &'static [ArgRow],
    /// Its groups of arguments.
    pub(crate) groups: &'static [GroupRow],
}

impl CommandRow {
    /// A command that has nothing, from which the others take what they don't state.
    pub(crate) const EMPTY: CommandRow = CommandRow {
        name: "",
        about: "",
        long_about: None,
        after_help: "",
        args: &[],
        groups: &[],
    };
}

/// An argument.
#[derive(Clone, Copy)]
pub(crate) struct ArgRow {
    /// Its name: of an option or a flag the one that follows two hyphens, of a value the one that the usage shows.
    pub(crate) name: &'static str,
    /// What it is, on one line.
    pub(crate) help: &'static str,
    /// How it is given.
    pub(crate) kind: ArgKind,
    /// What becomes of what is given.
    pub(crate) action: ArgAction,
    /// Whether it has to be given.
    pub(crate) is_required: bool,
    /// The arguments in whose absence it has to be given: all of them.
    pub(crate) required_without: &'static [&'static str],
    /// The arguments that can't be given beside it.
    pub(crate) excludes: &'static [&'static str],
    /// The arguments that have to be given with it.
    pub(crate) needs: &'static [&'static str],
    /// Whether the commands of its command take it too.
    pub(crate) is_global: bool,
}

/// How an argument is given.
#[derive(Clone, Copy)]
pub(crate) enum ArgKind {
    /// By its place among the values.
    Value,
    /// As an option with a value, which the usage shows by this name.
    Option(&'static str),
    /// As an option without a value.
    Flag,
}

impl ArgRow {
    /// A value that has to be given. As those below it has no name and no help, and other rows take the rest of it.
    pub(crate) const VALUE: ArgRow = ArgRow {
        name: "",
        help: "",
        kind: ArgKind::Value,
        action: ArgAction::Set,
        is_required: true,
        required_without: &[],
        excludes: &[],
        needs: &[],
        is_global: false,
    };
    /// An option whose value is a text.
    pub(crate) const OPTION: ArgRow = ArgRow {
        kind: ArgKind::Option("TEXT"),
        is_required: false,
        ..ArgRow::VALUE
    };
    /// A flag.
    pub(crate) const FLAG: ArgRow = ArgRow {
        kind: ArgKind::Flag,
        action: ArgAction::SetTrue,
        is_required: false,
        ..ArgRow::VALUE
    };
}

/// Arguments of which at most one is given.
#[derive(Clone, Copy)]
pub(crate) struct GroupRow {
    /// Its name, which is shown nowhere.
    pub(crate) name: &'static str,
    /// The names of its arguments.
    pub(crate) args: &'static [&'static str],
    /// Whether one of them has to be given.
    pub(crate) is_required: bool,
}

/// Adds the commands of rows to others.
///
/// # Errors
///
/// Memory is refused.
pub(crate) fn add_commands<'a>(
    alloc: Global,
    commands: &mut Vec<Command<'a>>,
    rows: &[CommandRow],
) -> Result<(), AllocError> {
    for row in rows {
        commands.push(command(alloc, row)?)?;
    }
    Ok(())
}

/// The command of a row.
///
/// # Errors
///
/// Memory is refused.
pub(crate) fn command<'a>(alloc: Global, row: &CommandRow) -> Result<Command<'a>, AllocError> {
    let args = args(alloc, row.args)?;
    let groups = groups(alloc, row.groups)?;
    bare_command(alloc, row).args(args)?.groups(groups)
}

/// The command of a row without its arguments.
fn bare_command<'a>(alloc: Global, row: &CommandRow) -> Command<'a> {
    let command = Command::new(alloc, row.name)
        .about(row.about)
        .after_help(row.after_help);
    match row.long_about {
        Some(text) => command.long_about(text),
        None => command,
    }
}

fn args<'a>(alloc: Global, rows: &[ArgRow]) -> Result<Vec<Arg<'a>>, AllocError> {
    let mut args = Vec::new(alloc);
    for row in rows {
        args.push(arg(alloc, row)?)?;
    }
    Ok(args)
}

fn arg<'a>(alloc: Global, row: &ArgRow) -> Result<Arg<'a>, AllocError> {
    bare_arg(alloc, row)
        .required_unless_present_any(row.required_without)?
        .conflicts_with_all(row.excludes)?
        .requires_all(row.needs)
}

/// The argument of a row without what it is to others.
fn bare_arg<'a>(alloc: Global, row: &ArgRow) -> Arg<'a> {
    let arg = Arg::new(alloc, row.name)
        .help(row.help)
        .action(row.action)
        .required(row.is_required)
        .global(row.is_global);
    match row.kind {
        ArgKind::Value => arg,
        ArgKind::Option(value) => arg.long(row.name).value_name(value),
        ArgKind::Flag => arg.long(row.name),
    }
}

fn groups<'a>(alloc: Global, rows: &[GroupRow]) -> Result<Vec<ArgGroup<'a>>, AllocError> {
    let mut groups = Vec::new(alloc);
    for row in rows {
        groups.push(group(alloc, row)?)?;
    }
    Ok(groups)
}

fn group<'a>(alloc: Global, row: &GroupRow) -> Result<ArgGroup<'a>, AllocError> {
    ArgGroup::new(alloc, row.name)
        .required(row.is_required)
        .args(row.args)
}
