//! The words of the command line, and what they ask for.

use crate::action::{
    Action, AddWords, ApplyWords, AttributeWords, ChangeWords, CheckedWords, EntryChange, Form,
    Job, KeptWords, LoadOptionWords, LoaderWords, OptionalWords, PathWords, RequestWords, SetWords,
    StartWords, TrialJob, TrialWords,
};
use boot_edits::Position;
use boot_history::DEFAULT_STATE;
use bootvars_words::program;
use clap::{ArgMatches, Error};
use std::alloc::Global;
use uefi_vars::EntryFamily;
use wanted_changes::{MachineWords, ProfileWords};

/// What `clap` finds in the words of the command line, of which the first one is the program's name.
///
/// # Errors
///
/// What `clap` answers in place of matches: the help, the version or what is wrong with the words, or that memory was
/// refused.
pub fn read_words<'a>(alloc: Global, words: &'a [String]) -> Result<ArgMatches<'a>, Error> {
    program(alloc)?.try_get_matches_from(words)
}

/// What the matches ask for, or nothing if they have no command's words.
pub fn action_of<'a>(matches: &'a ArgMatches<'_>) -> Option<Action<'a>> {
    let (name, matches) = matches.subcommand()?;
    match name {
        "read" => read_of(matches),
        "show" => show_of(matches),
        "check" => check_of(matches),
        "diff" => diff_of(matches),
        "get" => get_of(matches),
        "write" => write_of(matches),
        "update" => update_of(matches),
        "option" => load_option_of(matches),
        "frame" => frame_of(matches),
        "explain" => explain_of(matches),
        "undo" => undo_of(matches),
        "timeout" => timeout_of(matches),
        "apply" => apply_of(matches),
        "try" => trial_of(try_job(matches), matches),
        "confirm" => trial_of(TrialJob::Confirm, matches),
        _ => change_of(entry_change_of(name, matches)?, matches),
    }
}

fn read_of<'a>(matches: &'a ArgMatches<'_>) -> Option<Action<'a>> {
    Some(Action::Read {
        place: matches.get_str("PLACE")?,
        out: matches.get_str("out")?,
        boot_only: matches.get_flag("boot-only"),
    })
}

fn show_of<'a>(matches: &'a ArgMatches<'_>) -> Option<Action<'a>> {
    Some(Action::Show {
        place: matches.get_str("PLACE")?,
        form: form_of(matches),
        kept: kept_of(matches),
    })
}

fn check_of<'a>(matches: &'a ArgMatches<'_>) -> Option<Action<'a>> {
    Some(Action::Check {
        words: CheckedWords {
            place: matches.get_str("PLACE")?,
            root: matches.get_str("root").unwrap_or(""),
            json: matches.get_flag("json"),
        },
        kept: kept_of(matches),
    })
}

/// What keeps the start on trial of a machine that is shown or checked.
fn kept_of<'a>(matches: &'a ArgMatches<'_>) -> KeptWords<'a> {
    KeptWords {
        state: matches.get_str("state"),
        boot_id: matches.get_str("boot-id"),
    }
}

fn diff_of<'a>(matches: &'a ArgMatches<'_>) -> Option<Action<'a>> {
    Some(Action::Diff {
        from: matches.get_str("FROM")?,
        to: matches.get_str("TO")?,
        form: form_of(matches),
    })
}

fn write_of<'a>(matches: &'a ArgMatches<'_>) -> Option<Action<'a>> {
    Some(Action::Write(SetWords {
        set: matches.get_str("SET")?,
        machine: machine_of(matches)?,
        names_state: matches.get_str("state").is_some(),
        dry_run: matches.get_flag("dry-run"),
        form: form_of(matches),
        empty: matches.get_flag("empty"),
    }))
}

fn update_of<'a>(matches: &'a ArgMatches<'_>) -> Option<Action<'a>> {
    Some(Action::Update {
        machine: machine_of(matches)?,
        expected: matches.get_strs("expect").unwrap_or(&[]),
        job: job_of(matches)?,
    })
}

/// The machine of a command that keeps a journal.
fn machine_of<'a>(matches: &'a ArgMatches<'_>) -> Option<MachineWords<'a>> {
    Some(MachineWords {
        state: matches.get_str("state").unwrap_or(DEFAULT_STATE),
        place: matches.get_str("PLACE")?,
        boot_id: matches.get_str("boot-id"),
        machine: matches.get_str("machine"),
        adopt: matches.get_flag("adopt"),
        force: matches.get_flag("force"),
        family: EntryFamily::Boot,
    })
}

fn get_of<'a>(matches: &'a ArgMatches<'_>) -> Option<Action<'a>> {
    Some(Action::Get {
        place: matches.get_str("PLACE")?,
        entry: matches.get_str("ENTRY")?,
        out: matches.get_str("out")?,
    })
}

fn timeout_of<'a>(matches: &'a ArgMatches<'_>) -> Option<Action<'a>> {
    match matches.get_str("SECONDS") {
        None if !matches.get_flag("none") => Some(Action::ShowTimeout {
            place: matches.get_str("PLACE")?,
            form: form_of(matches),
        }),
        seconds => change_of(EntryChange::Timeout(seconds), matches),
    }
}

fn change_of<'a>(change: EntryChange<'a>, matches: &'a ArgMatches<'_>) -> Option<Action<'a>> {
    Some(Action::Change(ChangeWords {
        machine: machine_of(matches)?,
        change,
        dry_run: matches.get_flag("dry-run"),
        form: form_of(matches),
    }))
}

fn undo_of<'a>(matches: &'a ArgMatches<'_>) -> Option<Action<'a>> {
    let machine = machine_of(matches)?;
    let form = form_of(matches);
    if matches.get_flag("list") {
        return Some(Action::ListChanges { machine, form });
    }
    Some(Action::Undo {
        machine,
        dry_run: matches.get_flag("dry-run"),
        form,
    })
}

fn apply_of<'a>(matches: &'a ArgMatches<'_>) -> Option<Action<'a>> {
    let place = matches.get_str("PLACE")?;
    if matches.get_flag("of") {
        return Some(Action::ShowProfile { place });
    }
    Some(Action::Apply(ApplyWords {
        machine: machine_of(matches)?,
        profile: ProfileWords {
            file: matches.get_str("FILE")?,
            root: matches.get_str("root").unwrap_or(""),
            json: matches.get_flag("json"),
        },
        dry_run: matches.get_flag("dry-run"),
        exit_code: matches.get_flag("exit-code"),
    }))
}

/// What `try` does of a trial.
fn try_job<'a>(matches: &'a ArgMatches<'_>) -> TrialJob<'a> {
    match matches.get_str("ENTRY") {
        Some(entry) => TrialJob::Begin(entry),
        None => TrialJob::End,
    }
}

fn trial_of<'a>(job: TrialJob<'a>, matches: &'a ArgMatches<'_>) -> Option<Action<'a>> {
    Some(Action::Trial(TrialWords {
        machine: machine_of(matches)?,
        job,
        dry_run: matches.get_flag("dry-run"),
        form: form_of(matches),
    }))
}

/// The change of boot entries that the command of this name makes, if it is one.
fn entry_change_of<'a>(name: &str, matches: &'a ArgMatches<'_>) -> Option<EntryChange<'a>> {
    match name {
        "add" => Some(EntryChange::Add(add_of(matches)?)),
        "remove" => Some(EntryChange::Remove(matches.get_strs("ENTRY")?)),
        "first" => Some(EntryChange::First(matches.get_strs("ENTRY")?)),
        "order" => Some(EntryChange::Order {
            entries: matches.get_strs("ENTRY").unwrap_or(&[]),
            stale: matches.get_flag("stale"),
            only: matches.get_flag("only") || matches.get_flag("empty"),
        }),
        "next" => Some(EntryChange::Next(matches.get_str("ENTRY"))),
        "activate" => Some(EntryChange::Activate(matches.get_strs("ENTRY")?)),
        "deactivate" => Some(EntryChange::Deactivate(matches.get_strs("ENTRY")?)),
        _ => None,
    }
}

fn add_of<'a>(matches: &'a ArgMatches<'_>) -> Option<AddWords<'a>> {
    let position = if matches.get_flag("first") {
        Position::First
    } else if matches.get_flag("no-order") {
        Position::NoOrder
    } else {
        Position::Last
    };
    let start = StartWords {
        place: matches.get_str("PLACE")?,
        force: matches.get_flag("force"),
    };
    Some(AddWords {
        option: started(option_of(matches)?, start),
        entry: matches.get_str("entry"),
        position,
        again: matches.get_flag("again"),
        tried: matches.get_flag("try"),
    })
}

fn explain_of<'a>(matches: &'a ArgMatches<'_>) -> Option<Action<'a>> {
    Some(Action::Explain {
        file: matches.get_str("FILE")?,
        is_stream: matches.get_flag("stream"),
        form: form_of(matches),
    })
}

fn job_of<'a>(matches: &'a ArgMatches<'_>) -> Option<Job<'a>> {
    if matches.get_flag("next") {
        Some(Job::Next)
    } else if matches.get_flag("settle") {
        Some(Job::Settle)
    } else {
        run_of(matches)
    }
}

/// The run of a script, or a look without one.
fn run_of<'a>(matches: &'a ArgMatches<'_>) -> Option<Job<'a>> {
    let look = matches.get_flag("look");
    match matches.get_str("SCRIPT") {
        Some(script) => Some(Job::Run {
            script,
            is_stream: matches.get_flag("stream"),
            form: form_of(matches),
            look,
            dry_run: matches.get_flag("dry-run"),
        }),
        None if look => Some(Job::Look),
        None => None,
    }
}

fn form_of(matches: &ArgMatches<'_>) -> Form {
    if matches.get_flag("json") {
        Form::Json
    } else {
        Form::Text
    }
}

fn load_option_of<'a>(matches: &'a ArgMatches<'_>) -> Option<Action<'a>> {
    Some(Action::LoadOption {
        option: option_of(matches)?,
        out: matches.get_str("out")?,
    })
}

/// The words of a load option, whose file is to be started by this, if it names one.
fn started<'a>(option: LoadOptionWords<'a>, start: StartWords<'a>) -> LoadOptionWords<'a> {
    match option.paths {
        PathWords::Loader(loader) => LoadOptionWords {
            paths: PathWords::Loader(LoaderWords {
                start: Some(start),
                ..loader
            }),
            ..option
        },
        PathWords::Texts(_texts) => option,
    }
}

fn option_of<'a>(matches: &'a ArgMatches<'_>) -> Option<LoadOptionWords<'a>> {
    Some(LoadOptionWords {
        description: matches.get_str("description")?,
        paths: paths_of(matches)?,
        attributes: attributes_of(matches),
        optional: optional_of(matches),
    })
}

fn paths_of<'a>(matches: &'a ArgMatches<'_>) -> Option<PathWords<'a>> {
    match matches.get_str("loader") {
        Some(file) => Some(PathWords::Loader(LoaderWords {
            file,
            disk: matches.get_str("disk"),
            part: matches.get_str("part"),
            root: matches.get_str("root").unwrap_or(""),
            start: None,
        })),
        None => Some(PathWords::Texts(matches.get_strs("path")?)),
    }
}

fn attributes_of<'a>(matches: &'a ArgMatches<'_>) -> AttributeWords<'a> {
    match matches.get_str("attributes") {
        Some(number) => AttributeWords::Number(number),
        None => AttributeWords::Flags {
            inactive: matches.get_flag("inactive") || matches.get_flag("try"),
            hidden: matches.get_flag("hidden"),
            app: matches.get_flag("app"),
            reconnect: matches.get_flag("reconnect"),
        },
    }
}

fn optional_of<'a>(matches: &'a ArgMatches<'_>) -> OptionalWords<'a> {
    if let Some(digits) = matches.get_str("optional-hex") {
        OptionalWords::Hex(digits)
    } else if let Some(file) = matches.get_str("optional-file") {
        OptionalWords::File(file)
    } else if let Some(text) = matches.get_str("optional-text") {
        OptionalWords::Text(text)
    } else {
        OptionalWords::Nothing
    }
}

fn frame_of<'a>(matches: &'a ArgMatches<'_>) -> Option<Action<'a>> {
    let (kind, words) = matches.subcommand()?;
    Some(Action::Frame {
        number: matches.get_str("NUMBER")?,
        request: request_of(kind, words)?,
        raw: words.get_flag("raw"),
    })
}

/// What a request of this kind asks for.
fn request_of<'a>(kind: &str, matches: &'a ArgMatches<'_>) -> Option<RequestWords<'a>> {
    let entry = matches.get_str("ENTRY");
    match (kind, entry, matches.get_str("FILE")) {
        ("add", Some(entry), Some(file)) => Some(RequestWords::Add { entry, file }),
        ("replace", Some(entry), Some(file)) => Some(RequestWords::Replace { entry, file }),
        ("add-free", _, Some(file)) => Some(RequestWords::AddFree { file }),
        ("add-first", _, Some(file)) => Some(RequestWords::AddFirst { file }),
        ("remove", Some(entry), _) => Some(RequestWords::Remove { entry }),
        ("order", _, _) => Some(RequestWords::Order {
            entries: matches.get_strs("ENTRY").unwrap_or(&[]),
        }),
        ("next", Some(entry), _) => Some(RequestWords::Next { entry }),
        ("first", Some(entry), _) => Some(RequestWords::First { entry }),
        _ => None,
    }
}
