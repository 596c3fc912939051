//! What the words of the command line ask for.

use boot_edits::Position;
use wanted_changes::{MachineWords, ProfileWords};

/// What the words of the command line ask for.
#[derive(Clone, Copy)]
pub enum Action<'a> {
    /// To make a set file of the variables of a place.
    Read {
        /// The place.
        place: &'a str,
        /// The path of the set file.
        out: &'a str,
        /// Whether the set has Boot####, BootOrder, BootNext and Timeout alone.
        boot_only: bool,
    },
    /// To show the boot variables of a place.
    Show {
        /// The place.
        place: &'a str,
        /// How they are shown.
        form: Form,
        /// What keeps its start on trial.
        kept: KeptWords<'a>,
    },
    /// To show for how long the boot manager of a place waits.
    ShowTimeout {
        /// The place.
        place: &'a str,
        /// How it is shown.
        form: Form,
    },
    /// To tell which boot entries of a place can be started.
    Check {
        /// What is checked.
        words: CheckedWords<'a>,
        /// What keeps its start on trial.
        kept: KeptWords<'a>,
    },
    /// To show how the boot variables of two places differ.
    Diff {
        /// The first place.
        from: &'a str,
        /// The second place.
        to: &'a str,
        /// How the differences are shown.
        form: Form,
    },
    /// To make a file of the load option of an entry.
    Get {
        /// The place.
        place: &'a str,
        /// The entry, as it is written.
        entry: &'a str,
        /// The path of the file.
        out: &'a str,
    },
    /// To change boot entries of a place.
    Change(ChangeWords<'a>),
    /// To make a place what a file says.
    Apply(ApplyWords<'a>),
    /// To print the file that says what a place has.
    ShowProfile {
        /// The place.
        place: &'a str,
    },
    /// To begin a start on trial, to make what follows from one, or to end it.
    Trial(TrialWords<'a>),
    /// To bring back what was there before the last change of a machine.
    Undo {
        /// The machine. It may be forced, although something else has changed since.
        machine: MachineWords<'a>,
        /// Whether nothing is changed, and what would be is shown.
        dry_run: bool,
        /// How the changes are shown.
        form: Form,
    },
    /// To list the changes of a machine that can be undone.
    ListChanges {
        /// The machine.
        machine: MachineWords<'a>,
        /// How they are shown.
        form: Form,
    },
    /// To make the boot variables of a place those of a set.
    Write(SetWords<'a>),
    /// To run requests over the boot variables of a place.
    Update {
        /// The machine.
        machine: MachineWords<'a>,
        /// What is expected of it.
        expected: &'a [&'a str],
        /// What is to be done.
        job: Job<'a>,
    },
    /// To make a load option.
    LoadOption {
        /// What it has.
        option: LoadOptionWords<'a>,
        /// The path of the file that it is written to.
        out: &'a str,
    },
    /// To make the frame of a request.
    Frame {
        /// The number of the request, as it is written.
        number: &'a str,
        /// What it asks for.
        request: RequestWords<'a>,
        /// Whether the frame's bytes are wanted, and not a line of a script.
        raw: bool,
    },
    /// To show what the frames of a script or a stream ask for.
    Explain {
        /// The path of the script or the stream.
        file: &'a str,
        /// Whether it is said to be a stream.
        is_stream: bool,
        /// How they are shown.
        form: Form,
    },
}

/// How something is shown.
#[derive(Clone, Copy, Debug)]
pub enum Form {
    /// As text for a person.
    Text,
    /// As JSON for a program.
    Json,
}

/// What an update is to do, after what is left of earlier ones.
#[derive(Clone, Copy, Debug)]
pub enum Job<'a> {
    /// To run the events of a script, or of a stream.
    Run {
        /// The path of the script.
        script: &'a str,
        /// Whether it is a stream.
        is_stream: bool,
        /// How the replies are printed.
        form: Form,
        /// Whether what there is afterwards is printed with the replies, as JSON.
        look: bool,
        /// Whether nothing is changed, and what would be is printed.
        dry_run: bool,
    },
    /// To tell the next number.
    Next,
    /// To tell, as JSON, the next number and what there is.
    Look,
    /// Nothing else.
    Settle,
}

/// The words that say what keeps a machine's start on trial, for a command that only tells of it.
#[derive(Clone, Copy)]
pub struct KeptWords<'a> {
    /// The path of the state folder, if one is named.
    pub state: Option<&'a str>,
    /// The identity of the machine's start, if one is given.
    pub boot_id: Option<&'a str>,
}

/// The words of `check`.
#[derive(Clone, Copy)]
pub struct CheckedWords<'a> {
    /// The place.
    pub place: &'a str,
    /// The path of the folder that stands for the root of the system, or nothing.
    pub root: &'a str,
    /// Whether JSON is printed.
    pub json: bool,
}

/// The words of `write`.
#[derive(Clone, Copy)]
pub struct SetWords<'a> {
    /// The path of the set file.
    pub set: &'a str,
    /// The machine.
    pub machine: MachineWords<'a>,
    /// Whether the state folder is named.
    pub names_state: bool,
    /// Whether the changes are only shown.
    pub dry_run: bool,
    /// How they are shown.
    pub form: Form,
    /// Whether a set without an entry is written.
    pub empty: bool,
}

/// The words of `apply`.
#[derive(Clone, Copy)]
pub struct ApplyWords<'a> {
    /// The machine.
    pub machine: MachineWords<'a>,
    /// The file, and how what it changes is told.
    pub profile: ProfileWords<'a>,
    /// Whether nothing is changed, and what would be is shown.
    pub dry_run: bool,
    /// Whether the status tells that something is changed.
    pub exit_code: bool,
}

/// The words of a start on trial.
#[derive(Clone, Copy)]
pub struct TrialWords<'a> {
    /// The machine.
    pub machine: MachineWords<'a>,
    /// What is to be done.
    pub job: TrialJob<'a>,
    /// Whether nothing is changed, and what would be is shown.
    pub dry_run: bool,
    /// How it is shown.
    pub form: Form,
}

/// What is to be done of a start on trial.
#[derive(Clone, Copy)]
pub enum TrialJob<'a> {
    /// It begins, of this entry, as it is written.
    Begin(&'a str),
    /// What follows from it is made.
    Confirm,
    /// It is ended.
    End,
}

/// The words of a change of boot entries.
#[derive(Clone, Copy)]
pub struct ChangeWords<'a> {
    /// The machine.
    pub machine: MachineWords<'a>,
    /// What is to be changed.
    pub change: EntryChange<'a>,
    /// Whether the changes are only shown.
    pub dry_run: bool,
    /// How they are shown.
    pub form: Form,
}

/// What is to be changed of boot entries. Each entry is given as it is written.
#[derive(Clone, Copy)]
pub enum EntryChange<'a> {
    /// To store a load option as a new entry.
    Add(AddWords<'a>),
    /// To take these entries out.
    Remove(&'a [&'a str]),
    /// To put these in front of the order.
    First(&'a [&'a str]),
    /// To set the order.
    Order {
        /// The entries that come first: none if the order is to have none.
        entries: &'a [&'a str],
        /// Whether entries that aren't there are taken.
        stale: bool,
        /// Whether the order has these alone.
        only: bool,
    },
    /// To set the entry that the next boot tries first, or to take BootNext out.
    Next(Option<&'a str>),
    /// To set the seconds for which the boot manager waits, as they are written, or to take Timeout out.
    Timeout(Option<&'a str>),
    /// To make these entries active.
    Activate(&'a [&'a str]),
    /// To make these entries inactive.
    Deactivate(&'a [&'a str]),
}

/// The words of `add`.
#[derive(Clone, Copy)]
pub struct AddWords<'a> {
    /// The load option.
    pub option: LoadOptionWords<'a>,
    /// The entry, if one is named.
    pub entry: Option<&'a str>,
    /// Where it is put into the order.
    pub position: Position,
    /// Whether it is added although the same one is there.
    pub again: bool,
    /// Whether it is put on trial.
    pub tried: bool,
}

/// The words that say a load option.
#[derive(Clone, Copy)]
pub struct LoadOptionWords<'a> {
    /// The description.
    pub description: &'a str,
    /// Its paths.
    pub paths: PathWords<'a>,
    /// The attributes.
    pub attributes: AttributeWords<'a>,
    /// The optional data.
    pub optional: OptionalWords<'a>,
}

/// What is said of a load option's paths.
#[derive(Clone, Copy)]
pub enum PathWords<'a> {
    /// The text of each.
    Texts(&'a [&'a str]),
    /// The one that leads to a file.
    Loader(LoaderWords<'a>),
}

/// The words that say a file which firmware loads.
#[derive(Clone, Copy)]
pub struct LoaderWords<'a> {
    /// The file: its path in a mounted file system, or its name on the disk that is named.
    pub file: &'a str,
    /// The path of the disk or of the partition, if one is named.
    pub disk: Option<&'a str>,
    /// The number of the partition, as it is written, if one is named.
    pub part: Option<&'a str>,
    /// The path of the folder that stands for the root of the system, or nothing.
    pub root: &'a str,
    /// What is to start it, if it is looked at whether that does.
    pub start: Option<StartWords<'a>>,
}

/// The words that say what is to start a file.
#[derive(Clone, Copy)]
pub struct StartWords<'a> {
    /// The place whose firmware it is.
    pub place: &'a str,
    /// Whether an entry is made although it doesn't.
    pub force: bool,
}

/// What is said of a load option's attributes.
#[derive(Clone, Copy)]
pub enum AttributeWords<'a> {
    /// All of them, as one number.
    Number(&'a str),
    /// Each by a flag.
    Flags {
        /// The boot manager doesn't try the option by itself.
        inactive: bool,
        /// A menu leaves the option out.
        hidden: bool,
        /// The option is an application that the user starts.
        app: bool,
        /// All drivers are connected again after the option's driver is loaded.
        reconnect: bool,
    },
}

/// What is said of a load option's optional data.
#[derive(Clone, Copy)]
pub enum OptionalWords<'a> {
    /// There are none.
    Nothing,
    /// Hexadecimal digits.
    Hex(&'a str),
    /// The path of a file with them.
    File(&'a str),
    /// A text, which is stored in UTF-16.
    Text(&'a str),
}

/// What a request is to ask for.
#[derive(Clone, Copy)]
pub enum RequestWords<'a> {
    /// To store a load option as a new entry.
    Add {
        /// The entry, as it is written.
        entry: &'a str,
        /// The path of the file with the load option.
        file: &'a str,
    },
    /// To store a load option in the place of that of an entry.
    Replace {
        /// The entry, as it is written.
        entry: &'a str,
        /// The path of the file with the load option.
        file: &'a str,
    },
    /// To store a load option as a new entry under the lowest free number.
    AddFree {
        /// The path of the file with the load option.
        file: &'a str,
    },
    /// To store a load option so, and to put it in front of the order.
    AddFirst {
        /// The path of the file with the load option.
        file: &'a str,
    },
    /// To take an entry out.
    Remove {
        /// The entry, as it is written.
        entry: &'a str,
    },
    /// To set the order in which entries are tried.
    Order {
        /// The entries, as they are written: none if the flag for an empty order is given.
        entries: &'a [&'a str],
    },
    /// To set the entry that the next boot tries first.
    Next {
        /// The entry, as it is written.
        entry: &'a str,
    },
    /// To put an entry in front of the order.
    First {
        /// The entry, as it is written.
        entry: &'a str,
    },
}
