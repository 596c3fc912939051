//! What words ask for.

ghost use Rattle.std.specs.Prelude.{◌≡◌, Ok, MatchResult, Err, IfOk, is_some};
ghost use Rattle.std.specs.Option.{option_map};
ghost use Rattle.efibootmgr_words.specs.Parts.{fault_parts, given_parts, option_parts};
ghost use Rattle.efibootmgr_words.specs.Values.{IsRefusal};
ghost use Rattle.efibootmgr_words.specs.Asked.{asked_parts, nothing_asked, plainly_asked, asked_with, asked_and, not_done, family_option, family_meant, family_fault, fault_for, fault_together, asked_of};

use crate::fault::WordFault;
use crate::given_words::{Given, GivenOption};
use crate::option_table::Choice;
use crate::values::{
    ValueFault, check_edd, entry_value, next_value, order_value, part_value, timeout_value,
    verbose_value,
};
use std::alloc::{AllocError, Global};
use uefi_vars::EntryFamily;

/// The disk if none is named.
const DISK: &str = "/dev/sda";

/// The loader if none is named, as in Debian.
const LOADER: &str = "\\EFI\\debian\\grub.efi";

/// The description if none is given.
const LABEL: &str = "Linux";

/// What words ask for. What is asked for twice is as the last word says it.
#[derive(Debug, Drop)]
pub struct Asked<'a> {
    /// Whether the help is to be printed, and nothing else to be done.
    pub help: bool,
    /// Whether the version is to be printed, and nothing else to be done.
    pub version: bool,
    /// Whether nothing is to be listed.
    pub quiet: bool,
    /// Whether paths and optional data are to be listed too.
    pub verbose: bool,
    /// Whether entries of drivers are meant.
    pub driver: bool,
    /// Whether entries of what prepares the system are meant.
    pub sysprep: bool,
    /// The entry that is named by `-b`.
    pub entry: Option<u16>,
    /// Whether that entry is to be taken out.
    pub delete: bool,
    /// Whether that entry is to be active, if it is to become one or the other.
    pub active: Option<bool>,
    /// Whether an entry is to be made.
    pub create: bool,
    /// Whether an entry that is made stays out of BootOrder.
    pub no_order: bool,
    /// The entry that is to be made.
    pub new: EntryWords<'a>,
    /// Whether BootOrder is to be taken out.
    pub delete_order: bool,
    /// What BootOrder is to be.
    pub order: Option<Vec<u16>>,
    /// Whether what BootOrder had stays in it, behind that.
    pub keep: bool,
    /// Whether repeated numbers are to be taken out of BootOrder.
    pub remove_repeats: bool,
    /// Whether BootNext is to be taken out.
    pub delete_next: bool,
    /// What BootNext is to be.
    pub next: Option<u16>,
    /// Whether Timeout is to be taken out.
    pub delete_timeout: bool,
    /// What Timeout is to be, in seconds.
    pub timeout: Option<u16>,
    /// The words that belong to no option, which are optional data of an entry that is made.
    pub others: Vec<&'a str>,
}

/// The words of an entry that is to be made.
#[derive(Clone, Copy, Debug)]
pub struct EntryWords<'a> {
    /// The path of the loader's disk, or of its partition.
    pub disk: &'a str,
    /// The number of its partition on the disk.
    pub part: Option<u32>,
    /// Its name in the file system there.
    pub loader: &'a str,
    /// The description.
    pub label: &'a str,
    /// The path of a file with optional data, to which other words are added.
    pub binary_arguments: Option<&'a str>,
    /// Whether other words are stored in UTF-16, and not as they are.
    pub unicode: bool,
}

impl<'a> Asked<'a> {
    /// What is asked for by what was given.
    ///
    /// # Errors
    ///
    /// The first [`WordFault`], in the order of the words; of those that need an entry after all others. What comes behind a
    /// word that asks for the help isn't looked at. [`AllocError`] if memory was refused.
    pub fn new(
        alloc: Global,
        given: Given<'a>,
    ) -> Result<Result<Asked<'a>, WordFault<'a>>, AllocError>
        ensures { IfOk result (λ told. MatchResult told
            (λ asked. asked_of (given_parts given.entry) ≡ Ok (asked_parts asked))
            (λ fault. asked_of (given_parts given.entry) ≡ Err (fault_parts fault))) }
    {
        match asked_of(alloc, given) {
            Ok(asked) => Ok(Ok(asked)),
            Err(ValueFault::Word(fault)) => Ok(Err(fault)),
            Err(ValueFault::OutOfMemory) => Err(AllocError),
        }
    }

    /// Whose entries are meant.
    pub fn family(&self) -> EntryFamily
        ensures { result ≡ family_meant self.now.driver self.now.sysprep }
    {
        if self.driver {
            EntryFamily::Driver
        } else if self.sysprep {
            EntryFamily::SysPrep
        } else {
            EntryFamily::Boot
        }
    }

    /// What is asked for by no word.
    fn nothing(alloc: Global) -> Asked<'a>
        ensures { asked_parts result ≡ nothing_asked }
    {
        Asked {
            help: false,
            version: false,
            quiet: false,
            verbose: false,
            driver: false,
            sysprep: false,
            entry: None,
            delete: false,
            active: None,
            create: false,
            no_order: false,
            new: EntryWords {
                disk: DISK,
                part: None,
                loader: LOADER,
                label: LABEL,
                binary_arguments: None,
                unicode: false,
            },
            delete_order: false,
            order: None,
            keep: false,
            remove_repeats: false,
            delete_next: false,
            next: None,
            delete_timeout: false,
            timeout: None,
            others: Vec::new(alloc),
        }
    }

    /// Takes an option into account.
    fn take(&mut self, alloc: Global, option: GivenOption<'a>) -> Result<(), ValueFault<'a>>
        ensures { MatchResult result
            (λ _. asked_and (option_parts option.entry) (asked_parts self.entry.now) ≡ Ok (asked_parts self.exit.now))
            (λ fault. IsRefusal fault (asked_and (option_parts option.entry) (asked_parts self.entry.now))) }
    {
        if let Some(name) = not_done(option.choice) {
            return Err(ValueFault::Word(WordFault::NotDone(name)));
        }
        match option.value {
            Some(value) => self.take_value(alloc, option.choice, value),
            None => {
                self.take_plain(option.choice);
                Ok(())
            }
        }
    }

    /// Takes an option without a value into account.
    fn take_plain(&mut self, choice: Choice)
        ensures { asked_parts self.exit.now ≡ plainly_asked choice (asked_parts self.entry.now) }
    {
        match choice {
            Choice::Activate => self.active = Some(true),
            Choice::Deactivate => self.active = Some(false),
            Choice::Delete => self.delete = true,
            Choice::Create => self.create = true,
            Choice::CreateOnly => {
                self.create = true;
                self.no_order = true;
            }
            Choice::Keep => self.keep = true,
            Choice::RemoveRepeats => self.remove_repeats = true,
            Choice::DeleteNext => self.delete_next = true,
            Choice::DeleteOrder => self.delete_order = true,
            Choice::Quiet => self.quiet = true,
            Choice::DeleteTimeout => self.delete_timeout = true,
            Choice::Unicode => self.new.unicode = true,
            Choice::Verbose => self.verbose = true,
            Choice::Driver => self.driver = true,
            Choice::SysPrep => self.sysprep = true,
            Choice::Version => self.version = true,
            Choice::Help => self.help = true,
            _ => {}
        }
    }

    /// Takes an option with this value into account.
    fn take_value(
        &mut self,
        alloc: Global,
        choice: Choice,
        value: &'a str,
    ) -> Result<(), ValueFault<'a>>
        ensures { MatchResult result
            (λ _. asked_with choice value.now (asked_parts self.entry.now) ≡ Ok (asked_parts self.exit.now))
            (λ fault. IsRefusal fault (asked_with choice value.now (asked_parts self.entry.now))) }
    {
        match choice {
            Choice::Entry => self.entry = Some(entry_value(value)?),
            Choice::Next => self.next = Some(next_value(value)?),
            Choice::Order => self.order = Some(order_value(alloc, value)?),
            Choice::Timeout => self.timeout = Some(timeout_value(value)?),
            Choice::Part => self.new.part = Some(part_value(value)?),
            Choice::Verbose => self.verbose = verbose_value(value)?,
            Choice::Edd => check_edd(value)?,
            Choice::Disk => self.new.disk = value,
            Choice::Loader => self.new.loader = value,
            Choice::Label => self.new.label = value,
            Choice::BinaryArguments => self.new.binary_arguments = Some(value),
            _ => {}
        }
        Ok(())
    }

    /// What is wrong with the words together.
    fn fault_together(&self) -> Option<WordFault<'a>>
        ensures { option_map fault_parts result ≡ fault_together (asked_parts self.now) }
    {
        if self.version {
            return None;
        }
        match self.family_fault() {
            Some(fault) => Some(fault),
            None => self.entry_fault(),
        }
    }

    /// What is wrong with the families that the words mean.
    fn family_fault(&self) -> Option<WordFault<'a>>
        ensures { option_map fault_parts result ≡ family_fault (asked_parts self.now) }
    {
        if self.driver && self.sysprep {
            return Some(WordFault::BothFamilies);
        }
        let name = family_option(self.driver, self.sysprep)?;
        if self.next.is_some() || self.delete_next {
            Some(WordFault::NoNext(name))
        } else if self.timeout.is_some() || self.delete_timeout {
            Some(WordFault::NoTimeout(name))
        } else {
            None
        }
    }

    /// Which entry is to be changed and isn't named.
    fn entry_fault(&self) -> Option<WordFault<'a>>
        ensures { option_map fault_parts result
            ≡ fault_for (is_some self.now.entry) self.now.delete (is_some self.now.active) }
    {
        if self.entry.is_some() {
            None
        } else if self.delete {
            Some(WordFault::NoneToDelete)
        } else if self.active.is_some() {
            Some(WordFault::NoneToActivate)
        } else {
            None
        }
    }
}

/// The name of the option for entries of another family than the boot manager's, if one of the two is given.
fn family_option(driver: bool, sysprep: bool) -> Option<&'static str>
    ensures { option_map (λ name. name.now) result ≡ family_option driver sysprep }
{
    if driver {
        Some("driver")
    } else if sysprep {
        Some("sysprep")
    } else {
        None
    }
}

/// The name of an option that isn't done here.
fn not_done(choice: Choice) -> Option<&'static str>
    ensures { option_map (λ name. name.now) result ≡ not_done choice }
{
    match choice {
        Choice::EddDevice => Some("edd-device"),
        Choice::Interface => Some("iface"),
        Choice::MirrorBelow => Some("mirror-below-4G"),
        Choice::MirrorAbove => Some("mirror-above-4G"),
        _ => None,
    }
}

/// What is asked for by what was given.
fn asked_of<'a>(alloc: Global, given: Given<'a>) -> Result<Asked<'a>, ValueFault<'a>>
    ensures { MatchResult result
        (λ asked. asked_of (given_parts given.entry) ≡ Ok (asked_parts asked))
        (λ fault. IsRefusal fault (asked_of (given_parts given.entry))) }
{
    let mut asked = Asked::nothing(alloc);
    for option in &given.options {
        asked.take(alloc, *option)?;
        if asked.help {
            return Ok(asked);
        }
    }
    if let Some(fault) = given.fault {
        return Err(ValueFault::Word(fault));
    }
    if let Some(fault) = asked.fault_together() {
        return Err(ValueFault::Word(fault));
    }
    asked.others = given.others;
    Ok(asked)
}
