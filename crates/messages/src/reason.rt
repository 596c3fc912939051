//! Why an input is refused, in words for a person.

use crate::notes::{DamageWords, Quoted};
use crate::other_files::{NoOption, OtherKind};
use thiserror::Error;

/// Why a file, a place or a word is refused. Its `Display` goes on from what that is called.
#[derive(Debug, Drop, Error)]
pub enum Reason {
    /// A file has more bytes than the program reads.
    #[error("it has more than {0} bytes")]
    TooMuch(usize),
    /// A file is no place of variables.
    #[error("{0}")]
    NoPlace(OtherKind),
    /// A file is no load option, and looks like something else.
    #[error("{0}")]
    NoOption(NoOption),
    /// A set file has BootKeepState, and is to be replaced by one without it.
    #[error("it has a BootKeepState, which the new set wouldn't have, so requests already done would be done again: \
        name another file, or take it away first")]
    LosesKeepState,
    /// A variable file is given where a set file has to be.
    #[error("it is an emulator's variable file: make a set of it by `bootvars read`")]
    VariableFile,
    /// A set file is given as the place of a machine.
    #[error("it is a set file, and no machine's: `bootkeep run` runs requests over it")]
    SetPlace,
    /// A file is given where a folder has to be.
    #[error("it is no folder")]
    NoFolder,
    /// A state folder may be written by others than its owner.
    #[error("its group or others may write it, and so what is done by its journal: take that from them by \
        `chmod go-w`, or name another folder")]
    SharedState,
    /// A state folder belongs to another user.
    #[error("it belongs to another user, who may write what is done by its journal: make it yours by `chown`, or name \
        another folder")]
    ForeignState,
    /// A journal has a fault, in words.
    #[error("the journal is damaged: {0}")]
    DamagedJournal(String),
    /// The path of a place is too long for the name of a machine.
    #[error("its path from the root on has more than {0} bytes, and can't name its machine")]
    LongPath(usize),
    /// A folder is given where a set file has to be.
    #[error("it is a folder: make a set of it by `bootvars read`")]
    Folder,
    /// A set file ends in a record.
    #[error("the set is cut: it has {found} bytes, and with the record at byte {place} at least {wanted}")]
    SetCut {
        /// The offset of the record.
        place: usize,
        /// How many bytes the file has.
        found: usize,
        /// How many it has at least, by what the record states.
        wanted: usize,
    },
    /// A record of a set file, at this offset, has no name of a variable.
    #[error("the set is damaged: the record at byte {0} has a name that no variable has")]
    SetName(usize),
    /// A record of a set file, at this offset, has no data, or too much.
    #[error("the set is damaged: the record at byte {0} has no data, or more than 1048576 bytes")]
    SetData(usize),
    /// A record of a set file, at this offset, isn't in its place.
    #[error("the set is damaged: the name of the record at byte {0} isn't above the one before")]
    SetOrder(usize),
    /// A file doesn't begin with a volume of variables.
    #[error("it doesn't begin with a firmware volume of variables")]
    NoVolume,
    /// The header of a volume is damaged.
    #[error("the header of its firmware volume is damaged")]
    VolumeHeader,
    /// A volume is to have more bytes than the file.
    #[error("it has {found} bytes, and its firmware volume is to have {wanted}: it is cut, or the volume's header is damaged")]
    VolumeCut {
        /// How many bytes the file has.
        found: usize,
        /// How many the volume has, as its header states it.
        wanted: u64,
    },
    /// A volume has no store of variables.
    #[error("its firmware volume has no store of variables")]
    NoStore,
    /// A store is of the older kind.
    #[error("its variables have no times: this older kind isn't read")]
    Unauthenticated,
    /// A store isn't formatted, or is damaged.
    #[error("its store of variables isn't formatted, or is damaged")]
    DamagedStore,
    /// A record of a store, at this offset, ends after the store.
    #[error("its store of variables is damaged: the record at byte {0} ends after the store")]
    RecordCut(usize),
    /// A store of variables has something after its last record that isn't erased, and is to be written.
    #[error("{0}; nothing is changed, and --force writes over it")]
    Damage(DamageWords),
    /// A store has no room for what is to be written.
    #[error("its store of variables has no room for the changes, and nothing is changed")]
    Full,
    /// A folder has no variable of the standard, and isn't on an efivarfs.
    #[error("no boot variables are in it: is efivarfs mounted there?")]
    NoBootVariables,
    /// Two files of a folder show one variable, of which one has this name.
    #[error("{file} is there twice, with letters of its GUID in different case: take one of them away", file = Quoted(.0.as_str()))]
    Twice(String),
    /// A set has no entry.
    #[error("no entry is in it, so all entries would be taken out: give --empty if that is meant")]
    NoEntry,
    /// What shows a variable, or is kept beside one, is no regular file.
    #[error("it is a pipe, a device or a socket, and isn't read: take it away")]
    NoRegularFile,
    /// A place is a pipe, a device or a socket.
    #[error("it is a pipe, a device or a socket, and isn't read: name a folder or a file, or give - and standard input")]
    NoPlaceFile,
    /// A variable isn't what was read of it any more.
    #[error("something else has changed it since it was read, and it stays as that left it: look at it, and try again")]
    ChangedMeanwhile,
    /// What shows a variable is no regular file, and is to be changed.
    #[error("its file is a link, a pipe, a device or a socket, and isn't written: take it away")]
    NotWritten,
    /// What is to be replaced is no regular file.
    #[error("it is neither a folder nor a regular file, and can't be written")]
    Irregular,
    /// Standard input is to be written.
    #[error("it can't be written: name a folder or a file")]
    Standard,
    /// Standard input is to be read twice.
    #[error("it can be read only once: name a file for the other place")]
    StandardTwice,
    /// A BootOrder is to be stored that firmware refuses.
    #[error("BootOrder isn't two bytes for each entry, and firmware refuses it; nothing is changed")]
    OrderRefused,
    /// A BootNext is to be stored that firmware refuses.
    #[error("BootNext isn't the two bytes of one entry, and firmware refuses it; nothing is changed")]
    NextRefused,
    /// A script or a stream has a fault, which was shown.
    #[error("it has a fault, which is shown")]
    Faulty,
    /// A fault that another library tells in words.
    #[error("{0}")]
    Fault(String),
}
