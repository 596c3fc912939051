//! What files look like that are none that the program takes.

use thiserror::Error;

/// What a file looks like that is no place of variables. Its `Display` says so, and what to do.
#[derive(Clone, Copy, Debug, PartialEq, Eq, Error)]
pub enum OtherKind {
    /// It has no byte.
    #[error("it is empty")]
    Empty,
    /// It is a load option.
    #[error("it is a load option, and no place of variables: `bootkeep option` shows it")]
    LoadOption,
    /// It is a file of efivarfs.
    #[error("it is one variable of efivarfs: give the folder that it is in")]
    Efivar,
    /// It begins with a frame.
    #[error("it is a stream of requests, and no place of variables: `bootvars explain` shows it")]
    Stream,
    /// It begins with a line of a script.
    #[error("it is a script of requests, and no place of variables: `bootvars explain` shows it")]
    Script,
    /// It is an image of a disk that only an emulator reads.
    #[error("it is a qcow2 image: make a raw one of it by `qemu-img convert -O raw`")]
    DiskImage,
    /// None of these.
    #[error("it is neither a set file nor an emulator's variable file")]
    Unknown,
}

/// What a file looks like that is no load option. Its `Display` says so, and what to do.
#[derive(Clone, Copy, Debug, PartialEq, Eq, Error)]
pub enum NoOption {
    /// It has no byte.
    #[error("it is empty, and no load option: `bootvars option` makes one")]
    Empty,
    /// It is a set file.
    #[error("it is a set file, and no load option: `bootvars show` shows its entries, `bootvars option` makes an option")]
    Set,
    /// It is an emulator's variable file.
    #[error("it is an emulator's variable file, and no load option: `bootvars show` shows its entries")]
    VariableFile,
    /// It is a file of efivarfs with a load option.
    #[error("it is one variable of efivarfs: its first four bytes are attributes, and `tail -c +5` leaves them out")]
    Efivar,
    /// It begins with a frame.
    #[error("it is a stream of requests, and no load option: `bootvars explain` shows it")]
    Stream,
    /// It begins with a line of a script.
    #[error("it is a script of requests, and no load option: `bootvars explain` shows it")]
    Script,
    /// It is an image of a disk that only an emulator reads.
    #[error("it is a qcow2 image, and no load option")]
    DiskImage,
}
