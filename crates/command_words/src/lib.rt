//! What words of a command line stand for: load options, requests' frames, and numbers, as values alone, with no file and
//! no machine (UEFI specification, version 2.10, chapters 3 and 10).
//!
//! [`option_bytes`] makes a load option of words, and [`frame_bytes`] a frame, which [`frame_line`] puts into a line of
//! a script. [`attribute_bits`], [`attributes_of_text`], [`optional_text`], [`entry_of_digits`], [`number_of_digits`] and
//! [`seconds_of_digits`] read the words that these take, as [`path_of_text`] reads a path, and [`single_backslashes`] makes
//! one that was escaped one of UEFI. Faults are told in words for a person, by `{}`.
#![tactic(auto)]

mod digits;
mod frame;
mod option;

pub use digits::{
    DigitsFault, attributes_of_text, entry_of_digits, number_of_digits, seconds_of_digits,
};
pub use frame::{FrameWords, FrameWordsFault, frame_bytes, frame_line};
pub use option::{
    Flags, OptionPaths, OptionWords, OptionWordsFault, attribute_bits, option_bytes, optional_text,
    path_of_text, single_backslashes,
};
