//! A check of a place.

ghost use Rattle.std.specs.Prelude.{IfOk};

use crate::checked::check_vars;
use crate::machine::Machine;
use crate::place::read_with_source;
use crate::view::view_of;
use boot_texts::{TellsTrial, check_json, check_report};
use messages::{Failure, print};
use std::rt::Files;

/// The words of a check.
#[derive(Clone, Copy)]
pub struct CheckWords<'a> {
    /// The place.
    pub place: &'a str,
    /// Nothing, or the path of a folder that stands for the root of the system on which partitions and files are
    /// sought.
    pub root: &'a str,
    /// Whether JSON is printed.
    pub json: bool,
}

/// What a check says of the next boot.
#[derive(Clone, Copy, Debug, PartialEq, Eq)]
pub enum Verdict {
    /// Nothing is wrong with what it tries first, as far as that was looked at.
    Fine,
    /// Something is wrong with it, or there is nothing that it tries.
    Wrong,
}

/// Prints what is found of the boot entries of a place and of BootOrder and BootNext, first of those that the next boot
/// tries, in its order, and of the start on trial, and tells whether what the next boot tries first can be started.
///
/// # Errors
///
/// [`Failure::Read`] if the place, or what the system tells of its disks, can't be read; [`Failure::Refused`] if it is
/// no place, or what the system tells isn't as it tells it; [`Failure::Write`] and [`Failure::Closed`] if the answer
/// can't be printed; and [`Failure::Memory`] if memory was refused.
pub fn check_place<R: Files + Input + Print + Eprint + AllocGlobal, T: TellsTrial>(
    rt: &R,
    words: &CheckWords<'_>,
    trials: &T,
) -> Result<Verdict, Failure> {
    let alloc = rt.alloc();
    let place = read_with_source(rt, words.place)?;
    let checked = check_vars(Machine::new(rt, words.root, place.source), &place.vars)?;
    let view = view_of(alloc, &checked, trials.told(&place.vars)?)?;
    let text = if words.json {
        check_json(alloc, &view)?
    } else {
        check_report(alloc, &view)?
    };
    print(rt, text.as_bytes())?;
    Ok(checked.verdict())
}
