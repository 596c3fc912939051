//! What changes machines.

use crate::change_options::{ChangeOptions, PlaceKind};
use crate::told::ToldAnswer;
use crate::wanted::Wanted;
use std::rt::{Clock, Files};
use whole_files::OutputFile;

/// What makes changes of machines, for commands that say what is wanted of one.
pub trait Machines {
    /// Makes a change of the machine in a place of this kind, or looks what it would be for a dry run. Gives what it answers, and
    /// what is told of it.
    ///
    /// # Errors
    ///
    /// Those of the change, and what else keeps it from being made.
    fn change<R, W>(
        &self,
        rt: &R,
        options: &ChangeOptions<'_>,
        kind: PlaceKind,
        wanted: &W,
    ) -> Result<ToldAnswer<W::Answer>, W::Refusal>
    where
        R: Files<File: OutputFile> + Clock + Input + Print + Eprint + AllocGlobal,
        W: Wanted;
}
