//! What is to be said of numbers in BootOrder.

use std::alloc::{AllocError, Global};
use uefi_vars::Vars;
use value_texts::NumberList;
use value_texts::json::{JsonWriter, Leaf, append_leaves};

/// What is to be said of numbers in BootOrder. Each list has its numbers once, by rising number.
#[derive(Drop)]
pub(crate) struct OrderMarks {
    /// Those that have no entry.
    stale: Vec<u16>,
    /// Those of entries that aren't active.
    inactive: Vec<u16>,
    /// Those that are in it more than once.
    twice: Vec<u16>,
}

impl OrderMarks {
    /// Those of an order without numbers.
    pub(crate) fn empty(alloc: Global) -> OrderMarks {
        OrderMarks {
            stale: Vec::new(alloc),
            inactive: Vec::new(alloc),
            twice: Vec::new(alloc),
        }
    }

    /// The marks of this order of variables, of which these entries, by rising number, aren't active. This fails only when
    /// out of memory.
    pub(crate) fn new(
        alloc: Global,
        vars: &Vars,
        order: &[u16],
        inactive: &[u16],
    ) -> Result<OrderMarks, AllocError> {
        let mut numbers = Vec::from_slice(alloc, order)?;
        numbers.sort_unstable();
        let twice = repeated(alloc, &numbers)?;
        numbers.dedup();
        let mut marks = OrderMarks::empty(alloc);
        marks.twice = twice;
        for number in &numbers {
            if vars.entry(*number).is_none() {
                marks.stale.push(*number)?;
            } else if inactive.binary_search(number).is_ok() {
                marks.inactive.push(*number)?;
            }
        }
        Ok(marks)
    }

    /// Appends the members to the object that is open.
    pub(crate) fn append_members(&self, out: &mut JsonWriter) -> Result<(), AllocError> {
        append_leaves(
            &[
                ("stale", Leaf::Numbers(Some(&self.stale))),
                ("inactive", Leaf::Numbers(Some(&self.inactive))),
                ("twice", Leaf::Numbers(Some(&self.twice))),
            ],
            out,
        )
    }

    /// Appends an indented line for each list that has numbers.
    pub(crate) fn append_lines(&self, report: &mut String) -> Result<(), AllocError> {
        append_list("stale", &self.stale, report)?;
        append_list("inactive", &self.inactive, report)?;
        append_list("twice", &self.twice, report)
    }
}

/// Appends an indented line of these numbers, if there are some.
fn append_list(word: &str, numbers: &[u16], report: &mut String) -> Result<(), AllocError> {
    if numbers.is_empty() {
        return Ok(());
    }
    writeln!(report, "  {word}{}", NumberList(numbers))
}

/// The numbers that come more than once, each once, in a list by rising number.
fn repeated(alloc: Global, numbers: &[u16]) -> Result<Vec<u16>, AllocError> {
    let mut repeated = Vec::new(alloc);
    for (number, next) in numbers.iter().zip(numbers.iter().skip(1)) {
        if number == next {
            repeated.push(*number)?;
        }
    }
    repeated.dedup();
    Ok(repeated)
}
