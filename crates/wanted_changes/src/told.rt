//! What is told of a change, which is made before the change is: afterwards a refusal of memory would tell of a change that
//! was made as if it weren't.

use messages::{Failure, note, print};
use std::alloc::{AllocError, Global};

/// What is told of a change of a place.
#[derive(Drop)]
pub struct Told {
    /// What is printed.
    pub text: String,
    /// What standard error is told.
    pub remarks: Remarks,
}

impl Told {
    /// Tells on standard error what there is to tell of the change.
    pub fn remark<R: Eprint>(&self, rt: &R) {
        for remark in &self.remarks.remarks {
            note(rt, remark.about.as_str(), remark.text.as_str());
        }
    }

    /// Prints what is printed of the change.
    ///
    /// # Errors
    ///
    /// [`Failure::Write`] and [`Failure::Closed`] if it can't be printed.
    pub fn print<R: Print + AllocGlobal>(&self, rt: &R) -> Result<(), Failure> {
        print(rt, self.text.as_bytes())
    }
}

/// What a run answers, and what is told of it.
#[derive(Drop)]
pub struct ToldAnswer<A> {
    /// What it answers.
    pub answer: A,
    /// What is told.
    pub told: Told,
}

impl<A: Drop> ToldAnswer<A> {
    /// Tells what is told of the run, on standard error and on standard output, and gives what it answers.
    ///
    /// # Errors
    ///
    /// [`Failure::Write`] and [`Failure::Closed`] if it can't be printed.
    pub fn give<R: Print + Eprint + AllocGlobal>(self, rt: &R) -> Result<A, Failure> {
        let ToldAnswer { answer, told } = self;
        told.remark(rt);
        told.print(rt)?;
        Ok(answer)
    }
}

/// Lines for standard error.
#[derive(Drop)]
pub struct Remarks {
    alloc: Global,
    remarks: Vec<Remark>,
}

/// A line for standard error.
#[derive(Drop)]
struct Remark {
    /// What it is of: the name of a file or a folder.
    about: String,
    /// What it says.
    text: String,
}

impl Remarks {
    /// No lines.
    pub fn new(alloc: Global) -> Remarks {
        Remarks {
            alloc,
            remarks: Vec::new(alloc),
        }
    }

    /// Appends a line about what has this name.
    ///
    /// # Errors
    ///
    /// [`AllocError`] if memory was refused.
    pub fn push(&mut self, about: &str, text: String) -> Result<(), AllocError> {
        let about = String::from_str(self.alloc, about)?;
        self.remarks.push(Remark { about, text })?;
        Ok(())
    }
}
