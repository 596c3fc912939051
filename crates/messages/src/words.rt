//! Messages that several parts of a program tell, each in one place.

use std::fmt::{self, Display};

/// That what is called so isn't there.
#[derive(Clone, Copy)]
pub struct NoSuch<N>(pub N);

impl<N: Display> Display for NoSuch<N> {
    fn fmt<W: fmt::Write>(&self, f: &mut fmt::Formatter<W>) -> fmt::Result {
        write!(f, "there is no {}", self.0)
    }
}

/// That what is called so is there already.
#[derive(Clone, Copy)]
pub struct IsThere<N>(pub N);

impl<N: Display> Display for IsThere<N> {
    fn fmt<W: fmt::Write>(&self, f: &mut fmt::Formatter<W>) -> fmt::Result {
        write!(f, "{} is there already", self.0)
    }
}

/// That what is called so can't be read, and why.
#[derive(Clone, Copy)]
pub struct Unreadable<N, Y> {
    /// What it is called.
    pub name: N,
    /// Why it can't be read.
    pub why: Y,
}

impl<N: Display, Y: Display> Display for Unreadable<N, Y> {
    fn fmt<W: fmt::Write>(&self, f: &mut fmt::Formatter<W>) -> fmt::Result {
        write!(f, "{} can't be read: {}", self.name, self.why)
    }
}

/// That what is called so is ignored, and why.
#[derive(Clone, Copy)]
pub struct IsIgnored<N, Y> {
    /// What it is called.
    pub name: N,
    /// Why it is ignored.
    pub why: Y,
}

impl<N: Display, Y: Display> Display for IsIgnored<N, Y> {
    fn fmt<W: fmt::Write>(&self, f: &mut fmt::Formatter<W>) -> fmt::Result {
        write!(f, "{} is ignored: {}", self.name, self.why)
    }
}

/// That a word of the command line isn't what it is to be, and why.
#[derive(Clone, Copy)]
pub struct WrongWord<N, Y> {
    /// The word.
    pub word: N,
    /// What it is.
    pub fault: Y,
}

impl<N: Display, Y: Display> Display for WrongWord<N, Y> {
    fn fmt<W: fmt::Write>(&self, f: &mut fmt::Formatter<W>) -> fmt::Result {
        write!(f, "{} is {}", self.word, self.fault)
    }
}
