//! Refusals of updates as JSON.

use std::alloc::{AllocError, Global};
use value_texts::json::{JsonObject, JsonWriter, Leaf, append_leaves, append_object, json_line};

/// Why an update wasn't made, for whoever sent it.
#[derive(Clone, Copy, Debug)]
pub struct Refusal<'a> {
    /// What kept it from being made, in one word.
    pub kind: &'a str,
    /// Where or how many, of a kind that tells a number.
    pub count: Option<u32>,
    /// The same in words for a person.
    pub words: &'a str,
    /// What is to be done about it.
    pub remedy: Remedy,
    /// The next number, if it is known.
    pub next: Option<u32>,
    /// The identity of the journal, if it is known.
    pub journal: Option<&'a str>,
}

/// What is to be done about an update that wasn't made.
#[derive(Clone, Copy, Debug, PartialEq, Eq)]
pub enum Remedy {
    /// To send it again, whole.
    SendAgain,
    /// To look at the machine: until somebody does, no update will be made.
    MendMachine,
    /// To try again soon: another update is at work.
    Wait,
}

impl Remedy {
    /// The words for it.
    fn words(self) -> &'static str {
        match self {
            Remedy::SendAgain => "send again",
            Remedy::MendMachine => "mend machine",
            Remedy::Wait => "wait",
        }
    }
}

/// What the object of a refusal has in its member `refused`.
#[derive(Clone, Copy)]
struct Reasons<'a>(Refusal<'a>);

impl JsonObject for Reasons<'_> {
    fn append_members(&self, out: &mut JsonWriter) -> Result<(), AllocError> {
        let refusal = &self.0;
        append_leaves(
            &[
                ("kind", Leaf::Text(Some(refusal.kind))),
                ("count", Leaf::Number(refusal.count)),
                ("words", Leaf::Text(Some(refusal.words))),
                ("do", Leaf::Word(Some(refusal.remedy.words()))),
            ],
            out,
        )
    }
}

impl JsonObject for Refusal<'_> {
    fn append_members(&self, out: &mut JsonWriter) -> Result<(), AllocError> {
        append_object("refused", Some(&Reasons(*self)), out)?;
        append_leaves(
            &[
                ("next", Leaf::Number(self.next)),
                ("journal", Leaf::Text(self.journal)),
            ],
            out,
        )
    }
}

/// Shows a refusal as JSON, an object on one line that ends with a line feed. docs/formats.md has each member.
///
/// # Errors
///
/// [`AllocError`] if memory was refused.
pub fn refusal_json(alloc: Global, refusal: &Refusal<'_>) -> Result<String, AllocError> {
    json_line(alloc, refusal)
}
