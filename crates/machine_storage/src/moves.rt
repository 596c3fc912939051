//! What the changes are for that a machine's storage is asked to make.

ghost use Rattle.std.specs.Prelude.{◌≡◌};
ghost use Rattle.machine_storage.specs.Moves.{after_journal, way_for};

/// What is being done to a machine, as the replacements of its journal tell.
#[derive(Clone, Copy, Debug, PartialEq, Eq)]
pub(crate) enum Moves {
    /// Nothing is left to do.
    Idle,
    /// What an earlier run left to do is done, or taken back.
    Settling,
    /// Changes are made for the first time, of what this run read.
    First,
    /// They are taken back.
    Back,
}

/// How a change is to be made.
#[derive(Clone, Copy, Debug, PartialEq, Eq)]
pub(crate) enum Way {
    /// Whatever is there: an update that was cut off may have left anything of it, and to pass over what something else has
    /// changed since would leave half an update.
    Whatever,
    /// If the variable is what was read of it: what something else has made of it meanwhile isn't this run's to write over.
    IfUnchanged,
    /// Not at all: this run hasn't begun to write the variable, so nothing of it is to be taken back.
    NotAtAll,
}

impl Moves {
    /// What is being done once the journal is replaced by one that has nothing left to do, or has something.
    pub(crate) fn after(self, is_idle: bool) -> Moves
        ensures { result ≡ after_journal self is_idle }
    {
        match (self, is_idle) {
            (_, true) => Moves::Idle,
            (Moves::Idle, false) => Moves::First,
            (Moves::Settling, false) => Moves::Settling,
            (Moves::First | Moves::Back, false) => Moves::Back,
        }
    }

    /// How a change of a variable is to be made, which this run has begun to write, or hasn't.
    pub(crate) fn way(self, has_begun: bool) -> Way
        ensures { result ≡ way_for self has_begun }
    {
        match (self, has_begun) {
            (Moves::Idle | Moves::Settling, _) => Way::Whatever,
            (Moves::First, _) => Way::IfUnchanged,
            (Moves::Back, true) => Way::Whatever,
            (Moves::Back, false) => Way::NotAtAll,
        }
    }
}
