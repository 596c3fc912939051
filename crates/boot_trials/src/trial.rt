//! Trials.

ghost use Rattle.std.specs.Prelude.{◌≡◌};
ghost use Rattle.std.specs.Option.{option_map};
ghost use Rattle.boot_trials.specs.Trial.{IsTrial};

use crate::stage::Stage;
use boot_journal::BootId;
use std::marker::Model;

/// How many bytes the SHA-256 of an entry has.
pub const DIGEST_LEN: usize = 32;

/// A start on trial: which entry is tried, and what was there when that began.
#[derive(Debug, Drop)]
pub struct Trial {
    pub(crate) entry: u16,
    pub(crate) digest: [u8; DIGEST_LEN],
    pub(crate) start: BootId,
    pub(crate) order: Option<Vec<u8>>,
    pub(crate) stage: Stage,
}

impl Model for Trial {
    ghost use Rattle.std.specs.Option.{option_map};
    ghost use Rattle.boot_trials.specs.Trial.{TrialParts, IsTrial, trial_of};

    ghost Value = { TrialParts };

    ghost view = { λ t. trial_of t.entry t.digest t.start (option_map (λ bytes. bytes.items) t.order) t.stage };

    ghost invariant = { λ t. IsTrial
        (trial_of t.entry t.digest t.start (option_map (λ bytes. bytes.items) t.order) t.stage) };
}

impl Trial {
    /// The number of the entry that is tried.
    pub fn entry(&self) -> u16
        ensures { result ≡ self.now.entry }
    {
        self.entry
    }

    /// The SHA-256 of the entry's data, without attributes, when the trial began.
    pub fn digest(&self) -> [u8; DIGEST_LEN]
        ensures { result ≡ self.now.digest }
    {
        self.digest
    }

    /// The identity of the start in which the trial began.
    pub fn start(&self) -> &BootId
        ensures { result.now ≡ self.now.start }
    {
        &self.start
    }

    /// The data of BootOrder when the trial began, two bytes for each number, little-endian (UEFI 2.10, 3.3): `None` if there
    /// was none.
    pub fn order(&self) -> Option<&[u8]>
        ensures { option_map (λ bytes. bytes.now) result ≡ self.now.order }
    {
        self.order.as_deref()
    }

    /// How far it is.
    pub fn stage(&self) -> Stage
        ensures { result ≡ self.now.stage }
    {
        self.stage
    }

    /// The same trial in this stage.
    pub fn with_stage(self, stage: Stage) -> Trial
        ensures { result ≡ record self { stage = stage } }
    {
        let Trial {
            entry,
            digest,
            start,
            order,
            stage: _,
        } = self;
        Trial {
            entry,
            digest,
            start,
            order,
            stage,
        }
    }

    /// Looks at the trial, for the contract alone.
    pub(crate) fn look(&self)
        ensures { IsTrial self.now }
    {
        let _entry = self.entry;
    }
}
