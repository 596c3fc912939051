//! Profiles that are wanted of a machine.

ghost use Rattle.std.specs.Prelude.{◌≡◌, IfOk};
ghost use Rattle.profile_changes.specs.Changed.{has_changes};

use crate::fault_words::from_profile_run;
use crate::telling::told_text;
use boot_journal::CallError;
use boot_profiles::{
    AppliedProfile, Profile, ProfileNext, ProfileOrder, ProfileRun, ProfileRunFault, ProfileTimeout,
};
use messages::Failure;
use place_edits::remark_repairs;
use profile_files::WrittenProfile;
use std::alloc::{AllocError, Global};
use uefi_vars::{BOOT_NEXT, BOOT_ORDER, TIMEOUT, Vars, boot_changes};
use wanted_changes::{LEFT_OUT, Led, Remarks, Seen, SetChange, Sets, Told, Wanted};

/// A profile that is wanted of a machine. It answers whether something is changed.
#[derive(Clone, Copy)]
pub(crate) struct WantedProfile<'a> {
    /// The path of the machine's place.
    pub(crate) place: &'a str,
    /// The profile.
    pub(crate) profile: &'a Profile,
    /// What the file has of it.
    pub(crate) written: &'a WrittenProfile,
    /// Whether JSON is printed.
    pub(crate) json: bool,
}

impl Wanted for WantedProfile<'_> {
    ghost use Rattle.boot_profiles.specs.Run.{IsRun, IsRunFault};
    ghost use Rattle.profile_changes.specs.Changed.{has_changes};

    type Answer = bool;

    type Fault = ProfileRunFault;

    type Refusal = Failure;

    ghost leads = { λ wanted seen from to is_changed. IsRun wanted.profile.now from to × (is_changed ≡ has_changes from to) };

    ghost refuses = { λ wanted seen from fault. IsRunFault wanted.profile.now from fault };

    /// Refuses a change of BootOrder, BootNext or Timeout that no set can hold.
    fn check(&self, alloc: Global, left_out: &[String]) -> Result<(), Failure> {
        for name in left_out {
            if self.touches(name) {
                let fault = format!(in alloc; "{name} {LEFT_OUT}")?;
                return Err(Failure::from_run(alloc, self.place, &fault));
            }
        }
        Ok(())
    }

    fn replaced(&self) -> Option<&Vars> {
        None
    }

    fn has_requests(&self) -> bool {
        false
    }

    fn run(
        &self,
        alloc: Global,
        _seen: &Seen<'_>,
        vars: &Vars,
    ) -> Result<Led<bool>, CallError<ProfileRunFault>> {
        let run = ProfileRun {
            profile: self.profile,
        };
        let AppliedProfile { from, to, kept } = run.make(alloc, vars)?;
        let is_changed = is_changed(alloc, vars, &kept)?;
        Ok(Led {
            sets: Sets { from, to },
            kept,
            answer: is_changed,
        })
    }

    fn tell(
        &self,
        alloc: Global,
        _seen: &Seen<'_>,
        change: SetChange<'_>,
        is_changed: &bool,
    ) -> Result<Told, Failure> {
        let mut remarks = Remarks::new(alloc);
        remark_repairs(alloc, &mut remarks, self.place, change)?;
        Ok(Told {
            text: told_text(alloc, change, self.json, *is_changed)?,
            remarks,
        })
    }

    fn refusal(&self, alloc: Global, fault: ProfileRunFault) -> Failure {
        from_profile_run(alloc, self.place, self.written, fault)
    }

    fn end(&self, _is_changed: &bool) {}
}

impl WantedProfile<'_> {
    /// Whether the profile may change the variable of this name, which no set can hold.
    fn touches(&self, name: &str) -> bool {
        let profile = self.profile;
        let has_entries = !profile.entries.is_empty();
        if name == BOOT_ORDER {
            has_entries || !matches!(&profile.order, ProfileOrder::Kept)
        } else if name == BOOT_NEXT {
            has_entries || !matches!(&profile.next, ProfileNext::Kept)
        } else {
            name == TIMEOUT && !matches!(&profile.timeout, ProfileTimeout::Kept)
        }
    }
}

/// Whether a variable of the boot manager has other data in the one set than in the other, or is in one alone.
fn is_changed(alloc: Global, from: &Vars, to: &Vars) -> Result<bool, AllocError>
    ensures { IfOk result (λ is. is ≡ has_changes from.now to.now) }
{
    let changes = boot_changes(alloc, from, to)?;
    Ok(!changes.is_empty())
}
