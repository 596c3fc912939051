//! Runs of profiles over a machine's variables.

ghost use Rattle.std.specs.Prelude.{◌≡◌, IfOk, IfErr};
ghost use Rattle.boot_journal.specs.Cause.{IfRefused};
ghost use Rattle.boot_profiles.specs.Applied.{IsApplied};
ghost use Rattle.boot_profiles.specs.Run.{IsRefusal};
ghost use Rattle.boot_profiles.specs.declared.run.ProfileRunFault.TheVariants as run;

use crate::applying::apply;
use crate::fault::ProfileFault;
use crate::profile::Profile;
use boot_journal::{
    CallError, Run, laws as journal_laws, with_attributes_or, without_attributes_or,
};
use std::alloc::Global;
use thiserror::Error;
use uefi_vars::Vars;

/// A profile that is run over a machine's variables, as by [`apply`].
#[derive(Clone, Copy, Debug)]
pub struct ProfileRun<'a> {
    /// The profile.
    pub profile: &'a Profile,
}

/// Why a run of a profile refuses what a machine keeps.
#[derive(Clone, Copy, Debug, PartialEq, Eq, Hash, Error)]
pub enum ProfileRunFault {
    /// The profile isn't applied to the variables, without their attributes.
    #[error("Profile {0}")]
    Profile(ProfileFault),
    /// Under the name of a variable of the boot manager there is no byte after its attributes.
    #[error("NoData")]
    NoData,
    /// With its attributes, the data that a variable of the boot manager would have then has more than
    /// [`DATA_MAX`](uefi_vars::DATA_MAX) bytes.
    #[error("TooLong")]
    TooLong,
}

/// What a profile leads to over a machine's variables.
#[derive(Drop)]
pub struct AppliedProfile {
    /// The variables before it, without their attributes.
    pub from: Vars,
    /// The variables after it, without their attributes.
    pub to: Vars,
    /// The variables after it, as the machine is to keep them.
    pub kept: Vars,
}

impl ProfileRun<'_> {
    ghost use Rattle.boot_journal.specs.Attributes.{data_of};
    ghost use Rattle.boot_profiles.specs.Run.{IsRun, IsRunFault};

    /// Takes the attributes off the variables of the boot manager, applies the profile, and puts the attributes on
    /// again: a variable that is replaced has those that it had, and a new one has
    /// [`BOOT_ATTRIBUTES`](uefi_vars::BOOT_ATTRIBUTES).
    ///
    /// # Errors
    ///
    /// [`CallError::Refused`] with the fault that the profile or what the machine keeps has, and [`CallError::OutOfMemory`]
    /// if memory was refused.
    pub fn make(
        &self,
        alloc: Global,
        vars: &Vars,
    ) -> Result<AppliedProfile, CallError<ProfileRunFault>>
        ensures applied { IfOk result (λ led. IsRun self.now.profile.now vars.now led.kept) }
        ensures from { IfOk result (λ led. led.from ≡ data_of vars.now) }
        ensures to { IfOk result (λ led. led.to ≡ data_of led.kept) }
        ensures refused { IfErr result (λ error. IfRefused error (IsRunFault self.now.profile.now vars.now)) }
    {
        journal_laws::attributes_and_data_are_what_is_kept();
        let from = without_attributes_or(alloc, vars, ProfileRunFault::NoData)?;
        let to = applied(alloc, &from, self.profile)?;
        let kept = with_attributes_or(alloc, &to, vars, ProfileRunFault::TooLong)?;
        Ok(AppliedProfile { from, to, kept })
    }
}

impl Run for ProfileRun<'_> {
    ghost use Rattle.boot_profiles.specs.Run.{IsRun, IsRunFault};

    type Answer = ();

    type Fault = ProfileRunFault;

    ghost leads = { λ run from to answer. IsRun run.profile.now from to };

    ghost refuses = { λ run from fault. IsRunFault run.profile.now from fault };

    /// Applies the profile as [`ProfileRun::make`] does.
    fn run(self, alloc: Global, vars: &Vars) -> Result<(Vars, ()), CallError<ProfileRunFault>> {
        let AppliedProfile {
            from: _,
            to: _,
            kept,
        } = self.make(alloc, vars)?;
        Ok((kept, ()))
    }
}

/// What becomes of variables by this profile.
fn applied(
    alloc: Global,
    vars: &Vars,
    profile: &Profile,
) -> Result<Vars, CallError<ProfileRunFault>>
    ensures done { IfOk result (IsApplied profile.now vars.now) }
    ensures refused { IfErr result (λ error. IfRefused error (IsRefusal profile.now vars.now)) }
{
    match apply(alloc, vars, profile) {
        Ok(to) => Ok(to),
        Err(CallError::OutOfMemory) => Err(CallError::OutOfMemory),
        Err(CallError::Refused(fault)) => Err(CallError::Refused(ProfileRunFault::Profile(fault))),
    }
}
