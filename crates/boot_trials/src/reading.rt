//! What the variables of a file say of a trial.

ghost use Rattle.std.specs.Prelude.{◌≡◌, ◌≢◌, ℕ, List, [], ◌∷◌, Some, length, IfOk, IfErr, IfSome, IfNone, IsSome};
ghost use Rattle.std.specs.FinMap as map;
ghost use Rattle.std.specs.Int.{w16, to_le_bytes};
ghost use Rattle.std.specs.Option.{option_map};
ghost use Rattle.uefi_vars.specs.Name.{IsName};
ghost use Rattle.uefi_vars.specs.Order.{IsEntryNumber};
ghost use Rattle.boot_trials.specs.Trial.{IsTrial};
ghost use Rattle.boot_trials.specs.File.{IsOther, Tells, trial_vars, stage_byte, digest_name, entry_name, order_name, stage_name, start_name};
ghost use Rattle.boot_trials.specs.declared.stage.Stage.{Stage};
ghost use Rattle.boot_trials.specs.declared.fault.TrialFault.TheVariants as fault;

use crate::fault::TrialFault;
use crate::file::{DIGEST, ENTRY, ORDER, STAGE, START, vars_of};
use crate::stage::Stage;
use crate::trial::{DIGEST_LEN, Trial};
use boot_journal::BootId;
use std::alloc::{AllocError, Global};
use uefi_vars::Vars;

/// The trial whose file has these variables.
///
/// # Errors
///
/// [`TrialFault::NoTrial`] if there is none, and [`TrialFault::OutOfMemory`] if memory was refused.
pub(crate) fn trial_in(alloc: Global, vars: &Vars) -> Result<Trial, TrialFault>
    ensures found { IfOk result (λ trial. IsTrial trial × (vars.now ≡ trial_vars trial)) }
    ensures refused { IfErr result (λ f. f ≢ fault.OutOfMemory → IsOther vars.now f) }
{
    let entry = known_entry(vars)?;
    let digest = known_digest(vars)?;
    let stage = known_stage(vars)?;
    let start = known_start(alloc, vars)?;
    let trial = Trial {
        entry,
        digest,
        start,
        order: order_in(alloc, vars)?,
        stage,
    };
    checked(alloc, vars, trial)
}

/// The trial, if its file has these variables, which have its data under its names, and may have others.
fn checked(alloc: Global, vars: &Vars, trial: Trial) -> Result<Trial, TrialFault>
    requires { Tells vars.now trial }
    ensures found { IfOk result (λ same. IsTrial same × (vars.now ≡ trial_vars same)) }
    ensures refused { IfErr result (λ f. f ≢ fault.OutOfMemory → IsOther vars.now f) }
{
    trial.look();
    let own = vars_of(alloc, &trial)?;
    if own == *vars {
        Ok(trial)
    } else {
        Err(TrialFault::NoTrial)
    }
}

/// The number of the entry.
fn known_entry(vars: &Vars) -> Result<u16, TrialFault>
    ensures found { IfOk result (λ entry. map.get vars.now entry_name ≡ Some (to_le_bytes w16 entry)) }
    ensures refused { IfErr result (IsOther vars.now) }
{
    match entry_in(vars) {
        Some(entry) => Ok(entry),
        None => Err(TrialFault::NoTrial),
    }
}

/// The digest.
fn known_digest(vars: &Vars) -> Result<[u8; DIGEST_LEN], TrialFault>
    ensures found { IfOk result (λ digest. map.get vars.now digest_name ≡ Some digest) }
    ensures refused { IfErr result (IsOther vars.now) }
{
    match digest_in(vars) {
        Some(digest) => Ok(digest),
        None => Err(TrialFault::NoTrial),
    }
}

/// The stage.
fn known_stage(vars: &Vars) -> Result<Stage, TrialFault>
    ensures found { IfOk result (λ stage. map.get vars.now stage_name ≡ Some (stage_byte stage ∷ [])) }
    ensures refused { IfErr result (IsOther vars.now) }
{
    match stage_in(vars) {
        Some(stage) => Ok(stage),
        None => Err(TrialFault::NoTrial),
    }
}

/// The identity of the start.
fn known_start(alloc: Global, vars: &Vars) -> Result<BootId, TrialFault>
    ensures found { IfOk result (λ start. map.get vars.now start_name ≡ Some start) }
    ensures refused { IfErr result (λ f. f ≢ fault.OutOfMemory → IsOther vars.now f) }
{
    match start_in(alloc, vars) {
        Ok(Some(start)) => Ok(start),
        Ok(None) => Err(TrialFault::NoTrial),
        Err(AllocError) => Err(TrialFault::OutOfMemory),
    }
}

/// The number of the entry.
fn entry_in(vars: &Vars) -> Option<u16>
    ensures some { IfSome result (λ entry. map.get vars.now entry_name ≡ Some (to_le_bytes w16 entry)) }
    ensures none { IfNone result ((entry : ℕ) → IsEntryNumber entry →
        map.get vars.now entry_name ≡ Some (to_le_bytes w16 entry) → ⊥) }
{
    match vars.get(ENTRY) {
        Some([low, high]) => Some(u16::from_le_bytes([*low, *high])),
        _ => None,
    }
}

/// The digest.
fn digest_in(vars: &Vars) -> Option<[u8; DIGEST_LEN]>
    ensures some { IfSome result (λ digest. map.get vars.now digest_name ≡ Some digest) }
    ensures none { IfNone result ((digest : List ℕ) → length digest ≡ 32 →
        map.get vars.now digest_name ≡ Some digest → ⊥) }
{
    let data = vars.get(DIGEST)?;
    match <[u8; DIGEST_LEN]>::try_from(data) {
        Ok(digest) => Some(digest),
        Err(_) => None,
    }
}

/// The stage.
fn stage_in(vars: &Vars) -> Option<Stage>
    ensures some { IfSome result (λ stage. map.get vars.now stage_name ≡ Some (stage_byte stage ∷ [])) }
    ensures none { IfNone result ((stage : Stage) → map.get vars.now stage_name ≡ Some (stage_byte stage ∷ []) → ⊥) }
{
    match vars.get(STAGE) {
        Some([0]) => Some(Stage::Open),
        Some([1]) => Some(Stage::Confirming),
        _ => None,
    }
}

/// The identity of the start: `None` if there is none.
fn start_in(alloc: Global, vars: &Vars) -> Result<Option<BootId>, AllocError>
    ensures some { IfOk result (λ found. IfSome found (λ start.
        IsName start × (map.get vars.now start_name ≡ Some start))) }
    ensures none { IfOk result (λ found. IfNone found ((start : List ℕ) → IsName start →
        map.get vars.now start_name ≡ Some start → ⊥)) }
{
    let Some(data) = vars.get(START) else {
        return Ok(None);
    };
    match str::from_utf8(data) {
        Ok(text) => Ok(BootId::new(String::from_str(alloc, text)?)),
        Err(_) => Ok(None),
    }
}

/// The data of BootOrder, if there is some.
fn order_in(alloc: Global, vars: &Vars) -> Result<Option<Vec<u8>>, AllocError>
    ensures { IfOk result (λ found. option_map (λ bytes. bytes.items) found ≡ map.get vars.now order_name) }
{
    match vars.get(ORDER) {
        Some(data) => Ok(Some(Vec::from_slice(alloc, data)?)),
        None => Ok(None),
    }
}
