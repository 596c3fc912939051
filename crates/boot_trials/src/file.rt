//! The file of a trial.

ghost use Rattle.std.specs.Prelude.{◌≡◌, ◌≢◌, IfOk, IfErr, OnOk, MatchResult};
ghost use Rattle.std.specs.FinMap as map;
ghost use Rattle.std.specs.Option.{option_map};
ghost use Rattle.uefi_vars.specs.NameChanges.{with_data};
ghost use Rattle.uefi_vars.specs.Set.{SpellsSet};
ghost use Rattle.boot_trials.specs.Trial.{TrialParts};
ghost use Rattle.boot_trials.specs.File.{SpellsTrial, IsTrialFault, trial_vars, stage_byte, order_name};
ghost use Rattle.boot_trials.specs.declared.fault.TrialFault.TheVariants as fault;

use crate::fault::TrialFault;
use crate::laws;
use crate::reading::trial_in;
use crate::stage::Stage;
use crate::trial::Trial;
use std::alloc::{AllocError, Global};
use uefi_vars::{SetFault, Vars, laws as vars_laws, read_set, write_set};

/// The name of the variable with the digest.
pub(crate) const DIGEST: &str = "Digest";

/// The name of the variable with the number of the entry.
pub(crate) const ENTRY: &str = "Entry";

/// The name of the variable with the data of BootOrder.
pub(crate) const ORDER: &str = "Order";

/// The name of the variable with the stage.
pub(crate) const STAGE: &str = "Stage";

/// The name of the variable with the identity of the start.
pub(crate) const START: &str = "Start";

/// The file of a trial: a set file, as [`write_set`] gives it, of the variables `Digest`, the SHA-256 of the entry's data;
/// `Entry`, its number in two bytes, little-endian; `Order`, the data of BootOrder, which isn't there if there was none;
/// `Stage`, one byte, 0 if the trial is open and 1 if it is being confirmed; and `Start`, the identity of the start in which
/// it began, in ASCII. This fails only when out of memory.
pub fn write_trial(alloc: Global, trial: &Trial) -> Result<Vec<u8>, AllocError>
    ensures { IfOk result (λ bytes. SpellsTrial bytes.items trial.now) }
{
    trial.look();
    let vars = vars_of(alloc, trial)?;
    write_set(alloc, &vars)
}

/// The trial that these bytes are, all of them, as [`write_trial`] writes one.
///
/// # Errors
///
/// [`TrialFault::NoSet`] if they are no set file, [`TrialFault::NoTrial`] if they are one that isn't a trial's, and
/// [`TrialFault::OutOfMemory`] if memory was refused, also before such a fault.
pub fn read_trial(alloc: Global, bytes: &[u8]) -> Result<Trial, TrialFault>
    // What is read is spelled so.
    ensures found { IfOk result (λ trial. SpellsTrial bytes.now trial) }
    // What is spelled so is read.
    ensures only { (trial : TrialParts) → SpellsTrial bytes.now trial →
        MatchResult result (λ read. read ≡ trial) (λ f. f ≡ fault.OutOfMemory) }
    ensures refused { IfErr result (λ f. IsTrialFault bytes.now f) }
{
    laws::bytes_spell_one_trial();
    laws::a_fault_leaves_no_trial();
    match read_set(alloc, bytes) {
        Ok(vars) => trial_of_set(alloc, bytes, &vars),
        Err(SetFault::OutOfMemory) => Err(TrialFault::OutOfMemory),
        Err(fault) => Err(TrialFault::NoSet(fault)),
    }
}

/// The trial whose file has these bytes, which are a set file of these variables.
fn trial_of_set(alloc: Global, bytes: &[u8], vars: &Vars) -> Result<Trial, TrialFault>
    requires { SpellsSet bytes.now vars.now }
    ensures found { IfOk result (λ trial. SpellsTrial bytes.now trial) }
    ensures refused { IfErr result (IsTrialFault bytes.now) }
{
    let _bytes = bytes;
    vars_laws::bytes_spell_one_set();
    match trial_in(alloc, vars) {
        Ok(trial) => Ok(trial),
        Err(fault) => Err(fault),
    }
}

/// The variables of the file of a trial.
pub(crate) fn vars_of(alloc: Global, trial: &Trial) -> Result<Vars, AllocError>
    ensures { IfOk result (λ vars. vars ≡ trial_vars trial.now) }
{
    let mut vars = Vars::new(alloc);
    put(&mut vars, DIGEST, &trial.digest)?;
    put(&mut vars, ENTRY, &trial.entry.to_le_bytes())?;
    put(&mut vars, STAGE, &[stage_byte(trial.stage)])?;
    put(&mut vars, START, trial.start.as_str().as_bytes())?;
    put_order(&mut vars, trial.order.as_deref())?;
    Ok(vars)
}

/// Sets the variable with the data of BootOrder, or takes it out if there is none.
fn put_order(vars: &mut Vars, order: Option<&[u8]>) -> Result<(), AllocError>
    ensures { OnOk result (vars.new ≡ with_data vars.old order_name (option_map (λ bytes. bytes.now) order.entry)) }
{
    match order {
        Some(order) => put(vars, ORDER, order),
        None => {
            vars.remove(ORDER);
            Ok(())
        }
    }
}

/// Sets the variable of this name to this data.
fn put(vars: &mut Vars, name: &str, value: &[u8]) -> Result<(), AllocError>
    ensures { OnOk result (vars.new ≡ map.insert vars.old name.now value.now) }
{
    match vars.put(name, value) {
        Ok(()) => Ok(()),
        // Each name is one, and no data is empty or too long: that of BootOrder was a variable's.
        Err(_) => Err(AllocError),
    }
}

/// The byte that stands for a stage.
fn stage_byte(stage: Stage) -> u8
    ensures { result ≡ stage_byte stage }
{
    match stage {
        Stage::Open => 0,
        Stage::Confirming => 1,
    }
}
