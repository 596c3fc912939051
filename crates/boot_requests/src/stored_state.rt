//! Variables to a keeper.

ghost use Rattle.std.specs.Prelude.{◌≡◌, ◌≢◌, ◌⊎◌, ◌↔◌, ◌<◌, ℕ, List, Err, IfOk, IfErr, OnOk, OnErr, MatchOption, MatchResult, IsTrue, IsFalse};
ghost use Rattle.std.specs.FinMap as map;
ghost use Rattle.uefi_path.specs.Answer.{IsUnless};
ghost use Rattle.uefi_vars.specs.Order.{HasBadOrder};
ghost use Rattle.uefi_vars.specs.NameChanges.{with_data};
ghost use Rattle.boot_requests.specs.declared.fault.OpenFault.{OpenFault};
ghost use Rattle.boot_requests.specs.declared.outcome.Outcome.{Outcome};
ghost use Rattle.uefi_vars.specs.Name.{keep_text};
ghost use Rattle.boot_requests.specs.State.{State, stored_mark};
ghost use Rattle.boot_requests.specs.StoredState.{HasMark, HasSecondMark, HasBadMark, OpensAs, IsOpenFault};
ghost use Rattle.boot_requests.specs.Turn.{plain_start};
ghost use Rattle.boot_requests.specs.StateOf.{state_of};
ghost use Rattle.boot_requests.specs.Slots.{waiting_of, IsKeeper};

use crate::edit::store_mark;
use crate::fault::OpenFault;
use crate::keeper::Keeper;
use crate::mark::Mark;
use crate::window::Window;
use std::alloc::{AllocError, Global};
use uefi_vars::{BOOT_ORDER, Changes, KEEP_STATE, ORDER_MAX, Vars, boot_next, laws};

/// Variables that weren't kept, with the reason.
#[derive(Debug, Drop)]
pub struct OpenRefused {
    /// Why.
    pub fault: OpenFault,
    /// The variables as they were.
    pub vars: Vars,
}

impl Keeper {
    /// What keeps these variables, with nothing prepared: BootOrder and BootNext are those of UEFI 2.10, 3.3, and the
    /// next number and the outcomes that are kept are those of BootKeepState, or 0 and none if it isn't stored. A
    /// BootKeepState of version 1 is replaced by one of version 2, with the same next number and outcomes.
    ///
    /// # Errors
    ///
    /// The variables as they were, with [`OpenFault::BadOrder`] if the bytes of BootOrder are odd in number or more
    /// than two for each of [`ORDER_MAX`] numbers; otherwise [`OpenFault::BadNext`] if BootNext has another number of
    /// bytes than two; otherwise [`OpenFault::BadState`] if the bytes of BootKeepState are neither those of version 2
    /// nor those of version 1; otherwise [`OpenFault::OutOfMemory`] if memory for them was refused. Those of version 2
    /// are the version, a next number of four bytes, little-endian and not 0, how many outcomes are kept, and four
    /// bytes for each: a code below 6, whether an entry is told, and its number in two bytes, little-endian. At least
    /// 16 are kept, or all if there were fewer requests; at most 64, and never more than there were requests. An entry
    /// is told with the code 0 alone, and its number is 0 if none is. Those of version 1 are the version, the next
    /// number, how many outcomes are kept, which is 16 or as many as there were requests, and a code below 5 for each.
    pub fn open(alloc: Global, vars: Vars) -> Result<Keeper, OpenRefused>
        ensures opened { IfOk result (λ keeper.
            (keeper ≡ plain_start keeper.state) × OpensAs vars keeper.state) }
        ensures only { (m : State) → OpensAs vars m → MatchResult result
            (λ keeper. keeper ≡ plain_start m)
            (λ refused. refused.fault ≡ OpenFault.OutOfMemory) }
        ensures fault { IfErr result (λ refused.
            refused.fault ≢ OpenFault.OutOfMemory → IsOpenFault vars refused.fault) }
        ensures only_fault { (fault : OpenFault) → IsOpenFault vars fault → MatchResult result
            (λ keeper. ⊥)
            (λ refused. (refused.fault ≡ fault) ⊎ (refused.fault ≡ OpenFault.OutOfMemory)) }
        ensures handed_back { IfErr result (λ refused. refused.vars ≡ vars) }
    {
        crate::laws::variables_open_as_one_state();
        crate::laws::what_opens_has_no_fault();
        let mut vars = vars;
        match read_parts(alloc, &mut vars) {
            Ok((mark, window)) => Ok(Keeper {
                vars,
                mark,
                window,
                plan: None,
            }),
            Err(fault) => Err(OpenRefused { fault, vars }),
        }
    }
}

/// The mark of the variables, which is stored by the version that is written, and a window in which nothing waits. If
/// they are refused, the variables stay as they were.
fn read_parts(alloc: Global, vars: &mut Vars) -> Result<(Mark, Window), OpenFault>
    ensures opened { IfOk result (λ parts. OpensAs vars.old (state_of vars.new parts.0)) }
    ensures stands { IfOk result (λ parts. IsKeeper vars.new parts.0 parts.1) }
    ensures waiting { IfOk result (λ parts. waiting_of parts.0.next_number parts.1 ≡ map.empty) }
    ensures fault { IfErr result (λ fault.
        fault ≢ OpenFault.OutOfMemory → IsOpenFault vars.old fault) }
    ensures only_fault { (fault : OpenFault) → IsOpenFault vars.old fault →
        IsUnless result (Err fault) OpenFault.OutOfMemory }
    ensures unchanged { IfErr result (λ fault. vars.new ≡ vars.old) }
{
    let mark = read_state(alloc, vars)?;
    let Ok(window) = Window::new(alloc) else {
        return Err(OpenFault::OutOfMemory);
    };
    let Ok(()) = migrate(alloc, vars, &mark) else {
        return Err(OpenFault::OutOfMemory);
    };
    Ok((mark, window))
}

/// The mark of the variables.
fn read_state(alloc: Global, vars: &Vars) -> Result<Mark, OpenFault>
    ensures found { IfOk result (λ mark. OpensAs vars.now (state_of vars.now mark)) }
    ensures fault { IfErr result (λ fault.
        fault ≢ OpenFault.OutOfMemory → IsOpenFault vars.now fault) }
    ensures only_fault { (fault : OpenFault) → IsOpenFault vars.now fault →
        IsUnless result (Err fault) OpenFault.OutOfMemory }
{
    laws::variables_have_an_order_or_a_bad_one();
    if has_bad_order(vars) {
        return Err(OpenFault::BadOrder);
    }
    let Ok(_next) = boot_next(vars) else {
        return Err(OpenFault::BadNext);
    };
    match read_mark(alloc, vars) {
        Ok(Some(mark)) => Ok(mark),
        Ok(None) => Err(OpenFault::BadState),
        Err(_) => Err(OpenFault::OutOfMemory),
    }
}

/// Stores the mark of the variables by the version that is written, if it is stored by another.
fn migrate(alloc: Global, vars: &mut Vars, mark: &Mark) -> Result<(), AllocError>
    requires { HasMark vars.old mark.now.next_number mark.now.kept }
    ensures put { OnOk result (vars.new
        ≡ with_data vars.old keep_text (stored_mark mark.now.next_number mark.now.kept)) }
    ensures unchanged { OnErr result (vars.new ≡ vars.old) }
{
    if is_current(vars) {
        return Ok(());
    }
    let mut changes = Changes::new(alloc);
    store_mark(alloc, &mut changes, mark)?;
    vars.make(changes)?;
    Ok(())
}

/// Whether BootKeepState is stored by the version that is written, or isn't stored.
fn is_current(vars: &Vars) -> bool
    ensures current { (next_number : ℕ) (kept : List Outcome) → IsTrue result →
        HasMark vars.now next_number kept → HasSecondMark vars.now next_number kept }
    ensures other { (next_number : ℕ) (kept : List Outcome) → IsFalse result →
        HasMark vars.now next_number kept → 0 < next_number }
{
    match vars.get(KEEP_STATE) {
        Some(bytes) => Mark::is_current(bytes),
        None => true,
    }
}

/// Whether the bytes of BootOrder aren't numbers of two bytes each, or are too many.
fn has_bad_order(vars: &Vars) -> bool
    ensures { IsTrue result ↔ HasBadOrder vars.now }
{
    match vars.get(BOOT_ORDER) {
        Some(bytes) => bytes.len() % 2 != 0 || bytes.len() > 2 * ORDER_MAX,
        None => false,
    }
}

/// The mark of the variables: `None` if BootKeepState has other bytes.
fn read_mark(alloc: Global, vars: &Vars) -> Result<Option<Mark>, AllocError>
    ensures { IfOk result (λ found. MatchOption found (HasBadMark vars.now)
        (λ mark. HasMark vars.now mark.next_number mark.kept)) }
{
    let Some(bytes) = vars.get(KEEP_STATE) else {
        return Ok(Some(Mark::new(alloc)));
    };
    let found = Mark::read(alloc, bytes)?;
    Ok(found)
}
