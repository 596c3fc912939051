//! Answers and failures to what a call tells.

ghost use Rattle.std.specs.Prelude.{◌≡◌, IfOk, IfErr, IfSome, IfNone};
ghost use Rattle.bootkeep_c.specs.Status.{done, absent};
ghost use Rattle.bootkeep_c.specs.Refusals.{Tells};
ghost use Rattle.bootkeep_c.specs.Buffer.{Gives, IsKept};

use crate::buffer::give;
use crate::failure::Failure;
use crate::refusal::Refusal;
use crate::status::{ABSENT, DONE};

/// Gives the answer, if there is one and room for it, or tells why there is none.
pub(crate) fn answer<T: Copy + Drop>(
    made: Result<Vec<T>, Failure>,
    out: &mut [T],
    len: &mut usize,
    refusal: &mut Refusal,
) -> u32
    ensures given { IfOk made (λ items. Gives result items.items out.old out.new len.new
        × (refusal.new ≡ refusal.old)) }
    ensures told { IfErr made (λ failed. Tells failed result refusal.old refusal.new
        × IsKept out.old out.new len.old len.new) }
{
    match made {
        Ok(items) => give(&items, out, len),
        Err(failure) => failure.tell(refusal),
    }
}

/// Gives what was found, if something was and there is room for it, or tells why it can't be looked for.
pub(crate) fn answer_found<T: Copy + Drop>(
    found: Result<Option<Vec<T>>, Failure>,
    out: &mut [T],
    len: &mut usize,
    refusal: &mut Refusal,
) -> u32
    ensures given { IfOk found (λ it. IfSome it (λ items. Gives result items.items out.old out.new len.new
        × (refusal.new ≡ refusal.old))) }
    ensures none { IfOk found (λ it. IfNone it ((result ≡ absent) × IsKept out.old out.new len.old len.new
        × (refusal.new ≡ refusal.old))) }
    ensures told { IfErr found (λ failed. Tells failed result refusal.old refusal.new
        × IsKept out.old out.new len.old len.new) }
{
    match found {
        Ok(Some(items)) => give(&items, out, len),
        Ok(None) => ABSENT,
        Err(failure) => failure.tell(refusal),
    }
}

/// Tells the value, if there is one, or why there is none.
pub(crate) fn tell<T: Copy>(made: Result<T, Failure>, to: &mut T, refusal: &mut Refusal) -> u32
    ensures told { IfOk made (λ value. (result ≡ done) × (to.new ≡ value) × (refusal.new ≡ refusal.old)) }
    ensures fault { IfErr made (λ failed. Tells failed result refusal.old refusal.new × (to.new ≡ to.old)) }
{
    match made {
        Ok(value) => {
            *to = value;
            DONE
        }
        Err(failure) => failure.tell(refusal),
    }
}

/// Tells the value that was found, if one was, or why it can't be looked for.
pub(crate) fn tell_found<T: Copy>(
    found: Result<Option<T>, Failure>,
    to: &mut T,
    refusal: &mut Refusal,
) -> u32
    ensures told { IfOk found (λ it. IfSome it (λ value. (result ≡ done) × (to.new ≡ value) × (refusal.new ≡ refusal.old))) }
    ensures none { IfOk found (λ it. IfNone it ((result ≡ absent) × (to.new ≡ to.old) × (refusal.new ≡ refusal.old))) }
    ensures fault { IfErr found (λ failed. Tells failed result refusal.old refusal.new × (to.new ≡ to.old)) }
{
    match found {
        Ok(Some(value)) => {
            *to = value;
            DONE
        }
        Ok(None) => ABSENT,
        Err(failure) => failure.tell(refusal),
    }
}
