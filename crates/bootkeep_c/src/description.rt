//! Load options: their descriptions as texts.

ghost use Rattle.std.specs.Prelude.{◌≡◌, ◌≢◌, IfOk, IfErr};
ghost use Rattle.bootkeep_c.specs.declared.failure.Failure.{Failure};
ghost use Rattle.bootkeep_c.specs.Answers.{Answers};
ghost use Rattle.bootkeep_c.specs.Descriptions.{HasDescription, IsDescriptionFailure};

use crate::answer::answer;
use crate::failure::Failure;
use crate::refusal::{OPTION_NOT_UTF16, Refusal};
use std::alloc::Global;
use uefi_option::check_option;
use uefi_path::{laws, read_units};

/// The description of the load option that the bytes are, all of them, in UTF-8.
#[unsafe(no_mangle)]
pub extern "C" fn bootkeep_option_description_utf8(
    alloc: Global,
    bytes: &[u8],
    out: &mut [u8],
    len: &mut usize,
    refusal: &mut Refusal,
) -> u32
    ensures { Answers (HasDescription bytes.now) (IsDescriptionFailure bytes.now)
        result out.old out.new len.old len.new refusal.old refusal.new }
{
    let made = description_of(alloc, bytes);
    answer(made, out, len, refusal)
}

/// The description of the load option that the bytes are, if its units are a text.
fn description_of(alloc: Global, bytes: &[u8]) -> Result<Vec<u8>, Failure>
    ensures made { IfOk result (λ text. HasDescription bytes.now text.items) }
    ensures fault { IfErr result (λ failed. failed ≢ Failure.Memory → IsDescriptionFailure bytes.now failed) }
{
    laws::units_are_read_again();
    let view = check_option(bytes)?;
    let units = read_units(alloc, view.description)?;
    match String::from_utf16(alloc, &units)? {
        Ok(text) => Ok(text.into_bytes()),
        Err(_) => Err(Failure::bare(OPTION_NOT_UTF16)),
    }
}
