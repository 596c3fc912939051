//! Device paths: texts in which nodes may have their names, to bytes.

ghost use Rattle.std.specs.Prelude.{◌≡◌, ◌≢◌, IfOk, IfErr};
ghost use Rattle.bootkeep_c.specs.declared.failure.Failure.{Failure};
ghost use Rattle.bootkeep_c.specs.Answers.{Answers};
ghost use Rattle.bootkeep_c.specs.NamedTexts.{IsPathOfText, IsNamedTextFailure};

use crate::answer::answer;
use crate::failure::Failure;
use crate::refusal::Refusal;
use crate::text::text_of;
use std::alloc::Global;
use uefi_names::read_named_text;
use uefi_path::write_path;

/// The bytes of the device path that the text stands for, in which each node may have its name (UEFI 2.10, 10.3).
#[unsafe(no_mangle)]
pub extern "C" fn bootkeep_path_parse(
    alloc: Global,
    text: &[u8],
    out: &mut [u8],
    len: &mut usize,
    refusal: &mut Refusal,
) -> u32
    ensures { Answers (IsPathOfText text.now) (IsNamedTextFailure text.now)
        result out.old out.new len.old len.new refusal.old refusal.new }
{
    let made = spelled(alloc, text);
    answer(made, out, len, refusal)
}

/// The bytes of the path that the text stands for.
fn spelled(alloc: Global, text: &[u8]) -> Result<Vec<u8>, Failure>
    ensures made { IfOk result (λ bytes. IsPathOfText text.now bytes.items) }
    ensures fault { IfErr result (λ failed. failed ≢ Failure.Memory → IsNamedTextFailure text.now failed) }
{
    let text = text_of(text)?;
    let path = read_named_text(alloc, text)?;
    let mut bytes = Vec::new(alloc);
    write_path(&path, &mut bytes)?;
    Ok(bytes)
}
