//! Device paths: their text to bytes.

ghost use Rattle.std.specs.Prelude.{◌≡◌, ◌≢◌, ◌⊎◌, ℕ, List, Err, IfOk, IfErr};
ghost use Rattle.std.specs.Str.{IsUtf8, IsValidUpTo};
ghost use Rattle.uefi_path.specs.declared.node.Node.{Node};
ghost use Rattle.uefi_path.specs.Path.{path_bytes};
ghost use Rattle.uefi_text.specs.declared.fault.TextFault.{TextFault};
ghost use Rattle.uefi_text.specs.Path.{IsPathText};
ghost use Rattle.uefi_text.specs.Fault.{IsTextFault};
ghost use Rattle.bootkeep_c.specs.declared.failure.Failure.{Failure};
ghost use Rattle.bootkeep_c.specs.Status.{done, refused, no_room, no_memory, IsGiveStatus};
ghost use Rattle.bootkeep_c.specs.Refusals.{not_utf8, Tells};
ghost use Rattle.bootkeep_c.specs.Buffer.{IsInFront, IsTooLong, GivesUnless};
ghost use Rattle.bootkeep_c.specs.Texts.{IsTextFailure};

use crate::buffer::give;
use crate::failure::Failure;
use crate::refusal::{Refusal, TEXT_NOT_UTF8};
use std::alloc::Global;
use std::str;
use uefi_path::write_path;
use uefi_text::{laws, read_text};

/// The bytes of the device path that the text stands for.
#[unsafe(no_mangle)]
pub extern "C" fn bootkeep_path_parse_exact(
    alloc: Global,
    text: &[u8],
    out: &mut [u8],
    len: &mut usize,
    refusal: &mut Refusal,
) -> u32
    // Of a text that stands for a path, its bytes are given.
    ensures bytes { (path : List (List Node)) → IsUtf8 text.now → IsPathText text.now path →
        GivesUnless result (path_bytes path) out.old out.new len.old len.new }
    ensures utf8 { ¬ IsUtf8 text.now → (place : ℕ)
        × IsValidUpTo text.now place × Tells (not_utf8 place) result refusal.old refusal.new }
    // A text with a fault is refused.
    ensures fault { (fault : TextFault) → IsUtf8 text.now → IsTextFault text.now fault →
        (result ≡ refused) ⊎ (result ≡ no_memory) }
    // What is given is the bytes of the path that the text stands for, and what is told is a fault of the text.
    ensures found { result ≡ done → (path : List (List Node))
        × IsPathText text.now path × IsInFront (path_bytes path) out.old out.new len.new }
    ensures told { result ≡ refused → (failed : Failure)
        × IsTextFailure text.now failed × Tells failed result refusal.old refusal.new }
    // Room is missing for nothing else.
    ensures room { result ≡ no_room → (path : List (List Node))
        × IsPathText text.now path × IsTooLong (path_bytes path) out.old out.new len.new }
    ensures status { IsGiveStatus result }
    // What isn't told stays as it was.
    ensures untouched { result ≢ done → out.new ≡ out.old }
    ensures len { result ≡ done ⊎ (result ≡ no_room ⊎ (len.new ≡ len.old)) }
    ensures refusal { result ≢ refused → refusal.new ≡ refusal.old }
{
    laws::a_text_stands_for_one_path();
    laws::a_text_with_a_fault_stands_for_no_path();
    match spelled(alloc, text) {
        Ok(bytes) => give(&bytes, out, len),
        Err(failure) => failure.tell(refusal),
    }
}

/// The bytes of the path that the text stands for.
fn spelled(alloc: Global, text: &[u8]) -> Result<Vec<u8>, Failure>
    ensures found { IfOk result (λ bytes. (path : List (List Node))
        × IsPathText text.now path × (bytes.items ≡ path_bytes path)) }
    ensures fault { IfErr result (λ failed. failed ≢ Failure.Memory → IsTextFailure text.now failed) }
    ensures utf8 { ¬ IsUtf8 text.now → (place : ℕ)
        × IsValidUpTo text.now place × (result ≡ Err (not_utf8 place)) }
{
    let text = text_of(text)?;
    let path = read_text(alloc, text)?;
    let mut bytes = Vec::new(alloc);
    write_path(&path, &mut bytes)?;
    Ok(bytes)
}

/// The text that the bytes are, if they are UTF-8.
pub(crate) fn text_of(bytes: &[u8]) -> Result<&str, Failure>
    ensures found { IfOk result (λ text. (text.now ≡ bytes.now) × IsUtf8 bytes.now) }
    ensures fault { IfErr result (λ failed. (¬ IsUtf8 bytes.now)
        × (place : ℕ) × IsValidUpTo bytes.now place × (failed ≡ not_utf8 place)) }
{
    match str::from_utf8(bytes) {
        Ok(text) => Ok(text),
        Err(fault) => Err(Failure::at(TEXT_NOT_UTF8, fault.valid_up_to())),
    }
}
