//! Device paths: their text for a person.

ghost use Rattle.std.specs.Prelude.{◌≡◌, ◌≢◌, ◌⊎◌, ℕ, List, IfOk, IfErr, Ok, Err};
ghost use Rattle.std.specs.String.{string_bytes};
ghost use Rattle.uefi_path.specs.declared.node.Node.{Node};
ghost use Rattle.uefi_path.specs.declared.fault.PathFault.{PathFault};
ghost use Rattle.uefi_path.specs.Path.{IsPathFront};
ghost use Rattle.uefi_path.specs.Fault.{IsFirstFault};
ghost use Rattle.uefi_names.specs.Standard.{standard_table};
ghost use Rattle.uefi_names.specs.Named.{named_path};
ghost use Rattle.bootkeep_c.specs.Status.{done, refused, no_room, IsGiveStatus};
ghost use Rattle.bootkeep_c.specs.Refusals.{path_failure, Tells};
ghost use Rattle.bootkeep_c.specs.Buffer.{IsInFront, GivesUnless};

use crate::buffer::give;
use crate::failure::Failure;
use crate::refusal::Refusal;
use crate::status::DONE;
use std::alloc::Global;
use uefi_names::named_text;
use uefi_path::{check_path, read_path};

/// The text for a person of the device path at the start of the bytes, with each node of the standard by its name (UEFI
/// 2.10, 10.3), and how many bytes it takes. A fault of the path is told without taking memory.
#[unsafe(no_mangle)]
pub extern "C" fn bootkeep_path_names(
    alloc: Global,
    bytes: &[u8],
    out: &mut [u8],
    len: &mut usize,
    taken: &mut usize,
    refusal: &mut Refusal,
) -> u32
    // Of what is spelled, the text is given, and the bytes are counted.
    ensures text { (path : List (List Node)) (n : ℕ) → IsPathFront bytes.now path n →
        GivesUnless result (named_path standard_table path) out.old out.new len.old len.new
        × (result ≡ done → taken.new ≡ n) }
    // The first fault is told.
    ensures fault { (fault : PathFault) → IsFirstFault bytes.now fault →
        Tells (path_failure fault) result refusal.old refusal.new }
    // What is given is the text of what is spelled, and what is told is the first fault.
    ensures found { result ≡ done → (path : List (List Node)) × IsPathFront bytes.now path taken.new
        × IsInFront (named_path standard_table path) out.old out.new len.new }
    ensures told { result ≡ refused → (fault : PathFault)
        × IsFirstFault bytes.now fault × Tells (path_failure fault) result refusal.old refusal.new }
    ensures status { IsGiveStatus result }
    // What isn't told stays as it was.
    ensures untouched { result ≢ done → (out.new ≡ out.old) × (taken.new ≡ taken.old) }
    ensures len { result ≡ done ⊎ (result ≡ no_room ⊎ (len.new ≡ len.old)) }
    ensures refusal { result ≢ refused → refusal.new ≡ refusal.old }
{
    match named(alloc, bytes) {
        Ok((text, count)) => {
            let status = give(text.as_bytes(), out, len);
            if status == DONE {
                *taken = count;
            }
            status
        }
        Err(failure) => failure.tell(refusal),
    }
}

/// The text for a person of the path at the start of the bytes, and how many bytes it takes.
fn named(alloc: Global, bytes: &[u8]) -> Result<(String, usize), Failure>
    ensures found { IfOk result (λ named. (path : List (List Node))
        × IsPathFront bytes.now path named.1 × (string_bytes named.0 ≡ named_path standard_table path)) }
    ensures fault { IfErr result (λ failed. failed ≢ Failure.Memory →
        (fault : PathFault) × IsFirstFault bytes.now fault × (failed ≡ path_failure fault)) }
    // A fault is found before memory is taken.
    ensures only_fault { (fault : PathFault) → IsFirstFault bytes.now fault →
        IfErr result (λ failed. failed ≡ path_failure fault) }
{
    check_path(bytes)?;
    let (path, count) = read_path(alloc, bytes)?;
    let text = named_text(alloc, &path)?;
    Ok((text, count))
}
