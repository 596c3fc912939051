//! Load options: where their parts are, and their descriptions.

ghost use Rattle.std.specs.Prelude.{◌≡◌, ◌≢◌, ◌⊎◌, ◌<◌, IfOk, IfErr};
ghost use Rattle.std.specs.String.{string_bytes};
ghost use Rattle.uefi_option.specs.declared.fault.OptionFault.{OptionFault};
ghost use Rattle.uefi_option.specs.LoadOption.{OptionParts, SpellsOption};
ghost use Rattle.uefi_option.specs.Fault.{IsFirstFault};
ghost use Rattle.uefi_option.specs.View.{ShowsOption, IsCutFrom};
ghost use Rattle.uefi_option.specs.Text.{units_text};
ghost use Rattle.bootkeep_c.specs.Status.{done, refused, no_room, IsReadStatus, IsGiveStatus};
ghost use Rattle.bootkeep_c.specs.Refusals.{option_failure, Tells};
ghost use Rattle.bootkeep_c.specs.Buffer.{IsInFront, GivesUnless};
ghost use Rattle.bootkeep_c.specs.Parts.{TellsParts};

use crate::buffer::give;
use crate::failure::Failure;
use crate::refusal::Refusal;
use crate::status::DONE;
use std::alloc::Global;
use uefi_option::{OptionView, check_option, laws};
use uefi_path::laws as path_laws;

/// How many bytes are before the description.
const HEADER_LEN: usize = 6;

/// Where the parts of a load option are in its bytes: `struct bootkeep_option_parts`.
#[repr(C)]
#[derive(Clone, Copy, Debug, PartialEq, Eq)]
pub struct OptionPlaces {
    /// The attributes, all 32 bits as they are stored.
    pub attributes: u32,
    /// 0.
    pub reserved: u32,
    /// Where the units of the description are.
    pub description: usize,
    /// How many bytes they have, without the zero unit.
    pub description_len: usize,
    /// Where the list of paths is.
    pub list: usize,
    /// How many bytes it has.
    pub list_len: usize,
    /// Where the optional data are.
    pub optional: usize,
    /// How many bytes they have.
    pub optional_len: usize,
}

// As many bytes as the header asserts.
const _: () = prove!(size_of::<OptionPlaces>() == 56);

/// Where the parts of the load option are that the bytes are, all of them (UEFI 2.10, 3.1.3). This takes no memory.
#[unsafe(no_mangle)]
pub extern "C" fn bootkeep_option_parts(
    bytes: &[u8],
    parts: &mut OptionPlaces,
    refusal: &mut Refusal,
) -> u32
    // Of what is spelled, the parts are told.
    ensures parts { (option : OptionParts) → SpellsOption bytes.now option →
        (result ≡ done) × TellsParts bytes.now parts.new option }
    // The first fault is told.
    ensures fault { (fault : OptionFault) → IsFirstFault bytes.now fault →
        Tells (option_failure fault) result refusal.old refusal.new }
    ensures found { result ≡ done → (option : OptionParts)
        × SpellsOption bytes.now option × TellsParts bytes.now parts.new option }
    ensures told { result ≡ refused → (fault : OptionFault)
        × IsFirstFault bytes.now fault × Tells (option_failure fault) result refusal.old refusal.new }
    ensures status { IsReadStatus result }
    ensures untouched { result ≢ done → parts.new ≡ parts.old }
    ensures refusal { result ≢ refused → refusal.new ≡ refusal.old }
{
    laws::bytes_spell_one_option();
    match check_option(bytes) {
        Ok(view) => {
            *parts = places_in(bytes, view);
            DONE
        }
        Err(fault) => Failure::from(fault).tell(refusal),
    }
}

/// Where the parts of the view are in the bytes.
fn places_in(bytes: &[u8], view: OptionView<'_>) -> OptionPlaces
    requires { IsCutFrom view bytes.now }
    ensures { (option : OptionParts) → ShowsOption view.entry option → TellsParts bytes.now result option }
{
    let optional = bytes.len() - view.optional.len();
    OptionPlaces {
        attributes: view.attributes,
        reserved: 0,
        description: HEADER_LEN,
        description_len: view.description.len(),
        list: optional - view.list.len(),
        list_len: view.list.len(),
        optional,
        optional_len: view.optional.len(),
    }
}

/// The description of the load option that the bytes are, all of them, as one line of ASCII. A fault of the option is
/// told without taking memory.
#[unsafe(no_mangle)]
pub extern "C" fn bootkeep_option_description(
    alloc: Global,
    bytes: &[u8],
    out: &mut [u8],
    len: &mut usize,
    refusal: &mut Refusal,
) -> u32
    // Of what is spelled, the description is given.
    ensures text { (option : OptionParts) → SpellsOption bytes.now option →
        GivesUnless result (units_text option.description) out.old out.new len.old len.new }
    // The first fault is told.
    ensures fault { (fault : OptionFault) → IsFirstFault bytes.now fault →
        Tells (option_failure fault) result refusal.old refusal.new }
    ensures found { result ≡ done → (option : OptionParts)
        × SpellsOption bytes.now option × IsInFront (units_text option.description) out.old out.new len.new }
    ensures told { result ≡ refused → (fault : OptionFault)
        × IsFirstFault bytes.now fault × Tells (option_failure fault) result refusal.old refusal.new }
    ensures status { IsGiveStatus result }
    ensures untouched { result ≢ done → out.new ≡ out.old }
    ensures len { result ≡ done ⊎ (result ≡ no_room ⊎ (len.new ≡ len.old)) }
    ensures refusal { result ≢ refused → refusal.new ≡ refusal.old }
{
    laws::bytes_spell_one_option();
    laws::a_fault_leaves_no_option();
    laws::bytes_have_one_first_fault();
    match described(alloc, bytes) {
        Ok(text) => give(text.as_bytes(), out, len),
        Err(failure) => failure.tell(refusal),
    }
}

/// The description of the load option that the bytes are, as text.
fn described(alloc: Global, bytes: &[u8]) -> Result<String, Failure>
    ensures found { IfOk result (λ text. (option : OptionParts)
        × SpellsOption bytes.now option × (string_bytes text ≡ units_text option.description)) }
    ensures fault { IfErr result (λ failed. failed ≢ Failure.Memory →
        (fault : OptionFault) × IsFirstFault bytes.now fault × (failed ≡ option_failure fault)) }
    ensures only_fault { (fault : OptionFault) → IsFirstFault bytes.now fault →
        IfErr result (λ failed. failed ≡ option_failure fault) }
{
    path_laws::units_are_read_again();
    let view = check_option(bytes)?;
    let text = view.description_text(alloc)?;
    Ok(text)
}
