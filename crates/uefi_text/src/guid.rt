//! GUIDs as text.

ghost use Rattle.std.specs.Prelude.{◌≡◌, Some, IfOk, IfSome};
ghost use Rattle.std.specs.String.{string_bytes};
ghost use Rattle.uefi_path.specs.declared.guid.Guid.{Guid};
ghost use Rattle.std.specs.Option.{option_map};
ghost use Rattle.uefi_text.specs.Reader.{guid_read};
ghost use Rattle.uefi_text.specs.Guid.{IsGuid, guid_text as printed_guid};

use std::alloc::{AllocError, Global};
use std::fmt;
use uefi_path::{Guid, field};
use uuid::Uuid;

/// The bytes of a GUID's text.
const GUID_TEXT_LEN: usize = 36;

/// A GUID that is written by `{}`, as [`guid_text`] has it.
#[derive(Clone, Copy, Debug)]
pub struct GuidText<'a>(pub &'a Guid);

impl fmt::Display for GuidText<'_> {
    ghost use Rattle.std.specs.Prelude.{Some};
    ghost use Rattle.uefi_text.specs.Guid.{guid_text};

    ghost output = { λ text. Some (guid_text text.0.now.0) };

    fn fmt<W: fmt::Write>(&self, f: &mut fmt::Formatter<W>) -> fmt::Result {
        let mut buffer = Uuid::encode_buffer();
        f.write_str(hyphenated(self.0, &mut buffer))
    }
}

/// The text of a GUID (UEFI 2.10, appendix A): 32 hexadecimal digits in lower case, in groups of 8, 4, 4, 4 and 12
/// joined by hyphens. This fails only when out of memory.
pub fn guid_text(alloc: Global, guid: &Guid) -> Result<String, AllocError>
    ensures { IfOk result (λ text. string_bytes text ≡ printed_guid guid.now.0) }
{
    let mut buffer = Uuid::encode_buffer();
    String::from_str(alloc, hyphenated(guid, &mut buffer))
}

/// The text of a GUID, in the buffer.
fn hyphenated<'b>(guid: &Guid, buffer: &'b mut [u8; 45]) -> &'b str
    ensures { result.now ≡ printed_guid guid.now.0 }
{
    let _ = field(&guid.0);
    Uuid::from_bytes_le(guid.0)
        .hyphenated()
        .encode_lower(buffer)
}

/// The GUID of a text (UEFI 2.10, appendix A): exactly 36 bytes, digits of either case in groups of
/// 8, 4, 4, 4 and 12 joined by hyphens. `None` for every other text.
pub fn read_guid(text: &str) -> Option<Guid>
    ensures found { IfSome result (λ guid. IsGuid text.now guid.0) }
    ensures only { (guid : Guid) → IsGuid text.now guid.0 → result ≡ Some guid }
{
    guid_of(text.as_bytes())
}

/// The GUID of the bytes of a text.
pub(crate) fn guid_of(text: &[u8]) -> Option<Guid>
    ensures read { option_map (λ guid. guid.0) result ≡ guid_read text.now }
    ensures found { IfSome result (λ guid. IsGuid text.now guid.0) }
    ensures only { (guid : Guid) → IsGuid text.now guid.0 → result ≡ Some guid }
{
    if text.len() != GUID_TEXT_LEN {
        return None;
    }
    match Uuid::try_parse_ascii(text) {
        Ok(id) => Some(Guid(id.to_bytes_le())),
        Err(_) => None,
    }
}
