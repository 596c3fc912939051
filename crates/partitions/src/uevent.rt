//! What /sys tells of a device.

ghost use Rattle.std.specs.Prelude.{◌≡◌};
ghost use Rattle.std.specs.Option.{option_map};
ghost use Rattle.partitions.specs.Uevent.{value_of, value_of_line};

use crate::cut::cut_line;

/// The value that a text in the form of /sys's `uevent` has for a key: what the first line that begins with the key and
/// `=` has behind that. Line feeds part the lines. `None` if there is no such line.
pub fn uevent_value<'a>(text: &'a [u8], key: &[u8]) -> Option<&'a [u8]>
    ensures { option_map (λ value. value.now) result ≡ value_of text.now key.now }
{
    let mut rest = text;
    loop {
        let (line, others) = cut_line(rest);
        if let Some(value) = value_of_line(line, key) {
            return Some(value);
        }
        rest = others?;
    }
}

/// What a line has behind the key and `=`, if it begins with them.
fn value_of_line<'a>(line: &'a [u8], key: &[u8]) -> Option<&'a [u8]>
    ensures { option_map (λ value. value.now) result ≡ value_of_line key.now line.now }
{
    line.strip_prefix(key)?.strip_prefix(b"=")
}
