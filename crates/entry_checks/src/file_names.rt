//! Names of files in a FAT file system (UEFI 2.10, 13.3).

ghost use Rattle.std.specs.Prelude.{◌≡◌, ◌≢◌, ◌↔◌, ◌⊎◌, IsTrue, All, IfSome, IfNone};
ghost use Rattle.std.specs.String.{string_bytes};
ghost use Rattle.entry_checks.specs.FileNames.{IsSameName};

/// Whether two names are one in a FAT file system: the case of letters of ASCII doesn't matter.
fn is_same_name(name: &str, other: &str) -> bool
    ensures { IsTrue result ↔ IsSameName name.now other.now }
{
    name.eq_ignore_ascii_case(other)
}

/// The name of the file among these that is meant by a name in a path: the one that is the same in each letter, if there
/// is one, since not each file system that is mounted is a FAT one, and otherwise the first that is the same but for the
/// case of letters of ASCII.
pub fn name_among<'a>(names: &'a [String], sought: &str) -> Option<&'a str>
    ensures found { IfSome result (λ name. IsSameName name.now sought.now) }
    ensures exact { IfSome result (λ name. (name.now ≡ sought.now) ⊎ All (λ other. string_bytes other ≢ sought.now) names.now) }
    ensures none { IfNone result (All (λ name. ¬ IsSameName (string_bytes name) sought.now) names.now) }
{
    match names.iter().find(|name| name.as_str() == sought) {
        Some(name) => Some(name.as_str()),
        None => match names
            .iter()
            .find(|name| is_same_name(name.as_str(), sought))
        {
            Some(name) => Some(name.as_str()),
            None => None,
        },
    }
}
