//! Where texts are cut.

ghost use Rattle.std.specs.Prelude.{◌≡◌, ◌<◌};
ghost use Rattle.std.specs.Option.{option_map};
ghost use Rattle.efibootmgr_words.specs.Cut.{before_mark, behind_mark, behind_hyphen};

/// What is before the first mark, which is all if there is none, and what is behind it, if there is one.
pub(crate) fn cut(text: &str, mark: char) -> (&str, Option<&str>)
    requires { mark < 128 }
    ensures front { result.0.now ≡ before_mark mark text.now }
    ensures rest { option_map (λ rest. rest.now) result.1 ≡ behind_mark mark text.now }
{
    match text.split_once(mark) {
        Some((front, rest)) => (front, Some(rest)),
        None => (text, None),
    }
}

/// What is behind a hyphen at the front.
pub(crate) fn behind_hyphen(text: &str) -> Option<&str>
    ensures { option_map (λ rest. rest.now) result ≡ behind_hyphen text.now }
{
    text.strip_prefix('-')
}
