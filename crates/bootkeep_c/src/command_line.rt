//! The words of a command line, each ended by a zero.

ghost use Rattle.std.specs.Prelude.{◌≡◌, ◌≢◌, ◌<◌, ◌==◌, None, length, map, position, IfOk, IfErr, IfSome};
ghost use Rattle.std.specs.String.{string_bytes};
ghost use Rattle.bootkeep_c.specs.declared.failure.Failure.{Failure};
ghost use Rattle.bootkeep_c.specs.CommandLines.{HasNoZero, AreEnded, IsOpenFailure, AreWordsOf, IsWordsFailure, SplitsWord};

use crate::failure::Failure;
use crate::refusal::RECORD_OPEN_WORD;
use change_records::words_of;
use std::alloc::Global;

/// The words of a command line with these bytes.
pub(crate) fn command_words(alloc: Global, bytes: &[u8]) -> Result<Vec<String>, Failure>
    ensures found { IfOk result (λ words. AreWordsOf bytes.now (map string_bytes words.items)) }
    ensures fault { IfErr result (λ failed. failed ≢ Failure.Memory → IsWordsFailure bytes.now failed) }
{
    let parts = cut(alloc, bytes)?;
    Ok(words_of(alloc, &parts)?)
}

/// What stands before each zero.
fn cut<'a>(alloc: Global, bytes: &'a [u8]) -> Result<Vec<&'a [u8]>, Failure>
    ensures found { IfOk result (λ words. AreEnded bytes.now (map (λ w. w.now) words.items)) }
    ensures fault { IfErr result (λ failed. failed ≢ Failure.Memory → IsOpenFailure bytes.now failed) }
{
    let mut words = Vec::new(alloc);
    let mut rest = bytes;
    while !rest.is_empty() {
        let Some((word, after)) = split_word(rest) else {
            return Err(Failure::at(RECORD_OPEN_WORD, bytes.len() - rest.len()));
        };
        words.push(word)?;
        rest = after;
    }
    Ok(words)
}

/// What stands before the first zero, and what comes after that: `None` if there is no zero.
fn split_word(bytes: &[u8]) -> Option<(&[u8], &[u8])>
    ensures found { IfSome result (λ split. SplitsWord bytes.now split.0.now split.1.now) }
    ensures shorter { IfSome result (λ split. length split.1.now < length bytes.now) }
    ensures none { result ≡ None → HasNoZero bytes.now }
{
    match find_zero(bytes) {
        Some(len) => Some((&bytes[..len], &bytes[len + 1..])),
        None => None,
    }
}

/// The index of the first zero.
fn find_zero(bytes: &[u8]) -> Option<usize>
    ensures { result ≡ position (λ byte. byte == 0) bytes.now }
{
    bytes.iter().position(|byte| *byte == 0)
}
