//! The command `apply`, which makes a place what a file says.

use bootvars_actions::ApplyWords;
use messages::Failure;
use wanted_changes::{ChangeOptions, ProfileWords, StateUse};

/// What makes a machine what a file says, and prints the file that one has.
pub trait Profiles<R> {
    /// Makes the boot variables of a place what the file says, prints the changes, and gives whether there are some.
    ///
    /// # Errors
    ///
    /// Why that isn't made.
    fn apply(
        &self,
        rt: &R,
        options: &ChangeOptions<'_>,
        words: &ProfileWords<'_>,
    ) -> Result<bool, Failure>;

    /// Prints the file that a place has now.
    ///
    /// # Errors
    ///
    /// Why it can't be printed.
    fn show(&self, rt: &R, place: &str) -> Result<(), Failure>;
}

/// Makes a place what a file says, as the words ask for, which are these of the command line. Gives whether the status is to tell
/// of a change.
///
/// # Errors
///
/// Those of the call.
pub(crate) fn apply_words<R, P: Profiles<R>>(
    rt: &R,
    profiles: &P,
    words: &ApplyWords<'_>,
    command: &[String],
) -> Result<bool, Failure> {
    let options = ChangeOptions {
        machine: words.machine,
        command: Some(command),
        dry_run: words.dry_run,
        state: StateUse::Made,
    };
    let is_changed = profiles.apply(rt, &options, &words.profile)?;
    Ok(is_changed && words.exit_code)
}
