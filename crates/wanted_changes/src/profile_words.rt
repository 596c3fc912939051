//! What names the file of a profile.

/// The file that says what a machine is to have, and how it is told.
#[derive(Clone, Copy, Debug)]
pub struct ProfileWords<'a> {
    /// The path of the file.
    pub file: &'a str,
    /// The path of the folder that stands for the root of the system whose files are loaders, or nothing.
    pub root: &'a str,
    /// Whether JSON is printed.
    pub json: bool,
}
