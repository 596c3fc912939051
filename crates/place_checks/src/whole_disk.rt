//! Where an entry leads whose path is of a whole disk, by what the looks at the parts of the disk came to.

ghost use Rattle.std.specs.Prelude.{◌≡◌, count_by};
ghost use Rattle.std.specs.List.{list_any};
ghost use Rattle.place_checks.specs.Look.{OfDisk};
ghost use Rattle.place_checks.specs.WholeDisk.{has_file, has_doubtful, may_have_file, lead_by, lead_on_disk};

use crate::machine::Seen;
use entry_checks::Lead;

/// Where an entry leads whose disk has parts that were looked at so. Firmware takes a part that has the file.
pub(crate) fn lead_on_disk(looks: &[Seen]) -> Lead
    ensures value { result ≡ lead_on_disk looks.now }
    ensures told { OfDisk result }
{
    lead_by(
        count_files(looks),
        has_doubtful_file(looks),
        is_one_hidden(looks),
    )
}

/// Where an entry leads to a disk of which so many parts have the file, one of them a doubtful one or none, and others may
/// have it.
fn lead_by(files: usize, is_doubtful: bool, is_hidden: bool) -> Lead
    ensures value { result ≡ lead_by files is_doubtful is_hidden }
    ensures told { OfDisk result }
{
    if files == 0 {
        if is_hidden {
            Lead::PartUnseen
        } else {
            Lead::NoFileOnDisk
        }
    } else if files == 1 {
        if is_doubtful && is_hidden {
            Lead::PartUnseen
        } else {
            Lead::File
        }
    } else {
        Lead::SeveralFiles
    }
}

/// How many parts have the file.
fn count_files(looks: &[Seen]) -> usize
    ensures { result ≡ count_by has_file looks.now }
{
    looks.iter().filter(|seen| has_file(seen)).count()
}

/// Whether a part has a file of which more is known than that firmware starts it.
fn has_doubtful_file(looks: &[Seen]) -> bool
    ensures { result ≡ list_any has_doubtful looks.now }
{
    looks.iter().any(has_doubtful)
}

/// Whether a part couldn't be looked at.
fn is_one_hidden(looks: &[Seen]) -> bool
    ensures { result ≡ list_any may_have_file looks.now }
{
    looks.iter().any(may_have_file)
}

/// Whether the part has the file.
pub(crate) fn has_file(seen: &Seen) -> bool
    ensures { result ≡ has_file seen.now }
{
    matches!(seen.lead, Lead::File)
}

/// Whether it has a file of which more is known than that firmware starts it.
fn has_doubtful(seen: &Seen) -> bool
    ensures { result ≡ has_doubtful seen.now }
{
    matches!(seen.lead, Lead::File) && seen.image.state.is_some()
}

/// Whether the part couldn't be looked at, so that it may have the file.
pub(crate) fn may_have_file(seen: &Seen) -> bool
    ensures { result ≡ may_have_file seen.now }
{
    matches!(seen.lead, Lead::Unmounted | Lead::Closed)
}
