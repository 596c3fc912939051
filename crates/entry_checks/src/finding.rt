//! What is found of an entry, and the words for it.

ghost use Rattle.std.specs.Prelude.{◌≡◌};
ghost use Rattle.entry_checks.specs.Finding.{kind_of, kind_of_lead, kind_of_image, weight_of, weight_of_lead, weight_of_image};

use crate::image::ImageState;
use crate::lead::Lead;

/// What is found of an entry.
#[derive(Clone, Copy, Debug, PartialEq, Eq)]
pub enum Finding {
    /// Its data is no load option.
    Undecodable,
    /// BootOrder names it, and it isn't active; and BootNext doesn't name it.
    Inactive,
    /// It isn't of the category of the normal boot, and BootNext doesn't name it.
    OtherCategory,
    /// Menus don't show it.
    Hidden,
    /// Neither BootOrder nor BootNext names it.
    Unnamed,
    /// Where it leads.
    Leads(Lead),
    /// What is known of the file to which it leads.
    Image(ImageState),
    /// It leads to the same file as another one, with the same data.
    Twin,
}

/// What a finding says of its entry.
#[derive(Clone, Copy, Debug, PartialEq, Eq)]
pub enum Weight {
    /// The entry can't be started, or no boot tries it by itself though BootOrder names it, or it is one too many.
    Fault,
    /// Nothing is wrong.
    Remark,
    /// Something wasn't looked at, which may be right or wrong.
    Unseen,
}

/// A row of the table of findings.
#[derive(Clone, Copy, Debug, PartialEq, Eq)]
pub struct FindingRow {
    /// What its JSON calls it.
    pub kind: &'static str,
    /// What it says of its entry.
    pub weight: Weight,
    /// The words for a person.
    pub words: &'static str,
}

impl Finding {
    /// Its row of the table.
    pub fn row(self) -> FindingRow
        ensures kind { result.kind.now ≡ kind_of self }
        ensures weight { result.weight ≡ weight_of self }
    {
        match self {
            Finding::Undecodable => fault("undecodable", "its data is no load option"),
            Finding::Inactive => fault(
                "inactive",
                "it isn't active, so no boot tries it by itself",
            ),
            Finding::OtherCategory => remark(
                "category",
                "it isn't of the category of boots, so no boot tries it by itself",
            ),
            Finding::Hidden => remark("hidden", "it is hidden: menus don't show it"),
            Finding::Unnamed => remark(
                "unnamed",
                "neither BootOrder nor BootNext names it, so no boot tries it",
            ),
            Finding::Leads(lead) => lead.row(),
            Finding::Image(image) => image.row(),
            Finding::Twin => fault(
                "same_file",
                "it leads to one file, with the same data, with an entry above",
            ),
        }
    }
}

impl Lead {
    /// Its row of the table.
    fn row(self) -> FindingRow
        ensures kind { result.kind.now ≡ kind_of_lead self }
        ensures weight { result.weight ≡ weight_of_lead self }
    {
        match self {
            Lead::File => remark("file", "its file is there"),
            Lead::NoFile => fault("no_file", "its file isn't on its partition"),
            Lead::Folder => fault("folder", "a folder is where its file should be"),
            Lead::Partition => unseen(
                "partition",
                "not looked at: firmware seeks its own file name on its partition",
            ),
            Lead::NoPartition => fault("no_partition", "its partition isn't on this machine"),
            Lead::Several => unseen(
                "several_partitions",
                "not looked at: several partitions have one PARTUUID, and firmware may take any",
            ),
            Lead::Untold => unseen(
                "untold",
                "not looked at: the system doesn't tell what its partitions are known by",
            ),
            Lead::Unmounted => unseen("not_mounted", "not looked at: its partition isn't mounted"),
            Lead::Closed => unseen("not_readable", "not looked at: its folder can't be read"),
            Lead::Unsigned => unseen("unsigned", "not looked at: its partition has no signature"),
            Lead::Onward => unseen(
                "onward",
                "not looked at: its path goes on behind a partition",
            ),
            Lead::Instances => unseen("instances", "not looked at: its path has several instances"),
            Lead::FileAlone => unseen(
                "file_alone",
                "not looked at: it names a file without a partition",
            ),
            Lead::Network => unseen("network", "not looked at: it leads over a network"),
            Lead::Firmware => unseen(
                "firmware",
                "not looked at: it is an application of the firmware",
            ),
            Lead::Legacy => unseen("legacy", "not looked at: it is for a BIOS"),
            Lead::Disk => unseen(
                "disk",
                "not looked at: firmware seeks its own file name on a disk, and the path doesn't tell which one that is",
            ),
            Lead::WholeDisk => unseen(
                "whole_disk",
                "not looked at: firmware seeks its own file name on its disk",
            ),
            Lead::NoDisk => unseen(
                "no_disk",
                "not looked at: no disk of this machine is known to be where its path leads",
            ),
            Lead::SeveralDisks => unseen(
                "several_disks",
                "not looked at: several disks are where its path leads, and firmware may take any",
            ),
            Lead::NoFileOnDisk => fault(
                "no_file_on_disk",
                "no partition of its disk has the file that firmware seeks",
            ),
            Lead::SeveralFiles => unseen(
                "several_files",
                "not looked at: several partitions of its disk have its file, and firmware may take any",
            ),
            Lead::PartUnseen => unseen(
                "part_unseen",
                "not looked at: its file may be on a part of its disk that isn't mounted, or can't be read",
            ),
            Lead::Device => unseen("device", "not looked at: it leads to a device"),
        }
    }
}

impl ImageState {
    /// Its row of the table.
    pub fn row(self) -> FindingRow
        ensures kind { result.kind.now ≡ kind_of_image self }
        ensures weight { result.weight ≡ weight_of_image self }
    {
        match self {
            ImageState::Refused => fault("image", "firmware doesn't start the file"),
            ImageState::Unsafe => fault("image_unsafe", "firmware goes wrong with the file"),
            ImageState::Foreign => fault(
                "image_foreign",
                "the file is for another processor than this machine's",
            ),
            ImageState::Denied => fault("secure_boot", "Secure Boot refuses the file"),
            ImageState::OfX8664 => remark("image_x86_64", "the file is for x86-64"),
            ImageState::Undecided => unseen(
                "image_undecided",
                "not looked at: more than the file decides whether firmware starts it",
            ),
            ImageState::Unknown => unseen(
                "image_unknown",
                "not looked at: what firmware asks of the file is known for x86-64 alone",
            ),
            ImageState::Unsettled => unseen(
                "secure_boot_undecided",
                "not looked at: whether Secure Boot allows the file",
            ),
            ImageState::Unreadable => unseen(
                "image_unreadable",
                "not looked at: the file can't be read",
            ),
            ImageState::TooLong => unseen("image_too_long", "not looked at: the file is too long"),
            ImageState::Irregular => unseen(
                "image_irregular",
                "not looked at: a pipe or a device is where the file should be",
            ),
        }
    }
}

/// The row of something that is wrong.
fn fault(kind: &'static str, words: &'static str) -> FindingRow
    ensures kind { result.kind.now ≡ kind.now }
    ensures weight { result.weight ≡ Weight.Fault }
{
    FindingRow {
        kind,
        weight: Weight::Fault,
        words,
    }
}

/// The row of something that is as it may be.
fn remark(kind: &'static str, words: &'static str) -> FindingRow
    ensures kind { result.kind.now ≡ kind.now }
    ensures weight { result.weight ≡ Weight.Remark }
{
    FindingRow {
        kind,
        weight: Weight::Remark,
        words,
    }
}

/// The row of something that wasn't looked at.
fn unseen(kind: &'static str, words: &'static str) -> FindingRow
    ensures kind { result.kind.now ≡ kind.now }
    ensures weight { result.weight ≡ Weight.Unseen }
{
    FindingRow {
        kind,
        weight: Weight::Unseen,
        words,
    }
}
