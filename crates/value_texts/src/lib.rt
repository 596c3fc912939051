//! How single values are printed, for a person and as JSON: load options, what variables hold, and why bytes are refused (UEFI
//! specification, version 2.10, chapters 3 and 10). Values and texts alone, with no file and no machine.
//!
//! [`Content`] is what a variable of the boot manager holds: a [`ShownOption`], the numbers of an order, the number of the next
//! entry, a [`Timeout`], or bytes that are none of these, a [`ShownFault`]; [`ShownPlan`] is what a boot would try. Each is shown in a line by `{}`, and as JSON by
//! [`json`], which writes objects on one line; docs/formats.md has each line and each member.
//!
//! [`FaultReason`] says in plain words why something is refused: [`option_reason`] of a load option, and [`named_reason`] of the
//! text of a path. [`description_units`] reads a description as JSON has it.
#![tactic(auto)]

mod content;
mod description;
pub mod json;
mod json_text;
mod plan;
mod reason;
mod settings;
mod shown_option;

pub use content::{
    ByteCount, Content, DataText, NumberList, Quoted, ShownFault, Summary, option_place,
};
pub use description::{DescriptionFault, append_text_units, description_units};
pub use plan::{ShownPlan, append_plan, shown_plan};
pub use reason::{
    BAD_NEXT, BAD_ORDER, FaultReason, Sizes, named_reason, option_reason, option_sizes,
    option_words,
};
pub use settings::{BOOT_CURRENT, Timeout, bad_current, bad_timeout, number_of};
pub use shown_option::{
    AttributeWords, FirstPath, ShownOption, first_path, optional_digits, printed_text,
};
