//! Load options of the UEFI specification, version 2.10, as values and as bytes (3.1.3).
//!
//! A [`LoadOption`] is what is in a variable `Boot####`: attributes, a description, device paths and optional data.
//! [`read_option`] reads one from its bytes, all of them, [`make_option`] makes one of its parts, and [`write_option`]
//! gives its one spelling, so an option that was read is written as it was. [`append_option`] puts that spelling after
//! bytes that are there, and [`option_len`] tells its length without writing it. [`check_option`] finds the same parts
//! where they are in the bytes, as an [`OptionView`], and takes no memory.
#![tactic(auto)]

mod attributes;
mod fault;
pub mod laws;
mod load_option;
mod parts;
mod reader;
mod shared;
mod text;
mod view;
mod writer;

pub use attributes::{
    ACTIVE, CATEGORY, CATEGORY_APP, CATEGORY_BOOT, FORCE_RECONNECT, HIDDEN, category, is_active,
    is_normal,
};
pub use fault::{OptionFault, OptionRefused};
pub use load_option::{LIST_MAX, LoadOption};
pub use parts::make_option;
pub use reader::{check_option, read_option};
pub use text::description_text;
pub use view::OptionView;
pub use writer::{append_option, option_len, write_option};
