//! What firmware for x86-64 asks of a file that a boot entry names, before it starts it: of PE32 and PE32+ images as UEFI
//! 2.10, 2.1.1 uses them, in the form of Microsoft's PE/COFF specification.
//!
//! [`check_image`] makes firmware's checks in its order, and tells the first [`ImageFault`]: which part of firmware finds
//! it, what comes of it, and where it is. The bytes are lent, nothing is allocated, and the work is bounded by them,
//! whatever they state. [`image_digest`] is the digest by which signatures, db and dbx tell of an image, and
//! [`read_lists`] finds the lists of signatures in the data of these variables. [`secure_boot_answer`] tells what Secure
//! Boot answers by them, as far as that is told without the check of a signature's value: by the names in its
//! certificates it tells an image that none of db's signed.
//!
//! The values of signatures aren't checked here: with Secure Boot on, a file without a fault here may still be denied.
#![tactic(auto)]

mod answer;
mod bytes;
mod certificates;
mod check;
mod code_view;
mod code_view_fault;
mod debug;
mod der;
mod digest;
mod digest_fault;
mod fault;
mod fault_effect;
mod headers;
pub mod laws;
mod leads;
mod loaded;
mod loader;
mod loading;
mod names;
mod ranges;
mod relocation_fault;
mod relocations;
mod resource_fault;
mod resources;
mod section;
mod secure_boot;
mod signatures;
mod signers;
mod start;
mod wanted;
mod x509;

pub use answer::{SecureBootAnswer, Verdict};
pub use certificates::Signing;
pub use check::check_image;
pub use code_view_fault::CodeViewFault;
pub use digest::{DIGEST_LEN, image_digest};
pub use digest_fault::DigestFault;
pub use fault::{Effect, ImageFault, Stage};
pub use ranges::{DigestRange, RangesRead, digest_ranges};
pub use relocation_fault::RelocationFault;
pub use resource_fault::ResourceFault;
pub use section::Section;
pub use secure_boot::{SecureBoot, secure_boot_answer};
pub use signatures::{ListFault, SignatureList, read_lists};
