//! Load options as values.

ghost use Rattle.std.specs.Prelude.{◌≡◌, ◌<◌, ◌↔◌, [], length, Contains, IsErrAnd, IsTrue, IfErr, IfOk};
ghost use Rattle.uefi_option.specs.declared.fault.OptionFault.{OptionFault};
ghost use Rattle.uefi_option.specs.Attributes.{IsActive, category_of, IsNormal};
ghost use Rattle.uefi_option.specs.LoadOption.{option_parts, list_max, list_bytes, IsOption};
ghost use Rattle.uefi_option.specs.PartsFault.{IsPartsFault};
ghost use Rattle.uefi_option.specs.Shared.{option_of, IsListLen};

use crate::attributes;
use crate::fault::{OptionFault, OptionRefused};
use crate::parts::check_parts;
use crate::shared::Lists;
use std::alloc::{AllocError, AllocFailed, Global};
use std::marker::Model;
use std::rc::Rc;
use uefi_path::{Path, laws};

/// The most bytes that the list of paths of an option can have: two bytes state its length.
pub const LIST_MAX: usize = 65_535;

/// A load option (UEFI 2.10, 3.1.3), such as a variable `Boot####` holds. It has at least one path, the spellings of
/// its paths have at most [`LIST_MAX`] bytes together, and no unit of its description is zero; the zero unit that
/// closes the description in the bytes is not held. Its lists are in memory that its copies share.
#[derive(Debug, Drop)]
pub struct LoadOption {
    attributes: u32,
    /// How many bytes the spellings of the paths have together.
    list_len: u16,
    lists: Rc<Lists>,
}

impl Model for LoadOption {
    ghost use Rattle.uefi_option.specs.LoadOption.{OptionParts, IsOption};
    ghost use Rattle.uefi_option.specs.Shared.{option_of, IsListLen};

    ghost Value = { OptionParts };

    ghost view = { λ o. option_of o.attributes o.lists.value };

    ghost invariant = { λ o. IsOption (option_of o.attributes o.lists.value) × IsListLen o.list_len o.lists.value };
}

impl PartialEq for LoadOption {
    ghost use Rattle.std.specs.Prelude.{◌≡◌, ◌↔◌, IsTrue};
    ghost use Rattle.std.proofs.Common.{rules};
    ghost use Rattle.std.specs.Cmp.Rules.{comparing};
    ghost use Rattle.uefi_path.specs.contracts.path.PathPartialEq.TheImpl.Laws.{laws-law as path_per};
    ghost use Rattle.uefi_option.specs.Equality.{option_eq};

    ghost eq = { option_eq };

    ghost laws = { Prim.search (comparing, rules, path_per) };

    fn eq(&self, other: &LoadOption) -> bool
        ensures value { result ≡ option_eq self.now other.now }
        ensures equal { IsTrue result ↔ (self.now ≡ other.now) }
    {
        laws::paths_compare_as_values();
        self.attributes == other.attributes
            && self.lists.description == other.lists.description
            && self.lists.paths == other.lists.paths
            && self.lists.optional == other.lists.optional
    }
}

impl Eq for LoadOption {
    ghost use Rattle.std.proofs.Common.{rules};
    ghost use Rattle.std.specs.Cmp.Rules.{comparing};
    ghost use Rattle.uefi_path.specs.contracts.path.PathEq.TheImpl.Laws.{laws-law as path_equiv};

    ghost laws = { Prim.search (comparing, rules, path_equiv) };
}

impl LoadOption {
    /// The load option of these parts (UEFI 2.10, 3.1.3), which are not copied. The description is given as CHAR16
    /// units without the zero that closes it.
    ///
    /// # Errors
    ///
    /// The parts are handed back, with [`OptionFault::ZeroUnit`] if a unit of the description is zero; otherwise with
    /// [`OptionFault::EmptyList`] if there is no path; otherwise with [`OptionFault::ListTooLong`] if the spellings of
    /// the paths have more than [`LIST_MAX`] bytes together; otherwise with [`OptionFault::OutOfMemory`] if memory was
    /// refused.
    pub fn from_parts(
        alloc: Global,
        attributes: u32,
        description: Vec<u16>,
        paths: Vec<Path>,
        optional: Vec<u8>,
    ) -> Result<LoadOption, OptionRefused>
        ensures made { IfOk result (λ option.
            option ≡ option_parts attributes description.items paths.items optional.items) }
        ensures valid { IfOk result (λ option. IsOption option) }

        ensures zero_unit { IsErrAnd result (λ refused. refused.fault ≡ OptionFault.ZeroUnit)
            ↔ Contains description.items 0 }
        ensures empty_list { IsErrAnd result (λ refused. refused.fault ≡ OptionFault.EmptyList)
            ↔ ((¬ Contains description.items 0) × (paths.items ≡ [])) }
        ensures list_too_long { IsErrAnd result (λ refused. refused.fault ≡ OptionFault.ListTooLong)
            ↔ ((¬ Contains description.items 0) × (list_max < length (list_bytes paths.items))) }
        // The only other refusal is out of memory.
        ensures named { IfErr result (λ refused. IsPartsFault refused.fault) }

        ensures handed_back { IfErr result (λ refused. (refused.description ≡ description)
            × (refused.paths ≡ paths) × (refused.optional ≡ optional)) }
    {
        let lists = Lists {
            description,
            paths,
            optional,
        };
        let list_len = match check_parts(&lists.description, &lists.paths) {
            Ok(list_len) => list_len,
            Err(fault) => return Err(lists.refused(fault)),
        };
        match LoadOption::from_lists(alloc, attributes, list_len, lists) {
            Ok(option) => Ok(option),
            Err(refusal) => Err(refusal.value.refused(OptionFault::OutOfMemory)),
        }
    }

    /// The attributes, the units of the description without the zero that closes it, the paths and the optional data,
    /// given away. This takes no memory if no copy shares the lists any more; otherwise they are copied, and if memory
    /// is refused the option is handed back.
    pub fn into_parts(
        self,
        alloc: Global,
    ) -> Result<(u32, Vec<u16>, Vec<Path>, Vec<u8>), LoadOption>
        ensures parts { IfOk result (λ parts.
            option_parts parts.0 parts.1.items parts.2.items parts.3.items ≡ self) }
        ensures valid { IsOption self }
        ensures handed_back { IfErr result (λ option. option ≡ self) }
    {
        let LoadOption {
            attributes,
            list_len,
            lists,
        } = self;
        let lists = match Rc::try_unwrap(lists) {
            Ok(lists) => lists,
            Err(lists) => match lists.copy(alloc) {
                Ok(copies) => copies,
                Err(AllocError) => {
                    return Err(LoadOption {
                        attributes,
                        list_len,
                        lists,
                    });
                }
            },
        };
        Ok((attributes, lists.description, lists.paths, lists.optional))
    }

    /// The option of these attributes and lists, of which that of the paths has `list_len` bytes, if there is memory
    /// for it.
    pub(crate) fn from_lists(
        alloc: Global,
        attributes: u32,
        list_len: u16,
        lists: Lists,
    ) -> Result<LoadOption, AllocFailed<Lists>>
        requires is { IsOption (option_of attributes lists) }
        requires len { IsListLen list_len lists }
        ensures made { IfOk result (λ option. option ≡ option_of attributes lists) }
        ensures handed_back { IfErr result (λ refusal. refusal.value ≡ lists) }
    {
        let lists = Rc::new(alloc, lists)?;
        Ok(LoadOption {
            attributes,
            list_len,
            lists,
        })
    }

    /// An equal option, which shares its lists with this one, so that no memory is taken for them. This fails only if
    /// too many options share them to count one more.
    pub fn copy(&self, _alloc: Global) -> Result<LoadOption, AllocError>
        ensures equal { IfOk result (λ option. option ≡ self.now) }
        ensures valid { IsOption self.now }
    {
        Ok(LoadOption {
            attributes: self.attributes,
            list_len: self.list_len,
            lists: self.lists.clone()?,
        })
    }

    /// The attributes, all 32 bits as they are stored.
    pub fn attributes(&self) -> u32
        ensures value { result ≡ self.now.attributes }
        ensures valid { IsOption self.now }
    {
        self.attributes
    }

    /// How many bytes the list of paths has.
    pub(crate) fn list_len(&self) -> u16
        ensures len { result ≡ length (list_bytes self.now.paths) }
        ensures valid { IsOption self.now }
    {
        self.list_len
    }

    /// Whether the option has LOAD_OPTION_ACTIVE (UEFI 2.10, 3.1.3).
    pub fn is_active(&self) -> bool
        ensures active { IsTrue result ↔ IsActive self.now.attributes }
        ensures valid { IsOption self.now }
    {
        attributes::is_active(self.attributes)
    }

    /// The bits of LOAD_OPTION_CATEGORY (UEFI 2.10, 3.1.3), where they are in the attributes:
    /// [`CATEGORY_BOOT`](crate::CATEGORY_BOOT), [`CATEGORY_APP`](crate::CATEGORY_APP) or a reserved value.
    pub fn category(&self) -> u32
        ensures value { result ≡ category_of self.now.attributes }
        ensures valid { IsOption self.now }
    {
        attributes::category(self.attributes)
    }

    /// Whether the boot manager tries the option by itself: it has LOAD_OPTION_ACTIVE, and its category is
    /// LOAD_OPTION_CATEGORY_BOOT (UEFI 2.10, 3.1.3). Whether it is hidden doesn't matter.
    pub fn is_normal(&self) -> bool
        ensures normal { IsTrue result ↔ IsNormal self.now.attributes }
        ensures valid { IsOption self.now }
    {
        attributes::is_normal(self.attributes)
    }

    /// The CHAR16 units of the description, without the zero unit that closes it.
    pub fn description(&self) -> &[u16]
        ensures units { result.now ≡ self.now.description }
        ensures valid { IsOption self.now }
    {
        &self.lists.description
    }

    /// The device paths of the list, in order.
    pub fn paths(&self) -> &[Path]
        ensures paths { result.now ≡ self.now.paths }
        ensures valid { IsOption self.now }
    {
        &self.lists.paths
    }

    /// The optional data: the bytes after the list.
    pub fn optional(&self) -> &[u8]
        ensures bytes { result.now ≡ self.now.optional }
        ensures valid { IsOption self.now }
    {
        &self.lists.optional
    }
}
