//! The attributes of a load option (UEFI 2.10, 3.1.3).

ghost use Rattle.std.specs.Prelude.{◌≡◌, ◌↔◌, IsTrue};
ghost use Rattle.uefi_option.specs.Attributes.{IsActive, category_of, IsNormal};

/// The attribute LOAD_OPTION_ACTIVE: the boot manager tries the option by itself.
pub const ACTIVE: u32 = 0x0000_0001;

/// The attribute LOAD_OPTION_FORCE_RECONNECT: after the option's driver is loaded, all drivers are connected again.
pub const FORCE_RECONNECT: u32 = 0x0000_0002;

/// The attribute LOAD_OPTION_HIDDEN: a menu leaves the option out.
pub const HIDDEN: u32 = 0x0000_0008;

/// The bits of the attribute LOAD_OPTION_CATEGORY.
pub const CATEGORY: u32 = 0x0000_1f00;

/// The category LOAD_OPTION_CATEGORY_BOOT: the option is for the normal boot.
pub const CATEGORY_BOOT: u32 = 0x0000_0000;

/// The category LOAD_OPTION_CATEGORY_APP: the option is an application that is started by the user alone.
pub const CATEGORY_APP: u32 = 0x0000_0100;

/// Whether the attributes have LOAD_OPTION_ACTIVE (UEFI 2.10, 3.1.3).
pub fn is_active(attributes: u32) -> bool
    ensures { IsTrue result ↔ IsActive attributes }
{
    attributes & ACTIVE != 0
}

/// The bits of LOAD_OPTION_CATEGORY (UEFI 2.10, 3.1.3), where they are in the attributes: [`CATEGORY_BOOT`],
/// [`CATEGORY_APP`] or a reserved value.
pub fn category(attributes: u32) -> u32
    ensures { result ≡ category_of attributes }
{
    attributes & CATEGORY
}

/// Whether the boot manager tries an option of these attributes by itself: it has LOAD_OPTION_ACTIVE, and its
/// category is LOAD_OPTION_CATEGORY_BOOT (UEFI 2.10, 3.1.3). Whether it is hidden doesn't matter.
pub fn is_normal(attributes: u32) -> bool
    ensures { IsTrue result ↔ IsNormal attributes }
{
    is_active(attributes) && category(attributes) == CATEGORY_BOOT
}
