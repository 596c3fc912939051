//! The words of refusals of what an image has in memory.

ghost use Rattle.std.specs.Prelude.{◌≡◌, ◌≤◌, IfSome, length};
ghost use Rattle.std.specs.Option.{option_map};
ghost use Rattle.bootkeep_c.specs.Words.{word_max, loaded_word};

use crate::refusal::{
    IMAGE_CODE_VIEW_BEYOND_IMAGE, IMAGE_CODE_VIEW_ENTRY_BEYOND_IMAGE,
    IMAGE_CODE_VIEW_ENTRY_NOT_LOADED, IMAGE_CODE_VIEW_NOT_LOADED, IMAGE_CODE_VIEW_SIZE,
    IMAGE_RELOCATION_BEYOND_IMAGE, IMAGE_RELOCATION_BLOCK_ADDRESS,
    IMAGE_RELOCATION_BLOCK_NOT_LOADED, IMAGE_RELOCATION_BLOCK_SIZE, IMAGE_RELOCATION_UNKNOWN_TYPE,
    IMAGE_RESOURCE_BEYOND_RESOURCES, IMAGE_RESOURCE_DIRECTORY_SIZE, IMAGE_RESOURCES_NOT_LOADED,
};

/// The word of a refusal of what an image has in memory.
pub(crate) fn word_of_loaded(kind: u32) -> Option<&'static str>
    ensures word { option_map (λ word. word.now) result ≡ loaded_word kind }
    ensures len { IfSome result (λ word. length word.now ≤ word_max) }
{
    match kind {
        IMAGE_CODE_VIEW_ENTRY_BEYOND_IMAGE => Some("ImageCodeViewEntryBeyondImage"),
        IMAGE_CODE_VIEW_ENTRY_NOT_LOADED => Some("ImageCodeViewEntryNotLoaded"),
        IMAGE_CODE_VIEW_BEYOND_IMAGE => Some("ImageCodeViewBeyondImage"),
        IMAGE_CODE_VIEW_NOT_LOADED => Some("ImageCodeViewNotLoaded"),
        IMAGE_CODE_VIEW_SIZE => Some("ImageCodeViewSize"),
        IMAGE_RESOURCES_NOT_LOADED => Some("ImageResourcesNotLoaded"),
        IMAGE_RESOURCE_BEYOND_RESOURCES => Some("ImageResourceBeyondResources"),
        IMAGE_RESOURCE_DIRECTORY_SIZE => Some("ImageResourceDirectorySize"),
        IMAGE_RELOCATION_BLOCK_NOT_LOADED => Some("ImageRelocationBlockNotLoaded"),
        IMAGE_RELOCATION_BLOCK_SIZE => Some("ImageRelocationBlockSize"),
        IMAGE_RELOCATION_BLOCK_ADDRESS => Some("ImageRelocationBlockAddress"),
        IMAGE_RELOCATION_BEYOND_IMAGE => Some("ImageRelocationBeyondImage"),
        IMAGE_RELOCATION_UNKNOWN_TYPE => Some("ImageRelocationUnknownType"),
        _ => None,
    }
}
