//! The file that an entry leads to, as firmware's loader sees it.

ghost use Rattle.std.specs.Prelude.{◌≡◌, Some, IfOk};
ghost use Rattle.entry_checks.specs.Image.{image_state_of};

use crate::buffer::read_into;
use crate::secure_boot::{SeenSecureBoot, Told, ask_secure_boot};
use efi_images::{ImageFault, check_image};
use entry_checks::{ImageState, Processor, image_state};
use messages::Reason;
use std::alloc::{AllocError, Global};
use std::fs::OpenFile;
use std::io::{self, ErrorKind};
use std::rt::Files;
use whole_files::{LIMIT, open_regular};

/// What is known of a file that an entry leads to.
#[derive(Drop)]
pub(crate) struct SeenImage {
    /// Whether firmware starts it: nothing, if it does, or no file was looked at.
    pub(crate) state: Option<ImageState>,
    /// Why that is so.
    pub(crate) detail: String,
}

impl SeenImage {
    /// What is known if no file was looked at.
    pub(crate) fn none(alloc: Global) -> SeenImage {
        SeenImage {
            state: None,
            detail: String::new(alloc),
        }
    }

    /// What is known of a file with this fault or none, if it is started by firmware of this processor, whose Secure
    /// Boot says this of the file.
    fn judged(
        alloc: Global,
        processor: Processor,
        fault: Option<ImageFault>,
        told: &Told,
    ) -> Result<SeenImage, AllocError>
        ensures { IfOk result (λ seen. seen.state ≡ image_state_of processor fault told.now.verdict) }
    {
        let state = image_state(processor, fault, told.verdict);
        let detail = match (state, fault) {
            (Some(ImageState::Denied | ImageState::Unsettled), _) => told.detail.clone()?,
            (_, Some(fault)) => format!(in alloc; "{fault}")?,
            (_, None) => String::from_str(alloc, without_fault(processor))?,
        };
        Ok(SeenImage { state, detail })
    }

    /// What is known of a file that isn't looked at, because of this.
    fn unseen(alloc: Global, state: ImageState, detail: &str) -> Result<SeenImage, AllocError>
        ensures { IfOk result (λ seen. seen.state ≡ Some state) }
    {
        Ok(SeenImage {
            state: Some(state),
            detail: String::from_str(alloc, detail)?,
        })
    }

    /// The same once more.
    pub(crate) fn copy(&self) -> Result<SeenImage, AllocError>
        ensures { IfOk result (λ seen. seen.state ≡ self.now.state) }
    {
        Ok(SeenImage {
            state: self.state,
            detail: self.detail.clone()?,
        })
    }
}

/// What is at the path of an image.
#[derive(Clone, Copy, Debug, PartialEq, Eq)]
enum ReadImage {
    /// A file whose bytes were read.
    Whole,
    /// A file with more bytes than the limit.
    TooMuch,
    /// A pipe, a device or a socket, of which nothing is read.
    Irregular,
}

/// What is known of the file at this path, if it is started by firmware of this processor with this Secure Boot. Only a
/// regular file is opened, and one that is too long isn't read. Its bytes are read into the buffer, in place of those of
/// the file before.
pub(crate) fn look_at_image<R: Files + AllocGlobal>(
    rt: &R,
    path: &str,
    buffer: &mut Vec<u8>,
    processor: Processor,
    secure_boot: &SeenSecureBoot,
) -> Result<SeenImage, AllocError> {
    let alloc = rt.alloc();
    match read_image(rt, path, buffer) {
        Ok(ReadImage::Whole) => {
            let bytes = buffer.as_slice();
            let told = ask_secure_boot(alloc, bytes, secure_boot)?;
            SeenImage::judged(alloc, processor, check_image(bytes).err(), &told)
        }
        Ok(ReadImage::TooMuch) => {
            let detail = format!(in alloc; "{}", Reason::TooMuch(LIMIT))?;
            SeenImage::unseen(alloc, ImageState::TooLong, &detail)
        }
        Ok(ReadImage::Irregular) => {
            SeenImage::unseen(alloc, ImageState::Irregular, "it isn't opened")
        }
        Err(error) if error.kind() == ErrorKind::OutOfMemory => Err(AllocError),
        Err(error) => {
            let detail = format!(in alloc; "{error}")?;
            SeenImage::unseen(alloc, ImageState::Unreadable, &detail)
        }
    }
}

/// What is told of a file without a fault, if anything is, by firmware's processor.
fn without_fault(processor: Processor) -> &'static str {
    match processor {
        Processor::Untold => "firmware's processor isn't known here",
        Processor::X8664 | Processor::Other => "it is for x86-64",
    }
}

/// Reads the regular file at this path into the buffer. One that says that it has more bytes than the limit isn't read at
/// all.
fn read_image<R: Files>(rt: &R, path: &str, buffer: &mut Vec<u8>) -> io::Result<ReadImage> {
    let Some(file) = open_regular(rt, path)? else {
        return Ok(ReadImage::Irregular);
    };
    let said = file.metadata()?.len();
    if said > LIMIT as u64 {
        return Ok(ReadImage::TooMuch);
    }
    if read_into(buffer, file, said as usize, LIMIT)? {
        Ok(ReadImage::Whole)
    } else {
        Ok(ReadImage::TooMuch)
    }
}
