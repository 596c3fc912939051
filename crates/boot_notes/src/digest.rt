//! Digests of frames.

ghost use Rattle.std.specs.Prelude.{◌≡◌};
ghost use Rattle.std.specs.List.{AllByRecursion};
ghost use Rattle.boot_notes.specs.Digest.{IsFrameDigest, IsSame, digest_of, digest_under, frame_digest};

use sha2::{Digest, Sha256};

/// How many bytes of a frame's digest are kept: the first ones of its SHA-256.
pub const DIGEST_LEN: usize = 8;

/// The number of a request, and the digest of its frame.
#[derive(Clone, Copy, Debug)]
pub struct FrameDigest {
    /// The number.
    pub number: u32,
    /// The digest.
    pub digest: [u8; DIGEST_LEN],
}

impl FrameDigest {
    /// The digest of this frame, the bytes of a request with this number.
    pub fn new(number: u32, frame: &[u8]) -> FrameDigest
        ensures { result ≡ frame_digest number frame.now }
    {
        FrameDigest {
            number,
            digest: digest_of(frame),
        }
    }

    /// Looks at the digest, for the contract alone.
    fn look(&self)
        ensures { IsFrameDigest self.now }
    {
        let _number = self.number;
        let _digest = self.digest;
    }
}

/// The first bytes of the SHA-256 of these.
fn digest_of(bytes: &[u8]) -> [u8; DIGEST_LEN]
    ensures { result ≡ digest_of bytes.now }
{
    let whole = Sha256::digest(bytes);
    let mut first = [0; DIGEST_LEN];
    first.copy_from_slice(&whole[..DIGEST_LEN]);
    first
}

/// The first of these that is of the request of this number.
pub fn digest_under(digests: &[FrameDigest], number: u32) -> Option<[u8; DIGEST_LEN]>
    ensures { result ≡ digest_under digests.now number }
{
    let kept = digests.iter().find(|kept| kept.number == number)?;
    Some(kept.digest)
}

/// Whether the frame is one with this digest: `None` if there is no digest.
pub fn is_same(kept: Option<[u8; DIGEST_LEN]>, frame: &[u8]) -> Option<bool>
    ensures { IsSame kept frame.now result }
{
    let kept = kept?;
    Some(kept == digest_of(frame))
}

/// Looks at each of these, for the contract alone: what a value's type keeps is known where the value is looked at.
pub(crate) fn look_at_each(digests: &[FrameDigest])
    ensures { AllByRecursion IsFrameDigest digests.now }
{
    for kept in digests {
        kept.look();
    }
}
