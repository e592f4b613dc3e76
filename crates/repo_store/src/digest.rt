//! A digest as callers see it.

/// The SHA-256 of contents (FIPS 180-4).
#[derive(Clone, Copy, Debug, PartialEq, Eq)]
pub struct Digest {
    /// The 32 bytes of the digest.
    pub bytes: [u8; 32],
}
