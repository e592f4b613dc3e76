//! The bytes of files. Files with the same bytes can share them.

ghost use Rattle.std.specs.Prelude.{◌≡◌, length, IfOk};
ghost use Rattle.sha2.specs.Sha256.{sha256};

use crate::{Bytes, OutOfMemory};
use sha2::{Digest as _, Sha256};
use std::alloc::{AllocError, Global};
use std::marker::Model;
use std::rc::Rc;

// Bytes, and their SHA-256 if it was computed.
#[derive(Debug, Drop)]
struct Shared {
    digest: Option<[u8; 32]>,
    bytes: Bytes,
}

/// Bytes, with their SHA-256 (FIPS 180-4) if they are to be kept or looked up by it. A copy shares both and
/// allocates nothing. Contracts see the bytes.
#[derive(Debug, Drop)]
pub struct Content {
    shared: Rc<Shared>,
}

impl Model for Content {
    ghost use Rattle.std.specs.Prelude.{◌≡◌, IfSome, List, ℕ};
    ghost use Rattle.sha2.specs.Sha256.{sha256};

    ghost Value = { List ℕ };

    ghost view = { λ content. content.shared.value.bytes };

    ghost invariant = { λ content. IfSome content.shared.value.digest (λ digest. digest ≡ sha256 content.shared.value.bytes) };
}

impl Content {
    /// These bytes, without a digest: `digest` hashes them each time. `OutOfMemory` if memory is refused.
    pub fn new(alloc: Global, bytes: Bytes) -> Result<Content, OutOfMemory>
        ensures { IfOk result (λ content. content ≡ bytes) }
    {
        let shared = Rc::new(
            alloc,
            Shared {
                digest: None,
                bytes,
            },
        )?;
        Ok(Content { shared })
    }

    /// These bytes, hashed once, here. `OutOfMemory` if memory is refused.
    pub fn hashed(alloc: Global, bytes: Bytes) -> Result<Content, OutOfMemory>
        ensures { IfOk result (λ content. content ≡ bytes) }
    {
        let digest = Sha256::digest(bytes.as_slice());
        Content::with_digest(alloc, digest, bytes)
    }

    /// These bytes, whose SHA-256 is known, or `OutOfMemory` if memory is refused.
    pub fn with_digest(
        alloc: Global,
        digest: [u8; 32],
        bytes: Bytes,
    ) -> Result<Content, OutOfMemory>
        requires { digest ≡ sha256 bytes }
        ensures { IfOk result (λ content. content ≡ bytes) }
    {
        let shared = Rc::new(
            alloc,
            Shared {
                digest: Some(digest),
                bytes,
            },
        )?;
        Ok(Content { shared })
    }

    /// A copy of the bytes, without a digest, as `new` makes it. `OutOfMemory` if memory is refused.
    pub fn copy_of(alloc: Global, bytes: &[u8]) -> Result<Content, OutOfMemory>
        ensures { IfOk result (λ content. content ≡ bytes.now) }
    {
        Content::new(alloc, Bytes::copy_of(alloc, bytes)?)
    }

    /// The SHA-256 of the bytes.
    pub fn digest(&self) -> [u8; 32]
        ensures { result ≡ sha256 self.now }
    {
        match self.shared.as_ref().digest {
            Some(digest) => digest,
            None => Sha256::digest(self.as_slice()),
        }
    }

    /// The number of bytes.
    pub fn len(&self) -> usize
        ensures { result ≡ length self.now }
    {
        self.as_slice().len()
    }

    /// The bytes.
    pub fn as_slice(&self) -> &[u8]
        ensures { result.now ≡ self.now }
    {
        self.shared.as_ref().bytes.as_slice()
    }
}

// The same bytes, shared with one more owner. `AllocError` if they have too many owners to be counted.
impl Clone for Content {
    ghost use Rattle.std.specs.Prelude.{◌≡◌};

    ghost is_clone = { λ source made. made ≡ source };

    fn clone(&self) -> Result<Self, AllocError> {
        let shared = self.shared.clone()?;
        Ok(Content { shared })
    }
}

impl PartialEq for Content {
    ghost use Rattle.std.specs.Prelude.{nat_eq};
    ghost use Rattle.std.specs.Cmp.{partial_equiv_from_equiv};
    ghost use Rattle.std.specs.Cmp.Lexicographic.{nat_list_eq_equiv, pointwise};

    ghost eq = { pointwise nat_eq };

    ghost laws = { partial_equiv_from_equiv nat_list_eq_equiv };

    fn eq(&self, other: &Self) -> bool {
        self.as_slice() == other.as_slice()
    }
}

impl Eq for Content {
    ghost use Rattle.std.specs.Cmp.Lexicographic.{nat_list_eq_equiv};

    ghost laws = { nat_list_eq_equiv };
}
