//! All blobs that are kept, found by their digests.

ghost use Rattle.std.specs.Prelude.{◌≡◌, ◌≢◌, ◌+◌, ◌-◌, ◌<◌, ◌≤◌, [], ◌∷◌, ◌++◌, false, length, take, drop, IfOk, IfErr, IfNone, IfSome, OnOk, OnErr};
ghost use Rattle.std.specs.List.{Any};
ghost use Rattle.sha2.specs.Sha256.{sha256};
ghost use Rattle.repo_store.specs.Contents.{Collides, has_content, has_digest, with_content};
ghost use Rattle.store_faults.specs.Faults.{IsDamage, IsRefusal};
ghost use Rattle.store_faults.specs.Limits.{IsSmall};
ghost use Rattle.repo_store.specs.RowRules.{IsBlobRow};

use crate::StoreFault;
use hook_base::{Bytes, Content, OutOfMemory};
use sha2::{Digest as _, Sha256};
use sqlite::Error;
use std::alloc::Global;
use std::collections::HashMap;
use std::marker::Model;
use store_faults::MOST_CONTENT_BYTES;
use store_tables::BlobRow;

/// Blobs, each kept once and found by its digest. Contracts see the list of them, the oldest first.
#[derive(Drop)]
pub(crate) struct Contents {
    items: Vec<Content>,
    places: HashMap<[u8; 32], usize>,
}

impl Model for Contents {
    ghost use Rattle.std.specs.Prelude.{List, ℕ};
    ghost use Rattle.repo_store.specs.Index.{IsIndexed};

    ghost Value = { List (List ℕ) };

    ghost view = { λ contents. contents.items.items };

    ghost invariant = { λ contents. IsIndexed contents.places contents.items.items };
}

impl Contents {
    /// No blobs.
    pub(crate) fn new(alloc: Global) -> Contents
        ensures { result ≡ [] }
    {
        Contents {
            items: Vec::new(alloc),
            places: HashMap::new(alloc),
        }
    }

    /// How many there are.
    pub(crate) fn len(&self) -> usize
        ensures { result ≡ length self.now }
    {
        self.items.len()
    }

    /// Those from an index on.
    pub(crate) fn since(&self, place: usize) -> &[Content]
        requires { place ≤ length self.now }
        ensures { result.now ≡ drop place self.now }
    {
        &self.items[place..]
    }

    /// The blob under a digest, if there is one.
    pub(crate) fn find(&self, digest: &[u8; 32]) -> Option<&Content>
        ensures absent { IfNone result (has_digest digest.now self.now ≡ false) }
        ensures found { IfSome result (λ content. Any (λ bytes. bytes ≡ content.now) self.now) }
        ensures under { IfSome result (λ content. sha256 content.now ≡ digest.now) }
        ensures alone { IfSome result (λ content. ¬ Collides content.now self.now) }
    {
        match self.places.get(digest) {
            Some(place) => Some(&self.items[*place]),
            None => None,
        }
    }

    /// Adds a blob whose digest no other has. A refusal leaves the blobs as they were.
    pub(crate) fn push(&mut self, content: Content) -> Result<(), OutOfMemory>
        requires { has_digest (sha256 content) self.old ≡ false }
        ensures kept { OnOk result (self.new ≡ self.old ++ content ∷ []) }
        ensures refused { OnErr result (self.new ≡ self.old) }
    {
        let digest = content.digest();
        let place = self.items.len();
        self.items.push(content)?;
        if self.places.insert(digest, place).is_err() {
            self.items.pop();
            return Err(OutOfMemory);
        }
        Ok(())
    }

    /// The blob of these bytes, which is added if there is none yet. A refusal leaves the blobs as they were.
    pub(crate) fn keep(&mut self, bytes: &[u8]) -> Result<Content, StoreFault>
        ensures content { IfOk result (λ content. content ≡ bytes.now) }
        ensures kept { OnOk result (self.new ≡ with_content bytes.now self.old) }
        ensures same { OnErr result (self.new ≡ self.old) }
        ensures why { IfErr result (IsRefusal (¬ IsSmall bytes.now) ⊥ (IsSmall bytes.now × Collides bytes.now self.old)) }
        ensures small { OnOk result (IsSmall bytes.now) }
        ensures apart { OnOk result (¬ Collides bytes.now self.old) }
    {
        if bytes.len() > MOST_CONTENT_BYTES {
            return Err(StoreFault::TooLarge);
        }
        self.keep_under(Sha256::digest(bytes), bytes)
    }

    /// The blob of these bytes, whose digest is the given one; it is added if there is none yet. A refusal
    /// leaves the blobs as they were.
    pub(crate) fn keep_under(
        &mut self,
        digest: [u8; 32],
        bytes: &[u8],
    ) -> Result<Content, StoreFault>
        requires { digest ≡ sha256 bytes.now }
        ensures content { IfOk result (λ content. content ≡ bytes.now) }
        ensures kept { OnOk result (self.new ≡ with_content bytes.now self.old) }
        ensures same { OnErr result (self.new ≡ self.old) }
        ensures why { IfErr result (IsRefusal ⊥ ⊥ (Collides bytes.now self.old)) }
        ensures apart { OnOk result (¬ Collides bytes.now self.old) }
    {
        if let Some(content) = self.find(&digest) {
            return shared(content, bytes);
        }
        let content = self.add(digest, bytes)?;
        Ok(content)
    }

    /// Whether these bytes, whose digest is the given one, are kept. Other bytes under the digest are a
    /// `Collision`.
    pub(crate) fn has(&self, digest: &[u8; 32], bytes: &[u8]) -> Result<bool, StoreFault>
        requires { digest.now ≡ sha256 bytes.now }
        ensures known { IfOk result (λ known. known ≡ has_content bytes.now self.now) }
        ensures absent { IfOk result (λ known. known ≡ false → has_digest digest.now self.now ≡ false) }
        ensures why { IfErr result (IsRefusal ⊥ ⊥ (Collides bytes.now self.now)) }
    {
        match self.find(digest) {
            Some(content) if content.as_slice() != bytes => Err(StoreFault::Collision),
            Some(_) => Ok(true),
            None => Ok(false),
        }
    }

    /// Adds the blob of a row, without a copy of its bytes. One of more than 16 MiB, or under another digest
    /// than its own, is `Damaged`; a digest that is there already is `Sql`, since the table excludes it.
    pub(crate) fn admit(&mut self, row: BlobRow) -> Result<(), StoreFault>
        ensures kept { OnOk result (self.new ≡ self.old ++ row.bytes ∷ []) }
        ensures obeys { OnOk result (IsBlobRow row) }
        ensures broken { IfErr result (IsDamage (¬ IsBlobRow row)) }
    {
        if row.bytes.len() > MOST_CONTENT_BYTES {
            return Err(StoreFault::Damaged);
        }
        let BlobRow { digest, bytes } = row;
        let found = Sha256::digest(bytes.as_slice());
        if digest.as_slice() != found.as_slice() {
            return Err(StoreFault::Damaged);
        }
        if self.find(&found).is_some() {
            return Err(StoreFault::Sql(Error::InvalidQuery));
        }
        let content = Content::with_digest(*self.items.allocator(), found, bytes)?;
        self.push(content)?;
        Ok(())
    }

    fn add(&mut self, digest: [u8; 32], bytes: &[u8]) -> Result<Content, OutOfMemory>
        requires digest { digest ≡ sha256 bytes.now }
        requires new { has_digest (sha256 bytes.now) self.old ≡ false }
        ensures content { IfOk result (λ content. content ≡ bytes.now) }
        ensures kept { OnOk result (self.new ≡ self.old ++ bytes.now ∷ []) }
        ensures same { OnErr result (self.new ≡ self.old) }
    {
        let alloc = *self.items.allocator();
        let content = Content::with_digest(alloc, digest, Bytes::copy_of(alloc, bytes)?)?;
        self.push(content.clone()?)?;
        Ok(content)
    }

    /// This blob, shared; it is added if there is none yet. A refusal leaves the blobs as they were.
    pub(crate) fn keep_shared(&mut self, content: &Content) -> Result<Content, StoreFault>
        ensures content { IfOk result (λ kept. kept ≡ content.now) }
        ensures kept { OnOk result (self.new ≡ with_content content.now self.old) }
        ensures same { OnErr result (self.new ≡ self.old) }
        ensures why { IfErr result (IsRefusal (¬ IsSmall content.now) ⊥
            (IsSmall content.now × Collides content.now self.old)) }
        ensures small { OnOk result (IsSmall content.now) }
        ensures apart { OnOk result (¬ Collides content.now self.old) }
    {
        if content.len() > MOST_CONTENT_BYTES {
            return Err(StoreFault::TooLarge);
        }
        self.share(content)
    }

    fn share(&mut self, content: &Content) -> Result<Content, StoreFault>
        ensures content { IfOk result (λ kept. kept ≡ content.now) }
        ensures kept { OnOk result (self.new ≡ with_content content.now self.old) }
        ensures same { OnErr result (self.new ≡ self.old) }
        ensures why { IfErr result (IsRefusal ⊥ ⊥ (Collides content.now self.old)) }
        ensures apart { OnOk result (¬ Collides content.now self.old) }
    {
        if let Some(kept) = self.find(&content.digest()) {
            return shared(kept, content.as_slice());
        }
        let content = self.add_shared(content)?;
        Ok(content)
    }

    fn add_shared(&mut self, content: &Content) -> Result<Content, OutOfMemory>
        requires { has_digest (sha256 content.now) self.old ≡ false }
        ensures content { IfOk result (λ kept. kept ≡ content.now) }
        ensures kept { OnOk result (self.new ≡ self.old ++ content.now ∷ []) }
        ensures same { OnErr result (self.new ≡ self.old) }
    {
        let kept = content.clone()?;
        self.push(content.clone()?)?;
        Ok(kept)
    }

    /// Removes the last blob.
    pub(crate) fn pop(&mut self)
        ensures { self.new ≡ take (length self.old - 1) self.old }
    {
        if let Some(content) = self.items.pop() {
            self.places.remove(&content.digest());
        }
    }

    /// Removes the blobs from an index on.
    pub(crate) fn truncate(&mut self, place: usize)
        ensures { self.new ≡ take place self.old }
    {
        'later: while self.len() > place {
            self.pop();
        }
    }
}

// The blob again, if it has these bytes.
fn shared(content: &Content, bytes: &[u8]) -> Result<Content, StoreFault>
    ensures same { IfOk result (λ made. (made ≡ bytes.now) × (content.now ≡ bytes.now)) }
    ensures differs { IfErr result (IsRefusal ⊥ ⊥ (content.now ≢ bytes.now)) }
{
    if content.as_slice() != bytes {
        return Err(StoreFault::Collision);
    }
    Ok(content.clone()?)
}
