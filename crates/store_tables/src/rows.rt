//! The rows of the tables as they are read (docs/REFERENCE.md, "The store"). The ranges given here hold in a
//! store that isn't damaged; a row that is read may lie outside them.

use owned_lists::Bytes;

/// A number that the store keeps about itself, such as the version of its tables.
#[derive(Debug, Drop)]
pub struct MetaRow {
    /// In UTF-8: `version` or `limit`.
    pub name: Bytes,
    /// The version, or how many answers are cached at most.
    pub value: i64,
}

/// A blob: contents under their digest.
#[derive(Debug, Drop)]
pub struct BlobRow {
    /// SHA-256 of the bytes (FIPS 180-4), 32 bytes.
    pub digest: Bytes,
    /// At most 16 MiB.
    pub bytes: Bytes,
}

/// A staged file.
#[derive(Debug, Drop)]
pub struct StagedRow {
    /// In UTF-8, at most 4,096 bytes.
    pub path: Bytes,
    /// 0 is plain, 1 executable.
    pub mode: i64,
    /// SHA-256 of its contents, which `blobs` has.
    pub digest: Bytes,
}

/// A fix of a staged file.
#[derive(Debug, Drop)]
pub struct FixRow {
    /// In UTF-8, at most 4,096 bytes.
    pub path: Bytes,
    /// 1 if the file is gone, without a digest; otherwise 0, with one.
    pub gone: i64,
    /// SHA-256 of the new contents, which `blobs` has.
    pub digest: Option<Bytes>,
}

/// A commit, by its number.
#[derive(Debug, Drop)]
pub struct CommitRow {
    /// From 1 to 100,000.
    pub n: i64,
    /// At most 16 MiB.
    pub message: Bytes,
}

/// A file of a commit.
#[derive(Debug, Drop)]
pub struct EntryRow {
    /// The number of the commit, from 1 on.
    pub n: i64,
    /// In UTF-8, at most 4,096 bytes.
    pub path: Bytes,
    /// 0 is plain, 1 executable.
    pub mode: i64,
    /// SHA-256 of its contents, which `blobs` has.
    pub digest: Bytes,
}

/// A cached answer of a child. `blobs` has the contents of its four digests.
#[derive(Debug, Drop)]
pub struct AnswerRow {
    /// The digest of the record of its command's words.
    pub words: Bytes,
    /// The digest of the record of the files that it saw.
    pub seen: Bytes,
    /// The digest of its output.
    pub output: Bytes,
    /// The digest of the record of its changes.
    pub changes: Bytes,
    /// Its exit code, from 0 to 255.
    pub status: i64,
}

/// How lately an answer was used: of two answers, the one with the greater tick was used later.
#[derive(Debug, Drop)]
pub struct UseRow {
    /// The digest of the record of its command's words.
    pub words: Bytes,
    /// The digest of the record of the files that it saw.
    pub seen: Bytes,
    /// From 1 to 4,611,686,018,427,387,904; no two are equal.
    pub tick: i64,
}
