//! Each row of a table, decoded from the columns of a query's row.

use crate::columns::{FromColumns, blob_at, blob_if_any, has_columns, number_at, text_at};
use crate::rows::{AnswerRow, BlobRow, CommitRow, EntryRow, FixRow, MetaRow, StagedRow, UseRow};
use sqlite::{Error, Row};
use std::alloc::Global;

impl FromColumns for MetaRow {
    ghost use Rattle.store_tables.specs.Tables.{meta_cells};

    ghost cells = { meta_cells };

    fn from_columns(alloc: Global, row: &Row, first: usize) -> Result<Self, Error> {
        has_columns(row, first + 2)?;
        let name = text_at(alloc, row, first)?;
        let value = number_at(row, first + 1)?;
        Ok(MetaRow { name, value })
    }
}

impl FromColumns for BlobRow {
    ghost use Rattle.store_tables.specs.Tables.{blob_cells};

    ghost cells = { blob_cells };

    fn from_columns(alloc: Global, row: &Row, first: usize) -> Result<Self, Error> {
        has_columns(row, first + 2)?;
        let digest = blob_at(alloc, row, first)?;
        let bytes = blob_at(alloc, row, first + 1)?;
        Ok(BlobRow { digest, bytes })
    }
}

impl FromColumns for StagedRow {
    ghost use Rattle.store_tables.specs.Tables.{staged_cells};

    ghost cells = { staged_cells };

    fn from_columns(alloc: Global, row: &Row, first: usize) -> Result<Self, Error> {
        has_columns(row, first + 3)?;
        let path = text_at(alloc, row, first)?;
        let mode = number_at(row, first + 1)?;
        let digest = blob_at(alloc, row, first + 2)?;
        Ok(StagedRow { path, mode, digest })
    }
}

impl FromColumns for FixRow {
    ghost use Rattle.store_tables.specs.Tables.{fix_cells};

    ghost cells = { fix_cells };

    fn from_columns(alloc: Global, row: &Row, first: usize) -> Result<Self, Error> {
        has_columns(row, first + 3)?;
        let path = text_at(alloc, row, first)?;
        let gone = number_at(row, first + 1)?;
        let digest = blob_if_any(alloc, row, first + 2)?;
        Ok(FixRow { path, gone, digest })
    }
}

impl FromColumns for CommitRow {
    ghost use Rattle.store_tables.specs.Tables.{commit_cells};

    ghost cells = { commit_cells };

    fn from_columns(alloc: Global, row: &Row, first: usize) -> Result<Self, Error> {
        has_columns(row, first + 2)?;
        let n = number_at(row, first)?;
        let message = blob_at(alloc, row, first + 1)?;
        Ok(CommitRow { n, message })
    }
}

impl FromColumns for EntryRow {
    ghost use Rattle.store_tables.specs.Tables.{entry_cells};

    ghost cells = { entry_cells };

    fn from_columns(alloc: Global, row: &Row, first: usize) -> Result<Self, Error> {
        has_columns(row, first + 4)?;
        let n = number_at(row, first)?;
        let path = text_at(alloc, row, first + 1)?;
        let mode = number_at(row, first + 2)?;
        let digest = blob_at(alloc, row, first + 3)?;
        Ok(EntryRow {
            n,
            path,
            mode,
            digest,
        })
    }
}

impl FromColumns for AnswerRow {
    ghost use Rattle.store_tables.specs.Tables.{answer_cells};

    ghost cells = { answer_cells };

    fn from_columns(alloc: Global, row: &Row, first: usize) -> Result<Self, Error> {
        has_columns(row, first + 5)?;
        let words = blob_at(alloc, row, first)?;
        let seen = blob_at(alloc, row, first + 1)?;
        let output = blob_at(alloc, row, first + 2)?;
        let changes = blob_at(alloc, row, first + 3)?;
        let status = number_at(row, first + 4)?;
        Ok(AnswerRow {
            words,
            seen,
            output,
            changes,
            status,
        })
    }
}

impl FromColumns for UseRow {
    ghost use Rattle.store_tables.specs.Uses.{use_cells};

    ghost cells = { use_cells };

    fn from_columns(alloc: Global, row: &Row, first: usize) -> Result<Self, Error> {
        has_columns(row, first + 3)?;
        let words = blob_at(alloc, row, first)?;
        let seen = blob_at(alloc, row, first + 1)?;
        let tick = number_at(row, first + 2)?;
        Ok(UseRow { words, seen, tick })
    }
}
