//! The base rows that a tree shares with its copies.

ghost use Rattle.std.specs.Prelude.{◌≡◌, [], IfOk};

use crate::{Items, OutOfMemory, SharedFile};
use std::alloc::Global;
use std::marker::Model;
use std::rc::Rc;

/// Rows that a tree and its copies share, or none. They never change. Contracts see them as a list.
#[derive(Debug, Drop)]
pub(crate) struct Base {
    rows: Option<Rc<Items<SharedFile>>>,
}

impl Model for Base {
    ghost use Rattle.std.specs.Prelude.{List};
    ghost use Rattle.hook_base.specs.declared.file.File.{File};
    ghost use Rattle.hook_base.specs.Overlays.{rows_within};

    ghost Value = { List File };

    ghost view = { λ base. rows_within base.rows (λ shared. shared.value) };
}

impl Base {
    /// No rows.
    pub(crate) fn none() -> Base
        ensures { result ≡ [] }
    {
        Base { rows: None }
    }

    /// Makes these rows shareable. `OutOfMemory` if memory is refused.
    pub(crate) fn of(alloc: Global, rows: Vec<SharedFile>) -> Result<Base, OutOfMemory>
        ensures { IfOk result (λ base. base ≡ rows.items) }
    {
        let shared = Rc::new(alloc, Items::from(rows))?;
        Ok(Base { rows: Some(shared) })
    }

    /// The same rows, shared with one more owner. `OutOfMemory` if they have too many owners to be counted.
    pub(crate) fn share(&self) -> Result<Base, OutOfMemory>
        ensures { IfOk result (λ base. base ≡ self.now) }
    {
        match &self.rows {
            None => Ok(Base::none()),
            Some(shared) => {
                let shared = shared.clone()?;
                Ok(Base { rows: Some(shared) })
            }
        }
    }

    /// The rows.
    pub(crate) fn as_slice(&self) -> &[SharedFile]
        ensures { result.now ≡ self.now }
    {
        match &self.rows {
            None => &[],
            Some(shared) => shared.as_ref().as_slice(),
        }
    }
}
