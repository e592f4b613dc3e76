//! Paths that words name, each once.
//!
//! The contracts cite `specs/NamedPaths.antt`.

ghost use Rattle.std.specs.BTreeSet.{contains_text};
ghost use Rattle.std.specs.Prelude.{◌≡◌, ◌||◌, ℕ, [], List, map, not, string_bytes, IfOk, OnOk};
ghost use Rattle.std.specs.Str.{bytes_eq};
ghost use Rattle.named_files.specs.NamedPaths.{with_path};

use std::alloc::{AllocError, Global};
use std::collections::BTreeSet;
use std::marker::Model;

/// Paths in the order in which they were named, each once. Contracts see the list of them.
#[derive(Drop)]
pub struct NamedPaths {
    alloc: Global,
    paths: Vec<String>,
    seen: BTreeSet<String>,
}

impl Model for NamedPaths {
    ghost use Rattle.std.specs.Prelude.{◌≡◌, ℕ, List, map, string_bytes};
    ghost use Rattle.std.specs.BTreeSet.{contains_text};
    ghost use Rattle.named_files.specs.NamedPaths.{is_among_paths};

    ghost Value = { List (List ℕ) };

    ghost view = { λ named. map string_bytes named.paths.items };

    ghost invariant = { λ named. (q : List ℕ) → contains_text named.seen q
        ≡ is_among_paths q (map string_bytes named.paths.items) };
}

impl NamedPaths {
    /// No paths.
    pub fn new(alloc: Global) -> NamedPaths
        ensures { result ≡ [] }
    {
        NamedPaths {
            alloc,
            paths: Vec::new(alloc),
            seen: BTreeSet::new(alloc),
        }
    }

    /// The same paths, and this one at their end unless it is one of them. It fails only for lack of memory.
    pub fn with(self, path: &str) -> Result<NamedPaths, AllocError>
        ensures { IfOk result (λ named. named ≡ with_path self path.now) }
    {
        let NamedPaths {
            alloc,
            mut paths,
            mut seen,
        } = self;
        let is_new = see(alloc, &mut seen, path)?;
        if !is_new {
            return Ok(NamedPaths { alloc, paths, seen });
        }
        paths.push(String::from_str(alloc, path)?)?;
        Ok(NamedPaths { alloc, paths, seen })
    }

    /// The paths, in order. It takes no memory.
    pub fn into_vec(self) -> Vec<String>
        ensures { map string_bytes result.items ≡ self }
    {
        let NamedPaths {
            alloc: _,
            paths,
            seen: _,
        } = self;
        paths
    }
}

// Adds the path to those that were seen, and returns whether it wasn't one of them.
fn see(alloc: Global, seen: &mut BTreeSet<String>, path: &str) -> Result<bool, AllocError>
    ensures new { IfOk result (λ is_new. is_new ≡ not (contains_text seen.old path.now)) }
    ensures added { OnOk result ((q : List ℕ) → contains_text seen.new q
        ≡ (bytes_eq path.now q || contains_text seen.old q)) }
{
    Ok(seen.insert(String::from_str(alloc, path)?)?)
}
