//! The keys of a table that were seen.
//!
//! The contracts cite `specs/Views.antt`.

ghost use Rattle.std.specs.Prelude.{◌≡◌, ◌≢◌, ℕ, List, length, take, true, false, OnOk, IfErr, if◌then◌else◌};
ghost use Rattle.std.specs.BTreeSet.{contains_text};
ghost use Rattle.std.specs.Str.{bytes_eq};
ghost use Rattle.yaml_lines.specs.declared.fault.YamlKind.TheVariants.{OutOfMemory};
ghost use Rattle.yaml_flows.specs.Views.{few, is_key_among, is_seen, seen_later};

use crate::fault::{FlowFault, fault_at};
use std::alloc::Global;
use std::collections::BTreeSet;
use yaml_lines::{Node, YamlKind};

// The keys of so many rows are compared one by one. Those of later rows are also in a set, which most
// tables never need.
const FEW: usize = 8;

// The rows whose keys are compared one by one.
fn first_rows(rows: &[(String, Node)]) -> &[(String, Node)]
    ensures { result.now ≡ take few rows.now }
{
    if rows.len() < FEW { rows } else { &rows[..FEW] }
}

// Whether one of the rows has this key.
fn is_among(rows: &[(String, Node)], key: &str) -> bool
    ensures { result ≡ is_key_among rows.now key.now }
{
    rows.iter().any(|row| row.0.as_str() == key)
}

// Adds the key to the set. A key that the set already has is `DoubledKey` at `place`.
fn put(
    alloc: Global,
    later: &mut BTreeSet<String>,
    key: &str,
    place: &[char],
) -> Result<(), FlowFault>
    ensures new { OnOk result (contains_text later.old key.now ≡ false) }
    ensures added { OnOk result ((q : List ℕ) → contains_text later.new q
        ≡ (if bytes_eq key.now q then true else contains_text later.old q)) }
    ensures doubled { IfErr result (λ fault. fault.kind ≢ OutOfMemory
        → contains_text later.old key.now ≡ true) }
{
    if later.insert(String::from_str(alloc, key)?)? {
        Ok(())
    } else {
        Err(fault_at(YamlKind::DoubledKey, place))
    }
}

/// Marks the key, which `place` begins with, as that of the row after these rows. `later` has the keys of
/// the later ones of these rows; this key is added if its row is a later one too. A key that was seen
/// before is `DoubledKey` at `place`.
#[tactic(auto, unfolding(crate::specs::Views::is_seen))]
pub(crate) fn see(
    alloc: Global,
    rows: &[(String, Node)],
    later: &mut BTreeSet<String>,
    key: &str,
    place: &[char],
) -> Result<(), FlowFault>
    ensures new { OnOk result (is_seen rows.now (contains_text later.old) key.now ≡ false) }
    ensures added { OnOk result ((q : List ℕ) → contains_text later.new q
        ≡ seen_later (length rows.now) key.now (contains_text later.old) q) }
    ensures doubled { IfErr result (λ fault. fault.kind ≢ OutOfMemory
        → is_seen rows.now (contains_text later.old) key.now ≡ true) }
{
    if is_among(first_rows(rows), key) {
        return Err(fault_at(YamlKind::DoubledKey, place));
    }
    if rows.len() >= FEW {
        return put(alloc, later, key, place);
    }
    if later.contains(key) {
        return Err(fault_at(YamlKind::DoubledKey, place));
    }
    Ok(())
}
