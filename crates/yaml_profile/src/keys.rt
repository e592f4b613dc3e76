//! The keys of a table that were read so far.

ghost use Rattle.std.specs.Prelude.{◌≡◌, ◌≢◌, ℕ, List, true, false, OnOk, IfErr, if◌then◌else◌};
ghost use Rattle.std.specs.BTreeSet.{contains_text};
ghost use Rattle.std.specs.Str.{bytes_eq};
ghost use Rattle.yaml_lines.specs.declared.fault.YamlKind.TheVariants.{OutOfMemory};

use std::alloc::Global;
use std::collections::BTreeSet;
use yaml_lines::{YamlFault, YamlKind};

/// Marks the key in line `number` as seen. One that was seen before is `DoubledKey`.
pub(crate) fn see(
    alloc: Global,
    seen: &mut BTreeSet<String>,
    key: &str,
    number: usize,
) -> Result<(), YamlFault>
    ensures new { OnOk result (contains_text seen.old key.now ≡ false) }
    ensures added { OnOk result ((q : List ℕ) → contains_text seen.new q
        ≡ (if bytes_eq key.now q then true else contains_text seen.old q)) }
    ensures doubled { IfErr result (λ fault. fault.kind ≢ OutOfMemory
        → contains_text seen.old key.now ≡ true) }
{
    if seen.insert(String::from_str(alloc, key)?)? {
        Ok(())
    } else {
        Err(YamlFault {
            kind: YamlKind::DoubledKey,
            line: number,
        })
    }
}
