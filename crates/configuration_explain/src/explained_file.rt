//! The explanation of a configuration. (docs/REFERENCE.md, "What `explain` says".)
//!
//! The contracts cite `specs/Explains.antt`.

ghost use Rattle.std.specs.Prelude.{◌≡◌, ◌≢◌, IfOk, IfSome, None, Some, is_none};
ghost use Rattle.configuration_explain.specs.Explains.{Explains};
ghost use Rattle.hook_config.specs.declared.config_fault.ConfigKind.TheVariants.{OutOfMemory as NoMemory};

use crate::accepted_texts::push_taken;
use crate::refused::{NamedBytes, push_refused};
use hook_base::{Bytes, OutOfMemory, Text};
use hook_config::{ConfigFault, ConfigKind, ConfigWithNode, read_config_with_node};
use std::alloc::Global;

/// What is said about a configuration, and whether it is one.
#[derive(Debug, Drop)]
pub struct Explanation {
    /// The lines to print, each with its end.
    pub text: Bytes,
    /// Why the bytes are no configuration, or nothing if they are one.
    pub refusal: Option<ConfigFault>,
}

impl Explanation {
    /// Whether the bytes are a configuration.
    pub fn is_taken(&self) -> bool
        ensures { result ≡ is_none self.now.refusal }
    {
        self.refusal.is_none()
    }
}

/// What is said about the configuration in a file of this name, in a folder that has regular files at these
/// paths.
///
/// If the bytes are no configuration, each fault has a line that begins with `NAME:LINE: `. It says which
/// hook and key it is, what is found there and what is wanted. Then comes that line of the file, and under it
/// a mark, if the place in the line is known.
///
/// If they are one, the text has how many hooks there are, the hooks of each stage that a command here runs,
/// and which files each hook gets. Then come, if there are any, the keys that are ignored, the hooks that
/// never run, those that run at every stage of a commit, and warnings.
///
/// What is shown of the file holds no control character. The order of the paths says nothing. `OutOfMemory`
/// if memory was refused, and for no other reason.
pub fn explain(
    alloc: Global,
    name: &str,
    bytes: &[u8],
    paths: &[Text],
) -> Result<Explanation, OutOfMemory>
    ensures explains { IfOk result (λ explanation. Explains bytes.now explanation.refusal) }
    ensures memory { IfOk result (λ explanation. IfSome explanation.refusal (λ fault. fault.kind ≢ NoMemory)) }
{
    match read_config_with_node(alloc, bytes) {
        Ok(read) => explain_taken(alloc, NamedBytes { name, bytes }, &read, paths),
        Err(fault) => explain_refused(alloc, NamedBytes { name, bytes }, fault),
    }
}

fn explain_taken(
    alloc: Global,
    file: NamedBytes<'_>,
    read: &ConfigWithNode,
    paths: &[Text],
) -> Result<Explanation, OutOfMemory>
    ensures { IfOk result (λ explanation. explanation.refusal ≡ None) }
{
    let mut text = String::new(alloc);
    push_taken(alloc, &mut text, file, read, paths)?;
    Ok(Explanation {
        text: Bytes::from(text.into_bytes()),
        refusal: None,
    })
}

fn explain_refused(
    alloc: Global,
    file: NamedBytes<'_>,
    fault: ConfigFault,
) -> Result<Explanation, OutOfMemory>
    ensures same { IfOk result (λ explanation. explanation.refusal ≡ Some fault) }
    ensures memory { IfOk result (λ explanation. fault.kind ≢ NoMemory) }
{
    if fault.kind == ConfigKind::OutOfMemory {
        return Err(OutOfMemory);
    }
    let mut text = String::new(alloc);
    push_refused(alloc, &mut text, file, fault)?;
    Ok(Explanation {
        text: Bytes::from(text.into_bytes()),
        refusal: Some(fault),
    })
}
