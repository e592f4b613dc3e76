//! The links in the folder of children to what is installed in the working folder, and isn't staged
//! (docs/GIT.md, "Links to what is installed").
//!
//! The contracts cite `specs/LinkedPlaces.antt`.

ghost use Rattle.std.specs.List.{list_any};
ghost use Rattle.std.specs.Prelude.{◌≡◌, ◌&&◌, IfErr, IfOk, codes, map, option_map, string_bytes};
ghost use Rattle.hook_base.specs.Paths.{is_slash};
ghost use Rattle.hookhost.specs.LinkedPlaces.{is_link_name, linked_places, place_in_top, places_if};
ghost use Rattle.hookhost.specs.Stops.{IsStopOfVariable};

use crate::hint::TOP;
use crate::names::path_named;
use crate::runs::named_by;
use crate::stop::{CommandStop, is_memory};
use hook_base::{OutOfMemory, Text};
use hook_cli::TryFault;
use named_files::NamedPaths;
use std::alloc::{AllocError, Global};
use std::env;

/// The variable that names them, such as `.venv:node_modules`: names in the working folder, or within Git's
/// hook at the top of the working tree.
pub(crate) const LINKS: &str = "HOOKHOST_LINKS";

/// The places that links lead to, in the order of the variable, each once. A name that no file at the top of
/// a tree may have is `CommandStop::CannotUse`, and so is a working folder whose path can't be found. Want of memory
/// is `CommandStop::Refused`.
pub(crate) fn linked(rt: &HostRuntime) -> Result<Vec<String>, CommandStop>
    ensures { IfErr result (IsStopOfVariable (codes "HOOKHOST_LINKS")) }
{
    match named_by(rt.alloc(), LINKS, env::var(rt, LINKS))? {
        Some(names) => match linked_places(rt.alloc(), top_of(rt)?.as_str(), names.as_str())? {
            Some(places) => Ok(places),
            None => Err(unusable(rt.alloc())),
        },
        None => Ok(Vec::new(rt.alloc())),
    }
}

// The full path of the folder that has the names.
fn top_of(rt: &HostRuntime) -> Result<String, CommandStop>
    ensures { IfErr result (IsStopOfVariable (codes "HOOKHOST_LINKS")) }
{
    if let Some(top) = named_by(rt.alloc(), LINKS, env::var(rt, TOP))? {
        return Ok(top);
    }
    match env::current_dir(rt) {
        Ok(folder) => Ok(folder.into_string()),
        Err(error) if is_memory(&error) => Err(CommandStop::Refused(TryFault::OutOfMemory)),
        Err(_error) => Err(unusable(rt.alloc())),
    }
}

// The places of the names, each once, or `None` if one of the names is none that a link may have.
fn linked_places(alloc: Global, top: &str, names: &str) -> Result<Option<Vec<String>>, OutOfMemory>
    ensures { IfOk result (λ found. option_map (λ places. map string_bytes places.items) found
        ≡ linked_places top.now names.now) }
{
    let mut places = NamedPaths::new(alloc);
    let mut are_names = true;
    'names: for name in names.split(':') {
        let is_name = is_link_name(alloc, name)?;
        let place = place_in_top(alloc, top, name)?;
        let are_both = both(are_names, is_name);
        are_names = are_both;
        places = places.with(place.as_str())?;
    }
    Ok(places_if(are_names, places))
}

fn both(one: bool, other: bool) -> bool
    ensures { result ≡ (one && other) }
{
    one && other
}

fn places_if(are_names: bool, places: NamedPaths) -> Option<Vec<String>>
    ensures { option_map (λ kept. map string_bytes kept.items) result ≡ places_if are_names places }
{
    if are_names {
        Some(places.into_vec())
    } else {
        None
    }
}

fn place_in_top(alloc: Global, top: &str, name: &str) -> Result<String, AllocError>
    ensures { IfOk result (λ place. string_bytes place ≡ place_in_top top.now name.now) }
{
    let mut place = String::from_str(alloc, top)?;
    place.push_str("/")?;
    place.push_str(name)?;
    Ok(place)
}

// Whether it is a name that a file at the top of a tree may have, and not that of the repository's folder.
fn is_link_name(alloc: Global, name: &str) -> Result<bool, OutOfMemory>
    ensures { IfOk result (λ is. is ≡ is_link_name name.now) }
{
    match path_named(alloc, name)? {
        Some(_path) => Ok(!has_slash(name.as_bytes()) && name != ".hookhost"),
        None => Ok(false),
    }
}

fn has_slash(name: &[u8]) -> bool
    ensures { result ≡ list_any is_slash name.now }
{
    name.iter().any(|byte| *byte == b'/')
}

fn unusable(alloc: Global) -> CommandStop
    ensures { IsStopOfVariable (codes "HOOKHOST_LINKS") result }
{
    match Text::copy_of(alloc, LINKS) {
        Ok(variable) => CommandStop::CannotUse(variable),
        Err(refused) => CommandStop::from(refused),
    }
}
