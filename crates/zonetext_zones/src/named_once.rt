//! Zones that a configuration names twice.
use crate::zone_sources::{SourceError, file_and_position, position_of};
use std::alloc::{AllocError, Global};

/// A zone that a configuration names.
#[derive(Clone, Copy)]
pub struct NamedPlace<'z> {
    /// Number of the views before its own, if it is in one.
    pub view: Option<usize>,
    pub name: &'z str,
    /// The place of its statement, as `FILE:LINE:COLUMN`.
    pub place: &'z str,
}

/// Returns a name without the dot at its end.
fn without_dot(name: &str) -> &str {
    name.strip_suffix('.').unwrap_or(name)
}

/// Returns what is the same for zones of one view and of one name.
fn key_of(alloc: Global, zone: NamedPlace<'_>) -> Result<String, AllocError> {
    let name = without_dot(zone.name).to_ascii_lowercase(alloc)?;
    let name = name.as_str();
    match zone.view {
        Some(view) => format!(in alloc; "{view} {name}"),
        None => format!(in alloc; "- {name}"),
    }
}

/// Returns a place as it is named beside another: without its file, if that is the same.
fn place_beside<'p>(place: &'p str, other: &str) -> &'p str {
    if file_and_position(place).0 == file_and_position(other).0 {
        position_of(place)
    } else {
        place
    }
}

/// Returns the error of a zone that another before it names too.
fn twice(alloc: Global, first: NamedPlace<'_>, second: NamedPlace<'_>) -> SourceError {
    let (place, name) = (second.place, without_dot(second.name));
    let before = place_beside(first.place, place);
    match format!(in alloc; "{place}: zone {name}. is named twice; the first is at {before}") {
        Ok(text) => SourceError::Text(text),
        Err(_) => SourceError::OutOfMemory,
    }
}

/// Returns the indices of two zones of one view and of one name: of those that are named again, the
/// first one, and the one before it.
fn repeated(alloc: Global, zones: &[NamedPlace<'_>]) -> Result<Option<(usize, usize)>, AllocError> {
    let mut keys = Vec::new(alloc);
    for at in 0..zones.len() {
        if let Some(zone) = zones.get(at) {
            keys.push((key_of(alloc, *zone)?, at))?;
        }
    }
    keys.sort()?;
    let mut found: Option<(usize, usize)> = None;
    let mut before: Option<(&str, usize)> = None;
    for (key, at) in &keys {
        if let Some((other, first)) = before {
            let is_first = match found {
                Some((_, again)) => *at < again,
                None => true,
            };
            if other == key.as_str() && is_first {
                found = Some((first, *at));
            }
        }
        before = Some((key.as_str(), *at));
    }
    Ok(found)
}

/// Fails if two zones of a view have the same name, in any case of letters.
pub fn named_once(alloc: Global, zones: &[NamedPlace<'_>]) -> Result<(), SourceError> {
    let Some((first, second)) = repeated(alloc, zones)? else {
        return Ok(());
    };
    match (zones.get(first), zones.get(second)) {
        (Some(first), Some(second)) => Err(twice(alloc, *first, *second)),
        _ => Ok(()),
    }
}
