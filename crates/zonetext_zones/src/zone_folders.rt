//! Folders of zone files, whose names have their zones.
use crate::options::name_of;
use crate::path_patterns::names_in;
use crate::zone_sources::{
    HostNameCheck, SourceError, Sources, ZoneSource, joined, octets_in, read_error,
};
use server_config::{is_doubtful_zone, is_side_file, zone_in_name};
use std::alloc::{AllocError, Global};
use std::fs::{canonicalize, metadata};
use std::io;

/// The forms of names, unless others are asked for.
pub const FORMS: [&str; 3] = ["*.zone", "*.db", "db.*"];

/// Which files of a folder are zone files.
#[derive(Clone, Copy)]
pub struct FolderOptions<'o> {
    /// The forms of their names.
    pub forms: &'o [&'o str],
    /// Whether folders in the folder are read too.
    pub is_recursive: bool,
}

/// Folders that are still to be read, and those that were.
#[derive(Drop)]
struct Walk {
    waiting: Vec<String>,
    /// The absolute paths of those that were read, without links.
    read: Vec<String>,
    /// Number of files whose names fit.
    fitting: usize,
}

/// Returns the zone of a file's name by the first form that it fits. It is empty if the name
/// doesn't say the zone.
fn zone_of_name<'n>(name: &'n str, forms: &[&str]) -> Option<&'n str> {
    for form in forms {
        if let Some(span) = zone_in_name(form.as_bytes(), name.as_bytes()) {
            let zone = str::from_utf8(octets_in(name.as_bytes(), span)).unwrap_or("");
            let is_clear = !is_doubtful_zone(zone.as_bytes()) && name_of(zone).is_some();
            return Some(if is_clear { zone } else { "" });
        }
    }
    None
}

/// Returns a zone with the name that its file's name has.
fn source_of(alloc: Global, zone: &str, file: String) -> Result<ZoneSource, AllocError> {
    Ok(ZoneSource {
        zone: Some(String::from_str(alloc, zone)?),
        file,
        class: None,
        base: None,
        max_ttl: None,
        host_names: HostNameCheck::Loads,
        is_signed_by_server: false,
        file_place: None,
        view: None,
    })
}

/// Adds the zone of a regular file, if its name fits.
fn add_file(
    alloc: Global,
    name: &str,
    path: String,
    forms: &[&str],
    walk: &mut Walk,
    sources: &mut Sources,
) -> Result<(), SourceError> {
    let Some(zone) = zone_of_name(name, forms) else {
        return Ok(());
    };
    walk.fitting = walk.fitting.saturating_add(1);
    if zone.is_empty() {
        sources.unclear.push(path)?;
    } else {
        sources.zones.push(source_of(alloc, zone, path)?)?;
    }
    Ok(())
}

/// Adds what a folder has: a zone file, or a folder that is read too.
fn add_entry(
    rt: &HostRuntime,
    folder: &str,
    name: &str,
    options: FolderOptions<'_>,
    walk: &mut Walk,
    sources: &mut Sources,
) -> Result<(), SourceError> {
    if is_side_file(name.as_bytes()) {
        return Ok(());
    }
    let path = joined(rt.alloc(), folder, name)?;
    match metadata(rt, path.as_str()) {
        Ok(found) if found.is_dir() => {
            if options.is_recursive {
                walk.waiting.push(path)?;
            }
            Ok(())
        }
        Ok(found) if !found.is_file() => Ok(()),
        // (what can't be read is reported when it is checked)
        _ => add_file(rt.alloc(), name, path, options.forms, walk, sources),
    }
}

/// Returns whether a folder was not read before, by this or another path.
fn is_new(rt: &HostRuntime, folder: &str, walk: &mut Walk) -> io::Result<bool> {
    let full = canonicalize(rt, folder)?.into_string();
    for read in &walk.read {
        if *read == full {
            return Ok(false);
        }
    }
    walk.read.push(full)?;
    Ok(true)
}

/// Returns the names in a folder, or none if it was read before.
fn new_names(rt: &HostRuntime, folder: &str, walk: &mut Walk) -> io::Result<Vec<String>> {
    if is_new(rt, folder, walk)? {
        names_in(rt, folder)
    } else {
        Ok(Vec::new(rt.alloc()))
    }
}

/// Adds the zones of a folder, but not of folders in it, which are left waiting.
fn add_names(
    rt: &HostRuntime,
    folder: &str,
    options: FolderOptions<'_>,
    walk: &mut Walk,
    sources: &mut Sources,
) -> Result<(), SourceError> {
    let names = match new_names(rt, folder, walk) {
        Ok(names) => names,
        Err(error) => return Err(read_error(rt.alloc(), folder, &error)),
    };
    let before = walk.waiting.len();
    for name in &names {
        add_entry(rt, folder, name.as_str(), options, walk, sources)?;
    }
    let count = walk.waiting.len();
    // (the last of them is read first)
    let (_, folders) = walk.waiting.as_mut_slice().split_at_mut(before.min(count));
    folders.reverse();
    Ok(())
}

/// Returns the error of a folder without zone files.
fn no_files(alloc: Global, folder: &str, forms: &[&str]) -> SourceError {
    match no_files_text(alloc, folder, forms) {
        Ok(text) => SourceError::Text(text),
        Err(_) => SourceError::OutOfMemory,
    }
}

/// Returns the message of a folder without zone files.
fn no_files_text(alloc: Global, folder: &str, forms: &[&str]) -> Result<String, AllocError> {
    let mut text = format!(in alloc; "{folder}: no file has a name of the form")?;
    let mut gap = " ";
    for form in forms {
        text.push_str(gap)?;
        text.push_str(form)?;
        gap = ", ";
    }
    Ok(text)
}

/// Adds the zones of the files in a folder. Fails with `Text` if it has none.
pub fn add_folder(
    rt: &HostRuntime,
    folder: &str,
    options: FolderOptions<'_>,
    sources: &mut Sources,
) -> Result<(), SourceError> {
    let alloc = rt.alloc();
    let mut walk = Walk {
        waiting: Vec::new(alloc),
        read: Vec::new(alloc),
        fitting: 0,
    };
    walk.waiting.push(String::from_str(alloc, folder)?)?;
    for _ in 0..u64::MAX {
        let Some(next) = walk.waiting.pop() else {
            break;
        };
        add_names(rt, next.as_str(), options, &mut walk, sources)?;
    }
    if walk.fitting == 0 {
        return Err(no_files(alloc, folder, options.forms));
    }
    Ok(())
}
