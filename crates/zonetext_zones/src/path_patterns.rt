//! Patterns of paths, as configurations name files that they include: `*`, `?` and `[..]`.
use crate::zone_sources::joined;
use server_config::{fits_path_pattern, is_path_pattern};
use std::alloc::Global;
use std::fs::{exists, read_dir};
use std::io;

/// Returns the names of the files in a folder, in the order of their octets.
pub fn names_in(rt: &HostRuntime, folder: &str) -> io::Result<Vec<String>> {
    let folder = if folder.is_empty() { "." } else { folder };
    let mut names = Vec::new(rt.alloc());
    for entry in read_dir(rt, folder)? {
        let entry = entry?;
        names.push(String::from_str(rt.alloc(), entry.file_name())?)?;
    }
    names.sort()?;
    Ok(names)
}

/// Appends the paths of the files in a folder that fit a pattern. A folder that can't be read has
/// none.
fn add_fitting(
    rt: &HostRuntime,
    folder: &str,
    pattern: &str,
    paths: &mut Vec<String>,
) -> io::Result<()> {
    let Ok(names) = names_in(rt, folder) else {
        return Ok(());
    };
    for name in &names {
        if fits_path_pattern(pattern.as_bytes(), name.as_str().as_bytes()) {
            paths.push(joined(rt.alloc(), folder, name.as_str())?)?;
        }
    }
    Ok(())
}

/// Returns the paths after another part of a pattern.
fn expanded(rt: &HostRuntime, folders: &[String], part: &str) -> io::Result<Vec<String>> {
    let mut paths = Vec::new(rt.alloc());
    for folder in folders {
        if is_path_pattern(part.as_bytes()) {
            add_fitting(rt, folder.as_str(), part, &mut paths)?;
        } else {
            paths.push(joined(rt.alloc(), folder.as_str(), part)?)?;
        }
    }
    Ok(paths)
}

/// Returns the paths of files that exist.
fn existing(rt: &HostRuntime, paths: &[String]) -> io::Result<Vec<String>> {
    let mut found = Vec::new(rt.alloc());
    for path in paths {
        if exists(rt, path.as_str()).unwrap_or(false) {
            found.push(String::from_str(rt.alloc(), path.as_str())?)?;
        }
    }
    Ok(found)
}

/// Returns one path.
fn one_path(alloc: Global, path: &str) -> io::Result<Vec<String>> {
    let mut paths = Vec::new(alloc);
    paths.push(String::from_str(alloc, path)?)?;
    Ok(paths)
}

/// Returns the paths that fit a pattern, in the order of their octets. A path without `*`, `?` and
/// `[` fits itself alone, whether it exists or not.
pub fn paths_of(rt: &HostRuntime, pattern: &str) -> io::Result<Vec<String>> {
    if !is_path_pattern(pattern.as_bytes()) {
        return one_path(rt.alloc(), pattern);
    }
    let root = if pattern.starts_with('/') { "/" } else { "" };
    let mut paths = one_path(rt.alloc(), root)?;
    for part in pattern.split('/') {
        if !part.is_empty() {
            paths = expanded(rt, paths.as_slice(), part)?;
        }
    }
    let mut found = existing(rt, paths.as_slice())?;
    found.sort()?;
    Ok(found)
}
