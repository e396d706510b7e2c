//! Paths below a directory that is in the place of the root.
use std::alloc::{AllocError, Global};
use std::path::Path;

/// Appends the parts of a path to those of a path before it. `..` removes the last of them, if there is
/// one.
fn push_parts<'p>(parts: &mut Vec<&'p str>, path: &'p str) -> Result<(), AllocError> {
    for part in path.split('/') {
        match part {
            "" | "." => {}
            ".." => {
                parts.pop();
            }
            _ => parts.push(part)?,
        }
    }
    Ok(())
}

/// Returns the part of a folder's path below a root, if it is below it.
fn below_root<'p>(root: &str, folder: &'p str) -> Option<&'p str> {
    let rest = folder.strip_prefix(root)?;
    if rest.is_empty() || rest.starts_with('/') {
        Some(rest)
    } else {
        None
    }
}

/// Returns a path that is relative to a folder, or absolute, below a root: absolute paths are below it,
/// and `..` ends there. If the folder is not below the root, a relative path is relative to it.
pub fn rooted(alloc: Global, root: &str, folder: &str, path: &str) -> Result<String, AllocError> {
    let root = root.trim_end_matches('/');
    let mut parts = Vec::new(alloc);
    if !path.starts_with('/') {
        match below_root(root, folder) {
            Some(rest) => push_parts(&mut parts, rest)?,
            None => return Ok(Path::new(folder).join(alloc, path)?.into_string()),
        }
    }
    push_parts(&mut parts, path)?;
    let mut out = String::from_str(alloc, root)?;
    for part in &parts {
        out.push('/')?;
        out.push_str(part)?;
    }
    Ok(out)
}
