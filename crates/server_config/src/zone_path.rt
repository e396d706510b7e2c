//! The path of a zone's file in `nsd.conf`, in which parts of the name replace percent signs.
ghost use Rattle.std.specs.Prelude.{◌≡◌, ◌++◌, ◌≤◌, OnErr, OnOk, length};
ghost use Rattle.dns_octets.specs.Appending.{Extends};
ghost use Rattle.dns_octets.specs.Lowered.{lowered};
ghost use Rattle.server_config.specs.ZonePaths.{end_label, expanded_path, last_label, last_start, name_character, or_dot, place_after, path_place_of, path_place_text, without_dot, without_last};

use std::alloc::{AllocError, Allocator};

/// What replaces a percent sign and the octet after it.
#[derive(Clone, Copy)]
enum PathPlace {
    /// `%s`: the name.
    Name,
    /// `%1`, `%2` and `%3`: the character of an index.
    Character(usize),
    /// `%z`, `%y` and `%x`: the label of an index, from the last.
    Label(usize),
}

/// Returns what replaces a percent sign and the octet after it.
fn place_of(octet: u8) -> Option<PathPlace>
    ensures { result ≡ path_place_of octet }
{
    match octet {
        b's' => Some(PathPlace::Name),
        b'1' => Some(PathPlace::Character(0)),
        b'2' => Some(PathPlace::Character(1)),
        b'3' => Some(PathPlace::Character(2)),
        b'z' => Some(PathPlace::Label(0)),
        b'y' => Some(PathPlace::Label(1)),
        b'x' => Some(PathPlace::Label(2)),
        _ => None,
    }
}

/// Returns a name without the dot at its end.
fn without_dot(name: &[u8]) -> &[u8]
    ensures { result.now ≡ without_dot name.now }
{
    if name.is_empty() {
        return name;
    }
    let last = name.len() - 1;
    if name[last] == b'.' {
        &name[..last]
    } else {
        name
    }
}

/// Returns the index after the last dot, or 0 if there is none.
fn last_start(name: &[u8]) -> usize
    ensures value { result ≡ last_start 0 0 name.now }
    ensures within { result ≤ length name.now }
{
    let mut start = 0;
    let mut index = 0;
    for octet in name {
        index += 1;
        if *octet == b'.' {
            start = index;
        }
    }
    start
}

/// Returns the last label of a name without a dot at its end.
fn last_label(name: &[u8]) -> &[u8]
    ensures { result.now ≡ last_label name.now }
{
    &name[last_start(name)..]
}

/// Returns a name without its last label and the dot before it.
fn without_last(name: &[u8]) -> &[u8]
    ensures { result.now ≡ without_last name.now }
{
    let start = last_start(name);
    &name[..start.saturating_sub(1)]
}

/// Returns the label of an index, from the last.
fn end_label(name: &[u8], index: usize) -> &[u8]
    ensures { result.now ≡ end_label index name.now }
{
    let mut left = index;
    let mut rest = name;
    while 0 < left {
        rest = without_last(rest);
        left -= 1;
    }
    last_label(rest)
}

/// Returns a text, or a dot if it is empty.
fn or_dot(text: &[u8]) -> &[u8]
    ensures { result.now ≡ or_dot text.now }
{
    if text.is_empty() { b"." } else { text }
}

/// Returns the character of an index, or nothing if the name has fewer.
fn name_character(name: &[u8], index: usize) -> &[u8]
    ensures { result.now ≡ name_character index name.now }
{
    if index < name.len() {
        &name[index..index + 1]
    } else {
        &[]
    }
}

/// Appends octets in lower case. Without memory, the first octets may be appended.
fn append_lowered<A: Allocator>(text: &[u8], out: &mut Vec<u8, A>) -> Result<(), AllocError>
    ensures made { OnOk result (out.new.items ≡ out.old.items ++ lowered text.now) }
    ensures err { OnErr result (Extends out.old.items out.new.items) }
{
    for octet in text {
        out.push(octet.to_ascii_lowercase())?;
    }
    Ok(())
}

/// Appends a part of a name. Without memory, the first octets may be appended.
fn append_place<A: Allocator>(
    place: PathPlace,
    name: &[u8],
    out: &mut Vec<u8, A>,
) -> Result<(), AllocError>
    ensures made { OnOk result (out.new.items ≡ out.old.items ++ path_place_text name.now place) }
    ensures err { OnErr result (Extends out.old.items out.new.items) }
{
    match place {
        PathPlace::Name => {
            out.extend_from_slice(name)?;
            Ok(())
        }
        PathPlace::Character(index) => {
            out.extend_from_slice(or_dot(name_character(name, index)))?;
            Ok(())
        }
        PathPlace::Label(index) => {
            append_lowered(or_dot(end_label(without_dot(name), index)), out)
        }
    }
}

/// Returns what replaces an octet and the one after it.
fn place_after(octet: u8, rest: &[u8]) -> Option<PathPlace>
    ensures { result ≡ place_after octet rest.now }
{
    match rest.first() {
        Some(next) => { if octet == b'%' { place_of(*next) } else { None } }
        None => None,
    }
}

/// Appends an expanded path. Without memory, the first octets may be appended.
fn append_expanded<A: Allocator>(
    path: &[u8],
    name: &[u8],
    out: &mut Vec<u8, A>,
) -> Result<(), AllocError>
    ensures made { OnOk result (out.new.items ≡ out.old.items ++ expanded_path name.now path.now) }
    ensures err { OnErr result (Extends out.old.items out.new.items) }
{
    let mut at = 0;
    while at < path.len() {
        match place_after(path[at], &path[at + 1..]) {
            Some(place) => {
                append_place(place, name, out)?;
                at += 2;
            }
            None => {
                out.push(path[at])?;
                at += 1;
            }
        }
    }
    Ok(())
}

/// Appends the path of the file of a zone with a name: `%s` is the name, `%1`, `%2` and `%3` are its
/// first characters, and `%z`, `%y` and `%x` its last labels, in lower case. A character or a label
/// that the name doesn't have is a dot. Other percent signs stay. If an allocation fails, `out` is
/// unchanged.
pub fn append_zone_path<A: Allocator>(
    path: &[u8],
    name: &[u8],
    out: &mut Vec<u8, A>,
) -> Result<(), AllocError>
    ensures made { OnOk result (out.new.items ≡ out.old.items ++ expanded_path name.now path.now) }
    ensures unchanged { OnErr result (out.new.items ≡ out.old.items) }
{
    let before = out.len();
    match append_expanded(path, name, out) {
        Ok(()) => Ok(()),
        Err(error) => {
            out.truncate(before);
            Err(error)
        }
    }
}
