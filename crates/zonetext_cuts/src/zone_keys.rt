//! Keys of zones, by which a zone comes directly before the zones below it.
use arrayvec::ArrayVec;
use dns_octets::AsOctets;
use dns_wire::{MAX_NAME, Name};
use std::alloc::AllocError;
use zone_reader::NameBuffer;

/// Maximum number of labels of a name, without the root.
const MAX_LABELS: usize = 127;

/// Length of the number of a view.
const VIEW: usize = 4;

/// The starts of labels, or the ends of keys.
type Offsets = ArrayVec<usize, 128>;

/// Returns the offsets of the labels of a name in wire format, without the root.
fn label_starts(octets: &[u8]) -> Offsets {
    let mut starts = Offsets::new();
    let mut at: usize = 0;
    for _ in 0..MAX_LABELS {
        let len = match octets.get(at) {
            Some(len) if *len > 0 => usize::from(*len),
            _ => return starts,
        };
        let _ = starts.try_push(at);
        at = at.saturating_add(len).saturating_add(1);
    }
    starts
}

/// Returns the octets of the label at an offset, with its length before them.
fn label_at(octets: &[u8], at: usize) -> &[u8] {
    let Some(len) = octets.get(at) else {
        return &[];
    };
    let end = at.saturating_add(usize::from(*len)).saturating_add(1);
    octets.get(at..end).unwrap_or(&[])
}

/// Appends the key of a zone: the number of its view, and the labels of its name from the last one to
/// the first, each with its length before it, in lower case. So the key of a zone begins with those of
/// the zones above it.
pub fn push_key<Octets: AsOctets>(
    view: u32,
    name: &Name<Octets>,
    out: &mut Vec<u8>,
) -> Result<(), AllocError> {
    out.extend_from_slice(&view.to_be_bytes())?;
    let octets = name.as_slice();
    for at in label_starts(octets).as_slice().iter().rev() {
        for octet in label_at(octets, *at) {
            out.push(octet.to_ascii_lowercase())?;
        }
    }
    Ok(())
}

/// Returns the lengths of the keys with which a key begins, from that of the root to its own.
pub fn key_ends(key: &[u8]) -> Offsets {
    let mut ends = Offsets::new();
    let mut at = VIEW;
    for _ in 0..=MAX_LABELS {
        let _ = ends.try_push(at);
        let Some(len) = key.get(at) else {
            return ends;
        };
        at = at.saturating_add(usize::from(*len)).saturating_add(1);
    }
    ends
}

/// Returns whether a key is that of the root.
pub fn is_root(key: &[u8]) -> bool {
    key.len() <= VIEW
}

/// Returns the name of a key, in lower case.
pub fn name_of_key(key: &[u8]) -> Option<NameBuffer> {
    let labels = key.get(VIEW..)?;
    let mut octets: ArrayVec<u8, MAX_NAME> = ArrayVec::new();
    for at in label_starts(labels).as_slice().iter().rev() {
        if octets.try_extend_from_slice(label_at(labels, *at)).is_err() {
            return None;
        }
    }
    if octets.try_push(0).is_err() {
        return None;
    }
    Name::from_octets(octets).ok()
}
