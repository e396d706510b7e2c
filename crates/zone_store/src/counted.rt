//! Octets after their length, so that they can be found again among others.
ghost use Rattle.std.specs.Prelude.{◌≡◌, ◌+◌, ◌*◌, ◌<◌, ◌^◌, ◌++◌, OnOk, OnErr, drop, get_or, length};
ghost use Rattle.dns_octets.specs.Appending.{Extends};
ghost use Rattle.zone_store.specs.Counted.{after_counted, after_length, after_long, counted_octets, first_counted, first_length, first_long, length_octets, SplitsCounted, SplitsLong};

use std::alloc::{AllocError, Allocator};

/// Returns the octet at an index, or 0 after the last octet.
pub(crate) fn octet_or_zero(octets: &[u8], index: usize) -> u8
    ensures { result ≡ get_or octets.now index 0 }
{
    match octets.get(index) {
        Some(octet) => *octet,
        None => 0,
    }
}

/// Returns the octets from an offset on, or none after the end.
pub(crate) fn rest_at(octets: &[u8], offset: usize) -> &[u8]
    ensures { result.now ≡ drop offset octets.now }
{
    match octets.get(offset..) {
        Some(rest) => rest,
        None => &[],
    }
}

/// Appends a length. If it is below 255 it is one octet; else it is the octet 255 and then two octets,
/// the most significant first.
///
/// Fails without memory; the first octets may then have been appended.
pub(crate) fn push_length<A: Allocator>(
    count: usize,
    out: &mut Vec<u8, A>,
) -> Result<(), AllocError>
    requires { count < 2 ^ 16 }
    ensures ok { OnOk result (out.new.items ≡ out.old.items ++ length_octets count) }
    ensures err { OnErr result (Extends out.old.items out.new.items) }
{
    if count < 255 {
        out.push(count as u8)?;
        return Ok(());
    }
    out.push(255)?;
    out.extend_from_slice(&(count as u16).to_be_bytes())
}

/// Splits octets that begin with a length of two octets: returns the length, and the rest.
fn split_long_length(octets: &[u8]) -> (usize, &[u8])
    ensures count { result.0 ≡ get_or octets.now 0 0 * 256 + get_or octets.now 1 0 }
    ensures rest { result.1.now ≡ drop 2 octets.now }
{
    let high = usize::from(octet_or_zero(octets, 0));
    let low = usize::from(octet_or_zero(octets, 1));
    (high * 256 + low, rest_at(octets, 2))
}

/// Splits octets that begin with a length as [`push_length`] appends it: returns the length, and the
/// rest. Octets that the length lacks count as 0.
pub(crate) fn split_length(octets: &[u8]) -> (usize, &[u8])
    ensures count { result.0 ≡ first_length octets.now }
    ensures rest { result.1.now ≡ after_length octets.now }
{
    match octets.split_first() {
        Some((count, rest)) if *count < 255 => (usize::from(*count), rest),
        Some((_, rest)) => split_long_length(rest),
        None => (0, &[]),
    }
}

/// Appends the length of octets, then the octets. A length below 255 is one octet; any other is the
/// octet 255 and then two octets, the most significant first.
///
/// Fails without memory; the first octets may then have been appended.
pub fn push_counted<A: Allocator>(octets: &[u8], out: &mut Vec<u8, A>) -> Result<(), AllocError>
    requires { length octets.now < 2 ^ 16 }
    ensures ok { OnOk result (out.new.items ≡ out.old.items ++ counted_octets octets.now) }
    ensures read { OnOk result (first_counted (drop (length out.old.items) out.new.items) ≡ octets.now) }
    ensures err { OnErr result (Extends out.old.items out.new.items) }
{
    if octets.len() < 255 {
        out.push(octets.len() as u8)?;
    } else {
        out.push(255)?;
        let count = octets.len() as u16;
        out.extend_from_slice(&count.to_be_bytes())?;
    }
    out.extend_from_slice(octets)
}

/// Splits octets after a length of two octets: those that it counts, and the rest.
fn split_long(octets: &[u8]) -> (&[u8], &[u8])
    ensures first { result.0.now ≡ first_long octets.now }
    ensures rest { result.1.now ≡ after_long octets.now }
    ensures read { SplitsLong octets.now result.0.now result.1.now }
{
    match octets.split_first_chunk::<2>() {
        Some((count, rest)) => {
            rest.split_at(rest.len().min(usize::from(u16::from_be_bytes(*count))))
        }
        None => (&[], &[]),
    }
}

/// Splits octets that begin with a length as [`push_counted`] appends it: returns the octets that
/// the length counts, and the rest.
///
/// If fewer octets follow than the length says, the first part has those that do. Without a whole
/// length both parts are empty.
pub fn split_counted(octets: &[u8]) -> (&[u8], &[u8])
    ensures first { result.0.now ≡ first_counted octets.now }
    ensures rest { result.1.now ≡ after_counted octets.now }
    ensures read { SplitsCounted octets.now result.0.now result.1.now }
{
    match octets.split_first() {
        Some((count, rest)) if *count < 255 => {
            rest.split_at(rest.len().min(usize::from(*count)))
        }
        Some((_, rest)) => split_long(rest),
        None => (&[], &[]),
    }
}
