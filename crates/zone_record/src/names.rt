//! The canonical form and order of names (RFC 4034 sections 6.1 and 6.2).
ghost use Rattle.std.specs.Prelude.{◌≡◌, ◌<◌, ◌≤◌, ◌+◌, ◌++◌, length, OnOk, OnErr};
ghost use Rattle.dns_octets.specs.Appending.{Extends};
ghost use Rattle.dns_octets.specs.Lowered.{lowered, lowered_order};
ghost use Rattle.dns_wire.specs.Wire.{wire_label};
ghost use Rattle.rdata_tokens.specs.NameSpelling.{IsWireName};
ghost use Rattle.zone_record.specs.Names.{IsNameOrder};
ghost use Rattle.zone_record.specs.Walks.{AreAfterLabels, BeginsWithLabel, HasLabels, AreLevel, IsLabelCount, IsLevelOrder};

use dns_octets::lowered::compare_lowered;
use dns_octets::{OctetsBuilder, ShortBuf};
use std::cmp::Ordering;

/// Number of octets that are lowered at once.
const BLOCK: usize = 64;

/// Appends a block of octets in lower case. On an error, nothing is appended.
fn append_block<B: OctetsBuilder>(octets: &[u8], target: &mut B) -> Result<(), ShortBuf>
    requires { length octets.now ≤ BLOCK }
    ensures ok { OnOk result (B.octets target.new ≡ B.octets target.old ++ lowered octets.now) }
    ensures err { OnErr result (B.octets target.new ≡ B.octets target.old) }
    ensures fits { OnErr result (B.room.fits < length (B.octets target.old) + length octets.now) }
{
    let mut block = [0; BLOCK];
    let small = &mut block[..octets.len()];
    small.copy_from_slice(octets);
    small.make_ascii_lowercase();
    target.append_slice(small)
}

/// Appends octets with the letters A to Z in lower case. For a name in wire format this is the
/// canonical form (RFC 4034 section 6.2), since its length octets are not letters.
///
/// Fails if the target does. The first octets may then have been appended.
pub fn append_lowered<B: OctetsBuilder>(octets: &[u8], target: &mut B) -> Result<(), ShortBuf>
    ensures ok { OnOk result (B.octets target.new ≡ B.octets target.old ++ lowered octets.now) }
    ensures err { OnErr result (B.room.fits < length (B.octets target.old) + length octets.now) }
    ensures extends { OnErr result (Extends (B.octets target.old) (B.octets target.new)) }
{
    let mut rest = octets;
    while !rest.is_empty() {
        let count = rest.len().min(BLOCK);
        append_block(&rest[..count], target)?;
        rest = &rest[count..];
    }
    Ok(())
}

/// The label that octets begin with, and the octets after it.
#[derive(Clone, Copy)]
pub(crate) struct SplitLabel<'a> {
    pub(crate) label: &'a [u8],
    pub(crate) rest: &'a [u8],
}

/// Returns the label that octets begin with.
pub(crate) fn split_label(octets: &[u8]) -> SplitLabel<'_>
    requires { BeginsWithLabel octets.now }
    ensures { octets.now ≡ wire_label result.label.now ++ result.rest.now }
{
    let behind = 1 + usize::from(octets[0]);
    SplitLabel {
        label: &octets[1..behind],
        rest: &octets[behind..],
    }
}

/// Returns the number of labels of octets.
fn count_labels(octets: &[u8]) -> usize
    requires { HasLabels 0 octets.now }
    ensures { IsLabelCount octets.now result }
{
    let mut count = 0;
    let mut rest = octets;
    while !rest.is_empty() {
        rest = split_label(rest).rest;
        count += 1;
    }
    count
}

/// Returns the octets after the first `count` labels.
fn after_label_count(octets: &[u8], count: usize) -> &[u8]
    requires { HasLabels count octets.now }
    ensures { AreAfterLabels count octets.now result.now }
{
    let mut rest = octets;
    for _ in 0..count {
        rest = split_label(rest).rest;
    }
    rest
}

/// Returns the order of two labels in lower case: the first octets that differ decide, then the
/// length.
///
/// Octets that are the same in both are skipped before any is lowered.
fn compare_label(left: &[u8], right: &[u8]) -> Ordering
    ensures { result ≡ lowered_order left.now right.now }
{
    let shared = left.len().min(right.len());
    let mut same = 0;
    while same < shared && left[same] == right[same] {
        same += 1;
    }
    compare_lowered(&left[same..], &right[same..])
}

/// Returns the order of two names with the same number of labels, or `otherwise` if they are the
/// same.
///
/// Stops before the labels that both end in, if their octets are the same.
fn compare_level(left: &[u8], right: &[u8], otherwise: Ordering) -> Ordering
    requires { AreLevel left.now right.now }
    ensures { IsLevelOrder left.now right.now otherwise result }
{
    let mut order = otherwise;
    let mut left_rest = left;
    let mut right_rest = right;
    while !left_rest.is_empty() {
        if left_rest == right_rest {
            return order;
        }
        let first = split_label(left_rest);
        let second = split_label(right_rest);
        order = compare_label(first.label, second.label).then(order);
        left_rest = first.rest;
        right_rest = second.rest;
    }
    order
}

/// Compares two names in wire format in canonical order (RFC 4034 section 6.1).
///
/// The labels are compared from the root on, each in lower case and octet by octet. An absent label
/// or octet is before any other. The order is equal if the names differ at most in case.
pub fn compare_names(left: &[u8], right: &[u8]) -> Ordering
    requires left { IsWireName left.now }
    requires right { IsWireName right.now }
    ensures { IsNameOrder left.now right.now result }
{
    let left_count = count_labels(left);
    let right_count = count_labels(right);
    let shared = left_count.min(right_count);
    compare_level(
        after_label_count(left, left_count - shared),
        after_label_count(right, right_count - shared),
        left_count.cmp(&right_count),
    )
}
