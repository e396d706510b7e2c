//! Distributes operations over messages.
ghost use Rattle.std.specs.Prelude.{◌≡◌, ◌++◌, ◌+◌, ◌∷◌, ◌<◌, ◌≤◌, ◌⊎◌, [], drop, length, take, IfErr, IfNone, IfOk, IfSome, MatchBool, OnOk};
ghost use Rattle.zone_update.specs.Messages.{IsPartError};
ghost use Rattle.zone_update.specs.Parts.{AreMessageParts, IsCutAt, IsLongest, belong_together, first_sizes, is_of_servers, seen, wire_size};

use crate::messages::UpdateError;
use crate::operation::{Operation, is_at};
use dns_octets::AsOctets;
use dns_octets::lowered::same_octets;
use std::alloc::{AllocError, Allocator};

/// Octets of a record besides its owner and its RDATA: type, class, TTL and length (RFC 1035
/// section 3.2.1).
const FIXED: usize = 10;

/// Returns the number of octets of an operation in wire format, without compression.
pub fn wire_size<Owner: AsOctets, Octets: AsOctets>(
    operation: &Operation<'_, Owner, Octets>,
) -> usize
    ensures { result ≡ wire_size operation.now }
{
    let one = operation.record();
    one.owner.as_slice().len() + FIXED + one.data.as_slice().len()
}

/// Returns whether an operation is at one of the names of the servers.
pub(crate) fn is_of_servers<Owner: AsOctets, Octets: AsOctets>(
    names: &[&[u8]],
    operation: &Operation<'_, Owner, Octets>,
) -> bool
    ensures { result ≡ is_of_servers names.now operation.now }
{
    let one = operation.record();
    names
        .iter()
        .any(|name| same_octets(name, one.owner.as_slice()))
}

/// Returns whether two operations belong into one message.
fn belong_together<Owner: AsOctets, Octets: AsOctets>(
    names: &[&[u8]],
    left: &Operation<'_, Owner, Octets>,
    right: &Operation<'_, Owner, Octets>,
) -> bool
    ensures { result ≡ belong_together names.now left.now right.now }
{
    (is_of_servers(names, left) && is_of_servers(names, right))
        || is_at(&left.record().owner, right.record())
}

/// Returns whether operations may be cut after the first ones: the last of these and the next one
/// don't belong together.
fn are_apart<Owner: AsOctets, Octets: AsOctets>(
    names: &[&[u8]],
    operations: &[Operation<'_, Owner, Octets>],
    count: usize,
) -> bool
    requires some { 0 < count }
    requires within { count ≤ length operations.now }
    ensures { MatchBool result (IsCutAt names.now operations.now count)
        (¬ IsCutAt names.now operations.now count) }
{
    count == operations.len() || !belong_together(names, &operations[count - 1], &operations[count])
}

/// Returns the number of octets of the operation at an index, if it fits into `room` octets.
fn next_size<Owner: AsOctets, Octets: AsOctets>(
    operations: &[Operation<'_, Owner, Octets>],
    at: usize,
    room: usize,
) -> Option<usize>
    ensures within { IfSome result (λ size. (at < length operations.now) × (size ≤ room)) }
    ensures adds { IfSome result (λ size. first_sizes operations.now (at + 1)
        ≡ first_sizes operations.now at + size) }
    ensures none { IfNone result ((length operations.now ≤ at)
        ⊎ (first_sizes operations.now at + room < first_sizes operations.now (at + 1))) }
{
    if at >= operations.len() {
        return None;
    }
    let size = wire_size(&operations[at]);
    if size > room { None } else { Some(size) }
}

/// Returns the number of operations of the longest part of at most `limit` octets, or 0 if no part
/// is within the limit.
fn part_len<Owner: AsOctets, Octets: AsOctets>(
    names: &[&[u8]],
    operations: &[Operation<'_, Owner, Octets>],
    limit: usize,
) -> usize
    ensures within { result ≤ length operations.now }
    ensures fits { first_sizes operations.now result ≤ limit }
    ensures whole { 0 < result → IsCutAt names.now operations.now result }
    ensures longest { IsLongest names.now limit operations.now result }
{
    let mut longest = 0;
    let mut used = 0;
    let mut at = 0;
    'scan: while let Some(size) = next_size(operations, at, limit - used) {
        used += size;
        at += 1;
        if are_apart(names, operations, at) {
            longest = at;
        }
    }
    longest
}

/// Returns the first operations.
fn first_operations<'s, 'a, Owner: AsOctets, Octets: AsOctets>(
    operations: &'s [Operation<'a, Owner, Octets>],
    count: usize,
) -> &'s [Operation<'a, Owner, Octets>]
    requires { count ≤ length operations.now }
    ensures { result.now ≡ take count operations.now }
{
    &operations[..count]
}

/// Returns the operations after the first ones.
fn rest_after<'s, 'a, Owner: AsOctets, Octets: AsOctets>(
    operations: &'s [Operation<'a, Owner, Octets>],
    count: usize,
) -> &'s [Operation<'a, Owner, Octets>]
    requires { count ≤ length operations.now }
    ensures { result.now ≡ drop count operations.now }
{
    &operations[count..]
}

/// Appends a part.
fn push_part<'s, 'a, Owner: AsOctets, Octets: AsOctets, A: Allocator>(
    part: &'s [Operation<'a, Owner, Octets>],
    out: &mut Vec<&'s [Operation<'a, Owner, Octets>], A>,
) -> Result<(), AllocError>
    ensures { OnOk result (seen out.new.items ≡ seen out.old.items ++ part.now ∷ []) }
{
    out.push(part)?;
    Ok(())
}

/// Cuts operations into parts of at most `limit` octets.
pub(crate) fn cut_parts<'s, 'a, Owner: AsOctets, Octets: AsOctets, A: Allocator>(
    alloc: A,
    names: &[&[u8]],
    operations: &'s [Operation<'a, Owner, Octets>],
    limit: usize,
) -> Result<Vec<&'s [Operation<'a, Owner, Octets>], A>, UpdateError>
    ensures ok { IfOk result (λ v. AreMessageParts names.now limit operations.now (seen v.items)) }
    ensures err { IfErr result (IsPartError names.now limit operations.now) }
{
    let mut parts = Vec::new(alloc);
    let mut rest = operations;
    'parts: while !rest.is_empty() {
        let count = part_len(names, rest, limit);
        if count == 0 {
            return Err(UpdateError::TooLarge);
        }
        push_part(first_operations(rest, count), &mut parts)?;
        rest = rest_after(rest, count);
    }
    Ok(parts)
}
