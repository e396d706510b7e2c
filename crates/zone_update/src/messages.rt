//! The messages of a dynamic update.
ghost use Rattle.std.specs.Prelude.{◌≡◌, ◌++◌, map, Some, IfErr, IfOk, OnOk};
ghost use Rattle.zone_update.specs.Messages.{AreMessages, IsUpdateError, added, in_phases, sent, with_last};
ghost use Rattle.zone_update.specs.Parts.{of_others, of_servers, seen, servers_first};

use crate::operation::Operation;
use crate::order::in_phases;
use crate::parts::{cut_parts, is_of_servers};
use dns_octets::AsOctets;
use dns_wire::Name;
use std::alloc::{AllocError, Allocator};
use zone_record::Record;

/// The error of planning an update.
#[derive(Clone, Copy, PartialEq, Eq)]
pub enum UpdateError {
    /// The operations at one owner, or those at the names of the servers, exceed the limit of a
    /// message.
    TooLarge,
    /// An allocation failed.
    OutOfMemory,
}

impl From<AllocError> for UpdateError {
    ghost use Rattle.zone_update.specs.declared.messages.UpdateError.TheVariants.{OutOfMemory};

    ghost from_gives = { λ _ e. e ≡ OutOfMemory };

    fn from(_error: AllocError) -> UpdateError {
        UpdateError::OutOfMemory
    }
}

/// Appends the operations at the names of the servers.
fn push_of_servers<'a, Owner: AsOctets, Octets: AsOctets, A: Allocator>(
    servers: &[&[u8]],
    operations: &[Operation<'a, Owner, Octets>],
    out: &mut Vec<Operation<'a, Owner, Octets>, A>,
) -> Result<(), AllocError>
    ensures { OnOk result (out.new.items ≡ out.old.items ++ of_servers servers.now operations.now) }
{
    for operation in operations {
        if is_of_servers(servers, operation) {
            out.push(*operation)?;
        }
    }
    Ok(())
}

/// Appends the operations at other names.
fn push_of_others<'a, Owner: AsOctets, Octets: AsOctets, A: Allocator>(
    servers: &[&[u8]],
    operations: &[Operation<'a, Owner, Octets>],
    out: &mut Vec<Operation<'a, Owner, Octets>, A>,
) -> Result<(), AllocError>
    ensures { OnOk result (out.new.items
        ≡ out.old.items ++ of_others servers.now operations.now) }
{
    for operation in operations {
        if !is_of_servers(servers, operation) {
            out.push(*operation)?;
        }
    }
    Ok(())
}

/// Returns operations, those at the names of the servers before all others.
fn servers_first<'a, Owner: AsOctets, Octets: AsOctets, A: Allocator>(
    alloc: A,
    servers: &[&[u8]],
    operations: &[Operation<'a, Owner, Octets>],
) -> Result<Vec<Operation<'a, Owner, Octets>, A>, AllocError>
    ensures { IfOk result (λ v. v.items ≡ servers_first servers.now operations.now) }
{
    let mut out = Vec::new(alloc);
    push_of_servers(servers, operations, &mut out)?;
    push_of_others(servers, operations, &mut out)?;
    Ok(out)
}

/// Returns parts, each in the order of its phases.
fn all_in_phases<'a, Apex: AsOctets, Owner: AsOctets, Octets: AsOctets, A: Allocator + Copy>(
    alloc: A,
    apex: &Name<Apex>,
    parts: &[&[Operation<'a, Owner, Octets>]],
) -> Result<Vec<Vec<Operation<'a, Owner, Octets>, A>, A>, AllocError>
    ensures { IfOk result (λ v. sent v.items ≡ map (in_phases apex.now) (seen parts.now)) }
{
    let mut messages = Vec::new(alloc);
    for part in parts {
        messages.push(in_phases(alloc, apex, *part)?)?;
    }
    Ok(messages)
}

/// Appends an operation to the last message, or as a message of its own if there is none.
fn push_last<'a, Owner: AsOctets, Octets: AsOctets, A: Allocator + Copy>(
    alloc: A,
    operation: Operation<'a, Owner, Octets>,
    messages: &mut Vec<Vec<Operation<'a, Owner, Octets>, A>, A>,
) -> Result<(), AllocError>
    ensures { OnOk result (sent messages.new.items
        ≡ with_last (Some operation.entry) (sent messages.old.items)) }
{
    let mut last = match messages.pop() {
        Some(last) => last,
        None => Vec::new(alloc),
    };
    last.push(operation)?;
    messages.push(last)?;
    Ok(())
}

/// Returns the messages of an update: the operations in the order in which they are sent.
///
/// `operations` are those of [`push_operations`](crate::push_operations). `servers` are the apex
/// and the names of the zone's name servers: all operations at these names are in the first message.
/// Operations at another owner are in one message too. A message has as many operations as fit into
/// `limit` octets ([`wire_size`](crate::wire_size)), besides the SOA. It first adds name servers of
/// the zone, then deletes records, and then adds records. The last operation of the last message
/// adds the SOA, if one is given.
///
/// Fails with `TooLarge` if operations that must be in one message exceed the limit, and with
/// `OutOfMemory` if an allocation fails.
pub fn messages_of<'a, Apex: AsOctets, Owner: AsOctets, Octets: AsOctets, A: Allocator + Copy>(
    alloc: A,
    apex: &Name<Apex>,
    servers: &[&[u8]],
    operations: &[Operation<'a, Owner, Octets>],
    soa: Option<&'a Record<Owner, Octets>>,
    limit: usize,
) -> Result<Vec<Vec<Operation<'a, Owner, Octets>, A>, A>, UpdateError>
    ensures ok { IfOk result (λ v. AreMessages apex.now servers.now limit operations.now
        (added soa.entry) (sent v.items)) }
    ensures err { IfErr result (IsUpdateError servers.now limit operations.now) }
{
    let ordered = servers_first(alloc, servers, operations)?;
    let parts = cut_parts(alloc, servers, ordered.as_slice(), limit)?;
    let mut messages = all_in_phases(alloc, apex, parts.as_slice())?;
    if let Some(one) = soa {
        push_last(alloc, Operation::Add(one), &mut messages)?;
    }
    Ok(messages)
}
