//! The operations that change one zone into another.
ghost use Rattle.std.specs.Prelude.{◌≡◌, ◌++◌, OnOk};
ghost use Rattle.zone_contents.specs.Differences.{changed_record};
ghost use Rattle.zone_update.specs.Operations.{is_change_sent, is_one_of, is_sent, key_types, operation_of, operations_of, signing_types};

use crate::operation::Operation;
use dns_octets::AsOctets;
use rdata_values::RecordType;
use std::alloc::{AllocError, Allocator};
use zone_contents::Change;
use zone_record::Record;

/// Returns whether a server makes records of a type as it signs a zone: RRSIG, NSEC and NSEC3.
fn is_of_signing(rtype: RecordType) -> bool
    ensures { result ≡ is_one_of signing_types rtype }
{
    matches!(
        rtype,
        RecordType::RRSIG | RecordType::NSEC | RecordType::NSEC3
    )
}

/// Returns whether records of a type are keys of a zone, or derived from them: DNSKEY, CDS, CDNSKEY
/// and NSEC3PARAM.
fn is_of_keys(rtype: RecordType) -> bool
    ensures { result ≡ is_one_of key_types rtype }
{
    matches!(
        rtype,
        RecordType::DNSKEY | RecordType::CDS | RecordType::CDNSKEY | RecordType::NSEC3PARAM
    )
}

/// Returns whether an update has operations on records of a type. It has none on RRSIG, NSEC and
/// NSEC3, which the server makes, and none on DNSKEY, CDS, CDNSKEY and NSEC3PARAM unless
/// `with_keys` is set. The SOA is not among the operations, since it is the last record of an
/// update.
pub fn is_sent(with_keys: bool, rtype: RecordType) -> bool
    ensures { result ≡ is_sent with_keys rtype }
{
    rtype != RecordType::SOA && !is_of_signing(rtype) && (with_keys || !is_of_keys(rtype))
}

/// Returns the changed record.
fn record_of<'a, Owner: AsOctets, Octets: AsOctets>(
    change: &Change<'a, Owner, Octets>,
) -> &'a Record<Owner, Octets>
    ensures { result.now ≡ changed_record change.now }
{
    match *change {
        Change::Removed(one) | Change::Added(one) | Change::NewTtl(one, _) => one,
    }
}

/// Returns the operation of a change.
fn operation_of<'a, Owner: AsOctets, Octets: AsOctets>(
    change: Change<'a, Owner, Octets>,
) -> Operation<'a, Owner, Octets>
    ensures { result ≡ operation_of change.entry }
{
    match change {
        Change::Removed(one) => Operation::Delete(one),
        Change::Added(one) | Change::NewTtl(_, one) => Operation::Add(one),
    }
}

/// Appends the operations of changes: a removed record is deleted, an added record is added, and a
/// record with a new TTL is added with it. Changes of types for which [`is_sent`] returns `false`
/// have none. Fails if memory is out; then some may have been appended.
pub fn push_operations<'a, Owner: AsOctets, Octets: AsOctets, A: Allocator>(
    changes: &[Change<'a, Owner, Octets>],
    with_keys: bool,
    out: &mut Vec<Operation<'a, Owner, Octets>, A>,
) -> Result<(), AllocError>
    ensures { OnOk result (out.new.items ≡ out.old.items ++ operations_of with_keys changes.now) }
{
    for change in changes {
        if is_sent(with_keys, record_of(change).data.rtype()) {
            out.push(operation_of(*change))?;
        }
    }
    Ok(())
}
