//! Records whose octets are borrowed or copied.
ghost use Rattle.std.specs.Prelude.{◌≡◌, IfNone, IfOk, IfSome};
ghost use Rattle.zone_record.specs.Borrowed.{IsNoRecord, IsRecordOf};

use crate::data::Data;
use crate::record::{Record, name_octets};
use dns_octets::AsOctets;
use dns_wire::Name;
use rdata_fields::RecordRef;
use std::alloc::{AllocError, Allocator};

/// Returns the record that has these octets, or `None` if the owner is not a name or the RDATA is
/// not of the type.
pub fn record_of<'a>(octets: &RecordRef<'a>) -> Option<Record<&'a [u8], &'a [u8]>>
    ensures found { IfSome result (IsRecordOf octets.now) }
    ensures none { IfNone result (IsNoRecord octets.now) }
{
    let Ok(owner) = Name::from_octets(octets.owner) else {
        return None;
    };
    let Ok(data) = Data::from_octets(octets.rtype, octets.data) else {
        return None;
    };
    Some(Record {
        owner,
        ttl: octets.ttl,
        class: octets.class,
        data,
    })
}

impl<Owner: AsOctets, Octets: AsOctets> Record<Owner, Octets> {
    /// Returns the octets of the record, with its numbers.
    pub fn borrowed(&self) -> RecordRef<'_>
        ensures { IsRecordOf result self.now }
    {
        RecordRef {
            owner: name_octets(&self.owner),
            ttl: self.ttl,
            class: self.class,
            rtype: self.data.rtype(),
            data: self.data.as_slice(),
        }
    }
}

/// Returns a copy of octets.
fn copied<A: Allocator>(alloc: A, octets: &[u8]) -> Result<Vec<u8, A>, AllocError>
    ensures { IfOk result (λ copy. copy.items ≡ octets.now) }
{
    let mut copy = Vec::new(alloc);
    copy.extend_from_slice(octets)?;
    Ok(copy)
}

/// Returns a record that holds a copy of these octets, or `None` if the owner is not a name or the
/// RDATA is not of the type. Fails if there is no memory.
pub fn owned_record<A: Allocator + Copy>(
    alloc: A,
    octets: &RecordRef<'_>,
) -> Result<Option<Record<Vec<u8, A>, Vec<u8, A>>>, AllocError>
    ensures found { IfOk result (λ one. IfSome one (IsRecordOf octets.now)) }
    ensures none { IfOk result (λ one. IfNone one (IsNoRecord octets.now)) }
{
    let Ok(owner) = Name::from_octets(copied(alloc, octets.owner)?) else {
        return Ok(None);
    };
    let Ok(data) = Data::from_octets(octets.rtype, copied(alloc, octets.data)?) else {
        return Ok(None);
    };
    Ok(Some(Record {
        owner,
        ttl: octets.ttl,
        class: octets.class,
        data,
    }))
}
