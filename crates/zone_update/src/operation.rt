//! The operations of a dynamic update.
ghost use Rattle.std.specs.Prelude.{◌≡◌};
ghost use Rattle.zone_update.specs.Operations.{is_apex_ns, is_at, operated};

use dns_octets::AsOctets;
use dns_octets::lowered::same_octets;
use dns_wire::Name;
use rdata_values::RecordType;
use zone_record::Record;

/// An operation of a dynamic update on one record (RFC 2136 section 2.5).
#[derive_where(Clone, Copy)]
pub enum Operation<'a, Owner: AsOctets, Octets: AsOctets> {
    /// The record is deleted from its RRset (section 2.5.4). Its TTL has no meaning.
    Delete(&'a Record<Owner, Octets>),
    /// The record is added to its RRset (section 2.5.1), or replaces the record of the same RDATA, and
    /// with it the TTL (section 3.4.2.2). BIND gives the TTL to the whole RRset.
    Add(&'a Record<Owner, Octets>),
}

impl<'a, Owner: AsOctets, Octets: AsOctets> Operation<'a, Owner, Octets> {
    /// Returns the record.
    pub fn record(&self) -> &'a Record<Owner, Octets>
        ensures { result.now ≡ operated self.now }
    {
        match *self {
            Operation::Delete(one) | Operation::Add(one) => one,
        }
    }
}

/// Returns whether a name is the owner of a record, ignoring letter case.
pub fn is_at<Host: AsOctets, Owner: AsOctets, Octets: AsOctets>(
    name: &Name<Host>,
    one: &Record<Owner, Octets>,
) -> bool
    ensures { result ≡ is_at name.now one.now }
{
    same_octets(name.as_slice(), one.owner.as_slice())
}

/// Returns whether a record is an NS record at the apex of a zone.
pub(crate) fn is_apex_ns<Apex: AsOctets, Owner: AsOctets, Octets: AsOctets>(
    apex: &Name<Apex>,
    one: &Record<Owner, Octets>,
) -> bool
    ensures { result ≡ is_apex_ns apex.now one.now }
{
    one.data.rtype() == RecordType::NS && is_at(apex, one)
}
