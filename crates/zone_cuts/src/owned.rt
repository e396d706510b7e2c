//! Searches among the records of a name.
ghost use Rattle.std.specs.Prelude.{◌≡◌, ◌<◌, ◌≤◌, length};
ghost use Rattle.zone_cuts.specs.Glue.{is_equal_data};
ghost use Rattle.zone_cuts.specs.OwnRecords.{has_passing, is_sought, passes_at, FindsPassing};
ghost use Rattle.zone_cuts.specs.Servers.{is_server_with};
ghost use Rattle.zone_cuts.specs.Signers.{is_key_of_ds};

use crate::digests::ds_fits;
use dns_wire::Name;
use rdata_values::RecordType;
use zone_rules::ZoneRecords;
use zone_rules::names::are_alike;
use zone_rules::zone_records::{OwnerBuffer, ZoneRecord};

/// A record that is sought among those of a name.
#[derive(Clone, Copy)]
pub enum Sought<'k> {
    /// An NS with a host.
    Server(&'k [u8]),
    /// A record with a type and data.
    Equal(RecordType, &'k [u8]),
    /// A DNSKEY that a DS fits. The octets of the owner come first, in lower case, and then the data
    /// of the DS.
    Key(&'k [u8], &'k [u8]),
}

/// Returns whether a record is an NS with a host.
fn is_server_with(host: &[u8], record: &ZoneRecord<'_>) -> bool
    ensures { result ≡ is_server_with host.now «record».now }
{
    record.data.rtype() == RecordType::NS && are_alike(record.data.as_slice(), host)
}

/// Returns whether a record has a type and data.
fn is_equal_data(rtype: RecordType, octets: &[u8], record: &ZoneRecord<'_>) -> bool
    ensures { result ≡ is_equal_data rtype octets.now «record».now }
{
    record.data.rtype() == rtype && record.data.as_slice() == octets
}

/// Returns whether a record is a DNSKEY that a DS fits.
fn is_key_of_ds(owner: &[u8], ds: &[u8], record: &ZoneRecord<'_>) -> bool
    ensures { result ≡ is_key_of_ds owner.now ds.now «record».now }
{
    record.data.rtype() == RecordType::DNSKEY && ds_fits(owner, ds, record.data.as_slice())
}

/// Returns whether a record is sought.
fn is_sought(sought: &Sought<'_>, record: &ZoneRecord<'_>) -> bool
    ensures { result ≡ is_sought sought.now «record».now }
{
    match *sought {
        Sought::Server(host) => is_server_with(host, record),
        Sought::Equal(rtype, octets) => is_equal_data(rtype, octets, record),
        Sought::Key(owner, ds) => is_key_of_ds(owner, ds, record),
    }
}

/// Returns whether the record at an index is sought.
fn is_sought_at<Z: ZoneRecords>(records: &Z, sought: &Sought<'_>, place: usize) -> bool
    requires { place < length (Z.contents records.now) }
    ensures { result ≡ passes_at (is_sought sought.now) (Z.contents records.now) place }
{
    let mut owner = OwnerBuffer::new();
    let one = records.record(place, &mut owner);
    is_sought(sought, &one)
}

/// Returns the index of the first record that is sought, from one index up to another.
fn find_sought<Z: ZoneRecords>(
    records: &Z,
    first: usize,
    past: usize,
    sought: &Sought<'_>,
) -> Option<usize>
    requires { past ≤ length (Z.contents records.now) }
    ensures { FindsPassing (is_sought sought.now) (Z.contents records.now) first past result }
{
    for place in first..past {
        if is_sought_at(records, sought, place) {
            return Some(place);
        }
    }
    None
}

/// Returns whether a record of a name is sought.
pub(crate) fn has_sought<Z: ZoneRecords>(
    records: &Z,
    name: &Name<&[u8]>,
    sought: &Sought<'_>,
) -> bool
    ensures { result ≡ has_passing (is_sought sought.now) name.now (Z.contents records.now) }
{
    let (first, past) = records.places(name);
    find_sought(records, first, past, sought).is_some()
}
