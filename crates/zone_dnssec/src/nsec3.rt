//! The fields of NSEC3 and NSEC3PARAM records (RFC 5155 sections 3 and 4).
ghost use Rattle.std.specs.Prelude.{◌≡◌};
ghost use Rattle.zone_dnssec.specs.Nsec3Chain.{hashed_bitmap, is_link, is_same_field, iterations_of, next_hash_of, opts_out, salt_of, short_number};
ghost use Rattle.zone_dnssec.specs.Parameters.{names_chain};
ghost use Rattle.zone_rules.specs.Zones.{field_octets};

use crate::bitmaps::octets_after;
use dns_octets::AsOctets;
use rdata_values::RecordType;
use zone_rules::fields::field;
use zone_rules::zone_records::ZoneRecord;

/// Indexes of fields of NSEC3 and NSEC3PARAM (RFC 5155 sections 3.2 and 4.2).
const ALGORITHM: usize = 0;

const FLAGS: usize = 1;

const ITERATIONS: usize = 2;

const SALT: usize = 3;

const NEXT_HASH: usize = 4;

/// Returns the number in two octets.
pub(crate) fn short_number(octets: &[u8]) -> u16
    ensures { result ≡ short_number octets.now }
{
    match octets {
        [high, low, ..] => u16::from_be_bytes([*high, *low]),
        _ => 0,
    }
}

/// Returns the next hash of an NSEC3.
pub(crate) fn next_hash<'r>(record: &'r ZoneRecord<'_>) -> &'r [u8]
    ensures { result.now ≡ next_hash_of «record».now }
{
    octets_after(field(record, NEXT_HASH), 1)
}

/// Returns the bitmap of an NSEC3.
pub(crate) fn bitmap<'r>(record: &'r ZoneRecord<'_>) -> &'r [u8]
    ensures { result.now ≡ hashed_bitmap «record».now }
{
    let rest = octets_after(record.data.as_slice(), 4);
    let rest = octets_after(rest, field(record, SALT).len());
    octets_after(rest, field(record, NEXT_HASH).len())
}

/// Returns whether an NSEC3 has the flag Opt-Out (RFC 5155 section 3.1.2.1).
pub(crate) fn has_opt_out(record: &ZoneRecord<'_>) -> bool
    ensures { result ≡ opts_out «record».now }
{
    field(record, FLAGS).iter().any(|flags| flags % 2 == 1)
}

/// Returns whether an NSEC3PARAM names a chain.
pub(crate) fn is_chain(record: &ZoneRecord<'_>) -> bool
    ensures { result ≡ names_chain «record».now }
{
    record.data.rtype() == RecordType::NSEC3PARAM
        && matches!(field(record, ALGORITHM), [1])
        && matches!(field(record, FLAGS), [0])
}

/// Returns the salt of an NSEC3 or NSEC3PARAM.
pub(crate) fn salt<'r>(record: &'r ZoneRecord<'_>) -> &'r [u8]
    ensures { result.now ≡ salt_of «record».now }
{
    octets_after(field(record, SALT), 1)
}

/// Returns the iterations of an NSEC3 or NSEC3PARAM.
pub(crate) fn iterations(record: &ZoneRecord<'_>) -> u16
    ensures { result ≡ iterations_of «record».now }
{
    short_number(field(record, ITERATIONS))
}

/// Returns whether a field of two records is the same.
fn has_same_field(place: usize, left: &ZoneRecord<'_>, right: &ZoneRecord<'_>) -> bool
    ensures { result ≡ is_same_field place left.now right.now }
{
    field(left, place) == field(right, place)
}

/// Returns whether a record is an NSEC3 of a chain.
pub(crate) fn is_of_chain(chain: &ZoneRecord<'_>, record: &ZoneRecord<'_>) -> bool
    ensures { result ≡ is_link chain.now «record».now }
{
    record.data.rtype() == RecordType::NSEC3
        && has_same_field(ALGORITHM, chain, record)
        && has_same_field(ITERATIONS, chain, record)
        && has_same_field(SALT, chain, record)
}
