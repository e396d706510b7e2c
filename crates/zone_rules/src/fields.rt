//! The fields of records' data.
ghost use Rattle.std.specs.Prelude.{◌≡◌};
ghost use Rattle.zone_rules.specs.Zones.{field_octets};

use dns_octets::AsOctets;
use zone_record::Record;

/// Returns the octets of the field of a record's data at an index, which counts from 0. They are empty
/// if the type has no such field.
pub fn field<Owner: AsOctets, Octets: AsOctets>(
    record: &Record<Owner, Octets>,
    place: usize,
) -> &[u8]
    ensures { result.now ≡ field_octets place «record».now }
{
    match record.data.part(place) {
        Some(octets) => octets,
        None => &[],
    }
}
