//! The canonical form of RDATA by its type, and of records (RFC 4034 section 6.2, RFC 6840 section
//! 5.1).
ghost use Rattle.std.specs.Prelude.{◌≡◌, ◌<◌, ◌+◌, ◌++◌, length, OnOk, OnErr, IfErr};
ghost use Rattle.std.specs.Int.{to_be_bytes, w16, w32};
ghost use Rattle.dns_octets.specs.Appending.{Extends};
ghost use Rattle.zone_record.specs.FieldForms.{RefusesFields};
ghost use Rattle.zone_record.specs.CanonicalData.{fields_to_lower, canonical_data, canonical_record};

use crate::data::Data;
use crate::record::{Record, name_octets};
use crate::{
    CanonicalError, append_canonical_fields, append_lowered, lowers_names, untexted_fields,
};
use dns_octets::{AsOctets, OctetsBuilder, ShortBuf};
use rdata::type_row;
use rdata_fields::Field;
use rdata_values::{Class, RecordType};

/// Returns the fields of RDATA of a type whose names are lowered, or no fields for any other type.
fn lowered_fields(rtype: RecordType, octets: &[u8]) -> &'static [Field]
    ensures { result.now ≡ fields_to_lower rtype octets.now }
{
    if !lowers_names(rtype) {
        return &[];
    }
    match type_row(rtype) {
        Some(row) => row.shape().fields,
        None => untexted_fields(rtype, octets),
    }
}

/// Appends the canonical form of RDATA of a type: its names in lower case if [`lowers_names`]
/// returns true for the type, and all other octets unchanged.
///
/// The fields are those of the type's presentation format. MD, MF, NXT and A6 have only the generic
/// one, and their names are lowered if the RDATA begins with the type's fields. All other RDATA is
/// unchanged (RFC 3597 section 7). Fails with [`CanonicalError::BadData`] if the octets don't begin
/// with the fields of the presentation format. On an error, some octets may have been appended.
pub fn append_canonical_data<B: OctetsBuilder>(
    rtype: RecordType,
    octets: &[u8],
    target: &mut B,
) -> Result<(), CanonicalError>
    ensures ok { OnOk result (B.octets target.new ≡ B.octets target.old ++ canonical_data rtype octets.now) }
    ensures err { IfErr result (RefusesFields B.room (fields_to_lower rtype octets.now) octets.now (B.octets target.old)) }
    ensures extends { OnErr result (Extends (B.octets target.old) (B.octets target.new)) }
{
    append_canonical_fields(lowered_fields(rtype, octets), octets, target)
}

/// Returns the octets between the owner and the RDATA of a record in wire format: type, class, TTL,
/// and the length of the RDATA.
fn middle_octets(rtype: RecordType, class: Class, ttl: u32, count: u16) -> [u8; 10]
    ensures { result ≡ to_be_bytes w16 rtype ++ to_be_bytes w16 class ++ to_be_bytes w32 ttl ++ to_be_bytes w16 count }
{
    let rtype = rtype.0.to_be_bytes();
    let class = class.0.to_be_bytes();
    let ttl = ttl.to_be_bytes();
    let count = count.to_be_bytes();
    [
        rtype[0], rtype[1], class[0], class[1], ttl[0], ttl[1], ttl[2], ttl[3], count[0], count[1],
    ]
}

impl<Octets: AsOctets> Data<Octets> {
    /// Appends the canonical form of the RDATA, as [`append_canonical_data`] does. Fails if the
    /// target does. The first octets may then have been appended.
    pub fn append_canonical<B: OctetsBuilder>(&self, target: &mut B) -> Result<(), ShortBuf>
        ensures ok { OnOk result (B.octets target.new ≡ B.octets target.old ++ canonical_data self.now.rtype self.now.octets) }
        ensures err { OnErr result (B.room.fits < length (B.octets target.old) + length self.now.octets) }
        ensures extends { OnErr result (Extends (B.octets target.old) (B.octets target.new)) }
    {
        match append_canonical_data(self.rtype(), self.as_slice(), target) {
            Ok(()) => Ok(()),
            Err(_) => Err(ShortBuf),
        }
    }
}

impl<Owner: AsOctets, Octets: AsOctets> Record<Owner, Octets> {
    /// Appends the record in canonical form (RFC 4034 section 6.2): the owner in lower case, type,
    /// class, TTL, the length of the RDATA, and the RDATA in canonical form. Fails if the target
    /// does. The first octets may then have been appended.
    pub fn append_canonical<B: OctetsBuilder>(&self, target: &mut B) -> Result<(), ShortBuf>
        ensures ok { OnOk result (B.octets target.new ≡ B.octets target.old ++ canonical_record self.now) }
        ensures err { OnErr result (B.room.fits < length (B.octets target.old) + length (canonical_record self.now)) }
        ensures extends { OnErr result (Extends (B.octets target.old) (B.octets target.new)) }
    {
        let rtype = self.data.rtype();
        let count = self.data.as_slice().len() as u16;
        append_lowered(name_octets(&self.owner), target)?;
        target.append_slice(&middle_octets(rtype, self.class, self.ttl, count))?;
        self.data.append_canonical(target)
    }
}
