//! The canonical form of RDATA (RFC 4034 section 6.2, RFC 6840 section 5.1).
ghost use Rattle.std.specs.Prelude.{◌≡◌, ◌↔◌, ◌<◌, ◌+◌, ◌++◌, length, Contains, IsTrue, OnOk, OnErr, IfErr};
ghost use Rattle.dns_octets.specs.Appending.{Extends, Gains};
ghost use Rattle.zone_record.specs.FieldForms.{lowered_types, canonical_field, CanonicalFields, RefusesFields};
ghost use Rattle.zone_record.specs.declared.fields.CanonicalError.TheVariants.{ShortBuf as NoRoom};

use crate::names::append_lowered;
use dns_octets::{OctetsBuilder, ShortBuf};
use rdata_fields::{Field, field_width};
use rdata_values::RecordType;
use thiserror::Error;

/// The reason why no canonical form was appended.
#[derive(Clone, Copy, Debug, PartialEq, Eq, Error)]
pub enum CanonicalError {
    /// The RDATA doesn't begin with the fields.
    #[error("record data without its fields")]
    BadData,
    /// The target is too small, or there is no memory.
    #[error("buffer size exceeded")]
    ShortBuf,
}

impl From<ShortBuf> for CanonicalError {
    ghost from_gives = { λ _ e. e ≡ NoRoom };

    fn from(_: ShortBuf) -> Self {
        CanonicalError::ShortBuf
    }
}

/// The types with names in lower case in the canonical form of their RDATA.
const LOWERED: [RecordType; 23] = [
    RecordType::NS,
    RecordType::MD,
    RecordType::MF,
    RecordType::CNAME,
    RecordType::SOA,
    RecordType::MB,
    RecordType::MG,
    RecordType::MR,
    RecordType::PTR,
    RecordType::MINFO,
    RecordType::MX,
    RecordType::RP,
    RecordType::AFSDB,
    RecordType::RT,
    RecordType::SIG,
    RecordType::PX,
    RecordType::NXT,
    RecordType::SRV,
    RecordType::NAPTR,
    RecordType::KX,
    RecordType::A6,
    RecordType::DNAME,
    RecordType::RRSIG,
];

/// Returns whether the names in RDATA of a type are in lower case in its canonical form. They are
/// for the types of RFC 4034 section 6.2 except NSEC (RFC 6840 section 5.1), and for no others.
/// HINFO, which the RFC lists too, has no names.
pub fn lowers_names(rtype: RecordType) -> bool
    ensures { IsTrue result ↔ Contains lowered_types rtype }
{
    LOWERED.contains(&rtype)
}

/// Appends the octets of a field in canonical form.
fn append_canonical_field<B: OctetsBuilder>(
    field: Field,
    octets: &[u8],
    target: &mut B,
) -> Result<(), ShortBuf>
    ensures ok { OnOk result (B.octets target.new ≡ B.octets target.old ++ canonical_field field octets.now) }
    ensures err { OnErr result (B.room.fits < length (B.octets target.old) + length octets.now) }
    ensures extends { OnErr result (Extends (B.octets target.old) (B.octets target.new)) }
{
    match field {
        Field::Name => append_lowered(octets, target),
        _ => target.append_slice(octets),
    }
}

/// Appends the canonical form of RDATA that begins with these fields: the names among them in lower
/// case, and all other octets unchanged, also those after the fields.
///
/// The fields are those of the type up to its last name. If the type doesn't [lower its
/// names](lowers_names), there are none. Fails with [`CanonicalError::BadData`] if the RDATA
/// doesn't begin with the fields, and with `CanonicalError::ShortBuf` if the target fails. On an
/// error, some octets may have been appended.
pub fn append_canonical_fields<B: OctetsBuilder>(
    fields: &[Field],
    octets: &[u8],
    target: &mut B,
) -> Result<(), CanonicalError>
    ensures ok { OnOk result (Gains (CanonicalFields fields.now octets.now) (B.octets target.old) (B.octets target.new)) }
    ensures err { IfErr result (RefusesFields B.room fields.now octets.now (B.octets target.old)) }
    ensures extends { OnErr result (Extends (B.octets target.old) (B.octets target.new)) }
{
    let mut rest = octets;
    for field in fields {
        let Some(width) = field_width(*field, rest) else {
            return Err(CanonicalError::BadData);
        };
        append_canonical_field(*field, &rest[..width], target)?;
        rest = &rest[width..];
    }
    target.append_slice(rest)?;
    Ok(())
}
