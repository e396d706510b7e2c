//! The record types whose RDATA has a presentation format of its own.
ghost use Rattle.std.specs.Prelude.{◌≡◌, IfSome, option_copied, option_map, slice_get};
ghost use Rattle.rdata.specs.ByType.{name_of_field, shape_of_code};
ghost use Rattle.rdata.specs.Types.{row_shape, row_shapes, FindsShape, IsRowPlace, type_shapes};

use crate::rest::Rest;
use crate::shape::{LengthRule, Shape};
use rdata_fields::{Field, FieldName};
use rdata_tokens::Digests;
use rdata_values::RecordType;

/// A record type by its number, the fields of its RDATA, the tail after them, the length that is
/// required, and the names of the fields: of those of one token each, and after them of those of
/// the tail.
pub struct TypeRow(
    pub u16,
    pub &'static [Field],
    pub Rest,
    pub LengthRule,
    pub &'static [&'static str],
);

/// The types, by code.
pub static TYPES: [TypeRow; 73] = [
    // RFC 1035 section 3.4.1.
    TypeRow(
        RecordType::A.0,
        &[Field::Ipv4],
        Rest::Nothing,
        LengthRule::Any,
        &["address"],
    ),
    // RFC 1035 section 3.3.11.
    TypeRow(
        RecordType::NS.0,
        &[Field::Name],
        Rest::Nothing,
        LengthRule::Any,
        &["name server"],
    ),
    // RFC 1035 section 3.3.1.
    TypeRow(
        RecordType::CNAME.0,
        &[Field::Name],
        Rest::Nothing,
        LengthRule::Any,
        &["target"],
    ),
    // RFC 1035 section 3.3.13.
    TypeRow(
        RecordType::SOA.0,
        &[
            Field::Name,
            Field::Name,
            Field::Number32,
            Field::Interval,
            Field::Interval,
            Field::Interval,
            Field::Interval,
        ],
        Rest::Nothing,
        LengthRule::Any,
        &[
            "primary server",
            "mailbox",
            "serial",
            "refresh",
            "retry",
            "expire",
            "minimum",
        ],
    ),
    // RFC 1035 section 3.3.3.
    TypeRow(
        RecordType::MB.0,
        &[Field::Name],
        Rest::Nothing,
        LengthRule::Any,
        &["host"],
    ),
    // RFC 1035 section 3.3.6.
    TypeRow(
        RecordType::MG.0,
        &[Field::Name],
        Rest::Nothing,
        LengthRule::Any,
        &["mailbox"],
    ),
    // RFC 1035 section 3.3.8.
    TypeRow(
        RecordType::MR.0,
        &[Field::Name],
        Rest::Nothing,
        LengthRule::Any,
        &["mailbox"],
    ),
    // RFC 1035 section 3.3.12.
    TypeRow(
        RecordType::PTR.0,
        &[Field::Name],
        Rest::Nothing,
        LengthRule::Any,
        &["target"],
    ),
    // RFC 1035 section 3.3.2.
    TypeRow(
        RecordType::HINFO.0,
        &[Field::String, Field::String],
        Rest::Nothing,
        LengthRule::Any,
        &["processor", "system"],
    ),
    // RFC 1035 section 3.3.7.
    TypeRow(
        RecordType::MINFO.0,
        &[Field::Name, Field::Name],
        Rest::Nothing,
        LengthRule::Any,
        &["mailbox", "errors mailbox"],
    ),
    // RFC 1035 section 3.3.9.
    TypeRow(
        RecordType::MX.0,
        &[Field::Number16, Field::Name],
        Rest::Nothing,
        LengthRule::Any,
        &["preference", "exchange"],
    ),
    // RFC 1035 section 3.3.14.
    TypeRow(
        RecordType::TXT.0,
        &[],
        Rest::Strings,
        LengthRule::Any,
        &["text"],
    ),
    // RFC 1183 section 2.2.
    TypeRow(
        RecordType::RP.0,
        &[Field::Name, Field::Name],
        Rest::Nothing,
        LengthRule::Any,
        &["mailbox", "text name"],
    ),
    // RFC 1183 section 1.
    TypeRow(
        RecordType::AFSDB.0,
        &[Field::Number16, Field::Name],
        Rest::Nothing,
        LengthRule::Any,
        &["subtype", "host"],
    ),
    // RFC 1183 section 3.1.
    TypeRow(
        RecordType::X25.0,
        &[Field::PsdnAddress],
        Rest::Nothing,
        LengthRule::Any,
        &["address"],
    ),
    // RFC 1183 section 3.2.
    TypeRow(
        RecordType::ISDN.0,
        &[Field::String],
        Rest::MaybeString,
        LengthRule::Any,
        &["address", "subaddress"],
    ),
    // RFC 1183 section 3.3.
    TypeRow(
        RecordType::RT.0,
        &[Field::Number16, Field::Name],
        Rest::Nothing,
        LengthRule::Any,
        &["preference", "host"],
    ),
    // RFC 1706 section 5.
    TypeRow(
        RecordType::NSAP.0,
        &[],
        Rest::Nsap,
        LengthRule::Any,
        &["address"],
    ),
    // RFC 1348.
    TypeRow(
        RecordType::NSAP_PTR.0,
        &[Field::Name],
        Rest::Nothing,
        LengthRule::Any,
        &["target"],
    ),
    // RFC 2535 section 4.1.
    TypeRow(
        RecordType::SIG.0,
        &[
            Field::SigType,
            Field::Algorithm,
            Field::Number8,
            Field::Number32,
            Field::Time,
            Field::Time,
            Field::Number16,
            Field::Name,
        ],
        Rest::Base64,
        LengthRule::Any,
        &[
            "type covered",
            "algorithm",
            "labels",
            "original TTL",
            "expiration",
            "inception",
            "key tag",
            "signer",
            "signature",
        ],
    ),
    // RFC 2535 section 3.1, in the form of DNSKEY.
    TypeRow(
        RecordType::KEY.0,
        &[Field::Number16, Field::Number8, Field::Algorithm],
        Rest::Base64,
        LengthRule::Any,
        &["flags", "protocol", "algorithm", "key"],
    ),
    // RFC 2163 section 4.
    TypeRow(
        RecordType::PX.0,
        &[Field::Number16, Field::Name, Field::Name],
        Rest::Nothing,
        LengthRule::Any,
        &["preference", "RFC 822 name", "X.400 name"],
    ),
    // RFC 1712 section 3.
    TypeRow(
        RecordType::GPOS.0,
        &[Field::String, Field::String, Field::String],
        Rest::Nothing,
        LengthRule::Any,
        &["longitude", "latitude", "altitude"],
    ),
    // RFC 3596 section 2.2.
    TypeRow(
        RecordType::AAAA.0,
        &[Field::Ipv6],
        Rest::Nothing,
        LengthRule::Any,
        &["address"],
    ),
    // RFC 1876 section 2.
    TypeRow(
        RecordType::LOC.0,
        &[],
        Rest::Location,
        LengthRule::Any,
        &["location"],
    ),
    // IANA, by M. Patton for Nimrod.
    TypeRow(
        RecordType::EID.0,
        &[],
        Rest::Hex,
        LengthRule::Any,
        &["endpoint"],
    ),
    // IANA, by M. Patton for Nimrod.
    TypeRow(
        RecordType::NIMLOC.0,
        &[],
        Rest::Hex,
        LengthRule::Any,
        &["locator"],
    ),
    // RFC 2782.
    TypeRow(
        RecordType::SRV.0,
        &[
            Field::Number16,
            Field::Number16,
            Field::Number16,
            Field::Name,
        ],
        Rest::Nothing,
        LengthRule::Any,
        &["priority", "weight", "port", "target"],
    ),
    // RFC 3403 section 4.1.
    TypeRow(
        RecordType::NAPTR.0,
        &[
            Field::Number16,
            Field::Number16,
            Field::String,
            Field::String,
            Field::String,
            Field::Name,
        ],
        Rest::Nothing,
        LengthRule::Any,
        &[
            "order",
            "preference",
            "flags",
            "services",
            "expression",
            "replacement",
        ],
    ),
    // RFC 2230 section 3.
    TypeRow(
        RecordType::KX.0,
        &[Field::Number16, Field::Name],
        Rest::Nothing,
        LengthRule::Any,
        &["preference", "exchanger"],
    ),
    // RFC 4398 section 2.
    TypeRow(
        RecordType::CERT.0,
        &[Field::CertificateType, Field::Number16, Field::Algorithm],
        Rest::Base64,
        LengthRule::Any,
        &["type", "key tag", "algorithm", "certificate"],
    ),
    // RFC 6672 section 2.1.
    TypeRow(
        RecordType::DNAME.0,
        &[Field::Name],
        Rest::Nothing,
        LengthRule::Any,
        &["target"],
    ),
    // Draft-eastlake-kitchen-sink.
    TypeRow(
        RecordType::SINK.0,
        &[Field::Number8, Field::Number8, Field::Number8],
        Rest::Base64,
        LengthRule::Any,
        &["meaning", "coding", "subcoding", "data"],
    ),
    // RFC 3123 section 4.
    TypeRow(
        RecordType::APL.0,
        &[],
        Rest::Prefixes,
        LengthRule::Any,
        &["prefix"],
    ),
    // RFC 4034 section 5.1.
    TypeRow(
        RecordType::DS.0,
        &[Field::Number16, Field::Algorithm, Field::Number8],
        Rest::Hex,
        LengthRule::Digest(Digests::Ds, 3),
        &["key tag", "algorithm", "digest type", "digest"],
    ),
    // RFC 4255 section 3.1.
    TypeRow(
        RecordType::SSHFP.0,
        &[Field::Number8, Field::Number8],
        Rest::Hex,
        LengthRule::Digest(Digests::Sshfp, 1),
        &["algorithm", "fingerprint type", "fingerprint"],
    ),
    // RFC 4025 section 2.1.
    TypeRow(
        RecordType::IPSECKEY.0,
        &[Field::Number8],
        Rest::GatewayKey,
        LengthRule::Any,
        &[
            "precedence",
            "gateway type",
            "algorithm",
            "gateway",
            "public key",
        ],
    ),
    // RFC 4034 section 3.1.
    TypeRow(
        RecordType::RRSIG.0,
        &[
            Field::RecordType,
            Field::Algorithm,
            Field::Number8,
            Field::Number32,
            Field::Time,
            Field::Time,
            Field::Number16,
            Field::Name,
        ],
        Rest::Base64,
        LengthRule::Any,
        &[
            "type covered",
            "algorithm",
            "labels",
            "original TTL",
            "expiration",
            "inception",
            "key tag",
            "signer",
            "signature",
        ],
    ),
    // RFC 4034 section 4.1.
    TypeRow(
        RecordType::NSEC.0,
        &[Field::Name],
        Rest::SomeTypes,
        LengthRule::Any,
        &["next name", "types"],
    ),
    // RFC 4034 section 2.1.
    TypeRow(
        RecordType::DNSKEY.0,
        &[Field::Number16, Field::Number8, Field::Algorithm],
        Rest::Base64,
        LengthRule::Any,
        &["flags", "protocol", "algorithm", "key"],
    ),
    // RFC 4701 section 3.1.
    TypeRow(
        RecordType::DHCID.0,
        &[],
        Rest::Base64,
        LengthRule::Any,
        &["digest"],
    ),
    // RFC 5155 section 3.2.
    TypeRow(
        RecordType::NSEC3.0,
        &[
            Field::Number8,
            Field::Number8,
            Field::Number16,
            Field::Salt,
            Field::Hash,
        ],
        Rest::Types,
        LengthRule::Hash,
        &[
            "hash algorithm",
            "flags",
            "iterations",
            "salt",
            "next hash",
            "types",
        ],
    ),
    // RFC 5155 section 4.2.
    TypeRow(
        RecordType::NSEC3PARAM.0,
        &[Field::Number8, Field::Number8, Field::Number16, Field::Salt],
        Rest::Nothing,
        LengthRule::Any,
        &["hash algorithm", "flags", "iterations", "salt"],
    ),
    // RFC 6698 section 2.1.
    TypeRow(
        RecordType::TLSA.0,
        &[Field::Number8, Field::Number8, Field::Number8],
        Rest::Hex,
        LengthRule::Any,
        &["usage", "selector", "matching type", "data"],
    ),
    // RFC 8162 section 2.
    TypeRow(
        RecordType::SMIMEA.0,
        &[Field::Number8, Field::Number8, Field::Number8],
        Rest::Hex,
        LengthRule::Any,
        &["usage", "selector", "matching type", "data"],
    ),
    // RFC 8005 section 5.
    TypeRow(
        RecordType::HIP.0,
        &[],
        Rest::HostIdentity,
        LengthRule::Any,
        &["algorithm", "HIT", "public key", "rendezvous server"],
    ),
    // Draft-reid-dnsext-zs.
    TypeRow(
        RecordType::NINFO.0,
        &[],
        Rest::Strings,
        LengthRule::Any,
        &["text"],
    ),
    // Draft-reid-dnsext-rkey.
    TypeRow(
        RecordType::RKEY.0,
        &[Field::Number16, Field::Number8, Field::Algorithm],
        Rest::Base64,
        LengthRule::Any,
        &["flags", "protocol", "algorithm", "key"],
    ),
    // Draft-wijngaards-dnsop-trust-history.
    TypeRow(
        RecordType::TALINK.0,
        &[Field::Name, Field::Name],
        Rest::Nothing,
        LengthRule::Any,
        &["previous", "next"],
    ),
    // RFC 7344 section 3.1.
    TypeRow(
        RecordType::CDS.0,
        &[Field::Number16, Field::Algorithm, Field::Number8],
        Rest::Hex,
        LengthRule::Digest(Digests::Ds, 3),
        &["key tag", "algorithm", "digest type", "digest"],
    ),
    // RFC 7344 section 3.2.
    TypeRow(
        RecordType::CDNSKEY.0,
        &[Field::Number16, Field::Number8, Field::Algorithm],
        Rest::Base64,
        LengthRule::Any,
        &["flags", "protocol", "algorithm", "key"],
    ),
    // RFC 7929 section 2.1.
    TypeRow(
        RecordType::OPENPGPKEY.0,
        &[],
        Rest::Base64,
        LengthRule::Any,
        &["key"],
    ),
    // RFC 7477 section 2.1.
    TypeRow(
        RecordType::CSYNC.0,
        &[Field::Number32, Field::Number16],
        Rest::Types,
        LengthRule::Any,
        &["serial", "flags", "types"],
    ),
    // RFC 8976 section 2.
    TypeRow(
        RecordType::ZONEMD.0,
        &[Field::Number32, Field::Number8, Field::Number8],
        Rest::Hex,
        LengthRule::Digest(Digests::Zonemd, 5),
        &["serial", "scheme", "hash algorithm", "digest"],
    ),
    // RFC 9460 section 2.1.
    TypeRow(
        RecordType::SVCB.0,
        &[Field::Number16, Field::Name],
        Rest::Params,
        LengthRule::Any,
        &["priority", "target", "parameter"],
    ),
    // RFC 9460 section 9.
    TypeRow(
        RecordType::HTTPS.0,
        &[Field::Number16, Field::Name],
        Rest::Params,
        LengthRule::Any,
        &["priority", "target", "parameter"],
    ),
    // RFC 9859 section 2.
    TypeRow(
        RecordType::DSYNC.0,
        &[
            Field::RecordType,
            Field::SyncScheme,
            Field::Number16,
            Field::Name,
        ],
        Rest::Nothing,
        LengthRule::Any,
        &["type", "scheme", "port", "target"],
    ),
    // RFC 9886.
    TypeRow(
        RecordType::HHIT.0,
        &[],
        Rest::Base64,
        LengthRule::Any,
        &["data"],
    ),
    // RFC 9886.
    TypeRow(
        RecordType::BRID.0,
        &[],
        Rest::Base64,
        LengthRule::Any,
        &["data"],
    ),
    // RFC 7208 section 3.1.
    TypeRow(
        RecordType::SPF.0,
        &[],
        Rest::Strings,
        LengthRule::Any,
        &["text"],
    ),
    // RFC 6742 section 2.1.
    TypeRow(
        RecordType::NID.0,
        &[Field::Number16, Field::Locator],
        Rest::Nothing,
        LengthRule::Any,
        &["preference", "node identifier"],
    ),
    // RFC 6742 section 2.2.
    TypeRow(
        RecordType::L32.0,
        &[Field::Number16, Field::Ipv4],
        Rest::Nothing,
        LengthRule::Any,
        &["preference", "locator"],
    ),
    // RFC 6742 section 2.3.
    TypeRow(
        RecordType::L64.0,
        &[Field::Number16, Field::Locator],
        Rest::Nothing,
        LengthRule::Any,
        &["preference", "locator"],
    ),
    // RFC 6742 section 2.4.
    TypeRow(
        RecordType::LP.0,
        &[Field::Number16, Field::Name],
        Rest::Nothing,
        LengthRule::Any,
        &["preference", "name"],
    ),
    // RFC 7043 section 3.1.
    TypeRow(
        RecordType::EUI48.0,
        &[Field::Eui48],
        Rest::Nothing,
        LengthRule::Any,
        &["address"],
    ),
    // RFC 7043 section 4.1.
    TypeRow(
        RecordType::EUI64.0,
        &[Field::Eui64],
        Rest::Nothing,
        LengthRule::Any,
        &["address"],
    ),
    // RFC 7553 section 4.
    TypeRow(
        RecordType::URI.0,
        &[Field::Number16, Field::Number16],
        Rest::QuotedText,
        LengthRule::Any,
        &["priority", "weight", "target"],
    ),
    // RFC 8659 section 4.1.
    TypeRow(
        RecordType::CAA.0,
        &[Field::Number8, Field::Tag],
        Rest::Text,
        LengthRule::Any,
        &["flags", "tag", "value"],
    ),
    // IANA, by Cisco.
    TypeRow(
        RecordType::AVC.0,
        &[],
        Rest::Strings,
        LengthRule::Any,
        &["text"],
    ),
    // RFC 9606 section 4.
    TypeRow(
        RecordType::RESINFO.0,
        &[],
        Rest::Strings,
        LengthRule::Any,
        &["text"],
    ),
    // IANA.
    TypeRow(
        RecordType::WALLET.0,
        &[],
        Rest::Strings,
        LengthRule::Any,
        &["text"],
    ),
    // S. Weiler, Deploying DNSSEC Without a Signed Root, 2004.
    TypeRow(
        RecordType::TA.0,
        &[Field::Number16, Field::Algorithm, Field::Number8],
        Rest::Hex,
        LengthRule::Digest(Digests::Ds, 3),
        &["key tag", "algorithm", "digest type", "digest"],
    ),
    // RFC 4431 section 2.
    TypeRow(
        RecordType::DLV.0,
        &[Field::Number16, Field::Algorithm, Field::Number8],
        Rest::Hex,
        LengthRule::Digest(Digests::Ds, 3),
        &["key tag", "algorithm", "digest type", "digest"],
    ),
];

impl TypeRow {
    /// Returns the parts of RDATA of the type.
    pub fn shape(&self) -> Shape
        ensures fields { result.fields.now ≡ self.now.1.now }
        ensures rest { result.rest ≡ self.now.2 }
        ensures length { result.length ≡ self.now.3 }
    {
        Shape {
            fields: self.1,
            rest: self.2,
            length: self.3,
        }
    }
}

/// Returns the row of a type in a table.
fn find_row(table: &'static [TypeRow], rtype: RecordType) -> Option<&'static TypeRow>
    ensures { FindsShape (row_shapes table.now) rtype (option_copied result) }
{
    for row in table {
        if row.0 == rtype.0 {
            return Some(row);
        }
    }
    None
}

/// Returns the index in [`TYPES`] of a type that most records have. Returns `None` for any other type,
/// even if it has a row. A new row moves those after it: then the contract is not met.
#[inline(always)]
fn usual_place(rtype: RecordType) -> Option<usize>
    ensures { IfSome result (IsRowPlace type_shapes rtype) }
{
    match rtype.0 {
        1 => Some(0),
        2 => Some(1),
        5 => Some(2),
        6 => Some(3),
        12 => Some(7),
        15 => Some(10),
        16 => Some(11),
        28 => Some(23),
        33 => Some(27),
        43 => Some(34),
        46 => Some(37),
        47 => Some(38),
        48 => Some(39),
        50 => Some(41),
        _ => None,
    }
}

/// Returns the row at a place of a table.
fn row_at(table: &'static [TypeRow], place: usize) -> Option<&'static TypeRow>
    ensures { option_map row_shape (option_copied result) ≡ slice_get (row_shapes table.now) place }
{
    table.get(place)
}

/// Returns the row of a type, if its RDATA has a presentation format of its own.
pub fn type_row(rtype: RecordType) -> Option<&'static TypeRow>
    ensures { FindsShape type_shapes rtype (option_copied result) }
{
    if let Some(place) = usual_place(rtype) {
        return row_at(&TYPES, place);
    }
    find_row(&TYPES, rtype)
}

/// Returns the name of a field in RDATA of a type, if the type has the field.
pub fn field_text(rtype: RecordType, field: FieldName) -> Option<&'static str>
    ensures { option_copied result ≡ name_of_field (shape_of_code rtype) field }
{
    let names = type_row(rtype)?.4;
    names.get(field.0).copied()
}
