//! Records as values.
ghost use Rattle.std.specs.Prelude.{◌≡◌, Some};
ghost use Rattle.rdata_tokens.specs.NameSpelling.{IsWireName};
ghost use Rattle.dns_wire.specs.Wire.{wire, IsName};
ghost use Rattle.zone_record.specs.Records.{record_document, record_nests, record_type_text};

use crate::data::Data;
use dns_octets::AsOctets;
use dns_wire::Name;
use dns_zone::zonefile_fmt::{self, FormatWriter, Formatter, ZonefileFmt};
use rdata::type_row;
use rdata_tokens::NameText;
use rdata_values::{Class, PortableType, RecordType};
use std::fmt;

/// Returns the octets of a name in wire format.
pub(crate) fn name_octets<Octets: AsOctets>(name: &Name<Octets>) -> &[u8]
    ensures value { result.now ≡ wire name.now }
    ensures is_name { IsName name.now }
    ensures is_wire { IsWireName (wire name.now) }
{
    // No effect at run time: the proof reads that the octets are below 256.
    let _octets = AsOctets::as_slice(name);
    name.as_slice()
}

/// The type of a record. It prints as its name if RDATA of the type prints in its own presentation
/// format. Before the generic form it prints as its name only if every reader knows that (RFC 3597
/// section 5).
#[derive(Clone, Copy)]
struct OwnType(RecordType);

impl fmt::Display for OwnType {
    ghost output = { λ t. Some (record_type_text t.0) };

    fn fmt<W: fmt::Write>(&self, f: &mut fmt::Formatter<W>) -> fmt::Result {
        match type_row(self.0) {
            Some(_) => write!(f, "{}", self.0),
            None => write!(f, "{}", PortableType(self.0)),
        }
    }
}

/// A record (RFC 1035 section 3.2): its owner, its TTL in seconds, its class, and its RDATA, which
/// has the type.
#[derive(Drop)]
pub struct Record<Owner: AsOctets, Octets: AsOctets> {
    pub owner: Name<Owner>,
    pub ttl: u32,
    pub class: Class,
    pub data: Data<Octets>,
}

/// A record prints as one entry: the owner with a dot at its end, the TTL in seconds, the class,
/// the type, and the RDATA in a block. There is no line end.
impl<Owner: AsOctets, Octets: AsOctets> ZonefileFmt for Record<Owner, Octets> {
    ghost document = { record_document };

    ghost nested = { record_nests };

    fn fmt<F: FormatWriter>(&self, p: &mut F) -> zonefile_fmt::Result {
        p.write_token(NameText(name_octets(&self.owner)))?;
        p.write_token(self.ttl)?;
        p.write_token(self.class)?;
        p.write_token(OwnType(self.data.rtype()))?;
        p.block(&self.data)
    }
}
