//! Prints RDATA.
ghost use Rattle.zone_record.specs.DataTokens.{data_document, data_nests};

use crate::data::Data;
use crate::rdata_print::{write_data, write_generic};
use dns_octets::AsOctets;
use dns_zone::zonefile_fmt::{self, FormatWriter, Formatter, ZonefileFmt};
use rdata::type_row;

/// RDATA prints in the presentation format of its type, if the table of types
/// ([`rdata::types::TYPES`]) has a row for the type. The row gives the shape of the RDATA: fields, one
/// after another, and the tail, which fills the rest, as do the texts of TXT and the parameters of
/// SVCB.
///
/// Other RDATA prints in the generic format (RFC 3597 section 5): `\#`, the number of octets, and
/// the octets in hexadecimal. So does RDATA of a type without a row and, by [`write_data`], that of a
/// LOC record with a version other than 0 (RFC 1876 section 2) and of an APL record with an address
/// family other than IPv4 and IPv6 (RFC 3123 section 4).
impl<Octets: AsOctets> ZonefileFmt for Data<Octets> {
    ghost document = { data_document };

    ghost nested = { data_nests };

    fn fmt<F: FormatWriter>(&self, p: &mut F) -> zonefile_fmt::Result {
        match type_row(self.rtype()) {
            Some(row) => write_data(&row.shape(), self.as_slice(), p),
            None => write_generic(self.as_slice(), p),
        }
    }
}
