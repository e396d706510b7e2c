//! Records in commands of nsupdate.
use dns_octets::AsOctets;
use dns_zone::zonefile_fmt::{DisplayKind, ZonefileFmt};
use std::alloc::{AllocError, Global};
use zone_record::Record;

/// Greatest number of octets of a record in a command. nsupdate takes lines of 128 KiB.
const LINE: usize = 131_000;

/// Number of octets of RDATA whose text is never longer than a line: an octet of a type bitmap has
/// up to eight names of nine characters.
const SHORT: usize = 1_500;

/// Returns the text of a record, with one blank between two tokens.
pub fn record_text<Owner: AsOctets, Octets: AsOctets>(
    alloc: Global,
    one: &Record<Owner, Octets>,
) -> Result<String, AllocError> {
    one.display_zonefile(DisplayKind::Simple).to_string(alloc)
}

/// Returns whether the text of a record is too long for a command.
pub fn is_long<Owner: AsOctets, Octets: AsOctets>(
    alloc: Global,
    one: &Record<Owner, Octets>,
) -> Result<bool, AllocError> {
    if one.data.as_slice().len() < SHORT {
        return Ok(false);
    }
    Ok(record_text(alloc, one)?.len() > LINE)
}

/// Appends the text of a record without its TTL, and a line end.
pub fn push_without_ttl<Owner: AsOctets, Octets: AsOctets>(
    text: &mut String,
    one: &Record<Owner, Octets>,
) -> Result<(), AllocError> {
    let line = record_text(*text.allocator(), one)?;
    // A name in a record has no blank: it is written as \032.
    if let Some((owner, rest)) = line.as_str().split_once(' ') {
        if let Some((_, rest)) = rest.split_once(' ') {
            text.push_str(owner)?;
            text.push_str(" ")?;
            text.push_str(rest)?;
        }
    }
    text.push_str("\n")
}
