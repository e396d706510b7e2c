//! The messages of findings about the records of a zone.
use crate::held_zone::{HeldRecord, RecordLocation, SortedZone};
use crate::host_texts::host_text;
use dns_octets::AsOctets;
use dns_wire::{DisplayWithDot, Name};
use finding_codes::code::Code;
use finding_codes::rule::Rule;
use finding_texts::similar::edits_between;
use rdata_values::RecordType;
use std::alloc::{AllocError, Global};
use zone_rules::hosts::dname_over_host;
use zone_rules::names::{is_name_below, is_same, parent, view};
use zone_rules::services::is_alias_mode;
use zone_rules::zone_records::OwnerBuffer;
use zone_rules::{Finding, SortedSets, ZoneRecords, find_broken};
use zonetext_findings::subjects::Text;

/// The records of a zone, and its RRsets with a rejected entry.
#[derive(Clone, Copy)]
pub struct CheckedZone<'z, Origin: AsOctets> {
    pub zone: &'z Name<Origin>,
    pub held: &'z SortedZone,
    pub refused: &'z SortedSets<'z>,
}

/// Returns the finding of the first SOA, if it is at another name than the zone's: then the records are
/// probably those of another zone.
pub fn other_soa<Origin: AsOctets>(
    alloc: Global,
    checked: &CheckedZone<'_, Origin>,
) -> Result<Option<Finding>, AllocError> {
    let records = &checked.held.records;
    for place in 0..records.len() {
        if records.rtype(place) == RecordType::SOA {
            let mut found = Vec::new(alloc);
            find_broken(
                checked.zone,
                records,
                checked.refused,
                place,
                place + 1,
                &mut found,
            )?;
            return Ok(
                found
                    .iter()
                    .find(|finding| matches!(finding.rule.code, Code::Outside | Code::SoaNotApex))
                    .copied(),
            );
        }
    }
    Ok(None)
}

/// Returns the target of a record: the host of NS, MX and SRV, and that of CNAME, SVCB and HTTPS.
fn target_of<'r>(record: &'r HeldRecord<'_>) -> Option<Name<&'r [u8]>> {
    let place = match record.data.rtype() {
        RecordType::NS | RecordType::CNAME => 0,
        RecordType::MX | RecordType::SVCB | RecordType::HTTPS => 1,
        RecordType::SRV => 3,
        _ => return None,
    };
    match Name::from_octets(record.data.part(place)?) {
        Ok(name) => Some(name),
        Err(_) => None,
    }
}

/// Returns whether the record at an index is an address.
pub fn is_address(held: &SortedZone, place: usize) -> bool {
    matches!(held.rtype(place), Some(RecordType::A | RecordType::AAAA))
}

/// Greatest number of edits that lead from a missing target to the name that was probably meant.
const MOST_EDITS: usize = 2;

/// A record whose owner is like a missing target, and the number of edits that lead to it.
#[derive(Clone, Copy)]
struct Near {
    edits: usize,
    place: usize,
}

/// Returns whether an octet is in a text.
fn has_octet(text: &[u8], octet: u8) -> bool {
    for found in text {
        if *found == octet {
            return true;
        }
    }
    false
}

/// Returns whether more octets of a text than edits are allowed are not in another text. Each of them
/// needs an edit of its own.
fn has_others(text: &[u8], other: &[u8]) -> bool {
    let mut count: usize = 0;
    for octet in text {
        if has_octet(other, *octet) {
            continue;
        }
        if count >= MOST_EDITS {
            return true;
        }
        count += 1;
    }
    false
}

/// Returns the number of edits between two texts, if they are few.
fn few_edits(alloc: Global, text: &str, other: &str) -> Result<Option<usize>, AllocError> {
    let (octets, others) = (text.as_bytes(), other.as_bytes());
    if has_others(octets, others) || has_others(others, octets) {
        return Ok(None);
    }
    edits_between(alloc, text, other)
}

/// Returns the number of octets at the end of a text of a name below a zone that are the zone and the
/// dot before it.
fn end_of_names(alloc: Global, zone: &Name<&[u8]>) -> Result<usize, AllocError> {
    if zone.len() == 1 {
        return Ok(1);
    }
    let text = DisplayWithDot::new(zone).to_string(alloc)?;
    Ok(text.len().saturating_add(1))
}

/// Returns a text without its last octets.
fn without_end(text: &str, count: usize) -> &str {
    text.get(..text.len().saturating_sub(count)).unwrap_or("")
}

/// A missing target below a zone, in lower case.
#[derive(Clone, Copy)]
struct Wanted<'t> {
    /// Number of its octets on the wire.
    len: usize,
    /// Its text without the zone.
    text: &'t str,
    /// Number of octets of the zone at the end of the text of a name, and of the dot before it.
    end: usize,
}

/// Returns the number of edits between the owner of an address and a missing target, if the owner is
/// below the zone and they are few.
fn edits_to_owner(
    alloc: Global,
    held: &SortedZone,
    zone: &Name<&[u8]>,
    wanted: Wanted<'_>,
    place: usize,
) -> Result<Option<usize>, AllocError> {
    if !is_address(held, place) || place >= held.records.len() {
        return Ok(None);
    }
    let mut buffer = OwnerBuffer::new();
    let record = held.records.record(place, &mut buffer);
    let owner = view(&record.owner);
    if owner.len().abs_diff(wanted.len) > MOST_EDITS || !is_name_below(&owner, zone) {
        return Ok(None);
    }
    let text = DisplayWithDot::new(&owner).to_string(alloc)?;
    few_edits(alloc, wanted.text, without_end(text.as_str(), wanted.end))
}

/// Returns the index of the first address whose owner is most like another name below the zone,
/// ignoring letter case, if one is.
fn nearest_place<Origin: AsOctets>(
    alloc: Global,
    records: &CheckedZone<'_, Origin>,
    target: &Name<&[u8]>,
) -> Result<Option<usize>, AllocError> {
    let (zone, held) = (view(records.zone), records.held);
    if !is_name_below(target, &zone) {
        return Ok(None);
    }
    let end = end_of_names(alloc, &zone)?;
    let text = DisplayWithDot::new(target).to_string(alloc)?;
    let text = text.as_str().to_ascii_lowercase(alloc)?;
    let wanted = Wanted {
        len: target.len(),
        text: without_end(text.as_str(), end),
        end,
    };
    let mut best: Option<Near> = None;
    for place in 0..held.records.len() {
        if let Some(edits) = edits_to_owner(alloc, held, &zone, wanted, place)? {
            if best.is_none_or(|near| edits < near.edits) {
                best = Some(Near { edits, place });
            }
        }
    }
    Ok(best.map(|near| near.place))
}

/// Returns the name with an address that is most like another name below the zone, as it is written, if
/// one is.
fn nearest<Origin: AsOctets>(
    alloc: Global,
    records: &CheckedZone<'_, Origin>,
    target: &Name<&[u8]>,
) -> Result<Option<String>, AllocError> {
    let Some(place) = nearest_place(alloc, records, target)? else {
        return Ok(None);
    };
    match records.held.owner(place) {
        Some(owner) => Ok(Some(DisplayWithDot::new(&owner).to_string(alloc)?)),
        None => Ok(None),
    }
}

/// Returns the message about a target without an address, or without records. If `may_search` is
/// set, its help has the name that was probably meant.
fn missing_target<Origin: AsOctets>(
    alloc: Global,
    records: &CheckedZone<'_, Origin>,
    record: &HeldRecord<'_>,
    code: Code,
    may_search: bool,
) -> Result<Option<Text>, AllocError> {
    let Some(target) = target_of(record) else {
        return Ok(None);
    };
    let rtype = record.data.rtype();
    let name = DisplayWithDot::new(&target);
    let message = match code {
        Code::TargetMissing if !is_alias_mode(record) => format!(in alloc;
            "{rtype} target {name} has no address in the zone"
        )?,
        Code::TargetMissing | Code::CnameTargetMissing => {
            format!(in alloc; "{rtype} target {name} has no records in the zone")?
        }
        Code::NsAddress
            if records
                .held
                .records
                .has_type(&view(&target), RecordType::CNAME) => {
            let message = format!(in alloc; "name server {name} is a CNAME")?;
            return Ok(Some(Text::new(alloc, message)));
        }
        Code::NsAddress => format!(in alloc; "name server {name} has no address in the zone")?,
        _ => format!(in alloc; "name server {name} below the delegation has no address")?,
    };
    let text = Text::new(alloc, message);
    if !may_search {
        return Ok(Some(text));
    }
    match nearest(alloc, records, &target)? {
        Some(name) => {
            let name = name.as_str();
            let help = format!(in alloc; "did you mean {name}?")?;
            Ok(Some(Text { help, ..text }))
        }
        None => Ok(Some(text)),
    }
}

/// Returns the message about a target below a DNAME.
fn dname_target<Origin: AsOctets>(
    alloc: Global,
    records: &CheckedZone<'_, Origin>,
    record: &HeldRecord<'_>,
) -> Result<Option<Text>, AllocError> {
    let Some(name) = dname_over_host(&records.held.records, records.refused, record) else {
        return Ok(None);
    };
    let name = DisplayWithDot::new(&name);
    let text = format!(in alloc; "target is below the DNAME {name}")?;
    Ok(Some(Text::new(alloc, text)))
}

/// Returns the message about a target that is a CNAME.
fn cname_target(alloc: Global, record: &HeldRecord<'_>) -> Result<Option<Text>, AllocError> {
    let Some(target) = target_of(record) else {
        return Ok(None);
    };
    let rtype = record.data.rtype();
    let name = DisplayWithDot::new(&target);
    let text = format!(in alloc; "{rtype} target {name} is a CNAME")?;
    Ok(Some(Text::new(alloc, text)))
}

/// Returns whether a position is before another, in the same file or a later one.
pub fn is_before(left: RecordLocation, right: RecordLocation) -> bool {
    let (line, column) = (left.position.line, left.position.column);
    let (other_line, other_column) = (right.position.line, right.position.column);
    left.file < right.file
        || (left.file == right.file
            && (line < other_line || (line == other_line && column < other_column)))
}

/// Returns the position of the first CNAME of a name in the files, if it is before a record.
fn first_cname<Origin: AsOctets>(
    records: &CheckedZone<'_, Origin>,
    record: &HeldRecord<'_>,
    place: usize,
) -> Option<RecordLocation> {
    let held = records.held;
    let mut first = held.location(place)?;
    let own = first;
    let (start, end) = held.records.places(&view(&record.owner));
    for place in start..end {
        let location = held.location(place)?;
        if held.rtype(place) == Some(RecordType::CNAME) && is_before(location, first) {
            first = location;
        }
    }
    if is_before(first, own) {
        Some(first)
    } else {
        None
    }
}

/// Returns whether the owner of a CNAME may have records of a type besides it (RFC 4035 section 2.5).
fn is_beside_cname(rtype: Option<RecordType>) -> bool {
    matches!(
        rtype,
        Some(RecordType::CNAME | RecordType::RRSIG | RecordType::NSEC | RecordType::KEY)
    )
}

/// Returns whether a record comes before another in the files. Generated ones have one position.
fn comes_first(held: &SortedZone, place: usize, other: usize) -> bool {
    match (held.location(place), held.location(other)) {
        (Some(found), Some(next)) => {
            is_before(found, next) || (!is_before(next, found) && place < other)
        }
        _ => false,
    }
}

/// Returns whether a CNAME is the first of its name in the files, and the name has no records but other
/// CNAMEs that must not be there.
pub fn has_only_cnames<Origin: AsOctets>(records: &CheckedZone<'_, Origin>, place: usize) -> bool {
    let held = records.held;
    if place >= held.records.len() {
        return false;
    }
    let (start, end) = held.records.places_at(place);
    for other in start..end {
        let rtype = held.rtype(other);
        let is_earlier = rtype == Some(RecordType::CNAME) && comes_first(held, other, place);
        if is_earlier || !is_beside_cname(rtype) {
            return false;
        }
    }
    true
}

/// Returns the message about a CNAME at the apex of the zone.
fn apex_cname<Origin: AsOctets>(
    alloc: Global,
    records: &CheckedZone<'_, Origin>,
    record: &HeldRecord<'_>,
) -> Result<Option<Text>, AllocError> {
    let (owner, held) = (view(&record.owner), &records.held.records);
    let is_whole = held.has_type(&owner, RecordType::SOA) && held.has_type(&owner, RecordType::NS);
    if !is_whole || !is_same(&owner, &view(records.zone)) {
        return Ok(None);
    }
    let text = Text::worded(alloc, "CNAME at the apex, beside SOA and NS", None)?;
    Ok(Some(text))
}

/// Returns the message about a record outside of the zone. If its owner has one label, its help has the
/// name in the zone.
fn outside_text<Origin: AsOctets>(
    alloc: Global,
    records: &CheckedZone<'_, Origin>,
    record: &HeldRecord<'_>,
) -> Result<Option<Text>, AllocError> {
    let owner = view(&record.owner);
    let is_one_label = parent(&owner).is_some_and(|above| above.len() == 1);
    if !is_one_label || records.zone.len() == 1 {
        return Ok(None);
    }
    let text = Text::worded(alloc, Code::Outside.message(), None)?;
    let (owner, zone) = (
        DisplayWithDot::new(&owner),
        DisplayWithDot::new(records.zone),
    );
    let help = format!(in alloc; "without the dot: {owner}{zone}")?;
    Ok(Some(Text { help, ..text }))
}

/// Returns the message about a second CNAME of a name, with the position of the first.
fn second_cname<Origin: AsOctets>(
    alloc: Global,
    records: &CheckedZone<'_, Origin>,
    record: &HeldRecord<'_>,
    place: usize,
) -> Result<Option<Text>, AllocError> {
    let Some(first) = first_cname(records, record, place) else {
        return Ok(None);
    };
    let name = DisplayWithDot::new(&record.owner);
    let (line, column) = (first.position.line, first.position.column);
    let text = format!(in alloc; "second CNAME of {name}; the first is at {line}:{column}")?;
    Ok(Some(Text::new(alloc, text)))
}

/// Returns the message about a CDS or CDNSKEY of an algorithm of which the zone has no DNSKEY.
fn missing_algorithm(alloc: Global, record: &HeldRecord<'_>) -> Result<Option<Text>, AllocError> {
    let octets = record.data.as_slice();
    let (rtype, algorithm) = match record.data.rtype() {
        RecordType::CDS => ("CDS", octets.get(2)),
        _ => ("CDNSKEY", octets.get(3)),
    };
    let Some(algorithm) = algorithm else {
        return Ok(None);
    };
    let text = format!(in alloc;
        "{rtype} of algorithm {algorithm}, of which the zone has no DNSKEY '{algorithm}'"
    )?;
    Ok(Some(Text::new(alloc, text)))
}

/// Returns the message about a record that breaks a rule, if it has more than that of the code.
fn own_text<Origin: AsOctets>(
    alloc: Global,
    records: &CheckedZone<'_, Origin>,
    place: usize,
    rule: Rule,
    may_search: bool,
) -> Result<Option<Text>, AllocError> {
    let mut owner = OwnerBuffer::new();
    let Some(record) = records.held.record(place, &mut owner) else {
        return Ok(None);
    };
    let record = &record;
    match rule.code {
        Code::TargetMissing | Code::NsAddress | Code::Glue | Code::CnameTargetMissing => {
            missing_target(alloc, records, record, rule.code, may_search)
        }
        Code::TargetCname if rule.way == 0 => cname_target(alloc, record),
        Code::TargetCname => dname_target(alloc, records, record),
        Code::Cname => match second_cname(alloc, records, record, place)? {
            Some(text) => Ok(Some(text)),
            None => apex_cname(alloc, records, record),
        },
        Code::HostName => host_text(alloc, record),
        Code::Cds => missing_algorithm(alloc, record),
        Code::Outside => outside_text(alloc, records, record),
        _ => Ok(None),
    }
}

/// Returns the text of a broken rule. If `may_search` is set, a name like a missing target is looked
/// for.
pub fn rule_text<Origin: AsOctets>(
    alloc: Global,
    records: &CheckedZone<'_, Origin>,
    finding: &Finding,
    may_search: bool,
) -> Result<Text, AllocError> {
    if let Some(place) = finding.record {
        if let Some(text) = own_text(alloc, records, place, finding.rule, may_search)? {
            return Ok(text);
        }
    }
    Text::worded(alloc, finding.rule.message(), None)
}
