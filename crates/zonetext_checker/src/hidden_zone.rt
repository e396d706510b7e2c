//! Findings about records that delegations hide: addresses are one finding, with their number.
use crate::finding_reports::Findings;
use crate::held_zone::RecordLocation;
use crate::rule_texts::{CheckedZone, is_address, is_before};
use dns_octets::AsOctets;
use dns_wire::{DisplayWithDot, Name};
use finding_codes::code::Code;
use std::alloc::{AllocError, Global};
use zone_delegations::hidden_records;
use zone_reader::NameBuffer;
use zone_rules::hosts::is_cut;
use zone_rules::names::{parent, view};
use zonetext_files::stop::RunError;
use zonetext_findings::subjects::Text;

/// Maximum number of labels of a name.
const MAX_LABELS: usize = 128;

/// Addresses that delegations hide.
#[derive(Clone, Copy)]
struct HiddenAddresses {
    /// Index of the first, in the order of the files.
    record: usize,
    location: RecordLocation,
    count: usize,
}

impl HiddenAddresses {
    /// Returns the addresses with another one.
    fn with(found: Option<HiddenAddresses>, record: usize, location: RecordLocation) -> Self {
        let Some(others) = found else {
            return HiddenAddresses {
                record,
                location,
                count: 1,
            };
        };
        let count = others.count.saturating_add(1);
        if is_before(location, others.location) {
            HiddenAddresses {
                record,
                location,
                count,
            }
        } else {
            HiddenAddresses { count, ..others }
        }
    }
}

/// Returns the delegation that hides a name: the one that is nearest to the apex.
fn delegation_of<'n, Origin: AsOctets>(
    checked: &CheckedZone<'_, Origin>,
    owner: Name<&'n [u8]>,
) -> Option<Name<&'n [u8]>> {
    let zone = view(checked.zone);
    let mut found = None;
    let mut next = Some(owner);
    for _ in 0..MAX_LABELS {
        let Some(name) = next else {
            return found;
        };
        next = parent(&name);
        if is_cut(&zone, &checked.held.records, &name) {
            found = Some(name);
        }
    }
    found
}

/// Returns the message about a name that a delegation hides, up to what is special about addresses.
fn owner_text<Origin: AsOctets>(
    alloc: Global,
    checked: &CheckedZone<'_, Origin>,
    owner: &NameBuffer,
) -> Result<String, AllocError> {
    match delegation_of(checked, view(owner)) {
        Some(name) => {
            let name = DisplayWithDot::new(&name);
            format!(in alloc; "hidden by the delegation {name}")
        }
        // A hidden record is at or below a delegation.
        None => String::from_str(alloc, "hidden by a delegation"),
    }
}

/// Returns the message about a record that a delegation hides.
fn hidden_text<Origin: AsOctets>(
    alloc: Global,
    checked: &CheckedZone<'_, Origin>,
    record: usize,
) -> Result<String, AllocError> {
    match checked.held.owner(record) {
        Some(owner) => owner_text(alloc, checked, &owner),
        None => String::from_str(alloc, "hidden by a delegation"),
    }
}

/// Returns the message about addresses that delegations hide, at the first of them.
fn address_text<Origin: AsOctets>(
    alloc: Global,
    checked: &CheckedZone<'_, Origin>,
    record: usize,
    count: usize,
) -> Result<Text, AllocError> {
    let hidden = hidden_text(alloc, checked, record)?;
    let hidden = hidden.as_str();
    let message = if count > 1 {
        format!(in alloc; "{hidden}, and no NS has this host ({count} such addresses)")?
    } else {
        format!(in alloc; "{hidden}, and no NS has this host")?
    };
    Ok(Text::new(alloc, message))
}

/// Reports the records that delegations hide. An unread NS may have any host: addresses are reported
/// only if all records were read.
pub fn report_hidden<Origin: AsOctets>(
    alloc: Global,
    findings: &mut Findings<'_>,
    checked: &CheckedZone<'_, Origin>,
    has_gap: bool,
) -> Result<(), RunError> {
    let held = checked.held;
    let found = hidden_records(alloc, checked.zone, &held.records, checked.refused)?;
    let mut addresses = None;
    for place in &found {
        let record = Some(*place);
        if !is_address(held, *place) {
            if let Some(counted) = findings.count_at(held, Code::Hidden, record, false) {
                let text = Text::new(alloc, hidden_text(alloc, checked, *place)?);
                findings.show_at(held, counted, Code::Hidden, record, false, &text)?;
            }
        } else if let Some(location) = held.location(*place) {
            if !has_gap && !findings.excepts(Code::Hidden, location) {
                addresses = Some(HiddenAddresses::with(addresses, *place, location));
            }
        }
    }
    let Some(group) = addresses else {
        return Ok(());
    };
    let record = Some(group.record);
    if let Some(counted) = findings.count_at(held, Code::Hidden, record, false) {
        let text = address_text(alloc, checked, group.record, group.count)?;
        findings.show_at(held, counted, Code::Hidden, record, false, &text)?;
    }
    Ok(())
}
