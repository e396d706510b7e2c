//! Findings about a record, and about a directive, by itself.
use super::{Checker, SoaInfo};
use crate::finding_kinds::{has_other_of_word, is_bare_name};
use crate::portable::{may_be_unportable, may_have_own_sign};
use crate::scan::{ends_twice, repeats_origin};
use crate::spelled_names::has_absolute_names;
use dns_wire::DisplayWithoutDot;
use rdata_values::{Class, RecordType};
use std::alloc::AllocError;
use zone_check::finding::EntryFinding;
use zone_check::scan::OctetScan;
use zone_reader::{NameBuffer, RecordTtl};
use zone_record::{Data, record_of};
use zone_rules::host_names::is_no_host_name;
use zone_serial::serial_of;
use zonetext_files::stop::RunError;
use zonetext_files::zone_files::Entry;
use zonetext_findings::locations::tokens_of;

/// Returns whether a name of a record, as it is spelled, may end like the origin: a relative name that does
/// has the origin twice, unless it has escapes.
fn may_repeat_origin(entry: &Entry<'_>, scan: OctetScan, origin: &[u8]) -> bool {
    let Ok(owner) = entry.state.owner() else {
        return true;
    };
    scan.has_backslash || ends_twice(owner.as_slice(), origin) || repeats_origin(entry.data, origin)
}

/// Returns whether a name of a record must be that of a host, and isn't.
fn has_bad_host(entry: &Entry<'_>) -> Result<bool, RunError> {
    match entry.record()? {
        Some(given) => Ok(record_of(&given).is_some_and(|record| is_no_host_name(&record))),
        None => Ok(false),
    }
}

impl<'a> Checker<'a> {
    /// Returns whether the names of a record, as they are spelled, may have findings.
    pub(super) fn may_show_names(
        &self,
        entry: &Entry<'_>,
        scan: OctetScan,
        rtype: RecordType,
    ) -> bool {
        let Some(origin) = entry.state.origin.name() else {
            return false;
        };
        if origin.len() < 2 {
            return self.limits.assumes_root
                && !self.has_reported_origin
                && !has_absolute_names(entry.octets, rtype);
        }
        may_repeat_origin(entry, scan, origin.as_slice())
    }

    /// Returns whether a record may have words that not every server reads.
    pub(super) fn may_show_words(&self, entry: &Entry<'_>, rtype: RecordType) -> bool {
        if entry.generated.is_some() {
            return false;
        }
        let skips_names = self.bare_name_files.contains(&entry.number);
        (!skips_names && may_have_own_sign(entry.octets))
            || may_be_unportable(rtype, entry.data, skips_names)
    }

    /// Returns whether a finding about a name that Knot rejects is not reported: one of its file was, or
    /// another finding is about the name.
    pub(super) fn is_beside_other(
        &self,
        entry: &Entry<'_>,
        found: &[EntryFinding],
        finding: &EntryFinding,
    ) -> Result<bool, RunError> {
        if !is_bare_name(finding) {
            return Ok(false);
        }
        if self.bare_name_files.contains(&entry.number) || has_other_of_word(found, finding) {
            return Ok(true);
        }
        Ok(self.zone.is_some() && has_bad_host(entry)?)
    }

    /// Returns the text of the origin without its last dot, or none if names need not be looked at
    /// or the origin is the root.
    pub(super) fn origin_text(
        &self,
        entry: &Entry<'_>,
        scan: OctetScan,
    ) -> Result<String, AllocError> {
        match entry.state.origin.name() {
            Some(origin)
                if origin.len() >= 2 && may_repeat_origin(entry, scan, origin.as_slice()) => {
                DisplayWithoutDot::new(origin).to_string(self.alloc)
            }
            _ => Ok(String::new(self.alloc)),
        }
    }

    /// Stores the first SOA. Fails with `Damaged` if its octets are not an SOA.
    fn see_soa(&mut self, entry: &Entry<'_>) -> Result<(), RunError> {
        if self.seen.is_some() {
            return Ok(());
        }
        let (Ok(owner), Ok(data)) = (
            entry.state.owner(),
            Data::from_octets(RecordType::SOA, entry.data),
        ) else {
            return Err(RunError::Damaged);
        };
        let (Ok(zone), Some(serial)) = (NameBuffer::from_labels((), owner), serial_of(&data)) else {
            return Err(RunError::Damaged);
        };
        if self.findings.zone.is_none() {
            self.findings.zone = NameBuffer::from_labels((), owner).ok();
        }
        self.seen = Some(SoaInfo { zone, serial });
        Ok(())
    }

    /// Returns whether the root is appended to relative names of an entry because no origin is known.
    pub(super) fn is_below_root(&self, entry: &Entry<'_>) -> bool {
        match entry.state.origin.name() {
            Some(origin) => self.limits.assumes_root && origin.len() < 2,
            None => true,
        }
    }

    /// Returns whether a TTL has no findings.
    pub(super) fn is_usual_ttl(&self, ttl: RecordTtl) -> bool {
        match (ttl, self.limits.max_ttl) {
            (RecordTtl::Minimum(_), _) => false,
            // A TTL of 2^31 or more is 0.
            (RecordTtl::Explicit(0), _) => false,
            (_, Some(most)) => ttl.seconds() <= most,
            (_, None) => true,
        }
    }

    /// Reports the findings about a record, and stores it. `at` is the offset of its first token.
    pub(super) fn check_record(
        &mut self,
        entry: &Entry<'_>,
        scan: OctetScan,
        found: &[EntryFinding],
        at: usize,
        class: Class,
        rtype: RecordType,
    ) -> Result<(), RunError> {
        self.count_record();
        let has_class = class == self.limits.class;
        if has_class && rtype == RecordType::SOA {
            self.see_soa(entry)?;
        }
        if has_class && !self.limits.reports_slips {
            return Ok(());
        }
        self.report_read(entry, found)?;
        if !has_class {
            return self.hold_refused(entry, Some(rtype));
        }
        self.hold_record(entry, scan, at)
    }

    /// Ends the assumption of the root at `$ORIGIN`.
    pub(super) fn see_directive(&mut self, entry: &Entry<'_>) -> Result<(), RunError> {
        let tokens = tokens_of(self.alloc, entry)?;
        if let Some(word) = tokens.first() {
            if word.text.eq_ignore_ascii_case(b"$ORIGIN") {
                self.limits.assumes_root = false;
            }
        }
        Ok(())
    }
}
