//! Findings about the records of a zone.
use super::Checker;
use crate::algorithm_texts::{algorithm_text, algorithms_for, is_of_unsigned_name};
use crate::held_zone::{SortedZone, broken_rules, lacks_soa};
use crate::hidden_zone::report_hidden;
use crate::length_texts::length_text;
use crate::missing_keys::missing_keys;
use crate::rule_texts::{CheckedZone, other_soa};
use crate::signature_checks::ZoneSigning;
use crate::signature_groups::groups_of;
use crate::signed_until::signed_until;
use dns_octets::AsOctets;
use dns_wire::{DisplayWithDot, Name};
use finding_codes::code::Code;
use rdata_values::RecordType;
use zone_check::zone_findings::{DirectiveLine, ZoneContext, find_in_zone};
use zone_dnssec::keys::keys_at_apex;
use zone_dnssec::{
    SecurityFinding, SignedRules, SigningDemand, Times, apex_signature, check_signed,
    is_being_signed, lacks_apex_signature, signed_rules,
};
use zone_rules::names::view;
use zone_rules::{Finding, SortedSets, ZoneRecords, find_broken, find_lacking};
use zonetext_files::stop::RunError;
use zonetext_findings::subjects::Text;

/// Number of records whose findings are held at once.
const PART: usize = 4096;

impl<'a> Checker<'a> {
    /// Reports findings of some records: those of a zone, or only those of RRsets. `seen` has the
    /// directives whose duplicates were reported.
    fn report_broken<Origin: AsOctets>(
        &mut self,
        checked: &CheckedZone<'_, Origin>,
        found: &[Finding],
        is_zone: bool,
        seen: &mut Vec<DirectiveLine>,
    ) -> Result<(), RunError> {
        let broken = broken_rules(self.alloc, found, checked.held)?;
        let context = ZoneContext {
            is_zone,
            has_gap: self.has_gap,
        };
        let mut findings = Vec::new(self.alloc);
        find_in_zone(broken.as_slice(), context, seen, &mut findings)?;
        for finding in &findings {
            if !(self.lacks_ttl && finding.rule.code == Code::TtlDiffers) {
                self.findings.report_rule(checked, finding)?;
            }
        }
        Ok(())
    }

    /// Reports which rules the records break: those of a zone, or only those of RRsets.
    pub(super) fn check_zone<Origin: AsOctets>(
        &mut self,
        held: &SortedZone,
        zone: &Name<Origin>,
        is_zone: bool,
    ) -> Result<(), RunError> {
        let refused = held.refused.sorted()?;
        let Some(refused) = SortedSets::new(refused.as_slice()) else {
            return Err(RunError::Damaged);
        };
        let checked = CheckedZone {
            zone,
            held,
            refused: &refused,
        };
        let mut found = Vec::new(self.alloc);
        find_lacking(zone, &held.records, &refused, &mut found)?;
        if is_zone && lacks_soa(found.as_slice()) {
            if let Some(finding) = other_soa(self.alloc, &checked)? {
                let code = finding.rule.code;
                return self.report_other_soa(held, code, finding.record, zone);
            }
        }
        let mut seen = Vec::new(self.alloc);
        self.report_broken(&checked, found.as_slice(), is_zone, &mut seen)?;
        let count = held.records.len();
        for part in 0..count / PART + 1 {
            let first = count.min(part.saturating_mul(PART));
            let past = count.min(first.saturating_add(PART));
            found.clear();
            find_broken(zone, &held.records, &refused, first, past, &mut found)?;
            self.report_broken(&checked, found.as_slice(), is_zone, &mut seen)?;
        }
        if is_zone {
            report_hidden(self.alloc, &mut self.findings, &checked, self.has_gap)?;
            self.compare_zones(&checked)?;
        }
        match self.limits.times {
            Some(times) if is_zone => self.check_signing(held, zone, times),
            _ => Ok(()),
        }
    }

    /// Reports that the records have an SOA only at a name that is not the zone's.
    fn report_other_soa<Origin: AsOctets>(
        &mut self,
        held: &SortedZone,
        code: Code,
        record: Option<usize>,
        zone: &Name<Origin>,
    ) -> Result<(), RunError> {
        let zone = DisplayWithDot::new(zone);
        let message = format!(in self.alloc; "the SOA is not that of the zone {zone}")?;
        self.findings
            .report_at(held, code, record, false, &Text::new(self.alloc, message))
    }

    /// Reports which rules of DNSSEC the records of a zone break, if it is checked as a signed one.
    fn check_signing<Origin: AsOctets>(
        &mut self,
        held: &SortedZone,
        zone: &Name<Origin>,
        times: Times,
    ) -> Result<(), RunError> {
        let apex = view(zone);
        let demand = self.signatures.demand;
        let rules = signed_rules(demand, &apex, &held.records);
        if !matches!(demand, SigningDemand::Never) {
            self.signatures.signing = self.signing_of(held, zone, times)?;
        }
        if matches!(rules, SignedRules::NoRules) {
            return self.check_apex(held, zone);
        }
        self.signatures.is_checked = true;
        if held.records.has_type(&apex, RecordType::DNSKEY) {
            return self.check_signatures(held, zone, times, rules);
        }
        // Findings that an unread record might explain are not reported.
        if self.has_gap || !held.refused.is_empty() {
            return Ok(());
        }
        match apex_signature(&apex, &held.records) {
            Some(place) => {
                let message = "signed, and no DNSKEY at the apex";
                let text = Text::worded(self.alloc, message, None)?;
                self.findings
                    .report_at(held, Code::NoDnskey, Some(place), false, &text)
            }
            None => self.findings.report_broken(held, Code::NoDnskey, None),
        }
    }

    /// Returns whether a zone is signed, and if that is looked for until when.
    fn signing_of<Origin: AsOctets>(
        &self,
        held: &SortedZone,
        zone: &Name<Origin>,
        times: Times,
    ) -> Result<ZoneSigning, RunError> {
        let apex = view(zone);
        if apex_signature(&apex, &held.records).is_none() {
            return Ok(ZoneSigning::Unsigned);
        }
        let is_asked = matches!(self.signatures.demand, SigningDemand::Always);
        let until = if self.signatures.finds_end {
            signed_until(self.alloc, zone, held, times.instant)?
        } else {
            None
        };
        Ok(ZoneSigning::Signed {
            until,
            is_incomplete: !is_asked && is_being_signed(&apex, &held.records),
        })
    }

    /// Reports that the apex of a zone lacks the signatures that other names have.
    fn check_apex<Origin: AsOctets>(
        &mut self,
        held: &SortedZone,
        zone: &Name<Origin>,
    ) -> Result<(), RunError> {
        let apex = view(zone);
        let is_asked = matches!(self.signatures.demand, SigningDemand::IfSigned);
        if !is_asked || self.has_gap || !held.refused.is_empty() {
            return Ok(());
        }
        if !lacks_apex_signature(&apex, &held.records) {
            return Ok(());
        }
        let (first, past) = held.records.places(&apex);
        for place in first..past {
            if held.rtype(place) == Some(RecordType::SOA) {
                return self
                    .findings
                    .report_broken(held, Code::UnsignedApex, Some(place));
            }
        }
        Ok(())
    }

    /// Reports which rules of DNSSEC the records of a signed zone break, of those that are checked.
    fn check_signatures<Origin: AsOctets>(
        &mut self,
        held: &SortedZone,
        zone: &Name<Origin>,
        times: Times,
        rules: SignedRules,
    ) -> Result<(), RunError> {
        // Findings that an unread record might explain are not reported.
        let is_whole = !self.has_gap && held.refused.is_empty();
        let found = check_signed(self.alloc, zone, times, &held.records)?;
        let algorithms = algorithms_for(self.alloc, zone, held, found.as_slice())?;
        for (index, finding) in found.iter().enumerate() {
            let code = finding.rule;
            if !rules.reports(code)
                || (!is_whole && code.is_of_absence())
                || code.is_of_time()
                || code == Code::KeyMissing
                || is_of_unsigned_name(held, found.as_slice(), index)
            {
                continue;
            }
            let record = Some(finding.record);
            let text = match length_text(self.alloc, zone, held, code, finding.record)? {
                Some(text) => Some(text),
                None => algorithm_text(self.alloc, zone, held, &algorithms, finding)?,
            };
            match text {
                Some(text) => self.findings.report_at(held, code, record, false, &text)?,
                None => self.findings.report_broken(held, code, record)?,
            }
        }
        self.report_keys(held, found.as_slice())?;
        self.report_times(held, zone, times, found.as_slice())
    }

    /// Reports the keys that the zone doesn't have and that signatures are by.
    fn report_keys(
        &mut self,
        held: &SortedZone,
        found: &[SecurityFinding],
    ) -> Result<(), RunError> {
        let keys = missing_keys(self.alloc, found, held)?;
        for key in &keys {
            let text = key.text(self.alloc)?;
            self.findings
                .report_at(held, Code::KeyMissing, Some(key.record), false, &text)?;
        }
        Ok(())
    }

    /// Reports which signatures are not valid at the time of the check, or soon.
    fn report_times<Origin: AsOctets>(
        &mut self,
        held: &SortedZone,
        zone: &Name<Origin>,
        times: Times,
        found: &[SecurityFinding],
    ) -> Result<(), RunError> {
        let joins = self.findings.reporter.joins_equal();
        let keys = keys_at_apex(self.alloc, &view(zone), &held.records)?;
        let keys = keys.as_slice();
        let groups = groups_of(self.alloc, found, held, keys, times.instant, joins)?;
        for group in &groups {
            if group.rule == Code::ExpiresSoon && times.margin == 0 {
                continue;
            }
            let text = group.text(self.alloc)?;
            let (code, record) = (group.rule, group.record);
            if group.is_beside {
                let is_omitted = if code == Code::Expired {
                    self.signatures.omits_expired
                } else {
                    self.signatures.omits_early
                };
                self.findings
                    .report_minor(held, code, is_omitted, record, &text)?;
            } else {
                self.findings
                    .report_at(held, code, Some(record), false, &text)?;
            }
        }
        Ok(())
    }
}
