//! Counts the findings of each severity and code.
ghost use Rattle.std.specs.Prelude.{◌≡◌, ◌++◌, ◌∷◌, [], List, OnErr, OnOk};
ghost use Rattle.std.specs.List.Sorted.{IsPermutation, IsSorted, IsStable};
ghost use Rattle.std.specs.Ordering.{is_lt};
ghost use Rattle.finding_counts.specs.CodeCounts.{IsCountOf, count_order, count_rank, first_place, run_place_order, row_order, zones_after};
ghost use Rattle.finding_counts.specs.declared.code_count.FindingPlace.{FindingPlace};

use dns_lexer::position::Position;
use finding_codes::code::{Code, Severity};
use std::alloc::{AllocError, Allocator};
use std::cmp::Ordering;

/// The place of a finding in a run over zones.
#[derive(Clone, Copy)]
pub struct FindingPlace {
    /// Number of zones that were checked before its zone.
    pub zone: usize,
    /// Number of files of the zone that were opened before its file.
    pub file: usize,
    /// Position in its file.
    pub position: Position,
}

/// The number of findings with one severity and one code.
#[derive(Clone, Copy)]
pub struct CodeCount {
    pub severity: Severity,
    pub code: Code,
    /// Number of findings, up to the greatest number.
    pub findings: usize,
    /// Number of zones that have one.
    pub zones: usize,
    /// Number of zones that were checked before the last that has one.
    pub last_zone: usize,
    /// Place of the first one.
    pub first: FindingPlace,
}

/// The number of findings with one severity and one code, and the file of the first.
#[derive(Drop)]
pub struct CodeRow<T> {
    pub count: CodeCount,
    pub file: T,
}

/// Compares two places: by zone, then by file as read, then by line, and then by column.
fn compare_places(left: &FindingPlace, right: &FindingPlace) -> Ordering
    ensures { result ≡ run_place_order left.now right.now }
{
    left.zone
        .cmp(&right.zone)
        .then(left.file.cmp(&right.file))
        .then(left.position.line.cmp(&right.position.line))
        .then(left.position.column.cmp(&right.position.column))
}

/// Returns whether a place is before another.
fn is_before(left: &FindingPlace, right: &FindingPlace) -> bool
    ensures { result ≡ is_lt (run_place_order left.now right.now) }
{
    compare_places(left, right).is_lt()
}

impl CodeCount {
    /// Returns the count of one finding.
    pub fn new(severity: Severity, code: Code, place: FindingPlace) -> CodeCount
        ensures severity { result.severity ≡ severity }
        ensures code { result.code ≡ code }
        ensures one { IsCountOf place [] result }
        ensures zones { result.zones ≡ 1 }
        ensures last { result.last_zone ≡ place.zone }
    {
        CodeCount {
            severity,
            code,
            findings: 1,
            zones: 1,
            last_zone: place.zone,
            first: place,
        }
    }

    /// Returns whether it counts findings with a severity and a code.
    pub fn is_of(&self, severity: Severity, code: Code) -> bool {
        self.severity == severity && self.code == code
    }

    /// Counts one more finding, and returns whether it is the first by place. The findings of a zone
    /// are counted one after another.
    pub fn add(&mut self, place: FindingPlace) -> bool
        ensures severity { self.new.severity ≡ self.old.severity }
        ensures code { self.new.code ≡ self.old.code }
        ensures counted { (one : FindingPlace) (found : List FindingPlace)
            → IsCountOf one found self.old → IsCountOf one (found ++ place ∷ []) self.new }
        ensures zones { self.new.zones ≡ zones_after place self.old }
        ensures last { self.new.last_zone ≡ place.zone }
        ensures first { result ≡ is_lt (run_place_order place self.old.first) }
    {
        self.findings = self.findings.saturating_add(1);
        if self.last_zone != place.zone {
            self.zones = self.zones.saturating_add(1);
        }
        self.last_zone = place.zone;
        let is_first = is_before(&place, &self.first);
        if is_first {
            self.first = place;
        }
        is_first
    }
}

/// Returns the rank of a severity: errors come first.
fn rank_of(severity: Severity) -> usize
    ensures { result ≡ count_rank severity }
{
    match severity {
        Severity::Error => 0,
        Severity::Warning => 1,
    }
}

/// Compares two counts: errors first, then the greater number of findings, then the codes by name.
fn compare_counts(left: &CodeCount, right: &CodeCount) -> Ordering
    ensures { result ≡ count_order left.now right.now }
{
    rank_of(left.severity)
        .cmp(&rank_of(right.severity))
        .then(right.findings.cmp(&left.findings))
        .then(
            left.code
                .name()
                .as_bytes()
                .cmp(right.code.name().as_bytes()),
        )
}

/// Sorts counts: errors first, then the greater number of findings, then the codes by name. Fails
/// without memory; the counts are then unchanged.
pub fn sort_rows<T: Drop, A: Allocator>(rows: &mut Vec<CodeRow<T>, A>) -> Result<(), AllocError>
    ensures permutation { IsPermutation rows.old.items rows.new.items }
    ensures stable { IsStable row_order rows.old.items rows.new.items }
    ensures sorted { OnOk result (IsSorted row_order rows.new.items) }
    ensures unchanged { OnErr result (rows.new.items ≡ rows.old.items) }
{
    rows.sort_by(|left, right| compare_counts(&left.count, &right.count))
}
