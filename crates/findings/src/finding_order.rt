//! Sorts findings that are kept until all are known.
ghost use Rattle.std.specs.Prelude.{◌≡◌, OnErr, OnOk};
ghost use Rattle.std.specs.List.Sorted.{IsPermutation, IsSorted, IsStable};
ghost use Rattle.std.specs.Ordering.{is_lt};
ghost use Rattle.findings.specs.FindingOrder.{kept_position, kept_weight, place_order, position_order, severity_rank, weight_order};

use dns_lexer::position::Position;
use finding_codes::code::{Code, Severity};
use std::alloc::{AllocError, Allocator};
use std::cmp::Ordering;

/// A finding that was counted, and may be shown.
#[derive(Clone, Copy)]
pub struct KeptFinding {
    /// Number of files that were opened before its file.
    pub file: usize,
    /// Position in its file.
    pub position: Position,
    /// Number of findings that were kept before it.
    pub index: usize,
    pub code: Code,
    pub severity: Severity,
}

/// A finding that is kept until all are known, with its text.
#[derive(Drop)]
pub struct Kept<T> {
    pub finding: KeptFinding,
    pub text: T,
}

/// Returns the rank of a severity: errors come first.
fn severity_rank(severity: Severity) -> usize
    ensures { result ≡ severity_rank severity }
{
    match severity {
        Severity::Error => 0,
        Severity::Warning => 1,
    }
}

/// Compares the places of two findings: by file as read, then by line, and then by column.
fn compare_places(left: &KeptFinding, right: &KeptFinding) -> Ordering
    ensures { result ≡ place_order left.now right.now }
{
    left.file
        .cmp(&right.file)
        .then(left.position.line.cmp(&right.position.line))
        .then(left.position.column.cmp(&right.position.column))
}

/// Compares two findings by their places, and those at one place by which was found first.
fn compare_positions(left: &KeptFinding, right: &KeptFinding) -> Ordering
    ensures { result ≡ position_order left.now right.now }
{
    compare_places(left, right).then(left.index.cmp(&right.index))
}

/// Compares two findings by severity, errors first, and those of one severity by their positions.
fn compare_weights(left: &KeptFinding, right: &KeptFinding) -> Ordering
    ensures { result ≡ weight_order left.now right.now }
{
    severity_rank(left.severity)
        .cmp(&severity_rank(right.severity))
        .then(compare_positions(left, right))
}

/// Returns whether a finding comes before another by weight.
pub fn outweighs(left: &KeptFinding, right: &KeptFinding) -> bool
    ensures { result ≡ is_lt (weight_order left.now right.now) }
{
    compare_weights(left, right).is_lt()
}

/// Sorts findings by severity, errors first, and those of one severity by their places. Fails
/// without memory; the findings are then unchanged.
pub fn sort_by_weight<T: Drop, A: Allocator>(
    findings: &mut Vec<Kept<T>, A>,
) -> Result<(), AllocError>
    ensures permutation { IsPermutation findings.old.items findings.new.items }
    ensures stable { IsStable kept_weight findings.old.items findings.new.items }
    ensures sorted { OnOk result (IsSorted kept_weight findings.new.items) }
    ensures unchanged { OnErr result (findings.new.items ≡ findings.old.items) }
{
    findings.sort_by(|left, right| compare_weights(&left.finding, &right.finding))
}

/// Sorts findings by their places: by file as read, then by line, and then by column. Findings at
/// one place are in the order in which they were found. Fails without memory; the findings are then
/// unchanged.
pub fn sort_by_position<T: Drop, A: Allocator>(
    findings: &mut Vec<Kept<T>, A>,
) -> Result<(), AllocError>
    ensures permutation { IsPermutation findings.old.items findings.new.items }
    ensures stable { IsStable kept_position findings.old.items findings.new.items }
    ensures sorted { OnOk result (IsSorted kept_position findings.new.items) }
    ensures unchanged { OnErr result (findings.new.items ≡ findings.old.items) }
{
    findings.sort_by(|left, right| compare_positions(&left.finding, &right.finding))
}
