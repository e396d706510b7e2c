//! Finds what is reported about the records of a zone.
ghost use Rattle.std.specs.Prelude.{◌≡◌, ◌++◌, OnOk, option_to_list};
ghost use Rattle.std.specs.List.{list_any};
ghost use Rattle.zone_check.specs.ZoneFindings.{FindingsAfter, directives_after, is_at_target, is_repeat, is_reported_rule, is_same_directive, reported_finding, repeated_directive, zone_finding};

use finding_codes::code::Code;
use finding_codes::rule::Rule;
use finding_codes::table::Part;
use std::alloc::{AllocError, Global};
use zone_rules::Finding;

/// What was read of a zone.
#[derive(Clone, Copy)]
pub struct ZoneContext {
    /// Whether the records are those of a zone.
    pub is_zone: bool,
    /// Whether records are unread.
    pub has_gap: bool,
}

/// A directive that generated a record.
#[derive(Clone, Copy)]
pub struct DirectiveLine {
    /// Number of files that were opened before its file.
    pub file: usize,
    pub line: usize,
}

/// A broken rule.
#[derive(Clone, Copy)]
pub struct BrokenRule {
    pub finding: Finding,
    /// The directive that generated the record, if one did.
    pub directive: Option<DirectiveLine>,
}

/// A finding about the records of a zone.
#[derive(Clone, Copy)]
pub struct ZoneFinding {
    pub rule: Rule,
    /// Index of the record, or `None` if it is about the zone.
    pub record: Option<usize>,
    /// Whether it is about the target in the RDATA.
    pub is_at_target: bool,
}

/// Returns whether findings with a code are at the target in the RDATA.
pub fn is_at_target(code: Code) -> bool
    ensures { result ≡ is_at_target code }
{
    matches!(code.row().part, Part::Target)
}

/// Returns whether findings of a rule are reported. Without a zone only those of RRsets are. Missing
/// records are reported only if all records were read.
fn is_reported_rule(rule: Rule, context: ZoneContext) -> bool
    ensures { result ≡ is_reported_rule rule context }
{
    match rule.code {
        Code::Duplicate | Code::TtlDiffers => true,
        code => context.is_zone && !(context.has_gap && code.is_of_absence()),
    }
}

/// Returns the finding about a broken rule.
fn zone_finding(finding: Finding) -> ZoneFinding
    ensures { result ≡ zone_finding finding }
{
    ZoneFinding {
        rule: finding.rule,
        record: finding.record,
        is_at_target: is_at_target(finding.rule.code),
    }
}

/// Returns the finding about a broken rule, if it is reported.
fn reported_finding(finding: Finding, context: ZoneContext) -> Option<ZoneFinding>
    ensures { result ≡ reported_finding context finding }
{
    if is_reported_rule(finding.rule, context) {
        Some(zone_finding(finding))
    } else {
        None
    }
}

/// Returns whether two directives are the same.
fn is_same_directive(one: DirectiveLine, other: DirectiveLine) -> bool
    ensures { result ≡ is_same_directive one other }
{
    one.file == other.file && one.line == other.line
}

/// Returns the directive of a duplicate, if one generated it.
fn repeated_directive(broken: &BrokenRule) -> Option<DirectiveLine>
    ensures { result ≡ repeated_directive broken.now }
{
    match broken.finding.rule.code {
        Code::Duplicate => broken.directive,
        _ => None,
    }
}

/// Returns whether a directive is one of some.
fn is_listed(directive: DirectiveLine, seen: &[DirectiveLine]) -> bool
    ensures { result ≡ list_any (is_same_directive directive) seen.now }
{
    for other in seen {
        if is_same_directive(directive, *other) {
            return true;
        }
    }
    false
}

/// Returns whether a directive, if there is one, is one of some.
fn is_repeat(directive: Option<DirectiveLine>, seen: &[DirectiveLine]) -> bool
    ensures { result ≡ is_repeat seen.now directive }
{
    match directive {
        Some(directive) => is_listed(directive, seen),
        None => false,
    }
}

/// Appends a directive, if there is one.
fn append_directive(
    directive: Option<DirectiveLine>,
    seen: &mut Vec<DirectiveLine>,
) -> Result<(), AllocError>
    ensures { OnOk result (seen.new.items ≡ seen.old.items ++ option_to_list directive) }
{
    if let Some(directive) = directive {
        seen.push(directive)?;
    }
    Ok(())
}

/// Appends a finding, if there is one.
fn append_finding(
    finding: Option<ZoneFinding>,
    found: &mut Vec<ZoneFinding>,
) -> Result<(), AllocError>
    ensures { OnOk result (found.new.items ≡ found.old.items ++ option_to_list finding) }
{
    if let Some(finding) = finding {
        found.push(finding)?;
    }
    Ok(())
}

/// Appends the findings about the records of a zone, in the order of the broken rules. The
/// duplicates of a directive are reported once: `seen` has the directives of those before, and then
/// these too. So the rules of a zone can be given in parts. Fails without memory.
pub fn find_in_zone(
    broken: &[BrokenRule],
    context: ZoneContext,
    seen: &mut Vec<DirectiveLine>,
    found: &mut Vec<ZoneFinding>,
) -> Result<(), AllocError>
    ensures found { OnOk result (FindingsAfter context seen.old.items broken.now
        found.old.items found.new.items) }
    ensures seen { OnOk result (seen.new.items ≡ directives_after seen.old.items broken.now) }
{
    for one in broken {
        let directive = repeated_directive(one);
        if !is_repeat(directive, seen.as_slice()) {
            append_directive(directive, seen)?;
            append_finding(reported_finding(one.finding, context), found)?;
        }
    }
    Ok(())
}
