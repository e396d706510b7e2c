//! Collects findings until all are known.
ghost use Rattle.std.specs.Prelude.{◌≡◌, ◌++◌, ◌∷◌, ◌*◌, ◌<◌, [], List, Some, length, IfOk, OnErr, OnOk};
ghost use Rattle.std.specs.Option.{IfSome};
ghost use Rattle.findings.specs.Collected.{AreShownAlike, AreShownOf, HasCollected, HasKept, HasNotKept, HasOneMore, HasOneUnkept, IsFew, IsJudged, IsLastIfAny, ShowAlike, ShownOf, kept_finding, kept_if, number_after};
ghost use Rattle.findings.specs.FindingOrder.{AreAmong, ShownFindings, findings_of, first_findings, with_text};
ghost use Rattle.findings.specs.declared.collector.FoundFinding.{FoundFinding};

use crate::finding_order::{Kept, KeptFinding, outweighs, sort_by_position, sort_by_weight};
use crate::shown::{decide, severity_of};
use dns_lexer::position::Position;
use finding_codes::code::{Code, Severity};
use finding_codes::policy::Policy;
use finding_codes::tally::Tally;
use std::alloc::{AllocError, Global};

/// A finding, and what its severity depends on.
#[derive(Clone, Copy)]
pub struct FoundFinding {
    /// Number of files that were opened before its file.
    pub file: usize,
    /// Position in its file.
    pub position: Position,
    pub code: Code,
    /// Whether it keeps a record from being read.
    pub is_refused: bool,
    /// Whether an exception in effect names its code.
    pub is_excepted: bool,
}

/// Findings that are counted until all are known. Those that can't be shown are not kept: at most twice
/// the number that is shown are.
#[derive(Drop)]
pub struct FindingCollector<'p, T> {
    /// Which findings are left out, and which are errors.
    pub policy: Policy<'p>,
    pub tally: Tally,
    /// Number of findings that were counted, up to the greatest number.
    pub number: usize,
    /// Those of them that may be shown.
    pub kept: Vec<Kept<T>>,
    /// The last by weight of those that were kept when others were dropped.
    pub last: Option<KeptFinding>,
}

/// Returns a finding that is kept, with its severity and the number of those before it.
pub fn kept_finding(index: usize, finding: FoundFinding, severity: Severity) -> KeptFinding
    ensures { result ≡ kept_finding index finding severity }
{
    KeptFinding {
        file: finding.file,
        position: finding.position,
        index,
        code: finding.code,
        severity,
    }
}

/// Returns a finding with its severity, or nothing if it is left out.
fn kept_if(index: usize, finding: FoundFinding, severity: Option<Severity>) -> Option<KeptFinding>
    ensures { result ≡ kept_if index finding severity }
{
    match severity {
        Some(severity) => Some(kept_finding(index, finding, severity)),
        None => None,
    }
}

/// Returns the number of findings after one with a severity, or after one that is left out.
fn number_after(number: usize, severity: Option<Severity>) -> usize
    ensures { result ≡ number_after number (severity ∷ []) }
{
    match severity {
        Some(_) => number.saturating_add(1),
        None => number,
    }
}

/// Returns a finding, unless it can't be shown since it is not before the last one.
fn unless_last(judged: Option<KeptFinding>, last: Option<KeptFinding>) -> Option<KeptFinding>
    ensures same { IfSome result (λ k. judged ≡ Some k) }
    ensures alike { AreShownAlike last judged result }
{
    match (judged, last) {
        (Some(one), Some(last)) => {
            if outweighs(&one, &last) {
                Some(one)
            } else {
                None
            }
        }
        _ => judged,
    }
}

/// Drops the findings that are not shown, once there are twice the number that is. Fails without
/// memory; the findings are then unchanged.
fn drop_hidden<T: Drop>(
    kept: &mut Vec<Kept<T>>,
    last: &mut Option<KeptFinding>,
    most: usize,
) -> Result<(), AllocError>
    ensures alike { ShowAlike most (findings_of kept.old.items) (findings_of kept.new.items) }
    ensures last { IsLastIfAny most (findings_of kept.old.items) last.old
        → IsLastIfAny most (findings_of kept.new.items) last.new }
    ensures few { OnOk result (0 < most → length kept.new.items < 2 * most) }
    ensures among { AreAmong kept.new.items kept.old.items }
    ensures unchanged { OnErr result (kept.new.items ≡ kept.old.items) }
{
    if most == 0 {
        return Ok(());
    }
    if kept.len() / 2 < most {
        return Ok(());
    }
    sort_by_weight(kept)?;
    kept.truncate(most);
    *last = Some(kept[most - 1].finding);
    Ok(())
}

/// Keeps the first of some findings, up to a number, or all if that is 0.
fn keep_first<T: Drop>(findings: &mut Vec<Kept<T>>, most: usize)
    ensures { findings.new.items ≡ first_findings most findings.old.items }
{
    if most > 0 {
        findings.truncate(most);
    }
}

/// Chooses the first findings by weight, up to a number, or all if that is 0, and sorts them by their
/// places. Fails without memory.
fn choose_shown<T: Drop>(findings: &mut Vec<Kept<T>>, most: usize) -> Result<(), AllocError>
    ensures shown { OnOk result (ShownFindings most (findings_of findings.old.items)
        (findings_of findings.new.items)) }
    ensures among { AreAmong findings.new.items findings.old.items }
{
    sort_by_weight(findings)?;
    keep_first(findings, most);
    sort_by_position(findings)
}

impl<'p, T: Drop> FindingCollector<'p, T> {
    /// Returns a collector before the first finding. It shows at most `most` findings, or all if
    /// that is 0.
    pub fn new(alloc: Global, policy: Policy<'p>, most: usize) -> FindingCollector<'p, T>
        ensures policy { result.policy ≡ policy.entry }
        ensures most { result.tally.most ≡ most }
        ensures empty { result.kept.items ≡ [] }
        ensures none { HasCollected [] result }
    {
        FindingCollector {
            policy,
            tally: Tally::new(most),
            number: 0,
            kept: Vec::new(alloc),
            last: None,
        }
    }

    /// Counts a finding, and returns it if it may be shown.
    pub fn judge(&mut self, finding: FoundFinding) -> Option<KeptFinding>
        ensures policy { self.new.policy ≡ self.old.policy }
        ensures most { self.new.tally.most ≡ self.old.tally.most }
        ensures kept { self.new.kept.items ≡ self.old.kept.items }
        ensures judged { IsJudged self.old.policy self.old.number finding result }
        ensures added { HasOneMore finding result self.old self.new }
    {
        let severity = severity_of(
            &self.policy,
            finding.code,
            finding.is_refused,
            finding.is_excepted,
        );
        let judged = kept_if(self.number, finding, severity);
        self.number = number_after(self.number, severity);
        decide(&mut self.tally, severity);
        unless_last(judged, self.last)
    }

    /// Keeps a finding that [`FindingCollector::judge`] returned last, with its text. Fails without
    /// memory; it is then not kept.
    pub fn keep(&mut self, finding: KeptFinding, text: T) -> Result<(), AllocError>
        ensures policy { self.new.policy ≡ self.old.policy }
        ensures most { self.new.tally.most ≡ self.old.tally.most }
        ensures few { OnOk result (IsFew self.old.tally.most self.new.kept.items) }
        ensures among { AreAmong self.new.kept.items
            (self.old.kept.items ++ with_text finding text ∷ []) }
        ensures kept { OnOk result (HasKept finding self.old self.new) }
        ensures unchanged { OnErr result (HasNotKept finding self.old self.new) }
    {
        drop_hidden(&mut self.kept, &mut self.last, self.tally.most)?;
        self.kept.push(Kept { finding, text })?;
        Ok(())
    }

    /// Counts a finding, and keeps it with its text if it may be shown. Fails without memory; it is then
    /// counted, but not kept.
    pub fn add(&mut self, finding: FoundFinding, text: T) -> Result<(), AllocError>
        ensures policy { self.new.policy ≡ self.old.policy }
        ensures most { self.new.tally.most ≡ self.old.tally.most }
        ensures few { OnOk result (IsFew self.old.tally.most self.old.kept.items
            → IsFew self.old.tally.most self.new.kept.items) }
        ensures added { OnOk result ((found : List FoundFinding) → HasCollected found self.old
            → HasCollected (found ++ finding ∷ []) self.new) }
        ensures unkept { OnErr result (HasOneUnkept finding self.old self.new) }
    {
        match self.judge(finding) {
            Some(judged) => self.keep(judged, text),
            None => Ok(()),
        }
    }

    /// Returns the findings that are shown, in the order of their places. Fails without memory.
    pub fn finish(self) -> Result<Vec<Kept<T>>, AllocError>
        ensures shown { IfOk result (λ shown. AreShownOf self.entry shown.items) }
        ensures among { IfOk result (λ shown. AreAmong shown.items self.entry.kept.items) }
    {
        let mut kept = self.kept;
        choose_shown(&mut kept, self.tally.most)?;
        Ok(kept)
    }
}

/// Returns those of some findings that are shown, in the order of their places, or all if `most` is 0.
/// They have no texts. Fails without memory.
pub fn show_findings(
    alloc: Global,
    policy: Policy<'_>,
    most: usize,
    findings: &[FoundFinding],
) -> Result<Vec<Kept<()>>, AllocError>
    ensures { IfOk result (λ shown. ShownOf policy.entry most findings.now
        (findings_of shown.items)) }
{
    let mut collector = FindingCollector::new(alloc, policy, most);
    for finding in findings {
        collector.add(*finding, ())?;
    }
    collector.finish()
}
