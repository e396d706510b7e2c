//! Decides which findings are shown.
ghost use Rattle.std.specs.Prelude.{◌≡◌, ◌++◌, List, option_to_list};
ghost use Rattle.findings.specs.Shown.{IsSeverity, can_be_excepted, decision_for};
ghost use Rattle.finding_codes.specs.Tally.{IsTally};
ghost use Rattle.finding_codes.specs.declared.code.Severity.{Severity};

use finding_codes::code::{Code, Severity};
use finding_codes::policy::Policy;
use finding_codes::tally::Tally;

/// What becomes of a finding.
#[derive(Clone, Copy)]
pub enum Decision {
    /// It is counted and shown, with a severity.
    Shown(Severity),
    /// It is counted, but not shown, since enough others were.
    Counted(Severity),
    /// It is neither counted nor shown.
    Omitted,
}

/// Returns whether an exception may except a finding. Malformed text can't be excepted, nor can a
/// finding that keeps a record from being read.
pub fn can_be_excepted(code: Code, is_refused: bool) -> bool
    ensures { result ≡ can_be_excepted code is_refused }
{
    !is_refused && !code.is_text_fault()
}

/// Returns the severity of a finding, or `None` if it is left out. `is_refused` is set if it keeps a
/// record from being read. `is_excepted` is set if an exception in effect names its code.
///
/// Malformed text is an error, and so is a finding that keeps a record from being read. Any other
/// finding is left out if it is excepted or allowed. Else it is an error if it is denied, or if all
/// are; and else it has the severity of its code.
pub fn severity_of(
    policy: &Policy<'_>,
    code: Code,
    is_refused: bool,
    is_excepted: bool,
) -> Option<Severity>
    ensures { IsSeverity policy.now code is_refused is_excepted result }
{
    if !is_excepted {
        return policy.severity(code, is_refused);
    }
    if can_be_excepted(code, is_refused) {
        return None;
    }
    policy.severity(code, is_refused)
}

/// Counts a finding by its severity, and decides whether it is shown.
pub fn decide(tally: &mut Tally, severity: Option<Severity>) -> Decision
    ensures most { tally.new.most ≡ tally.old.most }
    ensures decides { (before : List Severity) → IsTally before tally.old
        → result ≡ decision_for tally.old.most before severity }
    ensures counts { (before : List Severity) → IsTally before tally.old
        → IsTally (before ++ option_to_list severity) tally.new }
{
    match severity {
        Some(severity) => {
            if tally.count(severity) {
                Decision::Shown(severity)
            } else {
                Decision::Counted(severity)
            }
        }
        None => Decision::Omitted,
    }
}
