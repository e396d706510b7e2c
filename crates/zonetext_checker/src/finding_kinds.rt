//! Kinds of findings about an entry.
use finding_codes::code::Code;
use zone_check::finding::{About, EntryFinding};

/// Returns whether a relative name without an origin is among findings.
pub fn has_no_origin(found: &[EntryFinding]) -> bool {
    for finding in found {
        if finding.code == Code::NoOrigin {
            return true;
        }
    }
    false
}

/// Returns whether a finding is that of a quote or a parenthesis that is not closed.
pub fn is_unclosed(found: &[EntryFinding]) -> bool {
    for finding in found {
        if matches!(finding.code, Code::OpenQuote | Code::OpenParenthesis) {
            return true;
        }
    }
    false
}

/// Returns whether a finding is about a name that Knot rejects, which is reported once a file.
pub fn is_bare_name(finding: &EntryFinding) -> bool {
    finding.code == Code::Unportable
        && matches!(finding.about, About::RuleAtToken(rule) if rule.way == 0)
}

/// Returns whether a finding is one of those beside which it is not reported that Knot rejects the name.
fn is_before_bare_name(finding: &EntryFinding) -> bool {
    matches!(
        finding.code,
        Code::WildcardInside | Code::SoaMail | Code::HighOctet
    )
}

/// Returns whether one of some findings is about the word of another one, and the only one about that
/// which is reported.
pub fn has_other_of_word(found: &[EntryFinding], finding: &EntryFinding) -> bool {
    let end = finding.start.saturating_add(finding.width);
    for other in found {
        if is_before_bare_name(other) && other.start >= finding.start && other.start < end {
            return true;
        }
    }
    false
}
