//! Checks CAA (RFC 8659 section 4.1).
ghost use Rattle.std.specs.Prelude.{◌≡◌};
ghost use Rattle.record_rules.specs.LoneRules.{caa_tag, caa_value, has_bad_issuer, has_bad_report, has_bad_value, has_unknown_flags, is_issue_tag, has_capital, has_capital_tag, has_critical_tag, has_unknown_tag, is_critical, is_known_tag};

use crate::caa_values::{is_issue_value, is_report_url};
use crate::labels::{after_string, first_string};
use dns_octets::lowered::same_octets;
use mail_texts::parts::after_count;

/// Returns the tag of a CAA.
fn tag(data: &[u8]) -> &[u8]
    ensures { result.now ≡ caa_tag «data».now }
{
    first_string(after_count(data, 1))
}

/// Returns whether a tag is known.
fn is_known(tag: &[u8]) -> bool
    ensures { result ≡ is_known_tag tag.now }
{
    same_octets(tag, b"issue")
        || same_octets(tag, b"issuewild")
        || same_octets(tag, b"issuemail")
        || same_octets(tag, b"issuevmc")
        || same_octets(tag, b"iodef")
        || same_octets(tag, b"contactemail")
        || same_octets(tag, b"contactphone")
}

/// Returns whether the flag is set that stops issuance if the tag is not known.
fn is_critical(data: &[u8]) -> bool
    ensures { result ≡ is_critical «data».now }
{
    match data.first() {
        Some(flags) => *flags >= 128,
        None => false,
    }
}

/// Returns whether octets have a capital letter.
fn has_capital(octets: &[u8]) -> bool
    ensures { result ≡ has_capital octets.now }
{
    octets.iter().any(|octet| octet.is_ascii_uppercase())
}

/// Returns whether the tag is not known, and not critical.
pub(crate) fn has_unknown_tag(data: &[u8]) -> bool
    ensures { result ≡ has_unknown_tag «data».now }
{
    !is_known(tag(data)) && !is_critical(data)
}

/// Returns whether the tag is not known, and critical.
pub(crate) fn has_critical_tag(data: &[u8]) -> bool
    ensures { result ≡ has_critical_tag «data».now }
{
    !is_known(tag(data)) && is_critical(data)
}

/// Returns whether the tag is known, and has a capital letter.
pub(crate) fn has_capital_tag(data: &[u8]) -> bool
    ensures { result ≡ has_capital_tag «data».now }
{
    is_known(tag(data)) && has_capital(tag(data))
}

/// Returns the value of a CAA.
fn value(data: &[u8]) -> &[u8]
    ensures { result.now ≡ caa_value «data».now }
{
    after_string(after_count(data, 1))
}

/// Returns whether the value of a tag names an issuer.
fn is_issue_tag(tag: &[u8]) -> bool
    ensures { result ≡ is_issue_tag tag.now }
{
    same_octets(tag, b"issue")
        || same_octets(tag, b"issuewild")
        || same_octets(tag, b"issuemail")
        || same_octets(tag, b"issuevmc")
}

/// Returns whether the tag asks for an issuer, and the value is not of its grammar.
fn has_bad_issuer(data: &[u8]) -> bool
    ensures { result ≡ has_bad_issuer «data».now }
{
    is_issue_tag(tag(data)) && !is_issue_value(value(data))
}

/// Returns whether the tag asks for a URL of reports, and the value has another form.
fn has_bad_report(data: &[u8]) -> bool
    ensures { result ≡ has_bad_report «data».now }
{
    same_octets(tag(data), b"iodef") && !is_report_url(value(data))
}

/// Returns whether the flags are neither 0 nor 128.
fn has_unknown_flags(data: &[u8]) -> bool
    ensures { result ≡ has_unknown_flags «data».now }
{
    match data.first() {
        Some(flags) => *flags != 0 && *flags != 128,
        None => false,
    }
}

/// Returns whether the value of a CAA is bad: that of an issuer, in the second way that of a URL, and in
/// the third way the flags are unknown.
pub(crate) fn has_bad_value(way: u8, data: &[u8]) -> bool
    ensures { result ≡ has_bad_value way «data».now }
{
    match way {
        0 => has_bad_issuer(data),
        1 => has_bad_report(data),
        _ => has_unknown_flags(data),
    }
}
