//! Checks the values of CAA (RFC 8659 sections 4.2 to 4.4, RFC 9495).
ghost use Rattle.std.specs.Prelude.{◌≡◌, ◌-◌, length};
ghost use Rattle.std.specs.List.{list_all, position, position_or_len};
ghost use Rattle.std.specs.Option.{option_copied};
ghost use Rattle.mail_texts.specs.Parts.{parts_between, passes_beyond};
ghost use Rattle.record_rules.specs.CaaValues.{are_parameters, beyond_wsp, is_alphanumeric_at, is_caa_label, is_issue_value, is_issuer, is_issuer_name, is_issuer_word, is_mail_url, is_mailbox, is_parameter, is_parameter_tag, is_parameter_value, is_report_url, is_some_text, is_tag_octet, is_not_wsp, is_value_octet, is_wsp, padded_word};

use mail_texts::parts::{after_count, after_prefix, first_octets, split_octet};

/// Returns whether an octet is a space or a tab.
fn is_wsp(octet: u8) -> bool
    ensures { result ≡ is_wsp octet }
{
    octet == b' ' || octet == b'\t'
}

/// Returns whether octets are spaces and tabs.
fn are_wsp(octets: &[u8]) -> bool
    ensures { result ≡ list_all is_wsp octets.now }
{
    octets.iter().all(|octet| is_wsp(*octet))
}

/// Returns the offset of the first octet that is neither a space nor a tab.
fn text_offset(octets: &[u8]) -> Option<usize>
    ensures { result ≡ position is_not_wsp octets.now }
{
    octets.iter().position(|octet| !is_wsp(*octet))
}

/// Returns the offset of the first space or tab.
fn wsp_offset(octets: &[u8]) -> Option<usize>
    ensures { result ≡ position is_wsp octets.now }
{
    octets.iter().position(|octet| is_wsp(*octet))
}

/// Returns the number of spaces and tabs with which octets begin.
#[tactic(auto, using(mail_texts::proofs::Splits::place_is, mail_texts::proofs::Splits::place_is_end))]
fn wsp_length(octets: &[u8]) -> usize
    ensures { result ≡ position_or_len is_not_wsp octets.now }
{
    match text_offset(octets) {
        Some(offset) => offset,
        None => octets.len(),
    }
}

/// Returns the number of octets before the first space or tab.
#[tactic(auto, using(mail_texts::proofs::Splits::place_is, mail_texts::proofs::Splits::place_is_end))]
fn word_length(octets: &[u8]) -> usize
    ensures { result ≡ position_or_len is_wsp octets.now }
{
    match wsp_offset(octets) {
        Some(offset) => offset,
        None => octets.len(),
    }
}

/// Returns the octets after spaces and tabs.
fn after_wsp(octets: &[u8]) -> &[u8]
    ensures { result.now ≡ beyond_wsp octets.now }
{
    after_count(octets, wsp_length(octets))
}

/// Returns the word in octets that have no other octets than spaces and tabs before and after it. It
/// may be empty.
fn padded_word(octets: &[u8]) -> Option<&[u8]>
    ensures { option_copied result ≡ padded_word octets.now }
{
    let rest = after_wsp(octets);
    let count = word_length(rest);
    if are_wsp(after_count(rest, count)) {
        Some(first_octets(rest, count))
    } else {
        None
    }
}

/// Returns whether an octet is a letter, a digit or a hyphen.
fn is_tag_octet(octet: u8) -> bool
    ensures { result ≡ is_tag_octet octet }
{
    octet.is_ascii_alphanumeric() || octet == b'-'
}

/// Returns whether octets begin with a letter or digit.
fn begins_alphanumeric(octets: &[u8]) -> bool
    ensures { result ≡ is_alphanumeric_at 0 octets.now }
{
    match octets.first() {
        Some(octet) => octet.is_ascii_alphanumeric(),
        None => false,
    }
}

/// Returns whether octets end with a letter or digit.
fn ends_alphanumeric(octets: &[u8]) -> bool
    ensures { result ≡ is_alphanumeric_at (length octets.now - 1) octets.now }
{
    match octets.last() {
        Some(octet) => octet.is_ascii_alphanumeric(),
        None => false,
    }
}

/// Returns whether octets are letters, digits and hyphens.
fn are_tag_octets(octets: &[u8]) -> bool
    ensures { result ≡ list_all is_tag_octet octets.now }
{
    octets.iter().all(|octet| is_tag_octet(*octet))
}

/// Returns whether octets are a label of a domain name, or a tag.
fn is_caa_label(label: &[u8]) -> bool
    ensures { result ≡ is_caa_label label.now }
{
    are_tag_octets(label) && begins_alphanumeric(label) && ends_alphanumeric(label)
}

/// Returns whether a word is a domain name: labels with dots between them.
#[tactic(auto, using(mail_texts::proofs::Splits::all_step, mail_texts::proofs::Splits::all_last))]
fn is_issuer_name(word: &[u8]) -> bool
    ensures { result ≡ is_issuer_name word.now }
{
    let mut rest = word;
    while let Some((label, after)) = split_octet(b'.', rest) {
        if !is_caa_label(label) {
            return false;
        }
        rest = after;
    }
    is_caa_label(rest)
}

/// Returns whether a word is empty or a domain name.
fn is_issuer_word(word: &[u8]) -> bool
    ensures { result ≡ is_issuer_word word.now }
{
    word.is_empty() || is_issuer_name(word)
}

/// Returns whether octets are a domain name or nothing, with spaces and tabs around it.
fn is_issuer(part: &[u8]) -> bool
    ensures { result ≡ is_issuer part.now }
{
    match padded_word(part) {
        Some(word) => is_issuer_word(word),
        None => false,
    }
}

/// Returns whether an octet can be in the value of a parameter.
fn is_value_octet(octet: u8) -> bool
    ensures { result ≡ is_value_octet octet }
{
    33 <= octet && octet <= 126 && octet != b';'
}

/// Returns whether octets can be the value of a parameter.
fn are_value_octets(octets: &[u8]) -> bool
    ensures { result ≡ list_all is_value_octet octets.now }
{
    octets.iter().all(|octet| is_value_octet(*octet))
}

/// Returns whether octets are the value of a parameter, with spaces and tabs around it.
fn is_parameter_value(octets: &[u8]) -> bool
    ensures { result ≡ is_parameter_value octets.now }
{
    match padded_word(octets) {
        Some(word) => are_value_octets(word),
        None => false,
    }
}

/// Returns whether octets are the tag of a parameter, with spaces and tabs around it.
fn is_parameter_tag(octets: &[u8]) -> bool
    ensures { result ≡ is_parameter_tag octets.now }
{
    match padded_word(octets) {
        Some(word) => is_caa_label(word),
        None => false,
    }
}

/// Returns whether octets are a parameter, with spaces and tabs around it.
#[tactic(auto, using(mail_texts::proofs::Splits::pair_split, mail_texts::proofs::Splits::pair_unsplit))]
fn is_parameter(part: &[u8]) -> bool
    ensures { result ≡ is_parameter part.now }
{
    match split_octet(b'=', part) {
        Some((tag, value)) => is_parameter_tag(tag) && is_parameter_value(value),
        None => false,
    }
}

/// Returns whether octets are parameters with semicolons between them. After the last semicolon there
/// may be none.
#[tactic(auto, using(crate::proofs::CaaParts::parameters_step, crate::proofs::CaaParts::parameters_stop, crate::proofs::CaaParts::parameters_last))]
fn are_parameters(octets: &[u8]) -> bool
    ensures { result ≡ are_parameters (parts_between 59 octets.now) }
{
    let mut rest = octets;
    while let Some((part, after)) = split_octet(b';', rest) {
        if !is_parameter(part) {
            return false;
        }
        rest = after;
    }
    is_parameter(rest) || are_wsp(rest)
}

/// Returns whether octets are the value of issue, issuewild, issuemail or issuevmc.
#[tactic(auto, using(crate::proofs::CaaParts::issue_split, crate::proofs::CaaParts::issue_unsplit))]
pub(crate) fn is_issue_value(octets: &[u8]) -> bool
    ensures { result ≡ is_issue_value octets.now }
{
    match split_octet(b';', octets) {
        Some((issuer, parameters)) => is_issuer(issuer) && are_parameters(parameters),
        None => is_issuer(octets),
    }
}

/// Returns whether octets are not empty.
fn is_some_text(octets: &[u8]) -> bool
    ensures { result ≡ is_some_text octets.now }
{
    !octets.is_empty()
}

/// Returns whether octets have an at sign, and text before and after it.
#[tactic(auto, using(mail_texts::proofs::Splits::pair_split, mail_texts::proofs::Splits::pair_unsplit))]
fn is_mailbox(octets: &[u8]) -> bool
    ensures { result ≡ is_mailbox octets.now }
{
    match split_octet(b'@', octets) {
        Some((local, domain)) => is_some_text(local) && is_some_text(domain),
        None => false,
    }
}

/// Returns whether octets are a text in any letter case, and then more.
fn has_text_beyond(prefix: &[u8], octets: &[u8]) -> bool
    ensures { result ≡ passes_beyond prefix.now is_some_text octets.now }
{
    match after_prefix(prefix, octets) {
        Some(rest) => is_some_text(rest),
        None => false,
    }
}

/// Returns whether octets are a URL of the scheme mailto.
fn is_mail_url(octets: &[u8]) -> bool
    ensures { result ≡ is_mail_url octets.now }
{
    match after_prefix(b"mailto:", octets) {
        Some(rest) => is_mailbox(rest),
        None => false,
    }
}

/// Returns whether octets are a URL of the schemes mailto, http or https.
pub(crate) fn is_report_url(octets: &[u8]) -> bool
    ensures { result ≡ is_report_url octets.now }
{
    is_mail_url(octets)
        || has_text_beyond(b"http://", octets)
        || has_text_beyond(b"https://", octets)
}
