//! Checks a record against the rules.
ghost use Rattle.std.specs.Prelude.{◌≡◌, ◌<◌, ◌≤◌, ◌+◌, ◌++◌, ◌∷◌, [], if◌then◌else◌, length, not, false};
ghost use Rattle.arrayvec.specs.ArrayVec.{array_vec_len};
ghost use Rattle.std.specs.Option.{option_map_or};
ghost use Rattle.record_rules.specs.Comments.{has_word_at_comment};
ghost use Rattle.record_rules.specs.FoundAlone.{found_alone, rules_of_text, ListsRulesOf};
ghost use Rattle.record_rules.specs.LoneRules.{begins_spf, begins_version, breaks_record_rule, has_bad_mail, has_bad_tag, has_bad_timer, has_version_words, is_association_type, is_cut_text, is_text_type};

use crate::caa::{has_bad_value, has_capital_tag, has_critical_tag, has_unknown_tag};
use crate::comments::has_word_at_comment;
use crate::labels::{after_string, first_string};
use crate::mail::{
    has_any_bad_key, has_bad_key, has_bad_policy, has_bad_spf, has_unused_spf, is_key_owner,
    is_policy_owner,
};
use crate::names::{has_address_target, has_inner_asterisk, is_bad_reverse, lacks_final_dot};
use crate::naptr::{has_bad_expression, has_two_results};
use crate::soa::{
    has_early_expire, has_late_retry, has_long_minimum, has_mail_sign, has_one_mail_label,
};
use crate::tlsa::has_bad_association;
use crate::written::Written;
use arrayvec::ArrayVec;
use finding_codes::code::Code;
use finding_codes::rule;
use finding_codes::rule::Rule;
use rdata_fields::RecordRef;
use rdata_values::RecordType;

/// All rules, in the order in which they are checked.
pub static LONE_RULES: [Rule; 40] = [
    rule!(SpfType, 0),
    rule!(NaptrRegexp, 0),
    rule!(NaptrBoth, 0),
    rule!(CaaTag, 0),
    rule!(CaaTag, 1),
    rule!(CaaTag, 2),
    rule!(SoaMail, 0),
    rule!(SoaMail, 1),
    rule!(SoaTimers, 0),
    rule!(SoaTimers, 1),
    rule!(SoaTimers, 2),
    rule!(ReverseName, 0),
    rule!(WildcardInside, 0),
    rule!(TargetAddress, 0),
    rule!(TxtWords, 0),
    rule!(CommentInData, 0),
    rule!(PtrDot, 0),
    rule!(TlsaField, 0),
    rule!(TlsaField, 1),
    rule!(TlsaField, 2),
    rule!(CaaValue, 0),
    rule!(CaaValue, 1),
    rule!(CaaValue, 2),
    rule!(Spf, 0),
    rule!(Spf, 1),
    rule!(Spf, 2),
    rule!(SpfUnused, 0),
    rule!(SpfUnused, 1),
    rule!(Dmarc, 0),
    rule!(Dmarc, 1),
    rule!(Dmarc, 2),
    rule!(Dmarc, 3),
    rule!(Dmarc, 4),
    rule!(Dmarc, 5),
    rule!(Dkim, 0),
    rule!(Dkim, 1),
    rule!(Dkim, 2),
    rule!(Dkim, 3),
    rule!(Dkim, 4),
    rule!(Dkim, 5),
];

/// Those for a record of any type.
static RULES_OF_ANY: [Rule; 2] = [rule!(WildcardInside, 0), rule!(TargetAddress, 0)];

/// Those for a PTR.
static RULES_OF_PTR: [Rule; 4] = [
    rule!(ReverseName, 0),
    rule!(WildcardInside, 0),
    rule!(TargetAddress, 0),
    rule!(PtrDot, 0),
];

/// Those for a TXT.
static RULES_OF_TXT: [Rule; 3] = [
    rule!(WildcardInside, 0),
    rule!(TxtWords, 0),
    rule!(CommentInData, 0),
];

/// Those for a TXT that may be an SPF record.
static RULES_OF_SENDERS: [Rule; 8] = [
    rule!(WildcardInside, 0),
    rule!(TxtWords, 0),
    rule!(CommentInData, 0),
    rule!(Spf, 0),
    rule!(Spf, 1),
    rule!(Spf, 2),
    rule!(SpfUnused, 0),
    rule!(SpfUnused, 1),
];

/// Those for a TXT at an owner of a DMARC record.
static RULES_OF_POLICY: [Rule; 14] = [
    rule!(WildcardInside, 0),
    rule!(TxtWords, 0),
    rule!(CommentInData, 0),
    rule!(Spf, 0),
    rule!(Spf, 1),
    rule!(Spf, 2),
    rule!(SpfUnused, 0),
    rule!(SpfUnused, 1),
    rule!(Dmarc, 0),
    rule!(Dmarc, 1),
    rule!(Dmarc, 2),
    rule!(Dmarc, 3),
    rule!(Dmarc, 4),
    rule!(Dmarc, 5),
];

/// Those for a TXT at an owner of a key of DKIM.
static RULES_OF_KEY: [Rule; 14] = [
    rule!(WildcardInside, 0),
    rule!(TxtWords, 0),
    rule!(CommentInData, 0),
    rule!(Spf, 0),
    rule!(Spf, 1),
    rule!(Spf, 2),
    rule!(SpfUnused, 0),
    rule!(SpfUnused, 1),
    rule!(Dkim, 0),
    rule!(Dkim, 1),
    rule!(Dkim, 2),
    rule!(Dkim, 3),
    rule!(Dkim, 4),
    rule!(Dkim, 5),
];

/// Those for an SPF.
static RULES_OF_SPF: [Rule; 3] = [
    rule!(SpfType, 0),
    rule!(WildcardInside, 0),
    rule!(CommentInData, 0),
];

/// Those for a NAPTR.
static RULES_OF_NAPTR: [Rule; 3] = [
    rule!(NaptrRegexp, 0),
    rule!(NaptrBoth, 0),
    rule!(WildcardInside, 0),
];

/// Those for a CAA.
static RULES_OF_CAA: [Rule; 8] = [
    rule!(CaaTag, 0),
    rule!(CaaTag, 1),
    rule!(CaaTag, 2),
    rule!(WildcardInside, 0),
    rule!(CommentInData, 0),
    rule!(CaaValue, 0),
    rule!(CaaValue, 1),
    rule!(CaaValue, 2),
];

/// Those for an SOA.
static RULES_OF_SOA: [Rule; 6] = [
    rule!(SoaMail, 0),
    rule!(SoaMail, 1),
    rule!(SoaTimers, 0),
    rule!(SoaTimers, 1),
    rule!(SoaTimers, 2),
    rule!(WildcardInside, 0),
];

/// Those for a TLSA or SMIMEA.
static RULES_OF_TLSA: [Rule; 4] = [
    rule!(WildcardInside, 0),
    rule!(TlsaField, 0),
    rule!(TlsaField, 1),
    rule!(TlsaField, 2),
];

/// Returns the rules that a TXT with an owner and RDATA may break, in the order of [`LONE_RULES`].
fn rules_of_text(owner: &[u8], data: &[u8]) -> &'static [Rule]
    ensures found { result.now ≡ rules_of_text owner.now «data».now }
    ensures few { length result.now ≤ 16 }
{
    if is_policy_owner(owner) {
        return &RULES_OF_POLICY;
    }
    if is_key_owner(owner) && has_any_bad_key(data) {
        return &RULES_OF_KEY;
    }
    if begins_spf(data) {
        return &RULES_OF_SENDERS;
    }
    &RULES_OF_TXT
}

/// Returns the rules that a record may break, in the order of [`LONE_RULES`].
#[tactic(auto, using(crate::proofs::TextLists::text_lists))]
fn rules_of(record: &RecordRef<'_>) -> &'static [Rule]
    ensures found { ListsRulesOf «record».now result.now }
    ensures few { length result.now ≤ 16 }
{
    match record.rtype {
        RecordType::PTR => &RULES_OF_PTR,
        RecordType::TXT => rules_of_text(record.owner, record.data),
        RecordType::SPF => &RULES_OF_SPF,
        RecordType::NAPTR => &RULES_OF_NAPTR,
        RecordType::CAA => &RULES_OF_CAA,
        RecordType::SOA => &RULES_OF_SOA,
        RecordType::TLSA | RecordType::SMIMEA => &RULES_OF_TLSA,
        _ => &RULES_OF_ANY,
    }
}

/// Returns whether a string begins with `v=`.
fn begins_version(text: &[u8]) -> bool
    ensures { result ≡ begins_version text.now }
{
    match text {
        [v, equals, ..] => (*v == b'v' || *v == b'V') && *equals == b'=',
        _ => false,
    }
}

/// Returns whether the first string of a TXT begins with `v=`, and another follows.
fn has_version_words(data: &[u8]) -> bool
    ensures { result ≡ has_version_words «data».now }
{
    begins_version(first_string(data)) && !after_string(data).is_empty()
}

/// Returns whether a first string begins with `v=s`, in any letter case.
fn begins_spf(data: &[u8]) -> bool
    ensures { result ≡ begins_spf «data».now }
{
    match data {
        [_, v, equals, s, ..] => {
            (*v == b'v' || *v == b'V') && *equals == b'=' && (*s == b's' || *s == b'S')
        }
        _ => false,
    }
}

/// Returns whether RDATA is known to be written without quotes.
fn is_unquoted(written: Option<Written<'_>>) -> bool
    ensures { result ≡ option_map_or (λ w. not w.has_quotes) written.entry false }
{
    match written {
        Some(text) => !text.has_quotes,
        None => false,
    }
}

/// Returns whether RDATA is known to end before a comment that follows a word at once.
fn ends_at_comment(written: Option<Written<'_>>) -> bool
    ensures { result ≡ option_map_or (λ w. has_word_at_comment w.last.now) written.entry false }
{
    match written {
        Some(text) => has_word_at_comment(text.last),
        None => false,
    }
}

/// Returns whether a comment begins in a text, or its words are joined without blanks.
fn is_cut_text(data: &[u8], written: Option<Written<'_>>) -> bool
    ensures { result ≡ is_cut_text «data».now written.entry }
{
    ends_at_comment(written) || (is_unquoted(written) && has_version_words(data))
}

/// Returns whether strings of RDATA of a type often have semicolons.
fn is_text_type(rtype: RecordType) -> bool
    ensures { result ≡ is_text_type rtype }
{
    matches!(rtype, RecordType::TXT | RecordType::SPF | RecordType::CAA)
}

/// Returns whether the tag of a CAA is bad: not known and not critical, not known and critical, and
/// in the third way known and with capital letters.
fn has_bad_tag(way: u8, data: &[u8]) -> bool
    ensures { result ≡ has_bad_tag way «data».now }
{
    match way {
        0 => has_unknown_tag(data),
        1 => has_critical_tag(data),
        _ => has_capital_tag(data),
    }
}

/// Returns whether the mail name of an SOA is bad: it has an `@`, and in the second way one label.
fn has_bad_mail(way: u8, data: &[u8]) -> bool
    ensures { result ≡ has_bad_mail way «data».now }
{
    match way {
        0 => has_mail_sign(data),
        _ => has_one_mail_label(data),
    }
}

/// Returns whether a timer of an SOA is bad: retry, expire, and in the third way the minimum.
fn has_bad_timer(way: u8, data: &[u8]) -> bool
    ensures { result ≡ has_bad_timer way «data».now }
{
    match way {
        0 => has_late_retry(data),
        1 => has_early_expire(data),
        _ => has_long_minimum(data),
    }
}

/// Returns whether records of a type associate certificates with a name.
fn is_association_type(rtype: RecordType) -> bool
    ensures { result ≡ is_association_type rtype }
{
    matches!(rtype, RecordType::TLSA | RecordType::SMIMEA)
}

/// Returns whether a record breaks a rule.
///
/// Some rules depend on how the RDATA was written. If that is not known, as for RDATA from a
/// message or in the form `\#`, the record doesn't break them.
pub fn breaks_rule(rule: Rule, record: &RecordRef<'_>, written: Option<Written<'_>>) -> bool
    ensures { result ≡ breaks_record_rule «record».now written.entry rule }
{
    let rtype = record.rtype;
    match rule.code {
        Code::SpfType => rtype == RecordType::SPF,
        Code::NaptrRegexp => rtype == RecordType::NAPTR && has_bad_expression(record.data),
        Code::NaptrBoth => rtype == RecordType::NAPTR && has_two_results(record.data),
        Code::CaaTag => rtype == RecordType::CAA && has_bad_tag(rule.way, record.data),
        Code::SoaMail => rtype == RecordType::SOA && has_bad_mail(rule.way, record.data),
        Code::SoaTimers => rtype == RecordType::SOA && has_bad_timer(rule.way, record.data),
        Code::ReverseName => rtype == RecordType::PTR && is_bad_reverse(record.owner),
        Code::WildcardInside => has_inner_asterisk(record.owner),
        Code::TargetAddress => has_address_target(record.owner, rtype, record.data),
        Code::TxtWords => {
            rtype == RecordType::TXT && is_unquoted(written) && has_version_words(record.data)
        }
        Code::CommentInData => is_text_type(rtype) && ends_at_comment(written),
        Code::PtrDot => rtype == RecordType::PTR && lacks_final_dot(record.owner, record.data),
        Code::TlsaField => {
            is_association_type(rtype) && has_bad_association(rule.way, record.data)
        }
        Code::CaaValue => {
            rtype == RecordType::CAA
                && has_bad_value(rule.way, record.data)
                && !ends_at_comment(written)
        }
        Code::Spf => {
            rtype == RecordType::TXT
                && begins_spf(record.data)
                && !is_cut_text(record.data, written)
                && has_bad_spf(rule.way, record.data)
        }
        Code::SpfUnused => {
            rtype == RecordType::TXT
                && begins_spf(record.data)
                && !is_cut_text(record.data, written)
                && has_unused_spf(rule.way, record.data)
        }
        Code::Dmarc => {
            rtype == RecordType::TXT
                && is_policy_owner(record.owner)
                && !is_cut_text(record.data, written)
                && has_bad_policy(rule.way, record.data)
        }
        Code::Dkim => {
            rtype == RecordType::TXT
                && is_key_owner(record.owner)
                && !is_cut_text(record.data, written)
                && has_bad_key(rule.way, record.data)
        }
        _ => false,
    }
}

/// Appends a rule, if it is broken.
fn add_if(is_broken: bool, rule: Rule, found: &mut ArrayVec<Rule, 16>)
    requires { array_vec_len found.old < 16 }
    ensures items { found.new.items ≡ found.old.items ++ (if is_broken then rule ∷ [] else []) }
    ensures len { array_vec_len found.new ≤ array_vec_len found.old + 1 }
{
    if is_broken {
        found.push(rule);
    }
}

/// Returns the rules that a record breaks, in the order of [`LONE_RULES`].
pub fn broken_rules(record: &RecordRef<'_>, written: Option<Written<'_>>) -> ArrayVec<Rule, 16>
    ensures { result.items ≡ found_alone «record».now written.entry }
{
    let mut found = ArrayVec::new();
    let rules = rules_of(record);
    for rule in rules {
        add_if(breaks_rule(*rule, record, written), *rule, &mut found);
    }
    found
}
