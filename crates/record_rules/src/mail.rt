//! Checks TXT records for mail: SPF (RFC 7208), DMARC (RFC 7489), and keys of DKIM (RFC 6376).
ghost use Rattle.std.specs.Prelude.{◌≡◌};
ghost use Rattle.record_rules.specs.Labels.{name_labels};
ghost use Rattle.record_rules.specs.LoneRules.{has_bad_spf, has_joint, has_unused_spf, is_bad_spf_text};
ghost use Rattle.record_rules.specs.MailTexts.{has_any_bad_key, has_bad_key, has_bad_policy, is_key_owner, is_no_selector, is_policy_owner};

use crate::labels::{LabelTest, any_label, first_label, is_key_zone};
use dns_octets::lowered::same_octets;
use mail_texts::{
    MOST, has_any_bad_dkim, has_bad_dkim, has_bad_dmarc, has_bad_spf_term, has_repeated_modifier,
    has_unused_term, is_spf_text, joined, joint_index,
};

/// Returns whether the first label of a name is `_dmarc`.
#[tactic(auto, using(crate::proofs::MailNames::policy_label, crate::proofs::MailNames::policy_none))]
pub(crate) fn is_policy_owner(owner: &[u8]) -> bool
    ensures { result ≡ is_policy_owner (name_labels owner.now) }
{
    match first_label(owner) {
        Some((label, _)) => same_octets(label, b"_dmarc"),
        None => false,
    }
}

/// Returns whether the first label of a name below `_domainkey` is not that of a key.
fn is_no_selector(label: &[u8]) -> bool
    ensures { result ≡ is_no_selector label.now }
{
    is_key_zone(label)
        || same_octets(label, b"_adsp")
        || same_octets(label, b"_report")
        || same_octets(label, b"_dmarc")
}

/// Returns whether a label of a name is `_domainkey`, and the first is that of a key.
#[tactic(auto, using(crate::proofs::MailNames::key_label, crate::proofs::MailNames::key_none))]
pub(crate) fn is_key_owner(owner: &[u8]) -> bool
    ensures { result ≡ is_key_owner (name_labels owner.now) }
{
    match first_label(owner) {
        Some((label, _)) => !is_no_selector(label) && any_label(owner, LabelTest::KeyZone),
        None => false,
    }
}

/// Returns whether strings are a DMARC record that is wrong in a way.
pub(crate) fn has_bad_policy(way: u8, data: &[u8]) -> bool
    ensures { result ≡ has_bad_policy way «data».now }
{
    data.len() <= MOST && has_bad_dmarc(way, joined(data).as_slice())
}

/// Returns whether strings are a key of DKIM that is wrong in a way.
pub(crate) fn has_bad_key(way: u8, data: &[u8]) -> bool
    ensures { result ≡ has_bad_key way «data».now }
{
    data.len() <= MOST && has_bad_dkim(way, joined(data).as_slice())
}

/// Returns whether strings are a key of DKIM that is wrong.
#[inline(never)]
pub(crate) fn has_any_bad_key(data: &[u8]) -> bool
    ensures { result ≡ has_any_bad_key «data».now }
{
    data.len() <= MOST && has_any_bad_dkim(joined(data).as_slice())
}

/// Returns whether strings are joined between terms without a blank.
fn has_joint(data: &[u8]) -> bool
    ensures { result ≡ has_joint «data».now }
{
    match joint_index(data) {
        Some(_) => true,
        None => false,
    }
}

/// Returns whether a text is an SPF record with a malformed term, or in the second way with a modifier
/// that is repeated.
fn is_bad_spf_text(way: u8, text: &[u8]) -> bool
    ensures { result ≡ is_bad_spf_text way text.now }
{
    if way == 0 {
        has_bad_spf_term(text)
    } else {
        has_repeated_modifier(text)
    }
}

/// Returns whether strings are an SPF record with a malformed term, in the second way with a modifier
/// that is repeated, and in the third way joined between terms without a blank.
#[inline(never)]
pub(crate) fn has_bad_spf(way: u8, data: &[u8]) -> bool
    ensures { result ≡ has_bad_spf way «data».now }
{
    if data.len() > MOST {
        return false;
    }
    if way == 2 {
        return has_joint(data) && is_spf_text(joined(data).as_slice());
    }
    !has_joint(data) && is_bad_spf_text(way, joined(data).as_slice())
}

/// Returns whether strings are an SPF record with a term that no receiver reaches.
#[inline(never)]
pub(crate) fn has_unused_spf(way: u8, data: &[u8]) -> bool
    ensures { result ≡ has_unused_spf way «data».now }
{
    data.len() <= MOST && !has_joint(data) && has_unused_term(way, joined(data).as_slice())
}
