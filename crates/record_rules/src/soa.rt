//! Checks SOA (RFC 1035 section 3.3.13).
ghost use Rattle.std.specs.Prelude.{◌≡◌};
ghost use Rattle.record_rules.specs.Labels.{name_labels};
ghost use Rattle.record_rules.specs.LoneRules.{has_early_expire, has_late_retry, has_long_minimum, has_mail_sign, is_one_mail_label, leading_number, soa_mail, soa_number};

use crate::labels::{LabelTest, after_name, any_label, first_label, has_at_sign, is_root};
use dns_octets::lowered::same_octets;
use mail_texts::parts::after_count;

/// Offsets of the numbers after the names, in octets.
const REFRESH: usize = 4;

const RETRY: usize = 8;

const EXPIRE: usize = 12;

const MINIMUM: usize = 16;

/// Returns whether the mail name has an `@`.
pub(crate) fn has_mail_sign(data: &[u8]) -> bool
    ensures { result ≡ has_mail_sign «data».now }
{
    any_label(after_name(data), LabelTest::AtSign)
}

/// Returns whether a name is one label other than `invalid`, without an `@`.
#[tactic(auto, using(crate::proofs::LabelSteps::one_label, crate::proofs::LabelSteps::one_none))]
fn is_one_mail_label(name: &[u8]) -> bool
    ensures { result ≡ is_one_mail_label (name_labels name.now) }
{
    match first_label(name) {
        Some((label, rest)) => {
            is_root(rest) && !has_at_sign(label) && !same_octets(label, b"invalid")
        }
        None => false,
    }
}

/// Returns whether the mail name is one label other than `invalid`, without an `@`.
pub(crate) fn has_one_mail_label(data: &[u8]) -> bool
    ensures { result ≡ is_one_mail_label (soa_mail «data».now) }
{
    is_one_mail_label(after_name(data))
}

/// Returns the number in the first four octets.
fn first_number(octets: &[u8]) -> Option<u32>
    ensures { result ≡ leading_number octets.now }
{
    match octets {
        [a, b, c, d, ..] => Some(u32::from_be_bytes([*a, *b, *c, *d])),
        _ => None,
    }
}

/// Returns the number at an offset after the names.
fn number(data: &[u8], offset: usize) -> Option<u32>
    ensures { result ≡ soa_number offset «data».now }
{
    first_number(after_count(after_name(after_name(data)), offset))
}

/// Returns whether retry is not below refresh.
pub(crate) fn has_late_retry(data: &[u8]) -> bool
    ensures { result ≡ has_late_retry «data».now }
{
    match (number(data, REFRESH), number(data, RETRY)) {
        (Some(refresh), Some(retry)) => refresh <= retry,
        _ => false,
    }
}

/// Returns whether expire is below the sum of refresh and retry.
pub(crate) fn has_early_expire(data: &[u8]) -> bool
    ensures { result ≡ has_early_expire «data».now }
{
    let Some(expire) = number(data, EXPIRE) else {
        return false;
    };
    match (number(data, REFRESH), number(data, RETRY)) {
        (Some(refresh), Some(retry)) => u64::from(expire) < u64::from(refresh) + u64::from(retry),
        _ => false,
    }
}

/// Returns whether minimum is above one day.
pub(crate) fn has_long_minimum(data: &[u8]) -> bool
    ensures { result ≡ has_long_minimum «data».now }
{
    match number(data, MINIMUM) {
        Some(minimum) => minimum > 86400,
        None => false,
    }
}
