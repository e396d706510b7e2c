//! Checks NAPTR (RFC 3403 section 4.1).
ghost use Rattle.std.specs.Prelude.{◌≡◌};
ghost use Rattle.record_rules.specs.LoneRules.{after_services, has_bad_expression, has_two_results};

use crate::labels::{after_string, first_string, is_root};
use crate::regexp::is_substitution;
use mail_texts::parts::after_count;

/// Returns the octets after the services of a NAPTR.
fn after_services(data: &[u8]) -> &[u8]
    ensures { result.now ≡ after_services «data».now }
{
    after_string(after_string(after_count(data, 4)))
}

/// Returns whether the regexp is neither empty nor a substitution expression.
pub(crate) fn has_bad_expression(data: &[u8]) -> bool
    ensures { result ≡ has_bad_expression «data».now }
{
    let regexp = first_string(after_services(data));
    !regexp.is_empty() && !is_substitution(regexp)
}

/// Returns whether there are both a regexp and a replacement.
pub(crate) fn has_two_results(data: &[u8]) -> bool
    ensures { result ≡ has_two_results «data».now }
{
    let rest = after_services(data);
    !first_string(rest).is_empty() && !is_root(after_string(rest))
}
