//! Comparison of octets without regard to the case of letters.
//!
//! The letters A to Z are compared as their lower case, in character strings and in names (RFC
//! 4343).
ghost use Rattle.std.specs.Prelude.{◌≡◌, fold};
ghost use Rattle.dns_octets.specs.Lowered.{same_lowered, lowered_order, hash_writes};

use std::cmp::Ordering;
use std::hash::{Hash, Hasher};

/// Returns whether the octets are equal without regard to the case of letters.
pub fn same_octets(left: &[u8], right: &[u8]) -> bool
    ensures { result ≡ same_lowered left.now right.now }
{
    left.eq_ignore_ascii_case(right)
}

/// Compares the octets in lower case: by the first difference, or else by length.
pub fn compare_lowered(left: &[u8], right: &[u8]) -> Ordering
    ensures { result ≡ lowered_order left.now right.now }
{
    let shared = left.len().min(right.len());
    for i in 0..shared {
        let order = left[i]
            .to_ascii_lowercase()
            .cmp(&right[i].to_ascii_lowercase());
        if order.is_ne() {
            return order;
        }
    }
    left.len().cmp(&right.len())
}

/// Feeds the octets in lower case to a hasher, one by one.
pub fn hash_lowered<H: Hasher>(octets: &[u8], state: &mut H)
    ensures { state.new ≡ fold H.write state.old (hash_writes octets.now) }
{
    for octet in octets {
        octet.to_ascii_lowercase().hash(state);
    }
}
