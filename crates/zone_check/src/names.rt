//! Finds names, as they are spelled, that look like a slip.
ghost use Rattle.std.specs.Prelude.{◌≡◌, ◌≤◌, length};
ghost use Rattle.zone_check.specs.Names.{begins_label, ends_in_dot, ends_like, passed_with};

use dns_octets::lowered::same_octets;

/// Returns the number of octets that are skipped with one: a backslash escapes the octet after it.
fn passed_with(octet: u8) -> usize
    ensures { result ≡ passed_with octet }
{
    if octet == b'\\' { 2 } else { 1 }
}

/// Returns whether a name ends in a dot that is not escaped, so that no origin is appended to it
/// (RFC 1035 section 5.1).
pub fn ends_in_dot(text: &[u8]) -> bool
    ensures { result ≡ ends_in_dot text.now }
{
    let mut at = 0;
    while at < text.len() {
        let octet = text[at];
        if at + 1 == text.len() {
            return octet == b'.';
        }
        at += passed_with(octet);
    }
    false
}

/// Returns whether a label may begin at an offset: at the start, or after a dot.
fn begins_label(text: &[u8], at: usize) -> bool
    requires { at ≤ length text.now }
    ensures { result ≡ begins_label text.now at }
{
    at == 0 || text[at - 1] == b'.'
}

/// Returns whether a name ends like another, whose text has no dot at its end: it is that name, or
/// ends in a dot and that name, ignoring letter case. Escapes count as they are spelled.
pub fn ends_like(text: &[u8], other: &[u8]) -> bool
    ensures { result ≡ ends_like text.now other.now }
{
    if text.len() < other.len() {
        return false;
    }
    let at = text.len() - other.len();
    begins_label(text, at) && same_octets(&text[at..], other)
}
