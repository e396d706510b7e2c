//! Byte order marks.
ghost use Rattle.std.specs.Prelude.{◌≡◌, ◌≤◌, length};
ghost use Rattle.zone_format.specs.Refusal.{order_mark_length};

/// Returns the number of octets of a byte order mark at the start of a file: 3 of UTF-8, 2 of
/// UTF-16, or 0.
pub fn order_mark_len(octets: &[u8]) -> usize
    ensures length { result ≡ order_mark_length octets.now }
    ensures within { result ≤ length octets.now }
{
    if octets.starts_with(&[0xEF, 0xBB, 0xBF]) {
        3
    } else if octets.starts_with(&[0xFE, 0xFF]) || octets.starts_with(&[0xFF, 0xFE]) {
        2
    } else {
        0
    }
}
