//! Checks TLSA (RFC 6698 section 2.1) and SMIMEA (RFC 8162 section 2).
ghost use Rattle.std.specs.Prelude.{◌≡◌};
ghost use Rattle.record_rules.specs.LoneRules.{has_bad_association, has_unassigned};

/// Returns whether the octet at an offset is above the greatest that is assigned, and not 255, which
/// is for private use.
fn has_unassigned(data: &[u8], offset: usize, greatest: u8) -> bool
    ensures { result ≡ has_unassigned offset greatest «data».now }
{
    match data.get(offset) {
        Some(octet) => *octet > greatest && *octet != 255,
        None => false,
    }
}

/// Returns whether a field is not assigned: the certificate usage, in the second way the selector, and
/// in the third way the matching type.
pub(crate) fn has_bad_association(way: u8, data: &[u8]) -> bool
    ensures { result ≡ has_bad_association way «data».now }
{
    match way {
        0 => has_unassigned(data, 0, 3),
        1 => has_unassigned(data, 1, 1),
        _ => has_unassigned(data, 2, 2),
    }
}
