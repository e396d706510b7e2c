//! Checks substitution expressions of NAPTR (RFC 3402 section 3.2).
ghost use Rattle.std.specs.Prelude.{◌≡◌, ◌≤◌, ◌==◌, ◌&&◌, MatchOption, None, false, length};
ghost use Rattle.std.specs.List.{list_all, list_any};
ghost use Rattle.record_rules.specs.Substitutions.{IsDelimiterAt, IsSplitAtDelimiter, after_delimiter, group_count, is_delimiter, is_expression, is_plain_spot, is_reference_within, is_replacement, is_substitution, refers_within, spot_after, spot_listed, spot_opened};
ghost use Rattle.record_rules.specs.declared.regexp.Spot.TheVariants.{Plain};

/// Where an octet of an extended regular expression is (POSIX.1 sections 9.3.5 and 9.4).
#[derive(Clone, Copy)]
pub(crate) enum Spot {
    /// Outside of brackets.
    Plain,
    /// After a backslash.
    Escaped,
    /// First in brackets.
    Opened,
    /// First in brackets after a circumflex.
    Negated,
    /// In brackets.
    Listed,
    /// After an opening bracket in brackets.
    Nested,
    /// In a class, an equivalence class or a collating symbol, by the octet after its bracket.
    Class(u8),
    /// After an octet that may end it.
    Closing(u8),
}

/// Returns whether an octet can be a delimiter. RFC 3402 section 3.2 forbids the digits 1 to 9; BIND forbids
/// 0 too.
fn is_delimiter(octet: u8) -> bool
    ensures { result ≡ is_delimiter octet }
{
    !octet.is_ascii_digit() && octet != b'\\' && octet != b'i'
}

/// Returns the number of octets before the first delimiter that is not escaped, or `None` without
/// such a delimiter. The first octet is escaped or not.
fn delimiter_offset(delimiter: u8, escaped: bool, octets: &[u8]) -> Option<usize>
    ensures { MatchOption result
        (after_delimiter delimiter escaped octets.now ≡ None)
        (IsDelimiterAt delimiter escaped octets.now) }
{
    let [first, rest @ ..] = octets else {
        return None;
    };
    if !escaped && *first == delimiter {
        return Some(0);
    }
    match delimiter_offset(delimiter, !escaped && *first == b'\\', rest) {
        Some(offset) => Some(offset + 1),
        None => None,
    }
}

/// Splits octets at the first delimiter that is not escaped.
fn split_delimiter(delimiter: u8, octets: &[u8]) -> Option<(&[u8], &[u8])>
    ensures { MatchOption result
        (after_delimiter delimiter false octets.now ≡ None)
        (λ p. IsSplitAtDelimiter delimiter octets.now p.0.now p.1.now) }
{
    match delimiter_offset(delimiter, false, octets) {
        Some(offset) => Some((&octets[..offset], &octets[offset + 1..])),
        None => None,
    }
}

/// Returns where the octet after an octet in brackets is.
fn spot_listed(octet: u8) -> Spot
    ensures { result ≡ spot_listed octet }
{
    match octet {
        b']' => Spot::Plain,
        b'[' => Spot::Nested,
        _ => Spot::Listed,
    }
}

/// Returns where the octet after the first octet in brackets is.
fn spot_opened(octet: u8) -> Spot
    ensures { result ≡ spot_opened octet }
{
    match octet {
        b'[' => Spot::Nested,
        _ => Spot::Listed,
    }
}

/// Returns where the octet after another is.
fn spot_after(spot: Spot, octet: u8) -> Spot
    ensures { result ≡ spot_after spot octet }
{
    match spot {
        Spot::Plain => match octet {
            b'\\' => Spot::Escaped,
            b'[' => Spot::Opened,
            _ => Spot::Plain,
        },
        Spot::Escaped => Spot::Plain,
        Spot::Opened => match octet {
            b'^' => Spot::Negated,
            _ => spot_opened(octet),
        },
        Spot::Negated => spot_opened(octet),
        Spot::Listed => spot_listed(octet),
        Spot::Nested => match octet {
            b':' | b'.' | b'=' => Spot::Class(octet),
            _ => spot_listed(octet),
        },
        Spot::Class(mark) => {
            if octet == mark {
                Spot::Closing(mark)
            } else {
                Spot::Class(mark)
            }
        }
        Spot::Closing(mark) => {
            if octet == b']' {
                Spot::Listed
            } else if octet == mark {
                Spot::Closing(mark)
            } else {
                Spot::Class(mark)
            }
        }
    }
}

/// Returns whether an octet begins a group.
fn opens_group(spot: Spot, octet: u8) -> bool
    ensures { result ≡ (is_plain_spot spot && octet == 40) }
{
    matches!(spot, Spot::Plain) && octet == b'('
}

/// Returns the number of groups of an extended regular expression.
fn group_count(spot: Spot, octets: &[u8]) -> usize
    ensures value { result ≡ group_count spot octets.now }
    ensures few { result ≤ length octets.now }
{
    let [first, rest @ ..] = octets else {
        return 0;
    };
    let count = group_count(spot_after(spot, *first), rest);
    if opens_group(spot, *first) {
        count + 1
    } else {
        count
    }
}

/// Returns whether an octet after a backslash is not a digit, or refers to one of as many groups.
fn is_reference_within(count: usize, octet: u8) -> bool
    ensures { result ≡ is_reference_within count octet }
{
    !octet.is_ascii_digit() || (octet >= b'1' && usize::from(octet - b'0') <= count)
}

/// Returns whether each reference in a replacement is to one of as many groups.
fn refers_within(count: usize, escaped: bool, octets: &[u8]) -> bool
    ensures { result ≡ refers_within count escaped octets.now }
{
    let [first, rest @ ..] = octets else {
        return true;
    };
    if escaped {
        return is_reference_within(count, *first) && refers_within(count, false, rest);
    }
    refers_within(count, *first == b'\\', rest)
}

/// Returns whether octets are flags.
fn are_flags(octets: &[u8]) -> bool
    ensures { result ≡ list_all (λ o. o == 105) octets.now }
{
    octets.iter().all(|octet| *octet == b'i')
}

/// Returns whether octets are a replacement, a delimiter and flags.
fn is_replacement(delimiter: u8, count: usize, octets: &[u8]) -> bool
    ensures { result ≡ is_replacement delimiter count octets.now }
{
    match split_delimiter(delimiter, octets) {
        Some((replacement, flags)) => {
            refers_within(count, false, replacement) && are_flags(flags)
        }
        None => false,
    }
}

/// Returns whether octets are an extended regular expression, a delimiter, and after it a
/// replacement, a delimiter and flags.
fn is_expression(delimiter: u8, octets: &[u8]) -> bool
    ensures { result ≡ is_expression delimiter octets.now }
{
    match split_delimiter(delimiter, octets) {
        Some((expression, rest)) => {
            !expression.is_empty()
                && is_replacement(delimiter, group_count(Spot::Plain, expression), rest)
        }
        None => false,
    }
}

/// Returns whether octets have a NUL.
fn has_nul(octets: &[u8]) -> bool
    ensures { result ≡ list_any (λ o. o == 0) octets.now }
{
    octets.iter().any(|octet| *octet == 0)
}

/// Returns whether octets are a substitution expression.
pub(crate) fn is_substitution(octets: &[u8]) -> bool
    ensures { result ≡ is_substitution octets.now }
{
    let [delimiter, rest @ ..] = octets else {
        return false;
    };
    is_delimiter(*delimiter) && !has_nul(octets) && is_expression(*delimiter, rest)
}
