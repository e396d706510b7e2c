//! Finds data of records that looks like a slip.
ghost use Rattle.std.specs.Prelude.{◌≡◌, drop, length};
ghost use Rattle.zone_check.specs.Data.{after_labels, has_empty_target, has_key_algorithm_zero, has_ohttp, has_ohttp_value, has_other_match_length, is_ohttp_with, match_length};

use rdata_values::RecordType;

/// Returns the number of octets of the hash of a matching type (RFC 6698 section 2.1.3).
fn match_length(matching: u8) -> Option<usize>
    ensures { result ≡ match_length matching }
{
    match matching {
        1 => Some(32),
        2 => Some(64),
        _ => None,
    }
}

/// Returns whether the data of a TLSA or SMIMEA has a wrong number of octets after its matching
/// type: other than 32 for SHA-256, or 64 for SHA-512 (RFC 6698 section 2.1, RFC 8162 section 2).
pub fn has_other_match_length(rtype: RecordType, data: &[u8]) -> bool
    ensures { result ≡ has_other_match_length rtype «data».now }
{
    if rtype != RecordType::TLSA && rtype != RecordType::SMIMEA {
        return false;
    }
    match data {
        [_, _, matching, hash @ ..] => match match_length(*matching) {
            Some(length) => hash.len() != length,
            None => false,
        },
        _ => false,
    }
}

/// Returns whether the data of a URI, whose target comes after two numbers of 16 bits, has an empty
/// target (RFC 7553 section 4.4).
pub fn has_empty_target(rtype: RecordType, data: &[u8]) -> bool
    ensures { result ≡ has_empty_target rtype «data».now }
{
    rtype == RecordType::URI && data.len() == 4
}

/// Returns whether the data of an IPSECKEY has the public key algorithm 0, which means that it has
/// no key (RFC 4025 section 2.4). Not all servers load such a record, whether it has a key or not.
pub fn has_key_algorithm_zero(rtype: RecordType, data: &[u8]) -> bool
    ensures { result ≡ has_key_algorithm_zero rtype «data».now }
{
    if rtype != RecordType::IPSECKEY {
        return false;
    }
    match data {
        [_, _, algorithm, ..] => *algorithm == 0,
        _ => false,
    }
}

/// Returns the octets after a number of them, or none if there are fewer.
fn after_count(octets: &[u8], count: usize) -> &[u8]
    ensures { result.now ≡ drop count octets.now }
{
    match octets.get(count..) {
        Some(rest) => rest,
        None => &[],
    }
}

/// Returns the octets after the name that octets begin with: labels, each with its length before it,
/// of which the root, of length 0, is the last (RFC 1035 section 3.1).
fn after_name(octets: &[u8]) -> &[u8]
    ensures { result.now ≡ after_labels (length octets.now) octets.now }
{
    let mut rest = octets;
    let mut most = octets.len();
    while most > 0 {
        let [count, labels @ ..] = rest else {
            return &[];
        };
        if *count == 0 {
            return labels;
        }
        rest = after_count(labels, usize::from(*count));
        most -= 1;
    }
    &[]
}

/// Returns whether the octets of a key are those of `ohttp`, and its value has octets.
fn is_ohttp_with(high: u8, low: u8, count: usize) -> bool
    ensures { result ≡ is_ohttp_with high low count }
{
    high == 0 && low == 8 && count > 0
}

/// Returns whether service parameters have the key `ohttp` with a value.
fn has_ohttp(parameters: &[u8]) -> bool
    ensures { result ≡ has_ohttp (length parameters.now) parameters.now }
{
    let mut rest = parameters;
    let mut most = parameters.len();
    while most > 0 {
        let [high, low, more, less, values @ ..] = rest else {
            return false;
        };
        let count = 256 * usize::from(*more) + usize::from(*less);
        if is_ohttp_with(*high, *low, count) {
            return true;
        }
        rest = after_count(values, count);
        most -= 1;
    }
    false
}

/// Returns whether the RDATA of SVCB or HTTPS have the key `ohttp` with a value, which it must not
/// have (RFC 9540 section 4).
pub fn has_ohttp_value(rtype: RecordType, data: &[u8]) -> bool
    ensures { result ≡ has_ohttp_value rtype «data».now }
{
    if rtype != RecordType::SVCB && rtype != RecordType::HTTPS {
        return false;
    }
    match data {
        [_, _, rest @ ..] => has_ohttp(after_name(rest)),
        _ => false,
    }
}
